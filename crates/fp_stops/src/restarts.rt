//! What restarts give: of a log with two groups, of every stop of a making, and of logs that are damaged.
ghost use Rattle.fp_model.specs.LogText.{FitsEntry, FitsFront, FitsItem, KeepsRules};
ghost use Rattle.fp_model.specs.WellFormed.{AreDefs};
ghost use Rattle.memory_site.specs.Memory.{memory_reads};
ghost use Rattle.log_groups.specs.Images.{as_front};
ghost use Rattle.std.specs.Prelude.{◌≡◌, ◌+◌, ◌-◌, ◌<◌, ◌≤◌, ◌^◌, IfOk, length};

use crate::groups::{front_of, may_be_left, stopping_copy};
use crate::systems::{NOTES, defs_of};
use fp_model::{AreaEnds, Bytes, Db, Defs, Entry, Item, List, Outcome};
use fp_restart::{Parts, RestartFault, define, restart, whole_db};
use fp_site::Site;
use log_groups::{Front, Log};
use memory_site::MemorySite;
use std::alloc::{AllocError, Global};
use std::test::Fail;

// Where the first gate stands: behind the gate of the front, its 8 letters, and two texts of 1 byte behind their
// lengths.
const FIRST: u64 = 1 + 8 + (4 + 1) + (4 + 1);

// One account is loaded.
const LOADED: &str = "[[\"A001\", \"open\"]]\n";

// A data entry database of two areas, with six anchors and two.
const ORDERS: &str = "[[dedb]]
name = \"ORDERS\"
randomizer = \"FOLD\"
ci = 512
[[dedb.segment]]
name = \"ORDER\"
fields = [[\"ONO\", \"C\", 4]]
[[dedb.area]]
name = \"AREA1\"
uows = 2
base = 3
overflow = 1
[[dedb.area]]
name = \"AREA2\"
uows = 1
base = 2
overflow = 1
";

fn front(alloc: Global, scripts: u8) -> Result<Front, AllocError>
    ensures { IfOk result (λ front. FitsFront (as_front front)) }
{
    front_of(alloc, b"D", &[scripts])
}

// The definitions of the accounts,
fn accounts(alloc: Global) -> Result<Defs, Fail>
    ensures { IfOk result AreDefs }
{
    defs_of(alloc, &[NOTES, LOADED])
}

// and with them of the orders.
fn accounts_and_orders(alloc: Global) -> Result<Defs, Fail>
    ensures { IfOk result AreDefs }
{
    defs_of(alloc, &[NOTES, LOADED, ORDERS])
}

// What a group has.
#[derive(Clone, Copy)]
enum Part {
    // A segment of a database, with its key.
    Segment(u8, [u8; 4], [u8; 8]),
    // A whole interval of a data set.
    Image(u16, u64),
    // Its last four bytes.
    Range(u16, u64),
}

const PAID: Part = Part::Segment(0, *b"A001", *b"A001paid");

const OPEN: Part = Part::Segment(0, *b"B002", *b"B002open");

const SHUT: Part = Part::Segment(0, *b"B002", *b"B002shut");

fn segment(alloc: Global, msdb: u8, key: &[u8], bytes: &[u8]) -> Result<Item, AllocError>
    requires key { length key.now ≡ 4 }
    requires bytes { length bytes.now ≡ 8 }
    ensures { IfOk result FitsItem }
{
    Ok(Item::Segment {
        msdb,
        key: Bytes::from_slice(alloc, key)?,
        bytes: Bytes::from_slice(alloc, bytes)?,
    })
}

fn item(alloc: Global, part: Part) -> Result<Item, AllocError>
    ensures { IfOk result FitsItem }
{
    match part {
        Part::Segment(msdb, key, bytes) => segment(alloc, msdb, &key, &bytes),
        Part::Image(set, ci) => image(alloc, set, ci),
        Part::Range(set, ci) => range(alloc, set, ci),
    }
}

fn image(alloc: Global, set: u16, ci: u64) -> Result<Item, AllocError>
    ensures { IfOk result FitsItem }
{
    Ok(Item::Image {
        set,
        ci,
        bytes: Bytes::from_slice(alloc, &[0; 512])?,
    })
}

fn range(alloc: Global, set: u16, ci: u64) -> Result<Item, AllocError>
    ensures { IfOk result FitsItem }
{
    Ok(Item::Range {
        set,
        ci,
        at: 508,
        bytes: Bytes::from_slice(alloc, &[7; 4])?,
    })
}

// An entry with this item alone.
fn entry(alloc: Global, item: Item) -> Result<Entry, AllocError>
    requires { FitsItem item }
    ensures rules { IfOk result KeepsRules }
    ensures fits { IfOk result FitsEntry }
{
    let mut items = List::new(alloc);
    items.push(item)?;
    Ok(Entry {
        from: 0,
        outcome: Outcome::Done,
        line: Bytes::new(alloc),
        reply: Bytes::new(alloc),
        notes: List::new(alloc),
        items,
    })
}

// Writes a group of an entry with this part.
fn seal(
    alloc: Global,
    log: &mut Log,
    site: &mut MemorySite,
    part: Part,
) -> Result<(), RestartFault> {
    let entry = entry(alloc, item(alloc, part)?)?;
    seal_entry(log, site, &entry)
}

fn seal_entry(log: &mut Log, site: &mut MemorySite, entry: &Entry) -> Result<(), RestartFault>
    requires rules { KeepsRules entry.now }
    requires fits { FitsEntry entry.now }
{
    log.append(entry)?;
    match log.seal(site, 1) {
        Ok(_) => Ok(()),
        Err(_) => Err(RestartFault::SiteFault),
    }
}

// Makes a new log.
fn make(alloc: Global, defs: &Defs, site: &mut MemorySite) -> Result<(), RestartFault> {
    let front = front(alloc, b'S')?;
    define(alloc, defs, &front, site)
}

// A new log, open.
fn new_log(alloc: Global, defs: &Defs, site: &mut MemorySite) -> Result<Log, RestartFault> {
    make(alloc, defs, site)?;
    let front = front(alloc, b'S')?;
    Ok(Log::open(alloc, site, &front)?)
}

// A new log with a group of each part. Where the second one's gate stands.
fn write_both(
    alloc: Global,
    defs: &Defs,
    site: &mut MemorySite,
    first: Part,
    second: Part,
) -> Result<u64, RestartFault> {
    let mut log = new_log(alloc, defs, site)?;
    seal_both(alloc, &mut log, site, first, second)
}

fn seal_both(
    alloc: Global,
    log: &mut Log,
    site: &mut MemorySite,
    first: Part,
    second: Part,
) -> Result<u64, RestartFault> {
    seal(alloc, log, site, first)?;
    let at = log.gate();
    seal(alloc, log, site, second)?;
    Ok(at)
}

// A new site with a log of two groups. They change the segment that was loaded, and put one beside it.
fn two_written(alloc: Global, defs: &Defs) -> Result<MemorySite, RestartFault> {
    let mut site = MemorySite::new(alloc, &[])?;
    write_both(alloc, defs, &mut site, PAID, OPEN)?;
    Ok(site)
}

// The segments of a state, one after another.
fn segments_of(alloc: Global, db: &Db) -> Result<Bytes, AllocError> {
    let mut text = Bytes::new(alloc);
    for msdb in db.msdbs.as_slice() {
        for segment in msdb.segments.as_slice() {
            text.append(segment.as_slice())?;
        }
    }
    Ok(text)
}

// What a restart gives.
fn restarted(
    alloc: Global,
    defs: &Defs,
    scripts: u8,
    site: &mut MemorySite,
) -> Result<Parts, RestartFault>
    requires { AreDefs defs.now }
{
    let front = front(alloc, scripts)?;
    restart(alloc, defs, &front, site)
}

// The number of entries that a restart finds, and the segments of its state.
fn read(
    alloc: Global,
    defs: &Defs,
    scripts: u8,
    site: &mut MemorySite,
) -> Result<(u64, Bytes), RestartFault>
    requires { AreDefs defs.now }
{
    let mut parts = restarted(alloc, defs, scripts, site)?;
    found_in(alloc, &mut parts, defs, site)
}

// The same of what it gave.
fn found_in(
    alloc: Global,
    parts: &mut Parts,
    defs: &Defs,
    site: &mut MemorySite,
) -> Result<(u64, Bytes), RestartFault> {
    let db = whole_db(alloc, parts, defs, site)?;
    Ok((parts.1.sealed(), segments_of(alloc, &db)?))
}

// Restarts, and gives the last gate's place. The front, the groups and that gate were read, each byte once.
fn read_once(
    alloc: Global,
    defs: &Defs,
    scripts: u8,
    site: &mut MemorySite,
) -> Result<u64, RestartFault>
    requires { AreDefs defs.now }
    ensures { memory_reads site.new 0 < 2 ^ 64 - 1 →
        IfOk result (λ gate. memory_reads site.new 0 ≡ memory_reads site.old 0 + gate + 1) }
{
    let front = front(alloc, scripts)?;
    let parts = restart(alloc, defs, &front, site)?;
    Ok(parts.1.gate())
}

// Whether a restart gave so many entries and these segments.
fn is_found(answer: &Result<(u64, Bytes), RestartFault>, count: u64, segments: &[u8]) -> bool {
    match answer {
        Ok((entries, bytes)) => *entries == count && bytes.as_slice() == segments,
        Err(_) => false,
    }
}

// Restarts, and writes one group more.
fn go_on(alloc: Global, defs: &Defs, site: &mut MemorySite) -> Result<(), RestartFault>
    requires { AreDefs defs.now }
{
    let mut parts = restarted(alloc, defs, b'S', site)?;
    seal(alloc, &mut parts.1, site, SHUT)
}

// Whether a restart gave the start.
fn is_start(answer: &Result<(u64, Bytes), RestartFault>) -> bool {
    is_found(answer, 0, b"A001open")
}

// Whether a restart found no front.
fn is_foreign(answer: &Result<(u64, Bytes), RestartFault>) -> bool {
    matches!(answer, Err(RestartFault::Foreign))
}

// Whether every snapshot of a site restarts to what may be left of a making that stopped so.
fn is_left_well(
    alloc: Global,
    defs: &Defs,
    site: &MemorySite,
    after: u64,
) -> Result<bool, AllocError>
    requires { AreDefs defs.now }
{
    for choice in 0..8 {
        let snapshot = site.snapshot_as(choice)?;
        let mut left = MemorySite::from_snapshot(alloc, snapshot, &[])?;
        let answer = read(alloc, defs, b'S', &mut left);
        let is_old = is_found(&answer, 2, b"A001paidB002open");
        if !may_be_left(after, is_old, is_foreign(&answer), is_start(&answer)) {
            return Ok(false);
        }
    }
    Ok(true)
}

// Makes a log anew over the contents of a site, where the call with this number and the next one fail. Whether it is
// made where no call fails alone, and what is left is as it may be.
fn leaves_well(alloc: Global, defs: &Defs, old: &MemorySite, after: u64) -> Result<bool, AllocError>
    requires after { after < 100 }
    requires defs { AreDefs defs.now }
{
    let mut site = stopping_copy(alloc, old, after)?;
    let made = make(alloc, defs, &mut site).is_ok();
    Ok(made == (after == 9) && is_left_well(alloc, defs, &site, after)?)
}

// The first stop that leaves something else, of a site with a log of two groups.
fn first_left_badly(alloc: Global, defs: &Defs) -> Result<Option<u64>, RestartFault>
    requires { AreDefs defs.now }
{
    let old = two_written(alloc, defs)?;
    for after in 0..10 {
        if !matches!(leaves_well(alloc, defs, &old, after), Ok(true)) {
            return Ok(Some(after));
        }
    }
    Ok(None)
}

#[test]
fn after_each_stop_of_define_the_old_state_stands_or_none_or_the_start(
    rt: HostRuntime,
) -> Result<(), Fail> {
    let defs = accounts(rt.alloc())?;
    let wrong = first_left_badly(rt.alloc(), &defs)?;
    let after = wrong.unwrap_or(0);
    assert!(rt; wrong.is_none(), "stopped at {after}");
    Ok(())
}

// What a restart answers for a new log with these bytes at its first gate.
fn read_with(
    alloc: Global,
    defs: &Defs,
    bytes: &[u8],
    site: &mut MemorySite,
) -> Result<(u64, Bytes), RestartFault>
    requires defs { AreDefs defs.now }
    requires bytes { length bytes.now ≤ 12 }
{
    make(alloc, defs, site)?;
    site.write_at(0, FIRST, bytes)?;
    read(alloc, defs, b'S', site)
}

// Whether a restart found damage in the log at this place.
fn is_damaged(answer: &Result<(u64, Bytes), RestartFault>, gate: u64) -> bool {
    match answer {
        Err(RestartFault::Damaged { set, at }) => *set == 0 && *at == gate,
        _ => false,
    }
}

// Bytes at the first gate, how many of them are written, and whether they are damage: behind an open gate stand
// nothing, a length of 0, one that passes the end, and a body that is no entry.
static GATES: [([u8; 12], usize, bool); 6] = [
    ([0, 0, 0, 0, 0, 0, 0, 0, 0, 0, 0, 0], 12, false),
    ([7, 0, 0, 0, 0, 0, 0, 0, 3, 0, 0, 0], 12, false),
    ([1, 0, 0, 0, 0, 0, 0, 0, 0, 0, 0, 0], 1, true),
    ([1, 0, 0, 0, 0, 0, 0, 0, 0, 0, 0, 0], 12, true),
    ([1, 0, 0, 0, 0, 0, 0, 0, 4, 0, 0, 0], 12, true),
    ([1, 0, 0, 0, 0, 0, 0, 0, 3, 0, 0, 0], 12, true),
];

// Whether they are damage there where they should be, and else the start stands.
fn is_as_wanted(
    alloc: Global,
    defs: &Defs,
    gate: &([u8; 12], usize, bool),
) -> Result<bool, AllocError>
    requires { AreDefs defs.now }
{
    let (bytes, count, is_damage) = gate;
    let mut site = MemorySite::new(alloc, &[])?;
    let answer = read_with(alloc, defs, &bytes[..(*count).min(12)], &mut site);
    Ok(if *is_damage {
        is_damaged(&answer, FIRST)
    } else {
        is_start(&answer)
    })
}

#[test]
fn an_open_gate_without_a_group_is_damaged_at_its_place(rt: HostRuntime) -> Result<(), Fail> {
    let defs = accounts(rt.alloc())?;
    for (row, gate) in GATES.iter().enumerate() {
        assert!(rt; is_as_wanted(rt.alloc(), &defs, gate)?, "row {row}");
    }
    Ok(())
}

// What is asked of a site.
#[derive(Clone, Copy)]
enum Asked {
    // Without a log it is foreign.
    Empty,
    // A restart reads each byte of a log of two groups once.
    ReadsOnce,
    // It gives the segments of the last group.
    Gives,
    // The log goes on behind what a restart found.
    GoesOn,
    // With another front it is foreign, and stays.
    Another,
}

static ASKED: [Asked; 5] = [
    Asked::Empty,
    Asked::ReadsOnce,
    Asked::Gives,
    Asked::GoesOn,
    Asked::Another,
];

fn is_foreign_when_empty(alloc: Global, defs: &Defs) -> Result<bool, RestartFault>
    requires { AreDefs defs.now }
{
    let mut site = MemorySite::new(alloc, &[])?;
    Ok(is_foreign(&read(alloc, defs, b'S', &mut site)))
}

// Whether a restart gives so many entries and these segments.
fn gives(alloc: Global, defs: &Defs, site: &mut MemorySite, count: u64, segments: &[u8]) -> bool
    requires { AreDefs defs.now }
{
    is_found(&read(alloc, defs, b'S', site), count, segments)
}

// Whether a restart with another front finds none, and the log stays.
fn stays(alloc: Global, defs: &Defs, site: &mut MemorySite) -> Result<bool, RestartFault>
    requires { AreDefs defs.now }
{
    let before = Vec::from_slice(alloc, site.contents(0))?;
    Ok(is_foreign(&read(alloc, defs, b'X', site)) && site.contents(0) == before.as_slice())
}

// Behind a gate and a length stands an entry of 29 bytes with an item of 17.
const LAST: u64 = FIRST + 2 * (1 + 8 + 29 + 17);

// Whether a site with a log of two groups answers so.
fn two_answer(
    alloc: Global,
    defs: &Defs,
    site: &mut MemorySite,
    asked: Asked,
) -> Result<bool, RestartFault>
    requires { AreDefs defs.now }
{
    match asked {
        Asked::Empty => Ok(false),
        Asked::ReadsOnce => Ok(read_once(alloc, defs, b'S', site) == Ok(LAST)),
        Asked::Gives => Ok(gives(alloc, defs, site, 2, b"A001paidB002open")),
        Asked::GoesOn => {
            go_on(alloc, defs, site)?;
            Ok(gives(alloc, defs, site, 3, b"A001paidB002shut"))
        }
        Asked::Another => stays(alloc, defs, site),
    }
}

fn answers(alloc: Global, defs: &Defs, asked: Asked) -> Result<bool, RestartFault>
    requires { AreDefs defs.now }
{
    if matches!(asked, Asked::Empty) {
        return is_foreign_when_empty(alloc, defs);
    }
    let mut site = two_written(alloc, defs)?;
    two_answer(alloc, defs, &mut site, asked)
}

#[test]
fn a_site_answers_a_restart(rt: HostRuntime) -> Result<(), Fail> {
    let defs = accounts(rt.alloc())?;
    for (place, asked) in ASKED.iter().enumerate() {
        assert!(rt; answers(rt.alloc(), &defs, *asked)?, "asked {place}");
    }
    Ok(())
}

// Two groups of a log, and whether a restart finds damage at the second one's gate: no such database, another key, an
// area that isn't there, the log itself, an interval behind the last place; items that fit; and ranges of an interval,
// of which the first has its image.
static BOTH: [(Part, Part, bool); 11] = [
    (PAID, Part::Segment(7, *b"B002", *b"B002open"), true),
    (PAID, Part::Segment(0, *b"B002", *b"A001open"), true),
    (PAID, Part::Image(5, 0), true),
    (PAID, Part::Image(0, 0), true),
    (PAID, Part::Image(3, 1 << 53), true),
    (PAID, Part::Image(3, 1), false),
    (PAID, Part::Image(4, (1 << 53) - 1), false),
    (PAID, OPEN, false),
    (Part::Image(3, 1), Part::Range(3, 1), false),
    (Part::Image(3, 1), Part::Range(3, 2), true),
    (Part::Image(3, 1), Part::Range(4, 1), true),
];

// Whether a restart found the damage at this gate, or, where there is none, gave a state.
fn fits_or_is_damaged(
    answer: &Result<(u64, Bytes), RestartFault>,
    gate: u64,
    is_damage: bool,
) -> bool {
    if is_damage {
        is_damaged(answer, gate)
    } else {
        answer.is_ok()
    }
}

fn both_groups() -> &'static [(Part, Part, bool)] {
    &BOTH
}

// Writes both groups: whether a restart finds the damage that it should.
fn write_and_read(
    alloc: Global,
    defs: &Defs,
    site: &mut MemorySite,
    both: &(Part, Part, bool),
) -> Result<bool, RestartFault>
    requires { AreDefs defs.now }
{
    let (first, second, is_damage) = *both;
    let gate = write_both(alloc, defs, site, first, second)?;
    let answer = read(alloc, defs, b'S', site);
    Ok(fits_or_is_damaged(&answer, gate, is_damage))
}

// The same on a new site.
fn both_fit_or_are_damaged(
    alloc: Global,
    defs: &Defs,
    both: &(Part, Part, bool),
) -> Result<bool, RestartFault>
    requires { AreDefs defs.now }
{
    let mut site = MemorySite::new(alloc, &[])?;
    write_and_read(alloc, defs, &mut site, both)
}

#[test]
fn an_item_that_does_not_fit_is_damage_at_its_group(rt: HostRuntime) -> Result<(), Fail> {
    let defs = accounts_and_orders(rt.alloc())?;
    for (row, both) in both_groups().iter().enumerate() {
        assert!(rt;
            both_fit_or_are_damaged(rt.alloc(), &defs, both)?,
            "row {row}"
        );
    }
    Ok(())
}

// Whether the one data entry database has eight anchors, and two areas as they are formatted.
fn is_formatted(db: &Db) -> bool {
    let ends = AreaEnds { begin: 1, end: 1 };
    let Some(orders) = db.dedbs.get(0) else {
        return false;
    };
    db.dedbs.len() == 1
        && orders.anchors.len() == 8
        && orders.areas.as_slice() == [ends, ends].as_slice()
}

// The state of a new log.
fn started(alloc: Global, defs: &Defs, site: &mut MemorySite) -> Result<Db, RestartFault>
    requires { AreDefs defs.now }
{
    make(alloc, defs, site)?;
    let mut parts = restarted(alloc, defs, b'S', site)?;
    whole_db(alloc, &mut parts, defs, site)
}

fn starts_formatted(alloc: Global, defs: &Defs) -> Result<bool, RestartFault>
    requires { AreDefs defs.now }
{
    let mut site = MemorySite::new(alloc, &[])?;
    match started(alloc, defs, &mut site) {
        Ok(db) => Ok(is_formatted(&db)),
        Err(fault) => Err(fault),
    }
}

#[test]
fn data_entry_databases_are_as_they_were_formatted(rt: HostRuntime) -> Result<(), Fail> {
    let defs = accounts_and_orders(rt.alloc())?;
    assert!(rt; starts_formatted(rt.alloc(), &defs)?);
    Ok(())
}
