//! Logs of a few entries, worked out by hand, and the first of them that isn't legal.
ghost use Rattle.fp_audit.specs.Setup.{AreSpread, CanAudit};
ghost use Rattle.fp_exits.specs.Kinds.{kinds_of};
ghost use Rattle.past_replay.specs.Setup.{IsSetup};
ghost use Rattle.std.specs.Prelude.{◌≡◌};

use self::Ended::{
    Deadlock, Device, Done, Format, Full, Old, Purge, Repeat, Roll, Unknown, Verify,
};
use crate::systems::{Ground, SAMPLE, System, TELLERS};
use fp_audit::Auditor;
use fp_exits::Exits;
use fp_model::{Bytes, Entry, List, Outcome};
use std::alloc::{AllocError, Global};
use std::test::Fail;

/// How an entry ended, as its outcome and its reply.
enum Ended {
    Done(&'static [u8]),
    // A verify failed: the call, its search argument, and the four bytes found as one number.
    Verify(u32, u16, u32),
    Roll(u16),
    Deadlock,
    Device,
    Unknown,
    Old(u64),
    Repeat(&'static [u8]),
    // A sequential part that is full: its data set, its ends, and how many were to go there.
    Full(u16, u64, u64, u64),
    // A Purge of a data set by so many serials.
    Purge(u16, u64),
    Format,
}

/// An entry: where it began, its notes, its line and its end.
type Row = (u64, &'static [u64], &'static [u8], Ended);

/// A log of the system. Entry 1 looks at the account as it was at the start, entry 2 as its own region saw it later.
/// The withdrawal of entry 4 was good where it looked, and fails where it commits: 110 less 60 leaves 50.
const LEGAL: &[Row] = &[
    (0, &[0], b"T1 DEPOSIT A001 10", Done(b"NEW")),
    (0, &[0], b"T2 ASK A001", Done(b"100")),
    (1, &[1], b"T2 ASK A001", Done(b"110")),
    (1, &[3], b"T3 WDRAW A001 60", Done(b"PAID 60")),
    (3, &[3], b"T4 WDRAW A001 60", Verify(0, 0, 0x50C)),
    (5, &[5], b"T5 WDRAW A009 1", Roll(7)),
    (6, &[], b"T6 NOPE A001", Unknown),
    (2, &[], b"T1 DEPOSIT A001 1", Deadlock),
    (8, &[], b"T1 DEPOSIT A001 1", Device),
    (9, &[], b"T1 ENROL T002", Done(b"HIRED")),
    (4, &[], b"T1 COUNT T002", Done(b"0")),
];

/// Entries that aren't legal behind so many of that log.
const ILLEGAL: &[(usize, Row)] = &[
    // Another reply, another outcome, another detail.
    (0, (0, &[0], b"T1 DEPOSIT A001 10", Done(b"OLD"))),
    (0, (0, &[0], b"T1 DEPOSIT A001 10", Roll(1))),
    (4, (3, &[3], b"T4 WDRAW A001 60", Done(b"PAID 60"))),
    (4, (3, &[3], b"T4 WDRAW A001 60", Verify(0, 0, 0x40C))),
    (4, (3, &[3], b"T4 WDRAW A001 60", Verify(0, 1, 0x50C))),
    (5, (5, &[5], b"T5 WDRAW A009 1", Roll(8))),
    // Looks at another state, too few and too many of them, and notes that fall or lie behind.
    (1, (0, &[1], b"T2 ASK A001", Done(b"100"))),
    (2, (1, &[0], b"T2 ASK A001", Done(b"100"))),
    (1, (0, &[], b"T2 ASK A001", Done(b"100"))),
    (1, (0, &[0, 0], b"T2 ASK A001", Done(b"100"))),
    (1, (0, &[2], b"T2 ASK A001", Done(b"110"))),
    (10, (4, &[4], b"T1 COUNT T002", Done(b"0"))),
    // What is refused names a script, and didn't begin later.
    (7, (2, &[], b"T1 NOPE A001", Deadlock)),
    (7, (8, &[], b"T1 DEPOSIT A001 1", Deadlock)),
    (7, (2, &[2], b"T1 DEPOSIT A001 1", Deadlock)),
    // What names a script isn't unknown, and an unknown line begins at its own place.
    (6, (6, &[], b"T6 ASK A001", Unknown)),
    (6, (5, &[], b"T6 NOPE A001", Unknown)),
    (6, (6, &[], b"T6 NOPE A001", Done(b""))),
    // No line has a number yet.
    (3, (3, &[], b"T1 1 ASK A001", Old(1))),
];

/// A log whose messages have numbers from entry 1 on.
const NUMBERED: &[Row] = &[
    (0, &[], b"T1 1 ASK A001", Unknown),
    (1, &[], b"", Format),
    (2, &[2], b"T1 3 DEPOSIT A001 10", Done(b"NEW")),
    (3, &[], b"T1 3 DEPOSIT A001 10", Repeat(b"T1 OK NEW")),
    (4, &[], b"T1 2 ASK A001", Old(3)),
    (5, &[], b"T1 4 NOPE", Unknown),
    (6, &[], b"T1 4 ASK A001", Repeat(b"T1 NO UNKNOWN")),
    (7, &[7], b"T2 1 ASK A001", Done(b"110")),
];

/// Entries that aren't legal behind so many of that log.
const MISNUMBERED: &[(usize, Row)] = &[
    (2, (2, &[], b"", Format)),
    (3, (3, &[3], b"T1 3 DEPOSIT A001 10", Done(b"NEW"))),
    (3, (3, &[], b"T1 3 DEPOSIT A001 10", Repeat(b"T1 OK OLD"))),
    (3, (3, &[], b"T1 3 DEPOSIT A001 10", Old(3))),
    (4, (4, &[], b"T1 2 ASK A001", Old(2))),
    (4, (4, &[], b"T1 4 ASK A001", Old(3))),
    (7, (7, &[], b"T2 1 ASK A001", Repeat(b"T1 NO UNKNOWN"))),
];

/// A log of customers. Four notes fill the part of an area, a fifth has no room until two are purged, and a customer of
/// the other area has room all the time. C009 stands behind C001 at their anchor; LISTC goes through the anchors in
/// turn.
const OF_CUSTOMERS: &[Row] = &[
    (0, &[], b"S1 NEWCUST C001 ANN", Done(b"ADDED")),
    (1, &[], b"T1 NOTE C001 N1", Done(b"NOTED")),
    (2, &[], b"T2 NOTE C001 N2", Done(b"NOTED")),
    (2, &[], b"T3 NOTE C001 N3", Done(b"NOTED")),
    (4, &[], b"T4 NOTE C001 N4", Done(b"NOTED")),
    (5, &[], b"T5 NOTE C001 N5", Full(4, 1, 5, 1)),
    (6, &[], b"S1 NEWCUST C003 BOB", Done(b"ADDED")),
    (7, &[], b"T5 NOTE C003 M1", Done(b"NOTED")),
    (8, &[], b"", Purge(4, 2)),
    (9, &[], b"T6 NOTE C001 N6", Done(b"NOTED")),
    (10, &[], b"T7 SHOWC C001", Done(b"ANN N6 N4 N3")),
    (11, &[11], b"T1 BORROW C001 L1 60", Done(b"LENT")),
    (11, &[11], b"T1 BORROW C003 L1 60", Verify(0, 0, 0x40C)),
    (13, &[], b"T2 OWES C001 L1", Done(b"60")),
    (14, &[], b"T3 NEWCUST C009 CY", Done(b"ADDED")),
    (15, &[], b"T4 LISTC", Done(b"C003 C001 C009")),
    (16, &[], b"T5 LEAVES C001", Done(b"GONE")),
    (17, &[], b"T6 SHOWC C001", Roll(4)),
];

/// Entries that aren't legal behind so many of that log.
const NOT_OF_CUSTOMERS: &[(usize, Row)] = &[
    // A customer who is there, or isn't.
    (1, (1, &[], b"T1 NEWCUST C001 ANN", Done(b"ADDED"))),
    (0, (0, &[], b"T1 NOTE C001 N1", Done(b"NOTED"))),
    (0, (0, &[], b"T1 SHOWC C001", Roll(3))),
    // A part that has no room, and one that has.
    (5, (5, &[], b"T5 NOTE C001 N5", Done(b"NOTED"))),
    (5, (5, &[], b"T5 NOTE C001 N5", Full(4, 1, 5, 2))),
    (5, (5, &[], b"T5 NOTE C001 N5", Full(3, 1, 5, 1))),
    (4, (4, &[], b"T4 NOTE C001 N4", Full(4, 1, 4, 1))),
    // No area has these data sets.
    (8, (8, &[], b"", Purge(2, 1))),
    (8, (8, &[], b"", Purge(5, 1))),
    // What was purged is gone, and what wasn't is there.
    (10, (10, &[], b"T7 SHOWC C001", Done(b"ANN N6 N4 N3 N2"))),
    (10, (10, &[], b"T7 SHOWC C001", Done(b"ANN N6 N4"))),
    // A call to a data entry database makes no unheld look.
    (10, (10, &[10], b"T7 SHOWC C001", Done(b"ANN N6 N4 N3"))),
    // The loan of a transaction whose verify failed isn't there.
    (13, (13, &[], b"T2 OWES C003 L1", Done(b"60"))),
];

// The outcome, with these bytes if it has any: those found, the regions of a cycle, or a line.
fn outcome(ended: &Ended, bytes: Bytes) -> Outcome {
    match *ended {
        Done(_) => Outcome::Done,
        Verify(call, fsa, _) => Outcome::Verify {
            call,
            fsa,
            found: bytes,
        },
        Roll(code) => Outcome::Roll(code),
        Deadlock => Outcome::Deadlock(bytes),
        Device => Outcome::Device,
        Unknown => Outcome::Unknown,
        Old(last) => Outcome::Old(last),
        Repeat(_) => Outcome::Repeat(bytes),
        Full(set, begin, end, n) => Outcome::SeqFull { set, begin, end, n },
        Purge(set, n) => Outcome::Purge { set, n },
        Format => Outcome::Format,
    }
}

// The bytes of an outcome.
fn bytes_of(alloc: Global, ended: &Ended) -> Result<Bytes, AllocError> {
    match *ended {
        Verify(_, _, found) => Bytes::from_slice(alloc, &found.to_be_bytes()),
        Deadlock => Bytes::from_slice(alloc, &[2, 1]),
        Repeat(line) => Bytes::from_slice(alloc, line),
        _ => Ok(Bytes::new(alloc)),
    }
}

fn reply(ended: &Ended) -> &'static [u8] {
    match *ended {
        Done(reply) => reply,
        _ => &[],
    }
}

fn entry_of(
    alloc: Global,
    from: u64,
    notes: &[u64],
    line: &[u8],
    ended: &Ended,
) -> Result<Entry, AllocError> {
    let notes = Vec::from_slice(alloc, notes)?;
    let line = Bytes::from_slice(alloc, line)?;
    let reply = Bytes::from_slice(alloc, reply(ended))?;
    let bytes = bytes_of(alloc, ended)?;
    Ok(Entry {
        from,
        outcome: outcome(ended, bytes),
        line,
        reply,
        notes: List::from_vec(notes),
        items: List::new(alloc),
    })
}

// Hands an entry to an auditor. Whether it is legal.
fn is_next(
    alloc: Global,
    auditor: &mut Auditor,
    exits: &Exits,
    from: u64,
    notes: &[u64],
    line: &[u8],
    ended: &Ended,
) -> Result<bool, AllocError>
    requires { AreSpread auditor.old.defs (kinds_of exits.now) }
    ensures { auditor.new.defs ≡ auditor.old.defs }
{
    let entry = entry_of(alloc, from, notes, line, ended)?;
    let is_legal = auditor.next(exits, &entry);
    drop(entry);
    is_legal
}

// Hands a row to an auditor. Whether it is legal.
fn is_next_row(
    alloc: Global,
    auditor: &mut Auditor,
    exits: &Exits,
    row: &Row,
) -> Result<bool, AllocError>
    requires { AreSpread auditor.old.defs (kinds_of exits.now) }
    ensures { auditor.new.defs ≡ auditor.old.defs }
{
    let (from, notes, line, ended) = row;
    is_next(alloc, auditor, exits, *from, notes, line, ended)
}

// Hands rows to an auditor one after another. The place of the first that isn't legal.
fn first_illegal(
    alloc: Global,
    auditor: &mut Auditor,
    exits: &Exits,
    rows: &[Row],
) -> Result<Option<usize>, AllocError>
    requires { AreSpread auditor.old.defs (kinds_of exits.now) }
    ensures { auditor.new.defs ≡ auditor.old.defs }
{
    for (place, row) in rows.iter().enumerate() {
        if !is_next_row(alloc, auditor, exits, row)? {
            return Ok(Some(place));
        }
    }
    Ok(None)
}

// How a deposit ends.
static NEW: Ended = Done(b"NEW");

// Whether so many deposits to one account, one after another, are all legal.
fn deposits_are_legal(
    alloc: Global,
    auditor: &mut Auditor,
    exits: &Exits,
    count: u64,
) -> Result<bool, AllocError>
    requires { AreSpread auditor.old.defs (kinds_of exits.now) }
{
    for place in 0..count {
        if !is_next(
            alloc,
            auditor,
            exits,
            place,
            &[place],
            b"T1 DEPOSIT A001 10",
            &NEW,
        )? {
            return Ok(false);
        }
    }
    Ok(true)
}

// Whether a row is legal, if there is one.
fn is_legal(
    alloc: Global,
    auditor: &mut Auditor,
    exits: &Exits,
    row: Option<&Row>,
) -> Result<bool, AllocError>
    requires { AreSpread auditor.old.defs (kinds_of exits.now) }
{
    match row {
        Some(row) => is_next_row(alloc, auditor, exits, row),
        None => Ok(true),
    }
}

// The place of the first row that isn't legal in a log, and whether the row behind it is.
fn judged_by(
    alloc: Global,
    auditor: &mut Auditor,
    exits: &Exits,
    log: &[Row],
    behind: Option<&Row>,
) -> Result<(Option<usize>, bool), AllocError>
    requires { AreSpread auditor.old.defs (kinds_of exits.now) }
{
    let found = first_illegal(alloc, auditor, exits, log)?;
    Ok((found, is_legal(alloc, auditor, exits, behind)?))
}

// The same of a system that was read.
fn judged_on(
    alloc: Global,
    ground: &Ground,
    log: &[Row],
    behind: Option<&Row>,
) -> Result<(Option<usize>, bool), AllocError>
    requires setup { IsSetup ground.now.defs (kinds_of ground.now.exits) ground.now.scripts.scripts }
    requires can { CanAudit ground.now.defs ground.now.scripts.scripts }
{
    let mut auditor = Auditor::new(alloc, &ground.defs, &ground.scripts, 1)?;
    judged_by(alloc, &mut auditor, &ground.exits, log, behind)
}

// The same of a system.
fn judged(
    alloc: Global,
    system: &System,
    log: &[Row],
    behind: Option<&Row>,
) -> Result<(Option<usize>, bool), Fail> {
    let ground = system.read(alloc)?;
    let found = judged_on(alloc, &ground, log, behind);
    drop(ground);
    Ok(found?)
}

// A log of legal entries of a system, and entries that aren't legal behind so many of it.
struct Log(System, &'static [Row], &'static [(usize, Row)]);

static LEGAL_LOG: Log = Log(SAMPLE, LEGAL, ILLEGAL);

static NUMBERED_LOG: Log = Log(SAMPLE, NUMBERED, MISNUMBERED);

static CUSTOMERS_LOG: Log = Log(SAMPLE, OF_CUSTOMERS, NOT_OF_CUSTOMERS);

// No area can be purged where there is none.
static TELLERS_LOG: Log = Log(TELLERS, &[], &[(0, (0, &[], b"", Purge(3, 1)))]);

// The check pays for a table in each function that names it, and more than twice for one twice as long.
fn legal_log() -> &'static Log {
    &LEGAL_LOG
}

// So each log has a function.
fn numbered_log() -> &'static Log {
    &NUMBERED_LOG
}

// The log of customers.
fn customers_log() -> &'static Log {
    &CUSTOMERS_LOG
}

// The log of tellers.
fn tellers_log() -> &'static Log {
    &TELLERS_LOG
}

// All of them.
fn logs() -> [&'static Log; 4] {
    [legal_log(), numbered_log(), customers_log(), tellers_log()]
}

// The place of the first row that isn't legal in the legal part of a log.
fn first_illegal_of(alloc: Global, log: &Log) -> Result<Option<usize>, Fail> {
    let Log(system, legal, _) = log;
    let (found, _) = judged(alloc, system, legal, None)?;
    Ok(found)
}

// The first log with such a row, and the row's place; the number of logs where there is none.
fn first_illegal_log(alloc: Global) -> Result<(usize, Option<usize>), Fail> {
    let logs = logs();
    for at in 0..logs.len() {
        let found = first_illegal_of(alloc, logs[at])?;
        if found.is_some() {
            return Ok((at, found));
        }
    }
    Ok((logs.len(), None))
}

#[test]
fn each_entry_of_a_log_is_legal(rt: HostRuntime) -> Result<(), Fail> {
    let (at, found) = first_illegal_log(rt.alloc())?;
    assert!(rt; found.is_none(), "log {at}, row {found:?}");
    Ok(())
}

// Whether a row isn't legal behind so many of a log, which are.
fn is_refused(alloc: Global, log: &Log, front: usize, row: &Row) -> Result<bool, Fail> {
    let Log(system, legal, _) = log;
    let found = judged(alloc, system, &legal[..front.min(legal.len())], Some(row))?;
    Ok(matches!(found, (None, false)))
}

// The place of the first illegal row of a log that isn't refused; how many there are where there is none.
fn first_taken(alloc: Global, log: &Log) -> Result<usize, Fail> {
    for (place, (front, row)) in log.2.iter().enumerate() {
        if !is_refused(alloc, log, *front, row)? {
            return Ok(place);
        }
    }
    Ok(log.2.len())
}

// The first log with such a row, and the row's place; the number of logs where there is none.
fn first_taken_log(alloc: Global) -> Result<(usize, usize), Fail> {
    let logs = logs();
    for at in 0..logs.len() {
        let log = logs[at];
        let place = first_taken(alloc, log)?;
        if place < log.2.len() {
            return Ok((at, place));
        }
    }
    Ok((logs.len(), 0))
}

#[test]
fn an_entry_that_the_rules_do_not_let_come_is_illegal(rt: HostRuntime) -> Result<(), Fail> {
    let (at, place) = first_taken_log(rt.alloc())?;
    assert!(rt; at == logs().len(), "log {at}, row {place}");
    Ok(())
}

// The second isn't legal.
static BROKEN: [Row; 2] = [
    (0, &[0], b"T1 DEPOSIT A001 10", Done(b"NEW")),
    (0, &[0], b"T1 DEPOSIT A001 10", Done(b"OLD")),
];

// It would be legal behind the first of them.
static BEHIND: Row = (0, &[0], b"T2 ASK A001", Done(b"100"));

#[test]
fn an_auditor_stops_for_good(rt: HostRuntime) -> Result<(), Fail> {
    let found = judged(rt.alloc(), &SAMPLE, &BROKEN, Some(&BEHIND))?;
    assert!(rt; matches!(found, (Some(1), false)));
    Ok(())
}

// Whether a log of so many deposits is legal, of a system that was read.
fn is_log_legal(alloc: Global, ground: &Ground, count: u64) -> Result<bool, AllocError>
    requires setup { IsSetup ground.now.defs (kinds_of ground.now.exits) ground.now.scripts.scripts }
    requires can { CanAudit ground.now.defs ground.now.scripts.scripts }
{
    let mut auditor = Auditor::new(alloc, &ground.defs, &ground.scripts, 1)?;
    deposits_are_legal(alloc, &mut auditor, &ground.exits, count)
}

// The same of the sample.
fn is_long_log_legal(alloc: Global, count: u64) -> Result<bool, Fail> {
    let ground = SAMPLE.read(alloc)?;
    let is_legal = is_log_legal(alloc, &ground, count);
    drop(ground);
    Ok(is_legal?)
}

/// Memory suffices for a log of some thousand entries.
#[test]
fn each_entry_of_a_long_log_is_legal(rt: HostRuntime) -> Result<(), Fail> {
    assert!(rt; is_long_log_legal(rt.alloc(), 5_000)?);
    Ok(())
}
