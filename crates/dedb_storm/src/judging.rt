//! The lines of files, judged in turn: calls of single transactions, through `dedb_calls` and through `past_calls`, and
//! scenarios of two regions, through `dli_calls`.
//!
//! In a file of single transactions a line is a call to a database, `0 GU 0=AA -`, or says what is looked at where a
//! transaction ends: `needed`, the anchors that it needed, in order; `randomized`, how often a key was sent to an anchor
//! by `FOLD`; and last `queued`, how many sequential inserts it had queued. Behind `queued` no call comes.
ghost use Rattle.dedb_storm.specs.Bank.{AreBothGoing, AreKept, IsBank};
ghost use Rattle.dedb_storm.specs.Bench.{IsUnderWay};
ghost use Rattle.fp_exits.specs.Kinds.{has_kind, kinds_of};
ghost use Rattle.fp_model.specs.WellFormed.{IsDedbDef, IsMsdbDef};
ghost use Rattle.past_calls.specs.Progress.{IsWorkOf};
ghost use Rattle.std.specs.List.{AllByRecursion};
ghost use Rattle.std.specs.Prelude.{◌≡◌, ◌<◌, [], IfOk, length, true};

use crate::alone::{ask_alone, begin_alone, end_alone};
use crate::bench::{ask, begin};
use crate::cases::{call_of, came_of, number_of, numbers_text};
use crate::ending::{Standing, empty};
use crate::fault::{Fault, let_go, or_fault, put};
use crate::live::{both_begin, done_by};
use crate::tally::{Line, Tally};
use ci_locks::Locks;
use dedb_calls::DedbWork;
use dli_calls::Work as RegionWork;
use fp_defs::read_defs;
use fp_exits::Exits;
use fp_model::{Call, Defs};
use msdb_store::MsdbStore;
use past_calls::Work;
use std::alloc::Global;
use std::cell::Cell;

/// How the lines of a file are asked.
#[derive(Clone, Copy)]
pub(crate) enum Way {
    /// By one region, which gains each lock.
    Locked,
    /// By a transaction that runs alone.
    Alone,
    /// By two regions, over one set of locks.
    Turns,
}

/// A file, with its definitions, and how its lines are asked.
#[derive(Clone, Copy)]
pub(crate) struct Asked<'a> {
    /// What it is called in the verdict.
    pub(crate) name: &'static str,
    pub(crate) way: Way,
    pub(crate) definitions: &'a [u8],
    pub(crate) lines: &'a str,
}

// What a transaction has needed: anchors, and how often the randomizer was asked before it.
#[derive(Drop)]
struct Trail {
    needed: Vec<u32>,
    before: u64,
}

impl Trail {
    fn new(alloc: Global, randomized: &Cell<u64>) -> Trail {
        Trail {
            needed: Vec::new(alloc),
            before: randomized.get(),
        }
    }

    // How often the randomizer was asked since it began.
    fn count(&self, randomized: &Cell<u64>) -> u64 {
        randomized.get().wrapping_sub(self.before)
    }
}

// The number of the database, which is one of them, and the call behind it.
fn numbered<'a>(what: &'a str, defs: &Defs) -> Result<(u8, &'a str), Fault>
    ensures { IfOk result (λ numbered. numbered.0 < length defs.now.dedbs) }
{
    let (number, text) = what.split_once(' ').ok_or(Fault::NotRead)?;
    let number = number_of(number)?;
    if usize::from(number) >= defs.dedbs.len() {
        return Err(Fault::NotRead);
    }
    Ok((number, text))
}

// What a call is answered, by the only region.
fn locked_answer(
    alloc: Global,
    number: u8,
    call: &Call,
    work: &mut DedbWork,
    locks: &mut Locks,
    needed: &mut Vec<u32>,
    defs: &Defs,
    exits: &Exits,
) -> Result<String, Fault>
    requires defs { AllByRecursion IsDedbDef defs.now.dedbs }
    requires exits { AllByRecursion (λ dedb. has_kind (kinds_of exits.now).spreaders dedb.randomizer ≡ true)
        defs.now.dedbs }
    requires some { number < length defs.now.dedbs }
    requires going { IsUnderWay defs.now.dedbs work.old locks.old }

    ensures { IfOk result (λ came. IsUnderWay defs.now.dedbs work.new locks.new) }
{
    let answer = ask(alloc, work, locks, number, call, defs, exits, needed)?;
    or_fault(came_of(alloc, &answer))
}

// What comes of a call, by the only region.
fn locked_call(
    alloc: Global,
    what: &str,
    work: &mut DedbWork,
    locks: &mut Locks,
    needed: &mut Vec<u32>,
    defs: &Defs,
    exits: &Exits,
) -> Result<String, Fault>
    requires defs { AllByRecursion IsDedbDef defs.now.dedbs }
    requires exits { AllByRecursion (λ dedb. has_kind (kinds_of exits.now).spreaders dedb.randomizer ≡ true)
        defs.now.dedbs }
    requires going { IsUnderWay defs.now.dedbs work.old locks.old }

    ensures { IfOk result (λ came. IsUnderWay defs.now.dedbs work.new locks.new) }
{
    let (number, text) = numbered(what, defs)?;
    let call = call_of(alloc, number, text)?;
    locked_answer(alloc, number, &call, work, locks, needed, defs, exits)
}

// What comes of a line, by the only region.
fn locked_step(
    alloc: Global,
    what: &str,
    work: &mut DedbWork,
    locks: &mut Locks,
    trail: &mut Trail,
    defs: &Defs,
    exits: &Exits,
    randomized: &Cell<u64>,
) -> Result<String, Fault>
    requires defs { AllByRecursion IsDedbDef defs.now.dedbs }
    requires exits { AllByRecursion (λ dedb. has_kind (kinds_of exits.now).spreaders dedb.randomizer ≡ true)
        defs.now.dedbs }
    requires going { IsUnderWay defs.now.dedbs work.old locks.old }

    ensures { IfOk result (λ came. IsUnderWay defs.now.dedbs work.new locks.new) }
{
    match what {
        "needed" => or_fault(numbers_text(alloc, &trail.needed)),
        "randomized" => or_fault(trail.count(randomized).to_string(alloc)),
        "queued" => or_fault(work.inserts().len().to_string(alloc)),
        _ => locked_call(alloc, what, work, locks, &mut trail.needed, defs, exits),
    }
}

// A scenario begins: a transaction, and no lock held.
fn locked_begin(
    alloc: Global,
    work: &mut DedbWork,
    locks: &mut Locks,
    trail: &mut Trail,
    defs: &Defs,
    randomized: &Cell<u64>,
) -> Result<(), Fault>
    ensures { IfOk result (λ begun. IsUnderWay defs.now.dedbs work.new locks.new) }
{
    let (fresh, free) = begin(alloc, defs)?;
    put(work, fresh);
    put(locks, free);
    put(trail, Trail::new(alloc, randomized));
    Ok(())
}

// Reads a line of a file and judges it by the only region, or begins the next scenario.
fn locked_line(
    alloc: Global,
    text: &str,
    tally: &mut Tally,
    work: &mut DedbWork,
    locks: &mut Locks,
    trail: &mut Trail,
    defs: &Defs,
    exits: &Exits,
    randomized: &Cell<u64>,
) -> Result<(), Fault>
    requires defs { AllByRecursion IsDedbDef defs.now.dedbs }
    requires exits { AllByRecursion (λ dedb. has_kind (kinds_of exits.now).spreaders dedb.randomizer ≡ true)
        defs.now.dedbs }
    requires going { IsUnderWay defs.now.dedbs work.old locks.old }

    ensures { IfOk result (λ done. IsUnderWay defs.now.dedbs work.new locks.new) }
{
    match tally.read(alloc, text)? {
        Line::Begin => locked_begin(alloc, work, locks, trail, defs, randomized),
        Line::Step { what, wanted } => {
            let came = locked_step(alloc, what, work, locks, trail, defs, exits, randomized)?;
            or_fault(tally.judge(alloc, what, wanted, &came))
        }
    }
}

// Judges the lines of a file by the only region, one after another.
fn locked_lines(
    alloc: Global,
    lines: &str,
    tally: &mut Tally,
    work: &mut DedbWork,
    locks: &mut Locks,
    trail: &mut Trail,
    defs: &Defs,
    exits: &Exits,
    randomized: &Cell<u64>,
) -> Result<(), Fault>
    requires defs { AllByRecursion IsDedbDef defs.now.dedbs }
    requires exits { AllByRecursion (λ dedb. has_kind (kinds_of exits.now).spreaders dedb.randomizer ≡ true)
        defs.now.dedbs }
    requires going { IsUnderWay defs.now.dedbs work.old locks.old }
{
    for text in lines.lines() {
        locked_line(
            alloc, text, tally, work, locks, trail, defs, exits, randomized,
        )?;
    }
    Ok(())
}

// Judges the lines of a file by the only region.
fn judge_locked(
    alloc: Global,
    lines: &str,
    tally: &mut Tally,
    defs: &Defs,
    exits: &Exits,
    randomized: &Cell<u64>,
) -> Result<(), Fault>
    requires defs { AllByRecursion IsDedbDef defs.now.dedbs }
    requires exits { AllByRecursion (λ dedb. has_kind (kinds_of exits.now).spreaders dedb.randomizer ≡ true)
        defs.now.dedbs }
{
    let (mut work, mut locks) = begin(alloc, defs)?;
    let mut trail = Trail::new(alloc, randomized);
    let judged = locked_lines(
        alloc, lines, tally, &mut work, &mut locks, &mut trail, defs, exits, randomized,
    );
    let_go(locks);
    let_go(work);
    judged
}

// How many sequential inserts a transaction that ran alone had queued. Another begins.
fn alone_queued(alloc: Global, work: &mut Work, defs: &Defs) -> Result<String, Fault>
    ensures { IfOk result (λ came. IsWorkOf defs.now work.new) }
{
    let queued = end_alone(alloc, work, defs)?;
    Ok(queued.to_string(alloc)?)
}

// What a call is answered, by a transaction that runs alone.
fn alone_answer(
    alloc: Global,
    call: &Call,
    work: &mut Work,
    needed: &mut Vec<u32>,
    defs: &Defs,
    exits: &Exits,
) -> Result<String, Fault>
    requires none { defs.now.msdbs ≡ [] }
    requires dedbs { AllByRecursion IsDedbDef defs.now.dedbs }
    requires exits { AllByRecursion (λ dedb. has_kind (kinds_of exits.now).spreaders dedb.randomizer ≡ true)
        defs.now.dedbs }
    requires going { IsWorkOf defs.now work.old }

    ensures { IfOk result (λ came. IsWorkOf defs.now work.new) }
{
    let answer = ask_alone(alloc, work, call, defs, exits, needed)?;
    or_fault(came_of(alloc, &answer))
}

// What comes of a call, by a transaction that runs alone.
fn alone_call(
    alloc: Global,
    what: &str,
    work: &mut Work,
    needed: &mut Vec<u32>,
    defs: &Defs,
    exits: &Exits,
) -> Result<String, Fault>
    requires none { defs.now.msdbs ≡ [] }
    requires dedbs { AllByRecursion IsDedbDef defs.now.dedbs }
    requires exits { AllByRecursion (λ dedb. has_kind (kinds_of exits.now).spreaders dedb.randomizer ≡ true)
        defs.now.dedbs }
    requires going { IsWorkOf defs.now work.old }

    ensures { IfOk result (λ came. IsWorkOf defs.now work.new) }
{
    let (number, text) = numbered(what, defs)?;
    let call = call_of(alloc, number, text)?;
    alone_answer(alloc, &call, work, needed, defs, exits)
}

// What comes of a line, by a transaction that runs alone.
fn alone_step(
    alloc: Global,
    what: &str,
    work: &mut Work,
    trail: &mut Trail,
    defs: &Defs,
    exits: &Exits,
    randomized: &Cell<u64>,
) -> Result<String, Fault>
    requires none { defs.now.msdbs ≡ [] }
    requires dedbs { AllByRecursion IsDedbDef defs.now.dedbs }
    requires exits { AllByRecursion (λ dedb. has_kind (kinds_of exits.now).spreaders dedb.randomizer ≡ true)
        defs.now.dedbs }
    requires going { IsWorkOf defs.now work.old }

    ensures { IfOk result (λ came. IsWorkOf defs.now work.new) }
{
    match what {
        "needed" => or_fault(numbers_text(alloc, &trail.needed)),
        "randomized" => or_fault(trail.count(randomized).to_string(alloc)),
        "queued" => alone_queued(alloc, work, defs),
        _ => alone_call(alloc, what, work, &mut trail.needed, defs, exits),
    }
}

// Reads a line of a file and judges it by a transaction that runs alone, or begins the next scenario.
fn alone_line(
    alloc: Global,
    text: &str,
    tally: &mut Tally,
    work: &mut Work,
    trail: &mut Trail,
    defs: &Defs,
    exits: &Exits,
    randomized: &Cell<u64>,
) -> Result<(), Fault>
    requires none { defs.now.msdbs ≡ [] }
    requires dedbs { AllByRecursion IsDedbDef defs.now.dedbs }
    requires exits { AllByRecursion (λ dedb. has_kind (kinds_of exits.now).spreaders dedb.randomizer ≡ true)
        defs.now.dedbs }
    requires going { IsWorkOf defs.now work.old }

    ensures { IfOk result (λ done. IsWorkOf defs.now work.new) }
{
    match tally.read(alloc, text)? {
        Line::Begin => {
            put(work, begin_alone(alloc, defs)?);
            put(trail, Trail::new(alloc, randomized));
            Ok(())
        }
        Line::Step { what, wanted } => {
            let came = alone_step(alloc, what, work, trail, defs, exits, randomized)?;
            or_fault(tally.judge(alloc, what, wanted, &came))
        }
    }
}

// Judges the lines of a file by transactions that run alone, one after another.
fn alone_lines(
    alloc: Global,
    lines: &str,
    tally: &mut Tally,
    work: &mut Work,
    trail: &mut Trail,
    defs: &Defs,
    exits: &Exits,
    randomized: &Cell<u64>,
) -> Result<(), Fault>
    requires none { defs.now.msdbs ≡ [] }
    requires dedbs { AllByRecursion IsDedbDef defs.now.dedbs }
    requires exits { AllByRecursion (λ dedb. has_kind (kinds_of exits.now).spreaders dedb.randomizer ≡ true)
        defs.now.dedbs }
    requires going { IsWorkOf defs.now work.old }
{
    for text in lines.lines() {
        alone_line(alloc, text, tally, work, trail, defs, exits, randomized)?;
    }
    Ok(())
}

// Judges the lines of a file by transactions that run alone.
fn judge_alone(
    alloc: Global,
    lines: &str,
    tally: &mut Tally,
    defs: &Defs,
    exits: &Exits,
    randomized: &Cell<u64>,
) -> Result<(), Fault>
    requires none { defs.now.msdbs ≡ [] }
    requires dedbs { AllByRecursion IsDedbDef defs.now.dedbs }
    requires exits { AllByRecursion (λ dedb. has_kind (kinds_of exits.now).spreaders dedb.randomizer ≡ true)
        defs.now.dedbs }
{
    let mut work = begin_alone(alloc, defs)?;
    let mut trail = Trail::new(alloc, randomized);
    let judged = alone_lines(
        alloc, lines, tally, &mut work, &mut trail, defs, exits, randomized,
    );
    let_go(work);
    judged
}

// A scenario begins: each region with a transaction of its own, no lock held, and nothing that stands.
fn turns_begin(
    alloc: Global,
    first: &mut RegionWork,
    second: &mut RegionWork,
    locks: &mut Locks,
    standing: &mut Standing,
    defs: &Defs,
) -> Result<(), Fault>
    ensures going { IfOk result (λ begun. AreBothGoing defs.now first.new second.new locks.new) }
    ensures kept { IfOk result (λ begun. AreKept defs.now.dedbs standing.new.anchors.items) }
{
    let (one, two, free) = both_begin(alloc, defs)?;
    put(first, one);
    put(second, two);
    put(locks, free);
    put(standing, empty(alloc));
    Ok(())
}

// Reads a line of a scenario and judges it, or begins the next scenario.
fn turns_line(
    alloc: Global,
    text: &str,
    tally: &mut Tally,
    first: &mut RegionWork,
    second: &mut RegionWork,
    locks: &mut Locks,
    standing: &mut Standing,
    store: &MsdbStore,
    defs: &Defs,
    exits: &Exits,
) -> Result<(), Fault>
    requires bank { IsBank defs.now store.now (kinds_of exits.now) }
    requires going { AreBothGoing defs.now first.old second.old locks.old }
    requires kept { AreKept defs.now.dedbs standing.old.anchors.items }

    ensures going { IfOk result (λ done. AreBothGoing defs.now first.new second.new locks.new) }
    ensures kept { IfOk result (λ done. AreKept defs.now.dedbs standing.new.anchors.items) }
{
    match tally.read(alloc, text)? {
        Line::Begin => turns_begin(alloc, first, second, locks, standing, defs),
        Line::Step { what, wanted } => {
            let came = done_by(
                alloc, what, first, second, locks, standing, store, defs, exits,
            )?;
            or_fault(tally.judge(alloc, what, wanted, &came))
        }
    }
}

// Judges the lines of a file by two regions, one after another.
fn turns_lines(
    alloc: Global,
    lines: &str,
    tally: &mut Tally,
    first: &mut RegionWork,
    second: &mut RegionWork,
    locks: &mut Locks,
    standing: &mut Standing,
    store: &MsdbStore,
    defs: &Defs,
    exits: &Exits,
) -> Result<(), Fault>
    requires bank { IsBank defs.now store.now (kinds_of exits.now) }
    requires going { AreBothGoing defs.now first.old second.old locks.old }
    requires kept { AreKept defs.now.dedbs standing.old.anchors.items }
{
    for text in lines.lines() {
        turns_line(
            alloc, text, tally, first, second, locks, standing, store, defs, exits,
        )?;
    }
    Ok(())
}

// Judges the scenarios of a file, each on anchors without roots and with no lock held.
fn judge_turns(
    alloc: Global,
    lines: &str,
    tally: &mut Tally,
    store: &MsdbStore,
    defs: &Defs,
    exits: &Exits,
) -> Result<(), Fault>
    requires { IsBank defs.now store.now (kinds_of exits.now) }
{
    let mut begun = both_begin(alloc, defs)?;
    let mut standing = empty(alloc);
    let judged = turns_lines(
        alloc,
        lines,
        tally,
        &mut begun.0,
        &mut begun.1,
        &mut begun.2,
        &mut standing,
        store,
        defs,
        exits,
    );
    let_go(standing);
    let_go(begun);
    judged
}

// Judges the lines of a file, in its way, by databases as they start.
fn judge_by(
    alloc: Global,
    asked: &Asked<'_>,
    tally: &mut Tally,
    store: &MsdbStore,
    defs: &Defs,
    exits: &Exits,
    randomized: &Cell<u64>,
) -> Result<(), Fault>
    requires { IsBank defs.now store.now (kinds_of exits.now) }
{
    match asked.way {
        Way::Locked => judge_locked(alloc, asked.lines, tally, defs, exits, randomized),
        Way::Alone => {
            if !defs.msdbs.is_empty() {
                return Err(Fault::NotRead);
            }
            judge_alone(alloc, asked.lines, tally, defs, exits, randomized)
        }
        Way::Turns => judge_turns(alloc, asked.lines, tally, store, defs, exits),
    }
}

// Judges the lines of a file, in its way, by databases of these definitions.
fn judge_defined(
    alloc: Global,
    asked: &Asked<'_>,
    tally: &mut Tally,
    defs: &Defs,
    exits: &Exits,
    randomized: &Cell<u64>,
) -> Result<(), Fault>
    requires msdbs { AllByRecursion IsMsdbDef defs.now.msdbs }
    requires dedbs { AllByRecursion IsDedbDef defs.now.dedbs }
    requires exits { AllByRecursion (λ dedb. has_kind (kinds_of exits.now).spreaders dedb.randomizer ≡ true)
        defs.now.dedbs }
{
    let store = MsdbStore::start(alloc, defs)?;
    judge_by(alloc, asked, tally, &store, defs, exits, randomized)
}

/// Judges the lines of a file, in its way.
pub(crate) fn judge_file(
    alloc: Global,
    asked: &Asked<'_>,
    tally: &mut Tally,
    exits: &Exits,
    randomized: &Cell<u64>,
) -> Result<(), Fault> {
    let Ok(defs) = read_defs(alloc, asked.definitions, exits) else {
        return Err(Fault::NotRead);
    };
    let judged = judge_defined(alloc, asked, tally, &defs, exits, randomized);
    let_go(defs);
    judged
}
