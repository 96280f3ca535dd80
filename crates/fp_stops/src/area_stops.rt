//! Each call of the site fails alone, and each is the first of all that fail. What a restart makes of what a stop left.

ghost use Rattle.area_runs.specs.Bank.{HasBank};

use crate::systems::exits;
use area_runs::Change::{Add, Note, Rename};
use area_runs::Step::{Commit, Mark, Owes, Purge, Seal, Shows, Sync, Write, WriteAll};
use area_runs::{Bench, Came, Ended, Step, let_go};
use ci_pool::Owed;
use fp_exits::Exits;
use memory_site::MemorySite;
use std::alloc::Global;
use std::test::Fail;

/// Commits in both areas, seals and writes between them, a checkpoint in steps with a commit between these, and a
/// Purge.
///
/// At the mark four intervals owe changes of the four entries: the anchors' base intervals, and of the second area
/// control and the interval of the notes. The commit changes one of them again, so that it waits for a seal.
static STEPS: [Step; 25] = [
    Commit(
        &[Add(6, b"C001", b"ANN"), Add(0, b"C003", b"BOB")],
        Came::Some,
    ),
    Commit(&[Note(6, b"C001", b"N1")], Came::Some),
    Seal,
    Write,
    Commit(&[Rename(6, b"C001", b"EVE")], Came::Some),
    Write,
    Commit(
        &[Note(6, b"C001", b"N2"), Rename(0, b"C003", b"BEN")],
        Came::Some,
    ),
    Seal,
    Mark,
    Owes(Owed::Write(3, 1)),
    Commit(&[Rename(6, b"C001", b"EVA")], Came::Some),
    Owes(Owed::Write(4, 0)),
    Owes(Owed::Write(4, 7)),
    Owes(Owed::Unsealed),
    Seal,
    Owes(Owed::Write(4, 4)),
    Owes(Owed::None),
    Sync,
    Purge(4, 1, Came::Some),
    Shows(6, b"C001EVA N2;"),
    Seal,
    Commit(&[Rename(0, b"C003", b"BOB")], Came::Some),
    Seal,
    WriteAll,
    Shows(0, b"C003BOB;"),
];

/// What the anchors 6 and 0 have behind so many entries.
static STATES: [(&[u8], &[u8]); 8] = [
    (b"", b""),
    (b"C001ANN;", b"C003BOB;"),
    (b"C001ANN N1;", b"C003BOB;"),
    (b"C001EVE N1;", b"C003BOB;"),
    (b"C001EVE N2 N1;", b"C003BEN;"),
    (b"C001EVA N2 N1;", b"C003BEN;"),
    (b"C001EVA N2;", b"C003BEN;"),
    (b"C001EVA N2;", b"C003BOB;"),
];

/// The steps.
fn steps() -> &'static [Step] {
    &STEPS
}

/// Whether an anchor shows this. False where the site failed.
fn shows(bench: &mut Bench<'_>, anchor: u32, wanted: &[u8]) -> Result<bool, Fail>
    requires { HasBank bench.old.defs bench.old.areas.places }
    ensures { HasBank bench.new.defs bench.new.areas.places }
{
    match bench.shown(anchor)? {
        Some(text) => Ok(text.as_slice() == wanted),
        None => Ok(false),
    }
}

/// Whether the anchors show what they have behind the entries that are sealed.
fn shows_its_state(bench: &mut Bench<'_>) -> Result<bool, Fail>
    requires { HasBank bench.old.defs bench.old.areas.places }
    ensures { HasBank bench.new.defs bench.new.areas.places }
{
    let sealed = bench.log.sealed();
    if sealed >= STATES.len() as u64 {
        return Ok(false);
    }
    let (sixth, first) = STATES[sealed as usize];
    Ok(shows(bench, 6, sixth)? && shows(bench, 0, first)?)
}

/// Whether a restart found the sealed entries, or all of them where a seal was cut short, and shows the databases
/// behind those that it found.
fn stands(bench: &Bench<'_>, again: &mut Bench<'_>) -> Result<bool, Fail>
    requires { HasBank again.old.defs again.old.areas.places }
{
    let found = again.log.sealed();
    let is_whole = found == bench.log.sealed() || found == bench.log.count();
    Ok(is_whole && shows_its_state(again)?)
}

/// Whether a restart from this snapshot of the site stands.
fn restarts_from(bench: &Bench<'_>, choice: u64) -> Result<bool, Fail> {
    match bench.restarted_from(choice)? {
        Some(mut again) => {
            let is_so = stands(bench, &mut again);
            let_go(again, is_so)
        }
        None => Ok(false),
    }
}

/// Whether a restart from each snapshot of the site finds the sealed entries, or all of them where a seal was cut
/// short, and shows the databases behind those that it finds.
fn restarts(bench: &Bench<'_>) -> Result<bool, Fail> {
    for choice in 0..8u64 {
        if !restarts_from(bench, choice)? {
            return Ok(false);
        }
    }
    Ok(true)
}

/// How a run over a site ended.
enum Run {
    /// The areas weren't formatted.
    Unformatted,
    /// This step ended otherwise than wanted, or, as the last, a restart showed something else.
    Otherwise(usize),
    /// All came out as wanted, and so many calls failed.
    Well(u64),
}

/// Runs the steps until the site fails, and restarts from what that leaves.
fn until_stopped(bench: &mut Bench<'_>) -> Result<Run, Fail>
    requires { HasBank bench.old.defs bench.old.areas.places }
{
    for (place, step) in steps().iter().enumerate() {
        match bench.step(step)? {
            Ended::Well => {}
            Ended::Failed => break,
            Ended::Otherwise => return Ok(Run::Otherwise(place)),
        }
    }
    restarted(bench)
}

/// How a run ended from which restarts were made.
fn restarted(bench: &Bench<'_>) -> Result<Run, Fail> {
    if restarts(bench)? {
        Ok(Run::Well(bench.site.faults()))
    } else {
        Ok(Run::Otherwise(steps().len()))
    }
}

/// Does a step; one that the site fails in is done once more, but for a seal.
fn step_again(bench: &mut Bench<'_>, step: &Step) -> Result<Ended, Fail>
    requires { HasBank bench.old.defs bench.old.areas.places }
    ensures { HasBank bench.new.defs bench.new.areas.places }
{
    let ended = bench.step(step)?;
    if matches!(ended, Ended::Failed) && !matches!(step, Seal) {
        return bench.step(step);
    }
    Ok(ended)
}

/// Runs the steps; one that the site fails in is done once more. Behind a seal that fails only a restart comes.
fn each_again(bench: &mut Bench<'_>) -> Result<Run, Fail>
    requires { HasBank bench.old.defs bench.old.areas.places }
{
    for (place, step) in steps().iter().enumerate() {
        match step_again(bench, step)? {
            Ended::Well => {}
            Ended::Failed if matches!(step, Seal) => return restarted(bench),
            _ => return Ok(Run::Otherwise(place)),
        }
    }
    // The call that fails may be one of those that look.
    if shows_its_state(bench)? || shows_its_state(bench)? {
        restarted(bench)
    } else {
        Ok(Run::Otherwise(steps().len()))
    }
}

/// Runs the steps where one call of the site fails alone, or all from one on.
fn run_steps(bench: &mut Bench<'_>, alone: bool) -> Result<Run, Fail>
    requires { HasBank bench.old.defs bench.old.areas.places }
{
    if alone {
        each_again(bench)
    } else {
        until_stopped(bench)
    }
}

/// Runs the steps over areas that are formatted on a site, of whose calls one fails alone, or all from one on.
fn run_over(alloc: Global, exits: &Exits, site: MemorySite, alone: bool) -> Result<Run, Fail> {
    match Bench::formatted(alloc, exits, site, 2)? {
        Some(mut bench) => {
            let run = run_steps(&mut bench, alone);
            let_go(bench, run)
        }
        None => Ok(Run::Unformatted),
    }
}

/// How a run ends over a site that fails at this call alone, or from it on.
fn with_a_fault(alloc: Global, exits: &Exits, call: u64, alone: bool) -> Result<Run, Fail> {
    let site = if alone {
        MemorySite::new(alloc, &[call])?
    } else {
        MemorySite::stopping(alloc, call)?
    };
    run_over(alloc, exits, site, alone)
}

/// The run makes fewer calls than this.
const MOST_CALLS: u64 = 200;

/// The first call with whose fault a run ends otherwise than wanted, and the step that it ends with; none where each
/// ends well, up to one in which no call fails.
fn first_wrong(alloc: Global, exits: &Exits, alone: bool) -> Result<Option<(u64, usize)>, Fail> {
    for call in 0..MOST_CALLS {
        match with_a_fault(alloc, exits, call, alone)? {
            Run::Unformatted => {}
            Run::Otherwise(step) => return Ok(Some((call, step))),
            Run::Well(0) => return Ok(None),
            Run::Well(_) => {}
        }
    }
    Ok(Some((MOST_CALLS, 0)))
}

#[test]
fn each_call_may_fail_alone_or_as_the_first(rt: HostRuntime) -> Result<(), Fail> {
    let exits = exits(rt.alloc())?;
    for alone in [false, true] {
        if let Some((call, step)) = first_wrong(rt.alloc(), &exits, alone)? {
            assert!(rt; false, "call {call}, alone {alone}: step {step}");
        }
    }
    Ok(())
}
