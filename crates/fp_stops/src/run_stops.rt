//! Sites that are stopped at any call while they are made and run: what a restart from what a crash may leave has kept.
use crate::steps::{Input, NOTHING, outcome, run};
use crate::systems::{ONE_REGION, PAIRS, System, TWO_REGIONS};
use fp_model::Bytes;
use fp_system::Status;
use memory_site::{MemorySite, Snapshot};
use std::alloc::{AllocError, Global};
use std::test::Fail;

// A run, and what a command behind a stop sends by how much of the run was kept.
struct Stopped {
    system: System,
    schedule: &'static str,
    messages: &'static str,
    // The site is made and run by fewer calls.
    calls: u64,
    // Reply lines of so many bytes are sealed in one group.
    group: usize,
    // The command behind the stop, and its messages.
    command: &'static str,
    asking: &'static str,
    // What it sends behind each number of groups.
    answers: &'static [&'static str],
}

static STOPPED: [Stopped; 4] = [
    Stopped {
        system: ONE_REGION,
        schedule: "IN R1 R1 R1 R1 LOG IN R1 R1 R1 R1 LOG",
        messages: "T1 DEPOSIT A001 10\nT2 DEPOSIT A001 20\n",
        calls: 40,
        group: 10,
        command: "run",
        asking: "T3 ASK A001\n",
        answers: &["T3 OK 100\n", "T3 OK 110\n", "T3 OK 130\n"],
    },
    // The second deposit's region is ahead, and two entries are a group.
    Stopped {
        system: PAIRS,
        schedule: "IN IN R1 R2 R2 R2 R2 R1 R1 R1 LOG IN R1 R1 R1 R1 LOG",
        messages: "T1 DEPOSIT A001 10\nT2 DEPOSIT A001 20\nT3 DEPOSIT A001 40\n",
        calls: 40,
        group: 20,
        command: "run",
        asking: "T4 ASK A001\n",
        answers: &["T4 OK 100\n", "T4 OK 130\n", "T4 OK 170\n"],
    },
    // A numbered message that is sent again counts once.
    Stopped {
        system: ONE_REGION,
        schedule: "",
        messages: "T1 1 DEPOSIT A001 10\n",
        calls: 30,
        group: 10,
        command: "run",
        asking: "T1 1 DEPOSIT A001 10\nT2 ASK A001\n",
        answers: &["T1 OK NEW\nT2 OK 110\n", "T1 OK NEW\nT2 OK 110\n"],
    },
    Stopped {
        system: TWO_REGIONS,
        schedule: "",
        messages: "T1 DEPOSIT A001 10\n",
        calls: 24,
        group: 10,
        command: "show",
        asking: "",
        answers: &[
            "msdb ACCTS 2\n  ACCT=A001 BAL=100\n  ACCT=A002 BAL=50\nmsdb TELLERS 1\n  TNO=T001 CASH=0\n",
            "msdb ACCTS 2\n  ACCT=A001 BAL=110\n  ACCT=A002 BAL=50\nmsdb TELLERS 1\n  TNO=T001 CASH=0\n",
        ],
    },
];

fn stopped_rows() -> &'static [Stopped] {
    &STOPPED
}

// Makes and runs a site. Whether it was made.
fn make_and_run(alloc: Global, row: &Stopped, site: &mut MemorySite) -> Result<bool, AllocError> {
    let made = outcome(alloc, "define", row.system, NOTHING, site)? == Status::Done;
    let input = Input {
        schedule: row.schedule,
        messages: row.messages.as_bytes(),
        failing: &[],
    };
    let _ = outcome(alloc, "run", row.system, input, site)?;
    Ok(made)
}

// What the command behind a stop answers and sends.
fn asked(alloc: Global, row: &Stopped, snapshot: Snapshot) -> Result<(Status, Bytes), AllocError> {
    let mut site = MemorySite::from_snapshot(alloc, snapshot, &[])?;
    let input = Input {
        schedule: "",
        messages: row.asking.as_bytes(),
        failing: &[],
    };
    run(alloc, row.command, row.system, input, &mut site)
}

// Whether each group of which a line came out, be it in part, was kept, and of the others each whole or not at all. A
// site that wasn't made may be foreign.
fn is_kept(
    alloc: Global,
    row: &Stopped,
    snapshot: Snapshot,
    made: bool,
) -> Result<bool, AllocError> {
    let answered = snapshot.sent.len().div_ceil(row.group.max(1));
    let (status, text) = asked(alloc, row, snapshot)?;
    if status == Status::Foreign {
        return Ok(!made && answered == 0 && text.is_empty());
    }
    let left = row.answers.get(answered..).unwrap_or(&[]);
    let is_text = |answer: &&str| -> bool { answer.as_bytes() == text.as_slice() };
    Ok(status == Status::Done && left.iter().any(is_text))
}

// Makes and runs a site whose calls may fail: the first of eight images that hasn't what was answered, and whether a
// call failed.
fn first_lost_image(
    alloc: Global,
    row: &Stopped,
    site: &mut MemorySite,
) -> Result<(Option<u64>, bool), AllocError> {
    let made = make_and_run(alloc, row, site)?;
    for choice in 0..8 {
        if !is_kept(alloc, row, site.snapshot_as(choice)?, made)? {
            return Ok((Some(choice), true));
        }
    }
    Ok((None, site.faults() > 0))
}

// The same of a site all of whose calls from this number on fail.
fn first_lost_behind(
    alloc: Global,
    row: &Stopped,
    after: u64,
) -> Result<(Option<u64>, bool), AllocError> {
    let mut site = MemorySite::stopping(alloc, after)?;
    first_lost_image(alloc, row, &mut site)
}

// The first stop of a run and image that hasn't what was answered.
fn first_lost(alloc: Global, row: &Stopped) -> Result<Option<(u64, u64)>, AllocError> {
    for after in 0..row.calls {
        let (lost, failed) = first_lost_behind(alloc, row, after)?;
        if let Some(choice) = lost {
            return Ok(Some((after, choice)));
        }
        // Behind the last call nothing fails.
        if !failed {
            break;
        }
    }
    Ok(None)
}

#[test]
fn a_restart_has_what_was_answered(rt: HostRuntime) -> Result<(), Fail> {
    for (number, row) in stopped_rows().iter().enumerate() {
        let lost = first_lost(rt.alloc(), row)?;
        let (after, choice) = lost.unwrap_or((0, 0));
        assert!(rt;
            lost.is_none(),
            "row {number} stopped at {after}, image {choice}"
        );
    }
    Ok(())
}

// Whether a text is the last answer of a run.
fn is_last(row: &Stopped, text: &[u8]) -> bool {
    match row.answers {
        [.., last] => text == last.as_bytes(),
        [] => false,
    }
}

// Makes and runs a site. Whether it has all, and the command behind the run says so.
fn has_all_of(alloc: Global, row: &Stopped, site: &mut MemorySite) -> Result<bool, AllocError> {
    let made = make_and_run(alloc, row, site)?;
    let (status, text) = asked(alloc, row, site.snapshot_as(0)?)?;
    Ok(made && status == Status::Done && is_last(row, text.as_slice()))
}

// The same of a site that isn't stopped.
fn has_all(alloc: Global, row: &Stopped) -> Result<bool, AllocError> {
    let mut site = MemorySite::stopping(alloc, row.calls)?;
    has_all_of(alloc, row, &mut site)
}

#[test]
fn a_run_that_is_not_stopped_has_all(rt: HostRuntime) -> Result<(), Fail> {
    for (number, row) in stopped_rows().iter().enumerate() {
        assert!(rt; has_all(rt.alloc(), row)?, "row {number}");
    }
    Ok(())
}
