//! Sites of format 1, which are migrated before they take messages with numbers.
use crate::groups::{front_of, seal_unknown};
use crate::steps::{Input, NOTHING, outcome, run};
use crate::systems::ONE_REGION;
use fp_site::Site;
use fp_system::Status;
use memory_site::{MemorySite, Snapshot};
use std::alloc::{AllocError, Global};
use std::test::Fail;

// Makes a log of format 1 with the entry that a run in that format made of a line that looks numbered, and answers
// whether no call failed.
fn write_old(alloc: Global, site: &mut MemorySite) -> Result<bool, AllocError> {
    let definitions = ONE_REGION.definitions(alloc)?;
    let front = front_of(alloc, definitions.as_slice(), ONE_REGION.scripts.as_bytes())?;
    Ok(seal_unknown(alloc, site, &front, b"T1 1 ASK A001", 1)? == 1)
}

// A site of format 1.
fn old_site(alloc: Global) -> Result<MemorySite, AllocError> {
    let mut site = MemorySite::new(alloc, &[])?;
    let _ = write_old(alloc, &mut site)?;
    Ok(site)
}

// What a command over no messages answers.
fn done(alloc: Global, command: &str, site: &mut MemorySite) -> Result<Status, AllocError> {
    outcome(alloc, command, ONE_REGION, NOTHING, site)
}

// Whether a migration is done, also a second time, and the log is so long then.
fn is_migrated(alloc: Global, site: &mut MemorySite, length: usize) -> Result<bool, AllocError> {
    for _ in 0..2 {
        let status = done(alloc, "migrate", site)?;
        if status != Status::Done || site.contents(0).len() != length {
            return Ok(false);
        }
    }
    Ok(true)
}

// A line that looked like one without a number in format 1.
const LINE: Input<'static> = Input {
    schedule: "",
    messages: b"T1 1 ASK A001\n",
    failing: &[],
};

// Whether it is answered, as where no number was used.
fn is_answered(alloc: Global, site: &mut MemorySite) -> Result<bool, AllocError> {
    let (status, sent) = run(alloc, "run", ONE_REGION, LINE, site)?;
    Ok(status == Status::Done && sent.as_slice() == b"T1 OK 100\n".as_slice())
}

// The entry of a migration with its length, the length of its group, and the gate.
const FORMAT_GROUP: usize = 1 + 8 + (8 + 8 + 1 + 2 + 2 + 4 + 4);

// Whether a run is refused as of an old format, and leaves the log as it was.
fn is_refused(alloc: Global, site: &mut MemorySite) -> Result<bool, AllocError> {
    let long = site.contents(0).len();
    let ran = done(alloc, "run", site)?;
    Ok(ran == Status::OldFormat && site.contents(0).len() == long)
}

// Whether a run on a site of format 1 is refused, and behind a migration it is answered.
fn is_migrated_before_a_run(alloc: Global, site: &mut MemorySite) -> Result<bool, AllocError> {
    let long = site.contents(0).len();
    Ok(
        is_refused(alloc, site)?
            && is_migrated(alloc, site, long.saturating_add(FORMAT_GROUP))?
            && is_answered(alloc, site)?,
    )
}

#[test]
fn a_site_of_format_1_is_migrated_before_a_run(rt: HostRuntime) -> Result<(), Fail> {
    let mut site = old_site(rt.alloc())?;
    assert!(rt; is_migrated_before_a_run(rt.alloc(), &mut site)?);
    Ok(())
}

// Whether a site that is made is left as it is by a migration.
fn is_left(alloc: Global, site: &mut MemorySite) -> Result<bool, AllocError> {
    let made = done(alloc, "define", site)? == Status::Done;
    let (long, calls) = (site.contents(0).len(), site.faults());
    let moved = done(alloc, "migrate", site)? == Status::Done;
    Ok(made && moved && site.contents(0).len() == long && site.faults() == calls)
}

#[test]
fn a_new_site_is_left_by_a_migration(rt: HostRuntime) -> Result<(), Fail> {
    let mut site = MemorySite::new(rt.alloc(), &[])?;
    assert!(rt; is_left(rt.alloc(), &mut site)?);
    Ok(())
}

// Whether a site is migrated, and then answers the line.
fn answers_behind(alloc: Global, site: &mut MemorySite) -> Result<bool, AllocError> {
    let moved = done(alloc, "migrate", site)? == Status::Done;
    Ok(moved && is_answered(alloc, site)?)
}

// Whether one does that begins as a snapshot.
fn goes_on(alloc: Global, snapshot: Snapshot) -> Result<bool, AllocError> {
    let mut site = MemorySite::from_snapshot(alloc, snapshot, &[])?;
    answers_behind(alloc, &mut site)
}

// Whether each of eight snapshots does.
fn all_go_on(alloc: Global, site: &MemorySite) -> Result<bool, AllocError> {
    let mut all = true;
    for choice in 0..8 {
        all &= goes_on(alloc, site.snapshot_as(choice)?)?;
    }
    Ok(all)
}

// Migrates a site whose calls may fail. Whether it leaves a site that goes on, and whether a call failed.
fn goes_on_behind(alloc: Global, site: &mut MemorySite) -> Result<(bool, bool), AllocError> {
    let _ = done(alloc, "migrate", site)?;
    Ok((all_go_on(alloc, site)?, site.faults() > 0))
}

// The same of a site one call of which fails.
fn goes_on_without(
    alloc: Global,
    old: &MemorySite,
    failing: u64,
) -> Result<(bool, bool), AllocError> {
    let mut site = MemorySite::from_snapshot(alloc, old.snapshot_as(0)?, &[failing])?;
    goes_on_behind(alloc, &mut site)
}

#[test]
fn each_call_of_a_migration_may_fail(rt: HostRuntime) -> Result<(), Fail> {
    let old = old_site(rt.alloc())?;
    for failing in 0..20 {
        let (goes_on, failed) = goes_on_without(rt.alloc(), &old, failing)?;
        assert!(rt; goes_on, "call {failing}");
        // Behind the last call nothing fails.
        if !failed {
            break;
        }
    }
    Ok(())
}

// The same of a site that is stopped at this call. None where the old log wasn't written by then.
fn goes_on_stopped(alloc: Global, after: u64) -> Result<Option<(bool, bool)>, AllocError> {
    let mut site = MemorySite::stopping(alloc, after)?;
    old_goes_on(alloc, &mut site)
}

fn old_goes_on(alloc: Global, site: &mut MemorySite) -> Result<Option<(bool, bool)>, AllocError> {
    if !write_old(alloc, site)? {
        return Ok(None);
    }
    Ok(Some(goes_on_behind(alloc, site)?))
}

// The log is opened by 2 calls of a migration, and its group sealed by 4.
#[test]
fn a_migration_may_be_stopped_at_each_call(rt: HostRuntime) -> Result<(), Fail> {
    let mut stops: u32 = 0;
    for after in 0..50 {
        if let Some((goes_on, stopped)) = goes_on_stopped(rt.alloc(), after)? {
            assert!(rt; goes_on, "stopped at {after}");
            if !stopped {
                break;
            }
            stops = stops.saturating_add(1);
        }
    }
    assert!(rt; stops >= 6);
    Ok(())
}
