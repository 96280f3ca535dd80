//! What is read back of a log after a stop at each call, and logs in use, step by step.
ghost use Rattle.fp_model.specs.LogText.{FitsFront};
ghost use Rattle.log_groups.specs.Images.{as_front};
ghost use Rattle.std.specs.Prelude.{◌<◌, IfOk};

use crate::groups::{append_unknown, front_of, may_be_left, seal_unknown, stopping_copy};
use fp_site::Site;
use log_groups::{Front, Log, LogFault};
use memory_site::{MemorySite, Snapshot};
use std::alloc::{AllocError, Global};
use std::test::Fail;

fn front(alloc: Global) -> Result<Front, AllocError>
    ensures { IfOk result (λ front. FitsFront (as_front front)) }
{
    front_of(alloc, b"D", b"")
}

// Makes a log and seals three groups of an entry each, until a call fails. How many groups were sealed.
fn seal_three(alloc: Global, site: &mut MemorySite) -> Result<u64, AllocError> {
    let front = front(alloc)?;
    seal_unknown(alloc, site, &front, b"", 3)
}

// Makes a log.
fn make(alloc: Global, site: &mut MemorySite) -> Result<(), LogFault> {
    let front = front(alloc)?;
    Log::make(alloc, site, &front)
}

// The log of a site, open.
fn open(alloc: Global, site: &mut MemorySite) -> Result<Log, LogFault> {
    let front = front(alloc)?;
    Log::open(alloc, site, &front)
}

// How many groups a site has after a crash, each of the entry that it should have. None where its log isn't open.
fn read_back(alloc: Global, snapshot: Snapshot) -> Result<Option<u64>, LogFault> {
    let mut site = MemorySite::from_snapshot(alloc, snapshot, &[])?;
    groups_in(alloc, &mut site)
}

// How many groups a site has, each of the entry that it should have. None where its log isn't open.
fn groups_in(alloc: Global, site: &mut MemorySite) -> Result<Option<u64>, LogFault> {
    match open(alloc, site) {
        Ok(mut log) => Ok(Some(groups_of(&mut log, site)?)),
        Err(LogFault::Foreign) => Ok(None),
        Err(fault) => Err(fault),
    }
}

// How many groups a log has, each of the entry that it should have.
fn groups_of(log: &mut Log, site: &mut MemorySite) -> Result<u64, LogFault> {
    let mut at = log.gate();
    for number in 0..4 {
        let Some(next) = behind_group(log, site, at, number)? else {
            return Ok(number);
        };
        at = next;
    }
    Err(LogFault::Damaged(at))
}

// The gate behind the group at a gate, which has the entry of this number. None where there is none.
fn behind_group(
    log: &mut Log,
    site: &mut MemorySite,
    at: u64,
    number: u64,
) -> Result<Option<u64>, LogFault> {
    let Some(group) = log.group_at(site, at)? else {
        return Ok(None);
    };
    match group.entries.get(0) {
        Some(e) if e.from == number => Ok(Some(group.next)),
        _ => Err(LogFault::Damaged(at)),
    }
}

// Whether each of the first snapshots of a site reads back as so many groups, or, with None, as no open log.
fn are_read_back(
    alloc: Global,
    site: &MemorySite,
    choices: u64,
    wanted: Option<u64>,
) -> Result<bool, AllocError> {
    for choice in 0..choices {
        let snapshot = site.snapshot_as(choice)?;
        if read_back(alloc, snapshot) != Ok(wanted) {
            return Ok(false);
        }
    }
    Ok(true)
}

// Whether each of eight snapshots does.
fn is_read_back(alloc: Global, site: &MemorySite, wanted: Option<u64>) -> Result<bool, AllocError> {
    are_read_back(alloc, site, 8, wanted)
}

// Whether a log of which so many groups were sealed, by a site that stopped behind so many calls, may read back so.
fn may_be_read_back(after: u64, sealed: u64, found: Result<Option<u64>, LogFault>) -> bool {
    match found {
        Ok(Some(groups)) => groups >= sealed && groups - sealed <= 1,
        Ok(None) => after < 8,
        Err(_) => false,
    }
}

// Seals three groups on a site that stops behind so many calls: the first of eight images that doesn't read back so.
fn first_lost_image(
    alloc: Global,
    site: &mut MemorySite,
    after: u64,
) -> Result<Option<u64>, AllocError> {
    let sealed = seal_three(alloc, site)?;
    for choice in 0..8 {
        let found = read_back(alloc, site.snapshot_as(choice)?);
        if !may_be_read_back(after, sealed, found) {
            return Ok(Some(choice));
        }
    }
    Ok(None)
}

fn first_lost_behind(alloc: Global, after: u64) -> Result<Option<u64>, AllocError> {
    let mut site = MemorySite::stopping(alloc, after)?;
    first_lost_image(alloc, &mut site, after)
}

// The log is made by 8 calls, opened by 2, and each group sealed by 4.
#[test]
fn after_each_stop_every_sealed_group_is_read_back(rt: HostRuntime) -> Result<(), Fail> {
    for after in 0..24 {
        let lost = first_lost_behind(rt.alloc(), after)?;
        let choice = lost.unwrap_or(0);
        assert!(rt; lost.is_none(), "stopped at {after}, image {choice}");
    }
    Ok(())
}

// Whether none of three groups is sealed by a site that stops behind so many calls, nor read back.
fn is_left_closed(alloc: Global, after: u64) -> Result<bool, AllocError> {
    let mut site = MemorySite::stopping(alloc, after)?;
    let none = matches!(seal_three(alloc, &mut site), Ok(0));
    Ok(none && matches!(are_read_back(alloc, &site, 2, Some(0)), Ok(true)))
}

// A stop behind the body's sync leaves the group behind a closed gate.
#[test]
fn before_its_gate_is_written_no_group_is_read_back(rt: HostRuntime) -> Result<(), Fail> {
    assert!(rt; is_left_closed(rt.alloc(), 12)?);
    Ok(())
}

// Writes the body of the third group once more behind the last gate, and the gate behind it: what `seal` leaves between
// its second call and its third. Whether it was written.
fn write_third_body(alloc: Global, site: &mut MemorySite) -> Result<bool, AllocError> {
    let log = site.contents(0);
    if log.len() != 133 {
        return Ok(false);
    }
    let group = Vec::from_slice(alloc, &log[95..133])?;
    Ok(site.write_at(0, 133, &group).is_ok() && site.sync(0).is_ok())
}

// Whether each of eight images is as a making that stops behind so many calls may leave it.
fn are_left_anew(alloc: Global, site: &MemorySite, after: u64) -> Result<bool, AllocError> {
    for choice in 0..8 {
        if !is_left_anew(alloc, site.snapshot_as(choice)?, after) {
            return Ok(false);
        }
    }
    Ok(true)
}

// Whether a making that stops behind so many calls may leave this.
fn is_left_anew(alloc: Global, snapshot: Snapshot, after: u64) -> bool {
    let found = read_back(alloc, snapshot);
    let is_old = found == Ok(Some(3));
    let is_none = found == Ok(None);
    may_be_left(after, is_old, is_none, found == Ok(Some(0)))
}

// Makes a log anew over the contents of a site, where the call with this number and the next one fail. Whether it is
// made where no call fails alone, and what is left is as it may be.
fn leaves_well(alloc: Global, old: &MemorySite, after: u64) -> Result<bool, AllocError>
    requires { after < 100 }
{
    let mut site = stopping_copy(alloc, old, after)?;
    let made = make(alloc, &mut site).is_ok();
    Ok(made == (after == 9) && matches!(are_left_anew(alloc, &site, after), Ok(true)))
}

// What is asked of a new site with a log of three groups.
#[derive(Clone, Copy)]
enum Asked {
    // A body on the disk counts only behind an open gate.
    BodyBehindClosedGate,
    // The log is made anew by 9 calls. Until then it is as it was, or isn't open.
    StoppedAnew(u64),
    // A log that is shut is not opened, also where it is shut twice.
    Shut,
    // It is made anew.
    ShutAndMade,
}

static ASKED: [Asked; 13] = [
    Asked::BodyBehindClosedGate,
    Asked::Shut,
    Asked::ShutAndMade,
    Asked::StoppedAnew(0),
    Asked::StoppedAnew(1),
    Asked::StoppedAnew(2),
    Asked::StoppedAnew(3),
    Asked::StoppedAnew(4),
    Asked::StoppedAnew(5),
    Asked::StoppedAnew(6),
    Asked::StoppedAnew(7),
    Asked::StoppedAnew(8),
    Asked::StoppedAnew(9),
];

// Whether a site answers so.
fn answers(alloc: Global, site: &mut MemorySite, asked: Asked) -> Result<bool, AllocError> {
    match asked {
        Asked::BodyBehindClosedGate => Ok(
            write_third_body(alloc, site)? && is_read_back(alloc, site, Some(3))?,
        ),
        Asked::StoppedAnew(after) => leaves_well(alloc, site, after % 100),
        Asked::Shut => Ok(is_shut(alloc, site)? && is_shut(alloc, site)?),
        Asked::ShutAndMade => Ok(
            is_shut(alloc, site)?
                && make(alloc, site).is_ok()
                && is_read_back(alloc, site, Some(0))?,
        ),
    }
}

// Shuts a log. Whether it was shut, and isn't opened.
fn is_shut(alloc: Global, site: &mut MemorySite) -> Result<bool, AllocError> {
    Ok(Log::shut(site).is_ok() && is_read_back(alloc, site, None)?)
}

// Whether a new site with a log of three groups answers so.
fn three_answer(alloc: Global, asked: Asked) -> Result<bool, AllocError> {
    let mut site = MemorySite::new(alloc, &[])?;
    let sealed = matches!(seal_three(alloc, &mut site), Ok(3));
    Ok(sealed && matches!(answers(alloc, &mut site, asked), Ok(true)))
}

#[test]
fn a_log_of_three_groups_answers(rt: HostRuntime) -> Result<(), Fail> {
    for (place, asked) in ASKED.iter().enumerate() {
        assert!(rt; three_answer(rt.alloc(), *asked)?, "asked {place}");
    }
    Ok(())
}

// ---- logs in use

// A step of a log in use, with what is wanted of it.
enum Step {
    // Room for so many bytes.
    Reserve(u64),
    // An entry, and its place.
    Append(u64),
    // How many bytes were used up since the last step that reserved some.
    Uses(u64),
    // Seals this many entries at most, and this many there are.
    Seal(u32, u32),
    // How many entries are sealed, how many there are, and where the last gate stands.
    Knows(u64, u64, u64),
}

// A log of its own site, and the spare that it had when some was reserved last.
#[derive(Drop)]
struct InUse {
    site: MemorySite,
    log: Log,
    spare: u64,
}

// A new log, open.
fn new_log(alloc: Global, site: &mut MemorySite) -> Result<Log, LogFault> {
    make(alloc, site)?;
    let front = front(alloc)?;
    let mut log = Log::open(alloc, site, &front)?;
    log.end_at(18, 0, 1);
    Ok(log)
}

impl InUse {
    fn new(alloc: Global) -> Result<InUse, LogFault> {
        let mut site = MemorySite::new(alloc, &[])?;
        let log = new_log(alloc, &mut site)?;
        Ok(InUse {
            site,
            log,
            spare: 0,
        })
    }

    fn reserve(&mut self, bytes: u64) -> Result<bool, AllocError> {
        self.log.reserve(bytes)?;
        self.spare = self.log.spare();
        Ok(self.spare >= bytes)
    }

    fn seal(&mut self, most: u32, count: u32) -> bool {
        if most == 0 {
            return false;
        }
        self.log.seal(&mut self.site, most) == Ok(count)
    }

    fn knows(&self) -> (u64, u64, u64) {
        (self.log.sealed(), self.log.count(), self.log.gate())
    }

    // Takes a step. Whether it came to what is wanted.
    fn take(&mut self, alloc: Global, step: &Step) -> Result<bool, AllocError> {
        match *step {
            Step::Reserve(bytes) => self.reserve(bytes),
            Step::Append(place) => Ok(append_unknown(alloc, &mut self.log, place, b"")? == place),
            Step::Uses(bytes) => Ok(self.spare.checked_sub(self.log.spare()) == Some(bytes)),
            Step::Seal(most, count) => Ok(self.seal(most, count)),
            Step::Knows(sealed, count, gate) => Ok(self.knows() == (sealed, count, gate)),
        }
    }

    // The first step that doesn't come to what is wanted, by its place.
    fn wrong_step(&mut self, alloc: Global, steps: &[Step]) -> Result<Option<usize>, LogFault> {
        for (place, step) in steps.iter().enumerate() {
            if !self.take(alloc, step)? {
                return Ok(Some(place));
            }
        }
        Ok(None)
    }
}

// Each entry has 29 bytes, and a group 9 more. The last append of the first log has 2 bytes to spare.
static LOGS_IN_USE: [&[Step]; 2] = [
    &[
        Step::Uses(0),
        Step::Reserve(60),
        Step::Append(0),
        Step::Append(1),
        Step::Uses(58),
        Step::Seal(2, 2),
        Step::Uses(58),
        Step::Append(2),
        Step::Seal(2, 1),
        Step::Knows(3, 3, 123),
    ],
    &[
        Step::Knows(0, 0, 18),
        Step::Reserve(100),
        Step::Append(0),
        Step::Append(1),
        Step::Append(2),
        Step::Seal(2, 2),
        Step::Knows(2, 3, 85),
        Step::Seal(2, 1),
        Step::Seal(2, 0),
        Step::Knows(3, 3, 123),
        Step::Reserve(1000),
        Step::Append(3),
        Step::Seal(1, 1),
        Step::Knows(4, 4, 161),
    ],
];

// The first step of a new log that doesn't come to what is wanted, by its place.
fn wrong_step(alloc: Global, steps: &[Step]) -> Result<Option<usize>, LogFault> {
    let mut log = InUse::new(alloc)?;
    log.wrong_step(alloc, steps)
}

#[test]
fn each_step_of_a_log_in_use_comes_to_what_is_wanted(rt: HostRuntime) -> Result<(), Fail> {
    for (row, steps) in LOGS_IN_USE.iter().enumerate() {
        let wrong = wrong_step(rt.alloc(), steps)?;
        let place = wrong.unwrap_or(0);
        assert!(rt; wrong.is_none(), "log {row} at {place}");
    }
    Ok(())
}
