//! Each call with ample memory, and what calls told to fail leave.
use crate::steps::Answer::{Bytes as Four, Done, Length};
use crate::steps::Step::{Reach, Read, Send, Size, Sync, Write};
use crate::steps::{Answer, Step, answers, ended, first_wrong};
use fp_lists::{Bytes, List};
use fp_site::Site;
use memory_site::{MemorySite, Snapshot};
use std::alloc::{AllocError, Global};

/// What is done with a site, and what must come of it.
enum Deed {
    /// There is memory for so many bytes more.
    Prepare(u64),
    /// The steps on a data set answer so.
    Goes(u16, &'static [(Step, Answer)]),
    /// A data set has these bytes.
    Holds(u16, &'static [u8]),
    /// These were sent.
    Sent(&'static [u8]),
    /// So many calls failed, and so many of these for want of memory.
    Counts(u64, u64),
    /// Of `CALLS` the one of this number fails, and no other.
    FailsAlone(usize),
    /// A failed write of 32 bytes at 4 leaves mixed bytes there, and the others as they were.
    Mixes,
    /// A failed read gives bytes that stand nowhere.
    ReadsOther,
    /// There is no memory for a write so far behind.
    IsShort,
}

static CALLS: [Step; 6] = [
    Size,
    Reach,
    Read(0),
    Write(0, &[5, 6]),
    Sync,
    Send(b"T1 OK\n"),
];

const EACH: &[(Step, Answer)] = &[
    (Size, Length(0)),
    (Reach, Done),
    (Write(2, &[7, 8]), Done),
    (Size, Length(4)),
    (Read(1), Four([0, 7, 8, 0])),
    (Sync, Done),
    (Write(0, &[1, 2]), Done),
    (Read(0), Four([1, 2, 7, 8])),
    (Send(b"T1 OK\n"), Done),
];

/// Each call answers.
const EACH_CALL: &[Deed] = &[
    Deed::Prepare(100),
    Deed::Goes(3, EACH),
    Deed::Holds(3, &[1, 2, 7, 8]),
    Deed::Holds(4, &[]),
    Deed::Sent(b"line\nT1 OK\n"),
    Deed::Counts(0, 0),
];

/// The log at first, the calls that fail, and what is done.
static RUNS: [(&[u8], &[u64], &[Deed]); 11] = [
    (&[], &[], EACH_CALL),
    // A call told to fail fails, and is counted.
    (
        &[1, 2, 3, 4],
        &[0],
        &[Deed::FailsAlone(0), Deed::Counts(1, 0)],
    ),
    (
        &[1, 2, 3, 4],
        &[1],
        &[Deed::FailsAlone(1), Deed::Counts(1, 0)],
    ),
    (
        &[1, 2, 3, 4],
        &[2],
        &[Deed::FailsAlone(2), Deed::Counts(1, 0)],
    ),
    (
        &[1, 2, 3, 4],
        &[3],
        &[Deed::FailsAlone(3), Deed::Counts(1, 0)],
    ),
    (
        &[1, 2, 3, 4],
        &[4],
        &[Deed::FailsAlone(4), Deed::Counts(1, 0)],
    ),
    (
        &[1, 2, 3, 4],
        &[5],
        &[Deed::FailsAlone(5), Deed::Counts(1, 0)],
    ),
    // What failed calls leave.
    (&[1; 40], &[0], &[Deed::Mixes]),
    (
        &[],
        &[0],
        &[
            Deed::Goes(0, &[(Send(b"T1 OK\n"), Answer::Failed)]),
            Deed::Sent(b"line\nT1 "),
        ],
    ),
    (&[1, 2], &[0], &[Deed::ReadsOther]),
    // A call that finds no memory is short, and changes nothing.
    (
        &[1, 2],
        &[],
        &[Deed::IsShort, Deed::Holds(0, &[1, 2]), Deed::Counts(1, 1)],
    ),
];

// Makes this log, and a text that was sent.
fn fill(
    alloc: Global,
    log: &[u8],
    images: &mut List<Bytes>,
    sent: &mut Bytes,
) -> Result<(), AllocError> {
    sent.append(b"line\n")?;
    images.push(Bytes::from_slice(alloc, log)?)
}

// A site whose log is these bytes, all on the disk, with a line sent.
fn site_of(alloc: Global, log: &[u8], failing: &[u64]) -> Result<MemorySite, AllocError> {
    let mut images = List::new(alloc);
    let mut sent = Bytes::new(alloc);
    fill(alloc, log, &mut images, &mut sent)?;
    MemorySite::from_snapshot(alloc, Snapshot::new(images, sent), failing)
}

// Whether a deed comes out as it says.
fn comes_out(site: &mut MemorySite, deed: &Deed) -> bool {
    match *deed {
        Deed::Prepare(bytes) => site.prepare(bytes).is_ok(),
        Deed::Goes(set, rows) => first_wrong(site, set, rows).is_none(),
        Deed::Holds(set, bytes) => site.contents(set) == bytes,
        Deed::Sent(text) => site.sent() == text,
        Deed::Counts(faults, shorts) => site.faults() == faults && site.shorts() == shorts,
        Deed::FailsAlone(which) => fails_alone(site, which),
        Deed::Mixes => mixes(site),
        Deed::ReadsOther => reads_other(site),
        Deed::IsShort => site.write_at(0, 1 << 61, &[7]).is_err(),
    }
}

// Whether a failed write of 32 bytes at 4 leaves mixed bytes there.
fn mixes(site: &mut MemorySite) -> bool {
    site.write_at(0, 4, &[2; 32]).is_err() && is_mixed(site.contents(0), 4, 36)
}

// Whether a failed read gives bytes that stand nowhere.
fn reads_other(site: &mut MemorySite) -> bool {
    let mut into = [0u8; 2];
    site.read_at(0, 0, &mut into).is_err() && into == [0xA5, 0xA5]
}

// Whether of all calls this one fails, and no other.
fn fails_alone(site: &mut MemorySite, which: usize) -> bool {
    for (place, call) in CALLS.iter().enumerate() {
        if answers(site, 0, call, &Answer::Failed) != (place == which) {
            return false;
        }
    }
    true
}

// Whether these are forty bytes, with old ones outside of a range, and within it old ones, new ones, and others.
fn is_mixed(left: &[u8], from: usize, to: usize) -> bool {
    let (mut old, mut new, mut other) = (false, false, false);
    for (place, byte) in left.iter().enumerate() {
        let is_within = from <= place && place < to;
        match *byte {
            1 => old |= is_within,
            2 if is_within => new = true,
            _ if is_within => other = true,
            _ => return false,
        }
    }
    left.len() == 40 && old && new && other
}

// The place of the first deed that comes out otherwise.
fn first_other(site: &mut MemorySite, deeds: &[Deed]) -> Option<usize> {
    for (place, deed) in deeds.iter().enumerate() {
        if !comes_out(site, deed) {
            return Some(place);
        }
    }
    None
}

// The same of a site with this log and these calls that fail; the number of deeds where there is no memory for it.
fn first_other_of(alloc: Global, log: &[u8], failing: &[u64], deeds: &[Deed]) -> Option<usize> {
    match site_of(alloc, log, failing) {
        Ok(mut site) => {
            let wrong = first_other(&mut site, deeds);
            ended(site, wrong)
        }
        Err(AllocError) => Some(deeds.len()),
    }
}

#[test]
fn calls_answer_or_leave_what_they_may(rt: HostRuntime) {
    for (place, (log, failing, deeds)) in RUNS.iter().enumerate() {
        let wrong = first_other_of(rt.alloc(), log, failing, deeds);
        assert!(rt; wrong.is_none(), "run {place} at {wrong:?}");
    }
}
