//! A site that fails by data set and call.
use crate::steps::Answer::{Bytes, Done, Failed, Length};
use crate::steps::Step::{Reach, Read, Size, Sync, Write};
use crate::steps::{Answer, Step, answers, ended, first_wrong};
use fp_site::Site;
use memory_site::{FailingSite, Kind, MemorySite};
use std::alloc::{AllocError, Global};

static KINDS: [(Kind, Step); 5] = [
    (Kind::Size, Size),
    (Kind::Reach, Reach),
    (Kind::Read, Read(0)),
    (Kind::Write, Write(0, &[5, 6])),
    (Kind::Sync, Sync),
];

// Whether calls of this kind fail on data set 4, and no others.
fn fails_alone(site: &mut FailingSite<MemorySite>, kind: Kind) -> bool {
    for (other, step) in &KINDS {
        let fails = answers(site, 4, step, &Failed);
        if fails != (*other == kind) || answers(site, 5, step, &Failed) {
            return false;
        }
    }
    site.send(b"T1 OK\n").is_ok() && site.failed() == 1 && site.inner().faults() == 0
}

// Whether it is so of a site in memory.
fn kind_fails_alone(alloc: Global, kind: Kind) -> bool {
    match MemorySite::new(alloc, &[]) {
        Ok(site) => {
            let mut site = FailingSite::every(site, kind, 4);
            let is_so = fails_alone(&mut site, kind);
            ended(site, is_so)
        }
        Err(AllocError) => false,
    }
}

#[test]
fn each_kind_fails_on_its_data_set_alone(rt: HostRuntime) {
    for (place, (kind, _)) in KINDS.iter().enumerate() {
        assert!(rt; kind_fails_alone(rt.alloc(), *kind), "at {place}");
    }
}

static EVERY_WRITE: [(Step, Answer); 5] = [
    (Write(0, &[5, 6]), Failed),
    (Size, Length(0)),
    (Write(2, &[7, 8]), Failed),
    (Sync, Done),
    (Read(0), Bytes([0; 4])),
];

static SECOND_READ: [(Step, Answer); 5] = [
    (Write(0, &[5, 6]), Done),
    (Read(0), Bytes([5, 6, 0, 0])),
    (Read(0), Failed),
    (Read(0), Bytes([5, 6, 0, 0])),
    (Write(0, &[7, 8]), Done),
];

// Whether the steps on a data set answer so, and so many calls failed.
fn goes<T: Site + Drop>(
    site: FailingSite<T>,
    set: u16,
    rows: &[(Step, Answer)],
    failed: u64,
) -> bool {
    let mut site = site;
    first_wrong(&mut site, set, rows).is_none() && site.failed() == failed
}

fn every_write_fails(alloc: Global) -> bool {
    match MemorySite::new(alloc, &[]) {
        Ok(site) => goes(FailingSite::every(site, Kind::Write, 5), 5, &EVERY_WRITE, 2),
        Err(AllocError) => false,
    }
}

fn the_second_read_fails(alloc: Global) -> bool {
    match MemorySite::new(alloc, &[]) {
        Ok(site) => goes(
            FailingSite::once(site, Kind::Read, 4, 1),
            4,
            &SECOND_READ,
            1,
        ),
        Err(AllocError) => false,
    }
}

#[test]
fn every_call_fails_or_one_alone(rt: HostRuntime) {
    assert!(rt; every_write_fails(rt.alloc()) && the_second_read_fails(rt.alloc()));
}
