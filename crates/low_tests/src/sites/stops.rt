//! What stops and crashes leave.
use crate::steps::Answer::Done;
use crate::steps::Step::{Send, Sync, Write};
use crate::steps::{Answer, Step, ended, first_wrong};
use memory_site::{MemorySite, Snapshot};
use std::alloc::{AllocError, Global};

// The log of a snapshot.
fn log_of(snapshot: &Snapshot) -> &[u8] {
    match snapshot.images.get(0) {
        Some(log) => log.as_slice(),
        None => &[],
    }
}

// A write into an empty log, a sync, a send and a second write.
static RUN: [(Step, Answer); 4] = [
    (Write(1, &[7, 7]), Done),
    (Sync, Done),
    (Send(b"T1 OK\n"), Done),
    (Write(2, &[8, 8, 8, 8]), Done),
];

// What every crash after a stop has in common.
struct Stop {
    // The call of `RUN` that fails.
    fails: Option<usize>,
    // The log at its last sync.
    synced: &'static [u8],
    // How many of its bytes no write covers since.
    firm: usize,
    // The end of the longest write since.
    longest: usize,
    sent: &'static [u8],
}

// The stops at each call of `RUN`, and behind it.
static STOPS: [Stop; 5] = [
    // Before anything is synced.
    Stop {
        fails: Some(0),
        synced: &[],
        firm: 0,
        longest: 3,
        sent: b"",
    },
    Stop {
        fails: Some(1),
        synced: &[],
        firm: 0,
        longest: 3,
        sent: b"",
    },
    // In the send.
    Stop {
        fails: Some(2),
        synced: &[0, 7, 7],
        firm: 3,
        longest: 3,
        sent: b"T1 ",
    },
    // In the second write.
    Stop {
        fails: Some(3),
        synced: &[0, 7, 7],
        firm: 2,
        longest: 6,
        sent: b"T1 OK\n",
    },
    // None.
    Stop {
        fails: None,
        synced: &[0, 7, 7],
        firm: 2,
        longest: 6,
        sent: b"T1 OK\n",
    },
];

// Whether a log begins with the bytes that stay.
fn keeps(log: &[u8], stop: &Stop) -> bool {
    let firm = stop.firm;
    firm <= log.len() && firm <= stop.synced.len() && log[..firm] == stop.synced[..firm]
}

// Whether a crash may leave this log after a stop: the synced one for the first choice, the newest for the second.
fn is_allowed(log: &[u8], stop: &Stop, choice: u64, newest: &[u8]) -> bool {
    let is_chosen = match choice {
        0 => log == stop.synced,
        1 => log == newest,
        _ => true,
    };
    is_chosen && keeps(log, stop) && stop.synced.len() <= log.len() && log.len() <= stop.longest
}

// Whether a site goes on from a snapshot.
fn goes_on(alloc: Global, snapshot: Snapshot, sent: &[u8]) -> bool {
    match MemorySite::from_snapshot(alloc, snapshot, &[]) {
        Ok(again) => {
            let is_same = again.sent() == sent;
            ended(again, is_same)
        }
        Err(AllocError) => false,
    }
}

// Whether a crash of this choice leaves what is allowed after a stop, and a site goes on from there.
fn is_left(alloc: Global, site: &MemorySite, stop: &Stop, choice: u64) -> bool {
    match site.snapshot_as(choice) {
        Ok(snapshot) => {
            let is_good = is_allowed(log_of(&snapshot), stop, choice, site.contents(0))
                && snapshot.sent.as_slice() == stop.sent;
            goes_on(alloc, snapshot, stop.sent) && is_good
        }
        Err(AllocError) => false,
    }
}

// The first choice of a crash after a stop that leaves something else.
fn first_other(alloc: Global, site: &mut MemorySite, stop: &Stop) -> Option<u64> {
    if first_wrong(site, 0, &RUN) != stop.fails {
        return Some(0);
    }
    for choice in 0..8 {
        if !is_left(alloc, site, stop, choice) {
            return Some(choice);
        }
    }
    None
}

// The same of a site that stops at a call; choice 8 where there is no memory for it.
fn first_other_of(alloc: Global, number: u64, stop: &Stop) -> Option<u64> {
    match MemorySite::stopping(alloc, number) {
        Ok(mut site) => {
            let wrong = first_other(alloc, &mut site, stop);
            ended(site, wrong)
        }
        Err(AllocError) => Some(8),
    }
}

#[test]
fn each_stop_leaves_what_the_disk_model_allows(rt: HostRuntime) {
    for (number, stop) in STOPS.iter().enumerate() {
        let wrong = first_other_of(rt.alloc(), number as u64, stop);
        assert!(rt; wrong.is_none(), "stop {number} choice {wrong:?}");
    }
}

// Whether a choice tears the log, that is leaves neither the synced one nor the newest, and whether it lengthens it.
fn tears(site: &MemorySite, choice: u64) -> (bool, bool) {
    match site.snapshot_as(choice) {
        Ok(snapshot) => {
            let log = log_of(&snapshot);
            let is_torn = log != [0, 7, 7].as_slice() && log != site.contents(0);
            let said = (is_torn, log.len() > 3);
            ended(snapshot, said)
        }
        Err(AllocError) => (false, false),
    }
}

// Whether after the run some choices tear the log, and some lengthen it.
fn tear_and_lengthen(site: &mut MemorySite) -> bool {
    let is_run = first_wrong(site, 0, &RUN).is_none();
    let (mut torn, mut longer) = (false, false);
    for choice in 2..8 {
        let (tears, lengthens) = tears(site, choice);
        torn |= tears;
        longer |= lengthens;
    }
    is_run && torn && longer
}

// Whether they do so of a new site.
fn choices_tear(alloc: Global) -> bool {
    match MemorySite::new(alloc, &[]) {
        Ok(mut site) => {
            let is_so = tear_and_lengthen(&mut site);
            ended(site, is_so)
        }
        Err(AllocError) => false,
    }
}

#[test]
fn choices_tear_and_lengthen(rt: HostRuntime) {
    assert!(rt; choices_tear(rt.alloc()));
}
