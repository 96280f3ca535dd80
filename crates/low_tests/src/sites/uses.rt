//! A caller of any site, with its proof: the forms that the crates above use.
ghost use Rattle.std.specs.Prelude.{◌≡◌, ◌+◌, ◌≤◌, ◌^◌, OnOk, length};
ghost use Rattle.fp_site.specs.Disk.{IsDurable, Torn, written};
ghost use Rattle.fp_site.specs.Moments.{OnlyOn, Through};
ghost use Rattle.fp_lists.specs.Continued.{IsContinued};
ghost use Rattle.fp_lists.specs.Faults.{Counts};

use crate::steps::ended;
use fp_site::{Failed, Site};
use memory_site::{MemorySite, Snapshot};
use std::alloc::{AllocError, Global};

// Writes to a data set that every crash leaves as it reads, and makes the write durable.
fn write_durably<S: Site>(site: &mut S, set: u16, at: u64, from: &[u8]) -> Result<(), Failed>
    requires { at + length from.now ≤ 2 ^ 62 }
    ensures wrote { S.told site.old →
        OnOk result ((S.disk site.new).contents set ≡ written ((S.disk site.old).contents set) at from.now) }
    ensures durable { S.told site.old → OnOk result (IsDurable (S.disk site.new) set) }
    ensures only { S.told site.old → OnlyOn set (S.disk site.old) (S.disk site.new) }
    ensures torn { S.told site.old → IsDurable (S.disk site.old) set → Through (S.disk site.old) (S.disk site.new)
        (λ s. Torn at (length from.now) ((S.disk site.old).contents set) (s.images set)) }
    ensures cause { Counts (S.faults site.old) (S.faults site.new) result }
    ensures site { IsContinued S.told S.faults S.holds S.keeps site.old site.new }
{
    site.write_at(set, at, from)?;
    site.sync(set)?;
    Ok(())
}

// Whether a site from a snapshot has what was written.
fn has_it(alloc: Global, snapshot: Snapshot) -> bool {
    match MemorySite::from_snapshot(alloc, snapshot, &[]) {
        Ok(again) => {
            let is_so = again.contents(2) == [0, 7].as_slice();
            ended(again, is_so)
        }
        Err(AllocError) => false,
    }
}

// Whether a crash of each choice leaves what was written.
fn is_left(alloc: Global, site: &MemorySite) -> bool {
    for choice in 0..8 {
        let is_so = match site.snapshot_as(choice) {
            Ok(snapshot) => has_it(alloc, snapshot),
            Err(AllocError) => false,
        };
        if !is_so {
            return false;
        }
    }
    true
}

// Whether a durable write is in every snapshot.
fn is_durable(alloc: Global) -> bool {
    match MemorySite::new(alloc, &[]) {
        Ok(mut site) => {
            let is_written = write_durably(&mut site, 2, 1, &[7]).is_ok();
            let is_so = is_written && is_left(alloc, &site);
            ended(site, is_so)
        }
        Err(AllocError) => false,
    }
}

#[test]
fn a_durable_write_is_in_every_snapshot(rt: HostRuntime) {
    assert!(rt; is_durable(rt.alloc()));
}
