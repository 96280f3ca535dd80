//! The locks of one region, as a transaction of it holds anchors.
ghost use Rattle.std.specs.Prelude.{◌≤◌, length};

use ci_locks::Locks;
use dedb_calls::{AnchorLocks, DedbWork};
use fp_model::{Mode, Resource};

/// The locks of one region among those of all. A transaction of the region holds what it does, whatever else it keeps.
#[derive(Drop)]
pub struct RegionLocks<'a> {
    pub locks: &'a Locks,
    pub region: u8,
    ghost some: { 1 ≤ region },
    ghost within: { region ≤ length locks.now },
}

impl AnchorLocks for RegionLocks<'_> {
    ghost use Rattle.ci_locks.specs.Table.{standing};

    ghost modes = { λ held work. (standing held.locks.now).holds held.region };

    fn mode_of(&self, _: &DedbWork, dedb: u8, anchor: u32) -> Option<Mode> {
        self.locks
            .holds(self.region, &Resource::Anchor { dedb, anchor })
    }
}
