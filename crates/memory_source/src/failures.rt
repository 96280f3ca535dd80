//! The calls that a source in memory is told to fail, and its count of faults.
ghost use Rattle.std.specs.Prelude.{◌≡◌, ◌+◌, ◌-◌, ◌^◌, ◌==◌, ◌≤◌, IfOk, if◌then◌else◌, min, true};
ghost use Rattle.std.specs.List.{list_any};
ghost use Rattle.fp_lists.specs.Faults.{Rose};

use std::alloc::{AllocError, Global};

// Which calls are to fail, and how many did.
#[derive(Drop)]
pub struct Failures {
    // The numbers of calls that are to fail, counted from 0.
    failing: Vec<u64>,
    // The number of the next call.
    number: u64,
    // How many calls failed.
    count: u64,
}

impl Failures {
    // No call has been made yet.
    pub(crate) fn new(alloc: Global, failing: &[u64]) -> Result<Failures, AllocError>
        ensures { IfOk result (λ f. (f.failing.items ≡ failing.now) × (f.number ≡ 0) × (f.count ≡ 0)) }
    {
        Ok(Failures {
            failing: failing.to_vec(alloc)?,
            number: 0,
            count: 0,
        })
    }

    // Begins the next call. Whether it is to fail; if so, it is counted.
    pub(crate) fn next_fails(&mut self) -> bool
        ensures told { result ≡ list_any (λ n. n == self.old.number) self.old.failing.items }
        ensures count { self.new.count ≡ (if result then min (self.old.count + 1) (2 ^ 64 - 1) else self.old.count) }
        ensures later { self.old.count ≤ self.new.count }
        ensures rose { result ≡ true → Rose self.old.count self.new.count }
        ensures number { self.new.number ≡ min (self.old.number + 1) (2 ^ 64 - 1) }
        ensures failing { self.new.failing ≡ self.old.failing }
    {
        let fails = self.failing.contains(&self.number);
        self.number = self.number.saturating_add(1);
        if fails {
            self.count = self.count.saturating_add(1);
        }
        fails
    }

    // How many calls failed.
    pub(crate) fn count(&self) -> u64
        ensures { result ≡ self.now.count }
    {
        self.count
    }
}
