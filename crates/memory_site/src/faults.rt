// The calls that a site in memory is told to fail, and its count of faults.
ghost use Rattle.std.specs.Prelude.{◌≡◌, ◌⊎◌, ◌<◌, ◌≤◌, ◌+◌, ◌-◌, ◌^◌, IfOk, false, min, true};
ghost use Rattle.memory_site.specs.Faults.{IsCounted, is_stopped, is_told};

use std::alloc::{AllocError, Global};

// Which calls are to fail, and how many did.
#[derive(Drop)]
pub struct Faults {
    // The numbers of calls that are to fail, counted from 0.
    failing: Vec<u64>,
    // All calls from this number on are to fail.
    stop: Option<u64>,
    // The number of the next call.
    number: u64,
    // How many calls failed.
    count: u64,
    // How many calls found no memory.
    shorts: u64,
    ghost counted: { IsCounted failing.items stop number count shorts },
}

impl Faults {
    // No call has been made yet.
    pub(crate) fn new(
        alloc: Global,
        failing: &[u64],
        stop: Option<u64>,
    ) -> Result<Faults, AllocError>
        ensures { IfOk result (λ f. (f.failing.items ≡ failing.now) × (f.stop ≡ stop) × (f.number ≡ 0) × (f.count ≡ 0)
            × (f.shorts ≡ 0)) }
    {
        Ok(Faults {
            failing: failing.to_vec(alloc)?,
            stop,
            number: 0,
            count: 0,
            shorts: 0,
        })
    }

    // Begins the next call. Whether it is to fail; if so, it is counted.
    pub(crate) fn next_fails(&mut self) -> bool
        ensures told { result ≡ is_told self.old.failing.items self.old.stop self.old.number }
        ensures later { self.old.count ≤ self.new.count }
        ensures rose { result ≡ true → (self.old.count < self.new.count) ⊎ (self.new.count ≡ 2 ^ 64 - 1) }
        ensures passes { result ≡ false → self.new.count ≡ self.old.count }
        ensures number { self.new.number ≡ min (self.old.number + 1) (2 ^ 64 - 1) }
        ensures failing { self.new.failing ≡ self.old.failing }
        ensures stop { self.new.stop ≡ self.old.stop }
        ensures shorts { self.new.shorts ≡ self.old.shorts }
    {
        if is_to_fail(&self.failing, self.stop, self.number) {
            self.number = self.number.saturating_add(1);
            self.count = self.count.saturating_add(1);
            return true;
        }
        self.number = self.number.saturating_add(1);
        false
    }

    // Counts a call that found no memory.
    pub(crate) fn count_short(&mut self)
        ensures later { self.old.count ≤ self.new.count }
        ensures rose { (self.old.count < self.new.count) ⊎ (self.new.count ≡ 2 ^ 64 - 1) }
        ensures shorts { self.new.shorts ≡ min (self.old.shorts + 1) (2 ^ 64 - 1) }
        ensures number { self.new.number ≡ self.old.number }
        ensures failing { self.new.failing ≡ self.old.failing }
        ensures stop { self.new.stop ≡ self.old.stop }
    {
        self.count = self.count.saturating_add(1);
        self.shorts = self.shorts.saturating_add(1);
    }

    // How many calls failed.
    pub(crate) fn count(&self) -> u64
        ensures { result ≡ self.now.count }
    {
        self.count
    }

    // How many calls found no memory.
    pub(crate) fn shorts(&self) -> u64
        ensures { result ≡ self.now.shorts }
    {
        self.shorts
    }

    // The number of the next call.
    pub(crate) fn number(&self) -> u64
        ensures { result ≡ self.now.number }
    {
        self.number
    }
}

// Whether the call of this number is to fail.
fn is_to_fail(failing: &[u64], stop: Option<u64>, number: u64) -> bool
    ensures { result ≡ is_told failing.now stop number }
{
    if failing.contains(&number) {
        return true;
    }
    match stop {
        Some(after) => after <= number,
        None => false,
    }
}
