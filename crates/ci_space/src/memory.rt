//! An area's intervals in memory, for tests and for callers that have no device.

ghost use Rattle.std.specs.Prelude.{◌≡◌, ◌+◌, ◌<◌, ◌≤◌, ◌^◌, ◌*◌, ℕ, length, List, All, IsTrue, IfOk, OnOk, OnErr, vec_len, refl, ◌++◌, ◌∷◌, []};
ghost use Rattle.ci_space.specs.Interval.{is_size, empty_bytes};
ghost use Rattle.ci_space.specs.Calls.{HaveSize, HaveOneSize};

use crate::head::INDEPENDENT;
use crate::{GetFault, Interval, Intervals, Memory};
use std::alloc::{AllocError, Global};

/// The intervals of an area in memory. It tells them.
#[derive(Drop)]
pub struct MemoryIntervals {
    alloc: Global,
    intervals: Vec<Interval>,
    size: u16,

    /// The number of the next call of `get` or `extend`.
    next_call: u64,
    failing: Vec<u64>,
    faults: u64,
    ghost is_sized: { IsTrue (is_size size) },
    ghost have_size: { HaveSize size intervals.items },
}

impl MemoryIntervals {
    ghost use Rattle.ci_space.specs.Memory.{intervals_of, failing_of, faults_of};

    /// These intervals, of which there is at least one, all of one size. The calls of `get` and
    /// `extend` with these numbers, counted together from 0, fail.
    pub fn new(
        alloc: Global,
        intervals: Vec<Interval>,
        failing: &[u64],
    ) -> Result<MemoryIntervals, Memory>
        requires { HaveOneSize intervals.items }
        ensures intervals { IfOk result (λ memory. intervals_of memory ≡ intervals.items) }
        ensures failing { IfOk result (λ memory. failing_of memory ≡ failing.now) }
        ensures faults { IfOk result (λ memory. faults_of memory ≡ 0) }
    {
        let failing = failing.to_vec(alloc)?;
        let size = intervals[0].size();
        Ok(MemoryIntervals {
            alloc,
            intervals,
            size,
            next_call: 0,
            failing,
            faults: 0,
        })
    }

    /// The intervals.
    pub fn all(&self) -> &[Interval]
        ensures { result.now ≡ intervals_of self.now }
    {
        &self.intervals
    }

    /// How often a call has failed.
    pub fn faults(&self) -> u64
        ensures { result ≡ faults_of self.now }
    {
        self.faults
    }
}

/// Whether the call of this number is to fail. The next call has the next number.
fn is_to_fail(next_call: &mut u64, failing: &[u64]) -> bool {
    let fails = failing.contains(next_call);
    *next_call = next_call.saturating_add(1);
    fails
}

/// Adds an empty interval of kind 5, where an area of one more ends at or before byte 2^62.
fn add_empty(alloc: Global, intervals: &mut Vec<Interval>, size: u16) -> Result<(), Memory>
    requires { IsTrue (is_size size) }
    ensures ok { OnOk result (intervals.new.items ≡ intervals.old.items ++ empty_bytes size 5 ∷ []) }
    ensures bound { OnOk result (vec_len intervals.new * size ≤ 2 ^ 62) }
    ensures err { OnErr result (intervals.new.items ≡ intervals.old.items) }
    ensures sized { HaveSize size intervals.old.items → HaveSize size intervals.new.items }
{
    if intervals.len() as u64 >= (1 << 62) / u64::from(size) {
        return Err(AllocError);
    }
    let interval = Interval::empty(alloc, size, INDEPENDENT)?;
    intervals.push(interval)?;
    Ok(())
}

impl Intervals for MemoryIntervals {
    ghost told = { λ m. Unit {0} };

    ghost intervals = { λ m. m.intervals.items };

    ghost number = { λ m. length m.intervals.items };

    ghost size = { λ m. m.size };

    ghost faults = { λ m. m.faults };

    ghost keeps = { λ first m. Unit {0} };

    ghost numbered = { λ m told. refl };

    ghost sized = { λ m told. m.have_size };

    ghost is_sized = { λ m. m.is_sized };

    ghost keeps_itself = { λ m. tt };

    fn count(&self) -> u64 {
        self.intervals.len() as u64
    }

    fn get(&mut self, ci: u64) -> Result<Interval, GetFault> {
        if is_to_fail(&mut self.next_call, &self.failing) {
            self.faults = self.faults.saturating_add(1);
            return Err(GetFault::Failed);
        }
        match self.intervals[ci as usize].copied(self.alloc) {
            Ok(interval) => Ok(interval),
            Err(_) => Err(GetFault::Memory),
        }
    }

    fn put(&mut self, ci: u64, i: Interval) -> Result<(), Memory> {
        self.intervals[ci as usize] = i;
        Ok(())
    }

    fn extend(&mut self) -> Result<u64, GetFault> {
        if is_to_fail(&mut self.next_call, &self.failing) {
            self.faults = self.faults.saturating_add(1);
            return Err(GetFault::Failed);
        }
        let number = self.intervals.len() as u64;
        match add_empty(self.alloc, &mut self.intervals, self.size) {
            Ok(()) => Ok(number),
            Err(_) => Err(GetFault::Memory),
        }
    }
}
