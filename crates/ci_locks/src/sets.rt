//! Sets of regions, as words.
ghost use Rattle.ci_locks.specs.Sets.{has};
ghost use Rattle.fp_model.specs.State.{numbers_up};
ghost use Rattle.std.specs.Prelude.{◌≡◌, ◌≤◌, ◌==◌, ◌&&◌, ◌||◌, not, IfNone, IfOk, IfSome, filter, true, false, ℕ};

use fp_model::Bytes;
use std::alloc::{AllocError, Global};

// Some of the regions 1 to 64, a bit each: the lowest stands for region 1.
#[derive(Clone, Copy)]
pub(crate) struct RegionSet(u64);

impl RegionSet {
    // None of them.
    pub(crate) fn empty() -> RegionSet
        ensures { (region : ℕ) → has result.0 region ≡ false }
    {
        RegionSet(0)
    }

    // Whether a region is among them.
    pub(crate) fn has(self, region: u8) -> bool
        requires some { 1 ≤ region }
        requires most { region ≤ 64 }
        ensures { result ≡ has self.0 region }
    {
        (self.0 >> (region - 1)) & 1 == 1
    }

    // With one more.
    pub(crate) fn with(self, region: u8) -> RegionSet
        requires some { 1 ≤ region }
        requires most { region ≤ 64 }
        ensures { (other : ℕ) → has result.0 other ≡ (other == region || has self.0 other) }
    {
        RegionSet(self.0 | (1 << (region - 1)))
    }

    // Without one.
    pub(crate) fn without(self, region: u8) -> RegionSet
        requires some { 1 ≤ region }
        requires most { region ≤ 64 }
        ensures { (other : ℕ) → has result.0 other ≡ (not (other == region) && has self.0 other) }
    {
        RegionSet(self.0 & !(1 << (region - 1)))
    }

    // Those of both.
    pub(crate) fn or(self, others: RegionSet) -> RegionSet
        ensures { (region : ℕ) → has result.0 region ≡ (has self.0 region || has others.0 region) }
    {
        RegionSet(self.0 | others.0)
    }

    // Without the others.
    pub(crate) fn less(self, others: RegionSet) -> RegionSet
        ensures { (region : ℕ) → has result.0 region ≡ (has self.0 region && not (has others.0 region)) }
    {
        RegionSet(self.0 & !others.0)
    }

    // The least.
    pub(crate) fn first(self) -> Option<u8>
        ensures some { IfSome result (λ region. has self.0 region ≡ true) }
        ensures least { IfSome result (λ region. (other : ℕ) → has self.0 other ≡ true → region ≤ other) }
        ensures from_one { IfSome result (λ region. 1 ≤ region) }
        ensures most { IfSome result (λ region. region ≤ 64) }
        ensures none { IfNone result ((region : ℕ) → has self.0 region ≡ false) }
    {
        if self.0 == 0 {
            return None;
        }
        Some(self.0.trailing_zeros() as u8 + 1)
    }

    // Those up to a region, ascending. It fails only for want of memory.
    pub(crate) fn numbers(self, alloc: Global, most: u8) -> Result<Bytes, AllocError>
        requires { most ≤ 64 }
        ensures { IfOk result (λ list. list ≡ filter (has self.0) (numbers_up most 1)) }
    {
        let mut list = Bytes::new(alloc);
        for place in 0..most {
            if self.has(place + 1) {
                list.push(place + 1)?;
            }
        }
        Ok(list)
    }
}
