//! The intervals of one area, numbered from 0, as the calls on its elements and chains reach them.

ghost use Rattle.std.specs.Prelude.{◌≡◌, ◌≢◌, ◌+◌, ◌*◌, ◌<◌, ◌≤◌, ◌^◌, ℕ, List, [], ◌∷◌, ◌++◌, length, slice_get, slice_set, IsTrue, IfOk, IfErr, OnOk, OnErr, IfSome, Some};
ghost use Rattle.ci_space.specs.Interval.{IsInterval, is_size, empty_bytes};
ghost use Rattle.ci_space.specs.Calls.{GoesOn, HaveSize};
ghost use Rattle.fp_lists.specs.Faults.{Rose};

use crate::{Interval, Memory};

/// Why a call on an area's intervals gives none.
#[derive(Clone, Copy)]
pub enum GetFault {
    /// What holds the intervals failed. Its count of faults rose.
    Failed,

    /// The bytes of the interval of this number are none.
    BadTiles(u64),

    /// There is no memory.
    Memory,
}

/// Where an area's parts stand: interval 0 is control, then come the units of work, each with its
/// base intervals and its dependent overflow intervals, then the sequential intervals, then the
/// independent overflow intervals, whose number grows. This order is the project's profile.
#[derive(Clone, Copy)]
pub struct Shape {
    /// The bytes of an interval: 512, 1,024, 2,048 or 4,096.
    pub ci: u16,

    /// The units of work.
    pub uows: u32,

    /// The base intervals of each unit of work, which are its anchors.
    pub base: u16,

    /// The dependent overflow intervals of each unit of work.
    pub overflow: u16,

    /// The sequential intervals.
    pub seq_cis: u32,
}

/// The intervals of an area.
pub trait Intervals {
    /// Whether it tells what its intervals hold. One over a real file tells nothing.
    ghost told: { Self → Type 0 };

    /// The bytes of each interval, where they are told.
    ghost intervals: { Self → List (List ℕ) };

    /// How many intervals there are.
    ghost number: { Self → ℕ };

    /// The size of each interval.
    ghost size: { Self → ℕ };

    /// How often a call has failed.
    ghost faults: { Self → ℕ };

    /// What is known of it since it was the first, beyond what it tells. Every call keeps it.
    ghost keeps: { Self → Self → Type 0 };

    /// How many intervals there are.
    fn count(&self) -> u64
        ensures { result ≡ number self.now };

    /// The interval of this number.
    fn get(&mut self, ci: u64) -> Result<Interval, GetFault>
        requires { ci < number self.old }
        ensures ok { told self.old → IfOk result (λ interval. slice_get (intervals self.old) ci ≡ Some interval) }
        ensures interval { IfOk result IsInterval }
        ensures size { IfOk result (λ interval. length interval ≡ size self.old) }

        // BadTiles comes exactly where the bytes are no interval, Failed only where the count rose.
        ensures bad { (n : ℕ) → result ≡ Err (GetFault.BadTiles n) → n ≡ ci }
        ensures bad_bytes { (n : ℕ) → result ≡ Err (GetFault.BadTiles n) → told self.old
            → IfSome (slice_get (intervals self.old) ci) (λ bytes. ¬ IsInterval bytes) }
        ensures failed { result ≡ Err GetFault.Failed → Rose (faults self.old) (faults self.new) }

        // Nothing changes.
        ensures same { told self.old → intervals self.new ≡ intervals self.old }
        ensures number { number self.new ≡ number self.old }
        ensures goes_on { GoesOn told size faults keeps self.old self.new };

    /// Replaces the interval of this number.
    fn put(&mut self, ci: u64, i: Interval) -> Result<(), Memory>
        requires in_range { ci < number self.old }
        requires size { length i ≡ size self.old }
        ensures ok { told self.old → OnOk result (intervals self.new ≡ slice_set (intervals self.old) ci i) }
        ensures err { told self.old → OnErr result (intervals self.new ≡ intervals self.old) }
        ensures number { number self.new ≡ number self.old }
        ensures goes_on { GoesOn told size faults keeps self.old self.new };

    /// Adds an empty interval of kind 5 at the end, and gives its number. An area ends at or before
    /// byte 2^62.
    fn extend(&mut self) -> Result<u64, GetFault>
        ensures ok { told self.old → OnOk result (intervals self.new ≡ intervals self.old ++ empty_bytes (size self.old)
            5 ∷ []) }
        ensures last { IfOk result (λ ci. ci ≡ number self.old) }
        ensures grown { OnOk result (number self.new ≡ number self.old + 1) }
        ensures bound { OnOk result (number self.new * size self.new ≤ 2 ^ 62) }

        // Failed comes only where the count rose, BadTiles never. Then nothing changes.
        ensures failed { result ≡ Err GetFault.Failed → Rose (faults self.old) (faults self.new) }
        ensures never_bad { (n : ℕ) → result ≢ Err (GetFault.BadTiles n) }
        ensures err { told self.old → OnErr result (intervals self.new ≡ intervals self.old) }
        ensures err_number { OnErr result (number self.new ≡ number self.old) }
        ensures goes_on { GoesOn told size faults keeps self.old self.new };

    /// There are as many as are told, each of the size.
    ghost numbered: { (i : Self) → told i → length (intervals i) ≡ number i };

    ghost sized: { (i : Self) → told i → HaveSize (size i) (intervals i) };

    ghost is_sized: { (i : Self) → IsTrue (is_size (size i)) };

    ghost keeps_itself: { (i : Self) → keeps i i };
}
