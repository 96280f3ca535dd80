//! Intervals that are held.

ghost use Rattle.std.specs.Prelude.{◌≡◌, ◌≢◌, ◌+◌, ◌*◌, ◌<◌, ◌≤◌, ◌^◌, ℕ, List, [], ◌∷◌, ◌++◌, length, slice_get, slice_set, IsTrue, IfOk, IfErr, OnOk, OnErr, IfSome, Some, None, Err, refl};
ghost use Rattle.std.specs.Ordering.{nat_cmp};
ghost use Rattle.std.specs.BTreeMap.{get};
ghost use Rattle.ci_space.specs.Interval.{IsInterval, is_size, empty_bytes};
ghost use Rattle.ci_space.specs.Calls.{GoesOn, HaveSize};
ghost use Rattle.fp_lists.specs.Faults.{Rose};
ghost use Rattle.held_intervals.specs.Holding.{overlaid, AreRead, Fit, IsToldHeld, Keeps, keeps_itself, length-overlaid, sized-overlaid};

use ci_space::{GetFault, Interval, Intervals, Memory};
use std::alloc::{AllocError, Global};
use std::collections::BTreeMap;

/// Areas end at byte 2^62.
const LAST: u64 = 1 << 62;

/// The intervals of an area while a call works on them.
pub struct Held<'a, I: Intervals> {
    pub alloc: Global,

    /// What holds the area.
    pub under: &'a mut I,

    /// The size of an interval.
    pub size: u16,

    /// Those that were read, as they stand in the area.
    pub read: BTreeMap<u64, Interval>,

    /// Those that were changed since, as they are to stand.
    pub changed: BTreeMap<u64, Interval>,
    ghost is_sized: { IsTrue (is_size size) },
}

/// Another interval of the same bytes, which is to have this size.
fn copy_of(alloc: Global, interval: &Interval, size: u16, ci: u64) -> Result<Interval, GetFault>
    ensures same { IfOk result (λ copy. copy ≡ interval.now) }
    ensures interval { IfOk result IsInterval }
    ensures size { IfOk result (λ copy. length copy ≡ size) }
    ensures bad { (n : ℕ) → result ≡ Err (GetFault.BadTiles n) → n ≡ ci }
    ensures other_size { (n : ℕ) → result ≡ Err (GetFault.BadTiles n) → length interval.now ≢ size }
    ensures never_failed { result ≢ Err GetFault.Failed }
{
    if interval.size() != size {
        return Err(GetFault::BadTiles(ci));
    }
    match interval.copied(alloc) {
        Ok(copy) => Ok(copy),
        Err(_) => Err(GetFault::Memory),
    }
}

impl<'a, I: Intervals> Held<'a, I> {
    /// Those of this area, whose intervals have this size. These were read already.
    pub fn new(
        alloc: Global,
        under: &'a mut I,
        size: u16,
        read: BTreeMap<u64, Interval>,
    ) -> Held<'a, I>
        requires { size ≡ I.size under.old }
        ensures same_area { result.under.ghost_name ≡ under.entry.ghost_name }
        ensures under { result.under.now ≡ under.old }
        ensures size { result.size ≡ size }
        ensures read { result.read ≡ read }
        ensures none_changed { (ci : ℕ) → get nat_cmp result.changed ci ≡ None }
    {
        Held {
            alloc,
            under,
            size,
            read,
            changed: BTreeMap::new(alloc),
        }
    }
}

impl<I: Intervals> Intervals for Held<'_, I> {
    ghost told = { λ h. I.told h.under.now
        × IsToldHeld (I.number h.under.now) (I.size h.under.now) (I.intervals h.under.now) h.size
        (get nat_cmp h.read) (get nat_cmp h.changed) };

    ghost intervals = { λ h. overlaid (I.number h.under.now) (get nat_cmp h.changed) (I.intervals h.under.now) };

    ghost number = { λ h. I.number h.under.now };

    ghost size = { λ h. h.size };

    ghost faults = { λ h. I.faults h.under.now };

    ghost keeps = { λ first h. (h.under.ghost_name ≡ first.under.ghost_name)
        × Keeps I.told I.intervals I.number I.size I.faults I.keeps first.under.now h.under.now first.size h.size
        (get nat_cmp first.changed) (get nat_cmp h.changed) };

    ghost numbered = { λ h told.
        length-overlaid (I.number h.under.now) (get nat_cmp h.changed) (I.intervals h.under.now) };

    ghost sized = { λ h told.
        sized-overlaid (I.number h.under.now) (I.size h.under.now) (I.intervals h.under.now) h.size
        (get nat_cmp h.read) (get nat_cmp h.changed) told.1 (I.numbered h.under.now told.0)
        (I.sized h.under.now told.0) };

    ghost is_sized = { λ h. h.is_sized };

    ghost keeps_itself = { λ h. (
      refl,
      keeps_itself I.told I.intervals I.number I.size I.faults I.keeps h.under.now h.size
          (get nat_cmp h.changed),
    ) };

    fn count(&self) -> u64 {
        self.under.count()
    }

    fn get(&mut self, ci: u64) -> Result<Interval, GetFault> {
        if let Some(interval) = self.changed.get(&ci) {
            return copy_of(self.alloc, interval, self.size, ci);
        }
        if let Some(interval) = self.read.get(&ci) {
            return copy_of(self.alloc, interval, self.size, ci);
        }
        let interval = self.under.get(ci)?;
        let copy = copy_of(self.alloc, &interval, self.size, ci)?;
        match self.read.insert(ci, interval) {
            Ok(_) => Ok(copy),
            Err(_) => Err(GetFault::Memory),
        }
    }

    fn put(&mut self, ci: u64, i: Interval) -> Result<(), Memory> {
        match self.changed.insert(ci, i) {
            Ok(_) => Ok(()),
            Err(_) => Err(AllocError),
        }
    }

    fn extend(&mut self) -> Result<u64, GetFault> {
        if self.under.count() >= LAST / u64::from(self.size) {
            return Err(GetFault::Memory);
        }
        self.under.extend()
    }
}
