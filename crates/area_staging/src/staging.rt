//! The intervals of one area as a call changes them: what it staged, else what the pool has, else what its data set has.
//!
//!     get      staged here  -->  pending  -->  clean  -->  data set
//!     put      staged here
//!
//! What is staged here has no entry yet: neither the pool nor the site has it. A call that gives up lets it go.

ghost use Rattle.std.specs.Prelude.{◌≡◌, ◌≢◌, ◌+◌, ◌*◌, ◌<◌, ◌≤◌, ◌^◌, ℕ, List, [], ◌∷◌, ◌++◌, length, slice_get, slice_set, IsTrue, IfOk, OnOk, OnErr, IfSome, Some, None, Err, refl};
ghost use Rattle.std.specs.Ordering.{nat_cmp};
ghost use Rattle.std.specs.BTreeMap.{get};
ghost use Rattle.fp_site.specs.Site.{ReadsNothing};
ghost use Rattle.ci_space.specs.Interval.{IsInterval, is_size, empty_bytes};
ghost use Rattle.ci_space.specs.Calls.{GoesOn, HaveSize};
ghost use Rattle.fp_lists.specs.Faults.{Rose};
ghost use Rattle.held_intervals.specs.Holding.{Fit};
ghost use Rattle.area_staging.specs.Looking.{LooksAt};
ghost use Rattle.area_staging.specs.Staging.{staged_or_newest, staged_area, IsToldPool, KeepsStaging, kept_itself, length_listed, sized_staged};

use crate::looking::interval_at;
use ci_pool::Pool;
use ci_space::{GetFault, Interval, Intervals, Memory};
use fp_site::Site;
use std::alloc::{AllocError, Global};
use std::collections::BTreeMap;

/// An area ends at or before byte 2^62.
const LAST: u64 = 1 << 62;

/// The kind of the intervals that an area grows by.
const INDEPENDENT: u8 = 5;

/// The intervals of one area, with changes that no entry has yet. `count` of them are there, of `size` bytes each. Take
/// it apart for the changes: `staged` has each interval that was put, and each that is new in the area.
pub struct Staging<'a, T: Site> {
    pub alloc: Global,
    pub pool: &'a mut Pool,
    pub site: &'a mut T,
    pub set: u16,
    pub size: u16,
    pub count: u64,
    pub staged: BTreeMap<u64, Interval>,
    ghost is_sized: { IsTrue (is_size size) },
    ghost ends: { count * size ≤ 2 ^ 62 },
    ghost fit: { Fit count size (get nat_cmp staged) },
}

/// Another interval of the same bytes.
fn copy_of(alloc: Global, interval: &Interval) -> Result<Interval, GetFault>
    ensures same { IfOk result (λ copy. copy ≡ interval.now) }
    ensures interval { IfOk result IsInterval }
    ensures never_bad { (n : ℕ) → result ≢ Err (GetFault.BadTiles n) }
    ensures never_failed { result ≢ Err GetFault.Failed }
{
    match interval.copied(alloc) {
        Ok(copy) => Ok(copy),
        Err(_) => Err(GetFault::Memory),
    }
}

/// An empty interval that an area grows by.
fn empty_of(alloc: Global, size: u16) -> Result<Interval, GetFault>
    requires { IsTrue (is_size size) }
    ensures bytes { IfOk result (λ interval. interval ≡ empty_bytes size 5) }
    ensures size { IfOk result (λ interval. length interval ≡ size) }
    ensures never_bad { (n : ℕ) → result ≢ Err (GetFault.BadTiles n) }
    ensures never_failed { result ≢ Err GetFault.Failed }
{
    match Interval::empty(alloc, size, INDEPENDENT) {
        Ok(interval) => Ok(interval),
        Err(_) => Err(GetFault::Memory),
    }
}

/// Asks the site whether an area of so many intervals may have one more.
fn may_grow<T: Site>(
    pool: &mut Pool,
    site: &mut T,
    set: u16,
    count: u64,
    size: u16,
) -> Result<(), GetFault>
    requires { IsTrue (is_size size) }
    ensures ends { OnOk result ((count + 1) * size ≤ 2 ^ 62) }
    ensures never_bad { (n : ℕ) → result ≢ Err (GetFault.BadTiles n) }
    ensures failed { result ≡ Err GetFault.Failed → Rose (T.faults site.old) (T.faults site.new) }
    ensures pool { pool.new ≡ pool.old }
    ensures looks { LooksAt T.told T.disk T.faults T.holds T.keeps set size site.old site.new pool.old pool.new }
    ensures reads { ReadsNothing (T.tells_reads site.old) (T.tells_reads site.new) (T.bytes_read site.old)
        (T.bytes_read site.new) }
{
    if count >= LAST / u64::from(size) {
        return Err(GetFault::Memory);
    }
    match site.reach(set, (count + 1) * u64::from(size)) {
        Ok(()) => Ok(()),
        Err(_) => Err(GetFault::Failed),
    }
}

impl<'a, T: Site> Staging<'a, T> {
    /// The first `count` intervals of a data set, of `size` bytes each, with nothing staged.
    pub fn new(
        alloc: Global,
        pool: &'a mut Pool,
        site: &'a mut T,
        set: u16,
        size: u16,
        count: u64,
    ) -> Staging<'a, T>
        requires is_sized { IsTrue (is_size size) }
        requires ends { count * size ≤ 2 ^ 62 }
        ensures same_pool { result.pool.ghost_name ≡ pool.entry.ghost_name }
        ensures same_site { result.site.ghost_name ≡ site.entry.ghost_name }
        ensures pool { result.pool.now ≡ pool.old }
        ensures site { result.site.now ≡ site.old }
        ensures set { result.set ≡ set }
        ensures size { result.size ≡ size }
        ensures count { result.count ≡ count }
        ensures none_staged { (ci : ℕ) → get nat_cmp result.staged ci ≡ None }
    {
        Staging {
            alloc,
            pool,
            site,
            set,
            size,
            count,
            staged: BTreeMap::new(alloc),
        }
    }
}

impl<T: Site> Intervals for Staging<'_, T> {
    ghost told = { λ s. T.told s.site.now × IsToldPool s.set s.size (T.disk s.site.now).contents s.pool.now };

    ghost intervals = { λ s. staged_area s.count (get nat_cmp s.staged) s.pool.now (T.disk s.site.now).contents s.set
        s.size };

    ghost number = { λ s. s.count };

    ghost size = { λ s. s.size };

    ghost faults = { λ s. T.faults s.site.now };

    ghost keeps = { λ first s. (s.site.ghost_name ≡ first.site.ghost_name)
        × (s.pool.ghost_name ≡ first.pool.ghost_name) × (s.set ≡ first.set) × (s.size ≡ first.size)
        × KeepsStaging T.told T.disk T.faults T.holds T.keeps T.tells_reads T.bytes_read first.set first.size
        first.count s.count first.site.now s.site.now first.pool.now s.pool.now (get nat_cmp first.staged)
        (get nat_cmp s.staged) };

    ghost numbered = { λ s told. length_listed s.count (staged_or_newest (get nat_cmp s.staged) s.pool.now
        (T.disk s.site.now).contents s.set s.size) };

    ghost sized = { λ s told. sized_staged s.count s.set s.size (get nat_cmp s.staged) s.pool.now
        (T.disk s.site.now).contents s.fit told.1.sizes };

    ghost is_sized = { λ s. s.is_sized };

    ghost keeps_itself = { λ s. (
      refl,
      refl,
      refl,
      refl,
      kept_itself T.told T.disk T.faults T.holds T.keeps T.tells_reads T.bytes_read s.set s.size s.count s.site.now
          s.pool.now (get nat_cmp s.staged),
    ) };

    fn count(&self) -> u64 {
        self.count
    }

    fn get(&mut self, ci: u64) -> Result<Interval, GetFault> {
        if let Some(interval) = self.staged.get(&ci) {
            return copy_of(self.alloc, interval);
        }
        interval_at(&mut *self.pool, &mut *self.site, self.set, ci, self.size)
    }

    fn put(&mut self, ci: u64, i: Interval) -> Result<(), Memory> {
        match self.staged.insert(ci, i) {
            Ok(_) => Ok(()),
            Err(_) => Err(AllocError),
        }
    }

    fn extend(&mut self) -> Result<u64, GetFault> {
        let ci = self.count;
        may_grow(&mut *self.pool, &mut *self.site, self.set, ci, self.size)?;
        let interval = empty_of(self.alloc, self.size)?;
        match self.staged.insert(ci, interval) {
            Ok(_) => {}
            Err(_) => return Err(GetFault::Memory),
        }
        self.count = ci + 1;
        Ok(ci)
    }
}

/// No effect at run time. The proof reads here what both are once a `Staging` is taken apart.
pub fn rest<T: Site>(pool: &mut Pool, site: &mut T)
    ensures pool { pool.new ≡ pool.old }
    ensures site { site.new ≡ site.old }
{}
