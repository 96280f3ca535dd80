//! Items of the log, applied to the intervals at hand.

ghost use Rattle.std.specs.Prelude.{◌≡◌, ◌≢◌, ◌+◌, ◌-◌, ◌*◌, ◌<◌, ◌≤◌, ◌^◌, ℕ, [], ◌∷◌, ◌++◌, List as ListOf, Some, None, Err, IfOk, OnOk, OnErr, length, take, drop};
ghost use Rattle.std.specs.List.{AllByRecursion};
ghost use Rattle.ci_pool.specs.declared.cell.Waiting.{Waiting as Pending};
ghost use Rattle.ci_pool.specs.Held.{pending_at, IsClean, HasSize};
ghost use Rattle.fp_model.specs.Items.{IsFit};
ghost use Rattle.fp_model.specs.declared.definitions.Defs.{Defs as DefsOf};
ghost use Rattle.fp_model.specs.declared.log.Item.{Item as ItemOf};
ghost use Rattle.area_states.specs.Places.{places_of};
ghost use Rattle.fp_site.specs.Disk.{written};
ghost use Rattle.dedb_area.specs.Applying.{IsApplied, IsFitImage, AreAppliable, LacksImage, LiesWithin};
ghost use Rattle.dedb_area.specs.inside.Applying.{IsPended, EndsInTime, IsAppliable, IsWithoutImage};
ghost use Rattle.dedb_area.specs.Standing.{IsFitPool, IsUnstaged};
ghost use Rattle.dedb_area.specs.declared.applying.ApplyFault.TheVariants as fault;
ghost use Rattle.area_states.specs.declared.place.Place.{Place as PlaceOf};

use crate::Areas;
use ci_pool::Pool;
use fp_lists::Bytes;
use fp_model::{Item, List};
use std::alloc::{AllocError, Global};

/// Why items can't be applied.
#[derive(Clone, Copy)]
pub enum ApplyFault {
    /// A range names this interval, and no image of it was applied before; or it passes the interval's end.
    NoImage { set: u16, ci: u64 },

    /// There is no memory.
    Memory,
}

impl From<AllocError> for ApplyFault {
    ghost from_gives = { λ _ e. e ≡ fault.Memory };

    fn from(_: AllocError) -> ApplyFault {
        ApplyFault::Memory
    }
}

/// Writes bytes over others.
fn paste(bytes: &mut [u8], at: usize, from: &[u8])
    requires { at + length from.now ≤ length bytes.old }
    ensures { bytes.new ≡ take at bytes.old ++ (from.now ++ drop (at + length from.now) bytes.old) }
{
    bytes[at..at + from.len()].copy_from_slice(from);
}

/// An interval's bytes with these written over them.
fn overwritten(old: Bytes, at: usize, from: &[u8]) -> Bytes
    requires { at + length from.now ≤ length old }
    ensures bytes { result ≡ written old at from.now }
    ensures size { length result ≡ length old }
{
    let mut bytes = old.into_vec();
    paste(&mut bytes, at, from);
    Bytes::from_vec(bytes)
}

/// The bytes of a pending interval with a range written over them.
fn with_range(
    alloc: Global,
    pool: &Pool,
    set: u16,
    ci: u64,
    at: u16,
    from: &[u8],
) -> Result<Bytes, ApplyFault>
    ensures written { IfOk result (λ bytes. (w : Pending) × (pending_at pool.now set ci ≡ Some w)
        × (at + length from.now ≤ length w.bytes) × (bytes ≡ written w.bytes at from.now)
        × (length bytes ≡ length w.bytes)) }
    ensures ends { IfOk result (λ bytes. (ci + 1) * length bytes ≤ 2 ^ 62) }
    ensures none { (s k : ℕ) → result ≡ Err (fault.NoImage s k)
        → (set ≡ s) × (ci ≡ k) × (¬ LiesWithin (pending_at pool.now set ci) at (length from.now)) }
{
    let Some(old) = pool.pending(set, ci) else {
        return Err(ApplyFault::NoImage { set, ci });
    };
    let at = usize::from(at);
    if old.len() < at + from.len() {
        return Err(ApplyFault::NoImage { set, ci });
    }
    let copy = Bytes::from_slice(alloc, old)?;
    Ok(overwritten(copy, at, from))
}

/// An interval is pending with these bytes, for the entry at a place. After want of memory the pool is as before.
fn pend(pool: &mut Pool, set: u16, ci: u64, bytes: Bytes, place: u64) -> Result<(), AllocError>
    requires { (ci + 1) * length bytes ≤ 2 ^ 62 }
    ensures pending { IsUnstaged pool.old → OnOk result (IsPended place set ci bytes pool.old pool.new) }
    ensures unstaged { IsUnstaged pool.old → IsUnstaged pool.new }
    ensures err { OnErr result (pool.new ≡ pool.old) }
    ensures clean { (contents : ℕ → ListOf ℕ) → IsClean contents pool.old → IsClean contents pool.new }
    ensures sizes { (s n : ℕ) → (s ≡ set → length bytes ≡ n) → HasSize s n pool.old → HasSize s n pool.new }
{
    pool.stage(set, ci, bytes)?;
    pool.publish(place);
    Ok(())
}

/// Applies an item of the entry at a place. After a fault the pool is as before.
fn apply_item(alloc: Global, pool: &mut Pool, item: &Item, place: u64) -> Result<(), ApplyFault>
    requires { EndsInTime item.now }
    ensures applied { IsUnstaged pool.old → OnOk result (IsApplied place (item.now ∷ []) pool.old pool.new) }
    ensures appliable { OnOk result (IsAppliable pool.old item.now) }
    ensures lacks { (s k : ℕ) → result ≡ Err (fault.NoImage s k) → IsWithoutImage pool.old item.now s k }
    ensures unstaged { IsUnstaged pool.old → IsUnstaged pool.new }
    ensures err { OnErr result (pool.new ≡ pool.old) }
    ensures fit { (places : ListOf PlaceOf) → IsFitImage places item.now → place < 2 ^ 64 - 1
        → IsFitPool places pool.old → IsFitPool places pool.new }
    ensures clean { (contents : ℕ → ListOf ℕ) → IsClean contents pool.old → IsClean contents pool.new }
{
    match item {
        Item::Segment { .. } => Ok(()),
        Item::Image { set, ci, bytes } => {
            pend(pool, *set, *ci, bytes.copy()?, place)?;
            Ok(())
        }
        Item::Range { set, ci, at, bytes } => {
            let behind = with_range(alloc, pool, *set, *ci, *at, bytes.as_slice())?;
            pend(pool, *set, *ci, behind, place)?;
            Ok(())
        }
    }
}

/// Applies the items of the entry at a place, one after another.
pub(crate) fn apply_items(
    alloc: Global,
    pool: &mut Pool,
    items: &[Item],
    place: u64,
) -> Result<(), ApplyFault>
    requires { AllByRecursion EndsInTime items.now }
    ensures applied { IsUnstaged pool.old → OnOk result (IsApplied place items.now pool.old pool.new) }
    ensures appliable { IsUnstaged pool.old → OnOk result (AreAppliable place pool.old items.now) }
    ensures lacks { IsUnstaged pool.old → (s k : ℕ) → result ≡ Err (fault.NoImage s k)
        → LacksImage place pool.old items.now s k }
    ensures fit { (places : ListOf PlaceOf) → AllByRecursion (IsFitImage places) items.now → place < 2 ^ 64 - 1
        → IsFitPool places pool.old → IsFitPool places pool.new }
    ensures clean { (contents : ℕ → ListOf ℕ) → IsClean contents pool.old → IsClean contents pool.new }
{
    for item in items {
        apply_item(alloc, pool, item, place)?;
    }
    Ok(())
}

/// Items that fit the definitions may be applied to their areas: each image is an interval of an area.
pub fn items_that_fit_may_be_applied()
    ensures { (defs : DefsOf) (items : ListOf ItemOf) → AllByRecursion (IsFit defs) items
        → AllByRecursion (IsFitImage (places_of defs)) items }
{}

impl Areas {
    /// Applies the items of the entry at a place, which a restart takes from the log: each interval that they name is
    /// pending then. Items of segments change nothing. After a fault some of the items may be applied.
    pub fn apply(&mut self, items: &List<Item>, place: u64) -> Result<(), ApplyFault>
        requires fit { AllByRecursion (IsFitImage self.old.places) items.now }
        requires place { place < 2 ^ 64 - 1 }

        // The intervals that the items name are pending with the bytes that these make, the others as before.
        ensures applied { IsFitPool self.old.places self.old.pool
            → OnOk result (IsApplied place items.now self.old.pool self.new.pool) }

        // Each range has an image before it and lies within its interval, else that interval is named.
        ensures appliable { IsFitPool self.old.places self.old.pool
            → OnOk result (AreAppliable place self.old.pool items.now) }
        ensures lacks { IsFitPool self.old.places self.old.pool → (s k : ℕ) → result ≡ Err (fault.NoImage s k)
            → LacksImage place self.old.pool items.now s k }

        // What stays.
        ensures fit { IsFitPool self.old.places self.old.pool → IsFitPool self.new.places self.new.pool }
        ensures clean { (contents : ℕ → ListOf ℕ) → IsClean contents self.old.pool → IsClean contents self.new.pool }
        ensures places { self.new.places ≡ self.old.places }
        ensures imaged { self.new.imaged ≡ self.old.imaged }
        ensures unsynced { self.new.unsynced ≡ self.old.unsynced }
    {
        apply_items(self.alloc, &mut self.pool, items.as_slice(), place)
    }
}
