//! The changed intervals of an area are staged in the pool, each with its item.

ghost use Rattle.std.specs.Prelude.{◌≡◌, ◌≢◌, ◌+◌, ◌-◌, ◌*◌, ◌<◌, ◌≤◌, ◌^◌, ◌∷◌, ◌++◌, ◌==◌, ◌&&◌, if◌then◌else◌, [], ℕ, List as ListOf, Option as OptionOf, Err, IfOk, IfSome, IsErrOf, IsSome, OnOk, Some, None, length, true, false};
ghost use Rattle.std.specs.List.{AllByRecursion};
ghost use Rattle.std.specs.Ordering.{nat_cmp};
ghost use Rattle.std.specs.BTreeMap.{get};
ghost use Rattle.fp_model.specs.State.{first_area_set};
ghost use Rattle.fp_model.specs.ItemTargets.{is_ascending};
ghost use Rattle.fp_lists.specs.Faults.{Rose};
ghost use Rattle.ci_space.specs.Interval.{is_size};
ghost use Rattle.ci_pool.specs.Held.{HasSize, IsClean, SameAtHand, held_at, newest_in, staged_at};
ghost use Rattle.ci_pool.specs.declared.fault.PoolFault.TheVariants as fault;
ghost use Rattle.area_staging.specs.Changing.{AreWithin, IsFitFor, IsLeastOf, MakeChanges, Shows, Stages, StagesItems};
ghost use Rattle.area_staging.specs.inside.Changing.{IsFitItem, IsItemFor, IsOneStaged};
ghost use Rattle.area_staging.specs.Flags.{AreFlagged};
ghost use Rattle.area_staging.specs.Items.{HasFlag, is_imaged, items_in};
ghost use Rattle.area_staging.specs.Looking.{LooksAt};
ghost use Rattle.area_staging.specs.Staging.{AllAtHand};

use crate::Extent;
use crate::imaging::{is_imaged, make_room};
use crate::items::{image_of, item_of};
use crate::looking::newest;
use ci_pool::{Pool, PoolFault};
use ci_space::{GetFault, Interval};
use fp_lists::Bytes;
use fp_model::{Item, List};
use fp_site::Site;
use std::alloc::{AllocError, Global};
use std::collections::BTreeMap;

/// The newest bytes of an interval of an area.
fn old_bytes<T: Site>(
    pool: &mut Pool,
    site: &mut T,
    area: Extent,
    ci: u64,
) -> Result<Bytes, PoolFault>
    requires { (ci + 1) * area.size ≤ 2 ^ 62 }
    ensures newest { T.told site.old → IsClean (T.disk site.old).contents pool.old
        → HasSize area.set area.size pool.old
        → IfOk result (λ bytes. bytes ≡ newest_in pool.old (T.disk site.old).contents area.set ci area.size) }
    ensures unasked { (bytes : ListOf ℕ) → held_at pool.old area.set ci ≡ Some bytes → site.new ≡ site.old }
    ensures hand { (bytes : ListOf ℕ) → held_at pool.old area.set ci ≡ Some bytes → SameAtHand pool.old pool.new }
    ensures failed { IsErrOf result fault.Failed → Rose (T.faults site.old) (T.faults site.new) }
    ensures looks { LooksAt T.told T.disk T.faults T.holds T.keeps area.set area.size site.old site.new pool.old
        pool.new }
{
    match newest(pool, site, area.set, ci, area.size) {
        Ok(bytes) => Ok(bytes),
        Err(GetFault::Failed) => Err(PoolFault::Failed),
        Err(_) => Err(PoolFault::Memory),
    }
}

/// The item of a changed interval of an area, by its old bytes; None where it stood and keeps them.
fn change_of<T: Site>(
    alloc: Global,
    pool: &mut Pool,
    site: &mut T,
    imaged: bool,
    area: Extent,
    ci: u64,
    interval: &Interval,
) -> Result<Option<Item>, PoolFault>
    requires ends { area.count * area.size ≤ 2 ^ 62 }
    requires size { length interval.now ≡ area.size }
    ensures item { T.told site.old → (bytes : ℕ → ListOf ℕ) → Shows area (T.disk site.old).contents pool.old bytes
        → IfOk result (IsItemFor imaged area ci (bytes ci) interval.now) }
    ensures fits { (ci + 1) * area.size ≤ 2 ^ 62 → IfOk result (λ item. IsFitItem area ci item) }
    ensures failed { IsErrOf result fault.Failed → Rose (T.faults site.old) (T.faults site.new) }
    ensures unread { (ci < area.count → IsSome (held_at pool.old area.set ci)) → site.new ≡ site.old }
    ensures hand { (ci < area.count → IsSome (held_at pool.old area.set ci)) → SameAtHand pool.old pool.new }
    ensures looks { LooksAt T.told T.disk T.faults T.holds T.keeps area.set area.size site.old site.new pool.old
        pool.new }
{
    // No effect at run time. The proof reads here that an interval is short.
    let _size = interval.size();
    if ci >= area.count {
        return Ok(Some(image_of(alloc, area.set, ci, interval.whole())?));
    }
    let old = old_bytes(pool, site, area, ci)?;
    if old.len() != interval.whole().len() {
        return Ok(Some(image_of(alloc, area.set, ci, interval.whole())?));
    }
    Ok(item_of(
        alloc,
        area.set,
        ci,
        imaged,
        old.as_slice(),
        interval.whole(),
    )?)
}

/// Stages a changed interval of an area, where it is other than it was or new, and makes room for its flag. Gives its item.
fn stage_one<T: Site>(
    alloc: Global,
    pool: &mut Pool,
    site: &mut T,
    imaged: &mut Vec<List<bool>>,
    area: Extent,
    ci: u64,
    interval: &Interval,
) -> Result<Option<Item>, PoolFault>
    requires from { first_area_set ≤ area.set }
    requires within { area.set - first_area_set < length imaged.old.items }
    requires ends { area.count * area.size ≤ 2 ^ 62 }
    requires size { length interval.now ≡ area.size }
    requires end { (ci + 1) * area.size ≤ 2 ^ 62 }
    ensures item { T.told site.old → (bytes : ℕ → ListOf ℕ) → Shows area (T.disk site.old).contents pool.old bytes
        → IfOk result (IsItemFor (is_imaged imaged.old.items area.set ci) area ci (bytes ci) interval.now) }
    ensures fits { IfOk result (λ item. IsFitItem area ci item) }
    ensures staged { IfOk result (IsOneStaged area.set ci interval.now pool.old pool.new) }
    ensures flagged { IfOk result (λ item. IfSome item (λ i. HasFlag imaged.new.items area.set ci)) }
    ensures flags { (s k : ℕ) → is_imaged imaged.new.items s k ≡ is_imaged imaged.old.items s k }
    ensures kept { (s k : ℕ) → HasFlag imaged.old.items s k → HasFlag imaged.new.items s k }
    ensures count { length imaged.new.items ≡ length imaged.old.items }
    ensures failed { IsErrOf result fault.Failed → Rose (T.faults site.old) (T.faults site.new) }
    ensures unread { (ci < area.count → IsSome (held_at pool.old area.set ci)) → site.new ≡ site.old }
    ensures hand { (ci < area.count → IsSome (held_at pool.old area.set ci)) → SameAtHand pool.old pool.new }
    ensures stages { Stages T.told T.disk T.faults T.holds T.keeps area.set area.size site.old site.new pool.old
        pool.new }
{
    let has_item = is_imaged(imaged, area.set, ci);
    let Some(item) = change_of(alloc, pool, site, has_item, area, ci, interval)? else {
        return Ok(None);
    };
    make_room(imaged, area.set, ci)?;
    pool.stage(area.set, ci, Bytes::from_slice(alloc, interval.whole())?)?;
    Ok(Some(item))
}

/// Adds an item, if there is one.
fn add(items: &mut List<Item>, item: Option<Item>) -> Result<(), AllocError>
    ensures { OnOk result (items.new ≡ items.old ++ items_in item) }
{
    match item {
        None => Ok(()),
        Some(item) => items.push(item),
    }
}

/// Stages each changed interval of an area that is other than it was, or new, and makes room for its flag. Gives the items,
/// in the order of the intervals. After a fault some may be staged.
///
/// Costs for each interval that stood one `get` of its old bytes.
pub fn stage_changed<T: Site>(
    alloc: Global,
    pool: &mut Pool,
    site: &mut T,
    imaged: &mut Vec<List<bool>>,
    area: Extent,
    changed: BTreeMap<u64, Interval>,
) -> Result<List<Item>, PoolFault>
    requires from { first_area_set ≤ area.set }
    requires within { area.set - first_area_set < length imaged.old.items }
    requires ends { area.count * area.size ≤ 2 ^ 62 }
    requires changed { AreWithin area (get nat_cmp changed) }

    // The items, and what is staged, by the newest bytes.
    ensures made { T.told site.old → (bytes : ℕ → ListOf ℕ) → Shows area (T.disk site.old).contents pool.old bytes
        → IfOk result (MakeChanges area.set area.count (is_imaged imaged.old.items area.set) bytes
        (get nat_cmp changed)) }
    ensures staged { T.told site.old → (bytes : ℕ → ListOf ℕ) → Shows area (T.disk site.old).contents pool.old bytes
        → IfOk result (λ items. StagesItems area.set items bytes pool.old pool.new) }

    // One that stood has an image only where it has no item since the mark, and a range begins and ends with a byte that
    // differs.
    ensures least { T.told site.old → (bytes : ℕ → ListOf ℕ) → Shows area (T.disk site.old).contents pool.old bytes
        → IfOk result (AllByRecursion (IsLeastOf area.count (is_imaged imaged.old.items area.set) bytes)) }

    // Each fits, in their order, and each interval has a flag.
    ensures fit { IfOk result (AllByRecursion (IsFitFor area.set area.size)) }
    ensures in_order { IfOk result (λ items. is_ascending items ≡ true) }
    ensures flagged { IfOk result (AreFlagged imaged.new.items) }
    ensures flags { (s k : ℕ) → is_imaged imaged.new.items s k ≡ is_imaged imaged.old.items s k }
    ensures kept { (s k : ℕ) → HasFlag imaged.old.items s k → HasFlag imaged.new.items s k }
    ensures count { length imaged.new.items ≡ length imaged.old.items }

    // The site.
    ensures failed { IsErrOf result fault.Failed → Rose (T.faults site.old) (T.faults site.new) }
    ensures unread { AllAtHand pool.old area.set area.count → site.new ≡ site.old }
    ensures hand { AllAtHand pool.old area.set area.count → SameAtHand pool.old pool.new }
    ensures stages { Stages T.told T.disk T.faults T.holds T.keeps area.set area.size site.old site.new pool.old
        pool.new }
{
    let mut items = List::new(alloc);
    let mut left = changed;
    while let Some((ci, interval)) = left.pop_first() {
        let item = stage_one(alloc, pool, site, imaged, area, ci, &interval)?;
        add(&mut items, item)?;
    }
    Ok(items)
}
