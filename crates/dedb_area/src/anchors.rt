//! The roots of an anchor, read through the pool and the site.

ghost use Rattle.std.specs.Prelude.{◌≡◌, ◌≢◌, ◌+◌, ◌*◌, ◌<◌, ◌≤◌, ◌-◌, ◌^◌, ℕ, List, Ok, Err, Some, IfOk, IsErrOf, false, length, min, true};
ghost use Rattle.fp_site.specs.Site.{ReadsNothing};
ghost use Rattle.fp_lists.specs.Faults.{Rose};
ghost use Rattle.root_anchor.specs.Chains.{anchor_count};
ghost use Rattle.area_reading.specs.Damage.{IsUnreadable};
ghost use Rattle.area_states.specs.Places.{IsPlace, counted_by, has_anchor};
ghost use Rattle.area_states.specs.States.{HasAnchor};
ghost use Rattle.dedb_area.specs.Anchors.{HasAnchorIn, IsBegin, IsFaulty, intervals_of};
ghost use Rattle.dedb_area.specs.inside.Anchors.{ShowsArea};
ghost use Rattle.area_staging.specs.Looking.{LooksAt};
ghost use Rattle.area_staging.specs.Staging.{AllAtHand};
ghost use Rattle.ci_pool.specs.Held.{SameAtHand};
ghost use Rattle.dedb_area.specs.declared.fault.AreaFault.TheVariants as fault;

use crate::AreaFault;
use crate::counting::counted;
use crate::syncing::FIRST_AREA;
use area_reading::read_anchor;
use area_staging::{Staging, rest};
use area_states::Place;
use ci_pool::Pool;
use fp_model::{List, Root};
use fp_site::Site;
use root_anchor::AnchorFault;
use std::alloc::Global;

/// Whether an anchor of a database lies in the area.
pub(crate) fn has_anchor(place: &Place, dedb: u8, anchor: u32) -> bool
    ensures { result ≡ has_anchor place.now dedb anchor }
{
    let anchors = u64::from(place.shape.uows) * u64::from(place.shape.base);
    place.dedb == dedb
        && place.first_anchor <= anchor
        && u64::from(anchor) < u64::from(place.first_anchor) + anchors
}

/// Whether some area has an anchor of a database.
pub(crate) fn some_area(places: &[Place], dedb: u8, anchor: u32) -> bool
    ensures yes { result ≡ true → (set : ℕ) × HasAnchorIn places.now dedb anchor set }
    ensures no { result ≡ false → (set : ℕ) → ¬ HasAnchorIn places.now dedb anchor set }
{
    for place in places {
        if has_anchor(place, dedb, anchor) {
            return true;
        }
    }
    false
}

/// The data set of the first area that has an anchor of a database.
pub(crate) fn area_of(places: &[Place], dedb: u8, anchor: u32) -> u16
    requires area { (set : ℕ) × HasAnchorIn places.now dedb anchor set }
    requires few { length places.now ≤ 256 }
    ensures { HasAnchorIn places.now dedb anchor result }
{
    let mut number: u16 = 0;
    'areas: while !has_anchor(&places[usize::from(number)], dedb, anchor) {
        number += 1;
    }
    FIRST_AREA + number
}

/// Reads an anchor, counted within its area, in so many intervals.
fn read_through<T: Site>(
    alloc: Global,
    pool: &mut Pool,
    site: &mut T,
    place: &Place,
    set: u16,
    count: u64,
    anchor: u32,
) -> Result<List<Root>, AnchorFault>
    requires place { IsPlace place.now }
    requires anchor { anchor < anchor_count place.now.shape }
    requires ends { count * place.now.shape.ci ≤ 2 ^ 62 }
    ensures roots { T.told site.old → (bytes : ℕ → List ℕ)
        → ShowsArea place.now set (T.disk site.old).contents pool.old bytes
        → count ≡ counted_by (Some place.now) (bytes 0)
        → IfOk result (HasAnchor place.now (intervals_of place.now bytes) anchor) }
    ensures damaged { T.told site.old → (bytes : ℕ → List ℕ)
        → ShowsArea place.now set (T.disk site.old).contents pool.old bytes
        → count ≡ counted_by (Some place.now) (bytes 0)
        → (ci : ℕ) → result ≡ Err (AnchorFault.Damaged ci)
        → IsUnreadable place.now (intervals_of place.now bytes) anchor ci }
    ensures failed { IsErrOf result AnchorFault.Failed → Rose (T.faults site.old) (T.faults site.new) }
    ensures unread { AllAtHand pool.old set count → ReadsNothing (T.tells_reads site.old) (T.tells_reads site.new)
        (T.bytes_read site.old) (T.bytes_read site.new) }
    ensures hand { AllAtHand pool.old set count → SameAtHand pool.old pool.new }
    ensures looks { LooksAt T.told T.disk T.faults T.holds T.keeps set place.now.shape.ci site.old site.new pool.old
        pool.new }
{
    let mut staging = Staging::new(alloc, pool, site, set, place.shape.ci, count);
    let read = read_anchor(alloc, &mut staging, place, anchor);
    let Staging {
        alloc: _,
        pool,
        site,
        set: _,
        size: _,
        count: _,
        staged: _,
    } = staging;
    rest(pool, site);
    read
}

/// The fault of an anchor as that of the area of this data set, whose intervals have this size.
fn fault_of(why: AnchorFault, set: u16, size: u16) -> AreaFault
    ensures damaged { (s at : ℕ) → result ≡ fault.Damaged s at
        → (ci : ℕ) × (why ≡ AnchorFault.Damaged ci) × (s ≡ set) × (at ≡ min (ci * size) (2 ^ 64 - 1)) }
    ensures failed { result ≡ fault.Device → why ≡ AnchorFault.Failed }
    ensures never_full { (s begin end n : ℕ) → result ≢ fault.SeqFull s begin end n }
{
    match why {
        AnchorFault::Damaged(ci) => AreaFault::Damaged {
            set,
            at: ci.saturating_mul(u64::from(size)),
        },
        AnchorFault::Failed => AreaFault::Device,
        AnchorFault::Memory => AreaFault::Memory,
    }
}

/// What a read of an anchor gave, as the answer of the area of this data set, whose intervals have this size.
fn given(
    read: Result<List<Root>, AnchorFault>,
    set: u16,
    size: u16,
) -> Result<List<Root>, AreaFault>
    ensures same { IfOk result (λ roots. read ≡ Ok roots) }
    ensures damaged { (s at : ℕ) → result ≡ Err (fault.Damaged s at)
        → (ci : ℕ) × (read ≡ Err (AnchorFault.Damaged ci)) × (s ≡ set) × (at ≡ min (ci * size) (2 ^ 64 - 1)) }
    ensures failed { IsErrOf result fault.Device → IsErrOf read AnchorFault.Failed }
    ensures never_full { (s begin end n : ℕ) → result ≢ Err (fault.SeqFull s begin end n) }
{
    match read {
        Ok(roots) => Ok(roots),
        Err(why) => Err(fault_of(why, set, size)),
    }
}

/// The roots of an anchor, counted within its area.
pub(crate) fn roots_at<T: Site>(
    alloc: Global,
    pool: &mut Pool,
    site: &mut T,
    place: &Place,
    set: u16,
    anchor: u32,
) -> Result<List<Root>, AreaFault>
    requires place { IsPlace place.now }
    requires anchor { anchor < anchor_count place.now.shape }
    ensures roots { T.told site.old → (bytes : ℕ → List ℕ)
        → ShowsArea place.now set (T.disk site.old).contents pool.old bytes
        → IfOk result (HasAnchor place.now (intervals_of place.now bytes) anchor) }
    ensures damaged { T.told site.old → (bytes : ℕ → List ℕ)
        → ShowsArea place.now set (T.disk site.old).contents pool.old bytes
        → (s at : ℕ) → result ≡ Err (fault.Damaged s at)
        → (ci : ℕ) × IsBegin place.now ci at × IsFaulty place.now bytes anchor ci }
    ensures here { (s at : ℕ) → result ≡ Err (fault.Damaged s at) → s ≡ set }
    ensures failed { IsErrOf result fault.Device → Rose (T.faults site.old) (T.faults site.new) }
    ensures never_full { (s begin end n : ℕ) → result ≢ Err (fault.SeqFull s begin end n) }
    ensures unread { T.told site.old → (bytes : ℕ → List ℕ)
        → ShowsArea place.now set (T.disk site.old).contents pool.old bytes
        → AllAtHand pool.old set (counted_by (Some place.now) (bytes 0))
        → ReadsNothing (T.tells_reads site.old) (T.tells_reads site.new) (T.bytes_read site.old)
        (T.bytes_read site.new) }
    ensures hand { T.told site.old → (bytes : ℕ → List ℕ)
        → ShowsArea place.now set (T.disk site.old).contents pool.old bytes
        → AllAtHand pool.old set (counted_by (Some place.now) (bytes 0)) → SameAtHand pool.old pool.new }
    ensures looks { LooksAt T.told T.disk T.faults T.holds T.keeps set place.now.shape.ci site.old site.new pool.old
        pool.new }
{
    let count = counted(pool, site, place, set)?;
    let read = read_through(alloc, pool, site, place, set, count, anchor);
    given(read, set, place.shape.ci)
}
