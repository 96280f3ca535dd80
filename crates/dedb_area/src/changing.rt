//! The intervals of an area as changed anchors and sequential inserts leave them.

ghost use Rattle.std.specs.Prelude.{◌≡◌, ◌≢◌, ◌-◌, ◌*◌, ◌<◌, ◌≤◌, ◌^◌, ℕ, List, Err, Ok, IfOk, IsErrOf, IsOk, OnOk, min};
ghost use Rattle.std.specs.List.{AllByRecursion};
ghost use Rattle.std.specs.Ordering.{nat_cmp};
ghost use Rattle.std.specs.BTreeMap.{get};
ghost use Rattle.fp_site.specs.Site.{ReadsNothing};
ghost use Rattle.ci_space.specs.Calls.{GoesOn};
ghost use Rattle.fp_lists.specs.Faults.{Rose};
ghost use Rattle.held_intervals.specs.Holding.{listed};
ghost use Rattle.area_states.specs.Changes.{IsInsertable, IsStorable, IsTooFull, OneChanges};
ghost use Rattle.area_states.specs.Places.{IsPlace};
ghost use Rattle.area_states.specs.States.{AreaState, HasState};
ghost use Rattle.area_staging.specs.Changing.{AreWithin, Shows};
ghost use Rattle.area_staging.specs.Looking.{LooksAt};
ghost use Rattle.area_staging.specs.Staging.{AllAtHand};
ghost use Rattle.ci_pool.specs.Held.{SameAtHand};
ghost use Rattle.dedb_area.specs.Anchors.{IsBegin};
ghost use Rattle.dedb_area.specs.Committing.{committed};
ghost use Rattle.dedb_area.specs.inside.Committing.{ChangesOneSegment, FitsArea, HasRoomFor, IsChangedTo, OneChanged};
ghost use Rattle.dedb_area.specs.declared.fault.AreaFault.TheVariants as fault;

use crate::AreaFault;
use area_staging::{Extent, Staging, rest};
use area_states::{Place, append_all, store_all};
use ci_pool::Pool;
use ci_space::{Interval, Intervals};
use fp_model::{AnchorChange, SeqInsert};
use fp_site::Site;
use root_anchor::AnchorFault;
use seq_dependents::SeqFault;
use std::alloc::Global;
use std::collections::BTreeMap;

/// The fault of an anchor as that of an insert.
fn insert_fault(fault: AnchorFault) -> SeqFault
    ensures damaged { (ci : ℕ) → result ≡ SeqFault.Damaged ci → fault ≡ AnchorFault.Damaged ci }
    ensures failed { result ≡ SeqFault.Failed → fault ≡ AnchorFault.Failed }
    ensures never_full { (begin end n : ℕ) → result ≢ SeqFault.Full begin end n }
{
    match fault {
        AnchorFault::Damaged(ci) => SeqFault::Damaged(ci),
        AnchorFault::Failed => SeqFault::Failed,
        AnchorFault::Memory => SeqFault::Memory,
    }
}

/// Stores the changed anchors of an area, and puts the inserts of it.
fn change_all<I: Intervals>(
    alloc: Global,
    i: &mut I,
    place: &Place,
    changes: &[AnchorChange],
    inserts: &[SeqInsert],
) -> Result<(), SeqFault>
    requires place { IsPlace place.now }
    requires size { I.size i.old ≡ place.now.shape.ci }
    requires storable { AllByRecursion (IsStorable place.now) changes.now }
    requires insertable { AllByRecursion (IsInsertable place.now) inserts.now }
    ensures changed { I.told i.old → (state : AreaState) → HasState place.now (I.intervals i.old) state
        → FitsArea place.now state changes.now
        → OnOk result (HasState place.now (I.intervals i.new)
        (committed place.now changes.now inserts.now state)) }
    ensures one { I.told i.old → (state : AreaState) → HasState place.now (I.intervals i.old) state
        → FitsArea place.now state changes.now → ChangesOneSegment place.now state changes.now inserts.now
        → OnOk result (OneChanges (I.intervals i.old) (I.intervals i.new)) }
    ensures room { I.told i.old → (state : AreaState) → HasState place.now (I.intervals i.old) state
        → FitsArea place.now state changes.now → OnOk result (HasRoomFor place.now state inserts.now) }
    ensures full { I.told i.old → (state : AreaState) → HasState place.now (I.intervals i.old) state
        → FitsArea place.now state changes.now → (begin end n : ℕ) → result ≡ Err (SeqFault.Full begin end n)
        → IsTooFull place.now state inserts.now begin end n }
    ensures sound { I.told i.old → (state : AreaState) → HasState place.now (I.intervals i.old) state
        → FitsArea place.now state changes.now → (ci : ℕ) → result ≢ Err (SeqFault.Damaged ci) }
    ensures failed { IsErrOf result SeqFault.Failed → Rose (I.faults i.old) (I.faults i.new) }
    ensures number { I.number i.old ≤ I.number i.new }
    ensures goes_on { GoesOn I.told I.size I.faults I.keeps i.old i.new }
{
    match store_all(alloc, i, place, changes) {
        Ok(()) => append_all(alloc, i, place, inserts),
        Err(fault) => Err(insert_fault(fault)),
    }
}

/// What was changed of an area, where that was done; else the fault of the area.
fn given(
    done: Result<(), SeqFault>,
    staged: BTreeMap<u64, Interval>,
    area: Extent,
) -> Result<BTreeMap<u64, Interval>, AreaFault>
    ensures same { IfOk result (λ changed. changed ≡ staged) }
    ensures done { OnOk result (IsOk done) }
    ensures damaged { (s at : ℕ) → result ≡ Err (fault.Damaged s at)
        → (ci : ℕ) × (done ≡ Err (SeqFault.Damaged ci)) × (s ≡ area.set) × (at ≡ min (ci * area.size) (2 ^ 64 - 1)) }
    ensures failed { IsErrOf result fault.Device → IsErrOf done SeqFault.Failed }
    ensures full { (s begin end n : ℕ) → result ≡ Err (fault.SeqFull s begin end n)
        → (done ≡ Err (SeqFault.Full begin end n)) × (s ≡ area.set) }
{
    let set = area.set;
    match done {
        Ok(()) => Ok(staged),
        Err(SeqFault::Full { begin, end, n }) => Err(AreaFault::SeqFull { set, begin, end, n }),
        Err(SeqFault::Damaged(ci)) => Err(AreaFault::Damaged {
            set,
            at: ci.saturating_mul(u64::from(area.size)),
        }),
        Err(SeqFault::Failed) => Err(AreaFault::Device),
        Err(SeqFault::Memory) => Err(AreaFault::Memory),
    }
}

/// The intervals of an area that changed anchors and inserts change, as they leave them, and each that is new. Neither the
/// pool nor the site has them.
pub(crate) fn changed_intervals<T: Site>(
    alloc: Global,
    pool: &mut Pool,
    site: &mut T,
    place: &Place,
    area: Extent,
    changes: &[AnchorChange],
    inserts: &[SeqInsert],
) -> Result<BTreeMap<u64, Interval>, AreaFault>
    requires place { IsPlace place.now }
    requires size { area.size ≡ place.now.shape.ci }
    requires ends { area.count * area.size ≤ 2 ^ 62 }
    requires storable { AllByRecursion (IsStorable place.now) changes.now }
    requires insertable { AllByRecursion (IsInsertable place.now) inserts.now }
    ensures changed { T.told site.old → (bytes : ℕ → List ℕ) → Shows area (T.disk site.old).contents pool.old bytes
        → (state : AreaState) → HasState place.now (listed area.count bytes) state
        → FitsArea place.now state changes.now
        → IfOk result (λ changed. IsChangedTo place.now area.count bytes
        (committed place.now changes.now inserts.now state) (get nat_cmp changed)) }
    ensures one { T.told site.old → (bytes : ℕ → List ℕ) → Shows area (T.disk site.old).contents pool.old bytes
        → (state : AreaState) → HasState place.now (listed area.count bytes) state
        → FitsArea place.now state changes.now → ChangesOneSegment place.now state changes.now inserts.now
        → IfOk result (λ changed. OneChanged area.count bytes (get nat_cmp changed)) }
    ensures within { IfOk result (λ changed. AreWithin area (get nat_cmp changed)) }
    ensures room { T.told site.old → (bytes : ℕ → List ℕ) → Shows area (T.disk site.old).contents pool.old bytes
        → (state : AreaState) → HasState place.now (listed area.count bytes) state
        → FitsArea place.now state changes.now → OnOk result (HasRoomFor place.now state inserts.now) }
    ensures full { T.told site.old → (bytes : ℕ → List ℕ) → Shows area (T.disk site.old).contents pool.old bytes
        → (state : AreaState) → HasState place.now (listed area.count bytes) state
        → FitsArea place.now state changes.now → (s begin end n : ℕ)
        → result ≡ Err (fault.SeqFull s begin end n) → IsTooFull place.now state inserts.now begin end n }
    ensures sound { T.told site.old → (bytes : ℕ → List ℕ) → Shows area (T.disk site.old).contents pool.old bytes
        → (state : AreaState) → HasState place.now (listed area.count bytes) state
        → FitsArea place.now state changes.now → (s at : ℕ) → result ≢ Err (fault.Damaged s at) }
    ensures begins { (s at : ℕ) → result ≡ Err (fault.Damaged s at)
        → (s ≡ area.set) × ((ci : ℕ) × IsBegin place.now ci at) }
    ensures here { (s begin end n : ℕ) → result ≡ Err (fault.SeqFull s begin end n) → s ≡ area.set }
    ensures failed { IsErrOf result fault.Device → Rose (T.faults site.old) (T.faults site.new) }
    ensures unread { AllAtHand pool.old area.set area.count → ReadsNothing (T.tells_reads site.old)
        (T.tells_reads site.new) (T.bytes_read site.old) (T.bytes_read site.new) }
    ensures hand { AllAtHand pool.old area.set area.count → SameAtHand pool.old pool.new }
    ensures looks { LooksAt T.told T.disk T.faults T.holds T.keeps area.set area.size site.old site.new pool.old
        pool.new }
{
    let mut staging = Staging::new(alloc, pool, site, area.set, area.size, area.count);
    let done = change_all(alloc, &mut staging, place, changes, inserts);
    let Staging {
        alloc: _,
        pool,
        site,
        set: _,
        size: _,
        count: _,
        staged,
    } = staging;
    let changed = given(done, staged, area);
    rest(pool, site);
    changed
}
