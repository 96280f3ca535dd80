//! Control of an area, and what it says.

ghost use Rattle.std.specs.Prelude.{◌≡◌, ◌≢◌, ◌-◌, ◌<◌, ◌≤◌, ◌^◌, ◌*◌, ◌+◌, ℕ, List, length, slice_index, Some, IsSome, IsTrue, IfOk, IfSome, IfNone, IsErrOf, Err};
ghost use Rattle.fp_lists.specs.Faults.{Rose};
ghost use Rattle.ci_space.specs.Interval.{is_size, kind_of, IsInterval};
ghost use Rattle.ci_space.specs.Head.{ends_of};
ghost use Rattle.ci_pool.specs.Held.{IsClean, HasSize, SameAtHand, held_at, newest_in};
ghost use Rattle.dedb_area.specs.Control.{IsControl, AreEnds, IsControlOf};
ghost use Rattle.area_staging.specs.Looking.{LooksAt};
ghost use Rattle.area_states.specs.Places.{place_at};
ghost use Rattle.dedb_area.specs.declared.fault.AreaFault.TheVariants as fault;

use crate::AreaFault;
use crate::syncing::FIRST_AREA;
use area_staging::interval_at;
use area_states::Place;
use ci_pool::Pool;
use ci_space::{GetFault, Interval};
use fp_model::AreaEnds;
use fp_site::Site;

/// The kind of control.
const CONTROL: u8 = 1;

/// Serials end at 2^62.
const LAST: u64 = 1 << 62;

/// The area of a data set.
pub(crate) fn place_in(places: &[Place], set: u16) -> &Place
    requires { IsSome (place_at places.now set) }
    ensures { place_at places.now set ≡ Some result.now }
{
    &places[usize::from(set - FIRST_AREA)]
}

/// Control of an area, as its newest bytes are.
pub(crate) fn control<T: Site>(
    pool: &mut Pool,
    site: &mut T,
    place: &Place,
    set: u16,
) -> Result<Interval, AreaFault>
    requires { IsTrue (is_size place.now.shape.ci) }
    ensures newest { T.told site.old → IsClean (T.disk site.old).contents pool.old
        → HasSize set place.now.shape.ci pool.old
        → IfOk result (λ control. control ≡ newest_in pool.old (T.disk site.old).contents set 0 place.now.shape.ci) }
    ensures kind { IfOk result (λ control. kind_of control ≡ 1) }
    ensures interval { IfOk result IsInterval }
    ensures size { IfOk result (λ control. length control ≡ place.now.shape.ci) }
    ensures damaged { T.told site.old → IsClean (T.disk site.old).contents pool.old
        → HasSize set place.now.shape.ci pool.old → (s at : ℕ) → result ≡ Err (fault.Damaged s at)
        → ¬ IsControl (newest_in pool.old (T.disk site.old).contents set 0 place.now.shape.ci) }
    ensures first { (s at : ℕ) → result ≡ Err (fault.Damaged s at) → (s ≡ set) × (at ≡ 0) }
    ensures failed { IsErrOf result fault.Device → Rose (T.faults site.old) (T.faults site.new) }
    ensures never_full { (s begin end n : ℕ) → result ≢ Err (fault.SeqFull s begin end n) }
    ensures unread { (bytes : List ℕ) → held_at pool.old set 0 ≡ Some bytes → site.new ≡ site.old }
    ensures hand { (bytes : List ℕ) → held_at pool.old set 0 ≡ Some bytes → SameAtHand pool.old pool.new }
    ensures looks { LooksAt T.told T.disk T.faults T.holds T.keeps set place.now.shape.ci site.old site.new pool.old
        pool.new }
{
    match interval_at(pool, site, set, 0, place.shape.ci) {
        Ok(control) => {
            if control.head().kind == CONTROL {
                Ok(control)
            } else {
                Err(AreaFault::Damaged { set, at: 0 })
            }
        }
        Err(GetFault::Failed) => Err(AreaFault::Device),
        Err(GetFault::BadTiles(_)) => Err(AreaFault::Damaged { set, at: 0 }),
        Err(GetFault::Memory) => Err(AreaFault::Memory),
    }
}

/// The ends that control has, of a sequential part with so many slots. None exactly where they are none.
pub(crate) fn ends_in(control: &Interval, capacity: u32) -> Option<AreaEnds>
    requires { kind_of control.now ≡ 1 }
    ensures begin { IfSome result (λ ends. ends.begin ≡ slice_index (ends_of control.now) 0) }
    ensures end { IfSome result (λ ends. ends.end ≡ slice_index (ends_of control.now) 1) }
    ensures some { IfSome result (λ ends. AreEnds capacity control.now) }
    ensures none { IfNone result (¬ AreEnds capacity control.now) }
{
    let [begin, end, _, _] = control.ends();
    if begin == 0 || end < begin || LAST < end || u64::from(capacity) < end - begin {
        return None;
    }
    Some(AreaEnds { begin, end })
}
