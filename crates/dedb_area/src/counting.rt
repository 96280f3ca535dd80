//! How many intervals an area has.

ghost use Rattle.std.specs.Prelude.{◌≡◌, ◌≢◌, ◌+◌, ◌*◌, ◌<◌, ◌≤◌, ◌^◌, ℕ, List, Err, Some, IfOk, IfSome, IfNone, IsErrOf, IsTrue, slice_index};
ghost use Rattle.fp_lists.specs.Faults.{Rose};
ghost use Rattle.ci_space.specs.Interval.{is_size, kind_of};
ghost use Rattle.ci_space.specs.Head.{ends_of};
ghost use Rattle.ci_overflow.specs.Places.{first_independent};
ghost use Rattle.ci_pool.specs.Held.{SameAtHand, held_at};
ghost use Rattle.area_states.specs.Places.{counted_by};
ghost use Rattle.dedb_area.specs.Anchors.{CountsIntervals};
ghost use Rattle.dedb_area.specs.inside.Anchors.{ShowsArea};
ghost use Rattle.area_staging.specs.Looking.{LooksAt};
ghost use Rattle.dedb_area.specs.declared.fault.AreaFault.TheVariants as fault;

use crate::AreaFault;
use crate::formatting::first_independent;
use crate::reading::control;
use area_states::Place;
use ci_pool::Pool;
use ci_space::{Interval, Shape};
use fp_site::Site;

/// An area ends at or before byte 2^62.
const LAST: u64 = 1 << 62;

/// How many intervals control counts. None exactly where they end past byte 2^62.
pub(crate) fn count_in(control: &Interval, shape: &Shape) -> Option<u64>
    requires kind { kind_of control.now ≡ 1 }
    requires size { IsTrue (is_size shape.now.ci) }
    ensures some { IfSome result (λ count. count
        ≡ first_independent shape.now + slice_index (ends_of control.now) 2) }
    ensures ends { IfSome result (λ count. count * shape.now.ci ≤ 2 ^ 62) }
    ensures none { IfNone result
        (2 ^ 62 < (first_independent shape.now + slice_index (ends_of control.now) 2) * shape.now.ci) }
{
    let [_, _, more, _] = control.ends();
    let most = LAST / u64::from(shape.ci);
    let formatted = first_independent(shape);
    if most < formatted || most - formatted < more {
        return None;
    }
    Some(formatted + more)
}

/// How many intervals an area has, by the newest bytes of its control. They end at or before byte 2^62.
pub(crate) fn counted<T: Site>(
    pool: &mut Pool,
    site: &mut T,
    place: &Place,
    set: u16,
) -> Result<u64, AreaFault>
    requires { IsTrue (is_size place.now.shape.ci) }
    ensures count { T.told site.old → (bytes : ℕ → List ℕ)
        → ShowsArea place.now set (T.disk site.old).contents pool.old bytes
        → IfOk result (λ count. count ≡ counted_by (Some place.now) (bytes 0)) }
    ensures ends { IfOk result (λ count. count * place.now.shape.ci ≤ 2 ^ 62) }
    ensures damaged { T.told site.old → (bytes : ℕ → List ℕ)
        → ShowsArea place.now set (T.disk site.old).contents pool.old bytes
        → (s at : ℕ) → result ≡ Err (fault.Damaged s at) → ¬ CountsIntervals place.now (bytes 0) }
    ensures first { (s at : ℕ) → result ≡ Err (fault.Damaged s at) → (s ≡ set) × (at ≡ 0) }
    ensures failed { IsErrOf result fault.Device → Rose (T.faults site.old) (T.faults site.new) }
    ensures never_full { (s begin end n : ℕ) → result ≢ Err (fault.SeqFull s begin end n) }
    ensures unread { (bytes : List ℕ) → held_at pool.old set 0 ≡ Some bytes → site.new ≡ site.old }
    ensures hand { (bytes : List ℕ) → held_at pool.old set 0 ≡ Some bytes → SameAtHand pool.old pool.new }
    ensures looks { LooksAt T.told T.disk T.faults T.holds T.keeps set place.now.shape.ci site.old site.new pool.old
        pool.new }
{
    let control = control(pool, site, place, set)?;
    match count_in(&control, &place.shape) {
        Some(count) => Ok(count),
        None => Err(AreaFault::Damaged { set, at: 0 }),
    }
}
