//! Who waits for whom.
ghost use Rattle.ci_locks.specs.Cycles.{IsNoLater};
ghost use Rattle.ci_locks.specs.inside.Graph.{Along, leads, set_at};
ghost use Rattle.ci_locks.specs.Sets.{has};
ghost use Rattle.std.specs.List.{IsDistinct};
ghost use Rattle.std.specs.Prelude.{◌≡◌, ◌≤◌, ◌==◌, ◌∷◌, IfOk, IfSome, List as ListOf, MatchOption, length, true, ℕ};

use crate::sets::RegionSet;
use crate::state::Region;
use fp_model::Bytes;
use std::alloc::{AllocError, Global};

// Those that a region waits for, where the asker would wait for these.
fn set_at(regions: &[Region], asker: u8, ahead: RegionSet, region: u8) -> RegionSet
    requires some { 1 ≤ region }
    requires within { region ≤ length regions.now }
    ensures { result.0 ≡ set_at regions.now asker ahead.0 region }
{
    if region == asker {
        ahead
    } else {
        regions[usize::from(region) - 1].ahead
    }
}

// The first cycle through a region in the order of words, from it on, no region twice, where it would wait for these.
// `None` where there is none. The search takes no memory; it fails only for want of memory for the cycle.
//
// It follows one way at a time, to the least region that it hasn't met. A region that leads on to none is left behind:
// no cycle goes through it.
pub(crate) fn cycle_through(
    alloc: Global,
    regions: &[Region],
    asker: u8,
    ahead: RegionSet,
) -> Result<Option<Bytes>, AllocError>
    requires most { length regions.now ≤ 64 }
    requires some { 1 ≤ asker }
    requires within { asker ≤ length regions.now }
    requires range { (region other : ℕ) → has (set_at regions.now asker ahead.0 region) other ≡ true
        → (1 ≤ other) × (other ≤ length regions.now) }

    ensures found { IfOk result (λ found. MatchOption found
        ((cycle : ListOf ℕ) → ¬ Along (leads regions.now asker ahead.0) asker cycle asker)
        (λ list. (cycle : ListOf ℕ) × (list ≡ asker ∷ cycle)
        × Along (leads regions.now asker ahead.0) asker cycle asker × IsDistinct ◌==◌ list)) }
    ensures first { IfOk result (λ found. IfSome found (λ list. (cycle : ListOf ℕ)
        → Along (leads regions.now asker ahead.0) asker cycle asker → IsDistinct ◌==◌ (asker ∷ cycle)
        → IsNoLater list (asker ∷ cycle))) }
    ensures short { IfOk result (λ found. IfSome found (λ list. length list ≤ length regions.now)) }
{
    let mut path = [0u8; 64];
    path[0] = asker;
    let mut count = 1;
    let mut met = RegionSet::empty().with(asker);
    while count > 0 {
        let on = set_at(regions, asker, ahead, path[count - 1]);
        if on.has(asker) {
            return Ok(Some(Bytes::from_slice(alloc, &path[..count])?));
        }
        match on.less(met).first() {
            Some(region) => {
                met = met.with(region);
                path[count] = region;
                count += 1;
            }
            None => count -= 1,
        }
    }
    Ok(None)
}
