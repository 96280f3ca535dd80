//! The root of a key, as an anchor of an area has it.

ghost use Rattle.std.specs.Prelude.{◌≡◌, ◌≢◌, ◌<◌, ℕ, Err, IfOk, IfNone, IfSome, IsErrOf, map, true};
ghost use Rattle.ci_space.specs.Calls.{GoesOn};
ghost use Rattle.fp_lists.specs.Faults.{Rose};
ghost use Rattle.fp_model.specs.Order.{root_key};
ghost use Rattle.fp_model.specs.State.{ascend};
ghost use Rattle.root_anchor.specs.Chains.{anchor_count};
ghost use Rattle.root_anchor.specs.Formed.{HasChain};
ghost use Rattle.area_states.specs.inside.Keys.{HasNewest, IsFound, NoneHas};
ghost use Rattle.area_states.specs.Places.{IsPlace};

use crate::Place;
use crate::keys::number_of;
use crate::roots::newest_serial;
use ci_space::Intervals;
use fp_model::{Root, SegDef};
use root_anchor::{AnchorFault, load};
use std::alloc::Global;

/// The root of a key among those of an anchor.
#[derive(Clone, Copy)]
pub struct Found {
    /// Its number, None where there is none.
    pub number: Option<usize>,

    /// Its newest serial, 0 for none.
    pub newest: u64,
}

/// The root of a key among these.
fn found_in(segments: &[SegDef], roots: &[Root], key: &[u8]) -> Found
    ensures some { IfSome result.number (HasNewest segments.now key.now roots.now result.newest) }
    ensures none { ascend (map (root_key segments.now) roots.now) ≡ true
        → IfNone result.number (NoneHas segments.now key.now roots.now) }
    ensures newest { IfNone result.number (result.newest ≡ 0) }
{
    match number_of(segments, roots, key) {
        Some(number) => Found {
            number: Some(number),
            newest: newest_serial(roots[number].seqs.as_slice()),
        },
        None => Found {
            number: None,
            newest: 0,
        },
    }
}

/// Looks for the root of a key among those of an anchor.
pub(crate) fn find_root<I: Intervals>(
    alloc: Global,
    i: &mut I,
    place: &Place,
    anchor: u32,
    key: &[u8],
) -> Result<Found, AnchorFault>
    requires place { IsPlace place.now }
    requires size { I.size i.old ≡ place.now.shape.ci }
    requires anchor { anchor < anchor_count place.now.shape }
    ensures found { I.told i.old → IfOk result (IsFound place.now (I.intervals i.old) anchor key.now) }
    ensures sound { I.told i.old → HasChain place.now.shape place.now.segments (I.intervals i.old) anchor → (ci : ℕ)
        → result ≢ Err (AnchorFault.Damaged ci) }
    ensures failed { IsErrOf result AnchorFault.Failed → Rose (I.faults i.old) (I.faults i.new) }
    ensures same { I.told i.old → I.intervals i.new ≡ I.intervals i.old }
    ensures number { I.number i.new ≡ I.number i.old }
    ensures goes_on { GoesOn I.told I.size I.faults I.keeps i.old i.new }
{
    let roots = load(alloc, i, &place.shape, &place.segments, anchor)?;
    Ok(found_in(place.segments.as_slice(), roots.as_slice(), key))
}
