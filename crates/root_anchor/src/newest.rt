//! The newest serial of one root is set, without the anchor's list.

ghost use Rattle.std.specs.Prelude.{◌≡◌, ◌≢◌, ◌<◌, ◌≤◌, ℕ, List, Err, IfOk, OnOk, IsErrOf, true, false};
ghost use Rattle.ci_space.specs.Calls.{GoesOn};
ghost use Rattle.fp_lists.specs.Faults.{Rose};
ghost use Rattle.fp_model.specs.WellFormed.{has_sequential};
ghost use Rattle.anchor_elements.specs.Elements.{AreTypes, Segment, HasSegment};
ghost use Rattle.anchor_elements.specs.Puts.{PutsSegment};
ghost use Rattle.anchor_elements.specs.Reading.{pointers_of};
ghost use Rattle.root_anchor.specs.Chains.{anchor_count};
ghost use Rattle.root_anchor.specs.Formed.{HasChain};
ghost use Rattle.root_anchor.specs.Newest.{SetsNewest};
ghost use Rattle.root_anchor.specs.Roots.{HasFewer, RootsAreBroken};

use crate::places::root_place;
use anchor_elements::{AnchorFault, First, Pointer, Saying, put_segment, read_element};
use ci_space::{Intervals, Shape};
use fp_model::{List, SegDef};
use std::alloc::{AllocError, Global};

/// The pointers to the first children.
pub(crate) fn pointers_of(alloc: Global, firsts: &[First]) -> Result<Vec<Pointer>, AllocError>
    ensures { IfOk result (λ pointers. pointers.items ≡ pointers_of firsts.now) }
{
    let mut pointers = Vec::new(alloc);
    for first in firsts {
        pointers.push(first.at)?;
    }
    Ok(pointers)
}

/// Lets the root at a pointer say another newest serial.
fn put_newest<I: Intervals>(
    alloc: Global,
    i: &mut I,
    segments: &List<SegDef>,
    at: Pointer,
    serial: u64,
) -> Result<(), AnchorFault>
    requires types { AreTypes (I.size i.old) segments.now }
    requires sequential { has_sequential segments.now ≡ true }
    ensures put { I.told i.old → (s : Segment) → HasSegment segments.now (I.intervals i.old) 0 at s
        → OnOk result (PutsSegment segments.now (I.intervals i.old) (I.intervals i.new) 0 at
        (record s { serial = serial })) }
    ensures sound { I.told i.old → (s : Segment) → HasSegment segments.now (I.intervals i.old) 0 at s → (ci : ℕ)
        → result ≢ Err (AnchorFault.Damaged ci) }
    ensures failed { IsErrOf result AnchorFault.Failed → Rose (I.faults i.old) (I.faults i.new) }
    ensures number { I.number i.new ≡ I.number i.old }
    ensures goes_on { GoesOn I.told I.size I.faults I.keeps i.old i.new }
{
    let said = read_element(alloc, i, segments, 0, at.0, at)?;
    let firsts = pointers_of(alloc, said.firsts.as_slice())?;
    let saying = Saying {
        next: said.next,
        serial,
        firsts: firsts.as_slice(),
        bytes: said.bytes.as_slice(),
    };
    put_segment(i, segments, 0, at, saying)
}

/// Sets the newest serial of the root of a number, counted from 0 in the order of the pointers, and answers whether the
/// anchor has so many roots. Only the root's element changes. An anchor is counted from 0 within its area.
///
/// `Damaged` as in `root_place`. After a fault what holds the intervals is thrown away.
pub fn set_newest<I: Intervals>(
    alloc: Global,
    i: &mut I,
    shape: &Shape,
    segments: &List<SegDef>,
    anchor: u32,
    number: usize,
    serial: u64,
) -> Result<bool, AnchorFault>
    requires anchor { anchor < anchor_count shape.now }
    requires types { AreTypes (I.size i.old) segments.now }
    requires sequential { has_sequential segments.now ≡ true }

    // It is set, or there are fewer roots, and then nothing changed.
    ensures set { I.told i.old → IfOk result (λ set. set ≡ true
        → SetsNewest shape.now segments.now (I.intervals i.old) (I.intervals i.new) anchor number serial) }
    ensures none { I.told i.old → IfOk result (λ set. set ≡ false
        → HasFewer shape.now segments.now (I.intervals i.old) anchor number) }
    ensures same { I.told i.old → IfOk result (λ set. set ≡ false → I.intervals i.new ≡ I.intervals i.old) }

    // The interval that it names is damaged, and it names none where the anchor's chain stands.
    ensures damaged { I.told i.old → (ci : ℕ) → result ≡ Err (AnchorFault.Damaged ci)
        → RootsAreBroken shape.now segments.now (I.intervals i.old) anchor ci }
    ensures sound { I.told i.old → HasChain shape.now segments.now (I.intervals i.old) anchor → (ci : ℕ)
        → result ≢ Err (AnchorFault.Damaged ci) }

    // It fails only with what holds the intervals.
    ensures failed { IsErrOf result AnchorFault.Failed → Rose (I.faults i.old) (I.faults i.new) }

    // What stays, whatever the answer is.
    ensures number { I.number i.new ≡ I.number i.old }
    ensures goes_on { GoesOn I.told I.size I.faults I.keeps i.old i.new }
{
    let Some(place) = root_place(alloc, i, shape, segments, anchor, number)? else {
        return Ok(false);
    };
    put_newest(alloc, i, segments, (place.ci, place.at), serial)?;
    Ok(true)
}
