//! Roots are changed in place.
//!
//! Where an anchor's old and new roots differ in one segment, that one's element alone is put. Where the new ones have
//! one segment more, it is put into a new element, and the pointer to it. Else the anchor is stored.

ghost use Rattle.std.specs.Prelude.{◌≡◌, ◌≢◌, ◌⊎◌, ◌↔◌, ◌<◌, ◌≤◌, ℕ, List, Err, IfOk, OnOk, IsOk, IsErrOf, IsTrue, true, false};
ghost use Rattle.ci_space.specs.Calls.{GoesOn};
ghost use Rattle.fp_lists.specs.Faults.{Rose};
ghost use Rattle.ci_overflow.specs.Lists.{IsInOrder};
ghost use Rattle.anchor_elements.specs.Elements.{AreTypes, Segment, HasSegment};
ghost use Rattle.anchor_elements.specs.Puts.{PutsSegment};
ghost use Rattle.root_anchor.specs.Chains.{anchor_count};
ghost use Rattle.root_anchor.specs.Damage.{ChainFails};
ghost use Rattle.root_anchor.specs.Faults.{ListsFail};
ghost use Rattle.root_changes.specs.Differing.{RootsDiffer};
ghost use Rattle.root_changes.specs.Gaining.{RootsGain};
ghost use Rattle.root_anchor.specs.Differing.{ChangesAlone};
ghost use Rattle.root_anchor.specs.inside.Finding.{FitsType, says_of};
ghost use Rattle.root_anchor.specs.inside.Storing.{Names, Rewrites};
ghost use Rattle.root_anchor.specs.Formed.{IsFormed, HasChain, HasRoots, NewAreOwn};
ghost use Rattle.root_anchor.specs.Gaps.{AddsOne, FewChange, SegmentsStay};
ghost use Rattle.root_anchor.specs.Keeping.{KeepsElements};
ghost use Rattle.root_anchor.specs.Stored.{are_storable, ApartKeep, OthersKeep, KeepsSequential};

use crate::building::Home;
use crate::filling::set_more;
use crate::finding::{Found, find_change};
use crate::holding::{Begun, begin, rest, settle};
use crate::newest::pointers_of;
use crate::storing::store_held;
use anchor_elements::{AnchorFault, Saying, put_segment};
use ci_space::{Intervals, Shape};
use fp_model::{List, Root, SegDef};
use held_intervals::Held;
use root_changes::{Difference, compare_roots};
use std::alloc::Global;

/// Lets an element say what it is to say.
fn put_found<I: Intervals>(
    alloc: Global,
    i: &mut I,
    segments: &List<SegDef>,
    found: &Found<'_>,
) -> Result<(), AnchorFault>
    requires types { AreTypes (I.size i.old) segments.now }
    requires fits { FitsType segments.now found.now }
    ensures put { I.told i.old → (s : Segment)
        → HasSegment segments.now (I.intervals i.old) found.now.segment found.now.at s
        → OnOk result (PutsSegment segments.now (I.intervals i.old) (I.intervals i.new) found.now.segment found.now.at
        (says_of found.now)) }
    ensures sound { I.told i.old → (s : Segment)
        → HasSegment segments.now (I.intervals i.old) found.now.segment found.now.at s
        → (ci : ℕ) → result ≢ Err (AnchorFault.Damaged ci) }
    ensures failed { IsErrOf result AnchorFault.Failed → Rose (I.faults i.old) (I.faults i.new) }
    ensures number { I.number i.new ≡ I.number i.old }
    ensures goes_on { GoesOn I.told I.size I.faults I.keeps i.old i.new }
{
    let firsts = pointers_of(alloc, found.said.firsts.as_slice())?;
    let saying = Saying {
        next: found.said.next,
        serial: found.serial,
        firsts: firsts.as_slice(),
        bytes: found.bytes.as_slice(),
    };
    put_segment(i, segments, found.segment, found.at, saying)
}

/// Puts the one element of an anchor in which two lists of its roots differ, and answers whether they differ so. Else
/// nothing is put; nor is it where the way to it is damaged.
pub(crate) fn set_alone<I: Intervals>(
    alloc: Global,
    i: &mut I,
    shape: &Shape,
    segments: &List<SegDef>,
    anchor: u32,
    before: &List<Root>,
    after: &List<Root>,
) -> Result<bool, AnchorFault>
    requires anchor { anchor < anchor_count shape.now }
    requires types { AreTypes (I.size i.old) segments.now }
    requires form { are_storable segments.now after.now ≡ true }
    ensures set { I.told i.old → IfOk result (λ set. set ≡ true
        → ChangesAlone shape.now segments.now (I.intervals i.old) (I.intervals i.new) anchor before.now after.now) }
    ensures same { I.told i.old → IfOk result (λ set. set ≡ false → I.intervals i.new ≡ I.intervals i.old) }
    ensures differ { IfOk result (λ set. set ≡ true → RootsDiffer before.now after.now) }
    ensures alone { I.told i.old → HasRoots shape.now segments.now (I.intervals i.old) anchor before.now
        → RootsDiffer before.now after.now → IfOk result (λ set. set ≡ true) }
    ensures sound { I.told i.old → (ci : ℕ) → result ≢ Err (AnchorFault.Damaged ci) }
    ensures failed { IsErrOf result AnchorFault.Failed → Rose (I.faults i.old) (I.faults i.new) }
    ensures number { I.number i.new ≡ I.number i.old }
    ensures goes_on { GoesOn I.told I.size I.faults I.keeps i.old i.new }
{
    match find_change(alloc, i, shape, segments, anchor, before, after) {
        Ok(Some(found)) => {
            put_found(alloc, i, segments, &found)?;
            Ok(true)
        }
        Ok(None) => Ok(false),
        Err(AnchorFault::Damaged(_)) => Ok(false),
        Err(fault) => Err(fault),
    }
}

/// Gives an anchor roots in the place of those that it has, through intervals that are held.
fn rewrite_held<I: Intervals>(
    alloc: Global,
    i: &mut I,
    shape: &Shape,
    segments: &List<SegDef>,
    anchor: u32,
    before: &List<Root>,
    after: &List<Root>,
) -> Result<(), AnchorFault>
    requires anchor { anchor < anchor_count shape.now }
    requires types { AreTypes (I.size i.old) segments.now }
    requires roots { are_storable segments.now after.now ≡ true }
    ensures rewrites { I.told i.old → OnOk result (Rewrites shape.now segments.now (I.intervals i.old)
        (I.intervals i.new) anchor before.now after.now) }
    ensures names { I.told i.old → (ci : ℕ) → result ≡ Err (AnchorFault.Damaged ci)
        → Names shape.now segments.now (I.intervals i.old) anchor ci }
    ensures alone_sound { I.told i.old → HasRoots shape.now segments.now (I.intervals i.old) anchor before.now
        → RootsDiffer before.now after.now → (ci : ℕ) → result ≢ Err (AnchorFault.Damaged ci) }
    ensures failed { IsErrOf result AnchorFault.Failed → Rose (I.faults i.old) (I.faults i.new) }
    ensures number { I.number i.old ≤ I.number i.new }
    ensures goes_on { GoesOn I.told I.size I.faults I.keeps i.old i.new }
{
    let alone = set_alone(alloc, i, shape, segments, anchor, before, after)?;
    if alone {
        return Ok(());
    }
    let home = Home {
        shape,
        segments,
        anchor,
    };
    let more = set_more(alloc, i, &home, before, after)?;
    if more {
        return Ok(());
    }
    store_held(alloc, i, shape, segments, anchor, after)
}

/// Whether two lists of roots are the same.
fn are_same(roots: &List<Root>, others: &List<Root>) -> bool
    ensures { IsTrue result ↔ (roots.now ≡ others.now) }
{
    matches!(
        compare_roots(roots.as_slice(), others.as_slice()),
        Difference::Nowhere
    )
}

/// Gives an anchor roots in the place of those that it has: where the lists aren't the same, through intervals that are
/// held, and those that changed are put at the end.
fn rewrite_and_put<I: Intervals>(
    alloc: Global,
    i: &mut I,
    shape: &Shape,
    segments: &List<SegDef>,
    anchor: u32,
    before: &List<Root>,
    after: &List<Root>,
) -> Result<(), AnchorFault>
    requires anchor { anchor < anchor_count shape.now }
    requires types { AreTypes (I.size i.old) segments.now }
    requires roots { are_storable segments.now after.now ≡ true }
    ensures rewrites { I.told i.old → OnOk result (Rewrites shape.now segments.now (I.intervals i.old)
        (I.intervals i.new) anchor before.now after.now) }
    ensures names { I.told i.old → (ci : ℕ) → result ≡ Err (AnchorFault.Damaged ci)
        → Names shape.now segments.now (I.intervals i.old) anchor ci }
    ensures alone_sound { I.told i.old → HasRoots shape.now segments.now (I.intervals i.old) anchor before.now
        → RootsDiffer before.now after.now → (ci : ℕ) → result ≢ Err (AnchorFault.Damaged ci) }
    ensures done { before.now ≡ after.now → IsOk result }
    ensures same { before.now ≡ after.now → i.new ≡ i.old }
    ensures failed { IsErrOf result AnchorFault.Failed → Rose (I.faults i.old) (I.faults i.new) }
    ensures number { I.number i.old ≤ I.number i.new }
    ensures goes_on { GoesOn I.told I.size I.faults I.keeps i.old i.new }
{
    if are_same(before, after) {
        return Ok(());
    }
    let Begun { size, read } = begin(alloc, i, shape, anchor)?;
    let mut held = Held::new(alloc, i, size, read);
    let rewritten = rewrite_held(alloc, &mut held, shape, segments, anchor, before, after);
    let Held {
        alloc: _,
        under,
        size: _,
        read: _,
        changed,
    } = held;
    let result = settle(under, changed, rewritten);
    rest(under);
    result
}

/// Gives an anchor roots in the place of those that it has, as `store` does. Where the two lists differ in one
/// segment's bytes, or in one root's newest serial, that one's element alone changes, and no interval is added. Where
/// the new list has one segment more, with none below it, at most four intervals change: control, the first base
/// interval of the unit of work, that of the new element and that of the pointer to it. Where the lists are the same,
/// nothing is read or put. An anchor is counted from 0 within its area.
///
/// An element that changes alone costs one `get` for the anchor's base interval, and one for each other interval that
/// holds a root up to its own, or on a level below a twin up to the segment's own. For one segment more each interval of
/// the anchor is got once.
///
/// `Damaged` and `Failed` as in `store`. After a fault what holds the intervals is thrown away.
pub fn rewrite<I: Intervals>(
    alloc: Global,
    i: &mut I,
    shape: &Shape,
    segments: &List<SegDef>,
    anchor: u32,
    before: &List<Root>,
    after: &List<Root>,
) -> Result<(), AnchorFault>
    requires anchor { anchor < anchor_count shape.now }
    requires types { AreTypes (I.size i.old) segments.now }
    requires roots { are_storable segments.now after.now ≡ true }

    // Where the anchor has the roots `before`: it has the roots `after` then. All others keep theirs, and a formed area
    // is formed again.
    ensures stored { I.told i.old → HasRoots shape.now segments.now (I.intervals i.old) anchor before.now
        → IsFormed shape.now segments.now (I.intervals i.old)
        → OnOk result (HasRoots shape.now segments.now (I.intervals i.new) anchor after.now) }
    ensures others { I.told i.old → HasRoots shape.now segments.now (I.intervals i.old) anchor before.now
        → IsFormed shape.now segments.now (I.intervals i.old)
        → OnOk result (OthersKeep shape.now segments.now (I.intervals i.old) (I.intervals i.new) anchor) }
    ensures apart { I.told i.old → HasRoots shape.now segments.now (I.intervals i.old) anchor before.now
        → IsInOrder shape.now (I.intervals i.old)
        → OnOk result (ApartKeep shape.now segments.now (I.intervals i.old) (I.intervals i.new) anchor) }
    ensures own { I.told i.old → HasRoots shape.now segments.now (I.intervals i.old) anchor before.now
        → IsInOrder shape.now (I.intervals i.old)
        → OnOk result (NewAreOwn shape.now segments.now (I.intervals i.old) (I.intervals i.new) anchor) }
    ensures formed { I.told i.old → HasRoots shape.now segments.now (I.intervals i.old) anchor before.now
        → IsFormed shape.now segments.now (I.intervals i.old)
        → OnOk result (IsFormed shape.now segments.now (I.intervals i.new)) }

    // And where no segment comes or goes, each stays in its element.
    ensures keep { I.told i.old → HasRoots shape.now segments.now (I.intervals i.old) anchor before.now
        → IsInOrder shape.now (I.intervals i.old) → ¬ RootsGain before.now after.now
        → OnOk result (KeepsElements shape.now segments.now (I.intervals i.old) (I.intervals i.new) anchor after.now) }

    // And where the lists differ in one segment, just its element changes, and nothing is damaged.
    ensures alone { I.told i.old → HasRoots shape.now segments.now (I.intervals i.old) anchor before.now
        → RootsDiffer before.now after.now
        → OnOk result (ChangesAlone shape.now segments.now (I.intervals i.old) (I.intervals i.new) anchor before.now
        after.now) }
    ensures alone_sound { I.told i.old → HasRoots shape.now segments.now (I.intervals i.old) anchor before.now
        → RootsDiffer before.now after.now → (ci : ℕ) → result ≢ Err (AnchorFault.Damaged ci) }

    // And where the new list has one segment more, at most four intervals change, and each segment stays in its
    // element.
    ensures few { I.told i.old → HasRoots shape.now segments.now (I.intervals i.old) anchor before.now
        → IsInOrder shape.now (I.intervals i.old) → RootsGain before.now after.now
        → OnOk result (FewChange (I.intervals i.old) (I.intervals i.new)) }
    ensures stay { I.told i.old → HasRoots shape.now segments.now (I.intervals i.old) anchor before.now
        → IsInOrder shape.now (I.intervals i.old) → RootsGain before.now after.now
        → OnOk result (SegmentsStay segments.now (I.intervals i.old) (I.intervals i.new)) }
    ensures one { I.told i.old → HasRoots shape.now segments.now (I.intervals i.old) anchor before.now
        → IsInOrder shape.now (I.intervals i.old) → RootsGain before.now after.now
        → OnOk result (AddsOne shape.now segments.now (I.intervals i.old) (I.intervals i.new) anchor) }

    // And where they are the same, nothing changes.
    ensures done { before.now ≡ after.now → IsOk result }
    ensures same { before.now ≡ after.now → i.new ≡ i.old }

    // Whatever roots it has. At `Ok` its chain stood, or an element changed alone.
    ensures sequential { I.told i.old → IsFormed shape.now segments.now (I.intervals i.old)
        → OnOk result (KeepsSequential shape.now (I.intervals i.old) (I.intervals i.new)) }
    ensures sound { I.told i.old → IsInOrder shape.now (I.intervals i.old)
        → HasChain shape.now segments.now (I.intervals i.old) anchor → (ci : ℕ)
        → result ≢ Err (AnchorFault.Damaged ci) }
    ensures damaged { I.told i.old → ¬ HasChain shape.now segments.now (I.intervals i.old) anchor → (ci : ℕ)
        → result ≡ Err (AnchorFault.Damaged ci) → ChainFails shape.now segments.now (I.intervals i.old) anchor ci }
    ensures lists { I.told i.old → HasChain shape.now segments.now (I.intervals i.old) anchor → (ci : ℕ)
        → result ≡ Err (AnchorFault.Damaged ci) → ListsFail shape.now segments.now (I.intervals i.old) anchor ci }
    ensures stood { I.told i.old → before.now ≢ after.now
        → OnOk result (HasChain shape.now segments.now (I.intervals i.old) anchor
        ⊎ ChangesAlone shape.now segments.now (I.intervals i.old) (I.intervals i.new) anchor before.now after.now) }

    // It fails only with what holds the intervals.
    ensures failed { IsErrOf result AnchorFault.Failed → Rose (I.faults i.old) (I.faults i.new) }

    // What stays, whatever the answer is.
    ensures number { I.number i.old ≤ I.number i.new }
    ensures goes_on { GoesOn I.told I.size I.faults I.keeps i.old i.new }
{
    rewrite_and_put(alloc, i, shape, segments, anchor, before, after)
}
