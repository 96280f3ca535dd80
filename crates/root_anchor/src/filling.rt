//! An anchor's roots get one segment more.
//!
//! The new segment is put into a new element, and then the one pointer that is to lead to it. All others stay.

ghost use Rattle.std.specs.Prelude.{◌≡◌, ◌≢◌, ◌↔◌, ◌<◌, ◌≤◌, [], ℕ, List, Err, IfOk, OnOk, IsErrOf, IsTrue, true, false};
ghost use Rattle.ci_space.specs.Calls.{GoesOn};
ghost use Rattle.fp_lists.specs.Faults.{Rose};
ghost use Rattle.ci_overflow.specs.Faults.{IsAtFault};
ghost use Rattle.ci_overflow.specs.Lists.{IsInOrder, IsInPlace};
ghost use Rattle.ci_overflow.specs.Places.{base_of};
ghost use Rattle.ci_overflow.specs.inside.Rooms.{TakesOne};
ghost use Rattle.anchor_elements.specs.Elements.{AreTypes, HasSegment, content_length};
ghost use Rattle.anchor_elements.specs.Puts.{PutsSegment};
ghost use Rattle.anchor_elements.specs.Reading.{segment_of};
ghost use Rattle.root_changes.specs.Gaining.{RootsGain};
ghost use Rattle.root_changes.specs.Telling.{TellsRootGain};
ghost use Rattle.root_anchor.specs.Chains.{anchor_count, root_of};
ghost use Rattle.root_anchor.specs.Formed.{HasChain, HasRoots};
ghost use Rattle.root_anchor.specs.inside.Gaps.{Adds, AddsBehind, AddsInFront, FitsAdded, FitsHolder, FitsGap, Grows, links_to};
ghost use Rattle.root_anchor.specs.inside.Rebuilding.{IsDirect};
ghost use Rattle.root_anchor.specs.inside.Standing.{AreStanding};
ghost use Rattle.root_anchor.specs.inside.Storing.{Names};
ghost use Rattle.root_anchor.specs.Stored.{are_storable, is_storable};
ghost use Rattle.root_anchor.specs.declared.standing.Standing.{Standing as StandingOf};

use crate::anchor::{Walked, base_of, root_anchor_point, walk_anchor};
use crate::building::{Home, fault_of, newest_of, no_pointers, types_below};
use crate::gaps::{Added, Gap, Holder, Link, gap_in_roots};
use crate::newest::pointers_of;
use crate::putting::put_root;
use anchor_elements::{AnchorFault, Pointer, Saying, content_length, put_segment};
use ci_overflow::find_room;
use ci_space::Intervals;
use fp_model::{List, Root, SegDef};
use root_changes::{Gain, gain_of_roots};
use std::alloc::{AllocError, Global};

/// Takes a new element with room for a segment of a type.
fn take_element<I: Intervals>(
    i: &mut I,
    home: &Home<'_>,
    segment: u8,
) -> Result<Pointer, AnchorFault>
    requires anchor { home.now.anchor < anchor_count home.now.shape.now }
    requires types { AreTypes (I.size i.old) home.now.segments.now }
    requires direct { IsDirect home.now.segments.now segment }
    ensures takes { I.told i.old → IfOk result (TakesOne home.now.shape.now (I.intervals i.old) (I.intervals i.new)
        home.now.anchor (content_length home.now.segments.now segment)) }
    ensures lists { I.told i.old → (ci : ℕ) → result ≡ Err (AnchorFault.Damaged ci)
        → IsAtFault home.now.shape.now (I.intervals i.old) ci }
    ensures failed { IsErrOf result AnchorFault.Failed → Rose (I.faults i.old) (I.faults i.new) }
    ensures number { I.number i.old ≤ I.number i.new }
    ensures goes_on { GoesOn I.told I.size I.faults I.keeps i.old i.new }
{
    let length = content_length(home.segments, segment) as u16;
    match find_room(i, home.shape, home.anchor, length) {
        Ok(at) => Ok(at),
        Err(fault) => Err(fault_of(fault)),
    }
}

/// Puts a segment into a new element.
fn add_segment<I: Intervals>(
    alloc: Global,
    i: &mut I,
    home: &Home<'_>,
    added: Added<'_>,
) -> Result<Pointer, AnchorFault>
    requires anchor { home.now.anchor < anchor_count home.now.shape.now }
    requires types { AreTypes (I.size i.old) home.now.segments.now }
    requires fits { FitsAdded home.now.segments.now added }
    ensures adds { I.told i.old → IfOk result (Adds home.now.shape.now home.now.segments.now (I.intervals i.old)
        (I.intervals i.new) home.now.anchor added.entry) }
    ensures lists { I.told i.old → (ci : ℕ) → result ≡ Err (AnchorFault.Damaged ci)
        → IsAtFault home.now.shape.now (I.intervals i.old) ci }
    ensures failed { IsErrOf result AnchorFault.Failed → Rose (I.faults i.old) (I.faults i.new) }
    ensures number { I.number i.old ≤ I.number i.new }
    ensures goes_on { GoesOn I.told I.size I.faults I.keeps i.old i.new }
{
    let below = types_below(alloc, home.segments.as_slice(), added.segment)?;
    let firsts = no_pointers(alloc, below.as_slice().len())?;
    let at = take_element(i, home, added.segment)?;
    let saying = Saying {
        next: added.next,
        serial: added.serial,
        firsts: firsts.as_slice(),
        bytes: added.bytes.as_slice(),
    };
    put_segment(i, home.segments, added.segment, at, saying)?;
    Ok(at)
}

/// Where the holder's next twin stands, once its pointer leads to a new segment.
fn next_of(holder: &Holder, at: Pointer) -> Pointer
    ensures { result ≡ (links_to holder.now at).next }
{
    match holder.link {
        Link::Next => at,
        Link::FirstChild(_) => holder.said.next,
    }
}

/// Where the holder's first children stand, once its pointer leads to a new segment.
fn firsts_of(alloc: Global, holder: &Holder, at: Pointer) -> Result<Vec<Pointer>, AllocError>
    ensures { IfOk result (λ firsts. firsts.items ≡ (links_to holder.now at).firsts) }
{
    let mut firsts = pointers_of(alloc, holder.said.firsts.as_slice())?;
    if let Link::FirstChild(number) = holder.link {
        if number < firsts.len() {
            firsts[number] = at;
        }
    }
    Ok(firsts)
}

/// Lets the pointer to a new segment lead there.
fn put_link<I: Intervals>(
    alloc: Global,
    i: &mut I,
    segments: &List<SegDef>,
    holder: &Holder,
    at: Pointer,
) -> Result<(), AnchorFault>
    requires types { AreTypes (I.size i.old) segments.now }
    requires fits { FitsHolder segments.now holder.now }
    ensures put { I.told i.old
        → HasSegment segments.now (I.intervals i.old) holder.now.segment holder.now.at (segment_of holder.now.said)
        → OnOk result (PutsSegment segments.now (I.intervals i.old) (I.intervals i.new) holder.now.segment holder.now.at
        (links_to holder.now at)) }
    ensures sound { I.told i.old
        → HasSegment segments.now (I.intervals i.old) holder.now.segment holder.now.at (segment_of holder.now.said)
        → (ci : ℕ) → result ≢ Err (AnchorFault.Damaged ci) }
    ensures failed { IsErrOf result AnchorFault.Failed → Rose (I.faults i.old) (I.faults i.new) }
    ensures number { I.number i.new ≡ I.number i.old }
    ensures goes_on { GoesOn I.told I.size I.faults I.keeps i.old i.new }
{
    let firsts = firsts_of(alloc, holder, at)?;
    let saying = Saying {
        next: next_of(holder, at),
        serial: holder.said.serial,
        firsts: firsts.as_slice(),
        bytes: holder.said.bytes.as_slice(),
    };
    put_segment(i, segments, holder.segment, holder.at, saying)
}

/// Puts the segment that is missing, and lets the pointer to it lead there.
fn fill<I: Intervals>(
    alloc: Global,
    i: &mut I,
    home: &Home<'_>,
    gap: &Gap<'_>,
) -> Result<(), AnchorFault>
    requires anchor { home.now.anchor < anchor_count home.now.shape.now }
    requires types { AreTypes (I.size i.old) home.now.segments.now }
    requires fits { FitsGap home.now.segments.now gap.now }
    ensures filled { I.told i.old
        → HasSegment home.now.segments.now (I.intervals i.old) gap.now.holder.segment gap.now.holder.at
        (segment_of gap.now.holder.said)
        → OnOk result (AddsBehind home.now.shape.now home.now.segments.now (I.intervals i.old) (I.intervals i.new)
        home.now.anchor gap.now) }
    ensures lists { I.told i.old
        → HasSegment home.now.segments.now (I.intervals i.old) gap.now.holder.segment gap.now.holder.at
        (segment_of gap.now.holder.said) → (ci : ℕ) → result ≡ Err (AnchorFault.Damaged ci)
        → IsAtFault home.now.shape.now (I.intervals i.old) ci }
    ensures failed { IsErrOf result AnchorFault.Failed → Rose (I.faults i.old) (I.faults i.new) }
    ensures number { I.number i.old ≤ I.number i.new }
    ensures goes_on { GoesOn I.told I.size I.faults I.keeps i.old i.new }
{
    let at = add_segment(alloc, i, home, gap.added)?;
    put_link(alloc, i, home.segments, &gap.holder, at)
}

/// Puts a root in front of an anchor's first one, to which this pointer leads.
fn add_in_front<I: Intervals>(
    alloc: Global,
    i: &mut I,
    home: &Home<'_>,
    first: Pointer,
    root: &Root,
) -> Result<(), AnchorFault>
    requires anchor { home.now.anchor < anchor_count home.now.shape.now }
    requires types { AreTypes (I.size i.old) home.now.segments.now }
    requires root { is_storable home.now.segments.now root.now ≡ true }
    ensures filled { I.told i.old → IsInPlace home.now.shape.now (I.intervals i.old)
        (base_of home.now.shape.now home.now.anchor)
        → OnOk result (AddsInFront home.now.shape.now home.now.segments.now (I.intervals i.old) (I.intervals i.new)
        home.now.anchor first root.now) }
    ensures lists { I.told i.old → IsInPlace home.now.shape.now (I.intervals i.old)
        (base_of home.now.shape.now home.now.anchor) → (ci : ℕ) → result ≡ Err (AnchorFault.Damaged ci)
        → IsAtFault home.now.shape.now (I.intervals i.old) ci }
    ensures failed { IsErrOf result AnchorFault.Failed → Rose (I.faults i.old) (I.faults i.new) }
    ensures number { I.number i.old ≤ I.number i.new }
    ensures goes_on { GoesOn I.told I.size I.faults I.keeps i.old i.new }
{
    let added = Added {
        segment: 0,
        next: first,
        serial: newest_of(&root.seqs),
        bytes: &root.bytes,
    };
    let at = add_segment(alloc, i, home, added)?;
    put_root(i, home.shape, home.anchor, at)
}

/// Whether what comes is a root in front of all others.
fn is_in_front(gain: Gain) -> bool
    ensures { IsTrue result ↔ (gain ≡ Gain.New 0) }
{
    matches!(gain, Gain::New(0))
}

/// Puts the segment that an anchor's roots lack of these others, where it isn't a root in front of all, and answers
/// whether it is one.
fn add_behind<I: Intervals>(
    alloc: Global,
    i: &mut I,
    home: &Home<'_>,
    base: u64,
    first: Pointer,
    roots: &[Root],
    others: &[Root],
    gain: Gain,
) -> Result<bool, AnchorFault>
    requires anchor { home.now.anchor < anchor_count home.now.shape.now }
    requires types { AreTypes (I.size i.old) home.now.segments.now }
    requires form { are_storable home.now.segments.now others.now ≡ true }
    requires tells { TellsRootGain roots.now others.now gain }
    ensures grows { I.told i.old → IsInOrder home.now.shape.now (I.intervals i.old)
        → first ≡ root_of home.now.shape.now (I.intervals i.old) home.now.anchor → (all : List StandingOf)
        → AreStanding home.now.shape.now home.now.segments.now (I.intervals i.old) home.now.anchor all
        → HasRoots home.now.shape.now home.now.segments.now (I.intervals i.old) home.now.anchor roots.now
        → IfOk result (λ added. added ≡ true → Grows home.now.shape.now home.now.segments.now (I.intervals i.old)
        (I.intervals i.new) home.now.anchor others.now) }
    ensures some { gain ≢ Gain.Not → gain ≢ Gain.New 0 → IfOk result (λ added. added ≡ true) }
    ensures same { I.told i.old → IfOk result (λ added. added ≡ false → I.intervals i.new ≡ I.intervals i.old) }
    ensures lists { I.told i.old → first ≡ root_of home.now.shape.now (I.intervals i.old) home.now.anchor
        → HasRoots home.now.shape.now home.now.segments.now (I.intervals i.old) home.now.anchor roots.now → (ci : ℕ)
        → result ≡ Err (AnchorFault.Damaged ci) → IsAtFault home.now.shape.now (I.intervals i.old) ci }
    ensures failed { IsErrOf result AnchorFault.Failed → Rose (I.faults i.old) (I.faults i.new) }
    ensures number { I.number i.old ≤ I.number i.new }
    ensures goes_on { GoesOn I.told I.size I.faults I.keeps i.old i.new }
{
    let Some(gap) = gap_in_roots(alloc, i, home.segments, base, first, roots, others, gain)? else {
        return Ok(false);
    };
    fill(alloc, i, home, &gap)?;
    Ok(true)
}

/// Puts the segment that an anchor's roots lack of these others, and answers whether it is one.
fn add_missing<I: Intervals>(
    alloc: Global,
    i: &mut I,
    home: &Home<'_>,
    roots: &[Root],
    others: &[Root],
) -> Result<bool, AnchorFault>
    requires anchor { home.now.anchor < anchor_count home.now.shape.now }
    requires types { AreTypes (I.size i.old) home.now.segments.now }
    requires form { are_storable home.now.segments.now others.now ≡ true }
    ensures grows { I.told i.old → IsInOrder home.now.shape.now (I.intervals i.old) → (all : List StandingOf)
        → AreStanding home.now.shape.now home.now.segments.now (I.intervals i.old) home.now.anchor all
        → HasRoots home.now.shape.now home.now.segments.now (I.intervals i.old) home.now.anchor roots.now
        → IfOk result (λ added. added ≡ true → Grows home.now.shape.now home.now.segments.now (I.intervals i.old)
        (I.intervals i.new) home.now.anchor others.now) }
    ensures some { RootsGain roots.now others.now → IfOk result (λ added. added ≡ true) }
    ensures same { I.told i.old → IfOk result (λ added. added ≡ false → I.intervals i.new ≡ I.intervals i.old) }
    ensures lists { I.told i.old
        → HasRoots home.now.shape.now home.now.segments.now (I.intervals i.old) home.now.anchor roots.now → (ci : ℕ)
        → result ≡ Err (AnchorFault.Damaged ci) → IsAtFault home.now.shape.now (I.intervals i.old) ci }
    ensures failed { IsErrOf result AnchorFault.Failed → Rose (I.faults i.old) (I.faults i.new) }
    ensures number { I.number i.old ≤ I.number i.new }
    ensures goes_on { GoesOn I.told I.size I.faults I.keeps i.old i.new }
{
    let base = base_of(home.shape, home.anchor);
    let first = root_anchor_point(i, home.shape, home.anchor, base)?;
    let gain = gain_of_roots(roots, others);
    if is_in_front(gain) {
        let root = &others[0];
        add_in_front(alloc, i, home, first, root)?;
        return Ok(true);
    }
    add_behind(alloc, i, home, base, first, roots, others, gain)
}

/// Whether a list of roots has one segment more than another.
fn gains(roots: &List<Root>, others: &List<Root>) -> bool
    ensures { IsTrue result ↔ RootsGain roots.now others.now }
{
    !matches!(
        gain_of_roots(roots.as_slice(), others.as_slice()),
        Gain::Not
    )
}

/// Puts the one segment that these roots of an anchor lack of those others, and answers whether it is one. Else nothing
/// is put. The anchor's whole chain is read before, so that one that is broken is named.
pub(crate) fn set_more<I: Intervals>(
    alloc: Global,
    i: &mut I,
    home: &Home<'_>,
    before: &List<Root>,
    after: &List<Root>,
) -> Result<bool, AnchorFault>
    requires anchor { home.now.anchor < anchor_count home.now.shape.now }
    requires types { AreTypes (I.size i.old) home.now.segments.now }
    requires form { are_storable home.now.segments.now after.now ≡ true }
    ensures grows { I.told i.old → IsInOrder home.now.shape.now (I.intervals i.old)
        → IfOk result (λ more. more ≡ true → Grows home.now.shape.now home.now.segments.now (I.intervals i.old)
        (I.intervals i.new) home.now.anchor after.now) }
    ensures stood { I.told i.old → IfOk result (λ more. more ≡ true
        → HasChain home.now.shape.now home.now.segments.now (I.intervals i.old) home.now.anchor) }
    ensures more { I.told i.old
        → HasRoots home.now.shape.now home.now.segments.now (I.intervals i.old) home.now.anchor before.now
        → RootsGain before.now after.now → IfOk result (λ more. more ≡ true) }
    ensures gains { IfOk result (λ more. more ≡ true → RootsGain before.now after.now) }
    ensures same { I.told i.old → IfOk result (λ more. more ≡ false → I.intervals i.new ≡ I.intervals i.old) }
    ensures names { I.told i.old → (ci : ℕ) → result ≡ Err (AnchorFault.Damaged ci)
        → Names home.now.shape.now home.now.segments.now (I.intervals i.old) home.now.anchor ci }
    ensures failed { IsErrOf result AnchorFault.Failed → Rose (I.faults i.old) (I.faults i.new) }
    ensures number { I.number i.old ≤ I.number i.new }
    ensures goes_on { GoesOn I.told I.size I.faults I.keeps i.old i.new }
{
    if !gains(before, after) {
        return Ok(false);
    }
    let Walked { roots, .. } = walk_anchor(
        alloc,
        i,
        home.shape,
        home.segments,
        home.anchor,
        false,
    )?;
    add_missing(alloc, i, home, roots.as_slice(), after.as_slice())
}
