//! An anchor is given other roots.
//!
//! Each new segment keeps the element that it had below its parent's, if it had one. The other elements are given back
//! before any room is looked for. Then the roots are built from the last to the first, and at the end the root anchor
//! point is put. An element that says the same as before isn't written.

ghost use Rattle.std.specs.Prelude.{◌≡◌, ◌≢◌, ◌<◌, ◌≤◌, [], ℕ, List, Err, OnOk, IsErrOf, true};
ghost use Rattle.ci_space.specs.Calls.{GoesOn};
ghost use Rattle.fp_lists.specs.Faults.{Rose};
ghost use Rattle.ci_overflow.specs.Lists.{IsInOrder};
ghost use Rattle.root_anchor.specs.Chains.{IsChain, anchor_count};
ghost use Rattle.root_anchor.specs.Damage.{ChainFails};
ghost use Rattle.root_anchor.specs.Faults.{ComesTo, FaultComes, ListsFail};
ghost use Rattle.root_anchor.specs.Formed.{IsFormed, HasChain, HasRoots, NewAreOwn};
ghost use Rattle.root_anchor.specs.Keeping.{KeepsElements};
ghost use Rattle.anchor_elements.specs.Elements.{AreTypes};
ghost use Rattle.root_anchor.specs.Stored.{are_storable, ApartKeep, OthersKeep, KeepsSequential};
ghost use Rattle.root_anchor.specs.inside.Standing.{places_of};
ghost use Rattle.root_anchor.specs.inside.Storing.{Names, Stores};
ghost use Rattle.root_anchor.specs.inside.Rebuilding.{ArePlaced, Exchanges, AreGivable, IsRebuildable, Rebuilds, met_after, reserved, types_of, types_of_roots};

use crate::building::{Home, build_roots, fault_of};
use crate::holding::{Begun, begin, rest, settle};
use crate::plan::{Planned, plan_roots};
use crate::putting::put_root;
use crate::standing::{Standing, elements_of};
use crate::taking::take_places;
use anchor_elements::AnchorFault;
use ci_overflow::{SeenLinks, give_back_seen};
use ci_space::{Intervals, Shape};
use fp_model::{List, Root, SegDef};
use held_intervals::Held;
use std::alloc::Global;
use std::collections::VecDeque;

/// Gives these elements back, in this order: the intervals in front of an overflow list, in which a chain begins,
/// become empty first. The list is gone over once, in whatever order they become empty.
fn give_back_all<I: Intervals>(
    alloc: Global,
    i: &mut I,
    shape: &Shape,
    elements: &[Standing],
) -> Result<(), AnchorFault>
    ensures given { I.told i.old → AreGivable (I.intervals i.old) (places_of elements.now)
        → OnOk result (Exchanges shape.now (I.intervals i.old) (I.intervals i.new) (places_of elements.now) []) }
    ensures comes { I.told i.old → (anchor : ℕ) → OnOk result
        (ComesTo shape.now anchor (places_of elements.now) (I.intervals i.old) (I.intervals i.new)) }
    ensures sound { I.told i.old → IsInOrder shape.now (I.intervals i.old)
        → AreGivable (I.intervals i.old) (places_of elements.now) → (ci : ℕ) → result ≢ Err (AnchorFault.Damaged ci) }
    ensures lists { I.told i.old → AreGivable (I.intervals i.old) (places_of elements.now) → (anchor ci : ℕ)
        → result ≡ Err (AnchorFault.Damaged ci)
        → FaultComes shape.now anchor (places_of elements.now) (I.intervals i.old) ci }
    ensures failed { IsErrOf result AnchorFault.Failed → Rose (I.faults i.old) (I.faults i.new) }
    ensures number { I.number i.new ≡ I.number i.old }
    ensures goes_on { GoesOn I.told I.size I.faults I.keeps i.old i.new }
{
    let mut seen = SeenLinks::new(alloc);
    for element in elements {
        match give_back_seen(i, shape, element.at.0, element.at.1, &mut seen) {
            Ok(()) => {}
            Err(fault) => return Err(fault_of(fault)),
        }
    }
    Ok(())
}

/// Gives an anchor roots in the places that are planned for them and in new ones; the rest of what it had is given
/// back before.
fn rebuild<I: Intervals>(
    alloc: Global,
    i: &mut I,
    home: &Home<'_>,
    plan: &mut VecDeque<Planned>,
    rest: &[Standing],
    roots: &List<Root>,
) -> Result<(), AnchorFault>
    requires anchor { home.now.anchor < anchor_count home.now.shape.now }
    requires types { AreTypes (I.size i.old) home.now.segments.now }
    requires roots { are_storable home.now.segments.now roots.now ≡ true }
    requires kinds { types_of plan.old.items ≡ types_of_roots home.now.segments.now roots.now }
    ensures rebuilt { I.told i.old → IsRebuildable home.now.shape.now home.now.segments.now (I.intervals i.old)
        home.now.anchor plan.old.items rest.now roots.now
        → OnOk result (Rebuilds home.now.shape.now home.now.segments.now (I.intervals i.old) (I.intervals i.new)
        home.now.anchor plan.old.items rest.now roots.now) }
    ensures kept { I.told i.old → IsInOrder home.now.shape.now (I.intervals i.old)
        → IsRebuildable home.now.shape.now home.now.segments.now (I.intervals i.old) home.now.anchor plan.old.items
        rest.now roots.now → ArePlaced plan.old.items
        → OnOk result (IsChain home.now.shape.now home.now.segments.now (I.intervals i.new) home.now.anchor roots.now
        (met_after (reserved plan.old.items) [])) }
    ensures sound { I.told i.old → IsInOrder home.now.shape.now (I.intervals i.old)
        → IsRebuildable home.now.shape.now home.now.segments.now (I.intervals i.old) home.now.anchor plan.old.items
        rest.now roots.now → (ci : ℕ) → result ≢ Err (AnchorFault.Damaged ci) }
    ensures lists { I.told i.old → IsRebuildable home.now.shape.now home.now.segments.now (I.intervals i.old)
        home.now.anchor plan.old.items rest.now roots.now → (ci : ℕ) → result ≡ Err (AnchorFault.Damaged ci)
        → FaultComes home.now.shape.now home.now.anchor (places_of rest.now) (I.intervals i.old) ci }
    ensures failed { IsErrOf result AnchorFault.Failed → Rose (I.faults i.old) (I.faults i.new) }
    ensures number { I.number i.old ≤ I.number i.new }
    ensures goes_on { GoesOn I.told I.size I.faults I.keeps i.old i.new }
{
    give_back_all(alloc, i, home.shape, rest)?;
    let mut taken = take_places(alloc, i, home, plan)?;
    let first = build_roots(alloc, i, home, &mut taken, roots)?;
    put_root(i, home.shape, home.anchor, first)
}

/// Gives an anchor these roots, through intervals that are held.
pub(crate) fn store_held<I: Intervals>(
    alloc: Global,
    i: &mut I,
    shape: &Shape,
    segments: &List<SegDef>,
    anchor: u32,
    roots: &List<Root>,
) -> Result<(), AnchorFault>
    requires anchor { anchor < anchor_count shape.now }
    requires types { AreTypes (I.size i.old) segments.now }
    requires roots { are_storable segments.now roots.now ≡ true }
    ensures stores { I.told i.old → OnOk result (Stores shape.now segments.now (I.intervals i.old) (I.intervals i.new)
        anchor roots.now) }
    ensures names { I.told i.old → (ci : ℕ) → result ≡ Err (AnchorFault.Damaged ci)
        → Names shape.now segments.now (I.intervals i.old) anchor ci }
    ensures failed { IsErrOf result AnchorFault.Failed → Rose (I.faults i.old) (I.faults i.new) }
    ensures number { I.number i.old ≤ I.number i.new }
    ensures goes_on { GoesOn I.told I.size I.faults I.keeps i.old i.new }
{
    let mut standing = elements_of(alloc, i, shape, segments, anchor)?;
    let mut plan = plan_roots(alloc, segments, &mut standing, roots)?;
    let home = Home {
        shape,
        segments,
        anchor,
    };
    rebuild(alloc, i, &home, &mut plan, standing.as_slice(), roots)
}

/// Gives an anchor these roots: through intervals that are held, and those that changed are put at the end.
fn store_and_put<I: Intervals>(
    alloc: Global,
    i: &mut I,
    shape: &Shape,
    segments: &List<SegDef>,
    anchor: u32,
    roots: &List<Root>,
) -> Result<(), AnchorFault>
    requires anchor { anchor < anchor_count shape.now }
    requires types { AreTypes (I.size i.old) segments.now }
    requires roots { are_storable segments.now roots.now ≡ true }
    ensures stores { I.told i.old → OnOk result (Stores shape.now segments.now (I.intervals i.old) (I.intervals i.new)
        anchor roots.now) }
    ensures names { I.told i.old → (ci : ℕ) → result ≡ Err (AnchorFault.Damaged ci)
        → Names shape.now segments.now (I.intervals i.old) anchor ci }
    ensures failed { IsErrOf result AnchorFault.Failed → Rose (I.faults i.old) (I.faults i.new) }
    ensures number { I.number i.old ≤ I.number i.new }
    ensures goes_on { GoesOn I.told I.size I.faults I.keeps i.old i.new }
{
    let Begun { size, read } = begin(alloc, i, shape, anchor)?;
    let mut held = Held::new(alloc, i, size, read);
    let stored = store_held(alloc, &mut held, shape, segments, anchor, roots);
    let Held {
        alloc: _,
        under,
        size: _,
        read: _,
        changed,
    } = held;
    let result = settle(under, changed, stored);
    rest(under);
    result
}

/// Gives an anchor these roots, in this order: `load` gives just them afterwards. A root's sequential list is its
/// newest serial alone, in an item without bytes, or none. An anchor is counted from 0 within its area.
///
/// The root anchor point, pointers and segments are written where they change. Elements that no segment keeps are given
/// back before room is looked for.
///
/// `Damaged` names the interval that is damaged, where the anchor's chain is broken, and else one that is at fault in the
/// overflow lists; in a formed area it never comes.
/// `Failed` comes only with what holds the intervals. After a fault what holds them is thrown away.
pub fn store<I: Intervals>(
    alloc: Global,
    i: &mut I,
    shape: &Shape,
    segments: &List<SegDef>,
    anchor: u32,
    roots: &List<Root>,
) -> Result<(), AnchorFault>
    requires anchor { anchor < anchor_count shape.now }
    requires types { AreTypes (I.size i.old) segments.now }
    requires roots { are_storable segments.now roots.now ≡ true }

    // In a formed area this anchor has these roots, all others keep theirs, and the area is formed again. In any area
    // in order each anchor keeps its roots that shares no element with this one, new elements are in the anchor's own
    // unit of work, and where no segment comes or goes, each stays in its element.
    ensures stored { I.told i.old → IsFormed shape.now segments.now (I.intervals i.old)
        → OnOk result (HasRoots shape.now segments.now (I.intervals i.new) anchor roots.now) }
    ensures others { I.told i.old → IsFormed shape.now segments.now (I.intervals i.old)
        → OnOk result (OthersKeep shape.now segments.now (I.intervals i.old) (I.intervals i.new) anchor) }
    ensures apart { I.told i.old → IsInOrder shape.now (I.intervals i.old)
        → OnOk result (ApartKeep shape.now segments.now (I.intervals i.old) (I.intervals i.new) anchor) }
    ensures own { I.told i.old → IsInOrder shape.now (I.intervals i.old)
        → OnOk result (NewAreOwn shape.now segments.now (I.intervals i.old) (I.intervals i.new) anchor) }
    ensures keep { I.told i.old → IsInOrder shape.now (I.intervals i.old)
        → OnOk result (KeepsElements shape.now segments.now (I.intervals i.old) (I.intervals i.new) anchor roots.now) }
    ensures sequential { I.told i.old → IsFormed shape.now segments.now (I.intervals i.old)
        → OnOk result (KeepsSequential shape.now (I.intervals i.old) (I.intervals i.new)) }
    ensures formed { I.told i.old → IsFormed shape.now segments.now (I.intervals i.old)
        → OnOk result (IsFormed shape.now segments.now (I.intervals i.new)) }

    // Where the area is in order and the anchor's chain stands, nothing is damaged.
    ensures sound { I.told i.old → IsInOrder shape.now (I.intervals i.old)
        → HasChain shape.now segments.now (I.intervals i.old) anchor → (ci : ℕ)
        → result ≢ Err (AnchorFault.Damaged ci) }

    // Where its chain is broken, the interval that is damaged is named, and `Ok` doesn't come. Where it stands, the one
    // is named that is at fault in the overflow lists, as they are or as they become while the anchor is stored.
    ensures damaged { I.told i.old → ¬ HasChain shape.now segments.now (I.intervals i.old) anchor → (ci : ℕ)
        → result ≡ Err (AnchorFault.Damaged ci) → ChainFails shape.now segments.now (I.intervals i.old) anchor ci }
    ensures lists { I.told i.old → HasChain shape.now segments.now (I.intervals i.old) anchor → (ci : ℕ)
        → result ≡ Err (AnchorFault.Damaged ci) → ListsFail shape.now segments.now (I.intervals i.old) anchor ci }
    ensures stood { I.told i.old → OnOk result (HasChain shape.now segments.now (I.intervals i.old) anchor) }

    // It fails only with what holds the intervals.
    ensures failed { IsErrOf result AnchorFault.Failed → Rose (I.faults i.old) (I.faults i.new) }

    // What stays, whatever the answer is.
    ensures number { I.number i.old ≤ I.number i.new }
    ensures goes_on { GoesOn I.told I.size I.faults I.keeps i.old i.new }
{
    store_and_put(alloc, i, shape, segments, anchor, roots)
}
