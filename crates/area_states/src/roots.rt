//! Roots as an anchor keeps them: of a sequential list the newest serial alone.

ghost use Rattle.std.specs.Prelude.{◌≡◌, ◌⊎◌, ◌<◌, ℕ, IfOk, Some, map, slice_get, true};
ghost use Rattle.std.specs.List.{AllZip};
ghost use Rattle.root_anchor.specs.Chains.{newest};
ghost use Rattle.root_anchor.specs.Stored.{are_storable, is_newest, is_storable};
ghost use Rattle.area_states.specs.Changes.{kept_root};
ghost use Rattle.area_states.specs.inside.Keys.{HasSeqsAt, IsKeptAs, IsOwnOf, IsSerialFor};
ghost use Rattle.fp_model.specs.Order.{root_key};
ghost use Rattle.fp_model.specs.State.{ascend};
ghost use Rattle.fp_model.specs.declared.database.Root.{Root as RootOf};
ghost use Rattle.area_states.specs.States.{newest_serial};

use crate::keys::{number_of, root_key};
use fp_model::{Bytes, List, Node, Root, SegDef, SeqItem};
use std::alloc::{AllocError, Global};

/// The newest serial of a sequential list, 0 where it is empty.
pub(crate) fn newest_serial(items: &[SeqItem]) -> u64
    ensures { result ≡ newest_serial items.now }
{
    if items.is_empty() {
        return 0;
    }
    items[0].serial
}

/// A newest serial as a sequential list: an item without bytes, and none for 0.
fn newest(alloc: Global, serial: u64) -> Result<List<SeqItem>, AllocError>
    ensures { IfOk result (λ items. items ≡ newest serial) }
{
    let mut items = List::new(alloc);
    if serial != 0 {
        let bytes = Bytes::new(alloc);
        items.push(SeqItem { serial, bytes })?;
    }
    Ok(items)
}

/// The same children once more.
fn copy_children(groups: &List<List<Node>>) -> Result<List<List<Node>>, AllocError>
    ensures { IfOk result (λ copies. copies ≡ groups.now) }
{
    let mut children = groups.empty_like();
    for group in groups.as_slice() {
        let mut row = group.empty_like();
        for child in group.as_slice() {
            row.push(child.copy()?)?;
        }
        children.push(row)?;
    }
    Ok(children)
}

/// The newest serial that the root of the same key has, where it is below `begin`; else 0. Where roots ascend by key, the
/// root is found; else maybe none is.
fn purged_serial(segments: &[SegDef], before: &[Root], root: &Root, begin: u64) -> u64
    ensures below { (result ≡ 0) ⊎ (result < begin) }
    ensures form { are_storable segments.now before.now ≡ true → is_newest segments.now (newest result) ≡ true }
    ensures again { ascend (map (root_key segments.now) before.now) ≡ true → (number : ℕ) (other : RootOf)
        → slice_get before.now number ≡ Some other → root.now.bytes ≡ other.bytes
        → newest_serial other.seqs < begin → result ≡ newest_serial other.seqs }
{
    let Some(number) = number_of(segments, before, root_key(segments, root)) else {
        return 0;
    };
    let serial = newest_serial(before[number].seqs.as_slice());
    if serial < begin { serial } else { 0 }
}

/// The serial that stands for the sequential list of a root in an area with this begin.
fn serial_for(segments: &[SegDef], before: &[Root], root: &Root, begin: u64) -> u64
    ensures serial { IsSerialFor begin root.now.seqs result }
    ensures form { are_storable segments.now before.now ≡ true
        → is_newest segments.now (newest (newest_serial root.now.seqs)) ≡ true
        → is_newest segments.now (newest result) ≡ true }
    ensures again { ascend (map (root_key segments.now) before.now) ≡ true → (number : ℕ) (other : RootOf)
        → slice_get before.now number ≡ Some other → root.now.bytes ≡ other.bytes
        → IsSerialFor begin root.now.seqs (newest_serial other.seqs) → result ≡ newest_serial other.seqs }
{
    if root.seqs.is_empty() {
        return purged_serial(segments, before, root, begin);
    }
    newest_serial(root.seqs.as_slice())
}

/// A root as an anchor keeps it that has the roots `before`, in an area with this begin.
fn kept_root(
    alloc: Global,
    segments: &[SegDef],
    before: &[Root],
    root: &Root,
    begin: u64,
) -> Result<Root, AllocError>
    ensures kept { IfOk result (IsKeptAs begin root.now) }
    ensures form { are_storable segments.now before.now ≡ true → is_storable segments.now (kept_root root.now) ≡ true
        → IfOk result (λ kept. is_storable segments.now kept ≡ true) }
    ensures again { ascend (map (root_key segments.now) before.now) ≡ true → (number : ℕ) (other : RootOf)
        → slice_get before.now number ≡ Some other → IsOwnOf begin root.now other
        → IfOk result (λ kept. kept.seqs ≡ other.seqs) }
{
    let seqs = newest(alloc, serial_for(segments, before, root, begin))?;
    let bytes = root.bytes.copy()?;
    let children = copy_children(&root.children)?;
    Ok(Root {
        bytes,
        children,
        seqs,
    })
}

/// Roots as an anchor keeps them that has the roots `before`, in an area with this begin. Of each sequential list its
/// newest serial stays. For an empty one a serial that the root has already stays, where it is below begin: so a root
/// that isn't changed otherwise is stored as it is, where the keys of those that the anchor has ascend.
pub(crate) fn kept_roots(
    alloc: Global,
    segments: &List<SegDef>,
    before: &List<Root>,
    roots: &List<Root>,
    begin: u64,
) -> Result<List<Root>, AllocError>
    ensures kept { IfOk result (λ kept. AllZip (IsKeptAs begin) roots.now kept) }
    ensures form { are_storable segments.now before.now ≡ true
        → are_storable segments.now (map kept_root roots.now) ≡ true
        → IfOk result (λ kept. are_storable segments.now kept ≡ true) }
    ensures again { ascend (map (root_key segments.now) before.now) ≡ true → (number : ℕ) (root other : RootOf)
        → slice_get roots.now number ≡ Some root → slice_get before.now number ≡ Some other
        → IsOwnOf begin root other → IfOk result (λ kept. HasSeqsAt kept number other.seqs) }
{
    let mut kept = List::new(alloc);
    for root in roots.as_slice() {
        let one = kept_root(alloc, segments.as_slice(), before.as_slice(), root, begin)?;
        kept.push(one)?;
    }
    Ok(kept)
}
