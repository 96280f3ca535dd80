//! The end of a transaction: its changed anchors stand, and each of its sequential inserts gets a serial and stands in
//! front of those of its root.
ghost use Rattle.dedb_storm.specs.Bank.{AreKept};
ghost use Rattle.dli_calls.specs.Progress.{IsWorkOf};
ghost use Rattle.dli_tree.specs.InOrder.{any_ends};
ghost use Rattle.fp_model.specs.Commit.{with_newest};
ghost use Rattle.fp_model.specs.Order.{sequential_type};
ghost use Rattle.fp_model.specs.Shape.{are_newest_first, has_length, is_anchor};
ghost use Rattle.fp_model.specs.declared.database.SeqItem.{SeqItem as SeqItemOf};
ghost use Rattle.fp_model.specs.declared.definitions.DedbDef.{DedbDef as DefOf};
ghost use Rattle.std.specs.Option.{option_map_or};
ghost use Rattle.std.specs.Prelude.{◌≡◌, ◌<◌, ◌^◌, ◌++◌, ◌∷◌, [], IfOk, IfSome, List as ListOf, IsTrue, OnOk, false, length, true, ℕ};

use crate::bank::roots_at;
use crate::fault::{Fault, put};
use dli_calls::{Parts, Work};
use dli_tree::key_in;
use fp_model::{
    AnchorChange, AreaEnds, Bytes, DedbDef, Defs, List, Root, SegDef, SeqInsert, SeqItem,
};
use std::alloc::{AllocError, Global};
use std::mem;

/// The sequential part of an area keeps so many.
const CAPACITY: u64 = 4;

/// The anchors as they stand, those changed last first, and the ends of the sequential part. There is one for both
/// areas, since no scenario puts dependents into more than one.
#[derive(Drop)]
pub(crate) struct Standing {
    pub(crate) anchors: Vec<AnchorChange>,
    pub(crate) ends: AreaEnds,
}

/// No root and no sequential dependent.
pub(crate) fn empty(alloc: Global) -> Standing
    ensures { result.anchors.items ≡ [] }
{
    Standing {
        anchors: Vec::new(alloc),
        ends: AreaEnds { begin: 1, end: 1 },
    }
}

// ---- one dependent

/// Whether a serial is newer than those of a root.
fn is_newer(seqs: &[SeqItem], serial: u64) -> bool
    ensures { IsTrue result → are_newest_first 0 (2 ^ 64) seqs.now ≡ true
        → are_newest_first 0 serial seqs.now ≡ true }
{
    match seqs {
        [] => true,
        [newest, ..] => newest.serial < serial,
    }
}

/// Whether a segment is as long as the sequential type, which is the second, says.
fn is_dependent(types: &[SegDef], bytes: &[u8]) -> bool
    ensures { IsTrue result
        → option_map_or (λ type. has_length types.now type bytes.now) (sequential_type types.now) false ≡ true }
{
    match types {
        [root, second, ..] => {
            !root.sequential && second.sequential && bytes.len() == usize::from(second.length)
        }
        _ => false,
    }
}

/// Puts a dependent in front of those of a root.
fn put_newest(root: &mut Root, item: SeqItem) -> Result<(), AllocError>
    ensures { OnOk result (root.new ≡ with_newest item root.old) }
{
    root.seqs.insert(0, item)?;
    Ok(())
}

/// The place of the root of a key.
fn place_of(types: &[SegDef], roots: &[Root], key: &[u8]) -> Option<usize>
    ensures { IfSome result (λ at. at < length roots.now) }
{
    for (at, root) in roots.iter().enumerate() {
        if key_in(types, 0, root.bytes.as_slice()) == key {
            return Some(at);
        }
    }
    None
}

/// Puts a dependent in front of those of the root at a place. The anchor's roots keep their shape.
fn put_at(
    def: &DedbDef,
    roots: &mut List<Root>,
    at: usize,
    serial: u64,
    bytes: Bytes,
) -> Result<(), Fault>
    requires { at < length roots.old }
    ensures { OnOk result ((anchor : ℕ) → is_anchor def.now anchor any_ends roots.old ≡ true
        → is_anchor def.now anchor any_ends roots.new ≡ true) }
{
    let types = def.segments.as_slice();
    if !is_dependent(types, bytes.as_slice()) {
        return Err(Fault::Unfit);
    }
    if !is_newer(roots.as_slice()[at].seqs.as_slice(), serial) {
        return Err(Fault::Unfit);
    }
    put_newest(roots.item_mut(at), SeqItem { serial, bytes })?;
    Ok(())
}

// ---- the inserts of a transaction

/// Puts a change in front of others.
fn put_in_front(change: AnchorChange, others: &mut Vec<AnchorChange>) -> Result<(), AllocError>
    ensures { OnOk result (others.new.items ≡ change ∷ others.old.items) }
{
    others.insert(0, change)?;
    Ok(())
}

/// Puts the dependent of an insert, with a serial, in front of those of its root. The anchor's roots keep their shape.
fn put_insert(
    def: &DedbDef,
    roots: &mut List<Root>,
    insert: &SeqInsert,
    serial: u64,
) -> Result<(), Fault>
    ensures { OnOk result ((anchor : ℕ) → is_anchor def.now anchor any_ends roots.old ≡ true
        → is_anchor def.now anchor any_ends roots.new ≡ true) }
{
    let key = insert.key.as_slice();
    let Some(at) = place_of(def.segments.as_slice(), roots.as_slice(), key) else {
        return Err(Fault::Unfit);
    };
    let bytes = insert.bytes.copy()?;
    put_at(def, roots, at, serial, bytes)
}

/// An insert gets the next serial, and its dependent stands in front of those of its root.
fn number(
    alloc: Global,
    insert: &SeqInsert,
    standing: &mut Standing,
    defs: &Defs,
) -> Result<(), Fault>
    requires { AreKept defs.now.dedbs standing.old.anchors.items }
    ensures { IfOk result (λ done. AreKept defs.now.dedbs standing.new.anchors.items) }
{
    if defs.dedbs.is_empty() {
        return Err(Fault::Unfit);
    }
    let serial = standing.ends.end;
    let anchor = insert.anchor;
    let mut roots = roots_at(alloc, standing.anchors.as_slice(), anchor)?;
    put_insert(&defs.dedbs.as_slice()[0], &mut roots, insert, serial)?;
    let change = AnchorChange {
        dedb: 0,
        anchor,
        roots,
    };
    put_in_front(change, &mut standing.anchors)?;
    standing.ends.end = serial.wrapping_add(1);
    Ok(())
}

/// Each insert gets the next serial, in call order.
fn number_all(
    alloc: Global,
    inserts: &[SeqInsert],
    standing: &mut Standing,
    defs: &Defs,
) -> Result<(), Fault>
    requires { AreKept defs.now.dedbs standing.old.anchors.items }
    ensures { IfOk result (λ done. AreKept defs.now.dedbs standing.new.anchors.items) }
{
    for insert in inserts {
        number(alloc, insert, standing, defs)?;
    }
    Ok(())
}

// ---- the end

/// Puts the changed anchors of a transaction in front of those before.
fn put_all_in_front(
    changes: List<AnchorChange>,
    others: &mut Vec<AnchorChange>,
) -> Result<(), AllocError>
    ensures { OnOk result (others.new.items ≡ changes ++ others.old.items) }
{
    let mut all = changes.into_vec();
    all.append(others)?;
    put(others, all);
    Ok(())
}

/// Whether the sequential part has no room for so many more.
fn is_full(ends: AreaEnds, queued: usize) -> bool {
    ends.end
        .wrapping_sub(ends.begin)
        .wrapping_add(queued as u64)
        > CAPACITY
}

/// Settles what a transaction leaves, if the sequential part has room for its inserts, and says how many it had queued.
fn settle(
    alloc: Global,
    parts: &mut Parts,
    standing: &mut Standing,
    defs: &Defs,
) -> Result<usize, Fault>
    requires kept { AreKept defs.now.dedbs standing.old.anchors.items }
    requires left { AreKept defs.now.dedbs (parts.old.changes ++ standing.old.anchors.items) }

    ensures { IfOk result (λ queued. AreKept defs.now.dedbs standing.new.anchors.items) }
{
    let queued = parts.inserts.len();
    if is_full(standing.ends, queued) {
        return Ok(queued);
    }
    let changes = mem::replace(&mut parts.changes, List::new(alloc));
    put_all_in_front(changes, &mut standing.anchors)?;
    number_all(alloc, parts.inserts.as_slice(), standing, defs)?;
    Ok(queued)
}

/// Ends a transaction, and says how many sequential inserts it had queued. Where the sequential part has no room for
/// them nothing changes.
pub(crate) fn end(
    alloc: Global,
    work: Work,
    standing: &mut Standing,
    defs: &Defs,
) -> Result<usize, Fault>
    requires work { IsWorkOf defs.now work }
    requires kept { AreKept defs.now.dedbs standing.old.anchors.items }

    ensures { IfOk result (λ queued. AreKept defs.now.dedbs standing.new.anchors.items) }
{
    let mut parts = work.into_parts(alloc)?;
    settle(alloc, &mut parts, standing, defs)
}

// ---- a purge

/// Whether a root has dependents, the oldest with a serial below one.
fn is_old(root: &Root, begin: u64) -> bool {
    match root.seqs.as_slice() {
        [.., oldest] => oldest.serial < begin,
        [] => false,
    }
}

/// Drops the oldest dependent of a root, if there is one.
fn drop_oldest(root: &mut Root)
    ensures { (gone : ListOf SeqItemOf) × (root.old ≡ record root.new { seqs = root.new.seqs ++ gone }) }
{
    let _ = root.seqs.pop();
}

/// Drops the oldest dependent of the root at a place, if its serial is below one. The anchor's roots keep their shape.
fn drop_old_at(roots: &mut List<Root>, at: usize, begin: u64)
    ensures { (def : DefOf) (anchor : ℕ) → is_anchor def anchor any_ends roots.old ≡ true
        → is_anchor def anchor any_ends roots.new ≡ true }
{
    if at >= roots.len() {
        return;
    }
    if is_old(&roots.as_slice()[at], begin) {
        drop_oldest(roots.item_mut(at));
    }
}

/// The sequential part begins at a later serial, and the dependents of an anchor before that go. No root has more of
/// them than the part keeps.
pub(crate) fn purge(
    alloc: Global,
    anchor: u32,
    begin: u64,
    standing: &mut Standing,
    defs: &Defs,
) -> Result<(), Fault>
    requires { AreKept defs.now.dedbs standing.old.anchors.items }
    ensures { IfOk result (λ done. AreKept defs.now.dedbs standing.new.anchors.items) }
{
    let mut roots = roots_at(alloc, standing.anchors.as_slice(), anchor)?;
    for _ in 0..CAPACITY {
        for at in 0..roots.len() {
            drop_old_at(&mut roots, at, begin);
        }
    }
    let change = AnchorChange {
        dedb: 0,
        anchor,
        roots,
    };
    put_in_front(change, &mut standing.anchors)?;
    standing.ends.begin = begin;
    Ok(())
}
