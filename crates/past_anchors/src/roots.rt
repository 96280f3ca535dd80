//! The roots of anchors.
ghost use Rattle.fp_model.specs.Commit.{with_newest};
ghost use Rattle.fp_model.specs.Order.{key_in, root_key};
ghost use Rattle.fp_model.specs.State.{ascend, change_key, is_below, roots_at};
ghost use Rattle.fp_model.specs.declared.database.Msdb.{Msdb as MsdbOf};
ghost use Rattle.fp_model.specs.declared.database.Root.{Root as RootOf};
ghost use Rattle.key_order.specs.Places.{IsPlace};
ghost use Rattle.past_anchors.specs.Databases.{state_of};
ghost use Rattle.past_anchors.specs.inside.Places.{IsChangedAt};
ghost use Rattle.std.specs.Prelude.{◌≡◌, ◌≤◌, ◌<◌, IfSome, List as ListOf, OnOk, length, map, true};

use fp_model::{Dedb, List, Root, SegDef, SeqItem, key_of};
use std::alloc::AllocError;

/// The roots of an anchor.
pub(crate) fn roots_at(dedbs: &[Dedb], dedb: u8, anchor: u32) -> &[Root]
    ensures { (msdbs : ListOf MsdbOf) → result.now ≡ roots_at (state_of msdbs dedbs.now) dedb anchor }
{
    let dedb = usize::from(dedb);
    let anchor = anchor as usize;
    if dedb < dedbs.len() && anchor < dedbs[dedb].anchors.len() {
        dedbs[dedb].anchors.as_slice()[anchor].as_slice()
    } else {
        &[]
    }
}

/// The key of a root.
fn root_key<'a>(segments: &[SegDef], root: &'a Root) -> &'a [u8]
    ensures { result.now ≡ root_key segments.now root.now }
{
    let bytes = root.bytes.as_slice();
    match segments.first() {
        Some(def) => key_of(def.fields.as_slice(), bytes),
        None => &bytes[..0],
    }
}

/// How many of these roots have a lower key.
fn roots_below(segments: &[SegDef], roots: &[Root], key: &[u8]) -> usize
    ensures within { result ≤ length roots.now }
    ensures place { ascend (map (root_key segments.now) roots.now) ≡ true
        → IsPlace (root_key segments.now) key.now roots.now result }
{
    roots.partition_point(
        |root: &Root| -> bool
            ensures { result ≡ is_below (root_key segments.entry.now root.now) key.entry.now }
        { root_key(segments, root).cmp(key).is_lt() },
    )
}

/// Where the root of a key stands.
fn root_place(segments: &[SegDef], roots: &[Root], key: &[u8]) -> Option<usize>
    ensures within { IfSome result (λ at. at < length roots.now) }
    ensures place { ascend (map (root_key segments.now) roots.now) ≡ true → (change : RootOf → RootOf)
        → IsChangedAt (root_key segments.now) key.now change roots.now result }
{
    let at = roots_below(segments, roots, key);
    if at < roots.len() && root_key(segments, &roots[at]) == key {
        Some(at)
    } else {
        None
    }
}

/// Puts a sequential dependent in front of those of the root of a key, if it stands. It fails only for want of memory.
pub(crate) fn put_newest(
    roots: &mut List<Root>,
    segments: &[SegDef],
    key: &[u8],
    item: SeqItem,
) -> Result<(), AllocError>
    ensures { ascend (map (root_key segments.now) roots.old) ≡ true
        → OnOk result (roots.new ≡ change_key (root_key segments.now) key.now (with_newest item) roots.old) }
{
    match root_place(segments, roots.as_slice(), key) {
        Some(at) => roots.item_mut(at).seqs.insert(0, item),
        None => Ok(()),
    }
}
