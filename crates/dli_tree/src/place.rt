//! Roots and twins by their keys: where a key stands among them.
ghost use Rattle.dli_tree.specs.inside.Changes.{IsPlaced, IsWithin};
ghost use Rattle.key_order.specs.Places.{IsPlace};
ghost use Rattle.fp_model.specs.Order.{key_in, node_key, root_key};
ghost use Rattle.fp_model.specs.State.{ascend, is_below};
ghost use Rattle.fp_model.specs.declared.database.Node.{out-Node};
ghost use Rattle.std.specs.Prelude.{◌≡◌, ◌≤◌, length, map, true};

use crate::types::key_in;
use fp_model::{Node, Root, SegDef};

/// How many of these roots have a lower key.
pub(crate) fn roots_below(segments: &[SegDef], roots: &[Root], key: &[u8]) -> usize
    ensures within { result ≤ length roots.now }
    ensures place { ascend (map (root_key segments.now) roots.now) ≡ true
        → IsPlace (root_key segments.now) key.now roots.now result }
{
    roots.partition_point(
        |root: &Root| -> bool
            ensures { result ≡ is_below (key_in segments.entry.now 0 root.now.bytes) key.entry.now }
        { key_in(segments, 0, root.bytes.as_slice()).cmp(key).is_lt() },
    )
}

/// How many of these twins of a type have a lower key.
pub(crate) fn twins_below(segments: &[SegDef], segment: u8, twins: &[Node], key: &[u8]) -> usize
    ensures within { result ≤ length twins.now }
    ensures place { ascend (map (node_key segments.now segment) twins.now) ≡ true
        → IsPlace (node_key segments.now segment) key.now twins.now result }
{
    twins.partition_point(
        |node: &Node| -> bool
            ensures { result ≡ is_below (key_in segments.entry.now segment (out-Node node.now).bytes) key.entry.now }
        {
            key_in(segments, segment, node.bytes.as_slice())
                .cmp(key)
                .is_lt()
        },
    )
}

/// Where a key stands, or would stand.
#[derive(Clone, Copy)]
pub(crate) enum Place {
    Stands(usize),
    Lacks(usize),
}

/// Where the root of a key stands.
pub(crate) fn root_place(segments: &[SegDef], roots: &[Root], key: &[u8]) -> Place
    ensures within { IsWithin (length roots.now) result }
    ensures place { ascend (map (root_key segments.now) roots.now) ≡ true
        → IsPlaced (root_key segments.now) key.now roots.now result }
{
    let at = roots_below(segments, roots, key);
    if at == roots.len() {
        return Place::Lacks(at);
    }
    if key_in(segments, 0, roots[at].bytes.as_slice()) == key {
        Place::Stands(at)
    } else {
        Place::Lacks(at)
    }
}

/// Where the twin of a key stands.
pub(crate) fn twin_place(segments: &[SegDef], segment: u8, twins: &[Node], key: &[u8]) -> Place
    ensures within { IsWithin (length twins.now) result }
    ensures place { ascend (map (node_key segments.now segment) twins.now) ≡ true
        → IsPlaced (node_key segments.now segment) key.now twins.now result }
{
    let at = twins_below(segments, segment, twins, key);
    if at == twins.len() {
        return Place::Lacks(at);
    }
    if key_in(segments, segment, twins[at].bytes.as_slice()) == key {
        Place::Stands(at)
    } else {
        Place::Lacks(at)
    }
}
