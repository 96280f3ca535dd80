//! The roots of an anchor by their keys.

ghost use Rattle.std.specs.Prelude.{◌≡◌, ◌≤◌, IfNone, IfSome, length, map, true};
ghost use Rattle.key_order.specs.Places.{IsPlace};
ghost use Rattle.fp_model.specs.Order.{root_key};
ghost use Rattle.fp_model.specs.State.{ascend, is_below};
ghost use Rattle.fp_model.specs.Texts.{same_text};
ghost use Rattle.area_states.specs.inside.Keys.{IsRootOf, NoneHas};

use fp_model::{Root, SegDef, key_of};

/// The key of a root.
pub(crate) fn root_key<'a>(segments: &[SegDef], root: &'a Root) -> &'a [u8]
    ensures { result.now ≡ root_key segments.now root.now }
{
    if segments.is_empty() {
        return &root.bytes.as_slice()[..0];
    }
    key_of(segments[0].fields.as_slice(), root.bytes.as_slice())
}

/// Whether a root has this key.
fn has_key(segments: &[SegDef], root: &Root, key: &[u8]) -> bool
    ensures { result ≡ same_text (root_key segments.now root.now) key.now }
{
    root_key(segments, root) == key
}

/// How many of these roots have a lower key.
fn roots_below(segments: &[SegDef], roots: &[Root], key: &[u8]) -> usize
    ensures within { result ≤ length roots.now }
    ensures place { ascend (map (root_key segments.now) roots.now) ≡ true
        → IsPlace (root_key segments.now) key.now roots.now result }
{
    roots.partition_point(
        |root: &Root| -> bool
            ensures { result ≡ is_below (root_key segments.entry.now root.now) key.entry.now }
        { root_key(segments, root).cmp(key).is_lt() },
    )
}

/// The number of the root with a key, counted from 0; None where none has it. Where the keys don't ascend, one that has it
/// may be missed.
pub(crate) fn number_of(segments: &[SegDef], roots: &[Root], key: &[u8]) -> Option<usize>
    ensures found { IfSome result (IsRootOf segments.now key.now roots.now) }
    ensures none { ascend (map (root_key segments.now) roots.now) ≡ true
        → IfNone result (NoneHas segments.now key.now roots.now) }
{
    let number = roots_below(segments, roots, key);
    if number == roots.len() {
        return None;
    }
    if has_key(segments, &roots[number], key) {
        Some(number)
    } else {
        None
    }
}
