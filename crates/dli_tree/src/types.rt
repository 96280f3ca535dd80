//! Segment types: their keys, their children, and the line from the root down to one.
ghost use Rattle.fp_model.specs.Order.{child_types, is_child_of, key_in, line_to, parent_of, sequential_type};
ghost use Rattle.std.specs.List.{list_any};
ghost use Rattle.std.specs.Prelude.{◌≡◌, ◌==◌, ◌&&◌, ◌≤◌, length, not, position};
ghost use Rattle.dli_tree.specs.InOrder.{AreTypes};

use fp_model::{SegDef, key_of};

/// The key of a segment of a type.
pub fn key_in<'a>(segments: &[SegDef], segment: u8, bytes: &'a [u8]) -> &'a [u8]
    ensures { result.now ≡ key_in segments.now segment bytes.now }
{
    let at = usize::from(segment);
    if at < segments.len() {
        key_of(segments[at].fields.as_slice(), bytes)
    } else {
        &bytes[..0]
    }
}

/// The parent type of a type.
pub fn parent_of(segments: &[SegDef], segment: u8) -> Option<u8>
    ensures { result ≡ parent_of segments.now segment }
{
    let at = usize::from(segment);
    if at < segments.len() {
        segments[at].parent
    } else {
        None
    }
}

/// Whether this is a direct child type of a type.
pub(crate) fn is_direct_child(def: &SegDef, parent: u8) -> bool
    ensures { result ≡ (is_child_of parent def.now && not def.now.sequential) }
{
    match def.parent {
        Some(above) => above == parent && !def.sequential,
        None => false,
    }
}

/// The place of a type among the direct child types of another.
pub(crate) fn row_of(segments: &[SegDef], parent: u8, segment: u8) -> Option<usize>
    requires { AreTypes segments.now }
    ensures { result ≡ position (λ t. t == segment) (child_types segments.now parent) }
{
    let mut row = 0;
    for (child, def) in segments.iter().enumerate() {
        if is_direct_child(def, parent) {
            if child == usize::from(segment) {
                return Some(row);
            }
            row += 1;
        }
    }
    None
}

/// The sequential type.
pub(crate) fn sequential_type(segments: &[SegDef]) -> Option<u8>
    requires { AreTypes segments.now }
    ensures { result ≡ sequential_type segments.now }
{
    for (at, def) in segments.iter().enumerate() {
        if def.sequential {
            return Some(at as u8);
        }
    }
    None
}

/// Whether a type stands on the line from the root down to another.
pub fn is_on_line(segments: &[SegDef], segment: u8, last: u8) -> bool
    ensures { result ≡ list_any (λ t. t == segment) (line_to segments.now last) }
{
    let mut at = last;
    for _ in 0..segments.len() {
        if at == segment {
            return true;
        }
        match parent_of(segments, at) {
            Some(parent) => at = parent,
            None => return false,
        }
    }
    at == segment
}
