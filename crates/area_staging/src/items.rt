//! The item of an interval that is other than it was.

ghost use Rattle.std.specs.Prelude.{◌≡◌, ◌≢◌, ◌-◌, ◌<◌, ◌≤◌, ℕ, length, get_or, take, drop, IfOk, IfSome, IfNone};
ghost use Rattle.fp_model.specs.declared.log.Item.TheVariants.{Image as ImageOf, Range as RangeOf};
ghost use Rattle.area_staging.specs.Items.{DiffersIn, IsChange};

use fp_lists::Bytes;
use fp_model::Item;
use std::alloc::{AllocError, Global};

/// The first place at which two runs of bytes differ, or their length.
fn first_difference(old: &[u8], new: &[u8]) -> usize
    requires { length old.now ≡ length new.now }
    ensures within { result ≤ length new.now }
    ensures below { (i : ℕ) → i < result → get_or old.now i 0 ≡ get_or new.now i 0 }
    ensures differs { result < length new.now → get_or old.now result 0 ≢ get_or new.now result 0 }
{
    let mut first = 0;
    while first < new.len() && old[first] == new[first] {
        first += 1;
    }
    first
}

/// The place from which on they agree, not before `first`.
fn last_difference(old: &[u8], new: &[u8], first: usize) -> usize
    requires same { length old.now ≡ length new.now }
    requires within { first ≤ length new.now }
    ensures from { first ≤ result }
    ensures within { result ≤ length new.now }
    ensures behind { (i : ℕ) → result ≤ i → get_or old.now i 0 ≡ get_or new.now i 0 }
    ensures differs { first < result → get_or old.now (result - 1) 0 ≢ get_or new.now (result - 1) 0 }
{
    let mut last = new.len();
    while last > first && old[last - 1] == new[last - 1] {
        last -= 1;
    }
    last
}

/// Where they differ.
fn difference(old: &[u8], new: &[u8]) -> Option<(usize, usize)>
    requires { length old.now ≡ length new.now }
    ensures some { IfSome result (λ range. DiffersIn old.now new.now range.0 range.1) }
    ensures none { IfNone result (new.now ≡ old.now) }
{
    let first = first_difference(old, new);
    let last = last_difference(old, new, first);
    if first < last {
        Some((first, last))
    } else {
        None
    }
}

/// A whole interval.
pub(crate) fn image_of(alloc: Global, set: u16, ci: u64, bytes: &[u8]) -> Result<Item, AllocError>
    ensures { IfOk result (λ item. item ≡ ImageOf set ci bytes.now) }
{
    Ok(Item::Image {
        set,
        ci,
        bytes: Bytes::from_slice(alloc, bytes)?,
    })
}

/// A part of an interval.
fn range_of(
    alloc: Global,
    set: u16,
    ci: u64,
    bytes: &[u8],
    first: usize,
    last: usize,
) -> Result<Item, AllocError>
    requires order { first < last }
    requires within { last ≤ length bytes.now }
    requires short { length bytes.now ≤ 4096 }
    ensures { IfOk result (λ item. item ≡ RangeOf set ci first (take (last - first) (drop first bytes.now))) }
{
    Ok(Item::Range {
        set,
        ci,
        at: first as u16,
        bytes: Bytes::from_slice(alloc, &bytes[first..last])?,
    })
}

/// The item of an interval that stood before, where its bytes are other than they were: its image where it has no item
/// since the mark, else the range of what differs.
pub fn item_of(
    alloc: Global,
    set: u16,
    ci: u64,
    imaged: bool,
    old: &[u8],
    new: &[u8],
) -> Result<Option<Item>, AllocError>
    requires same { length old.now ≡ length new.now }
    requires short { length new.now ≤ 4096 }
    ensures { IfOk result (IsChange imaged set ci old.now new.now) }
{
    let Some((first, last)) = difference(old, new) else {
        return Ok(None);
    };
    if imaged {
        Ok(Some(range_of(alloc, set, ci, new, first, last)?))
    } else {
        Ok(Some(image_of(alloc, set, ci, new)?))
    }
}
