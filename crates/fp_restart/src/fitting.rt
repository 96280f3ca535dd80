//! Whether the items of a group may be applied.
ghost use Rattle.fp_model.specs.Items.{FitsMsdb, IsAreaInterval, IsFit, area_sizes, items_of};
ghost use Rattle.fp_restart.specs.inside.Begun.{Begins, Judges};
ghost use Rattle.fp_model.specs.State.{first_area_set};
ghost use Rattle.std.specs.List.{AllByRecursion};
ghost use Rattle.std.specs.Prelude.{◌≡◌, ◌+◌, ◌*◌, ◌^◌, ◌≤◌, ◌-◌, ◌∷◌, [], None, Some, IfNone, IfOk, IfSome, OnSome, false, length, slice_get, take, true};

use crate::begun::Begun;
use fp_model::{Bytes, Defs, Entry, Item, MsdbDef, key_length};
use std::alloc::AllocError;

// Where the last interval of an area ends at the latest.
const LIMIT: u128 = 1 << 62;

// The data set of the first area.
const FIRST_AREA: u16 = 3;

// Whether the items of these entries may be applied behind the items so far. Where they may, the intervals are those
// that all of these name; else they are to be thrown away.
pub(crate) fn are_fit(defs: &Defs, begun: &mut Begun, entries: &[Entry]) -> Result<bool, AllocError>
    ensures judged { IfOk result (Judges defs.now begun.old begun.new (items_of entries.now)) }
    ensures each { IfOk result (λ fit. fit ≡ true → AllByRecursion (IsFit defs.now) (items_of entries.now)) }
{
    for entry in entries {
        if !items_fit(defs, begun, entry.items.as_slice())? {
            return Ok(false);
        }
    }
    Ok(true)
}

// Whether items may be applied behind the items so far.
fn items_fit(defs: &Defs, begun: &mut Begun, items: &[Item]) -> Result<bool, AllocError>
    ensures judged { IfOk result (Judges defs.now begun.old begun.new items.now) }
    ensures each { IfOk result (λ fit. fit ≡ true → AllByRecursion (IsFit defs.now) items.now) }
{
    for item in items {
        if !follows(defs, begun, item)? {
            return Ok(false);
        }
    }
    Ok(true)
}

// Whether an item may be applied behind the items so far.
fn follows(defs: &Defs, begun: &mut Begun, item: &Item) -> Result<bool, AllocError>
    ensures judged { IfOk result (Judges defs.now begun.old begun.new (item.now ∷ [])) }
    ensures each { IfOk result (λ fit. fit ≡ true → IsFit defs.now item.now) }
{
    if !is_fit(defs, item) {
        return Ok(false);
    }
    begins(begun, item)
}

// Whether an item begins its interval, or finds it begun; one of a segment has none.
fn begins(begun: &mut Begun, item: &Item) -> Result<bool, AllocError>
    ensures { IfOk result (Begins begun.old begun.new item.now) }
{
    match item {
        Item::Segment { .. } => Ok(true),
        Item::Image { set, ci, .. } => {
            begun.put(*set, *ci)?;
            Ok(true)
        }
        Item::Range { set, ci, .. } => Ok(begun.has(*set, *ci)),
    }
}

// Whether restart may apply an item.
fn is_fit(defs: &Defs, item: &Item) -> bool
    ensures fits { result ≡ true → IsFit defs.now item.now }
    ensures unfit { result ≡ false → ¬ (IsFit defs.now item.now) }
{
    match item {
        Item::Segment { msdb, key, bytes } => match defs.msdbs.get(*msdb as usize) {
            Some(def) => fits_msdb(def, key, bytes),
            None => false,
        },
        Item::Image { set, ci, bytes } => is_area_interval(defs, *set, *ci, bytes.len()),
        Item::Range { set, ci, at, bytes } => match set_size(defs, *set) {
            Some(size) => { ends_within(*ci, size as usize) && lies_within(*at, bytes.len(), size) }
            None => false,
        },
    }
}

// Whether an area has an interval of this number and size.
fn is_area_interval(defs: &Defs, set: u16, ci: u64, len: usize) -> bool
    ensures fits { result ≡ true → IsAreaInterval defs.now set ci len }
    ensures unfit { result ≡ false → ¬ (IsAreaInterval defs.now set ci len) }
{
    is_size(set_size(defs, set), len) && ends_within(ci, len)
}

// The size of the intervals of a data set, where it is an area's.
fn set_size(defs: &Defs, set: u16) -> Option<u16>
    ensures size { IfSome result (λ size. slice_get (area_sizes defs.now) (set - first_area_set) ≡ Some size) }
    ensures is_area { OnSome result (first_area_set ≤ set) }
    ensures none { IfNone result (first_area_set ≤ set
        → slice_get (area_sizes defs.now) (set - first_area_set) ≡ None) }
{
    if set < FIRST_AREA {
        return None;
    }
    area_size(defs, (set - FIRST_AREA) as usize)
}

// Whether a segment is one that its database may have: none at all, or one of the defined length under its key.
fn fits_msdb(def: &MsdbDef, key: &Bytes, bytes: &Bytes) -> bool
    ensures fits { result ≡ true → FitsMsdb def.now key.now bytes.now }
    ensures unfit { result ≡ false → ¬ (FitsMsdb def.now key.now bytes.now) }
{
    if key.len() != usize::from(key_length(def.fields.as_slice())) {
        return false;
    }
    if bytes.is_empty() {
        return true;
    }
    bytes.len() == def.length as usize && has_key(bytes.as_slice(), key.as_slice())
}

// Whether a segment begins with a key.
fn has_key(segment: &[u8], key: &[u8]) -> bool
    ensures is { result ≡ true → take (length key.now) segment.now ≡ key.now }
    ensures not { result ≡ false → ¬ (take (length key.now) segment.now ≡ key.now) }
{
    start_of(segment, key.len()) == key
}

// So many bytes at the start of a segment, or all where there are fewer.
fn start_of(segment: &[u8], count: usize) -> &[u8]
    ensures { result.now ≡ take count segment.now }
{
    &segment[..count.min(segment.len())]
}

// The size of the intervals of an area, by its number, counted from 0 through the databases. None where there is no
// such area.
fn area_size(defs: &Defs, number: usize) -> Option<u16>
    ensures { result ≡ slice_get (area_sizes defs.now) number }
{
    let mut left = number;
    for dedb in defs.dedbs.as_slice() {
        if left < dedb.areas.len() {
            return Some(dedb.ci);
        }
        left -= dedb.areas.len();
    }
    None
}

// Whether an area has intervals of this size.
fn is_size(size: Option<u16>, len: usize) -> bool
    ensures is { result ≡ true → size ≡ Some len }
    ensures not { result ≡ false → ¬ (size ≡ Some len) }
{
    match size {
        Some(size) => size as usize == len,
        None => false,
    }
}

// Whether an interval of this number and size ends where an area may.
fn ends_within(ci: u64, len: usize) -> bool
    ensures within { result ≡ true → (ci + 1) * len ≤ 2 ^ 62 }
    ensures past { result ≡ false → ¬ ((ci + 1) * len ≤ 2 ^ 62) }
{
    (ci as u128 + 1) * len as u128 <= LIMIT
}

// Whether so many bytes from a place on lie within an interval of this size.
fn lies_within(at: u16, len: usize, size: u16) -> bool
    ensures within { result ≡ true → at + len ≤ size }
    ensures past { result ≡ false → ¬ (at + len ≤ size) }
{
    len <= usize::from(size) && usize::from(at) <= usize::from(size) - len
}
