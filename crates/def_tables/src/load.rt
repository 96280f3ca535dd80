//! The segments that a main storage database has from the start: rows of texts, one for each field.
//!
//! A text of a field of characters is padded with blanks. Of another field it is a number: an optional minus sign
//! and digits, as many as the writer likes, judged by their value.
ghost use Rattle.std.specs.Prelude.{◌≡◌, ◌≤◌, ◌^◌, ◌++◌, ℕ, IfOk, IfSome, neg_ℤ, pos, OnOk, codes, map, min, option_map, replicate};
ghost use Rattle.std.specs.List.{list_all};
ghost use Rattle.toml.specs.Data.{get_member};
ghost use Rattle.toml.specs.View.{view, array_view, items_view, table_view};
ghost use Rattle.fp_model.specs.Numbers.{bytes_of};
ghost use Rattle.fp_model.specs.declared.definitions.FieldKind.{FieldKind};
ghost use Rattle.fp_model.specs.State.{key_of};
ghost use Rattle.fp_model.specs.Texts.{is_printable};
ghost use Rattle.def_tables.specs.Readings.{Gives, or_fault};
ghost use Rattle.def_tables.specs.Values.{bytes_if, each, digits_of, number_loaded, text_loaded, loaded_as, field_in, segment_in, as_segment, as_segments};
ghost use Rattle.def_tables.specs.inside.Values.{Appends};
ghost use Rattle.def_tables.specs.Keys.{all_once};
ghost use Rattle.def_tables.specs.Loads.{load_in, load_at};
ghost use Rattle.def_tables.specs.declared.fault.DefsFault.TheVariants as faults;

use crate::fault::{DefsFault, bad_field};
use crate::keys::member;
use crate::texts::all_once;
use fp_model::{Bytes, FieldDef, FieldKind, List};
use packed_dec::write_number;
use std::alloc::{AllocError, Global};
use toml::{Table, Value};

// More than any field holds: 31 digits are the most.
const TOO_GREAT: u128 = 10_000_000_000_000_000_000_000_000_000_000;

// The longest field of a number.
const LONGEST_NUMBER: usize = 16;

/// The number that digits are, where it is below `TOO_GREAT`; else that.
fn digits_of(text: &[u8]) -> Option<u128>
    ensures exact { result ≡ option_map (λ n. min n (10 ^ 31)) (digits_of text.now) }
    ensures small { IfSome result (λ n. n ≤ 10 ^ 31) }
{
    if text.is_empty() {
        return None;
    }
    let mut n: u128 = 0;
    for byte in text {
        if !byte.is_ascii_digit() {
            return None;
        }
        n = (n * 10 + u128::from(*byte - b'0')).min(TOO_GREAT);
    }
    Some(n)
}

/// A number of at most 31 digits, and one more.
fn plus(n: u128) -> i128
    requires { n ≤ 10 ^ 31 }
    ensures { result ≡ pos n }
{
    n as i128
}

/// Such a number below zero.
fn minus(n: u128) -> i128
    requires { n ≤ 10 ^ 31 }
    ensures { result ≡ neg_ℤ (pos n) }
{
    let n = n as i128;
    -n
}

/// Puts a number at the end, in a field of this kind and length that holds it.
fn append_number(
    out: &mut Vec<u8>,
    kind: FieldKind,
    size: usize,
    n: i128,
) -> Result<bool, AllocError>
    ensures { IfOk result (λ fits. Appends fits out.old.items out.new.items (bytes_of kind size n)) }
{
    if size > LONGEST_NUMBER {
        return Ok(false);
    }
    let mut room = [0u8; LONGEST_NUMBER];
    let field = &mut room[..size];
    if !write_number(kind, field, n) {
        return Ok(false);
    }
    out.extend_from_slice(field)?;
    Ok(true)
}

/// The number that a text is; of one that no field holds only its sign and that it is too great.
fn number_of_text(text: &[u8]) -> Option<i128>
    ensures { (kind : FieldKind) (size : ℕ) → bytes_if kind size result ≡ number_loaded kind size text.now }
{
    let (first, rest) = text.split_first()?;
    if *first == b'-' {
        return match digits_of(rest) {
            Some(n) => Some(minus(n)),
            None => None,
        };
    }
    match digits_of(text) {
        Some(n) => Some(plus(n)),
        None => None,
    }
}

/// Puts the number that a text is at the end.
fn append_number_text(
    out: &mut Vec<u8>,
    kind: FieldKind,
    size: usize,
    text: &[u8],
) -> Result<bool, AllocError>
    ensures { IfOk result (λ fits. Appends fits out.old.items out.new.items (number_loaded kind size text.now)) }
{
    match number_of_text(text) {
        Some(n) => append_number(out, kind, size, n),
        None => Ok(false),
    }
}

/// Whether all bytes of a text are printable.
fn is_printable(text: &[u8]) -> bool
    ensures { result ≡ list_all is_printable text.now }
{
    text.iter().all(|byte| matches!(*byte, b' '..=b'~'))
}

/// Puts blanks at the end.
fn append_blanks(out: &mut Vec<u8>, n: usize) -> Result<(), AllocError>
    ensures { OnOk result (out.new.items ≡ out.old.items ++ replicate n 32) }
{
    for _ in 0..n {
        out.push(b' ')?;
    }
    Ok(())
}

/// Puts a text at the end, and blanks behind it up to the field's length.
fn append_text(out: &mut Vec<u8>, size: usize, text: &[u8]) -> Result<bool, AllocError>
    ensures { IfOk result (λ fits. Appends fits out.old.items out.new.items (text_loaded size text.now)) }
{
    if text.len() > size || !is_printable(text) {
        return Ok(false);
    }
    out.extend_from_slice(text)?;
    append_blanks(out, size - text.len())?;
    Ok(true)
}

/// Puts what a text says of a field at the end.
#[tactic(auto, unfolding(crate::specs::Values::loaded_as))]
fn append_field(
    out: &mut Vec<u8>,
    kind: FieldKind,
    size: u16,
    text: &[u8],
) -> Result<bool, AllocError>
    ensures { IfOk result (λ fits. Appends fits out.old.items out.new.items (loaded_as kind size text.now)) }
{
    match kind {
        FieldKind::C => append_text(out, usize::from(size), text),
        FieldKind::X => append_number_text(out, kind, usize::from(size), text),
        FieldKind::H => append_number_text(out, kind, usize::from(size), text),
        FieldKind::F => append_number_text(out, kind, usize::from(size), text),
        FieldKind::P => append_number_text(out, kind, usize::from(size), text),
    }
}

/// Puts what a value says of a field at the end.
#[tactic(auto, unfolding(crate::specs::Values::field_in))]
fn append_value(out: &mut Vec<u8>, field: &FieldDef, value: &Value) -> Result<bool, AllocError>
    ensures { IfOk result (λ fits. Appends fits out.old.items out.new.items (field_in field.now (view value.now))) }
{
    match value.as_str() {
        Some(text) => append_field(out, field.kind, field.length, text.as_bytes()),
        None => Ok(false),
    }
}

/// The segment that a row is, if it is one.
fn segment_in(
    alloc: Global,
    fields: &[FieldDef],
    texts: &[Value],
) -> Result<Option<Bytes>, AllocError>
    ensures { IfOk result (λ segment. segment ≡ segment_in fields.now (items_view texts.now)) }
{
    if texts.len() != fields.len() {
        return Ok(None);
    }
    let mut segment = Vec::new(alloc);
    for i in 0..fields.len() {
        if !append_value(&mut segment, &fields[i], &texts[i])? {
            return Ok(None);
        }
    }
    Ok(Some(Bytes::from_vec(segment)))
}

/// The segment that a value is, if it is one.
#[tactic(auto, unfolding(crate::specs::Values::as_segment))]
fn as_segment(
    alloc: Global,
    fields: &[FieldDef],
    value: &Value,
) -> Result<Option<Bytes>, AllocError>
    ensures { IfOk result (λ segment. segment ≡ as_segment fields.now (view value.now)) }
{
    match value.as_array() {
        Some(texts) => segment_in(alloc, fields, texts.as_slice()),
        None => Ok(None),
    }
}

/// The segments that the items of an array are.
fn segments_of(
    alloc: Global,
    fields: &[FieldDef],
    rows: &Vec<Value>,
) -> Result<List<Bytes>, DefsFault>
    ensures { Gives (λ load. load) result (or_fault (faults.BadField (codes "load"))
        (each (as_segment fields.now) (array_view rows.now))) }
{
    let mut load = List::new(alloc);
    for row in rows {
        let Some(segment) = as_segment(alloc, fields, row)? else {
            return Err(bad_field(alloc, "load"));
        };
        load.push(segment)?;
    }
    Ok(load)
}

/// The segments that the items of a value are.
#[tactic(auto, unfolding(crate::specs::Values::as_segments))]
fn segments_in(alloc: Global, fields: &[FieldDef], value: &Value) -> Result<List<Bytes>, DefsFault>
    ensures { Gives (λ load. load) result (or_fault (faults.BadField (codes "load"))
        (as_segments fields.now (view value.now))) }
{
    match value.as_array() {
        Some(rows) => segments_of(alloc, fields, rows),
        None => Err(bad_field(alloc, "load")),
    }
}

/// Refuses a segment whose key occurred before.
fn keys_once(alloc: Global, fields: &[FieldDef], load: &List<Bytes>) -> Result<(), DefsFault>
    ensures { Gives (λ u. u) result (all_once (map (key_of fields.now) load.now)) }
{
    let size = match fields.first() {
        Some(field) => usize::from(field.length),
        None => 0,
    };
    let mut keys = Vec::new(alloc);
    for segment in load.as_slice() {
        let bytes = segment.as_slice();
        if keys.push(&bytes[..size.min(bytes.len())]).is_err() {
            return Err(DefsFault::Memory);
        }
    }
    all_once(alloc, &keys)
}

/// The segments of a load, with keys that differ.
#[tactic(auto, unfolding(crate::specs::Loads::load_in))]
fn load_in(alloc: Global, fields: &[FieldDef], value: &Value) -> Result<List<Bytes>, DefsFault>
    ensures { Gives (λ load. load) result (load_in fields.now (view value.now)) }
{
    let load = segments_in(alloc, fields, value)?;
    keys_once(alloc, fields, &load)?;
    Ok(load)
}

/// The segments that a table loads, none where it has no such key: `BadField` where a row isn't a segment with these
/// fields, `Twice` where a key occurred before.
#[tactic(auto, unfolding(crate::specs::Loads::load_at))]
pub fn load_at(alloc: Global, fields: &[FieldDef], table: &Table) -> Result<List<Bytes>, DefsFault>
    ensures exact { Gives (λ load. load) result (load_at fields.now (table_view table.now)) }
{
    match member(table, "load") {
        Some(value) => load_in(alloc, fields, value),
        None => Ok(List::new(alloc)),
    }
}
