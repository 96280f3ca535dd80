//! Segments and their fields: what a field holds as a text, and what a text is as the bytes of a field.
ghost use Rattle.std.specs.Prelude.{◌≡◌, ◌+◌, ◌≤◌, ◌++◌, [], IfErr, IfOk, None, Some, drop, length, replicate, take};
ghost use Rattle.fp_model.specs.Fsas as fsas;
ghost use Rattle.fp_model.specs.Fsas.{field_bytes, field_of, with_field};
ghost use Rattle.fp_model.specs.Numbers.{bytes_of, number};
ghost use Rattle.fp_model.specs.Values.{empty_field, empty_segment, fitted, fitted_key, layout_of, value_bytes, value_text};
ghost use Rattle.fp_model.specs.Texts.{padded};
ghost use Rattle.txn_values.specs.Fields.{field_filled};
ghost use Rattle.txn_values.specs.Giving.{Gives, GivesAs};
ghost use Rattle.txn_values.specs.declared.stop.Stop.TheVariants.{NoValue};
ghost use Rattle.txn_values.specs.inside.Giving.{PutsIn};
ghost use Rattle.txn_values.specs.Lending.{bytes_in};

use crate::lent::OperandText;
use crate::stop::Stop;
use crate::values::{decimal_text, number, without_blanks};
use fp_model::{Bytes, Defs, FieldDef, FieldKind, Name, key_length};
use packed_dec::{read_number, write_number};
use std::alloc::{AllocError, Global};

/// A segment type: its fields, and whether the first of them is a key.
#[derive(Clone, Copy)]
pub struct Layout<'a> {
    /// Its fields, in the order of the definitions.
    pub fields: &'a [FieldDef],
    /// Whether its first field is a key. A sequential segment has none.
    pub has_key: bool,
}

/// The segment type of a number in a database; a main storage database has one. `NoValue` where there is no such
/// database or type. Takes no memory.
pub fn layout_of(defs: &Defs, db: u8, type_number: u8) -> Result<Layout<'_>, Stop>
    ensures ok { IfOk result (λ layout. layout_of defs.now db type_number
        ≡ Some (record { fields = layout.fields.now; has_key = layout.has_key })) }
    ensures none { IfErr result (λ e. layout_of defs.now db type_number ≡ None) }
    ensures no_value { IfErr result (λ e. e ≡ NoValue) }
{
    let db = usize::from(db);
    if let Some(def) = defs.msdbs.get(db) {
        return Ok(Layout {
            fields: def.fields.as_slice(),
            has_key: true,
        });
    }
    let Some(def) = defs.dedbs.get(db.saturating_sub(defs.msdbs.len())) else {
        return Err(Stop::NoValue);
    };
    let Some(segment) = def.segments.get(usize::from(type_number)) else {
        return Err(Stop::NoValue);
    };
    Ok(Layout {
        fields: segment.fields.as_slice(),
        has_key: !segment.sequential,
    })
}

/// The first field of a name. `NoValue` where there is none. Takes no memory.
pub fn field_of(fields: &[FieldDef], name: &Name) -> Result<FieldDef, Stop>
    ensures exact { Gives result (field_of fields.now name.now.0) }
    ensures no_value { IfErr result (λ e. e ≡ NoValue) }
{
    for field in fields {
        if field.name == *name {
            return Ok(*field);
        }
    }
    Err(Stop::NoValue)
}

// The first bytes, as far as there are so many.
fn front(bytes: &[u8], count: usize) -> &[u8]
    ensures { result.now ≡ take count bytes.now }
{
    if count < bytes.len() {
        &bytes[..count]
    } else {
        bytes
    }
}

// What stands behind the first bytes.
fn behind(bytes: &[u8], count: usize) -> &[u8]
    ensures { result.now ≡ drop count bytes.now }
{
    if count < bytes.len() {
        &bytes[count..]
    } else {
        &[]
    }
}

/// The bytes of a field in a segment, as far as the segment has them.
pub fn field_bytes<'a>(field: &FieldDef, segment: &'a [u8]) -> &'a [u8]
    ensures exact { result.now ≡ field_bytes field.now segment.now }
{
    front(
        behind(segment, usize::from(field.at)),
        usize::from(field.length),
    )
}

// A segment with other bytes in a field. Fails only for want of memory.
fn with_field(
    alloc: Global,
    field: &FieldDef,
    bytes: &[u8],
    segment: &[u8],
) -> Result<Bytes, AllocError>
    ensures { IfOk result (λ new. new ≡ with_field field.now bytes.now segment.now) }
{
    let at = usize::from(field.at);
    let mut new = Bytes::from_slice(alloc, front(segment, at))?;
    new.append(bytes)?;
    new.append(behind(segment, at + bytes.len()))?;
    Ok(new)
}

// Whether a kind is characters.
fn is_text(kind: FieldKind) -> bool
    ensures { result ≡ fsas.is_text kind }
{
    matches!(kind, FieldKind::C)
}

// Puts a text into a field, with blanks behind it.
fn put_padded(held: &mut [u8], text: &[u8])
    requires { length text.now ≤ length held.old }
    ensures { held.new ≡ padded (length held.old) text.now }
{
    let (front, back) = held.split_at_mut(text.len());
    front.copy_from_slice(text);
    back.fill(b' ');
}

// Puts a text into a field, with blanks behind it, if it isn't longer.
fn put_text(held: &mut [u8], text: &[u8]) -> Result<(), Stop>
    ensures { PutsIn result held.new (fitted (length held.old) text.now) }
{
    if text.len() > held.len() {
        return Err(Stop::NoValue);
    }
    put_padded(held, text);
    Ok(())
}

// A text with blanks behind it, if it isn't longer than so many bytes.
fn fitted(alloc: Global, count: usize, text: &[u8]) -> Result<Bytes, Stop>
    ensures { Gives result (fitted count text.now) }
{
    if text.len() > count {
        return Err(Stop::NoValue);
    }
    let mut bytes = vec![in alloc; 0; count]?;
    put_padded(bytes.as_mut_slice(), text);
    Ok(Bytes::from_vec(bytes))
}

// A number as the bytes of a field of so many, if it fits.
fn number_bytes(alloc: Global, kind: FieldKind, count: usize, n: i128) -> Result<Bytes, Stop>
    ensures { Gives result (bytes_of kind count n) }
{
    let mut bytes = vec![in alloc; 0; count]?;
    if write_number(kind, bytes.as_mut_slice(), n) {
        Ok(Bytes::from_vec(bytes))
    } else {
        Err(Stop::NoValue)
    }
}

// Puts a number into a field, if it fits.
fn put_number(kind: FieldKind, held: &mut [u8], n: i128) -> Result<(), Stop>
    ensures { PutsIn result held.new (bytes_of kind (length held.old) n) }
{
    if write_number(kind, held, n) {
        Ok(())
    } else {
        Err(Stop::NoValue)
    }
}

// Puts a text into a field, as its value, if it fits.
fn put_value(field: &FieldDef, held: &mut [u8], text: &[u8]) -> Result<(), Stop>
    requires whole { length held.old ≡ field.now.length }
    ensures { PutsIn result held.new (value_bytes field.now text.now) }
{
    if is_text(field.kind) {
        put_text(held, text)
    } else {
        put_number(field.kind, held, number(text)?)
    }
}

// Puts a text into a field of a segment that has all of it, as its value, if it fits.
fn put_within(field: &FieldDef, segment: &mut [u8], text: &[u8]) -> Result<(), Stop>
    requires within { field.now.at + field.now.length ≤ length segment.old }
    ensures { PutsIn result segment.new (field_filled field.now text.now segment.old) }
{
    let at = usize::from(field.at);
    let end = at + usize::from(field.length);
    let held = &mut segment[at..end];
    put_value(field, held, text)
}

/// A segment with a text as the value of a field. `NoValue` where the text isn't a value of the field, as a number with
/// too many digits; `Memory` for want of memory. Takes none where the segment has all of the field.
pub fn fill_field(
    alloc: Global,
    field: &FieldDef,
    text: &[u8],
    segment: Bytes,
) -> Result<Bytes, Stop>
    ensures exact { Gives result (field_filled field.now text.now segment) }
{
    if usize::from(field.at) + usize::from(field.length) > segment.len() {
        let bytes = value_bytes(alloc, field, text)?;
        return Ok(with_field(alloc, field, bytes.as_slice(), segment.as_slice())?);
    }
    let mut bytes = segment.into_vec();
    put_within(field, bytes.as_mut_slice(), text)?;
    Ok(Bytes::from_vec(bytes))
}

// A text as the bytes of a field, if it fits.
fn value_bytes(alloc: Global, field: &FieldDef, text: &[u8]) -> Result<Bytes, Stop>
    ensures { Gives result (value_bytes field.now text.now) }
{
    let count = usize::from(field.length);
    if is_text(field.kind) {
        fitted(alloc, count, text)
    } else {
        number_bytes(alloc, field.kind, count, number(text)?)
    }
}

// A field before a value is put there.
fn empty_field(alloc: Global, field: &FieldDef) -> Result<Bytes, Stop>
    ensures { Gives result (empty_field field.now) }
{
    let count = usize::from(field.length);
    if is_text(field.kind) {
        fitted(alloc, count, &[])
    } else {
        number_bytes(alloc, field.kind, count, 0)
    }
}

/// The bytes of a field as a text: characters without the blanks at their end, lent, or a number, made. `NoValue` where
/// they are to be a number and aren't; `Memory` for want of memory.
pub fn value_text<'a>(
    alloc: Global,
    field: &FieldDef,
    bytes: &'a [u8],
) -> Result<OperandText<'a>, Stop>
    ensures exact { GivesAs bytes_in result (value_text field.now bytes.now) }
{
    if is_text(field.kind) {
        return Ok(OperandText::Lent(without_blanks(bytes)));
    }
    match read_number(field.kind, bytes) {
        Some(n) => Ok(OperandText::Made(decimal_text(alloc, n)?)),
        None => Err(Stop::NoValue),
    }
}

// How many bytes fields have.
fn size_of(fields: &[FieldDef]) -> usize {
    let mut size: usize = 0;
    for field in fields {
        size = size.saturating_add(usize::from(field.length));
    }
    size
}

/// A segment before values are put there: blanks and zeros. `NoValue` where a field has no form of zero; `Memory` for
/// want of memory.
pub fn empty_segment(alloc: Global, fields: &[FieldDef]) -> Result<Bytes, Stop>
    ensures exact { Gives result (empty_segment fields.now) }
{
    let mut segment = Bytes::with_capacity(alloc, size_of(fields))?;
    for field in fields {
        let bytes = empty_field(alloc, field)?;
        segment.append(bytes.as_slice())?;
    }
    Ok(segment)
}

impl Layout<'_> {
    /// A text as a key, with blanks behind it; a type without keys takes it as it is. `NoValue` where it is longer than
    /// the key; `Memory` for want of memory.
    pub fn fitted_key(&self, alloc: Global, text: &[u8]) -> Result<Bytes, Stop>
        ensures exact { Gives result (fitted_key (record { fields = self.now.fields.now; has_key = self.now.has_key })
            text.now) }
    {
        if self.has_key {
            fitted(alloc, usize::from(key_length(self.fields)), text)
        } else {
            Ok(Bytes::from_slice(alloc, text)?)
        }
    }
}
