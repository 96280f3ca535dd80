//! The fields of segments: `FIELD=value`.
ghost use Rattle.fp_model.specs.Fsas.{field_bytes};
ghost use Rattle.fp_model.specs.Numbers.{number};
ghost use Rattle.fp_model.specs.Texts.{trimmed};
ghost use Rattle.fp_show.specs.FieldText.{field_text, field_texts, hex, hex_digit, number_shown, shown, shown_byte, value_text};
ghost use Rattle.std.specs.List.{join_with_byte};
ghost use Rattle.std.specs.Prelude.{◌≡◌, ◌<◌, ◌++◌, ◌∷◌, OnOk, drop, flat_map, take};

use fp_model::{Bytes, FieldDef, FieldKind};
use packed_dec::read_number;
use std::alloc::{AllocError, Global};

/// A text without the blanks at its end.
pub(crate) fn without_blanks(text: &[u8]) -> &[u8]
    ensures { result.now ≡ trimmed text.now }
{
    let mut end = text.len();
    while end > 0 && text[end - 1] == b' ' {
        end -= 1;
    }
    &text[..end]
}

/// A byte as it is shown.
fn shown_byte(byte: u8) -> u8
    ensures { result ≡ shown_byte byte }
{
    if matches!(byte, b' '..=b'~') {
        byte
    } else {
        b'.'
    }
}

/// Appends a text as it is shown.
pub(crate) fn put_shown(into: &mut Bytes, text: &[u8]) -> Result<(), AllocError>
    ensures { OnOk result (into.new ≡ into.old ++ shown text.now) }
{
    for byte in text {
        into.push(shown_byte(*byte))?;
    }
    Ok(())
}

/// A hexadecimal digit.
fn hex_digit(half: u8) -> u8
    requires { half < 16 }
    ensures { result ≡ hex_digit half }
{
    if half < 10 {
        b'0' + half
    } else {
        b'a' - 10 + half
    }
}

/// Appends bytes in hexadecimal.
pub(crate) fn put_hex(into: &mut Bytes, bytes: &[u8]) -> Result<(), AllocError>
    ensures { OnOk result (into.new ≡ into.old ++ hex bytes.now) }
{
    for byte in bytes {
        into.append(&[hex_digit(*byte / 16), hex_digit(*byte % 16)])?;
    }
    Ok(())
}

/// Appends bytes as the number that they are, or else in hexadecimal behind a question mark.
fn put_number(
    alloc: Global,
    into: &mut Bytes,
    kind: FieldKind,
    bytes: &[u8],
) -> Result<(), AllocError>
    ensures { OnOk result (into.new ≡ into.old ++ number_shown (number kind bytes.now) bytes.now) }
{
    match read_number(kind, bytes) {
        Some(n) => {
            let digits = n.to_string(alloc)?;
            into.append(digits.as_bytes())
        }
        None => {
            into.push(b'?')?;
            put_hex(into, bytes)
        }
    }
}

/// Appends what the bytes of a field are shown as.
fn put_value(
    alloc: Global,
    into: &mut Bytes,
    kind: FieldKind,
    bytes: &[u8],
) -> Result<(), AllocError>
    ensures { OnOk result (into.new ≡ into.old ++ value_text kind bytes.now) }
{
    match kind {
        FieldKind::C => put_shown(into, without_blanks(bytes)),
        _ => put_number(alloc, into, kind, bytes),
    }
}

/// The first bytes, as many as there are.
fn front(bytes: &[u8], count: usize) -> &[u8]
    ensures { result.now ≡ take count bytes.now }
{
    if count < bytes.len() {
        &bytes[..count]
    } else {
        bytes
    }
}

/// What stands behind the first bytes.
fn behind(bytes: &[u8], count: usize) -> &[u8]
    ensures { result.now ≡ drop count bytes.now }
{
    if count < bytes.len() {
        &bytes[count..]
    } else {
        &[]
    }
}

/// The bytes of a field, as far as the segment reaches.
fn field_bytes<'a>(field: &FieldDef, segment: &'a [u8]) -> &'a [u8]
    ensures { result.now ≡ field_bytes field.now segment.now }
{
    front(
        behind(segment, usize::from(field.at)),
        usize::from(field.length),
    )
}

/// Appends a field of a segment.
#[tactic(auto, using(std::proofs::Common::append_assoc))]
fn put_field(
    alloc: Global,
    into: &mut Bytes,
    field: &FieldDef,
    segment: &[u8],
) -> Result<(), AllocError>
    ensures { OnOk result (into.new ≡ into.old ++ field_text segment.now field.now) }
{
    into.append(without_blanks(&field.name.0))?;
    into.push(b'=')?;
    put_value(alloc, into, field.kind, field_bytes(field, segment))
}

/// Appends the fields of a segment, each behind a blank.
pub(crate) fn put_fields_behind(
    alloc: Global,
    into: &mut Bytes,
    fields: &[FieldDef],
    segment: &[u8],
) -> Result<(), AllocError>
    ensures { OnOk result (into.new ≡ into.old ++ flat_map (λ field. 32 ∷ field_text segment.now field) fields.now) }
{
    for field in fields {
        into.push(b' ')?;
        put_field(alloc, into, field, segment)?;
    }
    Ok(())
}

/// Appends the fields of a segment, with blanks between them.
pub(crate) fn put_fields(
    alloc: Global,
    into: &mut Bytes,
    fields: &[FieldDef],
    segment: &[u8],
) -> Result<(), AllocError>
    ensures { OnOk result (into.new ≡ into.old ++ join_with_byte 32 (field_texts fields.now segment.now)) }
{
    match fields {
        [] => Ok(()),
        [first, others @ ..] => {
            put_field(alloc, into, first, segment)?;
            put_fields_behind(alloc, into, others, segment)
        }
    }
}
