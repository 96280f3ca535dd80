//! One field search argument on the bytes of its field.
//!
//! A function for each kind of operation, on characters and on numbers. Each answers by the first condition that
//! applies, and changes the field only where it is good. Nothing here takes memory.
ghost use Rattle.std.specs.Prelude.{◌≡◌, false, true, length, IfSome, OnErr, OnOk, Some, ◌<◌, ◌^◌, unsigned_abs};
ghost use Rattle.fp_model.specs.Fsas.{changed, is_key, is_text, letter_on};
ghost use Rattle.fp_model.specs.Numbers.{bytes_of, number};
ghost use Rattle.fld_calls.specs.inside.Operations.{byte_of, sum_byte, verify_byte};
ghost use Rattle.fld_calls.specs.inside.Refusals.{letter_in, bytes_behind, IsDone};

use crate::operand::{compare_padded, number_in, put_padded};
use crate::operation::{Operation, Sum, Verify};
use fp_model::{FieldDef, FieldKind};
use packed_dec::{read_number, write_number};

/// Why an argument isn't good. Of several reasons it is the first, in the order of the letters.
#[derive(Clone, Copy)]
pub(crate) enum Refusal {
    /// A: no such operation, or none on characters.
    Operation,
    /// H: no such field.
    NoField,
    /// C: the key would change.
    Key,
    /// B: the operand doesn't suit the field.
    Operand,
    /// E: the field isn't a number.
    NoNumber,
    /// D: the comparison is false.
    False,
    /// G: the result doesn't fit the field.
    Range,
}

// Whether a field holds characters.
fn is_text(field: &FieldDef) -> bool
    ensures { result ≡ is_text field.now.kind }
{
    matches!(field.kind, FieldKind::C)
}

// Whether a field is the key: it stands first.
fn is_key(field: &FieldDef) -> bool
    ensures { result ≡ is_key field.now }
{
    field.at == 0
}

// A comparison of characters.
fn verify_text(field: &FieldDef, verify: Verify, operand: &[u8], held: &[u8]) -> Result<(), Refusal>
    requires text { is_text field.now.kind ≡ true }
    requires whole { length held.now ≡ field.now.length }
    ensures { letter_in result ≡ letter_on field.now (verify_byte verify) operand.now held.now }
{
    if operand.len() > held.len() {
        return Err(Refusal::Operand);
    }
    if verify.holds(compare_padded(held, operand)) {
        Ok(())
    } else {
        Err(Refusal::False)
    }
}

// A comparison of numbers.
fn verify_number(
    field: &FieldDef,
    verify: Verify,
    operand: &[u8],
    held: &[u8],
) -> Result<(), Refusal>
    requires number { is_text field.now.kind ≡ false }
    ensures { letter_in result ≡ letter_on field.now (verify_byte verify) operand.now held.now }
{
    let Some(given) = number_in(operand) else {
        return Err(Refusal::Operand);
    };
    let Some(number) = read_number(field.kind, held) else {
        return Err(Refusal::NoNumber);
    };
    if verify.holds(number.cmp(&given)) {
        Ok(())
    } else {
        Err(Refusal::False)
    }
}

// Characters in place of others.
fn put_text(field: &FieldDef, operand: &[u8], held: &mut [u8]) -> Result<(), Refusal>
    requires text { is_text field.now.kind ≡ true }
    requires whole { length held.old ≡ field.now.length }
    ensures letter { letter_in result ≡ letter_on field.now 61 operand.now held.old }
    ensures ok { OnOk result (changed field.now 61 held.old operand.now ≡ Some held.new) }
    ensures err { OnErr result (held.new ≡ held.old) }
{
    if is_key(field) {
        return Err(Refusal::Key);
    }
    if operand.len() > held.len() {
        return Err(Refusal::Operand);
    }
    put_padded(held, operand);
    Ok(())
}

// A number written into a field, if it fits.
fn fill(field: &FieldDef, number: i128, held: &mut [u8]) -> Result<(), Refusal>
    requires whole { length held.old ≡ field.now.length }
    ensures { IsDone result held.old held.new (bytes_of field.now.kind field.now.length number) }
{
    if write_number(field.kind, held, number) {
        Ok(())
    } else {
        Err(Refusal::Range)
    }
}

// A number in place of whatever stands there.
fn put_number(field: &FieldDef, operand: &[u8], held: &mut [u8]) -> Result<(), Refusal>
    requires number { is_text field.now.kind ≡ false }
    requires whole { length held.old ≡ field.now.length }
    ensures letter { letter_in result ≡ letter_on field.now 61 operand.now held.old }
    ensures ok { OnOk result (changed field.now 61 held.old operand.now ≡ Some held.new) }
    ensures err { OnErr result (held.new ≡ held.old) }
{
    if is_key(field) {
        return Err(Refusal::Key);
    }
    let Some(given) = number_in(operand) else {
        return Err(Refusal::Operand);
    };
    fill(field, given, held)
}

// The number that a field holds. It has at most 31 digits.
fn number_of(field: &FieldDef, held: &[u8]) -> Option<i128>
    ensures exact { result ≡ number field.now.kind held.now }
    ensures small { IfSome result (λ n. unsigned_abs n < 10 ^ 31) }
{
    read_number(field.kind, held)
}

// A sum in place of the number that stands there.
fn put_sum(field: &FieldDef, sum: Sum, operand: &[u8], held: &mut [u8]) -> Result<(), Refusal>
    requires number { is_text field.now.kind ≡ false }
    requires whole { length held.old ≡ field.now.length }
    ensures letter { letter_in result ≡ letter_on field.now (sum_byte sum) operand.now held.old }
    ensures ok { OnOk result (changed field.now (sum_byte sum) held.old operand.now ≡ Some held.new) }
    ensures err { OnErr result (held.new ≡ held.old) }
{
    if is_key(field) {
        return Err(Refusal::Key);
    }
    let Some(given) = number_in(operand) else {
        return Err(Refusal::Operand);
    };
    let Some(number) = number_of(field, held) else {
        return Err(Refusal::NoNumber);
    };
    fill(field, sum.of(number, given), held)
}

// An operation on characters.
fn try_text(
    field: &FieldDef,
    operation: Operation,
    operand: &[u8],
    held: &mut [u8],
) -> Result<(), Refusal>
    requires text { is_text field.now.kind ≡ true }
    requires whole { length held.old ≡ field.now.length }
    ensures letter { letter_in result ≡ letter_on field.now (byte_of operation) operand.now held.old }
    ensures ok { OnOk result (bytes_behind field.now (byte_of operation) held.old operand.now ≡ Some held.new) }
    ensures err { OnErr result (held.new ≡ held.old) }
{
    match operation {
        Operation::Verify(verify) => verify_text(field, verify, operand, held),
        Operation::Put => put_text(field, operand, held),
        Operation::Sum(_) => Err(Refusal::Operation),
    }
}

// An operation on a number.
fn try_number(
    field: &FieldDef,
    operation: Operation,
    operand: &[u8],
    held: &mut [u8],
) -> Result<(), Refusal>
    requires number { is_text field.now.kind ≡ false }
    requires whole { length held.old ≡ field.now.length }
    ensures letter { letter_in result ≡ letter_on field.now (byte_of operation) operand.now held.old }
    ensures ok { OnOk result (bytes_behind field.now (byte_of operation) held.old operand.now ≡ Some held.new) }
    ensures err { OnErr result (held.new ≡ held.old) }
{
    match operation {
        Operation::Verify(verify) => verify_number(field, verify, operand, held),
        Operation::Put => put_number(field, operand, held),
        Operation::Sum(sum) => put_sum(field, sum, operand, held),
    }
}

/// An operation on the bytes of its field. A good one changes them, and a refused one leaves them.
pub(crate) fn try_field(
    field: &FieldDef,
    operation: Operation,
    operand: &[u8],
    held: &mut [u8],
) -> Result<(), Refusal>
    requires whole { length held.old ≡ field.now.length }
    ensures letter { letter_in result ≡ letter_on field.now (byte_of operation) operand.now held.old }
    ensures ok { OnOk result (bytes_behind field.now (byte_of operation) held.old operand.now ≡ Some held.new) }
    ensures err { OnErr result (held.new ≡ held.old) }
{
    if is_text(field) {
        try_text(field, operation, operand, held)
    } else {
        try_number(field, operation, operand, held)
    }
}
