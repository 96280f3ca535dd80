//! Field search arguments tried on a segment. Only the letters of a list in bytes take memory.
ghost use Rattle.std.specs.Prelude.{◌≡◌, ◌+◌, ◌≤◌, IfOk, OnErr, OnOk, length};
ghost use Rattle.fp_model.specs.FitCalls.{IsFsaList};
ghost use Rattle.fp_model.specs.Fsas.{all_blank, field_bytes, field_of, fsa_on, fsas_in, letter_of, letter_on, list_on};
ghost use Rattle.fp_model.specs.Texts.{same_text};
ghost use Rattle.fp_model.specs.WellFormed.{StandFrom};
ghost use Rattle.fld_calls.specs.Forms.{forms, lent_form_of, with_letters};
ghost use Rattle.fld_calls.specs.inside.Forms.{of_fields};
ghost use Rattle.fld_calls.specs.inside.Operations.{byte_of};
ghost use Rattle.fld_calls.specs.inside.Refusals.{letter_in, segment_behind};

use crate::arguments::{Fsa, LentFsa};
use crate::field::{Refusal, try_field};
use crate::layout::front_of;
use crate::operation::Operation;
use fp_model::{Bytes, FieldDef, List, MsdbDef, Name};
use std::alloc::{AllocError, Global};

// Whether two names are the same: the bytes of each are compared as one number.
fn is_same(name: Name, other: Name) -> bool
    ensures { result ≡ same_text name.0 other.0 }
{
    u64::from_be_bytes(name.0) == u64::from_be_bytes(other.0)
}

// The field of a name.
pub(crate) fn find_field(fields: &List<FieldDef>, name: &Name) -> Option<FieldDef>
    ensures { result ≡ field_of fields.now name.now.0 }
{
    for field in fields.as_slice() {
        if is_same(field.name, *name) {
            return Some(*field);
        }
    }
    None
}

// The letter of an answer.
fn letter(outcome: Result<(), Refusal>) -> u8
    ensures { result ≡ letter_in outcome }
{
    match outcome {
        Ok(()) => b' ',
        Err(Refusal::Operation) => b'A',
        Err(Refusal::NoField) => b'H',
        Err(Refusal::Key) => b'C',
        Err(Refusal::Operand) => b'B',
        Err(Refusal::NoNumber) => b'E',
        Err(Refusal::False) => b'D',
        Err(Refusal::Range) => b'G',
    }
}

// An operation on a field of a segment.
fn try_at(
    field: &FieldDef,
    operation: Operation,
    operand: &[u8],
    segment: &mut [u8],
) -> Result<(), Refusal>
    requires { field.now.at + field.now.length ≤ length segment.old }
    ensures letter { letter_in result ≡ letter_on field.now (byte_of operation) operand.now
        (field_bytes field.now segment.old) }
    ensures ok { OnOk result (segment.new ≡ segment_behind field.now (byte_of operation) operand.now segment.old) }
    ensures err { OnErr result (segment.new ≡ segment.old) }
{
    let at = usize::from(field.at);
    let end = at + usize::from(field.length);
    let held = &mut segment[at..end];
    try_field(field, operation, operand, held)
}

// One argument. A good change is made, and a bad argument leaves the segment.
pub(crate) fn try_fsa(
    fields: &List<FieldDef>,
    fsa: &LentFsa,
    segment: &mut [u8],
) -> Result<(), Refusal>
    requires { StandFrom 0 fields.now (length segment.old) }
    ensures letter { letter_in result ≡ letter_of (of_fields fields.now) (lent_form_of fsa.now) segment.old }
    ensures segment { segment.new ≡ (fsa_on (of_fields fields.now) (lent_form_of fsa.now) segment.old).segment }
    ensures err { OnErr result (segment.new ≡ segment.old) }
{
    let Some(operation) = Operation::of(fsa.op) else {
        return Err(Refusal::Operation);
    };
    let Some(field) = find_field(fields, &fsa.field) else {
        return Err(Refusal::NoField);
    };
    try_at(&field, operation, fsa.operand, segment)
}

/// Tries arguments on a segment in their order. Each is answered a letter in its status, by what those before it left.
/// A good change is made in the segment; a bad argument leaves it, and the next is still tried. True exactly where
/// every letter is a blank. The fields must be those of a definition, and the segment of its length.
pub fn try_fsas(def: &MsdbDef, fsas: &mut List<Fsa>, segment: &mut [u8]) -> bool
    requires fields { StandFrom 0 def.now.fields def.now.length }
    requires whole { length segment.old ≡ def.now.length }
    ensures good { result ≡ all_blank (list_on def.now (forms fsas.old) segment.old).letters }
    ensures letters { fsas.new ≡ with_letters fsas.old (list_on def.now (forms fsas.old) segment.old).letters }
    ensures segment { segment.new ≡ (list_on def.now (forms fsas.old) segment.old).segment }
{
    let mut good = true;
    for at in 0..fsas.len() {
        let fsa = fsas.item_mut(at);
        let outcome = try_fsa(&def.fields, &fsa.lent(), segment);
        fsa.status = letter(outcome);
        good &= outcome.is_ok();
    }
    good
}

/// Tries the arguments that bytes are on a segment in their order, as `try_fsas` does, and gives their letters. The
/// bytes are read as they stand, and only the letters take memory. After want of memory the segment is to be thrown
/// away.
pub fn try_list(
    alloc: Global,
    def: &MsdbDef,
    bytes: &[u8],
    segment: &mut [u8],
) -> Result<Bytes, AllocError>
    requires fields { StandFrom 0 def.now.fields def.now.length }
    requires whole { length segment.old ≡ def.now.length }
    requires list { IsFsaList bytes.now }
    ensures letters { IfOk result (λ letters. letters ≡ (list_on def.now (fsas_in bytes.now) segment.old).letters) }
    ensures segment { OnOk result (segment.new ≡ (list_on def.now (fsas_in bytes.now) segment.old).segment) }
{
    let mut letters = Bytes::new(alloc);
    let mut rest = bytes;
    while let Some(front) = front_of(rest) {
        let outcome = try_fsa(&def.fields, &front.fsa, segment);
        letters.push(letter(outcome))?;
        rest = front.rest;
    }
    Ok(letters)
}
