//! Operands, and what statements make of them.
ghost use Rattle.std.specs.Prelude.{◌≡◌, ◌≤◌, [], IfOk, length, map};
ghost use Rattle.std.specs.List.{list_all};
ghost use Rattle.fp_model.specs.Operands.{chosen, joined_texts, key_text, reply_text, set_text, shown_field, shown_letter, text_named, text_of};
ghost use Rattle.fp_model.specs.declared.calls.Message.{Message as MessageOf};
ghost use Rattle.fp_model.specs.Values.{short_enough};
ghost use Rattle.fp_model.specs.Texts.{is_printable};
ghost use Rattle.txn_values.specs.Giving.{Gives, GivesAs};
ghost use Rattle.txn_values.specs.Lending.{bytes_in};
ghost use Rattle.txn_machine.specs.Knowing.{env_of, status_of};

use crate::known::Known;
use fp_model::{Bytes, Comparison, Defs, List, Message, Name, Operand, Operation};
use std::alloc::{AllocError, Global};
use txn_values::{
    OperandText, Stop, compares, field_bytes, field_of, layout_of, operated, value_text,
    without_blanks, word_of,
};

// How many bytes a value has at most.
const LONGEST_VALUE: usize = 1024;

// Room for operands joined; long ones take more.
const JOINED_ROOM: usize = 32;

// How many bytes a reply has at most.
const LONGEST_REPLY: usize = 1000;

// A text itself, if it may be a value.
fn short(text: OperandText<'_>) -> Result<OperandText<'_>, Stop>
    ensures gives { GivesAs bytes_in result (short_enough (bytes_in text.entry)) }
    ensures small { IfOk result (λ text. length (bytes_in text) ≤ 1024) }
{
    if text.as_slice().len() > LONGEST_VALUE {
        return Err(Stop::NoValue);
    }
    Ok(text)
}

// The letters of a field call, with `-` for a blank.
fn shown_letters(alloc: Global, letters: &[u8]) -> Result<Bytes, AllocError>
    ensures { IfOk result (λ text. text ≡ map shown_letter letters.now) }
{
    let text = letters
        .iter()
        .map(|letter| if *letter == b' ' { b'-' } else { *letter })
        .collect(alloc)?;
    Ok(Bytes::from_vec(text))
}

// Whether all bytes of a text are printable.
fn is_printable(text: &[u8]) -> bool
    ensures { result ≡ list_all is_printable text.now }
{
    text.iter().all(|byte| matches!(*byte, b' '..=b'~'))
}

impl Known {
    // A field of the segment that was shown last.
    fn shown_field(&self, defs: &Defs, name: &Name) -> Result<OperandText<'_>, Stop>
        ensures { (message : MessageOf) → GivesAs bytes_in result
            (shown_field defs.now message name.now.0 (env_of self.now [])) }
    {
        let Some(gets) = &self.gets else {
            return Err(Stop::NoValue);
        };
        let layout = layout_of(defs, gets.db, gets.newest.segment)?;
        let field = field_of(layout.fields, name)?;
        let bytes = field_bytes(&field, gets.newest.bytes.as_slice());
        value_text(self.alloc, &field, bytes)
    }

    // The letters of the last status; none before the first call.
    fn status(&self) -> &[u8]
        ensures { result.now ≡ status_of self.now.status }
    {
        match &self.status {
            Some(letters) => letters,
            None => &[],
        }
    }

    // The text that an operand names, however long it is.
    fn text_named<'a>(
        &'a self,
        defs: &Defs,
        message: &'a Message,
        operand: &'a Operand,
    ) -> Result<OperandText<'a>, Stop>
        ensures { GivesAs bytes_in result (text_named defs.now message.now (env_of self.now []) operand.now) }
    {
        match operand {
            Operand::Text(text) => Ok(OperandText::Lent(text.as_slice())),
            Operand::Word(number) => {
                Ok(OperandText::Lent(word_of(message.text.as_slice(), *number)))
            }
            Operand::Field(name) => self.shown_field(defs, name),
            Operand::Status => Ok(OperandText::Lent(without_blanks(self.status()))),
            Operand::Fsas => {
                let letters = shown_letters(self.alloc, self.letters.as_slice())?;
                Ok(OperandText::Made(letters))
            }
            Operand::Variable(name) => Ok(OperandText::Lent(self.setting(name))),
        }
    }

    /// The text of an operand. It copies nothing.
    pub(crate) fn text_of<'a>(
        &'a self,
        defs: &Defs,
        message: &'a Message,
        operand: &'a Operand,
    ) -> Result<OperandText<'a>, Stop>
        ensures small { IfOk result (λ text. length (bytes_in text) ≤ 1024) }
        ensures gives { GivesAs bytes_in result (text_of defs.now message.now (env_of self.now []) operand.now) }
    {
        short(self.text_named(defs, message, operand)?)
    }

    /// The text that SET gives.
    pub(crate) fn set_text(
        &self,
        defs: &Defs,
        message: &Message,
        first: &Operand,
        rest: &Option<(Operation, Operand)>,
    ) -> Result<Bytes, Stop>
        ensures { Gives result (set_text defs.now message.now (env_of self.now []) first.now rest.now) }
    {
        let a = self.text_of(defs, message, first)?;
        match rest {
            Some((operation, second)) => {
                let b = self.text_of(defs, message, second)?;
                operated(self.alloc, *operation, a.as_slice(), b.as_slice())
            }
            None => Ok(a.into_bytes(self.alloc)?),
        }
    }

    /// Whether IF takes its first block.
    pub(crate) fn chosen(
        &self,
        defs: &Defs,
        message: &Message,
        left: &Operand,
        comparison: Comparison,
        right: &Operand,
    ) -> Result<bool, Stop>
        ensures { Gives result (chosen defs.now message.now (env_of self.now []) left.now comparison right.now) }
    {
        let a = self.text_of(defs, message, left)?;
        let b = self.text_of(defs, message, right)?;
        compares(comparison, a.as_slice(), b.as_slice())
    }

    // Operands joined.
    fn joined_texts(
        &self,
        defs: &Defs,
        message: &Message,
        operands: &[Operand],
    ) -> Result<Bytes, Stop>
        ensures { Gives result (joined_texts defs.now message.now (env_of self.now []) operands.now) }
    {
        let mut joined = Bytes::with_capacity(self.alloc, JOINED_ROOM)?;
        for operand in operands {
            let text = self.text_of(defs, message, operand)?;
            joined.append(text.as_slice())?;
        }
        Ok(joined)
    }

    /// The text of a reply.
    pub(crate) fn reply_text(
        &self,
        defs: &Defs,
        message: &Message,
        operands: &List<Operand>,
    ) -> Result<Bytes, Stop>
        ensures { Gives result (reply_text defs.now message.now (env_of self.now []) operands.now) }
    {
        let text = self.joined_texts(defs, message, operands.as_slice())?;
        if text.len() > LONGEST_REPLY || !is_printable(text.as_slice()) {
            return Err(Stop::NoValue);
        }
        Ok(text)
    }

    /// The key that an operand gives in a segment type.
    pub(crate) fn key_text(
        &self,
        defs: &Defs,
        message: &Message,
        db: u8,
        type_number: u8,
        operand: &Operand,
    ) -> Result<Bytes, Stop>
        ensures { Gives result (key_text defs.now message.now (env_of self.now []) db type_number operand.now) }
    {
        let text = self.text_of(defs, message, operand)?;
        let layout = layout_of(defs, db, type_number)?;
        layout.fitted_key(self.alloc, text.as_slice())
    }
}
