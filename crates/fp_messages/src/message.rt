//! Reads a message line.
ghost use Rattle.std.specs.Prelude.{◌≡◌, ◌↔◌, ℕ, List as ListOf, Ok, Err, IfOk, IsOk, IsErrOf, option_map};
ghost use Rattle.std.specs.List.{list_all};
ghost use Rattle.fp_model.specs.Lasts.{last_in};
ghost use Rattle.fp_model.specs.Texts.{is_printable};
ghost use Rattle.fp_model.specs.Messages as messages;
ghost use Rattle.fp_model.specs.Messages.{behind_number, message_of, number_in_line, terminal_of};

use crate::words::{message_number, name_in, split_word};
use fp_model::{Bytes, Message, Name};
use std::alloc::{AllocError, Global};

/// Why a line isn't read as a message. Of several reasons it is the first, in this order.
#[derive(Clone, Copy, Debug)]
pub enum MessageFault {
    /// The first word is no name.
    NoTerminal,
    /// There is no second word, or it is no name.
    NoTran,
    /// The text has more than 1,000 bytes.
    TooLong,
    /// A byte of the text isn't one of 32 to 126.
    NotAscii,
    /// There was no memory.
    Memory,
}

impl From<AllocError> for MessageFault {
    ghost use Rattle.fp_messages.specs.declared.message.MessageFault.TheVariants as fault;

    ghost from_gives = { λ _ e. e ≡ fault.Memory };

    fn from(_: AllocError) -> MessageFault {
        MessageFault::Memory
    }
}

// How many bytes a text has at most.
const LONGEST_TEXT: usize = 1000;

// The format in which a line may have a number.
const NUMBERED: u8 = 2;

/// The message that a line is in a log of this format. The bytes are copied only once the line is known to be one.
pub fn read_message(alloc: Global, format: u8, line: &[u8]) -> Result<Message, MessageFault>
    ensures ok { IfOk result (λ message. message_of format line.now ≡ Ok message) }

    // Each fault comes where the line has it, and nowhere else.
    ensures no_terminal { IsErrOf result MessageFault.NoTerminal
        ↔ (message_of format line.now ≡ Err messages.NoTerminal) }
    ensures no_tran { IsErrOf result MessageFault.NoTran ↔ (message_of format line.now ≡ Err messages.NoTran) }
    ensures too_long { IsErrOf result MessageFault.TooLong ↔ (message_of format line.now ≡ Err messages.TooLong) }
    ensures not_ascii { IsErrOf result MessageFault.NotAscii ↔ (message_of format line.now ≡ Err messages.NotAscii) }

    // Memory is asked for only where the line is a message.
    ensures memory { IsErrOf result MessageFault.Memory → IsOk (message_of format line.now) }
{
    let Some(lterm) = terminal_of(line) else {
        return Err(MessageFault::NoTerminal);
    };
    let (number, asked) = split_number(format, line);
    let (word, text) = split_word(asked);
    let Some(tran) = name_in(word) else {
        return Err(MessageFault::NoTran);
    };
    if text.len() > LONGEST_TEXT {
        return Err(MessageFault::TooLong);
    }
    if !is_printable(text) {
        return Err(MessageFault::NotAscii);
    }
    Ok(Message {
        lterm,
        tran,
        text: Bytes::from_slice(alloc, text)?,
        line: Bytes::from_slice(alloc, line)?,
        number,
    })
}

/// The terminal and the number of a line that is a numbered message in a log of this format; `None` of any other line.
/// Takes no memory.
pub fn message_number_of(format: u8, line: &[u8]) -> Option<(Name, u64)>
    ensures { (kept : ListOf ℕ) → last_in kept (message_of format line.now)
        ≡ option_map (λ of. record { lterm = of.0; number = of.1; line = kept }) result }
{
    let lterm = terminal_of(line)?;
    let (number, asked) = split_number(format, line);
    let number = number?;
    let (word, text) = split_word(asked);
    let _ = name_in(word)?;
    if text.len() > LONGEST_TEXT || !is_printable(text) {
        return None;
    }
    Some((lterm, number))
}

// The number of a line, where it has one, and what stands behind it or else behind the terminal.
fn split_number(format: u8, line: &[u8]) -> (Option<u64>, &[u8])
    ensures number { result.0 ≡ number_in_line format line.now }
    ensures behind { result.1.now ≡ behind_number (number_in_line format line.now) line.now }
{
    let (_, asked) = split_word(line);
    if format != NUMBERED {
        return (None, asked);
    }
    let (word, behind) = split_word(asked);
    match message_number(word) {
        Some(number) => (Some(number), behind),
        None => (None, asked),
    }
}

/// The terminal of a line; `None` where its first word is no name.
pub fn terminal_of(line: &[u8]) -> Option<Name>
    ensures { result ≡ terminal_of line.now }
{
    let (word, _) = split_word(line);
    name_in(word)
}

// Whether all bytes of a text are printable.
fn is_printable(text: &[u8]) -> bool
    ensures { result ≡ list_all is_printable text.now }
{
    text.iter().all(|byte| matches!(*byte, b' '..=b'~'))
}
