//! Writes the line that a terminal is sent for an entry.
ghost use Rattle.std.specs.Prelude.{◌≡◌, ◌∷◌, ◌++◌, [], IfOk, codes};
ghost use Rattle.std.specs.Fmt.{decimal};
ghost use Rattle.std.specs.Option.{option_map_or};
ghost use Rattle.fp_model.specs.Messages.{terminal_of};
ghost use Rattle.fp_model.specs.ReplyLine.{Words, addressee, behind_blank, line_for, line_of, verdict};

use crate::words::{is_name, split_word};
use fp_model::{Bytes, Entry, Outcome};
use std::alloc::{AllocError, Global};

/// The line that is sent for an entry, with its newline. A purge and a change of format have none: no bytes.
pub fn reply_line(alloc: Global, e: &Entry) -> Result<Bytes, AllocError>
    ensures { IfOk result (λ sent. sent ≡ line_of e.now) }
{
    reply_line_of(alloc, e.line.as_slice(), &e.outcome, e.reply.as_slice())
}

/// The line that is sent for an entry with this line, outcome and reply, with its newline; no bytes where it has none.
pub fn reply_line_of(
    alloc: Global,
    line: &[u8],
    outcome: &Outcome,
    reply: &[u8],
) -> Result<Bytes, AllocError>
    ensures { let text = line_for (addressee (terminal_of line.now)) (verdict outcome.now reply.now) in
        IfOk result (λ sent. sent ≡ option_map_or (λ text. text ++ 10 ∷ []) text []) }
{
    let Some(mut out) = reply_text(alloc, line, outcome, reply)? else {
        return Ok(Bytes::new(alloc));
    };
    out.push(b'\n')?;
    Ok(out)
}

/// The line that is sent for an entry with this line, outcome and reply, without its newline; `None` for a purge and a
/// change of format, of which nobody is told.
pub fn reply_text(
    alloc: Global,
    line: &[u8],
    outcome: &Outcome,
    reply: &[u8],
) -> Result<Option<Bytes>, AllocError>
    ensures { IfOk result (λ text. text ≡ line_for (addressee (terminal_of line.now)) (verdict outcome.now reply.now)) }
{
    match outcome {
        Outcome::Done => success(alloc, line, reply),
        Outcome::Verify { .. } => words(alloc, line, b"NO VERIFY"),
        Outcome::Roll(code) => numbered(alloc, line, b"NO ROLB ", u64::from(*code)),
        Outcome::SeqFull { .. } => words(alloc, line, b"NO SEQFULL"),
        Outcome::Deadlock(_) => words(alloc, line, b"NO DEADLOCK"),
        Outcome::Device => words(alloc, line, b"NO DEVICE"),
        Outcome::Memory => words(alloc, line, b"NO MEMORY"),
        Outcome::Unknown => words(alloc, line, b"NO UNKNOWN"),
        Outcome::Old(last) => numbered(alloc, line, b"NO OLD ", *last),
        Outcome::Repeat(kept) => Ok(Some(kept.copy()?)),
        Outcome::Purge { .. } | Outcome::Format => Ok(None),
    }
}

// The terminal's name, or a question mark where the line has none.
fn addressee(line: &[u8]) -> &[u8]
    ensures { result.now ≡ addressee (terminal_of line.now) }
{
    let (word, _) = split_word(line);
    if is_name(word) { word } else { b"?" }
}

// The terminal's name and a blank, with room for so many bytes behind them and for a newline.
fn begun(alloc: Global, line: &[u8], room: usize) -> Result<Bytes, AllocError>
    ensures { IfOk result (λ out. out ≡ addressee (terminal_of line.now) ++ 32 ∷ []) }
{
    let name = addressee(line);
    let room = room.saturating_add(name.len()).saturating_add(2);
    let mut out = Bytes::with_capacity(alloc, room)?;
    out.append(name)?;
    out.push(b' ')?;
    Ok(out)
}

// Words behind the terminal's name and a blank.
fn words(alloc: Global, line: &[u8], words: &[u8]) -> Result<Option<Bytes>, AllocError>
    ensures { IfOk result (λ text. text ≡ line_for (addressee (terminal_of line.now)) (Words words.now)) }
{
    let mut out = begun(alloc, line, words.len())?;
    out.append(words)?;
    Ok(Some(out))
}

// `OK`, and the reply behind a blank where there is one.
fn success(alloc: Global, line: &[u8], reply: &[u8]) -> Result<Option<Bytes>, AllocError>
    ensures { IfOk result (λ text. text
        ≡ line_for (addressee (terminal_of line.now)) (Words (codes "OK" ++ behind_blank reply.now))) }
{
    let mut out = begun(alloc, line, reply.len().saturating_add(3))?;
    out.append(b"OK")?;
    if !reply.is_empty() {
        out.push(b' ')?;
        out.append(reply)?;
    }
    Ok(Some(out))
}

// Words with a number behind them, in decimal without leading zeros.
fn numbered(
    alloc: Global,
    line: &[u8],
    front: &[u8],
    number: u64,
) -> Result<Option<Bytes>, AllocError>
    ensures { IfOk result (λ text. text
        ≡ line_for (addressee (terminal_of line.now)) (Words (front.now ++ decimal number))) }
{
    let number = number.to_string(alloc)?;
    let mut out = Bytes::from_slice(alloc, front)?;
    out.append(number.as_bytes())?;
    words(alloc, line, out.as_slice())
}
