//! The numbers that the entries of a log used up.
ghost use Rattle.balancing.specs.Numbered.{Numbered};
ghost use Rattle.fp_model.specs.Lasts.{format_behind, last_by, uses_number, with_last};
ghost use Rattle.fp_model.specs.ReplyLine.{line_text};
ghost use Rattle.fp_restart.specs.inside.Numbers.{as_last};
ghost use Rattle.fp_restart.specs.inside.Replayed.{HasNumbersOf};
ghost use Rattle.std.specs.Option.{option_map_or};
ghost use Rattle.std.specs.Prelude.{◌≡◌, [], IfOk, OnOk, option_map, unwrap_or};

use balancing::Lasts;
use fp_messages::{message_number_of, reply_text};
use fp_model::{Bytes, Entry, Name, Outcome};
use std::alloc::{AllocError, Global};

/// What entries leave of numbers: the format in which the next line is read, and the last number of each terminal.
#[derive(Drop)]
pub struct Numbers {
    pub format: u8,
    pub lasts: Lasts,
}

// The number that an entry used up: whose, and the reply line that goes with it.
#[derive(Drop)]
struct Used {
    lterm: Name,
    number: u64,
    line: Bytes,
}

impl Numbers {
    // Those behind no entries of a log whose first line is read in this format.
    pub(crate) fn new(alloc: Global, format: u8) -> Result<Numbers, AllocError>
        ensures format { IfOk result (λ numbers. numbers.format ≡ format) }
        ensures lasts { IfOk result (λ numbers. numbers.lasts.terminals ≡ []) }
    {
        let lasts = Lasts::new(alloc)?;
        Ok(Numbers { format, lasts })
    }

    // Adds those of these entries, each read in the format at its place. It fails only for want of memory; then the
    // numbers are to be thrown away.
    pub(crate) fn add(&mut self, alloc: Global, entries: &[Entry]) -> Result<(), AllocError>
        ensures { OnOk result (HasNumbersOf entries.now self.old self.new) }
    {
        for entry in entries {
            add_one(alloc, &mut self.lasts, self.format, entry)?;
            self.format = next_format(self.format, &entry.outcome);
        }
        Ok(())
    }
}

// Puts the number that an entry used up, whose line is read in this format.
fn add_one(alloc: Global, lasts: &mut Lasts, format: u8, entry: &Entry) -> Result<(), AllocError>
    ensures { OnOk result (lasts.new.terminals ≡ option_map_or (λ last. with_last last lasts.old.terminals)
        (last_by format entry.now) lasts.old.terminals) }
{
    let Some(
        Used {
            lterm,
            number,
            line,
        },
    ) = used_by(alloc, format, entry)?
    else {
        return Ok(());
    };
    lasts.reserve(1)?;
    lasts.set(&lterm, number, line);
    Ok(())
}

// The number that an entry used up, whose line is read in this format.
fn used_by(alloc: Global, format: u8, entry: &Entry) -> Result<Option<Used>, AllocError>
    ensures { IfOk result (λ found. option_map as_last found ≡ last_by format entry.now) }
{
    if !uses_number(&entry.outcome) {
        return Ok(None);
    }
    let Some((lterm, number)) = message_number_of(format, entry.line.as_slice()) else {
        return Ok(None);
    };
    let line = kept_line(alloc, entry)?;
    Ok(Some(Used {
        lterm,
        number,
        line,
    }))
}

// Whether an entry with this outcome uses up the number of its message.
fn uses_number(outcome: &Outcome) -> bool
    ensures { result ≡ uses_number outcome.now }
{
    match outcome {
        Outcome::Old(_) => false,
        Outcome::Repeat(_) => false,
        _ => true,
    }
}

// The reply line of an entry without its newline, no bytes where it has none.
fn kept_line(alloc: Global, entry: &Entry) -> Result<Bytes, AllocError>
    ensures { IfOk result (λ line. line ≡ unwrap_or (line_text entry.now) []) }
{
    match reply_text(
        alloc,
        entry.line.as_slice(),
        &entry.outcome,
        entry.reply.as_slice(),
    )? {
        Some(line) => Ok(line),
        None => Ok(Bytes::new(alloc)),
    }
}

// The format behind an entry with this outcome.
fn next_format(format: u8, outcome: &Outcome) -> u8
    ensures { result ≡ format_behind format outcome.now }
{
    match outcome {
        Outcome::Format => 2,
        _ => format,
    }
}
