//! Message numbers: of each terminal the last one is kept, and the reply line that it got.
ghost use Rattle.fp_core.specs.Numbering.{last_kept, last_told};
ghost use Rattle.fp_core.specs.inside.Numbering.{with_used};
ghost use Rattle.fp_model.specs.Messages.{terminal_of};
ghost use Rattle.fp_model.specs.ReplyLine.{addressee, line_for, verdict};
ghost use Rattle.std.specs.Prelude.{◌≡◌, ◌≤◌, ◌+◌, [], IfOk, option_map, unwrap_or};

use balancing::Lasts;
use fp_messages::reply_text;
use fp_model::{Bytes, Message, Name, Outcome};
use std::alloc::{AllocError, Global};

/// What is kept of a number that a message uses: its terminal, and its reply line without the newline.
#[derive(Drop)]
pub(crate) struct Kept {
    pub(crate) lterm: Name,
    pub(crate) number: u64,
    pub(crate) line: Bytes,
}

// The reply line of a line that is answered so, without its newline; no bytes where nobody is told.
fn line_told(
    alloc: Global,
    line: &[u8],
    outcome: &Outcome,
    reply: &[u8],
) -> Result<Bytes, AllocError>
    ensures { IfOk result (λ told. told
        ≡ unwrap_or (line_for (addressee (terminal_of line.now)) (verdict outcome.now reply.now)) []) }
{
    match reply_text(alloc, line, outcome, reply)? {
        Some(text) => Ok(text),
        None => Ok(Bytes::new(alloc)),
    }
}

/// What is kept of a message that is answered so, where it has a number. It fails only for want of memory.
pub(crate) fn kept_of(
    alloc: Global,
    message: &Message,
    outcome: &Outcome,
    reply: &[u8],
) -> Result<Option<Kept>, AllocError>
    ensures { IfOk result (λ kept. option_map last_kept kept ≡ last_told message.now outcome.now reply.now) }
{
    let Some(number) = message.number else {
        return Ok(None);
    };
    let line = line_told(alloc, message.line.as_slice(), outcome, reply)?;
    Ok(Some(Kept {
        lterm: message.lterm,
        number,
        line,
    }))
}

/// Puts what is kept in the place of what its terminal had. Takes no memory.
pub(crate) fn keep(lasts: &mut Lasts, kept: Option<Kept>)
    requires { 1 ≤ lasts.old.spare }
    ensures terminals { lasts.new.terminals ≡ with_used (option_map last_kept kept) lasts.old.terminals }
    ensures spare { lasts.old.spare ≤ lasts.new.spare + 1 }
{
    if let Some(
        Kept {
            lterm,
            number,
            line,
        },
    ) = kept
    {
        lasts.set(&lterm, number, line);
    }
}
