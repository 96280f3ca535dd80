//! What a line asks for: a message, or nothing, and it is refused.
ghost use Rattle.fp_core.specs.inside.Reading.{IsDemandIn, IsDemandOf, IsRefused, IsUnknown, request_for, request_unless};
ghost use Rattle.fp_core.specs.Numbering.{last_told};
ghost use Rattle.fp_model.specs.History.{History};
ghost use Rattle.fp_model.specs.Lasts.{format_at, lasts_of, uses_number};
ghost use Rattle.fp_model.specs.Product.{by_last, by_number, request_of};
ghost use Rattle.fp_model.specs.declared.calls.Message.{Message as Said};
ghost use Rattle.fp_model.specs.declared.name.Name.{Name as NameOf};
ghost use Rattle.fp_model.specs.declared.scripts.Script.{Script};
ghost use Rattle.fp_model.specs.declared.log.Outcome.TheVariants.{Unknown};
ghost use Rattle.std.specs.Prelude.{◌≡◌, IfOk, IfSome, List as ListOf, None as NoneOf, Some, [], false};

use crate::numbering::{Kept, kept_of};
use balancing::Lasts;
use fp_messages::{MessageFault, read_message};
use fp_model::{Bytes, Message, Outcome};
use std::alloc::{AllocError, Global};
use txn_lang::Scripts;

/// What a line asks for.
#[derive(Drop)]
pub(crate) enum Demand {
    /// This message is to be run.
    Message(Message),
    /// Nothing: the line is refused so, and this is kept of its number, where it uses one.
    Nothing {
        outcome: Outcome,
        kept: Option<Kept>,
    },
}

// An entry keeps a line of fewer bytes than this.
const LONGEST_KEPT: usize = 1 << 16;

// By which outcome a number is refused, where it isn't above the last one of its terminal, which got this line.
fn refused_behind(
    alloc: Global,
    number: u64,
    last: u64,
    line: &[u8],
) -> Result<Option<Outcome>, AllocError>
    ensures request { (scripts : ListOf Script) (message : Said) (lterm : NameOf) → IfOk result (λ found.
        by_last scripts message number (Some (record { lterm = lterm; number = last; line = line.now }))
        ≡ request_unless scripts message found) }
    ensures refused { IfOk result (λ found. IfSome found IsRefused) }
    ensures unused { IfOk result (λ found. IfSome found (λ outcome. uses_number outcome ≡ false)) }
{
    if number < last {
        return Ok(Some(Outcome::Old(last)));
    }
    if number > last {
        return Ok(None);
    }
    // No reply line is so long.
    if line.len() >= LONGEST_KEPT {
        return Err(AllocError);
    }
    Ok(Some(Outcome::Repeat(Bytes::from_slice(alloc, line)?)))
}

// By which outcome a message is refused for its number, if it is.
fn refused_by_number(
    alloc: Global,
    lasts: &Lasts,
    message: &Message,
) -> Result<Option<Outcome>, AllocError>
    ensures request { (scripts : ListOf Script) → IfOk result (λ found.
        by_number scripts lasts.now.terminals message.now message.now.number
        ≡ request_unless scripts message.now found) }
    ensures refused { IfOk result (λ found. IfSome found IsRefused) }
    ensures unused { IfOk result (λ found. IfSome found (λ outcome. uses_number outcome ≡ false)) }
{
    let Some(number) = message.number else {
        return Ok(None);
    };
    match lasts.of(&message.lterm) {
        Some((last, line)) => refused_behind(alloc, number, last, line),
        None => Ok(None),
    }
}

// A message that names no script is refused, and uses its number.
fn unknown(alloc: Global, message: &Message) -> Result<Demand, AllocError>
    ensures { IfOk result (λ found. IsUnknown (last_told message.now Unknown []) found) }
{
    let kept = kept_of(alloc, message, &Outcome::Unknown, &[])?;
    Ok(Demand::Nothing {
        outcome: Outcome::Unknown,
        kept,
    })
}

// So is a line that is no message.
fn no_message() -> Demand
    ensures { IsUnknown NoneOf result }
{
    Demand::Nothing {
        outcome: Outcome::Unknown,
        kept: None,
    }
}

// What a message asks for, by the last numbers of the terminals.
fn demand_of(
    alloc: Global,
    scripts: &Scripts,
    lasts: &Lasts,
    message: Message,
) -> Result<Demand, AllocError>
    ensures request { IfOk result (λ found.
        by_number scripts.now.scripts lasts.now.terminals message message.number ≡ request_for found) }
    ensures is { IfOk result (IsDemandOf scripts.now.scripts message) }
{
    if let Some(outcome) = refused_by_number(alloc, lasts, &message)? {
        return Ok(Demand::Nothing {
            outcome,
            kept: None,
        });
    }
    match scripts.find(&message.tran) {
        Some(_) => Ok(Demand::Message(message)),
        None => unknown(alloc, &message),
    }
}

/// What a line asks for, in this format and by the last numbers of the terminals. It fails only for want of memory, and
/// at a kept line of 2^16 bytes or more, which no reply makes.
pub(crate) fn demand_in(
    alloc: Global,
    format: u8,
    scripts: &Scripts,
    lasts: &Lasts,
    line: &Bytes,
) -> Result<Demand, AllocError>
    ensures request { (h : History) → format_at h.format h.entries ≡ format
        → lasts.now.terminals ≡ lasts_of h.format h.entries
        → IfOk result (λ found. request_of scripts.now.scripts h line.now ≡ request_for found) }
    ensures is { IfOk result (IsDemandIn format scripts.now.scripts line.now) }
{
    match read_message(alloc, format, line.as_slice()) {
        Ok(message) => demand_of(alloc, scripts, lasts, message),
        Err(MessageFault::NoTerminal) => Ok(no_message()),
        Err(MessageFault::NoTran) => Ok(no_message()),
        Err(MessageFault::TooLong) => Ok(no_message()),
        Err(MessageFault::NotAscii) => Ok(no_message()),
        Err(MessageFault::Memory) => Err(AllocError),
    }
}
