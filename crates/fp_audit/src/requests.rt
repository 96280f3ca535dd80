//! What a line asks for behind the entries so far.
ghost use Rattle.fp_audit.specs.inside.Judging.{IsRequest, NamesScript, refused_or};
ghost use Rattle.fp_audit.specs.Numbers.{AreKept, KnowsLines};
ghost use Rattle.fp_audit.specs.inside.Numbers.{last_by_name, with_used};
ghost use Rattle.fp_model.specs.declared.database.Db.{Db};
ghost use Rattle.fp_model.specs.declared.scripts.Script.{Script as ScriptOf};
ghost use Rattle.fp_model.specs.History.{History, with_entry};
ghost use Rattle.fp_model.specs.Lasts.{Last as LastOf, format_behind, last_by};
ghost use Rattle.fp_model.specs.Messages.{message_of};
ghost use Rattle.fp_model.specs.Product.{by_number, by_script, request_of};
ghost use Rattle.std.specs.Option.{option_map};
ghost use Rattle.std.specs.Prelude.{◌≡◌, [], IfOk, List as ListOf, OnOk};
ghost use Rattle.std.specs.Result.{result_ok};

use crate::kept::Kept;
use fp_messages::{MessageFault, message_number_of, read_message, reply_text};
use fp_model::{Bytes, Entry, Message, Name, Outcome};
use std::alloc::{AllocError, Global};
use std::collections::BTreeMap;
use txn_lang::Scripts;

// The format behind an entry of that outcome, in which messages may have numbers.
const NUMBERED: u8 = 2;

/// What a line asks for.
#[derive(Drop)]
pub(crate) enum Request {
    /// To run the script of this number for the message.
    Run { message: Message, script: u32 },
    /// Nothing: it is refused by this outcome.
    Refused(Outcome),
}

/// What decides it: the format in which lines are read, and the last number of each terminal that used one.
#[derive(Drop)]
pub(crate) struct Requests {
    pub(crate) format: u8,
    pub(crate) lasts: BTreeMap<Name, Kept>,
}

// The message that a line is, if it is one. It fails only for want of memory.
fn message_in(alloc: Global, format: u8, line: &[u8]) -> Result<Option<Message>, AllocError>
    ensures { IfOk result (λ found. found ≡ result_ok (message_of format line.now)) }
{
    match read_message(alloc, format, line) {
        Ok(message) => Ok(Some(message)),
        Err(MessageFault::Memory) => Err(AllocError),
        Err(_) => Ok(None),
    }
}

// The number that an entry uses up, whose line is read in a format: its terminal, and what is kept of it. It fails only
// for want of memory.
fn used_by(alloc: Global, format: u8, e: &Entry) -> Result<Option<(Name, Kept)>, AllocError>
    ensures { IfOk result (λ used. option_map last_by_name used ≡ last_by format e.now) }
{
    if matches!(e.outcome, Outcome::Old(_) | Outcome::Repeat(_)) {
        return Ok(None);
    }
    let line = e.line.as_slice();
    let Some((lterm, number)) = message_number_of(format, line) else {
        return Ok(None);
    };
    let text = reply_text(alloc, line, &e.outcome, e.reply.as_slice())?;
    let line = text.unwrap_or(Bytes::new(alloc));
    Ok(Some((lterm, Kept { number, line })))
}

// The format behind an entry of an outcome.
fn format_behind(format: u8, outcome: &Outcome) -> u8
    ensures { result ≡ format_behind format outcome.now }
{
    match outcome {
        Outcome::Format => NUMBERED,
        _ => format,
    }
}

// Puts the number that an entry used up, if it did, in place of that of its terminal. It fails only for want of memory.
fn put_used(lasts: &mut BTreeMap<Name, Kept>, used: Option<(Name, Kept)>) -> Result<(), AllocError>
    ensures { (before : ListOf LastOf) → AreKept lasts.old.entries before
        → OnOk result (AreKept lasts.new.entries (with_used (option_map last_by_name used) before)) }
{
    if let Some((lterm, kept)) = used {
        lasts.insert(lterm, kept)?;
    }
    Ok(())
}

impl Requests {
    /// Before the first entry, behind a front of this format.
    pub(crate) fn new(alloc: Global, format: u8) -> Requests
        ensures format { result.format ≡ format }
        ensures lasts { AreKept result.lasts.entries [] }
    {
        Requests {
            format,
            lasts: BTreeMap::new(alloc),
        }
    }

    // How a message is refused by its number, if it is: the number isn't above the last one of its terminal. It fails
    // only for want of memory.
    fn refusal(&self, message: &Message) -> Result<Option<Outcome>, AllocError>
        ensures { (scripts : ListOf ScriptOf) (lasts : ListOf LastOf) → AreKept self.now.lasts.entries lasts
            → IfOk result (λ refusal. by_number scripts lasts message.now message.now.number
            ≡ refused_or refusal (by_script scripts message.now)) }
    {
        let Some(number) = message.number else {
            return Ok(None);
        };
        let Some(last) = self.lasts.get(&message.lterm) else {
            return Ok(None);
        };
        if number < last.number {
            return Ok(Some(Outcome::Old(last.number)));
        }
        if number == last.number {
            return Ok(Some(Outcome::Repeat(last.line.copy()?)));
        }
        Ok(None)
    }

    /// What a line asks for. It fails only for want of memory.
    pub(crate) fn of(
        &self,
        alloc: Global,
        scripts: &Scripts,
        line: &[u8],
    ) -> Result<Request, AllocError>
        ensures is { (h : History) → KnowsLines self.now.format self.now.lasts.entries h
            → IfOk result (λ request. IsRequest request (request_of scripts.now.scripts h line.now)) }
        ensures script { IfOk result (NamesScript scripts.now.scripts) }
    {
        let Some(message) = message_in(alloc, self.format, line)? else {
            return Ok(Request::Refused(Outcome::Unknown));
        };
        if let Some(outcome) = self.refusal(&message)? {
            return Ok(Request::Refused(outcome));
        }
        match scripts.find(&message.tran) {
            Some(script) => Ok(Request::Run { message, script }),
            None => Ok(Request::Refused(Outcome::Unknown)),
        }
    }

    /// Takes an entry in: the number that it uses up, and the format behind it. It fails only for want of memory.
    pub(crate) fn learn(&mut self, alloc: Global, e: &Entry) -> Result<(), AllocError>
        ensures { (h : History) (next : Db) → KnowsLines self.old.format self.old.lasts.entries h
            → OnOk result (KnowsLines self.new.format self.new.lasts.entries (with_entry e.now next h)) }
    {
        let used = used_by(alloc, self.format, e)?;
        put_used(&mut self.lasts, used)?;
        self.format = format_behind(self.format, &e.outcome);
        Ok(())
    }
}
