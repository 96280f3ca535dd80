//! What is said of each fault on standard error.
ghost use Rattle.fp_model.specs.Texts.{trimmed};
ghost use Rattle.command_tasks.specs.Texts.{definitions_text, kind_name, part_name, schedule_text, scripts_text};
ghost use Rattle.std.specs.Fmt.{decimal, signed_decimal};
ghost use Rattle.std.specs.Prelude.{◌≡◌, ◌++◌, IfOk, codes};

use fp_defs::DefsFault;
use fp_model::{Bytes, Kind, Name};
use fp_schedule::ScheduleFault;
use fp_source::Part;
use std::alloc::{AllocError, Global};
use txn_lang::ScriptFault;

/// Three texts, one behind the other.
pub(crate) fn joined(
    alloc: Global,
    front: &[u8],
    middle: &[u8],
    back: &[u8],
) -> Result<Bytes, AllocError>
    ensures { IfOk result (λ text. text ≡ front.now ++ middle.now ++ back.now) }
{
    let mut text = Bytes::from_slice(alloc, front)?;
    text.append(middle)?;
    text.append(back)?;
    Ok(text)
}

/// The name of a part.
pub(crate) fn part_name(part: Part) -> &'static [u8]
    ensures { result.now ≡ part_name part }
{
    match part {
        Part::Definitions => b"definitions",
        Part::Scripts => b"scripts",
        Part::Schedule => b"schedule",
        Part::Messages => b"messages",
    }
}

// The name of a kind of exits.
fn kind_name(kind: Kind) -> &'static [u8]
    ensures { result.now ≡ kind_name kind }
{
    match kind {
        Kind::Fold => b"FOLD",
        Kind::Range => b"RANGE",
    }
}

/// What is said of a fault of the definitions.
pub(crate) fn definitions_text(alloc: Global, fault: &DefsFault) -> Result<Bytes, AllocError>
    ensures { IfOk result (λ text. text ≡ codes "definitions: " ++ definitions_text fault.now) }
{
    match fault {
        DefsFault::NotToml => Bytes::from_slice(alloc, b"definitions: not TOML"),
        DefsFault::Missing(key) => joined(alloc, b"definitions: missing ", key.as_slice(), b""),
        DefsFault::Unknown(key) => joined(alloc, b"definitions: unknown ", key.as_slice(), b""),
        DefsFault::OutOfLimit(key, value) => limit_text(alloc, key, *value),
        DefsFault::Twice(text) => joined(alloc, b"definitions: twice ", text.as_slice(), b""),
        DefsFault::BadField(key) => joined(alloc, b"definitions: bad field ", key.as_slice(), b""),
        DefsFault::NoExit(kind) => {
            joined(alloc, b"definitions: no exit ", kind_name(*kind), b"")
        }
        DefsFault::TooLong => Bytes::from_slice(alloc, b"definitions: too long"),
        DefsFault::Memory => Bytes::from_slice(alloc, b"definitions: no memory"),
    }
}

// What is said of a number outside its limits.
#[tactic(auto, using(std::proofs::Common::append_assoc))]
fn limit_text(alloc: Global, key: &Bytes, value: i64) -> Result<Bytes, AllocError>
    ensures { IfOk result (λ text. text ≡ codes "definitions: " ++
        (key.now ++ codes " out of limit: " ++ signed_decimal value)) }
{
    let value = value.to_string(alloc)?;
    let mut text = joined(alloc, b"definitions: ", key.as_slice(), b" out of limit: ")?;
    text.append(value.as_bytes())?;
    Ok(text)
}

/// What is said of a fault of the scripts.
pub(crate) fn scripts_text(alloc: Global, fault: ScriptFault) -> Result<Bytes, AllocError>
    ensures { IfOk result (λ text. text ≡ codes "scripts: " ++ scripts_text fault) }
{
    match fault {
        ScriptFault::Syntax(line) => numbered(alloc, b"scripts: syntax at line ", u64::from(line)),
        ScriptFault::UnknownName(line) => {
            numbered(alloc, b"scripts: unknown name at line ", u64::from(line))
        }
        ScriptFault::TooDear(name, cost) => cost_text(alloc, &name, cost),
        ScriptFault::Twice(name) => transaction_text(alloc, &name, b" twice"),
        ScriptFault::TooLong => Bytes::from_slice(alloc, b"scripts: too long"),
        ScriptFault::Memory => Bytes::from_slice(alloc, b"scripts: no memory"),
    }
}

/// What is said of a fault of the schedule.
pub(crate) fn schedule_text(alloc: Global, fault: ScheduleFault) -> Result<Bytes, AllocError>
    ensures { IfOk result (λ text. text ≡ codes "schedule: " ++ schedule_text fault) }
{
    match fault {
        ScheduleFault::BadToken(place) => {
            numbered(alloc, b"schedule: bad token ", u64::from(place))
        }
        ScheduleFault::TooMany => Bytes::from_slice(alloc, b"schedule: too many tokens"),
        ScheduleFault::TooLong => Bytes::from_slice(alloc, b"schedule: too long"),
        ScheduleFault::Memory => Bytes::from_slice(alloc, b"schedule: no memory"),
    }
}

// A text with a number behind it.
fn numbered(alloc: Global, front: &[u8], number: u64) -> Result<Bytes, AllocError>
    ensures { IfOk result (λ text. text ≡ front.now ++ decimal number) }
{
    let number = number.to_string(alloc)?;
    let mut text = Bytes::from_slice(alloc, front)?;
    text.append(number.as_bytes())?;
    Ok(text)
}

// What is said of a transaction.
#[tactic(auto, using(std::proofs::Common::append_assoc))]
fn transaction_text(alloc: Global, name: &Name, back: &[u8]) -> Result<Bytes, AllocError>
    ensures { IfOk result (λ text. text ≡ codes "scripts: " ++
        (codes "transaction " ++ trimmed name.now.0 ++ back.now)) }
{
    joined(
        alloc,
        b"scripts: transaction ",
        without_blanks(&name.0),
        back,
    )
}

// What is said of a transaction that costs too much.
#[tactic(auto, using(std::proofs::Common::append_assoc))]
fn cost_text(alloc: Global, name: &Name, cost: u64) -> Result<Bytes, AllocError>
    ensures { IfOk result (λ text. text ≡ codes "scripts: " ++
        (codes "transaction " ++ trimmed name.now.0 ++ codes " costs " ++ decimal cost)) }
{
    let cost = cost.to_string(alloc)?;
    let mut text = transaction_text(alloc, name, b" costs ")?;
    text.append(cost.as_bytes())?;
    Ok(text)
}

// A text without the blanks at its end.
fn without_blanks(text: &[u8]) -> &[u8]
    ensures { result.now ≡ trimmed text.now }
{
    let mut end = text.len();
    while end > 0 && text[end - 1] == b' ' {
        end -= 1;
    }
    &text[..end]
}

/// What is said of a damaged data set.
#[tactic(auto, using(std::proofs::Common::append_assoc))]
pub(crate) fn damage_text(alloc: Global, set: u16, at: u64) -> Result<Bytes, AllocError>
    ensures { IfOk result (λ text. text ≡ codes "damaged: data set " ++ decimal set ++ codes " at " ++ decimal at) }
{
    let at = at.to_string(alloc)?;
    let mut text = numbered(alloc, b"damaged: data set ", u64::from(set))?;
    text.append(b" at ")?;
    text.append(at.as_bytes())?;
    Ok(text)
}

/// What is said of a message line that isn't taken.
pub(crate) fn line_text(alloc: Global, number: u64) -> Result<Bytes, AllocError>
    ensures { IfOk result (λ text. text ≡ codes "messages: line " ++ decimal number) }
{
    numbered(alloc, b"messages: line ", number)
}

/// What is said of an entry that isn't legal.
pub(crate) fn entry_text(alloc: Global, entry: u64) -> Result<Bytes, AllocError>
    ensures { IfOk result (λ text. text ≡ codes "illegal entry " ++ decimal entry) }
{
    numbered(alloc, b"illegal entry ", entry)
}
