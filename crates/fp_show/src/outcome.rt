//! How a transaction ended, as the log tells it.
ghost use Rattle.fp_show.specs.FieldText.{hex};
ghost use Rattle.fp_show.specs.GroupText.{comma_text, or_dash, outcome_text};
ghost use Rattle.std.specs.Fmt.{decimal};
ghost use Rattle.std.specs.Prelude.{◌≡◌, ◌++◌, OnOk, flat_map, ◌∷◌};

use crate::field::put_hex;
use fp_model::{Bytes, Outcome};
use std::alloc::{AllocError, Global};

/// Appends a number in decimal.
fn put_decimal(alloc: Global, into: &mut Bytes, n: u64) -> Result<(), AllocError>
    ensures { OnOk result (into.new ≡ into.old ++ decimal n) }
{
    let digits = n.to_string(alloc)?;
    into.append(digits.as_bytes())
}

/// Appends numbers, each behind a comma.
fn put_numbers_behind(alloc: Global, into: &mut Bytes, numbers: &[u64]) -> Result<(), AllocError>
    ensures { OnOk result (into.new ≡ into.old ++ flat_map (λ n. 44 ∷ decimal n) numbers.now) }
{
    for number in numbers {
        into.push(b',')?;
        put_decimal(alloc, into, *number)?;
    }
    Ok(())
}

/// Appends numbers with commas between them.
pub(crate) fn put_numbers(
    alloc: Global,
    into: &mut Bytes,
    numbers: &[u64],
) -> Result<(), AllocError>
    ensures { OnOk result (into.new ≡ into.old ++ comma_text numbers.now) }
{
    match numbers {
        [] => Ok(()),
        [first, others @ ..] => {
            put_decimal(alloc, into, *first)?;
            put_numbers_behind(alloc, into, others)
        }
    }
}

/// Appends the numbers of regions.
fn put_regions(alloc: Global, into: &mut Bytes, regions: &[u8]) -> Result<(), AllocError>
    ensures { OnOk result (into.new ≡ into.old ++ comma_text regions.now) }
{
    let numbers: Vec<u64> = regions
        .iter()
        .map(|region| u64::from(*region))
        .collect(alloc)?;
    put_numbers(alloc, into, numbers.as_slice())
}

/// Appends bytes in hexadecimal, or a dash where there are none.
fn put_found(into: &mut Bytes, found: &[u8]) -> Result<(), AllocError>
    ensures { OnOk result (into.new ≡ into.old ++ or_dash (hex found.now)) }
{
    if found.is_empty() {
        into.push(b'-')
    } else {
        put_hex(into, found)
    }
}

/// Appends a failed verify.
fn put_verify(
    alloc: Global,
    into: &mut Bytes,
    call: u32,
    fsa: u16,
    found: &[u8],
) -> Result<(), AllocError>
    ensures { OnOk result (into.new ≡ into.old ++ outcome_text (Outcome.Verify call fsa found.now)) }
{
    let place = format!(in alloc; "VERIFY {call}.{fsa} ")?;
    into.append(place.as_bytes())?;
    put_found(into, found)
}

/// Appends a cycle of regions.
fn put_deadlock(alloc: Global, into: &mut Bytes, regions: &[u8]) -> Result<(), AllocError>
    ensures { OnOk result (into.new ≡ into.old ++ outcome_text (Outcome.Deadlock regions.now)) }
{
    into.append(b"DEADLOCK ")?;
    put_regions(alloc, into, regions)
}

/// Appends a sequential part that had no room.
fn put_full(
    alloc: Global,
    into: &mut Bytes,
    set: u16,
    begin: u64,
    end: u64,
    n: u64,
) -> Result<(), AllocError>
    ensures { OnOk result (into.new ≡ into.old ++ outcome_text (Outcome.SeqFull set begin end n)) }
{
    let text = format!(in alloc; "SEQFULL {set} {begin} {end} {n}")?;
    into.append(text.as_bytes())
}

/// Appends a Purge.
fn put_purge(alloc: Global, into: &mut Bytes, set: u16, n: u64) -> Result<(), AllocError>
    ensures { OnOk result (into.new ≡ into.old ++ outcome_text (Outcome.Purge set n)) }
{
    let text = format!(in alloc; "PURGE {set} {n}")?;
    into.append(text.as_bytes())
}

/// Appends a word and a number.
fn put_numbered(alloc: Global, into: &mut Bytes, word: &[u8], number: u64) -> Result<(), AllocError>
    ensures { OnOk result (into.new ≡ into.old ++ (word.now ++ decimal number)) }
{
    into.append(word)?;
    put_decimal(alloc, into, number)
}

/// Appends how a transaction ended.
pub(crate) fn put_outcome(
    alloc: Global,
    into: &mut Bytes,
    outcome: &Outcome,
) -> Result<(), AllocError>
    ensures { OnOk result (into.new ≡ into.old ++ outcome_text outcome.now) }
{
    match outcome {
        Outcome::Done => into.append(b"DONE"),
        Outcome::Verify { call, fsa, found } => {
            put_verify(alloc, into, *call, *fsa, found.as_slice())
        }
        Outcome::Roll(code) => put_numbered(alloc, into, b"ROLB ", u64::from(*code)),
        Outcome::SeqFull { set, begin, end, n } => put_full(alloc, into, *set, *begin, *end, *n),
        Outcome::Deadlock(regions) => put_deadlock(alloc, into, regions.as_slice()),
        Outcome::Device => into.append(b"DEVICE"),
        Outcome::Memory => into.append(b"MEMORY"),
        Outcome::Unknown => into.append(b"UNKNOWN"),
        Outcome::Old(last) => put_numbered(alloc, into, b"OLD ", *last),
        Outcome::Repeat(_) => into.append(b"REPEAT"),
        Outcome::Format => into.append(b"FORMAT 2"),
        Outcome::Purge { set, n } => put_purge(alloc, into, *set, *n),
    }
}
