//! The turns of a run as a table.

use crate::turns::{Span, Turn};
use fp_core::Did;
use fp_model::Event;
use std::alloc::{AllocError, Global};

const HEAD: &str = "turn  event   did        lock          entry  group  about\n";

// How wide the columns are.
const TURN: usize = 4;

const EVENT: usize = 6;

const DID: usize = 9;

const LOCK: usize = 12;

const ENTRY: usize = 5;

/// The word of an event, as schedules have it.
pub(crate) fn event_text(alloc: Global, event: Event) -> Result<String, AllocError> {
    match event {
        Event::In => String::from_str(alloc, "IN"),
        Event::Region(region) => format!(in alloc; "R{region}"),
        Event::Log => String::from_str(alloc, "LOG"),
        Event::Out => String::from_str(alloc, "OUT"),
        Event::Ckpt => String::from_str(alloc, "CKPT"),
        Event::Purge { .. } => String::from_str(alloc, "PURGE"),
    }
}

/// A word for what a step did.
pub(crate) fn did_word(did: Did) -> &'static str {
    match did {
        Did::Nothing => "nothing",
        Did::Took => "took",
        Did::Answered => "answered",
        Did::Gained => "gained",
        Did::Waited => "waits",
        Did::Committed => "committed",
        Did::Refused => "refused",
        Did::Retried => "retried",
        Did::Queued => "queued",
        Did::Held => "held",
        Did::Sealed(_) => "sealed",
    }
}

// Appends a word and so many blanks before it, or behind it, that both have a width, and two blanks behind them.
fn put_column(text: &mut String, word: &str, width: usize, before: bool) -> Result<(), AllocError> {
    if !before {
        text.push_str(word)?;
    }
    for _ in word.len()..width {
        text.push(' ')?;
    }
    if before {
        text.push_str(word)?;
    }
    text.push_str("  ")
}

// A number as a word, or no word.
fn number_word(alloc: Global, number: Option<u64>) -> Result<String, AllocError> {
    match number {
        Some(number) => number.to_string(alloc),
        None => Ok(String::new(alloc)),
    }
}

// Groups as a word.
fn groups_word(alloc: Global, groups: Option<Span>) -> Result<String, AllocError> {
    match groups {
        Some(Span { first, last }) if first == last => first.to_string(alloc),
        Some(Span { first, last }) => format!(in alloc; "{first}-{last}"),
        None => Ok(String::new(alloc)),
    }
}

// Appends a word that was made as a column.
fn put_made(
    text: &mut String,
    word: Result<String, AllocError>,
    width: usize,
    before: bool,
) -> Result<(), AllocError> {
    put_column(text, &word?, width, before)
}

// Appends the columns of a turn.
fn put_columns(
    alloc: Global,
    line: &mut String,
    number: u64,
    turn: &Turn,
) -> Result<(), AllocError> {
    put_made(line, number.to_string(alloc), TURN, true)?;
    put_made(line, event_text(alloc, turn.step.event), EVENT, false)?;
    put_column(line, did_word(turn.step.did), DID, false)?;
    put_column(line, &turn.lock, LOCK, false)?;
    put_made(line, number_word(alloc, turn.entry), ENTRY, true)?;
    put_made(line, groups_word(alloc, turn.groups), ENTRY, true)?;
    line.push_str(&turn.what)
}

// Appends the line of a turn.
fn put_turn(alloc: Global, text: &mut String, number: u64, turn: &Turn) -> Result<(), AllocError> {
    let mut line = String::new(alloc);
    put_columns(alloc, &mut line, number, turn)?;
    text.push_str(line.trim_end())?;
    text.push('\n')
}

// Appends a line for each turn, and one where the schedule ends.
fn put_turns(alloc: Global, text: &mut String, turns: &[Turn]) -> Result<(), AllocError> {
    let mut drains = false;
    for (at, turn) in turns.iter().enumerate() {
        if turn.step.in_drain && !drains {
            drains = true;
            text.push_str("      the schedule ends, and the drain begins\n")?;
        }
        put_turn(alloc, text, (at as u64).saturating_add(1), turn)?;
    }
    Ok(())
}

/// A line for each turn, numbered from 1, and one where the schedule ends.
pub(crate) fn table(alloc: Global, turns: &[Turn]) -> Result<String, AllocError> {
    let mut text = String::from_str(alloc, HEAD)?;
    put_turns(alloc, &mut text, turns)?;
    Ok(text)
}
