//! The lines of groups and entries of the log.
ghost use Rattle.fp_show.specs.FieldText.{shown};
ghost use Rattle.fp_show.specs.GroupText.{entry_back, entry_front, entry_line, group_head, group_text, notes_text, or_dash};
ghost use Rattle.std.specs.Prelude.{◌≡◌, ◌++◌, IfOk, OnErr, OnOk};

use crate::field::put_shown;
use crate::outcome::{put_numbers, put_outcome};
use fp_model::{Bytes, Entry, List};
use std::alloc::{AllocError, Global};

/// Appends bytes, or a dash where there are none.
fn put_or_dash(into: &mut Bytes, bytes: &[u8]) -> Result<(), AllocError>
    ensures { OnOk result (into.new ≡ into.old ++ or_dash bytes.now) }
{
    if bytes.is_empty() {
        into.push(b'-')
    } else {
        into.append(bytes)
    }
}

/// Appends a text as it is shown, or a dash where there is none.
fn put_shown_or_dash(into: &mut Bytes, text: &[u8]) -> Result<(), AllocError>
    ensures { OnOk result (into.new ≡ into.old ++ or_dash (shown text.now)) }
{
    if text.is_empty() {
        into.push(b'-')
    } else {
        put_shown(into, text)
    }
}

/// Appends the notes of an entry, or a dash where it has none.
fn put_notes(alloc: Global, into: &mut Bytes, notes: &[u64]) -> Result<(), AllocError>
    ensures { OnOk result (into.new ≡ into.old ++ notes_text notes.now) }
{
    if notes.is_empty() {
        into.push(b'-')
    } else {
        put_numbers(alloc, into, notes)
    }
}

/// Appends what the line of an entry begins with.
fn put_entry_front(alloc: Global, into: &mut Bytes, place: u64, e: &Entry) -> Result<(), AllocError>
    ensures { OnOk result (into.new ≡ into.old ++ entry_front place e.now) }
{
    let from = e.from;
    let start = format!(in alloc; "{place} from {from} notes ")?;
    into.append(start.as_bytes())?;
    put_notes(alloc, into, e.notes.as_slice())?;
    into.push(b' ')
}

/// Appends what the line of an entry ends with.
#[tactic(auto, using(std::proofs::Common::append_assoc))]
fn put_entry_back(alloc: Global, into: &mut Bytes, e: &Entry) -> Result<(), AllocError>
    ensures { OnOk result (into.new ≡ into.old ++ entry_back e.now) }
{
    put_outcome(alloc, into, &e.outcome)?;
    into.push(b' ')?;
    put_shown_or_dash(into, e.line.as_slice())?;
    into.append(b" => ")?;
    put_or_dash(into, e.reply.as_slice())
}

/// Appends the line of the entry at a place in the log, counted from 0. After want of memory the text is as before.
pub fn put_entry_line(
    alloc: Global,
    into: &mut Bytes,
    place: u64,
    e: &Entry,
) -> Result<(), AllocError>
    ensures ok { OnOk result (into.new ≡ into.old ++ entry_line place e.now) }
    ensures err { OnErr result (into.new ≡ into.old) }
{
    let mut line = Bytes::new(alloc);
    put_entry_front(alloc, &mut line, place, e)?;
    put_entry_back(alloc, &mut line, e)?;
    line.push(b'\n')?;
    into.append(line.as_slice())
}

/// Appends the line of a group: its number, counted from 0, and how many entries it has. After want of memory the text
/// is as before.
pub fn put_group_head(
    alloc: Global,
    into: &mut Bytes,
    number: u64,
    entries: u64,
) -> Result<(), AllocError>
    ensures ok { OnOk result (into.new ≡ into.old ++ group_head number entries) }
    ensures err { OnErr result (into.new ≡ into.old) }
{
    let line = format!(in alloc; "group {number} entries {entries}\n")?;
    into.append(line.as_bytes())
}

/// The text of a group of the log: its line, and a line for each of its entries. `number` is the group's, and `first`
/// the place of its first entry in the log, both counted from 0.
///
/// Fails only for want of memory, and so it does where a place would pass 2^64 - 1.
pub fn show_group(
    alloc: Global,
    number: u64,
    first: u64,
    entries: &List<Entry>,
) -> Result<Bytes, AllocError>
    ensures { IfOk result (λ text. text ≡ group_text number first entries.now) }
{
    let mut text = Bytes::new(alloc);
    put_group_head(alloc, &mut text, number, entries.len() as u64)?;
    for (at, entry) in entries.as_slice().iter().enumerate() {
        let Some(place) = first.checked_add(at as u64) else {
            return Err(AllocError);
        };
        put_entry_line(alloc, &mut text, place, entry)?;
    }
    Ok(text)
}
