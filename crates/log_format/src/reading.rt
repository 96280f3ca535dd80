//! Reading entries: the bytes of a body, from left to right.
//!
//! Each reader takes the front of the bytes and answers the value with what is left. An entry's own bytes are
//! cut out by its length first, and must be used up. Then its rules are looked at: segments before images and ranges,
//! each ascending, with at most one item of an interval; a reply in Done alone, items in Done and Purge alone. Each
//! byte is read once.
ghost use Rattle.fp_model.specs.State.{is_below};
ghost use Rattle.fp_model.specs.LogText.{HasSpelling, body_text};
ghost use Rattle.fp_model.specs.ItemTargets.{precedes, is_ascending};
ghost use Rattle.fp_model.specs.declared.log.Entry.{Entry as EntryOf};
ghost use Rattle.log_format.specs.EntryReading.{some_long_at, seq_full_at, detail_at, outcome_at, kind_at, item_at};
ghost use Rattle.log_format.specs.EntryReading.{rest_at, has_its_parts, keeps_rules, whole_at, entry_at};
ghost use Rattle.log_format.specs.inside.EntryReading.{lists_at, texts_at, stands_before};
ghost use Rattle.log_format.specs.Faults.{Spells, IsCause, IsReadAs};
ghost use Rattle.log_format.specs.Reading.{Gives, many_at, counted_at};
ghost use Rattle.std.specs.Prelude.{◌≡◌, if◌then◌else◌, IfOk, IfErr, None, Some, List as ListOf};

use crate::fault::{FormatFault, ReadError};
use crate::takes::{byte_of, long_of, numbers_of, short_of, u16_of, u32_of, u64_of};
use fp_model::{Bytes, Entry, Item, List, Outcome};
use std::alloc::Global;

#[tactic(auto, unfolding(crate::specs::EntryReading::seq_full_at))]
fn seq_full_of(rest: &[u8]) -> Result<(Outcome, &[u8]), ReadError>
    ensures { Gives (λ x. (x.0, x.1.now)) result (seq_full_at rest.now) }
{
    let (set, rest) = u16_of(rest)?;
    let (begin, rest) = u64_of(rest)?;
    let (end, rest) = u64_of(rest)?;
    let (n, rest) = u64_of(rest)?;
    Ok((Outcome::SeqFull { set, begin, end, n }, rest))
}

// The readers of one outcome each, by its code.
#[tactic(auto, unfolding(crate::specs::EntryReading::detail_at))]
fn verify_of(alloc: Global, rest: &[u8]) -> Result<(Outcome, &[u8]), ReadError>
    ensures { Gives (λ x. (x.0, x.1.now)) result (detail_at 1 rest.now) }
{
    let (call, rest) = u32_of(rest)?;
    let (fsa, rest) = u16_of(rest)?;
    let (found, rest) = long_of(alloc, rest)?;
    Ok((Outcome::Verify { call, fsa, found }, rest))
}

#[tactic(auto, unfolding(crate::specs::EntryReading::detail_at))]
fn roll_of(rest: &[u8]) -> Result<(Outcome, &[u8]), ReadError>
    ensures { Gives (λ x. (x.0, x.1.now)) result (detail_at 2 rest.now) }
{
    let (code, rest) = u16_of(rest)?;
    Ok((Outcome::Roll(code), rest))
}

#[tactic(auto, unfolding(crate::specs::EntryReading::detail_at))]
fn deadlock_of(alloc: Global, rest: &[u8]) -> Result<(Outcome, &[u8]), ReadError>
    ensures { Gives (λ x. (x.0, x.1.now)) result (detail_at 4 rest.now) }
{
    let (cycle, rest) = short_of(alloc, rest)?;
    Ok((Outcome::Deadlock(cycle), rest))
}

#[tactic(auto, unfolding(crate::specs::EntryReading::detail_at))]
fn purge_of(rest: &[u8]) -> Result<(Outcome, &[u8]), ReadError>
    ensures { Gives (λ x. (x.0, x.1.now)) result (detail_at 8 rest.now) }
{
    let (set, rest) = u16_of(rest)?;
    let (n, rest) = u64_of(rest)?;
    Ok((Outcome::Purge { set, n }, rest))
}

#[tactic(auto, unfolding(crate::specs::EntryReading::detail_at))]
fn old_of(rest: &[u8]) -> Result<(Outcome, &[u8]), ReadError>
    ensures { Gives (λ x. (x.0, x.1.now)) result (detail_at 9 rest.now) }
{
    let (last, rest) = u64_of(rest)?;
    Ok((Outcome::Old(last), rest))
}

#[tactic(auto, unfolding(crate::specs::EntryReading::detail_at))]
fn repeat_of(alloc: Global, rest: &[u8]) -> Result<(Outcome, &[u8]), ReadError>
    ensures { Gives (λ x. (x.0, x.1.now)) result (detail_at 10 rest.now) }
{
    let (line, rest) = long_of(alloc, rest)?;
    Ok((Outcome::Repeat(line), rest))
}

#[tactic(auto, unfolding(crate::specs::EntryReading::detail_at))]
fn detail_of(alloc: Global, code: u8, rest: &[u8]) -> Result<(Outcome, &[u8]), ReadError>
    ensures { Gives (λ x. (x.0, x.1.now)) result (detail_at code rest.now) }
{
    match code {
        0 => Ok((Outcome::Done, rest)),
        1 => verify_of(alloc, rest),
        2 => roll_of(rest),
        3 => seq_full_of(rest),
        4 => deadlock_of(alloc, rest),
        5 => Ok((Outcome::Device, rest)),
        6 => Ok((Outcome::Memory, rest)),
        7 => Ok((Outcome::Unknown, rest)),
        8 => purge_of(rest),
        9 => old_of(rest),
        10 => repeat_of(alloc, rest),
        11 => Ok((Outcome::Format, rest)),
        _ => Err(ReadError::Bad),
    }
}

#[tactic(auto, unfolding(crate::specs::EntryReading::outcome_at))]
fn outcome_of(alloc: Global, bytes: &[u8]) -> Result<(Outcome, &[u8]), ReadError>
    ensures { Gives (λ x. (x.0, x.1.now)) result (outcome_at bytes.now) }
{
    let (code, rest) = byte_of(bytes)?;
    detail_of(alloc, code, rest)
}

// A text of one byte or more behind its length in two bytes.
#[tactic(auto, unfolding(crate::specs::EntryReading::some_long_at))]
fn some_long_of(alloc: Global, bytes: &[u8]) -> Result<(Bytes, &[u8]), ReadError>
    ensures { Gives (λ x. (x.0, x.1.now)) result (some_long_at bytes.now) }
{
    let (text, rest) = long_of(alloc, bytes)?;
    if text.len() == 0 {
        return Err(ReadError::Bad);
    }
    Ok((text, rest))
}

// The readers of one item each, by its code.
#[tactic(auto, unfolding(crate::specs::EntryReading::kind_at))]
fn segment_of(alloc: Global, rest: &[u8]) -> Result<(Item, &[u8]), ReadError>
    ensures { Gives (λ x. (x.0, x.1.now)) result (kind_at 1 rest.now) }
{
    let (msdb, rest) = byte_of(rest)?;
    let (key, rest) = short_of(alloc, rest)?;
    let (bytes, rest) = long_of(alloc, rest)?;
    Ok((Item::Segment { msdb, key, bytes }, rest))
}

#[tactic(auto, unfolding(crate::specs::EntryReading::kind_at))]
fn image_of(alloc: Global, rest: &[u8]) -> Result<(Item, &[u8]), ReadError>
    ensures { Gives (λ x. (x.0, x.1.now)) result (kind_at 2 rest.now) }
{
    let (set, rest) = u16_of(rest)?;
    let (ci, rest) = u64_of(rest)?;
    let (bytes, rest) = long_of(alloc, rest)?;
    Ok((Item::Image { set, ci, bytes }, rest))
}

#[tactic(auto, unfolding(crate::specs::EntryReading::kind_at))]
fn range_of(alloc: Global, rest: &[u8]) -> Result<(Item, &[u8]), ReadError>
    ensures { Gives (λ x. (x.0, x.1.now)) result (kind_at 3 rest.now) }
{
    let (set, rest) = u16_of(rest)?;
    let (ci, rest) = u64_of(rest)?;
    let (at, rest) = u16_of(rest)?;
    let (bytes, rest) = some_long_of(alloc, rest)?;
    Ok((Item::Range { set, ci, at, bytes }, rest))
}

#[tactic(auto, unfolding(crate::specs::EntryReading::kind_at))]
fn kind_of(alloc: Global, kind: u8, rest: &[u8]) -> Result<(Item, &[u8]), ReadError>
    ensures { Gives (λ x. (x.0, x.1.now)) result (kind_at kind rest.now) }
{
    match kind {
        1 => segment_of(alloc, rest),
        2 => image_of(alloc, rest),
        3 => range_of(alloc, rest),
        _ => Err(ReadError::Bad),
    }
}

#[tactic(auto, unfolding(crate::specs::EntryReading::item_at))]
fn item_of(alloc: Global, bytes: &[u8]) -> Result<(Item, &[u8]), ReadError>
    ensures { Gives (λ x. (x.0, x.1.now)) result (item_at bytes.now) }
{
    let (kind, rest) = byte_of(bytes)?;
    kind_of(alloc, kind, rest)
}

fn many_items_of(alloc: Global, count: u32, bytes: &[u8]) -> Result<(List<Item>, &[u8]), ReadError>
    ensures { Gives (λ x. (x.0, x.1.now)) result (many_at item_at count bytes.now) }
{
    let mut items = List::new(alloc);
    let mut rest = bytes;
    for _ in 0..count {
        let (item, after) = item_of(alloc, rest)?;
        items.push(item)?;
        rest = after;
    }
    Ok((items, rest))
}

#[tactic(auto, unfolding(crate::specs::Reading::counted_at))]
fn items_of(alloc: Global, bytes: &[u8]) -> Result<(List<Item>, &[u8]), ReadError>
    ensures { Gives (λ x. (x.0, x.1.now)) result (counted_at item_at bytes.now) }
{
    let (count, rest) = u32_of(bytes)?;
    many_items_of(alloc, count, rest)
}

#[tactic(auto, unfolding(crate::specs::inside::EntryReading::lists_at))]
fn lists_of(
    alloc: Global,
    from: u64,
    outcome: Outcome,
    line: Bytes,
    reply: Bytes,
    rest: &[u8],
) -> Result<(Entry, &[u8]), ReadError>
    ensures { Gives (λ x. (x.0, x.1.now)) result (lists_at from outcome line reply rest.now) }
{
    let (notes, rest) = numbers_of(alloc, rest)?;
    let (items, rest) = items_of(alloc, rest)?;
    let e = Entry {
        from,
        outcome,
        line,
        reply,
        notes,
        items,
    };
    Ok((e, rest))
}

#[tactic(auto, unfolding(crate::specs::inside::EntryReading::texts_at))]
fn texts_of(
    alloc: Global,
    from: u64,
    outcome: Outcome,
    rest: &[u8],
) -> Result<(Entry, &[u8]), ReadError>
    ensures { Gives (λ x. (x.0, x.1.now)) result (texts_at from outcome rest.now) }
{
    let (line, rest) = long_of(alloc, rest)?;
    let (reply, rest) = long_of(alloc, rest)?;
    lists_of(alloc, from, outcome, line, reply, rest)
}

#[tactic(auto, unfolding(crate::specs::EntryReading::rest_at, crate::specs::inside::EntryReading::texts_at, crate::specs::inside::EntryReading::lists_at))]
fn rest_of(alloc: Global, bytes: &[u8]) -> Result<(Entry, &[u8]), ReadError>
    ensures { Gives (λ x. (x.0, x.1.now)) result (rest_at bytes.now) }
{
    let (from, rest) = u64_of(bytes)?;
    let (outcome, rest) = outcome_of(alloc, rest)?;
    texts_of(alloc, from, outcome, rest)
}

fn key_precedes(key: &Bytes, next: &Bytes) -> bool
    ensures { result ≡ is_below key.now next.now }
{
    key.as_slice().cmp(&next.as_slice()).is_lt()
}

fn precedes(item: &Item, next: &Item) -> bool
    ensures { result ≡ precedes item.now next.now }
{
    match item {
        Item::Segment { msdb, key, .. } => match next {
            Item::Segment {
                msdb: next_msdb,
                key: next_key,
                ..
            } => msdb < next_msdb || (msdb == next_msdb && key_precedes(key, next_key)),
            Item::Image { .. } | Item::Range { .. } => true,
        },
        Item::Image { set, ci, .. } | Item::Range { set, ci, .. } => match next {
            Item::Segment { .. } => false,
            Item::Image {
                set: next_set,
                ci: next_ci,
                ..
            }
            | Item::Range {
                set: next_set,
                ci: next_ci,
                ..
            } => set < next_set || (set == next_set && ci < next_ci),
        },
    }
}

fn stands_before(item: &Item, more: &[Item]) -> bool
    ensures { result ≡ stands_before item.now more.now }
{
    match more {
        [] => true,
        [next, ..] => precedes(item, next),
    }
}

#[tactic(auto, using(crate::proofs::Rules::ascending_step))]
fn is_ascending(items: &[Item]) -> bool
    ensures { result ≡ is_ascending items.now }
{
    let mut rest = items;
    while let [item, more @ ..] = rest {
        if !stands_before(item, more) {
            return false;
        }
        rest = more;
    }
    true
}

fn has_its_parts(e: &Entry) -> bool
    ensures { result ≡ has_its_parts e.now.outcome e.now.reply e.now.items }
{
    match e.outcome {
        Outcome::Done => true,
        Outcome::Purge { .. } => e.reply.len() == 0,
        _ => e.reply.len() == 0 && e.items.len() == 0,
    }
}

fn keeps_rules(e: &Entry) -> bool
    ensures { result ≡ keeps_rules e.now }
{
    is_ascending(e.items.as_slice()) && has_its_parts(e)
}

// What was read, if it is as it must be.
fn read_if<T: Drop>(is_right: bool, read: T) -> Result<T, ReadError>
    ensures { Gives (λ x. x) result (if is_right then Some read else None) }
{
    if is_right {
        Ok(read)
    } else {
        Err(ReadError::Bad)
    }
}

#[tactic(auto, unfolding(crate::specs::EntryReading::whole_at))]
fn whole_of(alloc: Global, bytes: &[u8]) -> Result<Entry, ReadError>
    ensures { Gives (λ x. x) result (whole_at bytes.now) }
{
    let (e, rest) = rest_of(alloc, bytes)?;
    read_if(rest.is_empty() && keeps_rules(&e), e)
}

#[tactic(auto, unfolding(crate::specs::EntryReading::entry_at))]
fn entry_of(alloc: Global, bytes: &[u8]) -> Result<(Entry, &[u8]), ReadError>
    ensures { Gives (λ x. (x.0, x.1.now)) result (entry_at bytes.now) }
{
    let (n, rest) = u64_of(bytes)?;
    if (rest.len() as u64) < n {
        return Err(ReadError::Bad);
    }
    let (part, rest) = rest.split_at(n as usize);
    let e = whole_of(alloc, part)?;
    Ok((e, rest))
}

/// The entries that the bytes spell, one after another. No bytes are no entries.
pub fn entries(alloc: Global, bytes: &[u8]) -> Result<List<Entry>, FormatFault>
    // What is read is spelled so, and keeps the rules.
    ensures found { IfOk result (Spells bytes.now) }
    // What is spelled so is read, unless memory runs out.
    ensures only { (es : ListOf EntryOf) → Spells bytes.now es → IsReadAs result es }
    // The place is that of the first bytes that are no entry.
    ensures cause { IfErr result (IsCause bytes.now) }
{
    let mut found = List::new(alloc);
    let mut rest = bytes;
    while !rest.is_empty() {
        match entry_of(alloc, rest) {
            Ok((e, after)) => {
                found.push(e)?;
                rest = after;
            }
            Err(ReadError::Memory) => return Err(FormatFault::Memory),
            Err(ReadError::Bad) => {
                return Err(FormatFault::BadEntry((bytes.len() - rest.len()) as u64));
            }
        }
    }
    Ok(found)
}
