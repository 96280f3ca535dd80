//! Writing entries.
//!
//! | Part | Bytes |
//! |---|---|
//! | entry | length of the rest 8; from 8; outcome; line, length 2; reply, length 2; notes; items |
//! | notes | count 4; 8 each |
//! | items | count 4; items |
//!
//! An outcome and an item have a code of one byte, and what the code asks for.
//!
//! | Outcome | Bytes |
//! |---|---|
//! | Done | 0 |
//! | Verify | 1, call 4, fsa 2, found, length 2 |
//! | Roll | 2, code 2 |
//! | SeqFull | 3, set 2, begin 8, end 8, n 8 |
//! | Deadlock | 4, regions, length 1 |
//! | Device | 5 |
//! | Memory | 6 |
//! | Unknown | 7 |
//! | Purge | 8, set 2, n 8 |
//! | Old | 9, last 8 |
//! | Repeat | 10, line, length 2 |
//! | Format | 11 |
//!
//! | Item | Bytes |
//! |---|---|
//! | segment | 1, msdb 1, key, length 1, bytes, length 2 |
//! | image | 2, set 2, interval 8, bytes, length 2 |
//! | range | 3, set 2, interval 8, place in it 2, bytes, length 2, one byte or more |
//!
//! Room for the whole entry is made first. What follows can't fail, so an entry is there whole or not at all.
ghost use Rattle.fp_model.specs.LogText.{outcome_text, item_text, items_text, rest_text, entry_text};
ghost use Rattle.fp_model.specs.LogText.{FitsEntry, FitsItem, FitsOutcome, HasSpelling, IsEntry, IsItem, IsOutcome, KeepsRules};
ghost use Rattle.fp_model.specs.Spellings.{be16, be32, be64};
ghost use Rattle.fp_model.specs.declared.log.Outcome.TheVariants.{SeqFull};
ghost use Rattle.log_format.specs.inside.Sizes.{item_size, items_size, outcome_size, rest_size};
ghost use Rattle.std.specs.List.{AllByRecursion};
ghost use Rattle.std.specs.Prelude.{◌≡◌, ◌+◌, ◌<◌, ◌≤◌, ◌^◌, ◌++◌, IsOk, OnOk, OnErr, length, vec_capacity, vec_len};

use crate::room::{
    write_long, write_numbers, write_short, write_u8, write_u16, write_u32, write_u64,
};
use crate::sizes::rest_length;
use fp_model::{Bytes, Entry, Item, List, Outcome};
use std::alloc::AllocError;
use std::mem;

// Appends the outcome of a sequential part that had no room.
#[tactic(auto, using(std::proofs::Common::append_assoc))]
fn write_seq_full(into: &mut Vec<u8>, set: u16, begin: u64, end: u64, n: u64)
    requires { vec_len into.old + 27 ≤ vec_capacity into.old }
    ensures items { into.new.items ≡ into.old.items ++ outcome_text (SeqFull set begin end n) }
    ensures len { vec_len into.new ≡ vec_len into.old + 27 }
    ensures capacity { vec_capacity into.old ≤ vec_capacity into.new }
{
    write_u8(into, 3);
    write_u16(into, set);
    write_u64(into, begin);
    write_u64(into, end);
    write_u64(into, n);
}

#[tactic(auto, using(std::proofs::Common::append_assoc))]
fn write_outcome(into: &mut Vec<u8>, outcome: &Outcome)
    requires fits { FitsOutcome outcome.now }
    requires room { vec_len into.old + outcome_size outcome.now ≤ vec_capacity into.old }
    ensures items { into.new.items ≡ into.old.items ++ outcome_text outcome.now }
    ensures len { vec_len into.new ≡ vec_len into.old + outcome_size outcome.now }
    ensures capacity { vec_capacity into.old ≤ vec_capacity into.new }
    ensures is_outcome { IsOutcome outcome.now }
{
    match outcome {
        Outcome::Done => write_u8(into, 0),
        Outcome::Verify { call, fsa, found } => {
            write_u8(into, 1);
            write_u32(into, *call);
            write_u16(into, *fsa);
            write_long(into, found);
        }
        Outcome::Roll(code) => {
            write_u8(into, 2);
            write_u16(into, *code);
        }
        Outcome::SeqFull { set, begin, end, n } => write_seq_full(into, *set, *begin, *end, *n),
        Outcome::Deadlock(cycle) => {
            write_u8(into, 4);
            write_short(into, cycle);
        }
        Outcome::Device => write_u8(into, 5),
        Outcome::Memory => write_u8(into, 6),
        Outcome::Unknown => write_u8(into, 7),
        Outcome::Purge { set, n } => {
            write_u8(into, 8);
            write_u16(into, *set);
            write_u64(into, *n);
        }
        Outcome::Old(last) => {
            write_u8(into, 9);
            write_u64(into, *last);
        }
        Outcome::Repeat(line) => {
            write_u8(into, 10);
            write_long(into, line);
        }
        Outcome::Format => write_u8(into, 11),
    }
}

#[tactic(auto, using(std::proofs::Common::append_assoc))]
fn write_item(into: &mut Vec<u8>, item: &Item)
    requires fits { FitsItem item.now }
    requires room { vec_len into.old + item_size item.now ≤ vec_capacity into.old }
    ensures items { into.new.items ≡ into.old.items ++ item_text item.now }
    ensures len { vec_len into.new ≡ vec_len into.old + item_size item.now }
    ensures capacity { vec_capacity into.old ≤ vec_capacity into.new }
    ensures is_item { IsItem item.now }
{
    match item {
        Item::Segment { msdb, key, bytes } => {
            write_u8(into, 1);
            write_u8(into, *msdb);
            write_short(into, key);
            write_long(into, bytes);
        }
        Item::Image { set, ci, bytes } => {
            write_u8(into, 2);
            write_u16(into, *set);
            write_u64(into, *ci);
            write_long(into, bytes);
        }
        Item::Range { set, ci, at, bytes } => {
            write_u8(into, 3);
            write_u16(into, *set);
            write_u64(into, *ci);
            write_u16(into, *at);
            write_long(into, bytes);
        }
    }
}

fn write_items(into: &mut Vec<u8>, items: &List<Item>)
    requires count { length items.now < 2 ^ 32 }
    requires each { AllByRecursion FitsItem items.now }
    requires room { vec_len into.old + items_size items.now ≤ vec_capacity into.old }
    ensures items { into.new.items ≡ into.old.items ++ items_text items.now }
    ensures are_items { AllByRecursion IsItem items.now }
    ensures capacity { vec_capacity into.old ≤ vec_capacity into.new }
{
    write_u32(into, items.len() as u32);
    for item in items.as_slice() {
        write_item(into, item);
    }
}

#[tactic(auto, using(std::proofs::Common::append_assoc))]
fn write_rest(into: &mut Vec<u8>, e: &Entry)
    requires fits { FitsEntry e.now }
    requires room { vec_len into.old + rest_size e.now ≤ vec_capacity into.old }
    ensures items { into.new.items ≡ into.old.items ++ rest_text e.now }
    ensures is_entry { IsEntry e.now }
    ensures capacity { vec_capacity into.old ≤ vec_capacity into.new }
{
    write_u64(into, e.from);
    write_outcome(into, &e.outcome);
    write_long(into, &e.line);
    write_long(into, &e.reply);
    write_numbers(into, &e.notes);
    write_items(into, &e.items);
}

/// Appends the one spelling of an entry. Where there is room for it, no memory is taken and the answer is Ok.
pub fn write_entry(into: &mut Vec<u8>, e: &Entry) -> Result<(), AllocError>
    requires rules { KeepsRules e.now }
    requires fits { FitsEntry e.now }

    ensures ok { OnOk result (into.new.items ≡ into.old.items ++ entry_text e.now) }
    ensures spelled { OnOk result (HasSpelling e.now) }

    // Only where there is no room it may fail. Then nothing changes.
    ensures sure { vec_len into.old + length (entry_text e.now) ≤ vec_capacity into.old → IsOk result }
    ensures err { OnErr result (into.new.items ≡ into.old.items) }
    ensures capacity { vec_capacity into.old ≤ vec_capacity into.new }
{
    let rest = rest_length(e);
    into.reserve(8 + rest as usize)?;
    write_u64(into, rest);
    write_rest(into, e);
    Ok(())
}

/// Appends the one spelling of an entry.
pub fn put_entry(into: &mut Bytes, e: &Entry) -> Result<(), AllocError>
    requires rules { KeepsRules e.now }
    requires fits { FitsEntry e.now }

    ensures ok { OnOk result (into.new ≡ into.old ++ entry_text e.now) }
    ensures spelled { OnOk result (HasSpelling e.now) }

    // Want of memory changes nothing.
    ensures err { OnErr result (into.new ≡ into.old) }
{
    let empty: List<u8> = e.notes.empty_like();
    let mut bytes = mem::replace(into, Bytes::from_vec(empty.into_vec())).into_vec();
    let written = write_entry(&mut bytes, e);
    *into = Bytes::from_vec(bytes);
    written
}
