//! How many bytes an entry has in the log.
ghost use Rattle.fp_model.specs.LogText.{FitsEntry, FitsItem, FitsOutcome, entry_text};
ghost use Rattle.log_format.specs.inside.Sizes.{item_size, items_size, outcome_size, rest_size};
ghost use Rattle.std.specs.List.{AllByRecursion};
ghost use Rattle.std.specs.Prelude.{◌≡◌, ◌+◌, ◌<◌, ◌≤◌, ◌^◌, length};

use fp_model::{Entry, Item, List, Outcome};

fn outcome_length(outcome: &Outcome) -> u64
    requires { FitsOutcome outcome.now }
    ensures value { result ≡ outcome_size outcome.now }
    ensures small { result ≤ 2 ^ 17 }
{
    match outcome {
        Outcome::Done | Outcome::Device | Outcome::Memory | Outcome::Unknown | Outcome::Format => 1,
        Outcome::Verify { found, .. } => 9 + found.len() as u64,
        Outcome::Roll(_) => 3,
        Outcome::SeqFull { .. } => 27,
        Outcome::Deadlock(cycle) => 2 + cycle.len() as u64,
        Outcome::Purge { .. } => 11,
        Outcome::Old(_) => 9,
        Outcome::Repeat(line) => 3 + line.len() as u64,
    }
}

fn item_length(item: &Item) -> u64
    requires { FitsItem item.now }
    ensures value { result ≡ item_size item.now }
    ensures small { result ≤ 2 ^ 17 }
{
    match item {
        Item::Segment { key, bytes, .. } => 5 + (key.len() + bytes.len()) as u64,
        Item::Image { bytes, .. } => 13 + bytes.len() as u64,
        Item::Range { bytes, .. } => 15 + bytes.len() as u64,
    }
}

fn items_length(items: &List<Item>) -> u64
    requires count { length items.now < 2 ^ 32 }
    requires each { AllByRecursion FitsItem items.now }
    ensures value { result ≡ items_size items.now }
    ensures small { result ≤ 2 ^ 50 }
{
    let mut size = 4;
    for item in items.as_slice() {
        size += item_length(item);
    }
    size
}

// How many bytes an entry has in the log behind its length.
pub(crate) fn rest_length(e: &Entry) -> u64
    requires { FitsEntry e.now }
    ensures value { result ≡ rest_size e.now }
    ensures small { result ≤ 2 ^ 51 }
{
    let line = 2 + e.line.len() as u64;
    let reply = 2 + e.reply.len() as u64;
    let notes = 4 + 8 * e.notes.len() as u64;
    8 + outcome_length(&e.outcome) + line + reply + notes + items_length(&e.items)
}

/// How many bytes an entry has in the log. Takes no memory. It looks at each item once.
#[tactic(auto, using(crate::proofs::SizeLaws::length_of_entry))]
pub fn entry_length(e: &Entry) -> u64
    requires { FitsEntry e.now }
    ensures { result ≡ length (entry_text e.now) }
{
    8 + rest_length(e)
}
