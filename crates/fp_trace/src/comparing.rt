//! Where the log of a folder differs from the one that was made.

use crate::running::{Placed, Run};
use std::alloc::{AllocError, Global};

// How many bytes two logs have in common at their beginnings.
fn alike(made: &[u8], found: &[u8]) -> usize {
    for (at, (one, other)) in made.iter().zip(found).enumerate() {
        if one != other {
            return at;
        }
    }
    made.len().min(found.len())
}

// The number of the group that has the byte at a place, of those that were made; none where that is the front.
fn group_of(groups: &[Placed], at: u64) -> Option<usize> {
    let mut found = None;
    for (number, group) in groups.iter().enumerate() {
        if group.gate <= at {
            found = Some(number);
        }
    }
    found
}

// Where a place is.
fn place_text(alloc: Global, run: &Run, at: usize) -> Result<String, AllocError> {
    match group_of(&run.groups, at as u64) {
        Some(number) if number < run.groups.len() && (at as u64) < run.groups[number].next => {
            let Placed { first, entries, .. } = run.groups[number];
            format!(in alloc; "in group {number}, which has {entries} entries from {first} on")
        }
        Some(_) => String::from_str(alloc, "behind the last group"),
        None => String::from_str(alloc, "in the front"),
    }
}

/// What is said of a folder's log beside the log of a run.
pub(crate) fn compared(alloc: Global, run: &Run, found: &[u8]) -> Result<String, AllocError> {
    let made = run.log.as_slice();
    let at = alike(made, found);
    let (made_bytes, found_bytes) = (made.len(), found.len());
    if found.is_empty() {
        return format!(in alloc; "log: the folder has none; {made_bytes} bytes were made\n");
    }
    if at == made_bytes && at == found_bytes {
        return format!(in alloc;
            "log: the folder's is the one that was made, {made_bytes} bytes\n"
        );
    }
    let place = place_text(alloc, run, at)?;
    format!(in alloc;
        "log: {made_bytes} bytes were made, and the folder's has {found_bytes}. They differ from byte {at} on, {place}\n"
    )
}
