//! A guess at the place of a key: the first eight bytes of each key, one behind the other, so that a search reads little
//! memory. A transaction looks for one key several times, so the last guess is kept. Where a head stood as the database
//! was made is noted by its hash, which saves the search while it stands there still. What is guessed is looked up, so
//! nothing but time rests on it.
use crate::keyed::key_in;
use fp_model::Bytes;
use std::alloc::{AllocError, Global};
use std::cell::Cell;

// A head, and how many keys have a lower one.
#[derive(Clone, Copy)]
struct Guess {
    head: u64,
    place: usize,
}

// Of the least head: no key has a lower one.
const FIRST: Guess = Guess { head: 0, place: 0 };

// An odd number whose product with a number has bits of all its low half in the middle.
const SPREAD: u64 = 0x9E37_79B9_7F4A_7C15;

// The heads of the keys, in the order of the segments.
#[derive(Drop)]
pub(crate) struct Heads {
    heads: Vec<u64>,
    // By hash, the place that one of the heads had at first. There are twice as many as heads, or more.
    noted: Vec<u32>,
    // The guess that was made last.
    last: Cell<Guess>,
}

// The first eight bytes of a key as a number; zeros stand for those that it lacks.
pub(crate) fn head_of(key: &[u8]) -> u64 {
    let mut head = [0; 8];
    let count = key.len().min(8);
    head[..count].copy_from_slice(&key[..count]);
    u64::from_be_bytes(head)
}

// Where a head is noted among so many. It is no place where there are none.
fn note_of(head: u64, count: usize) -> usize {
    let folded = head ^ (head >> 32);
    (folded.wrapping_mul(SPREAD) >> 32) as usize & count.saturating_sub(1)
}

// How many notes there are for so many heads: a power of 2, and none where there are too many heads for a note.
fn note_count(heads: usize) -> usize {
    if heads == 0 || heads > (1 << 31) {
        return 0;
    }
    (2 * heads).next_power_of_two()
}

// The place of each head, noted by its hash. Of those with one hash the last counts.
fn noted(alloc: Global, heads: &[u64]) -> Result<Vec<u32>, AllocError> {
    let count = note_count(heads.len());
    let mut notes = vec![in alloc; 0; count]?;
    for (place, head) in heads.iter().enumerate() {
        let at = note_of(*head, count);
        if at < notes.len() && place <= u32::MAX as usize {
            notes[at] = place as u32;
        }
    }
    Ok(notes)
}

impl Heads {
    // Those of the keys of these segments.
    pub(crate) fn of(alloc: Global, segments: &[Bytes], count: usize) -> Result<Heads, AllocError> {
        let mut heads = Vec::with_capacity(alloc, segments.len())?;
        for segment in segments {
            heads.push(head_of(key_in(segment.as_slice(), count)))?;
        }
        let noted = noted(alloc, heads.as_slice())?;
        Ok(Heads {
            heads,
            noted,
            last: Cell::new(FIRST),
        })
    }

    // The place of a head, where it stands as it is noted.
    fn noted_place(&self, head: u64) -> Option<usize> {
        let at = note_of(head, self.noted.len());
        if at >= self.noted.len() {
            return None;
        }
        let place = self.noted[at] as usize;
        if place < self.heads.len() && self.heads[place] == head {
            Some(place)
        } else {
            None
        }
    }

    // How many have a lower head, by halving them.
    fn search(&self, head: u64) -> usize {
        self.heads
            .partition_point(|lower: &u64| -> bool { *lower < head })
    }

    // How many have a lower head, or the place of one with this head.
    pub(crate) fn guess(&self, key: &[u8]) -> usize {
        let head = head_of(key);
        let last = self.last.get();
        if last.head == head {
            return last.place;
        }
        let place = match self.noted_place(head) {
            Some(place) => place,
            None => self.search(head),
        };
        self.last.set(Guess { head, place });
        place
    }

    // A key with this head comes to a place. Where there is no memory for it the guesses get worse.
    pub(crate) fn insert(&mut self, at: usize, head: u64) {
        if at <= self.heads.len() {
            let _ = self.heads.insert(at, head);
        }
        self.last.set(FIRST);
    }

    // The key at a place goes.
    pub(crate) fn remove(&mut self, at: usize) {
        if at < self.heads.len() {
            self.heads.remove(at);
        }
        self.last.set(FIRST);
    }

    // Makes room for so many keys more.
    pub(crate) fn reserve(&mut self, n: usize) -> Result<(), AllocError> {
        self.heads.reserve(n)
    }
}
