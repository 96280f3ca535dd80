//! The last number that each terminal used, and the reply line that it got.
//!
//! The terminals stand in the order of their names, each in a place of its own in main storage: a new one moves the
//! handles of those behind it, a word each. Those that `reserve` made lie ready, so that `set` takes no memory.
ghost use Rattle.balancing.specs.Numbered.{as_last, lasts_in};
ghost use Rattle.balancing.specs.inside.Numbered.{IsPlaced, IsWithin};
ghost use Rattle.key_order.specs.Places.{IsPlace};
ghost use Rattle.fp_model.specs.Lasts.{last_of, with_last};
ghost use Rattle.fp_model.specs.State.{ascend, is_below};
ghost use Rattle.fp_model.specs.Texts.{same_text};
ghost use Rattle.std.specs.Prelude.{
  ◌≡◌,
  ◌+◌,
  ◌<◌,
  ◌≤◌,
  ◌↔◌,
  [],
  None,
  Some,
  IsTrue,
  IfNone,
  IfOk,
  IfSome,
  OnOk,
  insert,
  length,
  map,
  max,
  slice_get,
  slice_set,
  true,
  vec_capacity,
};

use fp_model::{Bytes, Name};
use std::alloc::{AllocError, Global};
use std::marker::Model;

// A terminal, its last number, and the line that answered it.
#[derive(Drop)]
struct Kept {
    lterm: Name,
    number: u64,
    line: Bytes,
}

// Where a terminal stands, or would stand.
#[derive(Clone, Copy)]
enum Place {
    Stands(usize),
    Lacks(usize),
}

/// A number and a reply line for each terminal that has used one, ascending by name.
#[derive(Drop)]
pub struct Lasts {
    terminals: Vec<Box<Kept>>,
    // For terminals that are new.
    free: Vec<Box<Kept>>,
}

impl Model for Lasts {
    ghost use Rattle.balancing.specs.Numbered.{Numbered, lasts_in};
    ghost use Rattle.fp_model.specs.State.{ascend};
    ghost use Rattle.std.specs.Prelude.{◌≡◌, ◌+◌, ◌≤◌, length, map, true, vec_capacity};

    ghost Value = { Numbered };

    ghost view = { λ l. record { terminals = lasts_in l.terminals.items; spare = length l.free.items } };

    ghost invariant = { λ l. (ascend (map (λ last. last.lterm.0) (lasts_in l.terminals.items)) ≡ true)
        × (length l.terminals.items + length l.free.items ≤ vec_capacity l.terminals) };
}

// Whether a name stands before another.
fn is_before(name: &Name, other: &Name) -> bool
    ensures { result ≡ is_below name.now.0 other.now.0 }
{
    name.cmp(other).is_lt()
}

// Whether two names are the same.
fn is_same(name: &Name, other: &Name) -> bool
    ensures { result ≡ same_text name.now.0 other.now.0 }
{
    name.0 == other.0
}

// How many of these terminals have a lower name.
fn count_before(terminals: &[Box<Kept>], lterm: &Name) -> usize
    ensures within { result ≤ length terminals.now }
    ensures place { ascend (map (λ last. last.lterm.0) (lasts_in terminals.now)) ≡ true
        → IsPlace (λ last. last.lterm.0) lterm.now.0 (lasts_in terminals.now) result }
{
    terminals.partition_point(
        |kept: &Box<Kept>| -> bool
            ensures { result ≡ is_below kept.now.value.lterm.0 lterm.entry.now.0 }
        { is_before(&kept.lterm, lterm) },
    )
}

// Where the terminal of a name stands among these, or would stand.
fn place_of(terminals: &[Box<Kept>], lterm: &Name) -> Place
    ensures within { IsWithin (length terminals.now) result }
    ensures place { ascend (map (λ last. last.lterm.0) (lasts_in terminals.now)) ≡ true
        → IsPlaced (λ last. last.lterm.0) lterm.now.0 (lasts_in terminals.now) result }
{
    let at = count_before(terminals, lterm);
    if at == terminals.len() {
        return Place::Lacks(at);
    }
    if is_same(&terminals[at].lterm, lterm) {
        Place::Stands(at)
    } else {
        Place::Lacks(at)
    }
}

// Puts a terminal in the place of another.
fn put_over(terminals: &mut Vec<Box<Kept>>, at: usize, kept: Kept)
    requires { at < length terminals.old.items }
    ensures items { lasts_in terminals.new.items ≡ slice_set (lasts_in terminals.old.items) at (as_last kept) }
    ensures length { length terminals.new.items ≡ length terminals.old.items }
    ensures capacity { vec_capacity terminals.old ≤ vec_capacity terminals.new }
{
    *terminals[at] = kept;
}

// Puts a terminal at a place, in a free handle; the later ones come behind it.
fn put_in(terminals: &mut Vec<Box<Kept>>, free: &mut Vec<Box<Kept>>, at: usize, kept: Kept)
    requires within { at ≤ length terminals.old.items }
    requires some { 1 ≤ length free.old.items }
    requires room { length terminals.old.items + length free.old.items ≤ vec_capacity terminals.old }
    ensures items { lasts_in terminals.new.items ≡ insert (lasts_in terminals.old.items) at (as_last kept) }
    ensures free { length free.old.items ≡ length free.new.items + 1 }
    ensures room { length terminals.new.items + length free.new.items ≤ vec_capacity terminals.new }
{
    if let Some(mut handle) = free.pop() {
        *handle = kept;
        // There is room for it, so it takes no memory and is done.
        let _ = terminals.insert(at, handle);
    }
}

// A handle for a terminal to come.
fn free_handle(alloc: Global) -> Result<Box<Kept>, AllocError> {
    let empty = Kept {
        lterm: Name([b' '; 8]),
        number: 0,
        line: Bytes::new(alloc),
    };
    Ok(Box::new(alloc, empty)?)
}

// Adds free handles until there are so many.
fn add_free(free: &mut Vec<Box<Kept>>, n: usize) -> Result<(), AllocError>
    ensures ok { OnOk result (n ≤ length free.new.items) }
    ensures no_fewer { length free.old.items ≤ length free.new.items }
    ensures no_more { length free.new.items ≤ max n (length free.old.items) }
{
    while free.len() < n {
        let handle = free_handle(*free.allocator())?;
        free.push(handle)?;
    }
    Ok(())
}

impl Lasts {
    /// Without terminals.
    pub fn new(alloc: Global) -> Result<Lasts, AllocError>
        ensures terminals { IfOk result (λ made. made.terminals ≡ []) }
        ensures spare { IfOk result (λ made. made.spare ≡ 0) }
    {
        Ok(Lasts {
            terminals: Vec::new(alloc),
            free: Vec::new(alloc),
        })
    }

    /// How many terminals there are.
    pub fn len(&self) -> usize
        ensures { result ≡ length self.now.terminals }
    {
        self.terminals.len()
    }

    /// Whether there are none.
    pub fn is_empty(&self) -> bool
        ensures { IsTrue result ↔ (length self.now.terminals ≡ 0) }
    {
        self.terminals.is_empty()
    }

    /// The last number of a terminal, and the line that answered it. `None` exactly where it has none.
    pub fn of(&self, lterm: &Name) -> Option<(u64, &[u8])>
        ensures some { IfSome result (λ found. last_of lterm.now self.now.terminals
            ≡ Some (record { lterm = lterm.now; number = found.0; line = found.1.now })) }
        ensures none { IfNone result (last_of lterm.now self.now.terminals ≡ None) }
    {
        match place_of(&self.terminals, lterm) {
            Place::Stands(at) => {
                let kept = &self.terminals[at];
                Some((kept.number, kept.line.as_slice()))
            }
            Place::Lacks(_) => None,
        }
    }

    /// The terminal at a place from 0, ascending by name, with its number and its line. `None` exactly where there
    /// are no more.
    pub fn at(&self, place: u64) -> Option<(&Name, u64, &[u8])>
        ensures some { IfSome result (λ found. slice_get self.now.terminals place
            ≡ Some (record { lterm = found.0.now; number = found.1; line = found.2.now })) }
        ensures none { IfNone result (slice_get self.now.terminals place ≡ None) }
    {
        let kept = self.terminals.get(place as usize)?;
        Some((&kept.lterm, kept.number, kept.line.as_slice()))
    }

    /// Makes room for so many new terminals.
    pub fn reserve(&mut self, n: u32) -> Result<(), AllocError>
        ensures ok { OnOk result (n ≤ self.new.spare) }
        ensures spare { self.old.spare ≤ self.new.spare }
        ensures terminals { self.new.terminals ≡ self.old.terminals }
    {
        let most = self.free.len().max(n as usize);
        self.terminals.reserve(most)?;
        add_free(&mut self.free, most)
    }

    /// Puts the last number of a terminal and the line that answered it, in place of those that it had.
    pub fn set(&mut self, lterm: &Name, number: u64, line: Bytes)
        requires { 1 ≤ self.old.spare }
        ensures terminals { self.new.terminals
            ≡ with_last (record { lterm = lterm.now; number = number; line = line }) self.old.terminals }
        ensures spare { self.old.spare ≤ self.new.spare + 1 }
    {
        let kept = Kept {
            lterm: *lterm,
            number,
            line,
        };
        match place_of(&self.terminals, lterm) {
            Place::Stands(at) => put_over(&mut self.terminals, at, kept),
            Place::Lacks(at) => put_in(&mut self.terminals, &mut self.free, at, kept),
        }
    }
}
