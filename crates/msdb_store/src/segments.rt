//! Segments in order, each in a slot where it stays: an insert and a delete move numbers of slots, and no segment.
ghost use Rattle.fp_model.specs.State.{ascend, is_below, numbers_up};
ghost use Rattle.key_order.specs.Places.{IsPlace};
ghost use Rattle.msdb_store.specs.Slots.{in_slots, slot_of};
ghost use Rattle.msdb_store.specs.Store.{room};
ghost use Rattle.std.specs.Option.{option_copied};
ghost use Rattle.std.specs.Prelude.{◌≡◌, ℕ, ◌-◌, ◌<◌, ◌≤◌, ◌^◌, [], IfOk, IsOk, OnErr, OnOk, Some, List as ListOf, false, insert, length, map, remove, slice_get, slice_index_or, slice_set, take, true};

use crate::keyed::key_in;
use fp_model::Bytes;
use std::alloc::{AllocError, Global};
use std::marker::Model;
use std::mem::replace;

// `order` has the number of each slot once: first those in use, in the order of their segments, then the free ones.
#[derive(Drop)]
pub(crate) struct Segments {
    slots: Vec<Bytes>,
    order: Vec<u32>,
    used: usize,
}

impl Model for Segments {
    ghost use Rattle.std.specs.Prelude.{◌-◌, length, min, take, vec_capacity};
    ghost use Rattle.msdb_store.specs.Slots.{AreSlots, Sequence, in_slots};

    ghost Value = { Sequence };

    ghost view = { λ s. record {
      items = in_slots s.slots.items (take s.used s.order.items);
      free = length s.order.items - s.used;
      capacity = min (vec_capacity s.slots) (vec_capacity s.order);
    } };

    ghost invariant = { λ s. AreSlots (length s.slots.items) s.order.items s.used };
}

// The segment in the slot of a number.
fn in_slot(slots: &[Bytes], number: u32) -> &[u8]
    ensures { result.now ≡ slot_of slots.now number }
{
    if (number as usize) < slots.len() {
        slots[number as usize].as_slice()
    } else {
        &[]
    }
}

// Puts a segment in place of another: into its memory where it is as long, so that segments stay beside one another.
fn put_over(alloc: Global, slot: &mut Bytes, segment: Bytes)
    ensures { slot.new ≡ segment }
{
    if slot.len() != segment.len() {
        *slot = segment;
        return;
    }
    let mut bytes = replace(slot, Bytes::new(alloc)).into_vec();
    bytes.as_mut_slice().copy_from_slice(segment.as_slice());
    *slot = Bytes::from_vec(bytes);
}

// Puts a copy of a segment into the memory of one that is as long.
fn write_over(alloc: Global, slot: &mut Bytes, segment: &[u8])
    ensures { length slot.old ≡ length segment.now → slot.new ≡ segment.now }
{
    if slot.len() == segment.len() {
        let mut bytes = replace(slot, Bytes::new(alloc)).into_vec();
        bytes.as_mut_slice().copy_from_slice(segment);
        *slot = Bytes::from_vec(bytes);
    }
}

// Whether the segment in a slot has a lower key.
fn is_lower(slots: &[Bytes], number: u32, count: usize, key: &[u8]) -> bool
    ensures { result ≡ is_below (take count (slot_of slots.now number)) key.now }
{
    key_in(in_slot(slots, number), count).cmp(key).is_lt()
}

// How many of the segments in the slots of these numbers have a lower key.
fn count_below(slots: &[Bytes], numbers: &[u32], count: usize, key: &[u8]) -> usize
    ensures within { result ≤ length numbers.now }
    ensures place { ascend (map (take count) (in_slots slots.now numbers.now)) ≡ true
        → IsPlace (take count) key.now (in_slots slots.now numbers.now) result }
{
    numbers.partition_point(
        |number: &u32| -> bool
            ensures { result ≡ is_below (take count (slot_of slots.entry.now number.now)) key.entry.now }
        { is_lower(slots, *number, count, key) },
    )
}

// Whether a place has no segment before it, or one with a lower key.
fn follows_lower(slots: &[Bytes], numbers: &[u32], count: usize, key: &[u8], at: usize) -> bool
    ensures { result ≡ true → (d : ℕ) → 0 < at
        → is_below (take count (slot_of slots.now (slice_index_or numbers.now (at - 1) d))) key.now ≡ true }
{
    if at == 0 {
        return true;
    }
    match numbers.get(at - 1) {
        Some(number) => is_lower(slots, *number, count, key),
        None => false,
    }
}

// Whether a place has no segment, or one whose key isn't lower.
fn has_no_lower(slots: &[Bytes], numbers: &[u32], count: usize, key: &[u8], at: usize) -> bool
    ensures { result ≡ true → (d : ℕ) → at < length numbers.now
        → is_below (take count (slot_of slots.now (slice_index_or numbers.now at d))) key.now ≡ false }
{
    match numbers.get(at) {
        Some(number) => !is_lower(slots, *number, count, key),
        None => true,
    }
}

// Whether a key's place is this one: as the keys ascend, what stands on both sides of it says so.
fn is_place(slots: &[Bytes], numbers: &[u32], count: usize, key: &[u8], at: usize) -> bool
    ensures within { result ≡ true → at ≤ length numbers.now }
    ensures place { result ≡ true → ascend (map (take count) (in_slots slots.now numbers.now)) ≡ true
        → IsPlace (take count) key.now (in_slots slots.now numbers.now) at }
{
    if at > numbers.len() {
        return false;
    }
    if !follows_lower(slots, numbers, count, key, at) {
        return false;
    }
    has_no_lower(slots, numbers, count, key, at)
}

// The numbers below this one, ascending.
fn numbers_below(alloc: Global, end: u32) -> Result<Vec<u32>, AllocError>
    ensures { IfOk result (λ numbers. numbers.items ≡ numbers_up end 0) }
{
    let mut numbers = Vec::with_capacity(alloc, end as usize)?;
    for number in 0..end {
        numbers.push(number)?;
    }
    Ok(numbers)
}

impl Segments {
    // These segments. It fails for want of memory, and where there are 2^32 of them.
    pub(crate) fn from_vec(slots: Vec<Bytes>) -> Result<Segments, AllocError>
        ensures items { IfOk result (λ made. made.items ≡ slots.items) }
        ensures few { IfOk result (λ made. length made.items < 2 ^ 32) }
    {
        let used = slots.len();
        if used > u32::MAX as usize {
            return Err(AllocError);
        }
        let order = numbers_below(*slots.allocator(), used as u32)?;
        Ok(Segments { slots, order, used })
    }

    // How many there are.
    pub(crate) fn len(&self) -> usize
        ensures { result ≡ length self.now.items }
    {
        self.used
    }

    // The segment at a place. None exactly where there are no more.
    pub(crate) fn get(&self, at: usize) -> Option<&[u8]>
        ensures { option_copied result ≡ slice_get self.now.items at }
    {
        if at >= self.used {
            return None;
        }
        Some(self.at(at))
    }

    // The segment at a place.
    pub(crate) fn at(&self, at: usize) -> &[u8]
        requires { at < length self.now.items }
        ensures { slice_get self.now.items at ≡ Some result.now }
    {
        in_slot(&self.slots, self.order[at])
    }

    // How many of them have a lower key. A guess that is good saves the search.
    pub(crate) fn count_below(&self, count: usize, key: &[u8], guess: usize) -> usize
        ensures within { result ≤ length self.now.items }
        ensures fits { length self.now.items < 2 ^ 64 }
        ensures place { ascend (map (take count) self.now.items) ≡ true
            → IsPlace (take count) key.now self.now.items result }
    {
        let numbers = &self.order[..self.used];
        if is_place(&self.slots, numbers, count, key, guess) {
            return guess;
        }
        count_below(&self.slots, numbers, count, key)
    }
}

impl Segments {
    // Puts a segment in place of the one at a place.
    pub(crate) fn set(&mut self, at: usize, segment: Bytes)
        requires { at < length self.old.items }
        ensures items { self.new.items ≡ slice_set self.old.items at segment }
        ensures capacity { self.old.capacity ≤ self.new.capacity }
    {
        let number = self.order[at];
        let alloc = *self.slots.allocator();
        put_over(alloc, &mut self.slots[number as usize], segment);
    }

    // Puts a copy of a segment in place of the one at a place, which is as long. Takes no memory.
    fn write(&mut self, at: usize, segment: &[u8])
        requires within { at < length self.old.items }
        requires long { (there : ListOf ℕ) → slice_get self.old.items at ≡ Some there
            → length there ≡ length segment.now }
        ensures items { self.new.items ≡ slice_set self.old.items at segment.now }
        ensures capacity { self.old.capacity ≤ self.new.capacity }
    {
        let number = self.order[at];
        let alloc = *self.slots.allocator();
        write_over(alloc, &mut self.slots[number as usize], segment);
    }

    // Puts a copy of a segment in place of the one at a place. Where that is as long no memory is taken. Want of memory
    // changes nothing.
    pub(crate) fn set_copy(&mut self, at: usize, segment: &[u8]) -> Result<(), AllocError>
        requires { at < length self.old.items }
        ensures items { OnOk result (self.new.items ≡ slice_set self.old.items at segment.now) }
        ensures err { OnErr result (self.new.items ≡ self.old.items) }
        ensures done { (there : ListOf ℕ) → slice_get self.old.items at ≡ Some there
            → length there ≡ length segment.now → IsOk result }
        ensures capacity { self.old.capacity ≤ self.new.capacity }
    {
        if self.at(at).len() == segment.len() {
            self.write(at, segment);
            return Ok(());
        }
        let copy = Bytes::from_slice(*self.slots.allocator(), segment)?;
        self.set(at, copy);
        Ok(())
    }

    // Puts a segment at a place; the later ones come behind it. It fails for want of memory, and where there would be
    // 2^32 of them.
    pub(crate) fn insert(&mut self, at: usize, segment: Bytes) -> Result<(), AllocError>
        requires { at ≤ length self.old.items }
        ensures items { OnOk result (self.new.items ≡ insert self.old.items at segment) }
        ensures err { OnErr result (self.new.items ≡ self.old.items) }
        ensures done { 0 < room self.old.capacity (length self.old.items) → IsOk result }
        ensures few { OnOk result (length self.new.items < 2 ^ 32) }
        ensures capacity { self.old.capacity ≤ self.new.capacity }
    {
        if self.used >= u32::MAX as usize {
            return Err(AllocError);
        }
        if self.used == self.order.len() {
            self.add_slot()?;
        }
        self.use_slot(at, segment);
        Ok(())
    }

    // Adds a free slot.
    fn add_slot(&mut self) -> Result<(), AllocError>
        requires few { length self.old.items < 2 ^ 32 - 1 }
        requires none { self.old.free ≡ 0 }
        ensures items { self.new.items ≡ self.old.items }
        ensures free { OnOk result (0 < self.new.free) }
        ensures done { length self.old.items < self.old.capacity → IsOk result }
        ensures capacity { self.old.capacity ≤ self.new.capacity }
    {
        if self.slots.len() == self.order.len() {
            let empty = Bytes::new(*self.slots.allocator());
            self.slots.push(empty)?;
        }
        let number = self.order.len() as u32;
        self.order.push(number)?;
        Ok(())
    }

    // Puts a segment at a place, into the first free slot.
    fn use_slot(&mut self, at: usize, segment: Bytes)
        requires within { at ≤ length self.old.items }
        requires free { 0 < self.old.free }
        ensures items { self.new.items ≡ insert self.old.items at segment }
        ensures capacity { self.old.capacity ≤ self.new.capacity }
    {
        let number = self.order.remove(self.used);
        self.slots[number as usize] = segment;
        // There is room for the number where it stood, so it takes no memory and is done.
        let _ = self.order.insert(at, number);
        self.used += 1;
    }

    // Takes the segment at a place away; its slot is free.
    pub(crate) fn remove(&mut self, at: usize)
        requires { at < length self.old.items }
        ensures items { self.new.items ≡ remove self.old.items at }
        ensures capacity { self.old.capacity ≤ self.new.capacity }
    {
        let number = self.order.remove(at);
        self.slots[number as usize] = Bytes::new(*self.slots.allocator());
        // There is room for the number where it stood, so it takes no memory and is done.
        let _ = self.order.push(number);
        self.used -= 1;
    }

    // Whether there is room for so many more.
    pub(crate) fn has_room(&self, n: usize) -> bool
        ensures { n ≤ room self.now.capacity (length self.now.items) → result ≡ true }
    {
        let capacity = self.slots.capacity().min(self.order.capacity());
        n <= capacity.saturating_sub(self.used)
    }

    // Makes room for so many segments more, unless there would be 2^32 of them. Where there is room nothing changes.
    pub(crate) fn reserve(&mut self, n: usize) -> Result<(), AllocError>
        ensures ok { OnOk result (n ≤ room self.new.capacity (length self.new.items)) }
        ensures few { OnOk result (length self.new.items < 2 ^ 32) }
        ensures stays { n ≤ room self.old.capacity (length self.old.items) → self.new ≡ self.old }
        ensures items { self.new.items ≡ self.old.items }
        ensures capacity { self.old.capacity ≤ self.new.capacity }
    {
        let most = u32::MAX as usize;
        if self.used > most || n > most - self.used {
            return Err(AllocError);
        }
        let capacity = self.slots.capacity().min(self.order.capacity());
        if n <= capacity.saturating_sub(self.used) {
            return Ok(());
        }
        self.slots
            .reserve(n.saturating_sub(self.slots.len() - self.used))?;
        self.order
            .reserve(n.saturating_sub(self.order.len() - self.used))
    }
}
