//! The segments of one database.
ghost use Rattle.fp_model.specs.State.{ascend, is_below, key_length, segment_after, segment_of, with_segment, without_segment};
ghost use Rattle.fp_model.specs.Texts.{same_text};
ghost use Rattle.fp_model.specs.declared.definitions.MsdbDef.{MsdbDef as DefOf};
ghost use Rattle.past_segments.specs.inside.Places.{IsPlaced, IsWithin};
ghost use Rattle.key_order.specs.Places.{IsPlace};
ghost use Rattle.past_segments.specs.Times.{EndsBy, FitsSlot, IsSettledBy, Rises, database_at, is_late, segments_at};
ghost use Rattle.std.specs.List.{AllByRecursion};
ghost use Rattle.std.specs.Option.{option_copied};
ghost use Rattle.std.specs.Prelude.{◌≡◌, ◌<◌, ◌≤◌, ◌^◌, ℕ, [], List as ListOf, IfOk, OnErr, OnOk, Some, None, drop, false, insert, length, map, slice_get, take, true};

use crate::slot::{Slot, key_in};
use fp_model::{Bytes, List};
use std::alloc::{AllocError, Global};
use std::marker::Model;

// Where a key stands, or would stand.
#[derive(Clone, Copy)]
enum Place {
    Stands(usize),
    Lacks(usize),
}

/// The segments of a main storage database at every place. Contracts see its keys with their values (`Past`), which
/// show a database at each place.
#[derive(Drop)]
pub struct PastSegments {
    alloc: Global,
    // The length of a key.
    count: usize,
    // Keys ascend.
    slots: List<Slot>,
}

impl Model for PastSegments {
    ghost use Rattle.past_segments.specs.Times.{AreSlots, Past};

    ghost Value = { Past };

    ghost view = { λ p. record { count = p.count; slots = p.slots } };

    ghost invariant = { λ p. AreSlots p.count p.slots };
}

// Whether a key is lower.
fn is_lower(slot: &Slot, key: &[u8]) -> bool
    ensures { result ≡ is_below slot.now.key key.now }
{
    slot.key.as_slice().cmp(key).is_lt()
}

// How many of these keys are lower.
fn count_below(slots: &[Slot], key: &[u8]) -> usize
    ensures within { result ≤ length slots.now }
    ensures place { ascend (map (λ slot. slot.key) slots.now) ≡ true
        → IsPlace (λ slot. slot.key) key.now slots.now result }
{
    slots.partition_point(
        |slot: &Slot| -> bool
            ensures { result ≡ is_below slot.now.key key.entry.now }
        { is_lower(slot, key) },
    )
}

// The key at a place.
fn slot_at(slots: &List<Slot>, at: usize) -> &Slot
    requires { at < length slots.now }
    ensures { slice_get slots.now at ≡ Some result.now }
{
    &slots.as_slice()[at]
}

// Where a key stands among these, or would stand.
fn place_of(slots: &List<Slot>, key: &[u8]) -> Place
    ensures within { IsWithin (length slots.now) result }
    ensures fits { length slots.now < 2 ^ 64 }
    ensures place { ascend (map (λ slot. slot.key) slots.now) ≡ true
        → IsPlaced (λ slot. slot.key) key.now slots.now result }
{
    let at = count_below(slots.as_slice(), key);
    if at >= slots.len() {
        return Place::Lacks(at);
    }
    if slot_at(slots, at).key.as_slice() == key {
        Place::Stands(at)
    } else {
        Place::Lacks(at)
    }
}

// The first segment that these show at a place.
fn first_at(slots: &[Slot], place: u64) -> Option<&[u8]>
    requires { AllByRecursion (λ slot. Rises slot.versions) slots.now }
    ensures { option_copied result ≡ slice_get (segments_at place slots.now) 0 }
{
    for slot in slots {
        if let Some(segment) = slot.at(place) {
            return Some(segment);
        }
    }
    None
}

impl PastSegments {
    /// Without segments. Keys have this length, in bytes.
    pub fn new(alloc: Global, count: u16) -> PastSegments
        ensures count { result.count ≡ count }
        ensures slots { result.slots ≡ [] }
    {
        PastSegments {
            alloc,
            count: usize::from(count),
            slots: List::new(alloc),
        }
    }

    /// The segment of a key at a place. `None` exactly where there is none. Takes no memory, and looks at a logarithm of
    /// the keys, and of the values of this one.
    pub fn look(&self, place: u64, key: &[u8]) -> Option<&[u8]>
        ensures { (def : DefOf) → key_length def.fields ≡ self.now.count
            → option_copied result ≡ segment_of def (database_at place self.now) key.now }
    {
        match place_of(&self.slots, key) {
            Place::Stands(at) => slot_at(&self.slots, at).at(place),
            Place::Lacks(_) => None,
        }
    }

    // How many keys aren't greater.
    fn count_up_to(&self, key: &[u8]) -> usize
        ensures within { result ≤ length self.now.slots }
        ensures shown { (def : DefOf) (place : ℕ) → key_length def.fields ≡ self.now.count
            → slice_get (segments_at place (drop result self.now.slots)) 0
            ≡ segment_after def (database_at place self.now) (Some key.now) }
    {
        match place_of(&self.slots, key) {
            Place::Stands(at) => at + 1,
            Place::Lacks(at) => at,
        }
    }

    /// The first segment with a greater key at a place, or the first of all. `None` exactly where there is none. Takes no
    /// memory; keys that have no segment at the place are passed one by one.
    pub fn after(&self, place: u64, key: Option<&[u8]>) -> Option<&[u8]>
        ensures { (def : DefOf) → key_length def.fields ≡ self.now.count
            → option_copied result ≡ segment_after def (database_at place self.now) (option_copied key.entry) }
    {
        let from = match key {
            Some(key) => self.count_up_to(key),
            None => 0,
        };
        first_at(&self.slots.as_slice()[from..], place)
    }
}

impl PastSegments {
    /// The database has this segment from a place on, in place of that of its key or beside the others. It fails only for
    /// want of memory.
    pub fn put(&mut self, place: u64, segment: Bytes) -> Result<(), AllocError>
        requires { IsSettledBy place self.old }

        ensures from { (def : DefOf) (p : ℕ) → key_length def.fields ≡ self.old.count → place ≤ p
            → OnOk result (database_at p self.new ≡ with_segment def segment (database_at p self.old)) }
        ensures before { (p : ℕ) → p < place → database_at p self.new ≡ database_at p self.old }
        ensures err { OnErr result (self.new ≡ self.old) }

        // What is to be taken back, where it is.
        ensures settled { IsSettledBy place self.new }
        ensures late { (key : ListOf ℕ) → same_text (take self.old.count segment) key ≡ false
            → is_late place self.new key ≡ is_late place self.old key }
        ensures count { self.new.count ≡ self.old.count }
    {
        match place_of(&self.slots, key_in(segment.as_slice(), self.count)) {
            Place::Stands(at) => self.slots.item_mut(at).set(place, Some(segment)),
            Place::Lacks(at) => {
                let slot = Slot::first(self.alloc, self.count, place, segment)?;
                self.slots.insert(at, slot)
            }
        }
    }

    /// The database has no segment of this key from a place on. It fails only for want of memory.
    pub fn take_away(&mut self, place: u64, key: &[u8]) -> Result<(), AllocError>
        requires { IsSettledBy place self.old }

        ensures from { (def : DefOf) (p : ℕ) → key_length def.fields ≡ self.old.count → place ≤ p
            → OnOk result (database_at p self.new ≡ without_segment def key.now (database_at p self.old)) }
        ensures before { (p : ℕ) → p < place → database_at p self.new ≡ database_at p self.old }
        ensures err { OnErr result (self.new ≡ self.old) }

        // What is to be taken back, where it is.
        ensures settled { IsSettledBy place self.new }
        ensures late { (other : ListOf ℕ) → same_text key.now other ≡ false
            → is_late place self.new other ≡ is_late place self.old other }
        ensures count { self.new.count ≡ self.old.count }
    {
        match place_of(&self.slots, key) {
            Place::Stands(at) => self.slots.item_mut(at).set(place, None),
            Place::Lacks(_) => Ok(()),
        }
    }

    /// Takes back what a key was given from a place on. Takes no memory.
    pub fn take_back(&mut self, place: u64, key: &[u8])
        ensures before { (p : ℕ) → p < place → database_at p self.new ≡ database_at p self.old }
        ensures none { is_late place self.new key.now ≡ false }
        ensures late { (other : ListOf ℕ) → same_text key.now other ≡ false
            → is_late place self.new other ≡ is_late place self.old other }
        ensures settled { (p : ℕ) → IsSettledBy p self.old → IsSettledBy p self.new }
        ensures count { self.new.count ≡ self.old.count }
    {
        match place_of(&self.slots, key) {
            Place::Stands(at) => self.slots.item_mut(at).take_back(place),
            Place::Lacks(_) => {}
        }
    }
}
