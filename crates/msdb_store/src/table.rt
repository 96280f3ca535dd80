//! One database: its fields, and its segments by ascending key.
ghost use Rattle.fp_model.specs.State.{ascend, drop_key, is_below, key_length, key_of, put_by_key};
ghost use Rattle.fp_model.specs.Texts.{same_text};
ghost use Rattle.msdb_store.specs.inside.Places.{IsPlaced, IsWithin};
ghost use Rattle.std.specs.List.{AllByRecursion};
ghost use Rattle.std.specs.Option.{option_copied};
ghost use Rattle.msdb_store.specs.Store.{room};
ghost use Rattle.msdb_store.specs.inside.Store.{lacks};
ghost use Rattle.std.specs.Prelude.{slice_get, ◌≡◌, ◌+◌, ◌<◌, ◌≤◌, IfOk, IsOk, ◌^◌, ℕ, List as ListOf, OnErr, OnOk, Some, false, find, if◌then◌else◌, length, map, take, true};

use crate::heads::{Heads, head_of};
use crate::keyed::{Place, is_same, key_in};
use crate::segments::Segments;
use fp_model::{Bytes, FieldDef, List, Msdb, MsdbDef, key_length};
use std::alloc::{AllocError, Global};

#[derive(Drop)]
pub(crate) struct Table {
    pub(crate) fields: List<FieldDef>,
    pub(crate) segments: Segments,
    heads: Heads,
}

impl Table {
    // The database of a definition with these segments. It fails for want of memory, and where there are 2^32 of them.
    pub(crate) fn new(
        alloc: Global,
        def: &MsdbDef,
        segments: Vec<Bytes>,
    ) -> Result<Table, AllocError>
        ensures fields { IfOk result (λ table. table.fields ≡ def.now.fields) }
        ensures segments { IfOk result (λ table. table.segments.items ≡ segments.items) }
        ensures few { IfOk result (λ table. length table.segments.items < 2 ^ 32) }
    {
        let count = usize::from(key_length(def.fields.as_slice()));
        let heads = Heads::of(alloc, segments.as_slice(), count)?;
        Ok(Table {
            fields: List::from_vec(Vec::from_slice(alloc, def.fields.as_slice())?),
            segments: Segments::from_vec(segments)?,
            heads,
        })
    }

    pub(crate) fn key_length(&self) -> usize
        ensures { result ≡ key_length self.now.fields }
    {
        usize::from(key_length(self.fields.as_slice()))
    }

    // Whether the segment at a place has this key, of so many bytes.
    fn has_key(&self, at: usize, count: usize, key: &[u8]) -> bool
        ensures same { result ≡ true → (segment : ListOf ℕ) × (slice_get self.now.segments.items at ≡ Some segment)
            × (same_text (take count segment) key.now ≡ true) }
        ensures within { result ≡ true → at < length self.now.segments.items }
        ensures fits { length self.now.segments.items < 2 ^ 64 }
    {
        if at >= self.segments.len() {
            return false;
        }
        is_same(key_in(self.segments.at(at), count), key)
    }

    // Where the segment of a key stands, or would stand.
    fn place(&self, key: &[u8]) -> Place
        ensures within { IsWithin (length self.now.segments.items) result }
        ensures fits { length self.now.segments.items < 2 ^ 64 }
        ensures place { ascend (map (key_of self.now.fields) self.now.segments.items) ≡ true
            → IsPlaced (key_of self.now.fields) key.now self.now.segments.items result }
    {
        let count = self.key_length();
        let guess = self.heads.guess(key);
        if self.has_key(guess, count, key) {
            return Place::Stands(guess);
        }
        let at = self.segments.count_below(count, key, guess);
        let Some(segment) = self.segments.get(at) else {
            return Place::Lacks(at);
        };
        if key_in(segment, count) == key {
            Place::Stands(at)
        } else {
            Place::Lacks(at)
        }
    }

    // The segment of a key.
    pub(crate) fn look(&self, key: &[u8]) -> Option<&[u8]>
        ensures { ascend (map (key_of self.now.fields) self.now.segments.items) ≡ true
            → option_copied result ≡ find (λ s. same_text (key_of self.now.fields s) key.now) self.now.segments.items }
    {
        match self.place(key) {
            Place::Stands(at) => self.segments.get(at),
            Place::Lacks(_) => None,
        }
    }
}

impl Table {
    // The segment at a place. None exactly where there are no more.
    pub(crate) fn at(&self, at: usize) -> Option<&[u8]>
        ensures { option_copied result ≡ slice_get self.now.segments.items at }
    {
        self.segments.get(at)
    }

    // How many segments there are.
    pub(crate) fn count(&self) -> usize
        ensures { result ≡ length self.now.segments.items }
    {
        self.segments.len()
    }

    // The first segment with a greater key.
    pub(crate) fn above(&self, key: &[u8]) -> Option<&[u8]>
        ensures { ascend (map (key_of self.now.fields) self.now.segments.items) ≡ true
            → option_copied result ≡ find (λ s. is_below key.now (key_of self.now.fields s)) self.now.segments.items }
    {
        let at = self.count_up_to(key);
        self.segments.get(at)
    }

    // How many segments stand before the first with a greater key.
    fn count_up_to(&self, key: &[u8]) -> usize
        ensures { ascend (map (key_of self.now.fields) self.now.segments.items) ≡ true
            → slice_get self.now.segments.items result ≡ find (λ s. is_below key.now (key_of self.now.fields s))
            self.now.segments.items }
    {
        match self.place(key) {
            Place::Stands(at) => at + 1,
            Place::Lacks(at) => at,
        }
    }

    // Puts a segment in place of that of its key, or at its place. It fails only for want of memory.
    pub(crate) fn put(&mut self, segment: Bytes) -> Result<(), AllocError>
        ensures ok { ascend (map (key_of self.old.fields) self.old.segments.items) ≡ true
            → OnOk result (self.new.segments.items
            ≡ put_by_key (key_of self.old.fields) segment
            (drop_key (key_of self.old.fields) (key_of self.old.fields segment) self.old.segments.items)) }
        ensures err { OnErr result (self.new.segments.items ≡ self.old.segments.items) }
        ensures fields { self.new.fields ≡ self.old.fields }
        ensures done { ascend (map (key_of self.old.fields) self.old.segments.items) ≡ true
            → (lacks self.old.fields self.old.segments.items segment ≡ true
            → 0 < room self.old.segments.capacity (length self.old.segments.items)) → IsOk result }
        ensures long { ascend (map (key_of self.old.fields) self.old.segments.items) ≡ true
            → length self.new.segments.items ≤ length self.old.segments.items +
            (if lacks self.old.fields self.old.segments.items segment then 1 else 0) }
        ensures few { length self.old.segments.items < 2 ^ 32 → length self.new.segments.items < 2 ^ 32 }
        ensures capacity { self.old.segments.capacity ≤ self.new.segments.capacity }
    {
        let key = key_in(segment.as_slice(), self.key_length());
        let head = head_of(key);
        match self.place(key) {
            Place::Stands(at) => self.segments.set(at, segment),
            Place::Lacks(at) => {
                self.segments.insert(at, segment)?;
                self.heads.insert(at, head);
            }
        }
        Ok(())
    }

    // Puts a copy of a segment in place of that of its key, or at its place. It fails only for want of memory, and takes
    // none where there is one of that key, which is as long.
    pub(crate) fn put_copy(&mut self, alloc: Global, segment: &[u8]) -> Result<(), AllocError>
        ensures ok { ascend (map (key_of self.old.fields) self.old.segments.items) ≡ true
            → OnOk result (self.new.segments.items
            ≡ put_by_key (key_of self.old.fields) segment.now
            (drop_key (key_of self.old.fields) (key_of self.old.fields segment.now) self.old.segments.items)) }
        ensures err { OnErr result (self.new.segments.items ≡ self.old.segments.items) }
        ensures fields { self.new.fields ≡ self.old.fields }
        ensures done { (n : ℕ) → ascend (map (key_of self.old.fields) self.old.segments.items) ≡ true
            → lacks self.old.fields self.old.segments.items segment.now ≡ false
            → AllByRecursion (λ there. length there ≡ n) self.old.segments.items
            → length segment.now ≡ n → IsOk result }
        ensures long { ascend (map (key_of self.old.fields) self.old.segments.items) ≡ true
            → length self.new.segments.items ≤ length self.old.segments.items +
            (if lacks self.old.fields self.old.segments.items segment.now then 1 else 0) }
        ensures few { length self.old.segments.items < 2 ^ 32 → length self.new.segments.items < 2 ^ 32 }
        ensures capacity { self.old.segments.capacity ≤ self.new.segments.capacity }
    {
        let key = key_in(segment, self.key_length());
        match self.place(key) {
            Place::Stands(at) => self.segments.set_copy(at, segment)?,
            Place::Lacks(_) => {
                let copy = Bytes::from_slice(alloc, segment)?;
                self.put(copy)?;
            }
        }
        Ok(())
    }

    // Takes the segment of a key away, if there is one.
    pub(crate) fn take_away(&mut self, key: &[u8])
        ensures segments { ascend (map (key_of self.old.fields) self.old.segments.items) ≡ true
            → self.new.segments.items ≡ drop_key (key_of self.old.fields) key.now self.old.segments.items }
        ensures fields { self.new.fields ≡ self.old.fields }
        ensures shorter { length self.new.segments.items ≤ length self.old.segments.items }
        ensures capacity { self.old.segments.capacity ≤ self.new.segments.capacity }
    {
        match self.place(key) {
            Place::Stands(at) => {
                self.segments.remove(at);
                self.heads.remove(at);
            }
            Place::Lacks(_) => {}
        }
    }

    // Makes room for so many segments more, unless there would be 2^32 of them. Where there is room nothing changes.
    pub(crate) fn reserve(&mut self, n: usize) -> Result<(), AllocError>
        ensures ok { OnOk result (n ≤ room self.new.segments.capacity (length self.new.segments.items)) }
        ensures few { OnOk result (length self.new.segments.items < 2 ^ 32) }
        ensures stays { n ≤ room self.old.segments.capacity (length self.old.segments.items) → self.new ≡ self.old }
        ensures segments { self.new.segments.items ≡ self.old.segments.items }
        ensures capacity { self.old.segments.capacity ≤ self.new.segments.capacity }
        ensures fields { self.new.fields ≡ self.old.fields }
    {
        let has_room = self.segments.has_room(n);
        self.segments.reserve(n)?;
        if has_room {
            return Ok(());
        }
        self.heads.reserve(n)
    }

    // The segments once more.
    pub(crate) fn database(&self, alloc: Global) -> Result<Msdb, AllocError>
        ensures { IfOk result (λ msdb. msdb.segments ≡ self.now.segments.items) }
    {
        let mut segments = List::with_capacity(alloc, self.segments.len())?;
        for at in 0..self.segments.len() {
            segments.push(Bytes::from_slice(alloc, self.segments.at(at))?)?;
        }
        Ok(Msdb { segments })
    }
}
