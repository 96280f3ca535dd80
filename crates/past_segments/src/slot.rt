//! One key, and the values that it had.
ghost use Rattle.past_segments.specs.Times.{EndsBy, HasKey, Rises, value_at};
ghost use Rattle.past_segments.specs.inside.Times.{EndsBefore, reaches, value_before};
ghost use Rattle.std.specs.Option.{option_copied};
ghost use Rattle.std.specs.Prelude.{◌≡◌, ◌<◌, ◌≤◌, ◌∷◌, ℕ, [], List as ListOf, IfOk, None, IfSome, Some, OnErr, OnOk, length, nat_le, take};

use fp_model::{Bytes, List};
use std::alloc::{AllocError, Global};

/// What the segment of a key is from a place on; `None` where there is none.
#[derive(Drop)]
pub(crate) struct Version {
    pub(crate) from: u64,
    pub(crate) segment: Option<Bytes>,
}

/// A key, and its values, the oldest first.
#[derive(Drop)]
pub(crate) struct Slot {
    pub(crate) key: Bytes,
    pub(crate) versions: List<Version>,
}

// The key of a segment: its first bytes.
pub(crate) fn key_in(segment: &[u8], count: usize) -> &[u8]
    ensures { result.now ≡ take count segment.now }
{
    &segment[..count.min(segment.len())]
}

impl Version {
    // The segment.
    fn segment(&self) -> Option<&[u8]>
        ensures { option_copied result ≡ self.now.segment }
    {
        match &self.segment {
            Some(segment) => Some(segment.as_slice()),
            None => None,
        }
    }
}

// How many of the values stand from a place or before.
fn count_up_to(versions: &[Version], place: u64) -> usize
    ensures within { result ≤ length versions.now }
    ensures value { Rises versions.now → value_at place versions.now ≡ value_before None versions.now result }
{
    versions.partition_point(
        |version: &Version| -> bool
            ensures { result ≡ nat_le version.now.from place }
        { version.from <= place },
    )
}

impl Slot {
    // The key of a segment, its first bytes, with the segment from a place on. It fails only for want of memory.
    pub(crate) fn first(
        alloc: Global,
        count: usize,
        place: u64,
        segment: Bytes,
    ) -> Result<Slot, AllocError>
        ensures key { IfOk result (λ slot. slot.key ≡ take count segment) }
        ensures versions { IfOk result (λ slot. slot.versions ≡ record { from = place; segment = Some segment } ∷ []) }
    {
        let key = Bytes::from_slice(alloc, key_in(segment.as_slice(), count))?;
        let mut versions = List::new(alloc);
        versions.push(Version {
            from: place,
            segment: Some(segment),
        })?;
        Ok(Slot { key, versions })
    }

    // The value at a place.
    pub(crate) fn at(&self, place: u64) -> Option<&[u8]>
        ensures { Rises self.now.versions → option_copied result ≡ value_at place self.now.versions }
    {
        let versions = self.versions.as_slice();
        let count = count_up_to(versions, place);
        if count == 0 {
            return None;
        }
        versions[count - 1].segment()
    }

    // Whether the last value stands from a place or behind it.
    fn reaches(&self, place: u64) -> bool
        ensures { result ≡ reaches place self.now.versions }
    {
        match self.versions.as_slice().last() {
            Some(version) => version.from >= place,
            None => false,
        }
    }

    // Has this value from a place on, behind which there is none so far. It fails only for want of memory.
    pub(crate) fn set(&mut self, place: u64, segment: Option<Bytes>) -> Result<(), AllocError>
        requires ends { EndsBy place self.old.versions }
        ensures from { OnOk result ((p : ℕ) → place ≤ p → value_at p self.new.versions ≡ segment) }
        ensures before { (p : ℕ) → p < place → value_at p self.new.versions ≡ value_at p self.old.versions }
        ensures err { OnErr result (self.new ≡ self.old) }
        ensures key { self.new.key ≡ self.old.key }
        ensures rises { Rises self.old.versions → Rises self.new.versions }
        ensures ends { EndsBy place self.new.versions }
        ensures has_key { (count : ℕ) (key : ListOf ℕ) → HasKey count key self.old.versions
            → IfSome segment (λ s. take count s ≡ key) → HasKey count key self.new.versions }
    {
        if self.reaches(place) {
            let last = self.versions.len() - 1;
            self.versions.item_mut(last).segment = segment;
            return Ok(());
        }
        self.versions.push(Version {
            from: place,
            segment,
        })
    }

    // Takes back the values that stand from a place or behind it.
    pub(crate) fn take_back(&mut self, place: u64)
        ensures before { (p : ℕ) → p < place → value_at p self.new.versions ≡ value_at p self.old.versions }
        ensures key { self.new.key ≡ self.old.key }
        ensures rises { Rises self.old.versions → Rises self.new.versions }
        ensures ends { Rises self.old.versions → EndsBefore place self.new.versions }
        ensures has_key { (count : ℕ) (key : ListOf ℕ) → HasKey count key self.old.versions
            → HasKey count key self.new.versions }
        ensures settled { (p : ℕ) → EndsBy p self.old.versions → EndsBy p self.new.versions }
    {
        while self.reaches(place) {
            let _ = self.versions.pop();
        }
    }
}
