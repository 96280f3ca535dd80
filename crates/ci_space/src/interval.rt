//! An interval: the unit of an area that is read and written whole.
//!
//!     head 32 | elements, control's numbers or slots ..
//!
//! It has 512, 1,024, 2,048 or 4,096 bytes. Behind the head stand
//!
//!     base, overflow   elements, one behind the other up to the end
//!     control          begin 8, end 8, number of independent overflow intervals 8, first of the free chain 8, zeros
//!     sequential       slots, whose bytes may be any
//!
//! An `Interval` is always one whose bytes are in this form (`IsInterval`).

ghost use Rattle.std.specs.Prelude.{◌≡◌, ◌↔◌, ◌+◌, ◌-◌, ◌≤◌, ◌<◌, ◌≢◌, ℕ, List, [], ◌∷◌, ◌++◌, length, drop, take, slice_range, slice_set, IsTrue, IsSome, IsOk, IfOk, IfErr, IfSome, IfNone};
ghost use Rattle.ci_space.specs.Element.{Element, Free, Used};
ghost use Rattle.ci_space.specs.Interval.{is_size, is_kind, kind_of, has_elements, IsInterval, IsEmpty, IsUsed, HasUsed, HasRoom, Tiles, Takes, IsFull, UsedBecomes, UsedIsFreed, OthersStay, Keeps, SameSize, EndsWithin, empty_bytes, written};
ghost use Rattle.ci_space.specs.Head.{head_of, IsHeadOf, ends_of};

use crate::head::{self, Head};
use crate::{Memory, elements};
use std::alloc::Global;
use std::marker::Model;

/// An interval. Contracts see it as the list of its bytes.
#[derive(Drop)]
pub struct Interval {
    bytes: Vec<u8>,
}

impl Model for Interval {
    ghost use Rattle.std.specs.Prelude.{List, ℕ};
    ghost use Rattle.ci_space.specs.Interval.{IsInterval};

    ghost Value = { List ℕ };

    ghost view = { λ i. i.bytes.items };

    ghost invariant = { λ i. IsInterval i.bytes.items };
}

/// Whether an interval may have this size.
fn is_size(size: usize) -> bool
    ensures { result ≡ is_size size }
{
    matches!(size, 512 | 1024 | 2048 | 4096)
}

/// Whether bytes are an interval.
fn is_interval(bytes: &[u8]) -> bool
    ensures { IsTrue result ↔ IsInterval bytes.now }
{
    if !is_size(bytes.len()) || !head::is_head(bytes) {
        return false;
    }
    if elements::holds_elements(bytes[0]) {
        return elements::is_tiled(bytes);
    }
    bytes[0] != head::CONTROL || elements::is_zero(bytes, 64, bytes.len())
}

impl Interval {
    /// The interval that these bytes are. None exactly where they are none: where they have another
    /// size or another kind, where a byte of the head that is to be 0 isn't, where elements don't tile
    /// a base or overflow interval, or where control has a byte other than 0 behind its numbers.
    pub fn read(alloc: Global, bytes: &[u8]) -> Result<Option<Interval>, Memory>
        ensures some { IfOk result (λ read. IsSome read ↔ IsInterval bytes.now) }
        ensures same { IfOk result (λ read. IfSome read (λ interval. interval ≡ bytes.now)) }
    {
        if !is_interval(bytes) {
            return Ok(None);
        }
        let bytes = Vec::from_slice(alloc, bytes)?;
        Ok(Some(Interval { bytes }))
    }

    /// A new interval: one free element, or zeros behind the head of a control or sequential one. Its
    /// head is zeros but for the kind.
    pub fn empty(alloc: Global, size: u16, kind: u8) -> Result<Interval, Memory>
        requires size { IsTrue (is_size size) }
        requires kind { IsTrue (is_kind kind) }
        ensures bytes { IfOk result (λ interval. interval ≡ empty_bytes size kind) }
        ensures kind { IfOk result (λ interval. kind_of interval ≡ kind) }
        ensures size { IfOk result (λ interval. length interval ≡ size) }
        ensures one_free { IfOk result (λ interval. IsTrue (has_elements kind)
            → Tiles interval (Free (size - 32) ∷ [])) }
    {
        let mut bytes = vec![in alloc; 0u8; usize::from(size)]?;
        elements::put_empty(&mut bytes, kind);
        Ok(Interval { bytes })
    }

    /// The interval that these bytes are, without a copy of them. Err gives back the bytes, exactly where they are
    /// none, which is where `read` answers None.
    pub fn from_bytes(bytes: Vec<u8>) -> Result<Interval, Vec<u8>>
        ensures ok { IsOk result ↔ IsInterval bytes.items }
        ensures same { IfOk result (λ interval. interval ≡ bytes.items) }
        ensures back { IfErr result (λ back. back ≡ bytes) }
    {
        if is_interval(&bytes) {
            Ok(Interval { bytes })
        } else {
            Err(bytes)
        }
    }

    /// Its bytes, without a copy of them.
    pub fn into_bytes(self) -> Vec<u8>
        ensures same { result.items ≡ self }
        ensures interval { IsInterval self }
    {
        let Interval { bytes } = self;
        bytes
    }

    /// All bytes of the interval.
    pub fn whole(&self) -> &[u8]
        ensures bytes { result.now ≡ self.now }
        ensures interval { IsInterval self.now }
    {
        self.bytes.as_slice()
    }

    /// The number of its bytes.
    pub fn size(&self) -> u16
        ensures size { result ≡ length self.now }
        ensures is_size { IsTrue (is_size result) }
    {
        self.bytes.len() as u16
    }

    /// Another interval of the same bytes.
    pub fn copied(&self, alloc: Global) -> Result<Interval, Memory>
        ensures same { IfOk result (λ interval. interval ≡ self.now) }
        ensures interval { IfOk result IsInterval }
    {
        let bytes = Vec::from_slice(alloc, &self.bytes)?;
        Ok(Interval { bytes })
    }

    /// Whether one free element tiles it. A control or sequential interval is never empty.
    pub fn is_empty(&self) -> bool
        ensures { IsTrue result ↔ IsEmpty self.now }
    {
        elements::is_empty(&self.bytes)
    }

    /// Whether a used element stands at `at`. An `at` where none begins is allowed.
    pub fn is_used(&self, at: u16) -> bool
        ensures { IsTrue result ↔ IsUsed self.now at }
    {
        elements::is_used_at(&self.bytes, usize::from(at))
    }

    /// Takes the first free element that has room for `length` bytes, and gives the place of the new
    /// used element, whose segment type is 0. What it doesn't need stays free behind it. None exactly
    /// where no free element has room.
    pub fn take(&mut self, length: u16) -> Option<u16>
        ensures some { IfSome result (Takes self.old self.new length) }
        ensures full { IfNone result (IsFull self.old length) }
        ensures none { IfNone result (self.new ≡ self.old) }

        // What else a caller may ask of the new element and of the others.
        ensures room { IfSome result (λ at. HasRoom self.new at length) }
        ensures fresh { IfSome result (λ at. ¬ IsUsed self.old at) }
        ensures others { IfSome result (OthersStay self.old self.new) }
        ensures head { Keeps self.old self.new 0 32 }
        ensures size { SameSize self.old self.new }
    {
        let at = elements::take(&mut self.bytes, length)?;
        Some(at as u16)
    }

    /// Frees the used element at `at`, and merges it with its free neighbours.
    pub fn free(&mut self, at: u16)
        requires { IsUsed self.old at }
        ensures freed { UsedIsFreed self.old self.new at }
        ensures gone { ¬ IsUsed self.new at }
        ensures others { OthersStay self.old self.new at }
        ensures head { Keeps self.old self.new 0 32 }
        ensures size { SameSize self.old self.new }
    {
        elements::free(&mut self.bytes, usize::from(at));
    }

    /// The content of the used element at `at`: all its bytes behind its first four.
    pub fn content(&self, at: u16) -> &[u8]
        requires { IsUsed self.now at }
        ensures { (segment : ℕ) (content : List ℕ) → HasUsed self.now at segment content → result.now ≡ content }
    {
        elements::content(&self.bytes, usize::from(at))
    }

    /// Writes `from` over the first bytes of the content of the used element at `at`.
    pub fn write(&mut self, at: u16, from: &[u8])
        requires { HasRoom self.old at (length from.now) }
        ensures bytes { self.new ≡ written self.old (at + 4) from.now }
        ensures wrote { UsedBecomes self.old self.new at
            (λ segment content. Used segment (from.now ++ drop (length from.now) content)) }
        ensures others { OthersStay self.old self.new at }
        ensures head { Keeps self.old self.new 0 32 }
        ensures size { SameSize self.old self.new }
    {
        elements::write(&mut self.bytes, usize::from(at), from);
    }

    /// The segment type of the used element at `at`. It is 0 after `take`.
    pub fn type_at(&self, at: u16) -> u8
        requires { IsUsed self.now at }
        ensures { (segment : ℕ) (content : List ℕ) → HasUsed self.now at segment content → result ≡ segment }
    {
        elements::type_at(&self.bytes, usize::from(at))
    }

    /// Sets the segment type of the used element at `at`.
    pub fn set_type(&mut self, at: u16, segment: u8)
        requires { IsUsed self.old at }
        ensures bytes { self.new ≡ slice_set self.old (at + 3) segment }
        ensures becomes { UsedBecomes self.old self.new at (λ _ content. Used segment content) }
        ensures others { OthersStay self.old self.new at }
        ensures head { Keeps self.old self.new 0 32 }
        ensures size { SameSize self.old self.new }
    {
        elements::set_type(&mut self.bytes, usize::from(at), segment);
    }

    /// What the first 32 bytes say.
    pub fn head(&self) -> Head
        ensures head { result ≡ head_of self.now }
        ensures allowed { IsHeadOf (kind_of self.now) result }
    {
        head::head_at(&self.bytes)
    }

    /// Sets the first 32 bytes. The kind stays.
    pub fn set_head(&mut self, head: Head)
        requires { IsHeadOf (kind_of self.old) head }
        ensures head { head_of self.new ≡ head }
        ensures tiles { (elements : List Element) → Tiles self.old elements → Tiles self.new elements }
        ensures others { drop 32 self.new ≡ drop 32 self.old }
        ensures size { SameSize self.old self.new }
    {
        head::put_head(&mut self.bytes, head);
    }

    /// The four numbers of control: begin, end, the number of independent overflow intervals, and the
    /// first of the free chain.
    pub fn ends(&self) -> [u64; 4]
        requires { kind_of self.now ≡ 1 }
        ensures { result ≡ ends_of self.now }
    {
        head::ends_at(&self.bytes)
    }

    /// Sets the four numbers of control.
    pub fn set_ends(&mut self, ends: [u64; 4])
        requires { kind_of self.old ≡ 1 }
        ensures ends { ends_of self.new ≡ ends }
        ensures head { Keeps self.old self.new 0 32 }
        ensures size { SameSize self.old self.new }
        ensures others { drop 64 self.new ≡ drop 64 self.old }
    {
        head::put_ends(&mut self.bytes, ends);
    }

    /// `length` bytes of a sequential interval, from `at` on.
    pub fn slot(&self, at: u16, length: u16) -> &[u8]
        requires kind { kind_of self.now ≡ 4 }
        requires start { 32 ≤ at }
        requires end { EndsWithin self.now at length }
        ensures { result.now ≡ slice_range self.now at (at + length) }
    {
        let start = usize::from(at);
        &self.bytes[start..start + usize::from(length)]
    }

    /// Writes bytes of a sequential interval, from `at` on.
    pub fn set_slot(&mut self, at: u16, from: &[u8])
        requires kind { kind_of self.old ≡ 4 }
        requires start { 32 ≤ at }
        requires end { EndsWithin self.old at (length from.now) }
        ensures bytes { self.new ≡ written self.old at from.now }
        ensures size { SameSize self.old self.new }
    {
        elements::put(&mut self.bytes, usize::from(at), from);
    }
}
