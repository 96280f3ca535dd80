//! Segments that are put into elements of an area.

ghost use Rattle.std.specs.Prelude.{◌≡◌, ◌↔◌, ◌<◌, ℕ, List, Err, IfOk, OnOk, IsErrOf, IsTrue, IsFalse, false, length, IfSome, slice_get};
ghost use Rattle.ci_space.specs.Calls.{GoesOn};
ghost use Rattle.fp_lists.specs.Faults.{Rose};
ghost use Rattle.ci_space.specs.Interval.{HasRoom, HasUsed, IsUsed, OthersStay, Keeps, SameSize};
ghost use Rattle.ci_overflow.specs.Lists.{bytes_at};
ghost use Rattle.ci_overflow.specs.Rooms.{IsPut};
ghost use Rattle.fp_model.specs.Order.{child_types};
ghost use Rattle.anchor_elements.specs.Elements.{content_length, has_serial, segment_length, AreTypes};
ghost use Rattle.anchor_elements.specs.Puts.{PutsSegment};
ghost use Rattle.anchor_elements.specs.Spelling.{Says, said, spelled_length};

use crate::element::{has_serial, interval_at};
use crate::fault::AnchorFault;
use crate::pointer::Pointer;
use crate::spelling::{spell, spelled_length, zeros};
use ci_space::{Interval, Intervals};
use fp_model::{List, SegDef};

/// What an element is to say.
#[derive(Clone, Copy)]
pub struct Saying<'a> {
    /// The next twin.
    pub next: Pointer,
    /// The newest serial, 0 for none.
    pub serial: u64,
    /// The first child of each direct child type.
    pub firsts: &'a [Pointer],
    pub bytes: &'a [u8],
}

/// Puts the interval of this number.
pub fn put<I: Intervals>(i: &mut I, ci: u64, interval: Interval) -> Result<(), AnchorFault>
    requires in_range { ci < I.number i.old }
    requires size { length interval ≡ I.size i.old }
    ensures put { I.told i.old → OnOk result (IsPut (I.intervals i.old) (I.intervals i.new) ci interval) }
    ensures sound { (n : ℕ) → ¬ (result ≡ Err (AnchorFault.Damaged n)) }
    ensures never_failed { ¬ IsErrOf result AnchorFault.Failed }
    ensures number { I.number i.new ≡ I.number i.old }
    ensures goes_on { GoesOn I.told I.size I.faults I.keeps i.old i.new }
{
    match i.put(ci, interval) {
        Ok(()) => Ok(()),
        Err(_) => Err(AnchorFault::Memory),
    }
}

/// Whether a used element with room for so many bytes stands there.
pub fn has_room(interval: &Interval, at: u16, length: usize) -> bool
    ensures { IsTrue result ↔ HasRoom interval.now at length }
{
    interval.is_used(at) && length <= interval.content(at).len()
}

/// Gives the used element at `at` this type and this content, and answers whether that changed it.
fn rewrite(interval: &mut Interval, at: u16, segment: u8, content: &[u8]) -> bool
    requires used { IsUsed interval.old at }
    requires whole { (type : ℕ) (was : List ℕ) → HasUsed interval.old at type was → length was ≡ length content.now }
    ensures element { HasUsed interval.new at segment content.now }
    ensures others { OthersStay interval.old interval.new at }
    ensures head { Keeps interval.old interval.new 0 32 }
    ensures size { SameSize interval.old interval.new }
    ensures same { IsFalse result → interval.new ≡ interval.old }
{
    if interval.type_at(at) == segment && interval.content(at) == content {
        return false;
    }
    interval.set_type(at, segment);
    interval.write(at, content);
    true
}

/// Lets the used element at `at` say this, and answers whether that changed it.
pub fn say(
    interval: &mut Interval,
    at: u16,
    segment: u8,
    with_serial: bool,
    saying: Saying<'_>,
) -> bool
    requires { HasRoom interval.old at (spelled_length with_serial (said saying)) }
    ensures says { Says interval.new at segment with_serial (said saying.entry) }
    ensures others { OthersStay interval.old interval.new at }
    ensures head { Keeps interval.old interval.new 0 32 }
    ensures size { SameSize interval.old interval.new }
    ensures same { IsFalse result → interval.new ≡ interval.old }
{
    let length = interval.content(at).len();
    let mut content = zeros();
    spell(&mut content, with_serial, saying);
    rewrite(interval, at, segment, &content[..length])
}

/// Puts a segment of this type into the used element at a pointer, where it says something else. An
/// element that says it already is not written again.
///
/// `Damaged` names the interval of the pointer: it stands outside the area, its bytes are no interval,
/// or no used element with room for the segment stands at the place.
pub fn put_segment<I: Intervals>(
    i: &mut I,
    segments: &List<SegDef>,
    segment: u8,
    at: Pointer,
    saying: Saying<'_>,
) -> Result<(), AnchorFault>
    requires types { AreTypes (I.size i.old) segments.now }
    requires segment { IfSome (slice_get segments.now segment) (λ def. def.sequential ≡ false) }
    requires defined { segment < length segments.now }
    requires firsts { length saying.firsts.now ≡ length (child_types segments.now segment) }
    requires bytes { length saying.bytes.now ≡ segment_length segments.now segment }
    requires serial { has_serial segments.now segment ≡ false → saying.serial ≡ 0 }
    ensures put { I.told i.old → HasRoom (bytes_at (I.intervals i.old) at.0) at.1 (content_length segments.now segment)
        → OnOk result (PutsSegment segments.now (I.intervals i.old) (I.intervals i.new) segment at
        (record {
          next = saying.entry.next;
          serial = saying.entry.serial;
          firsts = saying.entry.firsts.now;
          bytes =
              saying.entry.bytes.now;
        })) }
    ensures sound { I.told i.old → HasRoom (bytes_at (I.intervals i.old) at.0) at.1
        (content_length segments.now segment) → (ci : ℕ) → ¬ (result ≡ Err (AnchorFault.Damaged ci)) }
    ensures damaged { (ci : ℕ) → result ≡ Err (AnchorFault.Damaged ci) → ci ≡ at.0 }
    ensures failed { IsErrOf result AnchorFault.Failed → Rose (I.faults i.old) (I.faults i.new) }
    ensures number { I.number i.new ≡ I.number i.old }
    ensures goes_on { GoesOn I.told I.size I.faults I.keeps i.old i.new }
{
    let mut interval = interval_at(i, at.0, at.0)?;
    let with_serial = has_serial(segments, segment);
    let length = spelled_length(with_serial, saying);
    if !has_room(&interval, at.1, length) {
        return Err(AnchorFault::Damaged(at.0));
    }
    if !say(&mut interval, at.1, segment, with_serial, saying) {
        return Ok(());
    }
    put(i, at.0, interval)
}
