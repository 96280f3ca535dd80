//! An element of an area, and the segment that stands in it.
//!
//!     next twin 10 | newest serial 8 | first child 10 of each direct child type .. | segment | zeros ..
//!
//! A pointer is the number of an interval 8 and a place 2. Only a root has a newest serial, where its database has a
//! sequential type.

ghost use Rattle.byteorder.specs.Endian.{big_from};
ghost use Rattle.std.specs.Prelude.{if◌then◌else◌, List, ◌≡◌, ◌↔◌, ◌&&◌, not, ◌^◌, ◌+◌, ◌*◌, ◌≤◌, ◌<◌, ◌⊎◌, ℕ, Err, length, IsTrue, IfOk, OnOk, IfSome, IfNone, true, false, IsErrOf, All, slice_range};
ghost use Rattle.ci_space.specs.Calls.{GoesOn};
ghost use Rattle.fp_lists.specs.Faults.{Rose};
ghost use Rattle.ci_space.specs.Interval.{IsInterval, IsZero};
ghost use Rattle.ci_overflow.specs.Lists.{bytes_at};
ghost use Rattle.fp_model.specs.Order.{child_types, is_child_of, numbers_from};
ghost use Rattle.fp_model.specs.Shape.{has_length};
ghost use Rattle.fp_model.specs.WellFormed.{has_sequential};
ghost use Rattle.anchor_elements.specs.Elements.{Pointer, Segment, HasSegment, pointer_at, pointers_from, has_serial, serial_length, prefix_length, segment_length, content_length, segment_in, AreTypes};
ghost use Rattle.anchor_elements.specs.Reading.{types_of, pointers_of, segment_of, IsMissing};
ghost use Rattle.anchor_elements.specs.inside.Reading.{IsWhole, IsOfType, Holds};
ghost use Rattle.anchor_elements.specs.Wrong.{IsWrong};

use crate::fault::AnchorFault;
use crate::pointer::Pointer;
use byteorder::{BigEndian, ByteOrder};
use ci_space::{GetFault, Interval, Intervals};
use fp_model::{Bytes, List, SegDef};
use std::alloc::{AllocError, Global};

/// The pointer to the first child of a direct child type.
#[derive(Clone, Copy)]
pub struct First {
    /// The number of the child type.
    pub segment: u8,
    pub at: Pointer,
}

/// What an element says.
#[derive(Drop)]
pub struct Said {
    /// The next twin.
    pub next: Pointer,
    /// The newest serial, 0 for none.
    pub serial: u64,
    /// The first child of each direct child type, in order of definition.
    pub firsts: Vec<First>,
    pub bytes: Bytes,
}

/// The pointer whose 10 bytes stand at `at`.
fn pointer_at(content: &[u8], at: usize) -> Pointer
    requires { at + 10 ≤ length content.now }
    ensures { result ≡ pointer_at content.now at }
{
    (
        BigEndian::read_u64(&content[at..]),
        BigEndian::read_u16(&content[at + 8..]),
    )
}

/// Whether all these bytes are 0.
fn all_zero(bytes: &[u8]) -> bool
    ensures { IsTrue result ↔ All (λ b. b ≡ 0) bytes.now }
{
    bytes.iter().all(|&byte| byte == 0)
}

/// Whether the bytes from a place on are 0.
fn is_zero_from(bytes: &[u8], from: usize) -> bool
    requires { from ≤ length bytes.now }
    ensures { IsTrue result ↔ IsZero bytes.now from (length bytes.now) }
{
    all_zero(&bytes[from..bytes.len()])
}

/// Whether one of the types is sequential.
fn has_sequential(segments: &[SegDef]) -> bool
    ensures { result ≡ has_sequential segments.now }
{
    for def in segments {
        if def.sequential {
            return true;
        }
    }
    false
}

/// Whether an element of a type has a newest serial.
pub fn has_serial(segments: &List<SegDef>, segment: u8) -> bool
    ensures { result ≡ has_serial segments.now segment }
{
    segment == 0 && has_sequential(segments.as_slice())
}

/// Whether a type is a direct child type of another, and no sequential one.
pub fn is_child_of(def: &SegDef, parent: u8) -> bool
    ensures { result ≡ (is_child_of parent def.now && not def.now.sequential) }
{
    def.parent == Some(parent) && !def.sequential
}

/// How many direct child types a type has.
fn child_count(segments: &[SegDef], parent: u8) -> usize
    ensures exact { result ≡ length (child_types segments.now parent) }
    ensures small { result ≤ length segments.now }
{
    let mut n = 0;
    for def in segments {
        if is_child_of(def, parent) {
            n += 1;
        }
    }
    n
}

/// How many bytes the newest serial of a type's elements has.
fn serial_length(segments: &List<SegDef>, segment: u8) -> usize
    ensures exact { result ≡ serial_length segments.now segment }
    ensures small { result ≤ 8 }
{
    if has_serial(segments, segment) { 8 } else { 0 }
}

/// How many bytes stand in front of a segment of a type.
fn prefix_length(segments: &List<SegDef>, segment: u8) -> usize
    requires { length segments.now ≤ 15 }
    ensures exact { result ≡ prefix_length segments.now segment }
    ensures small { result ≤ 168 }
{
    10 + serial_length(segments, segment) + 10 * child_count(segments.as_slice(), segment)
}

/// How many bytes a segment of a type needs, with what stands in front of it.
pub fn content_length(segments: &List<SegDef>, segment: u8) -> usize
    requires few { length segments.now ≤ 15 }
    requires defined { segment < length segments.now }
    ensures exact { result ≡ content_length segments.now segment }
    ensures small { result < 2 ^ 32 }
{
    let length = segments.as_slice()[usize::from(segment)].length;
    prefix_length(segments, segment) + usize::from(length)
}

/// The newest serial that a content says.
fn serial_in(segments: &List<SegDef>, segment: u8, content: &[u8]) -> u64
    requires { 10 + serial_length segments.now segment ≤ length content.now }
    ensures { result ≡ (if has_serial segments.now segment then big_from 10 8 content.now else 0) }
{
    if has_serial(segments, segment) {
        BigEndian::read_u64(&content[10..])
    } else {
        0
    }
}

/// The pointers that stand from `start` on, one for each direct child type of a type.
fn firsts_at(
    alloc: Global,
    segments: &[SegDef],
    parent: u8,
    content: &[u8],
    start: usize,
) -> Result<Vec<First>, AllocError>
    requires few { length segments.now ≤ 15 }
    requires room { start + 10 * length (child_types segments.now parent) ≤ length content.now }
    ensures types { IfOk result (λ firsts. types_of firsts.items ≡ child_types segments.now parent) }
    ensures pointers { IfOk result (λ firsts. pointers_of firsts.items ≡ pointers_from content.now start
        (length (child_types segments.now parent))) }
{
    let mut firsts = Vec::new(alloc);
    let mut place = start;
    for (child, def) in segments.iter().enumerate() {
        if is_child_of(def, parent) {
            let at = pointer_at(content, place);
            firsts.push(First {
                segment: child as u8,
                at,
            })?;
            place += 10;
        }
    }
    Ok(firsts)
}

/// What a content says that is long enough for its type.
fn said_in(
    alloc: Global,
    segments: &List<SegDef>,
    segment: u8,
    content: &[u8],
) -> Result<Said, AllocError>
    requires few { length segments.now ≤ 15 }
    requires defined { segment < length segments.now }
    requires fits { content_length segments.now segment ≤ length content.now }
    ensures says { IfOk result (λ said. segment_of said ≡ segment_in segments.now segment content.now) }
    ensures types { IfOk result (λ said. types_of said.firsts.items ≡ child_types segments.now segment) }
    ensures long { IfOk result (λ said. has_length segments.now segment said.bytes ≡ true) }
    ensures serial { IfOk result (λ said. has_serial segments.now segment ≡ false → said.serial ≡ 0) }
{
    let next = pointer_at(content, 0);
    let serial = serial_in(segments, segment, content);
    let start = 10 + serial_length(segments, segment);
    let prefix = prefix_length(segments, segment);
    let end = content_length(segments, segment);
    let firsts = firsts_at(alloc, segments.as_slice(), segment, content, start)?;
    let bytes = Bytes::from_slice(alloc, &content[prefix..end])?;
    Ok(Said {
        next,
        serial,
        firsts,
        bytes,
    })
}

/// Whether a content is as long as its type needs, with zeros behind the segment.
fn is_whole(segments: &List<SegDef>, segment: u8, content: &[u8]) -> bool
    requires few { length segments.now ≤ 15 }
    requires defined { segment < length segments.now }
    ensures { IsTrue result ↔ IsWhole segments.now segment content.now }
{
    let end = content_length(segments, segment);
    end <= content.len() && is_zero_from(content, end)
}

/// Whether a used element of a type stands at `at`.
fn is_of_type(interval: &Interval, segment: u8, at: u16) -> bool
    ensures is { IsTrue result ↔ IsOfType interval.now segment at }
    ensures inside { result ≡ true → at < 4096 }
{
    interval.is_used(at) && interval.type_at(at) == segment
}

/// What the used element of a type at `at` says. None exactly where it is too short for its type, or has a byte other
/// than 0 behind the segment.
fn said_at(
    alloc: Global,
    segments: &List<SegDef>,
    segment: u8,
    interval: &Interval,
    at: u16,
) -> Result<Option<Said>, AllocError>
    requires few { length segments.now ≤ 15 }
    requires defined { segment < length segments.now }
    requires element { IsOfType interval.now segment at }
    ensures some { IfOk result (λ said. IfSome said
        (λ said. Holds segments.now interval.now segment at (segment_of said))) }
    ensures types { IfOk result (λ said. IfSome said
        (λ said. types_of said.firsts.items ≡ child_types segments.now segment)) }
    ensures long { IfOk result (λ said. IfSome said (λ said. has_length segments.now segment said.bytes ≡ true)) }
    ensures serial { IfOk result (λ said. IfSome said
        (λ said. has_serial segments.now segment ≡ false → said.serial ≡ 0)) }
    ensures none { IfOk result (λ said. IfNone said ((s : Segment) → ¬ Holds segments.now interval.now segment at s)) }
{
    let content = interval.content(at);
    if !is_whole(segments, segment, content) {
        return Ok(None);
    }
    let said = said_in(alloc, segments, segment, content)?;
    Ok(Some(said))
}

/// The interval of this number, to which a pointer in the interval `from` leads.
pub fn interval_at<I: Intervals>(i: &mut I, from: u64, ci: u64) -> Result<Interval, AnchorFault>
    ensures bytes { I.told i.old → IfOk result (λ interval. interval ≡ bytes_at (I.intervals i.old) ci) }
    ensures below { OnOk result (ci < I.number i.old) }
    ensures interval { IfOk result IsInterval }
    ensures size { IfOk result (λ interval. length interval ≡ I.size i.old) }
    ensures missing { I.told i.old → (n : ℕ) → result ≡ Err (AnchorFault.Damaged n)
        → IsMissing (I.intervals i.old) from ci n }
    ensures named { (n : ℕ) → result ≡ Err (AnchorFault.Damaged n) → (n ≡ from) ⊎ (n ≡ ci) }
    ensures failed { IsErrOf result AnchorFault.Failed → Rose (I.faults i.old) (I.faults i.new) }
    ensures same { I.told i.old → I.intervals i.new ≡ I.intervals i.old }
    ensures number { I.number i.new ≡ I.number i.old }
    ensures goes_on { GoesOn I.told I.size I.faults I.keeps i.old i.new }
{
    if i.count() <= ci {
        return Err(AnchorFault::Damaged(from));
    }
    match i.get(ci) {
        Ok(interval) => Ok(interval),
        Err(GetFault::Failed) => Err(AnchorFault::Failed),
        Err(GetFault::BadTiles(ci)) => Err(AnchorFault::Damaged(ci)),
        Err(GetFault::Memory) => Err(AnchorFault::Memory),
    }
}

/// What the element at a pointer says, to which one in the interval `from` leads.
pub fn read_element<I: Intervals>(
    alloc: Global,
    i: &mut I,
    segments: &List<SegDef>,
    segment: u8,
    from: u64,
    at: Pointer,
) -> Result<Said, AnchorFault>
    requires few { length segments.now ≤ 15 }
    requires defined { segment < length segments.now }
    ensures says { I.told i.old → IfOk result (λ said. HasSegment segments.now (I.intervals i.old) segment at
        (segment_of said)) }
    ensures types { IfOk result (λ said. types_of said.firsts.items ≡ child_types segments.now segment) }
    ensures long { IfOk result (λ said. has_length segments.now segment said.bytes ≡ true) }
    ensures serial { IfOk result (λ said. has_serial segments.now segment ≡ false → said.serial ≡ 0) }
    ensures below { OnOk result (at.0 < I.number i.old) }
    ensures inside { OnOk result (at.1 < 4096) }
    ensures wrong { I.told i.old → (ci : ℕ) → result ≡ Err (AnchorFault.Damaged ci) → (met : List Pointer)
        → IsWrong segments.now (I.intervals i.old) met from segment at ci }
    ensures failed { IsErrOf result AnchorFault.Failed → Rose (I.faults i.old) (I.faults i.new) }
    ensures same { I.told i.old → I.intervals i.new ≡ I.intervals i.old }
    ensures number { I.number i.new ≡ I.number i.old }
    ensures goes_on { GoesOn I.told I.size I.faults I.keeps i.old i.new }
{
    let interval = interval_at(i, from, at.0)?;
    if !is_of_type(&interval, segment, at.1) {
        return Err(AnchorFault::Damaged(from));
    }
    match said_at(alloc, segments, segment, &interval, at.1)? {
        Some(said) => Ok(said),
        None => Err(AnchorFault::Damaged(at.0)),
    }
}
