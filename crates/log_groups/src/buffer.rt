//! The bytes of the entries that are not sealed: room for a length, the entries, and a closed gate.
ghost use Rattle.fp_model.specs.Spellings.{be64};
ghost use Rattle.fp_site.specs.Disk.{Disk, IsDurable, Settles};
ghost use Rattle.fp_site.specs.Moments.{OnlyOn, Through};
ghost use Rattle.fp_site.specs.Site.{ReadsNothing};
ghost use Rattle.fp_lists.specs.Continued.{IsContinued};
ghost use Rattle.fp_lists.specs.Faults.{Counts};
ghost use Rattle.gated_write.specs.Gates.{IsGatedImage};
ghost use Rattle.log_groups.specs.Images.{HasFrontOf, IsFrontOf};
ghost use Rattle.log_groups.specs.inside.Images.{IsGated, IsOpened};
ghost use Rattle.fp_model.specs.LogText.{FitsEntry, HasSpelling, KeepsRules, body_text, entry_text};
ghost use Rattle.fp_model.specs.declared.log.Entry.{Entry as EntryOf};
ghost use Rattle.log_groups.specs.inside.Log.{HasEntries, IsOldest, part_text};
ghost use Rattle.std.specs.List.{AllByRecursion};
ghost use Rattle.std.specs.Prelude.{◌≡◌, ◌⊎◌, ◌+◌, ◌-◌, ◌<◌, ◌≤◌, ◌^◌, ◌∷◌, ◌++◌, ℕ, [], List as ListOf, OnOk, drop, length, min, slice_index, slice_set, take, vec_capacity, vec_len};

use crate::gated::write_gated;
use byteorder::{BigEndian, ByteOrder};
use fp_model::Entry;
use fp_site::{Failed, Site};
use log_format::{number_of, write_entry};

// Puts an entry before the closed gate at the end, where there is room.
pub(crate) fn add_entry(buffer: &mut Vec<u8>, e: &Entry)
    requires rules { KeepsRules e.now }
    requires fits { FitsEntry e.now }
    requires some { 1 ≤ length buffer.old.items }
    requires room { vec_len buffer.old + length (entry_text e.now) ≤ vec_capacity buffer.old }
    ensures items { (front : ListOf ℕ) → buffer.old.items ≡ front ++ 0 ∷ []
        → buffer.new.items ≡ front ++ entry_text e.now ++ 0 ∷ [] }
    ensures spelled { HasSpelling e.now }
    ensures capacity { vec_capacity buffer.old ≤ vec_capacity buffer.new }
{
    let _ = buffer.pop();
    let _ = write_entry(buffer, e);
    let _ = buffer.push(0);
}

// Moves what stands from a place on to the front, behind the room for a length.
pub(crate) fn move_down(buffer: &mut Vec<u8>, start: usize)
    requires header { 8 ≤ start }
    requires inside { start ≤ length buffer.old.items }
    ensures text { drop 8 buffer.new.items ≡ drop start buffer.old.items }
    ensures shorter { vec_len buffer.new ≤ vec_len buffer.old }
    ensures capacity { vec_capacity buffer.old ≤ vec_capacity buffer.new }
{
    let len = buffer.len() - start;
    buffer.copy_within(start.., 8);
    buffer.truncate(8 + len);
}

// Seals a part of the buffer as one group: its length goes in front of it and a closed gate behind it.
pub(crate) fn seal_part<S: Site>(
    site: &mut S,
    gate: u64,
    buffer: &mut [u8],
    start: usize,
    end: usize,
) -> Result<(), Failed>
    requires header { 8 ≤ start }
    requires order { start ≤ end }
    requires inside { end < length buffer.old }
    requires room { gate + 10 + (end - start) ≤ 2 ^ 62 }

    // At `Ok` the group is in the log, and every crash leaves it there.
    ensures opened { S.told site.old → gate ≤ length ((S.disk site.old).contents 0) →
        OnOk result (IsOpened ((S.disk site.old).contents 0) gate (part_text buffer.old start end) (S.disk site.new)) }
    ensures cause { Counts (S.faults site.old) (S.faults site.new) result }

    // The bytes from its start on stay.
    ensures len { length buffer.new ≡ length buffer.old }
    ensures rest { drop start buffer.new ≡ drop start buffer.old }

    // No other data set changes, nothing is sent or read.
    ensures only { S.told site.old → OnlyOn 0 (S.disk site.old) (S.disk site.new) }
    ensures reads { ReadsNothing (S.tells_reads site.old) (S.tells_reads site.new) (S.bytes_read site.old)
        (S.bytes_read site.new) }
    ensures site { IsContinued S.told S.faults S.holds S.keeps site.old site.new }

    // A crash at any moment leaves the gate as it was, or the group whole behind it.
    ensures crash { S.told site.old → IsDurable (S.disk site.old) 0 → gate < length ((S.disk site.old).contents 0) →
        Through (S.disk site.old) (S.disk site.new)
        (IsGated ((S.disk site.old).contents 0) gate (part_text buffer.old start end)) }

    // So does each image that a further sync may make of what a crash may leave now.
    ensures settles { (image : ListOf ℕ) → S.told site.old → IsDurable (S.disk site.old) 0
        → gate < length ((S.disk site.old).contents 0) →
        Settles (S.disk site.new) 0 image → IsGatedImage ((S.disk site.old).contents 0) gate
        (part_text buffer.old start end) image }

    // In each of them, also where the gate was absent, all bytes in front of it are as they were.
    ensures front { S.told site.old → IsDurable (S.disk site.old) 0 → gate ≤ length ((S.disk site.old).contents 0) →
        Through (S.disk site.old) (S.disk site.new) (HasFrontOf ((S.disk site.old).contents 0) gate) }
    ensures front_settles { (image : ListOf ℕ) → S.told site.old → IsDurable (S.disk site.old) 0
        → gate ≤ length ((S.disk site.old).contents 0) →
        Settles (S.disk site.new) 0 image → IsFrontOf ((S.disk site.old).contents 0) gate image }
{
    let next = buffer[end];
    make_ready(buffer, start, end);
    let sealed = write_gated(site, gate, &buffer[start - 8..end + 1]);
    buffer[end] = next;
    sealed
}

// Puts the length of a part in front of it, and a closed gate behind it.
fn make_ready(buffer: &mut [u8], start: usize, end: usize)
    requires header { 8 ≤ start }
    requires order { start ≤ end }
    requires inside { end < length buffer.old }
    ensures len { length buffer.new ≡ length buffer.old }
    ensures ready { take (8 + (end - start) + 1) (drop (start - 8) buffer.new) ≡ part_text buffer.old start end }
    ensures rest { drop start (slice_set buffer.new end (slice_index buffer.old end)) ≡ drop start buffer.old }
{
    put_number(&mut buffer[start - 8..start], (end - start) as u64);
    buffer[end] = 0;
}

// Writes a number over eight bytes.
#[tactic(auto, unfolding(fp_model::specs::Spellings::be64))]
fn put_number(into: &mut [u8], n: u64)
    requires { length into.old ≡ 8 }
    ensures { into.new ≡ be64 n }
{
    BigEndian::write_u64(into, n);
}

// A part of the buffer: how many entries it has, and where it ends.
pub(crate) struct Part {
    pub(crate) count: usize,
    pub(crate) end: usize,
}

// The part from a place on that has the oldest of so many entries: this many, or all where there are fewer.
pub(crate) fn oldest(buffer: &[u8], start: usize, waiting: usize, most: usize) -> Part
    requires entries { HasEntries buffer.now start waiting }
    requires some { 1 ≤ waiting }
    requires most { 1 ≤ most }
    ensures count { result.count ≡ min most waiting }
    ensures oldest { (entries : ListOf EntryOf) → AllByRecursion HasSpelling entries → length entries ≡ waiting
        → drop start buffer.now ≡ body_text entries ++ 0 ∷ []
        → IsOldest buffer.now entries start most result.count result.end }
{
    let count = most.min(waiting);
    let end = end_of(buffer, start, count);
    Part { count, end }
}

// Where the part that has so many of these entries ends.
fn end_of(buffer: &[u8], start: usize, count: usize) -> usize
    requires { HasEntries buffer.now start count }
    ensures start { start ≤ result }
    ensures inside { result < length buffer.now }
    ensures rest { (entries : ListOf EntryOf) → AllByRecursion HasSpelling entries → count ≤ length entries
        → drop start buffer.now ≡ body_text entries ++ 0 ∷ []
        → drop result buffer.now ≡ body_text (drop count entries) ++ 0 ∷ [] }
{
    let mut end = start;
    for _ in 0..count {
        end = next_end(buffer, end);
    }
    end
}

// Where the entry at this place ends.
fn next_end(buffer: &[u8], at: usize) -> usize
    requires { HasEntries buffer.now at 1 }
    ensures later { at ≤ result }
    ensures inside { result < length buffer.now }
    ensures rest { (e : EntryOf) (entries : ListOf EntryOf) → HasSpelling e
        → drop at buffer.now ≡ body_text (e ∷ entries) ++ 0 ∷ []
        → drop result buffer.now ≡ body_text entries ++ 0 ∷ [] }
{
    let number = number_of(&buffer[at..at + 8]);
    at + (8 + number as usize)
}
