//! A log that is open: what is sealed of it, and the entries that are not.
ghost use Rattle.fp_model.specs.Groups.{IsDamaged};
ghost use Rattle.fp_model.specs.Lasts.{format_behind};
ghost use Rattle.fp_model.specs.LogText.{FitsEntry, FitsFront, Front as FrontOf, IsFormat, KeepsRules, StartsWithFront, body_text, entry_text, first_gate, log_text};
ghost use Rattle.fp_model.specs.declared.log.Entry.{Entry as EntryOf};
ghost use Rattle.fp_site.specs.Disk.{Differs, Disk, IsDurable, Settles, Stays};
ghost use Rattle.fp_site.specs.Moments.{OnlyOn, Through};
ghost use Rattle.fp_site.specs.Site.{ReadsNothing};
ghost use Rattle.fp_lists.specs.Continued.{IsContinued};
ghost use Rattle.fp_lists.specs.Faults.{Counts};
ghost use Rattle.log_groups.specs.Images.{BeginsFor, HasFrontOf, IsAtRest, IsBeforeOrAfter, IsBeforeOrMade, IsBeforeOrShut, IsFrontOf, IsKept, IsOldOrMade, IsOldOrShut, IsSameOrMade, IsSameOrShut, IsShut, IsWithOrWithout, as_front, in_format, with_group, with_group_at};
ghost use Rattle.log_groups.specs.Reads.{HasGroup, ReadsOnlyLog};
ghost use Rattle.log_groups.specs.declared.fault.LogFault.TheVariants as faults;
ghost use Rattle.std.specs.Prelude.{◌≡◌, ◌≢◌, ◌⊎◌, ◌+◌, ◌-◌, ◌*◌, ◌<◌, ◌≤◌, ◌^◌, ◌∷◌, ◌++◌, ℕ, [], IfNone, IfOk, IfSome, IsErrOf, IsOk, List as ListOf, OnErr, OnOk, drop, length, max, min, slice_index, take};

use crate::buffer::{Part, add_entry, move_down, oldest, seal_part};
use crate::group::read_group;
use crate::opening::format_of;
use crate::{Front, Group, LogFault, SealFault, making};
use fp_model::{Entry, Outcome};
use fp_site::{Failed, Site};
use log_format::entry_length;
use std::alloc::{AllocError, Global};
use std::marker::Model;

// Where a data set ends at the latest.
const LIMIT: u64 = 1 << 62;

/// A log that is open. Contracts see the format of its front and of its site, how many entries are sealed, its closed
/// gate, the entries that are not sealed, the oldest first, and its spare.
#[derive(Drop)]
pub struct Log {
    front_format: u8,
    format: u8,
    sealed: u64,
    gate: u64,
    // How many entries are not sealed.
    waiting: usize,
    // Room for a length, the entries that are not sealed, and a closed gate.
    buffer: Vec<u8>,
    // Where the oldest of them begins.
    start: usize,
    spare: usize,
}

impl Model for Log {
    ghost use Rattle.log_groups.specs.Log.{LogState, IsBuffered, entries_in};
    ghost use Rattle.std.specs.Prelude.{drop};

    ghost Value = { LogState };

    ghost view = { λ l. record {
      front_format = l.front_format;
      format = l.format;
      sealed = l.sealed;
      gate = l.gate;
      unsealed =
          entries_in l.waiting (drop l.start l.buffer.items);
      spare = l.spare;
    } };

    ghost invariant = { λ l. IsBuffered l.buffer l.start l.waiting l.sealed l.gate l.spare
        (entries_in l.waiting (drop l.start l.buffer.items)) };
}

impl Log {
    /// The format of the front that stands: 1 or 2. The log's first line is read in it. Takes no memory.
    pub fn front_format(&self) -> u8
        ensures { result ≡ self.now.front_format }
    {
        self.front_format
    }

    /// The format in which the log's next line is read: the front's until `end_at` tells another, and 2 once a Format
    /// entry is appended. Takes no memory.
    pub fn format(&self) -> u8
        ensures { result ≡ self.now.format }
    {
        self.format
    }

    /// How many entries there are, sealed or not.
    pub fn count(&self) -> u64
        ensures { result ≡ self.now.sealed + length self.now.unsealed }
    {
        self.sealed + self.waiting as u64
    }

    /// How many entries are sealed.
    pub fn sealed(&self) -> u64
        ensures { result ≡ self.now.sealed }
    {
        self.sealed
    }

    /// The place of the log's closed gate.
    pub fn gate(&self) -> u64
        ensures { result ≡ self.now.gate }
    {
        self.gate
    }

    /// How many bytes of entries the buffer has room for. Takes no memory.
    pub fn spare(&self) -> u64
        ensures { result ≡ self.now.spare }
    {
        self.spare as u64
    }

    /// Closes the log: from then on no crash leaves an open front, until a new log is made. Who writes other data sets
    /// before the new log closes the old one so. A gate that is there and isn't open is not written again. Fails only
    /// with the site. Takes no memory.
    pub fn shut<T: Site>(site: &mut T) -> Result<(), Failed>
        ensures shut { T.told site.old → OnOk result (IsShut (T.disk site.new)) }
        ensures rest { T.told site.old → OnOk result (drop 1 ((T.disk site.new).contents 0) ≡ drop 1
            ((T.disk site.old).contents 0)) }
        ensures cause { Counts (T.faults site.old) (T.faults site.new) result }

        // No other data set changes or is read, and nothing is sent. Of the log one byte is read at most.
        ensures only { T.told site.old → OnlyOn 0 (T.disk site.old) (T.disk site.new) }
        ensures reads { ReadsOnlyLog (T.tells_reads site.old) (T.tells_reads site.new) (T.bytes_read site.old)
            (T.bytes_read site.new) }
        ensures few { T.tells_reads site.new 0 → T.bytes_read site.new 0 ≤ T.bytes_read site.old 0 + 1 }
        ensures site { IsContinued T.told T.faults T.holds T.keeps site.old site.new }

        // A crash at any moment leaves the log as a sync might have left it before, or with no open front.
        ensures crash { T.told site.old → Through (T.disk site.old) (T.disk site.new)
            (IsBeforeOrShut (T.disk site.old)) }

        // Where a sync had left the log, it leaves it so, or with no open front, and all else as before.
        ensures kept { T.told site.old → IsDurable (T.disk site.old) 0 →
            Through (T.disk site.old) (T.disk site.new) (Differs (T.disk site.old) 0 IsSameOrShut) }

        // Each image that a further sync may make of what a crash may leave now is one that a sync might have left
        // before, or has no open front.
        ensures settles { (image : ListOf ℕ) → T.told site.old → Settles (T.disk site.new) 0 image
            → IsOldOrShut (T.disk site.old) image }
    {
        making::shut(site)
    }

    /// Writes a new log with this front and no groups: the front's gate is closed first, and opened last. Fails only
    /// with the site and for want of memory.
    pub fn make<T: Site>(alloc: Global, site: &mut T, front: &Front) -> Result<(), LogFault>
        requires fits { FitsFront (as_front front.now) }
        ensures made { T.told site.old → OnOk result
            (IsAtRest (T.disk site.new) (as_front front.now) [] (first_gate (as_front front.now))) }

        // It is the front and a closed gate; where the old log was longer, its bytes behind that gate stay there.
        ensures text { T.told site.old → OnOk result ((T.disk site.new).contents 0 ≡ log_text (as_front front.now) []
            ++ drop (first_gate (as_front front.now) + 1) ((T.disk site.old).contents 0)) }
        ensures long { T.told site.old → OnOk result (length ((T.disk site.new).contents 0) ≡ max
            (first_gate (as_front front.now) + 1) (length ((T.disk site.old).contents 0))) }
        ensures cause { IsErrOf result faults.Failed → (T.faults site.old < T.faults site.new)
            ⊎ (T.faults site.new ≡ 2 ^ 64 - 1) }
        ensures stayed { (IsErrOf result faults.Failed → ⊥) → T.faults site.new ≡ T.faults site.old }
        ensures never { (IsErrOf result faults.Foreign → ⊥)
            × ((place : ℕ) → IsErrOf result (faults.Damaged place) → ⊥) }

        // Want of memory comes before the site is touched.
        ensures untouched { IsErrOf result faults.Memory → site.new ≡ site.old }

        // No other data set changes or is read, and nothing is sent. Of the log one byte is read at most.
        ensures only { T.told site.old → OnlyOn 0 (T.disk site.old) (T.disk site.new) }
        ensures reads { ReadsOnlyLog (T.tells_reads site.old) (T.tells_reads site.new) (T.bytes_read site.old)
            (T.bytes_read site.new) }
        ensures few { T.tells_reads site.new 0 → T.bytes_read site.new 0 ≤ T.bytes_read site.old 0 + 1 }
        ensures site { IsContinued T.told T.faults T.holds T.keeps site.old site.new }

        // A crash at any moment leaves the log as a sync might have left it before, or with no open front, or made.
        ensures crash { T.told site.old → Through (T.disk site.old) (T.disk site.new)
            (IsBeforeOrMade (T.disk site.old) (as_front front.now)) }

        // Where a sync had left the log, it leaves it so, or with no open front, or made, and all else as before.
        ensures kept { T.told site.old → IsDurable (T.disk site.old) 0 →
            Through (T.disk site.old) (T.disk site.new)
            (Differs (T.disk site.old) 0 (IsSameOrMade (as_front front.now))) }

        // Each image that a further sync may make of what a crash may leave now is one that a sync might have left
        // before, or has no open front, or is the new log.
        ensures settles { (image : ListOf ℕ) → T.told site.old → Settles (T.disk site.new) 0 image
            → IsOldOrMade (T.disk site.old) (as_front front.now) image }
    {
        making::make(alloc, site, front)
    }

    /// Opens a log that was made for these definitions and scripts, in format 1 or 2, as far as its first gate; the
    /// format of the given front doesn't count. It fails with `Foreign`, with the site, and for want of memory.
    pub fn open<T: Site>(alloc: Global, site: &mut T, front: &Front) -> Result<Log, LogFault>
        requires fits { FitsFront (as_front front.now) }
        ensures log { IfOk result (λ log. log ≡ record {
          front_format = log.front_format;
          format = log.front_format;
          sealed = 0;
          gate = first_gate (as_front front.now);
          unsealed = [];
          spare = 0;
        }) }
        ensures is_format { IfOk result (λ log. IsFormat log.front_format) }
        ensures front { T.told site.old → IfOk result (λ log. StartsWithFront ((T.disk site.old).contents 0)
            (in_format log.front_format (as_front front.now))) }
        ensures foreign { T.told site.old → IsErrOf result faults.Foreign
            → BeginsFor (as_front front.now) ((T.disk site.old).contents 0) → ⊥ }
        ensures cause { IsErrOf result faults.Failed → (T.faults site.old < T.faults site.new)
            ⊎ (T.faults site.new ≡ 2 ^ 64 - 1) }
        ensures stayed { (IsErrOf result faults.Failed → ⊥) → T.faults site.new ≡ T.faults site.old }
        ensures never { (place : ℕ) → IsErrOf result (faults.Damaged place) → ⊥ }

        // Nothing changes, and no more than the front is read; at `Ok` it is, each byte once.
        ensures exact { T.tells_reads site.new 0 → OnOk result
            (T.bytes_read site.new 0 ≡ T.bytes_read site.old 0 + first_gate (as_front front.now)) }
        ensures count { T.tells_reads site.new 0
            → T.bytes_read site.new 0 ≤ T.bytes_read site.old 0 + first_gate (as_front front.now) }
        ensures inside { T.told site.old → T.tells_reads site.new 0
            → T.bytes_read site.new 0 ≤ T.bytes_read site.old 0 + length ((T.disk site.old).contents 0) }
        ensures stays { T.told site.old → Stays (T.disk site.old) (T.disk site.new) }
        ensures reads { ReadsOnlyLog (T.tells_reads site.old) (T.tells_reads site.new) (T.bytes_read site.old)
            (T.bytes_read site.new) }
        ensures site { IsContinued T.told T.faults T.holds T.keeps site.old site.new }
    {
        let Some(format) = format_of(alloc, site, front)? else {
            return Err(LogFault::Foreign);
        };
        let buffer = Vec::from_slice(alloc, &[0; 9])?;
        Ok(Log {
            front_format: format,
            format,
            sealed: 0,
            gate: front.gate(),
            waiting: 0,
            buffer,
            start: 8,
            spare: 0,
        })
    }

    /// The group behind the gate at this place; None where that gate is not open. It fails with `Damaged`, with the
    /// site, and for want of memory.
    pub fn group_at<T: Site>(&mut self, site: &mut T, at: u64) -> Result<Option<Group>, LogFault>
        ensures some { T.told site.old →
            IfOk result (λ found. IfSome found (λ group. HasGroup ((T.disk site.old).contents 0) at group.entries
            group.next)) }
        ensures none { T.told site.old → IfOk result
            (λ found. IfNone found (slice_index ((T.disk site.old).contents 0) at ≢ 1)) }
        ensures damaged { (place : ℕ) → T.told site.old → IsErrOf result (faults.Damaged place) →
            (place ≡ at) × IsDamaged ((T.disk site.old).contents 0) at }
        ensures cause { IsErrOf result faults.Failed → (T.faults site.old < T.faults site.new)
            ⊎ (T.faults site.new ≡ 2 ^ 64 - 1) }
        ensures stayed { (IsErrOf result faults.Failed → ⊥) → T.faults site.new ≡ T.faults site.old }
        ensures never { IsErrOf result faults.Foreign → ⊥ }

        // Nothing changes. The group's bytes are read once, or one byte where there is none.
        ensures same { self.new ≡ self.old }
        ensures count { T.tells_reads site.new 0 →
            IfOk result (λ found. IfSome found (λ group. T.bytes_read site.new 0 + at ≡ T.bytes_read site.old 0 +
            group.next)) }
        ensures looked { T.tells_reads site.new 0 →
            IfOk result (λ found. IfNone found (T.bytes_read site.new 0 ≡ T.bytes_read site.old 0 + 1)) }

        // Whatever the answer is, no more is read than the group that stands there, or the gate that isn't open; and
        // no more than what stands there up to the log's end.
        ensures most { (entries : ListOf EntryOf) (next : ℕ) → T.told site.old
            → HasGroup ((T.disk site.old).contents 0) at entries next → T.tells_reads site.new 0
            → T.bytes_read site.new 0 + at ≤ T.bytes_read site.old 0 + next }
        ensures one { T.told site.old → slice_index ((T.disk site.old).contents 0) at ≢ 1 → T.tells_reads site.new 0
            → T.bytes_read site.new 0 ≤ T.bytes_read site.old 0 + 1 }
        ensures inside { T.told site.old → T.tells_reads site.new 0 → T.bytes_read site.new 0 + at
            ≤ T.bytes_read site.old 0 + max (at + 1) (length ((T.disk site.old).contents 0)) }
        ensures stays { T.told site.old → Stays (T.disk site.old) (T.disk site.new) }
        ensures reads { ReadsOnlyLog (T.tells_reads site.old) (T.tells_reads site.new) (T.bytes_read site.old)
            (T.bytes_read site.new) }
        ensures site { IsContinued T.told T.faults T.holds T.keeps site.old site.new }
    {
        read_group(*self.buffer.allocator(), site, at)
    }

    /// Tells where the log ends: the place of its closed gate, how many entries stand before it, and the format in
    /// which the next line is read. Takes no memory.
    pub fn end_at(&mut self, at: u64, count: u64, format: u8)
        requires unsealed { self.old.unsealed ≡ [] }
        requires at { at ≤ 2 ^ 62 }
        requires count { count ≤ at }
        ensures sealed { self.new.sealed ≡ count }
        ensures gate { self.new.gate ≡ at }
        ensures format { self.new.format ≡ format }
        ensures front_format { self.new.front_format ≡ self.old.front_format }
        ensures unsealed { self.new.unsealed ≡ [] }
        ensures spare { self.new.spare ≤ self.old.spare }
    {
        self.format = format;
        self.sealed = count;
        self.gate = at;
        self.spare = self.spare.min(((LIMIT - at) / 2) as usize);
    }

    // Moves the entries to the buffer's front, where at least as many bytes stand before them: so each byte that was
    // appended is moved less than once.
    fn compact(&mut self)
        ensures { self.new ≡ self.old }
    {
        if self.start - 8 < self.buffer.len() - self.start {
            return;
        }
        move_down(&mut self.buffer, self.start);
        self.start = 8;
    }

    /// Makes the spare at least this many bytes. Where it is so large already nothing changes, and no memory is taken.
    /// Else it may fail for want of memory, or because the log would pass the last place of a data set; nothing
    /// changes then.
    pub fn reserve(&mut self, bytes: u64) -> Result<(), AllocError>
        ensures ok { OnOk result (bytes ≤ self.new.spare) }
        ensures just { self.old.spare ≤ bytes → OnOk result (self.new.spare ≤ bytes) }
        ensures sure { bytes ≤ self.old.spare → IsOk result }
        ensures kept { bytes ≤ self.old.spare → self.new ≡ self.old }
        ensures err { OnErr result (self.new ≡ self.old) }
        ensures spare { self.old.spare ≤ self.new.spare }
        ensures bounded { self.new.spare < 2 ^ 64 }
        ensures same { self.new ≡ record {
          front_format = self.old.front_format;
          format = self.old.format;
          sealed = self.old.sealed;
          gate = self.old.gate;
          unsealed =
              self.old.unsealed;
          spare = self.new.spare;
        } }
    {
        if bytes <= self.spare as u64 {
            return Ok(());
        }
        let waiting = (self.buffer.len() - self.start - 1) as u64;
        let most = (LIMIT - self.gate) / 2;
        if waiting > most || bytes > most - waiting {
            // No machine comes so far.
            return Err(AllocError);
        }
        self.compact();
        self.buffer.reserve(bytes as usize)?;
        self.spare = bytes as usize;
        Ok(())
    }

    /// Appends an entry and answers its place, counted from 0. Where the spare holds the entry no memory is taken, and
    /// it is appended. Else it may fail for want of memory, or because the log would pass the last place of a data
    /// set; nothing changes then.
    pub fn append(&mut self, e: &Entry) -> Result<u64, AllocError>
        requires rules { KeepsRules e.now }
        requires fits { FitsEntry e.now }
        ensures ok { OnOk result (self.new.unsealed ≡ self.old.unsealed ++ e.now ∷ []) }
        ensures place { IfOk result (λ place. place ≡ self.old.sealed + length self.old.unsealed) }
        ensures format { OnOk result (self.new.format ≡ format_behind self.old.format e.now.outcome) }
        ensures sure { length (entry_text e.now) ≤ self.old.spare → IsOk result }

        // What stays. A refusal changes nothing.
        ensures err { OnErr result (self.new ≡ self.old) }
        ensures spare { self.old.spare ≤ self.new.spare + length (entry_text e.now) }
        ensures most { OnOk result (self.new.spare ≤ self.old.spare - length (entry_text e.now)) }
        ensures bounded { self.new.spare < 2 ^ 64 }
        ensures front_format { self.new.front_format ≡ self.old.front_format }
        ensures sealed { self.new.sealed ≡ self.old.sealed }
        ensures gate { self.new.gate ≡ self.old.gate }
    {
        let place = self.count();
        let len = entry_length(e);
        self.reserve(len)?;
        add_entry(&mut self.buffer, e);
        self.format = next_format(self.format, &e.outcome);
        self.spare -= len as usize;
        self.waiting += 1;
        Ok(place)
    }

    /// Seals the oldest entries as one group, this many or all where there are fewer, and answers how many. Where
    /// none is unsealed nothing is written. After `Failed` the log must be opened again. Takes no memory.
    pub fn seal<T: Site>(&mut self, site: &mut T, most: u32) -> Result<u32, SealFault>
        requires some { 1 ≤ most }

        // At `Ok` the entries are in the log, and every crash leaves them there.
        ensures count { IfOk result (λ n. n ≡ min most (length self.old.unsealed)) }
        ensures unsealed { IfOk result (λ n. self.new.unsealed ≡ drop n self.old.unsealed) }
        ensures sealed { IfOk result (λ n. self.new.sealed ≡ self.old.sealed + n) }
        ensures durable { (front : FrontOf) (groups : ListOf (ListOf EntryOf))
            → T.told site.old → IsAtRest (T.disk site.old) front groups self.old.gate → OnOk result
            (IsAtRest (T.disk site.new) front (with_group groups (take most self.old.unsealed)) self.new.gate) }
        ensures text { T.told site.old → 1 ≤ length self.old.unsealed
            → self.old.gate ≤ length ((T.disk site.old).contents 0) → OnOk result ((T.disk site.new).contents 0 ≡
            with_group_at ((T.disk site.old).contents 0) self.old.gate (take most self.old.unsealed)) }
        ensures front_format { self.new.front_format ≡ self.old.front_format }
        ensures format { self.new.format ≡ self.old.format }
        ensures spare { self.old.spare ≤ self.new.spare }
        ensures most { self.new.spare ≤ self.old.spare }
        ensures bounded { self.new.spare < 2 ^ 64 }

        // Where no entry is unsealed nothing changes.
        ensures idle { self.old.unsealed ≡ [] → site.new ≡ site.old }
        ensures idle_log { self.old.unsealed ≡ [] → self.new ≡ self.old }

        // It fails only with the site.
        ensures cause { Counts (T.faults site.old) (T.faults site.new) result }

        // No other data set changes, and nothing is sent or read.
        ensures only { T.told site.old → OnlyOn 0 (T.disk site.old) (T.disk site.new) }
        ensures reads { ReadsNothing (T.tells_reads site.old) (T.tells_reads site.new) (T.bytes_read site.old)
            (T.bytes_read site.new) }
        ensures site { IsContinued T.told T.faults T.holds T.keeps site.old site.new }

        // A crash at any moment leaves the groups from before, or with the new one whole.
        ensures crash { (front : FrontOf) (groups : ListOf (ListOf EntryOf))
            → T.told site.old → IsAtRest (T.disk site.old) front groups self.old.gate
            → Through (T.disk site.old) (T.disk site.new)
            (IsBeforeOrAfter front groups self.old.gate (take most self.old.unsealed)) }

        // So does each image that a further sync may make of what a crash may leave now, whatever the answer is.
        ensures settles { (front : FrontOf) (groups : ListOf (ListOf EntryOf)) (image : ListOf ℕ)
            → T.told site.old → IsAtRest (T.disk site.old) front groups self.old.gate
            → Settles (T.disk site.new) 0 image
            → IsWithOrWithout front groups self.old.gate (take most self.old.unsealed) image }

        // A log that ends with its last group has no gate. At every moment the bytes up to there are as they were, and
        // so are those of each image that a further sync may make; at `Ok` its groups are there, and the new one.
        ensures front { T.told site.old → IsDurable (T.disk site.old) 0
            → self.old.gate ≤ length ((T.disk site.old).contents 0) → Through (T.disk site.old) (T.disk site.new)
            (HasFrontOf ((T.disk site.old).contents 0) self.old.gate) }
        ensures front_settles { (image : ListOf ℕ) → T.told site.old → IsDurable (T.disk site.old) 0
            → self.old.gate ≤ length ((T.disk site.old).contents 0) → Settles (T.disk site.new) 0 image
            → IsFrontOf ((T.disk site.old).contents 0) self.old.gate image }
        ensures kept { (front : FrontOf) (groups : ListOf (ListOf EntryOf)) → T.told site.old
            → IsKept (T.disk site.old) front groups self.old.gate → OnOk result
            (IsKept (T.disk site.new) front (with_group groups (take most self.old.unsealed)) self.new.gate) }
    {
        if self.waiting == 0 {
            return Ok(0);
        }
        let buffer = self.buffer.as_mut_slice();
        let Part { count, end } = oldest(buffer, self.start, self.waiting, most as usize);
        seal_part(site, self.gate, buffer, self.start, end)?;
        self.sealed += count as u64;
        self.gate += 9 + (end - self.start) as u64;
        self.start = end;
        self.waiting -= count;
        Ok(count as u32)
    }
}

// The format behind an entry with this outcome.
fn next_format(format: u8, outcome: &Outcome) -> u8
    ensures { result ≡ format_behind format outcome.now }
{
    match outcome {
        Outcome::Format => 2,
        _ => format,
    }
}
