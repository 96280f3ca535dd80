//! A site in memory. It keeps its calls, so that what a crash may leave is known.
//!
//! A call told to fail does what a failing device may do: a write leaves mixed bytes in its range, a send half of its
//! text, and a read fills `into` with bytes that stand nowhere. A call that finds no memory changes nothing.
ghost use Rattle.std.specs.Prelude.{◌≡◌, true, ◌⊎◌, ◌+◌, ◌-◌, ◌/◌, ◌<◌, ◌≤◌, ◌^◌, ◌↔◌, ℕ, [], ◌∷◌, ◌++◌, IfOk, IsTrue, None, OnErr, OnOk, get_or, length, min, take};
ghost use Rattle.fp_site.specs.Disk.{Broken, Elapses, IsDurable, Leaves, Sends, Stays, Syncs, Tears, read_range, written};
ghost use Rattle.fp_lists.specs.Faults.{Counts};
ghost use Rattle.memory_site.specs.History.{contents_after, disk_of, sent_after, synced_after};
ghost use Rattle.memory_site.specs.History.Event.{Wrote, Synced, Sent};
ghost use Rattle.memory_site.specs.Sets.{set_bytes, snapshot_of};
ghost use Rattle.memory_site.specs.Past.{past_of};
ghost use Rattle.memory_site.specs.inside.Past.{Breaks};
ghost use Rattle.memory_site.specs.Faults.{is_told};
ghost use Rattle.memory_site.specs.Laws.{lawful, bounded_by};

use crate::faults::Faults;
use crate::past::Past;
use crate::replay::{mixed, replayed};
use crate::sets::{all_bounded, copied_in, prepare_sets, put, read, set_slice};
use crate::snapshot::Snapshot;
use fp_lists::{Bytes, List};
use fp_site::{Failed, Site};
use std::alloc::{AllocError, Global};

/// A site in memory. It fails at the calls that it is told to fail and where it finds no memory, and nowhere else.
#[derive(Drop)]
pub struct MemorySite {
    alloc: Global,
    // The data sets as a read gives them.
    sets: Vec<Vec<u8>>,
    // The bytes sent.
    sent: Vec<u8>,
    // How many bytes were read of each data set.
    reads: Vec<u64>,
    past: Past,
    faults: Faults,
    ghost stands: { (k : ℕ) → set_bytes sets.items k ≡ contents_after (past_of past) k },
    ghost text: { sent.items ≡ sent_after (past_of past) },
    ghost bounded: { (k : ℕ) → length (set_bytes sets.items k) ≤ 2 ^ 62 },
}

impl MemorySite {
    ghost use Rattle.memory_site.specs.Memory.{BeginsAs, CountsFaults, IsPrepared, empty_snapshot, fails_at, memory_disk, memory_faults, memory_history, memory_reads, memory_shorts};

    /// A site with no bytes in any data set and nothing sent, whose calls with these numbers, counted from 0, fail.
    pub fn new(alloc: Global, failing: &[u64]) -> Result<MemorySite, AllocError>
        ensures begins { IfOk result (λ m. BeginsAs empty_snapshot m) }
        ensures fails { IfOk result (λ m. (n : ℕ) → fails_at m n ≡ is_told failing.now None n) }
    {
        let start = Snapshot::new(List::new(alloc), Bytes::new(alloc));
        MemorySite::make(alloc, start, failing, Option::None)
    }

    /// A site as `new` makes it, all of whose calls from this number on fail.
    pub fn stopping(alloc: Global, after: u64) -> Result<MemorySite, AllocError>
        ensures begins { IfOk result (λ m. BeginsAs empty_snapshot m) }
        ensures fails { IfOk result (λ m. (n : ℕ) → IsTrue (fails_at m n) ↔ (after ≤ n)) }
    {
        let start = Snapshot::new(List::new(alloc), Bytes::new(alloc));
        MemorySite::make(alloc, start, &[], Option::Some(after))
    }

    /// A site as a crash left it, all on the disk, whose calls with these numbers, counted from 0, fail. What the
    /// snapshot had sent counts as sent.
    pub fn from_snapshot(
        alloc: Global,
        snapshot: Snapshot,
        failing: &[u64],
    ) -> Result<MemorySite, AllocError>
        ensures begins { IfOk result (λ m. BeginsAs (snapshot_of snapshot) m) }
        ensures fails { IfOk result (λ m. (n : ℕ) → fails_at m n ≡ is_told failing.now None n) }
    {
        MemorySite::make(alloc, snapshot, failing, Option::None)
    }

    /// One of the images that a crash now may leave: 0 has no unsynced write, 1 has every one. Any other number
    /// mixes them: each is missing, whole, cut off or a mix of old, new and other bytes, by the number.
    pub fn snapshot_as(&self, choice: u64) -> Result<Snapshot, AllocError>
        ensures left { IfOk result (λ s. (memory_disk self.now).may_leave (snapshot_of s)) }
        ensures none { choice ≡ 0 →
            IfOk result (λ s. (k : ℕ) → (snapshot_of s).images k ≡ synced_after (memory_history self.now) k) }
        ensures every { choice ≡ 1 →
            IfOk result (λ s. (k : ℕ) → (snapshot_of s).images k ≡ (memory_disk self.now).contents k) }
    {
        let past = &self.past;
        replayed(self.alloc, &past.start, &past.calls, &past.kept, choice)
    }

    /// The bytes of a data set, as a read gives them. Counts as no call, and takes no memory.
    pub fn contents(&self, set: u16) -> &[u8]
        ensures { result.now ≡ (memory_disk self.now).contents set }
    {
        set_slice(&self.sets, set)
    }

    /// The bytes sent. Takes no memory.
    pub fn sent(&self) -> &[u8]
        ensures { result.now ≡ (memory_disk self.now).sent }
    {
        self.sent.as_slice()
    }

    /// How many calls failed: those that were told to, and those that found no memory. The count stays at its last
    /// value, 2^64 - 1.
    pub fn faults(&self) -> u64
        ensures value { result ≡ memory_faults self.now }
        ensures counted { CountsFaults self.now }
    {
        self.faults.count()
    }

    /// How many calls found no memory. The count stays at its last value, 2^64 - 1.
    pub fn shorts(&self) -> u64
        ensures { result ≡ memory_shorts self.now }
    {
        self.faults.shorts()
    }

    /// Makes room for this many bytes more in each data set that there is, in the bytes sent and in what is kept of
    /// the calls, and for as many calls. Nothing else changes.
    pub fn prepare(&mut self, bytes: u64) -> Result<(), AllocError>
        ensures room { OnOk result (IsPrepared self.new bytes) }
        ensures history { memory_history self.new ≡ memory_history self.old }
        ensures reads { (k : ℕ) → memory_reads self.new k ≡ memory_reads self.old k }
        ensures faults { memory_faults self.new ≡ memory_faults self.old }
        ensures shorts { memory_shorts self.new ≡ memory_shorts self.old }
        ensures told { (n : ℕ) → fails_at self.new n ≡ fails_at self.old n }
    {
        let bytes = bytes as usize;
        prepare_sets(&mut self.sets, bytes)?;
        self.sent.reserve(bytes)?;
        self.reads.reserve(self.sets.len())?;
        self.past.reserve(bytes, bytes)?;
        Ok(())
    }

    // A site that begins so.
    fn make(
        alloc: Global,
        start: Snapshot,
        failing: &[u64],
        stop: Option<u64>,
    ) -> Result<MemorySite, AllocError>
        ensures begins { IfOk result (λ m. BeginsAs (snapshot_of start) m) }
        ensures fails { IfOk result (λ m. (n : ℕ) → fails_at m n ≡ is_told failing.now stop n) }
    {
        let sets = copied_in(alloc, start.images.as_slice())?;
        if !all_bounded(&sets) {
            // No machine comes so far.
            return Err(AllocError);
        }
        let sent = Vec::from_slice(alloc, start.sent.as_slice())?;
        let faults = Faults::new(alloc, failing, stop)?;
        Ok(MemorySite {
            alloc,
            sets,
            sent,
            reads: Vec::new(alloc),
            past: Past::new(alloc, start),
            faults,
        })
    }
}

impl Site for MemorySite {
    ghost use Rattle.memory_site.specs.Memory.{IsCall, memory_disk, memory_faults, memory_reads};

    ghost told = { λ m. Unit {0} };

    ghost disk = { λ m. disk_of (past_of m.past) };

    ghost tells_reads = { λ m k. get_or m.reads.items k 0 < 2 ^ 64 - 1 };

    ghost bytes_read = { λ m k. get_or m.reads.items k 0 };

    ghost faults = { λ m. m.faults.count };

    ghost holds = { λ m. 0 };

    ghost keeps = { λ first m. Unit {0} };

    ghost keeps_itself = { λ m. tt };

    ghost keeps_on = { λ a b c f g. tt };

    ghost lawful = { λ m told. lawful (past_of m.past)
        (bounded_by (past_of m.past) (set_bytes m.sets.items) m.stands m.bounded) };

    fn size(&mut self, set: u16) -> Result<u64, Failed>
        ensures value { IfOk result (λ n. n ≡ length ((memory_disk self.old).contents set)) }
        ensures bound { IfOk result (λ n. n ≤ 2 ^ 62) }
        ensures call { IsCall self.old self.new result }
        ensures cause { Counts (memory_faults self.old) (memory_faults self.new) result }
        ensures stays { Stays (memory_disk self.old) (memory_disk self.new) }
        ensures reads { (k : ℕ) → memory_reads self.new k ≡ memory_reads self.old k }
    {
        if self.faults.next_fails() {
            return Err(Failed);
        }
        Ok(set_slice(&self.sets, set).len() as u64)
    }

    fn reach(&mut self, _set: u16, _end: u64) -> Result<(), Failed>
        requires { _end ≤ 2 ^ 62 }
        ensures call { IsCall self.old self.new result }
        ensures cause { Counts (memory_faults self.old) (memory_faults self.new) result }
        ensures stays { Stays (memory_disk self.old) (memory_disk self.new) }
        ensures reads { (k : ℕ) → memory_reads self.new k ≡ memory_reads self.old k }
    {
        if self.faults.next_fails() {
            Err(Failed)
        } else {
            Ok(())
        }
    }

    fn read_at(&mut self, set: u16, at: u64, into: &mut [u8]) -> Result<(), Failed>
        ensures value { OnOk result (into.new ≡ read_range ((memory_disk self.old).contents set) at (length into.old)) }
        ensures call { IsCall self.old self.new result }
        ensures cause { Counts (memory_faults self.old) (memory_faults self.new) result }
        ensures stays { Stays (memory_disk self.old) (memory_disk self.new) }
        ensures count { OnOk result
            (memory_reads self.new set ≡ min (memory_reads self.old set + length into.old) (2 ^ 64 - 1)) }
        ensures uncounted { OnErr result (memory_reads self.new set ≡ memory_reads self.old set) }
        ensures others { (k : ℕ) → (k ≡ set → ⊥) → memory_reads self.new k ≡ memory_reads self.old k }
    {
        if self.faults.next_fails() {
            into.fill(JUNK);
            return Err(Failed);
        }
        if count_read(&mut self.reads, set, into.len()).is_err() {
            self.faults.count_short();
            return Err(Failed);
        }
        read(set_slice(&self.sets, set), at, into);
        Ok(())
    }

    fn write_at(&mut self, set: u16, at: u64, from: &[u8]) -> Result<(), Failed>
        requires { at + length from.now ≤ 2 ^ 62 }
        ensures wrote { OnOk result
            ((memory_disk self.new).contents set ≡ written ((memory_disk self.old).contents set) at from.now) }
        ensures broke { OnErr result
            (Broken at (length from.now) ((memory_disk self.old).contents set) ((memory_disk self.new).contents set)) }
        ensures call { IsCall self.old self.new result }
        ensures cause { Counts (memory_faults self.old) (memory_faults self.new) result }
        ensures leaves { Leaves set (memory_disk self.old) (memory_disk self.new) }
        ensures reads { (k : ℕ) → memory_reads self.new k ≡ memory_reads self.old k }
        ensures crash { Elapses (memory_disk self.old) (memory_disk self.new)
            (Tears (memory_disk self.old) set at (length from.now)) }
    {
        if self.faults.next_fails() {
            let seed = self.faults.number();
            if break_write(
                self.alloc,
                &mut self.sets,
                &mut self.past,
                seed,
                set,
                at,
                from,
            )
            .is_err()
            {
                self.faults.count_short();
            }
            return Err(Failed);
        }
        if write(self.alloc, &mut self.sets, &mut self.past, set, at, from).is_err() {
            self.faults.count_short();
            return Err(Failed);
        }
        Ok(())
    }

    fn sync(&mut self, set: u16) -> Result<(), Failed>
        ensures durable { OnOk result (IsDurable (memory_disk self.new) set) }
        ensures same { (memory_disk self.new).contents set ≡ (memory_disk self.old).contents set }
        ensures call { IsCall self.old self.new result }
        ensures cause { Counts (memory_faults self.old) (memory_faults self.new) result }
        ensures leaves { Leaves set (memory_disk self.old) (memory_disk self.new) }
        ensures reads { (k : ℕ) → memory_reads self.new k ≡ memory_reads self.old k }
        ensures crash { Elapses (memory_disk self.old) (memory_disk self.new) (Syncs (memory_disk self.old) set) }
    {
        if self.faults.next_fails() {
            return Err(Failed);
        }
        if sync(&mut self.past, set).is_err() {
            self.faults.count_short();
            return Err(Failed);
        }
        Ok(())
    }

    fn send(&mut self, text: &[u8]) -> Result<(), Failed>
        ensures sent { OnOk result ((memory_disk self.new).sent ≡ (memory_disk self.old).sent ++ text.now) }
        ensures part { OnErr result ((n : ℕ) × ((memory_disk self.new).sent ≡ (memory_disk self.old).sent ++ take n
            text.now)) }
        ensures call { IsCall self.old self.new result }
        ensures cause { Counts (memory_faults self.old) (memory_faults self.new) result }
        ensures same { (memory_disk self.new).contents ≡ (memory_disk self.old).contents }
        ensures reads { (k : ℕ) → memory_reads self.new k ≡ memory_reads self.old k }
        ensures crash { Elapses (memory_disk self.old) (memory_disk self.new) (Sends (memory_disk self.old) text.now) }
    {
        if self.faults.next_fails() {
            if send(&mut self.sent, &mut self.past, first_half(text)).is_err() {
                self.faults.count_short();
            }
            return Err(Failed);
        }
        if send(&mut self.sent, &mut self.past, text).is_err() {
            self.faults.count_short();
            return Err(Failed);
        }
        Ok(())
    }
}

// What a failed read leaves.
const JUNK: u8 = 0xA5;

// Writes, and notes it. Without memory nothing changes.
fn write(
    alloc: Global,
    sets: &mut Vec<Vec<u8>>,
    past: &mut Past,
    set: u16,
    at: u64,
    from: &[u8],
) -> Result<(), AllocError>
    requires { at + length from.now ≤ 2 ^ 62 }
    ensures ok { OnOk result (past_of past.new ≡ Wrote set at from.now ∷ past_of past.old) }
    ensures err { OnErr result (past_of past.new ≡ past_of past.old) }
    ensures stands { ((k : ℕ) → set_bytes sets.old.items k ≡ contents_after (past_of past.old) k)
        → (k : ℕ) → set_bytes sets.new.items k ≡ contents_after (past_of past.new) k }
    ensures bounded { ((k : ℕ) → length (set_bytes sets.old.items k) ≤ 2 ^ 62) → (k : ℕ)
        → length (set_bytes sets.new.items k) ≤ 2 ^ 62 }
{
    past.reserve(1, from.len())?;
    put(alloc, sets, set, at, from)?;
    past.note_write(set, at, from);
    Ok(())
}

// A write that fails: mixed bytes stand in its range. Without memory nothing changes.
fn break_write(
    alloc: Global,
    sets: &mut Vec<Vec<u8>>,
    past: &mut Past,
    seed: u64,
    set: u16,
    at: u64,
    from: &[u8],
) -> Result<(), AllocError>
    requires { at + length from.now ≤ 2 ^ 62 }
    ensures ok { OnOk result (Breaks set at (length from.now) (past_of past.old) (past_of past.new)) }
    ensures err { OnErr result (past_of past.new ≡ past_of past.old) }
    ensures stands { ((k : ℕ) → set_bytes sets.old.items k ≡ contents_after (past_of past.old) k)
        → (k : ℕ) → set_bytes sets.new.items k ≡ contents_after (past_of past.new) k }
    ensures bounded { ((k : ℕ) → length (set_bytes sets.old.items k) ≤ 2 ^ 62) → (k : ℕ)
        → length (set_bytes sets.new.items k) ≤ 2 ^ 62 }
{
    let left = mixed(alloc, seed, set_slice(sets, set), at, from)?;
    write(alloc, sets, past, set, at, &left)?;
    Ok(())
}

// Notes a sync. Without memory nothing changes.
fn sync(past: &mut Past, set: u16) -> Result<(), AllocError>
    ensures ok { OnOk result (past_of past.new ≡ Synced set ∷ past_of past.old) }
    ensures err { OnErr result (past_of past.new ≡ past_of past.old) }
{
    past.reserve(1, 0)?;
    past.note_sync(set);
    Ok(())
}

// Sends, and notes it. Without memory nothing changes.
fn send(sent: &mut Vec<u8>, past: &mut Past, text: &[u8]) -> Result<(), AllocError>
    ensures ok { OnOk result (past_of past.new ≡ Sent text.now ∷ past_of past.old) }
    ensures err { OnErr result (past_of past.new ≡ past_of past.old) }
    ensures text { sent.old.items ≡ sent_after (past_of past.old) → sent.new.items ≡ sent_after (past_of past.new) }
{
    past.reserve(1, text.len())?;
    sent.extend_from_slice(text)?;
    past.note_send(text);
    Ok(())
}

// What a send that fails sends.
fn first_half(text: &[u8]) -> &[u8]
    ensures { result.now ≡ take (length text.now / 2) text.now }
{
    &text[..text.len() / 2]
}

// Counts bytes read of a data set.
fn count_read(reads: &mut Vec<u64>, set: u16, count: usize) -> Result<(), AllocError>
    ensures this { OnOk result (get_or reads.new.items set 0 ≡ min (get_or reads.old.items set 0 + count)
        (2 ^ 64 - 1)) }
    ensures others { (k : ℕ) → (k ≡ set → ⊥) → get_or reads.new.items k 0 ≡ get_or reads.old.items k 0 }
    ensures err { OnErr result ((k : ℕ) → get_or reads.new.items k 0 ≡ get_or reads.old.items k 0) }
{
    while reads.len() <= set as usize {
        reads.push(0)?;
    }
    reads[set as usize] = reads[set as usize].saturating_add(count as u64);
    Ok(())
}
