//! The pool: intervals that wait to be written, and a bounded list of clean ones.
//!
//! An interval is *staged* while no entry has it, *pending* from its entry's `publish` on until it is written, and
//! *clean* where the pool has the bytes of its data set. A pending one is kept until it is written; of the clean ones
//! the most recently used stay, up to the bound. What is pending or clean isn't read from the site again.
//!
//! `stage` makes all the room that a change needs: `publish`, `drop_staged` and `write_one` take no memory.
//!
//! After a fault the pool is as before.

ghost use Rattle.std.specs.Prelude.{◌≡◌, ◌≢◌, ◌+◌, ◌*◌, ◌<◌, ◌≤◌, ◌^◌, ℕ, ◌==◌, ◌&&◌, not, filter, is_some, IsSome, if◌then◌else◌, [], List, length, IfOk, OnOk, OnErr, IfSome, IfNone, Some, None, Ok, Err, option_map, option_copied};
ghost use Rattle.fp_site.specs.Disk.{Tears, Elapses, Leaves, Stays, Broken, written};
ghost use Rattle.fp_site.specs.Site.{ReadsNothing};
ghost use Rattle.fp_lists.specs.Continued.{IsContinued};
ghost use Rattle.fp_lists.specs.Faults.{Counts};
ghost use Rattle.ci_pool.specs.Cells.{renewed_by, pending_number};
ghost use Rattle.ci_pool.specs.declared.cell.Waiting.{Waiting as Pending};
ghost use Rattle.ci_pool.specs.declared.fault.PoolFault.TheVariants as fault;
ghost use Rattle.ci_pool.specs.declared.pool.Owed.TheVariants as owed;
ghost use Rattle.ci_pool.specs.Held.{bytes_of, pending_at, staged_at, clean_at, held_at, newest_in, IsClean, HasSize, SameAtHand, after_get, IsOldestSealed, NoneSealed, NoneOwes, IsFirstOwed, AreUnsealed, RoseAt, ReadsUpTo};

use crate::PoolFault;
use crate::clean::{self, Clean};
use crate::reading::read;
use crate::tree::Cells;
use fp_lists::Bytes;
use fp_site::{Failed, Site};
use std::alloc::{AllocError, Global};
use std::marker::Model;

/// What a checkpoint is still owed.
#[derive(Clone, Copy, PartialEq, Eq)]
pub enum Owed {
    /// No pending interval has an unwritten change of an entry below the count.
    None,

    /// The data set and the number of the first interval that has one and may be written.
    Write(u16, u64),

    /// Some have one, and none may be written: an entry that isn't sealed changed each of them again.
    Unsealed,
}

/// The intervals at hand. Contracts see its bound, its clean intervals as a list, the most recently used first, and
/// what is pending and staged of each interval.
#[derive(Drop)]
pub struct Pool {
    alloc: Global,
    clean: Clean,
    cells: Cells,
}

impl Model for Pool {
    ghost use Rattle.ci_pool.specs.Held.{Held, IsPool};

    ghost Value = { Held };

    ghost view = { λ p. record { bound = p.clean.cap; clean = p.clean.entries; cells = p.cells } };

    ghost invariant = { λ p. IsPool p.clean.cap p.clean.entries p.cells };
}

impl Pool {
    /// A pool of at most so many clean intervals, with nothing in it. Fails only for want of memory.
    pub fn new(alloc: Global, bound: u32) -> Result<Pool, AllocError>
        requires { 1 ≤ bound }
        ensures { IfOk result (λ pool. pool ≡ record { bound = bound; clean = []; cells = [] }) }
    {
        Ok(Pool {
            alloc,
            clean: clean::none(alloc, bound)?,
            cells: Cells::new(),
        })
    }

    /// The bytes of an interval as the newest published entry left them, else those of the site, `size` of them.
    /// Staged bytes aren't looked at.
    pub fn get<T: Site>(
        &mut self,
        site: &mut T,
        set: u16,
        ci: u64,
        size: u16,
    ) -> Result<Bytes, PoolFault>
        requires { (ci + 1) * size ≤ 2 ^ 62 }

        // The bytes: where they are known of the site, and where the pool has them.
        ensures newest { T.told site.old → IsClean (T.disk site.old).contents self.old → HasSize set size self.old
            → IfOk result (λ bytes. bytes ≡ newest_in self.old (T.disk site.old).contents set ci size) }
        ensures held { (bytes : List ℕ) → held_at self.old set ci ≡ Some bytes → IfOk result (λ b. b ≡ bytes) }
        ensures size { held_at self.old set ci ≡ None → IfOk result (λ bytes. length bytes ≡ size) }

        // Where the pool has them, the site isn't asked.
        ensures unasked { (bytes : List ℕ) → held_at self.old set ci ≡ Some bytes → site.new ≡ site.old }
        ensures sure { (bytes : List ℕ) → held_at self.old set ci ≡ Some bytes → result ≢ Err fault.Failed }

        // And all that it had at hand it has still.
        ensures hand { (bytes : List ℕ) → held_at self.old set ci ≡ Some bytes → SameAtHand self.old self.new }

        // Else they are read there.
        ensures asked { held_at self.old set ci ≡ None → T.tells_reads site.new set →
            OnOk result (T.bytes_read site.new set ≡ T.bytes_read site.old set + size) }

        // The pool.
        ensures list { IfOk result (λ bytes. self.new ≡ after_get set ci bytes self.old) }
        ensures err { OnErr result (self.new ≡ self.old) }
        ensures clean { T.told site.old → IsClean (T.disk site.old).contents self.old
            → IsClean (T.disk site.new).contents self.new }
        ensures sizes { (s n : ℕ) → (s ≡ set → n ≡ size) → HasSize s n self.old → HasSize s n self.new }

        // The site.
        ensures cause { RoseAt fault.Failed (T.faults site.old) (T.faults site.new) result }
        ensures stays { T.told site.old → Stays (T.disk site.old) (T.disk site.new) }
        ensures reads { ReadsUpTo set size (T.tells_reads site.old) (T.tells_reads site.new) (T.bytes_read site.old)
            (T.bytes_read site.new) }
        ensures site { IsContinued T.told T.faults T.holds T.keeps site.old site.new }
    {
        if let Some(bytes) = self.cells.waiting_bytes(set, ci) {
            return Ok(bytes.copy()?);
        }
        if self.clean.contains(&(set, ci)) {
            return clean::use_again(&mut self.clean, set, ci);
        }
        let bytes = read(self.alloc, site, set, ci * u64::from(size), size)?;
        clean::add(&mut self.clean, set, ci, bytes)
    }

    /// Stages bytes of an interval, in place of any that were. What is published and clean stays. Fails only for want
    /// of memory, and then nothing changes.
    pub fn stage(&mut self, set: u16, ci: u64, bytes: Bytes) -> Result<(), AllocError>
        requires { (ci + 1) * length bytes ≤ 2 ^ 62 }
        ensures staged { OnOk result ((s k : ℕ) → staged_at self.new s k
            ≡ (if s == set && k == ci then Some bytes else staged_at self.old s k)) }
        ensures pending { (s k : ℕ) → pending_at self.new s k ≡ pending_at self.old s k }
        ensures list { self.new.clean ≡ self.old.clean }
        ensures bound { self.new.bound ≡ self.old.bound }
        ensures err { OnErr result (self.new ≡ self.old) }
        ensures sizes { (s n : ℕ) → (s ≡ set → length bytes ≡ n) → HasSize s n self.old → HasSize s n self.new }
    {
        self.cells.stage(self.alloc, set, ci, bytes)
    }

    /// What is staged is pending from now on, for the entry at this place, and no more clean. Takes no memory.
    pub fn publish(&mut self, place: u64)
        ensures pending { (s k : ℕ) → pending_at self.new s k
            ≡ renewed_by place (staged_at self.old s k) (pending_at self.old s k) }
        ensures staged { (s k : ℕ) → staged_at self.new s k ≡ None }
        ensures list { self.new.clean ≡ filter (λ e. not (is_some (staged_at self.old e.0.0 e.0.1))) self.old.clean }
        ensures bound { self.new.bound ≡ self.old.bound }
        ensures clean { (contents : ℕ → List ℕ) → IsClean contents self.old → IsClean contents self.new }
        ensures sizes { (s n : ℕ) → HasSize s n self.old → HasSize s n self.new }
    {
        // No effect at run time. The proof reads here that cells ascend and that the list has each interval once.
        self.cells.ascend();
        let _count = self.clean.len();
        self.cells.unlist(&mut self.clean);
        self.cells.publish(place);
    }

    /// What is staged is dropped. Takes no memory.
    pub fn drop_staged(&mut self)
        ensures pending { (s k : ℕ) → pending_at self.new s k ≡ pending_at self.old s k }
        ensures staged { (s k : ℕ) → staged_at self.new s k ≡ None }
        ensures list { self.new.clean ≡ self.old.clean }
        ensures bound { self.new.bound ≡ self.old.bound }
        ensures sizes { (s n : ℕ) → HasSize s n self.old → HasSize s n self.new }
    {
        self.cells.drop_staged();
    }

    /// The staged bytes of an interval, if there are any.
    pub fn staged(&self, set: u16, ci: u64) -> Option<&[u8]>
        ensures { option_copied result ≡ staged_at self.now set ci }
    {
        let cell = self.cells.get(set, ci)?;
        let bytes = cell.staged.as_ref()?;
        Some(bytes.as_slice())
    }

    /// The newest published bytes of an interval, if it is pending. It ends at or before byte 2^62.
    pub fn pending(&self, set: u16, ci: u64) -> Option<&[u8]>
        ensures value { option_copied result ≡ bytes_of (pending_at self.now set ci) }
        ensures ends { IfSome result (λ bytes. (ci + 1) * length bytes.now ≤ 2 ^ 62) }
    {
        match self.cells.waiting_bytes(set, ci) {
            None => None,
            Some(bytes) => Some(bytes.as_slice()),
        }
    }

    /// The pending interval whose newest entry is the oldest among those below `sealed`, the number of sealed
    /// entries; among equals the first by data set and number. None exactly where there is none.
    pub fn oldest_sealed(&self, sealed: u64) -> Option<(u16, u64)>
        ensures some { IfSome result (λ at. IsOldestSealed self.now sealed at.0 at.1) }
        ensures none { IfNone result (NoneSealed self.now sealed) }
    {
        let newest = self.cells.least_newest();
        if sealed <= newest {
            return None;
        }
        let cell = self.cells.first_up_to(newest)?;
        Some((cell.set, cell.ci))
    }

    /// What a checkpoint of the entries below `count` is owed, where the entries below `sealed` are sealed.
    pub fn owed(&self, count: u64, sealed: u64) -> Owed
        ensures none { result ≡ owed.None → NoneOwes self.now count }
        ensures write { (set ci : ℕ) → result ≡ owed.Write set ci → IsFirstOwed self.now count sealed set ci }
        ensures unsealed { result ≡ owed.Unsealed → AreUnsealed self.now count sealed }
    {
        if count <= self.cells.least_oldest() {
            return Owed::None;
        }
        match self.cells.first_to_pay(count, sealed) {
            Some(cell) => Owed::Write(cell.set, cell.ci),
            None => Owed::Unsealed,
        }
    }

    /// Writes an interval to its data set, where it is pending; then it is so no more. After `Failed` it stays so.
    /// Takes no memory.
    pub fn write_one<T: Site>(&mut self, site: &mut T, set: u16, ci: u64) -> Result<(), Failed>
        // What is pending.
        ensures done { OnOk result ((s k : ℕ) → pending_at self.new s k
            ≡ (if s == set && k == ci then None else pending_at self.old s k)) }
        ensures err { OnErr result (self.new ≡ self.old) }
        ensures fewer { IsSome (pending_at self.old set ci)
            → OnOk result (pending_number self.new.cells < pending_number self.old.cells) }
        ensures staged { (s k : ℕ) → staged_at self.new s k ≡ staged_at self.old s k }
        ensures list { self.new.clean ≡ self.old.clean }
        ensures bound { self.new.bound ≡ self.old.bound }
        ensures sizes { (s n : ℕ) → HasSize s n self.old → HasSize s n self.new }

        // The data set has the published bytes; after a fault any in their range.
        ensures wrote { T.told site.old → (w : Pending) → pending_at self.old set ci ≡ Some w
            → OnOk result ((T.disk site.new).contents set
            ≡ written ((T.disk site.old).contents set) (ci * length w.bytes) w.bytes) }
        ensures broke { T.told site.old → (w : Pending) → pending_at self.old set ci ≡ Some w
            → OnErr result (Broken (ci * length w.bytes) (length w.bytes) ((T.disk site.old).contents set)
            ((T.disk site.new).contents set)) }
        ensures idle { pending_at self.old set ci ≡ None → (site.new ≡ site.old) × (result ≡ Ok tt) }
        ensures clean { T.told site.old → (size : ℕ) → HasSize set size self.old
            → IsClean (T.disk site.old).contents self.old → IsClean (T.disk site.new).contents self.new }

        // The site.
        ensures cause { Counts (T.faults site.old) (T.faults site.new) result }
        ensures leaves { T.told site.old → Leaves set (T.disk site.old) (T.disk site.new) }
        ensures reads { ReadsNothing (T.tells_reads site.old) (T.tells_reads site.new) (T.bytes_read site.old)
            (T.bytes_read site.new) }
        ensures site { IsContinued T.told T.faults T.holds T.keeps site.old site.new }

        // A crash at any moment of the call leaves of this data set an earlier image with the interval's range torn.
        ensures crash { T.told site.old → (w : Pending) → pending_at self.old set ci ≡ Some w
            → Elapses (T.disk site.old) (T.disk site.new)
            (Tears (T.disk site.old) set (ci * length w.bytes) (length w.bytes)) }
    {
        match self.cells.waiting_bytes(set, ci) {
            None => Ok(()),
            Some(bytes) => {
                site.write_at(set, ci * bytes.len() as u64, bytes.as_slice())?;
                self.cells.write(set, ci);
                Ok(())
            }
        }
    }
}
