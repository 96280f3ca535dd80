//! The parts of the system that turns change.
ghost use Rattle.fp_core.specs.Relation.{IsSetup, StandsFor, rules_in};
ghost use Rattle.fp_core.specs.declared.engine.Region.TheVariants as regions;
ghost use Rattle.fp_model.specs.History.{History, place_of};
ghost use Rattle.fp_model.specs.Lasts.{format_at, lasts_of};
ghost use Rattle.fp_model.specs.Machine.{at_rest};
ghost use Rattle.fp_model.specs.Product.{rules_of};
ghost use Rattle.msdb_store.specs.Store.{IsOf};
ghost use Rattle.std.specs.Prelude.{◌≡◌, ◌≤◌, ◌-◌, ℕ, [], IfOk, List as ListOf, Some, length, replicate, slice_get, slice_set};

use crate::numbering::Kept;
use crate::stepping::Started;
use balancing::{Lasts, Queues, group_count};
use ci_locks::Locks;
use dli_calls::Work;
use fp_model::{Bytes, Call, Defs, List, Message, Outcome, Resource};
use log_groups::Log;
use msdb_store::MsdbStore;
use std::alloc::{AllocError, Global};
use std::collections::VecDeque;
use txn_lang::Scripts;
use txn_machine::Program;

/// What a transaction does next.
#[derive(Drop)]
pub(crate) enum Ahead {
    /// A call, which is to be answered.
    Call(Call),
    /// The end of its script, with this reply: the sync point needs these segments.
    Reply {
        text: Bytes,
        segments: List<Resource>,
    },
    /// The end of its script, with this rollback code.
    Roll(u16),
}

/// A transaction under way.
#[derive(Drop)]
pub(crate) struct Active {
    /// How many entries stood as its last try began.
    pub(crate) from: u64,
    pub(crate) message: Message,
    pub(crate) program: Program,
    pub(crate) work: Work,
    /// How often it was begun again.
    pub(crate) tries: u32,
    /// What it does next, once that is worked out: it is kept while the region waits for a lock.
    pub(crate) ahead: Option<Ahead>,
    /// What is kept of its number where it is refused for want of memory.
    pub(crate) refusal: Option<Kept>,
}

#[derive(Drop)]
pub(crate) enum Region {
    Idle,
    Active(Active),
}

/// Of an entry that isn't sealed, what its reply line is made of.
#[derive(Drop)]
pub(crate) struct Owed {
    pub(crate) line: Bytes,
    pub(crate) outcome: Outcome,
    pub(crate) reply: Bytes,
}

/// All that a turn may change but the lines that aren't read, and what it runs by.
#[derive(Drop)]
pub(crate) struct Engine<'a> {
    pub(crate) alloc: Global,
    pub(crate) defs: &'a Defs,
    pub(crate) scripts: &'a Scripts,
    /// The format of the log, by which lines are read. No entry of a run changes it.
    pub(crate) format: u8,
    /// The line that waits for its terminal.
    pub(crate) held: Option<Bytes>,
    pub(crate) queues: Queues,
    /// Region r stands at place r - 1.
    pub(crate) regions: List<Region>,
    pub(crate) locks: Locks,
    pub(crate) store: MsdbStore,
    pub(crate) log: Log,
    /// Of each entry that isn't sealed, the oldest first.
    pub(crate) owed: VecDeque<Owed>,
    /// How many bytes of entries the log keeps free, for the refusal of each transaction under way.
    pub(crate) room: u64,
    /// The last number of each terminal, with room for one more of each transaction under way.
    pub(crate) lasts: Lasts,
}

// So many idle regions.
fn idle_regions(alloc: Global, count: usize) -> Result<List<Region>, AllocError>
    ensures { IfOk result (λ made. made ≡ replicate count regions.Idle) }
{
    let mut regions = List::with_capacity(alloc, count)?;
    for _ in 0..count {
        regions.push(Region::Idle)?;
    }
    Ok(regions)
}

/// Puts a value in the place of another, which is let go. By an assignment, the caller would be proved over every part of
/// the old value.
pub(crate) fn put<T: Drop>(place: &mut T, value: T)
    ensures { place.new ≡ value }
{
    *place = value;
}

/// Puts a region in the place of the one of this number.
pub(crate) fn set_region(regions: &mut List<Region>, region: u8, to: Region)
    requires some { 1 ≤ region }
    requires within { region ≤ length regions.old }
    ensures { regions.new ≡ slice_set regions.old (region - 1) to }
{
    put(regions.item_mut(usize::from(region) - 1), to);
}

impl<'a> Engine<'a> {
    /// The parts at rest: nothing is queued, held or locked, and no region is at work. It fails only for want of
    /// memory.
    pub(crate) fn new(
        alloc: Global,
        defs: &'a Defs,
        scripts: &'a Scripts,
        started: Started,
    ) -> Result<Engine<'a>, AllocError>
        requires setup { IsSetup defs.now scripts.now.scripts }
        requires store { IsOf defs.now.msdbs started.msdbs }
        requires sealed { started.log.unsealed ≡ [] }

        // Behind any entries that come to these databases.
        ensures stands { (lines : ListOf (ListOf ℕ)) (h : History) → h.now.msdbs ≡ started.msdbs.msdbs
            → place_of h ≡ started.log.sealed → length h.past ≡ place_of h
            → format_at h.format h.entries ≡ started.log.format
            → started.lasts.terminals ≡ lasts_of h.format h.entries
            → IfOk result (λ engine. StandsFor engine (at_rest (rules_of defs.now scripts.now.scripts) lines h)) }
        ensures rules { IfOk result (λ engine. rules_in engine ≡ rules_of defs.now scripts.now.scripts) }
        ensures defs { IfOk result (λ engine. engine.defs.now ≡ defs.now) }
        ensures scripts { IfOk result (λ engine. engine.scripts.now ≡ scripts.now) }
        ensures gate { IfOk result (λ engine. engine.log.gate ≡ started.log.gate) }
        ensures spare { IfOk result (λ engine. engine.log.spare ≡ started.log.spare) }
    {
        let Started { msdbs, log, lasts } = started;
        let format = log.format();
        let regions = defs.regions.len();
        Ok(Engine {
            alloc,
            defs,
            scripts,
            format,
            held: None,
            queues: Queues::new(alloc, group_count(defs.regions.as_slice()))?,
            regions: idle_regions(alloc, regions)?,
            locks: Locks::new(alloc, regions as u8)?,
            store: msdbs,
            log,
            owed: VecDeque::new(alloc),
            room: 0,
            lasts,
        })
    }
}

impl Engine<'_> {
    /// A region by its number, which counts from 1.
    pub(crate) fn region(&self, region: u8) -> &Region
        requires some { 1 ≤ region }
        requires within { region ≤ length self.now.regions }
        ensures { slice_get self.now.regions (region - 1) ≡ Some result.now }
    {
        &self.regions.as_slice()[usize::from(region) - 1]
    }
}
