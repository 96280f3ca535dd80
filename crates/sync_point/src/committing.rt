//! A transaction's end: its queue is settled beside the databases; every growth comes first; then its entry is appended
//! and the databases are given what is staged, which takes no memory. So both happen or neither.
ghost use Rattle.fp_model.specs.Items.{IsFit, with_items};
ghost use Rattle.fp_model.specs.Commit.{settlement};
ghost use Rattle.fp_model.specs.ItemTargets.{is_ascending};
ghost use Rattle.fp_model.specs.LogText.{FitsEntry, KeepsRules};
ghost use Rattle.fp_model.specs.Serial.{settled_as};
ghost use Rattle.fp_model.specs.Settle.{Stands, VerifyFails, settle};
ghost use Rattle.fp_model.specs.WellFormed.{IsMsdbDef};
ghost use Rattle.fp_model.specs.Workspace.{Workspace};
ghost use Rattle.fp_model.specs.declared.database.Db.{Db};
ghost use Rattle.fp_model.specs.declared.definitions.Defs.{Defs};
ghost use Rattle.fp_model.specs.declared.definitions.MsdbDef.{MsdbDef};
ghost use Rattle.msdb_store.specs.Settling.{CanSettle, HasItem, IsNamed, IsSegmentItem, IsStaged};
ghost use Rattle.msdb_store.specs.Store.{IsOf};
ghost use Rattle.std.specs.List.{AllByRecursion};
ghost use Rattle.std.specs.Prelude.{◌≡◌, ◌↔◌, ℕ, ◌<◌, ◌≤◌, ◌^◌, ◌++◌, ◌∷◌, [], IfOk, IsErrOf, IsTrue, List as ListOf, OnErr, OnOk, length};
ghost use Rattle.sync_point.specs.Drafts.{IsDraftOf, IsEnd, done_entry};
ghost use Rattle.sync_point.specs.declared.committing.Cause.TheVariants as causes;

use crate::appending::append_beside;
use fp_model::{Bytes, Deferred, Entry, Item, List, Outcome};
use log_groups::Log;
use msdb_store::{MsdbStore, Staged, VerifyFault};
use std::alloc::AllocError;

// A queue has fewer calls than this, and an entry fewer notes and items.
const MOST: usize = 1 << 32;

/// What a transaction whose script has replied hands to its sync point.
#[derive(Drop)]
pub struct Draft {
    /// How many entries stood as it began.
    pub from: u64,
    /// The message line.
    pub line: Bytes,
    pub reply: Bytes,
    /// For each unheld look at a main storage database, how many entries stood.
    pub notes: List<u64>,
    /// The changes that wait for the sync point, in call order.
    pub deferred: List<Deferred>,
}

/// Why a draft isn't committed.
#[derive(Debug, PartialEq, Eq, Drop)]
pub enum Cause {
    /// A field call fails: its place in the queue and that of the field search argument, both from 0 (65,535 where the
    /// segment is absent), and the bytes of the field as the argument met it.
    Verify { call: u32, fsa: u16, found: Bytes },
    /// There was no memory.
    Memory,
}

impl From<AllocError> for Cause {
    ghost from_gives = { λ _ e. e ≡ causes.Memory };

    fn from(_: AllocError) -> Cause {
        Cause::Memory
    }
}

impl Draft {
    // What its queue comes to. It fails also where there would be 2^32 calls.
    fn settled(&self, msdbs: &MsdbStore) -> Result<Staged, Cause>
        requires able { (defs : ListOf MsdbDef) × CanSettle defs msdbs.now self.now.deferred }
        ensures ok { (defs : ListOf MsdbDef) → CanSettle defs msdbs.now self.now.deferred
            → IfOk result (λ staged. settle defs msdbs.now.msdbs self.now.deferred
            ≡ Stands (with_items defs msdbs.now.msdbs staged.items)) }
        ensures verify { (defs : ListOf MsdbDef) (call fsa : ℕ) (found : ListOf ℕ)
            → CanSettle defs msdbs.now self.now.deferred
            → IsErrOf result (causes.Verify call fsa found)
            → settle defs msdbs.now.msdbs self.now.deferred ≡ VerifyFails call fsa found }
        ensures staged { (defs : ListOf MsdbDef) → CanSettle defs msdbs.now self.now.deferred
            → IfOk result (IsStaged defs msdbs.now.msdbs) }
        ensures keys { (defs : ListOf MsdbDef) → CanSettle defs msdbs.now self.now.deferred
            → IfOk result (λ staged. (number : ℕ) → (key : ListOf ℕ)
            → (HasItem staged.items number key) ↔ (IsNamed defs self.now.deferred number key)) }
    {
        if self.deferred.len() >= MOST {
            return Err(Cause::Memory);
        }
        match msdbs.check(&self.deferred) {
            Ok(staged) => Ok(staged),
            Err(VerifyFault::Verify { call, fsa, found }) => Err(Cause::Verify {
                call,
                fsa,
                found,
            }),
            Err(VerifyFault::Memory) => Err(Cause::Memory),
        }
    }

    // Its entry, with these items. It fails also where there would be 2^32 notes or items.
    fn done(self, items: List<Item>) -> Result<Entry, AllocError>
        ensures entry { IfOk result (λ entry. entry ≡ done_entry self items) }
        ensures few_notes { IfOk result (λ entry. length entry.notes < 2 ^ 32) }
        ensures few_items { IfOk result (λ entry. length entry.items < 2 ^ 32) }
    {
        if self.notes.len() >= MOST || items.len() >= MOST {
            return Err(AllocError);
        }
        let Draft {
            from,
            line,
            reply,
            notes,
            deferred: _,
        } = self;
        Ok(Entry {
            from,
            outcome: Outcome::Done,
            line,
            reply,
            notes,
            items,
        })
    }
}

// Appends an entry and gives the databases what is staged. Every growth comes first.
fn publish(
    msdbs: &mut MsdbStore,
    log: &mut Log,
    entry: &Entry,
    staged: Staged,
) -> Result<(), AllocError>
    requires rules { KeepsRules entry.now }
    requires fits { FitsEntry entry.now }
    requires staged { (defs : ListOf MsdbDef) × IsOf defs msdbs.old × IsStaged defs msdbs.old.msdbs staged }
    ensures msdbs { (defs : ListOf MsdbDef) → IsOf defs msdbs.old → IsStaged defs msdbs.old.msdbs staged
        → OnOk result (msdbs.new.msdbs ≡ with_items defs msdbs.old.msdbs staged.items) }
    ensures of { (defs : ListOf MsdbDef) → IsOf defs msdbs.old → IsStaged defs msdbs.old.msdbs staged
        → IsOf defs msdbs.new }
    ensures few { AllByRecursion (λ msdb. length msdb.segments < 2 ^ 32) msdbs.old.msdbs
        → AllByRecursion (λ msdb. length msdb.segments < 2 ^ 32) msdbs.new.msdbs }
    ensures unsealed { OnOk result (log.new.unsealed ≡ log.old.unsealed ++ entry.now ∷ []) }
    ensures spare { log.old.spare ≤ log.new.spare }
    ensures most { log.new.spare ≤ log.old.spare }
    ensures sealed { log.new.sealed ≡ log.old.sealed }
    ensures gate { log.new.gate ≡ log.old.gate }

    // Want of memory changes neither.
    ensures segments { OnErr result (msdbs.new.msdbs ≡ msdbs.old.msdbs) }
    ensures waiting { OnErr result (log.new.unsealed ≡ log.old.unsealed) }
{
    msdbs.reserve(staged.inserts())?;
    append_beside(log, entry, log.spare())?;
    msdbs.publish(staged);
    Ok(())
}

// Appends an entry whose items add no segment, and gives the databases these. Every growth comes first.
fn publish_over(msdbs: &mut MsdbStore, log: &mut Log, entry: &Entry) -> Result<(), AllocError>
    requires rules { KeepsRules entry.now }
    requires fits { FitsEntry entry.now }
    requires staged { (defs : ListOf MsdbDef) × IsOf defs msdbs.old
        × IsStaged defs msdbs.old.msdbs (record { items = entry.now.items; inserts = 0 }) }
    ensures msdbs { (defs : ListOf MsdbDef) → IsOf defs msdbs.old
        → IsStaged defs msdbs.old.msdbs (record { items = entry.now.items; inserts = 0 })
        → OnOk result (msdbs.new.msdbs ≡ with_items defs msdbs.old.msdbs entry.now.items) }
    ensures of { (defs : ListOf MsdbDef) → IsOf defs msdbs.old
        → IsStaged defs msdbs.old.msdbs (record { items = entry.now.items; inserts = 0 }) → IsOf defs msdbs.new }
    ensures few { AllByRecursion (λ msdb. length msdb.segments < 2 ^ 32) msdbs.old.msdbs
        → AllByRecursion (λ msdb. length msdb.segments < 2 ^ 32) msdbs.new.msdbs }
    ensures unsealed { OnOk result (log.new.unsealed ≡ log.old.unsealed ++ entry.now ∷ []) }
    ensures spare { log.old.spare ≤ log.new.spare }
    ensures most { log.new.spare ≤ log.old.spare }
    ensures sealed { log.new.sealed ≡ log.old.sealed }
    ensures gate { log.new.gate ≡ log.old.gate }

    // Want of memory changes neither.
    ensures segments { OnErr result (msdbs.new.msdbs ≡ msdbs.old.msdbs) }
    ensures waiting { OnErr result (log.new.unsealed ≡ log.old.unsealed) }
{
    let room = log.spare();
    append_beside(log, entry, room)?;
    msdbs.publish_over(&entry.items);
    Ok(())
}

// Appends the entry of a draft whose queue is settled, and gives the databases what is staged. Items that add no
// segment are handed on to the entry, and given from there.
fn enter(
    draft: Draft,
    staged: Staged,
    msdbs: &mut MsdbStore,
    log: &mut Log,
) -> Result<Entry, AllocError>
    requires staged { (defs : ListOf MsdbDef) × IsOf defs msdbs.old × IsStaged defs msdbs.old.msdbs staged
        × AllByRecursion IsMsdbDef defs }
    requires line { length draft.line < 2 ^ 16 }
    requires reply { length draft.reply < 2 ^ 16 }
    ensures entry { IfOk result (λ entry. entry ≡ done_entry draft staged.items) }
    ensures unsealed { IfOk result (λ entry. log.new.unsealed ≡ log.old.unsealed ++ entry ∷ []) }
    ensures msdbs { (defs : ListOf MsdbDef) → IsOf defs msdbs.old → IsStaged defs msdbs.old.msdbs staged
        → OnOk result (msdbs.new.msdbs ≡ with_items defs msdbs.old.msdbs staged.items) }
    ensures of { (defs : ListOf MsdbDef) → IsOf defs msdbs.old → IsStaged defs msdbs.old.msdbs staged
        → IsOf defs msdbs.new }
    ensures few { AllByRecursion (λ msdb. length msdb.segments < 2 ^ 32) msdbs.old.msdbs
        → AllByRecursion (λ msdb. length msdb.segments < 2 ^ 32) msdbs.new.msdbs }
    ensures spare { log.old.spare ≤ log.new.spare }
    ensures most { log.new.spare ≤ log.old.spare }
    ensures sealed { log.new.sealed ≡ log.old.sealed }
    ensures gate { log.new.gate ≡ log.old.gate }

    // Want of memory changes neither.
    ensures segments { OnErr result (msdbs.new.msdbs ≡ msdbs.old.msdbs) }
    ensures waiting { OnErr result (log.new.unsealed ≡ log.old.unsealed) }
{
    if staged.inserts() > 0 {
        let entry = draft.done(staged.items()?)?;
        publish(msdbs, log, &entry, staged)?;
        return Ok(entry);
    }
    let entry = draft.done(staged.into_items())?;
    publish_over(msdbs, log, &entry)?;
    Ok(entry)
}

/// Settles a draft's queue, appends its entry to the log, and gives the databases its changes; or answers a cause, and
/// changes neither. The result is the entry as it stands in the log. Memory is also the answer where the queue, the
/// notes or the items would be 2^32 or more.
pub fn commit(draft: Draft, msdbs: &mut MsdbStore, log: &mut Log) -> Result<Entry, Cause>
    requires able { (defs : ListOf MsdbDef) × CanSettle defs msdbs.old draft.deferred }
    requires line { length draft.line < 2 ^ 16 }
    requires reply { length draft.reply < 2 ^ 16 }

    // The transaction ends as the state and the workspace say: done, or with the verify that fails.
    ensures end { (defs : Defs) (now : Db) (own : Workspace) → IsDraftOf defs now own msdbs.old draft
        → IsEnd now msdbs.new.msdbs result (settled_as now draft.reply (settlement defs now own)) }
    ensures found { (call fsa : ℕ) (found : ListOf ℕ) → IsErrOf result (causes.Verify call fsa found)
        → length found ≤ 1024 }

    // At Ok the log has the draft's entry behind the others, and its items make the databases of what they were.
    ensures entry { IfOk result (λ entry. entry ≡ done_entry draft entry.items) }
    ensures unsealed { IfOk result (λ entry. log.new.unsealed ≡ log.old.unsealed ++ entry ∷ []) }
    ensures msdbs { (defs : ListOf MsdbDef) → CanSettle defs msdbs.old draft.deferred
        → IfOk result (λ entry. msdbs.new.msdbs ≡ with_items defs msdbs.old.msdbs entry.items) }
    ensures fit { (defs : Defs) → CanSettle defs.msdbs msdbs.old draft.deferred
        → IfOk result (λ entry. AllByRecursion (IsFit defs) entry.items) }
    ensures keys { (defs : ListOf MsdbDef) → CanSettle defs msdbs.old draft.deferred
        → IfOk result (λ entry. (number : ℕ) → (key : ListOf ℕ)
        → (HasItem entry.items number key) ↔ (IsNamed defs draft.deferred number key)) }

    ensures kinds { (defs : ListOf MsdbDef) → CanSettle defs msdbs.old draft.deferred
        → IfOk result (λ entry. AllByRecursion IsSegmentItem entry.items) }
    ensures in_order { (defs : ListOf MsdbDef) → CanSettle defs msdbs.old draft.deferred
        → IfOk result (λ entry. IsTrue (is_ascending entry.items)) }

    // A cause changes neither databases nor entries.
    ensures segments { OnErr result (msdbs.new.msdbs ≡ msdbs.old.msdbs) }
    ensures waiting { OnErr result (log.new.unsealed ≡ log.old.unsealed) }

    // Whatever the answer is, the store is of its definitions, no database has 2^32 segments that had fewer, and the log
    // has as much room as before.
    ensures of { (defs : ListOf MsdbDef) → CanSettle defs msdbs.old draft.deferred → IsOf defs msdbs.new }
    ensures few { AllByRecursion (λ msdb. length msdb.segments < 2 ^ 32) msdbs.old.msdbs
        → AllByRecursion (λ msdb. length msdb.segments < 2 ^ 32) msdbs.new.msdbs }
    ensures spare { log.old.spare ≤ log.new.spare }
    ensures most { log.new.spare ≤ log.old.spare }
    ensures sealed { log.new.sealed ≡ log.old.sealed }
    ensures gate { log.new.gate ≡ log.old.gate }
{
    let staged = draft.settled(msdbs)?;
    let entry = enter(draft, staged, msdbs, log)?;
    Ok(entry)
}
