//! An active region runs to its next call, and answers it where it needs no lock.
ghost use Rattle.ci_locks.specs.Table.{standing};
ghost use Rattle.fp_core.specs.inside.Acting.{HasActed, IsAtWork, MayEnd};
ghost use Rattle.fp_core.specs.inside.Answering.{IsActed, IsCalling, IsReplying};
ghost use Rattle.fp_core.specs.Relation.{IsAhead, IsSetup, IsTransaction, rules_in};
ghost use Rattle.fp_model.specs.Machine.{Machine, Transaction};
ghost use Rattle.fp_model.specs.declared.database.Db.{Db};
ghost use Rattle.fp_model.specs.declared.definitions.Defs.{Defs as DefsOf};
ghost use Rattle.fp_model.specs.declared.scripts.Script.{Script};
ghost use Rattle.msdb_store.specs.Store.{IsOf};
ghost use Rattle.std.specs.Prelude.{◌≡◌, ◌≤◌, ℕ, IfOk, List as ListOf, None, OnErr, length};

use crate::engine::{Active, Ahead, Engine, Region};
use crate::locking::{copy_of, first_unheld};
use ci_locks::Locks;
use dli_calls::{Ready, answer};
use fp_exits::Exits;
use fp_model::{Bytes, Call, Defs, List, Mode, Resource};
use msdb_store::MsdbStore;
use std::alloc::{AllocError, Global};
use sync_point::resources;
use txn_lang::Scripts;
use txn_machine::Next;

/// What an active region came to.
#[derive(Drop)]
pub(crate) enum Acted {
    /// Its call was answered.
    Answered,
    /// Its call, or its sync point, needs this lock first.
    Needs(Resource, Mode),
    /// Its script is at its end with this reply, and the region holds what the sync point needs.
    Replies(Bytes),
    /// Its script is at its end, with this rollback code.
    Rolls(u16),
}

// Runs a transaction to what it does next.
fn work_out(
    active: &mut Active,
    alloc: Global,
    defs: &Defs,
    scripts: &Scripts,
) -> Result<Ahead, AllocError>
    requires setup { IsSetup defs.now scripts.now.scripts }
    requires under { (t : Transaction) × IsTransaction defs.now scripts.now.scripts active.old t }
    requires unknown { active.old.ahead ≡ None }
    ensures is { (t : Transaction) → IsTransaction defs.now scripts.now.scripts active.old t
        → IfOk result (IsAhead defs.now scripts.now.scripts active.new.program t) }

    // It stays the machine's transaction.
    ensures same { (t : Transaction) → IsTransaction defs.now scripts.now.scripts active.old t
        → IsTransaction defs.now scripts.now.scripts active.new t }
    ensures taken { active.new.ahead ≡ None }
{
    match active.program.next(scripts, defs, &active.message)? {
        Next::Call(call) => Ok(Ahead::Call(call)),
        Next::Reply(text) => {
            let segments = resources(alloc, active.work.deferred())?;
            Ok(Ahead::Reply { text, segments })
        }
        Next::Roll(code) => Ok(Ahead::Roll(code)),
    }
}

// Takes what a transaction does next: it was worked out before, or is now.
fn look_ahead(
    active: &mut Active,
    alloc: Global,
    defs: &Defs,
    scripts: &Scripts,
) -> Result<Ahead, AllocError>
    requires setup { IsSetup defs.now scripts.now.scripts }
    requires under { (t : Transaction) × IsTransaction defs.now scripts.now.scripts active.old t }
    ensures is { (t : Transaction) → IsTransaction defs.now scripts.now.scripts active.old t
        → IfOk result (IsAhead defs.now scripts.now.scripts active.new.program t) }

    // It stays the machine's transaction.
    ensures same { (t : Transaction) → IsTransaction defs.now scripts.now.scripts active.old t
        → IsTransaction defs.now scripts.now.scripts active.new t }
    ensures taken { active.new.ahead ≡ None }
{
    match active.ahead.take() {
        Some(ahead) => Ok(ahead),
        Option::None => work_out(active, alloc, defs, scripts),
    }
}

// What it does next is a call: it is answered where it needs no lock, and else kept.
fn take_call(
    active: &mut Active,
    call: Call,
    alloc: Global,
    defs: &Defs,
    exits: &Exits,
    store: &MsdbStore,
    locks: &Locks,
    region: u8,
    count: u64,
) -> Result<Acted, AllocError>
    requires store { IsOf defs.now.msdbs store.now }
    requires some { 1 ≤ region }
    requires within { region ≤ length locks.now }
    requires under { (scripts : ListOf Script) × ((t : Transaction) × IsCalling defs.now scripts active.old t call) }
    ensures acted { (scripts : ListOf Script) (now : Db) (t : Transaction) → now.msdbs ≡ store.now.msdbs
        → IsCalling defs.now scripts active.old t call
        → IfOk result (IsActed defs.now scripts ((standing locks.now).holds region) now count t active.new) }
    ensures err { (scripts : ListOf Script) (t : Transaction) → IsTransaction defs.now scripts active.old t
        → OnErr result (IsTransaction defs.now scripts active.new t) }
{
    let ready = answer(
        alloc,
        &mut active.work,
        &call,
        store,
        defs,
        exits,
        locks,
        region,
        count,
    )?;
    match ready {
        Ready::Answer(given) => {
            active.program.give(given);
            Ok(Acted::Answered)
        }
        Ready::Need(resource, mode) => {
            active.ahead = Some(Ahead::Call(call));
            Ok(Acted::Needs(resource, mode))
        }
    }
}

// Its script is at its end with a reply. Where its sync point needs a lock the reply is kept.
fn take_reply(
    active: &mut Active,
    text: Bytes,
    segments: List<Resource>,
    locks: &Locks,
    region: u8,
) -> Result<Acted, AllocError>
    requires some { 1 ≤ region }
    requires within { region ≤ length locks.now }
    ensures acted { (defs : DefsOf) (scripts : ListOf Script) (now : Db) (count : ℕ) (t : Transaction)
        → IsReplying defs scripts active.old t text segments
        → IfOk result (IsActed defs scripts ((standing locks.now).holds region) now count t active.new) }
    ensures err { OnErr result (active.new ≡ active.old) }
{
    match first_unheld(locks, region, segments.as_slice()) {
        Some(resource) => {
            let lack = copy_of(resource)?;
            active.ahead = Some(Ahead::Reply { text, segments });
            Ok(Acted::Needs(lack, Mode::Exclusive))
        }
        Option::None => Ok(Acted::Replies(text)),
    }
}

// Runs one transaction to its next call, and answers it where it needs no lock. What needs one is kept.
fn go_on(
    active: &mut Active,
    alloc: Global,
    defs: &Defs,
    scripts: &Scripts,
    exits: &Exits,
    store: &MsdbStore,
    locks: &Locks,
    region: u8,
    count: u64,
) -> Result<Acted, AllocError>
    requires setup { IsSetup defs.now scripts.now.scripts }
    requires store { IsOf defs.now.msdbs store.now }
    requires some { 1 ≤ region }
    requires within { region ≤ length locks.now }
    requires under { (t : Transaction) × IsTransaction defs.now scripts.now.scripts active.old t }
    ensures acted { (now : Db) (t : Transaction) → now.msdbs ≡ store.now.msdbs
        → IsTransaction defs.now scripts.now.scripts active.old t
        → IfOk result (IsActed defs.now scripts.now.scripts ((standing locks.now).holds region) now count t
        active.new) }
    ensures err { (t : Transaction) → IsTransaction defs.now scripts.now.scripts active.old t
        → OnErr result (IsTransaction defs.now scripts.now.scripts active.new t) }
{
    let ahead = look_ahead(active, alloc, defs, scripts)?;
    match ahead {
        Ahead::Call(call) => {
            take_call(
                active, call, alloc, defs, exits, store, locks, region, count,
            )
        }
        Ahead::Reply { text, segments } => take_reply(active, text, segments, locks, region),
        Ahead::Roll(code) => Ok(Acted::Rolls(code)),
    }
}

impl Engine<'_> {
    /// The active region runs to its next call, and answers it where it needs no lock.
    pub(crate) fn go_on(&mut self, region: u8, exits: &Exits) -> Result<Acted, AllocError>
        requires some { 1 ≤ region }
        requires within { region ≤ length self.old.regions }
        requires under { (m : Machine) × ((t : Transaction) × IsAtWork self.old m region t) }
        ensures acted { (m : Machine) (t : Transaction) → IsAtWork self.old m region t
            → IfOk result (HasActed self.new m region t) }
        ensures err { (m : Machine) (t : Transaction) → IsAtWork self.old m region t
            → OnErr result (MayEnd self.new m region t) }

        // What stays.
        ensures rules { rules_in self.new ≡ rules_in self.old }
        ensures defs { self.new.defs ≡ self.old.defs }
        ensures scripts { self.new.scripts ≡ self.old.scripts }
        ensures gate { self.new.log.gate ≡ self.old.log.gate }
        ensures most { self.new.log.spare ≤ self.old.log.spare }
        ensures count { length self.new.regions ≡ length self.old.regions }
    {
        let count = self.log.count();
        match self.regions.item_mut(usize::from(region) - 1) {
            Region::Active(active) => go_on(
                active,
                self.alloc,
                self.defs,
                self.scripts,
                exits,
                &self.store,
                &self.locks,
                region,
                count,
            ),
            Region::Idle => unreachable!(),
        }
    }
}
