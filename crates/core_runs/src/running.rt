//! A run: a new site, a step for each event of a schedule, the drain, and what is found then.
ghost use Rattle.fp_core.specs.Draining.{IsReachedBy};
ghost use Rattle.fp_core.specs.Relation.{IsSetup};
ghost use Rattle.fp_model.specs.Events.{IsEventOf};
ghost use Rattle.fp_exits.specs.Kinds.{has_kind, kinds_of};
ghost use Rattle.fp_model.specs.LogText.{FitsFront};
ghost use Rattle.fp_model.specs.Machine.{Machine};
ghost use Rattle.fp_model.specs.State.{start};
ghost use Rattle.fp_model.specs.WellFormed.{IsMsdbDef};
ghost use Rattle.fp_model.specs.declared.definitions.Defs.{Defs as DefsOf};
ghost use Rattle.log_groups.specs.Images.{as_front};
ghost use Rattle.msdb_store.specs.Store.{IsOf};
ghost use Rattle.std.specs.List.{AllByRecursion};
ghost use Rattle.std.specs.Prelude.{◌≡◌, ◌≤◌, [], IfOk, IsTrue, OnOk, length, true};

use crate::fault::Fault;
use crate::setup::{Task, definitions, front, scripts};
use crate::telling::{databases_text, log_text};
use balancing::Lasts;
use fp_core::{Core, Did, Started, Stop};
use fp_exits::Exits;
use fp_model::{Bytes, Defs, Event};
use fp_schedule::read_events;
use log_groups::{Front, Log};
use memory_site::MemorySite;
use memory_source::MemorySource;
use msdb_store::MsdbStore;
use std::alloc::{AllocError, Global};
use txn_lang::Scripts;

/// What is found of a run.
#[derive(Drop)]
pub struct Found {
    /// What each event of the schedule did.
    pub dids: Vec<Did>,
    /// How many events came up to the first that sent something.
    pub quiet: usize,
    /// The bytes sent, behind the drain.
    pub sent: Bytes,
    /// The bytes of the log.
    pub log: Bytes,
    /// The text of the log.
    pub groups: Bytes,
    /// The text of the databases that a restart gives.
    pub databases: Bytes,
}

/// A source of these messages alone.
pub fn source_of(alloc: Global, messages: &[u8]) -> Result<MemorySource, AllocError> {
    let parts = [
        Bytes::new(alloc),
        Bytes::new(alloc),
        Bytes::new(alloc),
        Bytes::from_slice(alloc, messages)?,
    ];
    MemorySource::new(alloc, parts, &[])
}

/// What a core begins with on a new site: the loaded databases, and a log without entries behind this front.
pub fn begun(
    alloc: Global,
    defs: &Defs,
    front: &Front,
    site: &mut MemorySite,
) -> Result<Started, Fault>
    requires defs { AllByRecursion IsMsdbDef defs.now.msdbs }
    requires fits { FitsFront (as_front front.now) }
    ensures of { IfOk result (λ started. IsOf defs.now.msdbs started.msdbs) }
    ensures msdbs { IfOk result (λ started. started.msdbs.msdbs ≡ (start defs.now).msdbs) }
    ensures sealed { IfOk result (λ started. started.log.sealed ≡ 0) }
    ensures unsealed { IfOk result (λ started. started.log.unsealed ≡ []) }
    ensures lasts { IfOk result (λ started. started.lasts.terminals ≡ []) }
{
    if Log::make(alloc, site, front).is_err() {
        return Err(Fault::NoLog);
    }
    let Ok(log) = Log::open(alloc, site, front) else {
        return Err(Fault::NoLog);
    };
    let msdbs = MsdbStore::start(alloc, defs)?;
    let lasts = Lasts::new(alloc)?;
    Ok(Started { msdbs, log, lasts })
}

/// The core at rest.
pub fn core_of<'a>(
    alloc: Global,
    defs: &'a Defs,
    scripts: &'a Scripts,
    exits: &'a Exits,
    started: Started,
) -> Result<Core<'a>, AllocError>
    requires setup { IsSetup defs.now scripts.now.scripts }
    requires router { has_kind (kinds_of exits.now).routers defs.now.router ≡ true }
    requires of { IsOf defs.now.msdbs started.msdbs }
    requires msdbs { started.msdbs.msdbs ≡ (start defs.now).msdbs }
    requires sealed { started.log.sealed ≡ 0 }
    requires unsealed { started.log.unsealed ≡ [] }
    requires lasts { started.lasts.terminals ≡ [] }
    ensures reached { IfOk result (λ core. (m : Machine) × IsReachedBy core.engine m) }
    ensures routed { IfOk result (λ core. core.router.now.kind ≡ core.engine.defs.now.router) }
    ensures regions { IfOk result (λ core. core.engine.defs.now.regions ≡ defs.now.regions) }
{
    Core::new(alloc, defs, scripts, exits, started)
}

/// Whether an event is one of definitions with so many regions, and no data entry database.
pub fn is_event(event: &Event, regions: usize) -> bool
    ensures { IsTrue result → (defs : DefsOf) → length defs.regions ≡ regions → IsEventOf defs event.now }
{
    match *event {
        Event::Region(region) => 1 <= region && usize::from(region) <= regions,
        Event::Purge { .. } => false,
        _ => true,
    }
}

/// One event: what it did.
pub fn step(
    core: &mut Core<'_>,
    event: &Event,
    site: &mut MemorySite,
    source: &mut MemorySource,
) -> Result<Did, Stop>
    requires reached { (m : Machine) × IsReachedBy core.old.engine m }
    requires routed { core.old.router.now.kind ≡ core.old.engine.defs.now.router }
    requires event { IsEventOf core.old.engine.defs.now event.now }
    ensures reached { OnOk result ((m : Machine) × IsReachedBy core.new.engine m) }
    ensures routed { core.new.router.now.kind ≡ core.new.engine.defs.now.router }
    ensures defs { core.new.engine.defs ≡ core.old.engine.defs }
{
    core.step(event, site, source)
}

/// What the events of a schedule did.
#[derive(Drop)]
pub struct Story {
    pub dids: Vec<Did>,
    pub quiet: usize,
}

// One event after another.
fn step_all(
    alloc: Global,
    core: &mut Core<'_>,
    events: &[Event],
    regions: usize,
    site: &mut MemorySite,
    source: &mut MemorySource,
) -> Result<Story, Fault>
    requires reached { (m : Machine) × IsReachedBy core.old.engine m }
    requires routed { core.old.router.now.kind ≡ core.old.engine.defs.now.router }
    requires regions { length core.old.engine.defs.now.regions ≡ regions }
    ensures reached { OnOk result ((m : Machine) × IsReachedBy core.new.engine m) }
    ensures routed { core.new.router.now.kind ≡ core.new.engine.defs.now.router }
{
    let mut dids = Vec::new(alloc);
    let mut quiet = 0;
    for event in events {
        if !is_event(event, regions) {
            return Err(Fault::NoEvent);
        }
        if site.sent().is_empty() {
            quiet += 1;
        }
        let did = step(core, event, site, source)?;
        dids.push(did)?;
    }
    Ok(Story { dids, quiet })
}

// Steps the core through a schedule, drains it and closes it.
fn take(
    alloc: Global,
    core: &mut Core<'_>,
    defs: &Defs,
    schedule: &[Event],
    site: &mut MemorySite,
    source: &mut MemorySource,
) -> Result<Story, Fault>
    requires reached { (m : Machine) × IsReachedBy core.old.engine m }
    requires routed { core.old.router.now.kind ≡ core.old.engine.defs.now.router }
    requires regions { core.old.engine.defs.now.regions ≡ defs.now.regions }
{
    let story = step_all(alloc, core, schedule, defs.regions.len(), site, source)?;
    core.drain(site, source)?;
    core.close(site)?;
    Ok(story)
}

/// Runs a schedule over messages on a site that has no log yet, and then the drain. What stands on the site behind a
/// stop is the caller's to look at.
pub fn run(
    alloc: Global,
    task: &Task<'_>,
    exits: &Exits,
    site: &mut MemorySite,
) -> Result<Story, Fault> {
    let defs = definitions(alloc, task.definitions, exits)?;
    let scripts = scripts(alloc, task.scripts, &defs)?;
    let Ok(events) = read_events(alloc, task.schedule, &defs) else {
        return Err(Fault::NotRead);
    };
    let mut source = source_of(alloc, task.messages)?;
    let front = front(alloc, task.numbered)?;
    let started = begun(alloc, &defs, &front, site)?;
    let mut core = core_of(alloc, &defs, &scripts, exits, started)?;
    take(
        alloc,
        &mut core,
        &defs,
        events.as_slice(),
        site,
        &mut source,
    )
}

/// Runs a schedule over messages on a new site, and then the drain.
pub fn find(alloc: Global, task: &Task<'_>, exits: &Exits) -> Result<Found, Fault> {
    let mut site = MemorySite::new(alloc, &[])?;
    let Story { dids, quiet } = run(alloc, task, exits, &mut site)?;
    let sent = Bytes::from_slice(alloc, site.sent())?;
    let log = Bytes::from_slice(alloc, site.contents(0))?;
    let groups = log_text(alloc, task.numbered, &mut site)?;
    let defs = definitions(alloc, task.definitions, exits)?;
    let databases = databases_text(alloc, &defs, task.numbered, &mut site)?;
    Ok(Found {
        dids,
        quiet,
        sent,
        log,
        groups,
        databases,
    })
}
