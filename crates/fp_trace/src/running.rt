//! A run of the core over a site in memory, event by event, and what its log holds then.
ghost use Rattle.fp_core.specs.Draining.{IsReachedBy};
ghost use Rattle.fp_core.specs.Relation.{IsSetup};
ghost use Rattle.fp_exits.specs.Kinds.{has_kind, kinds_of};
ghost use Rattle.fp_model.specs.LogText.{FitsFront};
ghost use Rattle.fp_model.specs.Machine.{Machine};
ghost use Rattle.fp_model.specs.WellFormed.{AreDefs};
ghost use Rattle.log_groups.specs.Images.{as_front};
ghost use Rattle.std.specs.Prelude.{◌≡◌, ◌≤◌, IfOk, OnOk, length, true};

use crate::fault::Fault;
use crate::folder::Folder;
use core_runs::{Fault as RunFault, begun, core_of, is_event, source_of, step};
use fp_core::{Core, Did};
use fp_exits::Exits;
use fp_model::{Bytes, Defs, Entry, Event};
use fp_schedule::read_events;
use log_groups::{Front, Group, Log};
use memory_site::MemorySite;
use memory_source::MemorySource;
use std::alloc::{AllocError, Global};
use txn_lang::Scripts;

// The format of a log that is made: in this one messages may have numbers.
const FORMAT: u8 = 2;

// How many bytes scripts have at most.
const MOST_SCRIPTS: usize = 1_000_000;

/// An event, and what it did.
#[derive(Clone, Copy)]
pub(crate) struct Step {
    pub event: Event,
    pub did: Did,
    /// Whether it came behind the schedule.
    pub in_drain: bool,
}

/// A group of the log.
#[derive(Clone, Copy)]
pub(crate) struct Placed {
    /// The place of its gate, and that of the gate behind it, in bytes.
    pub gate: u64,
    pub next: u64,
    /// The place of its first entry, and how many there are.
    pub first: u64,
    pub entries: u64,
}

/// A run that was drained.
#[derive(Drop)]
pub(crate) struct Run {
    pub steps: Vec<Step>,
    pub entries: Vec<Entry>,
    pub groups: Vec<Placed>,
    /// The bytes of the log.
    pub log: Bytes,
}

/// The front of a log that is made for definitions and scripts.
fn front_of(alloc: Global, defs: &Defs, scripts: &Scripts) -> Result<Front, Fault>
    requires { AreDefs defs.now }
    ensures { IfOk result (λ front. FitsFront (as_front front)) }
{
    if scripts.text().len() > MOST_SCRIPTS {
        return Err(Fault::Run(RunFault::NotRead));
    }
    Ok(Front {
        format: FORMAT,
        defs: defs.text.copy()?,
        scripts: Bytes::from_slice(alloc, scripts.text())?,
    })
}

// One event after another.
fn step_all(
    core: &mut Core<'_>,
    events: &[Event],
    regions: usize,
    site: &mut MemorySite,
    source: &mut MemorySource,
    in_drain: bool,
    steps: &mut Vec<Step>,
) -> Result<(), Fault>
    requires reached { (m : Machine) × IsReachedBy core.old.engine m }
    requires routed { core.old.router.now.kind ≡ core.old.engine.defs.now.router }
    requires regions { length core.old.engine.defs.now.regions ≡ regions }
    ensures reached { OnOk result ((m : Machine) × IsReachedBy core.new.engine m) }
    ensures routed { core.new.router.now.kind ≡ core.new.engine.defs.now.router }
    ensures regions { length core.new.engine.defs.now.regions ≡ regions }
{
    for event in events {
        if !is_event(event, regions) {
            return Err(Fault::Run(RunFault::NoEvent));
        }
        match step(core, event, site, source) {
            Ok(did) => steps.push(Step {
                event: *event,
                did,
                in_drain,
            })?,
            Err(stop) => return Err(Fault::Run(RunFault::Stopped(stop))),
        }
    }
    Ok(())
}

// The events of a round of the drain.
fn round(alloc: Global, regions: usize) -> Result<Vec<Event>, AllocError>
    requires { regions ≤ 64 }
{
    let mut events = Vec::new(alloc);
    events.push(Event::In)?;
    for region in 1..=regions {
        events.push(Event::Region(region as u8))?;
    }
    events.push(Event::Log)?;
    Ok(events)
}

// Whether none of these did anything.
fn did_nothing(steps: &[Step]) -> bool {
    for step in steps {
        if step.did != Did::Nothing {
            return false;
        }
    }
    true
}

// Rounds of events, up to one in which nothing is done: behind that one nothing is left. Its steps aren't kept.
fn drain(
    core: &mut Core<'_>,
    round: &[Event],
    regions: usize,
    site: &mut MemorySite,
    source: &mut MemorySource,
    steps: &mut Vec<Step>,
) -> Result<(), Fault>
    requires reached { (m : Machine) × IsReachedBy core.old.engine m }
    requires routed { core.old.router.now.kind ≡ core.old.engine.defs.now.router }
    requires regions { length core.old.engine.defs.now.regions ≡ regions }
{
    for _ in 0..u64::MAX {
        let before = steps.len();
        step_all(core, round, regions, site, source, true, steps)?;
        if before <= steps.len() && did_nothing(&steps[before..]) {
            steps.truncate(before);
            return Ok(());
        }
    }
    Err(Fault::Run(RunFault::NoEvent))
}

// Puts a group to the others, and its entries. The place of the entry behind it.
fn put_group(run: &mut Run, gate: u64, first: u64, group: Group) -> Result<u64, Fault> {
    let Group { entries, next } = group;
    let count = entries.len() as u64;
    let Some(behind) = first.checked_add(count) else {
        return Err(Fault::Run(RunFault::NoLog));
    };
    run.groups.push(Placed {
        gate,
        next,
        first,
        entries: count,
    })?;
    for entry in entries.into_vec() {
        run.entries.push(entry)?;
    }
    Ok(behind)
}

// Reads the groups of the log back.
fn read_groups(
    alloc: Global,
    front: &Front,
    site: &mut MemorySite,
    run: &mut Run,
) -> Result<(), Fault>
    requires { FitsFront (as_front front.now) }
{
    let Ok(mut log) = Log::open(alloc, site, front) else {
        return Err(Fault::Run(RunFault::NoLog));
    };
    let mut at = log.gate();
    let mut first = 0;
    for _ in 0..u64::MAX {
        match log.group_at(site, at) {
            Ok(Some(group)) => {
                let next = group.next;
                first = put_group(run, at, first, group)?;
                at = next;
            }
            Ok(None) => return Ok(()),
            Err(_) => return Err(Fault::Run(RunFault::NoLog)),
        }
    }
    Err(Fault::Run(RunFault::NoLog))
}

/// Runs the schedule of a folder over its messages, on a site that has no log yet, and then the drain.
pub(crate) fn run_of(
    alloc: Global,
    folder: &Folder,
    defs: &Defs,
    scripts: &Scripts,
    exits: &Exits,
) -> Result<Run, Fault>
    requires defs { AreDefs defs.now }
    requires setup { IsSetup defs.now scripts.now.scripts }
    requires router { has_kind (kinds_of exits.now).routers defs.now.router ≡ true }
{
    let Ok(events) = read_events(alloc, &folder.schedule, defs) else {
        return Err(Fault::Run(RunFault::NotRead));
    };
    let front = front_of(alloc, defs, scripts)?;
    let mut run = Run {
        steps: Vec::new(alloc),
        entries: Vec::new(alloc),
        groups: Vec::new(alloc),
        log: Bytes::new(alloc),
    };
    fill(
        alloc,
        &mut run,
        defs,
        scripts,
        exits,
        events.as_slice(),
        &folder.messages,
        &front,
    )?;
    Ok(run)
}

// Runs a schedule, and fills in what is kept of that.
fn fill(
    alloc: Global,
    run: &mut Run,
    defs: &Defs,
    scripts: &Scripts,
    exits: &Exits,
    events: &[Event],
    messages: &[u8],
    front: &Front,
) -> Result<(), Fault>
    requires defs { AreDefs defs.now }
    requires setup { IsSetup defs.now scripts.now.scripts }
    requires router { has_kind (kinds_of exits.now).routers defs.now.router ≡ true }
    requires front { FitsFront (as_front front.now) }
{
    let mut site = MemorySite::new(alloc, &[])?;
    take(
        alloc,
        defs,
        scripts,
        exits,
        events,
        messages,
        front,
        &mut site,
        &mut run.steps,
    )?;
    run.log.append(site.contents(0))?;
    read_groups(alloc, front, &mut site, run)
}

// Steps a core through a schedule, and drains it.
fn take(
    alloc: Global,
    defs: &Defs,
    scripts: &Scripts,
    exits: &Exits,
    events: &[Event],
    messages: &[u8],
    front: &Front,
    site: &mut MemorySite,
    steps: &mut Vec<Step>,
) -> Result<(), Fault>
    requires defs { AreDefs defs.now }
    requires setup { IsSetup defs.now scripts.now.scripts }
    requires router { has_kind (kinds_of exits.now).routers defs.now.router ≡ true }
    requires front { FitsFront (as_front front.now) }
{
    let started = begun(alloc, defs, front, site)?;
    let mut core = core_of(alloc, defs, scripts, exits, started)?;
    take_events(alloc, &mut core, defs, events, messages, site, steps)
}

// Steps the core through a schedule, and drains it.
fn take_events(
    alloc: Global,
    core: &mut Core<'_>,
    defs: &Defs,
    events: &[Event],
    messages: &[u8],
    site: &mut MemorySite,
    steps: &mut Vec<Step>,
) -> Result<(), Fault>
    requires reached { (m : Machine) × IsReachedBy core.old.engine m }
    requires routed { core.old.router.now.kind ≡ core.old.engine.defs.now.router }
    requires regions { core.old.engine.defs.now.regions ≡ defs.now.regions }
    requires few { length defs.now.regions ≤ 64 }
{
    let regions = defs.regions.len();
    let round = round(alloc, regions)?;
    let mut source = source_of(alloc, messages)?;
    take_all(core, events, &round, regions, site, &mut source, steps)
}

// Steps the core through a schedule, and then in rounds.
fn take_all(
    core: &mut Core<'_>,
    events: &[Event],
    round: &[Event],
    regions: usize,
    site: &mut MemorySite,
    source: &mut MemorySource,
    steps: &mut Vec<Step>,
) -> Result<(), Fault>
    requires reached { (m : Machine) × IsReachedBy core.old.engine m }
    requires routed { core.old.router.now.kind ≡ core.old.engine.defs.now.router }
    requires regions { length core.old.engine.defs.now.regions ≡ regions }
{
    step_all(core, events, regions, site, source, false, steps)?;
    drain(core, round, regions, site, source, steps)
}
