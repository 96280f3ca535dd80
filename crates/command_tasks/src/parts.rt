//! The parts of the source: the definitions, then the scripts, and of a run then the schedule.
ghost use Rattle.fp_model.specs.Events.{IsEventOf};
ghost use Rattle.fp_exits.specs.Kinds.{has_kind, kinds_of};
ghost use Rattle.fp_lists.specs.Continued.{IsContinued};
ghost use Rattle.fp_model.specs.WellFormed.{AreDefs};
ghost use Rattle.fp_source.specs.Source.{ReadsOnly};
ghost use Rattle.fp_source.specs.declared.part.Part.TheVariants as part;
ghost use Rattle.fp_schedule.specs.Schedule.{events_of};
ghost use Rattle.fp_schedule.specs.declared.fault.ScheduleFault.{ScheduleFault as ScheduleFaultOf};
ghost use Rattle.command_tasks.specs.Answers.{IsOfParts, MayStandIn};
ghost use Rattle.command_tasks.specs.inside.Answers.{status_of_definitions, status_of_schedule, status_of_scripts};
ghost use Rattle.command_tasks.specs.Causes.{IsCausedBySource};
ghost use Rattle.command_tasks.specs.Parts.{IsJob, Job as JobOf, Refuses, are_built, definitions_in};
ghost use Rattle.command_tasks.specs.Setups.{HasEventsFor, IsSetup, job_of};
ghost use Rattle.command_tasks.specs.inside.Setups.{IsRefusedSchedule};
ghost use Rattle.command_words.specs.declared.words.Command.{Command as CommandOf};
ghost use Rattle.command_words.specs.declared.words.Command.TheVariants as commands;
ghost use Rattle.fp_source.specs.declared.part.Part.{Part as PartOf};
ghost use Rattle.std.specs.List.{AllByRecursion};
ghost use Rattle.command_tasks.specs.declared.status.Status.{Status as StatusOf};
ghost use Rattle.command_tasks.specs.declared.status.Status.TheVariants as status;
ghost use Rattle.std.specs.Prelude.{◌≡◌, ◌⊎◌, [], Err, IfErr, IfOk, IsErrOf, Ok, OnOk, true};
ghost use Rattle.txn_lang.specs.Grammar.{AreScriptsOf, HasFault};
ghost use Rattle.txn_lang.specs.declared.fault.ScriptFault.{ScriptFault as ScriptFaultOf};

use crate::Status;
use command_words::Command;
use fp_defs::{DefsFault, read_defs};
use fp_exits::Exits;
use fp_model::{Bytes, Defs, Event, List};
use fp_schedule::{ScheduleFault, read_events};
use fp_source::{Part, Source, WholeFault, whole};
use log_groups::Front;
use std::alloc::{AllocError, Global};
use txn_lang::{ScriptFault, Scripts, parse};

// The format of a log that is made: in this one messages may have numbers.
const FORMAT: u8 = 2;

// How many bytes definitions and scripts have at most.
const MOST_BYTES: u64 = 1_000_000;

// How many bytes a schedule has at most.
const MOST_SCHEDULE: u64 = 32_000_000;

/// What definitions and scripts ask for.
#[derive(Drop)]
pub struct Setup {
    /// The definitions.
    pub defs: Defs,
    /// The scripts under them.
    pub scripts: Scripts,
    /// The front of a log of theirs.
    pub front: Front,
}

/// What a command is to do.
#[derive(Drop)]
pub struct Task {
    /// The definitions and scripts.
    pub setup: Setup,
    /// The events of the schedule, in order; none where the command reads no schedule.
    pub events: List<Event>,
}

// The answer to a fault of the definitions.
fn definitions_status(fault: DefsFault) -> Status
    ensures { result ≡ status_of_definitions fault }
{
    match fault {
        DefsFault::Memory => Status::NoMemory,
        fault => Status::Definitions(fault),
    }
}

// The answer to a fault of the scripts.
fn scripts_status(fault: ScriptFault) -> Status
    ensures { result ≡ status_of_scripts fault }
{
    match fault {
        ScriptFault::Memory => Status::NoMemory,
        fault => Status::Scripts(fault),
    }
}

// The answer to a fault of the schedule.
fn schedule_status(fault: ScheduleFault) -> Status
    ensures { result ≡ status_of_schedule fault }
{
    match fault {
        ScheduleFault::Memory => Status::NoMemory,
        fault => Status::Schedule(fault),
    }
}

// Whether definitions are built: they have no data entry database.
fn are_built(defs: &Defs) -> bool
    ensures { result ≡ are_built defs.now }
{
    defs.dedbs.is_empty()
}

// The definitions that a text is for these exits, where they are built.
fn definitions_in(alloc: Global, text: &[u8], exits: &Exits) -> Result<Defs, Status>
    ensures ok { IfOk result (λ defs. definitions_in (kinds_of exits.now) text.now ≡ Ok defs) }
    ensures are { IfOk result AreDefs }
    ensures built { IfOk result (λ defs. are_built defs ≡ true) }
    ensures router { IfOk result (λ defs. has_kind (kinds_of exits.now).routers defs.router ≡ true) }
    ensures refused { IfErr result (λ answer. MayStandIn answer
        ⊎ (definitions_in (kinds_of exits.now) text.now ≡ Err answer)) }
    ensures early { IfErr result IsOfParts }
    ensures never { IsErrOf result status.ReadFault → ⊥ }
{
    let defs = match read_defs(alloc, text, exits) {
        Ok(defs) => defs,
        Err(fault) => return Err(definitions_status(fault)),
    };
    if !are_built(&defs) {
        return Err(Status::NotBuilt(Part::Definitions));
    }
    Ok(defs)
}

// The definitions.
fn read_definitions<S: Source>(alloc: Global, source: &mut S, exits: &Exits) -> Result<Defs, Status>
    ensures ok { S.told source.old → IfOk result (λ defs. definitions_in (kinds_of exits.now)
        (S.left source.old part.Definitions) ≡ Ok defs) }
    ensures are { IfOk result AreDefs }
    ensures built { IfOk result (λ defs. are_built defs ≡ true) }
    ensures router { IfOk result (λ defs. has_kind (kinds_of exits.now).routers defs.router ≡ true) }
    ensures refused { S.told source.old →
        IfErr result (λ answer. MayStandIn answer ⊎
        (definitions_in (kinds_of exits.now) (S.left source.old part.Definitions) ≡ Err answer)) }
    ensures early { IfErr result IsOfParts }
    ensures cause { IfErr result (IsCausedBySource (S.faults source.old) (S.faults source.new)) }
    ensures stayed { OnOk result (S.faults source.new ≡ S.faults source.old) }
    ensures source { ReadsOnly S.told S.left S.faults S.holds S.keeps part.Definitions source.old source.new }
{
    match whole(alloc, source, Part::Definitions, MOST_BYTES) {
        Ok(text) => definitions_in(alloc, text.as_slice(), exits),
        Err(WholeFault::TooLong) => Err(Status::Definitions(DefsFault::TooLong)),
        Err(WholeFault::Failed) => Err(Status::ReadFault),
        Err(WholeFault::Memory) => Err(Status::NoMemory),
    }
}

// The scripts that a text is, under definitions.
fn scripts_in(alloc: Global, defs: &Defs, text: &[u8]) -> Result<Scripts, Status>
    requires { AreDefs defs.now }
    ensures ok { IfOk result (λ scripts. scripts.text ≡ text.now) }
    ensures are { IfOk result (λ scripts. AreScriptsOf defs.now scripts.text scripts.scripts) }
    ensures refused { IfErr result (λ answer. MayStandIn answer
        ⊎ ((fault : ScriptFaultOf) × (answer ≡ status.Scripts fault) × HasFault defs.now text.now fault)) }
    ensures early { IfErr result IsOfParts }
    ensures never { IsErrOf result status.ReadFault → ⊥ }
{
    match parse(alloc, text, defs) {
        Ok(scripts) => Ok(scripts),
        Err(fault) => Err(scripts_status(fault)),
    }
}

// The scripts, under definitions.
fn read_scripts<S: Source>(alloc: Global, source: &mut S, defs: &Defs) -> Result<Scripts, Status>
    requires { AreDefs defs.now }
    ensures ok { S.told source.old → IfOk result (λ scripts. scripts.text ≡ S.left source.old part.Scripts) }
    ensures are { IfOk result (λ scripts. AreScriptsOf defs.now scripts.text scripts.scripts) }
    ensures refused { S.told source.old → IfErr result (λ answer. MayStandIn answer
        ⊎ ((fault : ScriptFaultOf) × (answer ≡ status.Scripts fault)
        × HasFault defs.now (S.left source.old part.Scripts) fault)) }
    ensures early { IfErr result IsOfParts }
    ensures cause { IfErr result (IsCausedBySource (S.faults source.old) (S.faults source.new)) }
    ensures stayed { OnOk result (S.faults source.new ≡ S.faults source.old) }
    ensures source { ReadsOnly S.told S.left S.faults S.holds S.keeps part.Scripts source.old source.new }
{
    match whole(alloc, source, Part::Scripts, MOST_BYTES) {
        Ok(text) => scripts_in(alloc, defs, text.as_slice()),
        Err(WholeFault::TooLong) => Err(Status::Scripts(ScriptFault::TooLong)),
        Err(WholeFault::Failed) => Err(Status::ReadFault),
        Err(WholeFault::Memory) => Err(Status::NoMemory),
    }
}

// The setup of these definitions and scripts.
fn setup_with(alloc: Global, defs: Defs, scripts: Scripts) -> Result<Setup, AllocError>
    requires are { AreDefs defs }
    requires built { are_built defs ≡ true }
    requires scripts { AreScriptsOf defs scripts.text scripts.scripts }
    ensures setup { IfOk result IsSetup }
    ensures defs { IfOk result (λ setup. setup.defs ≡ defs) }
    ensures scripts { IfOk result (λ setup. setup.scripts ≡ scripts) }
{
    let front = Front {
        format: FORMAT,
        defs: defs.text.copy()?,
        scripts: Bytes::from_slice(alloc, scripts.text())?,
    };
    Ok(Setup {
        defs,
        scripts,
        front,
    })
}

// What definitions and scripts ask for, or the answer that is given instead.
fn read_setup<S: Source>(alloc: Global, source: &mut S, exits: &Exits) -> Result<Setup, Status>
    ensures job { S.told source.old → IfOk result (λ setup. IsJob (kinds_of exits.now) (S.left source.old)
        (job_of setup)) }
    ensures setup { IfOk result IsSetup }
    ensures router { IfOk result (λ setup. has_kind (kinds_of exits.now).routers setup.defs.router ≡ true) }

    // Otherwise it is the first reason why they are no job.
    ensures refused { (command : CommandOf) → S.told source.old → IfErr result
        (λ answer. MayStandIn answer ⊎ Refuses (kinds_of exits.now) (S.left source.old) command answer) }
    ensures early { IfErr result IsOfParts }
    ensures cause { IfErr result (IsCausedBySource (S.faults source.old) (S.faults source.new)) }
    ensures stayed { OnOk result (S.faults source.new ≡ S.faults source.old) }

    // Schedule and messages aren't read, nor are the scripts behind definitions that are refused.
    ensures scripts_unread { (answer : StatusOf) → S.told source.old
        → definitions_in (kinds_of exits.now) (S.left source.old part.Definitions) ≡ Err answer
        → S.left source.new part.Scripts ≡ S.left source.old part.Scripts }
    ensures others { S.told source.old → (p : PartOf) → ¬ (p ≡ part.Definitions) → ¬ (p ≡ part.Scripts)
        → S.left source.new p ≡ S.left source.old p }
    ensures source { IsContinued S.told S.faults S.holds S.keeps source.old source.new }
{
    let defs = read_definitions(alloc, source, exits)?;
    let scripts = read_scripts(alloc, source, &defs)?;
    Ok(setup_with(alloc, defs, scripts)?)
}

// The events that a text has under definitions.
fn events_in(alloc: Global, defs: &Defs, text: &[u8]) -> Result<List<Event>, Status>
    requires { AreDefs defs.now }
    ensures ok { IfOk result (λ events. events_of defs.now text.now ≡ Ok events) }
    ensures events { defs.now.dedbs ≡ [] → IfOk result (λ events. AllByRecursion (IsEventOf defs.now) events) }
    ensures refused { IfErr result (λ answer. MayStandIn answer
        ⊎ ((fault : ScheduleFaultOf) × (answer ≡ status.Schedule fault) × (events_of defs.now text.now ≡ Err fault))) }
    ensures early { IfErr result IsOfParts }
    ensures never { IsErrOf result status.ReadFault → ⊥ }
{
    match read_events(alloc, text, defs) {
        Ok(events) => Ok(events),
        Err(fault) => Err(schedule_status(fault)),
    }
}

// The events of the schedule.
fn read_schedule<S: Source>(
    alloc: Global,
    source: &mut S,
    defs: &Defs,
) -> Result<List<Event>, Status>
    requires are { AreDefs defs.now }
    requires no_dedbs { defs.now.dedbs ≡ [] }
    ensures ok { S.told source.old → IfOk result (λ events.
        events_of defs.now (S.left source.old part.Schedule) ≡ Ok events) }
    ensures events { IfOk result (λ events. AllByRecursion (IsEventOf defs.now) events) }
    ensures refused { S.told source.old → IfErr result (λ answer. MayStandIn answer
        ⊎ ((fault : ScheduleFaultOf) × (answer ≡ status.Schedule fault)
        × (events_of defs.now (S.left source.old part.Schedule) ≡ Err fault))) }
    ensures early { IfErr result IsOfParts }
    ensures cause { IfErr result (IsCausedBySource (S.faults source.old) (S.faults source.new)) }
    ensures stayed { OnOk result (S.faults source.new ≡ S.faults source.old) }
    ensures source { ReadsOnly S.told S.left S.faults S.holds S.keeps part.Schedule source.old source.new }
{
    match whole(alloc, source, Part::Schedule, MOST_SCHEDULE) {
        Ok(text) => events_in(alloc, defs, text.as_slice()),
        Err(WholeFault::TooLong) => Err(Status::Schedule(ScheduleFault::TooLong)),
        Err(WholeFault::Failed) => Err(Status::ReadFault),
        Err(WholeFault::Memory) => Err(Status::NoMemory),
    }
}

// The events that a command takes: of a run those of the schedule.
fn read_rest<S: Source>(
    alloc: Global,
    source: &mut S,
    command: Command,
    setup: &Setup,
) -> Result<List<Event>, Status>
    requires setup { IsSetup setup.now }
    ensures ok { S.told source.old → IfOk result (λ events.
        HasEventsFor command (job_of setup.now) (S.left source.old) events) }
    ensures none { (command ≡ commands.Run → ⊥) → IfOk result (λ events. events ≡ []) }
    ensures events { IfOk result (λ events. AllByRecursion (IsEventOf setup.now.defs) events) }
    ensures refused { S.told source.old → IfErr result (λ answer. MayStandIn answer
        ⊎ IsRefusedSchedule command (job_of setup.now) (S.left source.old) answer) }
    ensures early { IfErr result IsOfParts }
    ensures cause { IfErr result (IsCausedBySource (S.faults source.old) (S.faults source.new)) }
    ensures stayed { OnOk result (S.faults source.new ≡ S.faults source.old) }
    ensures source { ReadsOnly S.told S.left S.faults S.holds S.keeps part.Schedule source.old source.new }
    ensures unread { (command ≡ commands.Run → ⊥) → source.new ≡ source.old }
{
    match command {
        Command::Run => read_schedule(alloc, source, &setup.defs),
        Command::Define | Command::Show | Command::Log | Command::Migrate | Command::Audit => {
            Ok(List::new(alloc))
        },
    }
}

/// What a command is to do, or the answer that is given instead.
pub fn read_task<S: Source>(
    alloc: Global,
    source: &mut S,
    exits: &Exits,
    command: Command,
) -> Result<Task, Status>
    ensures job { S.told source.old → IfOk result (λ task. IsJob (kinds_of exits.now) (S.left source.old)
        (job_of task.setup)) }
    ensures schedule { S.told source.old → IfOk result (λ task.
        HasEventsFor command (job_of task.setup) (S.left source.old) task.events) }
    ensures setup { IfOk result (λ task. IsSetup task.setup) }
    ensures router { IfOk result (λ task. has_kind (kinds_of exits.now).routers task.setup.defs.router ≡ true) }
    ensures events { IfOk result (λ task. AllByRecursion (IsEventOf task.setup.defs) task.events) }

    // A command that takes no schedule has no events.
    ensures no_events { (command ≡ commands.Run → ⊥) → IfOk result (λ task. task.events ≡ []) }

    // Otherwise it is the first reason why the parts aren't what the command asks for.
    ensures refused { S.told source.old → IfErr result
        (λ answer. MayStandIn answer ⊎ Refuses (kinds_of exits.now) (S.left source.old) command answer) }
    ensures early { IfErr result IsOfParts }
    ensures cause { IfErr result (IsCausedBySource (S.faults source.old) (S.faults source.new)) }
    ensures stayed { OnOk result (S.faults source.new ≡ S.faults source.old) }

    // The messages aren't read, nor is the schedule where none is asked for, or where the other parts are no job; nor
    // are the scripts behind definitions that are refused.
    ensures scripts_unread { (answer : StatusOf) → S.told source.old
        → definitions_in (kinds_of exits.now) (S.left source.old part.Definitions) ≡ Err answer
        → S.left source.new part.Scripts ≡ S.left source.old part.Scripts }
    ensures no_job { S.told source.old → ¬ ((job : JobOf) × IsJob (kinds_of exits.now) (S.left source.old) job)
        → S.left source.new part.Schedule ≡ S.left source.old part.Schedule }
    ensures messages { S.told source.old → S.left source.new part.Messages ≡ S.left source.old part.Messages }
    ensures schedule_unread { S.told source.old → (command ≡ commands.Run → ⊥)
        → S.left source.new part.Schedule ≡ S.left source.old part.Schedule }
    ensures source { IsContinued S.told S.faults S.holds S.keeps source.old source.new }
{
    let setup = read_setup(alloc, source, exits)?;
    let events = read_rest(alloc, source, command, &setup)?;
    Ok(Task { setup, events })
}
