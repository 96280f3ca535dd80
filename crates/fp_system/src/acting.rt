//! What the commands do on the site, once the parts are read.
ghost use Rattle.fp_core.specs.Fronts.{KeepsFronts};
ghost use Rattle.fp_core.specs.Standing.{Origin};
ghost use Rattle.fp_model.specs.Events.{IsEventOf};
ghost use Rattle.fp_lists.specs.Continued.{IsContinued};
ghost use Rattle.fp_exits.specs.Kinds.{has_kind, kinds_of};
ghost use Rattle.fp_model.specs.History.{History};
ghost use Rattle.fp_core.specs.declared.stop.Stop.{Stop as StopOf};
ghost use Rattle.fp_model.specs.LogText.{Front};
ghost use Rattle.fp_model.specs.Messages.{lines_of};
ghost use Rattle.fp_site.specs.Moments.{OnlyOn};
ghost use Rattle.fp_site.specs.Site.{ReadsNothing};
ghost use Rattle.fp_source.specs.declared.part.Part.TheVariants as part;
ghost use Rattle.command_tasks.specs.Answers.{IsEarly, IsOfLog, MayStandIn};
ghost use Rattle.fp_system.specs.Table.{ByEntries, ByGroups, ByLog, IsEnd, faulty_line};
ghost use Rattle.fp_system.specs.inside.Answers.{IsOfSite, answer_of, status_of_audit, status_of_seal, status_of_stop};
ghost use Rattle.fp_system.specs.inside.Acted.{IsRefusedLog, IsRestarted, Made, Seals};
ghost use Rattle.command_tasks.specs.Causes.{IsCaused, IsCausedBySite};
ghost use Rattle.fp_system.specs.Courses.{input};
ghost use Rattle.fp_system.specs.inside.Courses.{IsBegun, RanFrom};
ghost use Rattle.fp_core.specs.Sparing.{IsLogSet as IsLog, Spares};
ghost use Rattle.fp_system.specs.Gives.{Audited, Logged, Migrated, Ran, Shown, format_entry};
ghost use Rattle.fp_system.specs.Ims.{IsUnchanged};
ghost use Rattle.command_tasks.specs.Parts.{front_for};
ghost use Rattle.command_tasks.specs.Setups.{IsSetup, job_of};
ghost use Rattle.command_tasks.specs.declared.status.Status.TheVariants as status;
ghost use Rattle.log_groups.specs.Images.{IsAtRest};
ghost use Rattle.log_groups.specs.Reads.{ReadsOnlyLog};
ghost use Rattle.msdb_store.specs.Store.{IsOf};
ghost use Rattle.site_texts.specs.Texts.{ReadsOnce};
ghost use Rattle.std.specs.List.{AllByRecursion};
ghost use Rattle.fp_model.specs.declared.log.Entry.{Entry as EntryOf};
ghost use Rattle.fp_restart.specs.Replayed.{AreOfSome};
ghost use Rattle.std.specs.Prelude.{◌≡◌, ◌⊎◌, ◌∷◌, ℕ, [], IfErr, IfOk, List as ListOf, None, OnOk, Some, true};

use command_tasks::{Setup, Status, Task};
use fp_core::{Core, Started, Stop};
use fp_exits::Exits;
use fp_model::{Bytes, Entry, List, Outcome};
use fp_restart::{RestartFault, define, restart};
use fp_site::Site;
use fp_source::Source;
use log_groups::{Log, SealFault};
use schedule_runs::run_schedule;
use site_audit::{AuditFault, audit};
use site_texts::{log, show};
use std::alloc::{AllocError, Global};

// The format of a log in which no message has a number.
const OLD_FORMAT: u8 = 1;

// The answer to what a call of storage came to.
fn answer_to(done: Result<(), RestartFault>) -> Status
    ensures { result ≡ answer_of done }
{
    match done {
        Ok(()) => Status::Done,
        Err(RestartFault::Foreign) => Status::Foreign,
        Err(RestartFault::SiteFault) => Status::SiteFault,
        Err(RestartFault::Damaged { set, at }) => Status::Damaged { set, at },
        Err(RestartFault::Memory) => Status::NoMemory,
    }
}

/// Makes the site anew.
pub(crate) fn define_on<T: Site>(alloc: Global, site: &mut T, setup: &Setup) -> Status
    requires { IsSetup setup.now }
    ensures due { result ≡ status.Done ⊎ MayStandIn result }

    // The new log is its front and a closed gate; behind that stands what stood there. A crash at any moment leaves it
    // as a sync might have left it before, or with no open front, or made.
    ensures made { T.told site.old → Made (job_of setup.now) result (T.disk site.old) (T.disk site.new) }
    ensures of { IsOfSite result }
    ensures cause { IsCausedBySite (T.faults site.old) (T.faults site.new) result }

    // Want of memory comes before the site is touched.
    ensures untouched { result ≡ status.NoMemory → site.new ≡ site.old }

    // Of the log no more is read than there is, and no other data set.
    ensures once { T.told site.old → T.tells_reads site.new 0 →
        ReadsOnce (front_for (job_of setup.now)) ((T.disk site.old).contents 0)
        (T.bytes_read site.old 0) (T.bytes_read site.new 0) }
    ensures reads { ReadsOnlyLog (T.tells_reads site.old) (T.tells_reads site.new)
        (T.bytes_read site.old) (T.bytes_read site.new) }
    ensures site { IsContinued T.told T.faults T.holds T.keeps site.old site.new }
{
    answer_to(define(alloc, &setup.defs, &setup.front, site))
}

/// Restarts, and sends the text of the databases.
pub(crate) fn show_on<T: Site>(alloc: Global, site: &mut T, setup: &Setup) -> Status
    requires { IsSetup setup.now }
    ensures due { T.told site.old →
        ByLog (job_of setup.now) ((T.disk site.old).contents 0) (λ behind. behind ≡ status.Done) result
        ⊎ MayStandIn result }
    ensures shown { T.told site.old → Shown (job_of setup.now) result (T.disk site.old) (T.disk site.new) }
    ensures of { IsOfSite result }
    ensures cause { IsCausedBySite (T.faults site.old) (T.faults site.new) result }

    // Each byte of the log is read once, and no other data set.
    ensures once { T.told site.old → T.tells_reads site.new 0 →
        ReadsOnce (front_for (job_of setup.now)) ((T.disk site.old).contents 0)
        (T.bytes_read site.old 0) (T.bytes_read site.new 0) }
    ensures reads { ReadsOnlyLog (T.tells_reads site.old) (T.tells_reads site.new)
        (T.bytes_read site.old) (T.bytes_read site.new) }
    ensures site { IsContinued T.told T.faults T.holds T.keeps site.old site.new }
{
    answer_to(show(alloc, &setup.defs, &setup.front, site))
}

/// Sends the text of the log's groups.
pub(crate) fn log_on<T: Site>(alloc: Global, site: &mut T, setup: &Setup) -> Status
    requires { IsSetup setup.now }
    ensures due { T.told site.old → ByGroups (job_of setup.now) ((T.disk site.old).contents 0) result
        ⊎ MayStandIn result }
    ensures logged { T.told site.old → Logged (job_of setup.now) result (T.disk site.old) (T.disk site.new) }
    ensures of { IsOfSite result }
    ensures cause { IsCausedBySite (T.faults site.old) (T.faults site.new) result }

    // Each byte of the log is read once, and no other data set.
    ensures once { T.told site.old → T.tells_reads site.new 0 →
        ReadsOnce (front_for (job_of setup.now)) ((T.disk site.old).contents 0)
        (T.bytes_read site.old 0) (T.bytes_read site.new 0) }
    ensures reads { ReadsOnlyLog (T.tells_reads site.old) (T.tells_reads site.new)
        (T.bytes_read site.old) (T.bytes_read site.new) }
    ensures site { IsContinued T.told T.faults T.holds T.keeps site.old site.new }
{
    answer_to(log(alloc, &setup.front, site))
}

// The answer to what an audit came to.
fn audit_status(audited: Result<u64, AuditFault>) -> Status
    ensures { result ≡ status_of_audit audited }
{
    match audited {
        Ok(_) => Status::Done,
        Err(AuditFault::Foreign) => Status::Foreign,
        Err(AuditFault::SiteFault) => Status::SiteFault,
        Err(AuditFault::Damaged(at)) => Status::Damaged { set: 0, at },
        Err(AuditFault::Illegal(entry)) => Status::Illegal { entry },
        Err(AuditFault::Memory) => Status::NoMemory,
    }
}

/// Runs the log's entries again by their meaning alone, and sends how many they are where all are legal.
pub(crate) fn audit_on<T: Site>(alloc: Global, site: &mut T, exits: &Exits, setup: &Setup) -> Status
    requires { IsSetup setup.now }
    ensures due { T.told site.old → ByEntries (job_of setup.now) ((T.disk site.old).contents 0) result
        ⊎ MayStandIn result }
    ensures audited { T.told site.old → Audited (job_of setup.now) result (T.disk site.old) (T.disk site.new) }
    ensures of { IsOfSite result }
    ensures cause { IsCausedBySite (T.faults site.old) (T.faults site.new) result }

    // Each byte of the log is read once, and no other data set.
    ensures once { T.told site.old → T.tells_reads site.new 0 →
        ReadsOnce (front_for (job_of setup.now)) ((T.disk site.old).contents 0)
        (T.bytes_read site.old 0) (T.bytes_read site.new 0) }
    ensures reads { ReadsOnlyLog (T.tells_reads site.old) (T.tells_reads site.new)
        (T.bytes_read site.old) (T.bytes_read site.new) }
    ensures site { IsContinued T.told T.faults T.holds T.keeps site.old site.new }
{
    audit_status(audit(
        alloc,
        &setup.defs,
        &setup.scripts,
        exits,
        &setup.front,
        site,
    ))
}

// What a restart gives a run or a migration, or the answer that is given instead.
fn restart_for<T: Site>(alloc: Global, site: &mut T, setup: &Setup) -> Result<Started, Status>
    requires { IsSetup setup.now }
    ensures ok { T.told site.old → IfOk result (λ started. IsRestarted (job_of setup.now) (T.disk site.old)
        (T.disk site.new) started.msdbs started.log started.lasts) }
    ensures of { IfOk result (λ started. IsOf setup.now.defs.msdbs started.msdbs) }
    ensures unsealed { IfOk result (λ started. started.log.unsealed ≡ []) }
    ensures numbers { IfOk result (λ started. AreOfSome started.log started.lasts) }
    ensures stayed { OnOk result (T.faults site.new ≡ T.faults site.old) }
    ensures refused { T.told site.old → IfErr result
        (IsRefusedLog (job_of setup.now) (T.disk site.old) (T.disk site.new)) }
    ensures fault { IfErr result (λ answer. IsOfSite answer × ¬ (answer ≡ status.Done)) }
    ensures cause { IfErr result (IsCausedBySite (T.faults site.old) (T.faults site.new)) }

    // Nothing changes but for a sync of the log. Each byte of it is read once, and no other data set.
    ensures unchanged { T.told site.old → IsUnchanged (T.disk site.old) (T.disk site.new) }
    ensures once { T.told site.old → T.tells_reads site.new 0 →
        ReadsOnce (front_for (job_of setup.now)) ((T.disk site.old).contents 0)
        (T.bytes_read site.old 0) (T.bytes_read site.new 0) }
    ensures reads { ReadsOnlyLog (T.tells_reads site.old) (T.tells_reads site.new)
        (T.bytes_read site.old) (T.bytes_read site.new) }
    ensures site { IsContinued T.told T.faults T.holds T.keeps site.old site.new }
{
    match restart(alloc, &setup.defs, &setup.front, site) {
        Ok((msdbs, log, lasts)) => Ok(Started { msdbs, log, lasts }),
        Err(fault) => Err(answer_to(Err(fault))),
    }
}

// The answer to a step that ended the run.
fn stop_status(stop: Stop) -> Status
    ensures { result ≡ status_of_stop stop }
{
    match stop {
        Stop::LogFault => Status::SiteFault,
        Stop::ReadFault => Status::ReadFault,
        Stop::LineFault(number) => Status::Line { number },
        Stop::Memory => Status::NoMemory,
    }
}

// Runs the schedule and the drain, behind what a restart gave.
fn run_started<S: Source, T: Site>(
    alloc: Global,
    source: &mut S,
    site: &mut T,
    exits: &Exits,
    task: &Task,
    started: Started,
) -> Status
    requires setup { IsSetup task.now.setup }
    requires router { has_kind (kinds_of exits.now).routers task.now.setup.defs.router ≡ true }
    requires events { AllByRecursion (IsEventOf task.now.setup.defs) task.now.events }
    requires store { IsOf task.now.setup.defs.msdbs started.msdbs }
    requires unsealed { started.log.unsealed ≡ [] }
    requires numbers { AreOfSome started.log started.lasts }

    // Behind any entries that come to these databases, where their log is at rest; or there was no memory to begin.
    ensures ran { (origin : Origin) (h : History) → S.told source.old → T.told site.old
        → IsBegun origin h started.msdbs started.log started.lasts (T.disk site.old) →
        RanFrom (job_of task.now.setup) (input task.now.events (lines_of (S.left source.old part.Messages))) origin h
        result (T.disk site.old) (T.disk site.new)
        ⊎ ((result ≡ status.NoMemory) × (site.new ≡ site.old)) }
    ensures outcome { result ≡ status.Done ⊎ ((why : StopOf) × (result ≡ status_of_stop why)) }
    ensures all { S.told source.old → result ≡ status.Done → faulty_line (S.left source.old part.Messages) ≡ None }
    ensures line { (number : ℕ) → S.told source.old → result ≡ status.Line number
        → faulty_line (S.left source.old part.Messages) ≡ Some number }
    ensures cause { IsCaused (S.faults source.old) (S.faults source.new)
        (T.faults site.old) (T.faults site.new) result }

    // At the end no message is left. Of the site nothing is read.
    ensures read { S.told source.old → result ≡ status.Done → S.left source.new part.Messages ≡ [] }
    ensures reads { ReadsNothing (T.tells_reads site.old) (T.tells_reads site.new)
        (T.bytes_read site.old) (T.bytes_read site.new) }
    ensures others { T.told site.old → Spares IsLog (T.disk site.old) (T.disk site.new) }
    ensures front { T.told site.old → KeepsFronts (T.disk site.old) started.log.gate (T.disk site.new) }
    ensures source { IsContinued S.told S.faults S.holds S.keeps source.old source.new }
    ensures site { IsContinued T.told T.faults T.holds T.keeps site.old site.new }
{
    let setup = &task.setup;
    let mut core = match Core::new(alloc, &setup.defs, &setup.scripts, exits, started) {
        Ok(core) => core,
        Err(_) => return Status::NoMemory,
    };
    match run_schedule(&mut core, task.events.as_slice(), site, source) {
        Ok(()) => Status::Done,
        Err(stop) => stop_status(stop),
    }
}

/// Restarts, runs the schedule, and drains.
pub(crate) fn run_on<S: Source, T: Site>(
    alloc: Global,
    source: &mut S,
    site: &mut T,
    exits: &Exits,
    task: &Task,
) -> Status
    requires setup { IsSetup task.now.setup }
    requires router { has_kind (kinds_of exits.now).routers task.now.setup.defs.router ≡ true }
    requires events { AllByRecursion (IsEventOf task.now.setup.defs) task.now.events }
    ensures due { S.told source.old → T.told site.old →
        ByLog (job_of task.now.setup) ((T.disk site.old).contents 0) (IsEnd (job_of task.now.setup)
        ((T.disk site.old).contents 0) (S.left source.old part.Messages)) result
        ⊎ MayStandIn result }
    ensures ran { S.told source.old → T.told site.old →
        Ran (job_of task.now.setup) (input task.now.events (lines_of (S.left source.old part.Messages))) result
        (T.disk site.old) (T.disk site.new) }
    ensures early { IsEarly result → ⊥ }
    ensures cause { IsCaused (S.faults source.old) (S.faults source.new)
        (T.faults site.old) (T.faults site.new) result }

    // No line is read where the log is foreign, damaged or of format 1.
    ensures unread { IsOfLog result → source.new ≡ source.old }

    // At the end no message is left. Each byte of the log is read once.
    ensures read { S.told source.old → result ≡ status.Done → S.left source.new part.Messages ≡ [] }
    ensures once { T.told site.old → T.tells_reads site.new 0 →
        ReadsOnce (front_for (job_of task.now.setup)) ((T.disk site.old).contents 0)
        (T.bytes_read site.old 0) (T.bytes_read site.new 0) }
    ensures reads { ReadsOnlyLog (T.tells_reads site.old) (T.tells_reads site.new)
        (T.bytes_read site.old) (T.bytes_read site.new) }
    ensures source { IsContinued S.told S.faults S.holds S.keeps source.old source.new }
    ensures site { IsContinued T.told T.faults T.holds T.keeps site.old site.new }
{
    let started = match restart_for(alloc, site, &task.setup) {
        Ok(started) => started,
        Err(answer) => return answer,
    };
    if started.log.format() == OLD_FORMAT {
        return Status::OldFormat;
    }
    run_started(alloc, source, site, exits, task, started)
}

// The entry from whose place on messages may have numbers.
fn format_entry(alloc: Global, place: u64) -> Entry
    ensures { result ≡ format_entry place }
{
    Entry {
        from: place,
        outcome: Outcome::Format,
        line: Bytes::new(alloc),
        reply: Bytes::new(alloc),
        notes: List::new(alloc),
        items: List::new(alloc),
    }
}

// Appends that entry to a log in which no entry waits.
fn append_format(alloc: Global, log: &mut Log) -> Result<(), AllocError>
    requires { log.old.unsealed ≡ [] }
    ensures entry { OnOk result (log.new.unsealed ≡ format_entry log.old.sealed ∷ []) }
    ensures gate { log.new.gate ≡ log.old.gate }
{
    let entry = format_entry(alloc, log.count());
    log.append(&entry)?;
    Ok(())
}

// The answer to a group that was sealed or wasn't.
fn seal_status(sealed: Result<u32, SealFault>) -> Status
    ensures { result ≡ status_of_seal sealed }
{
    match sealed {
        Ok(_) => Status::Done,
        Err(_) => Status::SiteFault,
    }
}

// Appends and seals it.
fn seal_format<T: Site>(alloc: Global, site: &mut T, log: &mut Log) -> Status
    requires { log.old.unsealed ≡ [] }
    ensures outcome { (result ≡ status.Done) ⊎ ((result ≡ status.SiteFault) ⊎ (result ≡ status.NoMemory)) }
    ensures cause { IsCausedBySite (T.faults site.old) (T.faults site.new) result }
    ensures seals { (front : Front) (groups : ListOf (ListOf EntryOf)) → T.told site.old
        → IsAtRest (T.disk site.old) front groups log.old.gate → Seals front groups log.old.gate
        (format_entry log.old.sealed) result (T.disk site.old) (T.disk site.new) }
    ensures front { T.told site.old → KeepsFronts (T.disk site.old) log.old.gate (T.disk site.new) }
    ensures only { T.told site.old → OnlyOn 0 (T.disk site.old) (T.disk site.new) }
    ensures reads { ReadsNothing (T.tells_reads site.old) (T.tells_reads site.new)
        (T.bytes_read site.old) (T.bytes_read site.new) }
    ensures site { IsContinued T.told T.faults T.holds T.keeps site.old site.new }
{
    match append_format(alloc, log) {
        Ok(()) => seal_status(log.seal(site, 1)),
        Err(_) => Status::NoMemory,
    }
}

/// Restarts, and lets the messages of a site of format 1 have numbers from here on.
pub(crate) fn migrate_on<T: Site>(alloc: Global, site: &mut T, setup: &Setup) -> Status
    requires { IsSetup setup.now }
    ensures due { T.told site.old →
        ByLog (job_of setup.now) ((T.disk site.old).contents 0) (λ behind. behind ≡ status.Done) result
        ⊎ MayStandIn result }
    ensures migrated { T.told site.old → Migrated (job_of setup.now) result (T.disk site.old) (T.disk site.new) }
    ensures of { IsOfSite result }
    ensures cause { IsCausedBySite (T.faults site.old) (T.faults site.new) result }

    // Each byte of the log is read once, and no other data set.
    ensures once { T.told site.old → T.tells_reads site.new 0 →
        ReadsOnce (front_for (job_of setup.now)) ((T.disk site.old).contents 0)
        (T.bytes_read site.old 0) (T.bytes_read site.new 0) }
    ensures reads { ReadsOnlyLog (T.tells_reads site.old) (T.tells_reads site.new)
        (T.bytes_read site.old) (T.bytes_read site.new) }
    ensures site { IsContinued T.told T.faults T.holds T.keeps site.old site.new }
{
    let mut started = match restart_for(alloc, site, setup) {
        Ok(started) => started,
        Err(fault) => return fault,
    };
    if started.log.format() != OLD_FORMAT {
        return Status::Done;
    }
    seal_format(alloc, site, &mut started.log)
}
