//! What a command does with the parts of the source and the site.
ghost use Rattle.fp_model.specs.Events.{IsEventOf};
ghost use Rattle.fp_exits.specs.Kinds.{Kinds, has_kind, kinds_of};
ghost use Rattle.fp_lists.specs.Continued.{IsContinued};
ghost use Rattle.fp_source.specs.declared.part.Part.{Part as PartOf};
ghost use Rattle.fp_source.specs.declared.part.Part.TheVariants as part;
ghost use Rattle.command_tasks.specs.Causes.{IsCaused};
ghost use Rattle.fp_system.specs.Gives.{InOrder, IsBeforeSite, Took};
ghost use Rattle.command_tasks.specs.Parts.{Job, front_for};
ghost use Rattle.fp_system.specs.Table.{Asks};
ghost use Rattle.fp_system.specs.inside.Acted.{Acted, IsLate, IsReadOf, Served, given_of};
ghost use Rattle.command_tasks.specs.Setups.{IsSetup, job_of};
ghost use Rattle.command_tasks.specs.declared.status.Status.TheVariants as status;
ghost use Rattle.command_words.specs.Words.{command_of};
ghost use Rattle.command_words.specs.declared.words.Command.{Command as CommandOf};
ghost use Rattle.log_groups.specs.Reads.{ReadsOnlyLog};
ghost use Rattle.site_texts.specs.Texts.{ReadsOnce};
ghost use Rattle.std.specs.List.{AllByRecursion};
ghost use Rattle.std.specs.Prelude.{◌≡◌, ◌⊎◌, ℕ, List as ListOf, None, Some, true};

use crate::acting::{audit_on, define_on, log_on, migrate_on, run_on, show_on};
use command_tasks::{Status, Task, read_task};
use command_words::Command;
use fp_exits::Exits;
use fp_site::Site;
use fp_source::Source;
use std::alloc::{AllocError, Global};

// Does a command whose parts are read.
fn act<S: Source, T: Site>(
    alloc: Global,
    source: &mut S,
    site: &mut T,
    exits: &Exits,
    command: Command,
    task: &Task,
) -> Status
    requires setup { IsSetup task.now.setup }
    requires router { has_kind (kinds_of exits.now).routers task.now.setup.defs.router ≡ true }
    requires events { AllByRecursion (IsEventOf task.now.setup.defs) task.now.events }

    // Whatever the call was given beside these message lines and this site.
    ensures acted { (kinds : Kinds) (words : ListOf (ListOf ℕ)) (left : PartOf → ListOf ℕ)
        → left part.Messages ≡ S.left source.old part.Messages → S.told source.old → T.told site.old →
        Acted command (job_of task.now.setup) task.now.events (given_of kinds words left (T.disk site.old)) result
        (T.disk site.old) (T.disk site.new) }
    ensures late { IsLate command (S.faults source.old) (S.faults source.new)
        (T.faults site.old) (T.faults site.new) result (site.new ≡ site.old) }
    ensures took { S.told source.old → Took (Some command) result (S.left source.old) (S.left source.new) }
    ensures once { T.told site.old → T.tells_reads site.new 0 →
        ReadsOnce (front_for (job_of task.now.setup)) ((T.disk site.old).contents 0)
        (T.bytes_read site.old 0) (T.bytes_read site.new 0) }
    ensures reads { ReadsOnlyLog (T.tells_reads site.old) (T.tells_reads site.new)
        (T.bytes_read site.old) (T.bytes_read site.new) }
    ensures source { IsContinued S.told S.faults S.holds S.keeps source.old source.new }
    ensures site { IsContinued T.told T.faults T.holds T.keeps site.old site.new }
{
    match command {
        Command::Define => define_on(alloc, site, &task.setup),
        Command::Run => run_on(alloc, source, site, exits, task),
        Command::Show => show_on(alloc, site, &task.setup),
        Command::Log => log_on(alloc, site, &task.setup),
        Command::Migrate => migrate_on(alloc, site, &task.setup),
        Command::Audit => audit_on(alloc, site, exits, &task.setup),
    }
}

/// Does what words ask for, if they were read as a command.
pub(crate) fn obey<S: Source, T: Site>(
    alloc: Global,
    source: &mut S,
    site: &mut T,
    exits: &Exits,
    found: Result<Option<Command>, AllocError>,
) -> Status
    // When each answer comes, and what the commands give and read, of all words that were read so.
    ensures served { (words : ListOf (ListOf ℕ)) → IsReadOf words found → S.told source.old → T.told site.old →
        Served (given_of (kinds_of exits.now) words (S.left source.old) (T.disk site.old)) result
        (T.disk site.old) (T.disk site.new) }
    ensures usage { (words : ListOf (ListOf ℕ)) → IsReadOf words found → result ≡ status.Usage
        → command_of words ≡ None }
    ensures no_command { (words : ListOf (ListOf ℕ)) → IsReadOf words found → command_of words ≡ None
        → (result ≡ status.Usage ⊎ result ≡ status.NoMemory) × (source.new ≡ source.old) × (site.new ≡ site.old) }
    ensures cause { IsCaused (S.faults source.old) (S.faults source.new)
        (T.faults site.old) (T.faults site.new) result }
    ensures once { (words : ListOf (ListOf ℕ)) (which : CommandOf) (job : Job) → IsReadOf words found
        → S.told source.old → T.told site.old
        → Asks (given_of (kinds_of exits.now) words (S.left source.old) (T.disk site.old)) which job
        → T.tells_reads site.new 0 →
        ReadsOnce (front_for job) ((T.disk site.old).contents 0) (T.bytes_read site.old 0) (T.bytes_read site.new 0) }
    ensures reads { ReadsOnlyLog (T.tells_reads site.old) (T.tells_reads site.new)
        (T.bytes_read site.old) (T.bytes_read site.new) }

    // What stays.
    ensures untouched { (words : ListOf (ListOf ℕ)) → IsReadOf words found → IsBeforeSite (command_of words) result
        → site.new ≡ site.old }
    ensures no_job { (words : ListOf (ListOf ℕ)) → IsReadOf words found → S.told source.old
        → ¬ ((which : CommandOf) × ((job : Job)
        × Asks (given_of (kinds_of exits.now) words (S.left source.old) (T.disk site.old)) which job))
        → site.new ≡ site.old }
    ensures parts { (words : ListOf (ListOf ℕ)) → IsReadOf words found → S.told source.old
        → Took (command_of words) result (S.left source.old) (S.left source.new) }
    ensures order { (words : ListOf (ListOf ℕ)) → IsReadOf words found → S.told source.old
        → InOrder (kinds_of exits.now) (command_of words) (S.left source.old) (S.left source.new) }
    ensures source { IsContinued S.told S.faults S.holds S.keeps source.old source.new }
    ensures site { IsContinued T.told T.faults T.holds T.keeps site.old site.new }
{
    let command = match found {
        Ok(Some(command)) => command,
        Ok(None) => return Status::Usage,
        Err(_) => return Status::NoMemory,
    };
    match read_task(alloc, source, exits, command) {
        Ok(task) => act(alloc, source, site, exits, command, &task),
        Err(answer) => answer,
    }
}
