//! The top call.
ghost use Rattle.fp_lists.specs.Continued.{IsContinued};
ghost use Rattle.fp_exits.specs.Kinds.{kinds_of};
ghost use Rattle.fp_model.specs.Messages.{lines_of};
ghost use Rattle.fp_model.specs.declared.events.Event.{Event};
ghost use Rattle.fp_source.specs.declared.part.Part.TheVariants as part;
ghost use Rattle.command_tasks.specs.Causes.{IsCaused};
ghost use Rattle.fp_system.specs.Courses.{input};
ghost use Rattle.fp_system.specs.Gives.{Audited, Defined, InOrder, IsBeforeSite, Logged, Migrated, Ran, Shown, Took};
ghost use Rattle.command_tasks.specs.Parts.{HasEvents, Job, front_for};
ghost use Rattle.site_texts.specs.Texts.{ReadsOnce};
ghost use Rattle.fp_system.specs.Table.{Asks, IsAnswerTo, given};
ghost use Rattle.command_words.specs.Words.{command_of};
ghost use Rattle.command_tasks.specs.declared.status.Status.TheVariants as status;
ghost use Rattle.command_words.specs.declared.words.Command.{Command as CommandOf};
ghost use Rattle.command_words.specs.declared.words.Command.TheVariants as command;
ghost use Rattle.log_groups.specs.Reads.{ReadsOnlyLog};
ghost use Rattle.std.specs.Prelude.{◌≡◌, ◌⊎◌, None, Some, List as ListOf, map, string_bytes};

use crate::commands::obey;
use command_tasks::Status;
use command_words::command_of;
use fp_exits::Exits;
use fp_site::Site;
use fp_source::Source;
use std::alloc::Global;

/// All that the program does. `words` are those behind its name: `define DIR` makes the site anew from the parts
/// Definitions and Scripts; `run DIR` restarts, takes the events of the part Schedule one after another, behind what
/// the log has, and drains: so each line of the part Messages is answered; `show DIR` sends the text of the databases,
/// and `log DIR` that of the log's groups. `migrate DIR` lets the messages of a site of format 1 have numbers from here
/// on; before that no run takes its lines. `audit DIR` runs the log's entries again by their meaning alone, and tells how
/// many they are, or the first that isn't legal. Words are judged first, then the definitions, the scripts, of a run the
/// schedule, then the site; the message lines are read one by one. No part is read behind one that is refused.
///
/// # What contracts say
///
/// `given` is what the call is given, as it is told. What is due of it is answered, or a fault stands in its place:
/// want of memory (`NoMemory`) may come at any place, a fault of the source or the site only where its count rose, and
/// the count rises with no other answer.
/// `Asks` says that the words are a command, that the parts are a job, and of a run that its schedule is one.
pub fn ims<S: Source, T: Site>(
    alloc: Global,
    words: &[String],
    source: &mut S,
    site: &mut T,
    exits: &Exits,
) -> Status
    // When each answer comes.
    ensures usage { result ≡ status.Usage → command_of (map string_bytes words.now) ≡ None }
    ensures no_command { command_of (map string_bytes words.now) ≡ None
        → (result ≡ status.Usage ⊎ result ≡ status.NoMemory) × (source.new ≡ source.old) × (site.new ≡ site.old) }
    ensures due { S.told source.old → T.told site.old →
        IsAnswerTo (given exits.now words.now (S.left source.old) (T.disk site.old)) result }
    ensures cause { IsCaused (S.faults source.old) (S.faults source.new)
        (T.faults site.old) (T.faults site.new) result }

    // What the commands give, and what they read.
    ensures defined { S.told source.old → T.told site.old
        → command_of (map string_bytes words.now) ≡ Some command.Define →
        Defined (given exits.now words.now (S.left source.old) (T.disk site.old)) result
        (T.disk site.old) (T.disk site.new) }
    ensures ran { (job : Job) (events : ListOf Event) → S.told source.old → T.told site.old
        → Asks (given exits.now words.now (S.left source.old) (T.disk site.old)) command.Run job
        → HasEvents job (S.left source.old) events →
        Ran job (input events (lines_of (S.left source.old part.Messages))) result (T.disk site.old)
        (T.disk site.new) }
    ensures shown { (job : Job) → S.told source.old → T.told site.old
        → Asks (given exits.now words.now (S.left source.old) (T.disk site.old)) command.Show job →
        Shown job result (T.disk site.old) (T.disk site.new) }
    ensures logged { (job : Job) → S.told source.old → T.told site.old
        → Asks (given exits.now words.now (S.left source.old) (T.disk site.old)) command.Log job →
        Logged job result (T.disk site.old) (T.disk site.new) }
    ensures migrated { (job : Job) → S.told source.old → T.told site.old
        → Asks (given exits.now words.now (S.left source.old) (T.disk site.old)) command.Migrate job →
        Migrated job result (T.disk site.old) (T.disk site.new) }
    ensures audited { (job : Job) → S.told source.old → T.told site.old
        → Asks (given exits.now words.now (S.left source.old) (T.disk site.old)) command.Audit job →
        Audited job result (T.disk site.old) (T.disk site.new) }
    ensures once { (which : CommandOf) (job : Job) → S.told source.old → T.told site.old
        → Asks (given exits.now words.now (S.left source.old) (T.disk site.old)) which job
        → T.tells_reads site.new 0 →
        ReadsOnce (front_for job) ((T.disk site.old).contents 0) (T.bytes_read site.old 0) (T.bytes_read site.new 0) }
    ensures reads { ReadsOnlyLog (T.tells_reads site.old) (T.tells_reads site.new)
        (T.bytes_read site.old) (T.bytes_read site.new) }

    // What stays.
    ensures untouched { IsBeforeSite (command_of (map string_bytes words.now)) result → site.new ≡ site.old }
    ensures no_job { S.told source.old → ¬ ((which : CommandOf) × ((job : Job)
        × Asks (given exits.now words.now (S.left source.old) (T.disk site.old)) which job)) → site.new ≡ site.old }
    ensures parts { S.told source.old → Took (command_of (map string_bytes words.now)) result
        (S.left source.old) (S.left source.new) }
    ensures order { S.told source.old → InOrder (kinds_of exits.now) (command_of (map string_bytes words.now))
        (S.left source.old) (S.left source.new) }
    ensures source { IsContinued S.told S.faults S.holds S.keeps source.old source.new }
    ensures site { IsContinued T.told T.faults T.holds T.keeps site.old site.new }
{
    obey(alloc, source, site, exits, command_of(alloc, words))
}
