//! Laws of the top call: the table of its answers, what a run answers, and any number of runs and stops.
ghost use Rattle.fp_model.specs.declared.log.Entry.{Entry};
ghost use Rattle.fp_site.specs.Disk.{IsDurable};
ghost use Rattle.fp_source.specs.declared.part.Part.TheVariants as part;
ghost use Rattle.system_laws.specs.Answered.{AnswersEachLine};
ghost use Rattle.fp_system.specs.Table.{Asks, Given, IsDue, end_of_lines, faulty_line};
ghost use Rattle.fp_system.specs.Courses.{Input, IsSoundFor};
ghost use Rattle.fp_system.specs.Gives.{Defined, IsSafeFor, Ran, Went};
ghost use Rattle.command_tasks.specs.Parts.{Job};
ghost use Rattle.system_laws.specs.Stops.{Calls, HeldThrough, HoldsOn, IsOnceOn, Lives, Standing, standing};
ghost use Rattle.command_tasks.specs.declared.status.Status.{Status as StatusOf};
ghost use Rattle.command_tasks.specs.declared.status.Status.TheVariants as status;
ghost use Rattle.command_words.specs.declared.words.Command.TheVariants as command;
ghost use Rattle.schedule_runs.specs.Ways.{NoneStarved};
ghost use Rattle.std.specs.Prelude.{◌≡◌, ℕ, [], List as ListOf, length};
ghost use Rattle.fp_model.specs.Lasts.{format_at};

use crate::ways::a_way_is_determined;
use fp_site::Site;
use line_laws::every_line_is_answered;
use number_laws::a_number_is_used_once;
use state_laws::the_start_has_its_shape;

/// Of any call at most one answer is due.
pub fn at_most_one_answer_is_due()
    ensures { (g : Given) (a b : StatusOf) → IsDue g a → IsDue g b → a ≡ b }
{}

/// Of a run on a sound log in which messages may have numbers the first line that isn't taken is due, or the end of its
/// lines; of one on a sound log of format 1 that this is one.
pub fn a_sound_log_is_due_its_lines()
    ensures lines { (g : Given) (job : Job) (format : ℕ) (entries : ListOf Entry) → Asks g command.Run job
        → IsSoundFor job format (g.contents 0) entries → ¬ (format_at format entries ≡ 1)
        → IsDue g (end_of_lines (faulty_line (g.left part.Messages))) }
    ensures first { (g : Given) (job : Job) (format : ℕ) (entries : ListOf Entry) → Asks g command.Run job
        → IsSoundFor job format (g.contents 0) entries → format_at format entries ≡ 1
        → IsDue g status.OldFormat }
{}

/// A run that is done answers each line of its messages: it has just one entry, and one reply line that was sent; those
/// of one terminal come in the order of its lines.
pub fn a_run_that_is_done_answers_each_line<T: Site>()
    ensures { (g : Given) (job : Job) (format : ℕ) (given : Input) (earlier : ListOf Entry) (old new : T)
        → Asks g command.Run job → IsSafeFor job format (T.disk old) earlier
        → Ran job given status.Done (T.disk old) (T.disk new) →
        AnswersEachLine job format given.lines earlier (T.disk old) (T.disk new) }
{
    every_line_is_answered()
}

/// Two runs that are done, of the same schedule and lines behind the same entries, come to one point: so they add the
/// same groups to the log, and send the same bytes. Only where a transaction lacked memory they may differ.
pub fn runs_that_are_done_are_one<T: Site>()
    ensures { (g : Given) (job : Job) (format : ℕ) (given : Input) (earlier : ListOf Entry)
        (old old2 new new2 : T)
        → Asks g command.Run job → IsSafeFor job format (T.disk old) earlier
        → (went : Went job format given earlier status.Done (T.disk old) (T.disk new))
        → (went2 : Went job format given earlier status.Done (T.disk old2) (T.disk new2))
        → NoneStarved (length earlier) went.point.here.history
        → NoneStarved (length earlier) went2.point.here.history
        → went.point ≡ went2.point }
{
    the_start_has_its_shape();
    a_way_is_determined()
}

/// What stands in a log for good is held; and a log that was made new holds each entry of which a line was sent since,
/// as none was.
pub fn a_log_at_rest_holds_its_entries<T: Site>()
    ensures rests { (job : Job) (format : ℕ) (entries : ListOf Entry) (site : T) → IsDurable (T.disk site) 0
        → IsSoundFor job format ((T.disk site).contents 0) entries →
        HoldsOn job (standing format entries (T.disk site).sent) (T.disk site) }
    ensures made { (g : Given) (job : Job) (old new : T) → Asks g command.Define job
        → Defined g status.Done (T.disk old) (T.disk new) →
        HoldsOn job (standing 2 [] (T.disk old).sent) (T.disk new) }
{}

/// A call, whatever it answers, keeps what stood and each entry of which a line was sent since: so does what it leaves,
/// and so does each snapshot since it began.
pub fn a_call_keeps_what_was_answered<T: Site>()
    ensures stands { (job : Job) (start : Standing) (old new : T) → T.told old → T.told new
        → Calls job (T.disk old) (T.disk new) → HoldsOn job start (T.disk old) → HoldsOn job start (T.disk new) }
    ensures moments { (job : Job) (start : Standing) (old new : T) → T.told old → (T.disk old).tells_sent
        → Calls job (T.disk old) (T.disk new) → HoldsOn job start (T.disk old) →
        HeldThrough job start ((T.disk old).moment) (T.disk new) }
{}

/// Over any number of calls, whatever they answer, and of stops within them, the log goes on holding what stood and
/// each entry of which a line was sent since.
pub fn what_was_answered_is_held<T: Site>()
    ensures { (job : Job) (start : Standing) (first last : T) → HoldsOn job start (T.disk first)
        → Lives T.told T.disk job first last → HoldsOn job start (T.disk last) }
{}

/// So a numbered message counts once, however often it is sent over any number of calls and stops: at most one entry of
/// the log has a terminal's number and is answered neither Old nor Repeat, and each line that was sent for that number,
/// but `NO OLD`, is that entry's line.
pub fn a_number_counts_once<T: Site>()
    ensures holds { (job : Job) (start : Standing) (site : T) → HoldsOn job start (T.disk site)
        → IsOnceOn job start (T.disk site) }
    ensures lives { (job : Job) (start : Standing) (first last : T) → HoldsOn job start (T.disk first)
        → Lives T.told T.disk job first last → IsOnceOn job start (T.disk last) }
{
    a_number_is_used_once();
    what_was_answered_is_held::<T>()
}
