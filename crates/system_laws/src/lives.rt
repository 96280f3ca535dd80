//! A site in memory that is made, run, run again, stopped, and begun again from what the stop left: what clauses say of
//! it.
ghost use Rattle.memory_site.specs.Memory.{memory_disk};
ghost use Rattle.command_tasks.specs.Parts.{Job};
ghost use Rattle.system_laws.specs.Stops.{HoldsOn, IsOnceOn, Standing, standing};
ghost use Rattle.fp_system.specs.Table.{Asks, given};
ghost use Rattle.command_words.specs.declared.words.Command.TheVariants as command;
ghost use Rattle.std.specs.Prelude.{◌≡◌, [], true, IfOk, IfSome};

use crate::laws::{a_call_keeps_what_was_answered, a_number_counts_once};
use fp_exits::Exits;
use fp_source::Source;
use fp_system::{Status, ims};
use memory_site::MemorySite;
use std::alloc::{AllocError, Global};

/// Runs, whatever that answers: the site goes on holding what stood and each entry of which a line was sent.
pub fn run_once<S: Source>(
    alloc: Global,
    words: &[String],
    source: &mut S,
    site: &mut MemorySite,
    exits: &Exits,
)
    ensures { (job : Job) (start : Standing) → S.told source.old
        → Asks (given exits.now words.now (S.left source.old) (memory_disk site.old)) command.Run job
        → HoldsOn job start (memory_disk site.old) → HoldsOn job start (memory_disk site.new) }
{
    let _ = ims(alloc, words, source, site, exits);
    a_call_keeps_what_was_answered::<MemorySite>()
}

/// Runs, stops, and begins again as what the stop left: so does that site.
pub fn run_and_stop<S: Source>(
    alloc: Global,
    words: &[String],
    source: &mut S,
    site: &mut MemorySite,
    exits: &Exits,
    choice: u64,
) -> Result<MemorySite, AllocError>
    ensures { (job : Job) (start : Standing) → S.told source.old
        → Asks (given exits.now words.now (S.left source.old) (memory_disk site.old)) command.Run job
        → HoldsOn job start (memory_disk site.old) → IfOk result (λ next. HoldsOn job start (memory_disk next)) }
{
    let _ = ims(alloc, words, source, site, exits);
    a_call_keeps_what_was_answered::<MemorySite>();
    let snapshot = site.snapshot_as(choice)?;
    MemorySite::from_snapshot(alloc, snapshot, &[])
}

// Makes a site, and answers whether that was done: then its log has no entries, and so holds each of which a line was
// sent.
fn is_made<S: Source>(
    alloc: Global,
    words: &[String],
    source: &mut S,
    site: &mut MemorySite,
    exits: &Exits,
) -> bool
    ensures { (job : Job) → S.told source.old
        → Asks (given exits.now words.now (S.left source.old) (memory_disk site.old)) command.Define job
        → result ≡ true → HoldsOn job (standing 2 [] (memory_disk site.old).sent) (memory_disk site.new) }
{
    match ims(alloc, words, source, site, exits) {
        Status::Done => true,
        _ => false,
    }
}

/// Makes a site, runs it, runs it again whatever the first run answered, stops it, and runs it from what the stop left.
/// The log that stands then has the entry of each reply line that was sent in any of the runs.
pub fn define_and_run<S: Source>(
    alloc: Global,
    define: &[String],
    run: &[String],
    parts: &mut S,
    first: &mut S,
    second: &mut S,
    third: &mut S,
    site: &mut MemorySite,
    exits: &Exits,
    choice: u64,
) -> Result<Option<MemorySite>, AllocError>
    ensures { (job : Job) → S.told parts.old → S.told first.old → S.told second.old → S.told third.old
        → Asks (given exits.now define.now (S.left parts.old) (memory_disk site.old)) command.Define job
        → Asks (given exits.now run.now (S.left first.old) (memory_disk site.old)) command.Run job
        → Asks (given exits.now run.now (S.left second.old) (memory_disk site.old)) command.Run job
        → Asks (given exits.now run.now (S.left third.old) (memory_disk site.old)) command.Run job →
        IfOk result (λ made. IfSome made (λ last.
        HoldsOn job (standing 2 [] (memory_disk site.old).sent) (memory_disk last))) }
{
    if !is_made(alloc, define, parts, site, exits) {
        return Ok(None);
    }
    run_once(alloc, run, first, site, exits);
    let mut next = run_and_stop(alloc, run, second, site, exits, choice)?;
    run_once(alloc, run, third, &mut next, exits);
    Ok(Some(next))
}

/// The same. A message with a number that was sent in more than one of the runs counted once.
pub fn define_and_send_again<S: Source>(
    alloc: Global,
    define: &[String],
    run: &[String],
    parts: &mut S,
    first: &mut S,
    second: &mut S,
    third: &mut S,
    site: &mut MemorySite,
    exits: &Exits,
    choice: u64,
) -> Result<Option<MemorySite>, AllocError>
    ensures { (job : Job) → S.told parts.old → S.told first.old → S.told second.old → S.told third.old
        → Asks (given exits.now define.now (S.left parts.old) (memory_disk site.old)) command.Define job
        → Asks (given exits.now run.now (S.left first.old) (memory_disk site.old)) command.Run job
        → Asks (given exits.now run.now (S.left second.old) (memory_disk site.old)) command.Run job
        → Asks (given exits.now run.now (S.left third.old) (memory_disk site.old)) command.Run job →
        IfOk result (λ made. IfSome made (λ last.
        IsOnceOn job (standing 2 [] (memory_disk site.old).sent) (memory_disk last))) }
{
    let made = define_and_run(
        alloc, define, run, parts, first, second, third, site, exits, choice,
    )?;
    a_number_counts_once::<MemorySite>();
    Ok(made)
}
