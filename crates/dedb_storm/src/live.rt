//! Two transactions under way at a time, each in a region of its own, over the same locks: what each line of a scenario
//! comes to.
//!
//!     line    = region " " doing | "purge " anchor " " serial | "roots " anchor
//!     doing   = "asks " call | "turn " call | "commits" | "is refused"
//!     came    = "gains" | "waits " regions | "closes " regions | the call's answer
//!     came    = number " queued"                                   of "commits"
//!     came    = "done"                                             of "is refused" and of "purge"
//!     came    = "-" | bytes { "," bytes }                          of "roots"
//!
//! `asks` takes turns until the call is answered or a lock isn't gained, and `turn` a single one. `purge` drops the
//! dependents of an anchor with serials below one, from which on the sequential part begins then.
ghost use Rattle.dedb_storm.specs.Bank.{AreBothGoing, AreKept, IsBank, IsGoing, KeepsOthers};
ghost use Rattle.fp_exits.specs.Kinds.{kinds_of};
ghost use Rattle.std.specs.Prelude.{◌≡◌, IfOk};

use crate::bank::{CUST, OTHER, REGION, Turn, free_locks, roots_at, take_turns};
use crate::cases::{call_of, came_of, numbers_text};
use crate::ending::{Standing, end, purge};
use crate::fault::{Fault, let_go, or_fault};
use crate::texts::put_bytes;
use ci_locks::Locks;
use dli_calls::Work;
use fp_exits::Exits;
use fp_model::{AnchorChange, Bytes, Call, Defs, Root};
use msdb_store::MsdbStore;
use std::alloc::{AllocError, Global};
use std::mem;

// A call is answered by so many turns at most.
const MOST_TURNS: u8 = 20;

// ---- what comes of a line, as it is written

fn regions_text(alloc: Global, word: &str, regions: &Bytes) -> Result<String, AllocError> {
    let mut numbers = Vec::new(alloc);
    for region in regions.as_slice() {
        numbers.push(u32::from(*region))?;
    }
    let regions = numbers_text(alloc, &numbers)?;
    format!(in alloc; "{word} {regions}")
}

fn turn_text(alloc: Global, turn: &Turn) -> Result<String, AllocError> {
    match turn {
        Turn::Answered(answer) => came_of(alloc, answer),
        Turn::Gained => String::from_str(alloc, "gains"),
        Turn::Waits(regions) => regions_text(alloc, "waits", regions),
        Turn::Closes(regions) => regions_text(alloc, "closes", regions),
    }
}

fn roots_text(alloc: Global, roots: &[Root]) -> Result<String, AllocError> {
    let mut text = String::new(alloc);
    for root in roots {
        if !text.is_empty() {
            text.push(',')?;
        }
        put_bytes(alloc, &mut text, root.bytes.as_slice())?;
    }
    if text.is_empty() {
        text.push('-')?;
    }
    Ok(text)
}

// ---- one region

/// The transaction of a region ends, and lets its locks go; the next begins.
fn next(
    alloc: Global,
    region: u8,
    work: &mut Work,
    locks: &mut Locks,
    defs: &Defs,
) -> Result<Work, AllocError>
    requires { IsGoing defs.now region work.old locks.old }

    ensures going { IfOk result (λ was. IsGoing defs.now region work.new locks.new) }
    ensures others { IfOk result (λ was. KeepsOthers region locks.old locks.new) }
    ensures was { IfOk result (λ was. was ≡ work.old) }
{
    let fresh = Work::new(alloc, defs)?;
    locks.release_all(region);
    Ok(mem::replace(work, fresh))
}

/// A region takes so many turns at most with a call.
fn turns_done(
    alloc: Global,
    turns: u8,
    region: u8,
    call: &Call,
    work: &mut Work,
    locks: &mut Locks,
    standing: &Standing,
    store: &MsdbStore,
    defs: &Defs,
    exits: &Exits,
) -> Result<String, Fault>
    requires bank { IsBank defs.now store.now (kinds_of exits.now) }
    requires going { IsGoing defs.now region work.old locks.old }
    requires kept { AreKept defs.now.dedbs standing.now.anchors.items }

    ensures going { IfOk result (λ came. IsGoing defs.now region work.new locks.new) }
    ensures others { IfOk result (λ came. KeepsOthers region locks.old locks.new) }
{
    let kept = standing.anchors.as_slice();
    let turn = take_turns(
        alloc, turns, region, work, locks, call, kept, store, defs, exits,
    )?;
    or_fault(turn_text(alloc, &turn))
}

/// The turns that a word allows at most.
fn turns_of(word: &str) -> Result<u8, Fault> {
    match word {
        "asks" => Ok(MOST_TURNS),
        "turn" => Ok(1),
        _ => Err(Fault::NotRead),
    }
}

/// A region takes turns with a call, as a text says.
fn call_done(
    alloc: Global,
    region: u8,
    text: &str,
    work: &mut Work,
    locks: &mut Locks,
    standing: &Standing,
    store: &MsdbStore,
    defs: &Defs,
    exits: &Exits,
) -> Result<String, Fault>
    requires bank { IsBank defs.now store.now (kinds_of exits.now) }
    requires going { IsGoing defs.now region work.old locks.old }
    requires kept { AreKept defs.now.dedbs standing.now.anchors.items }

    ensures going { IfOk result (λ came. IsGoing defs.now region work.new locks.new) }
    ensures others { IfOk result (λ came. KeepsOthers region locks.old locks.new) }
{
    let (word, text) = text.split_once(' ').ok_or(Fault::NotRead)?;
    let turns = turns_of(word)?;
    let call = call_of(alloc, CUST, text)?;
    turns_done(
        alloc, turns, region, &call, work, locks, standing, store, defs, exits,
    )
}

/// The transaction of a region ends, and its changes stand.
fn commit_done(
    alloc: Global,
    region: u8,
    work: &mut Work,
    locks: &mut Locks,
    standing: &mut Standing,
    defs: &Defs,
) -> Result<String, Fault>
    requires going { IsGoing defs.now region work.old locks.old }
    requires kept { AreKept defs.now.dedbs standing.old.anchors.items }

    ensures going { IfOk result (λ came. IsGoing defs.now region work.new locks.new) }
    ensures others { IfOk result (λ came. KeepsOthers region locks.old locks.new) }
    ensures kept { IfOk result (λ came. AreKept defs.now.dedbs standing.new.anchors.items) }
{
    let was = next(alloc, region, work, locks, defs)?;
    let queued = end(alloc, was, standing, defs)?;
    or_fault(format!(in alloc; "{queued} queued"))
}

/// The transaction of a region ends, and changes nothing.
fn refusal_done(
    alloc: Global,
    region: u8,
    work: &mut Work,
    locks: &mut Locks,
    defs: &Defs,
) -> Result<String, Fault>
    requires { IsGoing defs.now region work.old locks.old }

    ensures going { IfOk result (λ came. IsGoing defs.now region work.new locks.new) }
    ensures others { IfOk result (λ came. KeepsOthers region locks.old locks.new) }
{
    let_go(next(alloc, region, work, locks, defs)?);
    or_fault(String::from_str(alloc, "done"))
}

/// What a region does.
fn done(
    alloc: Global,
    region: u8,
    text: &str,
    work: &mut Work,
    locks: &mut Locks,
    standing: &mut Standing,
    store: &MsdbStore,
    defs: &Defs,
    exits: &Exits,
) -> Result<String, Fault>
    requires bank { IsBank defs.now store.now (kinds_of exits.now) }
    requires going { IsGoing defs.now region work.old locks.old }
    requires kept { AreKept defs.now.dedbs standing.old.anchors.items }

    ensures going { IfOk result (λ came. IsGoing defs.now region work.new locks.new) }
    ensures others { IfOk result (λ came. KeepsOthers region locks.old locks.new) }
    ensures kept { IfOk result (λ came. AreKept defs.now.dedbs standing.new.anchors.items) }
{
    match text {
        "commits" => commit_done(alloc, region, work, locks, standing, defs),
        "is refused" => refusal_done(alloc, region, work, locks, defs),
        _ => call_done(
            alloc, region, text, work, locks, standing, store, defs, exits,
        ),
    }
}

// ---- two regions

/// What the first region does.
fn first_does(
    alloc: Global,
    text: &str,
    first: &mut Work,
    second: &Work,
    locks: &mut Locks,
    standing: &mut Standing,
    store: &MsdbStore,
    defs: &Defs,
    exits: &Exits,
) -> Result<String, Fault>
    requires bank { IsBank defs.now store.now (kinds_of exits.now) }
    requires going { AreBothGoing defs.now first.old second.now locks.old }
    requires kept { AreKept defs.now.dedbs standing.old.anchors.items }

    ensures going { IfOk result (λ came. AreBothGoing defs.now first.new second.now locks.new) }
    ensures kept { IfOk result (λ came. AreKept defs.now.dedbs standing.new.anchors.items) }
{
    let _ = second;
    let came = done(
        alloc, REGION, text, first, locks, standing, store, defs, exits,
    )?;
    Ok(came)
}

/// What the second region does.
fn second_does(
    alloc: Global,
    text: &str,
    first: &Work,
    second: &mut Work,
    locks: &mut Locks,
    standing: &mut Standing,
    store: &MsdbStore,
    defs: &Defs,
    exits: &Exits,
) -> Result<String, Fault>
    requires bank { IsBank defs.now store.now (kinds_of exits.now) }
    requires going { AreBothGoing defs.now first.now second.old locks.old }
    requires kept { AreKept defs.now.dedbs standing.old.anchors.items }

    ensures going { IfOk result (λ came. AreBothGoing defs.now first.now second.new locks.new) }
    ensures kept { IfOk result (λ came. AreKept defs.now.dedbs standing.new.anchors.items) }
{
    let _ = first;
    let came = done(
        alloc, OTHER, text, second, locks, standing, store, defs, exits,
    )?;
    Ok(came)
}

/// A purge, of an anchor up to a serial.
fn purge_done(
    alloc: Global,
    text: &str,
    standing: &mut Standing,
    defs: &Defs,
) -> Result<String, Fault>
    requires { AreKept defs.now.dedbs standing.old.anchors.items }
    ensures { IfOk result (λ came. AreKept defs.now.dedbs standing.new.anchors.items) }
{
    let (anchor, begin) = text.split_once(' ').ok_or(Fault::NotRead)?;
    let (Ok(anchor), Ok(begin)) = (anchor.parse::<u32>(), begin.parse::<u64>()) else {
        return Err(Fault::NotRead);
    };
    purge(alloc, anchor, begin, standing, defs)?;
    or_fault(String::from_str(alloc, "done"))
}

/// A look at the roots of an anchor.
fn roots_shown(alloc: Global, anchor: &str, kept: &[AnchorChange]) -> Result<String, Fault> {
    let Ok(anchor) = anchor.parse::<u32>() else {
        return Err(Fault::NotRead);
    };
    let roots = roots_at(alloc, kept, anchor)?;
    or_fault(roots_text(alloc, roots.as_slice()))
}

/// A line on the databases alone: a purge, or a look at the roots of an anchor.
fn looked_at(
    alloc: Global,
    text: &str,
    standing: &mut Standing,
    defs: &Defs,
) -> Result<String, Fault>
    requires { AreKept defs.now.dedbs standing.old.anchors.items }
    ensures { IfOk result (λ came. AreKept defs.now.dedbs standing.new.anchors.items) }
{
    let (word, rest) = text.split_once(' ').ok_or(Fault::NotRead)?;
    if word == "purge" {
        return purge_done(alloc, rest, standing, defs);
    }
    roots_shown(alloc, rest, standing.anchors.as_slice())
}

/// What comes of a line.
pub(crate) fn done_by(
    alloc: Global,
    text: &str,
    first: &mut Work,
    second: &mut Work,
    locks: &mut Locks,
    standing: &mut Standing,
    store: &MsdbStore,
    defs: &Defs,
    exits: &Exits,
) -> Result<String, Fault>
    requires bank { IsBank defs.now store.now (kinds_of exits.now) }
    requires going { AreBothGoing defs.now first.old second.old locks.old }
    requires kept { AreKept defs.now.dedbs standing.old.anchors.items }

    ensures going { IfOk result (λ came. AreBothGoing defs.now first.new second.new locks.new) }
    ensures kept { IfOk result (λ came. AreKept defs.now.dedbs standing.new.anchors.items) }
{
    if let Some(text) = text.strip_prefix("1 ") {
        return first_does(
            alloc, text, first, second, locks, standing, store, defs, exits,
        );
    }
    if let Some(text) = text.strip_prefix("2 ") {
        return second_does(
            alloc, text, first, second, locks, standing, store, defs, exits,
        );
    }
    looked_at(alloc, text, standing, defs)
}

/// A transaction of each region, and locks of which none is held.
pub(crate) fn both_begin(alloc: Global, defs: &Defs) -> Result<(Work, Work, Locks), AllocError>
    ensures { IfOk result (λ begun. AreBothGoing defs.now begun.0 begun.1 begun.2) }
{
    let locks = free_locks(alloc)?;
    let first = Work::new(alloc, defs)?;
    let second = Work::new(alloc, defs)?;
    Ok((first, second, locks))
}
