//! Transactions of a log that are run again alone, each at its place, with what it comes to.
ghost use Rattle.fp_exits.specs.Kinds.{kinds_of};
ghost use Rattle.past_anchors.specs.Databases.{AreDedbsOf};
ghost use Rattle.past_replay.specs.Setup.{IsSetup};
ghost use Rattle.past_segments.specs.Pasts.{ArePastsOf};
ghost use Rattle.past_segments.specs.Times.{IsSettledBy};
ghost use Rattle.std.specs.List.{AllByRecursion};
ghost use Rattle.std.specs.Prelude.{◌≡◌, ◌+◌, ◌<◌, ◌≤◌, ◌^◌, IfOk, IfSome, OnOk, true};

use crate::systems::{Ground, TELLERS, message};
use fp_model::{Defs, List, Name, Outcome, key_length};
use past_anchors::Anchors;
use past_replay::{Alone, replay};
use past_segments::PastSegments;
use std::alloc::{AllocError, Global};
use std::test::Fail;

/// What running an entry alone comes to.
enum Ended {
    /// Done, with this reply.
    Done(&'static [u8]),
    /// A verify fails: the call, its search argument, and the bytes found.
    Verify(u32, u16, &'static [u8]),
    Roll(u16),
    Stuck,
}

impl Ended {
    fn reply(&self) -> &'static [u8] {
        match *self {
            Ended::Done(reply) => reply,
            _ => b"",
        }
    }
}

/// The transaction, the text of its message, its notes, and what it comes to.
struct Entry(&'static [u8; 8], &'static [u8], &'static [u64], Ended);

// Whether it came to this.
fn is_so(alone: &Alone, ended: &Ended) -> bool {
    match (alone, ended) {
        (Alone::Ends { outcome, reply }, ended) => {
            is_outcome(outcome, ended) && reply.as_slice() == ended.reply()
        }
        (Alone::Stuck, Ended::Stuck) => true,
        _ => false,
    }
}

// Whether an entry ends with this outcome.
fn is_outcome(outcome: &Outcome, ended: &Ended) -> bool {
    match (outcome, ended) {
        (Outcome::Done, Ended::Done(_)) => true,
        (Outcome::Verify { call, fsa, found }, Ended::Verify(c, f, bytes)) => {
            call == c && fsa == f && found.as_slice() == *bytes
        }
        (Outcome::Roll(code), Ended::Roll(wanted)) => code == wanted,
        _ => false,
    }
}

// The notes of an entry. None where one is of a later place.
fn notes(alloc: Global, entry: &Entry, place: u64) -> Result<Option<List<u64>>, AllocError>
    ensures { IfOk result (λ notes. IfSome notes (AllByRecursion (λ note. note ≤ place))) }
{
    let mut notes = List::new(alloc);
    for note in entry.2 {
        if *note > place {
            return Ok(None);
        }
        notes.push(*note)?;
    }
    Ok(Some(notes))
}

// The one main storage database, without segments.
fn empty(alloc: Global, defs: &Defs) -> Result<Vec<PastSegments>, Fail>
    ensures are { IfOk result (λ pasts. ArePastsOf defs.now.msdbs pasts.items) }
    ensures settled { IfOk result (λ pasts. AllByRecursion (IsSettledBy 0) pasts.items) }
{
    if defs.msdbs.len() != 1 {
        return Err(Fail::from("not one database"));
    }
    let count = key_length(defs.msdbs.as_slice()[0].fields.as_slice());
    let past = PastSegments::new(alloc, count);
    let mut pasts = Vec::new(alloc);
    pasts.push(past)?;
    Ok(pasts)
}

// Runs an entry again at a place. Whether it comes to what it says.
fn comes(
    alloc: Global,
    pasts: &mut [PastSegments],
    anchors: &mut Anchors,
    ground: &Ground,
    place: u64,
    entry: &Entry,
) -> Result<bool, AllocError>
    requires setup { IsSetup ground.now.defs (kinds_of ground.now.exits) ground.now.scripts.scripts }
    requires are { ArePastsOf ground.now.defs.msdbs pasts.old }
    requires settled { AllByRecursion (IsSettledBy place) pasts.old }
    requires shape { AreDedbsOf ground.now.defs anchors.old }
    requires place { place + 1 < 2 ^ 64 }
    ensures are { ArePastsOf ground.now.defs.msdbs pasts.new }
    ensures settled { IfOk result (λ so. so ≡ true → AllByRecursion (IsSettledBy (place + 1)) pasts.new) }
    ensures shape { OnOk result (AreDedbsOf ground.now.defs anchors.new) }
{
    let Ground {
        exits,
        defs,
        scripts,
    } = ground;
    let Some(notes) = notes(alloc, entry, place)? else {
        return Ok(false);
    };
    let message = message(alloc, Name(*entry.0), entry.1)?;
    let Some(number) = scripts.find(&message.tran) else {
        return Ok(false);
    };
    let alone = replay(
        alloc, pasts, anchors, defs, scripts, exits, place, &message, number, &notes,
    );
    drop(message);
    drop(notes);
    Ok(is_so(&alone?, &entry.3))
}

// Runs entries again on databases without segments, each at its place in the list. The first that comes to something
// else.
fn first_other(
    alloc: Global,
    pasts: &mut [PastSegments],
    anchors: &mut Anchors,
    ground: &Ground,
    entries: &[Entry],
) -> Result<Option<usize>, AllocError>
    requires setup { IsSetup ground.now.defs (kinds_of ground.now.exits) ground.now.scripts.scripts }
    requires are { ArePastsOf ground.now.defs.msdbs pasts.old }
    requires settled { AllByRecursion (IsSettledBy 0) pasts.old }
    requires shape { AreDedbsOf ground.now.defs anchors.old }
{
    for at in 0..entries.len() {
        if !comes(alloc, pasts, anchors, ground, at as u64, &entries[at])? {
            return Ok(Some(at));
        }
    }
    Ok(None)
}

// The same on databases that it makes.
fn first_other_of(alloc: Global, ground: &Ground, entries: &[Entry]) -> Result<Option<usize>, Fail>
    requires { IsSetup ground.now.defs (kinds_of ground.now.exits) ground.now.scripts.scripts }
{
    let mut pasts = empty(alloc, &ground.defs)?;
    let mut anchors = Anchors::new(alloc, &ground.defs)?;
    let other = first_other(alloc, &mut pasts, &mut anchors, ground, entries);
    drop(anchors);
    drop(pasts);
    Ok(other?)
}

/// Runs entries of tellers again. The first that comes to something else than it says.
fn run_entries(alloc: Global, entries: &[Entry]) -> Result<Option<usize>, Fail> {
    let ground = TELLERS.read(alloc)?;
    let other = first_other_of(alloc, &ground, entries);
    drop(ground);
    other
}

/// Tellers are hired and paid. Notes name older states, and a second withdrawal fails at the sync point.
const PAID: &[Entry] = &[
    Entry(b"HIRE    ", b"T001 100", &[], Ended::Done(b"HIRED")),
    Entry(b"DEPOSIT ", b"T001 50", &[1], Ended::Done(b"NEW")),
    Entry(b"ASK     ", b"T001", &[1], Ended::Done(b"100")),
    Entry(b"ASK     ", b"T001", &[2], Ended::Done(b"150")),
    Entry(b"DEPOSIT ", b"T001 5", &[0], Ended::Roll(1)),
    Entry(
        b"TAKETWO ",
        b"T001 80",
        &[2, 5],
        Ended::Verify(1, 0, b"\x00\x00\x00\x46"),
    ),
    Entry(b"ASK     ", b"T001", &[6], Ended::Done(b"150")),
    Entry(b"ASK     ", b"T001", &[], Ended::Stuck),
    Entry(b"ASK     ", b"T001", &[2, 2], Ended::Stuck),
    Entry(b"HIRE    ", b"T002 1", &[9], Ended::Stuck),
    Entry(b"ASK     ", b"T002", &[10], Ended::Done(b"NONE")),
];

/// A hold shows the state of the place, whatever its transaction noted, and a teller who is fired is gone from there
/// on.
const HOLDS: &[Entry] = &[
    Entry(b"HIRE    ", b"T001 7", &[], Ended::Done(b"HIRED")),
    Entry(b"SET     ", b"T001 9", &[], Ended::Done(b"7")),
    Entry(b"ASK     ", b"T001", &[1], Ended::Done(b"7")),
    Entry(b"FIRE    ", b"T001", &[], Ended::Done(b"GONE")),
    Entry(b"ASK     ", b"T001", &[4], Ended::Done(b"NONE")),
    Entry(b"ASK     ", b"T001", &[3], Ended::Done(b"9")),
];

static LOGS: [(&str, &[Entry]); 2] = [("tellers are paid", PAID), ("holds see the place", HOLDS)];

#[test]
fn entries_come_to_what_they_came_to(rt: HostRuntime) -> Result<(), Fail> {
    for (name, entries) in &LOGS {
        let wrong = run_entries(rt.alloc(), entries)?;
        assert!(rt; wrong.is_none(), "{name}: at {wrong:?}");
    }
    Ok(())
}
