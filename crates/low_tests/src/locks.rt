//! Regions that share, wait and deadlock.
ghost use Rattle.std.specs.Prelude.{◌≡◌, length};

use ci_locks::{Grant, Locks};
use fp_model::{Bytes, Mode, Resource};
use std::alloc::{AllocError, Global};

/// What is done with a resource in a region, and what is to come of it.
enum Deed {
    /// The region asks for it.
    Ask(Mode, Answer),
    /// The region holds it so.
    Holds(Option<Mode>),
    /// Whether an anchor of a database is held, from the first to the last.
    AnyIn(u8, u32, u32, bool),
    /// The region lets all go.
    Release,
}

/// A deed with its region and its resource.
type Step = (Deed, u8, Wanted);

/// A resource.
#[derive(Clone, Copy)]
enum Wanted {
    /// An anchor of data entry database 0.
    Anchor(u32),
    /// A key of main storage database 3.
    Key(&'static [u8]),
}

/// What became of a request.
#[derive(Clone, Copy)]
enum Answer {
    Held,
    Wait(&'static [u8]),
    Cycle(&'static [u8]),
}

/// A resource that plays no part.
const NONE: Wanted = Wanted::Anchor(0);

/// Three regions want one anchor.
const ONE_ANCHOR: &[Step] = &[
    (Deed::AnyIn(0, 0, 9, false), 1, NONE),
    (Deed::Ask(Mode::Share, Answer::Held), 1, Wanted::Anchor(5)),
    (Deed::Ask(Mode::Share, Answer::Held), 2, Wanted::Anchor(5)),
    (
        Deed::Ask(Mode::Exclusive, Answer::Wait(&[1, 2])),
        3,
        Wanted::Anchor(5),
    ),
    (
        Deed::Ask(Mode::Exclusive, Answer::Wait(&[2])),
        1,
        Wanted::Anchor(5),
    ),
    (
        Deed::Ask(Mode::Exclusive, Answer::Cycle(&[2, 1])),
        2,
        Wanted::Anchor(5),
    ),
    (Deed::Release, 2, NONE),
    (Deed::Holds(None), 2, Wanted::Anchor(5)),
    (
        Deed::Ask(Mode::Exclusive, Answer::Held),
        1,
        Wanted::Anchor(5),
    ),
    (Deed::Holds(Some(Mode::Exclusive)), 1, Wanted::Anchor(5)),
    (Deed::AnyIn(0, 5, 5, true), 1, NONE),
    (Deed::AnyIn(0, 6, 9, false), 1, NONE),
    (Deed::AnyIn(1, 0, 9, false), 1, NONE),
];

/// Two regions want two keys crosswise.
const TWO_KEYS: &[Step] = &[
    (
        Deed::Ask(Mode::Exclusive, Answer::Held),
        1,
        Wanted::Key(b"A1"),
    ),
    (
        Deed::Ask(Mode::Exclusive, Answer::Held),
        2,
        Wanted::Key(b"A2"),
    ),
    (
        Deed::Ask(Mode::Share, Answer::Wait(&[2])),
        1,
        Wanted::Key(b"A2"),
    ),
    (
        Deed::Ask(Mode::Exclusive, Answer::Cycle(&[2, 1])),
        2,
        Wanted::Key(b"A1"),
    ),
    (Deed::Release, 2, NONE),
    (Deed::Ask(Mode::Share, Answer::Held), 1, Wanted::Key(b"A2")),
    (Deed::Holds(Some(Mode::Share)), 1, Wanted::Key(b"A2")),
];

fn resource(alloc: Global, wanted: Wanted) -> Result<Resource, AllocError> {
    Ok(match wanted {
        Wanted::Anchor(anchor) => Resource::Anchor { dedb: 0, anchor },
        Wanted::Key(key) => Resource::Segment {
            msdb: 3,
            key: Bytes::from_slice(alloc, key)?,
        },
    })
}

fn is_grant(grant: &Grant, answer: &Answer) -> bool {
    match (grant, answer) {
        (Grant::Held, Answer::Held) => true,
        (Grant::Wait(found), Answer::Wait(wanted)) => found.as_slice() == *wanted,
        (Grant::Cycle(found), Answer::Cycle(wanted)) => found.as_slice() == *wanted,
        _ => false,
    }
}

/// Whether a deed with a resource answers so, of locks of three regions.
fn answers(locks: &mut Locks, deed: &Deed, region: u8, resource: &Resource) -> bool
    requires { length locks.old ≡ 3 }
    ensures { length locks.new ≡ 3 }
{
    if region < 1 || region > 3 {
        return false;
    }
    match deed {
        Deed::Ask(mode, answer) => match locks.ask(region, resource, *mode) {
            Ok(grant) => is_grant(&grant, answer),
            Err(AllocError) => false,
        },
        Deed::Holds(mode) => locks.holds(region, resource) == *mode,
        Deed::AnyIn(dedb, first, last, is_held) => locks.any_in(*dedb, *first, *last) == *is_held,
        Deed::Release => {
            locks.release_all(region);
            true
        }
    }
}

/// The place of the first step that answers something else.
fn first_wrong(alloc: Global, locks: &mut Locks, steps: &[Step]) -> Option<usize>
    requires { length locks.old ≡ 3 }
{
    for (place, (deed, region, wanted)) in steps.iter().enumerate() {
        let is_so = match resource(alloc, *wanted) {
            Ok(resource) => answers(locks, deed, *region, &resource),
            Err(AllocError) => false,
        };
        if !is_so {
            return Some(place);
        }
    }
    None
}

/// The same of new locks of three regions; the number of steps where there is no memory for them.
fn first_wrong_of(alloc: Global, steps: &[Step]) -> Option<usize> {
    match Locks::new(alloc, 3) {
        Ok(mut locks) => first_wrong(alloc, &mut locks, steps),
        Err(AllocError) => Some(steps.len()),
    }
}

static RUNS: [(&str, &[Step]); 2] = [
    ("three regions want one anchor", ONE_ANCHOR),
    ("two keys are wanted crosswise", TWO_KEYS),
];

#[test]
fn regions_share_wait_and_deadlock(rt: HostRuntime) {
    for (name, steps) in &RUNS {
        let wrong = first_wrong_of(rt.alloc(), steps);
        assert!(rt; wrong.is_none(), "{name}: at {wrong:?}");
    }
}
