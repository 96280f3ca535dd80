//! Customers come to one anchor until it is full, notes to a part until it is full, and items of changes in place.

ghost use Rattle.area_runs.specs.Bank.{HasBank};
ghost use Rattle.std.specs.Prelude.{◌≤◌};

use crate::systems::exits;
use area_runs::Came::{Full, Items};
use area_runs::Change::{Add, Drop, Note, Rename};
use area_runs::Named::{Image, Range};
use area_runs::Step::{
    Commit, Drops, Ends, Length, Mark, Purge, Restart, Seal, Shows, Write, WriteAll,
};
use area_runs::{Bench, Came, Ended, Step, let_go};
use fp_exits::Exits;
use memory_site::MemorySite;
use std::alloc::Global;
use std::test::Fail;

/// Runs steps. The first that didn't end well, and what the site has of both areas.
fn first_unwell(
    alloc: Global,
    bench: &mut Bench<'_>,
    steps: &[Step],
) -> Result<(Option<usize>, Vec<u8>), Fail>
    requires { HasBank bench.old.defs bench.old.areas.places }
{
    for (place, step) in steps.iter().enumerate() {
        if !matches!(bench.step(step)?, Ended::Well) {
            return Ok((Some(place), Vec::new(alloc)));
        }
    }
    let mut bytes = Vec::from_slice(alloc, bench.site.contents(3))?;
    bytes.extend_from_slice(bench.site.contents(4))?;
    Ok((None, bytes))
}

/// Runs steps over areas that are formatted over a site. The first that didn't end well, or how many there are where
/// the site failed before; and what the site has of both areas.
fn first_other(
    alloc: Global,
    exits: &Exits,
    site: MemorySite,
    bound: u32,
    steps: &[Step],
) -> Result<(Option<usize>, Vec<u8>), Fail>
    requires { 1 ≤ bound }
{
    match Bench::formatted(alloc, exits, site, bound)? {
        Some(mut bench) => {
            let found = first_unwell(alloc, &mut bench, steps);
            let_go(bench, found)
        }
        None => Ok((Some(steps.len()), Vec::new(alloc))),
    }
}

/// So it does over a site that is new.
fn over_new(
    alloc: Global,
    exits: &Exits,
    bound: u32,
    steps: &[Step],
) -> Result<(Option<usize>, Vec<u8>), Fail>
    requires { 1 ≤ bound }
{
    let site = MemorySite::new(alloc, &[])?;
    first_other(alloc, exits, site, bound, steps)
}

/// Twenty-one customers of one anchor, of which ten fit into its base interval, and ten into its unit's overflow
/// interval. The last one takes an interval that is new in the area, and the area had eight. Nothing is written before
/// a restart.
static CUSTOMERS: [Step; 30] = [
    Commit(&[Add(6, b"C001", b"A")], Items(&[Image(4, 4)])),
    Commit(&[Add(6, b"C009", b"B")], Came::Some),
    Commit(&[Add(6, b"C012", b"C")], Came::Some),
    Commit(&[Add(6, b"C023", b"D")], Came::Some),
    Commit(&[Add(6, b"C034", b"E")], Came::Some),
    Commit(&[Add(6, b"C045", b"F")], Came::Some),
    Commit(&[Add(6, b"C056", b"G")], Came::Some),
    Commit(&[Add(6, b"C067", b"H")], Came::Some),
    Commit(&[Add(6, b"C070", b"I")], Came::Some),
    Commit(&[Add(6, b"C078", b"J")], Came::Some),
    Commit(&[Add(6, b"C081", b"K")], Came::Some),
    Commit(&[Add(6, b"C089", b"L")], Came::Some),
    Commit(&[Add(6, b"C092", b"M")], Came::Some),
    Commit(&[Add(6, b"C100", b"N")], Came::Some),
    Commit(&[Add(6, b"C108", b"O")], Came::Some),
    Commit(&[Add(6, b"C111", b"P")], Came::Some),
    Commit(&[Add(6, b"C119", b"Q")], Came::Some),
    Commit(&[Add(6, b"C122", b"R")], Came::Some),
    Commit(&[Add(6, b"C133", b"S")], Came::Some),
    Commit(&[Add(6, b"C144", b"T")], Came::Some),
    Length(4, 4096),
    Commit(&[Add(6, b"C155", b"U")], Came::Some),
    Shows(6, ALL),
    Seal,
    Restart,
    Length(4, 4096),
    Shows(6, ALL),
    WriteAll,
    Length(4, 4608),
    Shows(6, ALL),
];

/// What the anchor has then.
const ALL: &[u8] =
    b"C001A;C009B;C012C;C023D;C034E;C045F;C056G;C067H;C070I;C078J;C081K;C089L;C092M;C100N;C108O;C111P;C119Q;C122R;C133S;C144T;C155U;";

/// A part that keeps four notes: the fifth is too many until the two oldest go.
static NOTES: [Step; 24] = [
    Commit(&[Add(6, b"C001", b"ANN")], Came::Some),
    Seal,
    Write,
    Restart,
    Commit(&[Note(6, b"C001", b"N1")], Came::Some),
    Commit(&[Note(6, b"C001", b"N2")], Came::Some),
    Seal,
    Write,
    Commit(&[Note(6, b"C001", b"N3")], Came::Some),
    Commit(&[Note(6, b"C001", b"N4")], Came::Some),
    Commit(&[Note(6, b"C001", b"N5")], Full(4, 1, 5, 1)),
    Shows(6, b"C001ANN N4 N3 N2 N1;"),
    Ends(4, 1, 5),
    Purge(4, 2, Came::Some),
    Commit(&[Note(6, b"C001", b"N6")], Came::Some),
    Shows(6, b"C001ANN N6 N4 N3;"),
    Ends(4, 3, 6),
    Ends(3, 1, 1),
    Seal,
    Restart,
    Shows(6, b"C001ANN N6 N4 N3;"),
    Ends(4, 3, 6),
    WriteAll,
    Shows(6, b"C001ANN N6 N4 N3;"),
];

/// Two customers of two areas in one commit; changes that are dropped; two notes in one commit; a customer that goes; a
/// root that is inserted anew has no notes.
static MIXED: [Step; 12] = [
    Commit(
        &[Add(6, b"C001", b"ANN"), Add(0, b"C003", b"BOB")],
        Items(&[Image(3, 1), Image(4, 4)]),
    ),
    Drops(&[Add(6, b"C009", b"EVE"), Rename(0, b"C003", b"EVE")]),
    Shows(0, b"C003BOB;"),
    Commit(
        &[
            Note(6, b"C001", b"N1"),
            Note(6, b"C001", b"N2"),
            Rename(0, b"C003", b"BEN"),
        ],
        Came::Some,
    ),
    Shows(0, b"C003BEN;"),
    Shows(6, b"C001ANN N2 N1;"),
    Commit(&[Drop(6, b"C001")], Came::Some),
    Shows(6, b""),
    Commit(&[Add(6, b"C001", b"ANN")], Came::Some),
    Shows(6, b"C001ANN;"),
    Seal,
    WriteAll,
];

/// A name that changes behind a restart: first an image of the interval, then the two bytes in which the names differ.
/// The segment stands at place 64: the element at 32, with 4 bytes of its own, two pointers and a serial before it.
/// Behind a mark there is an image again.
static IN_PLACE: [Step; 13] = [
    Commit(&[Add(6, b"C001", b"ANN")], Items(&[Image(4, 4)])),
    Seal,
    Restart,
    Commit(&[Rename(6, b"C001", b"BEN")], Items(&[Image(4, 4)])),
    Commit(
        &[Rename(6, b"C001", b"BOB")],
        Items(&[Range(4, 4, 69, b"OB")]),
    ),
    Commit(&[Rename(6, b"C001", b"BOB")], Items(&[])),
    Seal,
    Mark,
    Commit(&[Rename(6, b"C001", b"BEN")], Items(&[Image(4, 4)])),
    Commit(
        &[Rename(6, b"C001", b"BON")],
        Items(&[Range(4, 4, 69, b"O")]),
    ),
    Seal,
    WriteAll,
    Shows(6, b"C001BON;"),
];

/// How many rows of steps there are.
const ROWS: usize = 4;

/// The rows of steps, each named in a function of its own.
fn customers() -> &'static [Step; 30] {
    &CUSTOMERS
}

fn notes() -> &'static [Step] {
    &NOTES
}

fn mixed() -> &'static [Step] {
    &MIXED
}

fn in_place() -> &'static [Step] {
    &IN_PLACE
}

/// The steps of a row.
fn row_of(row: usize) -> &'static [Step] {
    match row {
        0 => &customers()[..],
        1 => notes(),
        2 => mixed(),
        _ => in_place(),
    }
}

/// The first of these steps that doesn't end well with a pool of ten, and whether there are bytes of the areas.
fn outcome(alloc: Global, exits: &Exits, steps: &[Step]) -> Result<(Option<usize>, bool), Fail> {
    let (other, bytes) = over_new(alloc, exits, 10, steps)?;
    Ok((other, !bytes.is_empty()))
}

#[test]
fn rows_come_out_as_wanted(rt: HostRuntime) -> Result<(), Fail> {
    let exits = exits(rt.alloc())?;
    for row in 0..ROWS {
        let (other, has_bytes) = outcome(rt.alloc(), &exits, row_of(row))?;
        assert!(rt; other.is_none(), "row {row}, step {}", other.unwrap_or(0));
        assert!(rt; has_bytes, "row {row}");
    }
    Ok(())
}

/// Whether these steps end well with a pool of a thousand, and one of one leaves the same bytes.
fn leave_the_same(alloc: Global, exits: &Exits, steps: &[Step]) -> Result<bool, Fail> {
    let (_, small) = over_new(alloc, exits, 1, steps)?;
    let (other, large) = over_new(alloc, exits, 1000, steps)?;
    Ok(other.is_none() && small == large)
}

#[test]
fn a_pool_of_one_makes_the_same_bytes(rt: HostRuntime) -> Result<(), Fail> {
    let exits = exits(rt.alloc())?;
    for row in 0..ROWS {
        assert!(rt;
            leave_the_same(rt.alloc(), &exits, row_of(row))?,
            "row {row}"
        );
    }
    Ok(())
}

/// The place of the commit in which the area grows.
const GROWTH: usize = 21;

/// The steps as far as that one.
fn up_to_growth() -> &'static [Step] {
    &customers()[..GROWTH + 1]
}

/// The first step that doesn't end well where the site stops behind so many calls.
fn stopped_behind(alloc: Global, exits: &Exits, calls: u64) -> Result<Option<usize>, Fail> {
    let site = MemorySite::stopping(alloc, calls)?;
    let (step, _) = first_other(alloc, exits, site, 10, up_to_growth())?;
    Ok(step)
}

/// It asks whether the data set may grow, and nothing else: all that it reads is at hand. So there is just one number
/// of calls behind which the site stops in it.
#[test]
fn a_commit_in_which_an_area_grows_asks_the_site_once(rt: HostRuntime) -> Result<(), Fail> {
    let exits = exits(rt.alloc())?;
    let mut stopped = 0u64;
    for calls in 0..100u64 {
        match stopped_behind(rt.alloc(), &exits, calls)? {
            Some(step) if step == GROWTH => stopped = stopped.saturating_add(1),
            Some(_) => {}
            None => {
                assert!(rt; stopped == 1, "stopped {stopped} times");
                return Ok(());
            }
        }
    }
    assert!(rt; false, "the run makes more calls");
    Ok(())
}
