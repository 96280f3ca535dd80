//! Keys and names whose places are known from outside, by exits that are found by their kind and count their calls.
ghost use Rattle.std.specs.Prelude.{◌≡◌};
ghost use Rattle.fp_model.specs.Exits.{route, spread};
ghost use Rattle.fp_exits.specs.Ranges.{IsRoutable, IsSpreadable};

use fp_exits::{
    Exits, Router, Routing, Spreader, Spreading, fold_group, fold_place, range_group, range_place,
};
use fp_model::{Kind, Name};
use std::alloc::{AllocError, Global};
use std::cell::Cell;
use std::rc::Rc;

const FOLD: Kind = Kind::Fold;

const RANGE: Kind = Kind::Range;

/// Range first: an exit is found by its kind, and not by its place.
const KINDS: &[Kind] = &[RANGE, FOLD];

/// A kind, a key, the number of places, and its place.
type Key = (Kind, &'static [u8], u64, u64);

static KEYS: [Key; 24] = [
    (FOLD, b"C001", 8, 6),
    (FOLD, b"C003", 8, 0),
    (FOLD, b"C009", 8, 6),
    (FOLD, b"C001", 1, 0),
    (FOLD, b"A", 65536, 65),
    (FOLD, b"A001", 65536, 18000),
    (FOLD, b"ABCDEFGH", 256, 132),
    (FOLD, b"\x00", 2, 0),
    (FOLD, b"\x7f\x7f\x7f\x7f\x7f", 2, 1),
    (FOLD, b"\xff", 65536, 255),
    (FOLD, &[255; 64], 65536, 31744),
    (FOLD, b"\x80", 2, 0),
    (RANGE, b"C001", 8, 2),
    (RANGE, b"C003", 8, 2),
    (RANGE, b"C009", 8, 2),
    (RANGE, b"C001", 1, 0),
    (RANGE, b"A", 65536, 16640),
    (RANGE, b"A001", 65536, 16688),
    (RANGE, b"ABCDEFGH", 256, 65),
    (RANGE, b"\x00", 2, 0),
    (RANGE, b"\x7f\x7f\x7f\x7f\x7f", 2, 0),
    (RANGE, b"\xff", 65536, 65280),
    (RANGE, &[255; 64], 65536, 65535),
    (RANGE, b"\x80", 2, 1),
];

/// A kind, a transaction, the number of groups, and its group.
static TRANSACTIONS: [(Kind, Name, u64, u64); 16] = [
    (FOLD, Name(*b"DEPOSIT "), 2, 0),
    (FOLD, Name(*b"WDRAW   "), 2, 1),
    (FOLD, Name(*b"ASK     "), 2, 1),
    (FOLD, Name(*b"ASK     "), 1, 0),
    (FOLD, Name(*b"WDRAW   "), 16, 11),
    (FOLD, Name(*b"        "), 16, 0),
    (FOLD, Name(*b" A S K  "), 2, 1),
    (FOLD, Name(*b"A       "), 16, 1),
    (RANGE, Name(*b"DEPOSIT "), 2, 0),
    (RANGE, Name(*b"WDRAW   "), 2, 0),
    (RANGE, Name(*b"ASK     "), 2, 0),
    (RANGE, Name(*b"ASK     "), 1, 0),
    (RANGE, Name(*b"WDRAW   "), 16, 5),
    (RANGE, Name(*b"        "), 16, 0),
    (RANGE, Name(*b" A S K  "), 2, 0),
    (RANGE, Name(*b"A       "), 16, 4),
];

/// A spreader of a kind, which counts its calls.
fn spreader(alloc: Global, kind: Kind, calls: &Rc<Cell<u64>>) -> Result<Spreader, AllocError> {
    let calls = calls.clone()?;
    let f: Spreading = Box::new(
        alloc,
        move |key: &[u8], n: u64| -> u64
            requires { IsSpreadable key.now n }
            ensures { result ≡ spread kind n key.now }
        {
            calls.set(calls.get().wrapping_add(1));
            match kind {
                Kind::Fold => fold_place(key, n),
                Kind::Range => range_place(key, n),
            }
        },
    )?;
    Ok(Spreader::new(kind, f))
}

/// A router of a kind, which counts its calls.
fn router(alloc: Global, kind: Kind, calls: &Rc<Cell<u64>>) -> Result<Router, AllocError> {
    let calls = calls.clone()?;
    let f: Routing = Box::new(
        alloc,
        move |tran: &Name, n: u64| -> u64
            requires { IsRoutable tran.now n }
            ensures { result ≡ route kind n tran.now }
        {
            calls.set(calls.get().wrapping_add(1));
            match kind {
                Kind::Fold => fold_group(tran, n),
                Kind::Range => range_group(tran, n),
            }
        },
    )?;
    Ok(Router::new(kind, f))
}

/// A spreader of each kind.
fn spreaders(alloc: Global, calls: &Rc<Cell<u64>>) -> Result<Vec<Spreader>, AllocError> {
    let mut spreaders = Vec::new(alloc);
    for kind in KINDS {
        spreaders.push(spreader(alloc, *kind, calls)?)?;
    }
    Ok(spreaders)
}

/// A router of each kind.
fn routers(alloc: Global, calls: &Rc<Cell<u64>>) -> Result<Vec<Router>, AllocError> {
    let mut routers = Vec::new(alloc);
    for kind in KINDS {
        routers.push(router(alloc, *kind, calls)?)?;
    }
    Ok(routers)
}

/// Whether the spreader of a kind gives a key this place.
fn has_place(exits: &Exits, kind: Kind, key: &[u8], n: u64, place: u64) -> bool {
    if key.is_empty() || key.len() > 64 || n < 1 || n > 65536 {
        return false;
    }
    match exits.spreader(kind) {
        Some(spreader) => spreader.place(key, n) == place,
        None => false,
    }
}

/// Whether the router of a kind gives a transaction this group.
fn has_group(exits: &Exits, kind: Kind, tran: &Name, n: u64, group: u64) -> bool {
    if n < 1 || n > 16 {
        return false;
    }
    match exits.router(kind) {
        Some(router) => router.group(tran, n) == group,
        None => false,
    }
}

fn keys() -> &'static [Key] {
    &KEYS
}

/// The first key that has another place than it is to have.
fn first_other_key(exits: &Exits) -> Option<usize> {
    for (at, (kind, key, n, place)) in keys().iter().enumerate() {
        if !has_place(exits, *kind, key, *n, *place) {
            return Some(at);
        }
    }
    None
}

/// The first transaction that has another group than it is to have.
fn first_other_transaction(exits: &Exits) -> Option<usize> {
    for (at, (kind, tran, n, group)) in TRANSACTIONS.iter().enumerate() {
        if !has_group(exits, *kind, tran, *n, *group) {
            return Some(at);
        }
    }
    None
}

/// What is wrong with exits of each kind, whose functions are called once for each row: a key, or else a transaction.
fn wrong_of(exits: &Exits, calls: &Rc<Cell<u64>>) -> (&'static str, Option<usize>) {
    let key = first_other_key(exits);
    if key.is_some() || calls.get() != 24 {
        return ("key", key);
    }
    let transaction = first_other_transaction(exits);
    if transaction.is_some() || calls.get() != 40 {
        return ("transaction", transaction);
    }
    ("", None)
}

#[test]
fn keys_and_transactions_have_the_places_of_the_kinds(rt: HostRuntime) -> Result<(), AllocError> {
    let calls = Rc::new(rt.alloc(), Cell::new(0u64))?;
    let exits = Exits::new(spreaders(rt.alloc(), &calls)?, routers(rt.alloc(), &calls)?);
    let (of, wrong) = wrong_of(&exits, &calls);
    assert!(rt; of.is_empty(), "{of} {wrong:?}");
    Ok(())
}
