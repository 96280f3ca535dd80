//! Queues of calls settled on a store, worked out by hand. Drawn ones are data of programs above.
ghost use Rattle.fp_model.specs.FitCalls.{IsFitDeferred};
ghost use Rattle.fp_model.specs.State.{key_length};
ghost use Rattle.fp_model.specs.WellFormed.{IsMsdbDef};
ghost use Rattle.fp_model.specs.declared.definitions.MsdbDef.{MsdbDef as DefOf};
ghost use Rattle.msdb_store.specs.Settling.{CanSettle};
ghost use Rattle.msdb_store.specs.Store.{IsOf};
ghost use Rattle.std.specs.List.{AllByRecursion};
ghost use Rattle.std.specs.Prelude.{◌≡◌, ◌<◌, ◌^◌, ◌∷◌, [], IfOk, List as ListOf, length};

use self::Action::{Add, Delete, Insert, Verify};
use crate::accounts::{defs, delete, field_call, insert};
use fp_model::{Bytes, Deferred, Defs, List};
use msdb_store::{MsdbStore, VerifyFault};
use std::alloc::{AllocError, Global};
use std::test::Fail;

// The most that a balance of 7 digits holds.
const MOST: u32 = 9_999_999;

// ---- the calls

#[derive(Clone, Copy)]
pub(crate) enum Action {
    Insert,
    Delete,
    Add,
    // Verifies that the balance is no less.
    Verify,
}

/// A call: what it does to the account of a key, with which amount.
#[derive(Clone, Copy)]
pub(crate) struct Step(pub(crate) Action, pub(crate) [u8; 4], pub(crate) u32);

// The digit of an amount at a unit.
fn digit(amount: u32, unit: u32) -> u8
    requires { 0 < unit }
    ensures { result < 10 }
{
    (amount / unit % 10) as u8
}

// An amount as the operand of a field search argument.
fn operand(amount: u32) -> [u8; 7] {
    [
        b'0' + digit(amount, 1_000_000),
        b'0' + digit(amount, 100_000),
        b'0' + digit(amount, 10_000),
        b'0' + digit(amount, 1_000),
        b'0' + digit(amount, 100),
        b'0' + digit(amount, 10),
        b'0' + digit(amount, 1),
    ]
}

// An amount packed, with the sign C.
fn packed(amount: u32) -> [u8; 4] {
    [
        digit(amount, 1_000_000) * 16 + digit(amount, 100_000),
        digit(amount, 10_000) * 16 + digit(amount, 1_000),
        digit(amount, 100) * 16 + digit(amount, 10),
        digit(amount, 1) * 16 + 0x0c,
    ]
}

// An account as its segment has it.
fn segment(key: [u8; 4], amount: u32) -> [u8; 8] {
    let [a, b, c, d] = key;
    let [e, f, g, h] = packed(amount);
    [a, b, c, d, e, f, g, h]
}

fn call(alloc: Global, step: Step) -> Result<Deferred, AllocError>
    ensures { (defs : ListOf DefOf) → (def : DefOf) → defs ≡ def ∷ [] → def.length ≡ 8
        → key_length def.fields ≡ 4 → IfOk result (IsFitDeferred defs) }
{
    let Step(action, key, amount) = step;
    match action {
        Insert => insert(alloc, segment(key, amount)),
        Delete => delete(alloc, key),
        Add => field_call(alloc, key, b'+', &operand(amount)),
        Verify => field_call(alloc, key, b'H', &operand(amount)),
    }
}

/// A queue of two calls.
pub(crate) fn queue(alloc: Global, calls: [Step; 2]) -> Result<List<Deferred>, AllocError>
    ensures fit { (defs : ListOf DefOf) → (def : DefOf) → defs ≡ def ∷ [] → def.length ≡ 8
        → key_length def.fields ≡ 4 → IfOk result (AllByRecursion (IsFitDeferred defs)) }
    ensures few { IfOk result (λ queue. length queue < 2 ^ 32) }
{
    let [first, second] = calls;
    let mut queue = List::new(alloc);
    queue.push(call(alloc, first)?)?;
    queue.push(call(alloc, second)?)?;
    Ok(queue)
}

// Settles a queue, and gives the databases what it comes to. How many items it has.
fn settle(store: &mut MsdbStore, queue: &List<Deferred>) -> Result<usize, VerifyFault>
    requires fit { (defs : ListOf DefOf) × CanSettle defs store.old queue.now }
    requires few { length queue.now < 2 ^ 32 }
    ensures { (defs : ListOf DefOf) → CanSettle defs store.old queue.now → IsOf defs store.new }
{
    let staged = store.check(queue)?;
    store.reserve(staged.inserts())?;
    let items = staged.items()?.len();
    store.publish(staged);
    Ok(items)
}

// Settles a queue of two calls on the store: how many items, or which call fails.
fn settled(alloc: Global, store: &mut MsdbStore, calls: [Step; 2]) -> Result<usize, VerifyFault>
    requires { (defs : ListOf DefOf) × (def : DefOf) × (defs ≡ def ∷ []) × IsMsdbDef def × (def.length ≡ 8)
        × (key_length def.fields ≡ 4) × IsOf defs store.old }
    ensures { (defs : ListOf DefOf) → (def : DefOf) → defs ≡ def ∷ [] → IsMsdbDef def → def.length ≡ 8
        → key_length def.fields ≡ 4 → IsOf defs store.old → IsOf defs store.new }
{
    let queue = queue(alloc, calls)?;
    settle(store, &queue)
}

// ---- queues by hand

// A queue of two calls, how many items it has or which call fails with which bytes found, and all segments behind it.
struct Row {
    calls: [Step; 2],
    wanted: Result<usize, (u32, u16, &'static [u8])>,
    segments: &'static [u8],
}

pub(crate) const A: [u8; 4] = *b"A001";

pub(crate) const B: [u8; 4] = *b"B002";

pub(crate) const C: [u8; 4] = *b"C003";

static ROWS: [Row; 6] = [
    Row {
        calls: [Step(Insert, A, 100), Step(Add, A, 10)],
        wanted: Ok(1),
        segments: b"A001\x00\x00\x11\x0c",
    },
    Row {
        calls: [Step(Insert, B, 0), Step(Delete, B, 0)],
        wanted: Ok(1),
        segments: b"A001\x00\x00\x11\x0c",
    },
    // An insert over a segment that stands, and a delete of one that doesn't.
    Row {
        calls: [Step(Insert, A, 110), Step(Delete, C, 0)],
        wanted: Ok(2),
        segments: b"A001\x00\x00\x11\x0c",
    },
    Row {
        calls: [Step(Add, C, 1), Step(Insert, C, 100)],
        wanted: Err((0, 65_535, b"")),
        segments: b"A001\x00\x00\x11\x0c",
    },
    Row {
        calls: [Step(Insert, C, 100), Step(Verify, C, 101)],
        wanted: Err((1, 0, b"\x00\x00\x10\x0c")),
        segments: b"A001\x00\x00\x11\x0c",
    },
    Row {
        calls: [Step(Insert, C, MOST), Step(Add, C, 1)],
        wanted: Err((1, 0, b"\x99\x99\x99\x9c")),
        segments: b"A001\x00\x00\x11\x0c",
    },
];

// Whether the store tells this outcome of a row.
fn is_wanted(found: &Result<usize, VerifyFault>, row: &Row) -> bool {
    match (found, &row.wanted) {
        (Ok(items), Ok(wanted)) => items == wanted,
        (Err(VerifyFault::Verify { call, fsa, found }), Err((c, f, bytes))) => {
            call == c && fsa == f && found.as_slice() == *bytes
        }
        _ => false,
    }
}

// The segments of the one database, one after another.
fn segments(alloc: Global, store: &MsdbStore) -> Result<Bytes, AllocError> {
    let mut text = Bytes::new(alloc);
    for msdb in store.databases(alloc)?.as_slice() {
        for segment in msdb.segments.as_slice() {
            text.append(segment.as_slice())?;
        }
    }
    Ok(text)
}

/// Whether the one database has these segments, one after another.
pub(crate) fn has_segments(
    alloc: Global,
    store: &MsdbStore,
    wanted: &[u8],
) -> Result<bool, AllocError> {
    let text = segments(alloc, store)?;
    Ok(text.as_slice() == wanted)
}

// Settles the queue of a row on the store. Whether it comes to what is wanted.
fn goes(alloc: Global, store: &mut MsdbStore, row: &Row) -> Result<bool, VerifyFault>
    requires { (defs : ListOf DefOf) × (def : DefOf) × (defs ≡ def ∷ []) × IsMsdbDef def × (def.length ≡ 8)
        × (key_length def.fields ≡ 4) × IsOf defs store.old }
    ensures { (defs : ListOf DefOf) → (def : DefOf) → defs ≡ def ∷ [] → IsMsdbDef def → def.length ≡ 8
        → key_length def.fields ≡ 4 → IsOf defs store.old → IsOf defs store.new }
{
    let found = settled(alloc, store, row.calls);
    let is_wanted = is_wanted(&found, row);
    drop(found);
    Ok(is_wanted && has_segments(alloc, store, row.segments)?)
}

// The first row that comes to something else on a store of these definitions.
fn first_other(
    alloc: Global,
    defs: &Defs,
    store: &mut MsdbStore,
) -> Result<Option<usize>, VerifyFault>
    requires one { (def : DefOf) × (defs.now.msdbs ≡ def ∷ []) × IsMsdbDef def × (def.length ≡ 8)
        × (key_length def.fields ≡ 4) }
    requires store { IsOf defs.now.msdbs store.old }
{
    for (place, row) in ROWS.iter().enumerate() {
        if !goes(alloc, store, row)? {
            return Ok(Some(place));
        }
    }
    Ok(None)
}

// The same on a store that is made.
fn first_other_row(alloc: Global) -> Result<Option<usize>, Fail> {
    let defs = defs(alloc, true)?;
    let mut store = MsdbStore::start(alloc, &defs)?;
    let other = first_other(alloc, &defs, &mut store);
    drop(store);
    drop(defs);
    Ok(other?)
}

// Calls meet what those before them left, and the first failure is told.
#[test]
fn queues_come_to_what_is_wanted(rt: HostRuntime) -> Result<(), Fail> {
    let other = first_other_row(rt.alloc())?;
    assert!(rt; other.is_none(), "row {other:?}");
    Ok(())
}
