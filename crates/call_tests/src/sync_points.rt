//! Drafts committed one after another: what the log and the databases have behind each.
ghost use Rattle.fp_model.specs.FitCalls.{IsFitDeferred};
ghost use Rattle.fp_model.specs.LogText.{FitsEntry, FitsFront, KeepsRules};
ghost use Rattle.fp_model.specs.State.{key_length};
ghost use Rattle.fp_model.specs.WellFormed.{IsMsdbDef};
ghost use Rattle.fp_model.specs.declared.definitions.MsdbDef.{MsdbDef as DefOf};
ghost use Rattle.log_groups.specs.Images.{as_front};
ghost use Rattle.msdb_store.specs.Store.{IsOf};
ghost use Rattle.std.specs.List.{AllByRecursion};
ghost use Rattle.std.specs.Prelude.{◌≡◌, ◌<◌, ◌^◌, ◌∷◌, [], IfOk, List as ListOf, length};

use crate::accounts::{defs, field_call, insert};
use crate::queues::Action::{Add, Insert, Verify};
use crate::queues::{A, B, C, Step, has_segments, queue};
use fp_model::{Bytes, Deferred, Defs, Entry, List, Outcome, Resource};
use fp_site::Site;
use log_groups::{Front, Log, LogFault};
use memory_site::MemorySite;
use msdb_store::MsdbStore;
use std::alloc::{AllocError, Global};
use std::test::Fail;
use sync_point::{Cause, Draft, append_beside, commit, refusal_room, resources};

// ---- logs

fn front(alloc: Global) -> Result<Front, AllocError>
    ensures { IfOk result (λ front. FitsFront (as_front front)) }
{
    let defs = Bytes::from_slice(alloc, b"D")?;
    Ok(Front {
        format: 1,
        defs,
        scripts: Bytes::new(alloc),
    })
}

// The log of a front on any site, made anew.
fn made<S: Site>(alloc: Global, site: &mut S, front: &Front) -> Result<Log, LogFault>
    requires { FitsFront (as_front front.now) }
{
    Log::make(alloc, site, front)?;
    Log::open(alloc, site, front)
}

// A log without entries.
fn empty_log(alloc: Global) -> Result<Log, LogFault> {
    let front = front(alloc)?;
    let mut site = MemorySite::new(alloc, &[])?;
    let log = made(alloc, &mut site, &front);
    drop(site);
    drop(front);
    log
}

// ---- drafts

// A draft of two calls, how many items its entry has or which call fails with which bytes found, and behind it how many
// entries the log has, and all segments.
struct Row {
    calls: [Step; 2],
    wanted: Result<usize, (u32, u16, &'static [u8])>,
    entries: u64,
    segments: &'static [u8],
}

// What the log keeps free.
const ROOM: u64 = 500;

static ROWS: [Row; 4] = [
    Row {
        calls: [Step(Insert, A, 100), Step(Add, A, 10)],
        wanted: Ok(1),
        entries: 1,
        segments: b"A001\x00\x00\x11\x0c",
    },
    Row {
        calls: [Step(Verify, A, 110), Step(Add, A, 20)],
        wanted: Ok(1),
        entries: 2,
        segments: b"A001\x00\x00\x13\x0c",
    },
    Row {
        calls: [Step(Add, A, 20), Step(Verify, A, 151)],
        wanted: Err((1, 0, b"\x00\x00\x15\x0c")),
        entries: 2,
        segments: b"A001\x00\x00\x13\x0c",
    },
    Row {
        calls: [Step(Insert, C, 5), Step(Add, A, 1)],
        wanted: Ok(2),
        entries: 3,
        segments: b"A001\x00\x00\x13\x1cC003\x00\x00\x00\x5c",
    },
];

fn draft(alloc: Global, from: u64, row: &Row) -> Result<Draft, AllocError>
    ensures fit { (defs : ListOf DefOf) → (def : DefOf) → defs ≡ def ∷ [] → def.length ≡ 8
        → key_length def.fields ≡ 4 → IfOk result (λ draft. AllByRecursion (IsFitDeferred defs) draft.deferred) }
    ensures line { IfOk result (λ draft. length draft.line < 2 ^ 16) }
    ensures reply { IfOk result (λ draft. length draft.reply < 2 ^ 16) }
{
    let deferred = queue(alloc, row.calls)?;
    let line = Bytes::from_slice(alloc, b"T1 MOVE")?;
    let reply = Bytes::from_slice(alloc, b"DONE")?;
    Ok(Draft {
        from,
        line,
        reply,
        notes: List::new(alloc),
        deferred,
    })
}

// Commits the draft of a row: how many items, or which call fails.
fn committed(alloc: Global, store: &mut MsdbStore, log: &mut Log, row: &Row) -> Result<usize, Cause>
    requires { (defs : ListOf DefOf) × (def : DefOf) × (defs ≡ def ∷ []) × IsMsdbDef def × (def.length ≡ 8)
        × (key_length def.fields ≡ 4) × IsOf defs store.old }
    ensures { (defs : ListOf DefOf) → (def : DefOf) → defs ≡ def ∷ [] → IsMsdbDef def → def.length ≡ 8
        → key_length def.fields ≡ 4 → IsOf defs store.old → IsOf defs store.new }
{
    let draft = draft(alloc, log.count(), row)?;
    match commit(draft, store, log) {
        Ok(entry) => Ok(entry.items.len()),
        Err(cause) => Err(cause),
    }
}

// Whether a commit answers as a row says.
fn is_wanted(found: &Result<usize, Cause>, row: &Row) -> bool {
    match (found, &row.wanted) {
        (Ok(items), Ok(wanted)) => items == wanted,
        (Err(Cause::Verify { call, fsa, found }), Err((c, f, bytes))) => {
            call == c && fsa == f && found.as_slice() == *bytes
        }
        _ => false,
    }
}

// Commits the draft of a row. Whether log and databases come to what is wanted, and the log keeps its room.
fn goes(alloc: Global, store: &mut MsdbStore, log: &mut Log, row: &Row) -> Result<bool, Cause>
    requires { (defs : ListOf DefOf) × (def : DefOf) × (defs ≡ def ∷ []) × IsMsdbDef def × (def.length ≡ 8)
        × (key_length def.fields ≡ 4) × IsOf defs store.old }
    ensures { (defs : ListOf DefOf) → (def : DefOf) → defs ≡ def ∷ [] → IsMsdbDef def → def.length ≡ 8
        → key_length def.fields ≡ 4 → IsOf defs store.old → IsOf defs store.new }
{
    let found = committed(alloc, store, log, row);
    let is_wanted = is_wanted(&found, row);
    drop(found);
    Ok(
        is_wanted
            && log.count() == row.entries
            && log.spare() >= ROOM
            && has_segments(alloc, store, row.segments)?,
    )
}

// The rows. The check pays for a table in each function that names it.
fn rows() -> &'static [Row] {
    &ROWS
}

// The first row that comes to something else, on a store of these definitions and a log; the number of rows where there
// is none.
fn first_other(
    alloc: Global,
    defs: &Defs,
    store: &mut MsdbStore,
    log: &mut Log,
) -> Result<usize, Cause>
    requires one { (def : DefOf) × (defs.now.msdbs ≡ def ∷ []) × IsMsdbDef def × (def.length ≡ 8)
        × (key_length def.fields ≡ 4) }
    requires store { IsOf defs.now.msdbs store.old }
{
    let rows = rows();
    for (place, row) in rows.iter().enumerate() {
        if !goes(alloc, store, log, row)? {
            return Ok(place);
        }
    }
    Ok(rows.len())
}

// A log without entries that keeps its room.
fn roomy_log(alloc: Global) -> Result<Log, LogFault> {
    let mut log = empty_log(alloc)?;
    log.reserve(ROOM)?;
    Ok(log)
}

// The same on a store and a log without entries.
fn first_other_draft(alloc: Global) -> Result<usize, Fail> {
    let defs = defs(alloc, true)?;
    let mut store = MsdbStore::start(alloc, &defs)?;
    let mut log = roomy_log(alloc)?;
    let other = first_other(alloc, &defs, &mut store, &mut log);
    drop(log);
    drop(store);
    drop(defs);
    Ok(other?)
}

#[test]
fn drafts_come_to_what_is_wanted(rt: HostRuntime) -> Result<(), Fail> {
    let place = first_other_draft(rt.alloc())?;
    assert!(rt; place == rows().len(), "row {place}");
    Ok(())
}

// ---- segments

// A queue of field calls on these keys, with an insert behind them.
fn field_calls(alloc: Global, keys: [[u8; 4]; 4]) -> Result<List<Deferred>, AllocError> {
    let mut calls = List::new(alloc);
    for key in keys {
        calls.push(field_call(alloc, key, b'+', b"1")?)?;
    }
    calls.push(insert(alloc, *b"D004\x00\x00\x00\x0c")?)?;
    Ok(calls)
}

// The numbers and keys of segments, one after another.
fn text_of(alloc: Global, named: &List<Resource>) -> Result<Bytes, AllocError> {
    let mut text = Bytes::new(alloc);
    for resource in named.as_slice() {
        if let Resource::Segment { msdb, key } = resource {
            text.push(*msdb)?;
            text.append(key.as_slice())?;
        }
    }
    Ok(text)
}

#[test]
fn a_queue_names_each_segment_once(rt: HostRuntime) -> Result<(), Fail> {
    let alloc = rt.alloc();
    let calls = field_calls(alloc, [B, A, C, A])?;
    let named = resources(alloc, &calls);
    drop(calls);
    let named = named?;
    let text = text_of(alloc, &named);
    drop(named);
    let text = text?;
    assert!(rt; text.as_slice() == b"\x00A001\x00B002\x00C003".as_slice());
    Ok(())
}

// ---- refusals

// The entry of a line that is refused for want of memory.
fn refusal(alloc: Global, line: Bytes) -> Entry
    requires { length line < 2 ^ 16 }
    ensures rules { KeepsRules result }
    ensures fits { FitsEntry result }
{
    Entry {
        from: 0,
        outcome: Outcome::Memory,
        line,
        reply: Bytes::new(alloc),
        notes: List::new(alloc),
        items: List::new(alloc),
    }
}

// Appends the refusal of a line to a log.
fn append_refusal(alloc: Global, log: &mut Log, line: Bytes) -> Result<(), AllocError>
    requires { length line < 2 ^ 16 }
{
    let entry = refusal(alloc, line);
    let appended = append_beside(log, &entry, 0);
    drop(entry);
    appended
}

// Appends the refusal of a line to a log without entries that keeps just its room free. The room, how many entries the
// log has then, and what it keeps free.
fn refused(alloc: Global, log: &mut Log) -> Result<[u64; 3], LogFault> {
    let line = Bytes::from_slice(alloc, b"T1 MOVE")?;
    let room = refusal_room(&line);
    log.reserve(room)?;
    append_refusal(alloc, log, line)?;
    Ok([room, log.count(), log.spare()])
}

#[test]
fn a_refusal_fills_its_room(rt: HostRuntime) -> Result<(), Fail> {
    let mut log = empty_log(rt.alloc())?;
    let refused = refused(rt.alloc(), &mut log);
    drop(log);
    assert!(rt; refused? == [36, 1, 0]);
    Ok(())
}
