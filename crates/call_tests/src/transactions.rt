//! Statuses, letters, notes and queues of short transactions, written by hand from the rules.
ghost use Rattle.fp_model.specs.FitCalls.{IsFsaList, IsMsdbCall};
ghost use Rattle.fp_model.specs.MsdbCalls.{key_named};
ghost use Rattle.fp_model.specs.State.{key_length};
ghost use Rattle.fp_model.specs.WellFormed.{IsMsdbDef};
ghost use Rattle.fp_model.specs.declared.definitions.MsdbDef.{MsdbDef as DefOf};
ghost use Rattle.msdb_store.specs.Store.{IsOf};
ghost use Rattle.std.specs.List.{AllByRecursion};
ghost use Rattle.std.specs.Prelude.{◌≡◌, ◌∷◌, [], IfOk, IfSome, length};
ghost use Rattle.dli_calls.specs.Progress.{IsWorkOf};

use crate::accounts::{argument, defs};
use ci_locks::Locks;
use dli_calls::{Ready, Work, answer};
use fp_exits::Exits;
use fp_model::{Bytes, Call, Defs, Get, List, Msdb, Name, Ssa};
use msdb_store::MsdbStore;
use std::alloc::{AllocError, Global};
use std::test::Fail;

// 100 in A001, 50 in A002, no number in A003.
fn store(alloc: Global, defs: &Defs) -> Result<MsdbStore, AllocError>
    requires { (def : DefOf) × (defs.now.msdbs ≡ def ∷ []) × IsMsdbDef def × (def.length ≡ 8)
        × (key_length def.fields ≡ 4) }
    ensures { IfOk result (IsOf defs.now.msdbs) }
{
    let mut segments = List::new(alloc);
    segments.push(Bytes::from_slice(alloc, b"A001\x00\x00\x10\x0c")?)?;
    segments.push(Bytes::from_slice(alloc, b"A002\x00\x00\x05\x0c")?)?;
    segments.push(Bytes::from_slice(alloc, b"A003\xff\xff\xff\xff")?)?;
    let mut msdbs = List::new(alloc);
    msdbs.push(Msdb { segments })?;
    MsdbStore::new(alloc, defs, msdbs)
}

// A call of a short transaction.
enum Step {
    Get(Get, bool, Option<[u8; 4]>),
    // At least 60, and less 60.
    Withdraw([u8; 4]),
    // One field search argument: of a key, on a field, an operation, its operand.
    Fld([u8; 4], [u8; 8], u8, [u8; 7]),
    Repl([u8; 8]),
    Isrt([u8; 8]),
    Dlet,
}

fn ssas(alloc: Global, key: &Option<[u8; 4]>) -> Result<List<Ssa>, AllocError>
    ensures { IfOk result (λ ssas. IfSome (key_named ssas) (λ key. length key ≡ 4)) }
{
    let mut ssas = List::new(alloc);
    if let Some(key) = key {
        ssas.push(Ssa {
            segment: 0,
            key: Some(Bytes::from_slice(alloc, key)?),
        })?;
    }
    Ok(ssas)
}

fn withdrawal(alloc: Global) -> Result<Bytes, AllocError>
    ensures { IfOk result IsFsaList }
{
    Bytes::from_slice(alloc, b"BAL      H\x00\x0260*BAL      -\x00\x0260 ")
}

fn call_of(alloc: Global, defs: &Defs, step: &Step) -> Result<Call, AllocError>
    requires { (def : DefOf) × (defs.now.msdbs ≡ def ∷ []) × IsMsdbDef def × (def.length ≡ 8)
        × (key_length def.fields ≡ 4) }
    ensures { IfOk result (IsMsdbCall defs.now.msdbs) }
{
    match step {
        Step::Get(get, hold, key) => Ok(Call::Get {
            get: *get,
            hold: *hold,
            db: 0,
            ssas: ssas(alloc, key)?,
        }),
        Step::Withdraw(key) => Ok(Call::Fld {
            db: 0,
            key: Bytes::from_slice(alloc, key)?,
            fsas: withdrawal(alloc)?,
        }),
        Step::Fld(key, name, op, operand) => Ok(Call::Fld {
            db: 0,
            key: Bytes::from_slice(alloc, key)?,
            fsas: argument(alloc, Name(*name), *op, operand)?,
        }),
        Step::Repl(bytes) => Ok(Call::Repl {
            db: 0,
            bytes: Bytes::from_slice(alloc, bytes)?,
        }),
        Step::Isrt(bytes) => Ok(Call::Isrt {
            db: 0,
            ssas: List::new(alloc),
            bytes: Bytes::from_slice(alloc, bytes)?,
        }),
        Step::Dlet => Ok(Call::Dlet { db: 0 }),
    }
}

// What a transaction was answered and keeps: the statuses and letters one behind another, ND where a lock was needed
// first, and how many notes and deferred calls there are.
#[derive(Drop)]
struct Run {
    statuses: Bytes,
    letters: Bytes,
    notes: usize,
    queued: usize,
}

// The only region.
const REGION: u8 = 1;

// Puts an answer to the others. A lock that is needed is asked for.
fn take(locks: &mut Locks, ready: &Ready, run: &mut Run) -> Result<bool, AllocError>
    requires { length locks.old ≡ 1 }
    ensures { length locks.new ≡ 1 }
{
    match ready {
        Ready::Answer(answer) => {
            run.statuses.append(&answer.status)?;
            run.letters.append(answer.letters.as_slice())?;
            Ok(true)
        }
        Ready::Need(resource, mode) => {
            run.statuses.append(b"ND")?;
            locks.ask(REGION, resource, *mode)?;
            Ok(false)
        }
    }
}

// Asks a call once. Whether it was answered.
fn ask_once(
    alloc: Global,
    work: &mut Work,
    locks: &mut Locks,
    call: &Call,
    store: &MsdbStore,
    defs: &Defs,
    exits: &Exits,
    run: &mut Run,
) -> Result<bool, AllocError>
    requires defs { AllByRecursion IsMsdbDef defs.now.msdbs }
    requires alone { defs.now.dedbs ≡ [] }
    requires store { IsOf defs.now.msdbs store.now }
    requires work { IsWorkOf defs.now work.old }
    requires call { IsMsdbCall defs.now.msdbs call.now }
    requires locks { length locks.old ≡ 1 }
    ensures work { IsWorkOf defs.now work.new }
    ensures locks { length locks.new ≡ 1 }
{
    let ready = answer(alloc, work, call, store, defs, exits, locks, REGION, 7)?;
    let taken = take(locks, &ready, run);
    drop(ready);
    taken
}

// Asks a call, and once more where it needed a lock.
fn ask(
    alloc: Global,
    work: &mut Work,
    locks: &mut Locks,
    call: &Call,
    store: &MsdbStore,
    defs: &Defs,
    exits: &Exits,
    run: &mut Run,
) -> Result<(), AllocError>
    requires defs { AllByRecursion IsMsdbDef defs.now.msdbs }
    requires alone { defs.now.dedbs ≡ [] }
    requires store { IsOf defs.now.msdbs store.now }
    requires work { IsWorkOf defs.now work.old }
    requires call { IsMsdbCall defs.now.msdbs call.now }
    requires locks { length locks.old ≡ 1 }
    ensures work { IsWorkOf defs.now work.new }
    ensures locks { length locks.new ≡ 1 }
{
    if !ask_once(alloc, work, locks, call, store, defs, exits, run)? {
        ask_once(alloc, work, locks, call, store, defs, exits, run)?;
    }
    Ok(())
}

// Asks the calls of these steps, one after another.
fn ask_all(
    alloc: Global,
    work: &mut Work,
    locks: &mut Locks,
    steps: &[Step],
    store: &MsdbStore,
    defs: &Defs,
    exits: &Exits,
    run: &mut Run,
) -> Result<(), AllocError>
    requires defs { AllByRecursion IsMsdbDef defs.now.msdbs }
    requires alone { defs.now.dedbs ≡ [] }
    requires one { (def : DefOf) × (defs.now.msdbs ≡ def ∷ []) × IsMsdbDef def × (def.length ≡ 8)
        × (key_length def.fields ≡ 4) }
    requires store { IsOf defs.now.msdbs store.now }
    requires work { IsWorkOf defs.now work.old }
    requires locks { length locks.old ≡ 1 }
{
    for step in steps {
        let call = call_of(alloc, defs, step)?;
        ask(alloc, work, locks, &call, store, defs, exits, run)?;
    }
    run.notes = work.notes().len();
    run.queued = work.deferred().len();
    Ok(())
}

// Runs a transaction of these steps on a store, where there are no exits.
fn run_on(
    alloc: Global,
    steps: &[Step],
    store: &MsdbStore,
    defs: &Defs,
    run: &mut Run,
) -> Result<(), AllocError>
    requires defs { AllByRecursion IsMsdbDef defs.now.msdbs }
    requires alone { defs.now.dedbs ≡ [] }
    requires one { (def : DefOf) × (defs.now.msdbs ≡ def ∷ []) × IsMsdbDef def × (def.length ≡ 8)
        × (key_length def.fields ≡ 4) }
    requires store { IsOf defs.now.msdbs store.now }
{
    let exits = Exits::new(Vec::new(alloc), Vec::new(alloc));
    let mut work = Work::new(alloc, defs)?;
    let mut locks = Locks::new(alloc, REGION)?;
    let asked = ask_all(
        alloc, &mut work, &mut locks, steps, store, defs, &exits, run,
    );
    drop(locks);
    drop(work);
    drop(exits);
    asked
}

// The same on the store above.
fn run_of(alloc: Global, dynamic: bool, steps: &[Step], run: &mut Run) -> Result<(), AllocError> {
    let defs = defs(alloc, dynamic)?;
    let store = store(alloc, &defs)?;
    let asked = run_on(alloc, steps, &store, &defs, run);
    drop(store);
    drop(defs);
    asked
}

// GU of a key, GU without one, GN up to the end, and gets that a main storage database doesn't have.
const GETS: &[Step] = &[
    Step::Get(Get::Unique, false, Some(*b"A002")),
    Step::Get(Get::Next, false, None),
    Step::Get(Get::Next, false, None),
    Step::Get(Get::Unique, false, Some(*b"A009")),
    Step::Get(Get::Unique, false, None),
    Step::Get(Get::Next, false, None),
    Step::Get(Get::Next, true, None),
    Step::Get(Get::NextInParent, false, None),
    Step::Get(Get::Unique, true, None),
];

// A segment is replaced while it is held, and each answered call ends the hold.
const REPLACING: &[Step] = &[
    Step::Repl(*b"A001\x00\x00\x20\x0c"),
    Step::Get(Get::Unique, true, Some(*b"A001")),
    Step::Repl(*b"A004\x00\x00\x20\x0c"),
    Step::Repl(*b"A001\x00\x00\x20\x0c"),
    Step::Get(Get::Unique, true, Some(*b"A001")),
    Step::Repl(*b"A001\x00\x00\x20\x0c"),
    Step::Get(Get::Unique, true, Some(*b"A009")),
    Step::Dlet,
    Step::Isrt(*b"A004\x00\x00\x20\x0c"),
];

// A withdrawal of 60 from 50 is answered FE with D and a blank, and from 100 it is queued; it isn't seen before.
const WITHDRAWALS: &[Step] = &[
    Step::Withdraw(*b"A002"),
    Step::Withdraw(*b"A001"),
    Step::Withdraw(*b"A001"),
    Step::Withdraw(*b"A009"),
];

// Each letter once.
const LETTERS: &[Step] = &[
    Step::Fld(*b"A001", *b"BAL     ", b'*', *b"0000001"),
    Step::Fld(*b"A001", *b"NONE    ", b'=', *b"0000001"),
    Step::Fld(*b"A001", *b"ACCT    ", b'=', *b"0000001"),
    Step::Fld(*b"A001", *b"BAL     ", b'+', *b"SEVEN  "),
    Step::Fld(*b"A003", *b"BAL     ", b'+', *b"0000001"),
    Step::Fld(*b"A001", *b"BAL     ", b'E', *b"0000001"),
    Step::Fld(*b"A001", *b"BAL     ", b'+', *b"9999999"),
    Step::Fld(*b"A001", *b"BAL     ", b'+', *b"0000001"),
];

// A key that was inserted or deleted is changed no more, and the segments are still seen as they were.
const INSERTS_AND_DELETES: &[Step] = &[
    Step::Isrt(*b"A004\x00\x00\x20\x0c"),
    Step::Isrt(*b"A004\x00\x00\x20\x0c"),
    Step::Isrt(*b"A001\x00\x00\x20\x0c"),
    Step::Get(Get::Unique, false, Some(*b"A004")),
    Step::Dlet,
    Step::Get(Get::Unique, true, Some(*b"A001")),
    Step::Dlet,
    Step::Withdraw(*b"A001"),
    Step::Get(Get::Unique, true, Some(*b"A001")),
    Step::Repl(*b"A001\x00\x00\x20\x0c"),
];

// A transaction of some calls, what they are answered, and how many notes and deferred calls it has behind them.
struct Scenario {
    dynamic: bool,
    steps: &'static [Step],
    statuses: &'static [u8],
    letters: &'static [u8],
    notes: usize,
    queued: usize,
}

static SCENARIOS: [Scenario; 5] = [
    Scenario {
        dynamic: false,
        steps: GETS,
        statuses: b"    GBGE    AMAMAM",
        letters: b"",
        notes: 6,
        queued: 0,
    },
    Scenario {
        dynamic: false,
        steps: REPLACING,
        statuses: b"DJND  DADJ    NDGEAMAM",
        letters: b"",
        notes: 0,
        queued: 1,
    },
    Scenario {
        dynamic: false,
        steps: WITHDRAWALS,
        statuses: b"FE    GE",
        letters: b"D     ",
        notes: 4,
        queued: 2,
    },
    Scenario {
        dynamic: false,
        steps: LETTERS,
        statuses: b"FEFEFEFEFEFEFE  ",
        letters: b"AHCBEDG ",
        notes: 8,
        queued: 1,
    },
    Scenario {
        dynamic: true,
        steps: INSERTS_AND_DELETES,
        statuses: b"ND  XPNDIIGEDJ    XP  XP",
        letters: b"",
        notes: 1,
        queued: 2,
    },
];

// Whether a transaction comes to what is wanted.
fn goes(alloc: Global, wanted: &Scenario) -> Result<bool, AllocError> {
    let mut run = Run {
        statuses: Bytes::new(alloc),
        letters: Bytes::new(alloc),
        notes: 0,
        queued: 0,
    };
    run_of(alloc, wanted.dynamic, wanted.steps, &mut run)?;
    Ok(
        run.statuses.as_slice() == wanted.statuses
            && run.letters.as_slice() == wanted.letters
            && run.notes == wanted.notes
            && run.queued == wanted.queued,
    )
}

#[test]
fn each_transaction_is_answered_as_wanted(rt: HostRuntime) -> Result<(), Fail> {
    for (place, wanted) in SCENARIOS.iter().enumerate() {
        assert!(rt; goes(rt.alloc(), wanted)?, "transaction {place}");
    }
    Ok(())
}
