//! Segment types on four levels, three direct ones below the root, and an anchor that is made by calls.
ghost use Rattle.dli_tree.specs.InOrder.{AreTypes};
ghost use Rattle.fp_model.specs.WellFormed.{AreDefs};

use crate::systems::defs_of;
use dli_tree::{Path, Step, delete, first_after, insert, replace};
use fp_model::{Bytes, Defs, List, Root, SegDef, SeqItem, Ssa};
use std::alloc::{AllocError, Global};
use std::test::Fail;

/// A path: segment type, key and serial of each step.
pub type Steps = &'static [(u8, &'static [u8], u64)];

/// Arguments: a segment type and a key, if it is qualified.
pub type Arguments = &'static [(u8, Option<&'static [u8]>)];

/// A call, and what it is to answer.
pub enum Call {
    /// A new segment of its key and a dot at the end of a path.
    Insert(Steps, bool),
    /// A sequential dependent, older than the others, below the root at a place.
    Add(usize, u64),
    Replace(Steps, &'static [u8], bool),
    Delete(Steps, bool),
    /// From this position, if any, below this parent, if any, with these arguments, it finds this, if anything.
    Find(Option<Steps>, Option<Steps>, Arguments, Option<Steps>),
    /// The first with these arguments has these bytes.
    Shows(Arguments, &'static [u8]),
}

/// 0 account; below it 1 audit (sequential), 2 loan, 3 address, 4 phone; 5 payment below loan, 6 note below payment.
/// Each has a key of two bytes and one more.
const DEFINITIONS: &str = r#"regions = [1]
router = "FOLD"
[[dedb]]
name = "TREE"
randomizer = "FOLD"
ci = 512
[[dedb.segment]]
name = "ACCOUNT"
fields = [["KEY", "C", 2], ["DOT", "C", 1]]
[[dedb.segment]]
name = "AUDIT"
parent = "ACCOUNT"
sequential = true
fields = [["KEY", "C", 2], ["DOT", "C", 1]]
[[dedb.segment]]
name = "LOAN"
parent = "ACCOUNT"
fields = [["KEY", "C", 2], ["DOT", "C", 1]]
[[dedb.segment]]
name = "ADDRESS"
parent = "ACCOUNT"
fields = [["KEY", "C", 2], ["DOT", "C", 1]]
[[dedb.segment]]
name = "PHONE"
parent = "ACCOUNT"
fields = [["KEY", "C", 2], ["DOT", "C", 1]]
[[dedb.segment]]
name = "PAYMENT"
parent = "LOAN"
fields = [["KEY", "C", 2], ["DOT", "C", 1]]
[[dedb.segment]]
name = "NOTE"
parent = "PAYMENT"
fields = [["KEY", "C", 2], ["DOT", "C", 1]]
[[dedb.area]]
name = "AREA"
uows = 1
base = 1
overflow = 1
capacity = 9
"#;

fn step(alloc: Global, row: &(u8, &[u8], u64)) -> Result<Step, AllocError> {
    let key = Bytes::from_slice(alloc, row.1)?;
    Ok(Step {
        segment: row.0,
        key,
        serial: row.2,
    })
}

fn path(alloc: Global, rows: Steps) -> Result<Path, AllocError> {
    let mut steps = List::new(alloc);
    for row in rows {
        steps.push(step(alloc, row)?)?;
    }
    Ok(Path { steps })
}

fn path_or_none(alloc: Global, steps: &Option<Steps>) -> Result<Option<Path>, AllocError> {
    match steps {
        None => Ok(None),
        Some(steps) => Ok(Some(path(alloc, steps)?)),
    }
}

fn argument(alloc: Global, row: &(u8, Option<&[u8]>)) -> Result<Ssa, AllocError> {
    let key = match row.1 {
        None => None,
        Some(key) => Some(Bytes::from_slice(alloc, key)?),
    };
    Ok(Ssa {
        segment: row.0,
        key,
    })
}

fn arguments(alloc: Global, rows: Arguments) -> Result<List<Ssa>, AllocError> {
    let mut ssas = List::new(alloc);
    for row in rows {
        ssas.push(argument(alloc, row)?)?;
    }
    Ok(ssas)
}

/// The key at the end of a path, and a dot.
fn new_bytes(alloc: Global, steps: Steps) -> Result<Bytes, AllocError> {
    let key = match steps.last() {
        Some((_, key, _)) => key,
        None => &b""[..],
    };
    let mut bytes = Bytes::from_slice(alloc, key)?;
    bytes.push(b'.')?;
    Ok(bytes)
}

fn inserts(
    alloc: Global,
    types: &List<SegDef>,
    roots: &mut List<Root>,
    steps: Steps,
    new: bool,
) -> Result<bool, AllocError>
    requires { AreTypes types.now }
{
    let path = path(alloc, steps)?;
    Ok(insert(alloc, roots, types, &path, new_bytes(alloc, steps)?)? == new)
}

fn adds(alloc: Global, roots: &mut List<Root>, at: usize, serial: u64) -> Result<bool, AllocError> {
    if at >= roots.len() {
        return Ok(false);
    }
    let bytes = Bytes::from_slice(alloc, b"AU.")?;
    roots.item_mut(at).seqs.push(SeqItem { serial, bytes })?;
    Ok(true)
}

fn replaces(
    alloc: Global,
    types: &List<SegDef>,
    roots: &mut List<Root>,
    steps: Steps,
    bytes: &[u8],
    there: bool,
) -> Result<bool, AllocError>
    requires { AreTypes types.now }
{
    let path = path(alloc, steps)?;
    Ok(replace(roots, types, &path, Bytes::from_slice(alloc, bytes)?) == there)
}

fn deletes(
    alloc: Global,
    types: &List<SegDef>,
    roots: &mut List<Root>,
    steps: Steps,
    there: bool,
) -> Result<bool, AllocError>
    requires { AreTypes types.now }
{
    Ok(delete(roots, types, &path(alloc, steps)?) == there)
}

fn is_step(step: &Step, row: &(u8, &[u8], u64)) -> bool {
    step.segment == row.0 && step.key.as_slice() == row.1 && step.serial == row.2
}

fn is_path(path: &Path, wanted: Steps) -> bool {
    let steps = path.steps.as_slice();
    if steps.len() != wanted.len() {
        return false;
    }
    for (at, row) in wanted.iter().enumerate() {
        if !is_step(&steps[at], row) {
            return false;
        }
    }
    true
}

/// Whether what was found stands where this path leads; nothing, where none is wanted.
fn is_found(found: &Option<(Path, Bytes)>, wanted: &Option<Steps>) -> bool {
    match (found, wanted) {
        (Some((path, _)), Some(wanted)) => is_path(path, wanted),
        (None, None) => true,
        _ => false,
    }
}

fn finds(
    alloc: Global,
    types: &List<SegDef>,
    roots: &List<Root>,
    from: (&Option<Steps>, &Option<Steps>),
    rows: Arguments,
    wanted: &Option<Steps>,
) -> Result<bool, AllocError>
    requires { AreTypes types.now }
{
    let position = path_or_none(alloc, from.0)?;
    let within = path_or_none(alloc, from.1)?;
    let ssas = arguments(alloc, rows)?;
    let found = first_after(
        alloc,
        roots,
        types,
        position.as_ref(),
        within.as_ref(),
        &ssas,
    );
    drop(ssas);
    drop(within);
    drop(position);
    Ok(is_found(&found?, wanted))
}

fn shows(
    alloc: Global,
    types: &List<SegDef>,
    roots: &List<Root>,
    rows: Arguments,
    bytes: &[u8],
) -> Result<bool, AllocError>
    requires { AreTypes types.now }
{
    let ssas = arguments(alloc, rows)?;
    let found = first_after(alloc, roots, types, None, None, &ssas);
    drop(ssas);
    match found? {
        None => Ok(false),
        Some((_, found)) => Ok(found.as_slice() == bytes),
    }
}

/// Whether a call answers as it is to.
fn answers(
    alloc: Global,
    types: &List<SegDef>,
    roots: &mut List<Root>,
    call: &Call,
) -> Result<bool, AllocError>
    requires { AreTypes types.now }
{
    match call {
        Call::Insert(steps, new) => inserts(alloc, types, roots, steps, *new),
        Call::Add(at, serial) => adds(alloc, roots, *at, *serial),
        Call::Replace(steps, bytes, there) => {
            replaces(alloc, types, roots, steps, bytes, *there)
        }
        Call::Delete(steps, there) => deletes(alloc, types, roots, steps, *there),
        Call::Find(position, within, rows, wanted) => {
            finds(alloc, types, roots, (position, within), rows, wanted)
        }
        Call::Shows(rows, bytes) => shows(alloc, types, roots, rows, bytes),
    }
}

pub const A1: Steps = &[(0, b"A1", 0)];

pub const A1_AUDIT_9: Steps = &[(0, b"A1", 0), (1, b"", 9)];

pub const A1_AUDIT_4: Steps = &[(0, b"A1", 0), (1, b"", 4)];

pub const A1_L1: Steps = &[(0, b"A1", 0), (2, b"L1", 0)];

pub const A1_L1_Y1: Steps = &[(0, b"A1", 0), (2, b"L1", 0), (5, b"Y1", 0)];

pub const A1_L1_Y1_N1: Steps = &[(0, b"A1", 0), (2, b"L1", 0), (5, b"Y1", 0), (6, b"N1", 0)];

const A1_L1_Y1_N2: Steps = &[(0, b"A1", 0), (2, b"L1", 0), (5, b"Y1", 0), (6, b"N2", 0)];

pub const A1_L2: Steps = &[(0, b"A1", 0), (2, b"L2", 0)];

const A1_L3: Steps = &[(0, b"A1", 0), (2, b"L3", 0)];

pub const A1_D1: Steps = &[(0, b"A1", 0), (3, b"D1", 0)];

const A1_P1: Steps = &[(0, b"A1", 0), (4, b"P1", 0)];

const A1_P2: Steps = &[(0, b"A1", 0), (4, b"P2", 0)];

pub const A2: Steps = &[(0, b"A2", 0)];

pub const A2_AUDIT_7: Steps = &[(0, b"A2", 0), (1, b"", 7)];

pub const A3: Steps = &[(0, b"A3", 0)];

const A3_D9: Steps = &[(0, b"A3", 0), (3, b"D9", 0)];

/// Three roots, one with descendants on four levels. Each row has new ones in front, between and behind, and one that
/// stands already.
static MADE: [Call; 20] = [
    Call::Insert(A2, true),
    Call::Insert(A1, true),
    Call::Insert(A3, true),
    Call::Insert(A2, false),
    Call::Insert(A1_L1, true),
    Call::Insert(A1_L3, true),
    Call::Insert(A1_L2, true),
    Call::Insert(A1_L2, false),
    Call::Insert(A1_P2, true),
    Call::Insert(A1_P1, true),
    Call::Insert(A1_D1, true),
    Call::Insert(A3_D9, true),
    Call::Insert(A1_L1_Y1, true),
    Call::Insert(A1_L1_Y1_N2, true),
    Call::Insert(A1_L1_Y1_N1, true),
    Call::Insert(A1_L1_Y1_N1, false),
    Call::Insert(A1, false),
    Call::Add(0, 9),
    Call::Add(0, 4),
    Call::Add(1, 7),
];

/// Whether these calls all answer as they are to, one after another.
fn each_answers(
    alloc: Global,
    types: &List<SegDef>,
    roots: &mut List<Root>,
    calls: &[Call],
) -> Result<bool, AllocError>
    requires { AreTypes types.now }
{
    for call in calls {
        if !answers(alloc, types, roots, call)? {
            return Ok(false);
        }
    }
    Ok(true)
}

/// Whether these calls answer as they are to, on the anchor that `MADE` makes.
fn answer_on(alloc: Global, defs: &Defs, calls: &[Call]) -> Result<bool, AllocError>
    requires { AreDefs defs.now }
{
    let Some(def) = defs.dedbs.get(0) else {
        return Ok(false);
    };
    let mut roots = List::new(alloc);
    Ok(
        each_answers(alloc, &def.segments, &mut roots, &MADE)?
            && each_answers(alloc, &def.segments, &mut roots, calls)?,
    )
}

/// The same, by these definitions.
pub fn all_answer(alloc: Global, calls: &[Call]) -> Result<bool, Fail> {
    let defs = defs_of(alloc, DEFINITIONS)?;
    Ok(answer_on(alloc, &defs, calls)?)
}
