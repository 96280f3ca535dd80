//! Commits of a store between the steps of a checkpoint: it has the databases as they were when it was begun, in both
//! formats, and the next one has what was committed since.
ghost use Rattle.checkpoint_format.specs.Given.{terminals_of};
ghost use Rattle.fp_model.specs.CheckpointText.{AreLasts};
ghost use Rattle.fp_model.specs.FitCalls.{IsFitDeferred};
ghost use Rattle.fp_model.specs.WellFormed.{AreDefs};
ghost use Rattle.fp_model.specs.declared.definitions.MsdbDef.{MsdbDef as DefOf};
ghost use Rattle.msdb_store.specs.Store.{IsOf};
ghost use Rattle.std.specs.List.{AllByRecursion};
ghost use Rattle.std.specs.Option.{option_copied};
ghost use Rattle.std.specs.Prelude.{◌≡◌, ◌<◌, ◌^◌, IfOk, List as ListOf, Some, length, slice_get};

use crate::checkpoint_stops::prepare;
use crate::systems::defs_of;
use balancing::Lasts;
use fp_model::{Bytes, Deferred, Defs, List, MsdbDef, key_length};
use memory_site::MemorySite;
use msdb_checkpoint::{Checkpoints, Loaded};
use msdb_store::{MsdbStore, VerifyFault};
use std::alloc::{AllocError, Global};
use std::test::Fail;

/// A database with segments of 1,000 bytes, without segments at the start.
const LARGE: &str = "regions = [1]
router = \"FOLD\"
[[msdb]]
name = \"LARGE\"
fields = [[\"KEY\", \"C\", 3], [\"A\", \"C\", 249], [\"B\", \"C\", 250], [\"C\", \"C\", 250], [\"D\", \"C\", 248]]
";

/// How many keys there are.
const KEYS: u8 = 150;

/// With which byte the segment of each key is filled; with 0 there is none.
#[derive(Clone, Copy)]
struct Plain([u8; 150]);

// ---- calls

/// The three digits of a key.
fn digits(key: u8) -> [u8; 3] {
    [b'0' + key / 100, b'0' + key / 10 % 10, b'0' + key % 10]
}

/// So many bytes: the three digits of a key, and another byte behind them.
fn filled(alloc: Global, count: usize, key: u8, fill: u8) -> Result<Bytes, AllocError>
    ensures { IfOk result (λ bytes. length bytes ≡ count) }
{
    let mut bytes = vec![in alloc; fill; count]?;
    let digits = digits(key);
    for (place, digit) in digits.iter().enumerate() {
        if place < bytes.len() {
            bytes[place] = *digit;
        }
    }
    Ok(Bytes::from_vec(bytes))
}

/// A call that puts the segment of a key with this byte behind it, or that deletes it where that is 0.
fn call_of(alloc: Global, def: &MsdbDef, key: u8, fill: u8) -> Result<Deferred, AllocError>
    ensures { (defs : ListOf DefOf) → slice_get defs 0 ≡ Some def.now → IfOk result (IsFitDeferred defs) }
{
    if fill == 0 {
        let size = usize::from(key_length(def.fields.as_slice()));
        return Ok(Deferred::Dlet {
            msdb: 0,
            key: filled(alloc, size, key, b' ')?,
        });
    }
    Ok(Deferred::Repl {
        msdb: 0,
        bytes: filled(alloc, usize::from(def.length), key, fill)?,
    })
}

/// Commits one call.
fn commit(
    alloc: Global,
    defs: &Defs,
    store: &mut MsdbStore,
    call: Deferred,
) -> Result<(), VerifyFault>
    requires rules { AreDefs defs.now }
    requires fit { IsFitDeferred defs.now.msdbs call }
    requires of { IsOf defs.now.msdbs store.old }
    requires few { AllByRecursion (λ msdb. length msdb.segments < 2 ^ 32) store.old.msdbs }
    ensures of { IsOf defs.now.msdbs store.new }
    ensures few { AllByRecursion (λ msdb. length msdb.segments < 2 ^ 32) store.new.msdbs }
{
    let mut queue = List::new(alloc);
    queue.push(call)?;
    let staged = store.check(&queue)?;
    store.reserve(staged.inserts())?;
    store.publish(staged);
    Ok(())
}

/// Commits a change of the segment of a key, and notes it.
fn change(
    alloc: Global,
    defs: &Defs,
    store: &mut MsdbStore,
    plain: &mut Plain,
    key: u8,
    fill: u8,
) -> Result<(), VerifyFault>
    requires rules { AreDefs defs.now }
    requires of { IsOf defs.now.msdbs store.old }
    requires few { AllByRecursion (λ msdb. length msdb.segments < 2 ^ 32) store.old.msdbs }
    ensures of { IsOf defs.now.msdbs store.new }
    ensures few { AllByRecursion (λ msdb. length msdb.segments < 2 ^ 32) store.new.msdbs }
{
    let Some(def) = defs.msdbs.as_slice().first() else {
        return Ok(());
    };
    let call = call_of(alloc, def, key, fill)?;
    commit(alloc, defs, store, call)?;
    plain.0[usize::from(key % KEYS)] = fill;
    Ok(())
}

/// The changes of a round: every eleventh key, from one that depends on the round; of these the first is deleted.
fn change_some(
    alloc: Global,
    defs: &Defs,
    store: &mut MsdbStore,
    plain: &mut Plain,
    round: u8,
) -> Result<(), VerifyFault>
    requires round { round < 11 }
    requires rules { AreDefs defs.now }
    requires of { IsOf defs.now.msdbs store.old }
    requires few { AllByRecursion (λ msdb. length msdb.segments < 2 ^ 32) store.old.msdbs }
    ensures of { IsOf defs.now.msdbs store.new }
    ensures few { AllByRecursion (λ msdb. length msdb.segments < 2 ^ 32) store.new.msdbs }
{
    for turn in 0..13u8 {
        let fill = if turn == 0 { 0 } else { b'a' + round };
        change(alloc, defs, store, plain, round + 11 * turn, fill)?;
    }
    Ok(())
}

// ---- checkpoints

/// Whether a checkpoint of this format and number has just the segments that were noted.
fn is_as_noted(loaded: &Loaded, format: u8, number: u64, plain: &Plain) -> bool {
    if loaded.format != format || loaded.number != number || loaded.msdbs.len() != 1 {
        return false;
    }
    let segments = &loaded.msdbs.as_slice()[0].segments;
    let mut place = 0usize;
    for (key, fill) in plain.0.iter().enumerate() {
        if *fill != 0 {
            if place >= segments.len()
                || !is_segment(segments.as_slice()[place].as_slice(), key as u8, *fill)
            {
                return false;
            }
            place += 1;
        }
    }
    place == segments.len()
}

/// Whether a segment has this key and is filled with this byte.
fn is_segment(segment: &[u8], key: u8, fill: u8) -> bool {
    let digits = digits(key);
    segment.len() == 1000
        && &segment[..3] == digits.as_slice()
        && segment[3] == fill
        && segment[999] == fill
}

/// Does the steps of what is begun, with commits before each. Whether it is sure then.
fn step_between(
    alloc: Global,
    site: &mut MemorySite,
    checkpoints: &mut Checkpoints,
    defs: &Defs,
    store: &mut MsdbStore,
    plain: &mut Plain,
) -> Result<bool, VerifyFault>
    requires rules { AreDefs defs.now }
    requires of { IsOf defs.now.msdbs store.old }
    requires few { AllByRecursion (λ msdb. length msdb.segments < 2 ^ 32) store.old.msdbs }
    ensures of { IsOf defs.now.msdbs store.new }
    ensures few { AllByRecursion (λ msdb. length msdb.segments < 2 ^ 32) store.new.msdbs }
{
    for round in 0..11u8 {
        change_some(alloc, defs, store, plain, round)?;
        match checkpoints.step(site) {
            Ok(true) => return Ok(true),
            Ok(false) => {}
            Err(_) => return Ok(false),
        }
    }
    Ok(false)
}

/// Whether the newest checkpoint has this format and number, and just the segments that were noted.
fn is_newest(
    alloc: Global,
    site: &mut MemorySite,
    defs: &Defs,
    format: u8,
    number: u64,
    plain: &Plain,
) -> bool {
    match Checkpoints::newest(alloc, site, defs) {
        Ok(Some(loaded)) => is_as_noted(&loaded, format, number, plain),
        _ => false,
    }
}

/// Puts a segment of each key.
fn fill(
    alloc: Global,
    defs: &Defs,
    store: &mut MsdbStore,
    plain: &mut Plain,
) -> Result<(), VerifyFault>
    requires rules { AreDefs defs.now }
    requires of { IsOf defs.now.msdbs store.old }
    requires few { AllByRecursion (λ msdb. length msdb.segments < 2 ^ 32) store.old.msdbs }
    ensures of { IsOf defs.now.msdbs store.new }
    ensures few { AllByRecursion (λ msdb. length msdb.segments < 2 ^ 32) store.new.msdbs }
{
    for key in 0..KEYS {
        change(alloc, defs, store, plain, key, b'A')?;
    }
    Ok(())
}

/// Three checkpoints on a new site, with commits between all their steps: whether each has just what was committed
/// before it was begun.
fn each_on(
    alloc: Global,
    site: &mut MemorySite,
    defs: &Defs,
    lasts: Option<&Lasts>,
    store: &mut MsdbStore,
    plain: &mut Plain,
) -> Result<bool, VerifyFault>
    requires rules { AreDefs defs.now }
    requires terminals { AreLasts (terminals_of (option_copied lasts)) }
    requires of { IsOf defs.now.msdbs store.old }
    requires few { AllByRecursion (λ msdb. length msdb.segments < 2 ^ 32) store.old.msdbs }
{
    if !prepare(site) {
        return Ok(false);
    }
    let format = if lasts.is_some() { 2 } else { 1 };
    let mut checkpoints = Checkpoints::open(None, 2);
    for number in 1..4u64 {
        let noted = *plain;
        checkpoints.begin(alloc, defs, number, number, store, lasts)?;
        if !step_between(alloc, site, &mut checkpoints, defs, store, plain)?
            || !is_newest(alloc, site, defs, format, number, &noted)
        {
            return Ok(false);
        }
    }
    Ok(true)
}

/// The same over a store, without segments at first.
fn each_of(
    alloc: Global,
    defs: &Defs,
    lasts: Option<&Lasts>,
    store: &mut MsdbStore,
) -> Result<bool, VerifyFault>
    requires rules { AreDefs defs.now }
    requires terminals { AreLasts (terminals_of (option_copied lasts)) }
    requires of { IsOf defs.now.msdbs store.old }
    requires few { AllByRecursion (λ msdb. length msdb.segments < 2 ^ 32) store.old.msdbs }
{
    let mut plain = Plain([0; 150]);
    fill(alloc, defs, store, &mut plain)?;
    let mut site = MemorySite::new(alloc, &[])?;
    each_on(alloc, &mut site, defs, lasts, store, &mut plain)
}

/// The same in a format.
fn each_has_its_own(alloc: Global, defs: &Defs, lasts: Option<&Lasts>) -> Result<bool, VerifyFault>
    requires rules { AreDefs defs.now }
    requires terminals { AreLasts (terminals_of (option_copied lasts)) }
{
    let mut store = MsdbStore::start(alloc, defs)?;
    each_of(alloc, defs, lasts, &mut store)
}

#[test]
fn commits_between_the_steps_come_later(rt: HostRuntime) -> Result<(), Fail> {
    let defs = defs_of(rt.alloc(), &[LARGE])?;
    let lasts = Lasts::new(rt.alloc())?;
    for lasts in [None, Some(&lasts)] {
        assert!(rt; each_has_its_own(rt.alloc(), &defs, lasts)?);
    }
    Ok(())
}
