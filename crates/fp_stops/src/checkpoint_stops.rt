//! Two checkpoints in steps, with a write of the log before each step: failed or stopped at each call.
ghost use Rattle.checkpoint_format.specs.Given.{terminals_of};
ghost use Rattle.fp_model.specs.CheckpointText.{AreLasts};
ghost use Rattle.fp_model.specs.WellFormed.{AreDefs};
ghost use Rattle.std.specs.Option.{option_copied};
ghost use Rattle.std.specs.Prelude.{◌≤◌};

use crate::groups::failing;
use crate::systems::{NOTES, defs_of};
use balancing::Lasts;
use fp_model::Defs;
use fp_site::Site;
use memory_site::MemorySite;
use msdb_checkpoint::{Checkpoints, Loaded};
use msdb_store::MsdbStore;
use std::alloc::{AllocError, Global};
use std::test::Fail;

/// What is loaded at the first checkpoint,
const FIRST: &str = "[[\"A002\", \"old\"], [\"A001\", \"one\"]]\n";

/// and at the second.
const SECOND: &str = "[[\"A002\", \"old\"], [\"A001\", \"two\"]]\n";

/// Gives data sets 1 and 2 a byte, as a site has them that was made.
pub(crate) fn prepare(site: &mut MemorySite) -> bool {
    for set in 1..3 {
        if site.write_at(set, 0, &[0]).is_err() || site.sync(set).is_err() {
            return false;
        }
    }
    true
}

/// Writes a checkpoint of this number in steps, with a write of the log before each. Whether it is sure.
fn write_in_steps(
    alloc: Global,
    site: &mut MemorySite,
    checkpoints: &mut Checkpoints,
    number: u64,
    defs: &Defs,
) -> Result<bool, AllocError>
    requires number { number ≤ 2 }
    requires defs { AreDefs defs.now }
{
    let store = MsdbStore::start(alloc, defs)?;
    checkpoints.begin(alloc, defs, number * 100, number, &store, None)?;
    for _ in 0..8 {
        if site.write_at(0, number, &[7]).is_err() || site.sync(0).is_err() {
            return Ok(false);
        }
        match checkpoints.step(site) {
            Ok(true) => return Ok(true),
            Ok(false) => {}
            Err(_) => return Ok(false),
        }
    }
    Ok(false)
}

/// Writes two checkpoints, until a call fails. How many are sure.
fn write_two(
    alloc: Global,
    site: &mut MemorySite,
    first: &Defs,
    second: &Defs,
) -> Result<u64, AllocError>
    requires first { AreDefs first.now }
    requires second { AreDefs second.now }
{
    if !prepare(site) {
        return Ok(0);
    }
    let mut checkpoints = Checkpoints::open(None, 2);
    write_both(alloc, site, &mut checkpoints, first, second)
}

/// The same of checkpoints that are open.
fn write_both(
    alloc: Global,
    site: &mut MemorySite,
    checkpoints: &mut Checkpoints,
    first: &Defs,
    second: &Defs,
) -> Result<u64, AllocError>
    requires first { AreDefs first.now }
    requires second { AreDefs second.now }
{
    if !write_in_steps(alloc, site, checkpoints, 1, first)? {
        return Ok(0);
    }
    if !write_in_steps(alloc, site, checkpoints, 2, second)? {
        return Ok(1);
    }
    Ok(2)
}

/// Whether a checkpoint is the first or the second one, whole.
fn is_whole(loaded: &Loaded) -> bool {
    let note: &[u8] = if loaded.number == 1 {
        b"A001one "
    } else {
        b"A001two "
    };
    if loaded.msdbs.len() != 1 {
        return false;
    }
    let segments = &loaded.msdbs.as_slice()[0].segments;
    loaded.at == loaded.number.saturating_mul(100)
        && loaded.count == loaded.number
        && segments.len() == 2
        && segments.as_slice()[0].as_slice() == note
}

/// The number of the newest checkpoint, 0 where there is none; none where it isn't whole or can't be read.
fn newest_number(alloc: Global, site: &mut MemorySite, defs: &Defs) -> Option<u64> {
    match Checkpoints::newest(alloc, site, defs) {
        Ok(None) => Some(0),
        Ok(Some(loaded)) if is_whole(&loaded) => Some(loaded.number),
        _ => None,
    }
}

/// Whether the site has at least so many checkpoints, whole, and its data set of the newest is theirs.
fn keeps(alloc: Global, site: &mut MemorySite, defs: &Defs, sure: u64) -> bool {
    let Some(number) = newest_number(alloc, site, defs) else {
        return false;
    };
    let slot = if number == 1 { 1 } else { 2 };
    sure <= number && number <= 2 && matches!(Checkpoints::slot_of(site), Ok(set) if set == slot)
}

/// Writes two checkpoints on a site whose calls may fail: whether each of eight images that a crash may leave keeps
/// what was sure.
fn keeps_what_is_sure(
    alloc: Global,
    site: &mut MemorySite,
    first: &Defs,
    second: &Defs,
) -> Result<bool, AllocError>
    requires first { AreDefs first.now }
    requires second { AreDefs second.now }
{
    let sure = write_two(alloc, site, first, second)?;
    for choice in 0..8 {
        if !image_keeps(alloc, site, choice, first, sure)? {
            return Ok(false);
        }
    }
    Ok(true)
}

/// The same of a site whose call with this number fails, alone or with all behind it.
fn keeps_behind(
    alloc: Global,
    call: u64,
    alone: bool,
    first: &Defs,
    second: &Defs,
) -> Result<bool, AllocError>
    requires first { AreDefs first.now }
    requires second { AreDefs second.now }
{
    let mut site = failing(alloc, call, alone)?;
    keeps_what_is_sure(alloc, &mut site, first, second)
}

/// Whether this image that a crash may leave keeps so many checkpoints.
fn image_keeps(
    alloc: Global,
    site: &MemorySite,
    choice: u64,
    defs: &Defs,
    sure: u64,
) -> Result<bool, AllocError> {
    let mut left = MemorySite::from_snapshot(alloc, site.snapshot_as(choice)?, &[])?;
    Ok(keeps(alloc, &mut left, defs, sure))
}

/// The two checkpoints make 34 calls.
const CALLS: u64 = 36;

/// Whether two checkpoints on a new site are both sure, and the second is the newest.
fn both_are_sure(alloc: Global, first: &Defs, second: &Defs) -> Result<bool, AllocError>
    requires first { AreDefs first.now }
    requires second { AreDefs second.now }
{
    let mut site = MemorySite::new(alloc, &[])?;
    let both = matches!(write_two(alloc, &mut site, first, second), Ok(2));
    Ok(both && newest_number(alloc, &mut site, second) == Some(2))
}

/// The first call behind whose failure, alone or with all behind it, a crash may lose what was sure, counted twice; or,
/// behind the last one, where both aren't sure without a failure.
fn first_loss(alloc: Global, first: &Defs, second: &Defs) -> Result<Option<u64>, AllocError>
    requires first { AreDefs first.now }
    requires second { AreDefs second.now }
{
    for number in 0..2 * CALLS {
        if !keeps_behind(alloc, number / 2, number % 2 == 0, first, second)? {
            return Ok(Some(number));
        }
    }
    if !both_are_sure(alloc, first, second)? {
        return Ok(Some(2 * CALLS));
    }
    Ok(None)
}

/// The same, behind the first definitions.
fn first_loss_behind(alloc: Global, first: &Defs) -> Result<Option<u64>, Fail>
    requires { AreDefs first.now }
{
    let second = defs_of(alloc, &[NOTES, SECOND])?;
    Ok(first_loss(alloc, first, &second)?)
}

#[test]
fn every_stop_and_every_failed_call_keeps_the_newest(rt: HostRuntime) -> Result<(), Fail> {
    let first = defs_of(rt.alloc(), &[NOTES, FIRST])?;
    let lost = first_loss_behind(rt.alloc(), &first)?;
    let number = lost.unwrap_or(0);
    assert!(rt; lost.is_none(), "number {number}");
    Ok(())
}

/// The bytes of the first checkpoint at place 100 with 1 entry before it: its gate, the letters, three numbers, the
/// number of databases, and of the one database the length of a segment, their number, and the segments.
const IN_FORMAT_ONE: &[u8] = b"\x01IMSFPCK1\
\x00\x00\x00\x00\x00\x00\x00\x01\x00\x00\x00\x00\x00\x00\x00\x64\x00\x00\x00\x00\x00\x00\x00\x01\
\x01\x00\x08\x00\x00\x00\x02A001one A002old ";

/// In format 2 the number of terminals, none, stands behind that.
const IN_FORMAT_TWO: &[u8] = b"\x01IMSFPCK2\
\x00\x00\x00\x00\x00\x00\x00\x01\x00\x00\x00\x00\x00\x00\x00\x64\x00\x00\x00\x00\x00\x00\x00\x01\
\x01\x00\x08\x00\x00\x00\x02A001one A002old \x00\x00\x00\x00\x00\x00\x00\x00";

/// Whether the newest checkpoint is of this format, whole and without terminals.
fn is_in_format(alloc: Global, site: &mut MemorySite, defs: &Defs, format: u8) -> bool {
    match Checkpoints::newest(alloc, site, defs) {
        Ok(Some(one)) => one.format == format && is_whole(&one) && one.lasts.is_empty(),
        _ => false,
    }
}

/// Writes a first checkpoint of the start. Whether it is written.
fn write_first(
    alloc: Global,
    site: &mut MemorySite,
    defs: &Defs,
    lasts: Option<&Lasts>,
) -> Result<bool, AllocError>
    requires defs { AreDefs defs.now }
    requires terminals { AreLasts (terminals_of (option_copied lasts)) }
{
    if !prepare(site) {
        return Ok(false);
    }
    let store = MsdbStore::start(alloc, defs)?;
    let mut checkpoints = Checkpoints::open(None, 2);
    Ok(
        checkpoints
            .write(alloc, site, defs, 100, 1, &store, lasts)
            .is_ok(),
    )
}

/// Whether a first checkpoint is written as these bytes, and read back in this format.
fn comes_back(
    alloc: Global,
    defs: &Defs,
    lasts: Option<&Lasts>,
    format: u8,
    bytes: &[u8],
) -> Result<bool, AllocError>
    requires defs { AreDefs defs.now }
    requires terminals { AreLasts (terminals_of (option_copied lasts)) }
{
    let mut site = MemorySite::new(alloc, &[])?;
    let is_written = matches!(write_first(alloc, &mut site, defs, lasts), Ok(true))
        && site.contents(1) == bytes
        && site.contents(2) == [0].as_slice();
    Ok(is_written && is_in_format(alloc, &mut site, defs, format))
}

/// Whether one with terminals, of which there are none, is written in format 2.
fn comes_back_with_terminals(alloc: Global, defs: &Defs) -> Result<bool, AllocError>
    requires { AreDefs defs.now }
{
    let none = Lasts::new(alloc)?;
    comes_back(alloc, defs, Some(&none), 2, IN_FORMAT_TWO)
}

fn comes_back_in_both(alloc: Global, defs: &Defs) -> Result<bool, AllocError>
    requires { AreDefs defs.now }
{
    Ok(comes_back(alloc, defs, None, 1, IN_FORMAT_ONE)? && comes_back_with_terminals(alloc, defs)?)
}

#[test]
fn bytes_are_those_of_the_format(rt: HostRuntime) -> Result<(), Fail> {
    let defs = defs_of(rt.alloc(), &[NOTES, FIRST])?;
    assert!(rt; comes_back_in_both(rt.alloc(), &defs)?);
    Ok(())
}
