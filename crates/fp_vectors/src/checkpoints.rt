//! The two data sets of checkpoints of the sample's databases.
//!
//!     first FORMAT PLACE COUNT => SETS
//!     read SETS => none | damaged SET | FORMAT NUMBER PLACE COUNT { : DATABASE } { : TERMINAL }
//!     again SETS => none | damaged SET | SETS
//!
//! SETS is the bytes of data sets 1 and 2. `first` writes a checkpoint of the segments loaded, where there was none.
//! `read` reads the newest one: a database is the number of its segments and their bytes one behind another, a terminal
//! its name, its last number and its reply line. `again` writes it once more, as the next one.
ghost use Rattle.checkpoint_format.specs.Given.{loaded_as};
ghost use Rattle.fp_model.specs.CheckpointText.{IsCheckpoint};
ghost use Rattle.fp_model.specs.WellFormed.{AreDefs};
ghost use Rattle.std.specs.Prelude.{◌≤◌, ◌^◌, IfOk, IfSome};

use crate::definitions::{Kinds, read};
use crate::fault::CaseFault;
use crate::texts::{bytes_of, number_of, put_bytes, put_words, trimmed};
use balancing::Lasts;
use fp_model::{Bytes, Defs, List, Msdb};
use memory_site::{MemorySite, Snapshot};
use msdb_checkpoint::{Checkpoints, CkptFault, Loaded};
use msdb_store::MsdbStore;
use std::alloc::{AllocError, Global};

// The databases of the sample.
const DEFINITIONS: &str = "regions = [1, 1]
router = \"FOLD\"
[[msdb]]
name = \"ACCTS\"
fields = [[\"ACCT\", \"C\", 4], [\"BAL\", \"P\", 4]]
load = [[\"A001\", \"100\"], [\"A002\", \"50\"]]
[[msdb]]
name = \"TELLERS\"
dynamic = true
fields = [[\"TNO\", \"C\", 4], [\"CASH\", \"F\", 4]]
load = [[\"T001\", \"0\"]]
";

/// What a case comes to.
pub(crate) fn answer(alloc: Global, input: &str) -> Result<Vec<u8>, CaseFault> {
    let (word, rest) = input.split_once(' ').ok_or(CaseFault::Malformed)?;
    let defs = sample(alloc)?;
    if word == "first" {
        return first(alloc, &defs, rest);
    }
    let mut site = site_of(alloc, rest)?;
    match Checkpoints::newest(alloc, &mut site, &defs) {
        Ok(None) => Ok(Vec::from_slice(alloc, b"none")?),
        Ok(Some(loaded)) if word == "read" => Ok(shown(alloc, &loaded)?),
        Ok(Some(loaded)) => again(alloc, &mut site, &defs, loaded),
        Err(CkptFault::Damaged(set)) => {
            let text = format!(in alloc; "damaged {set}")?;
            Ok(Vec::from_slice(alloc, text.as_bytes())?)
        }
        Err(CkptFault::Memory) => Err(CaseFault::Memory),
        Err(CkptFault::Failed) => Err(CaseFault::Malformed),
    }
}

// The definitions of the sample.
fn sample(alloc: Global) -> Result<Defs, CaseFault>
    ensures { IfOk result AreDefs }
{
    match read(alloc, DEFINITIONS.as_bytes(), Kinds::ALL)? {
        Ok(defs) => Ok(defs),
        Err(_) => Err(CaseFault::Malformed),
    }
}

// A site with these data sets 1 and 2.
fn site_of(alloc: Global, sets: &str) -> Result<MemorySite, CaseFault> {
    let (one, two) = sets.split_once(' ').ok_or(CaseFault::Malformed)?;
    let mut images = List::new(alloc);
    images.push(Bytes::new(alloc))?;
    images.push(Bytes::from_vec(bytes_of(alloc, one)?))?;
    images.push(Bytes::from_vec(bytes_of(alloc, two)?))?;
    let snapshot = Snapshot::new(images, Bytes::new(alloc));
    Ok(MemorySite::from_snapshot(alloc, snapshot, &[])?)
}

// ---- writing

// The place and the number of entries before it of a first checkpoint.
fn place_of(text: &str) -> Result<(u64, u64), CaseFault>
    ensures { IfOk result (λ place. (place.0 ≤ 2 ^ 62) × (place.1 ≤ place.0)) }
{
    let (at, count) = text.split_once(' ').ok_or(CaseFault::Malformed)?;
    let (at, count) = (number_of(at)?, number_of(count)?);
    if at > 1 << 62 || count > at {
        return Err(CaseFault::Malformed);
    }
    Ok((at, count))
}

// The first checkpoint, of the segments loaded.
fn first(alloc: Global, defs: &Defs, text: &str) -> Result<Vec<u8>, CaseFault>
    requires { AreDefs defs.now }
{
    let (format, place) = text.split_once(' ').ok_or(CaseFault::Malformed)?;
    let (at, count) = place_of(place)?;
    let store = MsdbStore::start(alloc, defs)?;
    let none = Lasts::new(alloc)?;
    let lasts = if format == "2" { Some(&none) } else { None };
    let mut site = site_of(alloc, "00 00")?;
    let mut checkpoints = Checkpoints::open(None, 2);
    match checkpoints.write(alloc, &mut site, defs, at, count, &store, lasts) {
        Ok(()) => Ok(sets_of(alloc, &site)?),
        Err(_) => Err(CaseFault::Malformed),
    }
}

// A checkpoint that was read is written once more, as the next one.
fn again(
    alloc: Global,
    site: &mut MemorySite,
    defs: &Defs,
    loaded: Loaded,
) -> Result<Vec<u8>, CaseFault>
    requires defs { AreDefs defs.now }
    requires whole { IsCheckpoint loaded.format defs.now.msdbs (loaded_as loaded) }
{
    let Ok(slot) = Checkpoints::slot_of(site) else {
        return Err(CaseFault::Malformed);
    };
    let mut checkpoints = Checkpoints::open(Some(&loaded), slot);
    let Loaded {
        at,
        count,
        msdbs,
        format,
        lasts,
        number: _,
    } = loaded;
    let store = MsdbStore::new(alloc, defs, msdbs)?;
    let lasts = if format == 2 { Some(&lasts) } else { None };
    match checkpoints.write(alloc, site, defs, at, count, &store, lasts) {
        Ok(()) => Ok(sets_of(alloc, site)?),
        Err(_) => Err(CaseFault::Malformed),
    }
}

// ---- texts

// Data sets 1 and 2.
fn sets_of(alloc: Global, site: &MemorySite) -> Result<Vec<u8>, AllocError> {
    let mut text = Vec::new(alloc);
    put_bytes(alloc, &mut text, site.contents(1))?;
    put_words(&mut text, " ")?;
    put_bytes(alloc, &mut text, site.contents(2))?;
    Ok(text)
}

// A checkpoint.
fn shown(alloc: Global, loaded: &Loaded) -> Result<Vec<u8>, AllocError> {
    let Loaded {
        number,
        at,
        count,
        msdbs,
        format,
        lasts,
    } = loaded;
    let mut text = Vec::new(alloc);
    let head = format!(in alloc; "{format} {number} {at} {count}")?;
    put_words(&mut text, &head)?;
    for msdb in msdbs.as_slice() {
        put_database(alloc, &mut text, msdb)?;
    }
    for place in 0..lasts.len() as u64 {
        put_terminal(alloc, &mut text, lasts, place)?;
    }
    Ok(text)
}

// Appends a database.
fn put_database(alloc: Global, text: &mut Vec<u8>, msdb: &Msdb) -> Result<(), AllocError> {
    let mut bytes = Vec::new(alloc);
    for segment in msdb.segments.as_slice() {
        bytes.extend_from_slice(segment.as_slice())?;
    }
    let count = format!(in alloc; " : {} ", msdb.segments.len())?;
    put_words(text, &count)?;
    put_bytes(alloc, text, &bytes)
}

// Appends the terminal at a place.
fn put_terminal(
    alloc: Global,
    text: &mut Vec<u8>,
    lasts: &Lasts,
    place: u64,
) -> Result<(), AllocError> {
    let Some((lterm, number, line)) = lasts.at(place) else {
        return Ok(());
    };
    put_words(text, " : ")?;
    text.extend_from_slice(trimmed(&lterm.0))?;
    let number = format!(in alloc; " {number} ")?;
    put_words(text, &number)?;
    put_bytes(alloc, text, line)
}
