//! Logs: the groups behind a front.
//!
//!     DEFINITIONS SCRIPTS LOG => foreign | GROUP .. gate PLACE | GROUP .. damaged PLACE
//!
//! A group is the numbers from which its entries began, with commas between them, an `@` and the place of the gate
//! behind it. The front has the two texts.

ghost use Rattle.fp_model.specs.LogText.{FitsFront};
ghost use Rattle.log_groups.specs.Images.{as_front};
ghost use Rattle.std.specs.Prelude.{IfOk};

use crate::fault::CaseFault;
use crate::texts::bytes_of;
use fp_model::{Bytes, Entry, List};
use log_groups::{Front, Log, LogFault};
use memory_site::{MemorySite, Snapshot};
use std::alloc::{AllocError, Global};

// The longest text of a front.
const LONGEST: usize = 4_294_967_295;

/// What a log comes to.
pub(crate) fn answer(alloc: Global, input: &str) -> Result<Vec<u8>, CaseFault> {
    let (defs, rest) = input.split_once(' ').ok_or(CaseFault::Malformed)?;
    let (scripts, log) = rest.split_once(' ').ok_or(CaseFault::Malformed)?;
    let front = front_of(alloc, defs, scripts)?;
    let bytes = bytes_of(alloc, log)?;
    let most = bytes.len();
    let mut images = List::new(alloc);
    images.push(Bytes::from_vec(bytes))?;
    let snapshot = Snapshot::new(images, Bytes::new(alloc));
    let mut site = MemorySite::from_snapshot(alloc, snapshot, &[])?;
    match Log::open(alloc, &mut site, &front) {
        Ok(mut log) => groups_of(alloc, &mut site, &mut log, most),
        Err(LogFault::Foreign) => Ok(Vec::from_slice(alloc, b"foreign")?),
        Err(LogFault::Memory) => Err(CaseFault::Memory),
        Err(_) => Err(CaseFault::Malformed),
    }
}

// The front of these texts, in the format that has no numbers of messages.
fn front_of(alloc: Global, defs: &str, scripts: &str) -> Result<Front, CaseFault>
    ensures { IfOk result (λ front. FitsFront (as_front front)) }
{
    let defs = bytes_of(alloc, defs)?;
    let scripts = bytes_of(alloc, scripts)?;
    if defs.len() > LONGEST || scripts.len() > LONGEST {
        return Err(CaseFault::Malformed);
    }
    Ok(Front {
        format: 1,
        defs: Bytes::from_vec(defs),
        scripts: Bytes::from_vec(scripts),
    })
}

// The groups of a log, of which there are fewer than it has bytes, and where they end.
fn groups_of(
    alloc: Global,
    site: &mut MemorySite,
    log: &mut Log,
    most: usize,
) -> Result<Vec<u8>, CaseFault> {
    let mut text = Vec::new(alloc);
    let mut at = log.gate();
    for _ in 0..most {
        match log.group_at(site, at) {
            Ok(Some(group)) => {
                put_group(alloc, &mut text, group.entries.as_slice(), group.next)?;
                at = group.next;
            }
            Ok(None) => return Ok(ended(alloc, text, "gate", at)?),
            Err(LogFault::Damaged(place)) => return Ok(ended(alloc, text, "damaged", place)?),
            Err(LogFault::Memory) => return Err(CaseFault::Memory),
            Err(_) => return Err(CaseFault::Malformed),
        }
    }
    Err(CaseFault::Malformed)
}

// Appends a group.
fn put_group(
    alloc: Global,
    text: &mut Vec<u8>,
    entries: &[Entry],
    next: u64,
) -> Result<(), AllocError> {
    for (place, e) in entries.iter().enumerate() {
        if place > 0 {
            text.push(b',')?;
        }
        let from = e.from.to_string(alloc)?;
        text.extend_from_slice(from.as_bytes())?;
    }
    let end = format!(in alloc; "@{next} ")?;
    text.extend_from_slice(end.as_bytes())
}

// A text with a word and a place behind it.
fn ended(alloc: Global, mut text: Vec<u8>, word: &str, place: u64) -> Result<Vec<u8>, AllocError> {
    let end = format!(in alloc; "{word} {place}")?;
    text.extend_from_slice(end.as_bytes())?;
    Ok(text)
}
