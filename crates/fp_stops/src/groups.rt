//! Logs of format 1 whose groups have an entry each, and logs that are made anew.
ghost use Rattle.fp_model.specs.LogText.{FitsEntry, FitsFront, KeepsRules};
ghost use Rattle.log_groups.specs.Images.{as_front};
ghost use Rattle.std.specs.Prelude.{◌<◌, ◌^◌, IfOk, length};

use fp_model::{Bytes, Entry, List, Outcome};
use log_groups::{Front, Log};
use memory_site::MemorySite;
use std::alloc::{AllocError, Global};

// A text of a front.
fn part(alloc: Global, text: &[u8]) -> Result<Bytes, AllocError>
    ensures { IfOk result (λ bytes. length bytes < 2 ^ 32) }
{
    let bytes = Bytes::from_slice(alloc, text)?;
    if bytes.len() > 1_000_000 {
        return Err(AllocError);
    }
    Ok(bytes)
}

// The front of a log of format 1.
pub(crate) fn front_of(alloc: Global, defs: &[u8], scripts: &[u8]) -> Result<Front, AllocError>
    ensures { IfOk result (λ front. FitsFront (as_front front)) }
{
    Ok(Front {
        format: 1,
        defs: part(alloc, defs)?,
        scripts: part(alloc, scripts)?,
    })
}

// An entry that says which it is, of a line that is unknown.
fn unknown(alloc: Global, from: u64, line: &[u8]) -> Result<Entry, AllocError>
    requires { length line.now < 2 ^ 16 }
    ensures rules { IfOk result KeepsRules }
    ensures fits { IfOk result FitsEntry }
{
    Ok(Entry {
        from,
        outcome: Outcome::Unknown,
        line: Bytes::from_slice(alloc, line)?,
        reply: Bytes::new(alloc),
        notes: List::new(alloc),
        items: List::new(alloc),
    })
}

// Makes a log and seals so many groups of such an entry each, until a call fails. How many were sealed.
pub(crate) fn seal_unknown(
    alloc: Global,
    site: &mut MemorySite,
    front: &Front,
    line: &[u8],
    count: u64,
) -> Result<u64, AllocError>
    requires front { FitsFront (as_front front.now) }
    requires line { length line.now < 2 ^ 16 }
{
    if Log::make(alloc, site, front).is_err() {
        return Ok(0);
    }
    match Log::open(alloc, site, front) {
        Ok(mut log) => seal_each(alloc, site, &mut log, line, count),
        Err(_) => Ok(0),
    }
}

// Seals so many groups of such an entry each in an open log, until a call fails. How many were sealed.
fn seal_each(
    alloc: Global,
    site: &mut MemorySite,
    log: &mut Log,
    line: &[u8],
    count: u64,
) -> Result<u64, AllocError>
    requires { length line.now < 2 ^ 16 }
{
    for from in 0..count {
        append_unknown(alloc, log, from, line)?;
        if log.seal(site, 1).is_err() {
            return Ok(from);
        }
    }
    Ok(count)
}

// Appends such an entry to a log, and answers its place.
pub(crate) fn append_unknown(
    alloc: Global,
    log: &mut Log,
    from: u64,
    line: &[u8],
) -> Result<u64, AllocError>
    requires { length line.now < 2 ^ 16 }
{
    let entry = unknown(alloc, from, line)?;
    log.append(&entry)
}

// A new site whose call with this number fails, alone or with all behind it.
pub(crate) fn failing(alloc: Global, call: u64, alone: bool) -> Result<MemorySite, AllocError> {
    if alone {
        MemorySite::new(alloc, &[call])
    } else {
        MemorySite::stopping(alloc, call)
    }
}

// ---- logs that are made anew

// A site with the contents of another, whose call with this number and the next one fail.
pub(crate) fn stopping_copy(
    alloc: Global,
    old: &MemorySite,
    after: u64,
) -> Result<MemorySite, AllocError>
    requires { after < 100 }
{
    MemorySite::from_snapshot(alloc, old.snapshot_as(0)?, &[after, after + 1])
}

// Whether a crash may leave the old log, none that is open or the new one of a making over a log with groups that
// stopped behind so many calls. A new log is made by nine there.
pub(crate) fn may_be_left(after: u64, is_old: bool, is_none: bool, is_new: bool) -> bool {
    (is_old && after < 5) || (is_none && after >= 3 && after < 9) || (is_new && after >= 7)
}
