//! What is told of a site behind a run: its log, and the databases that a restart finds.
ghost use Rattle.fp_model.specs.WellFormed.{IsMsdbDef};
ghost use Rattle.std.specs.List.{AllByRecursion};

use crate::fault::Fault;
use crate::setup::front;
use fp_model::{Bytes, Defs};
use fp_restart::{restart, whole_db};
use fp_show::{show_db, show_group};
use log_groups::{Group, Log};
use memory_site::MemorySite;
use std::alloc::Global;

// Appends the text of a group. The place of the entry behind it.
fn tell_group(
    alloc: Global,
    text: &mut Bytes,
    number: u64,
    first: u64,
    group: &Group,
) -> Result<u64, Fault> {
    let told = show_group(alloc, number, first, &group.entries)?;
    text.append(told.as_slice())?;
    match first.checked_add(group.entries.len() as u64) {
        Some(behind) => Ok(behind),
        None => Err(Fault::NoLog),
    }
}

// The most groups that a log is read for.
const MOST_GROUPS: u64 = 100_000;

/// The text of the groups of the log, which is of format 2 where it is numbered.
pub fn log_text(alloc: Global, numbered: bool, site: &mut MemorySite) -> Result<Bytes, Fault> {
    let front = front(alloc, numbered)?;
    let Ok(mut log) = Log::open(alloc, site, &front) else {
        return Err(Fault::NoLog);
    };
    let mut text = Bytes::new(alloc);
    let mut at = log.gate();
    let mut first = 0;
    for number in 0..MOST_GROUPS {
        match log.group_at(site, at) {
            Ok(Some(group)) => {
                first = tell_group(alloc, &mut text, number, first, &group)?;
                at = group.next;
            }
            Ok(None) => return Ok(text),
            Err(_) => return Err(Fault::NoLog),
        }
    }
    Err(Fault::NoLog)
}

/// The text of the databases that a restart of the site gives, whose log is of format 2 where it is numbered.
pub fn databases_text(
    alloc: Global,
    defs: &Defs,
    numbered: bool,
    site: &mut MemorySite,
) -> Result<Bytes, Fault>
    requires { AllByRecursion IsMsdbDef defs.now.msdbs }
{
    let front = front(alloc, numbered)?;
    let Ok(mut parts) = restart(alloc, defs, &front, site) else {
        return Err(Fault::NoLog);
    };
    match whole_db(alloc, &mut parts, defs, site) {
        Ok(db) => Ok(show_db(alloc, &db, defs)?),
        Err(_) => Err(Fault::NoLog),
    }
}
