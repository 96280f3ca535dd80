//! Runs on a site whose calls fail, one alone or all from one on, and a restart from what a crash may leave then: it
//! has each transaction that was answered, be it in part.
ghost use Rattle.fp_model.specs.WellFormed.{IsMsdbDef};
ghost use Rattle.std.specs.List.{AllByRecursion};

use crate::core_rows::{CROSSWISE, OVERDRAWN, Row, SAMPLE, SMALL_GROUPS, WAITS_FOR_A_HOLD};
use crate::groups::failing;
use crate::steps::count_lines;
use crate::systems::{definitions, exits, is_shown};
use core_runs::{Fault, databases_text, find, log_text, run};
use fp_exits::Exits;
use fp_model::{Bytes, Defs};
use memory_site::{MemorySite, Snapshot};
use std::alloc::Global;
use std::test::Fail;

/// A run of two transactions that is stopped.
struct Stopped {
    row: Row,
    /// The balance of the first account behind no entry, one and two.
    balances: [i32; 3],
}

static STOPPED: [Stopped; 3] = [
    Stopped {
        row: OVERDRAWN,
        balances: [100, 40, 40],
    },
    Stopped {
        row: WAITS_FOR_A_HOLD,
        balances: [100, 500, 510],
    },
    Stopped {
        row: CROSSWISE,
        balances: [100, 100, 100],
    },
];

fn stopped_runs() -> &'static [Stopped] {
    &STOPPED
}

/// What the definitions of each say before the databases, in place of what its row has.
const HEADS: [&str; 2] = [SAMPLE, SMALL_GROUPS];

// No run of these makes so many calls.
const MOST_CALLS: u64 = 40;

// A run of its own definitions, to be stopped again and again.
#[derive(Drop)]
struct Stand {
    alloc: Global,
    exits: Exits,
    definitions: Bytes,
    stopped: &'static Stopped,
    // The log where nothing fails.
    groups: Bytes,
}

impl Stand {
    fn new(alloc: Global, stopped: &'static Stopped, head: &str) -> Result<Stand, Fault> {
        let exits = exits(alloc)?;
        let definitions = definitions(alloc, head)?;
        let groups = find(alloc, &stopped.row.task(&definitions), &exits)?.groups;
        Ok(Stand {
            alloc,
            exits,
            definitions,
            stopped,
            groups,
        })
    }

    // Runs on a site whose calls may fail. Whether its log was made, and whether the run is done.
    fn run_on(&self, site: &mut MemorySite) -> Result<(bool, bool), Fault> {
        let stopped = self.stopped;
        let task = stopped.row.task(&self.definitions);
        match run(self.alloc, &task, &self.exits, site) {
            Ok(_) => Ok((true, true)),
            Err(Fault::Stopped(_)) => Ok((true, false)),
            Err(Fault::NoLog) => Ok((false, false)),
            Err(fault) => Err(fault),
        }
    }

    // Whether a restart from a snapshot has each transaction that was answered, be it in part, and what was answered
    // is a first part of all replies. A log that wasn't made need not be there.
    fn is_kept(&self, defs: &Defs, made: bool, snapshot: Snapshot) -> Result<bool, Fault>
        requires { AllByRecursion IsMsdbDef defs.now.msdbs }
    {
        let answered = self.answered(snapshot.sent.as_slice());
        let mut site = MemorySite::from_snapshot(self.alloc, snapshot, &[])?;
        self.keeps(defs, made, answered, &mut site)
    }

    // How many transactions what was sent answers, be it in part. None where it is no first part of all replies.
    fn answered(&self, sent: &[u8]) -> Option<usize> {
        let stopped = self.stopped;
        if stopped.row.sent.as_bytes().starts_with(sent) {
            Some(count_lines(sent))
        } else {
            None
        }
    }

    // Whether a restart of a site has so many transactions at least.
    fn keeps(
        &self,
        defs: &Defs,
        made: bool,
        answered: Option<usize>,
        site: &mut MemorySite,
    ) -> Result<bool, Fault>
        requires { AllByRecursion IsMsdbDef defs.now.msdbs }
    {
        let stopped = self.stopped;
        match log_text(self.alloc, stopped.row.numbered, site) {
            Ok(log) => self.is_behind(defs, answered, site, log.as_slice()),
            Err(Fault::NoLog) => Ok(!made && answered == Some(0)),
            Err(fault) => Err(fault),
        }
    }

    // Whether the text of a log is a first part of that of the whole run, with so many entries at least, and the
    // databases of a site are those behind it.
    fn is_behind(
        &self,
        defs: &Defs,
        answered: Option<usize>,
        site: &mut MemorySite,
        log: &[u8],
    ) -> Result<bool, Fault>
        requires { AllByRecursion IsMsdbDef defs.now.msdbs }
    {
        let entries = entries_in(log);
        let has_answered = answered.is_some_and(|count| count <= entries);
        Ok(
            has_answered
                && self.groups.as_slice().starts_with(log)
                && self.has_databases(defs, site, entries)?,
        )
    }

    // Whether the databases of a site are those behind so many entries.
    fn has_databases(
        &self,
        defs: &Defs,
        site: &mut MemorySite,
        entries: usize,
    ) -> Result<bool, Fault>
        requires { AllByRecursion IsMsdbDef defs.now.msdbs }
    {
        let stopped = self.stopped;
        let balance = match entries {
            0 => stopped.balances[0],
            1 => stopped.balances[1],
            _ => stopped.balances[2],
        };
        let found = databases_text(self.alloc, defs, stopped.row.numbered, site)?;
        Ok(is_shown(self.alloc, found.as_slice(), (balance, 50, 1))?)
    }

    // The first of eight images that may be left of a run on a site, from which a restart hasn't what was answered, and
    // whether a call failed.
    fn first_lost_image(
        &self,
        defs: &Defs,
        site: &mut MemorySite,
    ) -> Result<(Option<u64>, bool), Fault>
        requires { AllByRecursion IsMsdbDef defs.now.msdbs }
    {
        let (made, _) = self.run_on(site)?;
        for choice in 0..8 {
            if !self.is_kept(defs, made, site.snapshot_as(choice)?)? {
                return Ok((Some(choice), true));
            }
        }
        Ok((None, site.faults() > 0))
    }

    // The same of a run whose call of this number fails, alone or with all behind it.
    fn first_lost_behind(
        &self,
        defs: &Defs,
        call: u64,
        alone: bool,
    ) -> Result<(Option<u64>, bool), Fault>
        requires { AllByRecursion IsMsdbDef defs.now.msdbs }
    {
        let mut site = failing(self.alloc, call, alone)?;
        self.first_lost_image(defs, &mut site)
    }

    // The first failed or stopped call behind which a restart hasn't what was answered, and the image.
    fn first_lost_of(&self, defs: &Defs) -> Result<Option<(u64, u64)>, Fault>
        requires { AllByRecursion IsMsdbDef defs.now.msdbs }
    {
        for number in 0..2 * MOST_CALLS {
            let (lost, failed) = self.first_lost_behind(defs, number / 2, number % 2 == 0)?;
            if let Some(choice) = lost {
                return Ok(Some((number, choice)));
            }
            // Behind the last call nothing fails.
            if !failed {
                break;
            }
        }
        Ok(None)
    }

    // The same, over its own definitions.
    fn first_lost(&self) -> Result<Option<(u64, u64)>, Fault> {
        let defs = core_runs::definitions(self.alloc, self.definitions.as_slice(), &self.exits)?;
        self.first_lost_of(&defs)
    }

    // Whether a run on a site ends in half of a reply line. None where it is done though a call failed, or isn't where
    // none did.
    fn is_torn_on(&self, site: &mut MemorySite) -> Result<Option<bool>, Fault> {
        let stopped = self.stopped;
        let (_, done) = self.run_on(site)?;
        if done != (site.faults() == 0) {
            return Ok(None);
        }
        Ok(Some(is_torn(site.sent(), stopped.row.sent.as_bytes())))
    }

    // The same of a run that is stopped at this call.
    fn is_torn_at(&self, call: u64) -> Result<Option<bool>, Fault> {
        let mut site = failing(self.alloc, call, false)?;
        self.is_torn_on(&mut site)
    }

    // How many of the stopped runs end in half of a reply line. None where one is done though a call failed, or isn't
    // where none did.
    fn count_torn(&self) -> Result<Option<u64>, Fault> {
        let mut torn: u64 = 0;
        for call in 0..MOST_CALLS {
            match self.is_torn_at(call)? {
                Some(true) => torn = torn.saturating_add(1),
                Some(false) => {}
                None => return Ok(None),
            }
        }
        Ok(Some(torn))
    }

    // Whether the run is done where no call fails before this one.
    fn is_done(&self, call: u64) -> Result<bool, Fault> {
        let mut site = failing(self.alloc, call, false)?;
        Ok(matches!(self.run_on(&mut site), Ok((_, true))))
    }

    // Whether each of its two reply lines is one send: two of the stopped runs end in half of one.
    fn sends_lines(&self) -> Result<bool, Fault> {
        Ok(self.count_torn()? == Some(2) && self.is_done(MOST_CALLS)?)
    }
}

// How many entries a text of a log has.
fn entries_in(text: &[u8]) -> usize {
    let mut count: usize = 0;
    for four in text.windows(4) {
        if four == b" => ".as_slice() {
            count = count.saturating_add(1);
        }
    }
    count
}

// Whether what was sent ends in half of a reply line: a send failed.
fn is_torn(sent: &[u8], replies: &[u8]) -> bool {
    let whole = sent.split(|byte| *byte == b'\n').last().unwrap_or(&[]);
    !whole.is_empty()
        && replies.split(|byte| *byte == b'\n').any(|line| whole
            == &line[..line.len().div_ceil(2).min(line.len())])
}

// What was lost of a run: the run by its place, the number of the failed or stopped call, and the image.
type Lost = (usize, u64, u64);

fn first_lost_of_run(
    alloc: Global,
    stopped: &'static Stopped,
    head: &str,
) -> Result<Option<(u64, u64)>, Fault> {
    let stand = Stand::new(alloc, stopped, head)?;
    stand.first_lost()
}

// The first run with such a head behind which a restart hasn't what was answered.
fn first_lost(alloc: Global, head: &str) -> Result<Option<Lost>, Fault> {
    for (place, stopped) in stopped_runs().iter().enumerate() {
        if let Some((number, choice)) = first_lost_of_run(alloc, stopped, head)? {
            return Ok(Some((place, number, choice)));
        }
    }
    Ok(None)
}

#[test]
fn a_restart_has_what_was_answered(rt: HostRuntime) -> Result<(), Fail> {
    for head in HEADS {
        let lost = first_lost(rt.alloc(), head)?;
        let (place, number, choice) = lost.unwrap_or((0, 0, 0));
        assert!(rt;
            lost.is_none(),
            "run {place}, stop {number}, image {choice}: {head}"
        );
    }
    Ok(())
}

fn sends_lines(alloc: Global, stopped: &'static Stopped, head: &str) -> Result<bool, Fault> {
    let stand = Stand::new(alloc, stopped, head)?;
    stand.sends_lines()
}

#[test]
fn each_reply_line_is_one_send(rt: HostRuntime) -> Result<(), Fail> {
    for (place, stopped) in stopped_runs().iter().enumerate() {
        for head in HEADS {
            assert!(rt; sends_lines(rt.alloc(), stopped, head)?, "run {place}");
        }
    }
    Ok(())
}
