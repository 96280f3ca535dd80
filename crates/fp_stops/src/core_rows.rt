//! Short runs, each worked out by hand from the table of turns: what each event does, what is sent, and what the log
//! and the databases hold then.
use crate::systems::{Balances, SCRIPTS, definitions, exits, is_shown};
use crate::telling::dids_text;
use core_runs::{Fault, Found, Task, find};
use fp_core::Did;
use fp_model::Bytes;
use std::alloc::{AllocError, Global};
use std::test::Fail;

/// A run and what comes of it.
pub(crate) struct Row {
    /// What the definitions say before the databases.
    pub(crate) head: &'static str,
    /// Whether the log is of format 2, in which a message may have a number.
    pub(crate) numbered: bool,
    schedule: &'static str,
    messages: &'static [u8],
    /// What each event of the schedule does.
    dids: &'static str,
    /// How many events there are up to the first that sends something.
    quiet: usize,
    pub(crate) sent: &'static str,
    log: &'static str,
    left: Balances,
}

impl Row {
    /// What its run is given besides the definitions.
    pub(crate) fn task<'a>(&self, definitions: &'a Bytes) -> Task<'a> {
        Task {
            definitions: definitions.as_slice(),
            scripts: SCRIPTS.as_bytes(),
            schedule: self.schedule.as_bytes(),
            messages: self.messages,
            numbered: self.numbered,
        }
    }
}

/// Two regions of one group, as in the sample.
pub(crate) const SAMPLE: &str = "regions = [1, 1]
router = \"FOLD\"
log_group = 100
tries = 0
";

/// In which a transaction is begun again once.
const AGAIN: &str = "regions = [1, 1]
router = \"FOLD\"
log_group = 100
tries = 1
";

/// In which each entry is a group.
pub(crate) const SMALL_GROUPS: &str = "regions = [1, 1]
router = \"FOLD\"
log_group = 1
tries = 0
";

/// In which each region has a group of its own.
const TWO_GROUPS: &str = "regions = [1, 2]
router = \"FOLD\"
log_group = 100
tries = 0
";

// ---- withdrawals and deposits side by side

/// Both withdrawals pass the test of their call, and the second fails as it is tested again.
pub(crate) const OVERDRAWN: Row = Row {
    head: SAMPLE,
    numbered: false,
    schedule: "IN IN R1 R2 R1 R2 R1 R1 R2 R2 LOG",
    messages: b"T1 WDRAW A001 60\nT2 WDRAW A001 60\n",
    dids: "queued queued took took answered answered gained committed gained refused sealed/2",
    quiet: 11,
    sent: "T1 OK PAID 60\nT2 NO VERIFY\n",
    log: "group 0 entries 2\n\
0 from 0 notes 0 DONE T1 WDRAW A001 60 => PAID 60\n\
1 from 0 notes 0 VERIFY 0.0 0000040c T2 WDRAW A001 60 => -\n",
    left: (40, 50, 1),
};

/// The same, begun again: now the second finds too little at its call.
const OVERDRAWN_AGAIN: Row = Row {
    head: AGAIN,
    numbered: false,
    schedule: "IN IN R1 R2 R1 R2 R1 R1 R2 R2 LOG",
    messages: b"T1 WDRAW A001 60\nT2 WDRAW A001 60\n",
    dids: "queued queued took took answered answered gained committed gained retried sealed/1",
    quiet: 11,
    sent: "T1 OK PAID 60\nT2 NO ROLB 7\n",
    log: "group 0 entries 1\n\
0 from 0 notes 0 DONE T1 WDRAW A001 60 => PAID 60\n\
group 1 entries 1\n\
1 from 1 notes 1 ROLB 7 T2 WDRAW A001 60 => -\n",
    left: (40, 50, 1),
};

/// Both deposits add to what stands.
const BOTH_ADD: Row = Row {
    head: SAMPLE,
    numbered: false,
    schedule: "IN IN R1 R2 R1 R2 R1 R1 R2 R2 LOG",
    messages: b"T1 DEPOSIT A001 10\nT2 DEPOSIT A001 20\n",
    dids: "queued queued took took answered answered gained committed gained committed sealed/2",
    quiet: 11,
    sent: "T1 OK NEW\nT2 OK NEW\n",
    log: "group 0 entries 2\n\
0 from 0 notes 0 DONE T1 DEPOSIT A001 10 => NEW\n\
1 from 0 notes 0 DONE T2 DEPOSIT A001 20 => NEW\n",
    left: (130, 50, 1),
};

/// The deposit waits until the segment isn't held any more.
pub(crate) const WAITS_FOR_A_HOLD: Row = Row {
    head: SAMPLE,
    numbered: false,
    schedule: "IN IN R1 R1 R1 R2 R2 R2 R1 R1 R2 R2 LOG",
    messages: b"T1 SETBAL A001 500\nT2 DEPOSIT A001 10\n",
    dids: "queued queued took gained answered took answered waited answered committed gained committed sealed/2",
    quiet: 13,
    sent: "T1 OK SET\nT2 OK NEW\n",
    log: "group 0 entries 2\n\
0 from 0 notes - DONE T1 SETBAL A001 500 => SET\n\
1 from 0 notes 0 DONE T2 DEPOSIT A001 10 => NEW\n",
    left: (510, 50, 1),
};

/// A sum out of the field's range: at the sync point, and then at the call.
const OVERFLOW: Row = Row {
    head: SAMPLE,
    numbered: false,
    schedule: "IN R1 R1 R1 R1 R1 IN IN R1 R2 R1 R2 R1 R1 R2 R2 LOG IN R1 R1 R1 LOG",
    messages: b"T3 SETBAL A001 9999990\nT1 DEPOSIT A001 9\nT2 DEPOSIT A001 9\nT1 DEPOSIT A001 1\n",
    dids: "queued took gained answered answered committed \
queued queued took took answered answered gained committed gained refused sealed/3 \
queued took answered refused sealed/1",
    quiet: 17,
    sent: "T3 OK SET\nT1 OK NEW\nT2 NO VERIFY\nT1 NO ROLB 1\n",
    log: "group 0 entries 3\n\
0 from 0 notes - DONE T3 SETBAL A001 9999990 => SET\n\
1 from 1 notes 1 DONE T1 DEPOSIT A001 9 => NEW\n\
2 from 1 notes 1 VERIFY 0.0 9999999c T2 DEPOSIT A001 9 => -\n\
group 1 entries 1\n\
3 from 3 notes 3 ROLB 1 T1 DEPOSIT A001 1 => -\n",
    left: (9999999, 50, 1),
};

// ---- what a look sees

/// An answer that was given before a commit, and leaves behind it.
const LOOKS_BEFORE: Row = Row {
    head: SAMPLE,
    numbered: false,
    schedule: "IN R1 R1 R1 R1 IN R2 R2 IN R1 R1 R1 R1 R2 LOG",
    messages: b"T1 DEPOSIT A001 10\nT2 ASK A001\nT3 DEPOSIT A001 20\n",
    dids: "queued took answered gained committed queued took answered \
queued took answered gained committed committed sealed/3",
    quiet: 15,
    sent: "T1 OK NEW\nT3 OK NEW\nT2 OK 110\n",
    log: "group 0 entries 3\n\
0 from 0 notes 0 DONE T1 DEPOSIT A001 10 => NEW\n\
1 from 1 notes 1 DONE T3 DEPOSIT A001 20 => NEW\n\
2 from 1 notes 1 DONE T2 ASK A001 => 110\n",
    left: (130, 50, 1),
};

/// One that was given behind it.
const LOOKS_BEHIND: Row = Row {
    head: SAMPLE,
    numbered: false,
    schedule: "IN R1 R1 R1 R1 IN R2 IN R1 R1 R1 R1 R2 R2 LOG",
    messages: b"T1 DEPOSIT A001 10\nT2 ASK A001\nT3 DEPOSIT A001 20\n",
    dids: "queued took answered gained committed queued took \
queued took answered gained committed answered committed sealed/3",
    quiet: 15,
    sent: "T1 OK NEW\nT3 OK NEW\nT2 OK 130\n",
    log: "group 0 entries 3\n\
0 from 0 notes 0 DONE T1 DEPOSIT A001 10 => NEW\n\
1 from 1 notes 1 DONE T3 DEPOSIT A001 20 => NEW\n\
2 from 1 notes 2 DONE T2 ASK A001 => 130\n",
    left: (130, 50, 1),
};

// ---- groups and lines that wait

/// Four entries leave together.
const ONE_GROUP: Row = Row {
    head: SAMPLE,
    numbered: false,
    schedule: "IN R1 R1 R1 R1 IN R1 R1 R1 R1 IN R1 R1 R1 R1 IN R1 R1 R1 R1 LOG",
    messages: b"T1 DEPOSIT A001 1\nT2 DEPOSIT A001 2\nT3 DEPOSIT A002 3\nT4 DEPOSIT A001 4",
    dids: "queued took answered gained committed queued took answered gained committed \
queued took answered gained committed queued took answered gained committed sealed/4",
    quiet: 21,
    sent: "T1 OK NEW\nT2 OK NEW\nT3 OK NEW\nT4 OK NEW\n",
    log: "group 0 entries 4\n\
0 from 0 notes 0 DONE T1 DEPOSIT A001 1 => NEW\n\
1 from 1 notes 1 DONE T2 DEPOSIT A001 2 => NEW\n\
2 from 2 notes 2 DONE T3 DEPOSIT A002 3 => NEW\n\
3 from 3 notes 3 DONE T4 DEPOSIT A001 4 => NEW\n",
    left: (107, 53, 1),
};

/// Groups of one entry: LOG seals one, and CKPT all. OUT, a region without a message and a LOG without an entry do
/// nothing.
const SMALL: Row = Row {
    head: SMALL_GROUPS,
    numbered: false,
    schedule: "OUT LOG CKPT R2 IN R1 R1 R1 R1 IN R1 R1 R1 R1 IN R2 R2 R2 LOG CKPT CKPT LOG IN",
    messages: b"T1 DEPOSIT A001 1\nT2 DEPOSIT A001 2\nT3 ASK A009\n",
    dids: "nothing nothing nothing nothing queued took answered gained committed \
queued took answered gained committed queued took answered committed \
sealed/1 sealed/2 nothing nothing nothing",
    quiet: 19,
    sent: "T1 OK NEW\nT2 OK NEW\nT3 OK NONE\n",
    log: "group 0 entries 1\n\
0 from 0 notes 0 DONE T1 DEPOSIT A001 1 => NEW\n\
group 1 entries 1\n\
1 from 1 notes 1 DONE T2 DEPOSIT A001 2 => NEW\n\
group 2 entries 1\n\
2 from 2 notes 2 DONE T3 ASK A009 => NONE\n",
    left: (103, 50, 1),
};

/// A line waits until its terminal was answered.
const HELD: Row = Row {
    head: SAMPLE,
    numbered: false,
    schedule: "IN IN R1 R1 R1 R1 IN LOG IN",
    messages: b"T1 DEPOSIT A001 10\nT1 DEPOSIT A001 20\n",
    dids: "queued held took answered gained committed held sealed/1 queued",
    quiet: 8,
    sent: "T1 OK NEW\nT1 OK NEW\n",
    log: "group 0 entries 1\n\
0 from 0 notes 0 DONE T1 DEPOSIT A001 10 => NEW\n\
group 1 entries 1\n\
1 from 1 notes 1 DONE T1 DEPOSIT A001 20 => NEW\n",
    left: (130, 50, 1),
};

/// Lines that are no messages, or name no script, are refused, and stop nothing. One of them waits for its terminal.
const UNKNOWN: Row = Row {
    head: SAMPLE,
    numbered: false,
    schedule: "IN IN IN IN LOG IN IN LOG",
    messages: b"T1 NOSUCH A001\n\nT2\nT1 DEPOSIT A001 \x80\n9 ASK\nT3 ASK A001\n",
    dids: "refused refused refused held sealed/3 refused refused sealed/2",
    quiet: 5,
    sent: "T1 NO UNKNOWN\n? NO UNKNOWN\nT2 NO UNKNOWN\nT1 NO UNKNOWN\n? NO UNKNOWN\nT3 OK 100\n",
    log: "group 0 entries 3\n\
0 from 0 notes - UNKNOWN T1 NOSUCH A001 => -\n\
1 from 1 notes - UNKNOWN - => -\n\
2 from 2 notes - UNKNOWN T2 => -\n\
group 1 entries 2\n\
3 from 3 notes - UNKNOWN T1 DEPOSIT A001 . => -\n\
4 from 4 notes - UNKNOWN 9 ASK => -\n\
group 2 entries 1\n\
5 from 5 notes 5 DONE T3 ASK A001 => 100\n",
    left: (100, 50, 1),
};

// ---- locks

/// Each holds what the other needs: the second is refused, and the first goes on.
pub(crate) const CROSSWISE: Row = Row {
    head: SAMPLE,
    numbered: false,
    schedule: "IN IN R1 R1 R2 R2 R1 R2 R1 R2 R1 R1 R1 LOG",
    messages: b"T1 TWOACC A001 A002\nT2 TWOACC A002 A001\n",
    dids: "queued queued took gained took gained answered answered waited refused \
gained answered committed sealed/2",
    quiet: 14,
    sent: "T2 NO DEADLOCK\nT1 OK BOTH\n",
    log: "group 0 entries 2\n\
0 from 0 notes - DEADLOCK 2,1 T2 TWOACC A002 A001 => -\n\
1 from 0 notes - DONE T1 TWOACC A001 A002 => BOTH\n",
    left: (100, 50, 1),
};

/// The same, begun again: both are done.
const CROSSWISE_AGAIN: Row = Row {
    head: AGAIN,
    numbered: false,
    schedule: "IN IN R1 R1 R2 R2 R1 R2 R1 R2 R1 R1 R1 LOG",
    messages: b"T1 TWOACC A001 A002\nT2 TWOACC A002 A001\n",
    dids: "queued queued took gained took gained answered answered waited retried \
gained answered committed sealed/1",
    quiet: 14,
    sent: "T1 OK BOTH\nT2 OK BOTH\n",
    log: "group 0 entries 1\n\
0 from 0 notes - DONE T1 TWOACC A001 A002 => BOTH\n\
group 1 entries 1\n\
1 from 0 notes - DONE T2 TWOACC A002 A001 => BOTH\n",
    left: (100, 50, 1),
};

/// An insert needs its key, also one that isn't there.
const INSERTS: Row = Row {
    head: SAMPLE,
    numbered: false,
    schedule: "IN IN R1 R1 R2 R2 R1 R2 R1 R1 R2 R2 R2 R2 LOG IN R1 R1 R1 R1 R1 LOG",
    messages: b"T1 HIRE T009\nT2 HIRE T009\nT3 HIRE T001\n",
    dids: "queued queued took gained took waited answered waited answered committed \
gained answered answered committed sealed/2 queued took gained answered answered committed sealed/1",
    quiet: 15,
    sent: "T1 OK / XP\nT2 OK II/ II\nT3 OK II/ II\n",
    log: "group 0 entries 2\n\
0 from 0 notes - DONE T1 HIRE T009 => / XP\n\
1 from 0 notes - DONE T2 HIRE T009 => II/ II\n\
group 1 entries 1\n\
2 from 2 notes - DONE T3 HIRE T001 => II/ II\n",
    left: (100, 50, 2),
};

/// A region takes messages of its own group alone: deposits go to the first, withdrawals to the second.
const ROUTED: Row = Row {
    head: TWO_GROUPS,
    numbered: false,
    schedule: "IN R1 R2 IN R2 R1 R2 R2 R1 R1 R2 R2 R1 LOG",
    messages: b"T1 WDRAW A001 60\nT2 DEPOSIT A001 5\n",
    dids: "queued nothing took queued answered took gained committed answered gained nothing nothing committed sealed/2",
    quiet: 14,
    sent: "T1 OK PAID 60\nT2 OK NEW\n",
    log: "group 0 entries 2\n\
0 from 0 notes 0 DONE T1 WDRAW A001 60 => PAID 60\n\
1 from 0 notes 1 DONE T2 DEPOSIT A001 5 => NEW\n",
    left: (45, 50, 1),
};

/// The drain alone: a round is IN, each region, LOG.
const DRAINED: Row = Row {
    head: SAMPLE,
    numbered: false,
    schedule: "",
    messages: b"T1 DEPOSIT A001 1\nT2 WDRAW A002 60\nT3 ASK A001\n",
    dids: "",
    quiet: 0,
    sent: "T1 OK NEW\nT2 NO ROLB 7\nT3 OK 101\n",
    log: "group 0 entries 2\n\
0 from 0 notes 0 DONE T1 DEPOSIT A001 1 => NEW\n\
1 from 0 notes 0 ROLB 7 T2 WDRAW A002 60 => -\n\
group 1 entries 1\n\
2 from 2 notes 2 DONE T3 ASK A001 => 101\n",
    left: (101, 50, 1),
};

// ---- message numbers

/// The line of the last number gets the same reply and runs nothing, a lower number is old, and a line without a number
/// runs each time.
const SENT_AGAIN: Row = Row {
    head: SAMPLE,
    numbered: true,
    schedule: "IN R1 R1 R1 R1 LOG IN LOG IN R1 R1 R1 LOG IN LOG IN LOG IN R1 R1 R1 R1 LOG IN LOG",
    messages: b"T1 1 DEPOSIT A001 10\nT1 1 DEPOSIT A001 10\nT1 3 ASK A001\nT1 2 ASK A001\nT1 3 ASK A001\n\
T1 DEPOSIT A001 5\nT1 3 ASK A001\n",
    dids: "queued took answered gained committed sealed/1 refused sealed/1 queued took answered committed sealed/1 \
refused sealed/1 refused sealed/1 queued took answered gained committed sealed/1 refused sealed/1",
    quiet: 6,
    sent: "T1 OK NEW\nT1 OK NEW\nT1 OK 110\nT1 NO OLD 3\nT1 OK 110\nT1 OK NEW\nT1 OK 110\n",
    log: "group 0 entries 1\n\
0 from 0 notes 0 DONE T1 1 DEPOSIT A001 10 => NEW\n\
group 1 entries 1\n\
1 from 1 notes - REPEAT T1 1 DEPOSIT A001 10 => -\n\
group 2 entries 1\n\
2 from 2 notes 2 DONE T1 3 ASK A001 => 110\n\
group 3 entries 1\n\
3 from 3 notes - OLD 3 T1 2 ASK A001 => -\n\
group 4 entries 1\n\
4 from 4 notes - REPEAT T1 3 ASK A001 => -\n\
group 5 entries 1\n\
5 from 5 notes 5 DONE T1 DEPOSIT A001 5 => NEW\n\
group 6 entries 1\n\
6 from 6 notes - REPEAT T1 3 ASK A001 => -\n",
    left: (115, 50, 1),
};

/// A refusal uses its number too: a transaction that isn't known, and one that rolls back. Each terminal has numbers of
/// its own.
const REFUSED_AGAIN: Row = Row {
    head: SAMPLE,
    numbered: true,
    schedule: "IN IN IN R1 R2 R1 R1 R2 R2 LOG IN IN IN LOG IN IN IN LOG",
    messages: b"T1 7 NOSUCH A001\nT2 7 WDRAW A001 101\nT3 8 ASK A001\nT1 7 ASK A001\nT2 7 ASK A001\nT3 7 ASK A001\n\
T1 6 ASK A001\nT2 6 ASK A001\nT3 8 NOSUCH\n",
    dids: "refused queued queued took took answered refused answered committed sealed/3 \
refused refused refused sealed/3 refused refused refused sealed/3",
    quiet: 10,
    sent: "T1 NO UNKNOWN\nT2 NO ROLB 7\nT3 OK 100\nT1 NO UNKNOWN\nT2 NO ROLB 7\nT3 NO OLD 8\n\
T1 NO OLD 7\nT2 NO OLD 7\nT3 OK 100\n",
    log: "group 0 entries 3\n\
0 from 0 notes - UNKNOWN T1 7 NOSUCH A001 => -\n\
1 from 1 notes 1 ROLB 7 T2 7 WDRAW A001 101 => -\n\
2 from 1 notes 2 DONE T3 8 ASK A001 => 100\n\
group 1 entries 3\n\
3 from 3 notes - REPEAT T1 7 ASK A001 => -\n\
4 from 4 notes - REPEAT T2 7 ASK A001 => -\n\
5 from 5 notes - OLD 8 T3 7 ASK A001 => -\n\
group 2 entries 3\n\
6 from 6 notes - OLD 7 T1 6 ASK A001 => -\n\
7 from 7 notes - OLD 7 T2 6 ASK A001 => -\n\
8 from 8 notes - REPEAT T3 8 NOSUCH => -\n",
    left: (100, 50, 1),
};

/// So does a refusal with a deadlock.
const CROSSED_AGAIN: Row = Row {
    head: SAMPLE,
    numbered: true,
    schedule: "IN IN R1 R1 R2 R2 R1 R2 R1 R2 R1 R1 R1 LOG IN IN LOG",
    messages: b"T1 1 TWOACC A001 A002\nT2 1 TWOACC A002 A001\nT2 1 TWOACC A002 A001\nT1 1 TWOACC A001 A002\n",
    dids: "queued queued took gained took gained answered answered waited refused \
gained answered committed sealed/2 refused refused sealed/2",
    quiet: 14,
    sent: "T2 NO DEADLOCK\nT1 OK BOTH\nT2 NO DEADLOCK\nT1 OK BOTH\n",
    log: "group 0 entries 2\n\
0 from 0 notes - DEADLOCK 2,1 T2 1 TWOACC A002 A001 => -\n\
1 from 0 notes - DONE T1 1 TWOACC A001 A002 => BOTH\n\
group 1 entries 2\n\
2 from 2 notes - REPEAT T2 1 TWOACC A002 A001 => -\n\
3 from 3 notes - REPEAT T1 1 TWOACC A001 A002 => -\n",
    left: (100, 50, 1),
};

/// In a log of format 1 no line has a number: such a line names no script.
const WITHOUT_NUMBERS: Row = Row {
    head: SAMPLE,
    numbered: false,
    schedule: "IN LOG IN LOG",
    messages: b"T1 1 ASK A001\nT1 1 ASK A001\n",
    dids: "refused sealed/1 refused sealed/1",
    quiet: 2,
    sent: "T1 NO UNKNOWN\nT1 NO UNKNOWN\n",
    log: "group 0 entries 1\n\
0 from 0 notes - UNKNOWN T1 1 ASK A001 => -\n\
group 1 entries 1\n\
1 from 1 notes - UNKNOWN T1 1 ASK A001 => -\n",
    left: (100, 50, 1),
};

// A table for each part above, named in a function of its own.
static SIDE_BY_SIDE: [Row; 5] = [
    OVERDRAWN,
    OVERDRAWN_AGAIN,
    BOTH_ADD,
    WAITS_FOR_A_HOLD,
    OVERFLOW,
];

static LOOKS: [Row; 2] = [LOOKS_BEFORE, LOOKS_BEHIND];

static GROUPS: [Row; 4] = [ONE_GROUP, SMALL, HELD, UNKNOWN];

static LOCKS: [Row; 5] = [CROSSWISE, CROSSWISE_AGAIN, INSERTS, ROUTED, DRAINED];

static NUMBERS: [Row; 4] = [SENT_AGAIN, REFUSED_AGAIN, CROSSED_AGAIN, WITHOUT_NUMBERS];

fn side_by_side() -> &'static [Row] {
    &SIDE_BY_SIDE
}

fn looks() -> &'static [Row] {
    &LOOKS
}

fn groups() -> &'static [Row] {
    &GROUPS
}

fn locks() -> &'static [Row] {
    &LOCKS
}

fn numbers() -> &'static [Row] {
    &NUMBERS
}

// What is found of the run of a row.
fn found_of(alloc: Global, row: &Row) -> Result<Found, Fault> {
    let definitions = definitions(alloc, row.head)?;
    find(alloc, &row.task(&definitions), &exits(alloc)?)
}

// The first part of what was found that isn't as wanted.
fn first_difference(
    alloc: Global,
    found: &Found,
    row: &Row,
) -> Result<Option<&'static str>, AllocError> {
    if !are_told(alloc, &found.dids, row.dids)? {
        return Ok(Some("dids"));
    }
    if found.sent.as_slice() != row.sent.as_bytes() {
        return Ok(Some("sent"));
    }
    if found.groups.as_slice() != row.log.as_bytes() {
        return Ok(Some("log"));
    }
    if !is_shown(alloc, found.databases.as_slice(), row.left)? {
        return Ok(Some("databases"));
    }
    if found.quiet != row.quiet {
        return Ok(Some("quiet"));
    }
    Ok(None)
}

// Whether these are the words for what the steps did.
fn are_told(alloc: Global, dids: &[Did], wanted: &str) -> Result<bool, AllocError> {
    let text = dids_text(alloc, dids)?;
    Ok(text.as_str() == wanted)
}

// Runs a row, and tells the first part that isn't as wanted: "memory" where there is none to look.
fn difference(alloc: Global, row: &Row) -> Result<Option<&'static str>, Fault> {
    let found = found_of(alloc, row)?;
    Ok(first_difference(alloc, &found, row).unwrap_or(Some("memory")))
}

// The first row of a table of which a part isn't as wanted, by its place, and that part.
fn first_wrong(alloc: Global, rows: &[Row]) -> Result<Option<(usize, &'static str)>, Fault> {
    for (place, row) in rows.iter().enumerate() {
        if let Some(part) = difference(alloc, row)? {
            return Ok(Some((place, part)));
        }
    }
    Ok(None)
}

#[test]
fn each_run_comes_to_what_is_wanted(rt: HostRuntime) -> Result<(), Fail> {
    let tables = [side_by_side(), looks(), groups(), locks(), numbers()];
    for (table, rows) in tables.iter().enumerate() {
        let wrong = first_wrong(rt.alloc(), rows)?;
        let (place, part) = wrong.unwrap_or((0, "none"));
        assert!(rt; wrong.is_none(), "table {table}, row {place}: {part}");
    }
    Ok(())
}
