//! Whole runs: their reply lines, the bytes of a group, a second run, another's log, a damaged gate, a line that is too
//! long, a read that fails; and regions that take turns by a schedule.
use crate::steps::{Answer, Folder, Row, Step, first_wrong};
use crate::systems::{EACH_SEALED, ONE_REGION, PAIRS};
use std::alloc::{AllocError, Global};
use std::test::Fail;

// Messages one after another, and the lines that they are answered.
static REPLIES: [(&str, &str); 15] = [
    ("", ""),
    ("T1 DEPOSIT A001 10\n", "T1 OK NEW\n"),
    ("T1 DEPOSIT A009 10\n", "T1 NO ROLB 1\n"),
    (
        "T1 WDRAW A001 100\nT1 ASK A001",
        "T1 OK PAID 100\nT1 OK 0\n",
    ),
    ("T1 WDRAW A002 60\n", "T1 NO ROLB 7\n"),
    (
        "T1 SETBAL A001 9999999\nT2 DEPOSIT A001 1\nT3 TWICE A001 9\nT3 TWICE A002 9\nT4 ASK A002\n",
        "T1 OK SET\nT2 NO ROLB 1\nT3 NO ROLB 2\nT3 OK TWO\nT4 OK 68\n",
    ),
    (
        "T1 SETBAL A001 9999990\nT3 TWICE A001 9\nT4 ASK A001\n",
        "T1 OK SET\nT3 NO VERIFY\nT4 OK 9999990\n",
    ),
    (
        "T1 NOSUCH\n\nT2 ASK A009\n",
        "T1 NO UNKNOWN\n? NO UNKNOWN\nT2 OK NONE\n",
    ),
    ("T1 HIRE T009\nT2 HIRE T001\n", "T1 OK / XP\nT2 OK II/ II\n"),
    // With numbers.
    ("T1 1 ASK A001\nT1 1 ASK A001\n", "T1 OK 100\nT1 OK 100\n"),
    (
        "T1 7 NOSUCH\nT1 7 ASK A001\n",
        "T1 NO UNKNOWN\nT1 NO UNKNOWN\n",
    ),
    (
        "T1 2 DEPOSIT A009 1\nT1 2 DEPOSIT A001 1\nT1 ASK A001\n",
        "T1 NO ROLB 1\nT1 NO ROLB 1\nT1 OK 100\n",
    ),
    ("T1 5 ASK A001\nT2 1 ASK A002\n", "T1 OK 100\nT2 OK 50\n"),
    ("T1 01 ASK A001\n", "T1 NO UNKNOWN\n"),
    ("T1 5 ASK A001\nT1 4 NOSUCH\n", "T1 OK 100\nT1 NO OLD 5\n"),
];

// Whether messages one after another on a new site are answered so.
fn are_answered(alloc: Global, messages: &str, sent: &str) -> Result<bool, AllocError> {
    let mut folder = Folder::new(alloc, ONE_REGION)?;
    folder.defines_and_runs(EACH_SEALED, messages, sent)
}

#[test]
fn messages_have_their_replies(rt: HostRuntime) -> Result<(), Fail> {
    for (place, (messages, sent)) in REPLIES.iter().enumerate() {
        assert!(rt; are_answered(rt.alloc(), messages, sent)?, "row {place}");
    }
    Ok(())
}

static RUNS: [Row; 9] = [
    // A deposit and a rollback are these groups.
    Row {
        system: ONE_REGION,
        steps: &[
            Step::Define,
            Step::Run {
                schedule: EACH_SEALED,
                messages: "T1 DEPOSIT A001 10\n",
                sent: "T1 OK NEW\n",
            },
            Step::Groups(
                b"\x01\x00\x00\x00\x00\x00\x00\x00\x4b\x00\x00\x00\x00\x00\x00\x00\x43\
\x00\x00\x00\x00\x00\x00\x00\x00\x00\x00\x12T1 DEPOSIT A001 10\x00\x03NEW\x00\x00\x00\x01\
\x00\x00\x00\x00\x00\x00\x00\x00\x00\x00\x00\x01\x01\x00\x04A001\x00\x08A001\x00\x00\x11\x0c\x00",
            ),
        ],
    },
    Row {
        system: ONE_REGION,
        steps: &[
            Step::Define,
            Step::Run {
                schedule: EACH_SEALED,
                messages: "T1 DEPOSIT A009 10\n",
                sent: "T1 NO ROLB 1\n",
            },
            Step::Groups(
                b"\x01\x00\x00\x00\x00\x00\x00\x00\x39\x00\x00\x00\x00\x00\x00\x00\x31\
\x00\x00\x00\x00\x00\x00\x00\x00\x02\x00\x01\x00\x12T1 DEPOSIT A009 10\x00\x00\x00\x00\x00\x01\
\x00\x00\x00\x00\x00\x00\x00\x00\x00\x00\x00\x00\x00",
            ),
        ],
    },
    // A second run goes on.
    Row {
        system: ONE_REGION,
        steps: &[
            Step::Define,
            Step::Run {
                schedule: EACH_SEALED,
                messages: "T1 DEPOSIT A001 10\n",
                sent: "T1 OK NEW\n",
            },
            Step::Run {
                schedule: EACH_SEALED,
                messages: "T1 DEPOSIT A001 5\nT2 ASK A001\n",
                sent: "T1 OK NEW\nT2 OK 115\n",
            },
        ],
    },
    // A number is used once.
    Row {
        system: ONE_REGION,
        steps: &[
            Step::Define,
            Step::Run {
                schedule: EACH_SEALED,
                messages: "T1 1 DEPOSIT A001 10\n",
                sent: "T1 OK NEW\n",
            },
            Step::Run {
                schedule: EACH_SEALED,
                messages: "T1 1 DEPOSIT A001 10\nT1 3 ASK A001\nT1 2 ASK A001\n",
                sent: "T1 OK NEW\nT1 OK 110\nT1 NO OLD 3\n",
            },
        ],
    },
    // Another's log stays as it is.
    Row {
        system: ONE_REGION,
        steps: &[
            Step::Define,
            Step::Foreign { command: "run" },
            Step::Run {
                schedule: EACH_SEALED,
                messages: "T1 DEPOSIT A001 10\n",
                sent: "T1 OK NEW\n",
            },
            Step::Foreign { command: "show" },
            Step::Foreign { command: "log" },
            Step::Foreign { command: "audit" },
        ],
    },
    // An open gate before zeros is damage.
    Row {
        system: ONE_REGION,
        steps: &[
            Step::Define,
            Step::Put {
                back: 1,
                bytes: b"\x01\0\0\0\0\0\0\0\0\0\0\0",
            },
            Step::End {
                command: "run",
                failing: &[],
                answer: Answer::Damaged { back: 12 },
                sent: "",
            },
        ],
    },
    // A line that is too long ends the run.
    Row {
        system: ONE_REGION,
        steps: &[
            Step::Define,
            Step::RunTooLong {
                schedule: EACH_SEALED,
                messages: "T1 DEPOSIT A001 10\n",
                number: 2,
                sent: "T1 OK NEW\n",
            },
        ],
    },
    // A read may fail in the middle.
    Row {
        system: ONE_REGION,
        steps: &[
            Step::Define,
            Step::End {
                command: "run",
                failing: &[7],
                answer: Answer::ReadFault,
                sent: "T1 OK NEW\n",
            },
        ],
    },
    // The first read of the schedule, behind two of the definitions and two of the scripts: a making doesn't read it.
    Row {
        system: PAIRS,
        steps: &[
            Step::End {
                command: "define",
                failing: &[4],
                answer: Answer::Done,
                sent: "",
            },
            Step::End {
                command: "run",
                failing: &[4],
                answer: Answer::ReadFault,
                sent: "",
            },
            Step::GroupsLength(0),
        ],
    },
];

#[test]
fn each_run_comes_to_what_is_wanted(rt: HostRuntime) -> Result<(), Fail> {
    let wrong = first_wrong(rt.alloc(), &RUNS)?;
    assert!(rt; wrong.is_none(), "at {wrong:?}");
    Ok(())
}

// A schedule of two regions, messages, what is sent, and how many bytes the groups of the log have.
static SCHEDULES: [(&str, &str, &str, usize); 8] = [
    (
        "",
        "T1 DEPOSIT A001 5\nT2 WDRAW A001 105\nT3 ASK A001\n",
        "T1 OK NEW\nT2 NO ROLB 7\nT3 OK 105\n",
        199,
    ),
    (
        "IN IN R1 R2 R1 R2 R1 R2 R1 R2 R2 LOG",
        "T1 WDRAW A001 60\nT2 WDRAW A001 60\nT3 ASK A001\n",
        "T1 OK PAID 60\nT2 NO VERIFY\nT3 OK 40\n",
        210,
    ),
    (
        "IN IN R1 R2 R1 R2 R1 R2 R1 R2 R2 LOG",
        "T1 WDRAW A001 60\nT2 WDRAW A001 40\nT3 ASK A001\n",
        "T1 OK PAID 60\nT2 OK PAID 40\nT3 OK 0\n",
        221,
    ),
    (
        "IN IN R1 R2 R1 R2 R1 R1 R2 R2 R1 R1 CKPT",
        "T1 BOTH A001 A002\nT2 BOTH A002 A001\n",
        "T2 NO DEADLOCK\nT1 OK 100+50\n",
        119,
    ),
    (
        "IN IN R1 R2 R1 R1 R1 R1 R1 R2 R2",
        "T1 BOTH A001 A002\nT2 BOTH A002 A001\n",
        "T1 OK 100+50\nT2 OK 50+100\n",
        122,
    ),
    (
        "IN IN R1 R1 R1 R1 R1 IN OUT LOG IN R2 R2",
        "T1 DEPOSIT A001 5\nT1 ASK A001\nT2 NOSUCH\n",
        "T1 OK NEW\nT2 NO UNKNOWN\nT1 OK 105\n",
        181,
    ),
    (
        "IN IN IN R2 R2 R1 R1 R1 R1 LOG",
        "T1 ASK A001\nT2 DEPOSIT A001 5\nT3 NOSUCH\n",
        "T3 NO UNKNOWN\nT2 OK NEW\nT1 OK 100\n",
        181,
    ),
    (
        "IN\tIN\r\n\r\n LOG",
        "T1 NOSUCH\n\nT2 ASK A002\n",
        "T1 NO UNKNOWN\n? NO UNKNOWN\nT2 OK 50\n",
        135,
    ),
];

// Whether a run by a schedule on a new site sends this, and the groups of its log have so many bytes.
fn is_scheduled(
    alloc: Global,
    schedule: &str,
    messages: &str,
    sent: &str,
    length: usize,
) -> Result<bool, AllocError> {
    let mut folder = Folder::new(alloc, PAIRS)?;
    let ran = matches!(folder.defines_and_runs(schedule, messages, sent), Ok(true));
    Ok(ran && folder.has_groups_of(length))
}

#[test]
fn a_schedule_says_whose_turn_it_is(rt: HostRuntime) -> Result<(), Fail> {
    for (place, (schedule, messages, sent, length)) in SCHEDULES.iter().enumerate() {
        let is_so = is_scheduled(rt.alloc(), schedule, messages, sent, *length)?;
        assert!(rt; is_so, "row {place}");
    }
    Ok(())
}

const TWO_DEPOSITS: &str = "T1 DEPOSIT A001 10\nT2 DEPOSIT A001 20\n";

// Schedules of two deposits before a line that is too long, and what was sent by then: what a LOG sealed, and nothing
// else. A question behind it is answered by what is left.
static CUT_SHORT: [(&str, &str, &str); 4] = [
    ("", "", "T3 OK 100\n"),
    ("IN IN IN", "", "T3 OK 100\n"),
    ("IN R1 R1 R1 R1 IN R1 R1 R1 R1", "", "T3 OK 100\n"),
    (
        "IN R1 R1 R1 R1 LOG IN R2 R2 R2 R2 IN",
        "T1 OK NEW\n",
        "T3 OK 110\n",
    ),
];

// Whether a run that ends at a line that is too long sends this, and a question behind it is answered so.
fn ends_too_long(
    folder: &mut Folder,
    schedule: &str,
    sent: &str,
    asked: &str,
) -> Result<bool, AllocError> {
    Ok(
        folder.tells("define", "")?
            && folder.runs_too_long(schedule, TWO_DEPOSITS, 3, sent)?
            && folder.runs("", "T3 ASK A001\n", asked)?,
    )
}

// The same on a new site.
fn is_cut_short(
    alloc: Global,
    schedule: &str,
    sent: &str,
    asked: &str,
) -> Result<bool, AllocError> {
    let mut folder = Folder::new(alloc, PAIRS)?;
    ends_too_long(&mut folder, schedule, sent, asked)
}

#[test]
fn what_is_not_sealed_is_lost_at_a_line_that_is_too_long(rt: HostRuntime) -> Result<(), Fail> {
    for (place, (schedule, sent, asked)) in CUT_SHORT.iter().enumerate() {
        assert!(rt;
            is_cut_short(rt.alloc(), schedule, sent, asked)?,
            "row {place}"
        );
    }
    Ok(())
}
