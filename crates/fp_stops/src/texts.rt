//! What `show`, `log` and `audit` send behind a run, also where bytes of the log were changed.
use crate::steps::{Answer, Folder, Row, Step, first_wrong};
use crate::systems::{Balances, FOUR_REGIONS, TWO_REGIONS, shown};
use std::alloc::{AllocError, Global};
use std::test::Fail;

// A run, and what `show` and `log` send behind it.
struct Text {
    schedule: &'static str,
    messages: &'static str,
    sent: &'static str,
    left: Balances,
    logged: &'static str,
}

static TEXTS: [Text; 6] = [
    Text {
        schedule: "",
        messages: "",
        sent: "",
        left: (100, 50, 1),
        logged: "",
    },
    Text {
        schedule: "IN R1 R1 R1 R1 IN R2 R2 IN R1 R1 R1 R1 R2 LOG",
        messages: "T1 DEPOSIT A001 10\nT2 ASK A001\nT3 DEPOSIT A001 20\n",
        sent: "T1 OK NEW\nT3 OK NEW\nT2 OK 110\n",
        left: (130, 50, 1),
        logged: "group 0 entries 3
0 from 0 notes 0 DONE T1 DEPOSIT A001 10 => NEW
1 from 1 notes 1 DONE T3 DEPOSIT A001 20 => NEW
2 from 1 notes 1 DONE T2 ASK A001 => 110
",
    },
    Text {
        schedule: "IN R1 R1 R1 R1 IN R1 R1 R1 R1 IN R1 R1 R1 R1 IN R1 R1 R1 R1 LOG",
        messages: "T1 DEPOSIT A001 1\nT2 DEPOSIT A001 2\nT3 DEPOSIT A001 3\nT4 DEPOSIT A002 -60\n",
        sent: "T1 OK NEW\nT2 OK NEW\nT3 OK NEW\nT4 OK NEW\n",
        left: (106, -10, 1),
        logged: "group 0 entries 4
0 from 0 notes 0 DONE T1 DEPOSIT A001 1 => NEW
1 from 1 notes 1 DONE T2 DEPOSIT A001 2 => NEW
2 from 2 notes 2 DONE T3 DEPOSIT A001 3 => NEW
3 from 3 notes 3 DONE T4 DEPOSIT A002 -60 => NEW
",
    },
    Text {
        schedule: "IN R1 R1 R1 LOG IN LOG",
        messages: "T1 WDRAW A002 60\nT2 NOSUCH\n",
        sent: "T1 NO ROLB 7\nT2 NO UNKNOWN\n",
        left: (100, 50, 1),
        logged: "group 0 entries 1
0 from 0 notes 0 ROLB 7 T1 WDRAW A002 60 => -
group 1 entries 1
1 from 1 notes - UNKNOWN T2 NOSUCH => -
",
    },
    Text {
        schedule: "IN IN R1 R2 R1 R2 R1 R2 R1 R2 R2 LOG",
        messages: "T1 WDRAW A001 60\nT2 WDRAW A001 60\n",
        sent: "T1 OK PAID 60\nT2 NO VERIFY\n",
        left: (40, 50, 1),
        logged: "group 0 entries 2
0 from 0 notes 0 DONE T1 WDRAW A001 60 => PAID 60
1 from 0 notes 0 VERIFY 0.0 0000040c T2 WDRAW A001 60 => -
",
    },
    Text {
        schedule: "IN R1 R1 R1 R1 R1 R1 LOG IN LOG",
        messages: "T1 HIRE T009\n\n",
        sent: "T1 OK / XP\n? NO UNKNOWN\n",
        left: (100, 50, 2),
        logged: "group 0 entries 1
0 from 0 notes - DONE T1 HIRE T009 => / XP
group 1 entries 1
1 from 1 notes - UNKNOWN - => -
",
    },
];

// Whether a run on a site sends its lines, and `show` and `log` behind it their texts.
fn tells(alloc: Global, folder: &mut Folder, text: &Text) -> Result<bool, AllocError> {
    Ok(
        folder.defines_and_runs(text.schedule, text.messages, text.sent)?
            && shows(alloc, folder, text.left)?
            && folder.tells("log", text.logged)?,
    )
}

// The same on a new site.
fn is_told(alloc: Global, text: &Text) -> Result<bool, AllocError> {
    let mut folder = Folder::new(alloc, TWO_REGIONS)?;
    tells(alloc, &mut folder, text)
}

// Whether `show` sends the text of these balances.
fn shows(alloc: Global, folder: &mut Folder, left: Balances) -> Result<bool, AllocError> {
    let text = shown(alloc, left)?;
    folder.tells("show", text.as_str())
}

#[test]
fn databases_and_log_are_these_texts(rt: HostRuntime) -> Result<(), Fail> {
    for (place, text) in TEXTS.iter().enumerate() {
        assert!(rt; is_told(rt.alloc(), text)?, "text {place}");
    }
    Ok(())
}

const ONE_LINE: Step = Step::Run {
    schedule: "",
    messages: "T1 DEPOSIT A001 10\n",
    sent: "T1 OK NEW\n",
};

// Three transactions in one group. The last one, a question of T2, has the entry 2: its note is 1.
const THREE_LINES: Step = Step::Run {
    schedule: "IN R1 R1 R1 R1 IN R2 R2 IN R1 R1 R1 R1 R2 LOG",
    messages: "T1 DEPOSIT A001 10\nT2 ASK A001\nT3 DEPOSIT A001 20\n",
    sent: "T1 OK NEW\nT3 OK NEW\nT2 OK 110\n",
};

static TOLD: [Row; 7] = [
    // Where the last gate is open and has nothing behind it, the groups before it are sent by `log` alone.
    Row {
        system: TWO_REGIONS,
        steps: &[
            Step::Define,
            ONE_LINE,
            Step::Put {
                back: 1,
                bytes: b"\x01",
            },
            Step::End {
                command: "show",
                failing: &[],
                answer: Answer::Damaged { back: 1 },
                sent: "",
            },
            Step::End {
                command: "log",
                failing: &[],
                answer: Answer::Damaged { back: 1 },
                sent: "group 0 entries 1\n0 from 0 notes 0 DONE T1 DEPOSIT A001 10 => NEW\n",
            },
        ],
    },
    // An audit names the first entry that isn't legal.
    Row {
        system: TWO_REGIONS,
        steps: &[
            Step::Define,
            Step::Tell {
                command: "audit",
                sent: "legal 0\n",
            },
        ],
    },
    Row {
        system: TWO_REGIONS,
        steps: &[
            Step::Define,
            THREE_LINES,
            Step::Tell {
                command: "audit",
                sent: "legal 3\n",
            },
            Step::Put {
                back: 6,
                bytes: b"\0",
            },
            Step::End {
                command: "audit",
                failing: &[],
                answer: Answer::Illegal(2),
                sent: "",
            },
        ],
    },
    Row {
        system: TWO_REGIONS,
        steps: &[
            Step::Define,
            ONE_LINE,
            Step::Put {
                back: 37,
                bytes: b"OLD",
            },
            Step::End {
                command: "audit",
                failing: &[],
                answer: Answer::Illegal(0),
                sent: "",
            },
        ],
    },
    Row {
        system: TWO_REGIONS,
        steps: &[
            Step::Define,
            ONE_LINE,
            Step::Put {
                back: 1,
                bytes: b"\x01",
            },
            Step::End {
                command: "audit",
                failing: &[],
                answer: Answer::Damaged { back: 1 },
                sent: "",
            },
        ],
    },
    Row {
        system: TWO_REGIONS,
        steps: &[
            Step::Define,
            ONE_LINE,
            Step::Put {
                back: 37,
                bytes: b"OLD\0\0\0\x01\0\0\0\0\0\0\0\0\0\0\0\x01\x01\0\x04A001\0\x08A001\0\0\x11\x0c\x01",
            },
            Step::End {
                command: "audit",
                failing: &[],
                answer: Answer::Damaged { back: 1 },
                sent: "",
            },
        ],
    },
    Row {
        system: TWO_REGIONS,
        steps: &[
            Step::Define,
            Step::Run {
                schedule: "IN R1 R1 R1 LOG IN LOG",
                messages: "T1 WDRAW A002 60\nT2 NOSUCH\n",
                sent: "T1 NO ROLB 7\nT2 NO UNKNOWN\n",
            },
            Step::Tell {
                command: "audit",
                sent: "legal 2\n",
            },
        ],
    },
];

#[test]
fn each_command_tells_what_is_wanted(rt: HostRuntime) -> Result<(), Fail> {
    let wrong = first_wrong(rt.alloc(), &TOLD)?;
    assert!(rt; wrong.is_none(), "at {wrong:?}");
    Ok(())
}

// Deposits, withdrawals and questions of ten terminals.
const MIXED: &str = "T1 DEPOSIT A001 1
T2 WDRAW A002 1
T4 ASK A001
T5 DEPOSIT A001 5
T6 WDRAW A002 1
T8 ASK A001
T9 DEPOSIT A001 9
T10 WDRAW A002 1
T2 ASK A001
T3 DEPOSIT A001 13
T4 WDRAW A002 1
T6 ASK A001
T7 DEPOSIT A001 17
T8 WDRAW A002 1
T10 ASK A001
T1 DEPOSIT A001 21
T2 WDRAW A002 1
T4 ASK A001
T5 DEPOSIT A001 25
T6 WDRAW A002 1
T8 ASK A001
T9 DEPOSIT A001 29
T10 WDRAW A002 1
T2 ASK A001
T3 DEPOSIT A001 33
T4 WDRAW A002 1
T6 ASK A001
T7 DEPOSIT A001 37
T8 WDRAW A002 1
T10 ASK A001
";

// Schedules of four regions.
static MIXED_SCHEDULES: [&str; 3] = [
    "",
    "IN IN IN IN IN IN IN IN IN IN IN IN IN IN IN IN IN IN IN IN IN IN IN IN IN IN IN IN IN IN IN IN IN IN IN IN IN IN IN IN",
    "IN R1 R2 R3 R4
IN R1 R2 R3 R4
IN R1 R2 R3 R4
IN R1 R2 R3 R4
IN R1 R2 R3 R4
IN R1 R2 R3 R4
IN R1 R2 R3 R4
IN R1 R2 R3 R4
IN R1 R2 R3 R4
IN R1 R2 R3 R4",
];

// Whether the mix comes to its text by a schedule on a site.
fn mixes(alloc: Global, folder: &mut Folder, schedule: &str) -> Result<bool, AllocError> {
    Ok(
        folder.tells("define", "")?
            && folder.runs_lines(schedule, MIXED, 30)?
            && shows(alloc, folder, (290, 40, 1))?,
    )
}

// The same on a new site.
fn is_mixed(alloc: Global, schedule: &str) -> Result<bool, AllocError> {
    let mut folder = Folder::new(alloc, FOUR_REGIONS)?;
    mixes(alloc, &mut folder, schedule)
}

#[test]
fn a_mix_comes_to_one_text_by_each_schedule(rt: HostRuntime) -> Result<(), Fail> {
    for (place, schedule) in MIXED_SCHEDULES.iter().enumerate() {
        assert!(rt; is_mixed(rt.alloc(), schedule)?, "schedule {place}");
    }
    Ok(())
}
