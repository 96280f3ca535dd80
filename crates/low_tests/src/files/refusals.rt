//! What is refused, what a failed sync leaves, and what is told of a fault.
use super::steps::{Deed, Run, first_other_of, is_removed, is_told};
use crate::steps::Answer::{Done, Failed, Length};
use crate::steps::Step::{Reach, Read, Size, Sync, Write};
use crate::steps::{Answer, Step};
use fp_files::{Access, Call, Cause, Place};
use fp_source::Part;
use std::alloc::Global;
use std::io;

const NO_FILE: &[(Step, Answer)] = &[
    (Size, Failed),
    (Read(0), Failed),
    (Write(0, b"abc"), Failed),
];

static RUNS: [Run; 3] = [
    // What is no regular file is refused.
    Run {
        folder: "bad",
        before: &[],
        site: ("bad", Access::Change, "bad/out"),
        deeds: &[
            Deed::Make("bad/log"),
            Deed::Link("/dev/null", "bad/ckpt1"),
            Deed::Link("nowhere", "bad/ckpt2"),
            Deed::Goes(0, NO_FILE),
            Deed::Goes(1, NO_FILE),
            Deed::Goes(2, NO_FILE),
            Deed::Goes(3, &[(Sync, Done)]),
            Deed::IsAbsent("bad/nowhere"),
        ],
    },
    // A folder that isn't there is a fault.
    Run {
        folder: "gone",
        before: &[],
        site: ("gone/nowhere", Access::Change, "gone/out"),
        deeds: &[Deed::Goes(0, NO_FILE)],
    },
    // A failed sync loses the data set. A folder stands at the name of each, and only the log was synced meanwhile.
    Run {
        folder: "lost",
        before: &[],
        site: ("lost", Access::Change, "lost/out"),
        deeds: &[
            Deed::Make("lost/log"),
            Deed::Make("lost/ckpt1"),
            Deed::Goes(0, &[(Sync, Failed)]),
            Deed::Goes(1, NO_FILE),
            Deed::Remove("lost/log"),
            Deed::Remove("lost/ckpt1"),
            Deed::Goes(
                0,
                &[
                    (Sync, Failed),
                    (Size, Failed),
                    (Reach, Failed),
                    (Read(0), Failed),
                    (Write(0, b"abc"), Failed),
                    (Write(5, b""), Failed),
                ],
            ),
            Deed::Goes(1, &[(Size, Length(0)), (Write(0, b"abc"), Done)]),
            Deed::IsAbsent("lost/log"),
        ],
    },
];

#[test]
fn what_is_no_file_or_lost_is_refused(rt: HostRuntime) {
    for run in &RUNS {
        let other = first_other_of(&rt, run);
        assert!(rt;
            other.is_none() && is_removed(&rt, run.folder),
            "{} at {other:?}",
            run.folder
        );
    }
}

type Line = (Place, Call, &'static str);

static LINES: [Line; 9] = [
    (
        Place::Folder,
        Call::Lock,
        "DIR: lock: No space left on device (os error 28)",
    ),
    (
        Place::Folder,
        Call::Sync,
        "DIR: sync: No space left on device (os error 28)",
    ),
    (
        Place::Output,
        Call::Write,
        "standard output: write: No space left on device (os error 28)",
    ),
    (
        Place::DataSet(0),
        Call::Sync,
        "DIR/log: sync: No space left on device (os error 28)",
    ),
    (
        Place::DataSet(2),
        Call::Open,
        "DIR/ckpt2: open: No space left on device (os error 28)",
    ),
    (
        Place::DataSet(17),
        Call::Length,
        "DIR/area17: length: No space left on device (os error 28)",
    ),
    (
        Place::DataSet(3),
        Call::Rewrite,
        "DIR/area3: rewrite: No space left on device (os error 28)",
    ),
    (
        Place::Part(Part::Messages),
        Call::Read,
        "DIR/messages.txt: read: No space left on device (os error 28)",
    ),
    (
        Place::Part(Part::Definitions),
        Call::Open,
        "DIR/defs.toml: open: No space left on device (os error 28)",
    ),
];

fn lines() -> &'static [Line] {
    &LINES
}

// Whether a cause of this place and call is told so.
fn is_cause(alloc: Global, place: Place, call: Call, wanted: &str) -> bool {
    let error = io::Error::from_raw_os_error(28);
    is_told(alloc, &Cause { place, call, error }, "DIR", wanted)
}

#[test]
fn a_cause_names_the_file_and_the_call(rt: HostRuntime) {
    for (row, (place, call, wanted)) in lines().iter().enumerate() {
        assert!(rt; is_cause(rt.alloc(), *place, *call, wanted), "row {row}");
    }
}
