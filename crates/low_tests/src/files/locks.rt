//! The lock of the folder, of two sites that stand beside one another.
use super::steps::{
    Deed, Run, TestSite, first_other_of, goes, is_fresh, is_removed, is_told, site_in,
};
use crate::steps::Answer::{Done, Failed, Length};
use crate::steps::Step::{Reach, Read, Send, Size, Sync, Write};
use crate::steps::{Answer, Step, ended};
use fp_files::Access;

const REFUSED: &[(Step, Answer)] = &[
    (Sync, Failed),
    (Size, Failed),
    (Reach, Failed),
    (Read(0), Failed),
    (Write(0, b"abc"), Failed),
    (Send(b"text"), Done),
];

const FREE: &[(Step, Answer)] = &[(Size, Length(0)), (Sync, Done)];

const SYNCED: &[(Step, Answer)] = &[(Sync, Done)];

// The access of the one that comes first, of the second, and whether the two go together.
const PAIRS: [(Access, Access, bool); 4] = [
    (Access::Change, Access::Change, false),
    (Access::Change, Access::Look, false),
    (Access::Look, Access::Change, false),
    (Access::Look, Access::Look, true),
];

// Whether the first site goes, and the second beside it only where they go together.
fn go_beside(one: &mut TestSite<'_>, two: &mut TestSite<'_>, together: bool) -> bool {
    let meanwhile = if together { FREE } else { REFUSED };
    goes(one, 0, FREE) && goes(two, 1, meanwhile)
}

// Whether it is so of two sites over a new folder, and the second goes behind the first in any case.
fn are_a_pair(rt: &HostRuntime, first: Access, second: Access, together: bool) -> bool {
    if !is_fresh(rt, "pair") {
        return false;
    }
    let one = site_in(rt, "pair", first, "pair/out1");
    match one.zip(site_in(rt, "pair", second, "pair/out2")) {
        Some((mut one, mut two)) => {
            let is_so = go_beside(&mut one, &mut two, together);
            let is_so = ended(one, is_so) && goes(&mut two, 1, FREE);
            ended(two, is_so)
        }
        None => false,
    }
}

#[test]
fn one_site_that_changes_a_folder_is_alone_with_it(rt: HostRuntime) {
    for (place, (first, second, together)) in PAIRS.iter().enumerate() {
        assert!(rt; are_a_pair(&rt, *first, *second, *together), "pair {place}");
    }
    assert!(rt; is_removed(&rt, "pair"));
}

// Whether the first fault of a site over the folder `told` is told by this line.
fn says(rt: &HostRuntime, site: &TestSite<'_>, wanted: &str) -> bool {
    match site.first_fault() {
        Some(cause) => is_told(rt.alloc(), &cause, "told", wanted),
        None => false,
    }
}

// Whether the second of two sites has no fault before it is refused, and then says why.
fn says_why(rt: &HostRuntime, one: &mut TestSite<'_>, two: &mut TestSite<'_>) -> bool {
    goes(one, 0, SYNCED)
        && two.first_fault().is_none()
        && goes(two, 0, REFUSED)
        && says(rt, two, "told: lock: another program uses this folder")
}

// Whether it is so of two sites over a folder.
fn are_told(rt: &HostRuntime) -> bool {
    let one = site_in(rt, "told", Access::Change, "told/out1");
    match one.zip(site_in(rt, "told", Access::Change, "told/out2")) {
        Some((mut one, mut two)) => {
            let is_so = says_why(rt, &mut one, &mut two);
            ended(two, ended(one, is_so))
        }
        None => false,
    }
}

#[test]
fn the_first_fault_says_that_the_folder_is_locked(rt: HostRuntime) {
    assert!(rt; is_fresh(&rt, "told") && are_told(&rt) && is_removed(&rt, "told"));
}

static ONLY_LOOKS: Run = Run {
    folder: "look",
    before: &[Deed::Put("look/log", b"read")],
    site: ("look", Access::Look, "look/out"),
    deeds: &[
        Deed::Goes(
            0,
            &[
                (Sync, Done),
                (Size, Length(4)),
                (Read(0), Answer::Bytes(*b"read")),
                (Write(0, b"abc"), Failed),
                (Read(0), Answer::Bytes(*b"read")),
            ],
        ),
        Deed::Goes(1, &[(Write(0, b"abc"), Failed)]),
        Deed::IsAbsent("look/ckpt1"),
    ],
};

#[test]
fn a_site_that_only_looks_writes_nothing(rt: HostRuntime) {
    let other = first_other_of(&rt, &ONLY_LOOKS);
    assert!(rt; other.is_none() && is_removed(&rt, "look"), "at {other:?}");
}
