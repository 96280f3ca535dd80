//! The bytes that reach files and come back, and what is sent.
use super::steps::{
    Deed, Run, TestSite, first_other_of, goes, holds, is_absent, is_fresh, is_put, is_removed,
    site_in,
};
use crate::steps::Answer::{Bytes, Done, Failed, Length};
use crate::steps::Step::{Reach, Read, Send, Size, Sync, Write};
use crate::steps::{Answer, Step, ended};
use fp_files::Access;
use fp_site::Site;
use std::alloc::{AllocError, Global};
use std::fs;
use std::os::unix::fs::MetadataExt;

const NAMES: [(u16, &str); 5] = [
    (0, "names/log"),
    (1, "names/ckpt1"),
    (2, "names/ckpt2"),
    (3, "names/area3"),
    (258, "names/area258"),
];

const MAKE_NONE: &[(Step, Answer)] = &[
    (Size, Length(0)),
    (Read(7), Bytes([0; 4])),
    (Sync, Done),
    (Reach, Done),
    (Write(5, b""), Done),
];

const MAKE_ONE: &[(Step, Answer)] = &[(Write(2, b"abc"), Done), (Sync, Done), (Size, Length(5))];

// Whether the file of this name holds what was written, for its owner alone.
fn is_made(rt: &HostRuntime, name: &str) -> bool {
    match fs::metadata(rt, name) {
        Ok(found) => found.mode() & 0o777 == 0o600 && holds(rt, name, b"\0\0abc"),
        Err(_) => false,
    }
}

// Whether a data set makes the file of this name, and none too early.
fn makes(rt: &HostRuntime, site: &mut TestSite<'_>, set: u16, name: &str) -> bool {
    goes(site, set, MAKE_NONE)
        && is_absent(rt, name)
        && goes(site, set, MAKE_ONE)
        && is_made(rt, name)
}

// The place of the first name that isn't made so.
fn first_unmade(rt: &HostRuntime, site: &mut TestSite<'_>) -> Option<usize> {
    for (place, (set, name)) in NAMES.iter().enumerate() {
        if !makes(rt, site, *set, name) {
            return Some(place);
        }
    }
    None
}

// The same of a new site; the number of names where there is none.
fn first_unmade_of(rt: &HostRuntime) -> Option<usize> {
    match site_in(rt, "names", Access::Change, "names/out") {
        Some(mut site) => {
            let unmade = first_unmade(rt, &mut site);
            ended(site, unmade)
        }
        None => Some(NAMES.len()),
    }
}

#[test]
fn data_sets_are_files_of_their_names(rt: HostRuntime) {
    assert!(rt; is_fresh(&rt, "names"));
    let unmade = first_unmade_of(&rt);
    assert!(rt;
        unmade.is_none() && is_removed(&rt, "names"),
        "name {unmade:?}"
    );
}

static RUNS: [Run; 3] = [
    // A file that is there is read and written in place.
    Run {
        folder: "place",
        before: &[Deed::Put("place/log", b"0123456789")],
        site: ("place", Access::Change, "place/out"),
        deeds: &[Deed::Goes(
            0,
            &[
                (Read(3), Bytes(*b"3456")),
                (Write(3, b"abc"), Done),
                (Read(4), Bytes(*b"bc67")),
                (Read(8), Bytes(*b"89\0\0")),
                (Read(u64::MAX), Bytes([0; 4])),
                (Size, Length(10)),
                (Sync, Done),
            ],
        )],
    },
    // What is sent is gathered up to the next call.
    Run {
        folder: "sends",
        before: &[],
        site: ("sends", Access::Change, "sends/out"),
        deeds: &[
            Deed::Goes(0, &[(Send(b"one\n"), Done)]),
            Deed::Holds("sends/out", b""),
            Deed::Goes(0, &[(Send(b"two\n"), Done)]),
            Deed::Holds("sends/out", b""),
            Deed::Goes(0, &[(Size, Length(0))]),
            Deed::Holds("sends/out", b"one\ntwo\n"),
            Deed::Goes(0, &[(Send(b"six\n"), Done)]),
            Deed::Holds("sends/out", b"one\ntwo\n"),
            Deed::Ends(true),
            Deed::Holds("sends/out", b"one\ntwo\nsix\n"),
        ],
    },
    // An output that is full fails the next call.
    Run {
        folder: "full",
        before: &[],
        site: ("full", Access::Change, "/dev/full"),
        deeds: &[
            Deed::Goes(
                0,
                &[
                    (Send(b"lost"), Done),
                    (Size, Failed),
                    (Write(0, b"abc"), Failed),
                    (Reach, Failed),
                ],
            ),
            Deed::Ends(false),
            Deed::IsAbsent("full/log"),
        ],
    },
];

#[test]
fn what_is_written_and_sent_reaches_the_files(rt: HostRuntime) {
    for run in &RUNS {
        let other = first_other_of(&rt, run);
        assert!(rt;
            other.is_none() && is_removed(&rt, run.folder),
            "{} at {other:?}",
            run.folder
        );
    }
}

// Byte number n of the long file is n / 251, cut to one byte. The first block that is read ends at 65,536 + 3.
const LONG: &[(Step, Answer)] = &[
    (Read(3), Bytes([0, 0, 0, 0])),
    (Read(65_535), Bytes([5, 5, 5, 5])),
    (Read(65_761), Bytes([5, 6, 6, 6])),
    (Read(249), Bytes([0, 0, 1, 1])),
    (Write(250, b"abc"), Done),
    (Read(249), Bytes(*b"\0abc")),
    (Read(199_998), Bytes([28, 28, 0, 0])),
    (Write(200_001, b"end"), Done),
    (Read(199_999), Bytes(*b"\x1c\0en")),
];

fn long_byte(number: usize) -> u8 {
    (number / 251 % 256) as u8
}

fn long_bytes(alloc: Global, count: usize) -> Result<Vec<u8>, AllocError> {
    let mut bytes = vec![in alloc; 0u8; count]?;
    for (number, byte) in bytes.iter_mut().enumerate() {
        *byte = long_byte(number);
    }
    Ok(bytes)
}

// Whether these are the bytes of the long file.
fn are_long(bytes: &[u8]) -> bool {
    for (number, byte) in bytes.iter().enumerate() {
        if *byte != long_byte(number) {
            return false;
        }
    }
    true
}

// Whether a site reads and writes a log of these bytes.
fn goes_long(site: &mut TestSite<'_>, bytes: &mut [u8]) -> bool {
    site.read_at(0, 0, bytes).is_ok() && are_long(bytes) && goes(site, 0, LONG)
}

// Whether a new site does, whose log is the long file.
fn is_long_read(rt: &HostRuntime, bytes: &mut [u8]) -> bool {
    match site_in(rt, "long", Access::Change, "long/out") {
        Some(mut site) => {
            let is_so = is_put(rt, "long/log", bytes) && goes_long(&mut site, bytes);
            ended(site, is_so)
        }
        None => false,
    }
}

// Whether there is memory for the long file, and it is read so.
fn is_long(rt: &HostRuntime) -> bool {
    match long_bytes(rt.alloc(), 200_000) {
        Ok(mut bytes) => is_long_read(rt, bytes.as_mut_slice()),
        Err(AllocError) => false,
    }
}

#[test]
fn what_was_written_is_not_read_from_an_older_block(rt: HostRuntime) {
    assert!(rt; is_fresh(&rt, "long") && is_long(&rt) && is_removed(&rt, "long"));
}

// A file is rewritten by blocks of 1,048,576 bytes.
const LENGTHS: [usize; 5] = [0, 1, 1_048_576, 1_048_577, 2_097_152];

// Whether a log of these bytes is as long for a site, which rewrites it, and holds the same then.
fn is_rewritten(rt: &HostRuntime, bytes: &[u8]) -> bool {
    if !is_put(rt, "same/log", bytes) {
        return false;
    }
    match site_in(rt, "same", Access::Change, "same/out") {
        Some(mut site) => {
            let size = site.size(0);
            ended(site, size == Ok(bytes.len() as u64)) && holds(rt, "same/log", bytes)
        }
        None => false,
    }
}

// The place of the first length whose log, the front of these bytes, isn't the same behind.
fn first_changed_of(rt: &HostRuntime, bytes: &[u8]) -> Option<usize> {
    for (place, length) in LENGTHS.iter().enumerate() {
        if !is_rewritten(rt, &bytes[..(*length).min(bytes.len())]) {
            return Some(place);
        }
    }
    None
}

// The same of the long file; the number of lengths where there is no memory for it.
fn first_changed(rt: &HostRuntime) -> Option<usize> {
    match long_bytes(rt.alloc(), 2_097_152) {
        Ok(bytes) => first_changed_of(rt, bytes.as_slice()),
        Err(AllocError) => Some(LENGTHS.len()),
    }
}

#[test]
fn a_file_that_is_rewritten_holds_the_same_bytes(rt: HostRuntime) {
    assert!(rt; is_fresh(&rt, "same"));
    let changed = first_changed(&rt);
    assert!(rt;
        changed.is_none() && is_removed(&rt, "same"),
        "length {changed:?}"
    );
}
