//! The parts of a source as files.
use super::steps::{is_fresh, is_put, is_removed};
use crate::steps::ended;
use fp_files::{FileSource, Folder};
use fp_source::{Failed, Part, Source};

const PARTS: [(Part, &str); 4] = [
    (Part::Definitions, "parts/defs.toml"),
    (Part::Scripts, "parts/scripts.txt"),
    (Part::Schedule, "parts/schedule.txt"),
    (Part::Messages, "parts/messages.txt"),
];

// What three reads of five bytes give, by three.
const READS: [(usize, [u8; 3]); 3] = [(3, *b"abc"), (2, *b"dec"), (0, *b"dec")];

// Whether a part of five bytes is read so.
fn gives<S: Source>(source: &mut S, part: Part, into: &mut [u8; 3]) -> bool {
    for (count, wanted) in READS {
        if source.read(part, into) != Ok(count) || *into != wanted {
            return false;
        }
    }
    true
}

// Whether a part fails as long as it has no file, and is read then.
fn is_read_on<S: Source>(rt: &HostRuntime, source: &mut S, part: Part, name: &str) -> bool {
    let mut into = [0u8; 3];
    source.read(part, &mut into) == Err(Failed)
        && is_put(rt, name, b"abcde")
        && gives(source, part, &mut into)
}

// The place of the first part that is read otherwise.
fn first_other<S: Source>(rt: &HostRuntime, source: &mut S) -> Option<usize> {
    for (place, (part, name)) in PARTS.iter().enumerate() {
        if !is_read_on(rt, source, *part, name) {
            return Some(place);
        }
    }
    None
}

// The same of a source over a folder.
fn first_other_of(rt: &HostRuntime) -> Option<usize> {
    let mut source = FileSource::new(Folder::new(rt, rt.alloc(), "parts"));
    let other = first_other(rt, &mut source);
    ended(source, other)
}

#[test]
fn a_part_is_read_on_to_its_end(rt: HostRuntime) {
    assert!(rt; is_fresh(&rt, "parts"));
    let other = first_other_of(&rt);
    assert!(rt;
        other.is_none() && is_removed(&rt, "parts"),
        "part {other:?}"
    );
}
