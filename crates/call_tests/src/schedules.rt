//! Schedules over the definitions of the sample: two regions, and the areas AREA1 and AREA2 in the data sets 3 and 4.
ghost use Rattle.fp_model.specs.WellFormed.{AreDefs};

use crate::systems::sample;
use fp_model::{Defs, Event};
use fp_schedule::{ScheduleFault, read_events};
use std::alloc::{AllocError, Global};
use std::test::Fail;

// Whether a text is read so, where these are the definitions.
fn is_read(
    alloc: Global,
    text: &[u8],
    defs: &Defs,
    wanted: &Result<&[Event], ScheduleFault>,
) -> bool
    requires { AreDefs defs.now }
{
    match (&read_events(alloc, text, defs), wanted) {
        (Ok(events), Ok(wanted)) => events.as_slice() == *wanted,
        (Err(fault), Err(wanted)) => fault == wanted,
        _ => false,
    }
}

// The first token is no event.
const BAD: Result<&[Event], ScheduleFault> = Err(ScheduleFault::BadToken(1));

// The second isn't.
const SECOND_BAD: Result<&[Event], ScheduleFault> = Err(ScheduleFault::BadToken(2));

// A text, and its events or its first fault.
static TEXTS: [(&[u8], Result<&[Event], ScheduleFault>); 40] = [
    (b"", Ok(&[])),
    (b" \t\r\n", Ok(&[])),
    (b"IN", Ok(&[Event::In])),
    (b"\r\n\t IN \n", Ok(&[Event::In])),
    (
        b"IN IN R1 R1 R2 LOG",
        Ok(&[
            Event::In,
            Event::In,
            Event::Region(1),
            Event::Region(1),
            Event::Region(2),
            Event::Log,
        ]),
    ),
    (
        b"OUT\tCKPT\r\nOUT",
        Ok(&[Event::Out, Event::Ckpt, Event::Out]),
    ),
    (b"PURGE/AREA1/1", Ok(&[Event::Purge { set: 3, n: 1 }])),
    (
        b"IN PURGE/AREA2/2 LOG",
        Ok(&[Event::In, Event::Purge { set: 4, n: 2 }, Event::Log]),
    ),
    (
        b"PURGE/AREA1/1000000000",
        Ok(&[Event::Purge {
            set: 3,
            n: 1_000_000_000,
        }]),
    ),
    (b"PURGE/AREA1/1000000001", BAD),
    (b"PURGE/AREA1/18446744073709551617", BAD),
    (b"PURGE/AREA1/0", BAD),
    (b"PURGE/AREA1/01", BAD),
    (b"PURGE/AREA1/", BAD),
    (b"PURGE/AREA1", BAD),
    (b"PURGE/AREA1/1/", BAD),
    (b"PURGE/AREA1/+1", BAD),
    (b"PURGE/AREA3/1", BAD),
    (b"PURGE/AREA10/1", BAD),
    (b"PURGE/AREA/1", BAD),
    (b"PURGE/CUST/1", BAD),
    (b"PURGE//1", BAD),
    (b"PURGE/1", BAD),
    (b"PURGE", BAD),
    (b"PURGE /AREA1/1", BAD),
    (b"R0", BAD),
    (b"IN R3", SECOND_BAD),
    (b"R01", BAD),
    (b"R", BAD),
    (b"R 1", BAD),
    (b"R1R2", BAD),
    (b"R257", BAD),
    (b"R340282366920938463463374607431768211457", BAD),
    (b"INN", BAD),
    (b"I N", BAD),
    (b"in", BAD),
    (b"LOG,LOG", BAD),
    (b"LOG LO", SECOND_BAD),
    (b"IN\x0bIN", BAD),
    (b"OUT \xff OUTT", SECOND_BAD),
];

// The first text that is read otherwise by these definitions.
fn first_other(alloc: Global, defs: &Defs) -> Option<usize>
    requires { AreDefs defs.now }
{
    for (place, (text, wanted)) in TEXTS.iter().enumerate() {
        if !is_read(alloc, text, defs, wanted) {
            return Some(place);
        }
    }
    None
}

#[test]
fn texts_have_their_events_or_their_first_fault(rt: HostRuntime) -> Result<(), Fail> {
    let defs = sample(rt.alloc())?;
    let wrong = first_other(rt.alloc(), &defs);
    drop(defs);
    assert!(rt; wrong.is_none(), "text {wrong:?}");
    Ok(())
}

// A piece so many times, and a text behind it.
fn repeated(alloc: Global, piece: &[u8], count: u32, behind: &[u8]) -> Result<Vec<u8>, AllocError> {
    let mut bytes = Vec::new(alloc);
    for _ in 0..count {
        bytes.extend_from_slice(piece)?;
    }
    bytes.extend_from_slice(behind)?;
    Ok(bytes)
}

// 32 blanks.
const BLANKS: &[u8] = b"                                ";

// A piece, how often it stands, what stands behind it, and how many events there are or the fault: tokens, and blanks.
static MANY: [(&[u8], u32, &[u8], Result<usize, ScheduleFault>); 5] = [
    (b"IN ", 1_000_000, b"INN", Err(ScheduleFault::TooMany)),
    (
        b"IN ",
        999_999,
        b"INN INN",
        Err(ScheduleFault::BadToken(1_000_000)),
    ),
    (b"R2 ", 1_000_000, b"\n", Ok(1_000_000)),
    (BLANKS, 1_000_000, b"", Ok(0)),
    (BLANKS, 1_000_000, b" ", Err(ScheduleFault::TooLong)),
];

// Whether a text has so many events, or this fault.
fn has_count(alloc: Global, text: &[u8], defs: &Defs, wanted: &Result<usize, ScheduleFault>) -> bool
    requires { AreDefs defs.now }
{
    match (&read_events(alloc, text, defs), wanted) {
        (Ok(events), Ok(count)) => events.len() == *count,
        (Err(fault), Err(wanted)) => fault == wanted,
        _ => false,
    }
}

// The first row of these that comes to something else by these definitions.
fn first_other_of_many(alloc: Global, defs: &Defs) -> Result<Option<usize>, AllocError>
    requires { AreDefs defs.now }
{
    for (place, (piece, count, behind, wanted)) in MANY.iter().enumerate() {
        let bytes = repeated(alloc, piece, *count, behind)?;
        if !has_count(alloc, &bytes, defs, wanted) {
            return Ok(Some(place));
        }
    }
    Ok(None)
}

#[test]
fn a_schedule_has_at_most_1000000_tokens_and_32000000_bytes(rt: HostRuntime) -> Result<(), Fail> {
    let defs = sample(rt.alloc())?;
    let wrong = first_other_of_many(rt.alloc(), &defs);
    drop(defs);
    let wrong = wrong?;
    assert!(rt; wrong.is_none(), "row {wrong:?}");
    Ok(())
}
