//! Intervals of an area, and the elements that tile them.
//!
//!     read BYTES => yes | no
//!     on BYTES : STEP : STEP .. => ANSWER .. TILES
//!
//! | Step | Answer |
//! |---|---|
//! | `take LENGTH` | the place of the new element; `full` |
//! | `free PLACE` | `freed`; `unused` where no used element stands |
//! | `type PLACE TYPE` | `set`; `unused` |
//!
//! The tiles are the elements: place, length, `free` or the segment type, and the content where that type is above 3.
//! What a new element holds isn't said, so cases set no such type.

use crate::fault::CaseFault;
use crate::texts::{bytes_of, number_of, put_bytes};
use ci_space::Interval;
use std::alloc::{AllocError, Global};

// The bytes before the elements.
const HEAD: usize = 32;

// The greatest segment type whose content isn't shown.
const HIDDEN: u8 = 3;

/// What an interval comes to.
pub(crate) fn answer(alloc: Global, input: &str) -> Result<Vec<u8>, CaseFault> {
    let (word, rest) = input.split_once(' ').ok_or(CaseFault::Malformed)?;
    match word {
        "read" => read(alloc, rest),
        "on" => {
            let (bytes, steps) = rest.split_once(" : ").ok_or(CaseFault::Malformed)?;
            on(alloc, bytes, steps)
        }
        _ => Err(CaseFault::Malformed),
    }
}

// Whether bytes are an interval, which has them all.
fn read(alloc: Global, text: &str) -> Result<Vec<u8>, CaseFault> {
    let bytes = bytes_of(alloc, text)?;
    let Some(interval) = Interval::read(alloc, &bytes)? else {
        return Ok(Vec::from_slice(alloc, b"no")?);
    };
    let is_same = interval.whole() == bytes.as_slice();
    let word: &[u8] = if is_same { b"yes" } else { b"others" };
    Ok(Vec::from_slice(alloc, word)?)
}

// What steps come to, one after another.
fn on(alloc: Global, bytes: &str, steps: &str) -> Result<Vec<u8>, CaseFault> {
    let bytes = bytes_of(alloc, bytes)?;
    let Some(mut interval) = Interval::read(alloc, &bytes)? else {
        return Err(CaseFault::Malformed);
    };
    let mut text = Vec::new(alloc);
    for step in steps.split(" : ") {
        put_step(alloc, &mut text, &mut interval, step)?;
        text.push(b' ')?;
    }
    put_tiles(alloc, &mut text, interval.whole())?;
    Ok(text)
}

// Takes a step, and appends what it is answered.
fn put_step(
    alloc: Global,
    text: &mut Vec<u8>,
    interval: &mut Interval,
    step: &str,
) -> Result<(), CaseFault> {
    let (word, rest) = step.split_once(' ').ok_or(CaseFault::Malformed)?;
    match word {
        "take" => {
            let place = interval.take(short_of(rest)?);
            Ok(put_place(alloc, text, place)?)
        }
        "free" => {
            let is_done = free(interval, short_of(rest)?);
            Ok(text.extend_from_slice(if is_done { b"freed" } else { b"unused" })?)
        }
        "type" => {
            let (place, segment) = rest.split_once(' ').ok_or(CaseFault::Malformed)?;
            let is_done = set_type(interval, short_of(place)?, byte_of(segment)?);
            Ok(text.extend_from_slice(if is_done { b"set" } else { b"unused" })?)
        }
        _ => Err(CaseFault::Malformed),
    }
}

// A number of two bytes.
fn short_of(text: &str) -> Result<u16, CaseFault> {
    u16::try_from(number_of(text)?).or(Err(CaseFault::Malformed))
}

// A number of one byte.
fn byte_of(text: &str) -> Result<u8, CaseFault> {
    u8::try_from(number_of(text)?).or(Err(CaseFault::Malformed))
}

// Frees the used element at a place; false where none is there.
fn free(interval: &mut Interval, place: u16) -> bool {
    let is_used = interval.is_used(place);
    if is_used {
        interval.free(place);
    }
    is_used
}

// Sets the segment type of the used element at a place; false where none is there.
fn set_type(interval: &mut Interval, place: u16, segment: u8) -> bool {
    let is_used = interval.is_used(place);
    if is_used {
        interval.set_type(place, segment);
    }
    is_used
}

// Appends the place of a new element.
fn put_place(alloc: Global, text: &mut Vec<u8>, place: Option<u16>) -> Result<(), AllocError> {
    match place {
        Some(place) => text.extend_from_slice(place.to_string(alloc)?.as_bytes()),
        None => text.extend_from_slice(b"full"),
    }
}

// Appends the elements of an interval, which has one in four bytes at most.
fn put_tiles(alloc: Global, text: &mut Vec<u8>, bytes: &[u8]) -> Result<(), AllocError> {
    let mut place = HEAD;
    let mut rest = bytes.get(HEAD..).unwrap_or(&[]);
    for _ in 0..bytes.len() {
        let [high, low, tag, segment, ..] = rest else {
            break;
        };
        let length = usize::from(*high) * 256 + usize::from(*low);
        if length < 4 || rest.len() < length {
            break;
        }
        let (tile, behind) = rest.split_at(length);
        put_tile(alloc, text, place, *tag == 0, *segment, tile)?;
        place = place.saturating_add(length);
        rest = behind;
    }
    Ok(())
}

// Appends an element behind a bar.
fn put_tile(
    alloc: Global,
    text: &mut Vec<u8>,
    place: usize,
    is_free: bool,
    segment: u8,
    tile: &[u8],
) -> Result<(), AllocError> {
    let front = format!(in alloc; "| {place} {} ", tile.len())?;
    text.extend_from_slice(front.as_bytes())?;
    if is_free {
        return text.extend_from_slice(b"free ");
    }
    let kind = format!(in alloc; "{segment} ")?;
    text.extend_from_slice(kind.as_bytes())?;
    if segment > HIDDEN {
        put_bytes(alloc, text, tile.get(4..).unwrap_or(&[]))?;
        text.push(b' ')?;
    }
    Ok(())
}
