//! The last number of each terminal.
use crate::queues::terminal;
use balancing::Lasts;
use fp_model::Bytes;
use std::alloc::{AllocError, Global};

/// What is done, and what is to come of it. Terminals go by their digit.
enum Step {
    /// A terminal gets this number and line.
    Set(u8, u64, &'static [u8]),
    /// It has them.
    Has(u8, u64, &'static [u8]),
    /// It has none.
    HasNone(u8),
    /// At a place stands this terminal with its number, of so many.
    At(u64, u8, u64, usize),
    /// At a place stands none.
    Past(u64),
}

/// Terminals come in any order and stand by their names; a later number takes the place of the earlier one.
static IN_ORDER: [Step; 18] = [
    Step::HasNone(5),
    Step::Past(0),
    Step::Set(5, 1, b"T5 OK NEW"),
    Step::Set(2, 7, b"T2 OK"),
    Step::Set(9, 999_999_999_999_999_999, b"T9 NO VERIFY"),
    Step::Set(3, 4, b""),
    Step::HasNone(1),
    Step::HasNone(4),
    Step::Has(9, 999_999_999_999_999_999, b"T9 NO VERIFY"),
    Step::At(0, 2, 7, 4),
    Step::At(1, 3, 4, 4),
    Step::Set(5, 2, b"T5 OK 110"),
    Step::Has(5, 2, b"T5 OK 110"),
    Step::At(2, 5, 2, 4),
    Step::At(3, 9, 999_999_999_999_999_999, 4),
    Step::Past(4),
    Step::Past(u64::MAX),
    Step::Has(2, 7, b"T2 OK"),
];

/// Whether a terminal gets a number and a line.
fn is_set(alloc: Global, lasts: &mut Lasts, digit: u8, number: u64, line: &[u8]) -> bool {
    match (Bytes::from_slice(alloc, line), lasts.reserve(1)) {
        (Ok(line), Ok(())) => {
            lasts.set(&terminal(digit), number, line);
            true
        }
        _ => false,
    }
}

/// Whether a terminal has this number and line.
fn has(lasts: &Lasts, digit: u8, number: u64, line: &[u8]) -> bool {
    match lasts.of(&terminal(digit)) {
        Some((found, has)) => found == number && *has == *line,
        None => false,
    }
}

/// Whether at a place stands this terminal with its number.
fn stands(lasts: &Lasts, place: u64, digit: u8, number: u64) -> bool {
    match lasts.at(place) {
        Some(found) => *found.0 == terminal(digit) && found.1 == number,
        None => false,
    }
}

/// Whether a step answers so.
fn answers(alloc: Global, lasts: &mut Lasts, step: &Step) -> bool {
    match *step {
        Step::Set(digit, number, line) => is_set(alloc, lasts, digit, number, line),
        Step::Has(digit, number, line) => has(lasts, digit, number, line),
        Step::HasNone(digit) => lasts.of(&terminal(digit)).is_none(),
        Step::At(place, digit, number, count) => {
            lasts.len() == count && stands(lasts, place, digit, number)
        }
        Step::Past(place) => lasts.at(place).is_none(),
    }
}

#[test]
fn terminals_and_their_numbers(rt: HostRuntime) -> Result<(), AllocError> {
    let mut lasts = Lasts::new(rt.alloc())?;
    for (place, step) in IN_ORDER.iter().enumerate() {
        assert!(rt; answers(rt.alloc(), &mut lasts, step), "at {place}");
    }
    Ok(())
}
