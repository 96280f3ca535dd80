//! An interval that is read and copied; intervals in memory that fail. Which bytes are one, and its elements, are data of a
//! program above.

use ci_space::{Interval, Intervals, MemoryIntervals};
use std::test::Fail;

#[test]
fn an_interval_is_read_and_copied(rt: HostRuntime) -> Result<(), Fail> {
    let interval = Interval::empty(rt.alloc(), 512, 2)?;
    let copied = interval.copied(rt.alloc())?;
    assert!(rt; copied.whole() == interval.whole());
    match Interval::read(rt.alloc(), interval.whole())? {
        Some(read) => assert!(rt; read.whole() == interval.whole()),
        None => assert!(rt; false),
    }
    Ok(())
}

/// A call of intervals in memory, and what is to come of it.
enum Call {
    Count(u64),
    Faults(u64),
    /// The number of the interval that is added, or none where the call fails.
    Extend(Option<u64>),
    /// Whether the interval of a number is given, with an element used at 32.
    Get(u64, Option<bool>),
    /// An element is taken in the interval of a number, which is put back.
    Use(u64),
}

/// The calls of `get` and `extend` number 1 and 3 fail.
static CALLS: [Call; 11] = [
    Call::Count(1),
    Call::Extend(Some(1)),
    Call::Extend(None),
    Call::Faults(1),
    Call::Count(2),
    Call::Use(1),
    Call::Get(1, None),
    Call::Faults(2),
    Call::Count(2),
    Call::Get(1, Some(true)),
    Call::Faults(2),
];

/// Takes an element at 32 in the interval of this number, of kind 5, and puts the interval back.
fn uses(memory: &mut MemoryIntervals, ci: u64) -> Result<bool, Fail> {
    if memory.count() <= ci {
        return Ok(false);
    }
    match memory.get(ci) {
        Ok(mut interval) => {
            let is_new = interval.head().kind == 5 && interval.take(100) == Some(32);
            memory.put(ci, interval)?;
            Ok(is_new)
        }
        Err(_) => Ok(false),
    }
}

/// Whether an element is used at 32 in the interval of this number; None where it isn't given.
fn is_used(memory: &mut MemoryIntervals, ci: u64) -> Option<bool> {
    if memory.count() <= ci {
        return None;
    }
    match memory.get(ci) {
        Ok(interval) => Some(interval.is_used(32)),
        Err(_) => None,
    }
}

/// Whether a call answers so.
fn comes_true(memory: &mut MemoryIntervals, call: &Call) -> Result<bool, Fail> {
    match call {
        Call::Count(count) => Ok(memory.count() == *count && memory.all().len() as u64 == *count),
        Call::Faults(faults) => Ok(memory.faults() == *faults),
        Call::Extend(ci) => Ok(memory.extend().ok() == *ci),
        Call::Get(ci, used) => Ok(is_used(memory, *ci) == *used),
        Call::Use(ci) => uses(memory, *ci),
    }
}

#[test]
fn calls_fail_by_their_numbers(rt: HostRuntime) -> Result<(), Fail> {
    let intervals = vec![in rt.alloc(); Interval::empty(rt.alloc(), 512, 1)?]?;
    let mut memory = MemoryIntervals::new(rt.alloc(), intervals, &[1, 3])?;
    for (place, call) in CALLS.iter().enumerate() {
        assert!(rt; comes_true(&mut memory, call)?, "at {place}");
    }
    Ok(())
}
