//! What a database shows at its places: steps on its segments, each with what it gives.
ghost use Rattle.past_segments.specs.Times.{IsSettledBy};

use fp_model::Bytes;
use past_segments::PastSegments;
use std::test::Fail;

/// A step, with its place. Keys have 2 bytes.
enum Step {
    Put(u64, &'static [u8]),
    TakeAway(u64, &'static [u8]),
    TakeBack(u64, &'static [u8]),
    /// The segment of a key.
    Look(u64, &'static [u8], Option<&'static [u8]>),
    /// The first segment behind a key, or the first of all.
    After(u64, Option<&'static [u8]>, Option<&'static [u8]>),
}

fn is_same(found: Option<&[u8]>, wanted: Option<&[u8]>) -> bool {
    match (found, wanted) {
        (Some(one), Some(other)) => one == other,
        (None, None) => true,
        (Some(_), None) | (None, Some(_)) => false,
    }
}

// Puts a segment at a place, behind which there may be values already.
fn put(rt: &HostRuntime, past: &mut PastSegments, place: u64, segment: &[u8]) -> Result<(), Fail>
    requires { IsSettledBy place past.old }
    ensures { IsSettledBy place past.new }
{
    let bytes = Bytes::from_slice(rt.alloc(), segment)?;
    past.put(place, bytes)?;
    Ok(())
}

// Whether a step that changes nothing gives what it says.
fn shows(past: &PastSegments, step: &Step) -> bool {
    match *step {
        Step::Look(place, key, wanted) => is_same(past.look(place, key), wanted),
        Step::After(place, key, wanted) => is_same(past.after(place, key), wanted),
        Step::Put(_, _) | Step::TakeAway(_, _) | Step::TakeBack(_, _) => true,
    }
}

// Makes the change of a step at this place, if it is one.
fn change(rt: &HostRuntime, past: &mut PastSegments, place: u64, step: &Step) -> Result<(), Fail>
    requires { IsSettledBy place past.old }
    ensures { IsSettledBy place past.new }
{
    match *step {
        Step::Put(_, segment) => put(rt, past, place, segment)?,
        Step::TakeAway(_, key) => past.take_away(place, key)?,
        Step::TakeBack(_, key) => past.take_back(place, key),
        Step::Look(_, _, _) | Step::After(_, _, _) => {}
    }
    Ok(())
}

// The place of a change; 0 for other steps.
fn place_of(step: &Step) -> u64 {
    match *step {
        Step::Put(place, _) | Step::TakeAway(place, _) | Step::TakeBack(place, _) => place,
        Step::Look(_, _, _) | Step::After(_, _, _) => 0,
    }
}

/// Whether all steps give what they say. Changes go from one place to the same or a later one.
fn run_steps(rt: &HostRuntime, steps: &[Step]) -> Result<bool, Fail> {
    let mut past = PastSegments::new(rt.alloc(), 2);
    let mut last = 0;
    for step in steps {
        last = place_of(step).max(last);
        change(rt, &mut past, last, step)?;
        if !shows(&past, step) {
            return Ok(false);
        }
    }
    Ok(true)
}

/// Each place shows what stood there, whatever came behind it.
const OLDER: &[Step] = &[
    Step::Put(0, b"B1zero"),
    Step::Put(3, b"B1three"),
    Step::Put(5, b"A1five"),
    Step::TakeAway(8, b"B1"),
    Step::Look(0, b"B1", Some(b"B1zero")),
    Step::Look(2, b"B1", Some(b"B1zero")),
    Step::Look(3, b"B1", Some(b"B1three")),
    Step::Look(7, b"B1", Some(b"B1three")),
    Step::Look(8, b"B1", None),
    Step::Look(4, b"A1", None),
    Step::Look(5, b"A1", Some(b"A1five")),
    Step::Look(9, b"C1", None),
];

/// Searches in the order of keys pass what isn't there at the place.
const IN_ORDER: &[Step] = &[
    Step::Put(0, b"C1"),
    Step::Put(1, b"A1"),
    Step::Put(2, b"B1"),
    Step::TakeAway(4, b"B1"),
    Step::After(0, None, Some(b"C1")),
    Step::After(1, None, Some(b"A1")),
    Step::After(2, Some(b"A1"), Some(b"B1")),
    Step::After(4, Some(b"A1"), Some(b"C1")),
    Step::After(4, Some(b"B1"), Some(b"C1")),
    Step::After(4, Some(b"C1"), None),
];

/// A change at the same place goes over the first, and what is taken back leaves the earlier value.
const BACK: &[Step] = &[
    Step::Put(0, b"A1old"),
    Step::Put(6, b"A1new"),
    Step::Put(6, b"A1newer"),
    Step::Put(6, b"B1new"),
    Step::Look(6, b"A1", Some(b"A1newer")),
    Step::TakeBack(6, b"A1"),
    Step::TakeBack(6, b"B1"),
    Step::Look(6, b"A1", Some(b"A1old")),
    Step::Look(6, b"B1", None),
    Step::After(9, Some(b"A1"), None),
];

static RUNS: [(&str, &[Step]); 3] = [
    ("an older place shows an older segment", OLDER),
    ("a search passes what is not there", IN_ORDER),
    ("what is taken back leaves the earlier segment", BACK),
];

#[test]
fn places_show_their_segments(rt: HostRuntime) -> Result<(), Fail> {
    for (name, steps) in &RUNS {
        assert!(rt; run_steps(&rt, steps)?, "{name}");
    }
    Ok(())
}
