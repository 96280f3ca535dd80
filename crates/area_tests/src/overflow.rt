//! Room in a unit of work and elements that are given back: where they stand, and how many intervals each call gets.
//!
//! An interval of 512 bytes has 480 behind its head, and an element of n bytes takes n + 4: four of 100 bytes, at 32,
//! 136, 240 and 344, then 64 bytes are left; two of 200, at 32 and 236; or one of 400.
ghost use Rattle.std.specs.Prelude.{◌≡◌};

use crate::memory::{MemoryArea, control};
use ci_overflow::{
    SeenFull, SeenLinks, SpaceFault, find_room, find_room_seen, give_back, give_back_seen,
};
use ci_space::{Head, Interval, Intervals, Shape};
use std::alloc::Global;
use std::test::Fail;

/// What is done with an area, and what is to come of it.
enum Step {
    /// Room for so many bytes is found in this interval at this place.
    Room(u16, u64, u16),
    /// So it is, with what had no room before, and so many intervals are got.
    RoomSeen(u16, u64, u16, u64),
    /// What had no room is forgotten.
    Forget,
    /// The element of this interval at this place is given back.
    Back(u64, u16),
    /// So it is, with the links that were seen, and so many intervals are got.
    BackSeen(u64, u16, u64),
    /// It isn't, and this interval is damaged.
    Damaged(u64, u16, u64),
    /// Whether an element is used in this interval at this place.
    IsUsed(u64, u16, bool),
    /// An interval's link.
    Link(u64, u64),
    /// An independent overflow interval's link and owner.
    Independent(u64, u64, u64),
    /// Control's number of independent overflow intervals, and the first of the free chain. The other two stay 1.
    Control(u64, u64),
    /// The number of intervals.
    Count(u64),
}

use Step::{
    Back, BackSeen, Control, Count, Damaged, Forget, Independent, IsUsed, Link, Room, RoomSeen,
};

/// The list comes behind the dependent overflow, and then new intervals at its front.
const NEW_ONES: &[Step] = &[
    Room(400, 1, 32),
    Room(400, 2, 32),
    Room(400, 3, 32),
    Room(400, 4, 32),
    Room(200, 5, 32),
    Room(200, 5, 236),
    Count(6),
    Control(3, 0),
    Link(1, 5),
    Independent(5, 4, 1),
    Link(4, 3),
    Link(3, 0),
];

/// The free chain comes before a new interval.
const FREE_ONES: &[Step] = &[
    Room(400, 1, 32),
    Room(400, 2, 32),
    Room(400, 3, 32),
    Room(400, 4, 32),
    Count(5),
    Control(2, 0),
    Link(1, 4),
    Link(4, 3),
    Independent(3, 0, 1),
];

/// An element goes and the others stay. Then places where no element is used, an interval of another kind, and one that
/// the area hasn't.
const GIVEN_BACK: &[Step] = &[
    Room(100, 1, 32),
    Room(100, 1, 136),
    Room(100, 1, 240),
    Room(100, 1, 344),
    Back(1, 136),
    Count(4),
    IsUsed(1, 32, true),
    IsUsed(1, 136, false),
    IsUsed(1, 240, true),
    IsUsed(1, 344, true),
    Link(1, 3),
    Damaged(1, 136, 1),
    Damaged(1, 36, 1),
    Damaged(0, 32, 0),
    Damaged(9, 32, 9),
];

/// The list 5, 4, 3 with an element in each interval.
const FULL: &[Step] = &[
    Room(400, 1, 32),
    Room(400, 2, 32),
    Room(400, 3, 32),
    Room(400, 4, 32),
    Room(400, 5, 32),
];

/// The first of the list becomes empty, then the next.
const FIRST_EMPTIED: &[Step] = &[
    Back(5, 32),
    Count(6),
    Link(1, 4),
    Link(3, 0),
    Link(4, 3),
    Link(5, 0),
    Control(3, 5),
    Back(4, 32),
    Room(400, 4, 32),
    Room(400, 5, 32),
    Room(400, 6, 32),
];

/// The one in the middle becomes empty, then the last.
const MIDDLE_EMPTIED: &[Step] = &[
    Back(4, 32),
    Count(6),
    Link(1, 5),
    Link(3, 0),
    Link(4, 0),
    Link(5, 3),
    Control(3, 4),
    Back(3, 32),
    Room(400, 3, 32),
    Room(400, 4, 32),
    Room(400, 6, 32),
];

/// The last becomes empty, then the first.
const LAST_EMPTIED: &[Step] = &[
    Back(3, 32),
    Count(6),
    Link(1, 5),
    Link(3, 0),
    Link(4, 0),
    Link(5, 4),
    Control(3, 3),
    Back(5, 32),
    Room(400, 5, 32),
    Room(400, 3, 32),
    Room(400, 6, 32),
];

/// The base interval is got for each element. Of the dependent overflow interval and the list only the first with room
/// is got besides, and what becomes full once. Where an interval joins, control, that one and the base interval are
/// got. For another length all are tried anew.
const TAKEN: &[Step] = &[
    RoomSeen(100, 1, 32, 1),
    RoomSeen(100, 1, 136, 1),
    RoomSeen(100, 1, 240, 1),
    RoomSeen(100, 1, 344, 1),
    RoomSeen(100, 2, 32, 2),
    RoomSeen(100, 2, 136, 2),
    RoomSeen(100, 2, 240, 2),
    RoomSeen(100, 2, 344, 2),
    RoomSeen(100, 3, 32, 5),
    RoomSeen(100, 3, 136, 2),
    RoomSeen(100, 3, 240, 2),
    RoomSeen(100, 3, 344, 2),
    RoomSeen(100, 4, 32, 5),
    RoomSeen(100, 4, 136, 2),
    RoomSeen(100, 4, 240, 2),
    RoomSeen(100, 4, 344, 2),
    RoomSeen(100, 5, 32, 5),
    Link(1, 5),
    Independent(5, 4, 1),
    Independent(4, 3, 1),
    Independent(3, 0, 1),
    Control(3, 0),
    RoomSeen(200, 5, 136, 3),
    RoomSeen(200, 6, 32, 7),
    RoomSeen(100, 6, 236, 2),
    RoomSeen(100, 6, 340, 2),
    RoomSeen(100, 5, 340, 3),
    RoomSeen(100, 7, 32, 5),
    RoomSeen(200, 7, 136, 2),
    RoomSeen(400, 8, 32, 10),
    RoomSeen(100, 7, 340, 3),
    Link(1, 8),
    Independent(8, 7, 1),
    Independent(7, 6, 1),
    Independent(6, 5, 1),
    Control(6, 0),
];

/// The list 5, 4, 3 behind a full base interval and a full dependent overflow interval.
const FULL_SEEN: &[Step] = &[
    RoomSeen(400, 1, 32, 1),
    RoomSeen(400, 2, 32, 2),
    RoomSeen(400, 3, 32, 5),
    RoomSeen(400, 4, 32, 5),
    RoomSeen(400, 5, 32, 5),
    Control(3, 0),
];

/// The last of the list becomes empty first: the list is gone over once. For each interval that becomes empty it is
/// got, the base interval, the one whose link led to it, and control.
const LAST_FIRST: &[Step] = &[
    BackSeen(3, 32, 5),
    Independent(3, 0, 0),
    Independent(4, 0, 1),
    BackSeen(4, 32, 4),
    BackSeen(5, 32, 3),
    Link(1, 0),
    Independent(5, 4, 0),
    Independent(4, 3, 0),
    Control(3, 5),
    Forget,
    RoomSeen(400, 5, 32, 5),
];

/// The first of the list becomes empty first: only the base interval's link leads to it.
const FIRST_FIRST: &[Step] = &[
    BackSeen(5, 32, 3),
    BackSeen(4, 32, 3),
    Link(1, 3),
    BackSeen(3, 32, 3),
    Link(1, 0),
    Control(3, 3),
    Independent(3, 4, 0),
    Independent(4, 5, 0),
];

/// The one in the middle first. Then an element goes from an interval that keeps others: that one alone is got.
const MIDDLE_FIRST: &[Step] = &[
    BackSeen(4, 32, 4),
    Independent(5, 3, 1),
    BackSeen(3, 32, 4),
    Independent(5, 0, 1),
    Control(3, 3),
    Independent(3, 4, 0),
    BackSeen(5, 32, 3),
    Control(3, 5),
    BackSeen(1, 32, 1),
    Forget,
    RoomSeen(100, 1, 32, 1),
    BackSeen(1, 32, 1),
];

/// The links of an area at first: the base interval's link, the first of the free chain, and of each independent
/// overflow interval its link, its owner and how many bytes an element has there, 0 for none.
struct Links(u64, u64, &'static [(u64, u64, u16)]);

/// One independent overflow interval, in the list, or in the free chain.
const LISTED: Links = Links(3, 0, &[(0, 1, 0)]);

const FREE: Links = Links(0, 3, &[(0, 0, 0)]);

/// None.
const NONE: Links = Links(0, 0, &[]);

/// Areas, and what is done there.
static RUNS: [(Links, [&[Step]; 2]); 10] = [
    (LISTED, [NEW_ONES, &[]]),
    (FREE, [FREE_ONES, &[]]),
    (LISTED, [GIVEN_BACK, &[]]),
    (LISTED, [FULL, FIRST_EMPTIED]),
    (LISTED, [FULL, MIDDLE_EMPTIED]),
    (LISTED, [FULL, LAST_EMPTIED]),
    (NONE, [TAKEN, &[]]),
    (NONE, [FULL_SEEN, LAST_FIRST]),
    (NONE, [FULL_SEEN, FIRST_FIRST]),
    (NONE, [FULL_SEEN, MIDDLE_FIRST]),
];

/// The runs.
fn runs() -> &'static [(Links, [&'static [Step]; 2])] {
    &RUNS
}

/// One unit of work of one base and one dependent overflow interval, and no sequential ones.
fn shape() -> Shape
    ensures uows { result.uows ≡ 1 }
    ensures base { result.base ≡ 1 }
{
    Shape {
        ci: 512,
        uows: 1,
        base: 1,
        overflow: 1,
        seq_cis: 0,
    }
}

/// A head without a root anchor point.
fn head(kind: u8, link: u64, owner: u64) -> Head
    ensures { result ≡ (record { kind = kind; root = (0, 0); link = link; owner = owner }) }
{
    Head {
        kind,
        root: (0, 0),
        link,
        owner,
    }
}

/// An independent overflow interval, with an element of so many bytes.
fn independent(alloc: Global, link: u64, owner: u64, length: u16) -> Result<Interval, Fail> {
    let mut shared = Interval::empty(alloc, 512, 5)?;
    shared.set_head(head(5, link, owner));
    if length > 0 {
        let _at = shared.take(length);
    }
    Ok(shared)
}

/// An area of that shape, with these links.
fn area(alloc: Global, links: &Links) -> Result<MemoryArea, Fail> {
    let mut area = MemoryArea::new(alloc);
    area.add(control(alloc, [1, 1, links.2.len() as u64, links.1])?)?;
    let mut base = Interval::empty(alloc, 512, 2)?;
    base.set_head(head(2, links.0, 0));
    area.add(base)?;
    area.add_empty(3)?;
    for (link, owner, length) in links.2 {
        area.add(independent(alloc, *link, *owner, *length)?)?;
    }
    Ok(area)
}

/// An area, what had no room there, and the links that were seen.
#[derive(Drop)]
struct Run {
    alloc: Global,
    area: MemoryArea,
    full: SeenFull,
    links: SeenLinks,
}

impl Run {
    /// An area with these links.
    fn begin(alloc: Global, links: &Links) -> Result<Run, Fail> {
        Ok(Run {
            alloc,
            area: area(alloc, links)?,
            full: SeenFull::new(alloc),
            links: SeenLinks::new(alloc),
        })
    }

    /// The place that is found for so many bytes, and how many intervals are got.
    fn take(&mut self, length: u16) -> (Result<(u64, u16), SpaceFault>, u64) {
        let before = self.area.calls();
        let area = &mut self.area;
        let found = find_room_seen(self.alloc, area, &shape(), 0, length, &mut self.full);
        (found, self.area.calls_since(before).0)
    }

    /// Whether an element was given back, and how many intervals are got.
    fn give(&mut self, ci: u64, at: u16) -> (bool, u64) {
        let before = self.area.calls();
        let given = give_back_seen(&mut self.area, &shape(), ci, at, &mut self.links);
        (given.is_ok(), self.area.calls_since(before).0)
    }

    /// Whether control says these numbers, as 8 bytes each from 32 on.
    fn has_control(&self, number: u64, free: u64) -> bool {
        for (place, value) in [1, 1, number, free].iter().enumerate() {
            if !self.area.has_bytes(0, 32 + 8 * place, &value.to_be_bytes()) {
                return false;
            }
        }
        true
    }

    /// Whether an interval has this link.
    fn has_link(&self, ci: u64, link: u64) -> bool {
        match self.area.head_at(ci) {
            Some(head) => head.link == link,
            None => false,
        }
    }

    /// Whether a step answers so.
    fn answers(&mut self, step: &Step) -> bool {
        match step {
            Room(length, ci, at) => {
                find_room(&mut self.area, &shape(), 0, *length) == Ok((*ci, *at))
            }
            RoomSeen(length, ci, at, gets) => self.take(*length) == (Ok((*ci, *at)), *gets),
            Forget => {
                self.full = SeenFull::new(self.alloc);
                true
            }
            Back(ci, at) => give_back(&mut self.area, &shape(), *ci, *at).is_ok(),
            BackSeen(ci, at, gets) => self.give(*ci, *at) == (true, *gets),
            Damaged(ci, at, damaged) => {
                is_damaged(give_back(&mut self.area, &shape(), *ci, *at), *damaged)
            }
            IsUsed(ci, at, used) => self.area.is_used(*ci, *at) == *used,
            Link(ci, link) => self.has_link(*ci, *link),
            Independent(ci, link, owner) => {
                self.area.head_at(*ci) == Some(head(5, *link, *owner))
            }
            Control(number, free) => self.has_control(*number, *free),
            Count(count) => self.area.count() == *count,
        }
    }

    /// The place of the first step that answers something else.
    fn first_wrong(&mut self, steps: &[Step]) -> Option<usize> {
        for (place, step) in steps.iter().enumerate() {
            if !self.answers(step) {
                return Some(place);
            }
        }
        None
    }

    /// The place, in its part, of the first step of all that answers something else.
    fn first_wrong_of(&mut self, parts: &[&[Step]; 2]) -> Option<usize> {
        match self.first_wrong(parts[0]) {
            Some(place) => Some(place),
            None => self.first_wrong(parts[1]),
        }
    }
}

/// So it is in an area with these links.
fn wrong_step(alloc: Global, links: &Links, parts: &[&[Step]; 2]) -> Result<Option<usize>, Fail> {
    let mut run = Run::begin(alloc, links)?;
    Ok(run.first_wrong_of(parts))
}

/// Whether a call names this interval.
fn is_damaged<T: Drop>(answer: Result<T, SpaceFault>, ci: u64) -> bool {
    match answer {
        Err(SpaceFault::Damaged(found)) => found == ci,
        _ => false,
    }
}

#[test]
fn elements_come_and_go_where_they_are_to(rt: HostRuntime) -> Result<(), Fail> {
    for (number, (links, parts)) in runs().iter().enumerate() {
        let wrong = wrong_step(rt.alloc(), links, parts)?;
        assert!(rt;
            wrong.is_none(),
            "run {number}, step {}",
            wrong.unwrap_or(0)
        );
    }
    Ok(())
}

/// Links, and the interval that is damaged: a circle, a link outside the area, one to no independent overflow interval,
/// another owner, and an interval of a unit of work in the free chain.
static BROKEN_LISTS: [(Links, u64); 5] = [
    (Links(3, 0, &[(3, 1, 0)]), 3),
    (Links(3, 0, &[(9, 1, 0)]), 3),
    (Links(2, 0, &[(0, 1, 0)]), 1),
    (Links(3, 0, &[(0, 2, 0)]), 1),
    (Links(0, 3, &[(0, 1, 0)]), 0),
];

#[test]
fn damage_is_found(rt: HostRuntime) -> Result<(), Fail> {
    for (row, (links, damaged)) in BROKEN_LISTS.iter().enumerate() {
        let mut area = area(rt.alloc(), links)?;
        for _ in 0..3 {
            if let Ok((ci, _)) = find_room(&mut area, &shape(), 0, 400) {
                assert!(rt; ci <= 3);
            }
        }
        let found = find_room(&mut area, &shape(), 0, 400);
        assert!(rt; is_damaged(found, *damaged), "row {row}");
    }
    Ok(())
}

/// Links, and the interval that is damaged where 4 leaves its list, in which the only element is given back: a circle,
/// a list that doesn't hold it, a link outside the area, one to no independent overflow interval, and another owner.
static BROKEN_FOR_FOUR: [(Links, u64); 5] = [
    (Links(3, 0, &[(3, 1, 0), (0, 1, 400)]), 3),
    (Links(3, 0, &[(0, 1, 0), (0, 1, 400)]), 4),
    (Links(3, 0, &[(9, 1, 0), (0, 1, 400)]), 3),
    (Links(2, 0, &[(0, 1, 0), (0, 1, 400)]), 1),
    (Links(3, 0, &[(0, 2, 0), (0, 1, 400)]), 1),
];

#[test]
fn damage_is_found_where_an_interval_leaves_its_list(rt: HostRuntime) -> Result<(), Fail> {
    for (row, (links, damaged)) in BROKEN_FOR_FOUR.iter().enumerate() {
        let mut area = area(rt.alloc(), links)?;
        let found = give_back(&mut area, &shape(), 4, 32);
        assert!(rt; is_damaged(found, *damaged), "row {row}");
    }
    Ok(())
}

/// How many elements of 100 bytes are taken, how many intervals are got for all of them, and how many where they are
/// given back in the same order.
///
/// 400 elements: 4 gets in the base interval, 8 in the dependent overflow interval, and 5 + 2 + 2 + 2 in each of the 98
/// of the list. Given back: 1 for each element, 2 more for each interval that becomes empty, 97 for the way to the last
/// of the list, and 1 for the one before each of the 96 between.
static LONG: [(usize, u64, u64); 2] = [(400, 1090, 789), (1600, 4390, 3189)];

/// Takes so many elements, and answers how many intervals were got.
fn take_all(run: &mut Run, places: &mut Vec<(u64, u16)>, count: usize) -> u64 {
    let mut all = 0u64;
    for _ in 0..count {
        let (found, got) = run.take(100);
        match found {
            Ok(place) if places.push(place).is_ok() => all = all.saturating_add(got),
            _ => return 0,
        }
    }
    all
}

/// Gives all elements back, and answers how many intervals were got.
fn give_all(run: &mut Run, places: &[(u64, u16)]) -> u64 {
    let mut all = 0u64;
    for (ci, at) in places {
        let (given, got) = run.give(*ci, *at);
        if !given {
            return 0;
        }
        all = all.saturating_add(got);
    }
    all
}

/// How many intervals are got where so many elements are taken, and where they are given back.
fn gets_of(alloc: Global, count: usize) -> Result<(u64, u64), Fail> {
    let mut run = Run::begin(alloc, &NONE)?;
    let mut places = Vec::new(alloc);
    let taken = take_all(&mut run, &mut places, count);
    Ok((taken, give_all(&mut run, places.as_slice())))
}

#[test]
fn a_long_list_costs_what_stands_in_it(rt: HostRuntime) -> Result<(), Fail> {
    for (count, taken, given) in &LONG {
        assert!(rt; gets_of(rt.alloc(), *count)? == (*taken, *given));
    }
    Ok(())
}
