//! The event that a token is.
ghost use Rattle.std.specs.Prelude.{◌≡◌, ◌<◌, IfSome, position};
ghost use Rattle.std.specs.List.{after_first, before_first};
ghost use Rattle.fp_model.specs.State.{areas_of};
ghost use Rattle.fp_model.specs.WellFormed.{AreDefs};
ghost use Rattle.fp_schedule.specs.Schedule as schedule;

use fp_model::{AreaDef, Defs, Event, Name};
use fp_texts::{digits_number, name_in};

// The data set of the first area; the others follow, in order of definition.
const FIRST_AREA_SET: u16 = 3;

const MOST_PURGED: u64 = 1_000_000_000;

// The number, from 1 to the greatest that is allowed, that a text is without leading zeros.
fn number_up_to(greatest: u64, digits: &[u8]) -> Option<u64>
    ensures { result ≡ schedule.number_up_to greatest digits.now }
{
    if digits.first() == Some(&b'0') {
        return None;
    }
    let number = u64::try_from(digits_number(digits)?).ok()?;
    if number <= greatest {
        Some(number)
    } else {
        None
    }
}

// The turn of the region of this number.
fn region_event(defs: &Defs, digits: &[u8]) -> Option<Event>
    requires defs { AreDefs defs.now }
    ensures { result ≡ schedule.region_event defs.now digits.now }
{
    let region = number_up_to(defs.regions.len() as u64, digits)?;
    Some(Event::Region(region as u8))
}

// The place, among the areas of a database, of the one that has this name and a sequential part.
fn area_in(areas: &[AreaDef], name: &Name) -> Option<usize>
    ensures { result ≡ position (schedule.can_be_purged name.now) areas.now }
{
    areas
        .iter()
        .position(|area| area.name == *name && area.capacity > 0)
}

// The place, among all areas, of the one that has this name and a sequential part.
fn place_among(defs: &Defs, name: &Name) -> Option<usize>
    requires defs { AreDefs defs.now }
    ensures place { result ≡ position (λ area. schedule.can_be_purged name.now area.def) (areas_of defs.now) }
    ensures few { IfSome result (λ place. place < 256) }
{
    let mut before = 0;
    for dedb in defs.dedbs.as_slice() {
        if let Some(place) = area_in(dedb.areas.as_slice(), name) {
            return Some(before + place);
        }
        before += dedb.areas.len();
    }
    None
}

// The data set of the area of this name, where it has a sequential part.
fn purged_set(defs: &Defs, name: &Name) -> Option<u16>
    requires defs { AreDefs defs.now }
    ensures { result ≡ schedule.purged_set defs.now name.now }
{
    let place = place_among(defs, name)?;
    Some(FIRST_AREA_SET + place as u16)
}

// The Purge of so many serials of the area of this name.
fn purge_event(defs: &Defs, area: &[u8], digits: &[u8]) -> Option<Event>
    requires defs { AreDefs defs.now }
    ensures { result ≡ schedule.purge_event defs.now area.now digits.now }
{
    let name = name_in(area)?;
    let set = purged_set(defs, &name)?;
    let n = number_up_to(MOST_PURGED, digits)?;
    Some(Event::Purge { set, n })
}

// What stands before the first slash and behind it; all and nothing where there is none.
fn split_slash(bytes: &[u8]) -> (&[u8], &[u8])
    ensures front { result.0.now ≡ before_first schedule.is_slash bytes.now }
    ensures behind { result.1.now ≡ after_first schedule.is_slash bytes.now }
{
    match bytes.iter().position(|byte| *byte == b'/') {
        Some(place) => (&bytes[..place], &bytes[place + 1..]),
        None => (bytes, &[]),
    }
}

// The event that a token of several parts is.
fn numbered_event(defs: &Defs, token: &[u8]) -> Option<Event>
    requires defs { AreDefs defs.now }
    ensures { result ≡ schedule.numbered_event defs.now token.now }
{
    match token {
        [b'R', digits @ ..] => region_event(defs, digits),
        [b'P', b'U', b'R', b'G', b'E', b'/', rest @ ..] => {
            let (area, digits) = split_slash(rest);
            purge_event(defs, area, digits)
        }
        _ => None,
    }
}

// The event that a token is; `None` where it is none.
pub(crate) fn event_of(defs: &Defs, token: &[u8]) -> Option<Event>
    requires defs { AreDefs defs.now }
    ensures { result ≡ schedule.event_of defs.now token.now }
{
    if token == b"IN".as_slice() {
        return Some(Event::In);
    }
    if token == b"LOG".as_slice() {
        return Some(Event::Log);
    }
    if token == b"OUT".as_slice() {
        return Some(Event::Out);
    }
    if token == b"CKPT".as_slice() {
        return Some(Event::Ckpt);
    }
    numbered_event(defs, token)
}
