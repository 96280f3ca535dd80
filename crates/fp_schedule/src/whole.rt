//! Reads a whole schedule.
ghost use Rattle.std.specs.List.{AllByRecursion};
ghost use Rattle.std.specs.Prelude.{◌≡◌, ◌≢◌, [], Ok, Err, IfErr, IfOk};
ghost use Rattle.fp_model.specs.Events.{IsEventOf};
ghost use Rattle.fp_model.specs.WellFormed.{AreDefs};
ghost use Rattle.fp_schedule.specs.Schedule.{events_of};

use crate::events::event_of;
use crate::fault::ScheduleFault;
use crate::tokens::split_token;
use fp_model::{Defs, Event, List};
use std::alloc::Global;

// How many bytes a schedule has at most, and how many tokens.
const LONGEST: usize = 32_000_000;

const MOST_TOKENS: usize = 1_000_000;

/// The events of a schedule over these definitions, in order.
pub fn read_events(alloc: Global, bytes: &[u8], defs: &Defs) -> Result<List<Event>, ScheduleFault>
    requires defs { AreDefs defs.now }
    ensures ok { IfOk result (λ events. events_of defs.now bytes.now ≡ Ok events) }
    ensures events { defs.now.dedbs ≡ [] → IfOk result (AllByRecursion (IsEventOf defs.now)) }
    ensures fault { IfErr result (λ fault. fault ≢ ScheduleFault.Memory → events_of defs.now bytes.now ≡ Err fault) }
{
    if bytes.len() > LONGEST {
        return Err(ScheduleFault::TooLong);
    }
    let mut events = List::new(alloc);
    let mut left = bytes;
    while let Some((token, behind)) = split_token(left) {
        if events.len() == MOST_TOKENS {
            return Err(ScheduleFault::TooMany);
        }
        match event_of(defs, token) {
            Some(event) => events.push(event)?,
            None => return Err(ScheduleFault::BadToken(events.len() as u32 + 1)),
        }
        left = behind;
    }
    Ok(events)
}
