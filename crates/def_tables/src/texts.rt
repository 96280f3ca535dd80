//! Texts that may stand only once.
ghost use Rattle.std.specs.Prelude.{◌≡◌, ◌++◌, map};
ghost use Rattle.def_tables.specs.Readings.{Gives};
ghost use Rattle.def_tables.specs.Keys.{occurs, once, all_once};

use crate::fault::{DefsFault, twice};
use crate::names::without_blanks;
use fp_model::Name;
use std::alloc::Global;
use std::collections::BTreeSet;

/// Refuses the first text that occurred before. Each is looked up in an ordered set of those before it.
#[tactic(auto, unfolding(crate::specs::Keys::all_once))]
pub(crate) fn all_once(alloc: Global, texts: &[&[u8]]) -> Result<(), DefsFault>
    ensures { Gives (λ u. u) result (all_once (map (λ t. t.now) texts.now)) }
{
    let mut seen: BTreeSet<&[u8]> = BTreeSet::new(alloc);
    for text in texts {
        match seen.insert(*text) {
            Ok(true) => (),
            Ok(false) => return Err(twice(alloc, without_blanks(*text))),
            Err(_) => return Err(DefsFault::Memory),
        }
    }
    Ok(())
}
