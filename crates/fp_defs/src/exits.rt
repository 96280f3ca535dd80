//! Whether an installation has the exits that its definitions name.
ghost use Rattle.std.specs.Prelude.{◌≡◌, map};
ghost use Rattle.fp_exits.specs.Kinds.{kinds_of, has_kind};
ghost use Rattle.fp_defs.specs.Exits.{first_lacking, lacking};

use fp_exits::Exits;
use fp_model::{DedbDef, Defs, Kind};

/// Whether there is a router of a kind.
fn has_router(exits: &Exits, kind: Kind) -> bool
    ensures { result ≡ has_kind (kinds_of exits.now).routers kind }
{
    exits.router(kind).is_some()
}

/// Whether there is a spreader of a kind.
fn has_spreader(exits: &Exits, kind: Kind) -> bool
    ensures { result ≡ has_kind (kinds_of exits.now).spreaders kind }
{
    exits.spreader(kind).is_some()
}

/// The first randomizer of these databases without its spreader.
fn first_lacking(exits: &Exits, dedbs: &[DedbDef]) -> Option<Kind>
    ensures { result ≡ first_lacking (kinds_of exits.now).spreaders (map (λ d. d.randomizer) dedbs.now) }
{
    for dedb in dedbs {
        if !has_spreader(exits, dedb.randomizer) {
            return Some(dedb.randomizer);
        }
    }
    None
}

/// The first kind without its exit: the router's, and then each randomizer's in turn.
pub(crate) fn lacking(exits: &Exits, defs: &Defs) -> Option<Kind>
    ensures { result ≡ lacking (kinds_of exits.now) defs.now }
{
    if has_router(exits, defs.router) {
        first_lacking(exits, defs.dedbs.as_slice())
    } else {
        Some(defs.router)
    }
}
