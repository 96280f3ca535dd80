//! Where the randomizer sends a root key.
ghost use Rattle.fp_exits.specs.Kinds.{has_kind, kinds_of};
ghost use Rattle.fp_model.specs.DedbCalls.{root_named};
ghost use Rattle.fp_model.specs.Exits.{anchor_of};
ghost use Rattle.fp_model.specs.FitCalls.{AreFitSsas};
ghost use Rattle.fp_model.specs.State.{anchor_count};
ghost use Rattle.fp_model.specs.WellFormed.{IsDedbDef};
ghost use Rattle.std.specs.Prelude.{◌≡◌, ◌≤◌, length, option_map, true, ℕ};

use crate::arguments::root_named;
use fp_exits::Exits;
use fp_model::{DedbDef, Ssa};

/// How many anchors a database has.
pub(crate) fn anchor_count(def: &DedbDef) -> u64
    requires { anchor_count def.now ≤ 65536 }
    ensures { result ≡ anchor_count def.now }
{
    let mut count = 0;
    for area in def.areas.as_slice() {
        count += u64::from(area.uows) * u64::from(area.base);
    }
    count
}

/// The anchor of a root key.
pub(crate) fn anchor_of(def: &DedbDef, exits: &Exits, key: &[u8]) -> u32
    requires def { IsDedbDef def.now }
    requires exit { has_kind (kinds_of exits.now).spreaders def.now.randomizer ≡ true }
    requires some { 1 ≤ length key.now }
    requires short { length key.now ≤ 64 }

    ensures { result ≡ anchor_of def.now key.now }
{
    match exits.spreader(def.randomizer) {
        Some(spreader) => spreader.place(key, anchor_count(def)) as u32,
        None => 0,
    }
}

/// The anchor of the root's key, where a get's arguments give it.
pub(crate) fn root_anchor(def: &DedbDef, exits: &Exits, ssas: &[Ssa]) -> Option<u32>
    requires def { IsDedbDef def.now }
    requires exit { has_kind (kinds_of exits.now).spreaders def.now.randomizer ≡ true }
    requires ssas { AreFitSsas def.now.segments ssas.now }

    ensures { (dedb : ℕ) → result ≡ option_map (anchor_of def.now) (root_named def.now dedb ssas.now) }
{
    match root_named(ssas) {
        Some(key) => Some(anchor_of(def, exits, key)),
        None => None,
    }
}
