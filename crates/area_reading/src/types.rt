//! The sequential type of a database.

ghost use Rattle.std.specs.Prelude.{◌≡◌, true};
ghost use Rattle.fp_model.specs.WellFormed.{has_sequential};
ghost use Rattle.area_states.specs.Places.{sequential_length};

use fp_model::SegDef;

/// The length of the segments of the sequential type.
#[tactic(auto, using(crate::proofs::Lengths::sequential_first))]
pub(crate) fn sequential_length(types: &[SegDef]) -> u16
    ensures { has_sequential types.now ≡ true → result ≡ sequential_length types.now }
{
    for def in types {
        if def.sequential {
            return def.length;
        }
    }
    0
}
