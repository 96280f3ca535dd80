//! A row of definitions: those of the sample may be given.
#![tactic(auto)]

ghost use Rattle.fp_model.specs.WellFormed.{AreDefs};
ghost use Rattle.fp_rows.specs.Sample.{sample_defs};

/// The sample's definitions keep all rules and limits, so laws of definitions that do aren't empty.
pub fn the_sample_may_be_given()
    ensures { AreDefs sample_defs }
{}
