//! Laws of truths, numbers, options, results and lists, each proved once for all crates above.
#![tactic(auto)]
