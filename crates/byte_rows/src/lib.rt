//! Worked rows of bytes, as theorems: numbers, lines, entries, groups, checkpoints, and the intervals that wait for one.
//!
//! Each function has an empty body, and its `ensures` is the row, worked out by hand from the rules in plain words and
//! computed on the definitions. The sample that they speak of is that of `fp_rows`. Beside the rows stand two laws of
//! numbers in fields.
#![tactic(auto)]

pub mod bytes;
pub mod checkpoints;
pub mod entries;
pub mod intervals;
pub mod laws;
