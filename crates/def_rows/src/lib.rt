//! Worked rows of the definitions file: the sample, and faults, computed on the definitions of `fp_defs` and
//! `def_tables`. Each row is the contract of a function that does nothing.
#![tactic(auto)]

mod rows;

pub use rows::{
    a_cut_line_is_no_document, a_loaded_key_stands_once, an_element_has_its_sequential_pointer,
    an_unknown_key_comes_first, no_bytes_lack_regions, the_least_missing_group_is_named,
    the_sample_is_read,
};
