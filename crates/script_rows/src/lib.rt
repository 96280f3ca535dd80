//! Worked rows of the script language: tokens, texts of the sample, and faults, computed on the definitions of
//! `txn_lang` and `txn_tokens`. Each row is the contract of a function that does nothing.
#![tactic(auto)]

mod rows;
mod tokens;

pub use rows::{
    a_dear_script_is_a_fault, a_name_twice_is_a_fault, an_open_block_is_a_fault,
    deposit_is_a_script, faults_of_lines, showc_is_a_script, the_sample_is_its_scripts,
};
pub use tokens::{a_field_call_has_these_tokens, tokens_need_no_blanks};
