//! That the state has its shape in every moment: laws and lemmas over the definitions of the model.
//!
//! The functions do nothing; their contracts are the laws. `IsDbOf` of fp_model's `specs/Shape.antt` says what the
//! shape is: each database's segments, anchors, roots, ends and serials as the definitions have them.
#![tactic(auto)]

mod laws;

pub use laws::{
    a_changed_anchor_keeps_the_shape, a_commit_keeps_the_shape, a_fresh_workspace_fits,
    a_history_keeps_the_shape, a_later_end_keeps_the_shape, a_purge_keeps_the_shape,
    a_sequential_insert_keeps_its_database, a_sequential_insert_keeps_the_shape,
    a_transaction_alone_keeps_the_shape, an_answer_fits_its_target,
    an_answered_call_keeps_what_fits, an_answered_call_ties_what_is_held, an_edit_keeps_the_shape,
    settling_keeps_the_shape, the_start_has_its_shape,
};
