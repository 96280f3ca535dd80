//! What a restart makes of the bytes of areas: the items of the log's tail, written over the data sets as a crash left
//! them. And that each step of a run keeps what a restart needs.
//!
//! The functions do nothing; their contracts are the laws. What a law says of a disk it says of what some site tells.
#![tactic(auto)]

mod checkpoints;
mod example;
mod items_over_bytes;
mod restarts;
mod run_steps;

pub use checkpoints::{a_checkpoint_may_open, a_mark_is_set, a_sure_checkpoint_takes_over};
pub use example::an_example;
pub use items_over_bytes::{
    a_range_follows_an_image, a_range_gives_the_new_interval, an_interval_stays_or_comes_whole,
    items_go_on, staged_items_make_an_entry,
};
pub use restarts::{
    a_crash_leaves_whole_areas, a_restart_finds_the_areas, a_sync_may_mix_what_crashes_leave,
    owed_is_the_list_of_what_waits, what_owes_nothing_is_in_its_data_set,
};
pub use run_steps::{
    a_failed_write_is_still_owed, a_sync_keeps_the_areas, a_write_may_be_torn,
    a_written_interval_owes_nothing, an_entry_is_appended, calls_that_spare_the_areas,
    entries_are_sealed, what_spares_the_areas_keeps_them,
};
