//! Entries of the log as bytes, both ways, and the fields that the log's formats are made of.
//!
//! | Part | Bytes |
//! |---|---|
//! | body | entries, one after another |
//! | entry | length of the rest 8; from 8; outcome; line, length 2; reply, length 2; notes; items |
//! | notes | count 4; 8 each |
//! | items | count 4; items |
//!
//! Bytes are an entry if and only if each length comes out and the entry keeps the rules on the order of items
//! and on empty parts. `put_entry` writes the one spelling of an entry; `entries` reads whole numbers of them
//! and nothing else. `laws` says what follows for bodies, groups and logs.
#![tactic(auto)]

mod fault;
mod laws;
mod puts;
mod reading;
mod room;
mod sizes;
mod takes;
mod writing;

pub use fault::{FormatFault, ReadError};
pub use laws::{
    a_body_is_some_entries, a_body_reads_in_one_way, a_log_reads_in_one_way,
    an_open_gate_without_a_body_is_damage, counted_numbers_are_lawful, entries_are_lawful,
    fields_are_lawful, no_group_begins_another, no_spelling_begins_another,
    the_first_bad_place_is_one,
};
pub use puts::{put_part, put_u16, put_u32, put_u64};
pub use reading::entries;
pub use sizes::entry_length;
pub use takes::{
    byte_of, long_of, number_of, numbers_of, part_of, short_of, u16_of, u32_of, u64_of,
};
pub use writing::{put_entry, write_entry};
