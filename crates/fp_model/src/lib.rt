//! The plain types of the system, and in `specs/` the definitions that every contract cites.
//!
//! The types say what definitions, scripts, databases, calls and log entries are; their functions make copies.
//! The definitions say what running them means: docs/MODEL.md lists them in reading order. The functions of
//! `laws` and `call_laws` do nothing; their contracts are laws of the definitions.
#![tactic(auto)]

mod call_laws;
mod calls;
mod database;
mod definitions;
mod events;
mod laws;
mod log;
mod name;
mod scripts;

pub use call_laws::{
    a_written_list_is_read, calls_are_fewer_than_the_cost, nothing_fails_where_all_is_blank,
};
pub use calls::{
    AnchorChange, Answer, Call, Deferred, Get, Message, Mode, Resource, SeqInsert, Ssa,
};
pub use database::{AreaEnds, Db, Dedb, Msdb, Node, Root, SeqItem};
pub use definitions::{
    AreaDef, DedbDef, Defs, FieldDef, FieldKind, Kind, MsdbDef, SegDef, key_length, key_of,
};
pub use events::Event;
pub use fp_lists::{Bytes, List};
pub use laws::{
    a_front_is_a_history, a_turn_keeps, an_in_of_a_drained_machine_changes_nothing,
    entries_determine_states, histories_join, notes_never_fall, steps_determine_the_last_machine,
};
pub use log::{Entry, Item, Outcome};
pub use name::Name;
pub use scripts::{Comparison, FieldText, FsaText, Operand, Operation, Script, SsaText, Statement};
