//! The tables of the definitions file: which keys a table may have, what the value at one is, and why it isn't.
#![tactic(auto)]

mod fault;
mod fields;
mod keys;
mod load;
mod names;
mod texts;

pub use fault::{DefsFault, bad_field, out_of_limit, twice};
pub use fields::{Layout, fields_at};
pub use keys::{
    Form, count_within, exit_at, flag_at, member, name_at, needed, number_at, number_or,
    number_within, only, tables_at, tables_or_none, within,
};
pub use load::load_at;
pub use names::{as_name, without_blanks};
