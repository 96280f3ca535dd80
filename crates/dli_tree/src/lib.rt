//! The roots of one anchor as trees: the next segment that a get looks for, and edits at the end of a path.
#![tactic(auto)]

mod aim;
mod calls;
mod edit;
mod first;
mod laws;
mod path;
mod place;
mod reach;
mod search;
mod standing;
mod types;

pub use calls::{delete, insert, replace};
pub use edit::{Change, edit_at};
pub use first::first_after;
pub use laws::a_path_leads_where_a_segment_stands;
pub use path::{Path, Step};
pub use standing::leads_to;
pub use types::{is_on_line, key_in, parent_of};
