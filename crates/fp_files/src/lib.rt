//! The files of a folder: its data sets and an output as a site, its part files as a source.
//!
//! Neither touches a file before a call needs one. Each keeps the first error of the system, for a line that tells it.
#![tactic(auto)]

mod ahead;
mod cause;
mod data_set;
mod faults;
mod file_site;
mod file_source;
mod folder;
mod host;
mod record;

pub use cause::{Call, Cause, Place};
pub use file_site::FileSite;
pub use file_source::FileSource;
pub use folder::{Access, Folder};
pub use record::Record;
