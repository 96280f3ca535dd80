//! The two small list types of every public struct: contracts see `Bytes` and `List<T>` as plain lists.
//!
//! Each is a `Vec` and nothing else. Making one from a `Vec`, and giving the `Vec` back, takes no memory.
#![tactic(auto)]

mod bytes;
mod list;

pub use bytes::Bytes;
pub use list::List;
