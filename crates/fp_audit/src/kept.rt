//! What is kept of the last number of a terminal.

use fp_model::Bytes;

/// The last number of a terminal, and the reply line that it got, without its newline.
#[derive(Drop)]
pub(crate) struct Kept {
    pub(crate) number: u64,
    pub(crate) line: Bytes,
}
