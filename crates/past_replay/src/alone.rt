//! What running a transaction alone comes to.

use fp_model::{Bytes, Outcome};

/// What running a transaction alone comes to.
#[derive(Drop)]
pub enum Alone {
    /// It ends so: Done with the reply of its script, or Verify, Roll or SeqFull with an empty one.
    Ends { outcome: Outcome, reply: Bytes },
    /// Its notes are more or fewer than its unheld looks.
    Stuck,
}
