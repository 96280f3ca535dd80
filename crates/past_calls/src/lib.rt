//! The calls of one transaction, run again at a place of the log: what each is answered, with unheld looks at main
//! storage databases at an earlier place, and what the transaction keeps to itself until its end. No lock is asked.
#![tactic(auto)]

mod anchor_roots;
mod answering;
mod held_alone;
mod on_roots;
mod placed_looks;
mod work;

pub use anchor_roots::AnchorRoots;
pub use answering::{Ready, answer, answer_msdb, looks};
pub use on_roots::answer_on;
pub use work::{Parts, Work};
