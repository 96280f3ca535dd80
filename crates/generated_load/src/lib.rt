//! A load that is drawn from one number: the parts of a source that `gen` runs.
//!
//!     draw      the state becomes (1103515245 * state + 12345) mod 2^31; of k numbers the draw is (state / 256) mod k
//!     messages  "T1 NEWCUST C001 ANN" newline, then 1,999 times a message
//!     message   four draws: terminal "T" and 1 + draw(20), kind draw(4), account "A001" or "A002" draw(2), amount
//!               1 + draw(100)
//!               kind 0 "DEPOSIT" account amount, 1 "WDRAW" account amount, 2 "ASK" account, 3 "NOTE C001 N" amount
//!     schedule  20,000 times a token
//!     token     draw(8): 0 IN, 1 to 4 R and that number, 5 LOG, 6 CKPT where draw(50) is 0, else OUT,
//!               7 PURGE/AREA2/2 where draw(4) is 0, else IN
//!
//! Definitions and scripts are the sample's. The state begins as the number that is given; the schedule's draws go on
//! behind those of the messages. The way of
//! drawing, and what is drawn, are this project's profile.
#![tactic(auto)]

mod draws;
mod load;
mod sample;

pub use load::{Load, generate};
pub use sample::{DEFINITIONS, SCRIPTS};
