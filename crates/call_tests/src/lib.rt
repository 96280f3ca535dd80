//! Tests of what a transaction asks and what it is answered: scripts that run, calls to databases, edits of trees,
//! commits, and the audit's second writing of these.
//!
//! They stand here and not in the crates that they test, since a crate with tests is proved twice. Which texts are
//! definitions or scripts, and drawn calls, are data of programs above.
#![tactic(auto)]

#[cfg(test)]
mod accounts;
#[cfg(test)]
mod anchors;
#[cfg(test)]
mod audits;
#[cfg(test)]
mod customers;
#[cfg(test)]
mod places;
#[cfg(test)]
mod programs;
#[cfg(test)]
mod queues;
#[cfg(test)]
mod reruns;
#[cfg(test)]
mod schedules;
#[cfg(test)]
mod stores;
#[cfg(test)]
mod sync_points;
#[cfg(test)]
mod systems;
#[cfg(test)]
mod transactions;
#[cfg(test)]
mod tree_edits;
#[cfg(test)]
mod trees;
