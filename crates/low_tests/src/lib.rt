//! Tests of the low crates: lists, loads, exits, queues, last numbers, locks, sources, sites, the files of a folder.
//!
//! They stand here and not in the crates that they test, since a crate with tests is proved twice. Each file tests one
//! crate. What is a set of cases, text in and value out, as numbers, lines, field search arguments and entries, is data
//! of a program above and not here.
#![tactic(auto)]

#[cfg(test)]
mod exits;
#[cfg(test)]
mod files;
#[cfg(test)]
mod last_numbers;
#[cfg(test)]
mod lists;
#[cfg(test)]
mod loads;
#[cfg(test)]
mod locks;
#[cfg(test)]
mod queues;
#[cfg(test)]
mod sites;
#[cfg(test)]
mod sources;
#[cfg(test)]
mod steps;
