//! Tests of what stands under areas: intervals and the room in them, anchors, sequential parts, states, and anchors that
//! are read through the pool.
//!
//! They stand here and not in the crates that they test, since a crate with tests is proved twice. Which bytes are an
//! interval, and what taking, typing and freeing elements makes of one, is data of a program above.
#![tactic(auto)]

#[cfg(test)]
mod books;
#[cfg(test)]
mod customers;
#[cfg(test)]
mod definitions;
#[cfg(test)]
mod families;
#[cfg(test)]
mod intervals;
#[cfg(test)]
mod loading;
#[cfg(test)]
mod memory;
#[cfg(test)]
mod overflow;
#[cfg(test)]
mod rewriting;
#[cfg(test)]
mod sequential;
#[cfg(test)]
mod states;
#[cfg(test)]
mod storing;
#[cfg(test)]
mod types;
