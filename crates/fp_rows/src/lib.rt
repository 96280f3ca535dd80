//! Worked rows of calls, transactions and turns, as theorems: each function has an empty body, and its `ensures` is
//! the fact.
//!
//! A row is computed by hand from the rules in plain words; here the definitions give the same. So a reader can
//! see by example what a definition says, and a definition that turned into another would lose its rows.
#![tactic(auto)]

pub mod calls;
pub mod customers;
pub mod definitions;
pub mod numbered;
pub mod retries;
pub mod transactions;
