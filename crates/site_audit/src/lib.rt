//! The audit of a log: whether its entries are what transactions, run alone one after another, come to.
//!
//! `audit` reads the log's groups one after another from its front, hands each entry to an `Auditor`, and sends one line,
//! `legal` and the number of entries. It writes nothing, and syncs nothing.
#![tactic(auto)]

mod auditing;
mod fault;

pub use auditing::audit;
pub use fault::AuditFault;
