//! What an auditor has found so far.

/// What an auditor has found of the entries so far.
#[derive(Clone, Copy)]
pub(crate) enum Verdict {
    /// All are legal.
    Legal,
    /// One isn't.
    Illegal,
    /// There was no memory for one.
    Spent,
}
