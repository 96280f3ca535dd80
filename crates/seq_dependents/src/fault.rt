//! Why a call on a sequential part gives none.

/// Why a call on a sequential part gives none. After `Full` nothing has changed.
#[derive(Clone, Copy, Debug, PartialEq, Eq)]
pub enum SeqFault {
    /// The sequential part is too full by its count for so many more: `end - begin + n` is more than
    /// the capacity, or `end + n` more than 2^62.
    Full { begin: u64, end: u64, n: u64 },

    /// What holds the intervals failed. Its count of faults rose.
    Failed,

    /// This interval is damaged (`IsAtFault`).
    Damaged(u64),

    /// There is no memory.
    Memory,
}
