//! What a step did.

/// What a step did. Each comes exactly in its case of the table of turns.
#[derive(Clone, Copy, PartialEq, Eq)]
pub enum Did {
    /// There was nothing to do.
    Nothing,
    /// An idle region took the oldest message of its group.
    Took,
    /// A region's call was answered.
    Answered,
    /// A region gained the lock that it needed.
    Gained,
    /// A region waits for a lock that others hold.
    Waited,
    /// A region's transaction is done, and the databases have its changes.
    Committed,
    /// A region's transaction, or a line, was refused: it has an entry, and changed nothing.
    Refused,
    /// A region's transaction gave up its locks, and begins once more.
    Retried,
    /// A line is a message, and was queued.
    Queued,
    /// A line waits for its terminal.
    Held,
    /// So many entries were sealed, and their reply lines sent.
    Sealed(u32),
}
