//! What a schedule asks for.

/// One turn of a schedule.
#[derive(Clone, Copy, PartialEq, Eq)]
pub enum Event {
    /// Takes in a message line.
    In,
    /// Lets a region take a step; regions are numbered from 1.
    Region(u8),
    /// Seals a group of entries and sends their reply lines.
    Log,
    /// Does a step of the checkpoint under way, or else, or where that step waits for a seal, writes the interval that
    /// waits longest.
    Out,
    /// Seals all entries and sends their reply lines; begins a checkpoint where none is under way.
    Ckpt,
    /// Lets the sequential part of an area, named by its data set, begin n serials later, at most at its end.
    Purge { set: u16, n: u64 },
}
