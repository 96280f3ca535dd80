//! The parts of a source.

/// A part of a source: a text of its own, with its own end.
#[derive(Clone, Copy, PartialEq, Eq)]
pub enum Part {
    Definitions,
    Scripts,
    Schedule,
    Messages,
}
