//! What a call comes to.
ghost use Rattle.fp_model.specs.Answers.{answered};
ghost use Rattle.std.specs.Prelude.{◌≡◌};

use fp_model::{Answer, Bytes, Mode};
use std::alloc::Global;

/// What a call to a data entry database comes to.
#[derive(Drop)]
pub enum DedbReady {
    /// It is answered.
    Answer(Answer),
    /// The lock of an anchor that it needs first, and doesn't hold so.
    Need { anchor: u32, mode: Mode },
}

/// An answer of two letters and nothing else.
pub(crate) fn answered(alloc: Global, status: [u8; 2]) -> Answer
    ensures { result ≡ answered status }
{
    Answer {
        status,
        segment: 0,
        bytes: Bytes::new(alloc),
        letters: Bytes::new(alloc),
    }
}
