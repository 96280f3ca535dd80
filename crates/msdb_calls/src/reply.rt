//! What a call is answered, and what becomes of the transaction.
ghost use Rattle.std.specs.Prelude.{◌≡◌, codes};
ghost use Rattle.fp_model.specs.Answers.{answered};
ghost use Rattle.msdb_calls.specs.declared.reply.Change.TheVariants as change;

use fp_model::{Answer, Bytes, Deferred};
use std::alloc::Global;

// What becomes of the transaction. But for a hold get that found, it holds no segment of the database afterwards.
#[derive(Drop)]
pub(crate) enum Change {
    Nothing,
    // The position is at the segment of this key.
    Found { key: Bytes, hold: bool },
    Queued(Deferred),
}

#[derive(Drop)]
pub(crate) struct Reply {
    pub(crate) answer: Answer,
    pub(crate) change: Change,
}

// Two letters and nothing else.
pub(crate) fn answered(alloc: Global, status: [u8; 2]) -> Answer
    ensures { result ≡ answered status }
{
    Answer {
        status,
        segment: 0,
        bytes: Bytes::new(alloc),
        letters: Bytes::new(alloc),
    }
}

// Two letters, and nothing becomes of it.
pub(crate) fn refused(alloc: Global, status: [u8; 2]) -> Reply
    ensures answer { result.answer ≡ answered status }
    ensures change { result.change ≡ change.Nothing }
{
    Reply {
        answer: answered(alloc, status),
        change: Change::Nothing,
    }
}

// All is well, and the call waits in the queue.
pub(crate) fn queued(alloc: Global, deferred: Deferred) -> Reply
    ensures answer { result.answer ≡ answered (codes "  ") }
    ensures change { result.change ≡ change.Queued deferred }
{
    Reply {
        answer: answered(alloc, *b"  "),
        change: Change::Queued(deferred),
    }
}
