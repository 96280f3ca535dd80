//! What an entry shows by itself: its parts, and the order of its places.
ghost use Rattle.fp_model.specs.Entries.{IsBare, MayStandAt};
ghost use Rattle.fp_model.specs.SerialHistory.{NeverFalls};
ghost use Rattle.std.specs.Prelude.{◌↔◌, IsTrue};

use fp_model::{Entry, Outcome};

// Whether an entry has neither a reply nor notes.
fn is_bare(e: &Entry) -> bool
    ensures { IsTrue result ↔ IsBare e.now }
{
    e.reply.is_empty() && e.notes.is_empty()
}

/// Whether an entry has the parts that its outcome allows at this place, and none that it doesn't.
pub(crate) fn may_stand(e: &Entry, place: u64) -> bool
    ensures { IsTrue result ↔ MayStandAt place e.now }
{
    match &e.outcome {
        Outcome::Done => true,
        Outcome::Verify { .. } | Outcome::Roll(_) | Outcome::SeqFull { .. } => e.reply.is_empty(),
        Outcome::Deadlock(_) | Outcome::Device | Outcome::Memory => is_bare(e),
        Outcome::Unknown | Outcome::Old(_) | Outcome::Repeat(_) => is_bare(e) && e.from == place,
        Outcome::Purge { .. } | Outcome::Format => {
            is_bare(e) && e.from == place && e.line.is_empty()
        }
    }
}

/// Whether where the entry began, its notes and its place never fall, in this order.
pub(crate) fn never_falls(e: &Entry, place: u64) -> bool
    ensures { IsTrue result ↔ NeverFalls e.now.from e.now.notes place }
{
    let mut least = e.from;
    for note in e.notes.as_slice() {
        if *note < least {
            return false;
        }
        least = *note;
    }
    least <= place
}
