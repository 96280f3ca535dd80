//! How a transaction that runs alone holds anchors.
use dedb_calls::{AnchorLocks, DedbWork};
use fp_model::Mode;

// It holds Exclusive each anchor whose roots it has, and nothing else: no lock is asked.
pub(crate) struct HeldAlone;

impl AnchorLocks for HeldAlone {
    ghost use Rattle.past_calls.specs.Alone.{held_alone};

    ghost modes = { λ alone work. held_alone work.anchors };

    fn mode_of(&self, work: &DedbWork, dedb: u8, anchor: u32) -> Option<Mode> {
        if work.has_roots(dedb, anchor) {
            Some(Mode::Exclusive)
        } else {
            None
        }
    }
}
