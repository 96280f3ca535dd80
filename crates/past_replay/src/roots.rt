//! The roots that the calls of a transaction are answered on.
use fp_model::{List, Root};
use past_anchors::Anchors;
use past_calls::AnchorRoots;
use std::alloc::{AllocError, Global};

/// Those of the data entry databases.
#[derive(Clone, Copy)]
pub(crate) struct StateRoots<'a> {
    pub(crate) anchors: &'a Anchors,
}

impl AnchorRoots for StateRoots<'_> {
    ghost use Rattle.past_replay.specs.States.{roots_in};

    ghost roots = { λ it. roots_in it.anchors.now };

    fn copy_of(&self, _alloc: Global, dedb: u8, anchor: u32) -> Result<List<Root>, AllocError> {
        self.anchors.copy_roots(dedb, anchor)
    }
}
