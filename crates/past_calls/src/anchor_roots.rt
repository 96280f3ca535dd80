//! Where the roots of anchors stand.
ghost use Rattle.fp_model.specs.declared.database.Root.{Root as RootOf};
ghost use Rattle.std.specs.Prelude.{◌≡◌, IfOk, List as ListOf, ℕ};

use fp_model::{List, Root};
use std::alloc::{AllocError, Global};

/// The roots of all anchors of a state.
pub trait AnchorRoots {
    /// Those of an anchor, by the number of its database and its own: none where there is no such anchor.
    ghost roots: { Self → ℕ → ℕ → ListOf RootOf };

    /// A copy of those. It fails only for want of memory.
    fn copy_of(&self, alloc: Global, dedb: u8, anchor: u32) -> Result<List<Root>, AllocError>
        ensures { IfOk result (λ copies. copies ≡ roots self.now dedb anchor) };
}
