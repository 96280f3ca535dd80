//! Edits of an anchor: a segment at the end of a path is inserted, replaced, or deleted with all below it.
ghost use Rattle.dli_tree.specs.Descents.{leads_to};
ghost use Rattle.dli_tree.specs.InOrder.{AreTypes, are_in_order};
ghost use Rattle.dli_tree.specs.Paths.{steps_of};
ghost use Rattle.fp_model.specs.Order.{edited, Inserts, Replaces, Deletes};
ghost use Rattle.std.specs.Prelude.{◌≡◌, IfOk, Ok, OnErr, false, not, true};

use crate::edit::{Change, edit_at};
use crate::path::Path;
use crate::standing::leads_to;
use fp_model::{Bytes, List, Root, SegDef};
use std::alloc::{AllocError, Global};

/// Inserts a segment at the end of a path, among its twins by its key. False exactly where the path leads to a segment
/// already, and then nothing changes.
///
/// It is meant for a path whose parents stand, whose last step is of a direct type, with bytes that begin with that
/// step's key. Where a parent doesn't stand nothing changes. It fails only for want of memory, and then nothing
/// changes.
pub fn insert(
    alloc: Global,
    roots: &mut List<Root>,
    segments: &List<SegDef>,
    path: &Path,
    bytes: Bytes,
) -> Result<bool, AllocError>
    requires { AreTypes segments.now }

    // It is put exactly where the path leads to no segment.
    ensures new { are_in_order segments.now roots.old ≡ true
        → IfOk result (λ new. new ≡ not (leads_to segments.now roots.old (steps_of path.now.steps))) }
    ensures ok { are_in_order segments.now roots.old ≡ true → result ≡ Ok true
        → roots.new ≡ edited segments.now roots.old (steps_of path.now.steps) (Inserts bytes) }

    // Otherwise nothing changes.
    ensures there { result ≡ Ok false → roots.new ≡ roots.old }
    ensures err { OnErr result (roots.new ≡ roots.old) }
{
    let segments = segments.as_slice();
    let steps = path.steps.as_slice();
    if leads_to(segments, roots.as_slice(), steps) {
        return Ok(false);
    }
    edit_at(segments, steps, Change::Insert(alloc, bytes), roots)?;
    Ok(true)
}

/// Gives the segment at the end of a path other bytes, which are to begin with the key that it has; what is below it
/// stays. False exactly where the path leads to no segment, and then nothing changes. Takes no memory.
pub fn replace(roots: &mut List<Root>, segments: &List<SegDef>, path: &Path, bytes: Bytes) -> bool
    requires { AreTypes segments.now }

    // It is done exactly where the path leads to a segment.
    ensures there { are_in_order segments.now roots.old ≡ true
        → result ≡ leads_to segments.now roots.old (steps_of path.now.steps) }
    ensures ok { are_in_order segments.now roots.old ≡ true → result ≡ true
        → roots.new ≡ edited segments.now roots.old (steps_of path.now.steps) (Replaces bytes) }

    // Otherwise nothing changes.
    ensures absent { result ≡ false → roots.new ≡ roots.old }
{
    let segments = segments.as_slice();
    let steps = path.steps.as_slice();
    if !leads_to(segments, roots.as_slice(), steps) {
        return false;
    }
    match edit_at(segments, steps, Change::Replace(bytes), roots) {
        Ok(()) => true,
        Err(_) => false,
    }
}

/// Takes the segment at the end of a path away with all below it. False exactly where the path leads to no segment, and
/// then nothing changes. Takes no memory.
pub fn delete(roots: &mut List<Root>, segments: &List<SegDef>, path: &Path) -> bool
    requires { AreTypes segments.now }

    // It is done exactly where the path leads to a segment.
    ensures there { are_in_order segments.now roots.old ≡ true
        → result ≡ leads_to segments.now roots.old (steps_of path.now.steps) }
    ensures ok { are_in_order segments.now roots.old ≡ true → result ≡ true
        → roots.new ≡ edited segments.now roots.old (steps_of path.now.steps) Deletes }

    // Otherwise nothing changes.
    ensures absent { result ≡ false → roots.new ≡ roots.old }
{
    let segments = segments.as_slice();
    let steps = path.steps.as_slice();
    if !leads_to(segments, roots.as_slice(), steps) {
        return false;
    }
    match edit_at(segments, steps, Change::Delete, roots) {
        Ok(()) => true,
        Err(_) => false,
    }
}
