//! Databases before any transaction.
ghost use Rattle.fp_model.specs.State.{first_ends, formatted};
ghost use Rattle.std.specs.Prelude.{◌≡◌, ◌++◌, [], IfOk, OnOk, replicate};

use crate::area::anchors_in;
use fp_model::{AreaEnds, Dedb, DedbDef, List, Root};
use std::alloc::{AllocError, Global};

/// The ends of a sequential part that never had a segment.
pub(crate) fn first_ends() -> AreaEnds
    ensures { result ≡ first_ends }
{
    AreaEnds { begin: 1, end: 1 }
}

/// Adds so many anchors without roots.
fn add_empty(alloc: Global, anchors: &mut List<List<Root>>, count: u64) -> Result<(), AllocError>
    ensures { OnOk result (anchors.new ≡ anchors.old ++ replicate count []) }
{
    for _done in 0..count {
        anchors.push(List::new(alloc))?;
    }
    Ok(())
}

/// A database without roots and sequential dependents. It fails only for want of memory.
pub(crate) fn formatted(alloc: Global, def: &DedbDef) -> Result<Dedb, AllocError>
    ensures { IfOk result (λ dedb. dedb ≡ formatted def.now) }
{
    let mut anchors = List::new(alloc);
    let mut areas = List::new(alloc);
    for area in def.areas.as_slice() {
        add_empty(alloc, &mut anchors, anchors_in(area))?;
        areas.push(first_ends())?;
    }
    Ok(Dedb { anchors, areas })
}
