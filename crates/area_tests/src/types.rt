//! Segment types, and what an anchor of such types has.
ghost use Rattle.std.specs.Prelude.{◌≡◌, ◌<◌, IfOk};
ghost use Rattle.area_runs.specs.Types.{AreCustomerTypes};
ghost use Rattle.area_tests.specs.Types.{AreFamilyTypes};
ghost use Rattle.anchor_elements.specs.Elements.{AreTypes};
ghost use Rattle.root_anchor.specs.Chains.{anchor_count};

use crate::memory::MemoryArea;
use ci_space::Shape;
use fp_model::{FieldDef, FieldKind, List, Name, Root, SegDef};
use root_anchor::load;
use std::alloc::{AllocError, Global};

/// A segment type with a key of this length.
fn segment(
    alloc: Global,
    parent: Option<u8>,
    sequential: bool,
    key: u16,
    length: u16,
) -> Result<SegDef, AllocError>
    ensures parent { IfOk result (λ def. def.parent ≡ parent) }
    ensures sequential { IfOk result (λ def. def.sequential ≡ sequential) }
    ensures length { IfOk result (λ def. def.length ≡ length) }
{
    let mut fields = List::new(alloc);
    fields.push(FieldDef {
        name: Name(*b"KEY     "),
        kind: FieldKind::C,
        at: 0,
        length: key,
    })?;
    Ok(SegDef {
        name: Name(*b"SEGMENT "),
        parent,
        sequential,
        fields,
        length,
    })
}

/// CUSTOMER, NOTE below it, which is sequential, and LOAN below CUSTOMER.
pub fn customer_types(alloc: Global) -> Result<List<SegDef>, AllocError>
    ensures types { IfOk result (AreTypes 512) }
    ensures customers { IfOk result AreCustomerTypes }
{
    let mut types = List::new(alloc);
    types.push(segment(alloc, None, false, 4, 16)?)?;
    types.push(segment(alloc, Some(0), true, 4, 8)?)?;
    types.push(segment(alloc, Some(0), false, 2, 6)?)?;
    Ok(types)
}

/// PARENT, LOAN below it, PAYMENT below LOAN, and ADDRESS below PARENT.
pub fn family_types(alloc: Global) -> Result<List<SegDef>, AllocError>
    ensures types { IfOk result (AreTypes 512) }
    ensures families { IfOk result AreFamilyTypes }
{
    let mut types = List::new(alloc);
    types.push(segment(alloc, None, false, 2, 12)?)?;
    types.push(segment(alloc, Some(0), false, 2, 6)?)?;
    types.push(segment(alloc, Some(1), false, 2, 4)?)?;
    types.push(segment(alloc, Some(0), false, 2, 9)?)?;
    Ok(types)
}

/// Whether an anchor has just these roots.
pub fn has_roots(
    alloc: Global,
    area: &mut MemoryArea,
    shape: &Shape,
    types: &List<SegDef>,
    anchor: u32,
    roots: &List<Root>,
) -> bool
    requires anchor { anchor < anchor_count shape.now }
    requires types { AreTypes 512 types.now }
{
    match load(alloc, area, shape, types, anchor) {
        Ok(found) => found == *roots,
        Err(_) => false,
    }
}
