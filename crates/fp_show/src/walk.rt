//! The lines of a root and of all below it, in hierarchical order.
//!
//! The walk goes down the trees as they stand, without keys or paths, and writes each segment as it is met.
ghost use Rattle.fp_model.specs.Order.{child_types, sequential_type};
ghost use Rattle.fp_show.specs.DbText.{segment_line, typed_line};
ghost use Rattle.fp_show.specs.inside.Walk.{is_direct, kinds_from, node_text, root_text, rows_text, sequentials_text};
ghost use Rattle.fp_show.specs.FieldText.{field_texts, name_text};
ghost use Rattle.std.specs.List.{join_with_byte};
ghost use Rattle.std.specs.Prelude.{◌≡◌, ◌++◌, ◌+◌, ◌*◌, ◌<◌, IfNone, IfSome, OnOk, [], ◌∷◌, length, replicate};

use crate::field::{put_fields_behind, without_blanks};
use fp_model::{Bytes, List, Node, Root, SegDef, SeqItem};
use std::alloc::{AllocError, Global};

/// The level of a root.
const ROOT: usize = 1;

/// Appends two blanks for each level.
fn put_indent(into: &mut Bytes, level: usize) -> Result<(), AllocError>
    ensures { OnOk result (into.new ≡ into.old ++ replicate (2 * level) 32) }
{
    for _ in 0..level {
        into.append(b"  ")?;
    }
    Ok(())
}

/// Appends the name of a type and the fields of a segment, with blanks between them.
fn put_named_fields(
    alloc: Global,
    into: &mut Bytes,
    def: &SegDef,
    bytes: &[u8],
) -> Result<(), AllocError>
    ensures { let texts = name_text def.now.name ∷ field_texts def.now.fields bytes.now in
        OnOk result (into.new ≡ into.old ++ join_with_byte 32 texts) }
{
    into.append(without_blanks(&def.name.0))?;
    put_fields_behind(alloc, into, def.fields.as_slice(), bytes)
}

/// Appends the line of a segment of a level.
#[tactic(auto, using(std::proofs::Common::append_assoc))]
fn put_segment_line(
    alloc: Global,
    into: &mut Bytes,
    def: &SegDef,
    level: usize,
    bytes: &[u8],
) -> Result<(), AllocError>
    ensures { OnOk result (into.new ≡ into.old ++ segment_line def.now level bytes.now) }
{
    put_indent(into, level)?;
    put_named_fields(alloc, into, def, bytes)?;
    into.push(b'\n')
}

/// Appends the line of a segment of a type and a level; nothing where the type isn't defined.
fn put_typed_line(
    alloc: Global,
    into: &mut Bytes,
    types: &[SegDef],
    number: usize,
    level: usize,
    bytes: &[u8],
) -> Result<(), AllocError>
    ensures { OnOk result (into.new ≡ into.old ++ typed_line types.now number level bytes.now) }
{
    if number < types.len() {
        put_segment_line(alloc, into, &types[number], level, bytes)
    } else {
        Ok(())
    }
}

/// Whether a type is a direct child type of another.
fn is_direct(def: &SegDef, parent: usize) -> bool
    ensures { result ≡ is_direct parent def.now }
{
    match def.parent {
        Some(above) => usize::from(above) == parent && !def.sequential,
        None => false,
    }
}

/// The first direct child type of a type, from a number on.
fn next_child(types: &[SegDef], parent: usize, from: usize) -> Option<usize>
    ensures some { IfSome result (λ number. (number < length types.now)
        × (kinds_from types.now parent from ≡ number ∷ kinds_from types.now parent (number + 1))) }
    ensures none { IfNone result (kinds_from types.now parent from ≡ []) }
{
    for number in from..types.len() {
        if is_direct(&types[number], parent) {
            return Some(number);
        }
    }
    None
}

/// Appends the lines of a segment of a type and a level, and of all below it.
#[cycle(walk)]
fn put_node(
    alloc: Global,
    into: &mut Bytes,
    types: &[SegDef],
    number: usize,
    level: usize,
    node: &Node,
) -> Result<(), AllocError>
    ensures { OnOk result (into.new ≡ into.old ++ node_text types.now number level node.now) }
{
    put_typed_line(alloc, into, types, number, level, node.bytes.as_slice())?;
    put_rows(alloc, into, types, number, level, &node.children)
}

/// Appends the lines of all that is below a segment of a type and a level. A level past the last number is want of
/// memory.
#[cycle(walk)]
fn put_rows(
    alloc: Global,
    into: &mut Bytes,
    types: &[SegDef],
    number: usize,
    level: usize,
    rows: &List<List<Node>>,
) -> Result<(), AllocError>
    ensures { let kinds = child_types types.now number in
        OnOk result (into.new ≡ into.old ++ rows_text types.now number level kinds rows.now) }
{
    let Some(below) = level.checked_add(1) else {
        return Err(AllocError);
    };
    let mut from = 0;
    for row in rows.as_slice() {
        let Some(child) = next_child(types, number, from) else {
            return Ok(());
        };
        for node in row.as_slice() {
            put_node(alloc, into, types, child, below, node)?;
        }
        from = child + 1;
    }
    Ok(())
}

/// The sequential type.
fn sequential_type(types: &[SegDef]) -> Option<usize>
    ensures { result ≡ sequential_type types.now }
{
    types.iter().position(|def| def.sequential)
}

/// Appends the lines of the sequential dependents of a root.
fn put_sequentials(
    alloc: Global,
    into: &mut Bytes,
    types: &[SegDef],
    items: &[SeqItem],
) -> Result<(), AllocError>
    ensures { OnOk result (into.new ≡ into.old ++ sequentials_text types.now items.now) }
{
    let Some(number) = sequential_type(types) else {
        return Ok(());
    };
    for item in items {
        put_typed_line(alloc, into, types, number, ROOT + 1, item.bytes.as_slice())?;
    }
    Ok(())
}

/// Appends the lines of a root and of all below it.
#[tactic(auto, using(std::proofs::Common::append_assoc))]
pub(crate) fn put_root(
    alloc: Global,
    into: &mut Bytes,
    types: &[SegDef],
    root: &Root,
) -> Result<(), AllocError>
    ensures { OnOk result (into.new ≡ into.old ++ root_text types.now root.now) }
{
    put_typed_line(alloc, into, types, 0, ROOT, root.bytes.as_slice())?;
    put_sequentials(alloc, into, types, root.seqs.as_slice())?;
    put_rows(alloc, into, types, 0, ROOT, &root.children)
}
