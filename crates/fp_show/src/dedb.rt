//! The lines of a data entry database.
ghost use Rattle.fp_show.specs.DbText.{anchor_text, anchors_text, area_line, dedb_head, dedb_text, each_text, occurrence_line};
ghost use Rattle.fp_model.specs.Order.{sequence};
ghost use Rattle.std.specs.Prelude.{◌≡◌, ◌++◌, OnErr, OnOk, flat_map};

use crate::field::without_blanks;
use crate::walk::put_root;
use fp_model::{AreaDef, AreaEnds, Bytes, Dedb, DedbDef, List, Root, SegDef};
use std::alloc::{AllocError, Global};

/// Appends the line of an area.
#[tactic(auto, using(std::proofs::Common::append_assoc))]
fn put_area_line(
    alloc: Global,
    into: &mut Bytes,
    def: &AreaDef,
    ends: &AreaEnds,
) -> Result<(), AllocError>
    ensures { OnOk result (into.new ≡ into.old ++ area_line def.now ends.now) }
{
    let begin = ends.begin;
    let end = ends.end;
    let numbers = format!(in alloc; " begin {begin} end {end}\n")?;
    into.append(b"area ")?;
    into.append(without_blanks(&def.name.0))?;
    into.append(numbers.as_bytes())
}

/// Appends the lines of areas.
fn put_area_lines(
    alloc: Global,
    into: &mut Bytes,
    defs: &[AreaDef],
    areas: &[AreaEnds],
) -> Result<(), AllocError>
    ensures { OnOk result (into.new ≡ into.old ++ each_text area_line defs.now areas.now) }
{
    for at in 0..defs.len().min(areas.len()) {
        put_area_line(alloc, into, &defs[at], &areas[at])?;
    }
    Ok(())
}

/// Appends the line of a data entry database, and those of its areas. After want of memory the text is as before.
#[tactic(auto, using(std::proofs::Common::append_assoc))]
pub fn put_dedb_head(
    alloc: Global,
    into: &mut Bytes,
    def: &DedbDef,
    areas: &List<AreaEnds>,
) -> Result<(), AllocError>
    ensures ok { OnOk result (into.new ≡ into.old ++ dedb_head def.now areas.now) }
    ensures err { OnErr result (into.new ≡ into.old) }
{
    let mut lines = Bytes::from_slice(alloc, b"dedb ")?;
    lines.append(without_blanks(&def.name.0))?;
    lines.push(b'\n')?;
    put_area_lines(alloc, &mut lines, def.areas.as_slice(), areas.as_slice())?;
    into.append(lines.as_slice())
}

/// Appends the lines of all segments at these roots.
fn put_roots(
    alloc: Global,
    into: &mut Bytes,
    types: &[SegDef],
    roots: &[Root],
) -> Result<(), AllocError>
    ensures { OnOk result (into.new ≡ into.old ++ flat_map (occurrence_line types.now) (sequence types.now roots.now)) }
{
    for root in roots {
        put_root(alloc, into, types, root)?;
    }
    Ok(())
}

/// Appends the lines of an anchor; nothing where it has no root.
#[tactic(auto, using(std::proofs::Common::append_assoc))]
fn put_anchor_lines(
    alloc: Global,
    into: &mut Bytes,
    types: &[SegDef],
    anchor: u64,
    roots: &[Root],
) -> Result<(), AllocError>
    ensures { OnOk result (into.new ≡ into.old ++ anchor_text types.now anchor roots.now) }
{
    if roots.is_empty() {
        return Ok(());
    }
    let head = format!(in alloc; "anchor {anchor}\n")?;
    into.append(head.as_bytes())?;
    put_roots(alloc, into, types, roots)
}

/// Appends the lines of an anchor: its number within its database, and its segments in hierarchical order; nothing
/// where it has no root. After want of memory the text is as before.
pub fn put_anchor(
    alloc: Global,
    into: &mut Bytes,
    types: &List<SegDef>,
    anchor: u64,
    roots: &List<Root>,
) -> Result<(), AllocError>
    ensures ok { OnOk result (into.new ≡ into.old ++ anchor_text types.now anchor roots.now) }
    ensures err { OnErr result (into.new ≡ into.old) }
{
    let mut lines = Bytes::new(alloc);
    put_anchor_lines(
        alloc,
        &mut lines,
        types.as_slice(),
        anchor,
        roots.as_slice(),
    )?;
    into.append(lines.as_slice())
}

/// Appends the lines of a data entry database.
pub(crate) fn put_dedb(
    alloc: Global,
    into: &mut Bytes,
    def: &DedbDef,
    dedb: &Dedb,
) -> Result<(), AllocError>
    ensures { OnOk result (into.new ≡ into.old ++ dedb_text def.now dedb.now) }
{
    put_dedb_head(alloc, into, def, &dedb.areas)?;
    let types = def.segments.as_slice();
    for (anchor, roots) in dedb.anchors.as_slice().iter().enumerate() {
        put_anchor_lines(alloc, into, types, anchor as u64, roots.as_slice())?;
    }
    Ok(())
}
