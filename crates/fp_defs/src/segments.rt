//! The tables of the segment types of a data entry database.
//!
//! A table may say more than a definition holds: a parent behind the 255th segment, or 65,536 bytes. Such a database
//! has a fault, but others may come first. So segments are drafts until the limits of their database are looked at.
ghost use Rattle.std.specs.Prelude.{◌≡◌, ◌≤◌, ◌<◌, ◌^◌, [], IfOk, Some, length, map, slice_get};
ghost use Rattle.std.specs.List.{AllByRecursion};
ghost use Rattle.toml.specs.View.{view, table_view};
ghost use Rattle.fp_model.specs.declared.definitions.SegDef.{SegDef};
ghost use Rattle.fp_model.specs.Order.{is_child_of, numbers_from, child_types};
ghost use Rattle.fp_model.specs.WellFormed.{has_sequential, in_fours, stored_length};
ghost use Rattle.def_tables.specs.Readings.{Gives, in_turn};
ghost use Rattle.def_tables.specs.Keys.{occurs, once};
ghost use Rattle.fp_defs.specs.Segments.{segment_names, segment_name, says_sequential, place_of, parent_in, parent_at, at_its_place, sequential_at, segment_of, all_fit};
ghost use Rattle.fp_defs.specs.inside.Segments.{IsNarrow};

use def_tables::{
    DefsFault, Form, as_name, bad_field, count_within, fields_at, flag_at, member, name_at, needed,
    only, twice, without_blanks,
};
use fp_model::{FieldDef, List, Name, SegDef};
use std::alloc::{AllocError, Global};
use std::marker::Model;
use toml::{Table, Value};

// 64 fields of 1,024 bytes.
const NO_LIMIT: u32 = 65_536;

/// A segment type as its table says it.
#[derive(Drop)]
pub(crate) struct Draft {
    name: Name,
    parent: Option<usize>,
    sequential: bool,
    fields: List<FieldDef>,
    length: u32,
}

impl Model for Draft {
    ghost use Rattle.fp_model.specs.declared.definitions.SegDef.{SegDef};

    ghost Value = { SegDef };

    ghost view = { λ d. record {
      name = d.name;
      parent = d.parent;
      sequential = d.sequential;
      fields =
          d.fields;
      length = d.length;
    } };
}

/// Whether one of these segments has a name.
fn is_segment(drafts: &[Draft], name: &Name) -> bool
    ensures { result ≡ occurs (segment_names drafts.now) name.now.0 }
{
    for draft in drafts {
        if *name == draft.name {
            return true;
        }
    }
    false
}

/// The name of a segment that none of these has.
#[tactic(auto, unfolding(crate::specs::Segments::segment_name, def_tables::specs::Keys::once))]
fn segment_name(alloc: Global, before: &[Draft], table: &Table) -> Result<Name, DefsFault>
    ensures { Gives (λ name. name) result (segment_name before.now (table_view table.now)) }
{
    let name = name_at(alloc, "name", table)?;
    if name.0 == *b"KEY     " {
        return Err(bad_field(alloc, "name"));
    }
    if is_segment(before, &name) {
        return Err(twice(alloc, without_blanks(&name.0)));
    }
    Ok(name)
}

/// Whether the value true stands at `sequential`.
#[tactic(auto, unfolding(crate::specs::Segments::says_sequential))]
fn says_sequential(table: &Table) -> bool
    ensures { result ≡ says_sequential (table_view table.now) }
{
    match member(table, "sequential") {
        Some(value) => value.as_bool().unwrap_or(false),
        None => false,
    }
}

/// The place of the segment of a name that isn't sequential.
fn place_of(before: &[Draft], name: &Name) -> Option<usize>
    ensures { result ≡ place_of before.now name.now }
{
    for i in 0..before.len() {
        let draft = &before[i];
        if draft.name == *name && !draft.sequential {
            return Some(i);
        }
    }
    None
}

/// The parent that a value names.
fn parent_in(before: &[Draft], value: &Value) -> Option<usize>
    ensures { result ≡ parent_in before.now (view value.now) }
{
    match as_name(value) {
        Some(name) => place_of(before, &name),
        None => None,
    }
}

/// The parent that a table names: none at the root.
#[tactic(auto, unfolding(crate::specs::Segments::parent_at))]
fn parent_at(alloc: Global, before: &[Draft], table: &Table) -> Result<Option<usize>, DefsFault>
    ensures { Gives (λ parent. parent) result (parent_at before.now (table_view table.now)) }
{
    if before.is_empty() {
        return match member(table, "parent") {
            Some(_) => Err(bad_field(alloc, "parent")),
            None => Ok(None),
        };
    }
    let value = needed(alloc, "parent", table)?;
    match parent_in(before, value) {
        Some(place) => Ok(Some(place)),
        None => Err(bad_field(alloc, "parent")),
    }
}

/// Whether a segment is sequential, where it may be.
#[tactic(auto, unfolding(crate::specs::Segments::sequential_at))]
fn sequential_at(
    alloc: Global,
    before: &[Draft],
    parent: Option<usize>,
    table: &Table,
) -> Result<bool, DefsFault>
    ensures { Gives (λ flag. flag) result (sequential_at before.now parent (table_view table.now)) }
{
    if !flag_at(alloc, "sequential", table)? {
        return Ok(false);
    }
    match parent {
        Some(place) => if before.len() == 1 && place == 0 {
            Ok(true)
        } else {
            Err(bad_field(alloc, "sequential"))
        },
        None => Err(bad_field(alloc, "sequential")),
    }
}

/// A segment type, behind those of the tables before it.
#[tactic(auto, unfolding(crate::specs::Segments::segment_of))]
fn segment_of(alloc: Global, before: &[Draft], table: &Table) -> Result<Draft, DefsFault>
    ensures { Gives (λ draft. draft) result (segment_of before.now (table_view table.now)) }
{
    only(alloc, Form::Segment, table)?;
    let name = segment_name(alloc, before, table)?;
    let layout = fields_at(alloc, !says_sequential(table), NO_LIMIT, table)?;
    let parent = parent_at(alloc, before, table)?;
    let sequential = sequential_at(alloc, before, parent, table)?;
    Ok(Draft {
        name,
        parent,
        sequential,
        fields: layout.fields,
        length: layout.length,
    })
}

/// The segment types of tables, in turn.
pub(crate) fn segments_of(alloc: Global, tables: &[&Table]) -> Result<List<Draft>, DefsFault>
    ensures few { IfOk result (λ drafts. length drafts ≡ length tables.now) }
    ensures exact { Gives (λ drafts. drafts) result (in_turn segment_of [] (map (λ t. table_view t.now) tables.now)) }
{
    let mut drafts = List::new(alloc);
    for table in tables {
        let draft = segment_of(alloc, drafts.as_slice(), *table)?;
        drafts.push(draft)?;
    }
    Ok(drafts)
}

/// Whether one of the types is sequential.
pub(crate) fn has_sequential(drafts: &[Draft]) -> bool
    ensures { result ≡ has_sequential drafts.now }
{
    for draft in drafts {
        if draft.sequential {
            return true;
        }
    }
    false
}

/// How many direct child types a type has.
fn child_count(drafts: &[Draft], place: usize) -> usize
    ensures exact { result ≡ length (child_types drafts.now place) }
    ensures small { result ≤ length drafts.now }
{
    let mut n = 0;
    for draft in drafts {
        if draft.parent == Some(place) && !draft.sequential {
            n += 1;
        }
    }
    n
}

/// The bytes that a segment of a type has in an interval: an element of a direct one, a slot of a sequential one.
fn stored_length(drafts: &[Draft], place: usize) -> usize
    requires there { place < length drafts.now }
    requires few { length drafts.now ≤ 1000000 }
    ensures exact { (def : SegDef) → slice_get drafts.now place ≡ Some def
        → result ≡ stored_length drafts.now place def }
    ensures small { result < 2 ^ 63 }
{
    let draft = &drafts[place];
    let length = draft.length as usize;
    if draft.sequential {
        return 16 + length;
    }
    let serial = if place == 0 && has_sequential(drafts) {
        8
    } else {
        0
    };
    (14 + serial + 10 * child_count(drafts, place) + length + 3) / 4 * 4
}

/// Refuses the first segment without room in an empty interval.
pub(crate) fn all_fit(alloc: Global, room: u32, drafts: &[Draft]) -> Result<(), DefsFault>
    requires { length drafts.now ≤ 1000000 }
    ensures { Gives (λ u. u) result (all_fit room drafts.now 0 drafts.now) }
{
    for place in 0..drafts.len() {
        let needed = stored_length(drafts, place);
        if let Err(fault) = count_within(alloc, "fields", 0, room, needed) {
            return Err(fault);
        }
    }
    Ok(())
}

/// The definitions that drafts are, where they have room for them.
pub(crate) fn narrowed(alloc: Global, drafts: List<Draft>) -> Result<List<SegDef>, AllocError>
    requires { AllByRecursion IsNarrow drafts }
    ensures { IfOk result (λ defs. defs ≡ drafts) }
{
    let mut defs = List::new(alloc);
    for draft in drafts.into_vec() {
        let Draft {
            name,
            parent,
            sequential,
            fields,
            length,
        } = draft;
        let parent = match parent {
            Some(place) => Some(place as u8),
            None => None,
        };
        defs.push(SegDef {
            name,
            parent,
            sequential,
            fields,
            length: length as u16,
        })?;
    }
    Ok(defs)
}
