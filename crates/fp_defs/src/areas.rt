//! The tables of the areas of a data entry database.
ghost use Rattle.std.specs.Prelude.{◌≡◌, ◌++◌, [], map};
ghost use Rattle.toml.specs.View.{table_view};
ghost use Rattle.def_tables.specs.Readings.{Gives, in_turn};
ghost use Rattle.def_tables.specs.Keys.{occurs, once, new_name};
ghost use Rattle.fp_defs.specs.Areas.{area_names, capacity_in, capacity_at, area_of};
ghost use Rattle.fp_defs.specs.Dedbs.{areas_named};

use def_tables::{
    DefsFault, Form, bad_field, member, name_at, number_at, number_or, only, twice, within,
    without_blanks,
};
use fp_model::{AreaDef, DedbDef, List, Name};
use std::alloc::Global;
use toml::Table;

/// Whether one of these areas has a name.
fn is_area(defs: &[AreaDef], name: &Name) -> bool
    ensures { result ≡ occurs (area_names defs.now) name.now.0 }
{
    for def in defs {
        if *name == def.name {
            return true;
        }
    }
    false
}

/// Whether an area of one of these databases has a name.
fn is_area_of_any(dedbs: &[DedbDef], name: &Name) -> bool
    ensures { result ≡ occurs (areas_named dedbs.now) name.now.0 }
{
    for dedb in dedbs {
        if is_area(dedb.areas.as_slice(), name) {
            return true;
        }
    }
    false
}

/// The name of an area that none of these databases and none before it has.
#[tactic(auto, unfolding(def_tables::specs::Keys::new_name, def_tables::specs::Keys::once))]
fn new_area_name(
    alloc: Global,
    dedbs: &[DedbDef],
    before: &[AreaDef],
    table: &Table,
) -> Result<Name, DefsFault>
    ensures { Gives (λ name. name) result (new_name (areas_named dedbs.now ++ area_names before.now)
        (table_view table.now)) }
{
    let name = name_at(alloc, "name", table)?;
    let is_taken = is_area_of_any(dedbs, &name) || is_area(before, &name);
    if is_taken {
        return Err(twice(alloc, without_blanks(&name.0)));
    }
    Ok(name)
}

/// A capacity: 0 where there is no sequential type.
fn capacity_in(alloc: Global, sequential: bool, n: i64) -> Result<u32, DefsFault>
    ensures { Gives (λ m. m) result (capacity_in sequential n) }
{
    if sequential {
        if n == 0 {
            return Err(bad_field(alloc, "capacity"));
        }
        return within(alloc, "capacity", 1, 1_000_000, n);
    }
    if n == 0 {
        return Ok(0);
    }
    Err(bad_field(alloc, "capacity"))
}

/// The capacity of a table, 0 where it says none.
#[tactic(auto, unfolding(crate::specs::Areas::capacity_at))]
fn capacity_at(alloc: Global, sequential: bool, table: &Table) -> Result<u32, DefsFault>
    ensures { Gives (λ m. m) result (capacity_at sequential (table_view table.now)) }
{
    let Some(value) = member(table, "capacity") else {
        return capacity_in(alloc, sequential, 0);
    };
    match value.as_integer() {
        Some(n) => capacity_in(alloc, sequential, n),
        None => Err(bad_field(alloc, "capacity")),
    }
}

/// An area, behind those of earlier databases and of its own.
#[tactic(auto, unfolding(crate::specs::Areas::area_of))]
fn area_of(
    alloc: Global,
    sequential: bool,
    dedbs: &[DedbDef],
    before: &[AreaDef],
    table: &Table,
) -> Result<AreaDef, DefsFault>
    ensures { Gives (λ def. def) result (area_of sequential (areas_named dedbs.now) before.now (table_view table.now)) }
{
    only(alloc, Form::Area, table)?;
    let name = new_area_name(alloc, dedbs, before, table)?;
    let uows = number_at(alloc, "uows", 1, 65_536, table)?;
    let base = number_at(alloc, "base", 1, 1000, table)?;
    let overflow = number_at(alloc, "overflow", 0, 1000, table)?;
    let capacity = capacity_at(alloc, sequential, table)?;
    let copies = number_or(alloc, 1, "copies", 1, 7, table)?;
    Ok(AreaDef {
        name,
        uows,
        base: base as u16,
        overflow: overflow as u16,
        capacity,
        copies: copies as u8,
    })
}

/// The areas of tables, in turn.
pub(crate) fn areas_of(
    alloc: Global,
    sequential: bool,
    dedbs: &[DedbDef],
    tables: &[&Table],
) -> Result<List<AreaDef>, DefsFault>
    ensures { Gives (λ defs. defs) result (in_turn (area_of sequential (areas_named dedbs.now)) []
        (map (λ t. table_view t.now) tables.now)) }
{
    let mut defs = List::new(alloc);
    for table in tables {
        let def = area_of(alloc, sequential, dedbs, defs.as_slice(), *table)?;
        defs.push(def)?;
    }
    Ok(defs)
}
