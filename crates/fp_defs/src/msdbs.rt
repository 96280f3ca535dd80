//! The tables of main storage databases.
ghost use Rattle.std.specs.Prelude.{◌≡◌, [], map};
ghost use Rattle.toml.specs.View.{table_view};
ghost use Rattle.def_tables.specs.Readings.{Gives, in_turn};
ghost use Rattle.def_tables.specs.Keys.{occurs, once, new_name};
ghost use Rattle.fp_defs.specs.Msdbs.{msdb_names, msdb_of};

use def_tables::{
    DefsFault, Form, fields_at, flag_at, load_at, name_at, only, twice, without_blanks,
};
use fp_model::{List, MsdbDef, Name};
use std::alloc::Global;
use toml::Table;

/// Whether one of these databases has a name.
pub(crate) fn is_msdb(defs: &[MsdbDef], name: &Name) -> bool
    ensures { result ≡ occurs (msdb_names defs.now) name.now.0 }
{
    for def in defs {
        if *name == def.name {
            return true;
        }
    }
    false
}

/// The name of a database that none of these has.
#[tactic(auto, unfolding(def_tables::specs::Keys::new_name, def_tables::specs::Keys::once))]
fn new_msdb_name(alloc: Global, before: &[MsdbDef], table: &Table) -> Result<Name, DefsFault>
    ensures { Gives (λ name. name) result (new_name (msdb_names before.now) (table_view table.now)) }
{
    let name = name_at(alloc, "name", table)?;
    if is_msdb(before, &name) {
        return Err(twice(alloc, without_blanks(&name.0)));
    }
    Ok(name)
}

/// A main storage database, behind those of the tables before it.
#[tactic(auto, unfolding(crate::specs::Msdbs::msdb_of))]
fn msdb_of(alloc: Global, before: &[MsdbDef], table: &Table) -> Result<MsdbDef, DefsFault>
    ensures { Gives (λ def. def) result (msdb_of before.now (table_view table.now)) }
{
    only(alloc, Form::Msdb, table)?;
    let name = new_msdb_name(alloc, before, table)?;
    let layout = fields_at(alloc, true, 1024, table)?;
    let dynamic = flag_at(alloc, "dynamic", table)?;
    let load = load_at(alloc, layout.fields.as_slice(), table)?;
    Ok(MsdbDef {
        name,
        dynamic,
        fields: layout.fields,
        length: layout.length as u16,
        load,
    })
}

/// The main storage databases of tables, in turn.
pub(crate) fn msdbs_of(alloc: Global, tables: &[&Table]) -> Result<List<MsdbDef>, DefsFault>
    ensures { Gives (λ defs. defs) result (in_turn msdb_of [] (map (λ t. table_view t.now) tables.now)) }
{
    let mut defs = List::new(alloc);
    for table in tables {
        let def = msdb_of(alloc, defs.as_slice(), *table)?;
        defs.push(def)?;
    }
    Ok(defs)
}
