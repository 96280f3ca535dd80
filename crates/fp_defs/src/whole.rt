//! The whole text: the top table, and then its databases.
ghost use Rattle.std.specs.Prelude.{◌≡◌, ◌≢◌, ◌≤◌, ◌==◌, [], IfOk, IfErr, Ok, Err, length, map, true};
ghost use Rattle.std.specs.List.{AllByRecursion, list_any};
ghost use Rattle.toml.specs.View.{array_view, table_view};
ghost use Rattle.fp_model.specs.WellFormed.{AreDefs};
ghost use Rattle.fp_exits.specs.Kinds.{has_kind, kinds_of};
ghost use Rattle.def_tables.specs.Readings.{Gives, in_turn};
ghost use Rattle.fp_defs.specs.Whole.{items_in, group_of, missing_group, no_gap, groups_in, regions_at, databases_of, defs_in, document_of, defs_of};
ghost use Rattle.fp_defs.specs.Exits.{defs_for};

use crate::dedbs::dedbs_of;
use crate::exits::lacking;
use crate::msdbs::msdbs_of;
use balancing::group_count;
use def_tables::{
    DefsFault, Form, bad_field, count_within, exit_at, needed, number_or, number_within, only,
    out_of_limit, tables_or_none,
};
use fp_exits::Exits;
use fp_model::{Bytes, DedbDef, Defs, List, MsdbDef};
use std::alloc::Global;
use toml::{Table, Value};

// The longest text.
const LONGEST: usize = 1_000_000;

/// The groups of regions, in turn.
fn groups_of(alloc: Global, items: &Vec<Value>) -> Result<List<u8>, DefsFault>
    ensures { Gives (λ groups. groups) result (in_turn group_of [] (items_in (array_view items.now))) }
{
    let mut groups = List::new(alloc);
    for item in items {
        let group = number_within(alloc, "regions", 1, 16, item)?;
        groups.push(group as u8)?;
    }
    Ok(groups)
}

/// Whether a region has a group.
fn has_group(groups: &[u8], group: u8) -> bool
    ensures { result ≡ list_any (λ h. h == group) groups.now }
{
    for other in groups {
        if *other == group {
            return true;
        }
    }
    false
}

/// The least group below the greatest that no region has.
fn missing_group(groups: &[u8]) -> Option<u8>
    ensures { result ≡ missing_group groups.now }
{
    for i in 0..group_count(groups) {
        if !has_group(groups, i + 1) {
            return Some(i + 1);
        }
    }
    None
}

/// Refuses groups with a gap.
#[tactic(auto, unfolding(crate::specs::Whole::no_gap))]
fn no_gap(alloc: Global, groups: &[u8]) -> Result<(), DefsFault>
    ensures { Gives (λ u. u) result (no_gap groups.now) }
{
    match missing_group(groups) {
        Some(group) => Err(out_of_limit(alloc, "regions", i64::from(group))),
        None => Ok(()),
    }
}

/// The groups that the items of an array are, without a gap.
#[tactic(auto, using(crate::proofs::Loops::items_in_length), unfolding(crate::specs::Whole::groups_in))]
fn groups_in(alloc: Global, items: &Vec<Value>) -> Result<List<u8>, DefsFault>
    ensures { Gives (λ groups. groups) result (groups_in (array_view items.now)) }
{
    count_within(alloc, "regions", 1, 64, items.len())?;
    let groups = groups_of(alloc, items)?;
    no_gap(alloc, groups.as_slice())?;
    Ok(groups)
}

/// The groups of the regions of a table.
#[tactic(auto, unfolding(crate::specs::Whole::regions_at))]
fn regions_at(alloc: Global, table: &Table) -> Result<List<u8>, DefsFault>
    ensures { Gives (λ groups. groups) result (regions_at (table_view table.now)) }
{
    let value = needed(alloc, "regions", table)?;
    match value.as_array() {
        Some(items) => groups_in(alloc, items),
        None => Err(bad_field(alloc, "regions")),
    }
}

/// The databases of tables.
#[tactic(auto, unfolding(crate::specs::Whole::databases_of))]
fn databases_of(
    alloc: Global,
    msdb_tables: &[&Table],
    dedb_tables: &[&Table],
) -> Result<(List<MsdbDef>, List<DedbDef>), DefsFault>
    requires msdbs { length msdb_tables.now ≤ 1000000 }
    requires dedbs { length dedb_tables.now ≤ 1000000 }
    ensures { Gives (λ all. all) result (databases_of (map (λ t. table_view t.now) msdb_tables.now)
        (map (λ t. table_view t.now) dedb_tables.now)) }
{
    count_within(alloc, "msdb", 0, 32, msdb_tables.len())?;
    count_within(alloc, "dedb", 0, 16, dedb_tables.len())?;
    let msdbs = msdbs_of(alloc, msdb_tables)?;
    let dedbs = dedbs_of(alloc, msdbs.as_slice(), dedb_tables)?;
    Ok((msdbs, dedbs))
}

/// The definitions of a text with this top table.
#[tactic(auto, unfolding(crate::specs::Whole::defs_in))]
fn defs_in(alloc: Global, text: &[u8], table: &Table) -> Result<Defs, DefsFault>
    ensures { Gives (λ defs. defs) result (defs_in text.now (table_view table.now)) }
{
    only(alloc, Form::Top, table)?;
    let regions = regions_at(alloc, table)?;
    let router = exit_at(alloc, "router", table)?;
    let log_group = number_or(alloc, 100, "log_group", 1, 1000, table)?;
    let pool = number_or(alloc, 1000, "pool", 1, 100_000, table)?;
    let tries = number_or(alloc, 0, "tries", 0, 100, table)?;
    let msdb_tables = tables_or_none(alloc, "msdb", table)?;
    let dedb_tables = tables_or_none(alloc, "dedb", table)?;
    let (msdbs, dedbs) = databases_of(alloc, &msdb_tables, &dedb_tables)?;
    let text = Bytes::from_slice(alloc, text)?;
    Ok(Defs {
        regions,
        router,
        log_group,
        pool,
        tries,
        msdbs,
        dedbs,
        text,
    })
}

/// The definitions of a text, or its first fault, whatever exits there are.
#[tactic(auto, unfolding(crate::specs::Whole::defs_of, crate::specs::Whole::document_of))]
fn read_text(alloc: Global, bytes: &[u8]) -> Result<Defs, DefsFault>
    // At Ok it is what the text means, and at a fault it is the text's first fault. Want of memory alone is free.
    ensures ok { IfOk result (λ defs. defs_of bytes.now ≡ Ok defs) }
    ensures fault { IfErr result (λ fault. fault ≢ DefsFault.Memory → defs_of bytes.now ≡ Err fault) }

    // All rules and limits hold of it.
    ensures valid { IfOk result AreDefs }
{
    if bytes.len() > LONGEST {
        return Err(DefsFault::TooLong);
    }
    match toml::table_from_slice(alloc, bytes) {
        Ok(table) => defs_in(alloc, bytes, &table),
        Err(e) => {
            if e.is_memory() {
                Err(DefsFault::Memory)
            } else {
                Err(DefsFault::NotToml)
            }
        }
    }
}

/// The definitions of a text for an installation with these exits, or the first fault: those of the text, and then the
/// first kind without its exit, the router's before the randomizers'.
pub fn read_defs(alloc: Global, bytes: &[u8], exits: &Exits) -> Result<Defs, DefsFault>
    // At Ok it is what the text means, and the exits are there; at a fault it is the first. Want of memory alone is
    // free.
    ensures ok { IfOk result (λ defs. defs_for (kinds_of exits.now) bytes.now ≡ Ok defs) }
    ensures fault { IfErr result (λ fault. fault ≢ DefsFault.Memory
        → defs_for (kinds_of exits.now) bytes.now ≡ Err fault) }

    // All rules and limits hold of it.
    ensures valid { IfOk result AreDefs }

    // The installation has the exits that it names.
    ensures router { IfOk result (λ defs. has_kind (kinds_of exits.now).routers defs.router ≡ true) }
    ensures randomizers { IfOk result (λ defs. AllByRecursion
        (λ dedb. has_kind (kinds_of exits.now).spreaders dedb.randomizer ≡ true) defs.dedbs) }
{
    let defs = read_text(alloc, bytes)?;
    match lacking(exits, &defs) {
        Some(kind) => Err(DefsFault::NoExit(kind)),
        None => Ok(defs),
    }
}
