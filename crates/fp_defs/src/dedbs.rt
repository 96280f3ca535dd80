//! The tables of data entry databases.
ghost use Rattle.std.specs.Prelude.{◌≡◌, ◌≤◌, ◌<◌, ◌++◌, ◌∷◌, [], ◌+◌, ◌^◌, IfOk, length, map, max, sum_by};
ghost use Rattle.toml.specs.View.{table_view};
ghost use Rattle.fp_model.specs.State.{anchors_in, anchor_count};
ghost use Rattle.fp_model.specs.Order.{line_to, parent_of};
ghost use Rattle.fp_model.specs.WellFormed.{sequential_intervals, formatted_intervals};
ghost use Rattle.def_tables.specs.Readings.{Gives, in_turn};
ghost use Rattle.def_tables.specs.Keys.{occurs, once, new_name};
ghost use Rattle.fp_defs.specs.Msdbs.{msdb_names};
ghost use Rattle.fp_defs.specs.Dedbs.{dedb_names, size_in, interval_size_at, depth_from, intervals_of, ended, dedb_behind, dedb_of};

use crate::areas::areas_of;
use crate::msdbs::is_msdb;
use crate::segments::{all_fit, has_sequential, narrowed, segments_of};
use def_tables::{
    DefsFault, Form, bad_field, count_within, exit_at, name_at, needed, only, out_of_limit,
    tables_at, twice, without_blanks,
};
use fp_model::{AreaDef, DedbDef, Kind, List, MsdbDef, Name, SegDef};
use std::alloc::Global;
use toml::Table;

/// A database's own keys but its segments and areas.
#[derive(Clone, Copy)]
struct Head {
    name: Name,
    randomizer: Kind,
    ci: u16,
}

/// Whether one of these databases has a name.
fn is_dedb(defs: &[DedbDef], name: &Name) -> bool
    ensures { result ≡ occurs (dedb_names defs.now) name.now.0 }
{
    for def in defs {
        if *name == def.name {
            return true;
        }
    }
    false
}

/// The name of a database that none before it has.
#[tactic(auto, unfolding(def_tables::specs::Keys::new_name, def_tables::specs::Keys::once))]
fn new_dedb_name(
    alloc: Global,
    msdbs: &[MsdbDef],
    before: &[DedbDef],
    table: &Table,
) -> Result<Name, DefsFault>
    ensures { Gives (λ name. name) result (new_name (msdb_names msdbs.now ++ dedb_names before.now)
        (table_view table.now)) }
{
    let name = name_at(alloc, "name", table)?;
    let is_taken = is_msdb(msdbs, &name) || is_dedb(before, &name);
    if is_taken {
        return Err(twice(alloc, without_blanks(&name.0)));
    }
    Ok(name)
}

/// The size of an interval that a table says.
#[tactic(auto, unfolding(crate::specs::Dedbs::interval_size_at))]
fn interval_size_at(alloc: Global, table: &Table) -> Result<u16, DefsFault>
    ensures exact { Gives (λ n. n) result (interval_size_at (table_view table.now)) }
    ensures some { IfOk result (λ n. 512 ≤ n) }
    ensures small { IfOk result (λ n. n ≤ 4096) }
{
    let value = needed(alloc, "ci", table)?;
    let Some(n) = value.as_integer() else {
        return Err(bad_field(alloc, "ci"));
    };
    if n == 512 || n == 1024 || n == 2048 || n == 4096 {
        Ok(n as u16)
    } else {
        Err(out_of_limit(alloc, "ci", n))
    }
}

/// How many types stand on the line from the root down to a type.
fn line_length(types: &[SegDef], place: usize) -> usize
    requires { length types.now ≤ 15 }
    ensures exact { result ≡ length (line_to types.now place) }
    ensures small { result ≤ 16 }
{
    let mut at = place;
    let mut n = 1;
    for _ in 0..types.len() {
        match parent_of(types, at) {
            Some(parent) => {
                at = usize::from(parent);
                n += 1;
            }
            None => return n,
        }
    }
    n
}

/// The parent of a type, if it has one.
fn parent_of(types: &[SegDef], place: usize) -> Option<u8>
    ensures { result ≡ parent_of types.now place }
{
    if place < types.len() {
        types[place].parent
    } else {
        None
    }
}

/// The greater of two.
fn greater(a: usize, b: usize) -> usize
    ensures { result ≡ max a b }
{
    if a < b { b } else { a }
}

/// The greatest number of types on a line from the root down.
fn depth(types: &[SegDef]) -> usize
    requires { length types.now ≤ 15 }
    ensures exact { result ≡ depth_from types.now 0 types.now }
    ensures small { result ≤ 16 }
{
    let mut most = 0;
    for place in 0..types.len() {
        most = greater(most, line_length(types, place));
    }
    most
}

/// The anchors of some areas.
fn anchors(areas: &[AreaDef]) -> u64
    requires { length areas.now ≤ 16 }
    ensures exact { result ≡ sum_by anchors_in areas.now }
    ensures small { result ≤ 2 ^ 60 }
{
    let mut sum: u64 = 0;
    for area in areas {
        sum += u64::from(area.uows) * u64::from(area.base);
    }
    sum
}

/// The bytes of a sequential slot.
fn slot(length: u16) -> u64
    ensures exact { result ≡ 16 + length }
    ensures small { result < 2 ^ 17 }
{
    16 + u64::from(length)
}

/// The intervals of the sequential part of an area with a capacity.
fn sequential_intervals(ci: u16, types: &[SegDef], capacity: u32) -> u64
    requires { 512 ≤ ci }
    ensures exact { result ≡ sequential_intervals ci types.now capacity }
    ensures small { result ≤ 2 ^ 40 }
{
    for def in types {
        if def.sequential {
            let slots = (u64::from(ci) - 32) / slot(def.length);
            if slots == 0 {
                return 0;
            }
            return (u64::from(capacity) + slots - 1) / slots;
        }
    }
    0
}

/// The intervals that the areas of a database are formatted with.
fn intervals(def: &DedbDef) -> u64
    requires few { length def.now.areas ≤ 16 }
    requires size { 512 ≤ def.now.ci }
    ensures exact { result ≡ sum_by (formatted_intervals def.now) def.now.areas }
    ensures small { result ≤ 2 ^ 60 }
{
    let mut sum: u64 = 0;
    for area in def.areas.as_slice() {
        let unit = u64::from(area.base) + u64::from(area.overflow);
        let last = sequential_intervals(def.ci, def.segments.as_slice(), area.capacity);
        sum += 1 + u64::from(area.uows) * unit + last;
    }
    sum
}

/// The end of a table: its levels, its anchors, and its intervals with those taken before. Answers all intervals too.
#[tactic(auto, unfolding(crate::specs::Dedbs::ended))]
fn ended(
    alloc: Global,
    before: &[DedbDef],
    taken: u32,
    def: DedbDef,
) -> Result<(DedbDef, u32), DefsFault>
    requires taken { taken ≡ intervals_of before.now }
    requires small { taken ≤ 524288 }
    requires few { length def.segments ≤ 15 }
    requires size { 512 ≤ def.ci }
    ensures exact { Gives (λ r. r.0) result (ended before.now def) }
    ensures all { IfOk result (λ r. r.1 ≡ intervals_of (before.now ++ r.0 ∷ [])) }
    ensures small { IfOk result (λ r. r.1 ≤ 524288) }
{
    count_within(alloc, "segment", 0, 4, depth(def.segments.as_slice()))?;
    count_within(alloc, "area", 0, 16, def.areas.len())?;
    count_within(
        alloc,
        "area",
        0,
        65_536,
        anchors(def.areas.as_slice()) as usize,
    )?;
    let all = u64::from(taken) + intervals(&def);
    let all = count_within(alloc, "area", 0, 524_288, all as usize)?;
    Ok((def, all))
}

/// A database behind its own keys.
#[tactic(auto, unfolding(crate::specs::Dedbs::dedb_behind))]
fn dedb_behind(
    alloc: Global,
    before: &[DedbDef],
    taken: u32,
    head: Head,
    segment_tables: &[&Table],
    area_tables: &[&Table],
) -> Result<(DedbDef, u32), DefsFault>
    requires taken { taken ≡ intervals_of before.now }
    requires small { taken ≤ 524288 }
    requires size { 512 ≤ head.ci }
    requires largest { head.ci ≤ 4096 }
    requires few { length segment_tables.now ≤ 1000000 }
    ensures exact { Gives (λ r. r.0) result (dedb_behind before.now head.name head.randomizer head.ci
        (map (λ t. table_view t.now) segment_tables.now) (map (λ t. table_view t.now) area_tables.now)) }
    ensures all { IfOk result (λ r. r.1 ≡ intervals_of (before.now ++ r.0 ∷ [])) }
    ensures small { IfOk result (λ r. r.1 ≤ 524288) }
{
    let drafts = segments_of(alloc, segment_tables)?;
    all_fit(alloc, u32::from(head.ci - 32), drafts.as_slice())?;
    let sequential = has_sequential(drafts.as_slice());
    let areas = areas_of(alloc, sequential, before, area_tables)?;
    count_within(alloc, "segment", 0, 15, drafts.len())?;
    let segments = narrowed(alloc, drafts)?;
    let Head {
        name,
        randomizer,
        ci,
    } = head;
    ended(
        alloc,
        before,
        taken,
        DedbDef {
            name,
            randomizer,
            ci,
            segments,
            areas,
        },
    )
}

/// A data entry database, behind those of the tables before it, which have taken so many intervals.
#[tactic(auto, unfolding(crate::specs::Dedbs::dedb_of))]
fn dedb_of(
    alloc: Global,
    msdbs: &[MsdbDef],
    before: &[DedbDef],
    taken: u32,
    table: &Table,
) -> Result<(DedbDef, u32), DefsFault>
    requires taken { taken ≡ intervals_of before.now }
    requires small { taken ≤ 524288 }
    ensures exact { Gives (λ r. r.0) result (dedb_of msdbs.now before.now (table_view table.now)) }
    ensures all { IfOk result (λ r. r.1 ≡ intervals_of (before.now ++ r.0 ∷ [])) }
    ensures small { IfOk result (λ r. r.1 ≤ 524288) }
{
    only(alloc, Form::Dedb, table)?;
    let name = new_dedb_name(alloc, msdbs, before, table)?;
    let randomizer = exit_at(alloc, "randomizer", table)?;
    let ci = interval_size_at(alloc, table)?;
    let segment_tables = tables_at(alloc, "segment", table)?;
    let area_tables = tables_at(alloc, "area", table)?;
    let head = Head {
        name,
        randomizer,
        ci,
    };
    dedb_behind(alloc, before, taken, head, &segment_tables, &area_tables)
}

/// The data entry databases of tables, in turn.
pub(crate) fn dedbs_of(
    alloc: Global,
    msdbs: &[MsdbDef],
    tables: &[&Table],
) -> Result<List<DedbDef>, DefsFault>
    ensures { Gives (λ defs. defs) result (in_turn (dedb_of msdbs.now) [] (map (λ t. table_view t.now) tables.now)) }
{
    let mut defs = List::new(alloc);
    let mut taken = 0;
    for table in tables {
        let (def, all) = dedb_of(alloc, msdbs, defs.as_slice(), taken, *table)?;
        defs.push(def)?;
        taken = all;
    }
    Ok(defs)
}
