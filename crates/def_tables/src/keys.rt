//! The keys of tables, and the values at them.
ghost use Rattle.std.specs.Prelude.{◌≡◌, ◌≤◌, ◌<◌, ◌^◌, OnOk, Option, Some, None, IfOk, length, map, option_map, string_bytes, pos};
ghost use Rattle.toml.specs.Data.{get_member, as_table};
ghost use Rattle.toml.specs.View.{view, array_view, table_view};
ghost use Rattle.def_tables.specs.Readings.{Gives, or_fault};
ghost use Rattle.def_tables.specs.Values.{each, as_tables};
ghost use Rattle.def_tables.specs.Keys.{has_key, unknown_key, only, needed, within, number_within, number_at, number_or, flag_at, exit_at, name_at, tables_or_none, tables_at};
ghost use Rattle.def_tables.specs.declared.fault.DefsFault.TheVariants as faults;

use crate::fault::{DefsFault, bad_field, missing, out_of_limit, unknown};
use crate::names::{as_exit, as_name};
use fp_model::{Kind, Name};
use std::alloc::Global;
use toml::{Table, Value};

/// The tables of the format.
#[derive(Clone, Copy)]
pub enum Form {
    /// The document itself.
    Top,
    /// A main storage database.
    Msdb,
    /// A data entry database.
    Dedb,
    /// A segment type of a data entry database.
    Segment,
    /// An area of a data entry database.
    Area,
}

/// Whether a table of this form may have a key.
#[tactic(auto, unfolding(crate::specs::Keys::has_key))]
fn has_key(form: Form, key: &str) -> bool
    ensures { result ≡ has_key form key.now }
{
    match form {
        Form::Top => matches!(
            key,
            "regions" | "router" | "log_group" | "pool" | "tries" | "msdb" | "dedb"
        ),
        Form::Msdb => matches!(key, "name" | "fields" | "dynamic" | "load"),
        Form::Dedb => matches!(key, "name" | "randomizer" | "ci" | "segment" | "area"),
        Form::Segment => matches!(key, "name" | "fields" | "parent" | "sequential"),
        Form::Area => matches!(
            key,
            "name" | "uows" | "base" | "overflow" | "capacity" | "copies"
        ),
    }
}

/// The least key that a table of this form may not have.
fn unknown_key(form: Form, table: &Table) -> Option<&String>
    ensures { option_map (λ key. string_bytes key.now) result ≡ unknown_key form (table_view table.now) }
{
    for key in table.keys() {
        if !has_key(form, key.as_str()) {
            return Some(key);
        }
    }
    None
}

/// Refuses a table with a key that its form lacks: `Unknown` names the least.
#[tactic(auto, unfolding(crate::specs::Keys::only))]
pub fn only(alloc: Global, form: Form, table: &Table) -> Result<(), DefsFault>
    ensures exact { Gives (λ u. u) result (only form (table_view table.now)) }
{
    match unknown_key(form, table) {
        Some(key) => Err(unknown(alloc, key.as_str())),
        None => Ok(()),
    }
}

/// The value at a key, if the table has it.
pub fn member<'a>(table: &'a Table, key: &str) -> Option<&'a Value>
    ensures exact { option_map (λ v. view v.now) result ≡ get_member key.now (table_view table.now) }
{
    table.get(key)
}

/// The value at a key that a table must have; `Missing` where it lacks it.
#[tactic(auto, unfolding(crate::specs::Keys::needed))]
pub fn needed<'a>(alloc: Global, key: &str, table: &'a Table) -> Result<&'a Value, DefsFault>
    ensures exact { Gives (λ v. view v.now) result (needed key.now (table_view table.now)) }
{
    match member(table, key) {
        Some(value) => Ok(value),
        None => Err(missing(alloc, key)),
    }
}

/// A number from `low` to `high`; else it is `OutOfLimit` at this key.
#[tactic(auto, unfolding(crate::specs::Keys::within))]
pub fn within(alloc: Global, key: &str, low: u32, high: u32, n: i64) -> Result<u32, DefsFault>
    ensures exact { Gives (λ m. m) result (within key.now low high n) }
    ensures small { IfOk result (λ m. m ≤ high) }
{
    if n >= i64::from(low) && n <= i64::from(high) {
        Ok(n as u32)
    } else {
        Err(out_of_limit(alloc, key, n))
    }
}

/// How many there are of something, from `low` to `high`; else it is `OutOfLimit` at this key.
#[tactic(auto, unfolding(crate::specs::Keys::within))]
pub fn count_within(
    alloc: Global,
    key: &str,
    low: u32,
    high: u32,
    n: usize,
) -> Result<u32, DefsFault>
    requires countable { n < 2 ^ 63 }
    ensures exact { Gives (λ m. m) result (within key.now low high (pos n)) }
    ensures small { OnOk result (n ≤ high) }
    ensures same { IfOk result (λ m. m ≡ n) }
{
    if n >= low as usize && n <= high as usize {
        Ok(n as u32)
    } else {
        Err(out_of_limit(alloc, key, n as i64))
    }
}

/// The number within its limits that a value is; `BadField` where it is none.
#[tactic(auto, unfolding(crate::specs::Keys::number_within))]
pub fn number_within(
    alloc: Global,
    key: &str,
    low: u32,
    high: u32,
    value: &Value,
) -> Result<u32, DefsFault>
    ensures exact { Gives (λ m. m) result (number_within key.now low high (view value.now)) }
    ensures small { IfOk result (λ m. m ≤ high) }
{
    match value.as_integer() {
        Some(n) => within(alloc, key, low, high, n),
        None => Err(bad_field(alloc, key)),
    }
}

/// A number within its limits that the table must have.
#[tactic(auto, unfolding(crate::specs::Keys::number_at))]
pub fn number_at(
    alloc: Global,
    key: &str,
    low: u32,
    high: u32,
    table: &Table,
) -> Result<u32, DefsFault>
    ensures exact { Gives (λ m. m) result (number_at key.now low high (table_view table.now)) }
    ensures small { IfOk result (λ m. m ≤ high) }
{
    let value = needed(alloc, key, table)?;
    number_within(alloc, key, low, high, value)
}

/// A number within its limits that the table may have, `default` where it has none.
#[tactic(auto, unfolding(crate::specs::Keys::number_or))]
pub fn number_or(
    alloc: Global,
    default: u32,
    key: &str,
    low: u32,
    high: u32,
    table: &Table,
) -> Result<u32, DefsFault>
    ensures exact { Gives (λ m. m) result (number_or default key.now low high (table_view table.now)) }
    ensures small { default ≤ high → IfOk result (λ m. m ≤ high) }
{
    match member(table, key) {
        Some(value) => number_within(alloc, key, low, high, value),
        None => Ok(default),
    }
}

/// True or false, and false where the table has no such key; `BadField` where the value is neither.
#[tactic(auto, unfolding(crate::specs::Keys::flag_at))]
pub fn flag_at(alloc: Global, key: &str, table: &Table) -> Result<bool, DefsFault>
    ensures exact { Gives (λ flag. flag) result (flag_at key.now (table_view table.now)) }
{
    let Some(value) = member(table, key) else {
        return Ok(false);
    };
    match value.as_bool() {
        Some(flag) => Ok(flag),
        None => Err(bad_field(alloc, key)),
    }
}

/// An exit that the table must name; `BadField` where the value names none.
#[tactic(auto, unfolding(crate::specs::Keys::exit_at))]
pub fn exit_at(alloc: Global, key: &str, table: &Table) -> Result<Kind, DefsFault>
    ensures exact { Gives (λ kind. kind) result (exit_at key.now (table_view table.now)) }
{
    let value = needed(alloc, key, table)?;
    match as_exit(value) {
        Some(kind) => Ok(kind),
        None => Err(bad_field(alloc, key)),
    }
}

/// A name that the table must have; `BadField` where the value is none.
#[tactic(auto, unfolding(crate::specs::Keys::name_at))]
pub fn name_at(alloc: Global, key: &str, table: &Table) -> Result<Name, DefsFault>
    ensures exact { Gives (λ name. name) result (name_at key.now (table_view table.now)) }
{
    let value = needed(alloc, key, table)?;
    match as_name(value) {
        Some(name) => Ok(name),
        None => Err(bad_field(alloc, key)),
    }
}

// More tables than a text of 1,000,000 bytes has.
const MANY: usize = 1_000_000;

/// The tables that the items of an array are. No machine comes so far as `MANY`: then there is no memory.
fn tables_of<'a>(
    alloc: Global,
    key: &str,
    items: &'a Vec<Value>,
) -> Result<Vec<&'a Table>, DefsFault>
    ensures few { IfOk result (λ ts. length ts.items ≤ 1000000) }
    ensures exact { Gives (λ ts. map (λ t. table_view t.now) ts.items) result
        (or_fault (faults.BadField key.now) (each as_table (array_view items.now))) }
{
    if items.len() > MANY {
        return Err(DefsFault::Memory);
    }
    let mut tables = Vec::new(alloc);
    for item in items {
        let Some(table) = item.as_table() else {
            return Err(bad_field(alloc, key));
        };
        if tables.push(table).is_err() {
            return Err(DefsFault::Memory);
        }
    }
    Ok(tables)
}

/// The tables that the items of a value are.
#[tactic(auto, unfolding(crate::specs::Values::as_tables))]
fn tables_in<'a>(alloc: Global, key: &str, value: &'a Value) -> Result<Vec<&'a Table>, DefsFault>
    ensures few { IfOk result (λ ts. length ts.items ≤ 1000000) }
    ensures exact { Gives (λ ts. map (λ t. table_view t.now) ts.items) result
        (or_fault (faults.BadField key.now) (as_tables (view value.now))) }
{
    match value.as_array() {
        Some(items) => tables_of(alloc, key, items),
        None => Err(bad_field(alloc, key)),
    }
}

/// The tables of an array, none where the table has no such key; `BadField` where the value is no array of tables.
#[tactic(auto, unfolding(crate::specs::Keys::tables_or_none))]
pub fn tables_or_none<'a>(
    alloc: Global,
    key: &str,
    table: &'a Table,
) -> Result<Vec<&'a Table>, DefsFault>
    ensures few { IfOk result (λ ts. length ts.items ≤ 1000000) }
    ensures exact { Gives (λ ts. map (λ t. table_view t.now) ts.items) result
        (tables_or_none key.now (table_view table.now)) }
{
    match member(table, key) {
        Some(value) => tables_in(alloc, key, value),
        None => Ok(Vec::new(alloc)),
    }
}

/// The tables of an array that must have one: `OutOfLimit` where it has none.
#[tactic(auto, unfolding(crate::specs::Keys::tables_at))]
pub fn tables_at<'a>(
    alloc: Global,
    key: &str,
    table: &'a Table,
) -> Result<Vec<&'a Table>, DefsFault>
    ensures few { IfOk result (λ ts. length ts.items ≤ 1000000) }
    ensures exact { Gives (λ ts. map (λ t. table_view t.now) ts.items) result
        (tables_at key.now (table_view table.now)) }
{
    let value = needed(alloc, key, table)?;
    let tables = tables_in(alloc, key, value)?;
    if tables.is_empty() {
        return Err(out_of_limit(alloc, key, 0));
    }
    Ok(tables)
}
