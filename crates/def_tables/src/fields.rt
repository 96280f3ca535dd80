//! The fields of a segment: triples of a name, a kind and a length.
//!
//! All triples are read before any rule on their number, their bytes or their names is looked at.
ghost use Rattle.std.specs.Prelude.{◌≡◌, ◌≤◌, IfOk, codes, length, map};
ghost use Rattle.std.specs.List.{AllByRecursion};
ghost use Rattle.toml.specs.Data.{as_integer};
ghost use Rattle.toml.specs.View.{view, array_view, table_view};
ghost use Rattle.def_tables.specs.Readings.{Gives, or_fault};
ghost use Rattle.def_tables.specs.Values.{each, as_field_name, as_kind, as_length, triple_in, as_triple, as_triples};
ghost use Rattle.def_tables.specs.Keys.{all_once};
ghost use Rattle.def_tables.specs.Fields.{keyed, laid_out, total, fields_at};
ghost use Rattle.def_tables.specs.inside.Fields.{IsShort, layout_of};
ghost use Rattle.def_tables.specs.declared.fault.DefsFault.TheVariants as faults;

use crate::fault::{DefsFault, bad_field};
use crate::keys::{count_within, needed};
use crate::names::as_name;
use crate::texts::all_once;
use fp_model::{FieldDef, FieldKind, List, Name};
use std::alloc::{AllocError, Global};
use toml::{Table, Value};

/// A field as the file writes it: its place follows from those before it.
#[derive(Clone, Copy)]
pub struct Triple {
    pub name: Name,
    pub kind: FieldKind,
    /// In bytes.
    pub length: u16,
}

/// The fields of a segment and its length.
#[derive(Drop)]
pub struct Layout {
    pub fields: List<FieldDef>,
    /// In bytes: up to 64 fields of 1,024.
    pub length: u32,
}

/// The name of a field that a value is, if it is one.
#[tactic(auto, unfolding(crate::specs::Values::as_field_name))]
fn as_field_name(value: &Value) -> Option<Name>
    ensures { result ≡ as_field_name (view value.now) }
{
    let name = as_name(value)?;
    if name.0 == *b"IO      " || name.0 == *b"STATUS  " || name.0 == *b"FSAS    " {
        return None;
    }
    Some(name)
}

/// The kind that a value names, if it names one.
#[tactic(auto, unfolding(crate::specs::Values::as_kind))]
fn as_kind(value: &Value) -> Option<FieldKind>
    ensures { result ≡ as_kind (view value.now) }
{
    match value.as_str() {
        Some("C") => Some(FieldKind::C),
        Some("X") => Some(FieldKind::X),
        Some("H") => Some(FieldKind::H),
        Some("F") => Some(FieldKind::F),
        Some("P") => Some(FieldKind::P),
        _ => None,
    }
}

/// The length of a field of a kind that a value is, if it is one.
#[tactic(auto, unfolding(crate::specs::Values::as_length))]
fn as_length(kind: FieldKind, value: &Value) -> Option<u16>
    ensures { result ≡ as_length kind (view value.now) }
{
    let n = value.as_integer()?;
    match kind {
        FieldKind::C => if n >= 1 && n <= 1024 {
            Some(n as u16)
        } else {
            None
        },
        FieldKind::X => if n >= 1 && n <= 8 {
            Some(n as u16)
        } else {
            None
        },
        FieldKind::H => if n == 2 { Some(2) } else { None },
        FieldKind::F => if n == 4 { Some(4) } else { None },
        FieldKind::P => if n >= 1 && n <= 16 {
            Some(n as u16)
        } else {
            None
        },
    }
}

/// The field that three values are, if they are one.
fn triple_in(items: &Vec<Value>) -> Option<Triple>
    ensures { result ≡ triple_in (array_view items.now) }
{
    let [name, kind, length] = items.as_slice() else {
        return None;
    };
    let name = as_field_name(name)?;
    let kind = as_kind(kind)?;
    let length = as_length(kind, length)?;
    Some(Triple { name, kind, length })
}

/// The field that a value is, if it is one.
#[tactic(auto, unfolding(crate::specs::Values::as_triple))]
fn as_triple(value: &Value) -> Option<Triple>
    ensures { result ≡ as_triple (view value.now) }
{
    match value.as_array() {
        Some(items) => triple_in(items),
        None => None,
    }
}

/// The fields that the items of an array are.
fn triples_of(alloc: Global, items: &Vec<Value>) -> Result<Vec<Triple>, DefsFault>
    ensures { Gives (λ ts. ts.items) result (or_fault (faults.BadField (codes "fields"))
        (each as_triple (array_view items.now))) }
{
    let mut triples = Vec::new(alloc);
    for item in items {
        let Some(triple) = as_triple(item) else {
            return Err(bad_field(alloc, "fields"));
        };
        if triples.push(triple).is_err() {
            return Err(DefsFault::Memory);
        }
    }
    Ok(triples)
}

/// The fields that the items of a value are.
#[tactic(auto, unfolding(crate::specs::Values::as_triples))]
fn triples_in(alloc: Global, value: &Value) -> Result<Vec<Triple>, DefsFault>
    ensures { Gives (λ ts. ts.items) result (or_fault (faults.BadField (codes "fields"))
        (as_triples (view value.now))) }
{
    match value.as_array() {
        Some(items) => triples_of(alloc, items),
        None => Err(bad_field(alloc, "fields")),
    }
}

/// Refuses a first field that can't be a key, where a key is wanted.
#[tactic(auto, unfolding(crate::specs::Fields::keyed))]
fn keyed(alloc: Global, wanted: bool, triples: &[Triple]) -> Result<(), DefsFault>
    ensures { Gives (λ u. u) result (keyed wanted triples.now) }
{
    if !wanted || triples.is_empty() {
        return Ok(());
    }
    let first = triples[0];
    if first.kind == FieldKind::C && first.length <= 64 {
        return Ok(());
    }
    Err(bad_field(alloc, "fields"))
}

/// The bytes of all fields.
fn total(triples: &[Triple]) -> u32
    requires { length triples.now ≤ 64 }
    ensures { result ≡ total triples.now }
{
    let mut sum = 0;
    for triple in triples {
        sum += u32::from(triple.length);
    }
    sum
}

/// The fields one after another. They are few and short, so that each begins below byte 65,536.
fn laid_out(alloc: Global, triples: &[Triple]) -> Result<List<FieldDef>, AllocError>
    requires few { length triples.now ≤ 64 }
    requires short { AllByRecursion IsShort triples.now }
    ensures { IfOk result (λ fields. fields ≡ laid_out 0 triples.now) }
{
    let mut fields = List::new(alloc);
    let mut at: u32 = 0;
    for triple in triples {
        fields.push(FieldDef {
            name: triple.name,
            kind: triple.kind,
            at: at as u16,
            length: triple.length,
        })?;
        at += u32::from(triple.length);
    }
    Ok(fields)
}

/// Refuses a field's name that occurred before.
fn names_once(alloc: Global, triples: &[Triple]) -> Result<(), DefsFault>
    ensures { Gives (λ u. u) result (all_once (map (λ t. t.name.0) triples.now)) }
{
    let mut names = Vec::new(alloc);
    for triple in triples {
        if names.push(triple.name.0.as_slice()).is_err() {
            return Err(DefsFault::Memory);
        }
    }
    all_once(alloc, &names)
}

// The fields that triples are, of at most `most` bytes, the first of them a key where one is wanted.
#[tactic(auto, unfolding(crate::specs::inside::Fields::layout_of))]
fn layout_of(
    alloc: Global,
    key_wanted: bool,
    most: u32,
    triples: &[Triple],
) -> Result<Layout, DefsFault>
    requires { AllByRecursion IsShort triples.now }
    ensures exact { Gives (λ layout. layout) result (layout_of key_wanted most triples.now) }
    ensures small { IfOk result (λ layout. layout.length ≤ most) }
{
    keyed(alloc, key_wanted, triples)?;
    count_within(alloc, "fields", 1, 64, triples.len())?;
    let length = total(triples);
    count_within(alloc, "fields", 0, most, length as usize)?;
    names_once(alloc, triples)?;
    let fields = laid_out(alloc, triples)?;
    Ok(Layout { fields, length })
}

/// The fields of a table, of at most `most` bytes, the first of them a key where one is wanted. A fault is at `fields`,
/// or `Twice` with the name that occurred before.
#[tactic(auto, unfolding(crate::specs::Fields::fields_at, crate::specs::inside::Fields::layout_of))]
pub fn fields_at(
    alloc: Global,
    key_wanted: bool,
    most: u32,
    table: &Table,
) -> Result<Layout, DefsFault>
    ensures exact { Gives (λ layout. layout) result (fields_at key_wanted most (table_view table.now)) }
    ensures small { IfOk result (λ layout. layout.length ≤ most) }
{
    let value = needed(alloc, "fields", table)?;
    let read = triples_in(alloc, value)?;
    layout_of(alloc, key_wanted, most, read.as_slice())
}
