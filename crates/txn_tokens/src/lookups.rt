//! Looks up in the definitions what a statement names.
ghost use Rattle.std.specs.Prelude.{◌≡◌, ◌≤◌, ◌∷◌, [], length, position, if◌then◌else◌, Ok, Err};
ghost use Rattle.std.specs.List.{list_all, list_any};
ghost use Rattle.txn_tokens.specs.declared.fault.LineFault.TheVariants.{UnknownName};
ghost use Rattle.txn_tokens.specs.Readings.{Gives};
ghost use Rattle.txn_tokens.specs.Lookups as lookups;
ghost use Rattle.txn_tokens.specs.Lookups.{HaveByteNumbers};

use crate::fault::LineFault;
use crate::parts::is_word;
use crate::token::Token;
use crate::written::WrittenSsa;
use fp_model::{DedbDef, Defs, FieldDef, FieldText, List, MsdbDef, Name, SegDef, SsaText};
use std::alloc::Global;

// Whether two names are the same.
fn has_name(name: &Name, other: &Name) -> bool
    ensures { result ≡ lookups.has_name name.now other.now }
{
    other.0 == name.0
}

// Whether one of these fields has this name.
fn has_field(fields: &[FieldDef], name: &Name) -> bool
    ensures { result ≡ lookups.has_field fields.now name.now }
{
    fields.iter().any(|field| has_name(name, &field.name))
}

// Whether a segment of some main storage database has a field of this name.
fn is_msdb_field(msdbs: &[MsdbDef], name: &Name) -> bool
    ensures { result ≡ list_any (λ def. lookups.has_field def.fields name.now) msdbs.now }
{
    msdbs
        .iter()
        .any(|def| has_field(def.fields.as_slice(), name))
}

// Whether one of these segment types has a field of this name.
fn is_type_field(types: &[SegDef], name: &Name) -> bool
    ensures { result ≡ list_any (λ def. lookups.has_field def.fields name.now) types.now }
{
    types
        .iter()
        .any(|def| has_field(def.fields.as_slice(), name))
}

// Whether a segment of some data entry database has a field of this name.
fn is_dedb_field(dedbs: &[DedbDef], name: &Name) -> bool
    ensures { result ≡ list_any (λ dedb. list_any (λ def. lookups.has_field def.fields name.now) dedb.segments)
        dedbs.now }
{
    dedbs
        .iter()
        .any(|def| is_type_field(def.segments.as_slice(), name))
}

// Whether `IO.f` can be used, if that is what a token is.
fn is_known(defs: &Defs, token: &Token) -> bool
    ensures { result ≡ lookups.is_known defs.now token.now }
{
    match token {
        Token::Field(name) => {
            is_msdb_field(defs.msdbs.as_slice(), name) || is_dedb_field(defs.dedbs.as_slice(), name)
        }
        _ => true,
    }
}

/// Whether each `IO.f` of a line can be used: some segment that is defined has a field of that name.
pub fn are_known(defs: &Defs, tokens: &[Token]) -> bool
    ensures exact { result ≡ lookups.are_known defs.now tokens.now }
{
    tokens.iter().all(|token| is_known(defs, token))
}

// The place of the main storage database of a name.
fn msdb_place(msdbs: &[MsdbDef], name: &Name) -> Option<usize>
    ensures { result ≡ position (λ def. lookups.has_name name.now def.name) msdbs.now }
{
    msdbs.iter().position(|def| has_name(name, &def.name))
}

// The place of the data entry database of a name.
fn dedb_place(dedbs: &[DedbDef], name: &Name) -> Option<usize>
    ensures { result ≡ position (λ def. lookups.has_name name.now def.name) dedbs.now }
{
    dedbs.iter().position(|def| has_name(name, &def.name))
}

// The place of the segment type of a name.
fn type_place(types: &[SegDef], name: &Name) -> Option<usize>
    ensures { result ≡ position (λ def. lookups.has_name name.now def.name) types.now }
{
    types.iter().position(|def| has_name(name, &def.name))
}

/// The number of the database of a name: main storage databases have the numbers from 0 on, and data entry databases
/// those behind. `UnknownName` where none has that name.
pub fn db_of(defs: &Defs, name: &Name) -> Result<u8, LineFault>
    requires numbers { HaveByteNumbers defs.now }
    ensures exact { Gives (λ x. x) result (lookups.db_of defs.now name.now) }
{
    match msdb_place(defs.msdbs.as_slice(), name) {
        Some(place) => Ok(place as u8),
        None => match dedb_place(defs.dedbs.as_slice(), name) {
            Some(place) => Ok((defs.msdbs.len() + place) as u8),
            None => Err(LineFault::UnknownName),
        },
    }
}

// Whether a number is that of a main storage database.
fn is_msdb(defs: &Defs, db: u8) -> bool
    ensures { result ≡ lookups.is_msdb defs.now db }
{
    usize::from(db) < defs.msdbs.len()
}

// The segment types of a data entry database. It is asked of the number of one alone.
fn types_of(defs: &Defs, db: u8) -> &[SegDef]
    ensures { result.now ≡ lookups.types_of defs.now db }
{
    let db = usize::from(db);
    match defs
        .dedbs
        .as_slice()
        .get(db.saturating_sub(defs.msdbs.len()))
    {
        Some(def) => def.segments.as_slice(),
        None => &[],
    }
}

// The SSA of a main storage database.
fn key_alone(alloc: Global, written: WrittenSsa) -> Result<List<SsaText>, LineFault>
    ensures { Gives (λ x. x) result (lookups.msdb_ssas (written ∷ [])) }
{
    let WrittenSsa { name, key } = written;
    match key {
        Some(key) if is_word(&name, b"KEY     ") => {
            let mut ssas = List::new(alloc);
            ssas.push(SsaText {
                segment: 0,
                key: Some(key),
            })?;
            Ok(ssas)
        }
        _ => Err(LineFault::Syntax),
    }
}

// The SSAs of a main storage database: none, or `KEY(operand)`.
fn msdb_ssas(alloc: Global, written: List<WrittenSsa>) -> Result<List<SsaText>, LineFault>
    ensures { Gives (λ x. x) result (lookups.msdb_ssas written) }
{
    let mut written = written;
    if written.len() > 1 {
        return Err(LineFault::Syntax);
    }
    match written.pop() {
        Some(ssa) => key_alone(alloc, ssa),
        None => Ok(List::new(alloc)),
    }
}

// The number of a segment type.
fn segment_of(types: &[SegDef], name: &Name) -> Result<u8, LineFault>
    requires { length types.now ≤ 256 }
    ensures { Gives (λ x. x) result (lookups.segment_of types.now name.now) }
{
    match type_place(types, name) {
        Some(place) => Ok(place as u8),
        None => Err(LineFault::UnknownName),
    }
}

// The SSAs of a data entry database: each names a segment type.
fn dedb_ssas(
    alloc: Global,
    types: &[SegDef],
    written: List<WrittenSsa>,
) -> Result<List<SsaText>, LineFault>
    requires { length types.now ≤ 256 }
    ensures { Gives (λ x. x) result (lookups.dedb_ssas types.now written) }
{
    let mut ssas = List::new(alloc);
    for ssa in written.into_vec() {
        let WrittenSsa { name, key } = ssa;
        let segment = segment_of(types, &name)?;
        ssas.push(SsaText { segment, key })?;
    }
    Ok(ssas)
}

/// The SSAs of a get, their names looked up. On a main storage database `Syntax` where they aren't none or
/// `KEY(operand)` alone; on a data entry database `UnknownName` where one names no segment type of it.
#[tactic(auto, unfolding(crate::specs::Lookups::get_ssas))]
pub fn get_ssas(
    alloc: Global,
    defs: &Defs,
    db: u8,
    written: List<WrittenSsa>,
) -> Result<List<SsaText>, LineFault>
    requires numbers { HaveByteNumbers defs.now }
    ensures exact { Gives (λ x. x) result (lookups.get_ssas defs.now db written) }
{
    if is_msdb(defs, db) {
        return msdb_ssas(alloc, written);
    }
    dedb_ssas(alloc, types_of(defs, db), written)
}

/// The SSAs of ISRT, their names looked up: none on a main storage database, at least one on a data entry database, and
/// else `Syntax`. `UnknownName` where one names no segment type of it.
#[tactic(auto, unfolding(crate::specs::Lookups::isrt_ssas, crate::specs::Lookups::dedb_ssas))]
pub fn isrt_ssas(
    alloc: Global,
    defs: &Defs,
    db: u8,
    written: List<WrittenSsa>,
) -> Result<List<SsaText>, LineFault>
    requires numbers { HaveByteNumbers defs.now }
    ensures exact { Gives (λ x. x) result (lookups.isrt_ssas defs.now db written) }
{
    if is_msdb(defs, db) != written.is_empty() {
        return Err(LineFault::Syntax);
    }
    dedb_ssas(alloc, types_of(defs, db), written)
}

// The number of the type that ISRT inserts: that of the last SSA.
fn inserted(ssas: &[SsaText]) -> u8
    ensures { result ≡ lookups.inserted ssas.now }
{
    match ssas.last() {
        Some(ssa) => ssa.segment,
        None => 0,
    }
}

// The fields of a segment type.
fn fields_of(defs: &Defs, db: u8, segment: u8) -> Result<&[FieldDef], LineFault>
    ensures { Gives (λ x. x.now) result (lookups.fields_of defs.now db segment) }
{
    if let Some(def) = defs.msdbs.as_slice().get(usize::from(db)) {
        return Ok(def.fields.as_slice());
    }
    let place = usize::from(db).saturating_sub(defs.msdbs.len());
    match defs.dedbs.as_slice().get(place) {
        Some(def) => match def.segments.as_slice().get(usize::from(segment)) {
            Some(def) => Ok(def.fields.as_slice()),
            None => Err(LineFault::UnknownName),
        },
        None => Err(LineFault::UnknownName),
    }
}

// Whether all of these are fields of a segment type.
fn have_fields(fields: &[FieldDef], given: &[FieldText]) -> bool
    ensures { result ≡ list_all (λ text. lookups.has_field fields.now text.field) given.now }
{
    given.iter().all(|text| has_field(fields, &text.field))
}

// The fields that ISRT gives, where a segment type has them.
fn with_fields(fields: &[FieldDef], given: List<FieldText>) -> Result<List<FieldText>, LineFault>
    ensures { Gives (λ x. x) result (if list_all (λ text. lookups.has_field fields.now text.field) given then Ok given
        else Err UnknownName) }
{
    if have_fields(fields, given.as_slice()) {
        return Ok(given);
    }
    Err(LineFault::UnknownName)
}

/// The fields that ISRT gives. `UnknownName` where one isn't a field of the new segment, whose type the last SSA names.
#[tactic(auto, unfolding(crate::specs::Lookups::isrt_fields))]
pub fn isrt_fields(
    defs: &Defs,
    db: u8,
    ssas: &[SsaText],
    given: List<FieldText>,
) -> Result<List<FieldText>, LineFault>
    ensures exact { Gives (λ x. x) result (lookups.isrt_fields defs.now db ssas.now given) }
{
    let fields = fields_of(defs, db, inserted(ssas))?;
    with_fields(fields, given)
}
