//! What an installation defines: its databases, its regions and its exits.

ghost use Rattle.fp_model.specs.State.{key_length, key_of};
ghost use Rattle.std.specs.Prelude.{◌≡◌};

use crate::name::Name;
use fp_lists::{Bytes, List};

/// The kind of a stored exit: how it spreads a key over n places. Both are this project's profile.
#[derive(Clone, Copy, Debug, PartialEq, Eq)]
pub enum Kind {
    /// Folds the bytes, each time times 31 plus the byte, modulo n.
    Fold,
    /// Cuts the range of the first four bytes into n parts.
    Range,
}

/// The kind of a field.
#[derive(Clone, Copy)]
pub enum FieldKind {
    /// Characters, padded with blanks. No number.
    C,
    /// An unsigned number of 1 to 8 bytes.
    X,
    /// A half word: two's complement in 2 bytes.
    H,
    /// A full word: two's complement in 4 bytes.
    F,
    /// Packed decimal in 1 to 16 bytes, the sign in the last half byte.
    P,
}

/// A field of a segment.
#[derive(Clone, Copy)]
pub struct FieldDef {
    pub name: Name,
    pub kind: FieldKind,
    /// The place of its first byte in the segment, from 0.
    pub at: u16,
    /// In bytes.
    pub length: u16,
}

/// A main storage database: root segments of one fixed length, each with a unique key, the first field.
#[derive(Drop)]
pub struct MsdbDef {
    pub name: Name,
    /// Whether any transaction may insert and delete segments (this project's profile).
    pub dynamic: bool,
    pub fields: List<FieldDef>,
    /// The length of a segment, in bytes.
    pub length: u16,
    /// The segments that it has before any transaction, in the order of the definitions.
    pub load: List<Bytes>,
}

/// A segment type of a data entry database.
#[derive(Clone, Drop)]
pub struct SegDef {
    pub name: Name,
    /// The number of the parent type in the list of types; None at the root.
    pub parent: Option<u8>,
    /// Whether its segments are sequential dependents, stored in order of entry.
    pub sequential: bool,
    pub fields: List<FieldDef>,
    /// The length of a segment, in bytes.
    pub length: u16,
}

/// An area: one data set of a data entry database.
#[derive(Drop)]
pub struct AreaDef {
    pub name: Name,
    /// Units of work.
    pub uows: u32,
    /// Base intervals in a unit of work, each with one root anchor point.
    pub base: u16,
    /// Dependent overflow intervals in a unit of work.
    pub overflow: u16,
    /// Sequential dependents that the area can hold; 0 where the database has no sequential type.
    pub capacity: u32,
    /// How many copies of its data set there are, 1 to 7.
    pub copies: u8,
}

/// A data entry database, cut into areas.
#[derive(Drop)]
pub struct DedbDef {
    pub name: Name,
    /// The exit that gives a root key its anchor.
    pub randomizer: Kind,
    /// The size of a control interval, in bytes.
    pub ci: u16,
    /// The segment types, the root first.
    pub segments: List<SegDef>,
    pub areas: List<AreaDef>,
}

/// All definitions of an installation.
#[derive(Drop)]
pub struct Defs {
    /// The balancing group of each region, from 1.
    pub regions: List<u8>,
    /// The exit that gives a transaction its balancing group.
    pub router: Kind,
    /// The most entries that one log write seals.
    pub log_group: u32,
    /// The most clean intervals that are kept in main storage.
    pub pool: u32,
    /// How often a transaction is run again, at most, that fails by a verify or would close a cycle.
    pub tries: u32,
    pub msdbs: List<MsdbDef>,
    pub dedbs: List<DedbDef>,
    /// The text that they were read from.
    pub text: Bytes,
}

/// The length of the keys of a main storage database, a root or a direct dependent with these fields: that of the first
/// field, in bytes. 0 where there is no field.
pub fn key_length(fields: &[FieldDef]) -> u16
    ensures { result ≡ key_length fields.now }
{
    match fields.first() {
        Some(key) => key.length,
        None => 0,
    }
}

/// The key of a segment with these fields: its first field, as far as the segment reaches.
pub fn key_of<'a>(fields: &[FieldDef], segment: &'a [u8]) -> &'a [u8]
    ensures { result.now ≡ key_of fields.now segment.now }
{
    let length = usize::from(key_length(fields));
    &segment[..length.min(segment.len())]
}
