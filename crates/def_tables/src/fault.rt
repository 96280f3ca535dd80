//! Why a text is no definitions.
ghost use Rattle.std.specs.Prelude.{◌≡◌, ◌≢◌};

use fp_model::{Bytes, Kind};
use std::alloc::{AllocError, Global};

/// Why a text isn't read as definitions. Of several reasons it is the first.
#[derive(Debug, PartialEq, Eq, Drop)]
pub enum DefsFault {
    /// The text isn't UTF-8, or no TOML document.
    NotToml,
    /// A table lacks a key that it must have.
    Missing(Bytes),
    /// A table has a key that the format lacks; of several the least.
    Unknown(Bytes),
    /// A number, how many there are of something, or the bytes of something is outside its limits: the key and the
    /// number. Or no region has a group below the greatest: `regions` and the least such group.
    OutOfLimit(Bytes, i64),
    /// A name or the key of a loaded segment occurred before.
    Twice(Bytes),
    /// A value isn't what its key has.
    BadField(Bytes),
    /// The installation has no exit of this kind, which routes transactions or spreads the keys of a database.
    NoExit(Kind),
    /// The text has more than 1,000,000 bytes.
    TooLong,
    /// There was no memory.
    Memory,
}

impl From<AllocError> for DefsFault {
    ghost use Rattle.def_tables.specs.declared.fault.DefsFault.TheVariants as fault;

    ghost from_gives = { λ _ e. e ≡ fault.Memory };

    fn from(_: AllocError) -> DefsFault {
        DefsFault::Memory
    }
}

/// That a table lacks this key; `Memory` where there is none for the key's name, as in the functions below.
pub(crate) fn missing(alloc: Global, key: &str) -> DefsFault
    ensures { result ≢ DefsFault.Memory → result ≡ DefsFault.Missing key.now }
{
    match Bytes::from_slice(alloc, key.as_bytes()) {
        Ok(key) => DefsFault::Missing(key),
        Err(_) => DefsFault::Memory,
    }
}

/// That a table may not have this key.
pub(crate) fn unknown(alloc: Global, key: &str) -> DefsFault
    ensures { result ≢ DefsFault.Memory → result ≡ DefsFault.Unknown key.now }
{
    match Bytes::from_slice(alloc, key.as_bytes()) {
        Ok(key) => DefsFault::Unknown(key),
        Err(_) => DefsFault::Memory,
    }
}

/// That a number at this key is outside its limits; `Memory` where there is none for the key's name.
pub fn out_of_limit(alloc: Global, key: &str, n: i64) -> DefsFault
    ensures exact { result ≢ DefsFault.Memory → result ≡ DefsFault.OutOfLimit key.now n }
{
    match Bytes::from_slice(alloc, key.as_bytes()) {
        Ok(key) => DefsFault::OutOfLimit(key, n),
        Err(_) => DefsFault::Memory,
    }
}

/// That the value at this key isn't what the key has; `Memory` where there is none for the key's name.
pub fn bad_field(alloc: Global, key: &str) -> DefsFault
    ensures exact { result ≢ DefsFault.Memory → result ≡ DefsFault.BadField key.now }
{
    match Bytes::from_slice(alloc, key.as_bytes()) {
        Ok(key) => DefsFault::BadField(key),
        Err(_) => DefsFault::Memory,
    }
}

/// That this text occurred before; `Memory` where there is none for the text.
pub fn twice(alloc: Global, text: &[u8]) -> DefsFault
    ensures exact { result ≢ DefsFault.Memory → result ≡ DefsFault.Twice text.now }
{
    match Bytes::from_slice(alloc, text) {
        Ok(text) => DefsFault::Twice(text),
        Err(_) => DefsFault::Memory,
    }
}
