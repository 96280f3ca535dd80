//! Why a text is not read as scripts.
ghost use Rattle.std.specs.Prelude.{◌≡◌};

use fp_model::Name;
use std::alloc::{AllocError, AllocFailed};

/// Why a text is not scripts. Of several reasons it is the first, in this order: `TooLong`; the first line with
/// `Syntax` or `UnknownName`; for each transaction in turn `Twice` and then `TooDear`.
#[derive(Clone, Copy, Debug, PartialEq, Eq)]
pub enum ScriptFault {
    /// The line of this number, counted from 1, is no statement, or can't stand where it does. A block without END has
    /// it at the line of its IF or REPEAT, after all other lines; of several such blocks the first counts.
    Syntax(u32),
    /// The line of this number is a statement, but names a database, a segment or a field that isn't defined.
    UnknownName(u32),
    /// The transaction costs this much, more than 10,000. A cost above 1,000,000,000 is kept as that number.
    TooDear(Name, u64),
    /// An earlier transaction has this name.
    Twice(Name),
    /// The text has more than 1,000,000 bytes.
    TooLong,
    /// There was no memory.
    Memory,
}

impl From<AllocError> for ScriptFault {
    ghost use Rattle.txn_lang.specs.declared.fault.ScriptFault.TheVariants as fault;

    ghost from_gives = { λ _ e. e ≡ fault.Memory };

    fn from(_: AllocError) -> ScriptFault {
        ScriptFault::Memory
    }
}

impl<T: Drop> From<AllocFailed<T>> for ScriptFault {
    ghost use Rattle.txn_lang.specs.declared.fault.ScriptFault.TheVariants as fault;

    ghost from_gives = { λ _ e. e ≡ fault.Memory };

    fn from(_: AllocFailed<T>) -> ScriptFault {
        ScriptFault::Memory
    }
}
