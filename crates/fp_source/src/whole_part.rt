//! A part to its end.
ghost use Rattle.std.specs.Prelude.{◌≡◌, ◌<◌, ◌≤◌, [], IfOk, IsErrOf, OnOk, length};
ghost use Rattle.fp_source.specs.Source.{ReadsOnly};
ghost use Rattle.fp_lists.specs.Faults.{Rose};

use crate::{Failed, Part, Source};
use fp_lists::Bytes;
use std::alloc::{AllocError, Global};

/// Why a part isn't given as a whole.
#[derive(Clone, Copy)]
pub enum WholeFault {
    /// It has more bytes than the limit.
    TooLong,
    /// A read of the source failed.
    Failed,
    /// There was no memory.
    Memory,
}

impl From<Failed> for WholeFault {
    ghost use Rattle.fp_source.specs.declared.whole_part.WholeFault.TheVariants as fault;

    ghost from_gives = { λ _ e. e ≡ fault.Failed };

    fn from(_: Failed) -> WholeFault {
        WholeFault::Failed
    }
}

impl From<AllocError> for WholeFault {
    ghost use Rattle.fp_source.specs.declared.whole_part.WholeFault.TheVariants as fault;

    ghost from_gives = { λ _ e. e ≡ fault.Memory };

    fn from(_: AllocError) -> WholeFault {
        WholeFault::Memory
    }
}

// How many bytes are asked for at once.
const BLOCK: usize = 65536;

/// What is left of a part, to its end, where it has at most `limit` bytes. Also of a source that tells nothing it
/// takes no more than that and one block.
pub fn whole<S: Source>(
    alloc: Global,
    source: &mut S,
    part: Part,
    limit: u64,
) -> Result<Bytes, WholeFault>
    ensures bytes { S.told source.old → IfOk result (λ bytes. bytes ≡ S.left source.old part) }
    ensures end { S.told source.old → OnOk result (S.left source.new part ≡ []) }
    ensures limit { IfOk result (λ bytes. length bytes ≤ limit) }

    // When a fault comes.
    ensures too_long { S.told source.old → IsErrOf result WholeFault.TooLong → limit < length (S.left source.old part) }
    ensures cause { IsErrOf result WholeFault.Failed → Rose (S.faults source.old) (S.faults source.new) }
    ensures stayed { ¬ (IsErrOf result WholeFault.Failed) → S.faults source.new ≡ S.faults source.old }

    // Of the source only this part was read.
    ensures source { ReadsOnly S.told S.left S.faults S.holds S.keeps part source.old source.new }
{
    let mut block = vec![in alloc; 0u8; BLOCK]?;
    let mut bytes = Bytes::new(alloc);
    loop {
        let count = source.read(part, &mut block)?;
        if count == 0 {
            return Ok(bytes);
        }
        if count as u64 > limit - bytes.len() as u64 {
            return Err(WholeFault::TooLong);
        }
        bytes.append(&block[..count])?;
    }
}
