//! The letters of a field call.
ghost use Rattle.std.specs.Prelude.{◌≡◌, IfOk, length};
ghost use Rattle.fp_model.specs.FitCalls.{IsFsaList};
ghost use Rattle.fp_model.specs.Fsas.{all_blank, fsas_in, list_on};
ghost use Rattle.fp_model.specs.WellFormed.{IsMsdbDef};

use fld_calls::try_list;
use fp_model::{Bytes, MsdbDef};
use std::alloc::{AllocError, Global};

// A letter for each field search argument, and whether all are blank.
#[derive(Drop)]
pub(crate) struct Letters {
    pub(crate) good: bool,
    pub(crate) letters: Bytes,
}

// Whether all letters are blanks.
fn are_blank(letters: &[u8]) -> bool
    ensures { result ≡ all_blank letters.now }
{
    letters.iter().all(|letter| *letter == b' ')
}

// These letters, and whether all are blanks.
fn told(letters: Bytes) -> Letters
    ensures letters { result.letters ≡ letters }
    ensures good { result.good ≡ all_blank letters }
{
    Letters {
        good: are_blank(letters.as_slice()),
        letters,
    }
}

// Up to so many bytes a segment is copied without taking memory.
const SHORT: usize = 64;

// Tries arguments on a copy of a segment. It fails only for want of memory.
pub(crate) fn letters_on(
    alloc: Global,
    def: &MsdbDef,
    fsas: &[u8],
    segment: &[u8],
) -> Result<Letters, AllocError>
    requires def { IsMsdbDef def.now }
    requires list { IsFsaList fsas.now }
    requires whole { length segment.now ≡ def.now.length }
    ensures letters { IfOk result (λ tried. tried.letters ≡ (list_on def.now (fsas_in fsas.now) segment.now).letters) }
    ensures good { IfOk result (λ tried. tried.good ≡ all_blank
        (list_on def.now (fsas_in fsas.now) segment.now).letters) }
{
    if segment.len() > SHORT {
        let mut copy = Vec::from_slice(alloc, segment)?;
        return Ok(told(try_list(alloc, def, fsas, copy.as_mut_slice())?));
    }
    let mut room = [0; SHORT];
    let copy = &mut room[..segment.len()];
    copy.copy_from_slice(segment);
    Ok(told(try_list(alloc, def, fsas, copy)?))
}
