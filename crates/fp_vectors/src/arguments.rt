//! Field search arguments: lists as bytes, and lists that are tried on a segment.
//!
//!     list BYTES => ARGUMENT / ARGUMENT .. | short PLACE | connector PLACE
//!     try BYTES SEGMENT => good LETTERS SEGMENT | bad LETTERS SEGMENT
//!
//! An argument is its field's name, status, operation and operand, as bytes each, and so are the letters. A list that
//! is read is written again too. The segment is one of `FIELDS`: `usual` stands for `USUAL`, and `same` for one that
//! stayed.
ghost use Rattle.fp_model.specs.WellFormed.{StandFrom};
ghost use Rattle.std.specs.List.{AllByRecursion};
ghost use Rattle.std.specs.Prelude.{◌≡◌, IfOk, length};
ghost use Rattle.fld_calls.specs.Forms.{IsShort};

use crate::fault::CaseFault;
use crate::texts::{bytes_of, put_bytes};
use fld_calls::{Fsa, FsaFault, read_list, try_fsas, write_list};
use fp_model::{FieldDef, FieldKind, List, MsdbDef, Name};
use std::alloc::{AllocError, Global};

// The length of a segment.
const LENGTH: usize = 43;

// The longest list whose places have four bytes.
const LONGEST: usize = 4_294_967_295;

// A key, characters, and numbers of each kind.
const FIELDS: [FieldDef; 8] = [
    FieldDef {
        name: Name(*b"ACCT    "),
        kind: FieldKind::C,
        at: 0,
        length: 4,
    },
    FieldDef {
        name: Name(*b"BAL     "),
        kind: FieldKind::P,
        at: 4,
        length: 4,
    },
    FieldDef {
        name: Name(*b"CITY    "),
        kind: FieldKind::C,
        at: 8,
        length: 4,
    },
    FieldDef {
        name: Name(*b"COUNT   "),
        kind: FieldKind::X,
        at: 12,
        length: 1,
    },
    FieldDef {
        name: Name(*b"HALF    "),
        kind: FieldKind::H,
        at: 13,
        length: 2,
    },
    FieldDef {
        name: Name(*b"FULL    "),
        kind: FieldKind::F,
        at: 15,
        length: 4,
    },
    FieldDef {
        name: Name(*b"MOST    "),
        kind: FieldKind::P,
        at: 19,
        length: 16,
    },
    FieldDef {
        name: Name(*b"WIDE    "),
        kind: FieldKind::X,
        at: 35,
        length: 8,
    },
];

// A001 with 100 in BAL, OSLO, 255, -2, 70000, 31 nines, and 258.
const USUAL: [u8; LENGTH] =
    *b"A001\x00\x00\x10\x0cOSLO\xff\xff\xfe\x00\x01\x11\x70\x99\x99\x99\x99\x99\x99\x99\x99\x99\x99\x99\x99\x99\x99\x99\x9c\x00\x00\x00\x00\x00\x00\x01\x02";

/// What a list comes to.
pub(crate) fn answer(alloc: Global, input: &str) -> Result<Vec<u8>, CaseFault> {
    let (word, rest) = input.split_once(' ').ok_or(CaseFault::Malformed)?;
    match word {
        "list" => listed(alloc, &bytes_of(alloc, rest)?),
        "try" => {
            let (list, segment) = rest.split_once(' ').ok_or(CaseFault::Malformed)?;
            tried(alloc, &bytes_of(alloc, list)?, &segment_of(alloc, segment)?)
        }
        _ => Err(CaseFault::Malformed),
    }
}

// The list that bytes are. No test has bytes whose places don't fit.
fn list_of(alloc: Global, bytes: &[u8]) -> Result<List<Fsa>, FsaFault>
    ensures { IfOk result (λ fsas. AllByRecursion IsShort fsas) }
{
    if bytes.len() > LONGEST {
        return Err(FsaFault::Memory);
    }
    read_list(alloc, bytes)
}

// The arguments that bytes are, once they are the same bytes when written.
fn listed(alloc: Global, bytes: &[u8]) -> Result<Vec<u8>, CaseFault> {
    match list_of(alloc, bytes) {
        Ok(fsas) => {
            let again = write_list(alloc, &fsas)?;
            if again.as_slice() == bytes {
                Ok(text_of(alloc, fsas.as_slice())?)
            } else {
                Ok(Vec::from_slice(alloc, b"written otherwise")?)
            }
        }
        Err(FsaFault::Short(place)) => Ok(format!(in alloc; "short {place}")?.into_bytes()),
        Err(FsaFault::BadConnector(place)) => {
            Ok(format!(in alloc; "connector {place}")?.into_bytes())
        }
        Err(FsaFault::Memory) => Err(CaseFault::Memory),
    }
}

// The parts of arguments.
fn text_of(alloc: Global, fsas: &[Fsa]) -> Result<Vec<u8>, AllocError> {
    let mut text = Vec::new(alloc);
    for (place, fsa) in fsas.iter().enumerate() {
        if place > 0 {
            text.extend_from_slice(b" / ")?;
        }
        put_bytes(alloc, &mut text, &fsa.field.0)?;
        text.push(b' ')?;
        put_bytes(alloc, &mut text, &[fsa.status])?;
        text.push(b' ')?;
        put_bytes(alloc, &mut text, &[fsa.op])?;
        text.push(b' ')?;
        put_bytes(alloc, &mut text, fsa.operand.as_slice())?;
    }
    Ok(text)
}

// The database of the segments.
fn accounts(alloc: Global) -> Result<MsdbDef, AllocError>
    ensures stand { IfOk result (λ def. StandFrom 0 def.fields def.length) }
    ensures length { IfOk result (λ def. def.length ≡ 43) }
{
    Ok(MsdbDef {
        name: Name(*b"ACCTS   "),
        dynamic: false,
        fields: List::from_vec(Vec::from_slice(alloc, &FIELDS)?),
        length: 43,
        load: List::new(alloc),
    })
}

// The segment that a text names.
fn segment_of(alloc: Global, text: &str) -> Result<Vec<u8>, CaseFault> {
    match text {
        "usual" => Ok(Vec::from_slice(alloc, &USUAL)?),
        _ => bytes_of(alloc, text),
    }
}

// The letters that a list is answered, and the segment behind it.
fn tried(alloc: Global, list: &[u8], segment: &[u8]) -> Result<Vec<u8>, CaseFault> {
    if segment.len() != LENGTH {
        return Err(CaseFault::Malformed);
    }
    let mut fsas = match list_of(alloc, list) {
        Ok(fsas) => fsas,
        Err(FsaFault::Memory) => return Err(CaseFault::Memory),
        Err(_) => return Err(CaseFault::Malformed),
    };
    let def = accounts(alloc)?;
    let mut changed = Vec::from_slice(alloc, segment)?;
    let is_good = try_fsas(&def, &mut fsas, &mut changed);
    let mut text = letters_of(alloc, is_good, fsas.as_slice())?;
    if changed.as_slice() == segment {
        text.extend_from_slice(b" same")?;
    } else {
        text.push(b' ')?;
        put_bytes(alloc, &mut text, &changed)?;
    }
    Ok(text)
}

// Whether all is good, and the letters.
fn letters_of(alloc: Global, is_good: bool, fsas: &[Fsa]) -> Result<Vec<u8>, AllocError> {
    let mut letters = Vec::new(alloc);
    for fsa in fsas {
        letters.push(fsa.status)?;
    }
    let word: &[u8] = if is_good { b"good " } else { b"bad " };
    let mut text = Vec::from_slice(alloc, word)?;
    put_bytes(alloc, &mut text, &letters)?;
    Ok(text)
}
