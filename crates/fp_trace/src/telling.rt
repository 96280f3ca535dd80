//! Texts of calls, of their answers, of locks and of entries.
ghost use Rattle.std.specs.Prelude.{◌<◌, ◌^◌, length};

use fld_calls::{Fsa, read_list};
use fp_model::{Answer, Bytes, Call, Defs, Entry, Get, MsdbDef, Name, Resource, Ssa};
use fp_show::{put_entry_line, put_msdb_line};
use std::alloc::{AllocError, Global};

/// Appends bytes, with a period for each that isn't printable.
pub(crate) fn put_bytes(text: &mut String, bytes: &[u8]) -> Result<(), AllocError> {
    for byte in bytes {
        let printed = if (32..=126).contains(byte) {
            char::from(*byte)
        } else {
            '.'
        };
        text.push(printed)?;
    }
    Ok(())
}

/// Appends a name without the blanks behind it.
pub(crate) fn put_name(text: &mut String, name: &Name) -> Result<(), AllocError> {
    for byte in name.0 {
        if byte != b' ' {
            put_bytes(text, &[byte])?;
        }
    }
    Ok(())
}

// Appends a blank and bytes.
fn put_word(text: &mut String, bytes: &[u8]) -> Result<(), AllocError> {
    text.push(' ')?;
    put_bytes(text, bytes)
}

// The definition of a main storage database; none where there is no such number.
fn def_of(defs: &Defs, db: u8) -> Option<&MsdbDef> {
    let db = usize::from(db);
    if db < defs.msdbs.len() {
        Some(&defs.msdbs.as_slice()[db])
    } else {
        None
    }
}

// Appends a word, a blank and the name of a database.
fn put_head(text: &mut String, word: &str, defs: &Defs, db: u8) -> Result<(), AllocError> {
    text.push_str(word)?;
    text.push(' ')?;
    if let Some(def) = def_of(defs, db) {
        put_name(text, &def.name)?;
    }
    Ok(())
}

// The word of a get.
fn get_word(get: Get, hold: bool) -> &'static str {
    match (get, hold) {
        (Get::Unique, false) => "GU",
        (Get::Unique, true) => "GHU",
        (Get::Next, false) => "GN",
        (Get::Next, true) => "GHN",
        (Get::NextInParent, false) => "GNP",
        (Get::NextInParent, true) => "GHNP",
    }
}

// Appends a key as scripts have it.
fn put_key(text: &mut String, key: &[u8]) -> Result<(), AllocError> {
    text.push_str(" KEY(")?;
    put_bytes(text, key)?;
    text.push(')')
}

// Appends the keys of segment search arguments.
fn put_keys(text: &mut String, ssas: &[Ssa]) -> Result<(), AllocError> {
    for ssa in ssas {
        if let Some(key) = &ssa.key {
            put_key(text, key.as_slice())?;
        }
    }
    Ok(())
}

// Appends a field search argument.
fn put_fsa(text: &mut String, fsa: &Fsa) -> Result<(), AllocError> {
    text.push(' ')?;
    put_name(text, &fsa.field)?;
    put_word(text, &[fsa.op])?;
    put_word(text, fsa.operand.as_slice())
}

// Appends field search arguments; nothing where the bytes are no list of them.
fn put_fsas(alloc: Global, text: &mut String, bytes: &Bytes) -> Result<(), AllocError> {
    if bytes.len() >= 1 << 32 {
        return Ok(());
    }
    let Ok(fsas) = read_list(alloc, bytes.as_slice()) else {
        return Ok(());
    };
    for fsa in fsas.as_slice() {
        put_fsa(text, fsa)?;
    }
    Ok(())
}

// Appends the fields of a segment behind a blank.
fn put_segment(
    alloc: Global,
    text: &mut String,
    defs: &Defs,
    db: u8,
    segment: &Bytes,
) -> Result<(), AllocError> {
    let mut line = Bytes::new(alloc);
    if let Some(def) = def_of(defs, db) {
        put_msdb_line(alloc, &mut line, def, segment.as_slice())?;
    }
    put_word(text, line.as_slice().trim_ascii())
}

// Appends a call.
fn put_call(alloc: Global, text: &mut String, defs: &Defs, call: &Call) -> Result<(), AllocError> {
    match call {
        Call::Get {
            get,
            hold,
            db,
            ssas,
        } => {
            put_head(text, get_word(*get, *hold), defs, *db)?;
            put_keys(text, ssas.as_slice())
        }
        Call::Fld { db, key, fsas } => {
            put_head(text, "FLD", defs, *db)?;
            put_key(text, key.as_slice())?;
            put_fsas(alloc, text, fsas)
        }
        Call::Isrt { db, ssas: _, bytes } => {
            put_head(text, "ISRT", defs, *db)?;
            put_segment(alloc, text, defs, *db, bytes)
        }
        Call::Repl { db, bytes } => {
            put_head(text, "REPL", defs, *db)?;
            put_segment(alloc, text, defs, *db, bytes)
        }
        Call::Dlet { db } => put_head(text, "DLET", defs, *db),
    }
}

/// A call, as scripts have it, with its values.
pub(crate) fn call_text(alloc: Global, defs: &Defs, call: &Call) -> Result<String, AllocError> {
    let mut text = String::new(alloc);
    put_call(alloc, &mut text, defs, call)?;
    Ok(text)
}

// Appends a status, and the letters of a field call.
fn put_status(text: &mut String, answer: &Answer) -> Result<(), AllocError> {
    put_word(text, &answer.status)?;
    if !answer.letters.is_empty() {
        text.push(' ')?;
    }
    for letter in answer.letters.as_slice() {
        put_bytes(text, &[if *letter == b' ' { b'-' } else { *letter }])?;
    }
    Ok(())
}

// Appends a call and its answer.
fn put_answered(
    alloc: Global,
    text: &mut String,
    defs: &Defs,
    call: &Call,
    answer: &Answer,
) -> Result<(), AllocError> {
    put_call(alloc, text, defs, call)?;
    text.push_str(" ->")?;
    if answer.status != *b"  " {
        return put_status(text, answer);
    }
    match call {
        Call::Get { db, .. } => put_segment(alloc, text, defs, *db, &answer.bytes),
        _ => text.push_str(" good"),
    }
}

/// A call and its answer: the segment shown, or the status and the letters of a field call, a `-` for a good one.
pub(crate) fn answered_text(
    alloc: Global,
    defs: &Defs,
    call: &Call,
    answer: &Answer,
) -> Result<String, AllocError> {
    let mut text = String::new(alloc);
    put_answered(alloc, &mut text, defs, call, answer)?;
    Ok(text)
}

// Appends what a lock stands for.
fn put_resource(
    alloc: Global,
    text: &mut String,
    defs: &Defs,
    resource: &Resource,
) -> Result<(), AllocError> {
    match resource {
        Resource::Segment { msdb, key } => {
            if let Some(def) = def_of(defs, *msdb) {
                put_name(text, &def.name)?;
            }
            put_word(text, key.as_slice())
        }
        Resource::Anchor { dedb, anchor } => {
            text.push_str(&format!(in alloc; "database {dedb} anchor {anchor}")?)
        }
    }
}

/// What a lock stands for: a database and a key.
pub(crate) fn resource_text(
    alloc: Global,
    defs: &Defs,
    resource: &Resource,
) -> Result<String, AllocError> {
    let mut text = String::new(alloc);
    put_resource(alloc, &mut text, defs, resource)?;
    Ok(text)
}

// Appends what stands behind the first blank of a line.
fn put_behind(text: &mut String, line: &[u8]) -> Result<(), AllocError> {
    let mut behind = false;
    for byte in line {
        if behind {
            put_bytes(text, &[*byte])?;
        }
        behind = behind || *byte == b' ';
    }
    Ok(())
}

/// An entry, as the text of the log has it behind its place.
pub(crate) fn entry_text(alloc: Global, place: u64, entry: &Entry) -> Result<String, AllocError> {
    let mut line = Bytes::new(alloc);
    put_entry_line(alloc, &mut line, place, entry)?;
    let mut text = String::new(alloc);
    put_behind(&mut text, line.as_slice().trim_ascii_end())?;
    Ok(text)
}
