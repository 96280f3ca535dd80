//! The lines of a main storage database.
ghost use Rattle.fp_show.specs.DbText.{msdb_head, msdb_line, msdb_text};
ghost use Rattle.std.specs.Prelude.{◌≡◌, ◌++◌, OnErr, OnOk};

use crate::field::{put_fields, without_blanks};
use fp_model::{Bytes, Msdb, MsdbDef};
use std::alloc::{AllocError, Global};

/// Appends the line of a main storage database: its name, and how many segments it has. After want of memory the text
/// is as before.
#[tactic(auto, using(std::proofs::Common::append_assoc))]
pub fn put_msdb_head(
    alloc: Global,
    into: &mut Bytes,
    def: &MsdbDef,
    segments: u64,
) -> Result<(), AllocError>
    ensures ok { OnOk result (into.new ≡ into.old ++ msdb_head def.now segments) }
    ensures err { OnErr result (into.new ≡ into.old) }
{
    let count = format!(in alloc; " {segments}\n")?;
    let mut line = Bytes::from_slice(alloc, b"msdb ")?;
    line.append(without_blanks(&def.name.0))?;
    line.append(count.as_bytes())?;
    into.append(line.as_slice())
}

/// Appends the line of a segment of a main storage database. After want of memory the text is as before.
pub fn put_msdb_line(
    alloc: Global,
    into: &mut Bytes,
    def: &MsdbDef,
    segment: &[u8],
) -> Result<(), AllocError>
    ensures ok { OnOk result (into.new ≡ into.old ++ msdb_line def.now segment.now) }
    ensures err { OnErr result (into.new ≡ into.old) }
{
    let mut line = Bytes::from_slice(alloc, b"  ")?;
    put_fields(alloc, &mut line, def.fields.as_slice(), segment)?;
    line.push(b'\n')?;
    into.append(line.as_slice())
}

/// Appends the lines of a main storage database.
pub(crate) fn put_msdb(
    alloc: Global,
    into: &mut Bytes,
    def: &MsdbDef,
    msdb: &Msdb,
) -> Result<(), AllocError>
    ensures { OnOk result (into.new ≡ into.old ++ msdb_text def.now msdb.now) }
{
    put_msdb_head(alloc, into, def, msdb.segments.len() as u64)?;
    for segment in msdb.segments.as_slice() {
        put_msdb_line(alloc, into, def, segment.as_slice())?;
    }
    Ok(())
}
