//! The text of all databases.
ghost use Rattle.fp_show.specs.DbText.{db_text, dedb_text, each_text, msdb_text};
ghost use Rattle.std.specs.Prelude.{◌≡◌, ◌++◌, IfOk, OnOk};

use crate::dedb::put_dedb;
use crate::msdb::put_msdb;
use fp_model::{Bytes, Db, Dedb, DedbDef, Defs, Msdb, MsdbDef};
use std::alloc::{AllocError, Global};

/// Appends the lines of main storage databases.
fn put_msdbs(
    alloc: Global,
    into: &mut Bytes,
    defs: &[MsdbDef],
    msdbs: &[Msdb],
) -> Result<(), AllocError>
    ensures { OnOk result (into.new ≡ into.old ++ each_text msdb_text defs.now msdbs.now) }
{
    for at in 0..defs.len().min(msdbs.len()) {
        put_msdb(alloc, into, &defs[at], &msdbs[at])?;
    }
    Ok(())
}

/// Appends the lines of data entry databases.
fn put_dedbs(
    alloc: Global,
    into: &mut Bytes,
    defs: &[DedbDef],
    dedbs: &[Dedb],
) -> Result<(), AllocError>
    ensures { OnOk result (into.new ≡ into.old ++ each_text dedb_text defs.now dedbs.now) }
{
    for at in 0..defs.len().min(dedbs.len()) {
        put_dedb(alloc, into, &defs[at], &dedbs[at])?;
    }
    Ok(())
}

/// The text of all databases, line by line. Fails only for want of memory.
pub fn show_db(alloc: Global, db: &Db, defs: &Defs) -> Result<Bytes, AllocError>
    ensures { IfOk result (λ text. text ≡ db_text defs.now db.now) }
{
    let mut text = Bytes::new(alloc);
    put_msdbs(alloc, &mut text, defs.msdbs.as_slice(), db.msdbs.as_slice())?;
    put_dedbs(alloc, &mut text, defs.dedbs.as_slice(), db.dedbs.as_slice())?;
    Ok(text)
}
