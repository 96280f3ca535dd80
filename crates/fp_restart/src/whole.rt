//! The state of all databases, copied out of the parts that a restart gives.
ghost use Rattle.fp_model.specs.State.{anchors_in, formatted, start};
ghost use Rattle.fp_model.specs.SerialHistory.{IsSerialHistory};
ghost use Rattle.fp_model.specs.Product.{rules_of};
ghost use Rattle.fp_model.specs.declared.database.Db.{Db as DbOf};
ghost use Rattle.fp_model.specs.declared.log.Entry.{Entry};
ghost use Rattle.fp_model.specs.declared.scripts.Script.{Script};
ghost use Rattle.fp_restart.specs.declared.fault.RestartFault.TheVariants as faults;
ghost use Rattle.std.specs.Prelude.{◌≡◌, ◌++◌, ◌*◌, [], ℕ, IfOk, IsErrOf, List as ListOf, OnErr, OnOk, replicate};

use crate::RestartFault;
use crate::restarting::Parts;
use fp_model::{AreaDef, AreaEnds, Db, Dedb, DedbDef, Defs, List, Root};
use fp_site::Site;
use std::alloc::{AllocError, Global};

/// The state of all databases that the parts have: the segments of the store and, at this stage, data entry databases
/// as they were formatted. It fails only for want of memory. Nothing changes, and nothing of the site is read.
pub fn whole_db<T: Site>(
    alloc: Global,
    parts: &mut Parts,
    defs: &Defs,
    site: &mut T,
) -> Result<Db, RestartFault>
    ensures msdbs { IfOk result (λ db. db.msdbs ≡ parts.old.0.msdbs) }
    ensures dedbs { IfOk result (λ db. db.dedbs ≡ (start defs.now).dedbs) }

    // Where the store has the segments of the state that entries lead to, and no data entry databases are defined, it
    // is that state.
    ensures means { (scripts : ListOf Script) (format : ℕ) (entries : ListOf Entry) (last : DbOf)
        → defs.now.dedbs ≡ [] → IsSerialHistory (rules_of defs.now scripts) format entries last
        → parts.old.0.msdbs ≡ last.msdbs → IfOk result (λ db. db ≡ last) }
    ensures cause { OnErr result (IsErrOf result faults.Memory) }
    ensures parts { parts.new ≡ parts.old }
    ensures site { site.new ≡ site.old }
{
    let _ = &*site;
    let msdbs = parts.0.databases(alloc)?;
    let mut dedbs = List::new(alloc);
    for def in defs.dedbs.as_slice() {
        dedbs.push(formatted(alloc, def)?)?;
    }
    Ok(Db { msdbs, dedbs })
}

// A data entry database without roots and without sequential dependents.
fn formatted(alloc: Global, def: &DedbDef) -> Result<Dedb, AllocError>
    ensures { IfOk result (λ dedb. dedb ≡ formatted def.now) }
{
    let mut anchors = List::new(alloc);
    let mut areas = List::new(alloc);
    for area in def.areas.as_slice() {
        add_anchors(alloc, &mut anchors, area)?;
        areas.push(AreaEnds { begin: 1, end: 1 })?;
    }
    Ok(Dedb { anchors, areas })
}

// Puts the anchors of an area at the end, each without roots.
fn add_anchors(
    alloc: Global,
    anchors: &mut List<List<Root>>,
    area: &AreaDef,
) -> Result<(), AllocError>
    ensures { OnOk result (anchors.new ≡ anchors.old ++ replicate (anchors_in area.now) []) }
{
    let count = area.uows as u64 * area.base as u64;
    for _ in 0..count {
        anchors.push(List::new(alloc))?;
    }
    Ok(())
}
