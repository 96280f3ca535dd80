//! Sequential inserts, each numbered at the end of its area.
ghost use Rattle.fp_model.specs.Commit.{with_insert, with_inserts};
ghost use Rattle.fp_model.specs.Order.{root_key};
ghost use Rattle.fp_model.specs.State.{ascend};
ghost use Rattle.fp_model.specs.WellFormed.{AreDefs};
ghost use Rattle.fp_model.specs.declared.database.AreaEnds.{AreaEnds as EndsOf};
ghost use Rattle.fp_model.specs.declared.database.Msdb.{Msdb as MsdbOf};
ghost use Rattle.fp_model.specs.declared.database.Root.{Root as RootOf};
ghost use Rattle.past_anchors.specs.Databases.{AreDedbsOf, HasRoom, state_of};
ghost use Rattle.past_anchors.specs.inside.Inserts.{one_later, with_numbered};
ghost use Rattle.state_laws.specs.Parts.{FitsSeqInsert};
ghost use Rattle.std.specs.List.{AllByRecursion};
ghost use Rattle.std.specs.Prelude.{◌≡◌, ◌<◌, ◌^◌, List as ListOf, OnOk, Some, length, map, slice_get, true};

use crate::area::area_with;
use crate::roots::put_newest;
use fp_model::{AreaEnds, Dedb, DedbDef, Defs, List, SeqInsert, SeqItem};
use std::alloc::AllocError;

/// Takes the serial at the end, which moves on.
fn next_serial(ends: &mut AreaEnds) -> u64
    requires { ends.old.end < 2 ^ 63 }
    ensures serial { result ≡ ends.old.end }
    ensures ends { ends.new ≡ one_later ends.old }
{
    let serial = ends.end;
    ends.end += 1;
    serial
}

/// Makes a sequential insert in its database, in the area of a number. It fails only for want of memory.
fn insert_in(
    dedb: &mut Dedb,
    def: &DedbDef,
    number: u8,
    insert: SeqInsert,
) -> Result<(), AllocError>
    requires number { number < length dedb.old.areas }
    requires anchor { insert.anchor < length dedb.old.anchors }
    requires last { (ends : EndsOf) → slice_get dedb.old.areas number ≡ Some ends → ends.end < 2 ^ 63 }
    requires order { (roots : ListOf RootOf) → slice_get dedb.old.anchors insert.anchor ≡ Some roots
        → ascend (map (root_key def.now.segments) roots) ≡ true }
    ensures { (ends : EndsOf) (roots : ListOf RootOf) → slice_get dedb.old.areas number ≡ Some ends
        → slice_get dedb.old.anchors insert.anchor ≡ Some roots
        → OnOk result (dedb.new ≡ with_numbered def.now.segments number insert ends roots dedb.old) }
{
    let serial = next_serial(dedb.areas.item_mut(usize::from(number)));
    let item = SeqItem {
        serial,
        bytes: insert.bytes,
    };
    let roots = dedb.anchors.item_mut(insert.anchor as usize);
    put_newest(roots, def.segments.as_slice(), insert.key.as_slice(), item)
}

/// Makes a sequential insert. It fails only for want of memory.
fn insert(dedbs: &mut List<Dedb>, defs: &Defs, insert: SeqInsert) -> Result<(), AllocError>
    requires good { AreDefs defs.now }
    requires shape { AreDedbsOf defs.now dedbs.old }
    ensures { (msdbs : ListOf MsdbOf) → OnOk result (with_insert defs.now (state_of msdbs dedbs.old) insert
        ≡ state_of msdbs dedbs.new) }
{
    let at = usize::from(insert.dedb);
    if at >= defs.dedbs.len() {
        return Ok(());
    }
    let def = &defs.dedbs.as_slice()[at];
    match area_with(insert.dedb, def.areas.as_slice(), insert.anchor) {
        Some(area) => insert_in(dedbs.item_mut(at), def, area.number, insert),
        None => Ok(()),
    }
}

/// Makes sequential inserts, one after another. It fails only for want of memory.
pub(crate) fn insert_all(
    dedbs: &mut List<Dedb>,
    defs: &Defs,
    inserts: List<SeqInsert>,
) -> Result<(), AllocError>
    requires good { AreDefs defs.now }
    requires shape { AreDedbsOf defs.now dedbs.old }
    requires fits { AllByRecursion (FitsSeqInsert defs.now) inserts }
    requires room { HasRoom defs.now dedbs.old inserts }
    ensures inserted { (msdbs : ListOf MsdbOf)
        → OnOk result (with_inserts defs.now inserts (state_of msdbs dedbs.old) ≡ state_of msdbs dedbs.new) }
    ensures shape { OnOk result (AreDedbsOf defs.now dedbs.new) }
{
    for one in inserts.into_vec() {
        insert(dedbs, defs, one)?;
    }
    Ok(())
}
