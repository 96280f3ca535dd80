//! The data entry databases at the present place.
ghost use Rattle.fp_model.specs.Commit.{first_full, purged, with_anchors, with_inserts};
ghost use Rattle.fp_model.specs.State.{areas_of, first_area_set, formatted, roots_at};
ghost use Rattle.fp_model.specs.WellFormed.{AreDefs};
ghost use Rattle.fp_model.specs.declared.database.Msdb.{Msdb as MsdbOf};
ghost use Rattle.fp_model.specs.declared.definitions.Defs.{Defs as DefsOf};
ghost use Rattle.past_anchors.specs.Databases.{AreDedbsOf, FitsAnchor, FitsCommit, HasRoom, state_of};
ghost use Rattle.past_anchors.specs.Fullness.{full_as};
ghost use Rattle.std.specs.Prelude.{◌≡◌, IfOk, List as ListOf, OnOk, Some, None, false, if◌then◌else◌, map, option_map};

use crate::area::area_of_set;
use crate::changing::change_anchors;
use crate::full::{Full, first_full};
use crate::numbering::insert_all;
use crate::purging::purge_area;
use crate::roots::roots_at;
use crate::start::formatted;
use fp_model::{AnchorChange, Dedb, Defs, List, Root, SeqInsert};
use std::alloc::{AllocError, Global};
use std::marker::Model;

/// The data entry databases at the present place, each with the roots of its anchors and the ends of its areas.
#[derive(Drop)]
pub struct Anchors {
    dedbs: List<Dedb>,
}

impl Model for Anchors {
    ghost use Rattle.std.specs.Coded.{codes};
    ghost use Rattle.std.specs.Prelude.{List as ListOf};
    ghost use Rattle.fp_model.specs.contracts.database.Node as node;
    ghost use Rattle.fp_model.specs.declared.database.Dedb.{Dedb};

    ghost Value = { ListOf Dedb };

    ghost coded = { Prim.hlevel (codes, node.the_row.coded) };

    ghost view = { λ it. it.dedbs };
}

impl Anchors {
    /// As before any transaction: no roots, and no sequential dependents. It fails only for want of memory.
    pub fn new(alloc: Global, defs: &Defs) -> Result<Anchors, AllocError>
        ensures formatted { IfOk result (λ anchors. anchors ≡ map formatted defs.now.dedbs) }
        ensures shape { IfOk result (AreDedbsOf defs.now) }
    {
        let mut dedbs = List::new(alloc);
        for def in defs.dedbs.as_slice() {
            dedbs.push(formatted(alloc, def)?)?;
        }
        Ok(Anchors { dedbs })
    }

    /// The roots of an anchor; none where there is no such anchor.
    pub fn roots(&self, dedb: u8, anchor: u32) -> &[Root]
        ensures { (msdbs : ListOf MsdbOf) → result.now ≡ roots_at (state_of msdbs self.now) dedb anchor }
    {
        roots_at(self.dedbs.as_slice(), dedb, anchor)
    }

    /// A copy of the roots of an anchor, for a transaction that locks it. It fails only for want of memory.
    pub fn copy_roots(&self, dedb: u8, anchor: u32) -> Result<List<Root>, AllocError>
        ensures copy { (msdbs : ListOf MsdbOf)
            → IfOk result (λ roots. roots ≡ roots_at (state_of msdbs self.now) dedb anchor) }
        ensures shape { (defs : DefsOf) → AreDedbsOf defs self.now → IfOk result (FitsAnchor defs dedb anchor) }
    {
        let mut copies = self.dedbs.empty_like();
        for root in self.roots(dedb, anchor) {
            copies.push(root.copy()?)?;
        }
        Ok(copies)
    }

    /// The first area, in order of definition, that takes some of these sequential inserts and is too full for those
    /// that it takes. `None` exactly where there is none. Takes no memory.
    ///
    /// Condition: definitions that were read.
    pub fn first_full(&self, defs: &Defs, inserts: &[SeqInsert]) -> Option<Full>
        requires { AreDefs defs.now }
        ensures { (msdbs : ListOf MsdbOf) → option_map full_as result
            ≡ first_full (state_of msdbs self.now) inserts.now first_area_set (areas_of defs.now) }
    {
        first_full(self.dedbs.as_slice(), defs.dedbs.as_slice(), inserts)
    }

    /// Commits a transaction: the changed anchors get their roots, and then each sequential insert, in call order, gets
    /// the serial at the end of its area and stands in front of the dependents of its root; the end moves on. It fails
    /// only for want of memory, and then the databases mean nothing.
    ///
    /// Condition: definitions that were read, databases in shape, changes that fit them, and no area too full.
    pub fn commit(
        &mut self,
        defs: &Defs,
        changes: List<AnchorChange>,
        inserts: List<SeqInsert>,
    ) -> Result<(), AllocError>
        requires good { AreDefs defs.now }
        requires shape { AreDedbsOf defs.now self.old }
        requires fits { FitsCommit defs.now self.old changes inserts }
        requires room { HasRoom defs.now self.old inserts }

        ensures committed { (msdbs : ListOf MsdbOf)
            → OnOk result (with_inserts defs.now inserts (with_anchors changes (state_of msdbs self.old))
            ≡ state_of msdbs self.new) }

        // The next transaction may be committed.
        ensures shape { OnOk result (AreDedbsOf defs.now self.new) }
    {
        change_anchors(&mut self.dedbs, changes);
        insert_all(&mut self.dedbs, defs, inserts)
    }

    /// Purges a data set: its area's sequential part begins n serials later, at most at its end, and older sequential
    /// dependents leave their roots. False exactly where the data set isn't an area with a sequential part, and then
    /// nothing changes. Takes no memory; it passes the roots of the area.
    ///
    /// Condition: definitions that were read, and databases in shape.
    pub fn purge(&mut self, defs: &Defs, set: u16, n: u64) -> bool
        requires good { AreDefs defs.now }
        requires shape { AreDedbsOf defs.now self.old }

        ensures purged { (msdbs : ListOf MsdbOf) → purged defs.now set n (state_of msdbs self.old)
            ≡ (if result then Some (state_of msdbs self.new) else None) }
        ensures none { result ≡ false → self.new ≡ self.old }

        // The next transaction may be committed.
        ensures shape { AreDedbsOf defs.now self.new }
    {
        let Some(area) = area_of_set(defs, set) else {
            return false;
        };
        if area.def.capacity == 0 {
            return false;
        }
        purge_area(&mut self.dedbs, &area, n);
        true
    }
}
