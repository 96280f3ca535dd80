//! The two data sets of checkpoints in turn.
ghost use Rattle.balancing.specs.Numbered.{Numbered};
ghost use Rattle.checkpoint_format.specs.Given.{terminals_of};
ghost use Rattle.fp_model.specs.CheckpointText.{AreLasts};
ghost use Rattle.fp_site.specs.Disk.{Disk, IsDurable, Settles};
ghost use Rattle.fp_site.specs.Moments.{OnlyOn, Through};
ghost use Rattle.fp_lists.specs.Continued.{IsContinued};
ghost use Rattle.fp_lists.specs.Faults.{Counts};
ghost use Rattle.gated_write.specs.Gates.{ReadsOnly};
ghost use Rattle.msdb_checkpoint.specs.Given.{body_with};
ghost use Rattle.msdb_checkpoint.specs.Steps.{GoesOn, IsNoLonger, IsOldClosedOrWhole, IsSure, IsSureNow, OnlyStage, StandsOn, Turn, WritesPiece, other_set, turns_left};
ghost use Rattle.msdb_checkpoint.specs.declared.fault.CkptFault.TheVariants as faults;
ghost use Rattle.msdb_checkpoint.specs.declared.stages.Stage.TheVariants as stages;
ghost use Rattle.msdb_checkpoint.specs.declared.stages.UnderWay.{UnderWay as UnderWayOf};
ghost use Rattle.msdb_store.specs.Store.{IsOf};
ghost use Rattle.std.specs.List.{AllByRecursion};
ghost use Rattle.std.specs.Option.{option_copied, option_map_or};
ghost use Rattle.std.specs.Prelude.{◌≡◌, ◌⊎◌, ◌+◌, ◌-◌, ◌<◌, ◌≤◌, ◌^◌, ℕ, None, Some, IfOk, IsErrOf, IsOk, List as ListOf, OnErr, OnOk, false, length, true};

use crate::CkptFault;
use crate::stages::{Stage, UnderWay, advance, run};
use balancing::Lasts;
use checkpoint_format::{Loaded, Place, body};
use fp_model::Defs;
use fp_site::Site;
use msdb_store::MsdbStore;
use std::alloc::{AllocError, Global};
use std::marker::Model;

/// The data sets of checkpoints: which has the newest sure one, and what is under way in the other.
#[derive(Drop)]
pub struct Checkpoints {
    set: u16,
    number: u64,
    under_way: Option<UnderWay>,
}

impl Model for Checkpoints {
    ghost use Rattle.msdb_checkpoint.specs.Steps.{FitsUnderWay, Turn};
    ghost use Rattle.std.specs.Prelude.{◌≡◌, ◌⊎◌};

    ghost Value = { Turn };

    ghost view = { λ c. record { set = c.set; number = c.number; under_way = c.under_way } };

    ghost invariant = { λ c. ((c.set ≡ 1) ⊎ (c.set ≡ 2)) × FitsUnderWay c.under_way };
}

impl Checkpoints {
    /// With the newest sure checkpoint, if there is one, in this data set; 2 where there is none.
    pub fn open(newest: Option<&Loaded>, slot: u16) -> Checkpoints
        requires { (slot ≡ 1) ⊎ (slot ≡ 2) }
        ensures set { result.set ≡ slot }
        ensures number { result.number ≡ option_map_or (λ loaded. loaded.number) (option_copied newest.entry) 0 }
        ensures none { result.under_way ≡ None }
    {
        let number = match newest {
            Some(loaded) => loaded.number,
            None => 0,
        };
        Checkpoints {
            set: slot,
            number,
            under_way: None,
        }
    }

    /// Whether a checkpoint is under way.
    pub fn is_under_way(&self) -> bool
        ensures none { result ≡ false → self.now.under_way ≡ None }
        ensures some { result ≡ true → (u : UnderWayOf) × (self.now.under_way ≡ Some u) }
    {
        self.under_way.is_some()
    }

    /// Begins a checkpoint of these databases, as they are at a gate of the log with so many entries before it: in
    /// format 2 with the last number of each terminal, in format 1 without. Its number is one more than that of the
    /// newest sure one. What was under way is given up. It fails for want of memory, and where the number or the bytes
    /// would be too great.
    pub fn begin(
        &mut self,
        alloc: Global,
        defs: &Defs,
        at: u64,
        count: u64,
        msdbs: &MsdbStore,
        lasts: Option<&Lasts>,
    ) -> Result<(), AllocError>
        requires place { at ≤ 2 ^ 62 }
        requires entries { count ≤ at }
        requires of { IsOf defs.now.msdbs msdbs.now }
        requires few { length defs.now.msdbs < 2 ^ 8 }
        requires segments { AllByRecursion (λ msdb. length msdb.segments < 2 ^ 32) msdbs.now.msdbs }
        requires terminals { AreLasts (terminals_of (option_copied lasts)) }

        // Its bytes are those of a checkpoint of just these.
        ensures begun { OnOk result (self.new.under_way ≡ Some (record {
          number = self.old.number + 1;
          body = body_with defs.now.msdbs (self.old.number + 1) at count msdbs.now.msdbs
              (option_copied lasts.entry);
          stage = stages.Begun;
        })) }

        // The newest sure one stays.
        ensures set { self.new.set ≡ self.old.set }
        ensures number { self.new.number ≡ self.old.number }
        ensures err { OnErr result (self.new ≡ self.old) }
    {
        if self.number == u64::MAX {
            return Err(AllocError);
        }
        let place = Place {
            number: self.number + 1,
            at,
            count,
        };
        let body = body(alloc, defs, &place, msdbs, lasts)?;
        if body.len() as u64 >= 1 << 62 {
            return Err(AllocError);
        }
        self.under_way = Some(UnderWay {
            number: place.number,
            body,
            stage: Stage::Begun,
        });
        Ok(())
    }

    /// Gives up what is under way.
    pub fn forget(&mut self)
        ensures { self.new ≡ record { set = self.old.set; number = self.old.number; under_way = None } }
    {
        self.under_way = None;
    }

    /// Does the next step of what is under way, and answers whether that is the newest sure checkpoint now. Where none
    /// is under way it does nothing. After a fault none is. It takes no memory, and gives only `Failed`.
    pub fn step<S: Site>(&mut self, site: &mut S) -> Result<bool, CkptFault>
        ensures goes { S.told site.old → GoesOn self.old (S.disk site.old)
            → IfOk result (λ sure. sure ≡ false → StandsOn self.new (S.disk site.new)) }
        ensures sure { S.told site.old → GoesOn self.old (S.disk site.old)
            → IfOk result (λ sure. sure ≡ true → IsSureNow self.old self.new (S.disk site.new)) }
        ensures set { IfOk result (λ sure. sure ≡ false → (self.new.set ≡ self.old.set)
            × (self.new.number ≡ self.old.number)) }
        // What is under way is the same checkpoint, at a further stage, until it is sure.
        ensures same { (u : UnderWayOf) → self.old.under_way ≡ Some u → IfOk result (λ sure. sure ≡ false
            → OnlyStage u self.new.under_way) }

        // A step of the body writes its next 65,536 bytes, or those that are left.
        ensures piece { (u : UnderWayOf) (count : ℕ) → S.told site.old → self.old.under_way ≡ Some u
            → u.stage ≡ stages.Written count → count < length u.body
            → OnOk result (WritesPiece u.body count (other_set self.old.set) (S.disk site.old) (S.disk site.new)) }

        // At Ok the data set is no longer than it was, or than the checkpoint is.
        ensures no_longer { (u : UnderWayOf) → S.told site.old → self.old.under_way ≡ Some u
            → OnOk result (IsNoLonger u.body (other_set self.old.set) (S.disk site.old) (S.disk site.new)) }

        // The steps that are left are fewer by one.
        ensures fewer { IfOk result (λ _. turns_left self.new.under_way ≡ turns_left self.old.under_way - 1) }
        ensures failed { OnErr result (self.new
            ≡ record { set = self.old.set; number = self.old.number; under_way = None }) }
        ensures cause { Counts (S.faults site.old) (S.faults site.new) result }
        ensures never { (IsErrOf result faults.Memory → ⊥) × ((set : ℕ) → IsErrOf result (faults.Damaged set) → ⊥) }
        ensures idle { self.old.under_way ≡ None → (site.new ≡ site.old) × IfOk result (λ sure. sure ≡ false)
            × IsOk result }

        // No other data set changes, nothing is sent, and no other is read.
        ensures only { S.told site.old → OnlyOn (other_set self.old.set) (S.disk site.old) (S.disk site.new) }
        ensures reads { ReadsOnly (other_set self.old.set) (S.tells_reads site.old) (S.tells_reads site.new)
            (S.bytes_read site.old) (S.bytes_read site.new) }
        ensures site { IsContinued S.told S.faults S.holds S.keeps site.old site.new }

        // At every moment the newest sure one is as it was,
        ensures newest { S.told site.old → IsDurable (S.disk site.old) self.old.set →
            Through (S.disk site.old) (S.disk site.new)
            (λ s. s.images self.old.set ≡ (S.disk site.old).contents self.old.set) }

        // and the other data set is as a sync might have left it, or closed, or has the new one whole.
        ensures crash { (u : UnderWayOf) → S.told site.old → self.old.under_way ≡ Some u
            → StandsOn self.old (S.disk site.old) →
            Through (S.disk site.old) (S.disk site.new) (λ s. IsOldClosedOrWhole (S.disk site.old)
            (other_set self.old.set) u.body (s.images (other_set self.old.set))) }

        // So does each image that a further sync may make of what a crash may leave now.
        ensures settles { (u : UnderWayOf) (image : ListOf ℕ) → S.told site.old → self.old.under_way ≡ Some u
            → StandsOn self.old (S.disk site.old)
            → Settles (S.disk site.new) (other_set self.old.set) image
            → IsOldClosedOrWhole (S.disk site.old) (other_set self.old.set) u.body image }
    {
        let Some(mut under_way) = self.under_way.take() else {
            return Ok(false);
        };
        let other = 3 - self.set;
        match advance(site, other, under_way.body.as_slice(), under_way.stage)? {
            Some(stage) => {
                under_way.stage = stage;
                self.under_way = Some(under_way);
                Ok(false)
            }
            None => {
                self.set = other;
                self.number = under_way.number;
                Ok(true)
            }
        }
    }

    /// Does all steps that are left of what is under way, which is the newest sure checkpoint then. Where none is under
    /// way it does nothing. After a fault none is. It takes no memory, and gives only `Failed`.
    pub fn finish<S: Site>(&mut self, site: &mut S) -> Result<(), CkptFault>
        ensures sure { (u : UnderWayOf) → S.told site.old → GoesOn self.old (S.disk site.old)
            → self.old.under_way ≡ Some u → OnOk result (IsSureNow self.old self.new (S.disk site.new)) }
        ensures turn { (u : UnderWayOf) → self.old.under_way ≡ Some u → OnOk result (self.new
            ≡ record { set = other_set self.old.set; number = u.number; under_way = None }) }

        // At Ok the data set is no longer than it was, or than the checkpoint is.
        ensures no_longer { (u : UnderWayOf) → S.told site.old → self.old.under_way ≡ Some u
            → OnOk result (IsNoLonger u.body (other_set self.old.set) (S.disk site.old) (S.disk site.new)) }

        ensures failed { OnErr result (self.new
            ≡ record { set = self.old.set; number = self.old.number; under_way = None }) }
        ensures cause { Counts (S.faults site.old) (S.faults site.new) result }
        ensures never { (IsErrOf result faults.Memory → ⊥) × ((set : ℕ) → IsErrOf result (faults.Damaged set) → ⊥) }
        ensures idle { self.old.under_way ≡ None → (site.new ≡ site.old) × IsOk result }

        // No other data set changes, nothing is sent, and no other is read.
        ensures only { S.told site.old → OnlyOn (other_set self.old.set) (S.disk site.old) (S.disk site.new) }
        ensures reads { ReadsOnly (other_set self.old.set) (S.tells_reads site.old) (S.tells_reads site.new)
            (S.bytes_read site.old) (S.bytes_read site.new) }
        ensures site { IsContinued S.told S.faults S.holds S.keeps site.old site.new }

        // At every moment the newest sure one is as it was,
        ensures newest { S.told site.old → IsDurable (S.disk site.old) self.old.set →
            Through (S.disk site.old) (S.disk site.new)
            (λ s. s.images self.old.set ≡ (S.disk site.old).contents self.old.set) }

        // and the other data set is as a sync might have left it, or closed, or has the new one whole.
        ensures crash { (u : UnderWayOf) → S.told site.old → self.old.under_way ≡ Some u
            → StandsOn self.old (S.disk site.old) →
            Through (S.disk site.old) (S.disk site.new) (λ s. IsOldClosedOrWhole (S.disk site.old)
            (other_set self.old.set) u.body (s.images (other_set self.old.set))) }
        ensures settles { (u : UnderWayOf) (image : ListOf ℕ) → S.told site.old → self.old.under_way ≡ Some u
            → StandsOn self.old (S.disk site.old) → Settles (S.disk site.new) (other_set self.old.set) image
            → IsOldClosedOrWhole (S.disk site.old) (other_set self.old.set) u.body image }
    {
        let Some(under_way) = self.under_way.take() else {
            return Ok(());
        };
        let other = 3 - self.set;
        run(site, other, under_way.body.as_slice(), under_way.stage)?;
        self.set = other;
        self.number = under_way.number;
        Ok(())
    }

    /// Writes a checkpoint of these databases to its end, as `begin` and all its steps do. After `Failed` the newest
    /// sure one stays, and nothing is under way.
    pub fn write<S: Site>(
        &mut self,
        alloc: Global,
        site: &mut S,
        defs: &Defs,
        at: u64,
        count: u64,
        msdbs: &MsdbStore,
        lasts: Option<&Lasts>,
    ) -> Result<(), CkptFault>
        requires place { at ≤ 2 ^ 62 }
        requires entries { count ≤ at }
        requires of { IsOf defs.now.msdbs msdbs.now }
        requires few { length defs.now.msdbs < 2 ^ 8 }
        requires segments { AllByRecursion (λ msdb. length msdb.segments < 2 ^ 32) msdbs.now.msdbs }
        requires terminals { AreLasts (terminals_of (option_copied lasts)) }

        // At Ok it is the newest sure one.
        ensures sure { S.told site.old → OnOk result (IsSure (body_with defs.now.msdbs (self.old.number + 1) at count
            msdbs.now.msdbs (option_copied lasts.entry)) (other_set self.old.set) (S.disk site.new)) }
        ensures turn { OnOk result (self.new
            ≡ record { set = other_set self.old.set; number = self.old.number + 1; under_way = None }) }

        // At Ok the data set is no longer than it was, or than the checkpoint is.
        ensures no_longer { S.told site.old → OnOk result (IsNoLonger (body_with defs.now.msdbs (self.old.number + 1)
            at count msdbs.now.msdbs (option_copied lasts.entry)) (other_set self.old.set) (S.disk site.old)
            (S.disk site.new)) }

        // After `Failed` the newest sure one stays; after want of memory all is as it was.
        ensures failed { IsErrOf result faults.Failed → self.new
            ≡ record { set = self.old.set; number = self.old.number; under_way = None } }
        ensures unchanged { IsErrOf result faults.Memory → self.new ≡ self.old }

        // `Failed` comes with a fault of the site, and each fault of it is told.
        ensures cause { IsErrOf result faults.Failed → (S.faults site.old < S.faults site.new)
            ⊎ (S.faults site.new ≡ 2 ^ 64 - 1) }
        ensures stayed { (IsErrOf result faults.Failed → ⊥) → S.faults site.new ≡ S.faults site.old }
        ensures never { (set : ℕ) → IsErrOf result (faults.Damaged set) → ⊥ }

        // Want of memory comes before the site is touched.
        ensures untouched { IsErrOf result faults.Memory → site.new ≡ site.old }
        ensures only { S.told site.old → OnlyOn (other_set self.old.set) (S.disk site.old) (S.disk site.new) }
        ensures reads { ReadsOnly (other_set self.old.set) (S.tells_reads site.old) (S.tells_reads site.new)
            (S.bytes_read site.old) (S.bytes_read site.new) }
        ensures site { IsContinued S.told S.faults S.holds S.keeps site.old site.new }

        // At every moment the newest sure one is as it was,
        ensures newest { S.told site.old → IsDurable (S.disk site.old) self.old.set →
            Through (S.disk site.old) (S.disk site.new)
            (λ s. s.images self.old.set ≡ (S.disk site.old).contents self.old.set) }

        // and the other data set is as a sync might have left it, or closed, or has the new one whole.
        ensures crash { S.told site.old → 0 < length ((S.disk site.old).contents (other_set self.old.set)) →
            Through (S.disk site.old) (S.disk site.new) (λ s. IsOldClosedOrWhole (S.disk site.old)
            (other_set self.old.set) (body_with defs.now.msdbs (self.old.number + 1) at count msdbs.now.msdbs
            (option_copied lasts.entry)) (s.images (other_set self.old.set))) }
        ensures settles { (image : ListOf ℕ) → S.told site.old
            → 0 < length ((S.disk site.old).contents (other_set self.old.set))
            → Settles (S.disk site.new) (other_set self.old.set) image
            → IsOldClosedOrWhole (S.disk site.old) (other_set self.old.set) (body_with defs.now.msdbs
            (self.old.number + 1) at count msdbs.now.msdbs (option_copied lasts.entry)) image }
    {
        self.begin(alloc, defs, at, count, msdbs, lasts)?;
        self.finish(site)
    }
}
