//! What is staged of areas becomes pending, or is dropped.

ghost use Rattle.std.specs.Prelude.{◌≡◌, ◌-◌, ◌<◌, ◌^◌, ℕ, IsSome, List};
ghost use Rattle.fp_model.specs.declared.log.Entry.{Entry};
ghost use Rattle.ci_pool.specs.Held.{held_at, pending_at, IsClean};
ghost use Rattle.area_redo.specs.Redo.{AreaBytes, GrowByImages};
ghost use Rattle.area_redo.specs.Standing.{Way, BeginsSinceMark, behind};
ghost use Rattle.area_redo.specs.Steps.{longer, next_place};
ghost use Rattle.area_states.specs.Places.{layout_of};
ghost use Rattle.area_staging.specs.Changing.{AreStagedBy};
ghost use Rattle.dedb_area.specs.Appending.{IsPublished, StagedStand};
ghost use Rattle.area_staging.specs.Flags.{AreFlagged, AreNoted};
ghost use Rattle.dedb_area.specs.Dropping.{IsDropped};
ghost use Rattle.dedb_area.specs.Publishing.{ArePublished, IsFitStaged};
ghost use Rattle.dedb_area.specs.Standing.{AreasStand, Holding, IsFitPool, IsUnstaged};

use crate::Areas;
use area_staging::note_all;
use fp_model::{Item, List};
use fp_site::Site;

impl Areas {
    /// Publishes what is staged, of which these are the items, for the entry at a place: each staged interval is pending
    /// then, and has an item since the mark. Takes no memory.
    #[tactic(auto, using(crate::proofs::Published::fit_published))]
    pub fn publish(&mut self, items: &List<Item>, place: u64)
        requires { AreFlagged self.old.imaged items.now }

        ensures pending { ArePublished place self.old.pool self.new.pool }
        ensures imaged { AreNoted items.now self.old.imaged self.new.imaged }
        ensures unstaged { IsUnstaged self.new.pool }

        // What stays. What is at hand stays so: pending, or clean.
        ensures hand { (set ci : ℕ) → IsSome (held_at self.old.pool set ci) → IsSome (held_at self.new.pool set ci) }
        ensures clean { (contents : ℕ → List ℕ) → IsClean contents self.old.pool → IsClean contents self.new.pool }
        ensures fit { place < 2 ^ 64 - 1 → IsFitStaged self.old.places self.old.pool
            → IsFitPool self.new.places self.new.pool }
        ensures places { self.new.places ≡ self.old.places }
        ensures unsynced { self.new.unsynced ≡ self.old.unsynced }
    {
        self.pool.publish(place);
        note_all(&mut self.imaged, items.as_slice());
    }

    /// Drops what is staged. What is pending, what is clean and which intervals have an item stay. Takes no memory.
    #[tactic(auto, using(crate::proofs::Published::fit_dropped))]
    pub fn drop_staged(&mut self)
        ensures unstaged { IsUnstaged self.new.pool }

        // What stays.
        ensures pending { (set ci : ℕ) → pending_at self.new.pool set ci ≡ pending_at self.old.pool set ci }
        ensures list { self.new.pool.clean ≡ self.old.pool.clean }
        ensures fit { IsFitStaged self.old.places self.old.pool → IsFitPool self.new.places self.new.pool }
        ensures places { self.new.places ≡ self.old.places }
        ensures imaged { self.new.imaged ≡ self.old.imaged }
        ensures unsynced { self.new.unsynced ≡ self.old.unsynced }
    {
        self.pool.drop_staged();
    }
}

/// Areas with changes staged that are what an entry's items make of the newest bytes stand behind the entry, once these
/// are published for it. An interval that no entry named since the mark begins with an image, and so does one that is new
/// in its area.
pub fn a_publish_keeps_the_areas<S: Site>(site: &S)
    ensures { (way : Way) (bytes : AreaBytes) (before after : Holding) (e : Entry)
        → StagedStand way bytes (S.disk site.now) before
        → AreStagedBy e.items (behind way.unsealed bytes) before.pool
        → IsPublished (next_place way) e.items before after
        → BeginsSinceMark way e
        → GrowByImages (layout_of before.places) e.items (behind way.unsealed bytes)
        → next_place way < 2 ^ 64 - 1
        → AreasStand (longer way e) bytes (S.disk site.now) after }
{}

/// Areas with changes staged stand once these are dropped: `drop_staged` says that they are (`IsDropped`).
pub fn dropped_areas_stand<S: Site>(site: &S)
    ensures { (way : Way) (bytes : AreaBytes) (before after : Holding)
        → StagedStand way bytes (S.disk site.now) before
        → IsDropped before after
        → AreasStand way bytes (S.disk site.now) after }
{}
