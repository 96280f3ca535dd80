//! The steps of a run keep where the areas stand, and that a checkpoint under way may open.
ghost use Rattle.std.specs.Prelude.{◌≡◌, ℕ, ◌*◌, ◌≤◌, List, length, take};
ghost use Rattle.fp_site.specs.Disk.{Broken, IsLawful, Stays, written};
ghost use Rattle.fp_site.specs.Moments.{OnlyOn, OnlyIn};
ghost use Rattle.fp_model.specs.declared.log.Entry.{Entry};
ghost use Rattle.fp_model.specs.Items.{items_of};
ghost use Rattle.area_redo.specs.Redo.{AreaBytes, Layout, count_in, GrowByImages, RedoesThrough};
ghost use Rattle.area_redo.specs.Standing.{behind, Way, since_mark, Owed, with_entry, without, Stands, MayOpen, MayBeWritten, BeginsSinceMark};
ghost use Rattle.area_redo.specs.Steps.{next_place, longer, with_sealed, WritesInterval, SyncsSet, SparesAreas, SendsText};

use fp_site::Site;

/// An entry is appended, not sealed yet: what it changes is owed, and the areas behind the sealed entries stand.
pub fn an_entry_is_appended<S: Site>(site: &S)
    ensures stands { (layout : Layout) (way : Way) (owed : Owed) (bytes : AreaBytes) (e : Entry)
        → Stands layout way owed bytes (S.disk site.now)
        → BeginsSinceMark way e
        → GrowByImages layout e.items (behind way.unsealed bytes)
        → Stands layout (longer way e) (with_entry (next_place way) e owed) bytes (S.disk site.now) }
    ensures opening { (layout : Layout) (way : Way) (owed : Owed) (bytes : AreaBytes) (e : Entry)
        → Stands layout way owed bytes (S.disk site.now)
        → MayOpen layout way owed bytes (S.disk site.now)
        → MayOpen layout (longer way e) (with_entry (next_place way) e owed) bytes (S.disk site.now) }
{}

/// The oldest unsealed entries are sealed: the areas are now those behind them too, and what is owed stays. The newest
/// bytes, behind all entries, are the same.
pub fn entries_are_sealed<S: Site>(site: &S)
    ensures stands { (layout : Layout) (way : Way) (owed : Owed) (bytes : AreaBytes) (n : ℕ)
        → Stands layout way owed bytes (S.disk site.now)
        → Stands layout (with_sealed n way) owed (behind (take n way.unsealed) bytes) (S.disk site.now) }
    ensures opening { (layout : Layout) (way : Way) (owed : Owed) (bytes : AreaBytes) (n : ℕ)
        → Stands layout way owed bytes (S.disk site.now)
        → MayOpen layout way owed bytes (S.disk site.now)
        → MayOpen layout (with_sealed n way) owed (behind (take n way.unsealed) bytes) (S.disk site.now) }
    ensures newest { (way : Way) (bytes : AreaBytes) (n : ℕ)
        → behind (with_sealed n way).unsealed (behind (take n way.unsealed) bytes) ≡ behind way.unsealed bytes }
{}

/// An interval that waits, and that no unsealed entry changes, is written in place. Whenever a crash comes, and however
/// it tears the write, the items of the tail make the areas' bytes of what it leaves; and where a checkpoint may open,
/// so do the items since its mark.
pub fn a_write_may_be_torn<S: Site>(before: &S, after: &S)
    ensures moments { (layout : Layout) (way : Way) (owed : Owed) (bytes : AreaBytes) (set ci : ℕ)
        → Stands layout way owed bytes (S.disk before.now)
        → MayBeWritten way owed set ci
        → WritesInterval layout set ci (S.disk before.now) (S.disk after.now)
        → RedoesThrough layout (items_of way.tail) bytes (S.disk before.now) (S.disk after.now) }
    ensures opening { (layout : Layout) (way : Way) (owed : Owed) (bytes : AreaBytes) (set ci : ℕ)
        → Stands layout way owed bytes (S.disk before.now)
        → MayOpen layout way owed bytes (S.disk before.now)
        → MayBeWritten way owed set ci
        → WritesInterval layout set ci (S.disk before.now) (S.disk after.now)
        → RedoesThrough layout (items_of (since_mark way)) bytes (S.disk before.now) (S.disk after.now) }
{}

/// Once the newest bytes of such an interval are written whole, it owes nothing.
pub fn a_written_interval_owes_nothing<S: Site>(before: &S, after: &S)
    ensures stands { (layout : Layout) (way : Way) (owed : Owed) (bytes : AreaBytes) (set ci : ℕ) (newest : List ℕ)
        → Stands layout way owed bytes (S.disk before.now)
        → MayBeWritten way owed set ci
        → WritesInterval layout set ci (S.disk before.now) (S.disk after.now)
        → 1 ≤ layout.size set
        → length newest ≡ layout.size set
        → newest ≡ behind way.unsealed bytes set ci
        → (S.disk after.now).contents set
        ≡ written ((S.disk before.now).contents set) (ci * layout.size set) newest
        → Stands layout way (without set ci owed) bytes (S.disk after.now) }
    ensures opening { (layout : Layout) (way : Way) (owed : Owed) (bytes : AreaBytes) (set ci : ℕ)
        → Stands layout way owed bytes (S.disk before.now)
        → MayOpen layout way owed bytes (S.disk before.now)
        → MayBeWritten way owed set ci
        → WritesInterval layout set ci (S.disk before.now) (S.disk after.now)
        → MayOpen layout way (without set ci owed) bytes (S.disk after.now) }
{}

/// After a write that failed, whatever it left in the interval, it owes what it owed.
pub fn a_failed_write_is_still_owed<S: Site>(before: &S, after: &S)
    ensures stands { (layout : Layout) (way : Way) (owed : Owed) (bytes : AreaBytes) (set ci : ℕ)
        → Stands layout way owed bytes (S.disk before.now)
        → MayBeWritten way owed set ci
        → WritesInterval layout set ci (S.disk before.now) (S.disk after.now)
        → Broken (ci * layout.size set) (layout.size set) ((S.disk before.now).contents set)
        ((S.disk after.now).contents set)
        → Stands layout way owed bytes (S.disk after.now) }
    ensures opening { (layout : Layout) (way : Way) (owed : Owed) (bytes : AreaBytes) (set ci : ℕ)
        → Stands layout way owed bytes (S.disk before.now)
        → MayOpen layout way owed bytes (S.disk before.now)
        → MayBeWritten way owed set ci
        → WritesInterval layout set ci (S.disk before.now) (S.disk after.now)
        → MayOpen layout way owed bytes (S.disk after.now) }
{}

/// A sync of any data set, whatever it answers, keeps all of it, at each of its moments.
pub fn a_sync_keeps_the_areas<S: Site>(before: &S, after: &S)
    ensures stands { (layout : Layout) (way : Way) (owed : Owed) (bytes : AreaBytes) (set : ℕ)
        → Stands layout way owed bytes (S.disk before.now)
        → SyncsSet set (S.disk before.now) (S.disk after.now)
        → Stands layout way owed bytes (S.disk after.now) }
    ensures moments { (layout : Layout) (way : Way) (owed : Owed) (bytes : AreaBytes) (set : ℕ)
        → Stands layout way owed bytes (S.disk before.now)
        → SyncsSet set (S.disk before.now) (S.disk after.now)
        → RedoesThrough layout (items_of way.tail) bytes (S.disk before.now) (S.disk after.now) }
    ensures opening { (layout : Layout) (way : Way) (owed : Owed) (bytes : AreaBytes) (set : ℕ)
        → Stands layout way owed bytes (S.disk before.now)
        → MayOpen layout way owed bytes (S.disk before.now)
        → SyncsSet set (S.disk before.now) (S.disk after.now)
        → MayOpen layout way owed bytes (S.disk after.now) }
    ensures opening_moments { (layout : Layout) (way : Way) (owed : Owed) (bytes : AreaBytes) (set : ℕ)
        → Stands layout way owed bytes (S.disk before.now)
        → MayOpen layout way owed bytes (S.disk before.now)
        → SyncsSet set (S.disk before.now) (S.disk after.now)
        → RedoesThrough layout (items_of (since_mark way)) bytes (S.disk before.now) (S.disk after.now) }
{}

/// Calls that spare the areas keep all of it, at each of their moments.
pub fn what_spares_the_areas_keeps_them<S: Site>(before: &S, after: &S)
    ensures stands { (layout : Layout) (way : Way) (owed : Owed) (bytes : AreaBytes)
        → Stands layout way owed bytes (S.disk before.now)
        → SparesAreas layout bytes (S.disk before.now) (S.disk after.now)
        → Stands layout way owed bytes (S.disk after.now) }
    ensures moments { (layout : Layout) (way : Way) (owed : Owed) (bytes : AreaBytes)
        → Stands layout way owed bytes (S.disk before.now)
        → SparesAreas layout bytes (S.disk before.now) (S.disk after.now)
        → RedoesThrough layout (items_of way.tail) bytes (S.disk before.now) (S.disk after.now) }
    ensures opening { (layout : Layout) (way : Way) (owed : Owed) (bytes : AreaBytes)
        → MayOpen layout way owed bytes (S.disk before.now)
        → SparesAreas layout bytes (S.disk before.now) (S.disk after.now)
        → MayOpen layout way owed bytes (S.disk after.now) }
    ensures opening_moments { (layout : Layout) (way : Way) (owed : Owed) (bytes : AreaBytes)
        → MayOpen layout way owed bytes (S.disk before.now)
        → SparesAreas layout bytes (S.disk before.now) (S.disk after.now)
        → RedoesThrough layout (items_of (since_mark way)) bytes (S.disk before.now) (S.disk after.now) }
{}

/// A call that changes nothing spares the areas; so do a send, calls on one data set that is no area, as the log and
/// the checkpoints are, and calls on several such data sets.
pub fn calls_that_spare_the_areas<S: Site>(before: &S, after: &S)
    ensures unchanged { (layout : Layout) (bytes : AreaBytes)
        → IsLawful (S.disk before.now)
        → IsLawful (S.disk after.now)
        → Stays (S.disk before.now) (S.disk after.now)
        → SparesAreas layout bytes (S.disk before.now) (S.disk after.now) }
    ensures send { (layout : Layout) (bytes : AreaBytes) (text : List ℕ)
        → SendsText text (S.disk before.now) (S.disk after.now)
        → SparesAreas layout bytes (S.disk before.now) (S.disk after.now) }
    ensures other_set { (layout : Layout) (bytes : AreaBytes) (set : ℕ)
        → IsLawful (S.disk before.now)
        → IsLawful (S.disk after.now)
        → OnlyOn set (S.disk before.now) (S.disk after.now)
        → count_in layout bytes set ≡ 0
        → SparesAreas layout bytes (S.disk before.now) (S.disk after.now) }
    ensures other_sets { (layout : Layout) (bytes : AreaBytes)
        → IsLawful (S.disk before.now)
        → IsLawful (S.disk after.now)
        → OnlyIn (λ set. count_in layout bytes set ≡ 0) (S.disk before.now) (S.disk after.now)
        → SparesAreas layout bytes (S.disk before.now) (S.disk after.now) }
{}
