//! What a crash leaves, and what a restart makes of it.
ghost use Rattle.std.specs.Prelude.{◌≡◌, ℕ, ◌<◌, List, true, None, take, drop};
ghost use Rattle.fp_site.specs.Disk.{IsDurable, IsLawful, Settles};
ghost use Rattle.fp_model.specs.declared.log.Entry.{Entry};
ghost use Rattle.fp_model.specs.declared.log.Item.{Item};
ghost use Rattle.fp_model.specs.Items.{items_of};
ghost use Rattle.fp_model.specs.Pending.{Pending, pending_from, with_entries as list_with_entries, without as list_without};
ghost use Rattle.area_redo.specs.Redo.{AreaBytes, Layout, IsLayout, count_in, interval_in, names, redone_at, AllBegin, IsRedone, AreRedone, Redoes};
ghost use Rattle.area_redo.specs.Standing.{behind, Way, all_of, Owed, with_entries, without, Stands};
ghost use Rattle.area_redo.specs.Waiting.{owed_in};
ghost use Rattle.area_redo.specs.Restart.{found_bytes, IsWhole, found_way, found_owed, AreSame, tail_with};

use fp_site::Site;

/// A crash left images of which the items of the tail make the areas' bytes, as every crash now and at each moment of a
/// call does; by then so many of the unsealed entries had come to the log. Then the areas are whole for a restart, and
/// it makes of them the bytes behind those entries.
pub fn a_crash_leaves_whole_areas<S: Site>(site: &S)
    ensures whole { (layout : Layout) (way : Way) (owed : Owed) (bytes : AreaBytes) (n : ℕ) (images : ℕ → List ℕ)
        → IsLayout layout
        → Stands layout way owed bytes (S.disk site.now)
        → AreRedone layout (items_of way.tail) bytes images
        → IsWhole layout (tail_with n way) images }
    ensures same { (layout : Layout) (way : Way) (owed : Owed) (bytes : AreaBytes) (n : ℕ) (images : ℕ → List ℕ)
        → IsLayout layout
        → Stands layout way owed bytes (S.disk site.now)
        → AreRedone layout (items_of way.tail) bytes images
        → AreSame layout (behind (take n way.unsealed) bytes) (found_bytes layout (tail_with n way) images) }
    ensures counts { (layout : Layout) (way : Way) (owed : Owed) (bytes : AreaBytes) (n : ℕ) (images : ℕ → List ℕ)
        → IsLayout layout
        → Stands layout way owed bytes (S.disk site.now)
        → AreRedone layout (items_of way.tail) bytes images
        → (set : ℕ) → count_in layout (found_bytes layout (tail_with n way) images) set
        ≡ count_in layout (behind (take n way.unsealed) bytes) set }
{}

/// A restart that finds whole areas, and has synced them, stands: the items of the log's tail over the data sets give
/// the areas' bytes, and all that the tail changes is owed.
pub fn a_restart_finds_the_areas<S: Site>(site: &S)
    ensures stands { (layout : Layout) (count : ℕ) (tail : List Entry)
        → IsWhole layout tail (S.disk site.now).contents
        → ((set : ℕ) → 0 < count_in layout (found_bytes layout tail (S.disk site.now).contents) set
        → IsDurable (S.disk site.now) set)
        → Stands layout (found_way count tail) (found_owed count tail)
        (found_bytes layout tail (S.disk site.now).contents) (S.disk site.now) }
{}

/// A sync may mix what crashes leave of a data set. Where items make the areas' bytes of all that crashes leave, they
/// make them of the mixture.
pub fn a_sync_may_mix_what_crashes_leave<S: Site>(site: &S)
    ensures redone { (layout : Layout) (items : List Item) (bytes : AreaBytes) (set : ℕ) (image : List ℕ)
        → IsLawful (S.disk site.now)
        → AllBegin items
        → Redoes layout items bytes (S.disk site.now)
        → Settles (S.disk site.now) set image
        → IsRedone (layout.size set) (count_in layout bytes set) set items image (bytes set) }
{}

/// An interval that some entry names, and that owes nothing, has in its data set the bytes that the items of all
/// entries give, whatever stood there.
pub fn what_owes_nothing_is_in_its_data_set<S: Site>(site: &S)
    ensures written { (layout : Layout) (way : Way) (owed : Owed) (bytes : AreaBytes) (set ci : ℕ) (any : List ℕ)
        → IsLawful (S.disk site.now)
        → Stands layout way owed bytes (S.disk site.now)
        → owed set ci ≡ None
        → names set ci (items_of (all_of way)) ≡ true
        → ci < count_in layout bytes set
        → interval_in (layout.size set) ((S.disk site.now).contents set) ci
        ≡ redone_at set ci (items_of (all_of way)) any }
{}

/// What is owed is what the list of waiting intervals, that goes along a run of turns, has of each: as a run begins,
/// behind entries, and once an interval is written.
pub fn owed_is_the_list_of_what_waits()
    ensures begins { (count : ℕ) (entries : List Entry) (set ci : ℕ)
        → owed_in (pending_from count entries) set ci ≡ found_owed count (drop count entries) set ci }
    ensures entries { (place : ℕ) (entries : List Entry) (waiting : List Pending) (set ci : ℕ)
        → owed_in (list_with_entries place entries waiting) set ci
        ≡ with_entries place entries (owed_in waiting) set ci }
    ensures written { (s c : ℕ) (waiting : List Pending) (set ci : ℕ)
        → owed_in (list_without s c waiting) set ci ≡ without s c (owed_in waiting) set ci }
{}
