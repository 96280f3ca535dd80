//! How the place moves on from which a restart redoes.
ghost use Rattle.std.specs.Prelude.{◌≡◌, ℕ, ◌<◌, ◌≤◌, [], Some};
ghost use Rattle.fp_site.specs.Disk.{IsDurable, IsLawful};
ghost use Rattle.area_redo.specs.Redo.{AreaBytes, Layout, count_in};
ghost use Rattle.area_redo.specs.Standing.{Way, Due, Owed, Stands, MayOpen};
ghost use Rattle.area_redo.specs.Steps.{with_mark, from_mark};

use fp_site::Site;

/// A checkpoint begins when every entry is sealed: their end is the mark, and from there on each interval comes with an
/// image first.
pub fn a_mark_is_set<S: Site>(site: &S)
    ensures stands { (layout : Layout) (way : Way) (owed : Owed) (bytes : AreaBytes)
        → Stands layout way owed bytes (S.disk site.now)
        → way.unsealed ≡ []
        → Stands layout (with_mark way) owed bytes (S.disk site.now) }
{}

/// It may open once no interval owes a change of an entry below the mark and the areas are synced.
pub fn a_checkpoint_may_open<S: Site>(site: &S)
    ensures opening { (layout : Layout) (way : Way) (owed : Owed) (bytes : AreaBytes)
        → Stands layout way owed bytes (S.disk site.now)
        → ((set ci : ℕ) (due : Due) → owed set ci ≡ Some due → way.mark ≤ due.oldest)
        → IsLawful (S.disk site.now)
        → ((set : ℕ) → 0 < count_in layout bytes set → IsDurable (S.disk site.now) set)
        → MayOpen layout way owed bytes (S.disk site.now) }
{}

/// Once it is sure, a restart redoes from its mark on.
pub fn a_sure_checkpoint_takes_over<S: Site>(site: &S)
    ensures stands { (layout : Layout) (way : Way) (owed : Owed) (bytes : AreaBytes)
        → Stands layout way owed bytes (S.disk site.now)
        → MayOpen layout way owed bytes (S.disk site.now)
        → Stands layout (from_mark way) owed bytes (S.disk site.now) }
{}
