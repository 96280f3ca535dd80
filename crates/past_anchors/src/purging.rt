//! A Purge.
ghost use Rattle.fp_model.specs.Commit.{kept_from, purged_area};
ghost use Rattle.fp_model.specs.State.{anchors_in};
ghost use Rattle.fp_model.specs.declared.database.AreaEnds.{AreaEnds as EndsOf};
ghost use Rattle.fp_model.specs.declared.database.Msdb.{Msdb as MsdbOf};
ghost use Rattle.past_anchors.specs.Databases.{state_of};
ghost use Rattle.past_anchors.specs.inside.Places.{area_of};
ghost use Rattle.past_anchors.specs.inside.Purges.{AllFall, AreFalling, FallFrom, IsAreaIn, changed_from, ends_below, moved_up, with_purged};
ghost use Rattle.std.specs.Prelude.{◌≡◌, ◌+◌, ◌<◌, ◌≤◌, ◌^◌, List as ListOf, Some, filter, length, map, nat_le, slice_get};

use crate::area::{AreaPlace, anchors_in};
use fp_model::{AreaEnds, Dedb, List, Root, SeqItem};

/// Whether the oldest dependent has a serial below this one.
fn ends_below(seqs: &[SeqItem], begin: u64) -> bool
    ensures { result ≡ ends_below begin seqs.now }
{
    match seqs.last() {
        Some(item) => item.serial < begin,
        None => false,
    }
}

/// Drops the dependents with serials below this one, which stand at the end.
fn keep_newest(seqs: &mut List<SeqItem>, begin: u64)
    requires { AreFalling seqs.old }
    ensures { seqs.new ≡ filter (λ item. nat_le begin item.serial) seqs.old }
{
    while ends_below(seqs.as_slice(), begin) {
        let _ = seqs.pop();
    }
}

/// Drops older dependents of the roots of an anchor.
fn keep_at(roots: &mut List<Root>, begin: u64)
    requires { AllFall roots.old }
    ensures { roots.new ≡ map (kept_from begin) roots.old }
{
    for at in 0..roots.len() {
        keep_newest(&mut roots.item_mut(at).seqs, begin);
    }
}

/// Drops older dependents of the roots of so many anchors, from one on.
fn keep_in(anchors: &mut List<List<Root>>, first: usize, count: usize, begin: u64)
    requires within { first + count ≤ length anchors.old }
    requires few { first + count < 2 ^ 63 }
    requires fall { FallFrom first count anchors.old }
    ensures { anchors.new ≡ changed_from first count (map (kept_from begin)) anchors.old }
{
    for at in first..first + count {
        keep_at(anchors.item_mut(at), begin);
    }
}

/// Moves the begin of an area up, at most to its end, and says where it is then.
fn move_up(ends: &mut AreaEnds, n: u64) -> u64
    ensures ends { ends.new ≡ moved_up n ends.old }
    ensures begin { result ≡ ends.new.begin }
{
    let begin = ends.end.min(ends.begin.saturating_add(n));
    ends.begin = begin;
    begin
}

/// Purges an area of a database.
fn purge_in(dedb: &mut Dedb, area: &AreaPlace, n: u64)
    requires number { area.now.number < length dedb.old.areas }
    requires anchors { area.now.first_anchor + anchors_in area.now.def.now ≤ length dedb.old.anchors }
    requires fall { FallFrom area.now.first_anchor (anchors_in area.now.def.now) dedb.old.anchors }
    ensures { (ends : EndsOf) → slice_get dedb.old.areas area.now.number ≡ Some ends
        → dedb.new ≡ with_purged (area_of area.now) n ends dedb.old }
{
    let begin = move_up(dedb.areas.item_mut(usize::from(area.number)), n);
    let count = anchors_in(area.def) as usize;
    keep_in(&mut dedb.anchors, area.first_anchor as usize, count, begin);
}

/// Purges an area.
pub(crate) fn purge_area(dedbs: &mut List<Dedb>, area: &AreaPlace, n: u64)
    requires { IsAreaIn dedbs.old (area_of area.now) }
    ensures { (msdbs : ListOf MsdbOf) → purged_area (area_of area.now) n (state_of msdbs dedbs.old)
        ≡ state_of msdbs dedbs.new }
{
    purge_in(dedbs.item_mut(usize::from(area.dedb)), area, n);
}
