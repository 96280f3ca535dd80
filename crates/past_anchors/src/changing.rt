//! Changed anchors.
ghost use Rattle.fp_model.specs.Commit.{with_anchors};
ghost use Rattle.fp_model.specs.State.{with_roots};
ghost use Rattle.fp_model.specs.declared.database.Msdb.{Msdb as MsdbOf};
ghost use Rattle.past_anchors.specs.Databases.{state_of};
ghost use Rattle.std.specs.Prelude.{◌≡◌, List as ListOf, slice_set};

use fp_model::{AnchorChange, Dedb, List, Root};

/// Gives an anchor of a database other roots, if there is such an anchor.
fn put_roots(anchors: &mut List<List<Root>>, anchor: u32, roots: List<Root>)
    ensures { anchors.new ≡ slice_set anchors.old anchor roots }
{
    let at = anchor as usize;
    if at < anchors.len() {
        *anchors.item_mut(at) = roots;
    }
}

/// Gives an anchor its roots.
fn change_anchor(dedbs: &mut List<Dedb>, change: AnchorChange)
    ensures { (msdbs : ListOf MsdbOf)
        → with_roots change.dedb change.anchor change.roots (state_of msdbs dedbs.old) ≡ state_of msdbs dedbs.new }
{
    let at = usize::from(change.dedb);
    if at < dedbs.len() {
        put_roots(&mut dedbs.item_mut(at).anchors, change.anchor, change.roots);
    }
}

/// Gives changed anchors their roots.
pub(crate) fn change_anchors(dedbs: &mut List<Dedb>, changes: List<AnchorChange>)
    ensures { (msdbs : ListOf MsdbOf)
        → with_anchors changes (state_of msdbs dedbs.old) ≡ state_of msdbs dedbs.new }
{
    for change in changes.into_vec() {
        change_anchor(dedbs, change);
    }
}
