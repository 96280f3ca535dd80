//! The search of a get over the anchors of a database.
ghost use Rattle.dedb_calls.specs.Anchors.{Ascend, held_at};
ghost use Rattle.dedb_calls.specs.Progress.{Knows};
ghost use Rattle.dedb_calls.specs.inside.Progress.{roots_in};
ghost use Rattle.dedb_calls.specs.inside.Searches.{HasLooked, HasRoots, behind_here, numbers_in, within_here};
ghost use Rattle.dedb_calls.specs.declared.anchors.HeldAnchor.{HeldAnchor as HeldOf};
ghost use Rattle.dli_tree.specs.InOrder.{AreTypes, are_in_order};
ghost use Rattle.dli_tree.specs.Paths.{occurrence_of};
ghost use Rattle.dli_tree.specs.inside.Paths.{path_steps};
ghost use Rattle.fp_model.specs.Answers.{serves};
ghost use Rattle.fp_model.specs.Order.{first_admitted};
ghost use Rattle.fp_model.specs.declared.calls.Resource.TheVariants.{Anchor};
ghost use Rattle.std.specs.Option.{option_copied};
ghost use Rattle.std.specs.Prelude.{◌≡◌, ◌≤◌, IfOk, MatchOption, Some, false, length, option_map, true, ℕ};

use crate::anchor_locks::AnchorLocks;
use crate::anchors::held_at;
use crate::place::Place;
use crate::work::DedbWork;
use dli_tree::{Path, first_after};
use fp_model::{Bytes, List, Mode, Root, SegDef, Ssa};
use std::alloc::{AllocError, Global};

/// The anchors from one on up to another, which isn't among them.
#[derive(Clone, Copy)]
pub(crate) struct Stretch {
    pub(crate) from: u64,
    pub(crate) to: u64,
}

/// What a search looks for: segments behind a place and below another, where these are given, that the arguments admit.
#[derive(Clone, Copy)]
pub(crate) struct Quest<'a> {
    pub(crate) behind: Option<&'a Place>,
    pub(crate) within: Option<&'a Place>,
    pub(crate) ssas: &'a List<Ssa>,
}

/// A segment that was found.
#[derive(Drop)]
pub(crate) struct Found {
    pub(crate) anchor: u32,
    pub(crate) path: Path,
    pub(crate) bytes: Bytes,
}

/// What a search came to.
#[derive(Drop)]
pub(crate) enum Looked {
    Found(Found),
    Nothing,
    /// It came to this anchor without its lock.
    Unlocked(u32),
}

/// The anchors of a database, held by a transaction as strongly as a search needs them.
#[derive(Drop)]
pub(crate) struct Reach<'a, L> {
    pub(crate) locks: &'a L,
    pub(crate) work: &'a DedbWork,
    pub(crate) dedb: u8,
    pub(crate) mode: Mode,
}

impl<L: AnchorLocks> Reach<'_, L> {
    /// Whether the transaction holds an anchor so.
    pub(crate) fn has(&self, anchor: u32) -> bool
        requires { Ascend self.now.work.now.anchors }
        ensures { result ≡ serves (L.modes self.now.locks.now self.now.work.now (Anchor self.now.dedb anchor))
            self.now.mode }
    {
        match (self.locks.mode_of(self.work, self.dedb, anchor), self.mode) {
            (Some(Mode::Exclusive), _) | (Some(Mode::Share), Mode::Share) => true,
            (Some(Mode::Share), Mode::Exclusive) | (None, _) => false,
        }
    }

    /// The roots of an anchor that the transaction holds so.
    pub(crate) fn roots(&self, anchor: u32) -> Option<&List<Root>>
        requires order { Ascend self.now.work.now.anchors }
        requires known { Knows (L.modes self.now.locks.now self.now.work.now) self.now.work.now.anchors }

        ensures { MatchOption result
            (serves (L.modes self.now.locks.now self.now.work.now (Anchor self.now.dedb anchor)) self.now.mode ≡ false)
            (λ roots. HasRoots self.now.dedb anchor self.now.work.now.anchors roots.now
            (serves (L.modes self.now.locks.now self.now.work.now (Anchor self.now.dedb anchor)) self.now.mode)) }
    {
        if !self.has(anchor) {
            return None;
        }
        match held_at(self.work.held(), self.dedb, anchor) {
            Some(one) => Some(&one.roots),
            None => None,
        }
    }
}

/// What is left at an anchor of the place behind which all is looked for. None where nothing there is behind it.
fn behind_here(behind: Option<&Place>, anchor: u32) -> Option<Option<&Path>>
    ensures { option_map (λ path. path_steps (option_copied path)) result
        ≡ behind_here (option_copied behind.entry) anchor }
{
    match behind {
        None => Some(None),
        Some(place) if place.anchor == anchor => Some(Some(&place.path)),
        Some(place) if place.anchor < anchor => Some(None),
        Some(_) => None,
    }
}

/// What is left at an anchor of the parent below which all is looked for. None where nothing there is below it.
fn within_here(within: Option<&Place>, anchor: u32) -> Option<Option<&Path>>
    ensures { option_map (λ path. path_steps (option_copied path)) result
        ≡ within_here (option_copied within.entry) anchor }
{
    match within {
        None => Some(None),
        Some(place) if place.anchor == anchor => Some(Some(&place.path)),
        Some(_) => None,
    }
}

/// The first segment of an anchor that is looked for. It fails only for want of memory.
fn look(
    alloc: Global,
    segments: &List<SegDef>,
    quest: Quest<'_>,
    anchor: u32,
    roots: &List<Root>,
) -> Result<Option<(Path, Bytes)>, AllocError>
    requires { AreTypes segments.now }
    ensures { are_in_order segments.now roots.now ≡ true
        → IfOk result (λ found. option_map occurrence_of found
        ≡ first_admitted segments.now anchor roots.now (option_copied quest.entry.behind)
        (option_copied quest.entry.within) quest.entry.ssas.now) }
{
    let Some(behind) = behind_here(quest.behind, anchor) else {
        return Ok(None);
    };
    let Some(within) = within_here(quest.within, anchor) else {
        return Ok(None);
    };
    first_after(alloc, roots, segments, behind, within, quest.ssas)
}

/// Searches anchors in turn, up to the first that isn't held so or at which something is found. It fails only for want
/// of memory.
pub(crate) fn search<L: AnchorLocks>(
    alloc: Global,
    segments: &List<SegDef>,
    reach: &Reach<'_, L>,
    quest: Quest<'_>,
    stretch: Stretch,
) -> Result<Looked, AllocError>
    requires types { AreTypes segments.now }
    requires order { Ascend reach.now.work.now.anchors }
    requires known { Knows (L.modes reach.now.locks.now reach.now.work.now) reach.now.work.now.anchors }
    requires numbers { stretch.to ≤ 4294967296 }
    requires shapes { (anchor : ℕ) (a : HeldOf) → held_at reach.now.work.now.anchors reach.now.dedb anchor ≡ Some a
        → are_in_order segments.now a.roots ≡ true }

    ensures { IfOk result (λ looked. HasLooked looked
        (λ anchor. serves (L.modes reach.now.locks.now reach.now.work.now (Anchor reach.now.dedb anchor))
        reach.now.mode)
        (λ anchor. first_admitted segments.now anchor (roots_in reach.now.work.now.anchors reach.now.dedb anchor)
        (option_copied quest.entry.behind) (option_copied quest.entry.within) quest.entry.ssas.now)
        (numbers_in stretch)) }
{
    for number in stretch.from..stretch.to {
        let anchor = number as u32;
        let Some(roots) = reach.roots(anchor) else {
            return Ok(Looked::Unlocked(anchor));
        };
        if let Some((path, bytes)) = look(alloc, segments, quest, anchor, roots)? {
            return Ok(Looked::Found(Found {
                anchor,
                path,
                bytes,
            }));
        }
    }
    Ok(Looked::Nothing)
}
