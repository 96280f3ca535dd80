//! Replacements and deletions of the segment that is held.
ghost use Rattle.dedb_calls.specs.Anchors.{Ascend, held_at};
ghost use Rattle.dedb_calls.specs.inside.Calls.{is_locked};
ghost use Rattle.dedb_calls.specs.inside.Edits.{HasChosen, fits_key};
ghost use Rattle.dedb_calls.specs.inside.Inserts.{IsEditedTo};
ghost use Rattle.dedb_calls.specs.Progress.{FitsDedb, GoesOn, Knows, held_in, position_in};
ghost use Rattle.dedb_calls.specs.Readiness.{ComesTo, OnNeed};
ghost use Rattle.dedb_calls.specs.declared.anchors.HeldAnchor.{HeldAnchor as HeldOf};
ghost use Rattle.dedb_calls.specs.declared.ready.DedbReady.TheVariants as ready;
ghost use Rattle.dli_tree.specs.InOrder.{AreTypes, are_in_order};
ghost use Rattle.dli_tree.specs.Paths.{steps_of};
ghost use Rattle.fp_model.specs.Answers.{answered, blank};
ghost use Rattle.fp_model.specs.DedbCalls.{dedb_need, dlet_reply, goes_with, held_place, key_of_path, repl_reply, type_of_path};
ghost use Rattle.fp_model.specs.Order.{Deletes, Place as PlaceOf, Replaces, edited, is_sequential};
ghost use Rattle.fp_model.specs.Shape.{has_length};
ghost use Rattle.fp_model.specs.WellFormed.{IsDedbDef};
ghost use Rattle.fp_model.specs.declared.calls.Call.TheVariants as call;
ghost use Rattle.fp_model.specs.declared.calls.Mode.TheVariants.{Exclusive};
ghost use Rattle.fp_model.specs.declared.definitions.DedbDef.{DedbDef as DefOf};
ghost use Rattle.std.specs.Prelude.{◌≡◌, ◌<◌, ◌≤◌, IfOk, None, OnErr, OnOk, Some, false, filter, length, not, true, ℕ};

use crate::anchor_locks::AnchorLocks;
use crate::arguments::is_sequential;
use crate::get::{Database, refused, type_of_path};
use crate::ready::{DedbReady, answered};
use crate::search::Reach;
use crate::work::DedbWork;
use dli_tree::{Change, Step, key_in};
use fp_model::{Bytes, Mode, SegDef};
use std::alloc::{AllocError, Global};

/// What is to become of a replacement or a deletion.
#[derive(Clone, Copy)]
pub(crate) enum Chosen {
    /// No segment is held.
    NotHeld,
    /// It needs the lock of this anchor.
    Unlocked(u32),
    /// A sequential segment is held.
    Sequential,
    /// A direct segment is held.
    Direct,
}

/// The key of the segment at the end of a path.
fn key_of_path(steps: &[Step]) -> &[u8]
    ensures { (def : DefOf) (dedb : ℕ) → result.now ≡ key_of_path def dedb (steps_of steps.now) }
{
    match steps {
        [] => &[],
        [.., last] => last.key.as_slice(),
    }
}

/// Whether bytes have the key of the segment at the end of a path.
fn fits_key(segments: &[SegDef], steps: &[Step], bytes: &[u8]) -> bool
    ensures { (def : DefOf) (dedb : ℕ) → def.segments ≡ segments.now
        → result ≡ fits_key def dedb bytes.now (steps_of steps.now) }
{
    key_in(segments, type_of_path(steps), bytes) == key_of_path(steps)
}

impl Database<'_> {
    /// What is to become of a replacement or a deletion.
    fn choose<L: AnchorLocks>(self, work: &DedbWork, locks: &L) -> Chosen
        requires counted { self.number < length work.now.positions }
        requires order { Ascend work.now.anchors }

        ensures { HasChosen result (held_in work.now self.entry.number)
            (is_locked (L.modes locks.now work.now) self.entry.number Exclusive)
            (λ path. is_sequential self.entry.def.now.segments (type_of_path self.entry.def.now self.entry.number
            path)) }
    {
        let Some(place) = work.held_place(self.number) else {
            return Chosen::NotHeld;
        };
        let reach = Reach {
            locks,
            work,
            dedb: self.number,
            mode: Mode::Exclusive,
        };
        let anchor = place.anchor();
        if !reach.has(anchor) {
            return Chosen::Unlocked(anchor);
        }
        let segments = self.def.segments.as_slice();
        let steps = place.steps();
        if is_sequential(segments, type_of_path(steps)) {
            return Chosen::Sequential;
        }
        Chosen::Direct
    }

    /// Whether bytes have the key of the segment that is held.
    fn keeps_key(self, work: &DedbWork, bytes: &Bytes) -> bool
        requires { self.number < length work.now.positions }
        ensures { (place : PlaceOf) → held_in work.now self.entry.number ≡ Some place
            → result ≡ fits_key self.entry.def.now self.entry.number bytes.now place.path }
    {
        match work.held_place(self.number) {
            Some(place) => {
                let segments = self.def.segments.as_slice();
                fits_key(segments, place.steps(), bytes.as_slice())
            }
            None => false,
        }
    }

    /// Replaces the segment that is held. It fails only for want of memory, and then nothing changes.
    fn replace(
        self,
        alloc: Global,
        work: &mut DedbWork,
        bytes: &Bytes,
    ) -> Result<DedbReady, AllocError>
        requires types { AreTypes self.def.now.segments }
        requires counted { self.number < length work.old.positions }

        ensures answer { IfOk result (λ came. came ≡ ready.Answer (answered blank)) }
        ensures work { Ascend work.old.anchors → (at : PlaceOf) (a : HeldOf)
            → (position_in work.old self.entry.number).place ≡ Some at
            → held_at work.old.anchors self.entry.number at.anchor ≡ Some a
            → are_in_order self.entry.def.now.segments a.roots ≡ true
            → OnOk result (IsEditedTo self.entry.number at.anchor
            (edited self.entry.def.now.segments a.roots at.path (Replaces bytes.now))
            (record (position_in work.old self.entry.number) { held = false }) work.old.inserts work.old work.new) }
        ensures err { OnErr result (work.new ≡ work.old) }
    {
        work.edit_held(self.def, self.number, Change::Replace(bytes.copy()?))?;
        work.let_go(self.number);
        Ok(DedbReady::Answer(answered(alloc, *b"  ")))
    }

    /// Deletes the segment that is held, with all below it and its queued inserts, and forgets the parent. It fails
    /// only for want of memory, and then nothing changes.
    fn delete(self, alloc: Global, work: &mut DedbWork) -> Result<DedbReady, AllocError>
        requires types { AreTypes self.def.now.segments }
        requires counted { self.number < length work.old.positions }

        ensures answer { IfOk result (λ came. came ≡ ready.Answer (answered blank)) }
        ensures work { Ascend work.old.anchors → (at : PlaceOf) (a : HeldOf)
            → (position_in work.old self.entry.number).place ≡ Some at
            → held_at work.old.anchors self.entry.number at.anchor ≡ Some a
            → are_in_order self.entry.def.now.segments a.roots ≡ true
            → OnOk result (IsEditedTo self.entry.number at.anchor
            (edited self.entry.def.now.segments a.roots at.path Deletes)
            (record (position_in work.old self.entry.number) { parent = None; held = false })
            (filter (λ i. not (goes_with self.entry.def.now self.entry.number at i)) work.old.inserts) work.old
            work.new) }
        ensures err { OnErr result (work.new ≡ work.old) }
    {
        work.edit_held(self.def, self.number, Change::Delete)?;
        work.drop_held(self.number);
        work.forget_parent(self.number);
        Ok(DedbReady::Answer(answered(alloc, *b"  ")))
    }

    /// What a replacement comes to. It fails only for want of memory; then, and where a lock is needed, nothing
    /// changes.
    pub(crate) fn repl<L: AnchorLocks>(
        self,
        alloc: Global,
        work: &mut DedbWork,
        bytes: &Bytes,
        locks: &L,
    ) -> Result<DedbReady, AllocError>
        requires good { IsDedbDef self.def.now }
        requires fits { FitsDedb self.def.now self.number work.old }
        requires order { Ascend work.old.anchors }
        requires known { Knows (L.modes locks.now work.old) work.old.anchors }
        requires long { (place : PlaceOf) → held_in work.old self.number ≡ Some place
            → has_length self.def.now.segments (type_of_path self.def.now self.number place.path) bytes.now ≡ true }

        ensures comes { (n : ℕ) → IfOk result (λ came. ComesTo self.entry.number
            (λ db own. dedb_need self.entry.def.now self.entry.number db own (L.modes locks.now work.old)
            (call.Repl n bytes.now))
            (λ db own. repl_reply self.entry.def.now self.entry.number db own bytes.now
            (held_place self.entry.def.now self.entry.number own))
            work.old work.new came) }
        ensures goes { GoesOn self.entry.number work.old work.new }
        ensures fits { FitsDedb self.entry.def.now self.entry.number work.new }
        ensures needing { IfOk result (λ came. OnNeed came (work.new ≡ work.old)) }
        ensures err { OnErr result (work.new ≡ work.old) }
    {
        match self.choose(work, locks) {
            Chosen::NotHeld => Ok(refused(alloc, self.number, work, *b"DJ")),
            Chosen::Unlocked(anchor) => Ok(DedbReady::Need {
                anchor,
                mode: Mode::Exclusive,
            }),
            Chosen::Sequential => Ok(refused(alloc, self.number, work, *b"AM")),
            Chosen::Direct => {
                if !self.keeps_key(work, bytes) {
                    return Ok(refused(alloc, self.number, work, *b"DA"));
                }
                Ok(self.replace(alloc, work, bytes)?)
            }
        }
    }

    /// What a deletion comes to. It fails only for want of memory; then, and where a lock is needed, nothing changes.
    pub(crate) fn dlet<L: AnchorLocks>(
        self,
        alloc: Global,
        work: &mut DedbWork,
        locks: &L,
    ) -> Result<DedbReady, AllocError>
        requires good { IsDedbDef self.def.now }
        requires fits { FitsDedb self.def.now self.number work.old }
        requires order { Ascend work.old.anchors }
        requires known { Knows (L.modes locks.now work.old) work.old.anchors }

        ensures comes { (n : ℕ) → IfOk result (λ came. ComesTo self.entry.number
            (λ db own. dedb_need self.entry.def.now self.entry.number db own (L.modes locks.now work.old)
            (call.Dlet n))
            (λ db own. dlet_reply self.entry.def.now self.entry.number db own
            (held_place self.entry.def.now self.entry.number own))
            work.old work.new came) }
        ensures goes { GoesOn self.entry.number work.old work.new }
        ensures fits { FitsDedb self.entry.def.now self.entry.number work.new }
        ensures needing { IfOk result (λ came. OnNeed came (work.new ≡ work.old)) }
        ensures err { OnErr result (work.new ≡ work.old) }
    {
        match self.choose(work, locks) {
            Chosen::NotHeld => Ok(refused(alloc, self.number, work, *b"DJ")),
            Chosen::Unlocked(anchor) => Ok(DedbReady::Need {
                anchor,
                mode: Mode::Exclusive,
            }),
            Chosen::Sequential => Ok(refused(alloc, self.number, work, *b"AM")),
            Chosen::Direct => Ok(self.delete(alloc, work)?),
        }
    }
}
