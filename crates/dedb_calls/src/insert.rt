//! Inserts: of a direct segment among its twins, and of a sequential one into the queue.
ghost use Rattle.dedb_calls.specs.Anchors.{Ascend, held_at};
ghost use Rattle.dedb_calls.specs.inside.Calls.{is_locked};
ghost use Rattle.dedb_calls.specs.inside.Inserts.{AreDirectOrNone, HasJudged, IsEditedTo, IsInsert, IsNewOf, with_queued};
ghost use Rattle.dedb_calls.specs.Progress.{FitsDedb, GoesOn, Knows, position_in};
ghost use Rattle.dedb_calls.specs.inside.Progress.{roots_in};
ghost use Rattle.dedb_calls.specs.Readiness.{ComesTo, OnNeed};
ghost use Rattle.dedb_calls.specs.declared.anchors.HeldAnchor.{HeldAnchor as HeldOf};
ghost use Rattle.dedb_calls.specs.declared.ready.DedbReady.TheVariants as ready;
ghost use Rattle.dli_tree.specs.InOrder.{AreTypes, are_in_order};
ghost use Rattle.dli_tree.specs.Paths.{steps_of};
ghost use Rattle.fp_exits.specs.Kinds.{has_kind, kinds_of};
ghost use Rattle.fp_model.specs.Answers.{answered, blank};
ghost use Rattle.fp_model.specs.DedbCalls.{anchor_of_path, are_insert_arguments, dedb_need, isrt_reply, parents_in, root_key_of, stands_at, type_of_last};
ghost use Rattle.fp_model.specs.FitCalls.{AreFitSsas};
ghost use Rattle.fp_model.specs.Order.{Inserts, edited, is_sequential, last_type};
ghost use Rattle.fp_model.specs.Shape.{has_length};
ghost use Rattle.fp_model.specs.WellFormed.{IsDedbDef};
ghost use Rattle.fp_model.specs.declared.calls.Call.TheVariants as call;
ghost use Rattle.fp_model.specs.declared.calls.Mode.TheVariants.{Exclusive};
ghost use Rattle.fp_model.specs.declared.calls.Ssa.{Ssa as SsaOf};
ghost use Rattle.fp_model.specs.declared.definitions.DedbDef.{DedbDef as DefOf};
ghost use Rattle.std.specs.Prelude.{◌≡◌, ◌<◌, ◌≤◌, IfOk, List as ListOf, OnErr, OnOk, Some, false, length, true, ℕ};

use crate::anchor_locks::AnchorLocks;
use crate::arguments::{are_insert_arguments, insert_path, is_sequential, type_of_last};
use crate::get::{Database, refused};
use crate::place::Place;
use crate::randomizer::anchor_of;
use crate::ready::{DedbReady, answered};
use crate::search::Reach;
use crate::work::DedbWork;
use dli_tree::{Change, Path, Step, leads_to};
use fp_exits::Exits;
use fp_model::{Bytes, List, Mode, Root, SegDef, SeqInsert, Ssa};
use std::alloc::{AllocError, Global};

/// A new segment: the anchor of its root, its type, its path, and its bytes.
#[derive(Drop)]
pub(crate) struct NewSegment {
    pub(crate) anchor: u32,
    pub(crate) segment: u8,
    pub(crate) path: Path,
    pub(crate) bytes: Bytes,
}

/// What is to become of an insert.
#[derive(Clone, Copy)]
pub(crate) enum Judged {
    /// It needs the anchor's lock.
    Unlocked,
    /// A parent is absent.
    NoParent,
    /// It is sequential, and is queued.
    Sequential,
    /// It is there already.
    There,
    /// It is put among its twins.
    Free,
}

/// Whether the parents of a segment stand: of a root there is none.
fn parents_stand(segments: &[SegDef], roots: &[Root], steps: &[Step]) -> bool
    requires { AreTypes segments.now }
    ensures { are_in_order segments.now roots.now ≡ true → (def : DefOf) (dedb : ℕ) → def.segments ≡ segments.now
        → AreDirectOrNone segments.now (parents_in (steps_of steps.now))
        → result ≡ stands_at def dedb roots.now (parents_in (steps_of steps.now)) }
{
    if steps.len() < 2 {
        return true;
    }
    leads_to(segments, roots, &steps[..steps.len() - 1])
}

/// The key of the root at the beginning of a path. It fails only for want of memory.
fn root_key(alloc: Global, path: &Path) -> Result<Bytes, AllocError>
    ensures { IfOk result (λ key. (def : DefOf) (dedb : ℕ) → key ≡ root_key_of def dedb (steps_of path.now.steps)) }
{
    match path.steps.as_slice() {
        [] => Ok(Bytes::new(alloc)),
        [root, ..] => root.key.copy(),
    }
}

impl Database<'_> {
    /// What is to become of an insert.
    fn judge<L: AnchorLocks>(self, work: &DedbWork, new: &NewSegment, locks: &L) -> Judged
        requires good { IsDedbDef self.def.now }
        requires fits { FitsDedb self.def.now self.number work.now }
        requires order { Ascend work.now.anchors }
        requires known { Knows (L.modes locks.now work.now) work.now.anchors }
        requires insert { (ssas : ListOf SsaOf) × IsNewOf self.def.now self.number ssas new.now }

        ensures { HasJudged result
            (is_locked (L.modes locks.now work.now) self.entry.number Exclusive new.now.anchor)
            (stands_at self.entry.def.now self.entry.number (roots_in work.now.anchors self.entry.number
            new.now.anchor) (parents_in (steps_of new.now.path.steps)))
            (is_sequential self.entry.def.now.segments new.now.segment)
            (stands_at self.entry.def.now self.entry.number (roots_in work.now.anchors self.entry.number
            new.now.anchor) (steps_of new.now.path.steps)) }
    {
        let reach = Reach {
            locks,
            work,
            dedb: self.number,
            mode: Mode::Exclusive,
        };
        let Some(roots) = reach.roots(new.anchor) else {
            return Judged::Unlocked;
        };
        let segments = self.def.segments.as_slice();
        let roots = roots.as_slice();
        let steps = new.path.steps.as_slice();
        if !parents_stand(segments, roots, steps) {
            return Judged::NoParent;
        }
        if is_sequential(segments, new.segment) {
            return Judged::Sequential;
        }
        if leads_to(segments, roots, steps) {
            return Judged::There;
        }
        Judged::Free
    }

    /// Queues a sequential dependent. It fails only for want of memory, and then nothing changes.
    fn queue(
        self,
        alloc: Global,
        work: &mut DedbWork,
        new: NewSegment,
    ) -> Result<DedbReady, AllocError>
        requires { self.number < length work.old.positions }
        ensures answer { IfOk result (λ came. came ≡ ready.Answer (answered blank)) }
        ensures work { OnOk result ((def : DefOf) → work.new ≡ with_queued self.entry.number (record {
          dedb = self.entry.number;
          anchor = new.anchor;
          key = root_key_of def self.entry.number (steps_of new.path.steps);
          bytes = new.bytes;
        }) work.old) }
        ensures err { OnErr result (work.new ≡ work.old) }
    {
        let key = root_key(alloc, &new.path)?;
        work.queue(SeqInsert {
            dedb: self.number,
            anchor: new.anchor,
            key,
            bytes: new.bytes,
        })?;
        work.let_go(self.number);
        Ok(DedbReady::Answer(answered(alloc, *b"  ")))
    }

    /// Puts a direct segment among its twins. It fails only for want of memory, and then nothing changes.
    fn put(
        self,
        alloc: Global,
        work: &mut DedbWork,
        new: NewSegment,
    ) -> Result<DedbReady, AllocError>
        requires types { AreTypes self.def.now.segments }
        requires counted { self.number < length work.old.positions }

        ensures answer { IfOk result (λ came. came ≡ ready.Answer (answered blank)) }
        ensures work { Ascend work.old.anchors → (a : HeldOf)
            → held_at work.old.anchors self.entry.number new.anchor ≡ Some a
            → are_in_order self.entry.def.now.segments a.roots ≡ true
            → OnOk result (IsEditedTo self.entry.number new.anchor
            (edited self.entry.def.now.segments a.roots (steps_of new.path.steps) (Inserts new.bytes))
            (record {
              place = Some (record { anchor = new.anchor; path = steps_of new.path.steps });
              parent = (position_in work.old self.entry.number).parent;
              held = false;
            }) work.old.inserts work.old work.new) }
        ensures err { OnErr result (work.new ≡ work.old) }
    {
        let NewSegment {
            anchor,
            segment: _,
            path,
            bytes,
        } = new;
        let change = Change::Insert(alloc, bytes);
        work.edit(self.def, self.number, anchor, path.steps.as_slice(), change)?;
        work.move_to(self.number, Place { anchor, path }, false);
        Ok(DedbReady::Answer(answered(alloc, *b"  ")))
    }

    /// The new segment of an insert with these arguments. It fails only for want of memory.
    fn new_segment(
        self,
        alloc: Global,
        ssas: &[Ssa],
        bytes: &Bytes,
        exits: &Exits,
    ) -> Result<NewSegment, AllocError>
        requires good { IsDedbDef self.def.now }
        requires exit { has_kind (kinds_of exits.now).spreaders self.def.now.randomizer ≡ true }
        requires arguments { are_insert_arguments self.def.now self.number ssas.now ≡ true }
        requires fits { AreFitSsas self.def.now.segments ssas.now }
        requires long { has_length self.def.now.segments (last_type 0 ssas.now) bytes.now ≡ true }

        ensures insert { IfOk result (λ new. IsInsert self.entry.def.now self.entry.number ssas.now (steps_of
            new.path.steps) new.bytes) }
        ensures bytes { IfOk result (λ new. new.bytes ≡ bytes.now) }
        ensures segment { IfOk result (λ new. new.segment ≡ type_of_last self.entry.def.now self.entry.number
            ssas.now) }
        ensures anchor { IfOk result (λ new. new.anchor ≡ anchor_of_path self.entry.def.now self.entry.number (steps_of
            new.path.steps)) }
    {
        let steps = insert_path(alloc, self.def, ssas, bytes.as_slice())?;
        let anchor = match steps.as_slice() {
            [] => 0,
            [root, ..] => anchor_of(self.def, exits, root.key.as_slice()),
        };
        Ok(NewSegment {
            anchor,
            segment: type_of_last(ssas),
            path: Path {
                steps: List::from_vec(steps),
            },
            bytes: bytes.copy()?,
        })
    }

    /// What an insert of a new segment comes to. It fails only for want of memory; then, and where a lock is needed,
    /// nothing changes.
    fn isrt_new<L: AnchorLocks>(
        self,
        alloc: Global,
        work: &mut DedbWork,
        new: NewSegment,
        locks: &L,
    ) -> Result<DedbReady, AllocError>
        requires good { IsDedbDef self.def.now }
        requires fits { FitsDedb self.def.now self.number work.old }
        requires order { Ascend work.old.anchors }
        requires known { Knows (L.modes locks.now work.old) work.old.anchors }
        requires insert { (ssas : ListOf SsaOf) × IsNewOf self.def.now self.number ssas new }

        ensures comes { (ssas : ListOf SsaOf) (n : ℕ) → IsNewOf self.entry.def.now self.entry.number ssas new
            → IfOk result (λ came. ComesTo self.entry.number
            (λ db own. dedb_need self.entry.def.now self.entry.number db own (L.modes locks.now work.old)
            (call.Isrt n ssas new.bytes))
            (λ db own. isrt_reply self.entry.def.now self.entry.number db own ssas new.bytes)
            work.old work.new came) }
        ensures goes { GoesOn self.entry.number work.old work.new }
        ensures fits { FitsDedb self.entry.def.now self.entry.number work.new }
        ensures needing { IfOk result (λ came. OnNeed came (work.new ≡ work.old)) }
        ensures err { OnErr result (work.new ≡ work.old) }
    {
        match self.judge(work, &new, locks) {
            Judged::Unlocked => Ok(DedbReady::Need {
                anchor: new.anchor,
                mode: Mode::Exclusive,
            }),
            Judged::NoParent => Ok(refused(alloc, self.number, work, *b"GE")),
            Judged::There => Ok(refused(alloc, self.number, work, *b"II")),
            Judged::Sequential => Ok(self.queue(alloc, work, new)?),
            Judged::Free => Ok(self.put(alloc, work, new)?),
        }
    }

    /// What an insert comes to. It fails only for want of memory; then, and where a lock is needed, nothing changes.
    pub(crate) fn isrt<L: AnchorLocks>(
        self,
        alloc: Global,
        work: &mut DedbWork,
        ssas: &[Ssa],
        bytes: &Bytes,
        exits: &Exits,
        locks: &L,
    ) -> Result<DedbReady, AllocError>
        requires good { IsDedbDef self.def.now }
        requires exit { has_kind (kinds_of exits.now).spreaders self.def.now.randomizer ≡ true }
        requires fits { FitsDedb self.def.now self.number work.old }
        requires order { Ascend work.old.anchors }
        requires known { Knows (L.modes locks.now work.old) work.old.anchors }
        requires ssas { AreFitSsas self.def.now.segments ssas.now }
        requires long { has_length self.def.now.segments (last_type 0 ssas.now) bytes.now ≡ true }

        ensures comes { (n : ℕ) → IfOk result (λ came. ComesTo self.entry.number
            (λ db own. dedb_need self.entry.def.now self.entry.number db own (L.modes locks.now work.old)
            (call.Isrt n ssas.now bytes.now))
            (λ db own. isrt_reply self.entry.def.now self.entry.number db own ssas.now bytes.now)
            work.old work.new came) }
        ensures goes { GoesOn self.entry.number work.old work.new }
        ensures fits { FitsDedb self.entry.def.now self.entry.number work.new }
        ensures needing { IfOk result (λ came. OnNeed came (work.new ≡ work.old)) }
        ensures err { OnErr result (work.new ≡ work.old) }
    {
        if !are_insert_arguments(self.def, ssas) {
            return Ok(refused(alloc, self.number, work, *b"AM"));
        }
        let new = self.new_segment(alloc, ssas, bytes, exits)?;
        Ok(self.isrt_new(alloc, work, new, locks)?)
    }
}
