//! The answer to a call, and what becomes of the transaction.
ghost use Rattle.std.specs.Option.{ForSome, option_copied, option_map_or};
ghost use Rattle.std.specs.Prelude.{◌≡◌, ◌<◌, [], IfOk, IfSome, codes, false, if◌then◌else◌, length, not};
ghost use Rattle.fp_model.specs.MsdbCalls.{dlet_reply, fld_reply, found_or, get_reply, if_held, is_put_or_dropped, isrt_reply, key_named, msdb_reply, position_of, refused, repl_reply};
ghost use Rattle.fp_model.specs.FitCalls.{FitsCall, FitsKey, FitsSegment, IsFsaList};
ghost use Rattle.fp_model.specs.State.{key_of, segment_of};
ghost use Rattle.fp_model.specs.declared.calls.Get.TheVariants as get;
ghost use Rattle.fp_model.specs.WellFormed.{IsMsdbDef};
ghost use Rattle.fp_model.specs.Texts.{same_text, trimmed};
ghost use Rattle.fp_model.specs.Workspace.{Workspace};
ghost use Rattle.msdb_calls.specs.Calls.{is_changed};
ghost use Rattle.msdb_calls.specs.Looks.{LookAt};
ghost use Rattle.msdb_calls.specs.Progress.{FitsMsdb, with_progress};
ghost use Rattle.msdb_calls.specs.inside.Replies.{FitsChange, ShowsFound, ShowsSegment, replied_by};

use crate::database::{Database, key_in};
use crate::letters::letters_on;
use crate::reply::{Change, Reply, queued, refused};
use crate::segment_looks::SegmentLooks;
use crate::work::{MsdbWork, Position};
use fp_model::{Answer, Bytes, Call, Deferred, Get, List, Ssa};
use std::alloc::{AllocError, Global};

// The status letters.
const NO_SEGMENT: [u8; 2] = *b"GE";

const NO_NEXT: [u8; 2] = *b"GB";

const BAD_ARGUMENT: [u8; 2] = *b"FE";

const CHANGED: [u8; 2] = *b"XP";

const NOT_HELD: [u8; 2] = *b"DJ";

const KEY_CHANGED: [u8; 2] = *b"DA";

const NOT_SO: [u8; 2] = *b"AM";

const THERE: [u8; 2] = *b"II";

// The key that search arguments name.
pub(crate) fn key_named(ssas: &List<Ssa>) -> Option<&[u8]>
    ensures { option_copied result ≡ key_named ssas.now }
{
    match ssas.as_slice().first()?.key {
        Some(ref key) => Some(key.as_slice()),
        None => None,
    }
}

impl Database<'_> {
    // A segment that a get found, or the letters that say that there is none.
    fn found_or(
        &self,
        alloc: Global,
        segment: Option<&[u8]>,
        none: [u8; 2],
        hold: bool,
    ) -> Result<Reply, AllocError>
        requires good { IsMsdbDef self.now.def.now }
        requires whole { IfSome segment (λ s. length s.now ≡ self.now.def.now.length) }
        requires none { same_text (trimmed none) [] ≡ false }
        ensures reply { IfOk result (λ reply. (own : Workspace) → replied_by self.now.def.now self.now.number reply own
            ≡ found_or self.now.def.now self.now.number none hold own (option_copied segment.entry)) }
        ensures change { IfOk result (λ reply. FitsChange self.now.def.now self.now.number reply.change) }
        ensures shown { IfOk result (λ reply. ShowsSegment self.now.def.now reply.answer) }
    {
        let Some(segment) = segment else {
            return Ok(refused(alloc, none));
        };
        Ok(Reply {
            answer: Answer {
                status: *b"  ",
                segment: 0,
                bytes: Bytes::from_slice(alloc, segment)?,
                letters: Bytes::new(alloc),
            },
            change: Change::Found {
                key: Bytes::from_slice(alloc, key_in(self.def, segment))?,
                hold,
            },
        })
    }

    // GU, and GHU with a hold.
    fn unique<L: SegmentLooks>(
        &self,
        alloc: Global,
        hold: bool,
        key: Option<&[u8]>,
        looks: &L,
    ) -> Result<Reply, AllocError>
        requires { LookAt self.now.def.now (L.is_of looks.now self.now.def.now) (L.stands looks.now)
            (L.shows looks.now) }
        ensures reply { IfOk result (λ reply. (own : Workspace) → replied_by self.now.def.now self.now.number reply own
            ≡ get_reply self.now.def.now self.now.number (L.stands looks.now) (L.shows looks.now) own get.Unique
            hold (option_copied key.entry)) }
        ensures change { IfOk result (λ reply. FitsChange self.now.def.now self.now.number reply.change) }
        ensures shown { IfOk result (λ reply. ShowsSegment self.now.def.now reply.answer) }
    {
        match key {
            Some(key) if hold => {
                self.found_or(alloc, self.standing(looks, key), NO_SEGMENT, true)
            }
            Some(key) => self.found_or(alloc, self.visible(looks, key), NO_SEGMENT, false),
            None if hold => Ok(refused(alloc, NOT_SO)),
            None => self.found_or(alloc, self.visible_after(looks, None), NO_SEGMENT, false),
        }
    }

    fn get<L: SegmentLooks>(
        &self,
        alloc: Global,
        get: Get,
        hold: bool,
        key: Option<&[u8]>,
        position: &Position,
        looks: &L,
    ) -> Result<Reply, AllocError>
        requires { LookAt self.now.def.now (L.is_of looks.now self.now.def.now) (L.stands looks.now)
            (L.shows looks.now) }
        ensures reply { IfOk result (λ reply. (own : Workspace)
            → position_of self.now.def.now self.now.number own ≡ position.now
            → replied_by self.now.def.now self.now.number reply own
            ≡ get_reply self.now.def.now self.now.number (L.stands looks.now) (L.shows looks.now) own get hold
            (option_copied key.entry)) }
        ensures change { IfOk result (λ reply. FitsChange self.now.def.now self.now.number reply.change) }
        ensures shown { IfOk result (λ reply. ShowsSegment self.now.def.now reply.answer) }
    {
        match get {
            Get::Unique => self.unique(alloc, hold, key, looks),
            Get::Next if !hold => {
                self.found_or(
                    alloc,
                    self.visible_after(looks, position.key()),
                    NO_NEXT,
                    false,
                )
            }
            Get::Next | Get::NextInParent => Ok(refused(alloc, NOT_SO)),
        }
    }

    fn fld<L: SegmentLooks>(
        &self,
        alloc: Global,
        key: &Bytes,
        fsas: &Bytes,
        changed: bool,
        looks: &L,
    ) -> Result<Reply, AllocError>
        requires looks { LookAt self.now.def.now (L.is_of looks.now self.now.def.now) (L.stands looks.now)
            (L.shows looks.now) }
        requires key { FitsKey key.now self.now.def.now }
        requires list { IsFsaList fsas.now }
        ensures reply { IfOk result (λ reply. (own : Workspace)
            → is_put_or_dropped self.now.def.now self.now.number own key.now ≡ changed
            → replied_by self.now.def.now self.now.number reply own
            ≡ (if changed then refused self.now.def.now self.now.number own (codes "XP")
            else fld_reply self.now.def.now self.now.number own key.now fsas.now
            (segment_of self.now.def.now (L.shows looks.now) key.now))) }
        ensures change { IfOk result (λ reply. FitsChange self.now.def.now self.now.number reply.change) }
    {
        if changed {
            return Ok(refused(alloc, CHANGED));
        }
        let Some(segment) = self.visible(looks, key.as_slice()) else {
            return Ok(refused(alloc, NO_SEGMENT));
        };
        let tried = letters_on(alloc, self.def, fsas.as_slice(), segment)?;
        let mut reply = if tried.good {
            queued(
                alloc,
                Deferred::Fld {
                    msdb: self.number,
                    key: key.copy()?,
                    fsas: fsas.copy()?,
                },
            )
        } else {
            refused(alloc, BAD_ARGUMENT)
        };
        reply.answer.letters = tried.letters;
        Ok(reply)
    }

    fn repl(
        &self,
        alloc: Global,
        held: Option<&[u8]>,
        bytes: &Bytes,
        changed: bool,
    ) -> Result<Reply, AllocError>
        requires { FitsSegment bytes.now self.now.def.now }
        ensures reply { IfOk result (λ reply. (own : Workspace)
            → option_map_or (is_put_or_dropped self.now.def.now self.now.number own) (option_copied held.entry) false ≡
            changed
            → replied_by self.now.def.now self.now.number reply own
            ≡ if_held self.now.def.now self.now.number own (repl_reply self.now.def.now self.now.number own bytes.now)
            (option_copied held.entry)) }
        ensures change { IfOk result (λ reply. FitsChange self.now.def.now self.now.number reply.change) }
    {
        let Some(key) = held else {
            return Ok(refused(alloc, NOT_HELD));
        };
        if changed {
            return Ok(refused(alloc, CHANGED));
        }
        if key_in(self.def, bytes.as_slice()) != key {
            return Ok(refused(alloc, KEY_CHANGED));
        }
        Ok(queued(
            alloc,
            Deferred::Repl {
                msdb: self.number,
                bytes: bytes.copy()?,
            },
        ))
    }

    fn isrt<L: SegmentLooks>(
        &self,
        alloc: Global,
        bytes: &Bytes,
        changed: bool,
        looks: &L,
    ) -> Result<Reply, AllocError>
        requires looks { LookAt self.now.def.now (L.is_of looks.now self.now.def.now) (L.stands looks.now)
            (L.shows looks.now) }
        requires segment { FitsSegment bytes.now self.now.def.now }
        ensures reply { IfOk result (λ reply. (own : Workspace)
            → is_put_or_dropped self.now.def.now self.now.number own (key_of self.now.def.now.fields bytes.now) ≡
            changed
            → replied_by self.now.def.now self.now.number reply own
            ≡ isrt_reply self.now.def.now self.now.number (L.stands looks.now) own bytes.now) }
        ensures change { IfOk result (λ reply. FitsChange self.now.def.now self.now.number reply.change) }
    {
        if !self.def.dynamic {
            return Ok(refused(alloc, NOT_SO));
        }
        if changed {
            return Ok(refused(alloc, CHANGED));
        }
        if self
            .standing(looks, key_in(self.def, bytes.as_slice()))
            .is_some()
        {
            return Ok(refused(alloc, THERE));
        }
        Ok(queued(
            alloc,
            Deferred::Isrt {
                msdb: self.number,
                bytes: bytes.copy()?,
            },
        ))
    }

    fn dlet(&self, alloc: Global, held: Option<&[u8]>, changed: bool) -> Result<Reply, AllocError>
        requires { ForSome (option_copied held) (λ key. FitsKey key self.now.def.now) }
        ensures reply { IfOk result (λ reply. (own : Workspace)
            → option_map_or (is_put_or_dropped self.now.def.now self.now.number own) (option_copied held.entry) false ≡
            changed
            → replied_by self.now.def.now self.now.number reply own
            ≡ (if not self.now.def.now.dynamic then refused self.now.def.now self.now.number own (codes "AM")
            else if_held self.now.def.now self.now.number own (dlet_reply self.now.def.now self.now.number own)
            (option_copied held.entry))) }
        ensures change { IfOk result (λ reply. FitsChange self.now.def.now self.now.number reply.change) }
    {
        if !self.def.dynamic {
            return Ok(refused(alloc, NOT_SO));
        }
        let Some(key) = held else {
            return Ok(refused(alloc, NOT_HELD));
        };
        if changed {
            return Ok(refused(alloc, CHANGED));
        }
        Ok(queued(
            alloc,
            Deferred::Dlet {
                msdb: self.number,
                key: Bytes::from_slice(alloc, key)?,
            },
        ))
    }
}

impl Database<'_> {
    // The answer to a call that needs no more locks. `changed` says whether the queue inserts or deletes the segment
    // that the call is to change. It fails only for want of memory.
    pub(crate) fn reply<L: SegmentLooks>(
        &self,
        alloc: Global,
        work: &MsdbWork,
        call: &Call,
        changed: bool,
        looks: &L,
    ) -> Result<Reply, AllocError>
        requires looks { LookAt self.now.def.now (L.is_of looks.now self.now.def.now) (L.stands looks.now)
            (L.shows looks.now) }
        requires call { FitsCall call.now self.now.def.now }
        requires work { FitsMsdb self.now.def.now self.now.number work.now }
        requires changed { (own : Workspace)
            → is_changed self.now.def.now self.now.number (with_progress work.now own) call.now ≡ changed }
        ensures reply { IfOk result (λ reply. (own : Workspace)
            → replied_by self.now.def.now self.now.number reply (with_progress work.now own)
            ≡ msdb_reply self.now.def.now self.now.number (L.stands looks.now) (L.shows looks.now)
            (with_progress work.now own) call.now) }
        ensures change { IfOk result (λ reply. FitsChange self.now.def.now self.now.number reply.change) }
        ensures shown { IfOk result (λ reply. ShowsFound self.now.def.now call.now reply.answer) }
    {
        let position = work.position(self.number);
        match call {
            Call::Get {
                get,
                hold,
                ssas,
                ..
            } => self.get(alloc, *get, *hold, key_named(ssas), position, looks),
            Call::Fld { key, fsas, .. } => self.fld(alloc, key, fsas, changed, looks),
            Call::Repl { bytes, .. } => self.repl(alloc, position.held_key(), bytes, changed),
            Call::Isrt { bytes, .. } => self.isrt(alloc, bytes, changed, looks),
            Call::Dlet { .. } => self.dlet(alloc, position.held_key(), changed),
        }
    }
}
