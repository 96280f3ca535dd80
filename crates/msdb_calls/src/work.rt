//! What a transaction keeps of main storage databases until it commits.
ghost use Rattle.fp_model.specs.Workspace.{no_msdb_position};
ghost use Rattle.fp_model.specs.declared.calls.Resource.{Resource as ResourceOf};
ghost use Rattle.msdb_calls.specs.Progress.{IsMsdbWorkOf, position_in};
ghost use Rattle.msdb_calls.specs.inside.Replies.{let_go, mark_in, mark_of, positions_behind, queue_behind};
ghost use Rattle.segment_keys.specs.Keys.{is_among, is_marked, resource_of};
ghost use Rattle.std.specs.Option.{option_copied, option_map};
ghost use Rattle.std.specs.Prelude.{◌≡◌, ◌<◌, ◌++◌, ◌∷◌, ◌||◌, [], IfOk, IsTrue, List as ListOf, None, OnErr, OnOk, Some, false, if◌then◌else◌, length, map, slice_set};

use crate::database::key_in;
use crate::reply::Change;
use fp_model::{Bytes, Deferred, Defs, List, MsdbDef};
use segment_keys::{Keys, SegmentKey};
use std::alloc::{AllocError, Global};
use std::marker::Model;

// Of one database: the key of the segment found last, and whether the last call to the database was a hold get that
// found it.
#[derive(Drop)]
pub(crate) struct Position {
    key: Option<Bytes>,
    held: bool,
}

impl Model for Position {
    ghost use Rattle.fp_model.specs.Workspace.{MsdbPosition};

    ghost Value = { MsdbPosition };

    ghost view = { λ p. record { key = p.key; held = p.held } };
}

impl Position {
    fn new() -> Position
        ensures { result ≡ no_msdb_position }
    {
        Position {
            key: None,
            held: false,
        }
    }

    pub(crate) fn key(&self) -> Option<&[u8]>
        ensures { option_copied result ≡ self.now.key }
    {
        match &self.key {
            Some(key) => Some(key.as_slice()),
            None => None,
        }
    }

    // The key of the segment that is held.
    pub(crate) fn held_key(&self) -> Option<&[u8]>
        ensures { option_copied result ≡ (if self.now.held then self.now.key else None) }
    {
        if self.held { self.key() } else { None }
    }
}

// Without its last element.
fn drop_last<T: Drop>(list: &mut List<T>)
    ensures { (front : ListOf T) (last : T) → list.old ≡ front ++ last ∷ [] → list.new ≡ front }
{
    let _ = list.pop();
}

/// What one transaction keeps of main storage databases until it commits: its positions, its deferred calls, and the
/// keys whose segments these insert or delete.
#[derive(Drop)]
pub struct MsdbWork {
    positions: Vec<Position>,
    /// In call order.
    deferred: List<Deferred>,
    changed: Keys,
}

impl Model for MsdbWork {
    ghost use Rattle.msdb_calls.specs.Progress.{MsdbProgress};

    ghost Value = { MsdbProgress };

    ghost view = { λ w. record { positions = w.positions.items; deferred = w.deferred; changed = w.changed } };
}

impl MsdbWork {
    /// As a transaction begins: no positions, nothing deferred. It fails only for want of memory.
    pub fn new(alloc: Global, defs: &Defs) -> Result<MsdbWork, AllocError>
        ensures of { IfOk result (IsMsdbWorkOf defs.now.msdbs) }
        ensures begins { IfOk result (λ work. work ≡ record {
          positions = map (λ def. no_msdb_position) defs.now.msdbs;
          deferred = [];
          changed = [];
        }) }
    {
        let mut positions = Vec::new(alloc);
        for _ in 0..defs.msdbs.len() {
            positions.push(Position::new())?;
        }
        Ok(MsdbWork {
            positions,
            deferred: List::new(alloc),
            changed: Keys::new(alloc),
        })
    }

    /// The deferred calls, in call order.
    pub fn deferred(&self) -> &List<Deferred>
        ensures { result.now ≡ self.now.deferred }
    {
        &self.deferred
    }

    /// What the commit is to settle: the deferred calls, in call order. They are handed on, and not copied.
    pub fn into_deferred(self) -> List<Deferred>
        ensures { result ≡ self.deferred }
    {
        self.deferred
    }
}

// The keys whose segments the queue inserts or deletes.
impl MsdbWork {
    // Whether there are none.
    pub(crate) fn changes_none(&self) -> bool
        ensures { IsTrue result → (resource : ResourceOf) → is_among self.now.changed resource ≡ false }
    {
        self.changed.is_empty()
    }

    // Whether a key is one.
    pub(crate) fn changes(&self, key: &SegmentKey) -> bool
        ensures { result ≡ is_among self.now.changed (resource_of key.now) }
    {
        self.changed.has(key)
    }
}

impl MsdbWork {
    // The position in a database.
    pub(crate) fn position(&self, msdb: u8) -> &Position
        requires { msdb < length self.now.positions }
        ensures { result.now ≡ position_in self.now msdb }
    {
        &self.positions[msdb as usize]
    }

    // What becomes of it behind an answer. It fails only for want of memory, and then nothing changes.
    pub(crate) fn settle(
        &mut self,
        def: &MsdbDef,
        msdb: u8,
        change: Change,
    ) -> Result<(), AllocError>
        requires { msdb < length self.old.positions }
        ensures positions { OnOk result (self.new.positions ≡ positions_behind msdb change self.old.positions) }
        ensures deferred { OnOk result (self.new.deferred ≡ queue_behind change self.old.deferred) }
        ensures changed { OnOk result ((resource : ResourceOf)
            → is_among self.new.changed resource ≡ (is_marked (mark_in def.now change) resource || is_among
            self.old.changed resource)) }
        ensures err { OnErr result (self.new ≡ self.old) }
    {
        match change {
            Change::Nothing => self.let_go(msdb),
            Change::Found { key, hold } => self.find(msdb, key, hold),
            Change::Queued(deferred) => {
                self.queue(def, deferred)?;
                self.let_go(msdb);
            }
        }
        Ok(())
    }
}

// The parts of settling.
impl MsdbWork {
    // Holds no segment of the database.
    fn let_go(&mut self, msdb: u8)
        requires { msdb < length self.old.positions }
        ensures { self.new ≡ record self.old { positions = let_go msdb self.old.positions } }
    {
        self.positions[msdb as usize].held = false;
    }

    // Is at a segment, and holds it or not.
    fn find(&mut self, msdb: u8, key: Bytes, hold: bool)
        requires { msdb < length self.old.positions }
        ensures { self.new ≡ record self.old {
          positions = slice_set self.old.positions msdb (record { key = Some key; held = hold });
        } }
    {
        self.positions[msdb as usize] = Position {
            key: Some(key),
            held: hold,
        };
    }

    // Puts a call at the end of the queue, and marks the key whose segment it inserts or deletes.
    fn queue(&mut self, def: &MsdbDef, deferred: Deferred) -> Result<(), AllocError>
        ensures positions { self.new.positions ≡ self.old.positions }
        ensures deferred { OnOk result (self.new.deferred ≡ self.old.deferred ++ deferred ∷ []) }
        ensures changed { OnOk result ((resource : ResourceOf)
            → is_among self.new.changed resource ≡ (is_marked (mark_of def.now deferred) resource || is_among
            self.old.changed resource)) }
        ensures err { OnErr result (self.new ≡ self.old) }
    {
        let mark = marked_by(*self.positions.allocator(), def, &deferred)?;
        self.deferred.push(deferred)?;
        if let Err(error) = self.changed.put_some(mark) {
            drop_last(&mut self.deferred);
            return Err(error);
        }
        Ok(())
    }
}

// The key whose segment a deferred call inserts or deletes.
fn marked_by(
    alloc: Global,
    def: &MsdbDef,
    deferred: &Deferred,
) -> Result<Option<SegmentKey>, AllocError>
    ensures { IfOk result (λ mark. option_map resource_of mark ≡ mark_of def.now deferred.now) }
{
    match deferred {
        Deferred::Isrt { msdb, bytes } => Ok(Some(SegmentKey::new(
            alloc,
            *msdb,
            key_in(def, bytes.as_slice()),
        )?)),
        Deferred::Dlet { msdb, key } => { Ok(Some(SegmentKey::new(alloc, *msdb, key.as_slice())?)) }
        Deferred::Fld { .. } | Deferred::Repl { .. } => Ok(None),
    }
}
