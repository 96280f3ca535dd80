//! Settling a queue of deferred calls: the segments that it touches, beside the databases.
ghost use Rattle.fp_model.specs.FitCalls.{IsFitDeferred, IsFsaList};
ghost use Rattle.fp_model.specs.Fsas.{fsas_in};
ghost use Rattle.fp_model.specs.Settle.{settle};
ghost use Rattle.fp_model.specs.WellFormed.{StandFrom};
ghost use Rattle.fp_model.specs.declared.calls.Deferred.TheVariants.{Fld};
ghost use Rattle.fp_model.specs.declared.database.Msdb.{Msdb as MsdbOf};
ghost use Rattle.fp_model.specs.declared.definitions.MsdbDef.{MsdbDef as DefOf};
ghost use Rattle.fp_model.specs.declared.log.Item.TheVariants.{Segment};
ghost use Rattle.msdb_store.specs.Settling.{CanSettle, HasItem, IsAnswer, IsNamed, IsStaged, adds, key_in, named};
ghost use Rattle.msdb_store.specs.inside.Steps.{AtCall, IsChanged, IsGiven, IsStep, Stages};
ghost use Rattle.msdb_store.specs.Store.{IsOf, segment_in};
ghost use Rattle.std.specs.Option.{option_copied};
ghost use Rattle.std.specs.Prelude.{◌≡◌, ◌<◌, ◌^◌, ◌↔◌, ◌∷◌, [], ℕ, IfOk, List as ListOf, count_by, length};

use crate::keyed::key_in;
use crate::staged::{Staged, VerifyFault};
use crate::staging::{SegmentKey, Staging};
use crate::store::MsdbStore;
use fld_calls::{SettleFault, settle_list};
use fp_model::{Bytes, Deferred, FieldDef, Item, List};
use std::alloc::{AllocError, Global};

// A segment with the changes of field search arguments.
fn changed(
    alloc: Global,
    fields: &List<FieldDef>,
    fsas: &Bytes,
    segment: &[u8],
) -> Result<Bytes, SettleFault>
    requires fields { StandFrom 0 fields.now (length segment.now) }
    requires list { IsFsaList fsas.now }
    ensures { (def : DefOf) → def.fields ≡ fields.now → IsChanged def (fsas_in fsas.now) segment.now result }
{
    let mut bytes = Vec::from_slice(alloc, segment)?;
    settle_list(alloc, fields, fsas.as_slice(), &mut bytes)?;
    Ok(Bytes::from_vec(bytes))
}

// The item of one segment.
fn one_item(alloc: Global, key: SegmentKey, bytes: Bytes) -> Result<List<Item>, AllocError>
    ensures { IfOk result (λ items. items ≡ Segment key.msdb key.key.items bytes ∷ []) }
{
    let mut items = List::new(alloc);
    items.push(Item::Segment {
        msdb: key.msdb,
        key: Bytes::from_vec(key.key),
        bytes,
    })?;
    Ok(items)
}

impl MsdbStore {
    fn alloc(&self) -> Global {
        *self.tables.allocator()
    }

    // The segment of a key, as it is staged or else as the databases have it.
    fn current<'a>(&'a self, staging: &'a Staging, key: &SegmentKey) -> Option<&'a [u8]>
        requires { key.now.msdb < length self.now.msdbs }
        ensures { (defs : ListOf DefOf) → (now : ListOf MsdbOf) → IsOf defs self.now
            → Stages defs self.now.msdbs staging.now now
            → option_copied result ≡ segment_in defs now key.now.msdb key.now.key.items }
    {
        match staging.look(key) {
            Some(bytes) if bytes.is_empty() => None,
            Some(bytes) => Some(bytes.as_slice()),
            None => self.look(key.msdb, &key.key),
        }
    }

    // The key of a segment of a database.
    fn key_of<'a>(&self, msdb: u8, bytes: &'a Bytes) -> &'a [u8]
        requires { msdb < length self.now.msdbs }
        ensures { (defs : ListOf DefOf) → IsOf defs self.now → result.now ≡ key_in defs msdb bytes.now }
    {
        key_in(bytes.as_slice(), self.tables[msdb as usize].key_length())
    }

    // The key that a call names.
    fn named(&self, call: &Deferred) -> Result<SegmentKey, AllocError>
        requires { (defs : ListOf DefOf) × IsOf defs self.now × IsFitDeferred defs call.now }
        ensures { (defs : ListOf DefOf) → IsOf defs self.now → IsFitDeferred defs call.now
            → IfOk result (λ key. (key.msdb ≡ (named defs call.now).0) × (key.key.items ≡ (named defs call.now).1)) }
    {
        match call {
            Deferred::Fld { msdb, key, .. } => SegmentKey::new(self.alloc(), *msdb, key.as_slice()),
            Deferred::Repl { msdb, bytes } => {
                SegmentKey::new(self.alloc(), *msdb, self.key_of(*msdb, bytes))
            }
            Deferred::Isrt { msdb, bytes } => {
                SegmentKey::new(self.alloc(), *msdb, self.key_of(*msdb, bytes))
            }
            Deferred::Dlet { msdb, key } => SegmentKey::new(self.alloc(), *msdb, key.as_slice()),
        }
    }

    // The bytes that a field call gives its segment.
    fn given_by_field_call(
        &self,
        staging: &Staging,
        key: &SegmentKey,
        fsas: &Bytes,
    ) -> Result<Bytes, SettleFault>
        requires { (defs : ListOf DefOf) × (now : ListOf MsdbOf)
            × AtCall defs self.now staging.now now (Fld key.now.msdb key.now.key.items fsas.now) }
        ensures { (defs : ListOf DefOf) → (now : ListOf MsdbOf)
            → AtCall defs self.now staging.now now (Fld key.now.msdb key.now.key.items fsas.now)
            → IsGiven defs now (Fld key.now.msdb key.now.key.items fsas.now) result }
    {
        let Some(segment) = self.current(staging, key) else {
            return Err(SettleFault::Bad {
                place: u16::MAX,
                found: Bytes::new(self.alloc()),
            });
        };
        let fields = &self.tables[key.msdb as usize].fields;
        changed(self.alloc(), fields, fsas, segment)
    }

    // The bytes that a call gives its segment: none where it takes it away.
    fn given(
        &self,
        staging: &Staging,
        key: &SegmentKey,
        call: &Deferred,
    ) -> Result<Bytes, SettleFault>
        requires { (defs : ListOf DefOf) × (now : ListOf MsdbOf) × AtCall defs self.now staging.now now call.now
            × (key.now.msdb ≡ (named defs call.now).0) × (key.now.key.items ≡ (named defs call.now).1) }
        ensures { (defs : ListOf DefOf) → (now : ListOf MsdbOf) → AtCall defs self.now staging.now now call.now
            → IsGiven defs now call.now result }
    {
        match call {
            Deferred::Fld { fsas, .. } => self.given_by_field_call(staging, key, fsas),
            Deferred::Repl { bytes, .. } => Ok(bytes.copy()?),
            Deferred::Isrt { bytes, .. } => Ok(bytes.copy()?),
            Deferred::Dlet { .. } => Ok(Bytes::new(self.alloc())),
        }
    }

    // Settles one call.
    fn settle_call(&self, staging: &mut Staging, call: &Deferred) -> Result<(), SettleFault>
        requires { (defs : ListOf DefOf) × (now : ListOf MsdbOf) × AtCall defs self.now staging.old now call.now }
        ensures { (defs : ListOf DefOf) → (now : ListOf MsdbOf) → AtCall defs self.now staging.old now call.now
            → IsStep defs now call.now staging.old staging.new result }
    {
        let key = self.named(call)?;
        let bytes = self.given(staging, &key, call)?;
        staging.put(key, bytes)?;
        Ok(())
    }

    // How many of the items add a segment to the databases.
    fn count_new(&self, items: &List<Item>) -> u32
        requires few { length items.now < 2 ^ 32 }
        ensures { (defs : ListOf DefOf) → IsOf defs self.now → result ≡ count_by (adds defs self.now.msdbs) items.now }
    {
        let mut count = 0;
        for item in items.as_slice() {
            if self.lacks(item) {
                count += 1;
            }
        }
        count
    }

    // Whether an item adds a segment to the databases.
    fn lacks(&self, item: &Item) -> bool
        ensures { (defs : ListOf DefOf) → IsOf defs self.now → result ≡ adds defs self.now.msdbs item.now }
    {
        let Item::Segment { msdb, key, bytes } = item else {
            return false;
        };
        if bytes.is_empty() {
            return false;
        }
        if *msdb as usize >= self.tables.len() {
            return true;
        }
        self.look(*msdb, key.as_slice()).is_none()
    }

    // Settles a queue of one call, as most are.
    fn check_one(&self, call: &Deferred) -> Result<Staged, VerifyFault>
        requires fit { (defs : ListOf DefOf) × CanSettle defs self.now (call.now ∷ []) }
        ensures answer { (defs : ListOf DefOf) → CanSettle defs self.now (call.now ∷ [])
            → IsAnswer defs self.now.msdbs result (settle defs self.now.msdbs (call.now ∷ [])) }
        ensures staged { (defs : ListOf DefOf) → CanSettle defs self.now (call.now ∷ [])
            → IfOk result (IsStaged defs self.now.msdbs) }
        ensures keys { (defs : ListOf DefOf) → CanSettle defs self.now (call.now ∷ [])
            → IfOk result (λ staged. (number : ℕ) → (key : ListOf ℕ) → (HasItem staged.items number key)
            ↔ (IsNamed defs (call.now ∷ []) number key)) }
    {
        let key = self.named(call)?;
        let bytes = match self.given(&Staging::new(self.alloc()), &key, call) {
            Ok(bytes) => bytes,
            Err(fault) => return Err(VerifyFault::at(0, fault)),
        };
        let items = one_item(self.alloc(), key, bytes)?;
        let inserts = self.count_new(&items);
        Ok(Staged { items, inserts })
    }

    /// Settles a queue of deferred calls in its order, each on what those before it left, beside the databases. They
    /// stay as they are. Verify says that a field call fails, and which is the first.
    pub fn check(&self, deferred: &List<Deferred>) -> Result<Staged, VerifyFault>
        requires fit { (defs : ListOf DefOf) × CanSettle defs self.now deferred.now }
        requires few { length deferred.now < 2 ^ 32 }
        ensures answer { (defs : ListOf DefOf) → CanSettle defs self.now deferred.now
            → IsAnswer defs self.now.msdbs result (settle defs self.now.msdbs deferred.now) }
        ensures staged { (defs : ListOf DefOf) → CanSettle defs self.now deferred.now
            → IfOk result (IsStaged defs self.now.msdbs) }
        ensures keys { (defs : ListOf DefOf) → CanSettle defs self.now deferred.now
            → IfOk result (λ staged. (number : ℕ) → (key : ListOf ℕ) → (HasItem staged.items number key)
            ↔ (IsNamed defs deferred.now number key)) }
    {
        if let [only] = deferred.as_slice() {
            return self.check_one(only);
        }
        let mut staging = Staging::new(self.alloc());
        for (at, call) in deferred.as_slice().iter().enumerate() {
            match self.settle_call(&mut staging, call) {
                Ok(()) => {}
                Err(fault) => return Err(VerifyFault::at(at as u32, fault)),
            }
        }
        let items = staging.into_items(self.alloc())?;
        let inserts = self.count_new(&items);
        Ok(Staged { items, inserts })
    }
}
