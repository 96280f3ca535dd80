//! The store.
ghost use Rattle.fp_model.specs.CheckpointText.{IsMsdbOf};
ghost use Rattle.fp_model.specs.State.{key_of, loaded as load_of, start};
ghost use Rattle.fp_model.specs.WellFormed.{IsMsdbDef};
ghost use Rattle.std.specs.Cmp.Lexicographic.{slice_cmp};
ghost use Rattle.std.specs.List.{AllZip};
ghost use Rattle.std.specs.List.Sorted.{IsPermutation, IsSortedByKey};
ghost use Rattle.std.specs.Ordering.{nat_cmp};
ghost use Rattle.msdb_store.specs.inside.Putting.{AreFew};
ghost use Rattle.msdb_store.specs.inside.Rooms.{msdb_of, room_of};
ghost use Rattle.msdb_store.specs.Store.{least};
ghost use Rattle.std.specs.Prelude.{◌≡◌, ◌≤◌, ◌<◌, ◌^◌, [], ◌∷◌, ◌++◌, IfOk, OnOk, length, map, take};

use crate::keyed::key_in;
use crate::staged::Staged;
use crate::table::Table;
use fp_model::{Bytes, Defs, Item, List, Msdb, MsdbDef, key_length};
use std::alloc::{AllocError, Global};
use std::cmp::Ordering;
use std::marker::Model;

/// The segments of the main storage databases, by key. Contracts see the fields of each database's segments, the
/// databases, and how many segments each of them takes without more memory. The database of number n is the one that
/// the definitions have in place n, counted from 0.
#[derive(Drop)]
pub struct MsdbStore {
    pub(crate) tables: Vec<Table>,
}

impl Model for MsdbStore {
    ghost use Rattle.std.specs.Prelude.{length, map};
    ghost use Rattle.msdb_store.specs.Store.{Stored, least, room};

    ghost Value = { Stored };

    ghost view = { λ s. record {
      layouts = map (λ t. t.fields) s.tables.items;
      msdbs = map (λ t. record { segments = t.segments.items }) s.tables.items;
      spare = least (map (λ t. room t.segments.capacity (length t.segments.items)) s.tables.items);
    } };
}

// The segments that a definition loads, by ascending key.
fn sorted_load(def: &MsdbDef) -> Result<Vec<Bytes>, AllocError>
    ensures same { IfOk result (λ load. IsPermutation def.now.load load.items) }
    ensures sorted { IfOk result (λ load. IsSortedByKey (key_of def.now.fields) (slice_cmp nat_cmp) load.items) }
{
    let count = usize::from(key_length(def.fields.as_slice()));
    let mut load = def.load.clone()?.into_vec();
    load.sort_by(
        |one: &Bytes, other: &Bytes| -> Ordering
            ensures { result ≡ slice_cmp nat_cmp (take count one.now) (take count other.now) }
        { key_in(one.as_slice(), count).cmp(key_in(other.as_slice(), count)) },
    )?;
    Ok(load)
}

// The table of the segments that a definition loads.
fn loaded(alloc: Global, def: &MsdbDef) -> Result<Table, AllocError>
    requires { IsMsdbDef def.now }
    ensures fields { IfOk result (λ t. t.fields ≡ def.now.fields) }
    ensures segments { IfOk result (λ t. t.segments.items ≡ (load_of def.now).segments) }
    ensures good { IfOk result (λ t. IsMsdbOf def.now (record { segments = t.segments.items })) }
    ensures few { IfOk result (λ t. length t.segments.items < 2 ^ 32) }
{
    Table::new(alloc, def, sorted_load(def)?)
}

// Adds the table of a definition and its database behind those before.
fn add_table(
    alloc: Global,
    def: &MsdbDef,
    msdb: Msdb,
    tables: &mut Vec<Table>,
) -> Result<(), AllocError>
    ensures layouts { OnOk result (map (λ t. t.fields) tables.new.items
        ≡ map (λ t. t.fields) tables.old.items ++ def.now.fields ∷ []) }
    ensures msdbs { OnOk result (map msdb_of tables.new.items ≡ map msdb_of tables.old.items ++ msdb ∷ []) }
    ensures few { AreFew (map msdb_of tables.old.items) → OnOk result (AreFew (map msdb_of tables.new.items)) }
{
    tables.push(Table::new(alloc, def, msdb.segments.into_vec())?)?;
    Ok(())
}

// Makes room for so many segments more in each table.
fn make_room(tables: &mut [Table], n: usize) -> Result<(), AllocError>
    requires { n < 2 ^ 32 }
    ensures ok { OnOk result (n ≤ least (map room_of tables.new)) }
    ensures more { least (map room_of tables.old) ≤ least (map room_of tables.new) }
    ensures stays { n ≤ least (map room_of tables.old) → tables.new ≡ tables.old }
    ensures layouts { map (λ t. t.fields) tables.new ≡ map (λ t. t.fields) tables.old }
    ensures msdbs { map msdb_of tables.new ≡ map msdb_of tables.old }
    ensures few { OnOk result (AreFew (map msdb_of tables.new)) }
{
    for table in tables.iter_mut() {
        table.reserve(n)?;
    }
    Ok(())
}

impl MsdbStore {
    ghost use Rattle.fp_model.specs.Items.{with_item, with_items};
    ghost use Rattle.msdb_store.specs.inside.Putting.{CanPut, KeepsRoom};
    ghost use Rattle.msdb_store.specs.Settling.{adds};
    ghost use Rattle.msdb_store.specs.Store.{IsFitSegment, IsOf, found, found_after};
    ghost use Rattle.std.specs.List.{AllByRecursion};
    ghost use Rattle.std.specs.Option.{option_copied, option_map};
    ghost use Rattle.std.specs.Prelude.{IsOk, List as ListOf, Some, false, slice_get};
    ghost use Rattle.fp_model.specs.declared.database.Msdb.{Msdb as MsdbOf};
    ghost use Rattle.fp_model.specs.declared.definitions.MsdbDef.{MsdbDef as DefOf};
    ghost use Rattle.fp_model.specs.declared.log.Item.TheVariants.{Segment};

    /// The store of these databases, which are those of the definitions. It fails for want of memory, and where a
    /// database has 2^32 segments.
    pub fn new(alloc: Global, defs: &Defs, msdbs: List<Msdb>) -> Result<MsdbStore, AllocError>
        requires { AllZip IsMsdbOf defs.now.msdbs msdbs }
        ensures of { IfOk result (IsOf defs.now.msdbs) }
        ensures msdbs { IfOk result (λ store. store.msdbs ≡ msdbs) }
        ensures few { IfOk result (λ store. AllByRecursion (λ msdb. length msdb.segments < 2 ^ 32) store.msdbs) }
    {
        let mut tables = Vec::new(alloc);
        for (def, msdb) in defs.msdbs.as_slice().iter().zip(msdbs.into_vec()) {
            add_table(alloc, def, msdb, &mut tables)?;
        }
        Ok(MsdbStore { tables })
    }

    /// The store of the state before any transaction: the segments that the definitions load, by key. It fails for want
    /// of memory, and where a database has 2^32 segments.
    pub fn start(alloc: Global, defs: &Defs) -> Result<MsdbStore, AllocError>
        requires { AllByRecursion IsMsdbDef defs.now.msdbs }
        ensures of { IfOk result (IsOf defs.now.msdbs) }
        ensures msdbs { IfOk result (λ store. store.msdbs ≡ (start defs.now).msdbs) }
        ensures few { IfOk result (λ store. AllByRecursion (λ msdb. length msdb.segments < 2 ^ 32) store.msdbs) }
    {
        let mut tables = Vec::new(alloc);
        for def in defs.msdbs.as_slice() {
            tables.push(loaded(alloc, def)?)?;
        }
        Ok(MsdbStore { tables })
    }

    /// The segment of a key in the database of this number. None exactly where there is none. Takes no memory.
    pub fn look(&self, msdb: u8, key: &[u8]) -> Option<&[u8]>
        requires { msdb < length self.now.msdbs }
        ensures { (defs : ListOf DefOf) → IsOf defs self.now → option_copied result ≡ found defs self.now msdb key.now }
    {
        self.tables[msdb as usize].look(key)
    }

    /// The first segment with a greater key, or the first of all, in the database of this number. None exactly where
    /// there is none. Takes no memory.
    pub fn after(&self, msdb: u8, key: Option<&[u8]>) -> Option<&[u8]>
        requires { msdb < length self.now.msdbs }
        ensures { (defs : ListOf DefOf) → IsOf defs self.now
            → option_copied result ≡ found_after defs self.now msdb (option_copied key.entry) }
    {
        match key {
            None => self.tables[msdb as usize].at(0),
            Some(key) => self.tables[msdb as usize].above(key),
        }
    }

    /// The segment at a place, counted from 0 in ascending order of keys, in the database of this number; it is lent.
    /// None exactly where there are no more. Takes no memory.
    pub fn segment_at(&self, msdb: u8, place: usize) -> Option<&[u8]>
        requires { msdb < length self.now.msdbs }
        ensures { (its : MsdbOf) → slice_get self.now.msdbs msdb ≡ Some its
            → option_copied result ≡ slice_get its.segments place }
    {
        self.tables[msdb as usize].at(place)
    }

    /// How many segments the database of this number has. Takes no memory.
    pub fn count(&self, msdb: u8) -> usize
        requires { msdb < length self.now.msdbs }
        ensures { (its : MsdbOf) → slice_get self.now.msdbs msdb ≡ Some its → result ≡ length its.segments }
    {
        self.tables[msdb as usize].count()
    }

    /// A copy of all databases. It fails only for want of memory.
    pub fn databases(&self, alloc: Global) -> Result<List<Msdb>, AllocError>
        ensures { IfOk result (λ msdbs. msdbs ≡ self.now.msdbs) }
    {
        let mut msdbs = List::new(alloc);
        for table in &self.tables {
            msdbs.push(table.database(alloc)?)?;
        }
        Ok(msdbs)
    }

    /// Puts the segments of items in their order; no bytes take a segment away, and other items are left aside. It
    /// fails for want of memory, and where a database would have 2^32 segments. Then the items up to some one are put,
    /// and the store is to be thrown away.
    pub fn apply(&mut self, items: &List<Item>) -> Result<(), AllocError>
        ensures msdbs { (defs : ListOf DefOf) → IsOf defs self.old → AllByRecursion (IsFitSegment defs) items.now
            → OnOk result (self.new.msdbs ≡ with_items defs self.old.msdbs items.now) }
        ensures of { (defs : ListOf DefOf) → IsOf defs self.old → AllByRecursion (IsFitSegment defs) items.now
            → IsOf defs self.new }
        ensures count { length self.new.msdbs ≡ length self.old.msdbs }
        ensures few { AllByRecursion (λ msdb. length msdb.segments < 2 ^ 32) self.old.msdbs
            → AllByRecursion (λ msdb. length msdb.segments < 2 ^ 32) self.new.msdbs }
    {
        for item in items.as_slice() {
            self.put_item(item)?;
        }
        Ok(())
    }

    // Puts the segment of one item.
    fn put_item(&mut self, item: &Item) -> Result<(), AllocError>
        ensures msdbs { (defs : ListOf DefOf) → IsOf defs self.old → IsFitSegment defs item.now
            → OnOk result (self.new.msdbs ≡ with_item defs self.old.msdbs item.now) }
        ensures of { (defs : ListOf DefOf) → IsOf defs self.old → IsFitSegment defs item.now → IsOf defs self.new }
        ensures count { length self.new.msdbs ≡ length self.old.msdbs }
        ensures few { AreFew self.old.msdbs → AreFew self.new.msdbs }
        ensures done { (defs : ListOf DefOf) → CanPut defs self.old item.now
            → adds defs self.old.msdbs item.now ≡ false → IsOk result }
        ensures room { (defs : ListOf DefOf) → CanPut defs self.old item.now
            → KeepsRoom self.old self.new (adds defs self.old.msdbs item.now) }
    {
        match item {
            Item::Segment { msdb, key, bytes } => {
                self.copy_segment(*msdb, key.as_slice(), bytes.as_slice())
            }
            Item::Image { .. } | Item::Range { .. } => Ok(()),
        }
    }

    // Puts a copy of a segment in place of that of its key, or takes that one away where there are no bytes. It fails
    // for want of memory, and takes none but where it adds a segment.
    fn copy_segment(&mut self, msdb: u8, key: &[u8], bytes: &[u8]) -> Result<(), AllocError>
        ensures msdbs { (defs : ListOf DefOf) → IsOf defs self.old → IsFitSegment defs (Segment msdb key.now bytes.now)
            → OnOk result (self.new.msdbs ≡ with_item defs self.old.msdbs (Segment msdb key.now bytes.now)) }
        ensures of { (defs : ListOf DefOf) → IsOf defs self.old → IsFitSegment defs (Segment msdb key.now bytes.now)
            → IsOf defs self.new }
        ensures count { length self.new.msdbs ≡ length self.old.msdbs }
        ensures few { AreFew self.old.msdbs → AreFew self.new.msdbs }
        ensures done { (defs : ListOf DefOf) → CanPut defs self.old (Segment msdb key.now bytes.now)
            → adds defs self.old.msdbs (Segment msdb key.now bytes.now) ≡ false → IsOk result }
        ensures room { (defs : ListOf DefOf) → CanPut defs self.old (Segment msdb key.now bytes.now)
            → KeepsRoom self.old self.new (adds defs self.old.msdbs (Segment msdb key.now bytes.now)) }
    {
        let at = msdb as usize;
        if at >= self.tables.len() {
            return Ok(());
        }
        if bytes.is_empty() {
            self.tables[at].take_away(key);
            return Ok(());
        }
        let alloc = *self.tables.allocator();
        self.tables[at].put_copy(alloc, bytes)
    }

    // Puts a segment in place of that of its key, or takes that one away where there are no bytes. It fails for want of
    // memory, where it adds a segment and there is no room for it.
    fn put_segment(&mut self, msdb: u8, key: &[u8], bytes: Bytes) -> Result<(), AllocError>
        ensures msdbs { (defs : ListOf DefOf) → IsOf defs self.old → IsFitSegment defs (Segment msdb key.now bytes)
            → OnOk result (self.new.msdbs ≡ with_item defs self.old.msdbs (Segment msdb key.now bytes)) }
        ensures of { (defs : ListOf DefOf) → IsOf defs self.old → IsFitSegment defs (Segment msdb key.now bytes)
            → IsOf defs self.new }
        ensures count { length self.new.msdbs ≡ length self.old.msdbs }
        ensures few { AreFew self.old.msdbs → AreFew self.new.msdbs }
        ensures done { (defs : ListOf DefOf) → CanPut defs self.old (Segment msdb key.now bytes) → IsOk result }
        ensures room { (defs : ListOf DefOf) → CanPut defs self.old (Segment msdb key.now bytes)
            → KeepsRoom self.old self.new (adds defs self.old.msdbs (Segment msdb key.now bytes)) }
    {
        let at = msdb as usize;
        if at >= self.tables.len() {
            return Ok(());
        }
        if bytes.is_empty() {
            self.tables[at].take_away(key);
            return Ok(());
        }
        self.tables[at].put(bytes)
    }
}

impl MsdbStore {
    ghost use Rattle.fp_model.specs.Items.{with_item, with_items};
    ghost use Rattle.fp_model.specs.declared.definitions.MsdbDef.{MsdbDef as DefOf};
    ghost use Rattle.msdb_store.specs.inside.Putting.{CanPut, KeepsRoom};
    ghost use Rattle.msdb_store.specs.Settling.{IsStaged, adds};
    ghost use Rattle.msdb_store.specs.Store.{IsOf};
    ghost use Rattle.std.specs.List.{AllByRecursion};
    ghost use Rattle.std.specs.Prelude.{◌+◌, List as ListOf};

    /// Makes room, so that each database takes so many segments more without memory. It fails for want of memory, and
    /// where a database would have 2^32 segments. The databases stay as they are, and where there is room already, that
    /// stays too.
    pub fn reserve(&mut self, n: u32) -> Result<(), AllocError>
        ensures spare { OnOk result (n ≤ self.new.spare) }
        ensures more { self.old.spare ≤ self.new.spare }
        ensures stays { n ≤ self.old.spare → self.new ≡ self.old }
        ensures layouts { self.new.layouts ≡ self.old.layouts }
        ensures msdbs { self.new.msdbs ≡ self.old.msdbs }
        ensures few { OnOk result (AllByRecursion (λ msdb. length msdb.segments < 2 ^ 32) self.new.msdbs) }
    {
        make_room(&mut self.tables, n as usize)
    }

    /// Gives the databases what was staged. Takes no memory. It was staged on the databases as they are, and there is
    /// room for the segments that they lack.
    pub fn publish(&mut self, staged: Staged)
        requires staged { (defs : ListOf DefOf) × IsOf defs self.old × IsStaged defs self.old.msdbs staged }
        requires room { staged.inserts ≤ self.old.spare }
        ensures msdbs { (defs : ListOf DefOf) → IsOf defs self.old → IsStaged defs self.old.msdbs staged
            → self.new.msdbs ≡ with_items defs self.old.msdbs staged.items }
        ensures of { (defs : ListOf DefOf) → IsOf defs self.old → IsStaged defs self.old.msdbs staged
            → IsOf defs self.new }
        ensures spare { self.old.spare ≤ self.new.spare + staged.inserts }
        ensures few { AllByRecursion (λ msdb. length msdb.segments < 2 ^ 32) self.old.msdbs
            → AllByRecursion (λ msdb. length msdb.segments < 2 ^ 32) self.new.msdbs }
    {
        let Staged { items, inserts: _ } = staged;
        for item in items.into_vec() {
            self.publish_item(item);
        }
    }

    /// Gives the databases items that add no segment, and keeps none of them. Takes no memory. They were staged on the
    /// databases as they are.
    pub fn publish_over(&mut self, items: &List<Item>)
        requires staged { (defs : ListOf DefOf) × IsOf defs self.old
            × IsStaged defs self.old.msdbs (record { items = items.now; inserts = 0 }) }
        ensures msdbs { (defs : ListOf DefOf) → IsOf defs self.old
            → IsStaged defs self.old.msdbs (record { items = items.now; inserts = 0 })
            → self.new.msdbs ≡ with_items defs self.old.msdbs items.now }
        ensures of { (defs : ListOf DefOf) → IsOf defs self.old
            → IsStaged defs self.old.msdbs (record { items = items.now; inserts = 0 }) → IsOf defs self.new }
        ensures spare { (defs : ListOf DefOf) → IsOf defs self.old
            → IsStaged defs self.old.msdbs (record { items = items.now; inserts = 0 })
            → self.old.spare ≤ self.new.spare }
        ensures few { AllByRecursion (λ msdb. length msdb.segments < 2 ^ 32) self.old.msdbs
            → AllByRecursion (λ msdb. length msdb.segments < 2 ^ 32) self.new.msdbs }
    {
        for item in items.as_slice() {
            // It adds no segment, so it takes no memory and is done.
            let _ = self.put_item(item);
        }
    }

    // Gives the databases the segment of one item.
    fn publish_item(&mut self, item: Item)
        ensures msdbs { (defs : ListOf DefOf) → CanPut defs self.old item
            → self.new.msdbs ≡ with_item defs self.old.msdbs item }
        ensures of { (defs : ListOf DefOf) → CanPut defs self.old item → IsOf defs self.new }
        ensures room { (defs : ListOf DefOf) → CanPut defs self.old item
            → KeepsRoom self.old self.new (adds defs self.old.msdbs item) }
    {
        match item {
            Item::Segment { msdb, key, bytes } => {
                // There is room for it, so it takes no memory and is done.
                let _ = self.put_segment(msdb, key.as_slice(), bytes);
            }
            Item::Image { .. } | Item::Range { .. } => {}
        }
    }
}
