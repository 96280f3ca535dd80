//! The store over a small database: what stands at a key, and behind it.
ghost use Rattle.fp_model.specs.declared.definitions.MsdbDef.{MsdbDef as DefOf};
ghost use Rattle.std.specs.Prelude.{◌≡◌, ◌∷◌, [], IfOk, length};

use crate::accounts::defs;
use fp_model::{Bytes, Defs, Item, List, Msdb};
use msdb_store::MsdbStore;
use std::alloc::{AllocError, Global};
use std::test::Fail;

// An empty store.
fn empty(alloc: Global, defs: &Defs) -> Result<MsdbStore, AllocError>
    requires { (def : DefOf) × (defs.now.msdbs ≡ def ∷ []) }
    ensures { IfOk result (λ store. length store.msdbs ≡ 1) }
{
    let mut msdbs = List::new(alloc);
    msdbs.push(Msdb {
        segments: List::new(alloc),
    })?;
    MsdbStore::new(alloc, defs, msdbs)
}

// Segments in any order, one of them twice, one taken away again, and one that isn't there taken away. Keys are in the
// order of their bytes, whatever they are.
static SEGMENTS: [(&[u8], &[u8]); 8] = [
    (b"\x80\x00\x00\x00", b"\x80\x00\x00\x00eeee"),
    (b"\x00\x00\x00\xff", b"\x00\x00\x00\xffffff"),
    (b"C003", b"C003dddd"),
    (b"A001", b"A001aaaa"),
    (b"B002", b"B002bbbb"),
    (b"A001", b"A001cccc"),
    (b"B002", b""),
    (b"X999", b""),
];

fn items(alloc: Global) -> Result<List<Item>, AllocError> {
    let mut items = List::new(alloc);
    for (key, bytes) in &SEGMENTS {
        items.push(Item::Segment {
            msdb: 0,
            key: Bytes::from_slice(alloc, key)?,
            bytes: Bytes::from_slice(alloc, bytes)?,
        })?;
    }
    Ok(items)
}

// A key, and the segment that stands there.
static AT: [(&[u8], Option<&[u8]>); 6] = [
    (b"\x80\x00\x00\x00", Some(b"\x80\x00\x00\x00eeee")),
    (b"\x00\x00\x00\x80", None),
    (b"A001", Some(b"A001cccc")),
    (b"B002", None),
    (b"C003", Some(b"C003dddd")),
    (b"C004", None),
];

// A key or none, and the segment that is the first behind it.
static AFTER: [(Option<&[u8]>, Option<&[u8]>); 6] = [
    (None, Some(b"\x00\x00\x00\xffffff")),
    (Some(b"\x00\x00\x00\xff"), Some(b"A001cccc")),
    (Some(b"A000"), Some(b"A001cccc")),
    (Some(b"A001"), Some(b"C003dddd")),
    (Some(b"C003"), Some(b"\x80\x00\x00\x00eeee")),
    (Some(b"\xff\xff\xff\xff"), None),
];

// Puts the segments into a store.
fn fill(alloc: Global, store: &mut MsdbStore) -> Result<(), AllocError>
    ensures { length store.new.msdbs ≡ length store.old.msdbs }
{
    store.apply(&items(alloc)?)
}

// A store of the segments.
fn filled(alloc: Global) -> Result<MsdbStore, AllocError>
    ensures { IfOk result (λ store. length store.msdbs ≡ 1) }
{
    let defs = defs(alloc, true)?;
    let store = empty(alloc, &defs);
    drop(defs);
    let mut store = store?;
    fill(alloc, &mut store)?;
    Ok(store)
}

// The first key at which something else stands.
fn first_other_at(store: &MsdbStore) -> Option<usize>
    requires { length store.now.msdbs ≡ 1 }
{
    for (place, (key, wanted)) in AT.iter().enumerate() {
        if store.look(0, key) != *wanted {
            return Some(place);
        }
    }
    None
}

// The first row behind whose key something else stands.
fn first_other_behind(store: &MsdbStore) -> Option<usize>
    requires { length store.now.msdbs ≡ 1 }
{
    for (place, (key, wanted)) in AFTER.iter().enumerate() {
        if store.after(0, *key) != *wanted {
            return Some(place);
        }
    }
    None
}

#[test]
fn segments_stand_by_key(rt: HostRuntime) -> Result<(), Fail> {
    let store = filled(rt.alloc())?;
    let (at, behind) = (first_other_at(&store), first_other_behind(&store));
    drop(store);
    assert!(rt; at.is_none(), "at {at:?}");
    assert!(rt; behind.is_none(), "behind {behind:?}");
    Ok(())
}
