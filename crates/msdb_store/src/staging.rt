//! The segments that settling touches, beside the databases.
ghost use Rattle.msdb_store.specs.inside.Touches.{AreInOrder, bytes_at, item_of, put_touch};
ghost use Rattle.std.specs.Option.{option_copied};
ghost use Rattle.std.specs.Prelude.{◌≡◌, [], IfOk, OnOk, map};

use fp_model::{Bytes, Item, List};
use std::alloc::{AllocError, Global};
use std::collections::BTreeMap;
use std::marker::Model;

// The key of a segment, with the number of its database.
#[derive(PartialEq, Eq, PartialOrd, Ord, Drop)]
pub(crate) struct SegmentKey {
    pub(crate) msdb: u8,
    pub(crate) key: Vec<u8>,
}

impl SegmentKey {
    // The key of these bytes. It fails only for want of memory.
    pub(crate) fn new(alloc: Global, msdb: u8, key: &[u8]) -> Result<SegmentKey, AllocError>
        ensures { IfOk result (λ made. (made.msdb ≡ msdb) × (made.key.items ≡ key.now)) }
    {
        Ok(SegmentKey {
            msdb,
            key: Vec::from_slice(alloc, key)?,
        })
    }
}

// What the segments are that settling has touched so far: by key their bytes, none where a segment is taken away.
#[derive(Drop)]
pub(crate) struct Staging {
    segments: BTreeMap<SegmentKey, Bytes>,
}

impl Model for Staging {
    ghost use Rattle.msdb_store.specs.Touches.{Touch};
    ghost use Rattle.std.specs.Prelude.{List as ListOf, map};

    ghost Value = { ListOf Touch };

    ghost view = { λ s. map (λ e. record { number = e.0.msdb; key = e.0.key.items; bytes = e.1 }) s.segments.entries };
}

impl Staging {
    // None touched.
    pub(crate) fn new(alloc: Global) -> Staging
        ensures { result ≡ [] }
    {
        Staging {
            segments: BTreeMap::new(alloc),
        }
    }

    // The bytes of a key. None where it isn't touched.
    pub(crate) fn look(&self, key: &SegmentKey) -> Option<&Bytes>
        ensures { option_copied result ≡ bytes_at self.now key.now.msdb key.now.key.items }
    {
        self.segments.get(key)
    }

    // Puts the bytes of a key in place of those that it has. It fails only for want of memory.
    pub(crate) fn put(&mut self, key: SegmentKey, bytes: Bytes) -> Result<(), AllocError>
        ensures { OnOk result (self.new ≡ put_touch (record { number = key.msdb; key = key.key.items; bytes = bytes })
            self.old) }
    {
        self.segments.insert(key, bytes)?;
        Ok(())
    }

    // An item for each. It fails only for want of memory.
    pub(crate) fn into_items(self, alloc: Global) -> Result<List<Item>, AllocError>
        ensures items { IfOk result (λ items. items ≡ map item_of self) }
        ensures in_order { IfOk result (λ items. AreInOrder self) }
    {
        let Staging { segments } = self;
        let mut items = List::new(alloc);
        for (key, bytes) in segments {
            items.push(Item::Segment {
                msdb: key.msdb,
                key: Bytes::from_vec(key.key),
                bytes,
            })?;
        }
        Ok(items)
    }
}
