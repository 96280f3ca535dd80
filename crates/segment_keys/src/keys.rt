//! Keys of the main storage databases, in order.
ghost use Rattle.std.specs.Prelude.{◌≡◌, ◌||◌, [], false, IfOk, IsTrue, OnErr, OnOk};
ghost use Rattle.fp_model.specs.Waiting.{same_resource};
ghost use Rattle.fp_model.specs.declared.calls.Resource.{Resource as ResourceOf};
ghost use Rattle.fp_model.specs.declared.calls.Resource.TheVariants.{Segment};
ghost use Rattle.std.specs.Option.{option_map};
ghost use Rattle.segment_keys.specs.Keys.{is_among, is_marked, resource_of};

use std::alloc::{AllocError, Global};
use std::collections::BTreeSet;
use std::marker::Model;

/// A segment of a main storage database: the database's number, and the bytes of the segment's key.
#[derive(PartialEq, Eq, PartialOrd, Ord, Drop)]
pub struct SegmentKey {
    msdb: u8,
    key: Vec<u8>,
}

impl SegmentKey {
    /// The segment with a key. Fails only for want of memory.
    pub fn new(alloc: Global, msdb: u8, key: &[u8]) -> Result<SegmentKey, AllocError>
        ensures { IfOk result (λ made. resource_of made ≡ Segment msdb key.now) }
    {
        Ok(SegmentKey {
            msdb,
            key: Vec::from_slice(alloc, key)?,
        })
    }
}

/// A set of segments. Contracts see them as the resources that they are, of which each call says what is among them.
#[derive(Drop)]
pub struct Keys {
    keys: BTreeSet<SegmentKey>,
}

impl Model for Keys {
    ghost use Rattle.std.specs.Prelude.{List, map};
    ghost use Rattle.fp_model.specs.declared.calls.Resource.{Resource};
    ghost use Rattle.segment_keys.specs.Keys.{resource_of};

    ghost Value = { List Resource };

    ghost view = { λ k. map resource_of k.keys.keys };
}

impl Keys {
    /// None. Takes no memory.
    pub fn new(alloc: Global) -> Keys
        ensures { result ≡ [] }
    {
        Keys {
            keys: BTreeSet::new(alloc),
        }
    }

    /// Whether there are none.
    pub fn is_empty(&self) -> bool
        ensures { IsTrue result → (resource : ResourceOf) → is_among self.now resource ≡ false }
    {
        self.keys.is_empty()
    }

    /// Whether a segment is among them.
    pub fn has(&self, key: &SegmentKey) -> bool
        ensures { result ≡ is_among self.now (resource_of key.now) }
    {
        self.keys.contains(key)
    }

    /// Puts a segment among them; it may be there already. Fails only for want of memory, and then nothing changes.
    pub fn put(&mut self, key: SegmentKey) -> Result<(), AllocError>
        ensures ok { OnOk result ((resource : ResourceOf)
            → is_among self.new resource ≡ (same_resource (resource_of key) resource || is_among self.old resource)) }
        ensures err { OnErr result (self.new ≡ self.old) }
    {
        self.keys.insert(key)?;
        Ok(())
    }

    /// Puts a segment among them, if there is one. Fails only for want of memory, and then nothing changes.
    pub fn put_some(&mut self, key: Option<SegmentKey>) -> Result<(), AllocError>
        ensures ok { OnOk result ((resource : ResourceOf)
            → is_among self.new resource ≡ (is_marked (option_map resource_of key) resource || is_among self.old
            resource)) }
        ensures err { OnErr result (self.new ≡ self.old) }
    {
        match key {
            Some(key) => self.put(key),
            None => Ok(()),
        }
    }
}
