//! Who holds each resource.
//!
//! A resource that some region holds has an entry: two words, a bit each for every region. No entry is empty, so a
//! range
//! of anchors has a holder where it has an entry. A lock that is raised leaves its old bit, and the stronger one
//! counts.
ghost use Rattle.ci_locks.specs.Holdings.{AreHeld, anchor_cmp, at_key, held_by, holders_in, mode_of};
ghost use Rattle.ci_locks.specs.Sets.{has};
ghost use Rattle.ci_locks.specs.Standing.{is_in_conflict};
ghost use Rattle.ci_locks.specs.inside.Standing.{raised};
ghost use Rattle.fp_model.specs.Texts.{same_text};
ghost use Rattle.fp_model.specs.Waiting.{same_resource};
ghost use Rattle.fp_model.specs.declared.calls.Resource.TheVariants.{Anchor};
ghost use Rattle.std.specs.BTreeMap.{get, is_at};
ghost use Rattle.std.specs.Option.{option_copied};
ghost use Rattle.std.specs.Prelude.{
  if◌then◌else◌,
  ◌≡◌,
  ◌≤◌,
  ◌+◌,
  ◌==◌,
  ◌&&◌,
  cond,
  not,
  true,
  false,
  length,
  ℕ,
  IfOk,
  IsSome,
  List as ListOf,
  None,
  OnErr,
  OnOk,
  Some,
};

use crate::sets::RegionSet;
use fp_model::{Mode, Resource};
use std::alloc::{AllocError, Global};
use std::collections::BTreeMap;

// The regions that hold one resource.
#[derive(Clone, Copy)]
pub(crate) struct Holders {
    pub(crate) share: RegionSet,
    pub(crate) exclusive: RegionSet,
}

impl Holders {
    // No region.
    pub(crate) fn nobody() -> Holders
        ensures { (region : ℕ) → mode_of result region ≡ None }
    {
        Holders {
            share: RegionSet::empty(),
            exclusive: RegionSet::empty(),
        }
    }

    // Whether no region is among them.
    fn is_nobody(self) -> bool
        ensures none { result ≡ true → (region : ℕ) → mode_of self region ≡ None }
        ensures some { result ≡ false → ((region : ℕ) × IsSome (mode_of self region)) }
    {
        self.share.or(self.exclusive).first().is_none()
    }

    // How a region holds it.
    pub(crate) fn mode_of(self, region: u8) -> Option<Mode>
        requires some { 1 ≤ region }
        requires most { region ≤ 64 }
        ensures { result ≡ mode_of self region }
    {
        if self.exclusive.has(region) {
            Some(Mode::Exclusive)
        } else if self.share.has(region) {
            Some(Mode::Share)
        } else {
            None
        }
    }

    // With a lock gained: Exclusive stays.
    pub(crate) fn with(self, region: u8, mode: Mode) -> Holders
        requires some { 1 ≤ region }
        requires most { region ≤ 64 }
        ensures { (other : ℕ) → mode_of result other
            ≡ (if other == region then Some (raised (mode_of self region) mode) else mode_of self other) }
    {
        match mode {
            Mode::Share => Holders {
                share: self.share.with(region),
                exclusive: self.exclusive,
            },
            Mode::Exclusive => Holders {
                share: self.share,
                exclusive: self.exclusive.with(region),
            },
        }
    }

    // Without a region.
    fn without(self, region: u8) -> Holders
        requires some { 1 ≤ region }
        requires most { region ≤ 64 }
        ensures { (other : ℕ) → mode_of result other ≡ (if other == region then None else mode_of self other) }
    {
        Holders {
            share: self.share.without(region),
            exclusive: self.exclusive.without(region),
        }
    }

    // Those that stand in the way of a request.
    pub(crate) fn in_way(self, region: u8, mode: Mode) -> RegionSet
        requires some { 1 ≤ region }
        requires most { region ≤ 64 }
        ensures { (other : ℕ) → has result.0 other
            ≡ (not (other == region) && is_in_conflict (mode_of self other) mode) }
    {
        let in_conflict = match mode {
            Mode::Share => self.exclusive,
            Mode::Exclusive => self.exclusive.or(self.share),
        };
        in_conflict.without(region)
    }
}

// Puts other holders at an anchor that has an entry.
fn set_anchor(anchors: &mut BTreeMap<(u8, u32), Holders>, anchor: (u8, u32), holders: Holders)
    requires { IsSome (get anchor_cmp anchors.old anchor) }
    ensures { (q : ℕ × ℕ) → get anchor_cmp anchors.new q
        ≡ cond (is_at (anchor_cmp anchor) q) (Some holders) (get anchor_cmp anchors.old q) }
{
    if let Some(there) = anchors.get_mut(&anchor) {
        *there = holders;
    }
}

// Puts other holders at a key that has an entry.
fn set_key(table: &mut BTreeMap<Vec<u8>, Holders>, key: &[u8], holders: Holders)
    requires { IsSome (at_key (λ v. v.items) key.now table.old) }
    ensures { (k : ListOf ℕ) → at_key (λ v. v.items) k table.new
        ≡ (if same_text key.now k then Some holders else at_key (λ v. v.items) k table.old) }
{
    if let Some(there) = table.get_mut(key) {
        *there = holders;
    }
}

// Takes a key out.
fn remove_key(table: &mut BTreeMap<Vec<u8>, Holders>, key: &[u8])
    ensures { (k : ListOf ℕ) → at_key (λ v. v.items) k table.new
        ≡ (if same_text key.now k then None else at_key (λ v. v.items) k table.old) }
{
    table.remove(key);
}

// The holders of each resource that is held.
#[derive(Drop)]
pub(crate) struct Holdings {
    // By database and number.
    pub(crate) anchors: BTreeMap<(u8, u32), Holders>,
    // By key, a table for each database that a lock has named so far and those before it.
    pub(crate) segments: Vec<BTreeMap<Vec<u8>, Holders>>,
}

impl Holdings {
    // Nothing is held.
    pub(crate) fn new(alloc: Global) -> Holdings
        ensures { (resource : Resource) → holders_in result resource ≡ None }
    {
        Holdings {
            anchors: BTreeMap::new(alloc),
            segments: Vec::new(alloc),
        }
    }

    // The entry of a resource.
    fn entry(&self, resource: &Resource) -> Option<Holders>
        ensures { result ≡ holders_in self.now resource.now }
    {
        match resource {
            Resource::Anchor { dedb, anchor } => self.anchors.get(&(*dedb, *anchor)).copied(),
            Resource::Segment { msdb, key } => {
                let place = usize::from(*msdb);
                if place < self.segments.len() {
                    self.segments[place].get(key.as_slice()).copied()
                } else {
                    None
                }
            }
        }
    }

    // Whether an anchor of a database has an entry, of those from the first to the last.
    pub(crate) fn any_in(&self, dedb: u8, first: u32, last: u32) -> bool
        ensures some { result ≡ true → ((anchor : ℕ) × (first ≤ anchor) × (anchor ≤ last)
            × IsSome (holders_in self.now (Anchor dedb anchor))) }
        ensures none { result ≡ false → (anchor : ℕ) → first ≤ anchor → anchor ≤ last
            → holders_in self.now (Anchor dedb anchor) ≡ None }
    {
        if first > last {
            return false;
        }
        let least = (dedb, first);
        let greatest = (dedb, last);
        self.anchors.range(least..=greatest).next().is_some()
    }

    // Makes room for the segments of a database. What is held stays.
    fn make_table(&mut self, msdb: u8) -> Result<(), AllocError>
        ensures same { (resource : Resource) → holders_in self.new resource ≡ holders_in self.old resource }
        ensures long { OnOk result (msdb + 1 ≤ length self.new.segments.items) }
    {
        let alloc = *self.segments.allocator();
        while self.segments.len() <= usize::from(msdb) {
            self.segments.push(BTreeMap::new(alloc))?;
        }
        Ok(())
    }

    // Puts the holders of a resource, whoever they were. Want of memory changes nothing.
    pub(crate) fn put(&mut self, resource: &Resource, holders: Holders) -> Result<(), AllocError>
        ensures ok { OnOk result ((other : Resource) → holders_in self.new other
            ≡ (if same_resource resource.now other then Some holders else holders_in self.old other)) }
        ensures err { OnErr result ((other : Resource) → holders_in self.new other ≡ holders_in self.old other) }
    {
        match resource {
            Resource::Anchor { dedb, anchor } => {
                self.anchors.insert((*dedb, *anchor), holders)?;
            }
            Resource::Segment { msdb, key } => {
                let alloc = *self.segments.allocator();
                let key = Vec::from_slice(alloc, key.as_slice())?;
                self.make_table(*msdb)?;
                self.segments[usize::from(*msdb)].insert(key, holders)?;
            }
        }
        Ok(())
    }

    // Puts the holders of a resource that has an entry. Takes no memory.
    fn set(&mut self, resource: &Resource, holders: Holders)
        requires { IsSome (holders_in self.old resource.now) }
        ensures { (other : Resource) → holders_in self.new other
            ≡ (if same_resource resource.now other then Some holders else holders_in self.old other) }
    {
        match resource {
            Resource::Anchor { dedb, anchor } => {
                set_anchor(&mut self.anchors, (*dedb, *anchor), holders)
            }
            Resource::Segment { msdb, key } => {
                let place = usize::from(*msdb);
                set_key(&mut self.segments[place], key.as_slice(), holders)
            }
        }
    }

    // Takes a resource out. Takes no memory.
    fn remove(&mut self, resource: &Resource)
        ensures { (other : Resource) → holders_in self.new other
            ≡ (if same_resource resource.now other then None else holders_in self.old other) }
    {
        match resource {
            Resource::Anchor { dedb, anchor } => {
                self.anchors.remove(&(*dedb, *anchor));
            }
            Resource::Segment { msdb, key } => {
                let place = usize::from(*msdb);
                if place < self.segments.len() {
                    remove_key(&mut self.segments[place], key.as_slice());
                }
            }
        }
    }

    // Who holds a resource.
    fn holders(&self, resource: &Resource) -> Holders
        ensures { (region : ℕ) → mode_of result region ≡ held_by self.now region resource.now }
    {
        match self.entry(resource) {
            Some(holders) => holders,
            None => Holders::nobody(),
        }
    }

    // How a region holds a resource.
    pub(crate) fn mode_of(&self, region: u8, resource: &Resource) -> Option<Mode>
        requires some { 1 ≤ region }
        requires most { region ≤ 64 }
        ensures { result ≡ held_by self.now region resource.now }
    {
        self.holders(resource).mode_of(region)
    }

    // Those that stand in the way of a region's request.
    pub(crate) fn in_way(&self, region: u8, resource: &Resource, mode: Mode) -> RegionSet
        requires some { 1 ≤ region }
        requires most { region ≤ 64 }
        ensures { (other : ℕ) → has result.0 other
            ≡ (not (other == region) && is_in_conflict (held_by self.now other resource.now) mode) }
    {
        self.holders(resource).in_way(region, mode)
    }

    // A region holds a resource no longer. Takes no memory.
    pub(crate) fn leave(&mut self, resource: &Resource, region: u8)
        requires some { 1 ≤ region }
        requires most { region ≤ 64 }
        requires held { AreHeld self.old }
        ensures modes { (other : ℕ) (one : Resource) → held_by self.new other one
            ≡ (if same_resource resource.now one && other == region then None else held_by self.old other one) }
        ensures held { AreHeld self.new }
    {
        if let Some(holders) = self.entry(resource) {
            let left = holders.without(region);
            if left.is_nobody() {
                self.remove(resource);
            } else {
                self.set(resource, left);
            }
        }
    }

    // A region gains a lock: Exclusive stays. Its holders then. Want of memory changes nothing.
    pub(crate) fn gain(
        &mut self,
        resource: &Resource,
        region: u8,
        mode: Mode,
    ) -> Result<Holders, AllocError>
        requires some { 1 ≤ region }
        requires most { region ≤ 64 }
        requires held { AreHeld self.old }
        ensures holders { IfOk result (λ holders. holders_in self.new resource.now ≡ Some holders) }
        ensures modes { OnOk result ((other : ℕ) (one : Resource) → held_by self.new other one
            ≡ (if other == region && same_resource resource.now one
            then Some (raised (held_by self.old region resource.now) mode) else held_by self.old other one)) }
        ensures err { OnErr result ((other : ℕ) (one : Resource)
            → held_by self.new other one ≡ held_by self.old other one) }
        ensures held { AreHeld self.new }
    {
        let holders = self.holders(resource).with(region, mode);
        self.put(resource, holders)?;
        Ok(holders)
    }
}
