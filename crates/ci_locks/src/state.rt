//! The regions: what each holds, what it asks for, and whom it waits for.
//!
//! Each region keeps a list of what it holds, so that its locks are dropped one by one. Of those that stand in the way
//! of
//! its request it keeps a set. A lock that another gains puts that region into the set where the request is for the
//! same
//! resource, and a region that drops its locks leaves every set.
ghost use Rattle.ci_locks.specs.Cycles.{IsFirstCycle};
ghost use Rattle.ci_locks.specs.Holdings.{AreHeld, held_by};
ghost use Rattle.ci_locks.specs.Regions.{IsSound, is_ahead, region_at};
ghost use Rattle.ci_locks.specs.inside.Regions.{AreTold, Hears, IsRegion, standing_of};
ghost use Rattle.ci_locks.specs.Sets.{has};
ghost use Rattle.ci_locks.specs.Standing.{IfCycle, IsGrant, Shows, locks_after, requests_after};
ghost use Rattle.ci_locks.specs.inside.Standing.{Asks, Frees, Gains};
ghost use Rattle.ci_locks.specs.Table.{lock_of};
ghost use Rattle.fp_model.specs.Waiting.{Lock, same_resource, waits, with_request};
ghost use Rattle.fp_model.specs.declared.calls.Mode.{Mode as ModeOf};
ghost use Rattle.std.specs.Prelude.{◌≡◌, ◌≤◌, ◌==◌, Contains, IfOk, List as ListOf, None, OnErr, OnOk, Some, if◌then◌else◌, length, ℕ};

use crate::holding::{Holders, Holdings};
use crate::locks::Grant;
use crate::search::cycle_through;
use crate::sets::RegionSet;
use fp_model::{Mode, Resource};
use std::alloc::{AllocError, Global};

// A request that stands.
#[derive(Drop)]
pub(crate) struct Request {
    pub(crate) resource: Resource,
    pub(crate) mode: Mode,
}

// One region.
#[derive(Drop)]
pub(crate) struct Region {
    // Each resource that it holds.
    pub(crate) held: Vec<Resource>,
    pub(crate) request: Option<Request>,
    // Those that stand in the way of its request.
    pub(crate) ahead: RegionSet,
}

// All that stands. Region r stands at place r - 1.
#[derive(Drop)]
pub(crate) struct State {
    pub(crate) regions: Vec<Region>,
    pub(crate) holdings: Holdings,
}

// The same resource. It fails only for want of memory.
pub(crate) fn copy_of(resource: &Resource) -> Result<Resource, AllocError>
    ensures { IfOk result (λ copy. copy ≡ resource.now) }
{
    match resource {
        Resource::Segment { msdb, key } => Ok(Resource::Segment {
            msdb: *msdb,
            key: key.copy()?,
        }),
        Resource::Anchor { dedb, anchor } => Ok(Resource::Anchor {
            dedb: *dedb,
            anchor: *anchor,
        }),
    }
}

// Whether two resources are the same.
fn is_same(a: &Resource, b: &Resource) -> bool
    ensures { result ≡ same_resource a.now b.now }
{
    match (a, b) {
        (
            Resource::Segment { msdb, key },
            Resource::Segment {
                msdb: other,
                key: text,
            },
        ) => msdb == other && key.as_slice() == text.as_slice(),
        (
            Resource::Anchor { dedb, anchor },
            Resource::Anchor {
                dedb: other,
                anchor: number,
            },
        ) => dedb == other && anchor == number,
        _ => false,
    }
}

// What regions are told.
#[derive(Clone, Copy)]
pub(crate) enum News<'a> {
    // A lock of a resource was gained; these hold it now.
    Gained(&'a Resource, Holders),
    // A region dropped its locks.
    Freed(u8),
}

impl Region {
    // It is told. Its set then has those that stand in its way.
    fn hear(&mut self, number: u8, news: &News)
        requires some { 1 ≤ number }
        requires most { number ≤ 64 }
        requires freed { IsRegion news.now }
        ensures { Hears news.now number self.old self.new }
    {
        match news {
            News::Gained(resource, holders) => {
                if let Some(request) = &self.request {
                    if is_same(resource, &request.resource) {
                        self.ahead = holders.in_way(number, request.mode);
                    }
                }
            }
            News::Freed(region) => self.ahead = self.ahead.without(*region),
        }
    }
}

// Tells all regions.
fn tell(regions: &mut [Region], news: &News)
    requires few { length regions.old ≤ 64 }
    requires freed { IsRegion news.now }
    ensures long { length regions.new ≡ length regions.old }
    ensures all { (number : ℕ) → AreTold news.now number (region_at regions.old number) (region_at regions.new number) }
{
    for place in 0..regions.len() {
        regions[place].hear(place as u8 + 1, news);
    }
}

// Drops what a region holds of a list, and empties it. Takes no memory.
fn leave_all(holdings: &mut Holdings, held: &mut Vec<Resource>, region: u8)
    requires some { 1 ≤ region }
    requires most { region ≤ 64 }
    requires held { AreHeld holdings.old }
    requires listed { (one : Resource) (mode : ModeOf)
        → held_by holdings.old region one ≡ Some mode → Contains held.old.items one }
    ensures modes { (other : ℕ) (one : Resource) → held_by holdings.new other one
        ≡ (if other == region then None else held_by holdings.old other one) }
    ensures held { AreHeld holdings.new }
{
    while let Some(resource) = held.pop() {
        holdings.leave(&resource, region);
    }
}

impl State {
    // So many regions: nothing is held, and nothing asked for.
    pub(crate) fn new(alloc: Global, regions: u8) -> Result<State, AllocError>
        requires { regions ≤ 64 }
        ensures regions { IfOk result (λ made. length made.regions.items ≡ regions) }
        ensures holds { IfOk result (λ made. (region : ℕ) (resource : Resource)
            → held_by made.holdings region resource ≡ None) }
        ensures asks { IfOk result (λ made. (region : ℕ) → (standing_of made).asks region ≡ None) }
        ensures sound { IfOk result IsSound }
    {
        let mut made = Vec::with_capacity(alloc, usize::from(regions))?;
        for _ in 0..regions {
            made.push(Region {
                held: Vec::new(alloc),
                request: None,
                ahead: RegionSet::empty(),
            })?;
        }
        Ok(State {
            regions: made,
            holdings: Holdings::new(alloc),
        })
    }

    // Puts a request in the place of the region's old one, with those that stand in its way.
    fn put_request(&mut self, region: u8, request: Option<Request>, ahead: RegionSet)
        requires some { 1 ≤ region }
        requires within { region ≤ length self.old.regions.items }
        requires sound { IsSound self.old }
        requires ahead { (other : ℕ) → has ahead.0 other ≡ is_ahead self.old.holdings region request other }
        ensures after { Asks (standing_of self.old) (standing_of self.new) region (lock_of region request) }
        ensures sound { IsSound self.new }
    {
        let asking = &mut self.regions[usize::from(region) - 1];
        asking.request = request;
        asking.ahead = ahead;
    }

    // Gains a lock, and drops the region's request. Want of memory changes nothing that stands.
    fn gain(&mut self, region: u8, resource: &Resource, mode: Mode) -> Result<(), AllocError>
        requires some { 1 ≤ region }
        requires within { region ≤ length self.old.regions.items }
        requires sound { IsSound self.old }
        ensures ok { OnOk result (Gains (standing_of self.old) (standing_of self.new)
            (record { region = region; resource = resource.now; mode = mode })) }
        ensures err { OnErr result (standing_of self.new ≡ standing_of self.old) }
        ensures sound { IsSound self.new }
    {
        let gaining = &mut self.regions[usize::from(region) - 1];
        gaining.held.push(copy_of(resource)?)?;
        let holders = self.holdings.gain(resource, region, mode)?;
        gaining.request = None;
        gaining.ahead = RegionSet::empty();
        tell(&mut self.regions, &News::Gained(resource, holders));
        Ok(())
    }

    // Drops the locks and the request of a region. Takes no memory.
    pub(crate) fn free(&mut self, region: u8)
        requires some { 1 ≤ region }
        requires within { region ≤ length self.old.regions.items }
        requires sound { IsSound self.old }
        ensures after { Frees (standing_of self.old) (standing_of self.new) region }
        ensures sound { IsSound self.new }
    {
        let freed = &mut self.regions[usize::from(region) - 1];
        leave_all(&mut self.holdings, &mut freed.held, region);
        freed.request = None;
        freed.ahead = RegionSet::empty();
        tell(&mut self.regions, &News::Freed(region));
    }

    // Asks for a lock of a region: `Locks::ask`.
    pub(crate) fn ask(
        &mut self,
        region: u8,
        resource: &Resource,
        mode: Mode,
    ) -> Result<Grant, AllocError>
        requires some { 1 ≤ region }
        requires within { region ≤ length self.old.regions.items }
        requires sound { IsSound self.old }
        ensures grant { (locks requests : ListOf Lock) → Shows (standing_of self.old) locks requests
            → IfOk result (IsGrant (length self.old.regions.items) locks requests
            (record { region = region; resource = resource.now; mode = mode })) }
        ensures first { (locks requests : ListOf Lock) → Shows (standing_of self.old) locks requests
            → IfOk result (λ grant. IfCycle grant (IsFirstCycle
            (waits (with_request (record { region = region; resource = resource.now; mode = mode }) requests) locks)
            region)) }
        ensures short { IfOk result (λ grant. IfCycle grant (λ list. length list ≤ length self.old.regions.items)) }
        ensures after { (locks requests : ListOf Lock) → Shows (standing_of self.old) locks requests
            → IfOk result (λ grant. Shows (standing_of self.new) (locks_after grant
            (record { region = region; resource = resource.now; mode = mode }) locks)
            (requests_after grant (record { region = region; resource = resource.now; mode = mode }) requests)) }
        ensures regions { length self.new.regions.items ≡ length self.old.regions.items }
        ensures err { OnErr result (standing_of self.new ≡ standing_of self.old) }
        ensures sound { IsSound self.new }
    {
        let found = self.holdings.in_way(region, resource, mode);
        if found.first().is_none() {
            self.gain(region, resource, mode)?;
            return Ok(Grant::Held);
        }
        let alloc = *self.regions.allocator();
        match cycle_through(alloc, &self.regions, region, found)? {
            Some(cycle) => {
                self.put_request(region, None, RegionSet::empty());
                Ok(Grant::Cycle(cycle))
            }
            None => {
                let holders = found.numbers(alloc, self.regions.len() as u8)?;
                let resource = copy_of(resource)?;
                self.put_request(region, Some(Request { resource, mode }), found);
                Ok(Grant::Wait(holders))
            }
        }
    }
}
