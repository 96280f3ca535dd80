//! The locks of all regions.
ghost use Rattle.ci_locks.specs.Cycles.{IsFirstCycle, first_cycle};
ghost use Rattle.ci_locks.specs.Table.{standing};
ghost use Rattle.ci_locks.specs.Standing.{IfCycle, IsGrant, Shows, locks_after, requests_after};
ghost use Rattle.fp_model.specs.Waiting.{Lock, held_as, waits, with_request, without_region};
ghost use Rattle.fp_model.specs.declared.calls.Resource.TheVariants.{Anchor};
ghost use Rattle.std.specs.Prelude.{◌≡◌, ◌≤◌, [], OnOk, length, ℕ, List as ListOf, ◌↔◌, IfOk, IsSome, IsTrue, OnErr};

use crate::state::State;
use fp_model::{Bytes, Mode, Resource};
use std::alloc::{AllocError, Global};
use std::marker::Model;

/// What became of a request.
#[derive(Drop)]
pub enum Grant {
    /// The region holds the lock.
    Held,
    /// The region waits for these, ascending.
    Wait(Bytes),
    /// The request is refused: each of these would wait for the next, and the last for the first, which is the
    /// requester.
    Cycle(Bytes),
}

/// The locks of 1 to 64 regions, and the requests that stand.
#[derive(Drop)]
pub struct Locks {
    state: State,
}

impl Model for Locks {
    ghost use Rattle.ci_locks.specs.Regions.{IsSound, rows_of};
    ghost use Rattle.ci_locks.specs.Table.{Row};
    ghost use Rattle.std.specs.Prelude.{List};

    ghost Value = { List Row };

    ghost view = { λ l. rows_of l.state };

    ghost invariant = { λ l. IsSound l.state };
}

impl Locks {
    /// Locks of so many regions: none is held, and no request stands.
    pub fn new(alloc: Global, regions: u8) -> Result<Locks, AllocError>
        requires { regions ≤ 64 }
        ensures regions { IfOk result (λ made. length made ≡ regions) }
        ensures none { IfOk result (λ made. Shows (standing made) [] []) }
    {
        Ok(Locks {
            state: State::new(alloc, regions)?,
        })
    }

    /// Asks for a lock of a region. A lock that it holds Share may be raised, and one that it holds Exclusive stays so.
    /// The answer is `Held` where no other region holds the resource in conflict. Else it is `Cycle` where the wait
    /// would close a cycle, and `Wait` where it would not. A request that waits stands in place of the region's old
    /// one. After the other answers no request of the region stands. Want of memory changes nothing.
    pub fn ask(&mut self, region: u8, resource: &Resource, mode: Mode) -> Result<Grant, AllocError>
        requires some { 1 ≤ region }
        requires within { region ≤ length self.old }

        // The answer, of any lists that say what stands.
        ensures grant { (locks requests : ListOf Lock) → Shows (standing self.old) locks requests
            → IfOk result (IsGrant (length self.old) locks requests
            (record { region = region; resource = resource.now; mode = mode })) }

        // The cycle is the first in the order of words: it is a function of what stands and of the request.
        ensures first { (locks requests : ListOf Lock) → Shows (standing self.old) locks requests
            → IfOk result (λ grant. IfCycle grant (IsFirstCycle
            (waits (with_request (record { region = region; resource = resource.now; mode = mode }) requests) locks)
            region)) }
        ensures named { (locks requests : ListOf Lock) → Shows (standing self.old) locks requests
            → IfOk result (λ grant. IfCycle grant (λ list. list ≡ first_cycle (length self.old)
            (with_request (record { region = region; resource = resource.now; mode = mode }) requests) locks
            region)) }
        ensures short { IfOk result (λ grant. IfCycle grant (λ list. length list ≤ length self.old)) }

        // What these lists become.
        ensures after { (locks requests : ListOf Lock) → Shows (standing self.old) locks requests
            → IfOk result (λ grant. Shows (standing self.new) (locks_after grant
            (record { region = region; resource = resource.now; mode = mode }) locks)
            (requests_after grant (record { region = region; resource = resource.now; mode = mode }) requests)) }
        ensures regions { length self.new ≡ length self.old }
        ensures err { OnErr result (standing self.new ≡ standing self.old) }
    {
        self.state.ask(region, resource, mode)
    }

    /// How a region holds a resource. `None` where it doesn't. Takes no memory.
    pub fn holds(&self, region: u8, resource: &Resource) -> Option<Mode>
        requires some { 1 ≤ region }
        requires within { region ≤ length self.now }

        ensures exact { result ≡ (standing self.now).holds region resource.now }
        ensures of_lists { (locks requests : ListOf Lock) → Shows (standing self.now) locks requests
            → result ≡ held_as locks region resource.now }
    {
        self.state.holdings.mode_of(region, resource)
    }

    /// Whether some region holds an anchor of a database, of those from the first to the last. Takes no memory.
    pub fn any_in(&self, dedb: u8, first: u32, last: u32) -> bool
        ensures { IsTrue result ↔ ((region anchor : ℕ) × (first ≤ anchor) × (anchor ≤ last)
            × IsSome ((standing self.now).holds region (Anchor dedb anchor))) }
    {
        self.state.holdings.any_in(dedb, first, last)
    }

    /// Drops the locks of a region and its request. Takes no memory.
    pub fn release_all(&mut self, region: u8)
        requires some { 1 ≤ region }
        requires within { region ≤ length self.old }

        ensures lists { (locks requests : ListOf Lock) → Shows (standing self.old) locks requests
            → Shows (standing self.new) (without_region region locks) (without_region region requests) }
        ensures regions { length self.new ≡ length self.old }
    {
        self.state.free(region);
    }
}
