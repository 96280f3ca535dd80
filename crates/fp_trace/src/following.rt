//! Follows the transactions of the regions beside the core, call by call, by the calls that the core makes.
//!
//! The core tells what a turn did, and not which call or lock that was of. Each is a function of what stands: the
//! script's next call, the databases, the locks. So they are worked out once more here, on databases and locks of
//! their own, and where they don't agree with what the core did there is no trace.
ghost use Rattle.dli_calls.specs.Progress.{IsWorkOf};
ghost use Rattle.dli_calls.specs.Readiness.{IfAnswer};
ghost use Rattle.fp_core.specs.Relation.{IsSetup};
ghost use Rattle.fp_model.specs.Calls.{database_of, target_of};
ghost use Rattle.fp_model.specs.FitCalls.{FitsAnswerOf, IsMsdbCall};
ghost use Rattle.fp_model.specs.WellFormed.{IsMsdbDef};
ghost use Rattle.fp_model.specs.declared.definitions.MsdbDef.{MsdbDef as MsdbDefOf};
ghost use Rattle.fp_trace.specs.Followed.{IsFollowed, IsSeat, IsShadow};
ghost use Rattle.msdb_store.specs.Settling.{CanSettle};
ghost use Rattle.msdb_store.specs.Store.{IsOf};
ghost use Rattle.std.specs.List.{AllByRecursion};
ghost use Rattle.std.specs.Prelude.{◌<◌, ◌≡◌, ◌≤◌, [], IfOk, IfSome, List as ListOf, OnOk, length};
ghost use Rattle.txn_machine.specs.Running.{Awaits, IsFit, IsFitNext, WaitsFor};

use crate::fault::Fault;
use crate::telling::{answered_text, call_text, resource_text};
use ci_locks::Locks;
use dli_calls::{Ready, Work, answer};
use fp_exits::Exits;
use fp_messages::read_message;
use fp_model::{Call, Deferred, Defs, List, Message, Mode, Name, Resource};
use msdb_store::{MsdbStore, VerifyFault};
use std::alloc::{AllocError, Global};
use sync_point::resources;
use txn_lang::Scripts;
use txn_machine::{Next, Program};

// How many regions there are at most: each has a seat.
const MOST_REGIONS: u8 = 64;

// The format of the log that is made.
const FORMAT: u8 = 2;

// A queue has fewer calls than this.
const MOST_DEFERRED: usize = 1 << 32;

/// A transaction of a region.
#[derive(Drop)]
pub(crate) struct Follower {
    message: Message,
    program: Program,
    work: Work,
}

/// What is followed of a region.
#[derive(Drop)]
pub(crate) enum Seat {
    Idle,
    At(Follower),
}

/// The calls and locks of a run, worked out beside the core.
#[derive(Drop)]
pub(crate) struct Shadow<'a> {
    alloc: Global,
    defs: &'a Defs,
    scripts: &'a Scripts,
    store: MsdbStore,
    locks: Locks,
    seats: List<Seat>,
}

/// A lock that a transaction needs.
#[derive(Drop)]
struct Lack {
    // The call that needs it, or the sync point.
    what: String,
    resource: Resource,
    mode: Mode,
}

/// What a turn of a region was of: a call, and a lock.
#[derive(Drop)]
pub(crate) struct Told {
    pub what: String,
    /// Empty where it is of none.
    pub lock: String,
}

// The number of a transaction.
fn number_of(scripts: &Scripts, tran: &Name) -> Option<u32>
    ensures { IfSome result (λ number. number < length scripts.now.scripts) }
{
    scripts.find(tran)
}

// Puts a value in the place of another, which is let go. By an assignment, the caller would be proved over every part
// of the old value.
fn put<T: Drop>(place: &mut T, value: T)
    ensures { place.new ≡ value }
{
    *place = value;
}

// The program and the work of a transaction at its beginning.
fn start(
    alloc: Global,
    defs: &Defs,
    scripts: &Scripts,
    tran: &Name,
) -> Result<(Program, Work), Fault>
    ensures number { IfOk result (λ made. made.0.number < length scripts.now.scripts) }
    ensures fit { IfOk result (λ made. IsFit defs.now made.0) }
    ensures work { IfOk result (λ made. IsWorkOf defs.now made.1) }
{
    match number_of(scripts, tran) {
        Some(number) => Ok((
            Program::start(alloc, scripts, number),
            Work::new(alloc, defs)?,
        )),
        None => Err(Fault::Apart),
    }
}

// A transaction at its beginning.
fn beginning(
    alloc: Global,
    defs: &Defs,
    scripts: &Scripts,
    message: Message,
) -> Result<Follower, Fault>
    ensures { IfOk result (IsFollowed defs.now scripts.now.scripts) }
{
    let (program, work) = start(alloc, defs, scripts, &message.tran)?;
    Ok(Follower {
        message,
        program,
        work,
    })
}

// What a call comes to, under definitions without data entry databases.
fn ready(
    alloc: Global,
    work: &mut Work,
    call: &Call,
    store: &MsdbStore,
    defs: &Defs,
    exits: &Exits,
    locks: &Locks,
    region: u8,
) -> Result<Ready, AllocError>
    requires defs { AllByRecursion IsMsdbDef defs.now.msdbs }
    requires no_dedbs { defs.now.dedbs ≡ [] }
    requires store { IsOf defs.now.msdbs store.now }
    requires work { IsWorkOf defs.now work.old }
    requires call { IsMsdbCall defs.now.msdbs call.now }
    requires some { 1 ≤ region }
    requires within { region ≤ length locks.now }
    ensures of { IsWorkOf defs.now work.new }
    ensures shown { IfOk result (λ ready. IfAnswer ready
        (FitsAnswerOf (target_of defs.now (database_of call.now)) call.now)) }
{
    answer(alloc, work, call, store, defs, exits, locks, region, 0)
}

// The lock that a call needs.
fn lack_of(
    alloc: Global,
    work: &mut Work,
    call: &Call,
    store: &MsdbStore,
    defs: &Defs,
    exits: &Exits,
    locks: &Locks,
    region: u8,
) -> Result<Lack, Fault>
    requires defs { AllByRecursion IsMsdbDef defs.now.msdbs }
    requires no_dedbs { defs.now.dedbs ≡ [] }
    requires store { IsOf defs.now.msdbs store.now }
    requires work { IsWorkOf defs.now work.old }
    requires call { IsMsdbCall defs.now.msdbs call.now }
    requires some { 1 ≤ region }
    requires within { region ≤ length locks.now }
    ensures { IsWorkOf defs.now work.new }
{
    match ready(alloc, work, call, store, defs, exits, locks, region)? {
        Ready::Need(resource, mode) => Ok(Lack {
            what: call_text(alloc, defs, call)?,
            resource,
            mode,
        }),
        Ready::Answer(_) => Err(Fault::Apart),
    }
}

impl Follower {
    // Runs to its next call, or its end.
    fn next(&mut self, defs: &Defs, scripts: &Scripts) -> Result<Next, AllocError>
        requires setup { IsSetup defs.now scripts.now.scripts }
        requires followed { IsFollowed defs.now scripts.now.scripts self.old }
        ensures followed { IsFollowed defs.now scripts.now.scripts self.new }
        ensures fits { IfOk result (IsFitNext defs.now.msdbs) }
        ensures waits { IfOk result (λ next. Awaits next self.new.program) }
    {
        self.program.next(scripts, defs, &self.message)
    }

    // It takes the answer to a call that it waits at. Both as a text.
    fn take_answer(
        &mut self,
        call: &Call,
        alloc: Global,
        defs: &Defs,
        exits: &Exits,
        store: &MsdbStore,
        locks: &Locks,
        region: u8,
    ) -> Result<String, Fault>
        requires defs { AllByRecursion IsMsdbDef defs.now.msdbs }
        requires no_dedbs { defs.now.dedbs ≡ [] }
        requires store { IsOf defs.now.msdbs store.now }
        requires call { IsMsdbCall defs.now.msdbs call.now }
        requires waits { WaitsFor call.now self.old.program }
        requires fit { IsFit defs.now self.old.program }
        requires work { IsWorkOf defs.now self.old.work }
        requires some { 1 ≤ region }
        requires within { region ≤ length locks.now }
        ensures number { self.new.program.number ≡ self.old.program.number }
        ensures fit { IsFit defs.now self.new.program }
        ensures work { IsWorkOf defs.now self.new.work }
    {
        let work = &mut self.work;
        match ready(alloc, work, call, store, defs, exits, locks, region)? {
            Ready::Answer(given) => {
                let text = answered_text(alloc, defs, call, &given)?;
                self.program.give(given);
                Ok(text)
            }
            Ready::Need(..) => Err(Fault::Apart),
        }
    }

    // Its call is answered. The call and its answer, as a text.
    fn answer_call(
        &mut self,
        alloc: Global,
        defs: &Defs,
        scripts: &Scripts,
        exits: &Exits,
        store: &MsdbStore,
        locks: &Locks,
        region: u8,
    ) -> Result<String, Fault>
        requires setup { IsSetup defs.now scripts.now.scripts }
        requires followed { IsFollowed defs.now scripts.now.scripts self.old }
        requires store { IsOf defs.now.msdbs store.now }
        requires some { 1 ≤ region }
        requires within { region ≤ length locks.now }
        ensures { OnOk result (IsFollowed defs.now scripts.now.scripts self.new) }
    {
        match self.next(defs, scripts)? {
            Next::Call(call) => {
                self.take_answer(&call, alloc, defs, exits, store, locks, region)
            }
            _ => Err(Fault::Apart),
        }
    }

    // The lock that its call, or its sync point, needs next.
    fn lack(
        &mut self,
        alloc: Global,
        defs: &Defs,
        scripts: &Scripts,
        exits: &Exits,
        store: &MsdbStore,
        locks: &Locks,
        region: u8,
    ) -> Result<Lack, Fault>
        requires setup { IsSetup defs.now scripts.now.scripts }
        requires followed { IsFollowed defs.now scripts.now.scripts self.old }
        requires store { IsOf defs.now.msdbs store.now }
        requires some { 1 ≤ region }
        requires within { region ≤ length locks.now }
        ensures { OnOk result (IsFollowed defs.now scripts.now.scripts self.new) }
    {
        match self.next(defs, scripts)? {
            Next::Call(call) => lack_of(
                alloc,
                &mut self.work,
                &call,
                store,
                defs,
                exits,
                locks,
                region,
            ),
            Next::Reply(_) => at_the_end(alloc, self.work.deferred(), locks, region),
            Next::Roll(_) => Err(Fault::Apart),
        }
    }

    // It begins once more.
    fn begin_again(&mut self, alloc: Global, defs: &Defs, scripts: &Scripts) -> Result<(), Fault>
        ensures { OnOk result (IsFollowed defs.now scripts.now.scripts self.new) }
    {
        let (program, work) = start(alloc, defs, scripts, &self.message.tran)?;
        put(&mut self.program, program);
        put(&mut self.work, work);
        Ok(())
    }
}

// The first lock that a sync point lacks.
fn at_the_end(
    alloc: Global,
    deferred: &List<Deferred>,
    locks: &Locks,
    region: u8,
) -> Result<Lack, Fault>
    requires some { 1 ≤ region }
    requires within { region ≤ length locks.now }
{
    for resource in resources(alloc, deferred)?.into_vec() {
        if !matches!(locks.holds(region, &resource), Some(Mode::Exclusive)) {
            return Ok(Lack {
                what: String::from_str(alloc, "sync point")?,
                resource,
                mode: Mode::Exclusive,
            });
        }
    }
    Err(Fault::Apart)
}

// Gives the databases what a queue of deferred calls comes to.
fn settle(store: &mut MsdbStore, deferred: &List<Deferred>) -> Result<(), Fault>
    requires { (defs : ListOf MsdbDefOf) × CanSettle defs store.old deferred.now }
    ensures { (defs : ListOf MsdbDefOf) → CanSettle defs store.old deferred.now → OnOk result (IsOf defs store.new) }
{
    if deferred.len() >= MOST_DEFERRED {
        return Err(Fault::Memory);
    }
    match store.check(deferred) {
        Ok(staged) => {
            store.reserve(staged.inserts())?;
            store.publish(staged);
            Ok(())
        }
        Err(VerifyFault::Verify { .. }) => Err(Fault::Apart),
        Err(VerifyFault::Memory) => Err(Fault::Memory),
    }
}

// A seat for each region, in which nobody sits.
#[tactic(auto, using(plain_laws::proofs::Alls::all_pushed))]
fn idle_seats(alloc: Global) -> Result<List<Seat>, AllocError>
    ensures count { IfOk result (λ seats. length seats ≡ 64) }
    ensures idle { IfOk result (AllByRecursion (λ one. one ≡ Seat.Idle)) }
{
    let mut seats = List::new(alloc);
    for _ in 0..MOST_REGIONS {
        seats.push(Seat::Idle)?;
    }
    Ok(seats)
}

impl<'a> Shadow<'a> {
    /// Before any entry: no region is at work, and nothing is locked.
    pub(crate) fn new(
        alloc: Global,
        defs: &'a Defs,
        scripts: &'a Scripts,
    ) -> Result<Shadow<'a>, AllocError>
        requires { IsSetup defs.now scripts.now.scripts }
        ensures { IfOk result IsShadow }
    {
        Ok(Shadow {
            alloc,
            defs,
            scripts,
            store: MsdbStore::start(alloc, defs)?,
            locks: Locks::new(alloc, MOST_REGIONS)?,
            seats: idle_seats(alloc)?,
        })
    }

    // Puts what is followed of a region in the place of what was.
    fn seat(&mut self, region: u8, seat: Seat)
        requires shadow { IsShadow self.old }
        requires some { 1 ≤ region }
        requires within { region ≤ 64 }
        requires followed { IsSeat self.old.defs.now self.old.scripts.now.scripts seat }
        ensures shadow { IsShadow self.new }
    {
        put(self.seats.item_mut(usize::from(region) - 1), seat);
    }

    // Nobody sits in a region's place any more, and its locks go.
    fn leave(&mut self, region: u8)
        requires shadow { IsShadow self.old }
        requires some { 1 ≤ region }
        requires within { region ≤ 64 }
        ensures shadow { IsShadow self.new }
    {
        self.seat(region, Seat::Idle);
        self.locks.release_all(region);
    }

    /// A region took the message of a line.
    pub(crate) fn took(&mut self, region: u8, line: &[u8]) -> Result<(), Fault>
        requires shadow { IsShadow self.old }
        requires some { 1 ≤ region }
        requires within { region ≤ 64 }
        ensures { OnOk result (IsShadow self.new) }
    {
        let Ok(message) = read_message(self.alloc, FORMAT, line) else {
            return Err(Fault::Apart);
        };
        let follower = beginning(self.alloc, self.defs, self.scripts, message)?;
        self.seat(region, Seat::At(follower));
        Ok(())
    }

    /// A region's call was answered.
    pub(crate) fn answered(&mut self, region: u8, exits: &Exits) -> Result<Told, Fault>
        requires shadow { IsShadow self.old }
        requires some { 1 ≤ region }
        requires within { region ≤ 64 }
        ensures { OnOk result (IsShadow self.new) }
    {
        let what = match self.seats.item_mut(usize::from(region) - 1) {
            Seat::At(follower) => follower.answer_call(
                self.alloc,
                self.defs,
                self.scripts,
                exits,
                &self.store,
                &self.locks,
                region,
            )?,
            Seat::Idle => return Err(Fault::Apart),
        };
        Ok(Told {
            what,
            lock: String::new(self.alloc),
        })
    }

    // The lock that a region needs next.
    fn lack(&mut self, region: u8, exits: &Exits) -> Result<Lack, Fault>
        requires shadow { IsShadow self.old }
        requires some { 1 ≤ region }
        requires within { region ≤ 64 }
        ensures { OnOk result (IsShadow self.new) }
    {
        match self.seats.item_mut(usize::from(region) - 1) {
            Seat::At(follower) => follower.lack(
                self.alloc,
                self.defs,
                self.scripts,
                exits,
                &self.store,
                &self.locks,
                region,
            ),
            Seat::Idle => Err(Fault::Apart),
        }
    }

    // A region asks for a lock. The text of it.
    fn ask(&mut self, region: u8, resource: &Resource, mode: Mode) -> Result<String, AllocError>
        requires shadow { IsShadow self.old }
        requires some { 1 ≤ region }
        requires within { region ≤ 64 }
        ensures { OnOk result (IsShadow self.new) }
    {
        self.locks.ask(region, resource, mode)?;
        resource_text(self.alloc, self.defs, resource)
    }

    /// A region gained a lock, or waits for it.
    pub(crate) fn asked(&mut self, region: u8, exits: &Exits) -> Result<Told, Fault>
        requires shadow { IsShadow self.old }
        requires some { 1 ≤ region }
        requires within { region ≤ 64 }
        ensures { OnOk result (IsShadow self.new) }
    {
        let Lack {
            what,
            resource,
            mode,
        } = self.lack(region, exits)?;
        let lock = self.ask(region, &resource, mode)?;
        Ok(Told { what, lock })
    }

    /// A region's transaction is done: the databases have its changes.
    pub(crate) fn committed(&mut self, region: u8) -> Result<(), Fault>
        requires shadow { IsShadow self.old }
        requires some { 1 ≤ region }
        requires within { region ≤ 64 }
        ensures { OnOk result (IsShadow self.new) }
    {
        let Seat::At(follower) = &self.seats.as_slice()[usize::from(region) - 1] else {
            return Err(Fault::Apart);
        };
        settle(&mut self.store, follower.work.deferred())?;
        self.leave(region);
        Ok(())
    }

    /// A region's transaction is refused.
    pub(crate) fn refused(&mut self, region: u8) -> Result<(), Fault>
        requires shadow { IsShadow self.old }
        requires some { 1 ≤ region }
        requires within { region ≤ 64 }
        ensures { OnOk result (IsShadow self.new) }
    {
        if matches!(self.seats.as_slice()[usize::from(region) - 1], Seat::Idle) {
            return Err(Fault::Apart);
        }
        self.leave(region);
        Ok(())
    }

    /// A region's transaction gave up its locks, and begins once more.
    pub(crate) fn retried(&mut self, region: u8) -> Result<(), Fault>
        requires shadow { IsShadow self.old }
        requires some { 1 ≤ region }
        requires within { region ≤ 64 }
        ensures { OnOk result (IsShadow self.new) }
    {
        match self.seats.item_mut(usize::from(region) - 1) {
            Seat::At(follower) => {
                follower.begin_again(self.alloc, self.defs, self.scripts)?;
            }
            Seat::Idle => return Err(Fault::Apart),
        }
        self.locks.release_all(region);
        Ok(())
    }
}
