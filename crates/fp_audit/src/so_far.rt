//! What the entries so far leave, and how the next one is judged by it.
ghost use Rattle.fp_audit.specs.inside.Ending.{IsEndOf};
ghost use Rattle.fp_audit.specs.inside.Judging.{Finds, IsRequest, Keeps, NamesScript, Stands, rules_by};
ghost use Rattle.fp_audit.specs.Setup.{AreReady};
ghost use Rattle.fp_audit.specs.declared.requests.Request.TheVariants as Request;
ghost use Rattle.fp_exits.specs.Kinds.{kinds_of};
ghost use Rattle.fp_model.specs.History.{Accepts, History, with_entry};
ghost use Rattle.fp_model.specs.WellFormed.{AreDefs};
ghost use Rattle.fp_model.specs.SerialHistory.{AsksNothing, Comes, EndsAlone, Leads, NeverFalls, WasRefused};
ghost use Rattle.fp_model.specs.declared.database.Db.{Db};
ghost use Rattle.past_replay.specs.Setup.{IsSetup};
ghost use Rattle.past_replay.specs.States.{state_at};
ghost use Rattle.std.specs.Prelude.{◌↔◌, IsTrue, ◌≡◌, ◌+◌, ◌<◌, ◌^◌, IfOk, OnOk, Some, false, true};

use crate::form::{may_stand, never_falls};
use crate::requests::{Request, Requests};
use fp_exits::Exits;
use fp_model::{Defs, Entry, Message, Outcome};
use past_anchors::Anchors;
use past_replay::{Alone, replay};
use past_segments::PastSegments;
use std::alloc::{AllocError, Global};
use txn_lang::Scripts;

/// What the entries so far leave: what lines ask for behind them, the place of the next one, the main storage databases
/// at every place up to it, and the data entry databases at that place.
#[derive(Drop)]
pub(crate) struct SoFar<'a> {
    pub(crate) alloc: Global,
    pub(crate) defs: &'a Defs,
    pub(crate) scripts: &'a Scripts,
    pub(crate) requests: Requests,
    pub(crate) place: u64,
    pub(crate) pasts: Vec<PastSegments>,
    pub(crate) anchors: Anchors,
}

// Whether two outcomes are the same.
fn is_same(outcome: &Outcome, other: &Outcome) -> bool
    ensures { IsTrue result ↔ (outcome.now ≡ other.now) }
{
    outcome == other
}

// Whether a transaction that was run alone ends as the entry says.
fn ends_as(alone: &Alone, e: &Entry) -> bool
    ensures { IsTrue result ↔ IsEndOf e.now alone.now }
{
    match alone {
        Alone::Ends { outcome, reply } => is_same(outcome, &e.outcome) && *reply == e.reply,
        Alone::Stuck => false,
    }
}

impl SoFar<'_> {
    // What the entry's line asks for. It fails only for want of memory.
    fn request(&self, e: &Entry) -> Result<Request, AllocError>
        ensures is { (h : History) → Stands self.now h
            → IfOk result (λ request. IsRequest request ((rules_by self.now).request_of h e.now.line)) }
        ensures script { IfOk result (NamesScript self.now.scripts.now.scripts) }
    {
        self.requests
            .of(self.alloc, self.scripts, e.line.as_slice())
    }

    // Runs the script of a number for a message again, and says whether it ends as the entry says. It fails only for
    // want of memory.
    fn run(
        &mut self,
        exits: &Exits,
        e: &Entry,
        message: &Message,
        script: u32,
    ) -> Result<bool, AllocError>
        requires setup { IsSetup self.old.defs.now (kinds_of exits.now) self.old.scripts.now.scripts }
        requires ready { AreReady self.old.defs.now self.old.place self.old.pasts.items self.old.anchors }
        requires place { self.old.place + 1 < 2 ^ 64 }
        requires script { NamesScript self.old.scripts.now.scripts (Request.Run message.now script) }
        requires order { NeverFalls e.now.from e.now.notes self.old.place }

        ensures found { (h : History) → Stands self.old h
            → (rules_by self.old).request_of h e.now.line ≡ Accepts message.now
            → IfOk result (Finds (EndsAlone (rules_by self.old) h e.now)
            (state_at (self.old.place + 1) self.new.pasts.items self.new.anchors)) }
        ensures keeps { Keeps self.old self.new }
        ensures next { OnOk result (AreReady self.old.defs.now (self.old.place + 1) self.new.pasts.items
            self.new.anchors) }
    {
        let alone = replay(
            self.alloc,
            &mut self.pasts,
            &mut self.anchors,
            self.defs,
            self.scripts,
            exits,
            self.place,
            message,
            script,
            &e.notes,
        )?;
        Ok(ends_as(&alone, e))
    }

    // Whether the entry's message, run alone, ends as the entry says; then its changes stand from the next place on. It
    // fails only for want of memory.
    fn ends_alone(&mut self, exits: &Exits, e: &Entry) -> Result<bool, AllocError>
        requires setup { IsSetup self.old.defs.now (kinds_of exits.now) self.old.scripts.now.scripts }
        requires ready { AreReady self.old.defs.now self.old.place self.old.pasts.items self.old.anchors }
        requires place { self.old.place + 1 < 2 ^ 64 }

        ensures found { (h : History) → Stands self.old h → IfOk result
            (Finds (EndsAlone (rules_by self.old) h e.now)
            (state_at (self.old.place + 1) self.new.pasts.items self.new.anchors)) }
        ensures keeps { Keeps self.old self.new }
        ensures next { OnOk result (AreReady self.old.defs.now (self.old.place + 1) self.new.pasts.items
            self.new.anchors) }
    {
        if !never_falls(e, self.place) {
            return Ok(false);
        }
        match self.request(e)? {
            Request::Run { message, script } => self.run(exits, e, &message, script),
            Request::Refused(_) => Ok(false),
        }
    }

    // Whether the entry's message may have been refused. It fails only for want of memory.
    fn was_refused(&self, e: &Entry) -> Result<bool, AllocError>
        requires ready { AreReady self.now.defs.now self.now.place self.now.pasts.items self.now.anchors }
        ensures { (h : History) → Stands self.now h → IfOk result
            (Finds (WasRefused (rules_by self.now) h e.now)
            (state_at (self.now.place + 1) self.now.pasts.items self.now.anchors)) }
    {
        if e.from > self.place {
            return Ok(false);
        }
        match self.request(e)? {
            Request::Run { .. } => Ok(true),
            Request::Refused(_) => Ok(false),
        }
    }

    // Whether the entry's line asks for nothing, and is refused as the entry says. It fails only for want of memory.
    fn asks_nothing(&self, e: &Entry) -> Result<bool, AllocError>
        requires ready { AreReady self.now.defs.now self.now.place self.now.pasts.items self.now.anchors }
        ensures { (h : History) → Stands self.now h → IfOk result (Finds
            (AsksNothing (rules_by self.now) h e.now e.now.outcome)
            (state_at (self.now.place + 1) self.now.pasts.items self.now.anchors)) }
    {
        match self.request(e)? {
            Request::Run { .. } => Ok(false),
            Request::Refused(outcome) => Ok(is_same(&outcome, &e.outcome)),
        }
    }

    // Whether a Purge of a data set may come behind the entries so far; then the databases at the next place are those
    // behind it.
    fn purges(&mut self, set: u16, n: u64) -> bool
        requires good { AreDefs self.old.defs.now }
        requires ready { AreReady self.old.defs.now self.old.place self.old.pasts.items self.old.anchors }
        ensures found { (h : History) → Stands self.old h
            → Finds (λ next. (rules_by self.old).purged set n h.now ≡ Some next)
            (state_at (self.old.place + 1) self.new.pasts.items self.new.anchors) result }
        ensures keeps { Keeps self.old self.new }
        ensures next { AreReady self.old.defs.now (self.old.place + 1) self.new.pasts.items self.new.anchors }
    {
        self.anchors.purge(self.defs, set, n)
    }

    // Whether the entry's outcome may come behind the entries so far; then the databases at the next place are those
    // behind it. It fails only for want of memory.
    fn leads(&mut self, exits: &Exits, e: &Entry) -> Result<bool, AllocError>
        requires setup { IsSetup self.old.defs.now (kinds_of exits.now) self.old.scripts.now.scripts }
        requires ready { AreReady self.old.defs.now self.old.place self.old.pasts.items self.old.anchors }
        requires place { self.old.place + 1 < 2 ^ 64 }

        ensures found { (h : History) → Stands self.old h → IfOk result
            (Finds (Leads (rules_by self.old) h e.now e.now.outcome)
            (state_at (self.old.place + 1) self.new.pasts.items self.new.anchors)) }
        ensures keeps { Keeps self.old self.new }
        ensures next { OnOk result (AreReady self.old.defs.now (self.old.place + 1) self.new.pasts.items
            self.new.anchors) }
    {
        match &e.outcome {
            Outcome::Done | Outcome::Verify { .. } | Outcome::Roll(_) | Outcome::SeqFull { .. } => {
                self.ends_alone(exits, e)
            }
            Outcome::Deadlock(_) | Outcome::Device | Outcome::Memory => self.was_refused(e),
            Outcome::Unknown | Outcome::Old(_) | Outcome::Repeat(_) => self.asks_nothing(e),
            Outcome::Purge { set, n } => Ok(self.purges(*set, *n)),
            Outcome::Format => Ok(self.requests.format == 1),
        }
    }

    /// Takes the next entry, if it may come behind those so far, and says whether it may. It fails only for want of
    /// memory.
    pub(crate) fn take(&mut self, exits: &Exits, e: &Entry) -> Result<bool, AllocError>
        requires setup { IsSetup self.old.defs.now (kinds_of exits.now) self.old.scripts.now.scripts }
        requires ready { AreReady self.old.defs.now self.old.place self.old.pasts.items self.old.anchors }

        ensures legal { (h : History) → Stands self.old h
            → IfOk result (λ legal. legal ≡ true → (next : Db) × (Comes (rules_by self.old) h e.now next
            × Stands self.new (with_entry e.now next h))) }
        ensures illegal { (h : History) → Stands self.old h
            → IfOk result (λ legal. legal ≡ false → (next : Db) → ¬ (Comes (rules_by self.old) h e.now next)) }

        // What stays.
        ensures ready { IfOk result (λ legal. legal ≡ true
            → AreReady self.new.defs.now self.new.place self.new.pasts.items self.new.anchors) }
        ensures defs { self.new.defs ≡ self.old.defs }
        ensures scripts { self.new.scripts ≡ self.old.scripts }
    {
        let Some(next) = self.place.checked_add(1) else {
            return Err(AllocError);
        };
        if !may_stand(e, self.place) {
            return Ok(false);
        }
        if !self.leads(exits, e)? {
            return Ok(false);
        }
        self.requests.learn(self.alloc, e)?;
        self.place = next;
        Ok(true)
    }
}
