//! A script that runs.
ghost use Rattle.std.specs.Prelude.{◌≡◌, ◌<◌, ◌++◌, ◌∷◌, [], ℕ, List, length, ◌+◌, ◌≤◌, true, None, Some, IfOk, IfSome, OnErr, OnOk, slice_get};
ghost use Rattle.std.specs.List.{AllByRecursion};
ghost use Rattle.fp_model.specs.declared.definitions.Defs.{Defs};
ghost use Rattle.fp_model.specs.declared.calls.Message.{Message as MessageOf};
ghost use Rattle.fp_model.specs.declared.calls.Answer.{Answer};
ghost use Rattle.fp_model.specs.declared.calls.Call.{Call};
ghost use Rattle.fp_model.specs.declared.scripts.Statement.{Statement};
ghost use Rattle.fp_model.specs.declared.scripts.Script.{Script};
ghost use Rattle.fp_model.specs.Operands.{Env, with_setting};
ghost use Rattle.fp_model.specs.Asking.{Leaves, ask, ended};
ghost use Rattle.fp_model.specs.FitCalls.{FitsAnswerOf, are_fit, shown_behind};
ghost use Rattle.fp_model.specs.Calls.{database_of, target_of};
ghost use Rattle.fp_model.specs.WellFormed.{IsDedbDef, IsMsdbDef};
ghost use Rattle.txn_lang.specs.Suiting.{all_suit};
ghost use Rattle.txn_machine.specs.Running.{Awaits, IsAsked, IsAt, IsFit, IsFitNext, IsSuitedNext, IsWaiting, WaitsFor, end_of, types_shown};
ghost use Rattle.txn_machine.specs.inside.Running.{StandsAtCall};
ghost use Rattle.txn_machine.specs.inside.Alike.{AreAlike};
ghost use Rattle.txn_machine.specs.Fit.{AreShown, type_shown};
ghost use Rattle.txn_machine.specs.Places.{around, end_from};
ghost use Rattle.txn_machine.specs.Knowing.{env_of, lesson_of, segments_of};
ghost use Rattle.txn_machine.specs.inside.Stepping.{ComesAlike, IsDeed, IsGivenBy};
ghost use Rattle.txn_machine.specs.inside.Work.{work, work_around};

use crate::doing::Deed;
use crate::known::{Known, Lesson};
use crate::place::{Frame, Place, block_at};
use fp_model::{Answer, Bytes, Call, Defs, List, Message, Name, Statement};
use std::alloc::{AllocError, Global};
use txn_lang::Scripts;

/// What a script comes to.
#[derive(Drop)]
pub enum Next {
    /// A call, which is to be answered.
    Call(Call),
    /// Its end, with the text of its reply.
    Reply(Bytes),
    /// Its end, with a rollback code.
    Roll(u16),
}

/// A call that was given: the place behind its statement, and what its answer is good for.
#[derive(Clone, Copy)]
pub(crate) struct Wait {
    pub(crate) behind: usize,
    pub(crate) lesson: Lesson,
}

/// A script on its way: where it is, and what it knows.
#[derive(Drop)]
pub struct Program {
    /// The number of the script.
    number: u32,
    place: Place,
    known: Known,
    /// The call that was given last, if it has no answer yet.
    wait: Option<Wait>,
}

// What the answer to a call is good for, beside its status.
fn lesson_of(asked: &Call) -> Lesson
    ensures { result ≡ lesson_of asked.now }
{
    match asked {
        Call::Get { db, .. } => Lesson::Segment(*db),
        Call::Fld { .. } => Lesson::Letters,
        Call::Isrt { .. } | Call::Repl { .. } | Call::Dlet { .. } => Lesson::Nothing,
    }
}

impl Program {
    /// A script at its beginning. The later calls take the same scripts, and the message that it is run for. Takes no
    /// memory.
    pub fn start(alloc: Global, scripts: &Scripts, number: u32) -> Program
        requires { number < length scripts.now.scripts }
        ensures number { result.number ≡ number }

        // The program is where each script of these statements is before its first answer, whatever the message.
        ensures at { (defs : Defs) (statements : List Statement) (message : MessageOf)
            → IsAt defs statements message [] result }
        ensures fit { (defs : Defs) → IsFit defs result }
        ensures types { (db : ℕ) → types_shown result db ≡ None }
    {
        Program {
            number,
            place: Place {
                frames: List::new(alloc),
                at: 0,
            },
            known: Known::new(alloc),
            wait: None,
        }
    }

    /// Runs to the next call, or to the end. Called again without an answer it gives the same. Fails only for want of
    /// memory, and goes on from there when it is called again.
    ///
    /// Condition: the scripts are those that the program was started with. The message is the same at each call.
    pub fn next(
        &mut self,
        scripts: &Scripts,
        defs: &Defs,
        message: &Message,
    ) -> Result<Next, AllocError>
        requires { self.old.number < length scripts.now.scripts }
        ensures number { self.new.number ≡ self.old.number }

        // It gives what the script asks after these answers, and stays there.
        ensures exact { (script : Script) (answers : List Answer)
            → slice_get scripts.now.scripts self.old.number ≡ Some script
            → IsAt defs.now script.statements message.now answers self.old
            → IfOk result (λ next. IsAsked next (ask defs.now script.statements message.now answers)) }
        ensures at { (script : Script) (answers : List Answer)
            → slice_get scripts.now.scripts self.old.number ≡ Some script
            → IsAt defs.now script.statements message.now answers self.old
            → IsAt defs.now script.statements message.now answers self.new }
        ensures waits { IfOk result (λ next. Awaits next self.new) }

        // Where only main storage databases are named, the calls fit them.
        ensures fit_call { (script : Script)
            → slice_get scripts.now.scripts self.old.number ≡ Some script
            → AllByRecursion IsMsdbDef defs.now.msdbs
            → are_fit defs.now script.statements ≡ true
            → IsFit defs.now self.old
            → IfOk result (λ next. IsFitNext defs.now.msdbs next) }

        // Whatever databases are named, each call fits its own, by the type that was shown last of it.
        ensures suits_call { (script : Script)
            → slice_get scripts.now.scripts self.old.number ≡ Some script
            → AllByRecursion IsMsdbDef defs.now.msdbs
            → AllByRecursion IsDedbDef defs.now.dedbs
            → all_suit defs.now script.statements ≡ true
            → IsFit defs.now self.old
            → IfOk result (IsSuitedNext defs.now (types_shown self.old)) }
        ensures fit { (defs : Defs) → IsFit defs self.old → IsFit defs self.new }
        ensures types { (db : ℕ) → types_shown self.new db ≡ types_shown self.old db }
    {
        self.wait = None;
        let statements = scripts.script(self.number).statements.as_slice();
        loop {
            if let Some(next) = self.step(statements, defs, message)? {
                return Ok(next);
            }
        }
    }

    // The reply of a script that ends without one.
    fn end(&self) -> Next
        ensures { result ≡ Next.Reply [] }
    {
        Next::Reply(Bytes::new(self.known.alloc))
    }

    // Gives a call, and waits for its answer. After want of memory it waits for none.
    fn ask(&mut self, asked: Call, behind: usize) -> Result<Next, AllocError>
        ensures number { self.new.number ≡ self.old.number }
        ensures place { self.new.place ≡ self.old.place }
        ensures env { (answers : List Answer) → env_of self.new.known answers ≡ env_of self.old.known answers }
        ensures shown { segments_of self.new.known.gets ≡ segments_of self.old.known.gets }
        ensures call { IfOk result (λ next. next ≡ Next.Call asked) }
        ensures waits { OnOk result (WaitsFor asked self.new) }
        ensures wait { OnOk result (self.new.wait ≡ Some (record { behind = behind; lesson = lesson_of asked })) }
        ensures none { OnErr result (self.new.wait ≡ self.old.wait) }
    {
        self.known.make_place()?;
        self.wait = Some(Wait {
            behind,
            lesson: lesson_of(&asked),
        });
        Ok(Next::Call(asked))
    }

    // Sets a variable, and goes on.
    fn set(&mut self, name: Name, text: Bytes, behind: usize) -> Result<Option<Next>, AllocError>
        ensures nothing { IfOk result (λ given. given ≡ None) }
        ensures ok { (answers : List Answer) → OnOk result
            (AreAlike (with_setting name.0 text (env_of self.old.known answers)) (env_of self.new.known answers)) }
        ensures err { (answers : List Answer) → OnErr result
            (env_of self.new.known answers ≡ env_of self.old.known answers) }
        ensures at { OnOk result (self.new.place ≡ record self.old.place { at = behind }) }
        ensures stays { OnErr result (self.new.place ≡ self.old.place) }
        ensures number { self.new.number ≡ self.old.number }
        ensures wait { self.new.wait ≡ self.old.wait }
        ensures gets { self.new.known.gets ≡ self.old.known.gets }
    {
        self.known.set(name, text)?;
        self.place.at = behind;
        Ok(None)
    }

    // Goes on without anything else.
    fn pass(&mut self, behind: usize) -> Result<Option<Next>, AllocError>
        ensures nothing { result ≡ Ok None }
        ensures goes { self.new ≡ record self.old { place = record self.old.place { at = behind } } }
    {
        self.place.at = behind;
        Ok(None)
    }

    // Goes into a block.
    fn enter(&mut self, frame: Frame) -> Result<Option<Next>, AllocError>
        ensures nothing { IfOk result (λ given. given ≡ None) }
        ensures ok { OnOk result (self.new ≡ record self.old
            { place = record { frames = self.old.place.frames ++ frame ∷ []; at = 0 } }) }
        ensures err { OnErr result (self.new ≡ self.old) }
    {
        self.place.enter(frame)?;
        Ok(None)
    }

    // Leaves the innermost loop.
    fn leave(&mut self, end: usize) -> Result<Option<Next>, AllocError>
        ensures nothing { result ≡ Ok None }
        ensures leads { (defs : Defs) (message : MessageOf) (statements : List Statement) (env : Env)
            → end ≡ length statements
            → ended (around defs message self.old.place.frames statements (Leaves env)) ≡ end_from defs message
            statements self.new.place env }
        ensures less { (statements : List Statement) → end ≡ length statements
            → work statements self.new.place ≤ work_around self.old.place.frames statements }
        ensures number { self.new.number ≡ self.old.number }
        ensures wait { self.new.wait ≡ self.old.wait }
        ensures known { self.new.known ≡ self.old.known }
    {
        self.place.leave_loop(end);
        Ok(None)
    }

    // Does what the statement at the place does. What the script gives, where it gives something there.
    fn act(&mut self, deed: Deed, behind: usize, end: usize) -> Result<Option<Next>, AllocError>
        requires behind { behind ≡ self.old.place.at + 1 }
        requires none { self.old.wait ≡ None }
        ensures number { self.new.number ≡ self.old.number }
        ensures alike { (defs : Defs) (statements : List Statement) (message : MessageOf)
            → IsDeed defs statements message end self.old deed
            → ComesAlike defs statements message self.old self.new }
        ensures asked { (defs : Defs) (statements : List Statement) (message : MessageOf)
            → IsDeed defs statements message end self.old deed
            → IfOk result (λ given. IfSome given (λ next. IsAsked next
            (end_of defs statements message self.old []))) }
        ensures call { (defs : Defs) (statements : List Statement) (message : MessageOf)
            → IsDeed defs statements message end self.old deed
            → IfSome self.new.wait (StandsAtCall defs statements message self.new) }
        ensures less { (defs : Defs) (statements : List Statement) (message : MessageOf)
            → IsDeed defs statements message end self.old deed
            → IfOk result (λ given. given ≡ None → work statements self.new.place < work statements self.old.place) }
        ensures open { IfOk result (λ given. given ≡ None → self.new.wait ≡ None) }
        ensures waits { IfOk result (λ given. IfSome given (λ next. Awaits next self.new)) }
        ensures shown { segments_of self.new.known.gets ≡ segments_of self.old.known.gets }
        ensures given { IfOk result (λ given. IfSome given (IsGivenBy deed)) }
    {
        match deed {
            Deed::Set(name, text) => self.set(name, text, behind),
            Deed::Pass => self.pass(behind),
            Deed::Choose(holds) => self.enter(Frame::Choice { behind, holds }),
            Deed::Repeat(left) => self.enter(Frame::Loop { behind, left }),
            Deed::Leave => self.leave(end),
            Deed::Reply(text) => Ok(Some(Next::Reply(text))),
            Deed::Roll(code) => Ok(Some(Next::Roll(code))),
            Deed::Ask(asked) => Ok(Some(self.ask(asked, behind)?)),
        }
    }

    // One step: a statement, or the end of a block. What the script gives, where it gives something there.
    fn step(
        &mut self,
        statements: &[Statement],
        defs: &Defs,
        message: &Message,
    ) -> Result<Option<Next>, AllocError>
        requires { self.old.wait ≡ None }
        ensures number { self.new.number ≡ self.old.number }
        ensures alike { ComesAlike defs.now statements.now message.now self.old self.new }
        ensures asked { IfOk result (λ given. IfSome given
            (λ next. IsAsked next (end_of defs.now statements.now message.now self.old []))) }
        ensures call { IfSome self.new.wait (StandsAtCall defs.now statements.now message.now self.new) }
        ensures less { IfOk result (λ given. given ≡ None
            → work statements.now self.new.place < work statements.now self.old.place) }
        ensures open { IfOk result (λ given. given ≡ None → self.new.wait ≡ None) }
        ensures waits { IfOk result (λ given. IfSome given (λ next. Awaits next self.new)) }
        ensures shown { segments_of self.new.known.gets ≡ segments_of self.old.known.gets }
        ensures fit_call { AllByRecursion IsMsdbDef defs.now.msdbs
            → are_fit defs.now statements.now ≡ true
            → AreShown defs.now self.old.known.gets
            → IfOk result (λ given. IfSome given (IsFitNext defs.now.msdbs)) }
        ensures suits_call { AllByRecursion IsMsdbDef defs.now.msdbs
            → AllByRecursion IsDedbDef defs.now.dedbs
            → all_suit defs.now statements.now ≡ true
            → AreShown defs.now self.old.known.gets
            → IfOk result (λ given. IfSome given (IsSuitedNext defs.now (type_shown self.old.known.gets))) }
    {
        let block = block_at(statements, self.place.frames.as_slice());
        if self.place.at < block.len() {
            let behind = self.place.at + 1;
            let deed = self.known.deed(defs, message, &block[self.place.at])?;
            return self.act(deed, behind, statements.len());
        }
        if self.place.end_block() {
            return Ok(None);
        }
        Ok(Some(self.end()))
    }

    /// Takes the answer to the call that `next` gave last. Takes no memory.
    ///
    /// Condition: the last `next` gave a call, and it was not answered yet.
    pub fn give(&mut self, answer: Answer)
        requires { IsWaiting self.old }
        ensures number { self.new.number ≡ self.old.number }
        ensures at { (defs : Defs) (statements : List Statement) (message : MessageOf) (answers : List Answer)
            → IsAt defs statements message answers self.old
            → IsAt defs statements message (answers ++ answer ∷ []) self.new }
        ensures fit { (defs : Defs) (asked : Call)
            → WaitsFor asked self.old
            → IsFit defs self.old
            → FitsAnswerOf (target_of defs (database_of asked)) asked answer
            → IsFit defs self.new }
        ensures types { (asked : Call) (db : ℕ)
            → WaitsFor asked self.old
            → types_shown self.new db ≡ shown_behind asked answer (types_shown self.old) db }
    {
        let Some(wait) = self.wait.take() else {
            unreachable!()
        };
        self.place.at = wait.behind;
        self.known.learn(wait.lesson, answer);
    }
}
