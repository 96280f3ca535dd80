//! Where a program is in its script.
ghost use Rattle.std.specs.Prelude.{◌≡◌, ◌≢◌, ◌<◌, ◌≤◌, ◌++◌, ◌∷◌, [], if◌then◌else◌, IsFalse, IsTrue, List, length, MatchOption, OnErr, OnOk};
ghost use Rattle.fp_model.specs.declared.calls.Message.{Message};
ghost use Rattle.fp_model.specs.declared.definitions.Defs.{Defs};
ghost use Rattle.fp_model.specs.declared.scripts.Statement.{Statement, out-Statement};
ghost use Rattle.fp_model.specs.Operands.{Env};
ghost use Rattle.fp_model.specs.Asking.{Goes, Leaves, Replies, ended};
ghost use Rattle.txn_machine.specs.Places as places;
ghost use Rattle.txn_machine.specs.Places.{around, choice_in, end_from, inner, loop_in, way_from};
ghost use Rattle.txn_machine.specs.inside.Work.{work, work_around};

use fp_model::{List, Statement};
use std::alloc::AllocError;

/// An open block: the place behind the statement that opened it, in the block around it, and what it is there.
#[derive(Clone, Copy)]
pub(crate) enum Frame {
    /// A block of an IF: the first, or the one behind ELSE.
    Choice { behind: usize, holds: bool },
    /// The block of a REPEAT, which runs so many times more.
    Loop { behind: usize, left: u32 },
}

/// The open blocks, the outermost first, and a place in the innermost.
#[derive(Drop)]
pub(crate) struct Place {
    pub(crate) frames: List<Frame>,
    pub(crate) at: usize,
}

// A block of an IF; no other statement has one.
fn choice_in(statement: &Statement, holds: bool) -> &[Statement]
    ensures { result.now ≡ choice_in holds (out-Statement statement.now) }
{
    match statement {
        Statement::If { then, .. } if holds => then.as_slice(),
        Statement::If { otherwise, .. } => otherwise.as_slice(),
        _ => &[],
    }
}

// The block of a REPEAT; no other statement has one.
fn loop_in(statement: &Statement) -> &[Statement]
    ensures { result.now ≡ loop_in (out-Statement statement.now) }
{
    match statement {
        Statement::Repeat { body, .. } => body.as_slice(),
        _ => &[],
    }
}

impl Frame {
    // Its block, in the block around it.
    fn inner(self, block: &[Statement]) -> &[Statement]
        ensures { result.now ≡ inner self block.now }
    {
        match self {
            Frame::Choice { behind, holds } => match block.get(behind.saturating_sub(1)) {
                Some(statement) => choice_in(statement, holds),
                None => &[],
            },
            Frame::Loop { behind, .. } => match block.get(behind.saturating_sub(1)) {
                Some(statement) => loop_in(statement),
                None => &[],
            },
        }
    }
}

/// The innermost block.
pub(crate) fn block_at<'a>(statements: &'a [Statement], frames: &[Frame]) -> &'a [Statement]
    ensures { result.now ≡ places.block_at frames.now statements.now }
{
    let mut block = statements;
    for frame in frames {
        block = frame.inner(block);
    }
    block
}

// The innermost frame.
fn innermost(frames: &[Frame]) -> Option<Frame>
    ensures { MatchOption result (frames.now ≡ []) (λ last. (front : List Frame) × (frames.now ≡ front ++ last ∷ [])) }
{
    match frames {
        [.., last] => Some(*last),
        [] => None,
    }
}

impl Place {
    // Round the innermost loop once more, which has this frame then.
    fn again(&mut self, frame: Frame)
        requires { self.old.frames ≢ [] }
        ensures frames { (front : List Frame) (last : Frame) → self.old.frames ≡ front ++ last ∷ []
            → self.new.frames ≡ front ++ frame ∷ [] }
        ensures at { self.new.at ≡ 0 }
    {
        let last = self.frames.len() - 1;
        *self.frames.item_mut(last) = frame;
        self.at = 0;
    }

    // Out of the innermost block, to the place behind it.
    fn close(&mut self, behind: usize)
        ensures frames { (front : List Frame) (last : Frame) → self.old.frames ≡ front ++ last ∷ []
            → self.new.frames ≡ front }
        ensures at { self.new.at ≡ behind }
    {
        let _ = self.frames.pop();
        self.at = behind;
    }

    // On behind the innermost block, which has this frame: round its loop once more, or behind it.
    fn go_beyond(&mut self, frame: Frame)
        requires { (front : List Frame) × (self.old.frames ≡ front ++ frame ∷ []) }
        ensures leads { (defs : Defs) (message : Message) (statements : List Statement) (env : Env)
            → around defs message self.old.frames statements (Goes env) ≡ way_from defs message statements self.new
            env }
        ensures less { (statements : List Statement) → work statements self.new < work statements self.old }
    {
        match frame {
            Frame::Choice { behind, .. } => self.close(behind),
            Frame::Loop { behind, left } => {
                if left == 0 {
                    self.close(behind);
                } else {
                    self.again(Frame::Loop {
                        behind,
                        left: left - 1,
                    });
                }
            }
        }
    }

    /// Behind the innermost block. False where no block is open: then the script is at its end.
    pub(crate) fn end_block(&mut self) -> bool
        ensures leads { (defs : Defs) (message : Message) (statements : List Statement) (env : Env)
            → ended (around defs message self.old.frames statements (Goes env)) ≡
            (if result then end_from defs message statements self.new env else Replies []) }
        ensures less { (statements : List Statement) → IsTrue result
            → work statements self.new < work statements self.old }
        ensures stays { IsFalse result → self.new ≡ self.old }
    {
        match innermost(self.frames.as_slice()) {
            Some(frame) => {
                self.go_beyond(frame);
                true
            }
            None => false,
        }
    }

    /// Into a block of the innermost one. After want of memory the place is as before.
    pub(crate) fn enter(&mut self, frame: Frame) -> Result<(), AllocError>
        ensures ok { OnOk result (self.new.frames ≡ self.old.frames ++ frame ∷ []) }
        ensures at { OnOk result (self.new.at ≡ 0) }
        ensures err { OnErr result (self.new ≡ self.old) }
    {
        self.frames.push(frame)?;
        self.at = 0;
        Ok(())
    }

    /// Behind the innermost loop; where none is open, to the end of the script, which has so many statements.
    pub(crate) fn leave_loop(&mut self, end: usize)
        ensures leads { (defs : Defs) (message : Message) (statements : List Statement) (env : Env)
            → end ≡ length statements
            → ended (around defs message self.old.frames statements (Leaves env)) ≡ end_from defs message statements
            self.new env }
        ensures less { (statements : List Statement) → end ≡ length statements
            → work statements self.new ≤ work_around self.old.frames statements }
    {
        while let Some(frame) = self.frames.pop() {
            if let Frame::Loop { behind, .. } = frame {
                self.at = behind;
                return;
            }
        }
        self.at = end;
    }
}
