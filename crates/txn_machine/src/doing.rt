//! What a statement does, by what the program knows.
ghost use Rattle.std.specs.Prelude.{◌≡◌, IfOk};
ghost use Rattle.fp_model.specs.declared.scripts.Statement.{out-Statement};
ghost use Rattle.txn_machine.specs.inside.Doing.{Does, IsCall, Spells, Tries, deed_of_loop};
ghost use Rattle.txn_machine.specs.inside.Stepping.{Costs};

use crate::known::Known;
use fp_model::{Bytes, Call, Defs, Message, Name, Statement};
use std::alloc::AllocError;
use txn_values::Stop;

/// The rollback code of a script that has no value where it needs one.
const NO_VALUE: u16 = 99;

/// What a statement does.
#[derive(Drop)]
pub(crate) enum Deed {
    /// Sets a variable.
    Set(Name, Bytes),
    /// Nothing: a loop that runs no time, or has an empty block.
    Pass,
    /// Runs the first block of an IF where it holds, and else the other.
    Choose(bool),
    /// Runs the block of a REPEAT, and so many times more.
    Repeat(u32),
    /// Leaves the innermost loop.
    Leave,
    /// Ends the script with a reply.
    Reply(Bytes),
    /// Ends the script with a rollback code.
    Roll(u16),
    /// Asks a call.
    Ask(Call),
}

// A loop: its block runs once, and the other times more. An empty block is passed at once, so that a step of a script
// is never for nothing.
fn repeated(times: u32, body: &[Statement]) -> Deed
    ensures loops { result ≡ deed_of_loop times body.now }
    ensures no_call { IsCall result → ⊥ }
{
    if times == 0 || body.is_empty() {
        Deed::Pass
    } else {
        Deed::Repeat(times - 1)
    }
}

impl Known {
    // What a statement does, where its values are there.
    fn tried(&self, defs: &Defs, message: &Message, statement: &Statement) -> Result<Deed, Stop>
        ensures does { Tries defs.now message.now self.now statement.now result }
        ensures costs { IfOk result (λ did. Costs statement.now did) }
        ensures spelled { IfOk result (λ did. IsCall did
            → Spells defs.now message.now self.now (out-Statement statement.now)) }
    {
        match statement {
            Statement::Set {
                variable,
                first,
                rest,
            } => Ok(Deed::Set(*variable, self.set_text(defs, message, first, rest)?)),
            Statement::If {
                left,
                comparison,
                right,
                ..
            } => Ok(Deed::Choose(self.chosen(defs, message, left, *comparison, right)?)),
            Statement::Repeat { times, body } => Ok(repeated(*times, body.as_slice())),
            Statement::Break => Ok(Deed::Leave),
            Statement::Reply(operands) => Ok(Deed::Reply(self.reply_text(
                defs, message, operands,
            )?)),
            Statement::Roll(code) => Ok(Deed::Roll(*code)),
            Statement::Get {
                get,
                hold,
                db,
                ssas,
            } => Ok(Deed::Ask(self.get_call(defs, message, *get, *hold, *db, ssas)?)),
            Statement::Fld { db, key, fsas } => {
                Ok(Deed::Ask(self.fld_call(defs, message, *db, key, fsas)?))
            }
            Statement::Isrt { db, ssas, fields } => {
                Ok(Deed::Ask(self.isrt_call(defs, message, *db, ssas, fields)?))
            }
            Statement::Repl { db, fields } => Ok(Deed::Ask(self.repl_call(
                defs, message, *db, fields,
            )?)),
            Statement::Dlet { db } => Ok(Deed::Ask(Call::Dlet { db: *db })),
        }
    }

    /// What a statement does. It ends the script with code 99 where there is no value. Fails only for want of memory.
    pub(crate) fn deed(
        &self,
        defs: &Defs,
        message: &Message,
        statement: &Statement,
    ) -> Result<Deed, AllocError>
        ensures does { IfOk result (λ did. Does defs.now message.now self.now statement.now did) }
        ensures costs { IfOk result (λ did. Costs statement.now did) }
        ensures spelled { IfOk result (λ did. IsCall did
            → Spells defs.now message.now self.now (out-Statement statement.now)) }
    {
        match self.tried(defs, message, statement) {
            Ok(did) => Ok(did),
            Err(Stop::NoValue) => Ok(Deed::Roll(NO_VALUE)),
            Err(Stop::Memory) => Err(AllocError),
        }
    }
}
