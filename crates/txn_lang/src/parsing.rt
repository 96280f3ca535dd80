//! Reads a text as scripts.
ghost use Rattle.std.specs.Prelude.{◌≡◌, IfOk, IfErr};
ghost use Rattle.txn_tokens.specs.Lookups.{HaveByteNumbers};
ghost use Rattle.txn_lang.specs.Grammar.{AreScriptsOf, HasFault};
ghost use Rattle.txn_lang.specs.Building.{Refuses};

use crate::fault::ScriptFault;
use crate::reader::read_lines;
use crate::scripts::{Scripts, number_scripts};
use fp_model::{Bytes, Defs};
use std::alloc::Global;

// How many bytes a text has at most.
const LONGEST: usize = 1_000_000;

/// The scripts that a text is, by these definitions.
///
/// Ok exactly where the text is in the grammar and there is memory. Otherwise it is the text's first fault, in the
/// order that `ScriptFault` gives.
pub fn parse(alloc: Global, bytes: &[u8], defs: &Defs) -> Result<Scripts, ScriptFault>
    requires { HaveByteNumbers defs.now }

    // At Ok the text is these scripts.
    ensures scripts { IfOk result (λ s. AreScriptsOf defs.now bytes.now s.scripts) }
    ensures text { IfOk result (λ s. s.text ≡ bytes.now) }

    // A refusal is the first fault of the text. Want of memory alone is free.
    ensures fault { IfErr result (λ e. Refuses e (HasFault defs.now bytes.now e)) }
{
    if bytes.len() > LONGEST {
        return Err(ScriptFault::TooLong);
    }
    let builder = read_lines(alloc, defs, bytes)?;
    let (scripts, costs) = builder.finish()?;
    let numbers = number_scripts(alloc, scripts.as_slice(), costs.as_slice())?;
    let text = Bytes::from_slice(alloc, bytes)?;
    Ok(Scripts::new(text, scripts, numbers))
}
