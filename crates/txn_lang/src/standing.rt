//! Where a line stands: what is open there, and so which lines can.
//!
//! The script that is being read has a block of statements so far. Where an IF or a REPEAT is open, that is the block
//! of the innermost one, and what stood before it waits in a frame: there is a frame for each open IF and REPEAT, the
//! innermost last, and at most 64.
ghost use Rattle.std.specs.Prelude.{◌≡◌, Err, Ok, if◌then◌else◌, length, is_some, nat_lt};
ghost use Rattle.std.specs.List.{list_any};
ghost use Rattle.txn_tokens.specs.Readings.{Gives};
ghost use Rattle.txn_tokens.specs.Lookups.{HaveByteNumbers};
ghost use Rattle.txn_tokens.specs.declared.fault.LineFault.TheVariants.{UnknownName};
ghost use Rattle.txn_lang.specs.Blocks as blocks;
ghost use Rattle.txn_lang.specs.Blocks.{stands, unclosed};
ghost use Rattle.txn_lang.specs.inside.Building as building;
ghost use Rattle.txn_lang.specs.inside.Building.{context_of};

use crate::line::{Keyword, Line};
use crate::statements::{keyword_at, line_behind};
use fp_model::{Comparison, Defs, List, Name, Operand, Script, Statement};
use std::alloc::Global;
use txn_tokens::{LineFault, are_known, tokens_of};

// How many blocks are open at most.
const DEEPEST: usize = 64;

/// The statements of a block so far, and what they cost, up to 1,000,000,000.
#[derive(Drop)]
pub(crate) struct Block {
    pub(crate) statements: List<Statement>,
    pub(crate) cost: u64,
}

/// What opened a block.
#[derive(Drop)]
pub(crate) enum Opening {
    /// IF, in its first block.
    Choice {
        left: Operand,
        comparison: Comparison,
        right: Operand,
    },
    /// IF, behind its ELSE, with its first block.
    Otherwise {
        left: Operand,
        comparison: Comparison,
        right: Operand,
        taken: Block,
    },
    /// REPEAT.
    Loop {
        times: u32,
    },
}

/// An open block: what opened it, the line of that, and the block that it stands in, up to it.
#[derive(Drop)]
pub(crate) struct Frame {
    pub(crate) opening: Opening,
    pub(crate) line: u32,
    pub(crate) outer: Block,
}

/// What the lines so far make.
#[derive(Drop)]
pub(crate) struct Builder {
    /// The name of the script that is being read; None before the first TRAN.
    pub(crate) begun: Option<Name>,
    /// The innermost block of that script.
    pub(crate) block: Block,
    /// Its open blocks, the innermost last.
    pub(crate) frames: List<Frame>,
    /// The first line of a block that an earlier script left open. Where there is one, the text is refused at its end,
    /// and the scripts mean nothing.
    pub(crate) left_open: Option<u32>,
    /// The scripts before that.
    pub(crate) scripts: List<Script>,
    /// What each of them costs.
    pub(crate) costs: List<u64>,
}

// What was said, if it names what is known.
fn said_if<T: Drop>(is_known: bool, said: T) -> Result<T, LineFault>
    ensures { Gives (λ x. x) result (if is_known then Ok said else Err UnknownName) }
{
    if is_known {
        return Ok(said);
    }
    Err(LineFault::UnknownName)
}

impl Frame {
    fn is_loop(&self) -> bool
        ensures { result ≡ blocks.is_loop (building.open_of self.now) }
    {
        match self.opening {
            Opening::Loop { .. } => true,
            _ => false,
        }
    }

    fn is_choice(&self) -> bool
        ensures { result ≡ building.is_choice (building.kind_of self.now.opening) }
    {
        match self.opening {
            Opening::Choice { .. } => true,
            _ => false,
        }
    }
}

impl Builder {
    // The number of the line of the outermost open block.
    fn outermost(&self) -> Option<u32>
        ensures { result ≡ blocks.outermost (context_of self.now).open_blocks }
    {
        match self.frames.get(0) {
            Some(frame) => Some(frame.line),
            None => None,
        }
    }

    /// The first line of a block that has no END, if the text ended here.
    pub(crate) fn unclosed(&self) -> Option<u32>
        ensures { result ≡ unclosed (context_of self.now) }
    {
        match self.left_open {
            Some(number) => Some(number),
            None => self.outermost(),
        }
    }

    // Whether a loop is open.
    fn is_in_loop(&self) -> bool
        ensures { result ≡ list_any blocks.is_loop (context_of self.now).open_blocks }
    {
        self.frames.as_slice().iter().any(|frame| frame.is_loop())
    }

    // Whether the innermost open block is that of an IF, before its ELSE.
    fn is_in_choice(&self) -> bool
        ensures { result ≡ is_some (blocks.else_in (context_of self.now).open_blocks) }
    {
        match self.frames.as_slice().last() {
            Some(frame) => frame.is_choice(),
            None => false,
        }
    }

    // Whether a new block can be opened.
    fn has_room(&self) -> bool
        ensures { result ≡ nat_lt (length (context_of self.now).open_blocks) 64 }
    {
        self.frames.len() < DEEPEST
    }

    // Whether a block is open.
    fn is_open(&self) -> bool
        ensures { result ≡ is_some (blocks.end_in (context_of self.now).open_blocks) }
    {
        match self.frames.as_slice().last() {
            Some(_) => true,
            None => false,
        }
    }

    // Whether a line that begins with this word can stand here.
    #[tactic(auto, unfolding(crate::specs::Blocks::stands))]
    fn is_place_of(&self, keyword: Keyword) -> bool
        ensures { result ≡ is_some (stands 0 keyword (context_of self.now)) }
    {
        let has_begun = self.begun.is_some();
        match keyword {
            Keyword::Tran => true,
            Keyword::If | Keyword::Repeat => has_begun && self.has_room(),
            Keyword::Else => has_begun && self.is_in_choice(),
            Keyword::End => has_begun && self.is_open(),
            Keyword::Break => has_begun && self.is_in_loop(),
            Keyword::Set
            | Keyword::Reply
            | Keyword::Rolb
            | Keyword::Get { .. }
            | Keyword::Fld
            | Keyword::Isrt
            | Keyword::Repl
            | Keyword::Dlet => has_begun,
        }
    }

    // The same, as a reading.
    fn can_stand(&self, keyword: Keyword) -> Result<(), LineFault>
        ensures { Gives (λ x. x) result (building.can_stand keyword (context_of self.now)) }
    {
        if self.is_place_of(keyword) {
            return Ok(());
        }
        Err(LineFault::Syntax)
    }

    /// What a line with a statement says, with the word that it begins with.
    #[tactic(auto, unfolding(crate::specs::inside::Building::said_in))]
    pub(crate) fn statement_in(
        &self,
        alloc: Global,
        defs: &Defs,
        bytes: &[u8],
    ) -> Result<(Keyword, Line), LineFault>
        requires { HaveByteNumbers defs.now }
        ensures { Gives (λ x. x) result (building.said_in defs.now (context_of self.now) bytes.now) }
    {
        let tokens = tokens_of(alloc, bytes)?;
        let (keyword, rest) = keyword_at(&tokens)?;
        self.can_stand(keyword)?;
        let said = line_behind(alloc, defs, keyword, rest)?;
        said_if(are_known(defs, &tokens), (keyword, said))
    }
}
