//! The sets of cases, a file each, and who judges them.

use crate::cases::Case;
use crate::fault::CaseFault;
use crate::scripts::Named;
use crate::{
    arguments, checkpoints, definitions, entries, groups, intervals, messages, numbers, scripts,
    texts,
};
use std::alloc::Global;

/// A set of cases of one kind, which lies in a file.
#[derive(Clone, Copy)]
pub(crate) enum Set {
    /// Numbers in the fields of segments.
    Numbers,
    /// Lists of field search arguments, and segments that they are tried on.
    Arguments,
    /// Message lines.
    Messages,
    /// The lines that terminals are sent.
    Replies,
    /// Definitions texts.
    Definitions,
    /// Scripts texts.
    Scripts,
    /// Entries of the log.
    Entries,
    /// Logs with their groups.
    Groups,
    /// Intervals of an area.
    Intervals,
    /// The two data sets of checkpoints.
    Checkpoints,
}

impl Set {
    /// All sets, in the order in which they are judged.
    pub(crate) const ALL: [Set; 10] = [
        Set::Numbers,
        Set::Arguments,
        Set::Messages,
        Set::Replies,
        Set::Definitions,
        Set::Scripts,
        Set::Entries,
        Set::Groups,
        Set::Intervals,
        Set::Checkpoints,
    ];

    /// The name of its file.
    pub(crate) fn file_name(self) -> &'static str {
        match self {
            Set::Numbers => "numbers.txt",
            Set::Arguments => "fsas.txt",
            Set::Messages => "messages.txt",
            Set::Replies => "replies.txt",
            Set::Definitions => "definitions.txt",
            Set::Scripts => "scripts.txt",
            Set::Entries => "entries.txt",
            Set::Groups => "groups.txt",
            Set::Intervals => "intervals.txt",
            Set::Checkpoints => "checkpoints.txt",
        }
    }

    /// Whether its cases are blocks, and not lines.
    pub(crate) fn is_in_blocks(self) -> bool {
        matches!(self, Set::Definitions | Set::Scripts)
    }
}

/// Who judges the cases of a set, in their order.
#[derive(Drop)]
pub(crate) struct Judge {
    alloc: Global,
    set: Set,
    // The definitions that scripts are read by.
    known: Vec<Named>,
}

impl Judge {
    pub(crate) fn new(alloc: Global, set: Set) -> Judge {
        let known = Vec::new(alloc);
        Judge { alloc, set, known }
    }

    /// What the product makes of a case.
    pub(crate) fn answer(&mut self, case: &Case<'_>) -> Result<Vec<u8>, CaseFault> {
        let alloc = self.alloc;
        match self.set {
            Set::Numbers => numbers::answer(alloc, case.input),
            Set::Arguments => arguments::answer(alloc, case.input),
            Set::Messages => messages::answer(alloc, case.input),
            Set::Replies => messages::reply(alloc, case.input),
            Set::Definitions => definitions::answer(alloc, case.key, &text_of(alloc, case.input)?),
            Set::Scripts => {
                let text = text_of(alloc, case.input)?;
                scripts::answer(alloc, &mut self.known, case.key, &text)
            }
            Set::Entries => entries::answer(alloc, case.input),
            Set::Groups => groups::answer(alloc, case.input),
            Set::Intervals => intervals::answer(alloc, case.input),
            Set::Checkpoints => checkpoints::answer(alloc, case.input),
        }
    }
}

// The text of a block's lines, each with its newline.
fn text_of(alloc: Global, input: &str) -> Result<Vec<u8>, CaseFault> {
    if input.is_empty() {
        return Ok(Vec::new(alloc));
    }
    let lines = format!(in alloc; "{input}\n")?;
    texts::unescaped(alloc, &lines)
}
