//! The cases of a file: a line or a block each.
//!
//!     line   = input " => " wanted
//!     block  = "=== " key ": " wanted newline text
//!
//! Other lines of a file with a case a line say something to its reader, as do those before the first block.

/// A case: what goes in, and what must come out.
#[derive(Drop)]
pub(crate) struct Case<'a> {
    /// What else goes in with the text of a block; nothing in a line.
    pub(crate) key: &'a str,
    /// What goes in: a line's text up to the arrow, or the lines of a block but for the last newline.
    pub(crate) input: &'a str,
    /// What must come out.
    pub(crate) wanted: &'a str,
}

impl<'a> Case<'a> {
    /// The case of a line; `None` where it has no arrow.
    pub(crate) fn of_line(line: &'a str) -> Option<Case<'a>> {
        let (input, wanted) = line.split_once(" => ")?;
        Some(Case {
            key: "",
            input,
            wanted,
        })
    }

    /// The case of a block without the signs that it begins with.
    pub(crate) fn of_block(block: &'a str) -> Case<'a> {
        let (head, input) = block.split_once('\n').unwrap_or((block, ""));
        let (key, wanted) = head.split_once(": ").unwrap_or(("", head));
        Case { key, input, wanted }
    }

    /// The first line of what goes in.
    pub(crate) fn head(&self) -> &'a str {
        match self.input.split_once('\n') {
            Some((head, _)) => head,
            None => self.input,
        }
    }
}

/// How many cases a file has, and how many differ.
#[derive(Drop)]
pub(crate) struct Counts {
    cases: u64,
    differ: u64,
}

impl Counts {
    pub(crate) fn new() -> Counts {
        Counts {
            cases: 0,
            differ: 0,
        }
    }

    /// Counts a case.
    pub(crate) fn add(&mut self, is_same: bool) {
        self.cases = self.cases.saturating_add(1);
        if !is_same {
            self.differ = self.differ.saturating_add(1);
        }
    }

    /// How many cases there are.
    pub(crate) fn cases(&self) -> u64 {
        self.cases
    }

    /// How many of them differ.
    pub(crate) fn differ(&self) -> u64 {
        self.differ
    }
}
