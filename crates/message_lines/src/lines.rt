//! The lines of the messages, one after another.
//!
//! A line ends at a newline and loses one byte 13 directly before it. A last line without newline counts, and keeps
//! its byte 13. The bytes are read in blocks; a block is given line by line and is never moved. After a fault or want
//! of memory a part of the line is lost: drop the `Lines`.
ghost use Rattle.std.specs.Prelude.{◌≡◌, ◌<◌, ◌≤◌, ◌+◌, ◌∷◌, ◌++◌, ℕ, List, [], IfErr, IfOk, IfSome, IfNone, OnOk, IsErrOf, Some, None, length, true, false, if◌then◌else◌};
ghost use Rattle.std.specs.Str.Lines.{strip_carriage_return};
ghost use Rattle.fp_model.specs.Messages.{LineTooLong, TooManyLines, lines_of, line_fault};
ghost use Rattle.fp_source.specs.Source.{ReadsOnly};
ghost use Rattle.fp_lists.specs.Faults.{Counts};
ghost use Rattle.message_lines.specs.inside.Newlines.{HasLongLine, HasNoNewline, IsFirstPart, after_part};

use fp_lists::Bytes;
use fp_source::{Failed, Part, Source};
use std::alloc::{AllocError, Global};

/// Why a line isn't given, with its number from 1. A line that is both too long and one too many is one too many.
#[derive(Clone, Copy)]
pub enum LineFault {
    /// It has more than 2,100 bytes before its newline, a byte 13 there among them.
    TooLong(u64),
    /// A read of the source failed.
    Failed,
    /// 1,000,000 lines were given, and one more begins.
    TooMany(u64),
    /// There was no memory.
    Memory,
}

impl From<Failed> for LineFault {
    ghost use Rattle.message_lines.specs.declared.lines.LineFault.TheVariants as fault;

    ghost from_gives = { λ _ e. e ≡ fault.Failed };

    fn from(_: Failed) -> LineFault {
        LineFault::Failed
    }
}

impl From<AllocError> for LineFault {
    ghost use Rattle.message_lines.specs.declared.lines.LineFault.TheVariants as fault;

    ghost from_gives = { λ _ e. e ≡ fault.Memory };

    fn from(_: AllocError) -> LineFault {
        LineFault::Memory
    }
}

// How many bytes are asked for at once.
const BLOCK: usize = 8192;

// How many bytes a line has at most before its newline.
const MOST_BYTES: usize = 2100;

// How many lines there are at most.
const MOST_LINES: u64 = 1_000_000;

/// The lines of the part Messages that are still to come.
#[derive(Drop)]
pub struct Lines {
    alloc: Global,
    // The bytes that were read last.
    block: Vec<u8>,
    // Of the block, those from `at` to `end` are still to be given.
    at: usize,
    end: usize,
    // How many lines were given.
    given: u64,
    ghost in_range: { (at ≤ end) × (end ≤ length block.items) },
    ghost is_block: { 0 < length block.items },
    ghost few: { given ≤ 1000000 },
}

impl Lines {
    ghost use Rattle.message_lines.specs.Lines.{IsCausedBy, buffered, fault_ahead, lines_ahead, lines_given, to_come};

    /// Stands before the first line.
    pub fn new(alloc: Global) -> Result<Lines, AllocError>
        ensures lines { IfOk result (λ it. (left : List ℕ) → lines_ahead it left ≡ lines_of left) }
        ensures fault { IfOk result (λ it. (left : List ℕ) → fault_ahead it left ≡ line_fault left) }
        ensures given { IfOk result (λ it. lines_given it ≡ 0) }
    {
        Ok(Lines {
            alloc,
            block: vec![in alloc; 0u8; BLOCK]?,
            at: 0,
            end: 0,
            given: 0,
        })
    }

    /// The next line, without its newline and without one byte 13 directly before it; `None` exactly at the end.
    /// What is ahead follows from the bytes that were read and not given, and from what is left of the source. After
    /// a fault or want of memory the bytes taken of the line are lost, and the clauses speak of what is left then.
    pub fn next<S: Source>(&mut self, source: &mut S) -> Result<Option<Bytes>, LineFault>
        // A line is the first of those ahead, and is none that there is a fault for.
        ensures line { S.told source.old → IfOk result (λ next. IfSome next (λ line.
            lines_ahead self.old (S.left source.old Part.Messages) ≡ line ∷ lines_ahead self.new
            (S.left source.new Part.Messages))) }
        ensures fair { S.told source.old → IfOk result (λ next. IfSome next (λ line.
            fault_ahead self.old (S.left source.old Part.Messages) ≡ fault_ahead self.new
            (S.left source.new Part.Messages))) }
        ensures short { IfOk result (λ next. IfSome next (λ line. length line ≤ 2100)) }

        // It counts as one, and 1,000,000 are given at most.
        ensures given { IfOk result (λ next. IfSome next (λ line. lines_given self.new ≡ lines_given self.old + 1)) }
        ensures few { IfOk result (λ next. IfSome next (λ line. lines_given self.new ≤ 1000000)) }
        ensures still { IfOk result (λ next. IfNone next (lines_given self.new ≡ lines_given self.old)) }

        // At the end there is nothing ahead, and it stays so.
        ensures none { S.told source.old → IfOk result (λ next. IfNone next
            (to_come self.old (S.left source.old Part.Messages) ≡ [])) }
        ensures ended { S.told source.old → IfOk result (λ next. IfNone next
            (to_come self.new (S.left source.new Part.Messages) ≡ [])) }

        // When a fault comes.
        ensures too_long { S.told source.old → (n : ℕ) → IsErrOf result (LineFault.TooLong n) →
            fault_ahead self.old (S.left source.old Part.Messages) ≡ Some (LineTooLong n) }
        ensures too_many { S.told source.old → (n : ℕ) → IsErrOf result (LineFault.TooMany n) →
            fault_ahead self.old (S.left source.old Part.Messages) ≡ Some (TooManyLines n) }
        ensures cause { IfErr result (IsCausedBy (S.faults source.old) (S.faults source.new)) }
        ensures calm { OnOk result (S.faults source.new ≡ S.faults source.old) }

        // The line of a fault is the next one.
        ensures long_number { (n : ℕ) → IsErrOf result (LineFault.TooLong n) → n ≡ lines_given self.old + 1 }
        ensures last_number { (n : ℕ) → IsErrOf result (LineFault.TooMany n) → n ≡ lines_given self.old + 1 }

        // Of the source only the messages were read.
        ensures source { ReadsOnly S.told S.left S.faults S.holds S.keeps Part.Messages source.old source.new }
    {
        if !self.fill(source)? {
            return Ok(None);
        }
        if self.given == MOST_LINES {
            return Err(LineFault::TooMany(MOST_LINES + 1));
        }
        let mut line = Vec::new(self.alloc);
        let by_newline = self.gather(source, &mut line)?;
        self.given += 1;
        Ok(Some(finished(line, by_newline)))
    }

    // Moves the bytes before the next newline into `line`, and takes the newline. Whether there was one: else the
    // bytes ended.
    fn gather<S: Source>(&mut self, source: &mut S, line: &mut Vec<u8>) -> Result<bool, LineFault>
        requires { line.old.items ≡ [] }
        ensures by_newline { S.told source.old → IfOk result (λ by_newline. by_newline ≡ true →
            to_come self.old (S.left source.old Part.Messages) ≡ line.new.items ++ 10 ∷ to_come self.new
            (S.left source.new Part.Messages)) }
        ensures at_end { S.told source.old → IfOk result (λ by_newline. by_newline ≡ false →
            to_come self.old (S.left source.old Part.Messages) ≡ line.new.items) }
        ensures ended { S.told source.old → IfOk result (λ by_newline. by_newline ≡ false →
            to_come self.new (S.left source.new Part.Messages) ≡ []) }
        ensures plain { OnOk result (HasNoNewline line.new.items) }
        ensures short { OnOk result (length line.new.items ≤ 2100) }
        ensures too_long { S.told source.old → (n : ℕ) → IsErrOf result (LineFault.TooLong n) →
            HasLongLine (to_come self.old (S.left source.old Part.Messages)) }
        ensures number { (n : ℕ) → IsErrOf result (LineFault.TooLong n) → n ≡ lines_given self.old + 1 }
        ensures not_many { (n : ℕ) → IsErrOf result (LineFault.TooMany n) → ⊥ }
        ensures cause { IfErr result (IsCausedBy (S.faults source.old) (S.faults source.new)) }
        ensures calm { OnOk result (S.faults source.new ≡ S.faults source.old) }
        ensures given { lines_given self.new ≡ lines_given self.old }
        ensures source { ReadsOnly S.told S.left S.faults S.holds S.keeps Part.Messages source.old source.new }
    {
        while self.fill(source)? {
            if self.take_part(line)? {
                return Ok(true);
            }
        }
        Ok(false)
    }

    // Reads the next block, where no byte of the last one is left. Whether there are bytes; else all have been given.
    fn fill<S: Source>(&mut self, source: &mut S) -> Result<bool, Failed>
        ensures some { IfOk result (λ more. more ≡ true → 0 < length (buffered self.new)) }
        ensures none { S.told source.old → IfOk result (λ more. more ≡ false →
            to_come self.new (S.left source.new Part.Messages) ≡ []) }
        ensures same { S.told source.old →
            to_come self.new (S.left source.new Part.Messages) ≡ to_come self.old (S.left source.old Part.Messages) }
        ensures cause { Counts (S.faults source.old) (S.faults source.new) result }
        ensures given { lines_given self.new ≡ lines_given self.old }
        ensures source { ReadsOnly S.told S.left S.faults S.holds S.keeps Part.Messages source.old source.new }
    {
        if self.at < self.end {
            return Ok(true);
        }
        let count = source.read(Part::Messages, &mut self.block)?;
        self.at = 0;
        self.end = count;
        Ok(0 < count)
    }

    // Moves bytes of the block into `line`, up to the next newline, which is taken, or to the block's end. Whether
    // there was a newline.
    fn take_part(&mut self, line: &mut Vec<u8>) -> Result<bool, LineFault>
        requires short { length line.old.items ≤ 2100 }
        requires plain { HasNoNewline line.old.items }
        ensures part { IfOk result (λ by_newline. (part : List ℕ)
            × IsFirstPart part by_newline (buffered self.old) (buffered self.new)
            × (line.new.items ≡ line.old.items ++ part)) }
        ensures short { OnOk result (length line.new.items ≤ 2100) }
        ensures too_long { (n : ℕ) → IsErrOf result (LineFault.TooLong n)
            → HasLongLine (line.old.items ++ buffered self.old) }
        ensures number { (n : ℕ) → IsErrOf result (LineFault.TooLong n) → n ≡ lines_given self.old + 1 }
        ensures not_many { (n : ℕ) → IsErrOf result (LineFault.TooMany n) → ⊥ }
        ensures not_failed { IsErrOf result LineFault.Failed → ⊥ }
        ensures given { lines_given self.new ≡ lines_given self.old }
    {
        let (part, by_newline) = first_part(&self.block[self.at..self.end]);
        if part.len() > MOST_BYTES - line.len() {
            return Err(LineFault::TooLong(self.given + 1));
        }
        line.extend_from_slice(part)?;
        self.at += part.len() + usize::from(by_newline);
        Ok(by_newline)
    }
}

// The bytes before the first newline, or all where there is none, and whether there is one.
fn first_part(bytes: &[u8]) -> (&[u8], bool)
    ensures { IsFirstPart result.0.now result.1 bytes.now (after_part result.0.now result.1 bytes.now) }
{
    match bytes.iter().position(|b| *b == b'\n') {
        Some(place) => (&bytes[..place], true),
        None => (bytes, false),
    }
}

// A line as it is given: one that ended at a newline loses one byte 13 at its end.
fn finished(line: Vec<u8>, by_newline: bool) -> Bytes
    ensures { result ≡ (if by_newline then strip_carriage_return line.items else line.items) }
{
    let mut line = line;
    if by_newline && line.last() == Some(&b'\r') {
        line.pop();
    }
    Bytes::from_vec(line)
}
