//! Bytes of a file that were read before they were asked for.
ghost use Rattle.fp_files.specs.Calls.{AreOf, is_locked};
ghost use Rattle.fp_files.specs.inside.Calls.{OnlyReads};
ghost use Rattle.std.specs.Prelude.{◌≡◌, ◌≤◌, [], length, true};

use crate::host;
use crate::host::SetFile;
use crate::record::Record;
use std::alloc::Global;
use std::io;

// How many bytes are read at once.
const BLOCK: usize = 1 << 16;

/// The bytes of a file from some offset on. Whoever writes to the file clears them.
#[derive(Drop)]
pub(crate) struct Ahead {
    at: u64,
    bytes: Vec<u8>,
}

impl Ahead {
    /// None. Takes no memory.
    pub(crate) fn new(alloc: Global) -> Ahead
        ensures { result.bytes.items ≡ [] }
    {
        Ahead {
            at: 0,
            bytes: Vec::new(alloc),
        }
    }

    /// Forgets them.
    pub(crate) fn clear(&mut self)
        ensures { self.new.bytes.items ≡ [] }
    {
        self.bytes.clear();
    }

    /// Fills `into` with the bytes from offset `at` on of a file of this length, which has them.
    pub(crate) fn read(
        &mut self,
        file: &SetFile,
        calls: &mut Record,
        length: u64,
        at: u64,
        into: &mut [u8],
    ) -> io::Result<()>
        requires locked { is_locked calls.old.events ≡ true }
        requires of { AreOf file.now.set calls.old.events }
        ensures { OnlyReads calls.old.events calls.new.events }
    {
        let count = self.copy(at, into);
        let (at, rest) = (at.saturating_add(count as u64), &mut into[count..]);
        if rest.is_empty() {
            return Ok(());
        }
        if rest.len() < BLOCK {
            self.fill(file, calls, length, at)?;
        }
        let count = self.copy(at, rest);
        host::read(
            file,
            calls,
            at.saturating_add(count as u64),
            &mut rest[count..],
        )
    }

    // Copies as many of the bytes from offset `at` on as are here. How many these are.
    fn copy(&self, at: u64, into: &mut [u8]) -> usize
        ensures { result ≤ length into.old }
    {
        let found = self.from(at);
        let count = found.len().min(into.len());
        into[..count].copy_from_slice(&found[..count]);
        count
    }

    // The bytes from offset `at` on that are here.
    fn from(&self, at: u64) -> &[u8] {
        let Some(skipped) = at.checked_sub(self.at) else {
            return &[];
        };
        let skipped = skipped.min(self.bytes.len() as u64) as usize;
        &self.bytes[skipped..]
    }

    // Reads a block of the file from offset `at` on, up to its end. None where there is no memory for it.
    fn fill(&mut self, file: &SetFile, calls: &mut Record, length: u64, at: u64) -> io::Result<()>
        requires locked { is_locked calls.old.events ≡ true }
        requires of { AreOf file.now.set calls.old.events }
        ensures { OnlyReads calls.old.events calls.new.events }
    {
        let count = length.saturating_sub(at).min(BLOCK as u64) as usize;
        self.bytes.clear();
        let Ok(block) = vec![in *self.bytes.allocator(); 0u8; count] else {
            return Ok(());
        };
        self.bytes = block;
        self.at = at;
        let answer = host::read(file, calls, at, &mut self.bytes);
        if answer.is_err() {
            self.bytes.clear();
        }
        answer
    }
}
