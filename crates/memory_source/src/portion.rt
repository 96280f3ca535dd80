//! A part that stands in memory, and how far it was given.
ghost use Rattle.std.specs.Prelude.{◌≡◌, ◌<◌, ◌≤◌, ◌++◌, [], length, take};

use fp_lists::Bytes;

// The bytes of a part, the first of which were given.
#[derive(Drop)]
pub struct Portion {
    bytes: Bytes,
    // How many were given.
    at: usize,
    ghost in_range: { at ≤ length bytes },
}

impl Portion {
    ghost use Rattle.memory_source.specs.Memory.{portion_left};

    // Nothing was given yet.
    pub(crate) fn new(bytes: Bytes) -> Portion
        ensures { portion_left result ≡ bytes }
    {
        Portion { bytes, at: 0 }
    }

    // Gives as many bytes as there are, or as fit.
    pub(crate) fn give(&mut self, into: &mut [u8]) -> usize
        requires { 0 < length into.old }
        ensures bound { result ≤ length into.old }
        ensures bytes { portion_left self.old ≡ take result into.new ++ portion_left self.new }
        ensures end { result ≡ 0 → portion_left self.old ≡ [] }
    {
        let rest = &self.bytes.as_slice()[self.at..];
        let count = rest.len().min(into.len());
        into[..count].copy_from_slice(&rest[..count]);
        self.at += count;
        count
    }
}
