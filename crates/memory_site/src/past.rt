// What a site in memory has been through: what it began with, and each call that changed it.
ghost use Rattle.std.specs.Prelude.{◌≡◌, ◌+◌, ◌<◌, ◌≤◌, [], ◌∷◌, ◌++◌, OnOk, length, vec_capacity, vec_len};
ghost use Rattle.memory_site.specs.History.Event.{Wrote, Synced, Sent};
ghost use Rattle.memory_site.specs.Calls.{bytes_of_all};

use crate::call::Call;
use crate::snapshot::Snapshot;
use std::alloc::{AllocError, Global};

// What a site began with, and its calls since.
#[derive(Drop)]
pub struct Past {
    pub start: Snapshot,
    // The oldest first.
    pub calls: Vec<Call>,
    // The bytes of their writes and sends, one behind the other.
    pub kept: Vec<u8>,
    ghost all_kept: { bytes_of_all calls.items ≡ length kept.items },
}

impl Past {
    ghost use Rattle.memory_site.specs.Past.{HasRoom, past_of};

    // No call yet.
    pub(crate) fn new(alloc: Global, start: Snapshot) -> Past
        ensures start { result.start ≡ start }
        ensures calls { result.calls.items ≡ [] }
    {
        Past {
            start,
            calls: Vec::new(alloc),
            kept: Vec::new(alloc),
        }
    }

    // Makes room for so many calls with so many bytes in all.
    pub(crate) fn reserve(&mut self, calls: usize, bytes: usize) -> Result<(), AllocError>
        ensures same { past_of self.new ≡ past_of self.old }
        ensures room { OnOk result (HasRoom self.new calls bytes) }
    {
        self.calls.reserve(calls)?;
        self.kept.reserve(bytes)?;
        Ok(())
    }

    // Notes a write, where there is room.
    pub(crate) fn note_write(&mut self, set: u16, at: u64, bytes: &[u8])
        requires { HasRoom self.old 1 (length bytes.now) }
        ensures { past_of self.new ≡ Wrote set at bytes.now ∷ past_of self.old }
    {
        note(
            &mut self.calls,
            &mut self.kept,
            Call::Write(set, at, bytes.len()),
            bytes,
        );
    }

    // Notes a sync, where there is room.
    pub(crate) fn note_sync(&mut self, set: u16)
        requires { HasRoom self.old 1 0 }
        ensures { past_of self.new ≡ Synced set ∷ past_of self.old }
    {
        note(&mut self.calls, &mut self.kept, Call::Sync(set), &[]);
    }

    // Notes a send, where there is room.
    pub(crate) fn note_send(&mut self, text: &[u8])
        requires { HasRoom self.old 1 (length text.now) }
        ensures { past_of self.new ≡ Sent text.now ∷ past_of self.old }
    {
        note(
            &mut self.calls,
            &mut self.kept,
            Call::Send(text.len()),
            text,
        );
    }
}

// Puts a call and its bytes at the end, where there is room.
fn note(calls: &mut Vec<Call>, kept: &mut Vec<u8>, call: Call, bytes: &[u8])
    requires calls { vec_len calls.old < vec_capacity calls.old }
    requires kept { vec_len kept.old + length bytes.now ≤ vec_capacity kept.old }
    ensures calls { calls.new.items ≡ calls.old.items ++ call ∷ [] }
    ensures kept { kept.new.items ≡ kept.old.items ++ bytes.now }
{
    let _ = calls.push(call);
    let _ = kept.extend_from_slice(bytes);
}
