//! Entries put behind those of the log, so that the room that is kept free for refusals stays.
ghost use Rattle.fp_model.specs.LogText.{FitsEntry, KeepsRules, entry_text};
ghost use Rattle.fp_model.specs.declared.log.Outcome.{Outcome};
ghost use Rattle.std.specs.Prelude.{◌≡◌, ℕ, ◌+◌, ◌<◌, ◌≤◌, ◌^◌, ◌++◌, ◌∷◌, [], IsOk, OnErr, OnOk, length};
ghost use Rattle.sync_point.specs.Refusals.{IsBare, bare_entry, refusal_room};

use fp_model::{Bytes, Entry};
use log_format::entry_length;
use log_groups::Log;
use std::alloc::AllocError;

/// How many bytes the entry of a line has that is refused for want of memory or for a device.
pub fn refusal_room(line: &Bytes) -> u64
    requires { length line.now < 2 ^ 16 }
    ensures room { result ≡ refusal_room line.now }

    // It is just enough for such an entry.
    ensures enough { (from : ℕ) (outcome : Outcome) → IsBare outcome
        → length (entry_text (bare_entry from outcome line.now)) ≡ result }
{
    29 + line.len() as u64
}

/// Appends an entry, and keeps this room free behind it. Want of memory appends nothing. None is taken where there is
/// room for both.
pub fn append_beside(log: &mut Log, entry: &Entry, room: u64) -> Result<(), AllocError>
    requires rules { KeepsRules entry.now }
    requires fits { FitsEntry entry.now }
    ensures unsealed { OnOk result (log.new.unsealed ≡ log.old.unsealed ++ entry.now ∷ []) }
    ensures room { OnOk result (room ≤ log.new.spare) }
    ensures just { log.old.spare ≤ room → OnOk result (log.new.spare ≤ room) }
    ensures most { room ≤ log.old.spare → OnOk result (log.new.spare ≤ log.old.spare) }
    ensures sure { length (entry_text entry.now) + room ≤ log.old.spare → IsOk result }

    // What stays.
    ensures sealed { log.new.sealed ≡ log.old.sealed }
    ensures gate { log.new.gate ≡ log.old.gate }
    ensures waiting { OnErr result (log.new.unsealed ≡ log.old.unsealed) }
    ensures spare { OnErr result (log.old.spare ≤ log.new.spare) }
    ensures freed { OnErr result (log.new.spare ≤ log.old.spare) }
{
    let bytes = entry_length(entry);
    let _free = log.spare(); // so its range is known
    if u64::MAX - room < bytes {
        return Err(AllocError);
    }
    log.reserve(bytes + room)?;
    log.append(entry)?;
    Ok(())
}
