//! The notes of a transaction: of each unheld look, how many entries stood.
ghost use Rattle.dli_calls.specs.inside.Progress.{noted};
ghost use Rattle.std.specs.Prelude.{◌≡◌, List as ListOf, OnErr, OnOk, ℕ};

use fp_model::List;
use std::alloc::AllocError;

// Puts a note at the end, if there is one. It fails only for want of memory, and then nothing changes.
pub(crate) fn put(notes: &mut List<u64>, note: Option<u64>) -> Result<(), AllocError>
    ensures ok { OnOk result (notes.new ≡ noted note notes.old) }
    ensures err { OnErr result (notes.new ≡ notes.old) }
{
    match note {
        Some(count) => notes.push(count),
        None => Ok(()),
    }
}

// Takes it back.
pub(crate) fn take_back(notes: &mut List<u64>, note: Option<u64>)
    ensures { (before : ListOf ℕ) → notes.old ≡ noted note before → notes.new ≡ before }
{
    if note.is_some() {
        let _ = notes.pop();
    }
}
