//! A list of calls of the system that only clauses read.
ghost use Rattle.fp_files.specs.Calls.{HostCall, IsLonger};
ghost use Rattle.fp_files.specs.inside.Calls.{call_of};
ghost use Rattle.std.specs.Borrow.{ftrue};
ghost use Rattle.std.specs.Prelude.{◌≡◌, [], ◌∷◌, List};

use std::marker::{Model, PhantomData};

/// The calls, the newest first. No memory holds them.
#[derive(Drop)]
pub struct Record {
    marker: PhantomData<u8>,
    pub ghost events: { List HostCall },
}

impl Model for Record {
    ghost also_owns = { λ _. ftrue };
}

impl Record {
    /// No call was made.
    pub fn new() -> Record
        ensures { result.events ≡ [] }
    {
        Record {
            marker: PhantomData,
        }
    }

    /// Notes the call of these numbers and bytes, behind those that were made.
    pub(crate) fn add(&mut self, numbers: &[u64], bytes: &[u8])
        ensures noted { self.new.events ≡ call_of numbers.now bytes.now ∷ self.old.events }
        ensures kept { IsLonger self.old.events self.new.events }
    {
        self.note(numbers, bytes);
    }

    // Notes the call of these numbers and bytes.
    fn note(&mut self, _numbers: &[u64], _bytes: &[u8])
        ensures { self.new.events ≡ call_of _numbers.now _bytes.now ∷ self.old.events }
    {}
}
