//! The count of faults, and the first one.
ghost use Rattle.std.specs.Prelude.{◌≡◌, ◌≤◌, IsNone, IsSome, None, Some};
ghost use Rattle.fp_lists.specs.Faults.{Rose};

use crate::cause::Cause;

/// How many calls failed, and why the first did.
#[derive(Drop)]
pub(crate) struct Faults {
    count: u64,
    first: Option<Cause>,
}

impl Faults {
    pub(crate) fn new() -> Faults
        ensures count { result.count ≡ 0 }
        ensures first { result.first ≡ None }
    {
        Faults {
            count: 0,
            first: Option::None,
        }
    }

    /// Counts one more. The count stays at its last value, 2^64 - 1. The first cause is kept.
    pub(crate) fn rise(&mut self, cause: Cause)
        ensures rose { Rose self.old.count self.new.count }
        ensures later { self.old.count ≤ self.new.count }
        ensures first { IsNone self.old.first → self.new.first ≡ Some cause }
        ensures kept { IsSome self.old.first → self.new.first ≡ self.old.first }
    {
        self.count = self.count.saturating_add(1);
        if self.first.is_none() {
            self.first = Option::Some(cause);
        }
    }

    /// Why the first call failed that did.
    pub(crate) fn first(&self) -> Option<Cause>
        ensures { result ≡ self.now.first }
    {
        self.first
    }
}
