//! What walks over overflow lists saw, for those that come after them.

ghost use Rattle.std.specs.Prelude.{◌≡◌, ◌≢◌, ℕ, Err, IsErrOf};
ghost use Rattle.ci_overflow.specs.Seen.{HasSeenNone};

use crate::SpaceFault;
use std::alloc::Global;
use std::collections::BTreeMap;

/// The links that walks over overflow lists went by. Each is read again before it is relied on.
#[derive(Drop)]
pub struct SeenLinks {
    /// For an interval, the one whose link led to it. None where nothing is kept.
    before: Option<BTreeMap<u64, u64>>,

    /// The interval that the last walk came to, 0 for none.
    reached: u64,
}

impl SeenLinks {
    /// No links yet; those that come are kept.
    pub fn new(alloc: Global) -> SeenLinks
        ensures { HasSeenNone result }
    {
        SeenLinks {
            before: Some(BTreeMap::new(alloc)),
            reached: 0,
        }
    }

    /// No links, and none that come are kept: each walk begins at the front of its list.
    pub(crate) fn none() -> SeenLinks {
        SeenLinks {
            before: None,
            reached: 0,
        }
    }

    /// The interval whose link was seen to lead to `ci`, 0 for none.
    pub(crate) fn before(&self, ci: u64) -> u64 {
        let Some(before) = &self.before else {
            return 0;
        };
        match before.get(&ci) {
            Some(from) => *from,
            None => 0,
        }
    }

    /// The interval that the last walk came to, 0 for none.
    pub(crate) fn reached(&self) -> u64 {
        self.reached
    }

    /// A walk has come to the interval `from`, whose link leads to `ci`.
    pub(crate) fn note(&mut self, from: u64, ci: u64) -> Result<(), SpaceFault>
        ensures never_failed { ¬ IsErrOf result SpaceFault.Failed }
        ensures never_damaged { (n : ℕ) → result ≢ Err (SpaceFault.Damaged n) }
    {
        let Some(before) = &mut self.before else {
            return Ok(());
        };
        self.reached = from;
        match before.insert(ci, from) {
            Ok(_) => Ok(()),
            Err(_) => Err(SpaceFault::Memory),
        }
    }

    /// The interval `ci`, to which the link of `from` leads, leaves its list: that link leads on to `link` then.
    pub(crate) fn forget(&mut self, ci: u64, from: u64, link: u64) -> Result<(), SpaceFault>
        ensures never_failed { ¬ IsErrOf result SpaceFault.Failed }
        ensures never_damaged { (n : ℕ) → result ≢ Err (SpaceFault.Damaged n) }
    {
        let reached = if self.reached == ci {
            from
        } else {
            self.reached
        };
        self.note(from, link)?;
        self.reached = reached;
        Ok(())
    }
}
