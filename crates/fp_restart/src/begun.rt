//! The intervals of areas that the items of a log have named so far.
ghost use Rattle.fp_model.specs.declared.log.Item.{Item as ItemOf};
ghost use Rattle.fp_restart.specs.inside.Begun.{IsBegunBy, has_begun};
ghost use Rattle.std.specs.Prelude.{◌≡◌, ◌==◌, ◌&&◌, ◌||◌, ℕ, [], OnOk};

use std::alloc::{AllocError, Global};
use std::collections::BTreeSet;

// The intervals that an item has written whole, so that a range of them may follow.
#[derive(Drop)]
pub(crate) struct Begun {
    // By data set and number.
    pub(crate) intervals: BTreeSet<(u16, u64)>,
}

impl Begun {
    // No item has named any.
    pub(crate) fn new(alloc: Global) -> Begun
        ensures { IsBegunBy result [] }
    {
        Begun {
            intervals: BTreeSet::new(alloc),
        }
    }

    // Whether an interval was written.
    pub(crate) fn has(&self, set: u16, ci: u64) -> bool
        ensures { result ≡ has_begun self.now set ci }
    {
        self.intervals.contains(&(set, ci))
    }

    // An interval is written; it may have been before.
    pub(crate) fn put(&mut self, set: u16, ci: u64) -> Result<(), AllocError>
        ensures ok { OnOk result ((other n : ℕ)
            → has_begun self.new other n ≡ ((other == set && n == ci) || has_begun self.old other n)) }
    {
        self.intervals.insert((set, ci))?;
        Ok(())
    }
}
