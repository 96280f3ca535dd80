//! What a pool holds of one interval beside the data set's bytes.

ghost use Rattle.std.specs.Prelude.{◌≡◌, ◌↔◌, IsTrue, IsSome, Some, None};
ghost use Rattle.ci_pool.specs.Cells.{is_of, comes_before};
ghost use Rattle.ci_pool.specs.Changes.{oldest_of, newest_of, is_staged};
ghost use Rattle.ci_pool.specs.inside.Changes.{published, unstaged, after_write, staged_with, is_only_staged, may_pay, waits_up_to};

use fp_lists::Bytes;

/// An interval that is published and not written.
#[derive(Drop)]
pub struct Waiting {
    /// The place of the oldest entry whose change of it isn't written.
    pub oldest: u64,

    /// The place of the newest entry that changed it.
    pub newest: u64,

    /// Its bytes behind that entry.
    pub bytes: Bytes,
}

/// What is held of one interval: that it waits to be written, that bytes are staged, or both.
#[derive(Drop)]
pub struct Cell {
    /// The number of its data set.
    pub set: u16,

    /// Its number there.
    pub ci: u64,

    pub waiting: Option<Waiting>,

    pub staged: Option<Bytes>,
}

impl Cell {
    /// Whether it is of this interval.
    pub(crate) fn is_of(&self, set: u16, ci: u64) -> bool
        ensures { result ≡ is_of set ci self.now }
    {
        self.set == set && self.ci == ci
    }

    /// Whether it comes before this interval, by data set and number.
    pub(crate) fn comes_before(&self, set: u16, ci: u64) -> bool
        ensures { result ≡ comes_before self.now.set self.now.ci set ci }
    {
        self.set < set || (self.set == set && self.ci < ci)
    }

    /// The oldest entry whose change of it isn't written; the greatest number where it doesn't wait.
    pub(crate) fn oldest(&self) -> u64
        ensures { result ≡ oldest_of self.now }
    {
        match &self.waiting {
            None => u64::MAX,
            Some(waiting) => waiting.oldest,
        }
    }

    /// The newest entry that changed it; the greatest number where it doesn't wait.
    pub(crate) fn newest(&self) -> u64
        ensures { result ≡ newest_of self.now }
    {
        match &self.waiting {
            None => u64::MAX,
            Some(waiting) => waiting.newest,
        }
    }

    /// Whether it owes a change of an entry below `count`, and its newest change is below `sealed`.
    pub(crate) fn may_pay(&self, count: u64, sealed: u64) -> bool
        ensures { result ≡ may_pay count sealed self.now }
    {
        match &self.waiting {
            None => false,
            Some(waiting) => waiting.oldest < count && waiting.newest < sealed,
        }
    }

    /// Whether it waits for no entry behind this one.
    pub(crate) fn waits_up_to(&self, newest: u64) -> bool
        ensures { result ≡ waits_up_to newest self.now }
    {
        match &self.waiting {
            None => false,
            Some(waiting) => waiting.newest <= newest,
        }
    }

    /// Whether it is there for staged bytes alone.
    pub(crate) fn is_only_staged(&self) -> bool
        ensures { result ≡ is_only_staged self.now }
    {
        self.staged.is_some() && self.waiting.is_none()
    }

    /// A number mixed from its data set and number, which gives a tree its shape.
    pub(crate) fn rank(&self) -> u64 {
        let mut mixed = self.ci ^ (u64::from(self.set) << 48);
        mixed = (mixed ^ (mixed >> 30)).wrapping_mul(0xbf58_476d_1ce4_e5b9);
        mixed = (mixed ^ (mixed >> 27)).wrapping_mul(0x94d0_49bb_1331_11eb);
        mixed ^ (mixed >> 31)
    }

    /// Whether bytes are staged.
    pub(crate) fn is_staged(&self) -> bool
        ensures { result ≡ is_staged self.now }
    {
        self.staged.is_some()
    }

    /// What is staged waits from now on, for the entry at this place.
    pub(crate) fn publish(&mut self, place: u64)
        ensures { self.new ≡ published place self.old }
    {
        if let Some(bytes) = self.staged.take() {
            let oldest = match &self.waiting {
                None => place,
                Some(waiting) => waiting.oldest,
            };
            self.waiting = Some(Waiting {
                oldest,
                newest: place,
                bytes,
            });
        }
    }

    /// What is staged is dropped.
    pub(crate) fn drop_staged(&mut self)
        ensures { self.new ≡ unstaged self.old }
    {
        self.staged = None;
    }

    /// It waits no more.
    pub(crate) fn write(&mut self)
        ensures { self.new ≡ after_write self.old }
    {
        self.waiting = None;
    }

    /// These bytes are staged, in place of any that were.
    pub(crate) fn stage(&mut self, bytes: Bytes)
        ensures { self.new ≡ staged_with bytes self.old }
    {
        self.staged = Some(bytes);
    }
}
