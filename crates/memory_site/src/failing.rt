//! A site over another one, which fails at calls by their kind and data set.
//!
//! A call that is told to fail changes nothing: it isn't passed on. A site in memory that fails at calls by their
//! number leaves more behind, as mixed bytes of a write; the two can stand together.
ghost use Rattle.std.specs.Prelude.{◌≡◌, ◌+◌, ◌-◌, ◌^◌, IfSome, None, Some, false, min, true};

use fp_site::{Failed, Site};

/// A kind of call on a data set.
#[derive(Clone, Copy, PartialEq, Eq)]
pub enum Kind {
    Size,
    Reach,
    Read,
    Write,
    Sync,
}

/// A site that fails at every call of one kind on one data set, or at one of them alone. Wrapped again, it fails at
/// more.
#[derive(Drop)]
pub struct FailingSite<T: Site> {
    site: T,
    kind: Kind,
    set: u16,
    // The only one of these calls that fails, by its number from 0; all of them where there is none.
    only: Option<u64>,
    // How many of these calls were made.
    seen: u64,
    // How many calls failed here.
    failed: u64,
}

impl<T: Site> FailingSite<T> {
    /// Over this site, where every call of this kind on this data set fails.
    pub fn every(site: T, kind: Kind, set: u16) -> FailingSite<T>
        ensures site { result.site ≡ site }
        ensures of { (result.kind ≡ kind) × (result.set ≡ set) × (result.only ≡ None) }
        ensures counts { (result.seen ≡ 0) × (result.failed ≡ 0) }
    {
        FailingSite {
            site,
            kind,
            set,
            only: Option::None,
            seen: 0,
            failed: 0,
        }
    }

    /// Over this site, where of the calls of this kind on this data set that of this number, counted from 0, fails.
    pub fn once(site: T, kind: Kind, set: u16, number: u64) -> FailingSite<T>
        ensures site { result.site ≡ site }
        ensures of { (result.kind ≡ kind) × (result.set ≡ set) × (result.only ≡ Some number) }
        ensures counts { (result.seen ≡ 0) × (result.failed ≡ 0) }
    {
        FailingSite {
            site,
            kind,
            set,
            only: Option::Some(number),
            seen: 0,
            failed: 0,
        }
    }

    /// The site below.
    pub fn inner(&self) -> &T
        ensures { result.now ≡ self.now.site }
    {
        &self.site
    }

    /// How many calls failed here. The count stays at its last value, 2^64 - 1.
    pub fn failed(&self) -> u64
        ensures { result ≡ self.now.failed }
    {
        self.failed
    }

    // Begins a call of this kind. Whether it is to fail; if so, it is counted.
    fn next_fails(&mut self, kind: Kind, set: u16) -> bool
        ensures due { self.old.kind ≡ kind → self.old.set ≡ set → IfSome self.old.only (λ n. n ≡ self.old.seen)
            → result ≡ true }
        ensures others { result ≡ true → (self.old.kind ≡ kind) × (self.old.set ≡ set)
            × IfSome self.old.only (λ n. n ≡ self.old.seen) }
        ensures rose { result ≡ true → self.new.failed ≡ min (self.old.failed + 1) (2 ^ 64 - 1) }
        ensures passes { result ≡ false → self.new.failed ≡ self.old.failed }
        ensures site { self.new.site ≡ self.old.site }
    {
        if self.kind != kind || self.set != set {
            return false;
        }
        let number = self.seen;
        self.seen = number.saturating_add(1);
        if !is_one(self.only, number) {
            return false;
        }
        self.failed = self.failed.saturating_add(1);
        true
    }
}

// Whether a call of this number is meant.
fn is_one(only: Option<u64>, number: u64) -> bool
    ensures is { result ≡ true → IfSome only (λ n. n ≡ number) }
    ensures not { result ≡ false → IfSome only (λ n. n ≡ number) → ⊥ }
{
    match only {
        Some(meant) => meant == number,
        None => true,
    }
}

// What a failed read leaves.
const JUNK: u8 = 0xA5;

impl<T: Site> Site for FailingSite<T> {
    ghost told = { λ f. T.told f.site };

    ghost disk = { λ f. T.disk f.site };

    ghost tells_reads = { λ f k. T.tells_reads f.site k };

    ghost bytes_read = { λ f k. T.bytes_read f.site k };

    ghost faults = { λ f. min (T.faults f.site + f.failed) (2 ^ 64 - 1) };

    ghost holds = { λ f. T.holds f.site };

    ghost keeps = { λ first f. T.keeps first.site f.site };

    ghost keeps_itself = { λ f. T.keeps_itself f.site };

    ghost keeps_on = { λ a b c f g. T.keeps_on a.site b.site c.site f g };

    ghost lawful = { λ f told. T.lawful f.site told };

    fn size(&mut self, set: u16) -> Result<u64, Failed> {
        if self.next_fails(Kind::Size, set) {
            return Err(Failed);
        }
        self.site.size(set)
    }

    fn reach(&mut self, set: u16, end: u64) -> Result<(), Failed> {
        if self.next_fails(Kind::Reach, set) {
            return Err(Failed);
        }
        self.site.reach(set, end)
    }

    fn read_at(&mut self, set: u16, at: u64, into: &mut [u8]) -> Result<(), Failed> {
        if self.next_fails(Kind::Read, set) {
            into.fill(JUNK);
            return Err(Failed);
        }
        self.site.read_at(set, at, into)
    }

    fn write_at(&mut self, set: u16, at: u64, from: &[u8]) -> Result<(), Failed> {
        if self.next_fails(Kind::Write, set) {
            return Err(Failed);
        }
        self.site.write_at(set, at, from)
    }

    fn sync(&mut self, set: u16) -> Result<(), Failed> {
        if self.next_fails(Kind::Sync, set) {
            return Err(Failed);
        }
        self.site.sync(set)
    }

    fn send(&mut self, text: &[u8]) -> Result<(), Failed> {
        self.site.send(text)
    }
}
