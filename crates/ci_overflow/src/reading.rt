//! One interval of an area: it is read and its place is seen to be right, it is put back, or an element
//! of it is taken.

ghost use Rattle.std.specs.Prelude.{◌≡◌, ◌≢◌, ◌<◌, ℕ, length, IfOk, OnOk, OnErr, IsErrOf, IsTrue};
ghost use Rattle.ci_space.specs.Calls.{GoesOn};
ghost use Rattle.fp_lists.specs.Faults.{Rose};
ghost use Rattle.ci_space.specs.Interval.{IsInterval, kind_of};
ghost use Rattle.ci_space.specs.Head.{head_of};
ghost use Rattle.ci_overflow.specs.Lists.{bytes_at, owner_of};
ghost use Rattle.ci_overflow.specs.Rooms.{IsPut, IsTried};
ghost use Rattle.ci_overflow.specs.Faults.{IsNoInterval, IsNotThere};

use crate::SpaceFault;
use ci_space::{GetFault, Interval, Intervals};

/// Where an interval is looked for, and what it is to be.
#[derive(Clone, Copy)]
pub struct Place {
    pub ci: u64,
    pub kind: u8,
    pub owner: u64,

    /// The interval that is damaged where this one is not there.
    pub from: u64,
}

/// The interval of this number, which the interval `from` leads to.
pub fn get<I: Intervals>(i: &mut I, ci: u64, from: u64) -> Result<Interval, SpaceFault>
    ensures bytes { I.told i.old → IfOk result (λ interval. interval ≡ bytes_at (I.intervals i.old) ci) }
    ensures below { OnOk result (ci < I.number i.old) }
    ensures interval { IfOk result IsInterval }
    ensures size { IfOk result (λ interval. length interval ≡ I.size i.old) }

    // It fails only with what holds the intervals, or where no interval is there.
    ensures failed { IsErrOf result SpaceFault.Failed → Rose (I.faults i.old) (I.faults i.new) }
    ensures damaged { I.told i.old → (n : ℕ) → result ≡ Err (SpaceFault.Damaged n)
        → IsNoInterval (I.intervals i.old) ci from n }

    // Nothing changes.
    ensures same { I.told i.old → I.intervals i.new ≡ I.intervals i.old }
    ensures number { I.number i.new ≡ I.number i.old }
    ensures goes_on { GoesOn I.told I.size I.faults I.keeps i.old i.new }
{
    if i.count() <= ci {
        return Err(SpaceFault::Damaged(from));
    }
    match i.get(ci) {
        Ok(interval) => Ok(interval),
        Err(GetFault::Failed) => Err(SpaceFault::Failed),
        Err(GetFault::BadTiles(ci)) => Err(SpaceFault::Damaged(ci)),
        Err(GetFault::Memory) => Err(SpaceFault::Memory),
    }
}

/// The interval of this place.
#[tactic(auto, unfolding(crate::specs::Lists::owner_of))]
pub fn read<I: Intervals>(i: &mut I, place: Place) -> Result<Interval, SpaceFault>
    ensures bytes { I.told i.old → IfOk result (λ interval. interval ≡ bytes_at (I.intervals i.old) place.ci) }
    ensures below { OnOk result (place.ci < I.number i.old) }
    ensures kind { IfOk result (λ interval. kind_of interval ≡ place.kind) }
    ensures owner { IfOk result (λ interval. owner_of interval ≡ place.owner) }
    ensures interval { IfOk result IsInterval }
    ensures size { IfOk result (λ interval. length interval ≡ I.size i.old) }

    // It fails only with what holds the intervals, or where no such interval is there.
    ensures failed { IsErrOf result SpaceFault.Failed → Rose (I.faults i.old) (I.faults i.new) }
    ensures damaged { I.told i.old → (n : ℕ) → result ≡ Err (SpaceFault.Damaged n)
        → IsNotThere (I.intervals i.old) place n }

    // Nothing changes.
    ensures same { I.told i.old → I.intervals i.new ≡ I.intervals i.old }
    ensures number { I.number i.new ≡ I.number i.old }
    ensures goes_on { GoesOn I.told I.size I.faults I.keeps i.old i.new }
{
    let interval = get(i, place.ci, place.from)?;
    let head = interval.head();
    if head.kind != place.kind || head.owner != place.owner {
        return Err(SpaceFault::Damaged(place.from));
    }
    Ok(interval)
}

/// Puts the interval of this number.
pub fn write<I: Intervals>(i: &mut I, ci: u64, interval: Interval) -> Result<(), SpaceFault>
    requires in_range { ci < I.number i.old }
    requires size { length interval ≡ I.size i.old }
    ensures put { I.told i.old → OnOk result (IsPut (I.intervals i.old) (I.intervals i.new) ci interval) }
    ensures never_failed { ¬ IsErrOf result SpaceFault.Failed }
    ensures never_damaged { (n : ℕ) → result ≢ Err (SpaceFault.Damaged n) }
    ensures number { I.number i.new ≡ I.number i.old }
    ensures goes_on { GoesOn I.told I.size I.faults I.keeps i.old i.new }
{
    match i.put(ci, interval) {
        Ok(()) => Ok(()),
        Err(_) => Err(SpaceFault::Memory),
    }
}

/// What an interval that was tried gave: the place of the element that was taken, None where it is
/// full, and its link.
#[derive(Clone, Copy)]
pub struct Tried {
    pub at: Option<u16>,
    pub link: u64,
}

/// Takes an element of the interval of this place, where it has room. Control and the intervals of the
/// free chain are not tried.
pub fn try_take<I: Intervals>(i: &mut I, place: Place, length: u16) -> Result<Tried, SpaceFault>
    requires no_control { place.kind ≢ 1 }
    requires owned { place.kind ≡ 5 → place.owner ≢ 0 }
    ensures tried { I.told i.old → IfOk result (IsTried (I.intervals i.old) (I.intervals i.new) place.ci length) }
    ensures below { OnOk result (place.ci < I.number i.old) }
    ensures owner { I.told i.old → OnOk result (owner_of (bytes_at (I.intervals i.old) place.ci) ≡ place.owner) }
    ensures failed { IsErrOf result SpaceFault.Failed → Rose (I.faults i.old) (I.faults i.new) }
    ensures damaged { I.told i.old → (n : ℕ) → result ≡ Err (SpaceFault.Damaged n)
        → IsNotThere (I.intervals i.old) place n }
    ensures number { I.number i.new ≡ I.number i.old }
    ensures goes_on { GoesOn I.told I.size I.faults I.keeps i.old i.new }
{
    let mut interval = read(i, place)?;
    let link = interval.head().link;
    match interval.take(length) {
        None => Ok(Tried { at: None, link }),
        Some(at) => {
            write(i, place.ci, interval)?;
            Ok(Tried { at: Some(at), link })
        }
    }
}
