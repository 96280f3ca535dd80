//! Control of an area, and the ends of its sequential part.

ghost use Rattle.std.specs.Prelude.{
  ◌≡◌,
  ◌≢◌,
  ◌<◌,
  ◌≤◌,
  ◌-◌,
  ◌⊎◌,
  ◌↔◌,
  ℕ,
  List,
  length,
  Err,
  IfOk,
  OnOk,
  OnErr,
  IsErrOf,
  IfSome,
  IsSome,
};
ghost use Rattle.ci_space.specs.Calls.{GoesOn};
ghost use Rattle.fp_lists.specs.Faults.{Rose};
ghost use Rattle.ci_space.specs.Interval.{IsInterval, kind_of};
ghost use Rattle.ci_overflow.specs.Lists.{bytes_at};
ghost use Rattle.ci_overflow.specs.Rooms.{IsPut};
ghost use Rattle.seq_dependents.specs.Control.{
  IsControl,
  IsControlOf,
  AreEnds,
  PutsEnds,
  begin_of,
  end_of,
  begin_in,
  end_in,
};
ghost use Rattle.seq_dependents.specs.declared.fault.SeqFault.{SeqFault};

use crate::SeqFault;
use ci_space::{GetFault, Interval, Intervals};

/// The kind of control.
const CONTROL: u8 = 1;

/// Serials end at 2^62.
pub const LAST: u64 = 1 << 62;

/// The ends of a sequential part.
#[derive(Clone, Copy)]
pub struct Ends {
    pub begin: u64,
    pub end: u64,
}

/// The interval of this number. One that isn't there is damaged.
pub fn get<I: Intervals>(i: &mut I, ci: u64) -> Result<Interval, SeqFault>
    ensures bytes { I.told i.old → IfOk result (λ interval. interval ≡ bytes_at (I.intervals i.old) ci) }
    ensures below { OnOk result (ci < I.number i.old) }
    ensures interval { IfOk result IsInterval }
    ensures size { IfOk result (λ interval. length interval ≡ I.size i.old) }
    ensures failed { IsErrOf result SeqFault.Failed → Rose (I.faults i.old) (I.faults i.new) }
    ensures damaged { (n : ℕ) → result ≡ Err (SeqFault.Damaged n) → n ≡ ci }
    ensures missing { I.told i.old → (n : ℕ) → result ≡ Err (SeqFault.Damaged n)
        → (length (I.intervals i.old) ≤ ci) ⊎ (¬ IsInterval (bytes_at (I.intervals i.old) ci)) }
    ensures never_full { (begin end n : ℕ) → result ≢ Err (SeqFault.Full begin end n) }
    ensures same { I.told i.old → I.intervals i.new ≡ I.intervals i.old }
    ensures number { I.number i.new ≡ I.number i.old }
    ensures goes_on { GoesOn I.told I.size I.faults I.keeps i.old i.new }
{
    if i.count() <= ci {
        return Err(SeqFault::Damaged(ci));
    }
    match i.get(ci) {
        Ok(interval) => Ok(interval),
        Err(GetFault::Failed) => Err(SeqFault::Failed),
        Err(GetFault::BadTiles(ci)) => Err(SeqFault::Damaged(ci)),
        Err(GetFault::Memory) => Err(SeqFault::Memory),
    }
}

/// The ends that control holds. None exactly where they are none.
#[tactic(auto, unfolding(crate::specs::Control::begin_in, crate::specs::Control::end_in))]
fn ends_in(control: &Interval) -> Option<Ends>
    requires { kind_of control.now ≡ 1 }
    ensures begin { IfSome result (λ ends. ends.begin ≡ begin_in control.now) }
    ensures end { IfSome result (λ ends. ends.end ≡ end_in control.now) }
    ensures some { IsSome result ↔ AreEnds (begin_in control.now) (end_in control.now) }
{
    let [begin, end, _, _] = control.ends();
    if begin == 0 || end < begin || LAST < end {
        return None;
    }
    Some(Ends { begin, end })
}

/// Control with the ends that it holds.
#[derive(Drop)]
pub struct Control {
    pub interval: Interval,
    pub ends: Ends,
}

/// Control. It is damaged where its ends are none.
pub fn get_control<I: Intervals>(i: &mut I) -> Result<Control, SeqFault>
    ensures bytes { I.told i.old → IfOk result (λ control. control.interval ≡ bytes_at (I.intervals i.old) 0) }
    ensures begin { I.told i.old → IfOk result (λ control. control.ends.begin ≡ begin_of (I.intervals i.old)) }
    ensures end { I.told i.old → IfOk result (λ control. control.ends.end ≡ end_of (I.intervals i.old)) }
    ensures sound { I.told i.old → OnOk result (IsControl (I.intervals i.old)) }
    ensures kind { IfOk result (λ control. kind_of control.interval ≡ 1) }
    ensures interval { IfOk result (λ control. IsInterval control.interval) }
    ensures size { IfOk result (λ control. length control.interval ≡ I.size i.old) }
    ensures are_ends { IfOk result (λ control. AreEnds control.ends.begin control.ends.end) }
    ensures below { OnOk result (0 < I.number i.old) }
    ensures failed { IsErrOf result SeqFault.Failed → Rose (I.faults i.old) (I.faults i.new) }
    ensures first { (n : ℕ) → result ≡ Err (SeqFault.Damaged n) → n ≡ 0 }
    ensures damaged { I.told i.old → (n : ℕ) → result ≡ Err (SeqFault.Damaged n)
        → ¬ IsControl (I.intervals i.old) }
    ensures never_full { (begin end n : ℕ) → result ≢ Err (SeqFault.Full begin end n) }
    ensures same { I.told i.old → I.intervals i.new ≡ I.intervals i.old }
    ensures number { I.number i.new ≡ I.number i.old }
    ensures goes_on { GoesOn I.told I.size I.faults I.keeps i.old i.new }
{
    let interval = get(i, 0)?;
    if interval.head().kind != CONTROL {
        return Err(SeqFault::Damaged(0));
    }
    match ends_in(&interval) {
        Some(ends) => Ok(Control { interval, ends }),
        None => Err(SeqFault::Damaged(0)),
    }
}

/// Control of a part with so many slots. It is damaged where it keeps more serials.
pub fn get_control_of<I: Intervals>(i: &mut I, capacity: u32) -> Result<Control, SeqFault>
    ensures bytes { I.told i.old → IfOk result (λ control. control.interval ≡ bytes_at (I.intervals i.old) 0) }
    ensures begin { I.told i.old → IfOk result (λ control. control.ends.begin ≡ begin_of (I.intervals i.old)) }
    ensures end { I.told i.old → IfOk result (λ control. control.ends.end ≡ end_of (I.intervals i.old)) }
    ensures sound { I.told i.old → OnOk result (IsControlOf capacity (I.intervals i.old)) }
    ensures kind { IfOk result (λ control. kind_of control.interval ≡ 1) }
    ensures interval { IfOk result (λ control. IsInterval control.interval) }
    ensures size { IfOk result (λ control. length control.interval ≡ I.size i.old) }
    ensures are_ends { IfOk result (λ control. AreEnds control.ends.begin control.ends.end) }
    ensures counted { IfOk result (λ control. control.ends.end - control.ends.begin ≤ capacity) }
    ensures below { OnOk result (0 < I.number i.old) }
    ensures failed { IsErrOf result SeqFault.Failed → Rose (I.faults i.old) (I.faults i.new) }
    ensures first { (n : ℕ) → result ≡ Err (SeqFault.Damaged n) → n ≡ 0 }
    ensures damaged { I.told i.old → (n : ℕ) → result ≡ Err (SeqFault.Damaged n)
        → ¬ IsControlOf capacity (I.intervals i.old) }
    ensures never_full { (begin end n : ℕ) → result ≢ Err (SeqFault.Full begin end n) }
    ensures same { I.told i.old → I.intervals i.new ≡ I.intervals i.old }
    ensures number { I.number i.new ≡ I.number i.old }
    ensures goes_on { GoesOn I.told I.size I.faults I.keeps i.old i.new }
{
    let control = get_control(i)?;
    if control.ends.end - control.ends.begin > u64::from(capacity) {
        return Err(SeqFault::Damaged(0));
    }
    Ok(control)
}

/// Puts the interval of this number.
pub fn put_interval<I: Intervals>(i: &mut I, ci: u64, interval: Interval) -> Result<(), SeqFault>
    requires below { ci < I.number i.old }
    requires size { length interval ≡ I.size i.old }
    ensures put { I.told i.old → OnOk result (IsPut (I.intervals i.old) (I.intervals i.new) ci interval) }
    ensures err { I.told i.old → OnErr result (I.intervals i.new ≡ I.intervals i.old) }
    ensures memory { (fault : SeqFault) → result ≡ Err fault → fault ≡ SeqFault.Memory }
    ensures number { I.number i.new ≡ I.number i.old }
    ensures goes_on { GoesOn I.told I.size I.faults I.keeps i.old i.new }
{
    match i.put(ci, interval) {
        Ok(()) => Ok(()),
        Err(_) => Err(SeqFault::Memory),
    }
}

/// Puts control with other ends.
pub fn put_ends<I: Intervals>(i: &mut I, control: Interval, ends: Ends) -> Result<(), SeqFault>
    requires below { 0 < I.number i.old }
    requires kind { kind_of control ≡ 1 }
    requires size { length control ≡ I.size i.old }
    requires interval { IsInterval control }
    ensures put { I.told i.old → control ≡ bytes_at (I.intervals i.old) 0
        → OnOk result (PutsEnds (I.intervals i.old) (I.intervals i.new) ends.begin ends.end) }
    ensures err { I.told i.old → OnErr result (I.intervals i.new ≡ I.intervals i.old) }
    ensures memory { (fault : SeqFault) → result ≡ Err fault → fault ≡ SeqFault.Memory }
    ensures number { I.number i.new ≡ I.number i.old }
    ensures goes_on { GoesOn I.told I.size I.faults I.keeps i.old i.new }
{
    let mut control = control;
    let [_, _, counted, free] = control.ends();
    control.set_ends([ends.begin, ends.end, counted, free]);
    put_interval(i, 0, control)
}
