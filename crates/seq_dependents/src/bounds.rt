//! The two ends of a sequential part.

ghost use Rattle.std.specs.Prelude.{◌≡◌, ◌≢◌, ◌-◌, ◌≤◌, ℕ, Err, IfOk, OnOk, IsErrOf};
ghost use Rattle.ci_space.specs.Calls.{GoesOn};
ghost use Rattle.fp_lists.specs.Faults.{Rose};
ghost use Rattle.seq_dependents.specs.Control.{AreEnds, IsControlOf, begin_of, end_of};

use crate::SeqFault;
use crate::control::{Ends, get_control_of};
use ci_space::Intervals;
use fp_model::AreaEnds;

/// The two ends of a part with so many slots: the least serial that is kept, and the one that is given next. Costs one
/// read of control.
pub fn read_ends<I: Intervals>(i: &mut I, capacity: u32) -> Result<AreaEnds, SeqFault>
    ensures begin { I.told i.old → IfOk result (λ ends. ends.begin ≡ begin_of (I.intervals i.old)) }
    ensures end { I.told i.old → IfOk result (λ ends. ends.end ≡ end_of (I.intervals i.old)) }

    // Told or not, they are ends that such a part may have.
    ensures are_ends { IfOk result (λ ends. AreEnds ends.begin ends.end) }
    ensures counted { IfOk result (λ ends. ends.end - ends.begin ≤ capacity) }

    // It names control alone, where that is damaged; else what holds the intervals failed.
    ensures named { (n : ℕ) → result ≡ Err (SeqFault.Damaged n) → n ≡ 0 }
    ensures damaged { I.told i.old → (n : ℕ) → result ≡ Err (SeqFault.Damaged n)
        → ¬ IsControlOf capacity (I.intervals i.old) }
    ensures sound { I.told i.old → OnOk result (IsControlOf capacity (I.intervals i.old)) }
    ensures failed { IsErrOf result SeqFault.Failed → Rose (I.faults i.old) (I.faults i.new) }
    ensures never_full { (begin end n : ℕ) → result ≢ Err (SeqFault.Full begin end n) }

    // Nothing changes.
    ensures same { I.told i.old → I.intervals i.new ≡ I.intervals i.old }
    ensures number { I.number i.new ≡ I.number i.old }
    ensures goes_on { GoesOn I.told I.size I.faults I.keeps i.old i.new }
{
    let Ends { begin, end } = get_control_of(i, capacity)?.ends;
    Ok(AreaEnds { begin, end })
}
