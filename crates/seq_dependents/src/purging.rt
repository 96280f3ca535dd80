//! The oldest sequential dependents are given up.

ghost use Rattle.std.specs.Prelude.{◌≡◌, ◌≢◌, ◌+◌, ◌≤◌, ℕ, min, Err, IfOk, OnOk, OnErr, IsErrOf};
ghost use Rattle.ci_space.specs.Calls.{GoesOn};
ghost use Rattle.fp_lists.specs.Faults.{Rose};
ghost use Rattle.seq_dependents.specs.Control.{IsControl, AreEnds, PutsEnds, begin_of, end_of};

use crate::SeqFault;
use crate::control::{Control, Ends, get_control, put_ends};
use ci_space::Intervals;

/// The least serial that is kept once `n` more are given up.
fn moved(ends: Ends, n: u64) -> u64
    requires { AreEnds ends.begin ends.end }
    ensures moved { result ≡ min ends.end (ends.begin + n) }
    ensures are_ends { AreEnds result ends.end }
{
    if n < ends.end - ends.begin {
        return ends.begin + n;
    }
    ends.end
}

/// Gives up the `n` oldest serials that are kept, or all where fewer are, and gives the least serial
/// that is kept then. Only control changes. Costs one read and one write of an interval.
pub fn purge<I: Intervals>(i: &mut I, n: u64) -> Result<u64, SeqFault>
    // `begin` becomes the lesser of `end` and `begin + n`, and nothing else changes.
    ensures moved { I.told i.old → IfOk result (λ begin. begin ≡ min (end_of (I.intervals i.old))
        (begin_of (I.intervals i.old) + n)) }
    ensures put { I.told i.old → IfOk result (λ begin. PutsEnds (I.intervals i.old) (I.intervals i.new) begin
        (end_of (I.intervals i.old))) }

    // It names control alone, where that is damaged; else what holds the intervals failed. Then nothing
    // changes.
    ensures named { (ci : ℕ) → result ≡ Err (SeqFault.Damaged ci) → ci ≡ 0 }
    ensures damaged { I.told i.old → (ci : ℕ) → result ≡ Err (SeqFault.Damaged ci) → ¬ IsControl (I.intervals i.old) }
    ensures sound { I.told i.old → OnOk result (IsControl (I.intervals i.old)) }
    ensures failed { IsErrOf result SeqFault.Failed → Rose (I.faults i.old) (I.faults i.new) }
    ensures never_full { (begin end n : ℕ) → result ≢ Err (SeqFault.Full begin end n) }
    ensures err { I.told i.old → OnErr result (I.intervals i.new ≡ I.intervals i.old) }

    ensures number { I.number i.new ≡ I.number i.old }
    ensures goes_on { GoesOn I.told I.size I.faults I.keeps i.old i.new }
{
    let Control { interval, ends } = get_control(i)?;
    let begin = moved(ends, n);
    let end = ends.end;
    put_ends(i, interval, Ends { begin, end })?;
    Ok(begin)
}
