//! What the program reads: four parts, each given piece by piece.
ghost use Rattle.std.specs.Prelude.{◌≡◌, ◌<◌, ◌≤◌, ◌++◌, ℕ, List, [], IfOk, OnErr, length, take};
ghost use Rattle.fp_lists.specs.Continued.{IsContinued};
ghost use Rattle.fp_lists.specs.Faults.{Counts};
ghost use Rattle.fp_source.specs.declared.part.Part.{Part};

use crate::Part;

/// A call that failed. It comes only where the source's count of faults rose in that call, or stands at its last
/// value, 2^64 - 1.
#[derive(Clone, Copy, Debug, PartialEq, Eq)]
pub struct Failed;

/// Four parts, each read from its front to its end.
///
/// # What contracts say
///
/// A source that is `told` says in `left` what is left of each part. A source over files is not told, and its calls
/// promise only that they end, that they give no more bytes than there is room for, and that a fault is counted.
pub trait Source {
    /// Whether it tells what is left of its parts. Once told, it stays so.
    ghost told: { Self → Type 0 };

    /// What is left of each part.
    ghost left: { Self → Part → List ℕ };

    /// How often a call has failed.
    ghost faults: { Self → ℕ };

    /// The name of the reference that it holds, if it holds one. It stays.
    ghost holds: { Self → ℕ };

    /// What is known of a source since it was the first one, beyond what it tells. Every call keeps it.
    ghost keeps: { Self → Self → Type 0 };

    /// Moves bytes from the front of what is left of the part into the front of `into`, and answers how many: at
    /// least one, or 0 exactly at the part's end. After `Failed` nothing is lost, and `into` may hold any bytes.
    fn read(&mut self, part: Part, into: &mut [u8]) -> Result<usize, Failed>
        requires { 0 < length into.old }
        ensures bound { IfOk result (λ n. n ≤ length into.old) }
        ensures bytes { told self.old →
            IfOk result (λ n. left self.old part ≡ take n into.new ++ left self.new part) }
        ensures end { told self.old → IfOk result (λ n. n ≡ 0 → left self.old part ≡ []) }
        ensures failed { told self.old → OnErr result (left self.new part ≡ left self.old part) }
        ensures cause { Counts (faults self.old) (faults self.new) result }

        // The other parts stay.
        ensures others { told self.old → (p : Part) → (p ≡ part → ⊥) → left self.new p ≡ left self.old p }
        ensures source { IsContinued told faults holds keeps self.old self.new };

    /// A source keeps what is known of it, seen from itself,
    ghost keeps_itself: { (source : Self) → keeps source source };

    /// and what one stretch of calls keeps, the next keeps too.
    ghost keeps_on: { (a b c : Self) → keeps a b → keeps b c → keeps a c };
}
