//! Laws of a sequential part, each the contract of a function that does nothing.

ghost use Rattle.std.specs.Prelude.{◌≡◌, ◌≢◌, ◌+◌, ◌<◌, ℕ, List, [], length, get_or, All};
ghost use Rattle.seq_dependents.specs.declared.part.Part.{Part};
ghost use Rattle.seq_dependents.specs.Control.{IsKept, end_of};
ghost use Rattle.seq_dependents.specs.Puts.{Appends, linked_to};
ghost use Rattle.seq_dependents.specs.Slots.{IsHeld, slot_number};

/// The slot of a serial holds one previous serial and one segment.
pub fn a_serial_has_one_segment()
    ensures previous { (part : Part) (area : List (List ℕ)) (serial previous other : ℕ) (segment more : List ℕ)
        → IsHeld part area serial previous segment
        → IsHeld part area serial other more
        → previous ≡ other }
    ensures segment { (part : Part) (area : List (List ℕ)) (serial previous other : ℕ) (segment more : List ℕ)
        → IsHeld part area serial previous segment
        → IsHeld part area serial other more
        → segment ≡ more }
{}

/// Serials that are less than the capacity apart have different slots.
pub fn near_serials_have_different_slots()
    ensures { (part : Part) (serial later : ℕ)
        → serial < later
        → later < serial + part.capacity
        → slot_number part serial ≢ slot_number part later }
{}

/// What was appended is read back.
pub fn what_is_appended_is_held()
    ensures { (part : Part) (old new : List (List ℕ)) (previous : ℕ) (segments : List (List ℕ)) (k : ℕ)
        → Appends part old new previous segments
        → All (λ segment. length segment ≡ part.segment) segments
        → previous < end_of old
        → k < length segments
        → IsHeld part new (end_of old + k) (linked_to (end_of old) previous k) (get_or segments k []) }
{}

/// What was kept before others were appended is read as before.
pub fn what_is_kept_stays_held()
    ensures { (part : Part) (old new : List (List ℕ)) (previous : ℕ) (segments : List (List ℕ)) (serial before : ℕ)
        (segment : List ℕ)
        → Appends part old new previous segments
        → IsKept old serial
        → IsHeld part old serial before segment
        → IsHeld part new serial before segment }
{}
