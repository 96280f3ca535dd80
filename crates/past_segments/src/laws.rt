//! Laws of values, each the contract of a function that does nothing.
ghost use Rattle.past_segments.specs.Times.{IsSettledBy, Past, database_at, is_late};
ghost use Rattle.std.specs.Prelude.{◌≡◌, ◌+◌, ◌≤◌, List, false, ℕ};

/// Where no key has a value from the next place on, none stands from behind this one.
pub fn what_is_not_late_is_settled()
    ensures { (past : Past) (place : ℕ) → ((key : List ℕ) → is_late (place + 1) past key ≡ false)
        → IsSettledBy place past }
{}

/// Behind the last value the database stays as it is.
pub fn a_settled_database_stays()
    ensures { (past : Past) (p q : ℕ) → IsSettledBy p past → p ≤ q → database_at q past ≡ database_at p past }
{}
