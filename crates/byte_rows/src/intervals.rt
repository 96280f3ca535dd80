//! Rows of the intervals that wait to be written: since when, for what, and which is written first.
#![tactic(auto)]

ghost use Rattle.std.specs.Prelude.{◌≡◌, [], ◌∷◌, Some, None};
ghost use Rattle.fp_model.specs.Pending.{oldest_sealed, pending_from, with_added};
ghost use Rattle.byte_rows.specs.Checkpoints.{an_interval, another_interval, writing, with_images, three_images};

/// Of the intervals that may be written the one whose newest entry is oldest comes first, wherever it stands.
pub fn the_one_that_waits_longest()
    ensures first { oldest_sealed 9 (an_interval 1 2 ∷ another_interval 0 5 ∷ []) ≡ Some (an_interval 1 2) }
    ensures behind { oldest_sealed 9 (another_interval 0 5 ∷ an_interval 1 2 ∷ []) ≡ Some (an_interval 1 2) }
    ensures unsealed { oldest_sealed 2 (another_interval 0 1 ∷ an_interval 0 2 ∷ [])
        ≡ Some (another_interval 0 1) }
    ensures none { oldest_sealed 2 (another_interval 0 5 ∷ an_interval 1 2 ∷ []) ≡ None }
{}

/// Of two with one newest entry that of the lower number is written first.
pub fn two_with_one_newest_entry()
    ensures first { oldest_sealed 9 (an_interval 1 2 ∷ another_interval 0 2 ∷ []) ≡ Some (an_interval 1 2) }
    ensures behind { oldest_sealed 9 (another_interval 0 2 ∷ an_interval 1 2 ∷ []) ≡ Some (an_interval 1 2) }
{}

/// An interval waits since its oldest entry, and for its newest; entries before the count are written.
pub fn since_when_an_interval_waits()
    ensures once { pending_from 0 (writing 1 ∷ []) ≡ an_interval 0 0 ∷ [] }
    ensures again { pending_from 0 (writing 1 ∷ writing 2 ∷ writing 1 ∷ [])
        ≡ another_interval 1 1 ∷ an_interval 0 2 ∷ [] }
    ensures behind_a_count { pending_from 1 (writing 1 ∷ writing 2 ∷ writing 1 ∷ [])
        ≡ another_interval 1 1 ∷ an_interval 2 2 ∷ [] }
{}

/// An interval that changes again in a step waits for the new entry, and still since its oldest.
pub fn an_interval_changes_again()
    ensures { with_added (with_images (writing 1 ∷ [])) (with_images three_images)
        (record { pending = an_interval 0 0 ∷ []; checkpoint = None })
        ≡ record { pending = another_interval 1 1 ∷ an_interval 0 2 ∷ []; checkpoint = None } }
{}
