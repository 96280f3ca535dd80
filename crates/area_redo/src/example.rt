//! One area, so that the laws speak of something.
ghost use Rattle.std.specs.Prelude.{◌≡◌, List, [], ◌∷◌};
ghost use Rattle.fp_model.specs.Items.{items_of};
ghost use Rattle.area_redo.specs.Redo.{AreRedone};
ghost use Rattle.area_redo.specs.Standing.{without, Stands, MayOpen, MayBeWritten};
ghost use Rattle.area_redo.specs.Restart.{found_bytes, found_way, found_owed};
ghost use Rattle.area_redo.specs.Example.{one_area, two_entries, the_bytes, area_of, unwritten, torn, whole, other_control, resting};

/// An area has control and one interval more, which came whole by an image and of which a range changed two bytes. The
/// items make the area's bytes of the data set before that interval is written, torn in its write, and behind it, but
/// not of one with another control, which no item names.
pub fn an_example()
    ensures unwritten { AreRedone one_area (items_of two_entries) the_bytes (area_of unwritten) }
    ensures torn { AreRedone one_area (items_of two_entries) the_bytes (area_of torn) }
    ensures whole { AreRedone one_area (items_of two_entries) the_bytes (area_of whole) }
    ensures not_so { ¬ (AreRedone one_area (items_of two_entries) the_bytes (area_of other_control)) }

    // A restart that finds the torn data set stands, with the area's bytes, and may write the interval.
    ensures stands { Stands one_area (found_way 0 two_entries) (found_owed 0 two_entries)
        (found_bytes one_area two_entries (area_of torn)) (resting (area_of torn)) }
    ensures waits { MayBeWritten (found_way 0 two_entries) (found_owed 0 two_entries) 3 1 }
    ensures interval { found_bytes one_area two_entries (area_of torn) 3 1 ≡ 1 ∷ 8 ∷ 9 ∷ 4 ∷ [] }

    // Behind a whole write a checkpoint at the end of the entries may open.
    ensures opening { MayOpen one_area (found_way 0 two_entries) (without 3 1 (found_owed 0 two_entries)) the_bytes
        (resting (area_of whole)) }
{}
