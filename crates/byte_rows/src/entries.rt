//! Rows of the bytes of entries that no transaction makes, and of an item that is a part of an interval.
#![tactic(auto, unfolding(fp_model::specs::Spellings::be16, fp_model::specs::Spellings::be32, fp_model::specs::Spellings::be64))]

ghost use Rattle.std.specs.Prelude.{◌≡◌, [], ◌∷◌, ◌++◌, codes, IsTrue, IsFalse};
ghost use Rattle.fp_model.specs.declared.log.Item.TheVariants.{Image, Range};
ghost use Rattle.fp_model.specs.LogText.{entry_text, item_text, FitsItem};
ghost use Rattle.fp_model.specs.Entries.{MayStandAt};
ghost use Rattle.fp_model.specs.ItemTargets.{is_ascending};
ghost use Rattle.fp_model.specs.Items.{IsFit, begins_with_image};
ghost use Rattle.fp_rows.specs.Hex.{hex};
ghost use Rattle.fp_rows.specs.Sample.{sample_defs};
ghost use Rattle.fp_rows.specs.Numbered.{old_two, repeated_one, format_two};

/// A number below the last one, with that one; a number that is the last one, with its reply line; and the change of
/// formats, which has no line.
pub fn the_entries_of_numbers_and_formats()
    ensures old { entry_text old_two ≡ hex (codes
        "000000000000002a 0000000000000003 09 0000000000000003 000d 5431 20 32 20 41534b 20 41303031" ++ codes
        "0000 00000000 00000000") }
    ensures again { entry_text repeated_one ≡ hex (codes
        "0000000000000034 0000000000000001 0a 0009 5431 20 4f4b 20 4e4557" ++ codes
        "0014 5431 20 31 20 4445504f534954 20 41303031 20 3130 0000 00000000 00000000") }
    ensures change { entry_text format_two
        ≡ hex (codes "0000000000000015 0000000000000001 0b 0000 0000 00000000 00000000") }
{}

/// Each of them begins at its own place.
pub fn they_begin_at_their_places()
    ensures old { MayStandAt 3 old_two }
    ensures again { MayStandAt 1 repeated_one }
    ensures change { MayStandAt 1 format_two }
    ensures elsewhere { ¬ MayStandAt 2 format_two }
{}

/// Two bytes of interval 4 of data set 4, from its byte 69 on.
pub fn a_range_of_an_interval()
    ensures { item_text (Range 4 4 69 (codes "OB")) ≡ hex (codes "03 0004 0000000000000004 0045 0002 4f42") }
{}

/// A range lies within an interval of its area, here of 512 bytes.
pub fn which_ranges_are_fit()
    ensures inside { IsFit sample_defs (Range 4 4 69 (codes "OB")) }
    ensures to_the_end { IsFit sample_defs (Range 4 4 510 (codes "OB")) }
    ensures past_the_end { ¬ IsFit sample_defs (Range 4 4 511 (codes "OB")) }
    ensures no_area { ¬ IsFit sample_defs (Range 5 4 69 (codes "OB")) }
    ensures without_bytes { ¬ FitsItem (Range 4 4 69 []) }
{}

/// Where a range is the first item of its interval, there is nothing to put it into; other intervals don't matter.
pub fn an_interval_is_written_whole_first()
    ensures whole { IsTrue (begins_with_image 4 1 (Image 4 1 [] ∷ Range 4 1 69 (codes "OB") ∷ [])) }
    ensures part { IsFalse (begins_with_image 4 1 (Range 4 1 69 (codes "OB") ∷ Image 4 1 [] ∷ [])) }
    ensures other { IsFalse (begins_with_image 4 1 (Image 4 2 [] ∷ Range 4 1 69 (codes "OB") ∷ [])) }
    ensures none { IsTrue (begins_with_image 4 1 (Range 4 2 69 (codes "OB") ∷ [])) }
{}

/// An interval is named once in an entry, whole or in part.
pub fn one_item_of_an_interval()
    ensures ascending { IsTrue (is_ascending
        (Range 4 1 69 (codes "OB") ∷ Image 4 2 [] ∷ Range 4 3 0 (codes "A") ∷ [])) }
    ensures twice { IsFalse (is_ascending (Range 4 1 69 (codes "OB") ∷ Range 4 1 80 (codes "OB") ∷ [])) }
    ensures whole_and_part { IsFalse (is_ascending (Image 4 1 [] ∷ Range 4 1 80 (codes "OB") ∷ [])) }
{}
