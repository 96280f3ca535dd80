//! Worked rows of the texts of databases and of the log, as theorems: each function has an empty body, and its
//! `ensures` is the fact.
//!
//! The texts are written by hand from how each part is shown; here the definitions give the same.
#![tactic(auto)]

ghost use Rattle.std.specs.Prelude.{◌≡◌, [], ◌∷◌, ◌++◌, codes};
ghost use Rattle.fp_model.specs.declared.definitions.FieldKind.TheVariants.{C, X, H, F, P};
ghost use Rattle.fp_model.specs.declared.log.Outcome.TheVariants.{Done, Verify, Roll, SeqFull, Deadlock, Device, Memory, Unknown, Purge, Old, Repeat, Format};
ghost use Rattle.fp_rows.specs.Hex.{hex};
ghost use Rattle.fp_rows.specs.Sample.{sample_defs};
ghost use Rattle.fp_rows.specs.States.{at_start, with_three};
ghost use Rattle.fp_show.specs.DbText.{db_text};
ghost use Rattle.fp_show.specs.FieldText.{value_text};
ghost use Rattle.fp_show.specs.GroupText.{entry_line, group_text, notes_text, outcome_text};
ghost use Rattle.show_rows.specs.Rows.{an_entry, behind_a_purge, lines, msdbs_at_start, three_entries};

/// Before any transaction: the segments that were loaded, and areas without a root.
pub fn the_start_is_shown()
    ensures { db_text sample_defs at_start ≡ msdbs_at_start ++ lines
        (codes "dedb CUST" ∷ codes "area AREA1 begin 1 end 1" ∷ codes "area AREA2 begin 1 end 1" ∷ []) }
{}

/// Behind a Purge and a further audit: the audits stand below their customer, the newest first.
pub fn audits_are_shown_newest_first()
    ensures { db_text sample_defs behind_a_purge ≡ msdbs_at_start ++ lines
        (codes "dedb CUST" ∷ codes "area AREA1 begin 1 end 1" ∷ codes "area AREA2 begin 3 end 6"
        ∷ codes "anchor 6" ∷ codes "  CUSTOMER CNO=C001 NAME=ANN"
        ∷ codes "    AUDIT WHAT=N6" ∷ codes "    AUDIT WHAT=N4" ∷ codes "    AUDIT WHAT=N3" ∷ []) }
{}

/// Only anchors that have roots are shown, by their numbers in the database.
pub fn anchors_with_roots_are_shown()
    ensures { db_text sample_defs with_three ≡ msdbs_at_start ++ lines
        (codes "dedb CUST" ∷ codes "area AREA1 begin 1 end 1" ∷ codes "area AREA2 begin 1 end 1"
        ∷ codes "anchor 0" ∷ codes "  CUSTOMER CNO=C003 NAME=BOB"
        ∷ codes "anchor 6" ∷ codes "  CUSTOMER CNO=C001 NAME=ANN" ∷ codes "  CUSTOMER CNO=C009 NAME=CY" ∷ []) }
{}

/// Characters lose the blanks behind them, and show a period for a byte that isn't printable; a field that is no number
/// is shown in hexadecimal.
pub fn what_fields_are_shown_as()
    ensures text { value_text C (codes " A B  ") ≡ codes " A B" }
    ensures blank { value_text C (codes "   ") ≡ [] }
    ensures period { value_text C (hex (codes "00417e7f20")) ≡ codes ".A~." }
    ensures unsigned { value_text X (hex (codes "00ff")) ≡ codes "255" }
    ensures half { value_text H (hex (codes "ff9c")) ≡ codes "-100" }
    ensures full { value_text F (hex (codes "0000000a")) ≡ codes "10" }
    ensures packed { value_text P (hex (codes "123c")) ≡ codes "123" }
    ensures minus { value_text P (hex (codes "123d")) ≡ codes "-123" }
    ensures digit { value_text P (hex (codes "1a3c")) ≡ codes "?1a3c" }
    ensures sign { value_text P (hex (codes "1239")) ≡ codes "?1239" }
{}

/// A group of three entries: one that asked stands behind the one that it didn't see.
pub fn a_group_is_shown()
    ensures { group_text 0 0 three_entries ≡ lines
        (codes "group 0 entries 3" ∷ codes "0 from 0 notes 0 DONE T1 DEPOSIT A001 10 => NEW"
        ∷ codes "1 from 1 notes 1 DONE T3 DEPOSIT A001 20 => NEW" ∷ codes "2 from 1 notes 1 DONE T2 ASK A001 => 110" ∷
        []) }
{}

/// How transactions end.
pub fn how_outcomes_are_shown()
    ensures verify { outcome_text (Verify 0 0 (hex (codes "0000040c"))) ≡ codes "VERIFY 0.0 0000040c" }
    ensures absent { outcome_text (Verify 2 65535 []) ≡ codes "VERIFY 2.65535 -" }
    ensures roll { outcome_text (Roll 7) ≡ codes "ROLB 7" }
    ensures full { outcome_text (SeqFull 4 1 5 1) ≡ codes "SEQFULL 4 1 5 1" }
    ensures deadlock { outcome_text (Deadlock (2 ∷ 1 ∷ [])) ≡ codes "DEADLOCK 2,1" }
    ensures old { outcome_text (Old 3) ≡ codes "OLD 3" }
    ensures purge { outcome_text (Purge 4 2) ≡ codes "PURGE 4 2" }
{}

/// Dashes stand in place of notes, of a line and of a reply that aren't there.
pub fn what_is_empty_is_a_dash()
    ensures unknown { entry_line 1 (an_entry 1 Unknown [] [])
        ≡ lines (codes "1 from 1 notes - UNKNOWN - => -" ∷ []) }
    ensures again { entry_line 2 (an_entry 2 (Repeat (codes "T1 OK NEW")) (codes "T1 1 ASK A001") [])
        ≡ lines (codes "2 from 2 notes - REPEAT T1 1 ASK A001 => -" ∷ []) }
    ensures change { entry_line 3 (an_entry 3 Format [] []) ≡ lines (codes "3 from 3 notes - FORMAT 2 - => -" ∷ []) }
    ensures notes { notes_text (3 ∷ 5 ∷ 6 ∷ []) ≡ codes "3,5,6" }
{}
