//! Rows of message numbers: lines of both formats, what a line asks for behind a log, and reply lines.
#![tactic(auto)]

ghost use Rattle.std.specs.Prelude.{◌≡◌, [], ◌∷◌, ◌++◌, codes, replicate, Some, None, Ok, Err};
ghost use Rattle.fp_model.specs.declared.log.Outcome.TheVariants.{Unknown, Old, Repeat, Format};
ghost use Rattle.fp_model.specs.declared.database.Db.{Db};
ghost use Rattle.fp_model.specs.SerialHistory.{Comes};
ghost use Rattle.fp_model.specs.Messages.{message_of, NoTran};
ghost use Rattle.fp_model.specs.Product.{request_of};
ghost use Rattle.fp_model.specs.ReplyLine.{line_of, line_text};
ghost use Rattle.fp_model.specs.History.{Accepts, Refuses, beginning};
ghost use Rattle.fp_model.specs.Lasts.{lasts_of};
ghost use Rattle.fp_model.specs.Machine.{Machine, at_rest};
ghost use Rattle.fp_model.specs.declared.events.Event.TheVariants.{In, Region, Log};
ghost use Rattle.fp_rows.specs.Hex.{named, with_newline};
ghost use Rattle.fp_rows.specs.Sample.{sample_scripts, deposit};
ghost use Rattle.fp_rows.specs.States.{RunsCalmly, sample_rules, at_start};
ghost use Rattle.fp_rows.specs.Retries.{round};
ghost use Rattle.fp_rows.specs.Numbered.{three_lines, entries_of_both_runs, last_number, deposit_one, asking_three};
ghost use Rattle.fp_rows.specs.Numbered.{asking, behind_one, behind_three, behind_repeat, behind_unknown};
ghost use Rattle.fp_rows.specs.Numbered.{behind_deposit, behind_format, old_two, repeated_one, format_two, made_at};

/// In format 2 a number may stand behind the terminal, in format 1 none does: there it is no transaction.
pub fn a_number_behind_the_terminal()
    ensures numbered { message_of 2 (codes "T1 1 ASK A001") ≡ Ok (asking (codes "T1 1 ASK A001") (Some 1)) }
    ensures unnumbered { message_of 2 (codes "T1 ASK A001") ≡ Ok (asking (codes "T1 ASK A001") None) }
    ensures format_1 { message_of 1 (codes "T1 1 ASK A001") ≡ Err NoTran }
    ensures alone { message_of 2 (codes "T1 1") ≡ Err NoTran }
{}

/// A number has 1 to 18 digits, the first not 0. What looks like another one is no transaction.
pub fn what_a_message_number_is()
    ensures nought { message_of 2 (codes "T1 0 ASK A001") ≡ Err NoTran }
    ensures leading_nought { message_of 2 (codes "T1 01 ASK") ≡ Err NoTran }
    ensures digits_18 { message_of 2 (codes "T1 " ++ replicate 18 57 ++ codes " ASK A001")
        ≡ Ok (asking (codes "T1 " ++ replicate 18 57 ++ codes " ASK A001") (Some 999999999999999999)) }
    ensures digits_19 { message_of 2 (codes "T1 " ++ replicate 19 57 ++ codes " ASK A001") ≡ Err NoTran }
    ensures signed { message_of 2 (codes "T1 -1 ASK A001") ≡ Err NoTran }
{}

/// Behind a deposit of number 1 that number is answered as it was, whatever stands behind it; 0 is no number.
pub fn what_the_last_number_is_answered()
    ensures same_line { request_of sample_scripts behind_one (codes "T1 1 DEPOSIT A001 10")
        ≡ Refuses (Repeat (codes "T1 OK NEW")) }
    ensures other_line { request_of sample_scripts behind_one (codes "T1 1 ASK A001")
        ≡ Refuses (Repeat (codes "T1 OK NEW")) }
    ensures nought { request_of sample_scripts behind_one (codes "T1 0 DEPOSIT A001 10") ≡ Refuses Unknown }
    ensures without { request_of sample_scripts behind_one (codes "T1 ASK A001")
        ≡ Accepts (asking (codes "T1 ASK A001") None) }
    ensures other_terminal { request_of sample_scripts behind_one (codes "T2 1 ASK A001")
        ≡ Accepts (record (asking (codes "T2 1 ASK A001") (Some 1)) { lterm = named (codes "T2") }) }
{}

/// Behind number 3 numbers below it are old, and those above it are new, though 2 was never used.
pub fn numbers_around_the_last()
    ensures below { request_of sample_scripts behind_three (codes "T1 2 ASK A001") ≡ Refuses (Old 3) }
    ensures same { request_of sample_scripts behind_three (codes "T1 3 ASK A001")
        ≡ Refuses (Repeat (codes "T1 OK 110")) }
    ensures above { request_of sample_scripts behind_three (codes "T1 4 ASK A001")
        ≡ Accepts (asking (codes "T1 4 ASK A001") (Some 4)) }
    ensures no_script_below { request_of sample_scripts behind_three (codes "T1 2 NOSUCH") ≡ Refuses (Old 3) }
    ensures no_script_above { request_of sample_scripts behind_three (codes "T1 4 NOSUCH") ≡ Refuses Unknown }
{}

/// A repeat uses no number up, so the first answer stays; a line that names no script uses its number.
pub fn which_answers_use_a_number()
    ensures again { request_of sample_scripts behind_repeat (codes "T1 1 DEPOSIT A001 10")
        ≡ Refuses (Repeat (codes "T1 OK NEW")) }
    ensures unknown { request_of sample_scripts behind_unknown (codes "T1 5 ASK A001")
        ≡ Refuses (Repeat (codes "T1 NO UNKNOWN")) }
    ensures below { request_of sample_scripts behind_unknown (codes "T1 4 ASK A001") ≡ Refuses (Old 5) }
{}

/// A log of format 1 reads no numbers, until the change of formats.
pub fn numbers_begin_with_format_2()
    ensures before { request_of sample_scripts behind_deposit (codes "T1 1 ASK A001") ≡ Refuses Unknown }
    ensures behind { request_of sample_scripts behind_format (codes "T1 1 ASK A001")
        ≡ Accepts (asking (codes "T1 1 ASK A001") (Some 1)) }
{}

/// The change of formats comes once, where lines are read in format 1, and leaves the state as it was.
pub fn when_formats_change()
    ensures comes { Comes sample_rules behind_deposit format_two behind_deposit.now }
    ensures once { (next : Db) → ¬ Comes sample_rules behind_format (made_at 2 [] Format) next }
    ensures in_2_already { (next : Db) → ¬ Comes sample_rules behind_one format_two next }
{}

/// An entry's notes don't fall, nor does one pass the entry's place.
pub fn notes_that_fall_do_not_come()
    ensures fall { (next : Db) → ¬ Comes sample_rules behind_one
        (record asking_three { from = 0; notes = 1 ∷ 0 ∷ [] }) next }
    ensures before_it_began { (next : Db) → ¬ Comes sample_rules behind_one (record asking_three { notes = 0 ∷ [] })
        next }
    ensures past_its_place { (next : Db) → ¬ Comes sample_rules behind_one (record asking_three { notes = 2 ∷ [] })
        next }
{}

/// The reply lines: the last number, the line as it was sent, and none for the change of formats.
pub fn the_reply_lines_of_numbers_and_formats()
    ensures old { line_of old_two ≡ with_newline (codes "T1 NO OLD 3") }
    ensures again { line_of repeated_one ≡ with_newline (codes "T1 OK NEW") }
    ensures change { line_of format_two ≡ [] }
    ensures old_text { line_text old_two ≡ Some (codes "T1 NO OLD 3") }
    ensures again_text { line_text repeated_one ≡ Some (codes "T1 OK NEW") }
    ensures change_text { line_text format_two ≡ None }
{}

/// Each terminal's last number with its line: repeats and old numbers change nothing, and terminals ascend.
pub fn the_last_numbers()
    ensures one { lasts_of 2 (deposit_one ∷ []) ≡ last_number (codes "T1") 1 (codes "T1 OK NEW") ∷ [] }
    ensures repeated { lasts_of 2 (deposit_one ∷ repeated_one ∷ [])
        ≡ last_number (codes "T1") 1 (codes "T1 OK NEW") ∷ [] }
    ensures both_runs { lasts_of 2 entries_of_both_runs ≡ last_number (codes "T1") 3 (codes "T1 OK 110") ∷ [] }
    ensures other_terminal { lasts_of 2 (deposit_one ∷ record asking_three { line = codes "S1 7 ASK A001" } ∷ [])
        ≡ last_number (codes "S1") 7 (codes "S1 OK 110") ∷ last_number (codes "T1") 1 (codes "T1 OK NEW") ∷ [] }
    ensures without { lasts_of 2 (deposit ∷ []) ≡ [] }
    ensures format_1 { lasts_of 1 (deposit_one ∷ []) ≡ [] }
{}

/// Two runs of numbered lines. The first makes the deposit of number 1. The next is sent the same line, number 3 and
/// number 2, and its five rounds repeat the answer, show the balance, and refuse the old number.
pub fn numbered_lines_by_turns()
    ensures first_run { (m : Machine)
        × (RunsCalmly sample_rules (at_rest sample_rules (codes "T1 1 DEPOSIT A001 10" ∷ []) (beginning 2 at_start))
        (In ∷ Region 1 ∷ Region 1 ∷ Region 1 ∷ Region 1 ∷ Log ∷ []) m
        × ((m.history ≡ behind_one) × (m.sent ≡ codes "T1 OK NEW" ++ 10 ∷ []))) }
    ensures second_run { (m : Machine)
        × (RunsCalmly sample_rules (at_rest sample_rules three_lines behind_one)
        (round ++ round ++ round ++ round ++ round) m
        × ((m.history.entries ≡ entries_of_both_runs)
        × (m.sent ≡ codes "T1 OK NEW" ++ 10 ∷ codes "T1 OK 110" ++ 10 ∷ codes "T1 NO OLD 3" ++ 10 ∷ []))) }
{}
