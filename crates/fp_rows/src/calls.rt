//! Rows of the calls: field search arguments, settling, and what the sample's scripts ask.
#![tactic(auto, unfolding(fp_model::specs::Fsas::list_on, fp_model::specs::Fsas::first_failure, fp_model::specs::Settle::settle_from, fp_model::specs::Asking::ask, fp_model::specs::Spellings::be16))]

ghost use Rattle.std.specs.Prelude.{◌≡◌, [], ◌∷◌, ◌++◌, replicate, true, false, codes, Some, None};
ghost use Rattle.fp_model.specs.declared.database.Msdb.{Msdb};
ghost use Rattle.fp_model.specs.declared.calls.Call.TheVariants as call;
ghost use Rattle.fp_model.specs.declared.calls.Deferred.TheVariants as deferred;
ghost use Rattle.fp_model.specs.declared.calls.Get.TheVariants.{Unique, Next, NextInParent};
ghost use Rattle.fp_model.specs.declared.calls.Resource.TheVariants.{Segment};
ghost use Rattle.fp_model.specs.Fsas.{Fsa, Whole, Short, BadConnector, list_text, fsas_of, list_on};
ghost use Rattle.fp_model.specs.Settle.{Stands, VerifyFails, settle, resources};
ghost use Rattle.fp_model.specs.declared.scripts.Operand.TheVariants as op;
ghost use Rattle.fp_model.specs.declared.scripts.Operation.TheVariants.{Add, Subtract, Multiply, Join};
ghost use Rattle.fp_model.specs.declared.scripts.Comparison.TheVariants.{Equal, Less};
ghost use Rattle.fp_model.specs.declared.scripts.Statement.{roll-Statement};
ghost use Rattle.fp_model.specs.declared.scripts.Statement.TheOpen as stmt;
ghost use Rattle.fp_model.specs.Asking.{Asks, Replies, Rolls, ask, cost, script_of};
ghost use Rattle.fp_model.specs.Values.{words, word_of, operated, compares, fitted};
ghost use Rattle.fp_model.specs.Operands.{qualified};
ghost use Rattle.fp_rows.specs.Hex.{hex, named};
ghost use Rattle.fp_rows.specs.Sample.{accts, tellers, wide, sample_defs, sample_scripts, deposit_script, wdraw_script, ask_script, setbal_script, newcust_script, note_script, lend_script, showc_script, listc_script, hire_script, asked, asked_by, answered, showing, lettered, given, withdrawal, deposited, queued, held, unqualified, keyed, put, set, reply, fld_then_reply, two_gets};

/// Two field search arguments, read from their bytes.
pub fn a_list_is_read()
    ensures { fsas_of (hex (codes "42414c2020202020 20 48 0002 3630 2a 42414c2020202020 20 2d 0002 3630 20"))
        ≡ Whole (withdrawal (codes "60")) }
{}

/// Their bytes again.
pub fn a_list_is_written()
    ensures { list_text (withdrawal (codes "60"))
        ≡ hex (codes "42414c2020202020 20 48 0002 3630 2a 42414c2020202020 20 2d 0002 3630 20") }
{}

/// Without its last byte the list ends within the second argument, which begins at byte 15.
pub fn a_cut_list_is_short()
    ensures { fsas_of (hex (codes "42414c2020202020 20 48 0002 3630 2a 42414c2020202020 20 2d 0002 3630"))
        ≡ Short 15 }
{}

/// A `*` behind which nothing follows is a bad connector, here at byte 29.
pub fn a_star_at_the_end_is_a_bad_connector()
    ensures { fsas_of (hex (codes "42414c2020202020 20 48 0002 3630 2a 42414c2020202020 20 2d 0002 3630 2a"))
        ≡ BadConnector 29 }
{}

/// No bytes are no list.
pub fn no_bytes_are_short()
    ensures { fsas_of [] ≡ Short 0 }
{}

/// A balance that is no number: the sum is refused with E, and the bytes stay.
pub fn a_sum_on_what_is_no_number()
    ensures { list_on accts (deposited (codes "1")) (hex (codes "41303031 00001a0c"))
        ≡ record { letters = codes "E"; segment = hex (codes "41303031 00001a0c") } }
{}

/// `=` doesn't ask what stood there.
pub fn a_value_over_what_is_no_number()
    ensures { list_on accts (given (codes "BAL") 61 (codes "7") ∷ []) (hex (codes "41303031 00001a0c"))
        ≡ record { letters = codes " "; segment = hex (codes "41303031 0000007c") } }
{}

/// 4 packed bytes hold 7 digits.
pub fn a_sum_of_more_than_7_digits()
    ensures { list_on accts (deposited (codes "1")) (hex (codes "41303031 9999999c"))
        ≡ record { letters = codes "G"; segment = hex (codes "41303031 9999999c") } }
{}

/// 16 packed bytes hold 31 digits.
pub fn a_sum_of_more_than_31_digits()
    ensures { list_on wide (given (codes "SUM") 43 (codes "1") ∷ [])
        (hex (codes "41303031 9999999999999999999999999999999c"))
        ≡ record { letters = codes "G"; segment = hex (codes "41303031 9999999999999999999999999999999c") } }
{}

/// A withdrawal of 60 from 50: the verify is false, and the change is tested all the same.
pub fn a_withdrawal_of_more_than_there_is()
    ensures { list_on accts (withdrawal (codes "60")) (hex (codes "41303032 0000050c"))
        ≡ record { letters = codes "D "; segment = hex (codes "41303032 0000010d") } }
{}

/// Each letter in one list: an unknown operation, no such field, a sum on a text, a change of the key,
/// an operand that is no number, a false verify, a value that doesn't fit, and two that are good.
pub fn each_letter()
    ensures { list_on accts
        (given (codes "BAL") 81 (codes "1")
        ∷ given (codes "NOSUCH") 69 (codes "1")
        ∷ given (codes "ACCT") 43 (codes "1")
        ∷ given (codes "ACCT") 61 (codes "A009")
        ∷ given (codes "BAL") 43 (codes "ten")
        ∷ given (codes "BAL") 69 (codes "99")
        ∷ given (codes "BAL") 61 (codes "10000000")
        ∷ given (codes "BAL") 72 (codes "100")
        ∷ given (codes "ACCT") 69 (codes "A001")
        ∷ [])
        (hex (codes "41303031 0000100c"))
        ≡ record { letters = codes "AHACBDG  "; segment = hex (codes "41303031 0000100c") } }
{}

/// A withdrawal of 60 that was good when it was called meets 40 at the sync point.
pub fn a_withdrawal_fails_at_the_sync_point()
    ensures { settle (accts ∷ []) (held (codes "41303031 0000040c" ∷ codes "41303032 0000050c" ∷ []) ∷ [])
        (queued (codes "A001") (withdrawal (codes "60")) ∷ [])
        ≡ VerifyFails 0 0 (hex (codes "0000040c")) }
{}

/// The account was deleted in between.
pub fn a_deposit_to_what_is_gone()
    ensures { settle (accts ∷ []) (held (codes "41303032 0000050c" ∷ []) ∷ [])
        (queued (codes "A001") (deposited (codes "10")) ∷ [])
        ≡ VerifyFails 0 65535 [] }
{}

/// 9 more than 9,999,990 and 9 more than that: the second meets 9,999,999 at the sync point, and its sum
/// doesn't fit.
pub fn a_deposit_overflows_at_the_sync_point()
    ensures { settle (accts ∷ []) (held (codes "41303031 9999990c" ∷ []) ∷ [])
        (queued (codes "A001") (deposited (codes "9"))
        ∷ queued (codes "A001") (deposited (codes "9"))
        ∷ [])
        ≡ VerifyFails 1 0 (hex (codes "9999999c")) }
{}

/// What is found is the field as the failing argument meets it, behind the changes before it; nothing
/// where there is no such field.
pub fn what_a_failing_argument_finds()
    ensures behind { settle (accts ∷ []) (held (codes "41303031 0000100c" ∷ []) ∷ [])
        (queued (codes "A001") (given (codes "BAL") 43 (codes "10") ∷ given (codes "BAL") 69 (codes "100") ∷ []) ∷ [])
        ≡ VerifyFails 0 1 (hex (codes "0000110c")) }
    ensures no_field { settle (accts ∷ []) (held (codes "41303031 0000100c" ∷ []) ∷ [])
        (queued (codes "A001") (given (codes "NOSUCH") 69 (codes "1") ∷ []) ∷ [])
        ≡ VerifyFails 0 0 [] }
{}

/// A delete takes the segment out, and an insert of another key goes behind it.
pub fn a_delete_settles()
    ensures { settle (accts ∷ tellers ∷ []) (held [] ∷ held (codes "54303031 00000000" ∷ []) ∷ [])
        (deferred.Dlet 1 (codes "T001")
        ∷ deferred.Isrt 1 (hex (codes "54303033 00000000"))
        ∷ deferred.Isrt 1 (hex (codes "54303032 00000000"))
        ∷ [])
        ≡ Stands (held [] ∷ held (codes "54303032 00000000" ∷ codes "54303033 00000000" ∷ []) ∷ []) }
{}

/// A deposit, a value for another account, an insert in front, and a second deposit on what the first left.
pub fn a_queue_settles_in_call_order()
    ensures { settle (accts ∷ []) (held (codes "41303031 0000100c" ∷ codes "41303032 0000050c" ∷ []) ∷ [])
        (queued (codes "A001") (deposited (codes "10"))
        ∷ deferred.Repl 0 (hex (codes "41303032 0000500c"))
        ∷ deferred.Isrt 0 (hex (codes "41303030 0000000c"))
        ∷ queued (codes "A001") (deposited (codes "20"))
        ∷ [])
        ≡ Stands (held (codes "41303030 0000000c" ∷ codes "41303031 0000130c" ∷ codes "41303032 0000500c" ∷ []) ∷ []) }
{}

/// What is locked at the sync point: ascending, each once, and of field calls alone.
pub fn what_field_calls_lock()
    ensures { resources
        (deferred.Fld 1 (codes "T001") []
        ∷ deferred.Fld 0 (codes "A002") []
        ∷ deferred.Repl 0 (hex (codes "41303033 0000000c"))
        ∷ deferred.Fld 0 (codes "A001") []
        ∷ deferred.Fld 0 (codes "A002") []
        ∷ [])
        ≡ Segment 0 (codes "A001") ∷ Segment 0 (codes "A002") ∷ Segment 1 (codes "T001") ∷ [] }
{}

/// A deposit first asks a field call.
pub fn a_deposit_asks_a_field_call()
    ensures { asked deposit_script (codes "A001 10") []
        ≡ Asks (call.Fld 0 (codes "A001") (hex (codes "42414c2020202020 20 2b 0002 3130 20"))) }
{}

/// Where that is good it replies NEW.
pub fn a_good_deposit_replies()
    ensures { asked deposit_script (codes "A001 10")
        (lettered (codes "  ") (codes " ") ∷ [])
        ≡ Replies (codes "NEW") }
{}

/// Where there is no such account it rolls back with 1.
pub fn a_deposit_to_no_account_rolls_back()
    ensures { asked deposit_script (codes "A009 10")
        (answered (codes "GE") ∷ [])
        ≡ Rolls 1 }
{}

/// A key of 5 bytes doesn't fit 4.
pub fn a_key_that_does_not_fit_rolls_back()
    ensures { asked deposit_script (codes "A0001 10") []
        ≡ Rolls 99 }
{}

/// A withdrawal asks both of its arguments at once, and replies with the amount as it was written.
pub fn a_withdrawal_asks_and_replies()
    ensures asks { asked wdraw_script (codes "A001 60") []
        ≡ Asks (call.Fld 0 (codes "A001") (hex (codes
        "42414c2020202020 20 48 0002 3630 2a 42414c2020202020 20 2d 0002 3630 20"))) }
    ensures refused { asked wdraw_script (codes "A002 60")
        (lettered (codes "FE") (codes "D ") ∷ [])
        ≡ Rolls 7 }
    ensures paid { asked wdraw_script (codes "A001 060")
        (lettered (codes "  ") (codes "  ") ∷ [])
        ≡ Replies (codes "PAID 060") }
{}

/// A balance is shown as a number, without leading zeros.
pub fn asking_shows_the_balance()
    ensures asks { asked ask_script (codes "A001") []
        ≡ Asks (call.Get Unique false 0 (qualified 0 (codes "A001") ∷ [])) }
    ensures shows { asked ask_script (codes "A001")
        (showing 0 (hex (codes "41303031 0000110c")) ∷ [])
        ≡ Replies (codes "110") }
    ensures none { asked ask_script (codes "A009")
        (answered (codes "GE") ∷ [])
        ≡ Replies (codes "NONE") }
    ensures no_number { asked ask_script (codes "A001")
        (showing 0 (hex (codes "41303031 00001a0c")) ∷ [])
        ≡ Rolls 99 }
{}

/// A new balance goes into the segment that was shown; it must be a number of 7 digits, and something must
/// have been shown.
pub fn a_new_balance()
    ensures asks { asked setbal_script (codes "A001 500")
        (showing 0 (hex (codes "41303031 0000100c")) ∷ [])
        ≡ Asks (call.Repl 0 (hex (codes "41303031 0000500c"))) }
    ensures no_number { asked setbal_script (codes "A001 ten")
        (showing 0 (hex (codes "41303031 0000100c")) ∷ [])
        ≡ Rolls 99 }
    ensures too_great { asked setbal_script (codes "A001 10000000")
        (showing 0 (hex (codes "41303031 0000100c")) ∷ [])
        ≡ Rolls 99 }
    ensures not_shown { asked setbal_script (codes "A009 500")
        (answered (codes "GE") ∷ [])
        ≡ Rolls 99 }
{}

/// Inserts: a root from blanks, a sequential dependent below a root, and a loan with a packed field.
pub fn inserts_are_asked()
    ensures root { asked newcust_script (codes "C001 ANN") []
        ≡ Asks (call.Isrt 2 (unqualified 0 ∷ []) (codes "C001ANN         ")) }
    ensures sequential { asked note_script (codes "C001 N1") []
        ≡ Asks (call.Isrt 2 (qualified 0 (codes "C001") ∷ unqualified 1 ∷ []) (codes "N1      ")) }
    ensures direct { asked lend_script (codes "C001 L1 -25") []
        ≡ Asks (call.Isrt 2 (qualified 0 (codes "C001") ∷ unqualified 2 ∷ []) (codes "L1" ++ hex (codes "0000025d"))) }
    ensures lent { asked lend_script (codes "C001 L1 -25") (answered (codes "GE") ∷ [])
        ≡ Replies (codes "LENTGE") }
{}

/// A customer with three audits: the loop asks for the next until there is none, and leaves then.
pub fn a_customer_is_shown()
    ensures asks_again { asked showc_script (codes "C001")
        (showing 0 (codes "C001ANN         ") ∷ showing 1 (codes "N6      ") ∷ [])
        ≡ Asks (call.Get NextInParent false 2 (unqualified 1 ∷ [])) }
    ensures replies { asked showc_script (codes "C001")
        (showing 0 (codes "C001ANN         ")
        ∷ showing 1 (codes "N6      ")
        ∷ showing 1 (codes "N4      ")
        ∷ showing 1 (codes "N3      ")
        ∷ answered (codes "GE")
        ∷ [])
        ≡ Replies (codes "ANN N6 N4 N3") }
    ensures absent { asked showc_script (codes "C002") (answered (codes "GE") ∷ [])
        ≡ Rolls 4 }
{}

/// Three customers, with a blank between.
pub fn customers_are_listed()
    ensures { asked listc_script []
        (showing 0 (codes "C003BOB         ")
        ∷ showing 0 (codes "C001ANN         ")
        ∷ showing 0 (codes "C009CY          ")
        ∷ answered (codes "GB")
        ∷ [])
        ≡ Replies (codes "C003 C001 C009") }
{}

/// A new teller is inserted, and the second insert of the key in one transaction is answered XP; one that
/// stands is II twice.
pub fn a_teller_is_hired()
    ensures asks { asked hire_script (codes "T009") (answered (codes "  ") ∷ [])
        ≡ Asks (call.Isrt 1 [] (hex (codes "54303039 00000000"))) }
    ensures new { asked hire_script (codes "T009") (answered (codes "  ") ∷ answered (codes "XP") ∷ [])
        ≡ Replies (codes "/ XP") }
    ensures standing { asked hire_script (codes "T001") (answered (codes "II") ∷ answered (codes "II") ∷ [])
        ≡ Replies (codes "II/ II") }
{}

/// A script is found by its name.
pub fn a_script_is_found()
    ensures found { script_of sample_scripts (named (codes "HIRE")) ≡ Some hire_script }
    ensures unknown { script_of sample_scripts (named (codes "NOSUCH")) ≡ None }
{}

/// A line each, the dearer block of a choice, and a loop's body as often as it may run.
pub fn what_scripts_cost()
    ensures straight { cost deposit_script.statements ≡ 5 }
    ensures loop_of_ten { cost showc_script.statements ≡ 57 }
    ensures loop_of_thirty { cost listc_script.statements ≡ 184 }
{}

/// The words of a text: blanks and tabs part them, a missing one is empty, and the whole text is number 0.
pub fn the_words_of_a_text()
    ensures words { words (codes " AB  C" ++ 9 ∷ codes "D ") ≡ codes "AB" ∷ codes "C" ∷ codes "D" ∷ [] }
    ensures second { word_of (codes "A001 10") 2 ≡ codes "10" }
    ensures missing { word_of (codes "A001 10") 3 ≡ [] }
    ensures whole { word_of (codes "A001 10") 0 ≡ codes "A001 10" }
{}

/// Numbers are written in canonical decimal, and have at most 31 digits.
pub fn numbers_in_scripts()
    ensures sum { operated Add (codes "0007") (codes "-10") ≡ Some (codes "-3") }
    ensures zero { operated Subtract (codes "-0") (codes "0") ≡ Some (codes "0") }
    ensures product { operated Multiply (codes "-4") (codes "3") ≡ Some (codes "-12") }
    ensures no_number { operated Add (codes "") (codes "1") ≡ None }
    ensures too_great { operated Add (codes "9999999999999999999999999999999") (codes "1") ≡ None }
    ensures too_long { operated Add (codes "00000000000000000000000000000001") (codes "1") ≡ None }
{}

/// EQ and NE compare texts without their trailing blanks, the others numbers.
pub fn comparisons_in_scripts()
    ensures texts { compares Equal (codes "A  ") (codes "A") ≡ Some true }
    ensures not_numbers { compares Equal (codes "07") (codes "7") ≡ Some false }
    ensures numbers { compares Less (codes "-7") (codes "007") ≡ Some true }
    ensures no_numbers { compares Less (codes "A") (codes "B") ≡ None }
{}

/// A text of 1,024 bytes is the longest.
pub fn the_longest_text()
    ensures fits { operated Join (replicate 1023 65) (codes "A") ≡ Some (replicate 1023 65 ++ codes "A") }
    ensures too_long { operated Join (replicate 1024 65) (codes "A") ≡ None }
{}

/// A key is longer than its field also where only blanks make it so, and shorter ones are padded.
pub fn keys_are_fitted()
    ensures padded { fitted 4 (codes "A1") ≡ Some (codes "A1  ") }
    ensures too_long { fitted 4 (codes "A001 ") ≡ None }
    ensures sequential { asked_by (roll-Statement (stmt.Get Unique false 2
        (keyed 1 (op.Text (codes "N123456789")) ∷ [])) ∷ []) [] []
        ≡ Asks (call.Get Unique false 2 (qualified 1 (codes "N123456789") ∷ [])) }
{}

/// STATUS and FSAS: nothing before any call; then the last call's status, and the last field call's letters
/// with `-` for a blank.
pub fn what_status_and_letters_show()
    ensures before { asked_by (reply (op.Status ∷ op.Fsas ∷ []) ∷ []) [] [] ≡ Replies [] }
    ensures behind { asked_by (fld_then_reply (op.Status ∷ op.Fsas ∷ [])) (codes "A001 10")
        (lettered (codes "FE") (codes "D ") ∷ [])
        ≡ Replies (codes "FED-") }
    ensures none { asked_by (fld_then_reply (op.Status ∷ op.Fsas ∷ [])) (codes "A001 10")
        (answered (codes "XP") ∷ [])
        ≡ Replies (codes "XP") }
{}

/// A reply has at most 1,000 printable bytes, and a script without one replies nothing.
pub fn replies_are_short_and_printable()
    ensures longest { asked_by (reply (op.Text (replicate 1000 65) ∷ []) ∷ []) [] []
        ≡ Replies (replicate 1000 65) }
    ensures too_long { asked_by (reply (op.Text (replicate 1000 65) ∷ op.Text (codes "A") ∷ []) ∷ []) [] []
        ≡ Rolls 99 }
    ensures not_printable { asked_by (reply (op.Text (127 ∷ []) ∷ []) ∷ []) [] []
        ≡ Rolls 99 }
    ensures without { asked_by (set (codes "A") (op.Text (codes "B")) ∷ []) [] [] ≡ Replies [] }
{}

/// A get that finds nothing leaves what was shown; IO speaks of the last get that found, REPL of the last on
/// its own database.
pub fn what_was_shown_stays()
    ensures field { asked_by (two_gets (reply (op.Field (named (codes "BAL")) ∷ []))) (codes "A001 T001")
        (showing 0 (hex (codes "41303031 0000110c")) ∷ answered (codes "GE") ∷ [])
        ≡ Replies (codes "110") }
    ensures other_database { asked_by (two_gets (reply (op.Field (named (codes "BAL")) ∷ []))) (codes "A001 T001")
        (showing 0 (hex (codes "41303031 0000110c")) ∷ showing 0 (hex (codes "54303031 00000000")) ∷ [])
        ≡ Rolls 99 }
    ensures own_database { asked_by (two_gets (roll-Statement
        (stmt.Repl 0 (put (codes "BAL") (op.Text (codes "-5")) ∷ [])))) (codes "A001 T001")
        (showing 0 (hex (codes "41303031 0000110c")) ∷ showing 0 (hex (codes "54303031 00000000")) ∷ [])
        ≡ Asks (call.Repl 0 (hex (codes "41303031 0000005d"))) }
    ensures no_such_field { asked_by (two_gets (roll-Statement
        (stmt.Repl 0 (put (codes "CASH") (op.Text (codes "5")) ∷ [])))) (codes "A001 T001")
        (showing 0 (hex (codes "41303031 0000110c")) ∷ showing 0 (hex (codes "54303031 00000000")) ∷ [])
        ≡ Rolls 99 }
{}
