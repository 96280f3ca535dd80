//! Rows of the bytes: numbers in fields, exits, messages and reply lines, entries and groups.

ghost use Rattle.std.specs.Prelude.{◌≡◌, ℕ, ◌+◌, ◌^◌, ◌≤◌, List, [], ◌∷◌, ◌++◌, length, map, replicate, codes, Option, Some, None, ℤ, pos, neg_ℤ, Ok, Err, IsOk, IsTrue, IsFalse};
ghost use Rattle.fp_model.specs.Numbers.{number, bytes_of};
ghost use Rattle.fp_model.specs.Names.{name_in};
ghost use Rattle.fp_model.specs.Exits.{spread, route, group_of};
ghost use Rattle.fp_model.specs.Messages.{lines_of, line_fault, fault_of_line, LineTooLong, TooManyLines, message_of, NoTerminal, NoTran, TooLong, NotAscii, terminal_of};
ghost use Rattle.fp_model.specs.Spellings.{be64};
ghost use Rattle.fp_model.specs.LogText.{Front, group_text, groups_text, front_text, log_text, first_gate};
ghost use Rattle.fp_model.specs.ItemTargets.{is_ascending};
ghost use Rattle.fp_model.specs.Entries.{MayStandAt};
ghost use Rattle.fp_model.specs.Groups.{IsGroup, Reads, Groups, Damage};
ghost use Rattle.fp_model.specs.Items.{FitsMsdb, IsFit};
ghost use Rattle.fp_model.specs.ReplyLine.{line_of};
ghost use Rattle.std.specs.List.{AllByRecursion};
ghost use Rattle.fp_model.specs.declared.log.Entry.{Entry};
ghost use Rattle.fp_model.specs.declared.log.Item.TheVariants.{Image};
ghost use Rattle.fp_model.specs.declared.log.Outcome.TheVariants.{Done, Verify, SeqFull, Deadlock, Device, Memory, Purge};
ghost use Rattle.fp_model.specs.declared.definitions.FieldKind.TheVariants.{C, X, H, F, P};
ghost use Rattle.fp_model.specs.declared.definitions.Kind.TheVariants.{Fold, Range};
ghost use Rattle.fp_rows.specs.Hex.{hex, with_newline, named};
ghost use Rattle.byte_rows.specs.LogRows.{customers, ended, changed, image};
ghost use Rattle.fp_rows.specs.Sample.{accts, tellers, deposit, refusal, unknown, sample_defs};

/// The sign F is a plus.
pub fn f_is_plus()
    ensures { number P (hex (codes "12 3f")) ≡ Some (pos 123) }
{}

/// The sign D is a minus.
pub fn d_is_minus()
    ensures { number P (hex (codes "12 3d")) ≡ Some (neg_ℤ (pos 123)) }
{}

/// A is no digit, so these bytes are no number.
pub fn a_letter_is_no_digit()
    ensures { number P (hex (codes "1a 3c")) ≡ None }
{}

/// 9 is no sign, so these bytes are no number.
pub fn a_digit_is_no_sign()
    ensures { number P (hex (codes "12 39")) ≡ None }
{}

/// The preferred plus is C.
pub fn packed_bytes_of_123()
    ensures { bytes_of P 2 (pos 123) ≡ Some (hex (codes "12 3c")) }
{}

/// Zero has the sign C.
pub fn packed_zero_is_plus()
    ensures { bytes_of P 4 (pos 0) ≡ Some (hex (codes "0000000c")) }
{}

/// Sixteen packed bytes hold 31 digits.
pub fn thirty_one_nines_fit_sixteen_bytes()
    ensures fits { bytes_of P 16 (pos 9999999999999999999999999999999)
        ≡ Some (hex (codes "99 99 99 99 99 99 99 99 99 99 99 99 99 99 99 9c")) }
    ensures one_more { bytes_of P 16 (pos 10000000000000000000000000000000) ≡ None }
{}

/// Two packed bytes hold three digits, so 1,000 doesn't fit.
pub fn a_thousand_needs_more_than_two_packed_bytes()
    ensures { bytes_of P 2 (pos 1000) ≡ None }
{}

/// An unsigned field has no bytes for a number below 0.
pub fn no_unsigned_bytes_below_zero()
    ensures { bytes_of X 2 (neg_ℤ (pos 1)) ≡ None }
{}

/// Two's complement of -2 in a half word and in a full word, both ways.
pub fn words_are_twos_complement()
    ensures half { bytes_of H 2 (neg_ℤ (pos 2)) ≡ Some (hex (codes "ff fe")) }
    ensures full { bytes_of F 4 (neg_ℤ (pos 2)) ≡ Some (hex (codes "ff ff ff fe")) }
    ensures half_back { number H (hex (codes "ff fe")) ≡ Some (neg_ℤ (pos 2)) }
    ensures full_back { number F (hex (codes "ff ff ff fe")) ≡ Some (neg_ℤ (pos 2)) }
{}

/// A field of characters is no number, and a kind has no numbers at other lengths than its own.
pub fn other_kinds_and_lengths_are_no_numbers()
    ensures characters { number C (hex (codes "12 3f")) ≡ None }
    ensures half { number H (hex (codes "00 00 01")) ≡ None }
    ensures unsigned { number X (hex (codes "00 00 00 00 00 00 00 00 01")) ≡ None }
    ensures packed { bytes_of P 17 (pos 1) ≡ None }
{}

/// Of 8 anchors, C001 and C009 have anchor 6 and C003 has anchor 0.
pub fn anchors_of_three_customers()
    ensures c001 { spread Fold 8 (codes "C001") ≡ 6 }
    ensures c003 { spread Fold 8 (codes "C003") ≡ 0 }
    ensures c009 { spread Fold 8 (codes "C009") ≡ 6 }
{}

/// So do these have anchor 6, which fill more than one interval.
pub fn customers_of_one_anchor()
    ensures { map (spread Fold 8) customers ≡ replicate 21 6 }
{}

/// The other exit cuts the range of the first four bytes: of 8 anchors, C001 has the third.
pub fn an_anchor_by_range()
    ensures { spread Range 8 (codes "C001") ≡ 2 }
{}

/// Of two groups, DEPOSIT has the first, WDRAW and ASK the second.
pub fn groups_of_three_transactions()
    ensures deposit { route Fold 2 (named (codes "DEPOSIT")) ≡ 0 }
    ensures withdrawal { route Fold 2 (named (codes "WDRAW")) ≡ 1 }
    ensures ask { route Fold 2 (named (codes "ASK")) ≡ 1 }
    ensures group { group_of Fold 2 (named (codes "DEPOSIT")) ≡ 1 }
{}

/// A name begins with a letter and has 1 to 8 capital letters and digits.
pub fn what_a_name_is()
    ensures terminal { name_in (codes "T1") ≡ Some (named (codes "T1")) }
    ensures eight { name_in (codes "CUSTOMER") ≡ Some (record { 0 = codes "CUSTOMER" }) }
    ensures nine { name_in (codes "CUSTOMERS") ≡ None }
    ensures digit_first { name_in (codes "1T") ≡ None }
    ensures small { name_in (codes "t1") ≡ None }
    ensures empty { name_in [] ≡ None }
{}

/// A message: its terminal, its transaction and its text.
pub fn a_deposit_is_a_message()
    ensures { message_of 1 (codes "T1 DEPOSIT A001 10") ≡ Ok (record {
      lterm = named (codes "T1");
      tran = named (codes "DEPOSIT");
      text = codes "A001 10";
      line = codes "T1 DEPOSIT A001 10";
      number = None;
    }) }
{}

/// Without a transaction a line is no message, but it has a terminal.
pub fn a_terminal_alone_is_no_message()
    ensures message { message_of 1 (codes "T1") ≡ Err NoTran }
    ensures terminal { terminal_of (codes "T1") ≡ Some (named (codes "T1")) }
{}

/// The empty line has no terminal.
pub fn the_empty_line_is_no_message()
    ensures { message_of 1 [] ≡ Err NoTerminal }
{}

/// A blank with nothing behind the transaction is the empty text.
pub fn a_last_blank_is_the_empty_text()
    ensures { message_of 1 (codes "T1 ASK ") ≡ Ok (record {
      lterm = named (codes "T1");
      tran = named (codes "ASK");
      text = [];
      line = codes "T1 ASK ";
      number = None;
    }) }
{}

/// A tab separates words as a blank does, but in the text it isn't printable.
pub fn a_tab_separates_words()
    ensures words { message_of 1 (codes "T1" ++ 9 ∷ codes "ASK" ++ 9 ∷ codes "A001") ≡ Ok (record {
      lterm = named (codes "T1");
      tran = named (codes "ASK");
      text = codes "A001";
      line = codes "T1" ++ 9 ∷ codes "ASK" ++ 9 ∷ codes "A001";
      number = None;
    }) }
    ensures terminal { terminal_of (codes "T1" ++ 9 ∷ codes "ASK") ≡ Some (named (codes "T1")) }
    ensures text { message_of 1 (codes "T1 ASK A001" ++ 9 ∷ codes "10") ≡ Err NotAscii }
{}

/// Only one blank separates words: behind two stands no transaction.
pub fn two_blanks_hide_the_transaction()
    ensures { message_of 1 (codes "T1  ASK A001") ≡ Err NoTran }
{}

/// A text has at most 1,000 bytes, which is asked before its bytes are.
pub fn a_text_of_1001_bytes_is_too_long()
    ensures long { message_of 1 (codes "T1 ASK " ++ replicate 1001 200) ≡ Err TooLong }
    ensures not_ascii { message_of 1 (codes "T1 ASK " ++ replicate 1000 200) ≡ Err NotAscii }
    ensures fits { IsOk (message_of 1 (codes "T1 ASK " ++ replicate 1000 65)) }
{}

/// Lines end at newlines and lose one byte 13 there; a last line without newline is taken.
pub fn a_last_line_without_newline_is_taken()
    ensures { lines_of (codes "T1 ASK" ++ 13 ∷ 10 ∷ 10 ∷ codes "T2 ASK") ≡ codes "T1 ASK" ∷ [] ∷ codes "T2 ASK" ∷ [] }
{}

/// Nothing behind the last newline is no line.
pub fn nothing_behind_the_last_newline_is_no_line()
    ensures { lines_of (codes "T1 ASK" ++ 10 ∷ []) ≡ codes "T1 ASK" ∷ [] }
{}

/// A line of 2,101 bytes is too long, one of 2,100 isn't.
pub fn a_line_of_2101_bytes_is_too_long()
    ensures long { line_fault (replicate 2101 65) ≡ Some (LineTooLong 1) }
    ensures second { line_fault (10 ∷ replicate 2101 65 ++ 10 ∷ []) ≡ Some (LineTooLong 2) }
    ensures short { line_fault (replicate 2100 65 ++ 10 ∷ []) ≡ None }
{}

/// The 1,000,001st line is one too many, whatever its length, and the line before it isn't.
pub fn the_line_behind_a_million_is_too_many()
    ensures many { fault_of_line 1000001 (replicate 2101 65) ≡ Some (TooManyLines 1000001) }
    ensures last { fault_of_line 1000000 [] ≡ None }
{}

/// The log behind its front after one deposit of 10 to 100: its group, and the closed gate.
pub fn the_log_after_a_deposit()
    ensures { (front : Front) → log_text front ((deposit ∷ []) ∷ []) ≡ front_text 1 front ++ hex (codes
        "01 000000000000004b 0000000000000043 0000000000000000 00 0012 5431204445504f534954204130303120 3130 0003 4e4557 00000001 0000000000000000 00000001 01 00 04 41303031 0008 41303031 0000110c 00"
        ) }
{}

/// The log behind its front after a deposit to an account that isn't there, which its script refused.
pub fn the_log_after_a_refused_deposit()
    ensures { (front : Front) → log_text front ((refusal ∷ []) ∷ []) ≡ front_text 1 front ++ hex (codes
        "01 0000000000000039 0000000000000031 0000000000000000 02 0001 0012 5431204445504f5349542041303039203130 0000 00000001 0000000000000000 00000000 00"
        ) }
{}

/// The lines that the terminal is sent for these two entries.
pub fn the_reply_lines_of_two_deposits()
    ensures done { line_of deposit ≡ with_newline (codes "T1 OK NEW") }
    ensures refused { line_of refusal ≡ with_newline (codes "T1 NO ROLB 1") }
{}

/// The empty line is answered to nobody, an unknown transaction to its terminal.
pub fn the_reply_lines_of_what_is_no_message()
    ensures nobody { line_of (unknown []) ≡ with_newline (codes "? NO UNKNOWN") }
    ensures terminal { line_of (unknown (codes "T1 NOSUCH")) ≡ with_newline (codes "T1 NO UNKNOWN") }
{}

/// The other reply lines; nobody is told of a purge.
pub fn the_reply_lines_of_other_ends()
    ensures silent { line_of (ended Done []) ≡ with_newline (codes "T1 OK") }
    ensures verify { line_of (ended (Verify 0 0 (hex (codes "0000040c"))) []) ≡ with_newline (codes "T1 NO VERIFY") }
    ensures full { line_of (ended (SeqFull 4 1 5 1) []) ≡ with_newline (codes "T1 NO SEQFULL") }
    ensures deadlock { line_of (ended (Deadlock (2 ∷ 1 ∷ [])) []) ≡ with_newline (codes "T1 NO DEADLOCK") }
    ensures device { line_of (ended Device []) ≡ with_newline (codes "T1 NO DEVICE") }
    ensures memory { line_of (ended Memory []) ≡ with_newline (codes "T1 NO MEMORY") }
    ensures purge { line_of (ended (Purge 4 2) []) ≡ [] }
{}

/// Items ascend: segments by database and key, then images by data set and interval, each at most once.
pub fn items_in_order()
    ensures ascending { IsTrue (is_ascending (changed 0 (codes "A001") ∷ changed 0 (codes "A002") ∷ changed 1
        (codes "A000")
        ∷ image 3 9 ∷ image 4 1 ∷ image 4 2 ∷ [])) }
    ensures twice { IsFalse (is_ascending (changed 0 (codes "A001") ∷ changed 0 (codes "A001") ∷ [])) }
    ensures images_first { IsFalse (is_ascending (image 3 9 ∷ changed 0 (codes "A001") ∷ [])) }
    ensures falling { IsFalse (is_ascending (image 4 1 ∷ image 3 9 ∷ [])) }
{}

/// An entry of a line that is no message begins at its own place.
pub fn an_unknown_line_begins_at_its_place()
    ensures place { MayStandAt 0 (unknown []) }
    ensures elsewhere { ¬ MayStandAt 1 (unknown []) }
{}

/// The group of the deposit has 84 bytes, so the next gate stands 84 bytes behind the first.
#[tactic(auto, unfolding(fp_model::specs::Spellings::be16, fp_model::specs::Spellings::be32, fp_model::specs::Spellings::be64))]
pub fn the_gate_behind_a_deposit()
    ensures { length (group_text (deposit ∷ [])) ≡ 84 }
{}

/// The text of a log reads as its groups, up to its closed gate.
pub fn a_log_reads_as_its_groups()
    ensures { (front : Front) (groups : List (List Entry)) → AllByRecursion IsGroup groups
        → Reads (log_text front groups) (first_gate front)
        (Groups groups (first_gate front + length (groups_text groups))) }
{}

/// The deposit is a group by itself, and so is the refused one.
pub fn each_of_two_entries_is_a_group()
    ensures deposit { IsGroup (deposit ∷ []) }
    ensures refusal { IsGroup (refusal ∷ []) }
{}

/// A log whose first gate is open, with zeros behind it to the end, is damaged there.
pub fn an_open_gate_before_zeros_is_damage()
    ensures { (front : Front) (n : ℕ)
        → Reads (front_text 1 front ++ 1 ∷ replicate n 0) (first_gate front) (Damage (first_gate front)) }
{}

/// A log that ends behind its front has no groups: a gate that isn't there is closed.
pub fn a_front_alone_has_no_groups()
    ensures { (front : Front) → Reads (front_text 1 front) (first_gate front) (Groups [] (first_gate front)) }
{}

/// The new segment of the deposit may be applied, and so may its deletion.
pub fn the_deposited_segment_is_fit()
    ensures changed { FitsMsdb accts (codes "A001") (hex (codes "41303031 0000110c")) }
    ensures deleted { FitsMsdb accts (codes "A001") [] }
    ensures other_key { ¬ FitsMsdb accts (codes "A002") (hex (codes "41303031 0000110c")) }
{}

/// Under the sample's definitions areas are the data sets 3 and 4, with intervals of 512 bytes.
pub fn which_images_are_fit()
    ensures second_area { IsFit sample_defs (Image 4 3 (replicate 512 0)) }
    ensures no_area { ¬ IsFit sample_defs (Image 5 3 (replicate 512 0)) }
    ensures checkpoint { ¬ IsFit sample_defs (Image 2 3 (replicate 512 0)) }
    ensures short { ¬ IsFit sample_defs (Image 4 3 (replicate 511 0)) }
    ensures far { ¬ IsFit sample_defs (Image 4 9007199254740992 (replicate 512 0)) }
{}

/// A segment is fit where its database is one of the two.
pub fn which_segments_are_fit()
    ensures deposit { AllByRecursion (IsFit sample_defs) deposit.items }
    ensures no_database { ¬ IsFit sample_defs (changed 2 (codes "A001")) }
{}
