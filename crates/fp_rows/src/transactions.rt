//! Rows of whole transactions: calls on a state, commits, serial runs, locks, and a run of turns.
#![tactic(auto, unfolding(fp_model::specs::Fsas::list_on, fp_model::specs::Fsas::first_failure, fp_model::specs::Settle::settle_from, fp_model::specs::Calls::reply_to, fp_model::specs::Calls::need_of, fp_model::specs::Commit::settlement, fp_model::specs::Commit::purged, fp_model::specs::Spellings::be16))]

ghost use Rattle.std.specs.Prelude.{◌≡◌, ℕ, List, [], ◌∷◌, ◌++◌, false, true, codes, Some, None};
ghost use Rattle.fp_model.specs.declared.calls.Call.TheVariants as call;
ghost use Rattle.fp_model.specs.declared.calls.Get.TheVariants.{Unique, Next, NextInParent};
ghost use Rattle.fp_model.specs.declared.calls.Mode.TheVariants.{Share, Exclusive};
ghost use Rattle.fp_model.specs.declared.calls.Resource.TheVariants.{Segment, Anchor};
ghost use Rattle.fp_model.specs.Workspace.{Workspace, fresh};
ghost use Rattle.fp_model.specs.Calls.{reply_to, need_of};
ghost use Rattle.fp_model.specs.Commit.{FillsPart, Commits, settlement, purged};
ghost use Rattle.fp_model.specs.Exits.{anchor_of};
ghost use Rattle.fp_model.specs.Waiting.{Lock, waits, IsCycle};
ghost use Rattle.fp_rows.specs.Hex.{hex};
ghost use Rattle.fp_rows.specs.Sample.{sample_defs, cust};
ghost use Rattle.fp_rows.specs.Sample as sample;
ghost use Rattle.fp_model.specs.Serial.{Ends, serial_run};
ghost use Rattle.fp_model.specs.declared.log.Outcome.TheVariants.{Done, Verify};
ghost use Rattle.fp_model.specs.declared.events.Event.TheVariants.{In, Region, Log};
ghost use Rattle.fp_model.specs.Machine.{Machine};
ghost use Rattle.fp_rows.specs.States.{RunsCalmly, with_three, next_customer, first, second, third, sample_rules, at_rest_with_a_deposit, at_rest_with_two_withdrawals, at_rest_with_two_holders, at_start, with_balance, a_customer, with_customers, with_audits};

/// The randomizer of the sample's eight anchors.
pub fn where_customers_lie()
    ensures c001 { anchor_of cust (codes "C001") ≡ 6 }
    ensures c003 { anchor_of cust (codes "C003") ≡ 0 }
    ensures c009 { anchor_of cust (codes "C009") ≡ 6 }
{}

/// Two transactions that hold an anchor each, and want the other's, wait for each other.
pub fn two_that_want_each_other()
    ensures { IsCycle (waits
        (record { region = 2; resource = Anchor 0 6; mode = Exclusive } ∷ record
        { region = 1; resource = Anchor 0 0; mode = Exclusive } ∷ [])
        (record { region = 2; resource = Anchor 0 0; mode = Exclusive } ∷ record
        { region = 1; resource = Anchor 0 6; mode = Exclusive } ∷ []))
        (2 ∷ 1 ∷ []) }
{}

/// A new teller is good, and a second insert of the key in the same transaction is answered XP.
pub fn an_insert_and_another_of_the_key()
    ensures first { (reply_to sample_defs at_start at_start (fresh sample_defs)
        (call.Isrt 1 [] (hex (codes "54303039 00000000")))).answer
        ≡ sample.answered (codes "  ") }
    ensures second { (reply_to sample_defs at_start at_start
        (reply_to sample_defs at_start at_start (fresh sample_defs)
        (call.Isrt 1 [] (hex (codes "54303039 00000000")))).own
        (call.Isrt 1 [] (hex (codes "54303039 00000000")))).answer
        ≡ sample.answered (codes "XP") }
    ensures standing { (reply_to sample_defs at_start at_start (fresh sample_defs)
        (call.Isrt 1 [] (hex (codes "54303031 00000000")))).answer
        ≡ sample.answered (codes "II") }
{}

/// A fifth audit finds the part full: it has four, with serials 1 to 4.
pub fn a_full_part()
    ensures { settlement sample_defs with_audits (record (fresh sample_defs)
        { inserts = record { dedb = 0; anchor = 6; key = codes "C001"; bytes = codes "N5      " } ∷ [] })
        ≡ FillsPart 4 1 5 1 }
{}

/// A Purge of two drops the oldest two, and then there is room.
pub fn a_purge_makes_room()
    ensures purged_two { purged sample_defs 4 2 with_audits
        ≡ Some (with_customers [] (a_customer (codes "C001ANN         ")
        (record { serial = 4; bytes = codes "N4      " } ∷ record { serial = 3; bytes = codes "N3      " } ∷ []) ∷
        []) 3 5) }
    ensures past_the_end { purged sample_defs 4 9 with_audits
        ≡ Some (with_customers [] (a_customer (codes "C001ANN         ") [] ∷ []) 5 5) }
    ensures no_area { purged sample_defs 5 1 with_audits ≡ None }
{}

/// A deposit alone, from the start: its look shows 100, and the state after it has 110.
pub fn a_deposit_alone()
    ensures { serial_run sample_rules at_start (at_start ∷ [])
        (sample.message_for sample.deposit_script (codes "A001 10")) (0 ∷ [])
        ≡ Ends (record { outcome = Done; reply = codes "NEW"; next = with_balance (codes "0000110c") }) }
{}

/// A withdrawal of 60 that saw 100 as it was called, and comes to its sync point where 40 is left.
pub fn a_withdrawal_alone_fails_its_verify()
    ensures { serial_run sample_rules (with_balance (codes "0000040c"))
        (at_start ∷ with_balance (codes "0000040c") ∷ []) (sample.message_for sample.wdraw_script (codes "A001 60"))
        (0 ∷ [])
        ≡ Ends (record {
          outcome = Verify 0 0 (hex (codes "0000040c"));
          reply = [];
          next =
              with_balance (codes "0000040c");
        }) }
{}

/// What asking shows is the state of its note, and not that of its place.
pub fn asking_shows_what_it_noted()
    ensures noted_one { serial_run sample_rules (with_balance (codes "0000130c"))
        (at_start ∷ with_balance (codes "0000110c") ∷ with_balance (codes "0000130c") ∷ [])
        (sample.message_for sample.ask_script (codes "A001")) (1 ∷ [])
        ≡ Ends (record { outcome = Done; reply = codes "110"; next = with_balance (codes "0000130c") }) }
    ensures noted_two { serial_run sample_rules (with_balance (codes "0000130c"))
        (at_start ∷ with_balance (codes "0000110c") ∷ with_balance (codes "0000130c") ∷ [])
        (sample.message_for sample.ask_script (codes "A001")) (2 ∷ [])
        ≡ Ends (record { outcome = Done; reply = codes "130"; next = with_balance (codes "0000130c") }) }
{}

/// A deposit's line, taken in and run by region 1, is one entry and one group, and its reply line is sent.
pub fn a_deposit_by_turns()
    ensures { (m : Machine)
        × (RunsCalmly sample_rules at_rest_with_a_deposit (In ∷ Region 1 ∷ Region 1 ∷ Region 1 ∷ Region 1 ∷ Log ∷ []) m
        × ((m.sent ≡ codes "T1 OK NEW" ++ 10 ∷ [])
        × ((m.groups ≡ (sample.deposit ∷ []) ∷ [])
        × (m.history.now ≡ with_balance (codes "0000110c"))))) }
{}

/// Gets of the next customer go by anchor and then by key.
pub fn customers_in_order()
    ensures one { first.answer ≡ sample.showing 0 (codes "C003BOB         ") }
    ensures two { second.answer ≡ sample.showing 0 (codes "C001ANN         ") }
    ensures three { third.answer ≡ sample.showing 0 (codes "C009CY          ") }
    ensures end { (next_customer third.own).answer ≡ sample.answered (codes "GB") }
{}

/// A search asks for each anchor before it looks there, and for no further one where it has found.
pub fn a_search_asks_for_its_anchors()
    ensures first_anchor { need_of sample_defs with_three (fresh sample_defs) (λ r. None)
        (call.Get Next false 2 (record { segment = 0; key = None } ∷ []))
        ≡ Some (record { resource = Anchor 0 0; mode = Share }) }
    ensures found_there { need_of sample_defs with_three (fresh sample_defs) (λ r. Some Share)
        (call.Get Next false 2 (record { segment = 0; key = None } ∷ []))
        ≡ None }
    ensures its_own_anchor { need_of sample_defs with_three (fresh sample_defs) (λ r. None)
        (call.Get Unique true 2 (record { segment = 0; key = Some (codes "C009") } ∷ []))
        ≡ Some (record { resource = Anchor 0 6; mode = Exclusive }) }
    ensures share_is_not_enough { need_of sample_defs with_three (fresh sample_defs) (λ r. Some Share)
        (call.Get Unique true 2 (record { segment = 0; key = Some (codes "C009") } ∷ []))
        ≡ Some (record { resource = Anchor 0 6; mode = Exclusive }) }
{}

/// Two withdrawals of 60 from 100: both look before either commits, and the second fails its verify at the sync point.
pub fn two_withdrawals_by_turns()
    ensures { (m : Machine)
        × (RunsCalmly sample_rules at_rest_with_two_withdrawals
        (In ∷ In ∷ Region 1 ∷ Region 2 ∷ Region 1 ∷ Region 2 ∷ Region 1 ∷ Region 1 ∷ Region 2 ∷ Region 2 ∷ Log ∷ [])
        m
        × (m.sent ≡ codes "T1 OK PAID 60" ++ 10 ∷ codes "T2 NO VERIFY" ++ 10 ∷ [])) }
{}

/// Two transactions that hold two customers each, in opposite orders: the second closes the cycle and is refused, and
/// the first goes on.
pub fn two_holders_by_turns()
    ensures { (m : Machine)
        × (RunsCalmly sample_rules at_rest_with_two_holders
        (In ∷ In ∷ Region 1 ∷ Region 1 ∷ Region 2 ∷ Region 2 ∷ Region 1 ∷ Region 2 ∷ Region 1 ∷ Region 2 ∷ Region 1 ∷
        Region 1 ∷ Region 1 ∷ Log ∷ [])
        m
        × (m.sent ≡ codes "T2 NO DEADLOCK" ++ 10 ∷ codes "T1 OK BOTH" ++ 10 ∷ [])) }
{}
