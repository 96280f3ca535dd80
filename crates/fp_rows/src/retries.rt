//! Rows of waiting and of reprocessing: two that want each other's account, and transactions that are run again.
#![tactic(auto)]

ghost use Rattle.std.specs.Prelude.{◌≡◌, [], ◌∷◌, ◌++◌, codes, map, Some, slice_get};
ghost use Rattle.fp_model.specs.declared.log.Outcome.TheVariants.{Done, Deadlock, Roll};
ghost use Rattle.fp_model.specs.declared.events.Event.TheVariants.{In, Region, Log};
ghost use Rattle.fp_model.specs.Machine.{Machine};
ghost use Rattle.fp_rows.specs.States.{RunsCalmly, at_start, with_two};
ghost use Rattle.fp_rows.specs.Retries.{hold_rules, retrying, at_rest_over, two_account_lines, two_customer_lines, two_withdrawal_lines, round};

/// Two transactions that hold two accounts, in opposite orders, without a further try: the second closes the cycle
/// and is refused, and the first goes on.
pub fn two_accounts_by_turns()
    ensures { (m : Machine)
        × (RunsCalmly (hold_rules 0) (at_rest_over (hold_rules 0) at_start two_account_lines)
        (In ∷ In ∷ Region 1 ∷ Region 1 ∷ Region 2 ∷ Region 2 ∷ Region 1 ∷ Region 2 ∷ Region 1 ∷ Region 2
        ∷ Region 1 ∷ Region 1 ∷ Region 1 ∷ Log ∷ [])
        m
        × ((map (λ e. e.outcome) m.history.entries ≡ Deadlock (2 ∷ 1 ∷ []) ∷ Done ∷ [])
        × (m.sent ≡ codes "T2 NO DEADLOCK" ++ 10 ∷ codes "T1 OK BOTH" ++ 10 ∷ []))) }
{}

/// The same with one try more: the second is run again, and both are done. Five rounds drain the machine.
pub fn two_accounts_again_by_turns()
    ensures { (m : Machine)
        × (RunsCalmly (hold_rules 1) (at_rest_over (hold_rules 1) at_start two_account_lines)
        (In ∷ In ∷ Region 1 ∷ Region 1 ∷ Region 2 ∷ Region 2 ∷ Region 1 ∷ Region 2 ∷ Region 1 ∷ Region 2
        ∷ Region 1 ∷ Region 1 ∷ Region 1 ∷ Log ∷ round ++ round ++ round ++ round ++ round)
        m
        × (m.sent ≡ codes "T1 OK BOTH" ++ 10 ∷ codes "T2 OK BOTH" ++ 10 ∷ [])) }
{}

/// Two that hold two customers, in opposite orders, with one try more: both are done.
pub fn two_holders_again_by_turns()
    ensures { (m : Machine)
        × (RunsCalmly retrying (at_rest_over retrying with_two two_customer_lines)
        (In ∷ In ∷ Region 1 ∷ Region 1 ∷ Region 2 ∷ Region 2 ∷ Region 1 ∷ Region 2 ∷ Region 1 ∷ Region 2
        ∷ Region 1 ∷ Region 1 ∷ Region 1 ∷ Log ∷ round ++ round ++ round ++ round ++ round)
        m
        × (m.sent ≡ codes "T1 OK BOTH" ++ 10 ∷ codes "T2 OK BOTH" ++ 10 ∷ [])) }
{}

/// Two withdrawals of 60 from 100 with one try more: the second fails its verify, is run again behind the first,
/// sees 40, and rolls back. Two rounds drain the machine.
pub fn two_withdrawals_again_by_turns()
    ensures { (m : Machine)
        × (RunsCalmly retrying (at_rest_over retrying at_start two_withdrawal_lines)
        (In ∷ In ∷ Region 1 ∷ Region 2 ∷ Region 1 ∷ Region 2 ∷ Region 1 ∷ Region 1 ∷ Region 2 ∷ Region 2 ∷ Log
        ∷ round ++ round)
        m
        × ((slice_get m.history.entries 1
        ≡ Some (record {
          from = 1;
          outcome = Roll 7;
          line = codes "T2 WDRAW A001 60";
          reply = [];
          notes = 1 ∷ [];
          items = [];
        }))
        × (m.sent ≡ codes "T1 OK PAID 60" ++ 10 ∷ codes "T2 NO ROLB 7" ++ 10 ∷ []))) }
{}
