//! Rows of the calls on a data entry database: gets below a parent, replacements, deletes and inserts of one
//! transaction, each as its answers in order.
#![tactic(auto, unfolding(fp_model::specs::Calls::reply_to, fp_model::specs::Calls::need_of, fp_model::specs::Commit::settlement, fp_model::specs::Settle::settle_from))]

ghost use Rattle.std.specs.Prelude.{◌≡◌, [], ◌∷◌, ◌++◌, codes, false, None};
ghost use Rattle.fp_model.specs.declared.calls.Call.TheVariants as call;
ghost use Rattle.fp_model.specs.declared.calls.Get.TheVariants.{Unique};
ghost use Rattle.fp_model.specs.Calls.{need_of};
ghost use Rattle.fp_model.specs.Commit.{Commits, settlement};
ghost use Rattle.fp_model.specs.Workspace.{fresh};
ghost use Rattle.fp_rows.specs.Hex.{hex};
ghost use Rattle.fp_rows.specs.Sample.{sample_defs, answered, showing};
ghost use Rattle.fp_rows.specs.States.{a_customer};
ghost use Rattle.fp_rows.specs.Customers.{ann, bob, cy, dee, fay, eve, loan_one, with_four, and_bob, two_audits, dee_with_loans, qualified, customer, any_customer, any_audit, loan, any_loan, gu, gn, gnp, ghu, ghnp, isrt, repl, dlet, fld, note, answers, kept};

/// A get below a parent needs one; without it no anchor is asked for. An insert sets none.
pub fn without_a_parent()
    ensures answer { answers (gnp (any_audit ∷ []) ∷ []) ≡ answered (codes "GP") ∷ [] }
    ensures asks_for_none { need_of sample_defs with_four (fresh sample_defs) (λ r. None) (gnp (any_audit ∷ []))
        ≡ None }
    ensures behind_an_insert { answers (isrt (any_customer ∷ []) fay ∷ gnp (any_loan ∷ []) ∷ [])
        ≡ answered (codes "  ") ∷ answered (codes "GP") ∷ [] }
{}

/// Audits come newest first, and those of other customers aren't below the parent.
pub fn audits_below_a_customer()
    ensures newest_first { answers
        (gu (customer (codes "C001") ∷ []) ∷ gnp (any_audit ∷ []) ∷ gnp (any_audit ∷ []) ∷ gnp (any_audit ∷ []) ∷ [])
        ≡ showing 0 ann ∷ showing 1 (codes "N2      ") ∷ showing 1 (codes "N1      ") ∷ answered (codes "GE") ∷ [] }
    ensures other_anchor { answers (gu (customer (codes "C003") ∷ []) ∷ gnp (any_audit ∷ []) ∷ [])
        ≡ showing 0 bob ∷ answered (codes "GE") ∷ [] }
    ensures same_anchor { answers (gu (customer (codes "C009") ∷ []) ∷ gnp (any_audit ∷ []) ∷ [])
        ≡ showing 0 cy ∷ answered (codes "GE") ∷ [] }
    ensures behind_gets_of_the_next { answers
        (gn (any_customer ∷ []) ∷ gnp (any_audit ∷ []) ∷ gn (any_customer ∷ []) ∷ gnp (any_audit ∷ []) ∷ [])
        ≡ showing 0 bob ∷ answered (codes "GE") ∷ showing 0 ann ∷ showing 1 (codes "N2      ") ∷ [] }
{}

/// Without search arguments a get below a parent shows all that is there.
pub fn all_below_a_customer()
    ensures { answers (gu (customer (codes "C001") ∷ []) ∷ gnp [] ∷ gnp [] ∷ gnp [] ∷ [])
        ≡ showing 0 ann ∷ showing 1 (codes "N2      ") ∷ showing 1 (codes "N1      ") ∷ answered (codes "GE") ∷ [] }
{}

/// A get that finds nothing leaves position and parent as they were.
pub fn what_is_not_found_moves_nothing()
    ensures { answers
        (gu (customer (codes "C001") ∷ []) ∷ gnp (any_audit ∷ []) ∷ gnp (loan (codes "L9") ∷ [])
        ∷ gnp (any_audit ∷ []) ∷ [])
        ≡ showing 0 ann ∷ showing 1 (codes "N2      ") ∷ answered (codes "GE") ∷ showing 1 (codes "N1      ") ∷ [] }
{}

/// A transaction sees its own replacement, and what is below the segment stays.
pub fn a_replacement_is_seen()
    ensures seen { answers
        (ghu (customer (codes "C001") ∷ []) ∷ repl eve ∷ gu (customer (codes "C001") ∷ []) ∷ gnp (any_audit ∷ []) ∷ [])
        ≡ showing 0 ann ∷ answered (codes "  ") ∷ showing 0 eve ∷ showing 1 (codes "N2      ") ∷ [] }
    ensures committed { settlement sample_defs with_four (kept (ghu (customer (codes "C001") ∷ []) ∷ repl eve ∷ []))
        ≡ Commits (and_bob (a_customer eve two_audits ∷ a_customer cy [] ∷ []) (dee_with_loans ∷ []) 3) }
{}

/// A replacement keeps the key. One that doesn't is refused, and the hold ends.
pub fn a_replacement_keeps_the_key()
    ensures { answers (ghu (customer (codes "C001") ∷ []) ∷ repl (codes "C002ANN         ") ∷ repl eve ∷ [])
        ≡ showing 0 ann ∷ answered (codes "DA") ∷ answered (codes "DJ") ∷ [] }
{}

/// Replacements and deletes are of what the last call to the database held: a get with a hold that found.
pub fn without_a_hold()
    ensures no_call { answers (repl ann ∷ dlet ∷ []) ≡ answered (codes "DJ") ∷ answered (codes "DJ") ∷ [] }
    ensures not_held { answers (gu (customer (codes "C001") ∷ []) ∷ dlet ∷ [])
        ≡ showing 0 ann ∷ answered (codes "DJ") ∷ [] }
    ensures not_found { answers (ghu (customer (codes "C005") ∷ []) ∷ dlet ∷ [])
        ≡ answered (codes "GE") ∷ answered (codes "DJ") ∷ [] }
    ensures behind_a_get { answers (ghu (customer (codes "C001") ∷ []) ∷ gu (customer (codes "C003") ∷ []) ∷ dlet ∷ [])
        ≡ showing 0 ann ∷ showing 0 bob ∷ answered (codes "DJ") ∷ [] }
    ensures behind_a_replacement { answers (ghu (customer (codes "C001") ∷ []) ∷ repl eve ∷ dlet ∷ [])
        ≡ showing 0 ann ∷ answered (codes "  ") ∷ answered (codes "DJ") ∷ [] }
    ensures behind_an_insert { answers
        (ghu (customer (codes "C001") ∷ []) ∷ note (codes "C003") (codes "N3      ") ∷ dlet ∷ [])
        ≡ showing 0 ann ∷ answered (codes "  ") ∷ answered (codes "DJ") ∷ [] }
    ensures behind_a_field_call { answers (ghu (customer (codes "C001") ∷ []) ∷ fld ∷ dlet ∷ [])
        ≡ showing 0 ann ∷ answered (codes "AM") ∷ answered (codes "DJ") ∷ [] }
{}

/// A call to another database ends no hold.
pub fn a_hold_outlasts_other_databases()
    ensures { answers
        (ghu (customer (codes "C001") ∷ []) ∷ call.Get Unique false 0 (qualified 0 (codes "A001") ∷ []) ∷ repl eve ∷ [])
        ≡ showing 0 ann ∷ showing 0 (hex (codes "41303031 0000100c")) ∷ answered (codes "  ") ∷ [] }
{}

/// What stands isn't inserted again, and a transaction's own inserts stand.
pub fn what_stands_is_not_inserted()
    ensures root { answers (isrt (any_customer ∷ []) (codes "C003EVE         ") ∷ []) ≡ answered (codes "II") ∷ [] }
    ensures own { answers (isrt (any_customer ∷ []) fay ∷ isrt (any_customer ∷ []) fay ∷ [])
        ≡ answered (codes "  ") ∷ answered (codes "II") ∷ [] }
{}

/// An insert leaves the position at the new segment.
pub fn the_position_behind_an_insert()
    ensures { answers (isrt (any_customer ∷ []) fay ∷ gn (any_customer ∷ []) ∷ [])
        ≡ answered (codes "  ") ∷ showing 0 ann ∷ [] }
{}

/// Below a parent that isn't there nothing is inserted.
pub fn an_absent_parent()
    ensures loan { answers (isrt (customer (codes "C005") ∷ any_loan ∷ []) loan_one ∷ [])
        ≡ answered (codes "GE") ∷ [] }
    ensures audit { answers (note (codes "C005") (codes "N3      ") ∷ []) ≡ answered (codes "GE") ∷ [] }
{}

/// An insert names each parent by its key, and last the new type without one.
pub fn arguments_of_inserts()
    ensures none { answers (isrt [] fay ∷ []) ≡ answered (codes "AM") ∷ [] }
    ensures keyed { answers (isrt (customer (codes "C008") ∷ []) fay ∷ []) ≡ answered (codes "AM") ∷ [] }
    ensures no_parent { answers (isrt (any_loan ∷ []) loan_one ∷ []) ≡ answered (codes "AM") ∷ [] }
    ensures any_parent { answers (isrt (any_customer ∷ any_loan ∷ []) loan_one ∷ []) ≡ answered (codes "AM") ∷ [] }
    ensures asks_for_none { need_of sample_defs with_four (fresh sample_defs) (λ r. None)
        (isrt (any_loan ∷ []) loan_one)
        ≡ None }
{}

/// The arguments of a get name types on one line downwards, each at most once, and no audit by a key.
pub fn arguments_of_gets()
    ensures upwards { answers (gu (any_loan ∷ any_customer ∷ []) ∷ []) ≡ answered (codes "AM") ∷ [] }
    ensures twice { answers (gu (any_customer ∷ any_customer ∷ []) ∷ []) ≡ answered (codes "AM") ∷ [] }
    ensures side_by_side { answers (gu (any_audit ∷ any_loan ∷ []) ∷ []) ≡ answered (codes "AM") ∷ [] }
    ensures keyed_audit { answers (gu (qualified 1 (codes "N1      ") ∷ []) ∷ []) ≡ answered (codes "AM") ∷ [] }
    ensures before_the_parent { answers (gnp (qualified 1 (codes "N1      ") ∷ []) ∷ []) ≡ answered (codes "AM") ∷ [] }
    ensures asks_for_none { need_of sample_defs with_four (fresh sample_defs) (λ r. None)
        (gu (any_loan ∷ any_customer ∷ []))
        ≡ None }
{}

/// An audit is neither replaced nor deleted.
pub fn an_audit_stays()
    ensures replaced { answers
        (gu (customer (codes "C001") ∷ []) ∷ ghnp (any_audit ∷ []) ∷ repl (codes "N9      ") ∷ [])
        ≡ showing 0 ann ∷ showing 1 (codes "N2      ") ∷ answered (codes "AM") ∷ [] }
    ensures deleted { answers (gu (customer (codes "C001") ∷ []) ∷ ghnp (any_audit ∷ []) ∷ dlet ∷ [])
        ≡ showing 0 ann ∷ showing 1 (codes "N2      ") ∷ answered (codes "AM") ∷ [] }
{}

/// A segment goes with all below it, and a root that is inserted in its place has nothing below it.
pub fn a_delete_takes_all_below()
    ensures gone { answers
        (ghu (customer (codes "C001") ∷ []) ∷ dlet ∷ ghu (customer (codes "C002") ∷ []) ∷ dlet
        ∷ gu (customer (codes "C001") ∷ []) ∷ gu (any_audit ∷ []) ∷ gu (any_loan ∷ []) ∷ [])
        ≡ showing 0 ann ∷ answered (codes "  ") ∷ showing 0 dee ∷ answered (codes "  ") ∷ answered (codes "GE")
        ∷ answered (codes "GE") ∷ answered (codes "GE") ∷ [] }
    ensures anew { answers
        (ghu (customer (codes "C001") ∷ []) ∷ dlet ∷ isrt (any_customer ∷ []) eve ∷ gu (customer (codes "C001") ∷ [])
        ∷ gnp [] ∷ [])
        ≡ showing 0 ann ∷ answered (codes "  ") ∷ answered (codes "  ") ∷ showing 0 eve ∷ answered (codes "GE") ∷ [] }
    ensures committed { settlement sample_defs with_four (kept (ghu (customer (codes "C001") ∷ []) ∷ dlet ∷ []))
        ≡ Commits (and_bob (a_customer cy [] ∷ []) (dee_with_loans ∷ []) 3) }
{}

/// Behind a delete gets go on from where the segment was.
pub fn the_position_behind_a_delete()
    ensures { answers (ghu (customer (codes "C001") ∷ []) ∷ dlet ∷ gn (any_customer ∷ []) ∷ [])
        ≡ showing 0 ann ∷ answered (codes "  ") ∷ showing 0 cy ∷ [] }
{}

/// A delete of the parent forgets it.
pub fn a_delete_forgets_the_parent()
    ensures { answers (ghu (customer (codes "C001") ∷ []) ∷ dlet ∷ gnp (any_loan ∷ []) ∷ [])
        ≡ showing 0 ann ∷ answered (codes "  ") ∷ answered (codes "GP") ∷ [] }
{}

/// An audit is queued. The transaction doesn't see it, and its position stays.
pub fn a_queued_audit_is_not_seen()
    ensures { answers
        (gu (customer (codes "C001") ∷ []) ∷ note (codes "C001") (codes "N3      ") ∷ gnp (any_audit ∷ []) ∷ [])
        ≡ showing 0 ann ∷ answered (codes "  ") ∷ showing 1 (codes "N2      ") ∷ [] }
{}

/// The queued audits of a root go with it, and those of another root stay.
pub fn queued_audits_go_with_their_root()
    ensures lost { (kept
        (note (codes "C001") (codes "N3      ") ∷ ghu (customer (codes "C001") ∷ []) ∷ dlet ∷ [])).inserts
        ≡ [] }
    ensures of_another { (kept
        (note (codes "C009") (codes "N3      ") ∷ note (codes "C001") (codes "N4      ")
        ∷ ghu (customer (codes "C001") ∷ []) ∷ dlet ∷ [])).inserts
        ≡ record { dedb = 0; anchor = 6; key = codes "C009"; bytes = codes "N3      " } ∷ [] }
    ensures committed { settlement sample_defs with_four (kept
        (note (codes "C009") (codes "N3      ") ∷ note (codes "C001") (codes "N4      ")
        ∷ ghu (customer (codes "C001") ∷ []) ∷ dlet ∷ []))
        ≡ Commits (and_bob (a_customer cy (record { serial = 3; bytes = codes "N3      " } ∷ []) ∷ [])
        (dee_with_loans ∷ []) 4) }
{}
