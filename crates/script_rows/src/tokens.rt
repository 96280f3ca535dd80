//! Worked rows of tokens. Each is the contract of a function that does nothing.
#![tactic(auto, unfolding(txn_tokens::specs::Readings::all_by, txn_tokens::specs::Tokens::letter_token, txn_tokens::specs::Tokens::number_token, txn_tokens::specs::Tokens::text_token, txn_tokens::specs::Tokens::hash_token, txn_tokens::specs::Tokens::token_at, txn_tokens::specs::Tokens::spaced_token_at, txn_tokens::specs::Tokens::tokens_of))]

ghost use Rattle.std.specs.Prelude.{◌≡◌, ◌∷◌, [], codes, pos, negsuc, true, false, Ok, Err};
ghost use Rattle.txn_tokens.specs.declared.fault.LineFault.TheVariants as line_fault;
ghost use Rattle.txn_tokens.specs.declared.token.Token.TheVariants as token;
ghost use Rattle.txn_tokens.specs.Tokens.{tokens_of};

/// The tokens of a field call.
pub fn a_field_call_has_these_tokens()
    ensures { tokens_of (codes "FLD ACCTS KEY(#1) BAL + #2")
        ≡ Ok (token.Word (record { 0 = codes "FLD     " }) false ∷ token.Word (record { 0 = codes "ACCTS   " }) false
        ∷ token.Word (record { 0 = codes "KEY     " }) false ∷ token.Sign 40 ∷ token.Hash 1 ∷ token.Sign 41
        ∷ token.Word (record { 0 = codes "BAL     " }) false ∷ token.Sign 43 ∷ token.Hash 2 ∷ []) }
{}

/// Tokens are read longest first.
pub fn tokens_need_no_blanks()
    ensures letters { tokens_of (codes "5B#12--7A=IO.F") ≡ Ok (token.Number (pos 5)
        ∷ token.Word (record { 0 = codes "B       " }) false
        ∷ token.Hash 1 ∷ token.Number (pos 2) ∷ token.Sign 45 ∷ token.Number (negsuc 6)
        ∷ token.Word (record { 0 = codes "A       " }) true
        ∷ token.Sign 61 ∷ token.Field (record { 0 = codes "F       " }) ∷ []) }
    ensures nine { tokens_of (codes "ABCDEFGHI") ≡ Err line_fault.Syntax }
{}
