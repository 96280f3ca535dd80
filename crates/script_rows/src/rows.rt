//! Worked rows of the grammar: texts of the sample, and faults. Each is the contract of a function that does nothing.
#![tactic(auto, unfolding(txn_tokens::specs::Readings::all_by, txn_tokens::specs::Tokens::letter_token, txn_tokens::specs::Tokens::number_token, txn_tokens::specs::Tokens::text_token, txn_tokens::specs::Tokens::hash_token, txn_tokens::specs::Tokens::token_at, txn_tokens::specs::Tokens::spaced_token_at, txn_tokens::specs::Tokens::tokens_of, txn_tokens::specs::Parts::word_at, txn_tokens::specs::Parts::sign_at, txn_tokens::specs::Parts::variable_at, txn_tokens::specs::Parts::operand_at, txn_tokens::specs::Parts::operation_at, txn_tokens::specs::Parts::comparison_at, txn_tokens::specs::Parts::count_at, txn_tokens::specs::Parts::bracket_at, txn_tokens::specs::Parts::key_at, txn_tokens::specs::Parts::key_behind, txn_tokens::specs::Parts::ssa_at, txn_tokens::specs::Parts::fsa_op_at, txn_tokens::specs::Parts::fsa_at, txn_tokens::specs::Parts::field_at, txn_tokens::specs::Parts::operands_in, txn_tokens::specs::Parts::fsas_in, txn_tokens::specs::Parts::fields_in, txn_tokens::specs::Lookups::db_of, txn_tokens::specs::Lookups::dedb_ssas, txn_tokens::specs::Lookups::get_ssas, txn_tokens::specs::Lookups::isrt_ssas, txn_tokens::specs::Lookups::isrt_fields, txn_lang::specs::Statements::keywords, txn_lang::specs::Statements::keyword_at, txn_lang::specs::Statements::set_rest, txn_lang::specs::Statements::set_line, txn_lang::specs::Statements::if_line, txn_lang::specs::Statements::get_line, txn_lang::specs::Statements::fld_line, txn_lang::specs::Statements::isrt_line, txn_lang::specs::Statements::repl_line, txn_lang::specs::Statements::dlet_line, txn_lang::specs::Statements::line_behind, txn_lang::specs::Blocks::stands, txn_lang::specs::Grammar::statement_in, txn_lang::specs::Grammar::line_in, txn_lang::specs::Grammar::lines_in, txn_lang::specs::Grammar::scripts_fault))]

ghost use Rattle.std.specs.Prelude.{◌≡◌, ◌++◌, [], ◌∷◌, codes, flat_map, Err};
ghost use Rattle.fp_rows.specs.Hex.{with_newline, named};
ghost use Rattle.fp_rows.specs.Sample.{sample_defs, sample_scripts, scripts_text, deposit_script, showc_script};
ghost use Rattle.txn_lang.specs.declared.fault.ScriptFault.TheVariants as fault;
ghost use Rattle.txn_lang.specs.Blocks.{at_top};
ghost use Rattle.txn_lang.specs.Grammar.{AreScriptsOf, HasFault, text_in};

/// DEPOSIT of the sample is that script.
pub fn deposit_is_a_script()
    ensures { AreScriptsOf sample_defs (flat_map with_newline (
        codes "TRAN DEPOSIT" ∷ codes "FLD ACCTS KEY(#1) BAL + #2" ∷ codes "IF STATUS NE ''" ∷ codes "ROLB 1"
        ∷ codes "END"
        ∷ codes "REPLY 'NEW'" ∷ [])) (deposit_script ∷ []) }
{}

/// SHOWC of the sample, a loop with a choice in it, is that script.
pub fn showc_is_a_script()
    ensures { AreScriptsOf sample_defs (flat_map with_newline (
        codes "TRAN SHOWC" ∷ codes "GU CUST CUSTOMER(#1)" ∷ codes "IF STATUS NE ''" ∷ codes "ROLB 4" ∷ codes "END"
        ∷ codes "SET OUT IO.NAME" ∷ codes "REPEAT 10" ∷ codes "GNP CUST AUDIT" ∷ codes "IF STATUS NE ''" ∷ codes "BREAK"
        ∷ codes "END" ∷ codes "SET OUT OUT & ' '" ∷ codes "SET OUT OUT & IO.WHAT" ∷ codes "END"
        ∷ codes "REPLY OUT" ∷ []))
        (showc_script ∷ []) }
{}

/// The sample is its scripts.
pub fn the_sample_is_its_scripts()
    ensures { AreScriptsOf sample_defs scripts_text sample_scripts }
{}

/// The first line with a fault is the one that counts, and what a line says comes before what its names are.
pub fn faults_of_lines()
    ensures bogus { text_in sample_defs (flat_map with_newline (codes "TRAN A" ∷ codes "BOGUS" ∷ codes "GU NOPE" ∷ []))
        ≡ Err (fault.Syntax 2) }
    ensures unknown { text_in sample_defs (flat_map with_newline
        (codes "TRAN A" ∷ codes "GU NOPE" ∷ codes "BOGUS" ∷ []))
        ≡ Err (fault.UnknownName 2) }
    ensures both { text_in sample_defs (flat_map with_newline (codes "TRAN A" ∷ codes "GU NOPE KEY(" ∷ []))
        ≡ Err (fault.Syntax 2) }
    ensures outside { text_in sample_defs (flat_map with_newline (codes "* comment" ∷ codes "GU NOPE" ∷ []))
        ≡ Err (fault.Syntax 2) }
    ensures other_ssa { text_in sample_defs (flat_map with_newline (codes "TRAN A" ∷ codes "GU ACCTS ACCTS" ∷ []))
        ≡ Err (fault.Syntax 2) }
    ensures key_of_dedb { text_in sample_defs (flat_map with_newline (codes "TRAN A" ∷ codes "GU CUST KEY(#1)" ∷ []))
        ≡ Err (fault.UnknownName 2) }
    ensures field { text_in sample_defs (flat_map with_newline
        (codes "TRAN A" ∷ codes "ISRT TELLERS TNO=#1 BAL=0" ∷ []))
        ≡ Err (fault.UnknownName 2) }
    ensures any_field { text_in sample_defs (flat_map with_newline (codes "TRAN A" ∷ codes "SET B IO.NOPE" ∷ []))
        ≡ Err (fault.UnknownName 2) }
    ensures stray { text_in sample_defs (flat_map with_newline (codes "TRAN A" ∷ codes "IF 1 EQ 1" ∷ codes "TRAN B"
        ∷ codes "END" ∷ []))
        ≡ Err (fault.Syntax 4) }
    ensures loose { text_in sample_defs (flat_map with_newline (codes "TRAN A" ∷ codes "ISRT TELLERS TNO =#1" ∷ []))
        ≡ Err (fault.Syntax 2) }
{}

/// A block without END is found behind all lines, at its first line.
pub fn an_open_block_is_a_fault()
    ensures { HasFault sample_defs (flat_map with_newline (
        codes "TRAN A" ∷ codes "IF 1 EQ 1" ∷ codes "REPEAT 2" ∷ codes "TRAN B" ∷ codes "REPEAT 3"
        ∷ [])) (fault.Syntax 2) }
{}

/// A name that an earlier transaction has; the second script is too dear, but that comes later.
pub fn a_name_twice_is_a_fault()
    ensures { HasFault sample_defs (flat_map with_newline (
        codes "TRAN A" ∷ codes "TRAN A" ∷ codes "REPEAT 10000" ∷ codes "BREAK" ∷ codes "END"
        ∷ [])) (fault.Twice (named (codes "A"))) }
{}

/// A loop of 9,998 with one statement costs 10,000 with its TRAN line, and one of 9,999 is too dear.
pub fn a_dear_script_is_a_fault()
    ensures { HasFault sample_defs (flat_map with_newline (
        codes "TRAN A" ∷ codes "REPEAT 9999" ∷ codes "BREAK" ∷ codes "END"
        ∷ [])) (fault.TooDear (named (codes "A")) 10001) }
{}
