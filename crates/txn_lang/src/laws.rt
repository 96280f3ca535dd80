//! Laws of the grammar, each the contract of a function that does nothing.
ghost use Rattle.std.specs.List.{AllByRecursion};
ghost use Rattle.std.specs.Prelude.{◌≡◌, ◌≤◌, ℕ, List, [], true};
ghost use Rattle.fp_model.specs.declared.definitions.Defs.{Defs};
ghost use Rattle.fp_model.specs.declared.scripts.Script.{Script};
ghost use Rattle.fp_model.specs.FitCalls.{are_fit};
ghost use Rattle.fp_model.specs.Asking.{full_cost};
ghost use Rattle.fp_model.specs.WellFormed.{AreDefs};
ghost use Rattle.txn_lang.specs.declared.fault.ScriptFault.{ScriptFault};
ghost use Rattle.txn_tokens.specs.Lookups.{HaveByteNumbers};
ghost use Rattle.txn_lang.specs.Grammar.{AreScriptsOf, HasFault};
ghost use Rattle.txn_lang.specs.Suiting.{all_suit};

/// Definitions that a reader gives are ones that scripts can be read for.
pub fn definitions_have_byte_numbers()
    ensures { (defs : Defs) → AreDefs defs → HaveByteNumbers defs }
{}

/// A text is one list of scripts at most, one that is scripts has no fault, and any other has one first fault at most.
pub fn a_text_has_one_meaning()
    ensures one { (defs : Defs) (text : List ℕ) (a b : List Script) → AreScriptsOf defs text a
        → AreScriptsOf defs text b → a ≡ b }
    ensures fault { (defs : Defs) (text : List ℕ) (f g : ScriptFault) → HasFault defs text f → HasFault defs text g
        → f ≡ g }
    ensures apart { (defs : Defs) (text : List ℕ) (scripts : List Script) (f : ScriptFault)
        → AreScriptsOf defs text scripts → HasFault defs text f → ⊥ }
{}

/// Scripts that were read call databases that are defined, and segment types that these have; field calls have 1 to 255
/// search arguments, and each script takes at most 10,000 calls. Under definitions without data entry databases they
/// call main storage databases.
pub fn what_was_read_fits()
    ensures suits { (defs : Defs) (text : List ℕ) (scripts : List Script) → AreScriptsOf defs text scripts
        → AllByRecursion (λ s. all_suit defs s.statements ≡ true) scripts }
    ensures fit { (defs : Defs) (text : List ℕ) (scripts : List Script) → AreScriptsOf defs text scripts
        → defs.dedbs ≡ []
        → AllByRecursion (λ s. are_fit defs s.statements ≡ true) scripts }
    ensures cheap { (defs : Defs) (text : List ℕ) (scripts : List Script) → AreScriptsOf defs text scripts
        → AllByRecursion (λ s. full_cost s.statements ≤ 10000) scripts }
{}
