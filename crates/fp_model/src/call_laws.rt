//! Laws of field search arguments and of programs, each the contract of a function that does nothing.
ghost use Rattle.std.specs.Prelude.{◌≡◌, ◌<◌, ℕ, List, length, All, is_none};
ghost use Rattle.fp_model.specs.declared.definitions.Defs.{Defs};
ghost use Rattle.fp_model.specs.declared.definitions.MsdbDef.{MsdbDef};
ghost use Rattle.fp_model.specs.declared.calls.Message.{Message};
ghost use Rattle.fp_model.specs.declared.calls.Answer.{Answer};
ghost use Rattle.fp_model.specs.declared.calls.Call.{Call};
ghost use Rattle.fp_model.specs.declared.scripts.Statement.{Statement};
ghost use Rattle.fp_model.specs.Fsas.{Fsa, IsFsa, Whole, list_text, fsas_of, list_on, all_blank, first_failure};
ghost use Rattle.fp_model.specs.Asking.{Asks, ask, full_cost};

/// A list of field search arguments is read as it was written.
pub fn a_written_list_is_read()
    ensures { (fsas : List Fsa)
        → All IsFsa fsas
        → 0 < length fsas
        → fsas_of (list_text fsas) ≡ Whole fsas }
{}

/// None of a list fails at the sync point exactly where every letter is blank.
pub fn nothing_fails_where_all_is_blank()
    ensures { (def : MsdbDef) (place : ℕ) (fsas : List Fsa) (segment : List ℕ)
        → is_none (first_failure def place fsas segment) ≡ all_blank (list_on def fsas segment).letters }
{}

/// A script that asks a call was answered fewer calls than it costs, whatever the answers were.
pub fn calls_are_fewer_than_the_cost()
    ensures { (defs : Defs) (statements : List Statement) (message : Message) (answers : List Answer) (asked : Call)
        → ask defs statements message answers ≡ Asks asked
        → length answers < full_cost statements }
{}
