//! The law on one log.
ghost use Rattle.fp_model.specs.declared.database.Db.{Db};
ghost use Rattle.fp_model.specs.declared.definitions.Defs.{Defs};
ghost use Rattle.fp_model.specs.declared.log.Entry.{Entry};
ghost use Rattle.fp_model.specs.declared.scripts.Script.{Script};
ghost use Rattle.fp_model.specs.Product.{rules_of};
ghost use Rattle.fp_model.specs.SerialHistory.{IsSerialHistory};
ghost use Rattle.number_laws.specs.Once.{IsOnce};
ghost use Rattle.std.specs.Prelude.{ℕ, List};

/// In a serial history at most one entry uses up a number of a terminal, and each Repeat has the reply line of the
/// entry that used up its number, which stands before it.
pub fn a_number_is_used_once()
    ensures { (defs : Defs) (scripts : List Script) (format : ℕ) (entries : List Entry) (last : Db)
        → IsSerialHistory (rules_of defs scripts) format entries last → IsOnce format entries }
{}
