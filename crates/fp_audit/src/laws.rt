//! Laws of an audit, each the contract of a function that does nothing.
ghost use Rattle.fp_audit.specs.Audit.{Audit};
ghost use Rattle.fp_audit.specs.Standing.{ComesNever, FindsAllLegal, FindsIllegal, HasFound, IsAt, StandsBehind};
ghost use Rattle.fp_audit.specs.Standing.{rules_in};
ghost use Rattle.fp_model.specs.History.{beginning};
ghost use Rattle.fp_model.specs.SerialHistory.{IsSerialHistory};
ghost use Rattle.fp_model.specs.declared.database.Db.{Db};
ghost use Rattle.fp_model.specs.declared.log.Entry.{Entry};
ghost use Rattle.std.specs.Prelude.{◌≡◌, ◌++◌, ◌∷◌, List, [], ℕ};

/// The entries that an auditor has found legal, one after another from the beginning on, are a serial history.
pub fn entries_found_legal_are_a_serial_history()
    ensures none { (audit : Audit) (format : ℕ)
        → IsAt audit (beginning format (rules_in audit).start)
        → HasFound audit format [] }
    ensures more { (old new : Audit) (format : ℕ) (entries : List Entry) (e : Entry)
        (found : HasFound old format entries)
        → rules_in new ≡ rules_in old
        → StandsBehind new e found.history
        → HasFound new format (entries ++ e ∷ []) }
    ensures serial { (audit : Audit) (format : ℕ) (entries : List Entry) (found : HasFound audit format entries)
        → IsSerialHistory (rules_in audit) format entries found.history.now }
{}

/// No serial history has the entries found legal and behind them one that isn't.
pub fn no_serial_history_has_an_illegal_entry()
    ensures { (audit : Audit) (format : ℕ) (entries : List Entry) (e : Entry) (found : HasFound audit format entries)
        → ComesNever (rules_in audit) found.history e
        → (rest : List Entry) (last : Db)
        → ¬ (IsSerialHistory (rules_in audit) format (entries ++ e ∷ rest) last) }
{}

/// Of any list of entries: where an auditor answers true to each, from the beginning on, they are a serial history.
/// Where it answers true up to an entry and false to that, those before it are one, and none has them and this entry.
pub fn an_audit_finds_the_first_illegal_entry()
    ensures legal { (old new : Audit) (format : ℕ) (entries : List Entry)
        → IsAt old (beginning format (rules_in old).start)
        → FindsAllLegal old entries new
        → (last : Db) × IsSerialHistory (rules_in old) format entries last }
    ensures illegal { (old new : Audit) (format : ℕ) (entries : List Entry) (e : Entry)
        → IsAt old (beginning format (rules_in old).start)
        → FindsAllLegal old entries new
        → FindsIllegal new e
        → (rest : List Entry) (last : Db)
        → ¬ (IsSerialHistory (rules_in old) format (entries ++ e ∷ rest) last) }
{}
