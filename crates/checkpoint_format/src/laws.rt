//! What reading a checkpoint and spelling it have to do with each other.
ghost use Rattle.checkpoint_format.specs.Reading.{rest_at};
ghost use Rattle.fp_model.specs.CheckpointText.{Checkpoint, IsCheckpoint, checkpoint_rest};
ghost use Rattle.fp_model.specs.LogText.{IsBytes};
ghost use Rattle.fp_model.specs.declared.definitions.MsdbDef.{MsdbDef as DefOf};
ghost use Rattle.std.specs.List.{AllByRecursion};
ghost use Rattle.std.specs.Prelude.{◌≡◌, ◌<◌, ◌^◌, ◌++◌, ℕ, List as ListOf, Some};

/// What is read of bytes is a checkpoint that keeps the rules, and they begin with its spelling. Each such checkpoint
/// is read, whatever follows its spelling. So bytes that can't be read begin with no checkpoint.
pub fn checkpoints_are_lawful()
    ensures takes { (defs : ListOf DefOf) → (bytes : ListOf ℕ) → (x : (ℕ × Checkpoint) × ListOf ℕ)
        → AllByRecursion (λ (def : DefOf). def.length < 2 ^ 16) defs → IsBytes bytes → rest_at defs bytes ≡ Some x
        → (bytes ≡ checkpoint_rest x.0.0 defs x.0.1 ++ x.1) × IsCheckpoint x.0.0 defs x.0.1 }
    ensures again { (defs : ListOf DefOf) → (format : ℕ) → (c : Checkpoint) → (rest : ListOf ℕ)
        → AllByRecursion (λ (def : DefOf). def.length < 2 ^ 16) defs → IsCheckpoint format defs c
        → rest_at defs (checkpoint_rest format defs c ++ rest) ≡ Some ((format, c), rest) }
{}
