//! Rows of checkpoints: their bytes in both formats, and the turns that make one.
#![tactic(auto, unfolding(fp_model::specs::Spellings::be16, fp_model::specs::Spellings::be32, fp_model::specs::Spellings::be64))]

ghost use Rattle.std.specs.Prelude.{◌≡◌, ℕ, ◌^◌, ◌≤◌, List, [], ◌∷◌, ◌++◌, take, drop, replicate, codes, None};
ghost use Rattle.fp_model.specs.declared.definitions.MsdbDef.{MsdbDef};
ghost use Rattle.fp_model.specs.Spellings.{be64};
ghost use Rattle.fp_model.specs.CheckpointText.{Checkpoint, checkpoint_text, IsCheckpoint, IsOpen};
ghost use Rattle.fp_model.specs.declared.events.Event.TheVariants.{Ckpt};
ghost use Rattle.fp_model.specs.Machine.{Machine, sealed_all};
ghost use Rattle.fp_model.specs.Pending.{Pending, Nothing, Lengths, UnderWay, owed};
ghost use Rattle.fp_model.specs.Pending.{begun_at, lengths_of, after_out, after_checkpoint, after_event};
ghost use Rattle.fp_rows.specs.Hex.{hex};
ghost use Rattle.fp_rows.specs.Sample.{accts, tellers, sample_defs};
ghost use Rattle.byte_rows.specs.Checkpoints.{deposit_checkpoint, numbered_checkpoint, at_rest_in_two};
ghost use Rattle.byte_rows.specs.Checkpoints.{under_way, waiting_with, an_interval, sample_unwritten, after_outs};
ghost use Rattle.byte_rows.specs.Checkpoints.{writing, with_images, by_counts};
ghost use Rattle.fp_rows.specs.States.{sample_rules};

/// The first checkpoint after the deposit, at any gate.
pub fn the_checkpoint_after_a_deposit()
    ensures { (gate : ℕ) → checkpoint_text 1 (accts ∷ tellers ∷ []) (deposit_checkpoint gate)
        ≡ hex (codes "01 494d534650434b31 0000000000000001") ++ be64 gate ++ hex (codes
        "0000000000000001 02 0008 00000002 41303031 0000110c 41303032 0000050c 0008 00000001 54303031 00000000"
        ) }
{}

/// The databases of that checkpoint are as their definitions have them, and so is its count.
pub fn the_checkpoint_after_a_deposit_is_whole()
    ensures { (gate : ℕ) → 1 ≤ gate → gate ≤ 2 ^ 62
        → IsCheckpoint 1 (accts ∷ tellers ∷ []) (deposit_checkpoint gate) }
{}

/// A data set is open where its first byte is 1; one without bytes isn't.
pub fn which_data_sets_are_open()
    ensures empty { ¬ IsOpen [] }
    ensures closed { ¬ IsOpen (0 ∷ 1 ∷ []) }
    ensures garbage { ¬ IsOpen (17 ∷ []) }
    ensures checkpoint { (gate : ℕ) → IsOpen (checkpoint_text 1 [] (record (deposit_checkpoint gate) { msdbs = [] })) }
{}

/// In format 2 a checkpoint without terminals is that of format 1, but for its digit and eight bytes 0 behind it.
pub fn the_checkpoints_of_both_formats()
    ensures letters { (defs : List MsdbDef) (c : Checkpoint)
        → (take 9 (checkpoint_text 1 defs c) ≡ 1 ∷ codes "IMSFPCK1")
        × (take 9 (checkpoint_text 2 defs c) ≡ 1 ∷ codes "IMSFPCK2") }
    ensures rest { (defs : List MsdbDef) (c : Checkpoint) → c.lasts ≡ []
        → drop 9 (checkpoint_text 2 defs c) ≡ drop 9 (checkpoint_text 1 defs c) ++ replicate 8 0 }
{}

/// The first checkpoint after the deposit in format 2, where T1 gave it the number 1.
pub fn the_checkpoint_after_a_numbered_deposit()
    ensures { (gate : ℕ) → checkpoint_text 2 (accts ∷ tellers ∷ []) (numbered_checkpoint gate)
        ≡ hex (codes "01 494d534650434b32 0000000000000001") ++ be64 gate ++ hex (codes
        "0000000000000001 02 0008 00000002 41303031 0000110c 41303032 0000050c 0008 00000001 54303031 00000000"
        ) ++ hex (codes "0000000000000001 5431202020202020 0000000000000001 0009 5431204f4b204e4557") }
{}

/// In format 1 a checkpoint has no terminals, in format 2 it may have some.
pub fn terminals_stand_in_format_2()
    ensures one { (gate : ℕ)
        → ¬ IsCheckpoint 1 (accts ∷ tellers ∷ []) (numbered_checkpoint gate) }
    ensures two { (gate : ℕ) → 1 ≤ gate → gate ≤ 2 ^ 62
        → IsCheckpoint 2 (accts ∷ tellers ∷ []) (numbered_checkpoint gate) }
{}

/// A body of 77 bytes is written at once: with the sync of the areas, the gate's closing, the sync of the body and
/// the gate's opening there are five steps. A body of 65,537 bytes takes a piece more.
pub fn the_steps_of_a_checkpoint()
    ensures one_piece { (lengths : Lengths) (m : Machine) → lengths.body m ≡ 77 → (begun_at lengths m).left ≡ 5 }
    ensures a_whole_piece { (lengths : Lengths) (m : Machine) → lengths.body m ≡ 65536 → (begun_at lengths m).left ≡ 5 }
    ensures two_pieces { (lengths : Lengths) (m : Machine) → lengths.body m ≡ 65537 → (begun_at lengths m).left ≡ 6 }
{}

/// While nothing is owed, such a checkpoint is under way behind four OUTs, and sure behind the fifth.
pub fn a_checkpoint_is_sure_behind_its_steps()
    ensures four { (at count sealed : ℕ) (pending : List Pending) → owed count sealed pending ≡ Nothing
        → after_outs 4 sealed (waiting_with pending (under_way at count 5))
        ≡ waiting_with pending (under_way at count 1) }
    ensures five { (at count sealed : ℕ) (pending : List Pending) → owed count sealed pending ≡ Nothing
        → after_outs 5 sealed (waiting_with pending (under_way at count 5))
        ≡ record { pending = pending; checkpoint = None } }
{}

/// The sample's first checkpoint in format 2 has a body of 77 bytes, and so the same steps.
pub fn the_first_checkpoint_of_the_sample()
    ensures body { (gate : ℕ) → (lengths_of sample_defs gate).body at_rest_in_two ≡ 77 }
    ensures begun { (gate : ℕ) → sample_unwritten gate 0
        ≡ waiting_with [] (under_way gate 0 5) }
    ensures under_way { (gate : ℕ) → sample_unwritten gate 4
        ≡ waiting_with [] (under_way gate 0 1) }
    ensures sure { (gate : ℕ) → sample_unwritten gate 5
        ≡ record { pending = []; checkpoint = None } }
{}

/// An interval that waits with a change of an entry below the checkpoint's count is written first, once its newest
/// entry is sealed; until then OUT does no step of the checkpoint.
pub fn what_is_owed_comes_first()
    ensures written { after_out 2 (waiting_with (an_interval 0 1 ∷ []) (under_way 90 2 5))
        ≡ waiting_with [] (under_way 90 2 5) }
    ensures unsealed { after_out 2 (waiting_with (an_interval 1 2 ∷ []) (under_way 90 2 5))
        ≡ waiting_with (an_interval 1 2 ∷ []) (under_way 90 2 5) }
    ensures later { after_out 3 (waiting_with (an_interval 2 2 ∷ []) (under_way 90 2 5))
        ≡ waiting_with (an_interval 2 2 ∷ []) (under_way 90 2 4) }
{}

/// CKPT seals what isn't sealed, and its checkpoint has the place and the count behind that.
pub fn a_checkpoint_begins_behind_its_seals()
    ensures { after_event by_counts Ckpt (with_images (writing 1 ∷ []))
        (sealed_all sample_rules (with_images (writing 1 ∷ [])))
        (record { pending = an_interval 0 0 ∷ []; checkpoint = None })
        ≡ waiting_with (an_interval 0 0 ∷ []) (under_way 1 1 5) }
{}

/// CKPT begins none while one is under way.
pub fn one_checkpoint_at_a_time()
    ensures { (lengths : Lengths) (m : Machine) (pending : List Pending) (c : UnderWay)
        → after_checkpoint lengths m (waiting_with pending c)
        ≡ waiting_with pending c }
{}
