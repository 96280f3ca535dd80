//! Laws of the formats, each the contract of a function that does nothing.
//!
//! Entries: one reading of each spelling, and no spelling that begins another. Bodies: the same of entries one
//! after another. Groups: one reading of a log, and what is damage behind an open gate.
ghost use Rattle.fp_model.specs.Groups.{IsBody, IsDamaged, IsGroup, LogReading, Reads};
ghost use Rattle.fp_model.specs.LogText.{HasSpelling, body_text, entry_text, group_text};
ghost use Rattle.fp_model.specs.Spellings.{be16, be32, be64, long_text, part_text, short_text};
ghost use Rattle.fp_model.specs.declared.log.Entry.{Entry};
ghost use Rattle.log_format.specs.EntryReading.{entry_at};
ghost use Rattle.log_format.specs.Faults.{IsFirstBad, Spells};
ghost use Rattle.log_format.specs.Laws.{IsShorter, Lawful, counted_text};
ghost use Rattle.log_format.specs.Reading.{byte_at, counted_at, long_at, number_at, part_text_at, short_at};
ghost use Rattle.std.specs.Int.{w16, w32, w64};
ghost use Rattle.std.specs.List.{AllByRecursion};
ghost use Rattle.std.specs.Prelude.{◌≡◌, ◌≢◌, ◌<◌, ◌^◌, ◌++◌, ℕ, List, Option, [], ◌∷◌, drop, length};

/// Numbers in a fixed width, and texts behind their length, are read as they were written, and read in no other
/// way.
pub fn fields_are_lawful()
    ensures byte { Lawful ℕ (λ n. n ∷ []) byte_at (λ n. n < 2 ^ 8) }
    ensures two { Lawful ℕ be16 (number_at w16) (λ n. n < 2 ^ 16) }
    ensures four { Lawful ℕ be32 (number_at w32) (λ n. n < 2 ^ 32) }
    ensures eight { Lawful ℕ be64 (number_at w64) (λ n. n < 2 ^ 64) }
    ensures short { Lawful (List ℕ) short_text short_at (IsShorter (2 ^ 8)) }
    ensures long { Lawful (List ℕ) long_text long_at (IsShorter (2 ^ 16)) }
    ensures part { Lawful (List ℕ) part_text part_text_at (IsShorter (2 ^ 32)) }
{}

/// Numbers behind their count are read as they were written, and read in no other way.
pub fn counted_numbers_are_lawful()
    ensures { Lawful (List ℕ) (counted_text be64) (counted_at (number_at w64))
        (λ ns. (length ns < 2 ^ 32) × AllByRecursion (λ n. n < 2 ^ 64) ns) }
{}

/// An entry is read as it was written, and from nothing else: its bytes are its one spelling.
pub fn entries_are_lawful()
    ensures { Lawful Entry entry_text entry_at HasSpelling }
{}

/// Bytes begin with at most one entry. So two entries are spelled apart, and no spelling begins another.
pub fn no_spelling_begins_another()
    ensures { (e f : Entry) (more rest : List ℕ)
        → HasSpelling e
        → HasSpelling f
        → entry_text e ++ more ≡ entry_text f ++ rest
        → (e ≡ f) × (more ≡ rest) }
{}

/// Bytes are the spellings of at most one list of entries, so what was written is what is read.
pub fn a_body_reads_in_one_way()
    ensures same { (bytes : List ℕ) (entries found : List Entry) → Spells bytes entries → Spells bytes found
        → found ≡ entries }
    ensures written { (entries found : List Entry)
        → AllByRecursion HasSpelling entries
        → Spells (body_text entries) found
        → found ≡ entries }
{}

/// Bytes are entries or have one place where the first stands that is none, and not both.
pub fn the_first_bad_place_is_one()
    ensures apart { (bytes : List ℕ) (place : ℕ) (entries : List Entry) → IsFirstBad bytes place → Spells bytes entries
        → ⊥ }
    ensures one { (bytes : List ℕ) (place place2 : ℕ) → IsFirstBad bytes place → IsFirstBad bytes place2
        → place ≡ place2 }
{}

/// A body is some entries one after another, in fewer than 2^64 bytes.
pub fn a_body_is_some_entries()
    ensures made { (bytes : List ℕ) (entries : List Entry) → Spells bytes entries → bytes ≢ [] → length bytes < 2 ^ 64
        → IsBody bytes entries }
    ensures spelled { (bytes : List ℕ) (entries : List Entry) → IsBody bytes entries → Spells bytes entries }
{}

/// Bytes begin with at most one group.
pub fn no_group_begins_another()
    ensures { (entries found : List Entry) (more rest : List ℕ)
        → IsGroup entries
        → IsGroup found
        → group_text entries ++ more ≡ group_text found ++ rest
        → (entries ≡ found) × (more ≡ rest) }
{}

/// Reading a log from a gate on comes to one thing at most.
pub fn a_log_reads_in_one_way()
    ensures { (bytes : List ℕ) (at : ℕ) (reading other : LogReading) → Reads bytes at reading → Reads bytes at other
        → reading ≡ other }
{}

/// An open gate is damage where too few bytes for a length follow, where the length passes the end of the
/// bytes, and where so many bytes are no body.
pub fn an_open_gate_without_a_body_is_damage()
    ensures no_length { (bytes : List ℕ) (at : ℕ) (rest : List ℕ)
        → drop at bytes ≡ 1 ∷ rest
        → length rest < 8
        → IsDamaged bytes at }
    ensures past_end { (bytes : List ℕ) (at size : ℕ) (rest : List ℕ)
        → drop at bytes ≡ 1 ∷ be64 size ++ rest
        → size < 2 ^ 64
        → length rest < size
        → IsDamaged bytes at }
    ensures no_body { (bytes : List ℕ) (at size : ℕ) (body rest : List ℕ)
        → drop at bytes ≡ 1 ∷ be64 size ++ body ++ rest
        → size < 2 ^ 64
        → length body ≡ size
        → ((entries : List Entry) → IsBody body entries → ⊥)
        → IsDamaged bytes at }
    ensures empty { (entries : List Entry) → IsBody [] entries → ⊥ }
{}
