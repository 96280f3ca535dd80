//! What reading and writing have to do with each other, each law the contract of a function that does nothing.
ghost use Rattle.fp_model.specs.Numbers.{bytes_of, number};
ghost use Rattle.fp_model.specs.declared.definitions.FieldKind.{FieldKind};
ghost use Rattle.byte_rows.specs.Preferred.{preferred};
ghost use Rattle.std.specs.Prelude.{◌≡◌, ◌<◌, ℕ, ℤ, List, Some, length, slice_index};

/// The form of a number in a field fills the field, and is read as that number.
pub fn what_is_written_reads_back()
    ensures { (kind : FieldKind) (size : ℕ) (n : ℤ) (form : List ℕ)
        → bytes_of kind size n ≡ Some form
        → (length form ≡ size) × (number kind form ≡ Some n) }
{}

/// A number that is read fits the field that it stands in, and its form there is the bytes that were read, but that
/// a packed sign may become the preferred one.
pub fn what_is_read_is_written_in_its_preferred_form()
    ensures { (kind : FieldKind) (bytes : List ℕ) (n : ℤ)
        → ((i : ℕ) → slice_index bytes i < 256)
        → number kind bytes ≡ Some n
        → bytes_of kind (length bytes) n ≡ Some (preferred kind n bytes) }
{}
