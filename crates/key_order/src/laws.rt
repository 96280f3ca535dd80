//! What a place among elements in order says.
ghost use Rattle.fp_model.specs.State.{ascend, drop_key, is_below, put_by_key};
ghost use Rattle.fp_model.specs.Texts.{same_text};
ghost use Rattle.key_order.specs.Places.{IsPlace, if_same};
ghost use Rattle.std.specs.Prelude.{◌≡◌, List as ListOf, find, map, slice_get, true, ℕ};

/// A search for a key comes to the element at the key's place, if it has the key.
pub fn a_search_finds_what_stands_at_its_place()
    ensures { (key : ListOf ℕ → ListOf ℕ) (k : ListOf ℕ) (elements : ListOf (ListOf ℕ)) (place : ℕ)
        → ascend (map key elements) ≡ true
        → IsPlace key k elements place
        → find (λ x. same_text (key x) k) elements ≡ if_same key k (slice_get elements place) }
{}

/// An element that is put in place of those of its key leaves the others in order.
pub fn an_edit_keeps_the_order()
    ensures { (key : ListOf ℕ → ListOf ℕ) (x : ListOf ℕ) (elements : ListOf (ListOf ℕ))
        → ascend (map key elements) ≡ true
        → ascend (map key (put_by_key key x (drop_key key (key x) elements))) ≡ true }
{}
