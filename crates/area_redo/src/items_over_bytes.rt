//! What lists of items make of the bytes of intervals.
ghost use Rattle.std.specs.Prelude.{◌≡◌, ◌⊎◌, ℕ, ◌-◌, ◌<◌, ◌≤◌, Bool, true, false, ◌||◌, List, [], ◌∷◌, ◌++◌, length, get_or, take, drop};
ghost use Rattle.fp_site.specs.Disk.{written};
ghost use Rattle.fp_model.specs.declared.log.Entry.{Entry};
ghost use Rattle.fp_model.specs.declared.log.Item.{Item};
ghost use Rattle.fp_model.specs.ItemTargets.{names_interval};
ghost use Rattle.fp_model.specs.Items.{is_image, begins_with_image, items_of};
ghost use Rattle.area_redo.specs.Redo.{AreaBytes, Layout, names, put, redone_at, redone, AllBegin, ComesWhole, GrowByImages};
ghost use Rattle.area_redo.specs.Standing.{Way, behind, Owed, Owes, BeginsSinceMark};
ghost use Rattle.area_redo.specs.Steps.{longer, AreItemsOf, AreImaged};

/// An interval that no item names stays as it was. One whose first item is an image is the same whatever stood there.
pub fn an_interval_stays_or_comes_whole()
    ensures stays { (set ci : ℕ) (items : List Item) (old : List ℕ)
        → names set ci items ≡ false
        → redone_at set ci items old ≡ old }
    ensures whole { (set ci : ℕ) (items : List Item) (a b : List ℕ)
        → ComesWhole set ci items
        → redone_at set ci items a ≡ redone_at set ci items b }
{}

/// One list of items may be written after another. Items that begin with an image may be written twice. Entries one
/// after another give what their items in one list give.
pub fn items_go_on()
    ensures more { (set ci : ℕ) (items more : List Item) (old : List ℕ)
        → redone_at set ci (items ++ more) old ≡ redone_at set ci more (redone_at set ci items old) }
    ensures twice { (set ci : ℕ) (items : List Item) (old : List ℕ)
        → begins_with_image set ci items ≡ true
        → redone_at set ci items (redone_at set ci items old) ≡ redone_at set ci items old }
    ensures entries { (entries : List Entry) (bytes : AreaBytes) (set ci : ℕ)
        → behind entries bytes set ci ≡ redone (items_of entries) bytes set ci }
{}

/// A list in which each range has an image before it goes on so by an image, and by a range of an interval that it
/// names; by another range it doesn't. Its first parts are such lists.
pub fn a_range_follows_an_image()
    ensures goes_on { (items : List Item) (item : Item)
        → AllBegin items
        → ((set ci : ℕ) → names_interval set ci item ≡ true → is_image item ≡ false → names set ci items ≡ true)
        → AllBegin (items ++ item ∷ []) }
    ensures not_so { (set ci : ℕ) (items : List Item) (item : Item)
        → names_interval set ci item ≡ true
        → is_image item ≡ false
        → names set ci items ≡ false
        → begins_with_image set ci (items ++ item ∷ []) ≡ false }
    ensures first { (items more : List Item) → AllBegin (items ++ more) → AllBegin items }
{}

/// The bytes in which an interval differs, written over it as a range, give the new interval. An item more makes that
/// of its own interval, and nothing of the others.
pub fn a_range_gives_the_new_interval()
    ensures range { (old new : List ℕ) (first last : ℕ)
        → length old ≡ length new
        → first ≤ last
        → last ≤ length new
        → ((i : ℕ) → (i < first) ⊎ (last ≤ i) → get_or old i 0 ≡ get_or new i 0)
        → written old first (take (last - first) (drop first new)) ≡ new }
    ensures own { (set ci : ℕ) (items : List Item) (item : Item) (old : List ℕ)
        → names set ci items ≡ false
        → names_interval set ci item ≡ true
        → redone_at set ci (items ++ item ∷ []) old ≡ put item old }
    ensures others { (set ci : ℕ) (items : List Item) (item : Item) (old : List ℕ)
        → names_interval set ci item ≡ false
        → redone_at set ci (items ++ item ∷ []) old ≡ redone_at set ci items old }
{}

/// The items of staged changes are as an entry needs them: an interval without an image since the mark, and each that
/// is new in its area, comes with an image. Behind the entry those with an image since the mark are those that had one
/// and those that it names.
pub fn staged_items_make_an_entry()
    ensures begins { (layout : Layout) (way : Way) (is_imaged : ℕ → ℕ → Bool) (newest staged : AreaBytes) (e : Entry)
        → AreItemsOf layout is_imaged newest staged e.items
        → AreImaged way is_imaged
        → BeginsSinceMark way e }
    ensures grows { (layout : Layout) (is_imaged : ℕ → ℕ → Bool) (newest staged : AreaBytes) (e : Entry)
        → AreItemsOf layout is_imaged newest staged e.items
        → GrowByImages layout e.items newest }
    ensures images { (way : Way) (owed : Owed) (is_imaged : ℕ → ℕ → Bool) (e : Entry)
        → Owes way owed
        → AreImaged way is_imaged
        → AreImaged (longer way e) (λ set ci. is_imaged set ci || names set ci e.items) }
{}
