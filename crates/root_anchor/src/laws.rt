//! Laws of the chains of an area, each the contract of a function that does nothing.

ghost use Rattle.std.specs.Prelude.{◌≡◌, ◌<◌, ℕ, List, Contains, Some, slice_get};
ghost use Rattle.ci_space.specs.declared.intervals.Shape.{Shape};
ghost use Rattle.ci_overflow.specs.Lists.{IsInPlace};
ghost use Rattle.ci_overflow.specs.Places.{base_of};
ghost use Rattle.fp_model.specs.declared.definitions.SegDef.{SegDef};
ghost use Rattle.fp_model.specs.declared.database.Root.{Root};
ghost use Rattle.anchor_elements.specs.Elements.{Pointer, Segment, HasSegment};
ghost use Rattle.root_anchor.specs.Chains.{anchor_count, newest, root_of, IsChain};
ghost use Rattle.root_anchor.specs.Damage.{ChainFails};
ghost use Rattle.root_anchor.specs.Formed.{HasChain, IsFormed};
ghost use Rattle.root_anchor.specs.Newest.{SetsNewest, with_newest};
ghost use Rattle.root_anchor.specs.Stored.{OthersKeep};
ghost use Rattle.root_anchor.specs.Roots.{HasRootAt};
ghost use Rattle.root_anchor.specs.declared.places.RootPlace.{RootPlace};

/// An element says one thing.
pub fn an_element_has_one_segment()
    ensures { (types : List SegDef) (area : List (List ℕ)) (type : ℕ) (at : Pointer) (s t : Segment)
        → HasSegment types area type at s
        → HasSegment types area type at t
        → s ≡ t }
{}

/// An anchor has one list of roots, in one list of elements.
pub fn an_anchor_has_one_chain()
    ensures roots { (shape : Shape) (types : List SegDef) (area : List (List ℕ)) (anchor : ℕ) (roots others : List Root)
        (elements more : List Pointer)
        → IsChain shape types area anchor roots elements
        → IsChain shape types area anchor others more
        → roots ≡ others }
    ensures elements { (shape : Shape) (types : List SegDef) (area : List (List ℕ)) (anchor : ℕ)
        (roots others : List Root) (elements more : List Pointer)
        → IsChain shape types area anchor roots elements
        → IsChain shape types area anchor others more
        → elements ≡ more }
{}

/// Where an anchor's chain stands, none of its pointers is wrong.
pub fn a_chain_that_stands_does_not_fail()
    ensures { (shape : Shape) (types : List SegDef) (area : List (List ℕ)) (anchor ci : ℕ)
        → HasChain shape types area anchor
        → ¬ ChainFails shape types area anchor ci }
{}

/// Where the pointers of an anchor give no roots, one interval is damaged.
pub fn one_interval_is_damaged()
    ensures { (shape : Shape) (types : List SegDef) (area : List (List ℕ)) (anchor ci other : ℕ)
        → ChainFails shape types area anchor ci
        → ChainFails shape types area anchor other
        → ci ≡ other }
{}

/// A segment stands in each element of an anchor's roots.
pub fn each_element_has_a_segment()
    ensures { (shape : Shape) (types : List SegDef) (area : List (List ℕ)) (anchor : ℕ) (roots : List Root)
        (elements : List Pointer) (at : Pointer)
        → IsChain shape types area anchor roots elements
        → Contains elements at
        → (type : ℕ) × ((s : Segment) × HasSegment types area type at s) }
{}

/// An anchor keeps its roots where its root anchor point and its elements stay.
pub fn a_chain_stays_with_its_elements()
    ensures { (shape : Shape) (types : List SegDef) (old new : List (List ℕ)) (anchor : ℕ) (roots : List Root)
        (elements : List Pointer)
        → IsChain shape types old anchor roots elements
        → IsInPlace shape new (base_of shape anchor)
        → root_of shape new anchor ≡ root_of shape old anchor
        → ((at : Pointer) (type : ℕ) (s : Segment) → Contains elements at → HasSegment types old type at s
        → HasSegment types new type at s)
        → IsChain shape types new anchor roots elements }
{}

/// The root that stands at a place has that number in the anchor's list, and its newest serial there.
pub fn a_root_at_a_place_is_that_of_the_chain()
    ensures { (shape : Shape) (types : List SegDef) (area : List (List ℕ)) (anchor number : ℕ) (place : RootPlace)
        (roots : List Root) (elements : List Pointer)
        → IsChain shape types area anchor roots elements
        → HasRootAt shape types area anchor number place
        → (root : Root) × ((slice_get roots number ≡ Some root) × (root.seqs ≡ newest place.newest)) }
{}

/// Where a newest serial was set, the anchor has its roots with it, in the same elements. In a formed area every other
/// anchor keeps its roots, and the area is formed again.
pub fn a_newest_serial_that_is_set_is_there()
    ensures roots { (shape : Shape) (types : List SegDef) (old new : List (List ℕ)) (anchor number serial : ℕ)
        (roots : List Root) (elements : List Pointer)
        → SetsNewest shape types old new anchor number serial
        → IsChain shape types old anchor roots elements
        → IsChain shape types new anchor (with_newest number serial roots) elements }
    ensures others { (shape : Shape) (types : List SegDef) (old new : List (List ℕ)) (anchor number serial : ℕ)
        → SetsNewest shape types old new anchor number serial
        → IsFormed shape types old
        → anchor < anchor_count shape
        → OthersKeep shape types old new anchor }
    ensures formed { (shape : Shape) (types : List SegDef) (old new : List (List ℕ)) (anchor number serial : ℕ)
        → SetsNewest shape types old new anchor number serial
        → IsFormed shape types old
        → anchor < anchor_count shape
        → IsFormed shape types new }
{}
