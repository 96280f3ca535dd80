//! Laws of what the calls speak of, each the contract of a function that does nothing.
ghost use Rattle.dli_tree.specs.Descents.{AreDirect, leads_to};
ghost use Rattle.dli_tree.specs.InOrder.{are_in_order};
ghost use Rattle.fp_model.specs.Order.{Step, bytes_at};
ghost use Rattle.fp_model.specs.declared.database.Root.{Root};
ghost use Rattle.fp_model.specs.declared.definitions.SegDef.{SegDef};
ghost use Rattle.std.specs.Prelude.{◌≡◌, List, is_some, true};

/// In an anchor in order a path of direct segments leads to a segment exactly where one stands at it in the
/// hierarchical order.
pub fn a_path_leads_where_a_segment_stands()
    ensures { (types : List SegDef) (roots : List Root) (path : List Step)
        → are_in_order types roots ≡ true
        → AreDirect types path
        → leads_to types roots path ≡ is_some (bytes_at types roots path) }
{}
