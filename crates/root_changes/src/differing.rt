//! Where two lists of roots differ.

ghost use Rattle.std.specs.Prelude.{◌≡◌, ◌↔◌, ◌<◌, ℕ, IsTrue, length};
ghost use Rattle.fp_model.specs.declared.database.Node.{out-Node};
ghost use Rattle.root_changes.specs.Comparing.{TellsPlace, TellsBelow};
ghost use Rattle.root_changes.specs.inside.Comparing.{joined, one_more};
ghost use Rattle.root_changes.specs.Differing.{NodesDiffer, RowDiffers, RootDiffers, HaveSameOwn};

use fp_model::{Bytes, List, Node, Root, SeqItem};

/// Where two things differ, of which each is a list, or a segment with all below it.
#[derive(Clone, Copy)]
pub enum Difference {
    /// They are the same.
    Nowhere,
    /// The segments differ themselves, and what is below them is the same.
    Itself,
    /// They differ in one segment, in the item or the row of this number.
    At(usize),
    /// They differ otherwise.
    More,
}

/// What is known of two lists where this much is known of the items so far, and this of those at a place.
fn joined(so_far: Difference, place: usize, item: Difference) -> Difference
    ensures { result ≡ joined so_far place item }
{
    match item {
        Difference::Nowhere => so_far,
        Difference::More => Difference::More,
        Difference::Itself => one_more(so_far, place),
        Difference::At(_) => one_more(so_far, place),
    }
}

/// What is known of two lists that differ at a place, where this much is known of the items so far.
fn one_more(so_far: Difference, place: usize) -> Difference
    ensures { result ≡ one_more so_far place }
{
    match so_far {
        Difference::Nowhere => Difference::At(place),
        _ => Difference::More,
    }
}

/// Whether these are the same bytes.
pub(crate) fn same_bytes(bytes: &Bytes, others: &Bytes) -> bool
    ensures { IsTrue result ↔ (bytes.now ≡ others.now) }
{
    bytes == others
}

/// Whether these are the same sequential dependent.
fn same_item(item: &SeqItem, other: &SeqItem) -> bool
    ensures { IsTrue result ↔ (item.now ≡ other.now) }
{
    item.serial == other.serial && same_bytes(&item.bytes, &other.bytes)
}

/// Whether these are the same sequential dependents.
fn same_items(items: &[SeqItem], others: &[SeqItem]) -> bool
    ensures { IsTrue result ↔ (items.now ≡ others.now) }
{
    if items.len() != others.len() {
        return false;
    }
    let mut place = 0;
    while place < items.len() {
        if !same_item(&items[place], &others[place]) {
            return false;
        }
        place += 1;
    }
    true
}

/// Where two segments differ that have these rows below them, and are the same themselves or not.
#[cycle(compares)]
fn compare_below(same: bool, rows: &[List<Node>], others: &[List<Node>]) -> Difference
    ensures { TellsBelow (IsTrue same) rows.now others.now result }
{
    let below = compare_rows(rows, others);
    if same {
        return below;
    }
    match below {
        Difference::Nowhere => Difference::Itself,
        _ => Difference::More,
    }
}

/// Where two dependents differ, each with all below it.
#[cycle(compares)]
pub fn compare_nodes(node: &Node, other: &Node) -> Difference
    ensures { TellsBelow ((out-Node node.now).bytes ≡ (out-Node other.now).bytes) (out-Node node.now).children
        (out-Node other.now).children result }
{
    compare_below(
        same_bytes(&node.bytes, &other.bytes),
        node.children.as_slice(),
        other.children.as_slice(),
    )
}

/// Where two rows of dependents differ.
#[cycle(compares)]
pub fn compare_row(row: &List<Node>, other: &List<Node>) -> Difference
    ensures tells { TellsPlace NodesDiffer row.now other.now result }
    ensures inside { (k : ℕ) → result ≡ Difference.At k → (k < length row.now) × (k < length other.now) }
{
    if row.len() != other.len() {
        return Difference::More;
    }
    let mut so_far = Difference::Nowhere;
    let mut place = 0;
    while place < row.len() {
        let item = compare_nodes(&row.as_slice()[place], &other.as_slice()[place]);
        so_far = joined(so_far, place, item);
        place += 1;
    }
    so_far
}

/// Where two lists of rows differ.
#[cycle(compares)]
fn compare_rows(rows: &[List<Node>], others: &[List<Node>]) -> Difference
    ensures { TellsPlace RowDiffers rows.now others.now result }
{
    if rows.len() != others.len() {
        return Difference::More;
    }
    let mut so_far = Difference::Nowhere;
    let mut place = 0;
    while place < rows.len() {
        let item = compare_row(&rows[place], &others[place]);
        so_far = joined(so_far, place, item);
        place += 1;
    }
    so_far
}

/// Whether two roots have the same bytes and the same sequential dependents.
pub(crate) fn same_own(root: &Root, other: &Root) -> bool
    ensures { IsTrue result ↔ HaveSameOwn root.now other.now }
{
    same_bytes(&root.bytes, &other.bytes) && same_items(root.seqs.as_slice(), other.seqs.as_slice())
}

/// Where two roots differ, each with all below it.
pub fn compare_root(root: &Root, other: &Root) -> Difference
    ensures { TellsBelow (HaveSameOwn root.now other.now) root.now.children other.now.children result }
{
    compare_below(
        same_own(root, other),
        root.children.as_slice(),
        other.children.as_slice(),
    )
}

/// Where two lists of roots differ.
pub fn compare_roots(roots: &[Root], others: &[Root]) -> Difference
    ensures tells { TellsPlace RootDiffers roots.now others.now result }
    ensures inside { (k : ℕ) → result ≡ Difference.At k → (k < length roots.now) × (k < length others.now) }
{
    if roots.len() != others.len() {
        return Difference::More;
    }
    let mut so_far = Difference::Nowhere;
    let mut place = 0;
    while place < roots.len() {
        let item = compare_root(&roots[place], &others[place]);
        so_far = joined(so_far, place, item);
        place += 1;
    }
    so_far
}
