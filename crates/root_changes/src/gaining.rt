//! Where one list of roots has one segment more than another.
//!
//! Two lists are gone through side by side up to the first place where they aren't the same. Behind it, or behind the
//! new item, they are to be the same again.

ghost use Rattle.std.specs.Prelude.{◌≡◌, ◌↔◌, ◌<◌, ℕ, IsTrue, length};
ghost use Rattle.fp_model.specs.declared.database.Node.{out-Node};
ghost use Rattle.root_changes.specs.Differing.{HaveSameOwn};
ghost use Rattle.root_changes.specs.Gaining.{AreBare};
ghost use Rattle.root_changes.specs.Telling.{TellsRowGain, TellsRootGain};
ghost use Rattle.root_changes.specs.inside.Telling.{BeginAlike, TellsWithin, TellsNew};

use crate::differing::{
    Difference, compare_nodes, compare_root, compare_row, same_bytes, same_own,
};
use fp_model::{List, Node, Root};

/// How a list has one segment more than another.
#[derive(Clone, Copy)]
pub enum Gain {
    /// It has an item more, at this place, with nothing below it.
    New(usize),
    /// They differ in the item at a place alone, and of what is below it in the row of a number alone: that one has one
    /// segment more.
    Within(usize, usize),
    /// It has not.
    Not,
}

/// How many dependents two lists begin with in common, each with all below it.
fn common_nodes(row: &[Node], other: &[Node]) -> usize
    ensures { BeginAlike row.now other.now result }
{
    let mut place = 0;
    while place < row.len() && place < other.len() {
        match compare_nodes(&row[place], &other[place]) {
            Difference::Nowhere => place += 1,
            _ => return place,
        }
    }
    place
}

/// How many rows two lists begin with in common.
fn common_rows(rows: &[List<Node>], others: &[List<Node>]) -> usize
    ensures { BeginAlike rows.now others.now result }
{
    let mut place = 0;
    while place < rows.len() && place < others.len() {
        match compare_row(&rows[place], &others[place]) {
            Difference::Nowhere => place += 1,
            _ => return place,
        }
    }
    place
}

/// How many roots two lists begin with in common, each with all below it.
fn common_roots(roots: &[Root], others: &[Root]) -> usize
    ensures { BeginAlike roots.now others.now result }
{
    let mut place = 0;
    while place < roots.len() && place < others.len() {
        match compare_root(&roots[place], &others[place]) {
            Difference::Nowhere => place += 1,
            _ => return place,
        }
    }
    place
}

/// Whether each of these rows is empty.
fn are_bare(rows: &[List<Node>]) -> bool
    ensures { IsTrue result ↔ AreBare rows.now }
{
    let mut place = 0;
    while place < rows.len() {
        if !rows[place].is_empty() {
            return false;
        }
        place += 1;
    }
    true
}

/// What a new item at a place is that has these rows below it, where so many of the items left behind it are the same.
fn gain_new(place: usize, same: usize, left: usize, rows: &[List<Node>]) -> Gain
    ensures { TellsNew (same ≡ left) place rows.now result }
{
    if same == left && are_bare(rows) {
        return Gain::New(place);
    }
    Gain::Not
}

/// What two items at a place gain that have these rows below them, and are the same themselves or not.
#[cycle(gains)]
fn gain_within(same: bool, place: usize, rows: &[List<Node>], others: &[List<Node>]) -> Gain
    ensures { TellsWithin (IsTrue same) place rows.now others.now result }
{
    if !same {
        return Gain::Not;
    }
    if rows.len() != others.len() {
        return Gain::Not;
    }
    let number = common_rows(rows, others);
    if number == rows.len() {
        return Gain::Not;
    }
    let rest = common_rows(&rows[number + 1..], &others[number + 1..]);
    if number + 1 + rest != rows.len() {
        return Gain::Not;
    }
    match gain_of_row(&rows[number], &others[number]) {
        Gain::Not => Gain::Not,
        _ => Gain::Within(place, number),
    }
}

/// How a row of dependents has one segment more than another.
#[cycle(gains)]
pub fn gain_of_row(row: &List<Node>, other: &List<Node>) -> Gain
    ensures tells { TellsRowGain row.now other.now result }
{
    let row = row.as_slice();
    let other = other.as_slice();
    let place = common_nodes(row, other);
    if row.len() + 1 == other.len() {
        let rest = common_nodes(&row[place..], &other[place + 1..]);
        return gain_new(
            place,
            rest,
            row.len() - place,
            other[place].children.as_slice(),
        );
    }
    if row.len() != other.len() {
        return Gain::Not;
    }
    if place == row.len() {
        return Gain::Not;
    }
    let rest = common_nodes(&row[place + 1..], &other[place + 1..]);
    if place + 1 + rest != row.len() {
        return Gain::Not;
    }
    let node = &row[place];
    let more = &other[place];
    gain_within(
        same_bytes(&node.bytes, &more.bytes),
        place,
        node.children.as_slice(),
        more.children.as_slice(),
    )
}

/// How a list of roots has one segment more than another.
pub fn gain_of_roots(roots: &[Root], others: &[Root]) -> Gain
    ensures tells { TellsRootGain roots.now others.now result }
{
    let place = common_roots(roots, others);
    if roots.len() + 1 == others.len() {
        let rest = common_roots(&roots[place..], &others[place + 1..]);
        return gain_new(
            place,
            rest,
            roots.len() - place,
            others[place].children.as_slice(),
        );
    }
    if roots.len() != others.len() {
        return Gain::Not;
    }
    if place == roots.len() {
        return Gain::Not;
    }
    let rest = common_roots(&roots[place + 1..], &others[place + 1..]);
    if place + 1 + rest != roots.len() {
        return Gain::Not;
    }
    let root = &roots[place];
    let more = &others[place];
    gain_within(
        same_own(root, more),
        place,
        root.children.as_slice(),
        more.children.as_slice(),
    )
}
