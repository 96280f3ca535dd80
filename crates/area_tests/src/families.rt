//! Roots with several children of a type, with two child types, and with children of children.
ghost use Rattle.std.specs.Prelude.{◌≡◌, ◌≤◌, List as ListOf, true, length, IfOk};
ghost use Rattle.fp_model.specs.declared.definitions.SegDef.{SegDef as SegDefOf};
ghost use Rattle.area_tests.specs.Types.{AreFamilyTypes};
ghost use Rattle.root_anchor.specs.Stored.{are_storable, is_in_form, is_storable};
ghost use Rattle.root_anchor.specs.inside.Stored.{row_has_form};

use fp_model::{Bytes, List, Node, Root};
use std::alloc::{AllocError, Global};

/// Keys of a loan, of a payment of the second loan, and of an address.
#[derive(Clone, Copy)]
pub struct Keys(pub u8, pub u8, pub u8);

/// A key that there isn't.
pub const NONE: u8 = 99;

pub const NO_KEYS: Keys = Keys(NONE, NONE, NONE);

/// A parent. The keys of what stands below it count from 0.
#[derive(Clone, Copy)]
pub struct Parent {
    pub key: u8,
    /// What its segment says behind the key; those below say a dash.
    pub says: u8,
    /// How many payments each loan has.
    pub loans: &'static [u8],
    /// How many addresses it has.
    pub addresses: u8,
    /// Segments below that are left out.
    pub missing: Keys,
    /// Segments below that say X.
    pub changed: Keys,
}

/// A parent's key, what it says, the payments of its loans, and its addresses.
pub type Row = (u8, u8, &'static [u8], u8);

/// The parent of a row, with all below it.
pub fn of_row(row: Row) -> Parent {
    let (key, says, loans, addresses) = row;
    Parent {
        key,
        says,
        loans,
        addresses,
        missing: NO_KEYS,
        changed: NO_KEYS,
    }
}

/// A segment of so many bytes: its key, then the same byte again and again.
fn text(alloc: Global, key: u8, says: u8, size: usize) -> Result<Bytes, AllocError>
    requires { 2 ≤ size }
    ensures { IfOk result (λ bytes. length bytes ≡ size) }
{
    let mut bytes = vec![in alloc; says; size]?;
    bytes[0] = b'0' + key / 10;
    bytes[1] = b'0' + key % 10;
    Ok(Bytes::from_vec(bytes))
}

/// What the segment of a key says where that of another one is changed.
fn says(key: u8, changed: u8) -> u8 {
    if key == changed { b'X' } else { b'-' }
}

/// So many segments of a type with none below them, without that of a key.
fn leaves(
    alloc: Global,
    count: u8,
    missing: u8,
    changed: u8,
    size: usize,
) -> Result<List<Node>, AllocError>
    requires { 2 ≤ size }
    ensures payments { (types : ListOf SegDefOf) → AreFamilyTypes types → size ≡ 4
        → IfOk result (λ row. row_has_form types 2 row ≡ true) }
    ensures addresses { (types : ListOf SegDefOf) → AreFamilyTypes types → size ≡ 9
        → IfOk result (λ row. row_has_form types 3 row ≡ true) }
{
    let mut row = List::new(alloc);
    for key in 0..count {
        if key != missing {
            let bytes = text(alloc, key, says(key, changed), size)?;
            let children = List::new(alloc);
            row.push(Node { bytes, children })?;
        }
    }
    Ok(row)
}

/// A loan with so many payments. Of the second loan some are left out or changed.
fn loan(alloc: Global, parent: &Parent, key: u8, payments: u8) -> Result<Node, AllocError>
    ensures { (types : ListOf SegDefOf) → AreFamilyTypes types
        → IfOk result (λ node. is_in_form types node 1 ≡ true) }
{
    let bytes = text(alloc, key, says(key, parent.changed.0), 6)?;
    let (missing, changed) = if key == 1 {
        (parent.missing.1, parent.changed.1)
    } else {
        (NONE, NONE)
    };
    let mut children = List::new(alloc);
    children.push(leaves(alloc, payments, missing, changed, 4)?)?;
    Ok(Node { bytes, children })
}

/// The loans of a parent.
fn loans(alloc: Global, parent: &Parent) -> Result<List<Node>, AllocError>
    ensures { (types : ListOf SegDefOf) → AreFamilyTypes types
        → IfOk result (λ row. row_has_form types 1 row ≡ true) }
{
    let mut row = List::new(alloc);
    for (place, payments) in parent.loans.iter().enumerate() {
        let key = u8::try_from(place).unwrap_or(u8::MAX);
        if key != parent.missing.0 {
            row.push(loan(alloc, parent, key, *payments)?)?;
        }
    }
    Ok(row)
}

/// A parent with all below it.
fn root(alloc: Global, parent: &Parent) -> Result<Root, AllocError>
    ensures { (types : ListOf SegDefOf) → AreFamilyTypes types
        → IfOk result (λ root. is_storable types root ≡ true) }
{
    let bytes = text(alloc, parent.key, parent.says, 12)?;
    let (missing, changed) = (parent.missing.2, parent.changed.2);
    let mut children = List::new(alloc);
    children.push(loans(alloc, parent)?)?;
    children.push(leaves(alloc, parent.addresses, missing, changed, 9)?)?;
    Ok(Root {
        bytes,
        children,
        seqs: List::new(alloc),
    })
}

/// The roots of these parents, without those of the keys from `gone.0` to before `gone.1`.
pub fn roots(alloc: Global, list: &[Parent], gone: (u8, u8)) -> Result<List<Root>, AllocError>
    ensures { (types : ListOf SegDefOf) → AreFamilyTypes types
        → IfOk result (λ roots. are_storable types roots ≡ true) }
{
    let mut roots = List::new(alloc);
    for parent in list {
        if parent.key < gone.0 || parent.key >= gone.1 {
            roots.push(root(alloc, parent)?)?;
        }
    }
    Ok(roots)
}
