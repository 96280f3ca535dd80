//! Roots of customers, as anchors keep them.
ghost use Rattle.std.specs.Prelude.{◌≡◌, List as ListOf, true, IfOk};
ghost use Rattle.fp_model.specs.declared.definitions.SegDef.{SegDef as SegDefOf};
ghost use Rattle.area_runs.specs.Types.{AreCustomerTypes};
ghost use Rattle.root_anchor.specs.Stored.{is_newest, is_storable, are_storable};
ghost use Rattle.root_anchor.specs.inside.Stored.{row_has_form};

use fp_model::{Bytes, List, Node, Root, SeqItem};
use std::alloc::{AllocError, Global};

/// A root, its newest serial (0 for none), and what the one segment below it says.
#[derive(Clone, Copy)]
pub struct Customer {
    pub number: u8,
    pub name: u8,
    pub newest: u8,
    pub loan: Option<u8>,
}

/// The root itself: its key, C and three digits, and its name.
pub fn segment_of(customer: &Customer) -> [u8; 16] {
    let mut text = [b' '; 16];
    text[0] = b'C';
    text[1] = b'0' + customer.number / 100;
    text[2] = b'0' + customer.number / 10 % 10;
    text[3] = b'0' + customer.number % 10;
    text[4] = customer.name;
    text
}

/// The row below a root.
fn loans(alloc: Global, loans: &[[u8; 6]]) -> Result<List<Node>, AllocError>
    ensures { (types : ListOf SegDefOf) → AreCustomerTypes types
        → IfOk result (λ row. row_has_form types 2 row ≡ true) }
{
    let mut row = List::new(alloc);
    for loan in loans {
        let bytes = Bytes::from_slice(alloc, loan)?;
        let children = List::new(alloc);
        row.push(Node { bytes, children })?;
    }
    Ok(row)
}

/// The newest serial as a sequential list.
fn serials(alloc: Global, newest: u64) -> Result<List<SeqItem>, AllocError>
    ensures { (types : ListOf SegDefOf) → AreCustomerTypes types
        → IfOk result (λ seqs. is_newest types seqs ≡ true) }
{
    let mut seqs = List::new(alloc);
    if newest != 0 {
        let bytes = Bytes::new(alloc);
        seqs.push(SeqItem {
            serial: newest,
            bytes,
        })?;
    }
    Ok(seqs)
}

/// A root with these loans and this newest serial.
pub fn customer_of(
    alloc: Global,
    text: &[u8; 16],
    newest: u64,
    below: &[[u8; 6]],
) -> Result<Root, AllocError>
    ensures { (types : ListOf SegDefOf) → AreCustomerTypes types
        → IfOk result (λ root. is_storable types root ≡ true) }
{
    let mut children = List::new(alloc);
    children.push(loans(alloc, below)?)?;
    Ok(Root {
        bytes: Bytes::from_slice(alloc, text)?,
        children,
        seqs: serials(alloc, newest)?,
    })
}

/// A root with all below it.
fn root(alloc: Global, one: &Customer) -> Result<Root, AllocError>
    ensures { (types : ListOf SegDefOf) → AreCustomerTypes types
        → IfOk result (λ root. is_storable types root ≡ true) }
{
    let text = segment_of(one);
    match one.loan {
        Some(amount) => customer_of(
            alloc,
            &text,
            u64::from(one.newest),
            &[[b'L', b'1', 0, 0, amount, 12]],
        ),
        None => customer_of(alloc, &text, u64::from(one.newest), &[]),
    }
}

/// The roots of these.
pub fn roots(alloc: Global, customers: &[Customer]) -> Result<List<Root>, AllocError>
    ensures { (types : ListOf SegDefOf) → AreCustomerTypes types
        → IfOk result (λ roots. are_storable types roots ≡ true) }
{
    let mut roots = List::new(alloc);
    for customer in customers {
        roots.push(root(alloc, customer)?)?;
    }
    Ok(roots)
}
