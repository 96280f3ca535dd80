//! What a commit changes, as a row has it, and what it makes of an anchor's roots.
ghost use Rattle.area_runs.specs.Types.{AreCustomerTypes};
ghost use Rattle.area_runs.specs.Bank.{FitsBank, HasCustomers, IsNote};
ghost use Rattle.area_states.specs.Changes.{kept_root};
ghost use Rattle.fp_model.specs.declared.definitions.SegDef.{SegDef as SegDefOf};
ghost use Rattle.root_anchor.specs.Stored.{are_storable, is_storable};
ghost use Rattle.std.specs.List.{AllByRecursion};
ghost use Rattle.std.specs.Prelude.{◌≡◌, IsTrue, List as ListOf, map, true};

use fp_model::{AnchorChange, Bytes, Item, List, Node, Root, SeqInsert};
use std::alloc::{AllocError, Global};

/// The length of a customer's segment, and of its key.
const SEGMENT: usize = 16;

const KEY: usize = 4;

/// The length of a note.
const NOTE: usize = 8;

/// One change: its anchor in the database and its customer's key come first.
pub enum Change {
    /// A new customer, of this name.
    Add(u32, &'static [u8], &'static [u8]),
    /// A customer's new name.
    Rename(u32, &'static [u8], &'static [u8]),
    /// A customer goes.
    Drop(u32, &'static [u8]),
    /// A new note.
    Note(u32, &'static [u8], &'static [u8]),
}

impl Change {
    /// The anchor that it is of.
    pub(crate) fn anchor(&self) -> u32 {
        match self {
            Change::Add(anchor, ..)
            | Change::Rename(anchor, ..)
            | Change::Drop(anchor, _)
            | Change::Note(anchor, ..) => *anchor,
        }
    }
}

/// These bytes with blanks behind them, as many as are wanted.
fn padded(alloc: Global, bytes: &[u8], count: usize) -> Result<Bytes, AllocError> {
    let mut text = Bytes::from_slice(alloc, bytes)?;
    while text.len() < count {
        text.push(b' ')?;
    }
    Ok(text)
}

/// A customer's segment.
fn segment(alloc: Global, key: &[u8], name: &[u8]) -> Result<Bytes, AllocError> {
    let mut bytes = padded(alloc, key, KEY)?;
    bytes.append(name)?;
    padded(alloc, bytes.as_slice(), SEGMENT)
}

/// A customer without loans and notes.
fn customer(alloc: Global, key: &[u8], name: &[u8]) -> Result<Root, AllocError> {
    let mut children = List::new(alloc);
    children.push(List::<Node>::new(alloc))?;
    Ok(Root {
        bytes: segment(alloc, key, name)?,
        children,
        seqs: List::new(alloc),
    })
}

/// Where the customer of a key stands among roots, or the first with a greater key; and whether it is the key's.
fn place_of(roots: &[Root], key: &[u8]) -> (usize, bool) {
    for (place, root) in roots.iter().enumerate() {
        let bytes = root.bytes.as_slice();
        if bytes.starts_with(key) {
            return (place, true);
        }
        if bytes > key {
            return (place, false);
        }
    }
    (roots.len(), false)
}

/// Puts a change into the roots of its anchor. False where there is no such customer, or one too many.
pub(crate) fn put(
    alloc: Global,
    roots: &mut List<Root>,
    change: &Change,
) -> Result<bool, AllocError> {
    match change {
        Change::Add(_, key, name) => {
            let (place, is_there) = place_of(roots.as_slice(), key);
            if !is_there && place <= roots.len() {
                roots.insert(place, customer(alloc, key, name)?)?;
            }
            Ok(!is_there)
        }
        Change::Rename(_, key, name) => {
            let (place, is_there) = place_of(roots.as_slice(), key);
            if is_there && place < roots.len() {
                roots.item_mut(place).bytes = segment(alloc, key, name)?;
            }
            Ok(is_there)
        }
        Change::Drop(_, key) => {
            let (place, is_there) = place_of(roots.as_slice(), key);
            if is_there && place < roots.len() {
                drop(roots.remove(place));
            }
            Ok(is_there)
        }
        Change::Note(..) => Ok(true),
    }
}

/// The sequential insert that a change is, if it is one.
pub(crate) fn insert_of(alloc: Global, change: &Change) -> Result<Option<SeqInsert>, AllocError> {
    match change {
        Change::Note(anchor, key, what) => Ok(Some(SeqInsert {
            dedb: 0,
            anchor: *anchor,
            key: padded(alloc, key, KEY)?,
            bytes: padded(alloc, what, NOTE)?,
        })),
        _ => Ok(None),
    }
}

/// Appends the bytes that aren't blanks.
fn put_words(text: &mut Bytes, bytes: &[u8]) -> Result<(), AllocError> {
    for byte in bytes {
        if *byte != b' ' {
            text.push(*byte)?;
        }
    }
    Ok(())
}

/// Roots as a row has them: key, name, and the notes, newest first.
pub(crate) fn text_of(alloc: Global, roots: &List<Root>) -> Result<Bytes, AllocError> {
    let mut text = Bytes::new(alloc);
    for root in roots.as_slice() {
        put_words(&mut text, root.bytes.as_slice())?;
        for note in root.seqs.as_slice() {
            text.push(b' ')?;
            put_words(&mut text, note.bytes.as_slice())?;
        }
        text.push(b';')?;
    }
    Ok(text)
}

// ---- what may be staged, and applied

/// Whether this is a customer without loans.
#[tactic(auto, using(crate::proofs::BankLemmas::customer_storable))]
fn is_customer(root: &Root) -> bool
    ensures { IsTrue result → (types : ListOf SegDefOf) → AreCustomerTypes types
        → is_storable types (kept_root root.now) ≡ true }
{
    match root.children.as_slice() {
        [loans] => root.bytes.len() == SEGMENT && loans.is_empty(),
        _ => false,
    }
}

/// Whether these are.
fn are_customers(roots: &[Root]) -> bool
    ensures { IsTrue result → (types : ListOf SegDefOf) → AreCustomerTypes types
        → are_storable types (map kept_root roots.now) ≡ true }
{
    for root in roots {
        if !is_customer(root) {
            return false;
        }
    }
    true
}

/// Whether changed anchors have customers without loans.
pub(crate) fn have_customers(changes: &[AnchorChange]) -> bool
    ensures { IsTrue result → AllByRecursion HasCustomers changes.now }
{
    for change in changes {
        if !are_customers(change.roots.as_slice()) {
            return false;
        }
    }
    true
}

/// Whether sequential inserts are notes.
pub(crate) fn are_notes(inserts: &[SeqInsert]) -> bool
    ensures { IsTrue result → AllByRecursion IsNote inserts.now }
{
    for insert in inserts {
        if insert.bytes.len() != NOTE {
            return false;
        }
    }
    true
}

/// Whether an image is of an area, and not too far behind; whether a range has some bytes.
fn fits(item: &Item) -> bool
    ensures { IsTrue result → FitsBank item.now }
{
    match item {
        Item::Image { set, ci, bytes } => {
            *set >= 3 && *set <= 4 && *ci < 1 << 40 && bytes.len() == 512
        }
        Item::Segment { .. } => false,
        Item::Range { bytes, .. } => !bytes.is_empty() && bytes.len() <= 512,
    }
}

/// Whether all are.
pub(crate) fn all_fit(items: &[Item]) -> bool
    ensures { IsTrue result → AllByRecursion FitsBank items.now }
{
    for item in items {
        if !fits(item) {
            return false;
        }
    }
    true
}
