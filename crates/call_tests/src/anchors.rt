//! Tests of the data entry databases of the present place: commits, areas that are too full, and Purges, by steps.
ghost use Rattle.fp_model.specs.WellFormed.{AreDefs};
ghost use Rattle.past_anchors.specs.Databases.{AreDedbsOf, FitsCommit};
ghost use Rattle.std.specs.Prelude.{OnOk};

use crate::customers::{DEFINITIONS, anchor_of, customer, dependents};
use crate::systems::defs_of;
use fp_model::{AnchorChange, Defs, List, SeqInsert};
use past_anchors::{Anchors, Full};
use std::alloc::Global;
use std::test::Fail;

/// A step, with what is to come of it.
enum Deed {
    /// A customer stands alone at the anchor of its key.
    Put(&'static [u8]),
    /// Each of these customers gets a sequential dependent, in one commit.
    Add(&'static [&'static [u8]]),
    /// There is no room for that: in this data set, from this serial on, up to this one, for so many.
    Full(&'static [&'static [u8]], u16, u64, u64, u64),
    /// A data set is purged of so many; whether it may be.
    Purge(u16, u64, bool),
    /// A customer has dependents with these serials, newest first.
    Serials(&'static [u8], &'static [u64]),
}

/// C001 and C002 are in the first area, at anchors 2 and 3, and C007 is in the second, at 8. An area has 3 dependents
/// at most, and the second 2.
static DEEDS: [Deed; 20] = [
    Deed::Put(b"C001"),
    Deed::Put(b"C007"),
    Deed::Serials(b"C001", &[]),
    Deed::Add(&[b"C001", b"C007", b"C001"]),
    Deed::Serials(b"C001", &[2, 1]),
    Deed::Serials(b"C007", &[1]),
    Deed::Full(&[b"C007", b"C007"], 4, 1, 2, 2),
    Deed::Full(&[b"C007", b"C007", b"C001", b"C002"], 3, 1, 3, 2),
    Deed::Purge(3, 1, true),
    Deed::Serials(b"C001", &[2]),
    // No customer C002 stands, so that its dependent goes nowhere; its serial is used up.
    Deed::Add(&[b"C002", b"C001"]),
    Deed::Serials(b"C001", &[4, 2]),
    Deed::Purge(3, 100, true),
    Deed::Serials(b"C001", &[]),
    Deed::Serials(b"C007", &[1]),
    Deed::Purge(2, 1, false),
    Deed::Purge(5, 1, false),
    Deed::Purge(6, 1, false),
    Deed::Put(b"C001"),
    Deed::Serials(b"C002", &[]),
];

// Commits a transaction, if there is room.
fn commit(
    anchors: &mut Anchors,
    defs: &Defs,
    changes: List<AnchorChange>,
    inserts: List<SeqInsert>,
) -> Result<bool, Fail>
    requires good { AreDefs defs.now }
    requires shape { AreDedbsOf defs.now anchors.old }
    requires fits { FitsCommit defs.now anchors.old changes inserts }
    ensures { OnOk result (AreDedbsOf defs.now anchors.new) }
{
    if anchors.first_full(defs, inserts.as_slice()).is_some() {
        return Ok(false);
    }
    anchors.commit(defs, changes, inserts)?;
    Ok(true)
}

// Puts a customer.
fn put(alloc: Global, anchors: &mut Anchors, defs: &Defs, bytes: &[u8]) -> Result<bool, Fail>
    requires good { AreDefs defs.now }
    requires shape { AreDedbsOf defs.now anchors.old }
    ensures { OnOk result (AreDedbsOf defs.now anchors.new) }
{
    let mut changes = List::new(alloc);
    changes.push(customer(alloc, defs, bytes)?)?;
    commit(anchors, defs, changes, List::new(alloc))
}

// Adds dependents.
fn add(
    alloc: Global,
    anchors: &mut Anchors,
    defs: &Defs,
    keys: &[&'static [u8]],
) -> Result<bool, Fail>
    requires good { AreDefs defs.now }
    requires shape { AreDedbsOf defs.now anchors.old }
    ensures { OnOk result (AreDedbsOf defs.now anchors.new) }
{
    let inserts = dependents(alloc, defs, keys)?;
    commit(anchors, defs, List::new(alloc), inserts)
}

// Whether a customer has these serials. One that isn't there has none.
fn has_serials(anchors: &Anchors, defs: &Defs, key: &[u8], wanted: &[u64]) -> bool
    requires { AreDefs defs.now }
{
    let Some(def) = defs.dedbs.get(0) else {
        return false;
    };
    let Some(anchor) = anchor_of(def, key) else {
        return false;
    };
    match anchors.roots(0, anchor).first() {
        Some(root) => {
            let seqs = root.seqs.as_slice();
            seqs.len() == wanted.len() && seqs.iter().zip(wanted).all(|(item, n)| item.serial == *n)
        }
        None => wanted.is_empty(),
    }
}

// Does a step, and says whether it came out as it says.
fn act(alloc: Global, anchors: &mut Anchors, defs: &Defs, deed: &Deed) -> Result<bool, Fail>
    requires good { AreDefs defs.now }
    requires shape { AreDedbsOf defs.now anchors.old }
    ensures { OnOk result (AreDedbsOf defs.now anchors.new) }
{
    match *deed {
        Deed::Put(bytes) => put(alloc, anchors, defs, bytes),
        Deed::Add(keys) => add(alloc, anchors, defs, keys),
        Deed::Full(keys, set, begin, end, n) => {
            let inserts = dependents(alloc, defs, keys)?;
            let full = Full { set, begin, end, n };
            Ok(anchors.first_full(defs, inserts.as_slice()) == Some(full))
        }
        Deed::Purge(set, n, may) => Ok(anchors.purge(defs, set, n) == may),
        Deed::Serials(key, serials) => Ok(has_serials(anchors, defs, key, serials)),
    }
}

// The first step on these databases that comes out otherwise; the number of steps where there is none.
fn first_wrong(
    alloc: Global,
    anchors: &mut Anchors,
    defs: &Defs,
    deeds: &[Deed],
) -> Result<usize, Fail>
    requires good { AreDefs defs.now }
    requires shape { AreDedbsOf defs.now anchors.old }
{
    for at in 0..deeds.len() {
        if !act(alloc, anchors, defs, &deeds[at])? {
            return Ok(at);
        }
    }
    Ok(deeds.len())
}

// The same on databases where nothing stands.
fn first_wrong_anew(alloc: Global, deeds: &[Deed]) -> Result<usize, Fail> {
    let defs = defs_of(alloc, DEFINITIONS)?;
    let mut anchors = Anchors::new(alloc, &defs)?;
    let wrong = first_wrong(alloc, &mut anchors, &defs, deeds);
    drop(anchors);
    drop(defs);
    wrong
}

// The check pays for a table at each mention.
fn deeds() -> &'static [Deed] {
    &DEEDS
}

#[test]
fn each_deed_comes_out(rt: HostRuntime) -> Result<(), Fail> {
    let wrong = first_wrong_anew(rt.alloc(), deeds())?;
    assert!(rt; wrong == deeds().len(), "step {wrong}");
    Ok(())
}
