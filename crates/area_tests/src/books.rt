//! Areas over sites in memory whose bytes were written by hand: what anchors give through the pool, and which damage
//! they name.

ghost use Rattle.fp_model.specs.WellFormed.{AreDefs};

use crate::definitions::definitions;
use ci_pool::Pool;
use dedb_area::{AreaFault, Areas};
use fp_model::{Bytes, Defs, List, Root};
use fp_site::Site;
use memory_site::MemorySite;
use std::alloc::{AllocError, Global};
use std::test::Fail;

/// An item has a number and notes, of which the area keeps three. The area has control, two base intervals, an overflow
/// interval and a sequential one.
const DEFINITIONS: &str = r#"regions = [1]
router = "FOLD"
[[dedb]]
name = "BOOK"
randomizer = "FOLD"
ci = 512
[[dedb.segment]]
name = "ITEM"
fields = [["INO", "C", 4]]
[[dedb.segment]]
name = "NOTE"
parent = "ITEM"
sequential = true
fields = [["WHAT", "C", 8]]
[[dedb.area]]
name = "AREA1"
uows = 1
base = 2
overflow = 1
capacity = 3
"#;

/// Bytes that are written to an area, and where.
type Patch = (u64, &'static [u8]);

/// Two items at the first anchor, of which the first has two notes, with the serials 1 and 2. By hand, from the format.
static ITEMS: [Patch; 7] = [
    // Control: begin 1, end 3.
    (32, b"\0\0\0\0\0\0\0\x01\0\0\0\0\0\0\0\x03"),
    // The first base interval: the root anchor point leads to place 32.
    (516, b"\0\0\0\0\0\0\0\x01\0\x20"),
    // 28 bytes, used, type 0; the next root at place 60; newest serial 2; the segment; two bytes up to the end.
    (
        544,
        b"\0\x1c\x01\0\0\0\0\0\0\0\0\x01\0\x3c\0\0\0\0\0\0\0\x02A001\0\0",
    ),
    // 28 bytes, used, type 0; no next root; no newest serial; the segment; two bytes up to the end.
    (
        572,
        b"\0\x1c\x01\0\0\0\0\0\0\0\0\0\0\0\0\0\0\0\0\0\0\0B001\0\0",
    ),
    // The rest is free: 424 bytes.
    (600, b"\x01\xa8\0\0"),
    // The sequential interval: serial 1 in slot 1, behind no other.
    (2104, b"\0\0\0\0\0\0\0\x01\0\0\0\0\0\0\0\0FIRST   "),
    // Serial 2 in slot 2, behind serial 1.
    (2128, b"\0\0\0\0\0\0\0\x02\0\0\0\0\0\0\0\x01SECOND  "),
];

/// Writes bytes to the area. False where the site fails.
fn write(site: &mut MemorySite, patches: &[Patch]) -> bool {
    for (at, bytes) in patches {
        if *at > 4096 || bytes.len() > 512 || site.write_at(3, *at, bytes).is_err() {
            return false;
        }
    }
    true
}

/// The areas of definitions over a site on which they are formatted, and then these bytes are written. None where a
/// call fails.
fn formatted(
    alloc: Global,
    defs: &Defs,
    site: &mut MemorySite,
    patches: &[Patch],
) -> Result<Option<Areas>, Fail>
    requires { AreDefs defs.now }
{
    if Areas::format(alloc, defs, site).is_err() || !write(site, patches) {
        return Ok(None);
    }
    let pool = Pool::new(alloc, 8)?;
    Ok(Some(Areas::open(alloc, defs, pool)?))
}

/// The areas of the database over a site.
fn opened(alloc: Global, site: &mut MemorySite, patches: &[Patch]) -> Result<Option<Areas>, Fail> {
    let defs = definitions(alloc, DEFINITIONS)?;
    formatted(alloc, &defs, site, patches)
}

/// The roots one after another, each with its notes and their serials, of one digit.
fn text_of(alloc: Global, roots: &List<Root>) -> Result<Bytes, AllocError> {
    let mut text = Bytes::new(alloc);
    for root in roots.as_slice() {
        text.append(root.bytes.as_slice())?;
        for note in root.seqs.as_slice() {
            text.append(&[b' ', (note.serial % 10) as u8 + b'0', b' '])?;
            text.append(note.bytes.as_slice())?;
        }
        text.append(b";")?;
    }
    Ok(text)
}

/// What an anchor of the database gives. None where no area has it.
fn read(
    alloc: Global,
    areas: &mut Areas,
    site: &mut MemorySite,
    anchor: u32,
) -> Result<Option<Result<Bytes, AreaFault>>, AllocError> {
    if !areas.has_anchor(0, anchor) {
        return Ok(None);
    }
    match areas.anchor(site, 0, anchor) {
        Ok(roots) => Ok(Some(Ok(text_of(alloc, &roots)?))),
        Err(fault) => Ok(Some(Err(fault))),
    }
}

/// Whether these bytes are what an anchor gives.
fn gives(
    alloc: Global,
    areas: &mut Areas,
    site: &mut MemorySite,
    anchor: u32,
    wanted: &[u8],
) -> Result<bool, AllocError> {
    match read(alloc, areas, site, anchor)? {
        Some(Ok(text)) => Ok(text.as_slice() == wanted),
        _ => Ok(false),
    }
}

/// An anchor, and what it gives.
type Row = (u32, &'static [u8]);

/// Whether anchors give what the rows say, one after another.
fn each_gives(
    alloc: Global,
    areas: &mut Areas,
    site: &mut MemorySite,
    rows: &[Row],
) -> Result<bool, Fail> {
    for (anchor, wanted) in rows {
        if !gives(alloc, areas, site, *anchor, wanted)? {
            return Ok(false);
        }
    }
    Ok(true)
}

/// Whether the anchors of an area with these bytes give what the rows say, one after another.
fn all_give_over(
    alloc: Global,
    site: &mut MemorySite,
    patches: &[Patch],
    rows: &[Row],
) -> Result<bool, Fail> {
    match opened(alloc, site, patches)? {
        Some(mut areas) => each_gives(alloc, &mut areas, site, rows),
        None => Ok(false),
    }
}

/// So it is over a new site.
fn all_give(alloc: Global, patches: &[Patch], rows: &[Row]) -> Result<bool, Fail> {
    let mut site = MemorySite::new(alloc, &[])?;
    all_give_over(alloc, &mut site, patches, rows)
}

/// An area as it starts has no roots.
static NO_ROOTS: [Row; 2] = [(0, b""), (1, b"")];

/// The items with their notes, newest first; the last row comes from the pool.
static ROOTS: [Row; 3] = [
    (0, b"A001 2 SECOND   1 FIRST   ;B001;"),
    (1, b""),
    (0, b"A001 2 SECOND   1 FIRST   ;B001;"),
];

#[test]
fn items_and_their_notes_are_read(rt: HostRuntime) -> Result<(), Fail> {
    assert!(rt; all_give(rt.alloc(), &[], &NO_ROOTS)?);
    assert!(rt; all_give(rt.alloc(), &ITEMS, &ROOTS)?);
    Ok(())
}

/// Bytes that are written over the items, and where the damage is that they make at the first anchor.
static DAMAGES: [(Patch, u64); 5] = [
    // Control is of kind 2.
    ((0, b"\x02"), 0),
    // Its end is before its begin.
    ((40, b"\0\0\0\0\0\0\0\0"), 0),
    // The root anchor point leads to the middle of an element.
    ((516, b"\0\0\0\0\0\0\0\x01\0\x24"), 512),
    // The second item says a newest serial at the end.
    ((586, b"\0\0\0\0\0\0\0\x03"), 512),
    // The slot of serial 1 holds another.
    ((2104, b"\0\0\0\0\0\0\0\x04"), 2048),
];

/// Whether the first anchor names damage of the area at this place.
fn names(
    alloc: Global,
    areas: &mut Areas,
    site: &mut MemorySite,
    at: u64,
) -> Result<bool, AllocError> {
    match read(alloc, areas, site, 0)? {
        Some(Err(AreaFault::Damaged { set, at: place })) => Ok(set == 3 && place == at),
        _ => Ok(false),
    }
}

/// Whether it does where these bytes are written over others of the site. None where they can't be.
fn names_patched(
    alloc: Global,
    areas: &mut Areas,
    site: &mut MemorySite,
    patch: &Patch,
    at: u64,
) -> Result<Option<bool>, Fail> {
    if !write(site, &[*patch]) {
        return Ok(None);
    }
    Ok(Some(names(alloc, areas, site, at)?))
}

/// So it is where they are written over the items.
fn names_over(
    alloc: Global,
    site: &mut MemorySite,
    patch: &Patch,
    at: u64,
) -> Result<Option<bool>, Fail> {
    match opened(alloc, site, &ITEMS)? {
        Some(mut areas) => names_patched(alloc, &mut areas, site, patch, at),
        None => Ok(None),
    }
}

/// So it is over a new site.
fn names_over_items(alloc: Global, patch: &Patch, at: u64) -> Result<Option<bool>, Fail> {
    let mut site = MemorySite::new(alloc, &[])?;
    names_over(alloc, &mut site, patch, at)
}

#[test]
fn damage_is_named(rt: HostRuntime) -> Result<(), Fail> {
    for (row, (patch, at)) in DAMAGES.iter().enumerate() {
        let named = names_over_items(rt.alloc(), patch, *at)?;
        assert!(rt; named.is_some());
        assert!(rt; named == Some(true), "row {row}");
    }
    Ok(())
}
