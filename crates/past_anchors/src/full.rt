//! Areas that have no room for sequential inserts.
ghost use Rattle.fp_model.specs.Commit.{ends_at, first_full, is_too_full, takes};
ghost use Rattle.fp_model.specs.State.{areas_from, areas_of_all, first_area_set};
ghost use Rattle.fp_model.specs.WellFormed.{IsDedbDef};
ghost use Rattle.fp_model.specs.declared.database.Msdb.{Msdb as MsdbOf};
ghost use Rattle.past_anchors.specs.Databases.{state_of};
ghost use Rattle.past_anchors.specs.Fullness.{full_as};
ghost use Rattle.past_anchors.specs.inside.Fullness.{full_at};
ghost use Rattle.past_anchors.specs.inside.Places.{AreFew, area_of};
ghost use Rattle.std.specs.List.{AllByRecursion};
ghost use Rattle.std.specs.Prelude.{◌≡◌, ◌≤◌, List as ListOf, filter, length, option_map};

use crate::area::{AreaPlace, FIRST_AREA_SET, anchors_in};
use crate::start::first_ends;
use fp_model::{AreaDef, AreaEnds, Dedb, DedbDef, SeqInsert};

/// An area that has no room for the sequential inserts of a transaction.
#[derive(PartialEq, Eq, Drop)]
pub struct Full {
    /// The area's data set.
    pub set: u16,
    /// The least serial that may still be kept there.
    pub begin: u64,
    /// The serial that the next sequential dependent gets there.
    pub end: u64,
    /// How many of the inserts go there.
    pub n: u64,
}

/// The last serial that an area may give.
const LAST_SERIAL: u64 = 1 << 62;

/// The ends of an area; those of a part that never had a segment where there is no such area.
fn ends_at(dedbs: &[Dedb], area: &AreaPlace) -> AreaEnds
    ensures { (msdbs : ListOf MsdbOf) → result ≡ ends_at (state_of msdbs dedbs.now) (area_of area.now) }
{
    let dedb = usize::from(area.dedb);
    let number = usize::from(area.number);
    if dedb < dedbs.len() && number < dedbs[dedb].areas.len() {
        dedbs[dedb].areas.as_slice()[number]
    } else {
        first_ends()
    }
}

/// Whether an area has no room for so many more.
fn is_too_full(capacity: u32, ends: AreaEnds, n: u64) -> bool
    ensures { result ≡ is_too_full capacity ends n }
{
    ends.end.saturating_sub(ends.begin).saturating_add(n) > u64::from(capacity)
        || ends.end.saturating_add(n) > LAST_SERIAL
}

/// How many of the inserts an area takes.
fn count(area: &AreaPlace, inserts: &[SeqInsert]) -> u64
    ensures { result ≡ length (filter (takes (area_of area.now)) inserts.now) }
{
    let mut n: u64 = 0;
    for insert in inserts {
        if area.takes(insert) {
            n += 1;
        }
    }
    n
}

/// The area, if it takes some of the inserts and is too full for them.
fn full_at(dedbs: &[Dedb], area: &AreaPlace, set: u16, inserts: &[SeqInsert]) -> Option<Full>
    ensures { (msdbs : ListOf MsdbOf) → option_map full_as result
        ≡ full_at (state_of msdbs dedbs.now) inserts.now set (area_of area.now) }
{
    let n = count(area, inserts);
    let ends = ends_at(dedbs, area);
    if n > 0 && is_too_full(area.def.capacity, ends, n) {
        Some(Full {
            set,
            begin: ends.begin,
            end: ends.end,
            n,
        })
    } else {
        None
    }
}

/// The first area of a database that is too full, where its first area has this data set.
fn first_full_in(
    dedbs: &[Dedb],
    dedb: u8,
    areas: &[AreaDef],
    first_set: u16,
    inserts: &[SeqInsert],
) -> Option<Full>
    requires few { AreFew areas.now }
    requires set { first_set ≤ 1000 }
    ensures { (msdbs : ListOf MsdbOf) → option_map full_as result
        ≡ first_full (state_of msdbs dedbs.now) inserts.now first_set (areas_from dedb 0 0 areas.now) }
{
    let mut number: u8 = 0;
    let mut first_anchor: u32 = 0;
    for def in areas {
        let area = AreaPlace {
            dedb,
            number,
            first_anchor,
            def,
        };
        if let Some(full) = full_at(dedbs, &area, first_set + u16::from(number), inserts) {
            return Some(full);
        }
        number += 1;
        first_anchor += anchors_in(def) as u32;
    }
    None
}

/// The first area that is too full.
pub(crate) fn first_full(dedbs: &[Dedb], defs: &[DedbDef], inserts: &[SeqInsert]) -> Option<Full>
    requires good { AllByRecursion IsDedbDef defs.now }
    requires few { length defs.now ≤ 16 }
    ensures { (msdbs : ListOf MsdbOf) → option_map full_as result
        ≡ first_full (state_of msdbs dedbs.now) inserts.now first_area_set (areas_of_all 0 defs.now) }
{
    if inserts.is_empty() {
        return None;
    }
    let mut dedb: u8 = 0;
    let mut set = FIRST_AREA_SET;
    for def in defs {
        let full = first_full_in(dedbs, dedb, def.areas.as_slice(), set, inserts);
        if full.is_some() {
            return full;
        }
        dedb += 1;
        set += def.areas.len() as u16;
    }
    None
}
