//! The areas of definitions.
ghost use Rattle.fp_model.specs.Commit.{area_of_set, takes};
ghost use Rattle.fp_model.specs.State.{anchors_in, areas_from, has_anchor};
ghost use Rattle.fp_model.specs.WellFormed.{AreDefs};
ghost use Rattle.past_anchors.specs.inside.Places.{AreFew, area_of};
ghost use Rattle.std.specs.Prelude.{◌≡◌, ◌<◌, ◌^◌, Some, find, length, option_map, slice_get};

use fp_model::{AreaDef, Defs, SeqInsert};

/// The data set of the first area; the others follow, in order of definition.
pub(crate) const FIRST_AREA_SET: u16 = 3;

/// An area of the installation: its database, its number there, the anchors before it, and its definition.
#[derive(Drop)]
pub(crate) struct AreaPlace<'a> {
    pub(crate) dedb: u8,
    pub(crate) number: u8,
    pub(crate) first_anchor: u32,
    pub(crate) def: &'a AreaDef,
}

/// How many anchors an area has.
pub(crate) fn anchors_in(def: &AreaDef) -> u64
    ensures count { result ≡ anchors_in def.now }
    ensures few { result < 2 ^ 48 }
{
    u64::from(def.uows) * u64::from(def.base)
}

impl AreaPlace<'_> {
    /// Whether an anchor of a database lies in it.
    fn has_anchor(&self, dedb: u8, anchor: u32) -> bool
        ensures { result ≡ has_anchor (area_of self.now) dedb anchor }
    {
        self.dedb == dedb
            && self.first_anchor <= anchor
            && u64::from(anchor - self.first_anchor) < anchors_in(self.def)
    }

    /// Whether it takes a sequential insert.
    pub(crate) fn takes(&self, insert: &SeqInsert) -> bool
        ensures { result ≡ takes (area_of self.now) insert.now }
    {
        self.has_anchor(insert.dedb, insert.anchor)
    }
}

/// The area of a database that has an anchor.
pub(crate) fn area_with(dedb: u8, areas: &[AreaDef], anchor: u32) -> Option<AreaPlace<'_>>
    requires { AreFew areas.now }
    ensures { option_map area_of result ≡ find (λ area. has_anchor area dedb anchor) (areas_from dedb 0 0 areas.now) }
{
    let mut number: u8 = 0;
    let mut first_anchor: u32 = 0;
    for def in areas {
        let area = AreaPlace {
            dedb,
            number,
            first_anchor,
            def,
        };
        if area.has_anchor(dedb, anchor) {
            return Some(area);
        }
        number += 1;
        first_anchor += anchors_in(def) as u32;
    }
    None
}

/// The area of a number in its database.
fn area_of_number(dedb: u8, areas: &[AreaDef], number: u8) -> AreaPlace<'_>
    requires few { AreFew areas.now }
    requires within { number < length areas.now }
    ensures { slice_get (areas_from dedb 0 0 areas.now) number ≡ Some (area_of result) }
{
    let at = usize::from(number);
    let mut first_anchor: u32 = 0;
    for before in 0..at {
        first_anchor += anchors_in(&areas[before]) as u32;
    }
    AreaPlace {
        dedb,
        number,
        first_anchor,
        def: &areas[at],
    }
}

/// The area of a data set.
pub(crate) fn area_of_set(defs: &Defs, set: u16) -> Option<AreaPlace<'_>>
    requires { AreDefs defs.now }
    ensures { option_map area_of result ≡ area_of_set defs.now set }
{
    if set < FIRST_AREA_SET {
        return None;
    }
    let mut number = usize::from(set - FIRST_AREA_SET);
    let mut dedb: u8 = 0;
    for def in defs.dedbs.as_slice() {
        if number < def.areas.len() {
            return Some(area_of_number(dedb, def.areas.as_slice(), number as u8));
        }
        number -= def.areas.len();
        dedb += 1;
    }
    None
}
