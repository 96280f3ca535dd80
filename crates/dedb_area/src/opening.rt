//! The areas that definitions give.

ghost use Rattle.std.specs.Prelude.{◌≡◌, ◌≤◌, ◌<◌, ◌+◌, ◌-◌, ◌/◌, ◌++◌, ◌∷◌, [], IfOk, OnOk, length, map};
ghost use Rattle.fp_model.specs.State.{areas_from};
ghost use Rattle.fp_model.specs.WellFormed.{IsAreaDef, IsDedbDef, AreDefs, sequential_intervals};
ghost use Rattle.area_states.specs.Places.{place_of, places_of, ArePlaces};

use area_states::Place;
use ci_space::Shape;
use fp_model::{AreaDef, DedbDef, Defs, SegDef};
use std::alloc::{AllocError, Global};

/// The bytes of an interval before its slots.
const HEAD: u32 = 32;

/// The bytes of a slot before its segment.
const SLOT_HEAD: u32 = 16;

/// The intervals that so many slots of a segment need.
fn intervals_for(ci: u16, length: u16, capacity: u32) -> u32
    requires size { 512 ≤ ci }
    requires few { capacity ≤ 1000000 }
    ensures { result ≡ (capacity + (ci - 32) / (16 + length) - 1) / ((ci - 32) / (16 + length)) }
{
    let slots = (u32::from(ci) - HEAD) / (SLOT_HEAD + u32::from(length));
    if slots == 0 {
        return 0;
    }
    (capacity + slots - 1) / slots
}

/// The intervals of the sequential part of an area.
fn sequential_intervals(ci: u16, types: &[SegDef], capacity: u32) -> u32
    requires size { 512 ≤ ci }
    requires few { capacity ≤ 1000000 }
    ensures { result ≡ sequential_intervals ci types.now capacity }
{
    for def in types {
        if def.sequential {
            return intervals_for(ci, def.length, capacity);
        }
    }
    0
}

/// An area of a database, of which this is the definition.
fn place(
    def: &DedbDef,
    area: &AreaDef,
    dedb: u8,
    number: u8,
    first_anchor: u32,
) -> Result<Place, AllocError>
    requires size { 512 ≤ def.now.ci }
    requires few { area.now.capacity ≤ 1000000 }
    ensures { IfOk result (λ place. place ≡ place_of def.now
        (record { dedb = dedb; number = number; first_anchor = first_anchor; def = area.now })) }
{
    let seq_cis = sequential_intervals(def.ci, def.segments.as_slice(), area.capacity);
    Ok(Place {
        dedb,
        number,
        first_anchor,
        shape: Shape {
            ci: def.ci,
            uows: area.uows,
            base: area.base,
            overflow: area.overflow,
            seq_cis,
        },
        capacity: area.capacity,
        segments: def.segments.clone()?,
    })
}

/// Adds an area of a database.
fn add_place(
    places: &mut Vec<Place>,
    def: &DedbDef,
    area: &AreaDef,
    dedb: u8,
    number: u8,
    first_anchor: u32,
) -> Result<(), AllocError>
    requires def { IsDedbDef def.now }
    requires area { IsAreaDef def.now.segments area.now }
    ensures added { OnOk result (places.new.items ≡ places.old.items ++ place_of def.now
        (record { dedb = dedb; number = number; first_anchor = first_anchor; def = area.now }) ∷ []) }
    ensures sized { ArePlaces places.old.items → ArePlaces places.new.items }
{
    let place = place(def, area, dedb, number, first_anchor)?;
    places.push(place)?;
    Ok(())
}

/// Adds the areas of a database.
fn add_places(places: &mut Vec<Place>, def: &DedbDef, dedb: u8) -> Result<(), AllocError>
    requires { IsDedbDef def.now }
    ensures added { OnOk result (places.new.items
        ≡ places.old.items ++ map (place_of def.now) (areas_from dedb 0 0 def.now.areas)) }
    ensures sized { ArePlaces places.old.items → ArePlaces places.new.items }
    ensures count { OnOk result (length places.new.items ≤ length places.old.items + 16) }
{
    let mut number: u8 = 0;
    let mut first_anchor: u32 = 0;
    for area in def.areas.as_slice() {
        add_place(places, def, area, dedb, number, first_anchor)?;
        number += 1;
        first_anchor += area.uows * u32::from(area.base);
    }
    Ok(())
}

/// The areas of an installation, in order of definition.
pub(crate) fn places_of(alloc: Global, defs: &Defs) -> Result<Vec<Place>, AllocError>
    requires { AreDefs defs.now }
    ensures places { IfOk result (λ places. places.items ≡ places_of defs.now) }
    ensures are { IfOk result (λ places. ArePlaces places.items) }
    ensures few { IfOk result (λ places. length places.items ≤ 256) }
{
    let mut places = Vec::new(alloc);
    let mut dedb: u8 = 0;
    for def in defs.dedbs.as_slice() {
        add_places(&mut places, def, dedb)?;
        dedb += 1;
    }
    Ok(places)
}
