//! Areas as they start.

ghost use Rattle.std.specs.Prelude.{◌≡◌, ◌≢◌, ◌+◌, ◌-◌, ◌*◌, ◌<◌, ◌≤◌, ◌^◌, ℕ, [], ◌∷◌, List, Some, None, IfOk, OnOk, OnErr, IsErrOf, IsTrue, Err, length, slice_get};
ghost use Rattle.fp_lists.specs.Continued.{IsContinued};
ghost use Rattle.fp_lists.specs.Faults.{Rose};
ghost use Rattle.ci_space.specs.Interval.{is_size, is_kind, kind_of, empty_bytes};
ghost use Rattle.ci_space.specs.Head.{ends_of};
ghost use Rattle.ci_overflow.specs.Places.{first_independent, kind_at};
ghost use Rattle.fp_model.specs.State.{first_area_set, start};
ghost use Rattle.fp_model.specs.WellFormed.{AreDefs};
ghost use Rattle.fp_site.specs.Disk.{IsDurable, Leaves};
ghost use Rattle.fp_site.specs.Site.{ReadsNothing};
ghost use Rattle.dedb_area.specs.Formatting.{IsStarted, IsFormatted};
ghost use Rattle.dedb_area.specs.Keeping.{OnlyAreas};
ghost use Rattle.dedb_area.specs.Opening.{AreFormatted, AreOpened, bytes_in, no_entries};
ghost use Rattle.dedb_area.specs.Standing.{AreasStand, Holding};
ghost use Rattle.area_states.specs.Databases.{AreFor};
ghost use Rattle.fp_model.specs.declared.definitions.Defs.{Defs as DefsOf};
ghost use Rattle.area_states.specs.Places.{places_of, place_at, IsPlace, ArePlaces};
ghost use Rattle.dedb_area.specs.declared.fault.AreaFault.TheVariants as fault;
ghost use Rattle.area_states.specs.declared.place.Place.{Place as PlaceOf};

use crate::opening::places_of;
use crate::syncing::FIRST_AREA;
use crate::{AreaFault, Areas};
use area_states::Place;
use ci_space::{Interval, Shape};
use fp_model::Defs;
use fp_site::Site;
use std::alloc::{AllocError, Global};

const CONTROL: u8 = 1;

const BASE: u8 = 2;

const DEPENDENT: u8 = 3;

const SEQUENTIAL: u8 = 4;

/// How many intervals an area starts with.
pub(crate) fn first_independent(shape: &Shape) -> u64
    ensures number { result ≡ first_independent shape.now }
    ensures bound { result < 2 ^ 50 }
{
    1 + u64::from(shape.uows) * (u64::from(shape.base) + u64::from(shape.overflow))
        + u64::from(shape.seq_cis)
}

/// The kind of an interval that an area starts with.
fn kind_at(shape: &Shape, ci: u64) -> u8
    requires { ci < first_independent shape.now }
    ensures kind { result ≡ kind_at shape.now ci }
    ensures is_kind { IsTrue (is_kind result) }
    ensures control { result ≡ 1 → ci ≡ 0 }
{
    if ci == 0 {
        return CONTROL;
    }
    let each = u64::from(shape.base) + u64::from(shape.overflow);
    if 1 + u64::from(shape.uows) * each <= ci {
        return SEQUENTIAL;
    }
    if (ci - 1) % each < u64::from(shape.base) {
        BASE
    } else {
        DEPENDENT
    }
}

/// An interval as it starts.
fn start_of(alloc: Global, shape: &Shape, ci: u64) -> Result<Interval, AllocError>
    requires size { IsTrue (is_size shape.now.ci) }
    requires counted { ci < first_independent shape.now }
    ensures control { IfOk result (λ interval. ci ≡ 0
        → (kind_of interval ≡ 1) × (ends_of interval ≡ 1 ∷ 1 ∷ 0 ∷ 0 ∷ [])) }
    ensures other { IfOk result (λ interval. ci ≢ 0
        → interval ≡ empty_bytes shape.now.ci (kind_at shape.now ci)) }
    ensures size { IfOk result (λ interval. length interval ≡ shape.now.ci) }
{
    let kind = kind_at(shape, ci);
    let mut interval = Interval::empty(alloc, shape.ci, kind)?;
    if kind == CONTROL {
        interval.set_ends([1, 1, 0, 0]);
    }
    Ok(interval)
}

/// Writes an interval as it starts.
fn write_start<T: Site>(
    alloc: Global,
    site: &mut T,
    set: u16,
    shape: &Shape,
    ci: u64,
) -> Result<(), AreaFault>
    requires from { first_area_set ≤ set }
    requires size { IsTrue (is_size shape.now.ci) }
    requires counted { ci < first_independent shape.now }
    requires ends { (ci + 1) * shape.now.ci ≤ 2 ^ 62 }
    ensures started { T.told site.old → IsStarted shape.now ci ((T.disk site.old).contents set)
        → OnOk result (IsStarted shape.now (ci + 1) ((T.disk site.new).contents set)) }
    ensures leaves { T.told site.old → Leaves set (T.disk site.old) (T.disk site.new) }
    ensures areas { T.told site.old → OnlyAreas (T.disk site.old) (T.disk site.new) }
    ensures aside { T.told site.old → (k : ℕ) → k ≢ set → IsDurable (T.disk site.old) k
        → IsDurable (T.disk site.new) k }
    ensures failed { IsErrOf result fault.Device → Rose (T.faults site.old) (T.faults site.new) }
    ensures never_damaged { (s at : ℕ) → result ≢ Err (fault.Damaged s at) }
    ensures never_full { (s begin end n : ℕ) → result ≢ Err (fault.SeqFull s begin end n) }
    ensures reads { ReadsNothing (T.tells_reads site.old) (T.tells_reads site.new) (T.bytes_read site.old)
        (T.bytes_read site.new) }
    ensures site { IsContinued T.told T.faults T.holds T.keeps site.old site.new }
{
    let interval = start_of(alloc, shape, ci)?;
    match site.write_at(set, ci * u64::from(shape.ci), interval.whole()) {
        Ok(()) => Ok(()),
        Err(_) => Err(AreaFault::Device),
    }
}

/// Writes an area as it starts, and syncs it.
fn format_area<T: Site>(
    alloc: Global,
    site: &mut T,
    set: u16,
    shape: &Shape,
) -> Result<(), AreaFault>
    requires from { first_area_set ≤ set }
    requires size { IsTrue (is_size shape.now.ci) }
    ensures started { T.told site.old → OnOk result
        (IsStarted shape.now (first_independent shape.now) ((T.disk site.new).contents set)) }
    ensures durable { T.told site.old → OnOk result (IsDurable (T.disk site.new) set) }
    ensures leaves { T.told site.old → Leaves set (T.disk site.old) (T.disk site.new) }
    ensures areas { T.told site.old → OnlyAreas (T.disk site.old) (T.disk site.new) }
    ensures aside { T.told site.old → (k : ℕ) → k ≢ set → IsDurable (T.disk site.old) k
        → IsDurable (T.disk site.new) k }
    ensures failed { IsErrOf result fault.Device → Rose (T.faults site.old) (T.faults site.new) }
    ensures never_damaged { (s at : ℕ) → result ≢ Err (fault.Damaged s at) }
    ensures never_full { (s begin end n : ℕ) → result ≢ Err (fault.SeqFull s begin end n) }
    ensures reads { ReadsNothing (T.tells_reads site.old) (T.tells_reads site.new) (T.bytes_read site.old)
        (T.bytes_read site.new) }
    ensures site { IsContinued T.told T.faults T.holds T.keeps site.old site.new }
{
    for ci in 0..first_independent(shape) {
        write_start(alloc, site, set, shape, ci)?;
    }
    match site.sync(set) {
        Ok(()) => Ok(()),
        Err(_) => Err(AreaFault::Device),
    }
}

/// Writes the areas as they start, and syncs them.
fn format_all<T: Site>(alloc: Global, site: &mut T, places: &[Place]) -> Result<(), AreaFault>
    requires are { ArePlaces places.now }
    requires few { length places.now ≤ 256 }
    ensures formatted { T.told site.old → OnOk result ((number : ℕ) (place : PlaceOf)
        → slice_get places.now number ≡ Some place
        → IsFormatted place.shape (first_area_set + number) (T.disk site.new)) }
    ensures only { T.told site.old → OnlyAreas (T.disk site.old) (T.disk site.new) }
    ensures failed { IsErrOf result fault.Device → Rose (T.faults site.old) (T.faults site.new) }
    ensures never_damaged { (s at : ℕ) → result ≢ Err (fault.Damaged s at) }
    ensures never_full { (s begin end n : ℕ) → result ≢ Err (fault.SeqFull s begin end n) }
    ensures reads { ReadsNothing (T.tells_reads site.old) (T.tells_reads site.new) (T.bytes_read site.old)
        (T.bytes_read site.new) }
    ensures site { IsContinued T.told T.faults T.holds T.keeps site.old site.new }
{
    for number in 0..places.len() {
        format_area(
            alloc,
            site,
            FIRST_AREA + number as u16,
            &places[number].shape,
        )?;
    }
    Ok(())
}

impl Areas {
    /// Writes every area of an installation as it starts, and syncs it: control, whose ends are 1 and which counts no
    /// independent overflow interval, and empty intervals of the kinds of their places. Gives `Device` alone, beside
    /// want of memory. After a fault some of the areas may be written.
    pub fn format<T: Site>(alloc: Global, defs: &Defs, site: &mut T) -> Result<(), AreaFault>
        requires { AreDefs defs.now }

        // At `Ok` each area stands as it starts, and is durable.
        ensures formatted { T.told site.old → OnOk result ((set : ℕ) (place : PlaceOf)
            → place_at (places_of defs.now) set ≡ Some place → IsFormatted place.shape set (T.disk site.new)) }

        // What stays at each moment: the log, the checkpoints, and what was sent.
        ensures only { T.told site.old → OnlyAreas (T.disk site.old) (T.disk site.new) }

        // It fails only with the site.
        ensures failed { IsErrOf result fault.Device → Rose (T.faults site.old) (T.faults site.new) }
        ensures never_damaged { (s at : ℕ) → result ≢ Err (fault.Damaged s at) }
        ensures never_full { (s begin end n : ℕ) → result ≢ Err (fault.SeqFull s begin end n) }

        // The site.
        ensures reads { ReadsNothing (T.tells_reads site.old) (T.tells_reads site.new) (T.bytes_read site.old)
            (T.bytes_read site.new) }
        ensures site { IsContinued T.told T.faults T.holds T.keeps site.old site.new }
    {
        let places = places_of(alloc, defs)?;
        format_all(alloc, site, &places)
    }
}

/// What `format` leaves is where a run begins. The bytes of formatted areas stand for the databases before any
/// transaction; so each area is formed. And the areas as they are opened, with an empty pool, stand behind no entry.
pub fn formatted_areas_stand<S: Site>(site: &S)
    ensures databases { (defs : DefsOf)
        → AreDefs defs
        → AreFormatted (places_of defs) (S.disk site.now)
        → AreFor (places_of defs) (bytes_in (places_of defs) (S.disk site.now).contents) (start defs) }
    ensures stands { (defs : DefsOf) (areas : Holding) (count : ℕ)
        → AreFormatted (places_of defs) (S.disk site.now)
        → AreOpened (places_of defs) areas
        → AreasStand (no_entries count) (bytes_in (places_of defs) (S.disk site.now).contents) (S.disk site.now) areas }
{}
