//! Gets: the search, and what becomes of the transaction.
ghost use Rattle.dedb_calls.specs.Anchors.{Ascend};
ghost use Rattle.dedb_calls.specs.inside.Calls.{SaysNot, ShowsWhole, is_locked, lacks_parent_at, place_found, refusal_of};
ghost use Rattle.dedb_calls.specs.Progress.{FitsDedb, GoesOn, Knows, position_in};
ghost use Rattle.dedb_calls.specs.inside.Progress.{with_position_at};
ghost use Rattle.dedb_calls.specs.Readiness.{ComesTo, IfAnswer, OnNeed};
ghost use Rattle.dedb_calls.specs.inside.Searches.{HasLooked, found_there, look_in, numbers_in};
ghost use Rattle.dedb_calls.specs.declared.ready.DedbReady.TheVariants as ready;
ghost use Rattle.dli_tree.specs.Paths.{steps_of};
ghost use Rattle.fp_model.specs.Answers.{answered, showing};
ghost use Rattle.fp_model.specs.DedbCalls.{anchors_searched, begins_behind, get_need, get_reply, lock_of, parent_after, root_named, stays_below, type_of_path};
ghost use Rattle.fp_model.specs.Exits.{anchor_of};
ghost use Rattle.fp_model.specs.Order.{Place as PlaceOf};
ghost use Rattle.fp_model.specs.State.{anchor_count};
ghost use Rattle.fp_model.specs.WellFormed.{IsDedbDef};
ghost use Rattle.fp_model.specs.declared.definitions.DedbDef.{DedbDef as DefOf};
ghost use Rattle.std.specs.Option.{option_copied};
ghost use Rattle.std.specs.Prelude.{◌≡◌, ◌<◌, ◌≤◌, ◌∷◌, [], IfOk, IfSome, List as ListOf, None, OnErr, OnOk, Option as OptionOf, Some, false, if◌then◌else◌, length, option_map, ℕ};

use crate::anchor_locks::AnchorLocks;
use crate::arguments::{are_get_arguments, not_found};
use crate::place::{Place, Position};
use crate::randomizer::anchor_count;
use crate::ready::{DedbReady, answered};
use crate::search::{Found, Looked, Quest, Reach, Stretch, search};
use crate::work::DedbWork;
use dli_tree::Step;
use fp_model::{Answer, Bytes, DedbDef, Get, List, Mode, Ssa};
use std::alloc::{AllocError, Global};

/// A data entry database, with its number among them.
#[derive(Clone, Copy)]
pub(crate) struct Database<'a> {
    pub(crate) number: u8,
    pub(crate) def: &'a DedbDef,
}

/// What a get asks.
#[derive(Clone, Copy)]
pub(crate) struct Asked<'a> {
    pub(crate) get: Get,
    pub(crate) hold: bool,
    pub(crate) ssas: &'a List<Ssa>,
}

/// Ends the hold, and answers two letters.
pub(crate) fn refused(alloc: Global, number: u8, work: &mut DedbWork, status: [u8; 2]) -> DedbReady
    requires { number < length work.old.positions }
    ensures answer { result ≡ ready.Answer (answered status) }
    ensures work { work.new
        ≡ with_position_at number (record (position_in work.old number) { held = false }) work.old }
{
    work.let_go(number);
    DedbReady::Answer(answered(alloc, status))
}

/// The type of the segment at the end of a path.
pub(crate) fn type_of_path(steps: &[Step]) -> u8
    ensures { (def : DefOf) (dedb : ℕ) → result ≡ type_of_path def dedb (steps_of steps.now) }
{
    match steps {
        [] => 0,
        [.., last] => last.segment,
    }
}

/// One anchor alone.
fn alone(anchor: u64) -> Stretch
    requires { anchor < 4294967296 }
    ensures anchors { numbers_in result ≡ anchor ∷ [] }
    ensures within { result.to ≤ 4294967296 }
{
    Stretch {
        from: anchor,
        to: anchor + 1,
    }
}

/// The anchors that a get looks at where its arguments name the root: the anchor of the root's key alone, and none
/// where GN is past it.
fn named_stretch(position: &Position, get: Get, root: u32) -> Stretch
    ensures anchors { (def : DefOf) (dedb : ℕ) (key : ListOf ℕ) → root ≡ anchor_of def key
        → numbers_in result ≡ anchors_searched def dedb position.now get (Some key) }
    ensures within { result.to ≤ 4294967296 }
{
    let named = u64::from(root);
    match get {
        Get::Unique | Get::NextInParent => alone(named),
        Get::Next => {
            let least = position.anchor();
            if named < least {
                Stretch { from: 0, to: 0 }
            } else {
                alone(named)
            }
        }
    }
}

/// The anchors that a get looks at where its arguments don't name the root: the parent's for GNP, else those in turn.
fn open_stretch(def: &DedbDef, position: &Position, get: Get) -> Stretch
    requires { anchor_count def.now ≤ 65536 }
    ensures anchors { (dedb : ℕ) → numbers_in result ≡ anchors_searched def.now dedb position.now get None }
    ensures within { result.to ≤ 4294967296 }
{
    match get {
        Get::NextInParent => alone(position.parent_anchor()),
        Get::Unique => Stretch {
            from: 0,
            to: anchor_count(def),
        },
        Get::Next => Stretch {
            from: position.anchor(),
            to: anchor_count(def),
        },
    }
}

/// The anchors that a get looks at. `root` is the anchor of the root's key, where the arguments give it.
fn stretch(def: &DedbDef, position: &Position, get: Get, root: Option<u32>) -> Stretch
    requires { anchor_count def.now ≤ 65536 }
    ensures anchors { (dedb : ℕ) (key : OptionOf (ListOf ℕ)) → root ≡ option_map (anchor_of def.now) key
        → numbers_in result ≡ anchors_searched def.now dedb position.now get key }
    ensures within { result.to ≤ 4294967296 }
{
    match root {
        Some(root) => named_stretch(position, get, root),
        None => open_stretch(def, position, get),
    }
}

/// What a get looks for.
fn quest_of<'a>(position: &'a Position, get: Get, ssas: &'a List<Ssa>) -> Quest<'a>
    ensures behind { (def : DefOf) (dedb : ℕ) → option_copied result.behind ≡ begins_behind def dedb position.now get }
    ensures within { (def : DefOf) (dedb : ℕ) → option_copied result.within ≡ stays_below def dedb position.now get }
    ensures ssas { result.ssas.now ≡ ssas.now }
{
    match get {
        Get::Unique => Quest {
            behind: None,
            within: None,
            ssas,
        },
        Get::Next => Quest {
            behind: position.place.as_ref(),
            within: None,
            ssas,
        },
        Get::NextInParent => Quest {
            behind: position.place.as_ref(),
            within: position.parent.as_ref(),
            ssas,
        },
    }
}

/// Whether a get below a parent lacks one.
fn lacks_parent(position: &Position, get: Get) -> bool
    ensures { result ≡ lacks_parent_at position.now get }
{
    match get {
        Get::Unique | Get::Next => false,
        Get::NextInParent => position.parent.is_none(),
    }
}

/// How strongly a get locks anchors.
fn lock_of(hold: bool) -> Mode
    ensures { (def : DefOf) (dedb : ℕ) → result ≡ lock_of def dedb hold }
{
    if hold { Mode::Exclusive } else { Mode::Share }
}

/// Whether a get that finds leaves the parent.
fn leaves_parent(get: Get) -> bool
    ensures { (def : DefOf) (dedb : ℕ) (before : OptionOf PlaceOf) (place : PlaceOf)
        → parent_after def dedb get before place ≡ (if result then before else Some place) }
{
    matches!(get, Get::NextInParent)
}

/// Moves to what a get found: GU and GN set the parent too. It fails only for want of memory, and then nothing changes.
fn move_to(
    number: u8,
    work: &mut DedbWork,
    asked: Asked<'_>,
    place: Place,
) -> Result<(), AllocError>
    requires { number < length work.old.positions }
    ensures work { (def : DefOf) → OnOk result (work.new ≡ with_position_at number (record {
      place = Some place;
      parent = parent_after def number asked.entry.get (position_in work.old number).parent place;
      held = asked.entry.hold;
    }) work.old) }
    ensures err { OnErr result (work.new ≡ work.old) }
{
    if leaves_parent(asked.get) {
        work.move_to(number, place, asked.hold);
        return Ok(());
    }
    let parent = place.copy()?;
    work.move_below(number, place, parent, asked.hold);
    Ok(())
}

/// Is at what a get found, and shows it. It fails only for want of memory, and then nothing changes.
fn show(
    alloc: Global,
    number: u8,
    work: &mut DedbWork,
    asked: Asked<'_>,
    found: Found,
) -> Result<DedbReady, AllocError>
    requires { number < length work.old.positions }
    ensures answer { (def : DefOf) → IfOk result (λ came. came
        ≡ ready.Answer (showing (type_of_path def number (found_there found).1.path) (found_there found).1.bytes)) }
    ensures work { (def : DefOf) → OnOk result (work.new ≡ with_position_at number (record {
      place = Some (place_found found);
      parent = parent_after def number asked.entry.get (position_in work.old number).parent (place_found found);
      held = asked.entry.hold;
    }) work.old) }
    ensures err { OnErr result (work.new ≡ work.old) }
{
    let Found {
        anchor,
        path,
        bytes,
    } = found;
    let segment = type_of_path(path.steps.as_slice());
    move_to(number, work, asked, Place { anchor, path })?;
    Ok(DedbReady::Answer(Answer {
        status: *b"  ",
        segment,
        bytes,
        letters: Bytes::new(alloc),
    }))
}

impl Database<'_> {
    /// The letters of a get that is refused before it looks anywhere.
    fn refusal(self, work: &DedbWork, asked: Asked<'_>) -> Option<[u8; 2]>
        requires { self.number < length work.now.positions }
        ensures status { result
            ≡ refusal_of self.entry.def.now self.entry.number work.now asked.entry.get asked.entry.ssas.now }
        ensures says { IfSome result SaysNot }
    {
        if !are_get_arguments(self.def, asked.ssas.as_slice()) {
            return Some(*b"AM");
        }
        if lacks_parent(work.position(self.number), asked.get) {
            return Some(*b"GP");
        }
        None
    }

    /// What a get finds. `root` is the anchor of the root's key, where the arguments give it. It fails only for want of
    /// memory.
    fn look<L: AnchorLocks>(
        self,
        alloc: Global,
        work: &DedbWork,
        asked: Asked<'_>,
        root: Option<u32>,
        locks: &L,
    ) -> Result<Looked, AllocError>
        requires good { IsDedbDef self.def.now }
        requires fits { FitsDedb self.def.now self.number work.now }
        requires order { Ascend work.now.anchors }
        requires known { Knows (L.modes locks.now work.now) work.now.anchors }
        requires root { root ≡ option_map (anchor_of self.def.now)
            (root_named self.def.now self.number asked.ssas.now) }

        ensures { IfOk result (λ looked. HasLooked looked
            (is_locked (L.modes locks.now work.now) self.entry.number
            (lock_of self.entry.def.now self.entry.number asked.entry.hold))
            (look_in self.entry.def.now self.entry.number work.now asked.entry.get asked.entry.ssas.now)
            (anchors_searched self.entry.def.now self.entry.number (position_in work.now self.entry.number)
            asked.entry.get (root_named self.entry.def.now self.entry.number asked.entry.ssas.now))) }
    {
        let position = work.position(self.number);
        let quest = quest_of(position, asked.get, asked.ssas);
        let stretch = stretch(self.def, position, asked.get, root);
        let reach = Reach {
            locks,
            work,
            dedb: self.number,
            mode: lock_of(asked.hold),
        };
        search(alloc, &self.def.segments, &reach, quest, stretch)
    }

    /// What a get comes to. `root` is the anchor of the root's key, where the arguments give it. It fails only for want
    /// of memory; then, and where a lock is needed, nothing changes.
    pub(crate) fn get<L: AnchorLocks>(
        self,
        alloc: Global,
        work: &mut DedbWork,
        asked: Asked<'_>,
        root: Option<u32>,
        locks: &L,
    ) -> Result<DedbReady, AllocError>
        requires good { IsDedbDef self.def.now }
        requires fits { FitsDedb self.def.now self.number work.old }
        requires order { Ascend work.old.anchors }
        requires known { Knows (L.modes locks.now work.old) work.old.anchors }
        requires root { root ≡ option_map (anchor_of self.def.now)
            (root_named self.def.now self.number asked.ssas.now) }

        ensures comes { IfOk result (λ came. ComesTo self.entry.number
            (λ db own. get_need self.entry.def.now self.entry.number db own (L.modes locks.now work.old)
            asked.entry.get asked.entry.hold asked.entry.ssas.now)
            (λ db own. get_reply self.entry.def.now self.entry.number db own asked.entry.get asked.entry.hold
            asked.entry.ssas.now) work.old work.new came) }
        ensures shown { IfOk result (λ came. IfAnswer came (ShowsWhole self.entry.def.now)) }
        ensures goes { GoesOn self.entry.number work.old work.new }
        ensures fits { FitsDedb self.entry.def.now self.entry.number work.new }
        ensures needing { IfOk result (λ came. OnNeed came (work.new ≡ work.old)) }
        ensures err { OnErr result (work.new ≡ work.old) }
    {
        if let Some(status) = self.refusal(work, asked) {
            return Ok(refused(alloc, self.number, work, status));
        }
        match self.look(alloc, work, asked, root, locks)? {
            Looked::Unlocked(anchor) => Ok(DedbReady::Need {
                anchor,
                mode: lock_of(asked.hold),
            }),
            Looked::Nothing => {
                let status = not_found(asked.get, asked.ssas.as_slice());
                Ok(refused(alloc, self.number, work, status))
            }
            Looked::Found(found) => Ok(show(alloc, self.number, work, asked, found)?),
        }
    }
}
