//! Cells in order, as a search tree.
//!
//! A node knows of all cells below it the least of their oldest and of their newest entries, and whether bytes are
//! staged: so a search, and what goes over the staged cells, leaves out each part that has none. The tree has the
//! shape of a heap by `rank`, a number mixed from data set and number: so its depth is expected to be a logarithm of
//! its cells, in whatever order they came (no clause says so).

ghost use Rattle.std.specs.Prelude.{◌≡◌, [], ◌∷◌, ◌++◌, ℕ, ◌==◌, ◌&&◌, if◌then◌else◌, ◌<◌, IsSome, IsTrue, IfSome, IfNone, IfOk, OnOk, OnErr, Some, None, option_copied, option_map};
ghost use Rattle.lru.specs.LruCache.{lru_cache};
ghost use Rattle.ci_pool.specs.Cells.{cell_at, comes_before, pending_number};
ghost use Rattle.ci_pool.specs.Changes.{IsAscending, AllCells, oldest_of, newest_of, least, any_staged, is_staged};
ghost use Rattle.ci_pool.specs.inside.Changes.{first_by, may_pay, waits_up_to, without, with_cell, all_published, all_unstaged, published, unstaged_by, after_write, after_write_by, staged_cell, unlisted, unlisted_one};
ghost use Rattle.ci_pool.specs.Held.{bytes_of, waiting_of};
ghost use Rattle.ci_pool.specs.Trees.{cells_of, below, marks_of, IsTree};
ghost use Rattle.ci_pool.specs.inside.Trees.{cell_of};

use crate::cell::Cell;
use crate::clean::Clean;
use fp_lists::Bytes;
use std::alloc::{AllocError, Global};
use std::marker::Model;
use std::mem;

/// What is known of some cells.
#[derive(Clone, Copy)]
pub(crate) struct Marks {
    /// The least of their oldest entries.
    oldest: u64,
    /// The least of their newest entries.
    newest: u64,
    /// Whether some have staged bytes.
    staged: bool,
}

/// Cells in ascending order. Contracts see them as a list.
#[cycle(tree)]
#[derive(Drop)]
pub(crate) struct Cells {
    root: Option<Box<Fork>>,
}

/// A cell, those before it and those behind it.
#[cycle(tree)]
#[derive(Drop)]
pub(crate) struct Fork {
    // What a search reads at each node stands together.
    before: Cells,
    behind: Cells,
    cell: Cell,
    marks: Marks,
}

impl Model for Cells {
    ghost use Rattle.std.specs.Prelude.{List, length};
    ghost use Rattle.ci_pool.specs.declared.cell.Cell.{Cell};

    ghost Value = { List Cell };

    ghost use Rattle.ci_pool.specs.Trees.{cells_of, IsTree};

    ghost view = { λ a. cells_of a.root };

    ghost invariant = { λ a. IsTree a.root };

    ghost size = { length };

    ghost use Rattle.std.proofs.Common.{arith, length-append};

    ghost size_decreases = { λ a h. Prim.grind (arith, length-append) };
}

/// What is known of the cells of a node.
#[tactic(auto, using(crate::proofs::Lists::least_append, crate::proofs::Lists::staged_append))]
fn marks_of(fork: &Fork) -> Marks
    ensures { result ≡ marks_of (below fork.now) }
{
    let before = fork.before.marks();
    let behind = fork.behind.marks();
    Marks {
        oldest: before.oldest.min(fork.cell.oldest()).min(behind.oldest),
        newest: before.newest.min(fork.cell.newest()).min(behind.newest),
        staged: before.staged | fork.cell.is_staged() | behind.staged,
    }
}

/// The cells before that of a node, and those behind it, taken out.
fn sides(fork: &mut Fork) -> (Cells, Cells)
    ensures before { result.0 ≡ fork.old.before }
    ensures behind { result.1 ≡ fork.old.behind }
    ensures cell { fork.new.cell ≡ fork.old.cell }
{
    let before = mem::replace(&mut fork.before, Cells::new());
    let behind = mem::replace(&mut fork.behind, Cells::new());
    (before, behind)
}

/// A node for an interval with these bytes staged: that with its cell, or a new one.
fn node_for(
    alloc: Global,
    taken: Option<Box<Fork>>,
    set: u16,
    ci: u64,
    bytes: Bytes,
) -> Result<Box<Fork>, AllocError>
    ensures ok { IfOk result (λ fork. fork.value.cell ≡ staged_cell set ci bytes (option_map cell_of taken)) }
    ensures err { OnErr result (taken ≡ None) }
{
    match taken {
        Some(mut fork) => {
            fork.cell.stage(bytes);
            Ok(fork)
        }
        None => match Box::new(alloc, Fork::new(set, ci, bytes)) {
            Ok(fork) => Ok(fork),
            Err(_) => Err(AllocError),
        },
    }
}

/// Takes the interval of a cell out of the clean ones, where bytes are staged.
fn unlist_one(cell: &Cell, clean: &mut Clean)
    ensures { clean.new ≡ lru_cache (unlisted_one cell.now clean.old.entries) clean.old.cap }
{
    if cell.is_staged() {
        drop(clean.pop(&(cell.set, cell.ci)));
    }
}

impl Fork {
    /// A node of a new cell, for these staged bytes.
    fn new(set: u16, ci: u64, bytes: Bytes) -> Fork
        ensures { result.cell ≡ staged_cell set ci bytes None }
    {
        Fork {
            before: Cells::new(),
            behind: Cells::new(),
            cell: Cell {
                set,
                ci,
                waiting: None,
                staged: Some(bytes),
            },
            marks: Marks {
                oldest: u64::MAX,
                newest: u64::MAX,
                staged: true,
            },
        }
    }
}

impl Cells {
    /// None.
    pub(crate) fn new() -> Cells
        ensures { result ≡ [] }
    {
        Cells { root: None }
    }

    /// No effect at run time. A proof reads here that they ascend.
    pub(crate) fn ascend(&self)
        ensures { IsAscending self.now }
    {
        let _ = &self.root;
    }

    /// What is known of them.
    fn marks(&self) -> Marks
        ensures { result ≡ marks_of self.now }
    {
        match &self.root {
            None => Marks {
                oldest: u64::MAX,
                newest: u64::MAX,
                staged: false,
            },
            Some(fork) => fork.marks,
        }
    }

    /// The cells of a node, whose marks are made anew.
    fn close(mut fork: Box<Fork>) -> Cells
        requires { IsAscending (below fork.value) }
        ensures { result ≡ below fork.value }
    {
        fork.marks = marks_of(&fork);
        Cells { root: Some(fork) }
    }

    /// The cell of a node between others.
    fn between(before: Cells, mut fork: Box<Fork>, behind: Cells) -> Cells
        requires { IsAscending (before ++ fork.value.cell ∷ behind) }
        ensures { result ≡ before ++ fork.value.cell ∷ behind }
    {
        fork.before = before;
        fork.behind = behind;
        Cells::close(fork)
    }

    /// What is held of an interval.
    pub(crate) fn get(&self, set: u16, ci: u64) -> Option<&Cell>
        ensures { option_copied result ≡ cell_at set ci self.now }
    {
        match &self.root {
            None => None,
            Some(fork) => {
                if fork.cell.is_of(set, ci) {
                    Some(&fork.cell)
                } else if fork.cell.comes_before(set, ci) {
                    fork.behind.get(set, ci)
                } else {
                    fork.before.get(set, ci)
                }
            }
        }
    }

    /// The bytes of an interval that waits.
    pub(crate) fn waiting_bytes(&self, set: u16, ci: u64) -> Option<&Bytes>
        ensures { option_copied result ≡ bytes_of (waiting_of (cell_at set ci self.now)) }
    {
        let cell = self.get(set, ci)?;
        let waiting = cell.waiting.as_ref()?;
        Some(&waiting.bytes)
    }

    /// The least of the oldest entries for which the cells wait; the greatest number where none does.
    pub(crate) fn least_oldest(&self) -> u64
        ensures least { result ≡ least oldest_of self.now }
        ensures ascending { IsAscending self.now }
    {
        self.ascend();
        self.marks().oldest
    }

    /// The least of their newest entries; the greatest number where none waits.
    pub(crate) fn least_newest(&self) -> u64
        ensures least { result ≡ least newest_of self.now }
        ensures ascending { IsAscending self.now }
    {
        self.ascend();
        self.marks().newest
    }

    /// The first cell that owes a change of an entry below `count`, and whose newest change is below `sealed`.
    pub(crate) fn first_to_pay(&self, count: u64, sealed: u64) -> Option<&Cell>
        ensures { option_copied result ≡ first_by (may_pay count sealed) self.now }
    {
        match &self.root {
            None => None,
            Some(fork) => {
                if count <= fork.marks.oldest || sealed <= fork.marks.newest {
                    return None;
                }
                match fork.before.first_to_pay(count, sealed) {
                    None => {}
                    found => return found,
                }
                if fork.cell.may_pay(count, sealed) {
                    return Some(&fork.cell);
                }
                fork.behind.first_to_pay(count, sealed)
            }
        }
    }

    /// The first cell that waits for no entry behind this one.
    pub(crate) fn first_up_to(&self, newest: u64) -> Option<&Cell>
        ensures { option_copied result ≡ first_by (waits_up_to newest) self.now }
    {
        match &self.root {
            None => None,
            Some(fork) => {
                if newest < fork.marks.newest {
                    return None;
                }
                match fork.before.first_up_to(newest) {
                    None => {}
                    found => return found,
                }
                if fork.cell.waits_up_to(newest) {
                    return Some(&fork.cell);
                }
                fork.behind.first_up_to(newest)
            }
        }
    }

    /// The cells before an interval, and those behind it, where none is of it.
    fn split(self, set: u16, ci: u64) -> (Cells, Cells)
        requires { cell_at set ci self ≡ None }
        ensures whole { result.0 ++ result.1 ≡ self }
        ensures before { AllCells (λ cell. IsTrue (comes_before cell.set cell.ci set ci)) result.0 }
        ensures behind { AllCells (λ cell. IsTrue (comes_before set ci cell.set cell.ci)) result.1 }
    {
        let Cells { root } = self;
        match root {
            None => (Cells::new(), Cells::new()),
            Some(mut fork) => {
                if fork.cell.comes_before(set, ci) {
                    let behind = mem::replace(&mut fork.behind, Cells::new());
                    let (middle, behind) = behind.split(set, ci);
                    fork.behind = middle;
                    (Cells::close(fork), behind)
                } else {
                    let before = mem::replace(&mut fork.before, Cells::new());
                    let (before, middle) = before.split(set, ci);
                    fork.before = middle;
                    (before, Cells::close(fork))
                }
            }
        }
    }

    /// Cells and those behind them together.
    fn joined(self, behind: Cells) -> Cells
        requires { IsAscending (self ++ behind) }
        ensures { result ≡ self ++ behind }
    {
        match (self.root, behind.root) {
            (None, root) => Cells { root },
            (root, None) => Cells { root },
            (Some(mut first), Some(mut second)) => {
                if first.cell.rank() < second.cell.rank() {
                    let before = mem::replace(&mut second.before, Cells::new());
                    second.before = Cells { root: Some(first) }.joined(before);
                    Cells::close(second)
                } else {
                    let middle = mem::replace(&mut first.behind, Cells::new());
                    first.behind = middle.joined(Cells { root: Some(second) });
                    Cells::close(first)
                }
            }
        }
    }

    /// The cells without that of an interval, and its node, if it has one.
    fn take_out(self, set: u16, ci: u64) -> (Cells, Option<Box<Fork>>)
        ensures left { result.0 ≡ without set ci self }
        ensures taken { option_map cell_of result.1 ≡ cell_at set ci self }
        ensures ascending { IsAscending self }
    {
        let Cells { root } = self;
        match root {
            None => (Cells::new(), None),
            Some(mut fork) => {
                if fork.cell.is_of(set, ci) {
                    let before = mem::replace(&mut fork.before, Cells::new());
                    let behind = mem::replace(&mut fork.behind, Cells::new());
                    (before.joined(behind), Some(fork))
                } else if fork.cell.comes_before(set, ci) {
                    let behind = mem::replace(&mut fork.behind, Cells::new());
                    let (behind, taken) = behind.take_out(set, ci);
                    fork.behind = behind;
                    (Cells::close(fork), taken)
                } else {
                    let before = mem::replace(&mut fork.before, Cells::new());
                    let (before, taken) = before.take_out(set, ci);
                    fork.before = before;
                    (Cells::close(fork), taken)
                }
            }
        }
    }

    /// The cells with that of a node, where none is of its interval.
    fn put_in(self, mut new: Box<Fork>) -> Cells
        requires { cell_at new.value.cell.set new.value.cell.ci self ≡ None }
        ensures { result ≡ with_cell new.value.cell self }
    {
        let Cells { root } = self;
        match root {
            None => {
                new.before = Cells::new();
                new.behind = Cells::new();
                Cells::close(new)
            }
            Some(mut fork) => {
                let (set, ci) = (new.cell.set, new.cell.ci);
                if fork.cell.rank() < new.cell.rank() {
                    let (before, behind) = Cells { root: Some(fork) }.split(set, ci);
                    new.before = before;
                    new.behind = behind;
                    Cells::close(new)
                } else if fork.cell.comes_before(set, ci) {
                    let behind = mem::replace(&mut fork.behind, Cells::new());
                    fork.behind = behind.put_in(new);
                    Cells::close(fork)
                } else {
                    let before = mem::replace(&mut fork.before, Cells::new());
                    fork.before = before.put_in(new);
                    Cells::close(fork)
                }
            }
        }
    }

    /// The cells once what is staged is published for the entry at this place.
    fn published(self, place: u64) -> Cells
        ensures { result ≡ all_published place self }
    {
        let Cells { root } = self;
        match root {
            None => Cells::new(),
            Some(mut fork) => {
                if !fork.marks.staged {
                    return Cells::close(fork);
                }
                let (before, behind) = sides(&mut fork);
                fork.cell.publish(place);
                Cells::between(before.published(place), fork, behind.published(place))
            }
        }
    }

    /// The cells once what is staged is dropped.
    fn unstaged(self) -> Cells
        ensures { result ≡ all_unstaged self }
    {
        let Cells { root } = self;
        match root {
            None => Cells::new(),
            Some(mut fork) => {
                if !fork.marks.staged {
                    return Cells::close(fork);
                }
                let (before, behind) = sides(&mut fork);
                let (before, behind) = (before.unstaged(), behind.unstaged());
                if fork.cell.is_only_staged() {
                    return before.joined(behind);
                }
                fork.cell.drop_staged();
                Cells::between(before, fork, behind)
            }
        }
    }

    /// Takes each interval of which bytes are staged out of the clean ones.
    pub(crate) fn unlist(&self, clean: &mut Clean)
        ensures { clean.new ≡ lru_cache (unlisted self.now clean.old.entries) clean.old.cap }
    {
        if let Some(fork) = &self.root {
            if fork.marks.staged {
                fork.before.unlist(clean);
                unlist_one(&fork.cell, clean);
                fork.behind.unlist(clean);
            }
        }
    }

    /// What is staged waits from now on, for the entry at this place.
    pub(crate) fn publish(&mut self, place: u64)
        ensures { (s k : ℕ) → cell_at s k self.new ≡ option_map (published place) (cell_at s k self.old) }
    {
        let cells = mem::replace(self, Cells::new());
        *self = cells.published(place);
    }

    /// What is staged is dropped.
    pub(crate) fn drop_staged(&mut self)
        ensures { (s k : ℕ) → cell_at s k self.new ≡ unstaged_by (cell_at s k self.old) }
    {
        self.ascend();
        let cells = mem::replace(self, Cells::new());
        *self = cells.unstaged();
    }

    /// Bytes of an interval are staged, in place of any that were. After want of memory the cells are as before.
    pub(crate) fn stage(
        &mut self,
        alloc: Global,
        set: u16,
        ci: u64,
        bytes: Bytes,
    ) -> Result<(), AllocError>
        ensures ok { OnOk result ((s k : ℕ) → cell_at s k self.new
            ≡ (if s == set && k == ci then Some (staged_cell set ci bytes (cell_at set ci self.old))
            else cell_at s k self.old)) }
        ensures err { OnErr result (self.new ≡ self.old) }
    {
        let cells = mem::replace(self, Cells::new());
        let (cells, taken) = cells.take_out(set, ci);
        match node_for(alloc, taken, set, ci, bytes) {
            Ok(fork) => {
                *self = cells.put_in(fork);
                Ok(())
            }
            Err(fault) => {
                *self = cells;
                Err(fault)
            }
        }
    }

    /// An interval waits no more.
    pub(crate) fn write(&mut self, set: u16, ci: u64)
        ensures at { (s k : ℕ) → cell_at s k self.new
            ≡ (if s == set && k == ci then after_write_by (cell_at s k self.old) else cell_at s k self.old) }
        ensures fewer { IsSome (waiting_of (cell_at set ci self.old))
            → pending_number self.new < pending_number self.old }
    {
        let cells = mem::replace(self, Cells::new());
        let (cells, taken) = cells.take_out(set, ci);
        *self = match taken {
            None => cells,
            Some(fork) => cells.put_back(fork),
        };
    }

    /// The cells with that of a node, once its interval is written, if bytes of it are staged.
    fn put_back(self, mut fork: Box<Fork>) -> Cells
        requires { cell_at fork.value.cell.set fork.value.cell.ci self ≡ None }
        ensures { result
            ≡ (if is_staged fork.value.cell then with_cell (after_write fork.value.cell) self else self) }
    {
        if !fork.cell.is_staged() {
            return self;
        }
        fork.cell.write();
        self.put_in(fork)
    }
}
