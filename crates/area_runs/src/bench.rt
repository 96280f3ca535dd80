//! Areas and their log over a site in memory. Each commit and each Purge has an entry of the log with its items.
ghost use Rattle.area_staging.specs.Flags.{AreFlagged};
ghost use Rattle.area_runs.specs.Bank.{HasBank, HasCustomers, IsBank, IsNote};
ghost use Rattle.fp_model.specs.ItemTargets.{is_ascending};
ghost use Rattle.fp_model.specs.LogText.{FitsEntry, KeepsRules};
ghost use Rattle.std.specs.List.{AllByRecursion};
ghost use Rattle.std.specs.Prelude.{◌≡◌, ◌≤◌, IfOk, IfSome, true};

use crate::bank::read_bank;
use crate::changes::{Change, all_fit, are_notes, have_customers, insert_of, put, text_of};
use crate::logging::{apply_log, entry_of, make_log, open_log};
use ci_pool::{Owed, Pool};
use dedb_area::{AreaFault, Areas};
use fp_exits::Exits;
use fp_model::{AnchorChange, Bytes, Defs, Entry, Item, List, SeqInsert};
use log_groups::Log;
use memory_site::MemorySite;
use std::alloc::{AllocError, Global};
use std::test::Fail;

/// One thing that is done or looked at.
pub enum Step {
    /// A commit of these changes, and what comes of it.
    Commit(&'static [Change], Came),
    /// These changes are staged, and dropped.
    Drops(&'static [Change]),
    /// A Purge of so many notes of a data set.
    Purge(u16, u64, Came),
    /// All entries are sealed.
    Seal,
    /// The oldest sealed interval that waits is written.
    Write,
    /// Every interval that waits is written, and the areas are synced. All entries are sealed then.
    WriteAll,
    /// A checkpoint begins, all entries being sealed.
    Mark,
    /// What it is owed; an interval that may be written is.
    Owes(Owed),
    /// The areas are synced, and the checkpoint is sure: a restart applies the entries behind its mark.
    Sync,
    /// The log and the areas are opened anew, and the sealed entries applied: the mark is their end.
    Restart,
    /// An anchor has these roots.
    Shows(u32, &'static [u8]),
    /// The serials of a data set's area that are kept, from the first to before the last.
    Ends(u16, u64, u64),
    /// A data set has so many bytes.
    Length(u16, usize),
}

/// What comes of staging.
pub enum Came {
    /// Items, whatever they are.
    Some,
    /// Just these.
    Items(&'static [Named]),
    /// A part was too full: its data set, its ends and how many were to come.
    Full(u16, u64, u64, u64),
}

/// An item: its data set and interval, and of a range its place and bytes.
pub enum Named {
    Image(u16, u64),
    Range(u16, u64, u16, &'static [u8]),
}

/// How a step ended.
#[derive(Clone, Copy)]
pub enum Ended {
    /// As wanted.
    Well,
    /// The site failed in it.
    Failed,
    /// Otherwise than wanted.
    Otherwise,
}

/// Areas with their log, and their site.
#[derive(Drop)]
pub struct Bench<'a> {
    alloc: Global,
    exits: &'a Exits,
    pub defs: Defs,
    pub areas: Areas,
    pub log: Log,
    pub site: MemorySite,
    /// How many clean intervals the pool may have.
    bound: u32,
    /// How many entries stood at the mark.
    mark: u64,
    /// How many stood at the mark of the last checkpoint that is sure.
    checked: u64,
}

/// Whether an item is the one that is named.
fn is_named(item: &Item, named: &Named) -> bool {
    match (item, named) {
        (Item::Image { set, ci, .. }, Named::Image(s, k)) => set == s && ci == k,
        (Item::Range { set, ci, at, bytes }, Named::Range(s, k, place, wanted)) => {
            set == s && ci == k && at == place && bytes.as_slice() == *wanted
        }
        _ => false,
    }
}

/// Whether each item is the one that is named, as far as both go.
fn are_named(items: &[Item], named: &[Named]) -> bool {
    for (item, one) in items.iter().zip(named.iter()) {
        if !is_named(item, one) {
            return false;
        }
    }
    true
}

/// Whether items are those that came.
fn are_wanted(items: &[Item], came: &Came) -> bool {
    match came {
        Came::Some => !items.is_empty(),
        Came::Items(named) => items.len() == named.len() && are_named(items, named),
        Came::Full(..) => false,
    }
}

/// Whether a part was to be so full.
fn is_full(came: &Came, set: u16, begin: u64, end: u64, n: u64) -> bool {
    match came {
        Came::Full(s, b, e, m) => *s == set && *b == begin && *e == end && *m == n,
        _ => false,
    }
}

/// How a step ended that a fault ended. `Damaged` never comes.
fn ended_by(fault: AreaFault, came: &Came) -> Result<Ended, AllocError> {
    match fault {
        AreaFault::Memory => Err(AllocError),
        AreaFault::Device => Ok(Ended::Failed),
        AreaFault::Damaged { .. } => Ok(Ended::Otherwise),
        AreaFault::SeqFull { set, begin, end, n } => {
            Ok(well_if(is_full(came, set, begin, end, n)))
        }
    }
}

fn well_if(is_so: bool) -> Ended {
    if is_so { Ended::Well } else { Ended::Otherwise }
}

/// The areas of definitions, with a pool of so many clean intervals.
fn open_areas(alloc: Global, defs: &Defs, bound: u32) -> Result<Areas, AllocError>
    requires bank { IsBank defs.now }
    requires bound { 1 ≤ bound }
    ensures { IfOk result (λ areas. HasBank defs.now areas.places) }
{
    let pool = Pool::new(alloc, bound)?;
    Areas::open(alloc, defs, pool)
}

/// The log of a site, whose entries from this one on are applied to areas. None where the site failed, or they can't
/// be.
fn applied_log(
    alloc: Global,
    areas: &mut Areas,
    defs: &Defs,
    site: &mut MemorySite,
    from: u64,
) -> Result<Option<Log>, AllocError>
    requires { HasBank defs.now areas.old.places }
    ensures { areas.new.places ≡ areas.old.places }
{
    match open_log(alloc, site)? {
        Some(mut log) => {
            if apply_log(areas, defs, &mut log, site, from)? {
                Ok(Some(log))
            } else {
                Ok(None)
            }
        }
        None => Ok(None),
    }
}

/// The log of a site and the areas, to which its entries from this one on are applied. None where the site failed, or
/// they can't be.
fn open_both(
    alloc: Global,
    defs: &Defs,
    site: &mut MemorySite,
    bound: u32,
    checked: u64,
) -> Result<Option<(Log, Areas)>, AllocError>
    requires bank { IsBank defs.now }
    requires bound { 1 ≤ bound }
    ensures { IfOk result (λ found. IfSome found (λ both. HasBank defs.now both.1.places)) }
{
    let mut areas = open_areas(alloc, defs, bound)?;
    match applied_log(alloc, &mut areas, defs, site, checked)? {
        Some(log) => Ok(Some((log, areas))),
        None => Ok(None),
    }
}

/// Puts a value in the place of another, which is let go. By an assignment, the caller would be proved over every part
/// of the old value.
fn replace<T: Drop>(place: &mut T, value: T)
    ensures { place.new ≡ value }
{
    *place = value;
}

/// Lets a value go, and hands on what was said of it. Of a value with many parts, a function that lets it go itself is
/// dear to prove.
pub fn let_go<T: Drop, U>(_value: T, said: U) -> U
    ensures { result ≡ said }
{
    said
}

/// The bench of a log and areas over a site.
fn bench_of(
    alloc: Global,
    exits: &Exits,
    defs: Defs,
    both: (Log, Areas),
    site: MemorySite,
    bound: u32,
    checked: u64,
) -> Bench<'_>
    ensures defs { result.defs ≡ defs }
    ensures places { result.areas.places ≡ both.1.places }
{
    let (log, areas) = both;
    let mark = log.sealed();
    Bench {
        alloc,
        exits,
        defs,
        areas,
        log,
        site,
        bound,
        mark,
        checked,
    }
}

/// The log and the areas of a site, with the entries of the log from this one on applied. None where the site failed,
/// or they can't be.
fn opened(
    alloc: Global,
    exits: &Exits,
    defs: Defs,
    mut site: MemorySite,
    bound: u32,
    checked: u64,
) -> Result<Option<Bench<'_>>, Fail>
    requires bank { IsBank defs }
    requires bound { 1 ≤ bound }
    ensures { IfOk result (λ found. IfSome found (λ bench. HasBank bench.defs bench.areas.places)) }
{
    match open_both(alloc, &defs, &mut site, bound, checked) {
        Ok(Some(both)) => Ok(Some(bench_of(alloc, exits, defs, both, site, bound, checked))),
        Ok(None) => let_go((defs, site), Ok(None)),
        Err(fault) => let_go((defs, site), Err(fault.into())),
    }
}

/// Formats the areas of definitions over a site, and makes a new log there. False where the site failed.
fn format_all(alloc: Global, defs: &Defs, site: &mut MemorySite) -> Result<bool, AllocError>
    requires { IsBank defs.now }
{
    match Areas::format(alloc, defs, site) {
        Ok(()) => make_log(alloc, site),
        Err(AreaFault::Memory) => Err(AllocError),
        Err(_) => Ok(false),
    }
}

/// Formats the areas over a site, and makes a new log there. False where the site failed.
fn format_site(alloc: Global, exits: &Exits, site: &mut MemorySite) -> Result<bool, Fail> {
    match read_bank(alloc, exits)? {
        Some(defs) => Ok(format_all(alloc, &defs, site)?),
        None => Ok(false),
    }
}

/// What a restart finds over a site. None where the site failed, or the log can't be applied.
fn opened_over(
    alloc: Global,
    exits: &Exits,
    site: MemorySite,
    bound: u32,
    checked: u64,
) -> Result<Option<Bench<'_>>, Fail>
    requires { 1 ≤ bound }
    ensures { IfOk result (λ found. IfSome found (λ bench. HasBank bench.defs bench.areas.places)) }
{
    match read_bank(alloc, exits) {
        Ok(Some(defs)) => opened(alloc, exits, defs, site, bound, checked),
        Ok(None) => let_go(site, Ok(None)),
        Err(fault) => let_go(site, Err(fault)),
    }
}

impl<'a> Bench<'a> {
    /// Formatted areas with a pool of so many clean intervals, and a new log; the definitions are read with these exits.
    /// None where the site failed, or the exits lack the kind FOLD.
    pub fn formatted(
        alloc: Global,
        exits: &'a Exits,
        mut site: MemorySite,
        bound: u32,
    ) -> Result<Option<Bench<'a>>, Fail>
        requires { 1 ≤ bound }
        ensures { IfOk result (λ found. IfSome found (λ bench. HasBank bench.defs bench.areas.places)) }
    {
        match format_site(alloc, exits, &mut site) {
            Ok(true) => opened_over(alloc, exits, site, bound, 0),
            Ok(false) => let_go(site, Ok(None)),
            Err(fault) => let_go(site, Err(fault)),
        }
    }

    /// What a restart finds over this site. None where the site failed, or the log can't be applied.
    fn restarted(&self, site: MemorySite) -> Result<Option<Bench<'a>>, Fail>
        ensures { IfOk result (λ found. IfSome found (λ bench. HasBank bench.defs bench.areas.places)) }
    {
        if self.bound == 0 {
            return Ok(None);
        }
        opened_over(self.alloc, self.exits, site, self.bound, self.checked)
    }

    /// What a restart finds over this snapshot of its own site. None as there.
    pub fn restarted_from(&self, choice: u64) -> Result<Option<Bench<'a>>, Fail>
        ensures { IfOk result (λ found. IfSome found (λ bench. HasBank bench.defs bench.areas.places)) }
    {
        let snapshot = self.site.snapshot_as(choice)?;
        let site = MemorySite::from_snapshot(self.alloc, snapshot, &[])?;
        self.restarted(site)
    }

    /// What an anchor shows. None where the site failed, or the anchor is damaged.
    pub fn shown(&mut self, anchor: u32) -> Result<Option<Bytes>, AllocError>
        requires { HasBank self.old.defs self.old.areas.places }
        ensures { HasBank self.new.defs self.new.areas.places }
    {
        if !self.areas.has_anchor(0, anchor) {
            return Ok(None);
        }
        match self.areas.anchor(&mut self.site, 0, anchor) {
            Ok(roots) => Ok(Some(text_of(self.alloc, &roots)?)),
            Err(AreaFault::Memory) => Err(AllocError),
            Err(_) => Ok(None),
        }
    }

    /// The changed anchors of a commit.
    fn changed(&mut self, changes: &[Change]) -> Result<List<AnchorChange>, AreaFault>
        requires { HasBank self.old.defs self.old.areas.places }
        ensures { HasBank self.new.defs self.new.areas.places }
    {
        let mut list = List::new(self.alloc);
        for change in changes {
            let anchor = change.anchor();
            if matches!(change, Change::Note(..)) || !self.areas.has_anchor(0, anchor) {
                continue;
            }
            let mut roots = self.areas.anchor(&mut self.site, 0, anchor)?;
            put(self.alloc, &mut roots, change)?;
            list.push(AnchorChange {
                dedb: 0,
                anchor,
                roots,
            })?;
        }
        Ok(list)
    }

    /// The sequential inserts of a commit.
    fn inserts(&self, changes: &[Change]) -> Result<List<SeqInsert>, AllocError> {
        let mut list = List::new(self.alloc);
        for change in changes {
            if let Some(insert) = insert_of(self.alloc, change)? {
                list.push(insert)?;
            }
        }
        Ok(list)
    }

    /// Stages the changes of a commit. None where they are no customers or notes.
    #[tactic(auto, using(crate::proofs::BankLemmas::may_stage))]
    fn stage(&mut self, changes: &[Change]) -> Result<Option<List<Item>>, AreaFault>
        requires { HasBank self.old.defs self.old.areas.places }
        ensures bank { HasBank self.new.defs self.new.areas.places }
        ensures flagged { IfOk result (λ found. IfSome found (AreFlagged self.new.areas.imaged)) }
        ensures order { IfOk result (λ found. IfSome found (λ items. is_ascending items ≡ true)) }
    {
        let inserts = self.inserts(changes)?;
        let changed = self.changed(changes)?;
        if !have_customers(changed.as_slice()) || !are_notes(inserts.as_slice()) {
            return Ok(None);
        }
        let items = self.areas.stage(&mut self.site, &changed, &inserts)?;
        Ok(Some(items))
    }

    /// A commit: staged, an entry with the items stands, published.
    fn commit(&mut self, changes: &[Change], came: &Came) -> Result<Ended, AllocError>
        requires { HasBank self.old.defs self.old.areas.places }
        ensures { HasBank self.new.defs self.new.areas.places }
    {
        match self.stage(changes) {
            Ok(Some(items)) => self.enter(items, came),
            Ok(None) => Ok(Ended::Otherwise),
            Err(fault) => ended_by(fault, came),
        }
    }

    /// Changes are staged, and dropped.
    fn drops(&mut self, changes: &[Change]) -> Result<Ended, AllocError>
        requires { HasBank self.old.defs self.old.areas.places }
        ensures { HasBank self.new.defs self.new.areas.places }
    {
        match self.stage(changes) {
            Ok(found) => {
                self.areas.drop_staged();
                Ok(well_if(found.is_some()))
            }
            Err(fault) => ended_by(fault, &Came::Some),
        }
    }

    /// An entry stands, and what is staged is published.
    fn append(&mut self, entry: &Entry, ended: Ended) -> Result<Ended, AllocError>
        requires flagged { AreFlagged self.old.areas.imaged entry.now.items }
        requires rules { KeepsRules entry.now }
        requires fits { FitsEntry entry.now }
        requires bank { HasBank self.old.defs self.old.areas.places }
        ensures { HasBank self.new.defs self.new.areas.places }
    {
        let place = self.log.append(entry)?;
        self.areas.publish(&entry.items, place);
        Ok(ended)
    }

    /// An entry of these items stands, and what is staged is published.
    fn enter(&mut self, items: List<Item>, came: &Came) -> Result<Ended, AllocError>
        requires flagged { AreFlagged self.old.areas.imaged items }
        requires order { is_ascending items ≡ true }
        requires bank { HasBank self.old.defs self.old.areas.places }
        ensures { HasBank self.new.defs self.new.areas.places }
    {
        if !all_fit(items.as_slice()) || items.len() >= 1 << 32 {
            return Ok(Ended::Otherwise);
        }
        let ended = well_if(are_wanted(items.as_slice(), came));
        let entry = entry_of(self.alloc, items);
        self.append(&entry, ended)
    }

    /// A Purge: staged, published, and an entry stands.
    fn purge(&mut self, set: u16, n: u64, came: &Came) -> Result<Ended, AllocError>
        requires { HasBank self.old.defs self.old.areas.places }
        ensures { HasBank self.new.defs self.new.areas.places }
    {
        if !(3..=4).contains(&set) {
            return Ok(Ended::Otherwise);
        }
        match self.areas.stage_purge(&mut self.site, set, n) {
            Ok(None) => self.enter(List::new(self.alloc), came),
            Ok(Some(item)) => {
                let mut items = List::new(self.alloc);
                items.push(item)?;
                self.enter(items, came)
            }
            Err(fault) => ended_by(fault, came),
        }
    }

    /// Does one step.
    pub fn step(&mut self, step: &Step) -> Result<Ended, Fail>
        requires { HasBank self.old.defs self.old.areas.places }
        ensures { HasBank self.new.defs self.new.areas.places }
    {
        match step {
            Step::Commit(changes, came) => Ok(self.commit(changes, came)?),
            Step::Drops(changes) => Ok(self.drops(changes)?),
            Step::Purge(set, n, came) => Ok(self.purge(*set, *n, came)?),
            Step::Seal => Ok(self.seal()),
            Step::Mark => Ok(self.mark()),
            Step::Owes(owed) => Ok(self.owes(*owed)),
            Step::Sync => Ok(self.sync()),
            Step::Write => Ok(self.write()),
            Step::WriteAll => Ok(self.write_all()),
            Step::Restart => self.restart(),
            Step::Shows(anchor, wanted) => Ok(self.shows(*anchor, wanted)?),
            Step::Ends(set, begin, end) => Ok(self.has_ends(*set, *begin, *end)),
            Step::Length(set, length) => Ok(well_if(self.site.contents(*set).len() == *length)),
        }
    }

    /// An anchor shows this.
    fn shows(&mut self, anchor: u32, wanted: &[u8]) -> Result<Ended, AllocError>
        requires { HasBank self.old.defs self.old.areas.places }
        ensures { HasBank self.new.defs self.new.areas.places }
    {
        match self.shown(anchor)? {
            Some(text) => Ok(well_if(text.as_slice() == wanted)),
            None => Ok(Ended::Failed),
        }
    }

    /// All entries are sealed, as one group.
    fn seal(&mut self) -> Ended
        requires { HasBank self.old.defs self.old.areas.places }
        ensures { HasBank self.new.defs self.new.areas.places }
    {
        match self.log.seal(&mut self.site, 1000) {
            Ok(count) => well_if(count > 0),
            Err(_) => Ended::Failed,
        }
    }

    /// A checkpoint begins.
    fn mark(&mut self) -> Ended
        requires { HasBank self.old.defs self.old.areas.places }
        ensures { HasBank self.new.defs self.new.areas.places }
    {
        if self.log.sealed() != self.log.count() {
            return Ended::Otherwise;
        }
        self.areas.mark();
        self.mark = self.log.sealed();
        Ended::Well
    }

    /// What the checkpoint is owed is looked at, and written where it may be.
    fn owes(&mut self, wanted: Owed) -> Ended
        requires { HasBank self.old.defs self.old.areas.places }
        ensures { HasBank self.new.defs self.new.areas.places }
    {
        let sealed = self.log.sealed();
        match self.areas.write_owed(&mut self.site, self.mark, sealed) {
            Ok(owed) => well_if(owed == wanted),
            Err(_) => Ended::Failed,
        }
    }

    /// The areas that were written to are synced.
    fn sync(&mut self) -> Ended
        requires { HasBank self.old.defs self.old.areas.places }
        ensures { HasBank self.new.defs self.new.areas.places }
    {
        match self.areas.sync_written(&mut self.site) {
            Ok(()) => {
                self.checked = self.mark;
                Ended::Well
            }
            Err(_) => Ended::Failed,
        }
    }

    /// The oldest sealed interval is written.
    fn write(&mut self) -> Ended
        requires { HasBank self.old.defs self.old.areas.places }
        ensures { HasBank self.new.defs self.new.areas.places }
    {
        match self.areas.write_oldest(&mut self.site, self.log.sealed()) {
            Ok(is_there) => well_if(is_there),
            Err(_) => Ended::Failed,
        }
    }

    /// All that waits is written.
    fn write_all(&mut self) -> Ended
        requires { HasBank self.old.defs self.old.areas.places }
        ensures { HasBank self.new.defs self.new.areas.places }
    {
        if self.log.sealed() != self.log.count() {
            return Ended::Otherwise;
        }
        match self.areas.write_all(&mut self.site) {
            Ok(()) => Ended::Well,
            Err(_) => Ended::Failed,
        }
    }

    /// Whether a data set's area has these ends.
    fn has_ends(&mut self, set: u16, begin: u64, end: u64) -> Ended
        requires { HasBank self.old.defs self.old.areas.places }
        ensures { HasBank self.new.defs self.new.areas.places }
    {
        if !(3..=4).contains(&set) {
            return Ended::Otherwise;
        }
        match self.areas.ends(&mut self.site, set) {
            Ok(ends) => well_if(ends.begin == begin && ends.end == end),
            Err(_) => Ended::Failed,
        }
    }

    /// The log and the areas are opened anew over the same site.
    fn restart(&mut self) -> Result<Ended, Fail>
        requires { HasBank self.old.defs self.old.areas.places }
        ensures { HasBank self.new.defs self.new.areas.places }
    {
        match self.restarted_from(1)? {
            Some(bench) => {
                replace(self, bench);
                Ok(Ended::Well)
            }
            None => Ok(Ended::Otherwise),
        }
    }
}
