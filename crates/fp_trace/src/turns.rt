//! The turns of a run: what each event did, with its call, lock, entry and group.
ghost use Rattle.fp_core.specs.Relation.{IsSetup};
ghost use Rattle.fp_trace.specs.Followed.{IsShadow};
ghost use Rattle.std.specs.Prelude.{◌≤◌, OnOk, length};

use crate::fault::Fault;
use crate::following::{Shadow, Told};
use crate::running::{Run, Step};
use crate::telling::{entry_text, put_bytes};
use fp_core::Did;
use fp_exits::Exits;
use fp_model::{Defs, Event};
use std::alloc::{AllocError, Global};
use txn_lang::Scripts;

/// Numbers of things that stand one behind the other, from the first to the last.
#[derive(Clone, Copy)]
pub(crate) struct Span {
    pub first: u64,
    pub last: u64,
}

/// A turn.
#[derive(Drop)]
pub(crate) struct Turn {
    pub step: Step,
    /// The line, call or entry that it was about.
    pub what: String,
    /// The lock that was gained or is waited for; empty where there is none.
    pub lock: String,
    /// The place of the entry that it appended.
    pub entry: Option<u64>,
    /// The groups that it sealed.
    pub groups: Option<Span>,
}

// The message lines that are still to come, and the one that waits for its terminal.
#[derive(Drop)]
struct Lines<'a> {
    rest: &'a [u8],
    held: Option<&'a [u8]>,
}

// Where the first newline of bytes stands; behind the last byte where there is none.
fn newline_in(bytes: &[u8]) -> usize
    ensures { result ≤ length bytes.now }
{
    for (at, byte) in bytes.iter().enumerate() {
        if *byte == b'\n' {
            return at;
        }
    }
    bytes.len()
}

impl<'a> Lines<'a> {
    // The line that an IN is about: the one that waits, or else the next.
    fn take(&mut self) -> &'a [u8] {
        if let Some(line) = self.held.take() {
            return line;
        }
        let end = newline_in(self.rest);
        let line = &self.rest[..end];
        self.rest = self.rest[end..].strip_prefix(b"\n").unwrap_or_default();
        line.strip_suffix(b"\r").unwrap_or(line)
    }
}

// Makes the turns one after another.
#[derive(Drop)]
struct Teller<'a> {
    alloc: Global,
    run: &'a Run,
    lines: Lines<'a>,
    // How many entries were appended, how many of them sealed, and in how many groups.
    entries: u64,
    sealed: u64,
    groups: usize,
}

impl Teller<'_> {
    // The line of the transaction that a region took: that of the entry with which it ends.
    fn taken(&self, region: u8, behind: &[Step]) -> &[u8] {
        let mut place = self.entries;
        for step in behind {
            if matches!(step.did, Did::Committed | Did::Refused) {
                if step.event == Event::Region(region) {
                    return self.line_at(place);
                }
                place = place.saturating_add(1);
            }
        }
        b""
    }

    // The line of an entry; no bytes where there is no such entry.
    fn line_at(&self, place: u64) -> &[u8] {
        if place < self.run.entries.len() as u64 {
            self.run.entries[place as usize].line.as_slice()
        } else {
            b""
        }
    }

    // The entry that is appended next, as a turn.
    fn append(&mut self, step: Step) -> Result<Turn, AllocError> {
        let place = self.entries;
        self.entries = place.saturating_add(1);
        let mut turn = self.turn(step);
        if place < self.run.entries.len() as u64 {
            turn.what = entry_text(self.alloc, place, &self.run.entries[place as usize])?;
        }
        turn.entry = Some(place);
        Ok(turn)
    }

    // A turn about nothing.
    fn turn(&self, step: Step) -> Turn {
        Turn {
            step,
            what: String::new(self.alloc),
            lock: String::new(self.alloc),
            entry: None,
            groups: None,
        }
    }

    // A turn about a line.
    fn about(&self, step: Step, line: &[u8]) -> Result<Turn, AllocError> {
        let mut turn = self.turn(step);
        put_bytes(&mut turn.what, line)?;
        Ok(turn)
    }

    // The turn of an IN.
    fn read(&mut self, step: Step) -> Result<Turn, AllocError> {
        match step.did {
            Did::Queued => {
                let line = self.lines.take();
                self.about(step, line)
            }
            Did::Held => {
                let line = self.lines.take();
                self.lines.held = Some(line);
                self.about(step, line)
            }
            Did::Refused => {
                self.lines.take();
                self.append(step)
            }
            _ => Ok(self.turn(step)),
        }
    }

    // How many groups there are of the entries that are sealed, counted on from those that were.
    fn groups_sealed(&self) -> usize {
        let mut count = self.groups;
        for group in self.run.groups.iter().skip(self.groups) {
            if group.first >= self.sealed {
                break;
            }
            count = count.saturating_add(1);
        }
        count
    }

    // The turn of a LOG or a CKPT.
    fn seal(&mut self, step: Step) -> Result<Turn, AllocError> {
        let mut turn = self.turn(step);
        let Did::Sealed(count) = step.did else {
            return Ok(turn);
        };
        let first = self.groups as u64;
        self.sealed = self.sealed.saturating_add(u64::from(count));
        self.groups = self.groups_sealed();
        let behind = self.groups as u64;
        if first < behind {
            turn.groups = Some(Span {
                first,
                last: behind - 1,
            });
        }
        turn.what = format!(in self.alloc; "{count} entries, and their reply lines")?;
        Ok(turn)
    }

    // What is followed of a region goes on with a turn that has no call and no lock.
    fn follow(
        &self,
        shadow: &mut Shadow<'_>,
        region: u8,
        did: Did,
        behind: &[Step],
    ) -> Result<(), Fault>
        requires shadow { IsShadow shadow.old }
        requires some { 1 ≤ region }
        requires within { region ≤ 64 }
        ensures { OnOk result (IsShadow shadow.new) }
    {
        match did {
            Did::Took => shadow.took(region, self.taken(region, behind)),
            Did::Committed => shadow.committed(region),
            Did::Refused => shadow.refused(region),
            Did::Retried => shadow.retried(region),
            _ => Ok(()),
        }
    }

    // A turn of a region that has no call and no lock.
    fn plain(&mut self, region: u8, step: Step, behind: &[Step]) -> Result<Turn, AllocError> {
        match step.did {
            Did::Took => self.about(step, self.taken(region, behind)),
            Did::Committed | Did::Refused => self.append(step),
            _ => Ok(self.turn(step)),
        }
    }

    // The turn of a region, which is followed beside the core.
    fn region(
        &mut self,
        shadow: &mut Shadow<'_>,
        exits: &Exits,
        region: u8,
        step: Step,
        behind: &[Step],
    ) -> Result<Turn, Fault>
        requires shadow { IsShadow shadow.old }
        requires some { 1 ≤ region }
        requires within { region ≤ 64 }
        ensures { OnOk result (IsShadow shadow.new) }
    {
        let told = match step.did {
            Did::Answered => shadow.answered(region, exits)?,
            Did::Gained | Did::Waited => shadow.asked(region, exits)?,
            did => {
                self.follow(shadow, region, did, behind)?;
                return Ok(self.plain(region, step, behind)?);
            }
        };
        Ok(self.told(step, told))
    }

    // A turn about a call and a lock.
    fn told(&self, step: Step, told: Told) -> Turn {
        let Told { what, lock } = told;
        Turn {
            step,
            what,
            lock,
            entry: None,
            groups: None,
        }
    }

    // The turn of a step, with those behind it.
    fn next(
        &mut self,
        shadow: &mut Shadow<'_>,
        exits: &Exits,
        step: Step,
        behind: &[Step],
    ) -> Result<Turn, Fault>
        requires { IsShadow shadow.old }
        ensures { OnOk result (IsShadow shadow.new) }
    {
        match step.event {
            Event::In => Ok(self.read(step)?),
            Event::Region(region) if 1 <= region && region <= 64 => {
                self.region(shadow, exits, region, step, behind)
            }
            Event::Log | Event::Ckpt => Ok(self.seal(step)?),
            _ => Ok(self.turn(step)),
        }
    }
}

// Appends the turns of a run.
fn tell(
    teller: &mut Teller<'_>,
    shadow: &mut Shadow<'_>,
    exits: &Exits,
    steps: &[Step],
    turns: &mut Vec<Turn>,
) -> Result<(), Fault>
    requires { IsShadow shadow.old }
{
    for (at, step) in steps.iter().enumerate() {
        let turn = teller.next(shadow, exits, *step, &steps[at + 1..])?;
        turns.push(turn)?;
    }
    Ok(())
}

// The turns of a run over these messages, which are followed from its beginning on.
fn told_turns(
    alloc: Global,
    shadow: &mut Shadow<'_>,
    exits: &Exits,
    run: &Run,
    messages: &[u8],
) -> Result<Vec<Turn>, Fault>
    requires { IsShadow shadow.old }
{
    let mut teller = Teller {
        alloc,
        run,
        lines: Lines {
            rest: messages,
            held: None,
        },
        entries: 0,
        sealed: 0,
        groups: 0,
    };
    let mut turns = Vec::new(alloc);
    tell(&mut teller, shadow, exits, &run.steps, &mut turns)?;
    Ok(turns)
}

/// The turns of a run over these messages.
pub(crate) fn turns_of(
    alloc: Global,
    defs: &Defs,
    scripts: &Scripts,
    exits: &Exits,
    run: &Run,
    messages: &[u8],
) -> Result<Vec<Turn>, Fault>
    requires { IsSetup defs.now scripts.now.scripts }
{
    let mut shadow = Shadow::new(alloc, defs, scripts)?;
    told_turns(alloc, &mut shadow, exits, run, messages)
}
