//! What comes of a seed, held against what is wanted: each run whole, and stopped at each call of its site.

use crate::seeds::{Group, Run, Seed};
use fp_exits::Exits;
use fp_model::Bytes;
use fp_system::{Status, ims};
use memory_site::{MemorySite, Snapshot};
use memory_source::MemorySource;
use std::alloc::{AllocError, Global};

// At how many calls a run is stopped at most.
const MOST_CALLS: u64 = 100_000;

// The basis and the prime of a digest (FNV-1a).
const BASIS: u64 = 0xcbf2_9ce4_8422_2325;

const PRIME: u64 = 0x0100_0000_01b3;

/// Where a run differs, and what of it.
#[derive(Clone, Copy)]
pub(crate) struct Difference {
    /// The call at which the run was stopped; none where it was whole.
    pub call: Option<u64>,
    pub what: &'static str,
}

// What a command is given.
#[derive(Clone, Copy)]
struct Given<'a> {
    alloc: Global,
    exits: &'a Exits,
    definitions: &'a str,
    scripts: &'a str,
    lines: &'a str,
    events: &'a str,
}

// A run that was made whole: how much had been sent before, and the site that it left.
#[derive(Clone, Copy)]
struct Whole<'a> {
    run: &'a Run<'a>,
    begun: usize,
    site: &'a MemorySite,
}

// What a run leaves that was stopped at a call.
enum Stopped {
    // The call is behind its last.
    Never,
    AsWanted,
    Differs(&'static str),
}

// The words of a command over the folder `D`.
fn words_of(alloc: Global, word: &str) -> Result<Vec<String>, AllocError> {
    let mut words = Vec::new(alloc);
    words.push(String::from_str(alloc, word)?)?;
    words.push(String::from_str(alloc, "D")?)?;
    Ok(words)
}

// Lets the old value of a place go, and puts another there.
fn put<T: Drop>(place: &mut T, value: T) {
    *place = value;
}

// 64 bits of bytes.
fn digest(alloc: Global, bytes: &[u8]) -> Result<String, AllocError> {
    let mut found = BASIS;
    for byte in bytes {
        found = (found ^ u64::from(*byte)).wrapping_mul(PRIME);
    }
    format!(in alloc; "{found:016x}")
}

// Whether bytes have a digest.
fn has_digest(alloc: Global, bytes: &[u8], wanted: &str) -> Result<bool, AllocError> {
    Ok(digest(alloc, bytes)?.as_str() == wanted)
}

// What is behind so many bytes.
fn behind(bytes: &[u8], count: usize) -> &[u8] {
    bytes.get(count..).unwrap_or_default()
}

// The first bytes, so many at most.
fn first(bytes: &[u8], count: usize) -> &[u8] {
    bytes.get(..count).unwrap_or(bytes)
}

// The number of 8 bytes at a place, zeros behind the end.
fn number_at(bytes: &[u8], at: usize) -> usize {
    let mut number = 0usize;
    for byte in first(behind(bytes, at), 8) {
        number = number.wrapping_mul(256).wrapping_add(usize::from(*byte));
    }
    number
}

// Where the first gate stands that is closed, from an open or closed one on.
fn closed_gate(log: &[u8], from: usize) -> usize {
    let mut at = from;
    for _ in 0..log.len() {
        if first(behind(log, at), 1) != b"\x01".as_slice() {
            break;
        }
        at = at
            .saturating_add(number_at(log, at.saturating_add(1)))
            .saturating_add(9);
    }
    at
}

impl Whole<'_> {
    // What the run sent.
    fn sent(&self) -> &[u8] {
        behind(self.site.sent(), self.begun)
    }

    // Where the log ended from which the run began.
    fn front(&self) -> usize {
        match self.run.groups.first() {
            Some(group) => group.end,
            None => 0,
        }
    }

    // The first thing that isn't as wanted of the run.
    fn difference(&self, alloc: Global) -> Result<Option<&'static str>, AllocError> {
        if !has_digest(alloc, self.site.contents(0), self.run.log)? {
            return Ok(Some("log"));
        }
        if !has_digest(alloc, self.sent(), self.run.sent)? {
            return Ok(Some("sent"));
        }
        Ok(None)
    }

    // The group behind which a site ends that was stopped in the run: its log is a front of the whole one up to there,
    // and no more was sent than the lines of these groups. Else what isn't so.
    fn group_of(&self, site: &MemorySite) -> Result<Group<'_>, &'static str> {
        let end = closed_gate(site.contents(0), self.front());
        let Some(group) = group_at(&self.run.groups, end) else {
            return Err("end of the log");
        };
        if first(site.contents(0), end) != first(self.site.contents(0), end) {
            return Err("front of the log");
        }
        let sent = behind(site.sent(), self.begun);
        if sent.len() > group.sent || !self.sent().starts_with(sent) {
            return Err("sent");
        }
        Ok(group)
    }
}

impl Given<'_> {
    // The parts of a command, with its messages.
    fn source(&self) -> Result<MemorySource, AllocError> {
        let alloc = self.alloc;
        let parts = [
            Bytes::from_slice(alloc, self.definitions.as_bytes())?,
            Bytes::from_slice(alloc, self.scripts.as_bytes())?,
            Bytes::from_slice(alloc, self.events.as_bytes())?,
            Bytes::from_slice(alloc, self.lines.as_bytes())?,
        ];
        MemorySource::new(alloc, parts, &[])
    }

    // What a command answers on a site.
    fn answer(&self, word: &str, site: &mut MemorySite) -> Result<Status, AllocError> {
        let words = words_of(self.alloc, word)?;
        let mut source = self.source()?;
        Ok(ims(self.alloc, &words, &mut source, site, self.exits))
    }

    // The first thing that isn't as it should be of a command on a site: its status, Done, or the digest of what it sends.
    // What is told of the one and of the other is handed in.
    fn sends(
        &self,
        word: &str,
        wanted: &str,
        site: &mut MemorySite,
        [status, text]: [&'static str; 2],
    ) -> Result<Option<&'static str>, AllocError> {
        let before = site.sent().len();
        if self.answer(word, site)? != Status::Done {
            return Ok(Some(status));
        }
        if !has_digest(self.alloc, behind(site.sent(), before), wanted)? {
            return Ok(Some(text));
        }
        Ok(None)
    }

    // The first thing that isn't as it should be of a site that was stopped in a run: a restart finds the log up to some
    // group, and the databases behind it, and no more was sent than the lines of these groups; and the run that is begun
    // again there comes to what is wanted.
    fn check_stopped(
        &self,
        whole: Whole<'_>,
        site: &mut MemorySite,
    ) -> Result<Option<&'static str>, AllocError> {
        let group = match whole.group_of(site) {
            Ok(group) => group,
            Err(what) => return Ok(Some(what)),
        };
        if let Some(what) = self.sends(
            "show",
            group.shown,
            site,
            ["status of show", "databases"],
        )? {
            return Ok(Some(what));
        }
        let of_run = ["status of the run again", "sent again"];
        if let Some(what) = self.sends("run", group.told, site, of_run)? {
            return Ok(Some(what));
        }
        let end = closed_gate(site.contents(0), whole.front());
        self.check_log(first(site.contents(0), end), group.log)
    }

    // What isn't as it should be of a log up to its closed gate: its digest, with that gate.
    fn check_log(&self, log: &[u8], wanted: &str) -> Result<Option<&'static str>, AllocError> {
        let mut log = Bytes::from_slice(self.alloc, log)?;
        log.push(0)?;
        if has_digest(self.alloc, log.as_slice(), wanted)? {
            Ok(None)
        } else {
            Ok(Some("log again"))
        }
    }

    // The first thing that isn't as it should be of an image of a crash in a run.
    fn check_image(
        &self,
        whole: Whole<'_>,
        image: Snapshot,
    ) -> Result<Option<&'static str>, AllocError> {
        let mut site = MemorySite::from_snapshot(self.alloc, image, &[])?;
        self.check_stopped(whole, &mut site)
    }

    // The first thing that isn't as it should be behind a call at which a run was stopped: in each of so many images of
    // a crash, and on the site itself, whose further calls are good.
    fn check_images(
        &self,
        whole: Whole<'_>,
        call: u64,
        images: u64,
        site: &mut MemorySite,
    ) -> Result<Option<&'static str>, AllocError> {
        for image in 0..images {
            let choice = call.wrapping_mul(images).wrapping_add(image);
            if let Some(what) = self.check_image(whole, site.snapshot_as(choice)?)? {
                return Ok(Some(what));
            }
        }
        self.check_stopped(whole, site)
    }

    // What a run leaves that is begun on a site which fails at this call.
    fn check_failing(
        &self,
        whole: Whole<'_>,
        call: u64,
        images: u64,
        site: &mut MemorySite,
    ) -> Result<Stopped, AllocError> {
        if self.answer("run", site)? == Status::Done && site.faults() == 0 {
            return Ok(Stopped::Never);
        }
        match self.check_images(whole, call, images, site)? {
            Some(what) => Ok(Stopped::Differs(what)),
            None => Ok(Stopped::AsWanted),
        }
    }

    // What a run leaves that is begun on what stood before it, and stopped at this call.
    fn check_call(
        &self,
        whole: Whole<'_>,
        from: Snapshot,
        call: u64,
        images: u64,
    ) -> Result<Stopped, AllocError> {
        let mut site = MemorySite::from_snapshot(self.alloc, from, &[call])?;
        self.check_failing(whole, call, images, &mut site)
    }

    // The first call at which a run that is stopped leaves something else than is wanted. The last call that is tried is
    // behind the run's.
    fn check_calls(
        &self,
        whole: Whole<'_>,
        from: &MemorySite,
        images: u64,
    ) -> Result<Option<Difference>, AllocError> {
        for call in 0..MOST_CALLS {
            match self.check_call(whole, from.snapshot_as(0)?, call, images)? {
                Stopped::Never => return Ok(None),
                Stopped::AsWanted => {}
                Stopped::Differs(what) => return Ok(Some(Difference {
                    call: Some(call),
                    what,
                })),
            }
        }
        Ok(Some(Difference {
            call: Some(MOST_CALLS),
            what: "end",
        }))
    }

    // The first difference of a run, made whole on a site and stopped at each call of what stood before it.
    fn check_whole(
        &self,
        run: &Run<'_>,
        from: &MemorySite,
        images: u64,
        site: &mut MemorySite,
    ) -> Result<Option<Difference>, AllocError> {
        let begun = from.sent().len();
        if self.answer("run", site)? != Status::Done {
            return Ok(Some(Difference {
                call: None,
                what: "status",
            }));
        }
        let whole = Whole { run, begun, site };
        if let Some(what) = whole.difference(self.alloc)? {
            return Ok(Some(Difference { call: None, what }));
        }
        self.check_calls(whole, from, images)
    }

    // The first difference of a run on a site; behind it the site is what the whole run leaves.
    fn check_run(
        &self,
        run: &Run<'_>,
        images: u64,
        site: &mut MemorySite,
    ) -> Result<Option<Difference>, AllocError> {
        let mut after = MemorySite::from_snapshot(self.alloc, site.snapshot_as(0)?, &[])?;
        let found = self.check_whole(run, site, images, &mut after);
        put(site, after);
        found
    }
}

// The group behind which a log ends at a place.
fn group_at<'a>(groups: &[Group<'a>], end: usize) -> Option<Group<'a>> {
    for group in groups {
        if group.end == end {
            return Some(*group);
        }
    }
    None
}

// The number of the first of a seed's runs that differs, and where: one run behind the other on a new site.
fn check_runs(
    alloc: Global,
    seed: &Seed<'_>,
    exits: &Exits,
    images: u64,
    site: &mut MemorySite,
) -> Result<Option<(usize, Difference)>, AllocError> {
    for (number, run) in seed.runs.iter().enumerate() {
        let given = Given {
            alloc,
            exits,
            definitions: &seed.definitions,
            scripts: &seed.scripts,
            lines: &run.lines,
            events: run.events,
        };
        if number == 0 && given.answer("define", site)? != Status::Done {
            return Ok(Some((
                number,
                Difference {
                    call: None,
                    what: "status of define",
                },
            )));
        }
        if let Some(found) = given.check_run(run, images, site)? {
            return Ok(Some((number, found)));
        }
    }
    Ok(None)
}

/// The number of the first run of a seed of which something else comes than is wanted, and where, each stop looked at in
/// so many images.
pub(crate) fn first_difference(
    alloc: Global,
    seed: &Seed<'_>,
    exits: &Exits,
    images: u64,
) -> Result<Option<(usize, Difference)>, AllocError> {
    let mut site = MemorySite::new(alloc, &[])?;
    check_runs(alloc, seed, exits, images, &mut site)
}
