//! Commands on a site in memory, one after another: what each answers, what it sends, and what the log has then.
use crate::systems::{EACH_SEALED, System, exits};
use fp_model::Bytes;
use fp_site::Site;
use fp_system::{Status, ims};
use memory_site::MemorySite;
use memory_source::MemorySource;
use std::alloc::{AllocError, Global};

// What a command answers over four parts, of which the reads with these numbers fail, and a site.
pub(crate) fn status_over(
    alloc: Global,
    words: &[&str],
    parts: [Bytes; 4],
    failing: &[u64],
    site: &mut MemorySite,
) -> Result<Status, AllocError> {
    let mut source = MemorySource::new(alloc, parts, failing)?;
    status_of(alloc, words, &mut source, site)
}

// What it answers over these sources.
fn status_of(
    alloc: Global,
    words: &[&str],
    source: &mut MemorySource,
    site: &mut MemorySite,
) -> Result<Status, AllocError> {
    let texts = texts_of(alloc, words)?;
    status_with(alloc, &texts, source, site)
}

fn status_with(
    alloc: Global,
    texts: &[String],
    source: &mut MemorySource,
    site: &mut MemorySite,
) -> Result<Status, AllocError> {
    let exits = exits(alloc)?;
    Ok(ims(alloc, texts, source, site, &exits))
}

// The four parts that a command reads.
fn parts_of(alloc: Global, system: System, input: Input<'_>) -> Result<[Bytes; 4], AllocError> {
    Ok([
        system.definitions(alloc)?,
        Bytes::from_slice(alloc, system.scripts.as_bytes())?,
        Bytes::from_slice(alloc, input.schedule.as_bytes())?,
        Bytes::from_slice(alloc, input.messages)?,
    ])
}

// The words of a command, as the program is given them.
fn texts_of(alloc: Global, words: &[&str]) -> Result<Vec<String>, AllocError> {
    let mut texts = Vec::new(alloc);
    for word in words {
        texts.push(word.to_string(alloc)?)?;
    }
    Ok(texts)
}

// What a command reads beside its system: a schedule and messages; the reads with these numbers fail.
#[derive(Clone, Copy)]
pub(crate) struct Input<'a> {
    pub(crate) schedule: &'a str,
    pub(crate) messages: &'a [u8],
    pub(crate) failing: &'a [u64],
}

pub(crate) const NOTHING: Input<'static> = Input {
    schedule: "",
    messages: b"",
    failing: &[],
};

// What a command answers over a system and a site, and what it sends.
pub(crate) fn run(
    alloc: Global,
    command: &str,
    system: System,
    input: Input<'_>,
    site: &mut MemorySite,
) -> Result<(Status, Bytes), AllocError> {
    let parts = parts_of(alloc, system, input)?;
    let before = site.sent().len();
    let status = status_over(alloc, &[command, "D"], parts, input.failing, site)?;
    let sent = site.sent().get(before..).unwrap_or(b"");
    Ok((status, Bytes::from_slice(alloc, sent)?))
}

// What it answers, where nobody looks at what it sends.
pub(crate) fn outcome(
    alloc: Global,
    command: &str,
    system: System,
    input: Input<'_>,
    site: &mut MemorySite,
) -> Result<Status, AllocError> {
    let (status, _) = run(alloc, command, system, input, site)?;
    Ok(status)
}

// What a command answers.
#[derive(Clone, Copy)]
pub(crate) enum Answer {
    Done,
    ReadFault,
    Foreign,
    // The open gate so many bytes before the log's end has no group behind it.
    Damaged { back: u64 },
    // A message line of this number is too long.
    Line(u64),
    // The entry at this place isn't legal.
    Illegal(u64),
}

impl Answer {
    // The status that it is, over a log of so many bytes.
    fn status(self, length: usize) -> Status {
        match self {
            Answer::Done => Status::Done,
            Answer::ReadFault => Status::ReadFault,
            Answer::Foreign => Status::Foreign,
            Answer::Damaged { back } => Status::Damaged {
                set: 0,
                at: (length as u64).saturating_sub(back),
            },
            Answer::Line(number) => Status::Line { number },
            Answer::Illegal(entry) => Status::Illegal { entry },
        }
    }
}

// A step, and what is wanted of it.
pub(crate) enum Step {
    // The databases are made.
    Define,
    // A run is done, and sends these lines.
    Run {
        schedule: &'static str,
        messages: &'static str,
        sent: &'static str,
    },
    // A run of these messages, and of one that is too long behind them.
    RunTooLong {
        schedule: &'static str,
        messages: &'static str,
        number: u64,
        sent: &'static str,
    },
    // A command that reads no messages is done, and sends this.
    Tell {
        command: &'static str,
        sent: &'static str,
    },
    // A command over one deposit answers so, and sends this; the reads with these numbers fail.
    End {
        command: &'static str,
        failing: &'static [u64],
        answer: Answer,
        sent: &'static str,
    },
    // A command with other scripts finds another's log: it sends nothing, and the log stays.
    Foreign {
        command: &'static str,
    },
    // From so many bytes before its end on the log has these bytes.
    Put {
        back: usize,
        bytes: &'static [u8],
    },
    // The groups of the log have so many bytes.
    GroupsLength(usize),
    // They are these.
    Groups(&'static [u8]),
}

const ONE_DEPOSIT: &[u8] = b"T1 DEPOSIT A001 10\n";

// A site of a system.
#[derive(Drop)]
pub(crate) struct Folder {
    alloc: Global,
    system: System,
    site: MemorySite,
}

impl Folder {
    // A new site.
    pub(crate) fn new(alloc: Global, system: System) -> Result<Folder, AllocError> {
        Ok(Folder {
            alloc,
            system,
            site: MemorySite::new(alloc, &[])?,
        })
    }

    // Whether a command answers so, and sends this.
    fn ends(
        &mut self,
        command: &str,
        input: Input<'_>,
        answer: Answer,
        wanted: &str,
    ) -> Result<bool, AllocError> {
        let (status, sent) = run(self.alloc, command, self.system, input, &mut self.site)?;
        let length = self.site.contents(0).len();
        Ok(status == answer.status(length) && sent.as_slice() == wanted.as_bytes())
    }

    // Whether a command that reads no messages is done, and sends this.
    pub(crate) fn tells(&mut self, command: &str, wanted: &str) -> Result<bool, AllocError> {
        self.ends(command, NOTHING, Answer::Done, wanted)
    }

    // Whether a run is done, and sends these lines.
    pub(crate) fn runs(
        &mut self,
        schedule: &str,
        messages: &str,
        wanted: &str,
    ) -> Result<bool, AllocError> {
        let input = Input {
            schedule,
            messages: messages.as_bytes(),
            failing: &[],
        };
        self.ends("run", input, Answer::Done, wanted)
    }

    // Whether the databases are made, and a run is done and sends these lines.
    pub(crate) fn defines_and_runs(
        &mut self,
        schedule: &str,
        messages: &str,
        wanted: &str,
    ) -> Result<bool, AllocError> {
        Ok(self.tells("define", "")? && self.runs(schedule, messages, wanted)?)
    }

    // Whether a run is done and sends so many lines.
    pub(crate) fn runs_lines(
        &mut self,
        schedule: &str,
        messages: &str,
        lines: usize,
    ) -> Result<bool, AllocError> {
        let input = Input {
            schedule,
            messages: messages.as_bytes(),
            failing: &[],
        };
        let (status, sent) = run(self.alloc, "run", self.system, input, &mut self.site)?;
        Ok(status == Status::Done && count_lines(sent.as_slice()) == lines)
    }

    // Whether a run of these messages and one that is too long ends so.
    pub(crate) fn runs_too_long(
        &mut self,
        schedule: &str,
        messages: &str,
        number: u64,
        wanted: &str,
    ) -> Result<bool, AllocError> {
        let mut lines = messages.as_bytes().to_vec(self.alloc)?;
        for _ in 0..2101 {
            lines.push(b'A')?;
        }
        let input = Input {
            schedule,
            messages: &lines,
            failing: &[],
        };
        self.ends("run", input, Answer::Line(number), wanted)
    }

    // Whether a command with other scripts finds another's log, which stays.
    fn is_foreign(&mut self, command: &str) -> Result<bool, AllocError> {
        let system = System {
            head: self.system.head,
            scripts: "TRAN A\nREPLY 'A'\n",
        };
        let before = self.site.contents(0).len();
        let (status, sent) = run(self.alloc, command, system, NOTHING, &mut self.site)?;
        let same = self.site.contents(0).len() == before;
        Ok(status == Status::Foreign && sent.is_empty() && same)
    }

    // Puts these bytes so many bytes before the log's end. Whether they were written.
    fn put(&mut self, back: usize, bytes: &[u8]) -> bool {
        let at = self.site.contents(0).len().saturating_sub(back) as u64;
        at < 1 << 20 && bytes.len() < 1 << 20 && self.site.write_at(0, at, bytes).is_ok()
    }

    // The log behind its front, and behind the gate of a log without groups.
    fn groups(&self) -> &[u8] {
        let front = self.system.front_length();
        self.site.contents(0).get(front..).unwrap_or(b"")
    }

    // Whether the groups of the log have so many bytes.
    pub(crate) fn has_groups_of(&self, length: usize) -> bool {
        self.groups().len() == length.saturating_add(1)
    }

    // Takes a step. Whether it came to what is wanted.
    pub(crate) fn take(&mut self, step: &Step) -> Result<bool, AllocError> {
        match *step {
            Step::Define => self.tells("define", ""),
            Step::Run {
                schedule,
                messages,
                sent,
            } => self.runs(schedule, messages, sent),
            Step::RunTooLong {
                schedule,
                messages,
                number,
                sent,
            } => self.runs_too_long(schedule, messages, number, sent),
            Step::Tell { command, sent } => self.tells(command, sent),
            Step::End {
                command,
                failing,
                answer,
                sent,
            } => self.ends(command, one_deposit(failing), answer, sent),
            Step::Foreign { command } => self.is_foreign(command),
            Step::Put { back, bytes } => Ok(self.put(back, bytes)),
            Step::GroupsLength(length) => Ok(self.has_groups_of(length)),
            Step::Groups(groups) => Ok(self.groups() == groups),
        }
    }

    // The first step that doesn't come to what is wanted, by its place.
    fn wrong_step(&mut self, steps: &[Step]) -> Result<Option<usize>, AllocError> {
        for (place, step) in steps.iter().enumerate() {
            if !self.take(step)? {
                return Ok(Some(place));
            }
        }
        Ok(None)
    }
}

// A system, and steps on a new site of it.
pub(crate) struct Row {
    pub(crate) system: System,
    pub(crate) steps: &'static [Step],
}

// The first step of a row that doesn't come to what is wanted, by its place.
fn wrong_step(alloc: Global, row: &Row) -> Result<Option<usize>, AllocError> {
    let mut folder = Folder::new(alloc, row.system)?;
    folder.wrong_step(row.steps)
}

// The first row with a step that doesn't come to what is wanted, and that step, by their places.
pub(crate) fn first_wrong(
    alloc: Global,
    rows: &[Row],
) -> Result<Option<(usize, usize)>, AllocError> {
    for (place, row) in rows.iter().enumerate() {
        if let Some(step) = wrong_step(alloc, row)? {
            return Ok(Some((place, step)));
        }
    }
    Ok(None)
}

// One deposit, where the reads with these numbers fail.
fn one_deposit(failing: &[u64]) -> Input<'_> {
    Input {
        schedule: EACH_SEALED,
        messages: ONE_DEPOSIT,
        failing,
    }
}

// How many lines of a text have some bytes, the last without a newline too.
pub(crate) fn count_lines(text: &[u8]) -> usize {
    let mut count: usize = 0;
    let mut begins = true;
    for byte in text {
        if begins && *byte != b'\n' {
            count = count.saturating_add(1);
        }
        begins = *byte == b'\n';
    }
    count
}
