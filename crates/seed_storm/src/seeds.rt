//! The seeds of a file, as text.
//!
//!     file   = head { "=== seed " number newline definitions "--- scripts" newline text { run } }
//!     run    = "--- lines" newline text "--- events" newline text "--- groups" newline digests newline { group newline }
//!     digests = log " " sent                       of the whole run
//!     group  = length " " sent " " databases " " log " " told
//!
//! A group line says of the log behind so many groups: how long it is up to its closed gate, how many bytes the run had
//! sent by then, the digest of the databases' text, and what the same run leaves and sends that begins there.

use std::alloc::{AllocError, Global};

/// A seed: its definitions and scripts, and its runs one behind the other.
#[derive(Drop)]
pub(crate) struct Seed<'a> {
    pub definitions: String,
    pub scripts: String,
    pub runs: Vec<Run<'a>>,
}

/// A run, and what is wanted of it.
#[derive(Drop)]
pub(crate) struct Run<'a> {
    pub lines: String,
    pub events: &'a str,
    pub log: &'a str,
    pub sent: &'a str,
    /// What is wanted behind each group, that from which the run begins first.
    pub groups: Vec<Group<'a>>,
}

/// What is wanted behind a group.
#[derive(Clone, Copy)]
pub(crate) struct Group<'a> {
    /// Where the closed gate stands.
    pub end: usize,
    /// How many bytes the run had sent at most.
    pub sent: usize,
    /// The digest of the databases' text.
    pub shown: &'a str,
    /// The digests of the log, and of what is sent, where the run begins here.
    pub log: &'a str,
    pub told: &'a str,
}

// The part of a name that comes first, and what is behind it; no text where there is none.
fn part_of<'a>(text: &'a str, name: &str) -> (&'a str, &'a str) {
    let text = text.strip_prefix(name).unwrap_or_default();
    text.split_once("\n--- ").unwrap_or((text, ""))
}

// The number that a word is.
fn number_of(word: Option<&str>) -> Option<usize> {
    word?.parse::<usize>().ok()
}

impl<'a> Group<'a> {
    // The group of a line.
    fn of(line: &'a str) -> Option<Group<'a>> {
        let mut words = line.split(' ');
        Some(Group {
            end: number_of(words.next())?,
            sent: number_of(words.next())?,
            shown: words.next()?,
            log: words.next()?,
            told: words.next()?,
        })
    }
}

// A text with a newline behind its last line, if it has a line.
fn lines_of(alloc: Global, text: &str) -> Result<String, AllocError> {
    if text.is_empty() {
        return Ok(String::new(alloc));
    }
    format!(in alloc; "{text}\n")
}

impl<'a> Run<'a> {
    // The run of three parts, and what is behind them. None where they haven't the form of one.
    fn of(alloc: Global, text: &'a str) -> Result<Option<(Run<'a>, &'a str)>, AllocError> {
        let (lines, rest) = part_of(text, "lines\n");
        let (events, rest) = part_of(rest, "events\n");
        let (groups, rest) = part_of(rest, "groups\n");
        let (digests, rows) = groups.split_once('\n').unwrap_or((groups, ""));
        let Some((log, sent)) = digests.split_once(' ') else {
            return Ok(None);
        };
        let mut found = Vec::new(alloc);
        for row in rows.split('\n') {
            let Some(group) = Group::of(row) else {
                return Ok(None);
            };
            found.push(group)?;
        }
        let run = Run {
            lines: lines_of(alloc, lines)?,
            events,
            log,
            sent,
            groups: found,
        };
        Ok(Some((run, rest)))
    }
}

impl<'a> Seed<'a> {
    /// The seed of a block. None where it hasn't the form of one.
    pub(crate) fn of(alloc: Global, block: &'a str) -> Result<Option<Seed<'a>>, AllocError> {
        let (definitions, rest) = part_of(block, "");
        let (scripts, rest) = part_of(rest, "scripts\n");
        let mut runs = Vec::new(alloc);
        let mut left = rest;
        for _ in 0..u64::MAX {
            if left.is_empty() {
                break;
            }
            let Some((run, behind)) = Run::of(alloc, left)? else {
                return Ok(None);
            };
            runs.push(run)?;
            left = behind;
        }
        Ok(Some(Seed {
            definitions: lines_of(alloc, definitions)?,
            scripts: lines_of(alloc, scripts)?,
            runs,
        }))
    }

    /// How many events there are before the drains.
    pub(crate) fn events(&self) -> u64 {
        let mut count = 0u64;
        for run in &self.runs {
            count = count.saturating_add(run.events.split_ascii_whitespace().count() as u64);
        }
        count
    }
}
