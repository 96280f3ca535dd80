//! How many lines of a file came out as wanted, and what came of those that didn't.

use crate::fault::Fault;
use std::alloc::{AllocError, Global};

// So many are told of a file.
const MOST_TOLD: u64 = 10;

/// The lines of one file, judged in one way.
#[derive(Drop)]
pub(crate) struct Tally {
    // What is judged: the file, and by which calls.
    name: &'static str,
    // The scenario under way.
    scenario: String,
    line: u64,
    scenarios: u64,
    judged: u64,
    differ: u64,
    told: Vec<String>,
}

/// What a line of a file says.
#[derive(Clone, Copy)]
pub(crate) enum Line<'a> {
    /// A scenario begins.
    Begin,
    /// What is done or looked at, and what is to come of it.
    Step { what: &'a str, wanted: &'a str },
}

impl Tally {
    /// No line yet.
    pub(crate) fn new(alloc: Global, name: &'static str) -> Tally {
        Tally {
            name,
            scenario: String::new(alloc),
            line: 0,
            scenarios: 0,
            judged: 0,
            differ: 0,
            told: Vec::new(alloc),
        }
    }

    /// Reads the next line.
    pub(crate) fn read<'a>(&mut self, alloc: Global, text: &'a str) -> Result<Line<'a>, Fault> {
        self.line = self.line.saturating_add(1);
        if let Some(scenario) = text.strip_prefix("begin ") {
            self.scenario = String::from_str(alloc, scenario)?;
            self.scenarios = self.scenarios.saturating_add(1);
            return Ok(Line::Begin);
        }
        let (what, wanted) = text.split_once(" => ").ok_or(Fault::NotRead)?;
        Ok(Line::Step { what, wanted })
    }

    /// Holds what came of the line that was read against what was to come.
    pub(crate) fn judge(
        &mut self,
        alloc: Global,
        what: &str,
        wanted: &str,
        came: &str,
    ) -> Result<(), AllocError> {
        self.judged = self.judged.saturating_add(1);
        if came == wanted {
            return Ok(());
        }
        self.differ = self.differ.saturating_add(1);
        if self.differ <= MOST_TOLD {
            let text = self.difference(alloc, what, wanted, came)?;
            self.told.push(text)?;
        }
        Ok(())
    }

    // What is told of a line that differs.
    fn difference(
        &self,
        alloc: Global,
        what: &str,
        wanted: &str,
        came: &str,
    ) -> Result<String, AllocError> {
        format!(in alloc;
            "{}, line {}, of {}: {what} => {wanted}, but {came} came",
            self.name, self.line, self.scenario
        )
    }

    /// A line for each of the first that differ.
    pub(crate) fn told(&self) -> &[String] {
        &self.told
    }

    /// How many scenarios and lines there were, and how many of these differ.
    pub(crate) fn verdict(&self, alloc: Global) -> Result<String, AllocError> {
        format!(in alloc;
            "{}: {} scenarios, {} steps, {} differ",
            self.name, self.scenarios, self.judged, self.differ
        )
    }
}
