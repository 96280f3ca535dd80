//! A source in memory.
//!
//! A call told to fail does what a failing device may do: it fills `into` with bytes that stand nowhere.
ghost use Rattle.std.specs.Prelude.{◌≡◌, ◌<◌, ◌≤◌, ◌++◌, ◌==◌, ℕ, [], IfOk, OnErr, length, take};
ghost use Rattle.std.specs.List.{list_any};
ghost use Rattle.fp_lists.specs.Faults.{Counts};
ghost use Rattle.fp_source.specs.declared.part.Part.{Part};

use crate::failures::Failures;
use crate::portion::Portion;
use fp_lists::Bytes;
use fp_source::{Failed, Part, Source};
use std::alloc::{AllocError, Global};

/// A source in memory. It fails at the calls that it is told to fail, and nowhere else.
#[derive(Drop)]
pub struct MemorySource {
    definitions: Portion,
    scripts: Portion,
    schedule: Portion,
    messages: Portion,
    failures: Failures,
}

impl MemorySource {
    ghost use Rattle.memory_source.specs.Memory.{calls_made, fails_at, memory_faults, memory_left, part_of};
    ghost use Rattle.memory_source.specs.inside.Memory.{memory_failures};

    /// A source of these parts, in the order of `Part`, whose calls with these numbers, counted from 0, fail.
    pub fn new(
        alloc: Global,
        parts: [Bytes; 4],
        failing: &[u64],
    ) -> Result<MemorySource, AllocError>
        ensures parts { IfOk result (λ m. (p : Part) → memory_left m p ≡ part_of parts p) }
        ensures calls { IfOk result (λ m. calls_made m ≡ 0) }
        ensures faults { IfOk result (λ m. memory_faults m ≡ 0) }
        ensures fails { IfOk result (λ m. (n : ℕ) → fails_at m n ≡ list_any (λ k. k == n) failing.now) }
    {
        let failures = Failures::new(alloc, failing)?;
        let [definitions, scripts, schedule, messages] = parts;
        Ok(MemorySource {
            definitions: Portion::new(definitions),
            scripts: Portion::new(scripts),
            schedule: Portion::new(schedule),
            messages: Portion::new(messages),
            failures,
        })
    }

    /// How many calls failed. The count stays at its last value, 2^64 - 1.
    pub fn faults(&self) -> u64
        ensures { result ≡ memory_faults self.now }
    {
        self.failures.count()
    }

    // Gives as many bytes of the part as there are, or as fit.
    fn give(&mut self, part: Part, into: &mut [u8]) -> usize
        requires { 0 < length into.old }
        ensures bound { result ≤ length into.old }
        ensures bytes { memory_left self.old part ≡ take result into.new ++ memory_left self.new part }
        ensures end { result ≡ 0 → memory_left self.old part ≡ [] }
        ensures others { (p : Part) → (p ≡ part → ⊥) → memory_left self.new p ≡ memory_left self.old p }
        ensures failures { memory_failures self.new ≡ memory_failures self.old }
    {
        match part {
            Part::Definitions => self.definitions.give(into),
            Part::Scripts => self.scripts.give(into),
            Part::Schedule => self.schedule.give(into),
            Part::Messages => self.messages.give(into),
        }
    }
}

impl Source for MemorySource {
    ghost use Rattle.memory_source.specs.Memory.{IsCall, memory_faults, memory_left};

    ghost told = { λ m. Unit {0} };

    ghost left = { memory_left };

    ghost faults = { memory_faults };

    ghost holds = { λ m. 0 };

    ghost keeps = { λ first m. Unit {0} };

    ghost keeps_itself = { λ m. tt };

    ghost keeps_on = { λ a b c f g. tt };

    fn read(&mut self, part: Part, into: &mut [u8]) -> Result<usize, Failed>
        requires { 0 < length into.old }
        ensures bound { IfOk result (λ n. n ≤ length into.old) }
        ensures bytes { IfOk result (λ n. memory_left self.old part ≡ take n into.new ++ memory_left self.new part) }
        ensures end { IfOk result (λ n. n ≡ 0 → memory_left self.old part ≡ []) }
        ensures failed { OnErr result (memory_left self.new part ≡ memory_left self.old part) }
        ensures cause { Counts (memory_faults self.old) (memory_faults self.new) result }
        ensures call { IsCall self.old self.new result }
        ensures others { (p : Part) → (p ≡ part → ⊥) → memory_left self.new p ≡ memory_left self.old p }
    {
        if self.failures.next_fails() {
            into.fill(JUNK);
            return Err(Failed);
        }
        Ok(self.give(part, into))
    }
}

// What a failed read leaves.
const JUNK: u8 = 0xA5;
