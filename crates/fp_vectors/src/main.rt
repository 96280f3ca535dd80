//! Judges the public calls of the product by cases that lie in files: what goes in, and what must come out.
//!
//! Each file has cases of one kind (`Set`). The program prints a line a file: its name, how many cases it has, and how
//! many differ. Before it stand the first that differ. `README.md` has the form of each file.
#![tactic(auto)]

mod arguments;
mod cases;
mod checkpoints;
mod definitions;
mod entries;
mod fault;
mod groups;
mod intervals;
mod messages;
mod numbers;
mod scripts;
mod sets;
mod texts;

use cases::{Case, Counts};
use fault::CaseFault;
use sets::{Judge, Set};
use std::alloc::{AllocError, Global};
use std::fs::File;
use std::io;
use std::io::Read;

// How many differences are printed of a file.
const MOST_PRINTED: u64 = 10;

fn main(rt: HostRuntime) -> io::Result<()> {
    for set in Set::ALL {
        judge_file(&rt, set)?;
    }
    Ok(())
}

// Judges the cases of a file, and says how many there are and how many differ.
fn judge_file(rt: &HostRuntime, set: Set) -> io::Result<()> {
    let name = set.file_name();
    let bytes = read_file(rt, rt.alloc(), name)?;
    let Ok(text) = str::from_utf8(&bytes) else {
        return Err(io::ErrorKind::InvalidData.into());
    };
    let counts = if set.is_in_blocks() {
        judge_blocks(rt, set, text)?
    } else {
        judge_lines(rt, set, text)?
    };
    println!(rt;
        "{name}: {} cases, {} differ",
        counts.cases(),
        counts.differ()
    )
}

// The bytes of a file, which is read in blocks.
fn read_file(rt: &HostRuntime, alloc: Global, name: &str) -> io::Result<Vec<u8>> {
    let mut file = File::open(rt, name)?;
    let mut bytes = Vec::new(alloc);
    let mut block = [0u8; 4096];
    for _ in 0..u64::MAX {
        let count = file.read(&mut block)?;
        if count == 0 {
            break;
        }
        bytes.extend_from_slice(&block[..count])?;
    }
    Ok(bytes)
}

// Judges a file with a case a line.
fn judge_lines(rt: &HostRuntime, set: Set, text: &str) -> io::Result<Counts> {
    let mut judge = Judge::new(rt.alloc(), set);
    let mut counts = Counts::new();
    for line in text.lines() {
        if let Some(case) = Case::of_line(line) {
            judge_case(rt, &mut judge, &mut counts, &case)?;
        }
    }
    Ok(counts)
}

// Judges a file with a case a block.
fn judge_blocks(rt: &HostRuntime, set: Set, text: &str) -> io::Result<Counts> {
    let mut judge = Judge::new(rt.alloc(), set);
    let mut counts = Counts::new();
    let text = text.strip_suffix('\n').unwrap_or(text);
    for block in text.split("\n=== ").skip(1) {
        judge_case(rt, &mut judge, &mut counts, &Case::of_block(block))?;
    }
    Ok(counts)
}

// Judges a case, and says so where it differs.
fn judge_case(
    rt: &HostRuntime,
    judge: &mut Judge,
    counts: &mut Counts,
    case: &Case<'_>,
) -> io::Result<()> {
    let found = answer_to(rt.alloc(), judge, case)?;
    let is_same = is_wanted(rt.alloc(), case, &found)?;
    counts.add(is_same);
    if is_same || counts.differ() > MOST_PRINTED {
        return Ok(());
    }
    let found = texts::printable(rt.alloc(), &found)?;
    println!(rt; "case {}: {} {}", counts.cases(), case.key, case.head())?;
    println!(rt; "    wanted {}", case.wanted)?;
    println!(rt; "    found  {found}")
}

// What a case comes to. One that isn't of the form of its file comes to a text that none wants.
fn answer_to(alloc: Global, judge: &mut Judge, case: &Case<'_>) -> Result<Vec<u8>, AllocError> {
    match judge.answer(case) {
        Ok(found) => Ok(found),
        Err(CaseFault::Malformed) => Vec::from_slice(alloc, b"no case"),
        Err(CaseFault::Memory) => Err(AllocError),
    }
}

// Whether a case wants these bytes.
fn is_wanted(alloc: Global, case: &Case<'_>, found: &[u8]) -> Result<bool, AllocError> {
    match texts::unescaped(alloc, case.wanted) {
        Ok(wanted) => Ok(wanted.as_slice() == found),
        Err(CaseFault::Malformed) => Ok(false),
        Err(CaseFault::Memory) => Err(AllocError),
    }
}
