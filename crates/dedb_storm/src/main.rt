//! Calls to data entry databases, as files have them: drawn ones, whose answers a second program worked out, and
//! scenarios whose answers were worked out by hand.
//!
//! The program prints a line for each file and way of asking: how many lines it judged and how many came out otherwise
//! than wanted, with what came of the first ten of these before it. `README.md` has the form of the files.
#![tactic(auto)]

mod alone;
mod bank;
mod bench;
mod cases;
mod ending;
mod fault;
mod fitting;
mod judging;
mod live;
mod tally;
mod texts;

ghost use Rattle.fp_exits.specs.Ranges.{IsRoutable, IsSpreadable};
ghost use Rattle.fp_model.specs.Exits.{route, spread};
ghost use Rattle.std.specs.Prelude.{◌≡◌};

use fault::Fault;
use fp_exits::{Exits, Router, Routing, Spreader, Spreading, fold_group, fold_place, range_place};
use fp_model::{Kind, Name};
use judging::{Asked, Way, judge_file};
use std::alloc::Global;
use std::cell::Cell;
use std::fs::File;
use std::io;
use std::io::Read;
use std::rc::Rc;
use tally::Tally;

// Files of lines with their definitions, and how the lines are asked.
const FILES: &[(&str, Way, &str, &str)] = &[
    (
        "calls.txt by dedb_calls",
        Way::Locked,
        "defs.toml",
        "calls.txt",
    ),
    (
        "calls.txt by past_calls",
        Way::Alone,
        "defs.toml",
        "calls.txt",
    ),
    (
        "customers.txt by dedb_calls",
        Way::Locked,
        "customers.toml",
        "customers.txt",
    ),
    (
        "customers.txt by past_calls",
        Way::Alone,
        "customers.toml",
        "customers.txt",
    ),
    (
        "turns.txt by dli_calls",
        Way::Turns,
        "bank.toml",
        "turns.txt",
    ),
];

fn main(rt: HostRuntime) -> io::Result<()> {
    // Exits of both kinds that keys are spread by, the first of which counts its calls, and one router.
    let randomized = Rc::new(rt.alloc(), Cell::new(0u64))?;
    let counted = randomized.clone()?;
    let fold: Spreading = Box::new(
        rt.alloc(),
        move |key: &[u8], n: u64| -> u64
            requires { IsSpreadable key.now n }
            ensures { result ≡ spread Kind.Fold n key.now }
        {
            counted.set(counted.get().wrapping_add(1));
            fold_place(key, n)
        },
    )?;
    let range: Spreading = Box::new(
        rt.alloc(),
        |key: &[u8], n: u64| -> u64
            requires { IsSpreadable key.now n }
            ensures { result ≡ spread Kind.Range n key.now }
        { range_place(key, n) },
    )?;
    let group: Routing = Box::new(
        rt.alloc(),
        |tran: &Name, n: u64| -> u64
            requires { IsRoutable tran.now n }
            ensures { result ≡ route Kind.Fold n tran.now }
        { fold_group(tran, n) },
    )?;
    let mut spreaders = Vec::new(rt.alloc());
    spreaders.push(Spreader::new(Kind::Fold, fold))?;
    spreaders.push(Spreader::new(Kind::Range, range))?;
    let mut routers = Vec::new(rt.alloc());
    routers.push(Router::new(Kind::Fold, group))?;
    let exits = Exits::new(spreaders, routers);
    judge_all(&rt, &exits, &randomized)
}

// Judges each file, and says how many of them memory was wanting for.
fn judge_all(rt: &HostRuntime, exits: &Exits, randomized: &Cell<u64>) -> io::Result<()> {
    let mut lacking = 0u64;
    for (name, way, definitions, lines) in FILES {
        if !judge_read(rt, name, *way, definitions, lines, exits, randomized)? {
            lacking = lacking.saturating_add(1);
        }
    }
    println!(rt; "{lacking} without memory")
}

// Judges a file of lines with its definitions. False where there was no memory.
fn judge_read(
    rt: &HostRuntime,
    name: &'static str,
    way: Way,
    definitions: &str,
    lines: &str,
    exits: &Exits,
    randomized: &Cell<u64>,
) -> io::Result<bool> {
    let definitions = read_file(rt, rt.alloc(), definitions)?;
    let lines = read_file(rt, rt.alloc(), lines)?;
    judge_bytes(rt, name, way, &definitions, &lines, exits, randomized)
}

// Judges lines with their definitions.
fn judge_bytes(
    rt: &HostRuntime,
    name: &'static str,
    way: Way,
    definitions: &[u8],
    lines: &[u8],
    exits: &Exits,
    randomized: &Cell<u64>,
) -> io::Result<bool> {
    let Ok(lines) = str::from_utf8(lines) else {
        return Err(io::ErrorKind::InvalidData.into());
    };
    let asked = Asked {
        name,
        way,
        definitions,
        lines,
    };
    judge(rt, &asked, exits, randomized)
}

// Judges the lines of a file, and prints what came of them.
fn judge(
    rt: &HostRuntime,
    asked: &Asked<'_>,
    exits: &Exits,
    randomized: &Cell<u64>,
) -> io::Result<bool> {
    let mut tally = Tally::new(rt.alloc(), asked.name);
    match judge_file(rt.alloc(), asked, &mut tally, exits, randomized) {
        Ok(()) => tell(rt, &tally),
        Err(Fault::Memory) => Ok(false),
        Err(fault) => refuse(rt, asked.name, &fault),
    }
}

// Prints what came of the lines of a file.
fn tell(rt: &HostRuntime, tally: &Tally) -> io::Result<bool> {
    for line in tally.told() {
        println!(rt; "{line}")?;
    }
    let verdict = tally.verdict(rt.alloc())?;
    println!(rt; "{verdict}")?;
    Ok(true)
}

// Prints why a file isn't judged to its end.
fn refuse(rt: &HostRuntime, name: &str, fault: &Fault) -> io::Result<bool> {
    println!(rt; "{name}: {fault:?}")?;
    Err(io::ErrorKind::InvalidData.into())
}

// The bytes of a file, which is read in blocks.
fn read_file(rt: &HostRuntime, alloc: Global, name: &str) -> io::Result<Vec<u8>> {
    let mut file = File::open(rt, name)?;
    let mut bytes = Vec::new(alloc);
    let mut block = [0u8; 4096];
    for _ in 0..u64::MAX {
        let count = file.read(&mut block)?;
        if count == 0 {
            break;
        }
        bytes.extend_from_slice(&block[..count])?;
    }
    Ok(bytes)
}
