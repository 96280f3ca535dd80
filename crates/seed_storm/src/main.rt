//! A storm of drawn systems: definitions, scripts, schedules and several runs over one log with numbered messages that
//! are sent again. Each run is made whole, and stopped at each call of its site; what stands then is looked at in images
//! of a crash and on the site itself, and the run is begun again there.
//!
//! The first word names a file of seeds with what is wanted of each (`seeds`), which a second program wrote; the second
//! word says in how many images each stop is looked at. The program prints which seeds differ, where and in what, and
//! then how many there are.
#![tactic(auto)]

mod judging;
mod seeds;

ghost use Rattle.fp_exits.specs.Ranges.{IsRoutable};
ghost use Rattle.fp_model.specs.Exits.{route};
ghost use Rattle.std.specs.Prelude.{◌≡◌};

use fp_exits::{Exits, Router, Routing, fold_group};
use fp_model::{Kind, Name};
use judging::{Difference, first_difference};
use seeds::Seed;
use std::{env, fs, io};

fn main(rt: HostRuntime) -> io::Result<()> {
    let alloc = rt.alloc();
    let words: Vec<String> = env::args(&rt)?.skip(1).collect(alloc)?;
    let [name, images] = words.as_slice() else {
        return Err(io::ErrorKind::InvalidInput.into());
    };
    let Ok(images) = images.parse::<u64>() else {
        return Err(io::ErrorKind::InvalidInput.into());
    };
    let bytes = fs::read(&rt, name)?;
    let Ok(text) = str::from_utf8(&bytes) else {
        return Err(io::ErrorKind::InvalidData.into());
    };
    // One router, FOLD.
    let fold: Routing = Box::new(
        alloc,
        |tran: &Name, n: u64| -> u64
            requires { IsRoutable tran.now n }
            ensures { result ≡ route Kind.Fold n tran.now }
        { fold_group(tran, n) },
    )?;
    let mut routers = Vec::new(alloc);
    routers.push(Router::new(Kind::Fold, fold))?;
    let exits = Exits::new(Vec::new(alloc), routers);
    judge_all(&rt, text, images, &exits)
}

// Judges the seeds of a file in turn.
fn judge_all(rt: &HostRuntime, text: &str, images: u64, exits: &Exits) -> io::Result<()> {
    let alloc = rt.alloc();
    let (mut seeds, mut events, mut differ) = (0u64, 0u64, 0u64);
    let text = text.strip_suffix('\n').unwrap_or(text);
    for block in text.split("\n=== seed ").skip(1) {
        let (number, body) = block.split_once('\n').unwrap_or((block, ""));
        let Some(seed) = Seed::of(alloc, body)? else {
            return Err(io::ErrorKind::InvalidData.into());
        };
        seeds = seeds.saturating_add(1);
        events = events.saturating_add(seed.events());
        if let Some((run, found)) = first_difference(alloc, &seed, exits, images)? {
            differ = differ.saturating_add(1);
            tell(rt, number, run, found)?;
        }
    }
    println!(rt; "{seeds} seeds, {events} events, {differ} differ")
}

// Says where a seed differs.
fn tell(rt: &HostRuntime, number: &str, run: usize, found: Difference) -> io::Result<()> {
    let what = found.what;
    match found.call {
        Some(call) => println!(rt; "seed {number}, run {run}, stopped at call {call}: {what}"),
        None => println!(rt; "seed {number}, run {run}: {what}"),
    }
}
