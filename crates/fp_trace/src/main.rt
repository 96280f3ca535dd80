//! Shows the run of a folder turn by turn: as a table, and as a picture.
//!
//!     fp_trace table DIR      a line for each turn, and where the folder's log differs from the log that was made
//!     fp_trace picture DIR    a picture (SVG): a lane for each region
//!     fp_trace all DIR        both, one behind the other
//!
//! It steps the core over a site in memory, as a `define` and a `run` of the folder's definitions, scripts, schedule and
//! messages would. It writes nothing into the folder.
#![tactic(auto)]

mod comparing;
mod fault;
mod folder;
mod following;
mod picture;
mod running;
mod table;
mod telling;
mod turns;

ghost use Rattle.fp_core.specs.Relation.{IsSetup};
ghost use Rattle.fp_exits.specs.Kinds.{has_kind, kinds_of};
ghost use Rattle.fp_exits.specs.Ranges.{IsRoutable};
ghost use Rattle.fp_model.specs.Exits.{route};
ghost use Rattle.fp_model.specs.WellFormed.{AreDefs};
ghost use Rattle.std.specs.Prelude.{◌≡◌, [], true};

use comparing::compared;
use core_runs::{definitions, scripts};
use fault::Fault;
use folder::Folder;
use fp_exits::{Exits, Router, Routing, fold_group, range_group};
use fp_model::{Defs, Kind, Name};
use picture::picture;
use running::{Run, run_of};
use std::alloc::AllocError;
use std::env;
use std::process::ExitCode;
use table::table;
use turns::{Turn, turns_of};
use txn_lang::Scripts;

// What is to be printed.
#[derive(Clone, Copy)]
struct Wanted {
    table: bool,
    picture: bool,
}

fn main(rt: HostRuntime) -> ExitCode {
    match trace(&rt) {
        Ok(()) => ExitCode::from(0),
        Err(fault) => {
            let _ = eprintln!(rt; "fp_trace: {}", fault.text());
            ExitCode::from(1)
        }
    }
}

// Reads the words, and prints what they ask for.
fn trace(rt: &HostRuntime) -> Result<(), Fault> {
    let alloc = rt.alloc();
    let words: Vec<String> = env::args(rt)?.skip(1).collect(alloc)?;
    let [word, dir] = words.as_slice() else {
        return Err(Fault::Usage);
    };
    let wanted = Wanted {
        table: matches!(word.as_str(), "table" | "all"),
        picture: matches!(word.as_str(), "picture" | "all"),
    };
    if !wanted.table && !wanted.picture {
        return Err(Fault::Usage);
    }
    let folder = Folder::read(rt, alloc, dir)?;
    with_exits(rt, wanted, &folder)
}

// Makes a router of each kind, and prints what is wanted. No key has to be spread over areas.
fn with_exits(rt: &HostRuntime, wanted: Wanted, folder: &Folder) -> Result<(), Fault> {
    let alloc = rt.alloc();
    let fold: Routing = Box::new(
        alloc,
        |tran: &Name, n: u64| -> u64
            requires { IsRoutable tran.now n }
            ensures { result ≡ route Kind.Fold n tran.now }
        { fold_group(tran, n) },
    )?;
    let range: Routing = Box::new(
        alloc,
        |tran: &Name, n: u64| -> u64
            requires { IsRoutable tran.now n }
            ensures { result ≡ route Kind.Range n tran.now }
        { range_group(tran, n) },
    )?;
    let mut routers = Vec::new(alloc);
    routers.push(Router::new(Kind::Fold, fold))?;
    routers.push(Router::new(Kind::Range, range))?;
    let exits = Exits::new(Vec::new(alloc), routers);
    show(rt, wanted, folder, &exits)
}

// Runs what the folder has, and prints what is wanted.
fn show(rt: &HostRuntime, wanted: Wanted, folder: &Folder, exits: &Exits) -> Result<(), Fault> {
    let defs = definitions(rt.alloc(), &folder.definitions, exits)?;
    show_under(rt, wanted, folder, exits, &defs)
}

// The same, under definitions.
fn show_under(
    rt: &HostRuntime,
    wanted: Wanted,
    folder: &Folder,
    exits: &Exits,
    defs: &Defs,
) -> Result<(), Fault>
    requires defs { AreDefs defs.now }
    requires no_dedbs { defs.now.dedbs ≡ [] }
    requires router { has_kind (kinds_of exits.now).routers defs.now.router ≡ true }
{
    let scripts = scripts(rt.alloc(), &folder.scripts, defs)?;
    show_run(rt, wanted, folder, exits, defs, &scripts)
}

// The same, of scripts.
fn show_run(
    rt: &HostRuntime,
    wanted: Wanted,
    folder: &Folder,
    exits: &Exits,
    defs: &Defs,
    scripts: &Scripts,
) -> Result<(), Fault>
    requires defs { AreDefs defs.now }
    requires setup { IsSetup defs.now scripts.now.scripts }
    requires router { has_kind (kinds_of exits.now).routers defs.now.router ≡ true }
{
    let alloc = rt.alloc();
    let run = run_of(alloc, folder, defs, scripts, exits)?;
    let turns = turns_of(alloc, defs, scripts, exits, &run, &folder.messages)?;
    show_turns(rt, wanted, &run, &turns, &folder.log)
}

// Prints what is wanted of a run and its turns.
fn show_turns(
    rt: &HostRuntime,
    wanted: Wanted,
    run: &Run,
    turns: &[Turn],
    log: &[u8],
) -> Result<(), Fault> {
    let alloc = rt.alloc();
    if wanted.table {
        put_out(rt, table(alloc, turns))?;
        put_out(rt, compared(alloc, run, log))?;
    }
    if wanted.picture {
        put_out(rt, picture(alloc, turns))?;
    }
    Ok(())
}

// Prints what was made.
fn put_out(rt: &HostRuntime, made: Result<String, AllocError>) -> Result<(), Fault> {
    print!(rt; "{}", made?)?;
    Ok(())
}
