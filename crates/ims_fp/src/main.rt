//! The program: its words, the files of a folder, standard output, and an exit status.
//!
//! The last word names a folder. Its part files are the source, its data sets the site. Neither touches a file before
//! a call needs one. Where the site or the source failed, the first error of the system is told on a second line.
#![tactic(auto)]

ghost use Rattle.std.specs.Prelude.{◌≡◌, ◌≢◌, IsErr, IsOk, None, true};
ghost use Rattle.fp_exits.specs.Ranges.{IsRoutable, IsSpreadable};
ghost use Rattle.fp_model.specs.Exits.{route, spread};
ghost use Rattle.command_tasks.specs.declared.status.Status.{Status};
ghost use Rattle.fp_files.specs.Calls.{is_written_out};

use fp_exits::{
    Exits, Router, Routing, Spreader, Spreading, fold_group, fold_place, range_group, range_place,
};
use fp_files::{Access, Cause, FileSite, FileSource, Folder, Record};
use fp_model::{Kind, Name};
use fp_site::Failed;
use fp_system::{Status, fault_text, ims};
use std::alloc::AllocError;
use std::fs::File;
use std::os::fd::AsRawFd;
use std::process::ExitCode;
use std::{env, io};

// The descriptors of standard input, output and error are those up to this one.
const LAST_STANDARD: i32 = 2;

// How the program ends, and the line that says why the site or the source failed.
#[derive(Drop)]
struct Ending {
    status: Status,
    cause: Option<String>,
    // What was asked of the output.
    calls: Record,
    // It is Done only behind a write of all that was sent.
    ghost written: { status ≡ Status.Done → is_written_out calls.events ≡ true },
}

impl Ending {
    // Before anything was asked of the output.
    fn early(status: Status) -> Ending
        requires { status ≢ Status.Done }
    {
        Ending {
            status,
            cause: Option::None,
            calls: Record::new(),
        }
    }
}

fn main(rt: HostRuntime) -> ExitCode {
    let Ok(_held) = fill_standard(&rt) else {
        return ExitCode::from(Status::SiteFault.number());
    };
    let ending = ending_of(&rt);
    report(&rt, &ending);
    ExitCode::from(ending.status.number())
}

// Opens something for each of the descriptors 0, 1 and 2 that is missing. A data set that got its number would be
// written over with what is sent. A folder can't be written, so what is sent is a fault, as before.
fn fill_standard(rt: &HostRuntime) -> io::Result<Vec<File>> {
    let mut held = Vec::new(rt.alloc());
    for _ in 0..=LAST_STANDARD {
        let file = File::open(rt, "/")?;
        if file.as_raw_fd() > LAST_STANDARD {
            return Ok(held);
        }
        held.push(file)?;
    }
    Ok(held)
}

// Says what went wrong on standard error, if anything did. Nobody is left to tell that this fails.
fn report(rt: &HostRuntime, ending: &Ending) {
    let Ok(text) = fault_text(rt.alloc(), &ending.status) else {
        return;
    };
    if let Ok(line) = str::from_utf8(text.as_slice())
        && !line.is_empty()
    {
        let _ = eprintln!(rt; "{line}");
    }
    if let Some(cause) = &ending.cause {
        let _ = eprintln!(rt; "{cause}");
    }
}

// A word that isn't UTF-8 is no word of a command.
fn ending_of(rt: &HostRuntime) -> Ending {
    match words(rt) {
        Ok(words) => match with_exits(rt, &words) {
            Ok(ending) => ending,
            Err(AllocError) => Ending::early(Status::NoMemory),
        },
        Err(e) if e.kind() == io::ErrorKind::OutOfMemory => Ending::early(Status::NoMemory),
        Err(_) => Ending::early(Status::Usage),
    }
}

// The words behind the program's name.
fn words(rt: &HostRuntime) -> io::Result<Vec<String>> {
    Ok(env::args(rt)?.skip(1).collect(rt.alloc())?)
}

// Makes the installation's exits, one of each kind for keys and for transactions, and does what the words say.
fn with_exits(rt: &HostRuntime, words: &[String]) -> Result<Ending, AllocError> {
    let alloc = rt.alloc();
    let fold: Spreading = Box::new(
        alloc,
        |key: &[u8], n: u64| -> u64
            requires { IsSpreadable key.now n }
            ensures { result ≡ spread Kind.Fold n key.now }
        { fold_place(key, n) },
    )?;
    let range: Spreading = Box::new(
        alloc,
        |key: &[u8], n: u64| -> u64
            requires { IsSpreadable key.now n }
            ensures { result ≡ spread Kind.Range n key.now }
        { range_place(key, n) },
    )?;
    let mut spreaders = Vec::new(alloc);
    spreaders.push(Spreader::new(Kind::Fold, fold))?;
    spreaders.push(Spreader::new(Kind::Range, range))?;
    let fold: Routing = Box::new(
        alloc,
        |tran: &Name, n: u64| -> u64
            requires { IsRoutable tran.now n }
            ensures { result ≡ route Kind.Fold n tran.now }
        { fold_group(tran, n) },
    )?;
    let range: Routing = Box::new(
        alloc,
        |tran: &Name, n: u64| -> u64
            requires { IsRoutable tran.now n }
            ensures { result ≡ route Kind.Range n tran.now }
        { range_group(tran, n) },
    )?;
    let mut routers = Vec::new(alloc);
    routers.push(Router::new(Kind::Fold, fold))?;
    routers.push(Router::new(Kind::Range, range))?;
    Ok(served(rt, words, &Exits::new(spreaders, routers)))
}

// Does what the words say. What was sent is written before it answers, or it isn't `Done`.
fn served(rt: &HostRuntime, words: &[String], exits: &Exits) -> Ending {
    let alloc = rt.alloc();
    let dir = words.last().map_or("", |word| word.as_str());
    let folder = Folder::new(rt, alloc, dir);
    let Ok(mut site) = FileSite::new(alloc, folder, access_for(words), io::writer(rt)) else {
        return Ending::early(Status::NoMemory);
    };
    let mut source = FileSource::new(Folder::new(rt, alloc, dir));
    let status = ims(alloc, words, &mut source, &mut site, exits);
    let status = after(status, site.finish());
    let cause = cause_of(&status, source.first_fault(), site.first_fault());
    Ending {
        cause: cause.and_then(|cause| cause.line(alloc, dir).ok()),
        status,
        calls: site.into_calls(),
    }
}

// What is done with the folder: `show`, `log` and `audit` only look at it, so one that may only be read serves them.
fn access_for(words: &[String]) -> Access {
    match words.first().map(|word| word.as_str()) {
        Option::Some("show" | "log" | "audit") => Access::Look,
        _ => Access::Change,
    }
}

// How the program ends, once the last of the output is written or not: it isn't `Done` where it isn't written.
fn after(status: Status, written: Result<(), Failed>) -> Status
    ensures done { result ≡ Status.Done → IsOk written }
    ensures fault { IsErr written → status ≡ Status.Done → result ≡ Status.SiteFault }
    ensures others { status ≢ Status.Done → result ≡ status }
    ensures written { IsOk written → result ≡ status }
{
    match (status, written) {
        (Status::Done, Err(Failed)) => Status::SiteFault,
        (status, _) => status,
    }
}

// The cause that is told behind a status: the first fault of the object that failed, and none behind any other.
fn cause_of(status: &Status, source: Option<Cause>, site: Option<Cause>) -> Option<Cause>
    ensures source { status.now ≡ Status.ReadFault → result ≡ source }
    ensures site { status.now ≡ Status.SiteFault → result ≡ site }
    ensures others { status.now ≢ Status.ReadFault → status.now ≢ Status.SiteFault → result ≡ None }
{
    match status {
        Status::ReadFault => source,
        Status::SiteFault => site,
        _ => Option::None,
    }
}
