//! The part files of a folder as a source.
ghost use Rattle.std.specs.Option.{ForSome};
ghost use Rattle.std.specs.Prelude.{◌≡◌, ◌<◌, ◌≤◌, ◌∷◌, [], IfOk, None, length};
ghost use Rattle.fp_lists.specs.Faults.{Counts};
ghost use Rattle.fp_source.specs.declared.part.Part.{Part};
ghost use Rattle.fp_files.specs.Calls.HostCall.{PartRead};
ghost use Rattle.fp_files.specs.Files.{part_file_name};

use crate::cause::{Call, Cause, Place};
use crate::faults::Faults;
use crate::folder::Folder;
use crate::host::PartFile;
use crate::record::Record;
use fp_source::{Failed, Part, Source};
use std::fs::File;
use std::io;
use std::rt::Files;

/// The part files of a folder: `defs.toml`, `scripts.txt`, `schedule.txt` and `messages.txt`. Each is opened at its
/// first read. An absent one is a fault. It tells nothing of what is left.
#[derive(Drop)]
pub struct FileSource<'a, R> {
    folder: Folder<'a, R>,
    definitions: Option<PartFile>,
    scripts: Option<PartFile>,
    schedule: Option<PartFile>,
    messages: Option<PartFile>,
    // The reads so far.
    calls: Record,
    faults: Faults,
    ghost of_definitions: { ForSome definitions (λ opened. opened.part ≡ Part.Definitions) },
    ghost of_scripts: { ForSome scripts (λ opened. opened.part ≡ Part.Scripts) },
    ghost of_schedule: { ForSome schedule (λ opened. opened.part ≡ Part.Schedule) },
    ghost of_messages: { ForSome messages (λ opened. opened.part ≡ Part.Messages) },
}

impl<'a, R: Files<File = File>> FileSource<'a, R> {
    /// Touches no file.
    pub fn new(folder: Folder<'a, R>) -> FileSource<'a, R>
        ensures count { result.faults.count ≡ 0 }
        ensures first { result.faults.first ≡ None }
    {
        FileSource {
            folder,
            definitions: Option::None,
            scripts: Option::None,
            schedule: Option::None,
            messages: Option::None,
            calls: Record::new(),
            faults: Faults::new(),
        }
    }

    /// Why the first call failed that did.
    pub fn first_fault(&self) -> Option<Cause>
        ensures { result ≡ self.now.faults.first }
    {
        self.faults.first()
    }

    fn try_read(&mut self, part: Part, into: &mut [u8]) -> Result<usize, Cause>
        ensures bound { IfOk result (λ n. n ≤ length into.old) }
        ensures read { IfOk result (λ n. self.new.calls.events ≡ PartRead part n ∷ self.old.calls.events) }
        ensures faults { self.new.faults ≡ self.old.faults }
    {
        let (folder, calls) = (&self.folder, &mut self.calls);
        match part {
            Part::Definitions => read_file(folder, part, &mut self.definitions, calls, into),
            Part::Scripts => read_file(folder, part, &mut self.scripts, calls, into),
            Part::Schedule => read_file(folder, part, &mut self.schedule, calls, into),
            Part::Messages => read_file(folder, part, &mut self.messages, calls, into),
        }
    }
}

/// The name of the file of a part.
pub(crate) fn name_of(part: Part) -> &'static str
    ensures { result.now ≡ part_file_name part }
{
    match part {
        Part::Definitions => "defs.toml",
        Part::Scripts => "scripts.txt",
        Part::Schedule => "schedule.txt",
        Part::Messages => "messages.txt",
    }
}

// Reads on in the file of a part, which is opened where it isn't open.
fn read_file<R: Files<File = File>>(
    folder: &Folder<'_, R>,
    part: Part,
    file: &mut Option<PartFile>,
    calls: &mut Record,
    into: &mut [u8],
) -> Result<usize, Cause>
    requires { ForSome file.old (λ opened. opened.part ≡ part) }
    ensures bound { IfOk result (λ n. n ≤ length into.old) }
    ensures read { IfOk result (λ n. calls.new.events ≡ PartRead part n ∷ calls.old.events) }
    ensures part { ForSome file.new (λ opened. opened.part ≡ part) }
{
    if let Some(file) = file {
        return read_on(file, part, calls, into);
    }
    let mut opened = open(folder, part)?;
    let answer = read_on(&mut opened, part, calls, into);
    *file = Some(opened);
    answer
}

// The file of a part, which is opened.
fn open<R: Files<File = File>>(folder: &Folder<'_, R>, part: Part) -> Result<PartFile, Cause>
    ensures { IfOk result (λ opened. opened.part ≡ part) }
{
    match PartFile::open(folder, part) {
        Ok(opened) => Ok(opened),
        Err(error) => Err(failed(part, Call::Open, error)),
    }
}

// Reads on in the open file of a part.
fn read_on(
    file: &mut PartFile,
    part: Part,
    calls: &mut Record,
    into: &mut [u8],
) -> Result<usize, Cause>
    requires { file.old.part ≡ part }
    ensures bound { IfOk result (λ n. n ≤ length into.old) }
    ensures read { IfOk result (λ n. calls.new.events ≡ PartRead part n ∷ calls.old.events) }
    ensures part { file.new.part ≡ part }
{
    match file.read(calls, into) {
        Ok(count) => Ok(count),
        Err(error) => Err(failed(part, Call::Read, error)),
    }
}

// A call on a part that failed.
fn failed(part: Part, call: Call, error: io::Error) -> Cause {
    Cause {
        place: Place::Part(part),
        call,
        error,
    }
}

impl<R: Files<File = File>> Source for FileSource<'_, R> {
    ghost told = { λ s. ⊥ };

    ghost left = { λ s part. [] };

    ghost faults = { λ s. s.faults.count };

    ghost holds = { λ s. 0 };

    ghost keeps = { λ first s. Unit {0} };

    ghost keeps_itself = { λ s. tt };

    ghost keeps_on = { λ a b c f g. tt };

    fn read(&mut self, part: Part, into: &mut [u8]) -> Result<usize, Failed>
        ensures bound { IfOk result (λ n. n ≤ length into.old) }
        ensures cause { Counts self.old.faults.count self.new.faults.count result }
        ensures read { IfOk result (λ n. self.new.calls.events ≡ PartRead part n ∷ self.old.calls.events) }
    {
        match self.try_read(part, into) {
            Ok(count) => Ok(count),
            Err(cause) => {
                self.faults.rise(cause);
                Err(Failed)
            }
        }
    }
}
