//! The calls of the system on which clauses rest. Each function makes one call, or a rewrite's reads and writes, and
//! then notes it. That it makes the call that it notes has to be read: no clause can say so.
//!
//! A data set's file is read, written and made only behind the lock of its folder, which a list of calls tells. The list
//! also tells which data set it is of, and only calls on the file of that one are noted on it.
ghost use Rattle.fp_files.specs.Calls.{AreOf, IsLonger, is_alone, is_locked};
ghost use Rattle.fp_files.specs.inside.Calls.{access_of, part_of};
ghost use Rattle.fp_files.specs.Calls.HostCall.{FolderSynced, Locked, Made, Measured, OfSet, PartRead, Read, Rewrote, RewroteSome, Sent, Synced, WroteOut, Wrote, WroteSome};
ghost use Rattle.fp_files.specs.Output.{Gathers, WritesOut};
ghost use Rattle.std.specs.Option.{ForSome};
ghost use Rattle.std.specs.Prelude.{◌≡◌, ◌≤◌, ◌∷◌, [], IfOk, OnErr, OnOk, length, true};

use crate::data_set;
use crate::file_source::name_of;
use crate::folder::{self, Access, Folder};
use crate::record::Record;
use fp_source::Part;
use std::alloc::Global;
use std::fs::File;
use std::io;
use std::io::{BufWriter, Write};
use std::os::unix::fs::FileExt;
use std::rt::Files;

// The numbers of the calls.
const WROTE: u64 = 0;

const SYNCED: u64 = 1;

const REWROTE: u64 = 2;

const FOLDER_SYNCED: u64 = 3;

const MADE: u64 = 4;

const LOCKED: u64 = 5;

const READ: u64 = 6;

const PART_READ: u64 = 7;

const SENT: u64 = 8;

const WROTE_OUT: u64 = 9;

const REWROTE_SOME: u64 = 10;

const WROTE_SOME: u64 = 11;

const MEASURED: u64 = 12;

const OF_SET: u64 = 13;

// How many bytes a rewrite reads and writes at once. Freeing a block as large as this also has the system's allocator
// keep as much for later, so that a restart doesn't give back and take again the memory of each group.
const BLOCK: u64 = 1 << 20;

/// Writes all of `from` at offset `at`. Where it fails, some bytes may be written.
pub(crate) fn write(file: &SetFile, calls: &mut Record, at: u64, from: &[u8]) -> io::Result<()>
    requires alone { is_alone calls.old.events ≡ true }
    requires of { AreOf file.now.set calls.old.events }
    ensures ok { OnOk result (calls.new.events ≡ Wrote at from.now ∷ calls.old.events) }
    ensures err { OnErr result (calls.new.events ≡ WroteSome at from.now ∷ calls.old.events) }
    ensures kept { IsLonger calls.old.events calls.new.events }
{
    match file.file.write_all_at(from, at) {
        Ok(()) => {
            calls.add(&[WROTE, at], from);
            Ok(())
        }
        Err(error) => {
            calls.add(&[WROTE_SOME, at], from);
            Err(error)
        }
    }
}

/// Fills `into` with the bytes of a file from offset `at` on.
pub(crate) fn read(file: &SetFile, calls: &mut Record, at: u64, into: &mut [u8]) -> io::Result<()>
    requires locked { is_locked calls.old.events ≡ true }
    requires of { AreOf file.now.set calls.old.events }
    ensures noted { calls.new.events ≡ Read ∷ calls.old.events }
    ensures kept { IsLonger calls.old.events calls.new.events }
{
    let answer = file.file.read_exact_at(into, at);
    calls.add(&[READ], &[]);
    answer
}

/// The length of a file.
pub(crate) fn length(file: &SetFile, calls: &mut Record) -> io::Result<u64>
    requires { AreOf file.now.set calls.old.events }
    ensures ok { IfOk result (λ n. calls.new.events ≡ Measured n ∷ calls.old.events) }
    ensures err { OnErr result (calls.new.events ≡ calls.old.events) }
    ensures kept { IsLonger calls.old.events calls.new.events }
{
    let length = folder::metadata(&file.file)?.len();
    calls.add(&[MEASURED, length], &[]);
    Ok(length)
}

/// Syncs a file.
pub(crate) fn sync(file: &SetFile, calls: &mut Record) -> io::Result<()>
    requires { AreOf file.now.set calls.old.events }
    ensures ok { OnOk result (calls.new.events ≡ Synced ∷ calls.old.events) }
    ensures err { OnErr result (calls.new.events ≡ calls.old.events) }
    ensures kept { IsLonger calls.old.events calls.new.events }
{
    file.file.sync_all()?;
    calls.add(&[SYNCED], &[]);
    Ok(())
}

/// Reads each byte of a file of this length, and writes it back where it was, so that the next sync has all of them to
/// write. Where it fails, some may be written.
pub(crate) fn rewrite(
    alloc: Global,
    file: &SetFile,
    calls: &mut Record,
    length: u64,
) -> io::Result<()>
    requires alone { is_alone calls.old.events ≡ true }
    requires of { AreOf file.now.set calls.old.events }
    ensures ok { OnOk result (calls.new.events ≡ Rewrote length ∷ calls.old.events) }
    ensures err { OnErr result (calls.new.events ≡ RewroteSome ∷ calls.old.events) }
    ensures kept { IsLonger calls.old.events calls.new.events }
{
    match write_back(alloc, &file.file, length) {
        Ok(()) => {
            calls.add(&[REWROTE, length], &[]);
            Ok(())
        }
        Err(error) => {
            calls.add(&[REWROTE_SOME], &[]);
            Err(error)
        }
    }
}

// Reads a file of this length block by block, and writes each block back where it was.
fn write_back(alloc: Global, file: &File, length: u64) -> io::Result<()> {
    let mut bytes = vec![in alloc; 0u8; BLOCK as usize]?;
    write_blocks(file, length, &mut bytes)
}

// The same, through a buffer of a block.
fn write_blocks(file: &File, length: u64, bytes: &mut [u8]) -> io::Result<()> {
    for block in 0..=length / BLOCK {
        write_block(file, length, block.saturating_mul(BLOCK), bytes)?;
    }
    Ok(())
}

// Reads the block at offset `at`, or what is left of the file there, and writes it back.
fn write_block(file: &File, length: u64, at: u64, bytes: &mut [u8]) -> io::Result<()> {
    let count = length.saturating_sub(at).min(bytes.len() as u64) as usize;
    let bytes = &mut bytes[..count];
    file.read_exact_at(bytes, at)?;
    file.write_all_at(bytes, at)
}

/// Syncs the folder.
pub(crate) fn sync_folder<R: Files<File = File>>(
    folder: &Folder<'_, R>,
    calls: &mut Record,
) -> io::Result<()>
    ensures ok { OnOk result (calls.new.events ≡ FolderSynced ∷ calls.old.events) }
    ensures err { OnErr result (calls.new.events ≡ calls.old.events) }
    ensures kept { IsLonger calls.old.events calls.new.events }
{
    folder.sync()?;
    calls.add(&[FOLDER_SYNCED], &[]);
    Ok(())
}

/// The file of a data set, which was opened or made by its name.
#[derive(Drop)]
pub(crate) struct SetFile {
    set: u16,
    file: File,
}

impl SetFile {
    /// Opens the file of a data set, if there is one.
    pub(crate) fn find<R: Files<File = File>>(
        folder: &Folder<'_, R>,
        access: Access,
        set: u16,
    ) -> io::Result<Option<SetFile>>
        ensures { IfOk result (λ file. ForSome file (λ opened. opened.set ≡ set)) }
    {
        let name = data_set::name_of(folder.alloc(), set)?;
        match folder.find(access, &name)? {
            Some(file) => Ok(Some(SetFile { set, file })),
            None => Ok(Option::None),
        }
    }

    /// Makes the file of a data set.
    pub(crate) fn make<R: Files<File = File>>(
        folder: &Folder<'_, R>,
        calls: &mut Record,
        set: u16,
    ) -> io::Result<SetFile>
        requires alone { is_alone calls.old.events ≡ true }
        requires of { AreOf set calls.old.events }
        ensures set { IfOk result (λ made. made.set ≡ set) }
        ensures ok { OnOk result (calls.new.events ≡ Made ∷ calls.old.events) }
        ensures err { OnErr result (calls.new.events ≡ calls.old.events) }
        ensures kept { IsLonger calls.old.events calls.new.events }
    {
        let name = data_set::name_of(folder.alloc(), set)?;
        let file = folder.make(&name)?;
        calls.add(&[MADE], &[]);
        Ok(SetFile { set, file })
    }

    /// The data set.
    pub(crate) fn set(&self) -> u16
        ensures { result ≡ self.now.set }
    {
        self.set
    }
}

/// The lock of a folder, which lasts as long as this.
#[derive(Drop)]
pub(crate) struct Lock {
    file: File,
    access: Access,
    calls: Record,
    ghost taken: { calls.events ≡ Locked access ∷ [] },
}

impl Lock {
    /// Locks a folder. Fails where another program has a lock that doesn't go with this one.
    pub(crate) fn take<R: Files<File = File>>(
        folder: &Folder<'_, R>,
        access: Access,
    ) -> io::Result<Lock>
        ensures { IfOk result (λ lock. lock.access ≡ access) }
    {
        let file = folder.lock(access)?;
        let mut calls = Record::new();
        calls.add(&[LOCKED, access_number(access)], &[]);
        Ok(Lock {
            file,
            access,
            calls,
        })
    }

    /// What it was taken for.
    pub(crate) fn access(&self) -> Access
        ensures { result ≡ self.now.access }
    {
        self.access
    }

    /// A list of calls of a data set that come behind this lock.
    pub(crate) fn calls(&self, set: u16) -> Record
        ensures events { result.events ≡ OfSet set ∷ self.now.calls.events }
        ensures of { AreOf set result.events }
    {
        let mut calls = Record::new();
        calls.add(&[LOCKED, access_number(self.access)], &[]);
        calls.add(&[OF_SET, u64::from(set)], &[]);
        calls
    }
}

// The number of an access.
fn access_number(access: Access) -> u64
    ensures { access_of result ≡ access }
{
    match access {
        Access::Change => 0,
        Access::Look => 1,
    }
}

/// The file of a part, which was opened by its name.
#[derive(Drop)]
pub(crate) struct PartFile {
    part: Part,
    file: File,
}

impl PartFile {
    /// Opens the file of a part.
    pub(crate) fn open<R: Files<File = File>>(
        folder: &Folder<'_, R>,
        part: Part,
    ) -> io::Result<PartFile>
        ensures { IfOk result (λ opened. opened.part ≡ part) }
    {
        let file = folder.open(name_of(part))?;
        Ok(PartFile { part, file })
    }

    /// Reads on in the file.
    pub(crate) fn read(&mut self, calls: &mut Record, into: &mut [u8]) -> io::Result<usize>
        ensures bound { IfOk result (λ n. n ≤ length into.old) }
        ensures ok { IfOk result (λ n. calls.new.events ≡ PartRead self.old.part n ∷ calls.old.events) }
        ensures err { OnErr result (calls.new.events ≡ calls.old.events) }
        ensures part { self.new.part ≡ self.old.part }
    {
        let count = folder::read(&mut self.file, into)?;
        calls.add(&[PART_READ, number_of(self.part), count as u64], &[]);
        Ok(count)
    }
}

// The number of a part.
fn number_of(part: Part) -> u64
    ensures { part_of result ≡ part }
{
    match part {
        Part::Definitions => 0,
        Part::Scripts => 1,
        Part::Schedule => 2,
        Part::Messages => 3,
    }
}

/// Takes in text for the output, and writes what fills its block. It is noted also where it fails, since some of the
/// text may be taken in.
pub(crate) fn send<W: Write + Drop>(
    output: &mut BufWriter<W>,
    calls: &mut Record,
    text: &[u8],
) -> io::Result<()>
    ensures sent { Gathers W.contents output.old output.new result text.now }
    ensures noted { calls.new.events ≡ Sent ∷ calls.old.events }
{
    let answer = output.write_all(text);
    calls.add(&[SENT], &[]);
    answer
}

/// Writes all text that was taken in to the output, and flushes it.
pub(crate) fn write_out<W: Write + Drop>(
    output: &mut BufWriter<W>,
    calls: &mut Record,
) -> io::Result<()>
    ensures output { WritesOut W.contents output.old output.new result }
    ensures ok { OnOk result (calls.new.events ≡ WroteOut ∷ calls.old.events) }
    ensures err { OnErr result (calls.new.events ≡ calls.old.events) }
{
    output.flush()?;
    calls.add(&[WROTE_OUT], &[]);
    Ok(())
}
