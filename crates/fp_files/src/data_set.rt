//! The file of a data set.
//!
//! The file is looked for when it is first needed. While there is none, the data set is empty. A file that is there is
//! settled as it is opened to be changed: each byte is read and written back where it was, and then the file is synced,
//! so that what is read is on the disk. Else bytes that an earlier program wrote and could not make durable might be
//! read as if they were there, since the system tells that once and then takes them for written. A file that is only
//! looked at stays as it is: what is read of it may be lost with the power.
//!
//! A sync or a rewrite that failed loses the data set: each later call on it fails.
ghost use Rattle.std.specs.Prelude.{◌≡◌, ◌++◌, ◌∷◌, ◌≤◌, ◌+◌, ◌^◌, ◌≢◌, ℕ, [], IfOk, IsErr, IsNone, IsSome, None, OnErr, OnOk, Some, codes, false, length, true};
ghost use Rattle.std.specs.Fmt.{decimal};
ghost use Rattle.std.specs.Option.{ForSome};
ghost use Rattle.std.specs.String.{string_bytes};
ghost use Rattle.fp_files.specs.Calls.{AreOf, IsLonger, WritesOnce, is_alone, is_locked, is_named, is_settled, is_synced, known_length, newest, owes_sync, writes_of};
ghost use Rattle.fp_files.specs.Calls.HostCall.{Made, Measured, Rewrote, Synced, Wrote};
ghost use Rattle.fp_files.specs.Files.{data_set_name};
ghost use Rattle.fp_files.specs.declared.folder.Access.{Access};

use crate::ahead::Ahead;
use crate::cause::{Call, Cause, Place};
use crate::folder::{Access, Folder};
use crate::host;
use crate::host::{Lock, SetFile};
use crate::record::Record;
use std::alloc::{AllocError, Global};
use std::fs::File;
use std::io;
use std::rt::Files;

// How long a data set is at most, in bytes.
const MOST_BYTES: u64 = 1 << 62;

/// A data set.
#[derive(Drop)]
pub(crate) struct DataSet {
    set: u16,
    access: Access,
    file: Option<SetFile>,
    // The length of the file, where it is known. Nobody else changes it while the folder is locked.
    length: Option<u64>,
    // What was read of the file before it was asked for, and wasn't written since.
    ahead: Ahead,
    // Whether the folder was synced since the file was opened, made or found absent.
    has_durable_name: bool,
    // Whether a sync or a rewrite failed. The system forgets what it couldn't write, so a later sync would promise too
    // much.
    is_lost: bool,
    // What was asked of the system.
    calls: Record,
    // Its file was opened or made by its name.
    ghost of_set: { ForSome file (λ opened. opened.set ≡ set) },
    // They are of this data set.
    ghost of: { AreOf set calls.events },
    // Each of them came behind the lock of the folder.
    ghost locked: { is_locked calls.events ≡ true },
    // That lock keeps every other program out, where the data set may be changed.
    ghost alone: { access ≡ Access.Change → is_alone calls.events ≡ true },
    // The length that is known was asked for since the file was last written. Where there is no file it is 0.
    ghost measured: { IsSome length → IsSome file → known_length calls.events ≡ length },
    ghost absent: { IsSome length → IsNone file → length ≡ Some 0 },
    // Its file was made here, or rewritten and then synced, where it may be changed.
    ghost settled: { access ≡ Access.Change → IsSome file → is_settled calls.events ≡ true },
    // While no file is open, none was made or written that isn't synced, but where that failed.
    ghost owes: { IsNone file → is_lost ≡ false → owes_sync calls.events ≡ false },
    // Where its name is durable, the folder was synced, and since then no file was made.
    ghost named: { has_durable_name ≡ true → is_named calls.events ≡ true },
}

/// The name of the file of a data set. Fails only for want of memory.
pub(crate) fn name_of(alloc: Global, set: u16) -> Result<String, AllocError>
    ensures { IfOk result (λ name. string_bytes name ≡ data_set_name set) }
{
    match set {
        0 => String::from_str(alloc, "log"),
        1 => String::from_str(alloc, "ckpt1"),
        2 => String::from_str(alloc, "ckpt2"),
        _ => area_name(alloc, set),
    }
}

fn area_name(alloc: Global, set: u16) -> Result<String, AllocError>
    ensures { IfOk result (λ name. string_bytes name ≡ codes "area" ++ decimal set) }
{
    let number = set.to_string(alloc)?;
    let mut name = String::from_str(alloc, "area")?;
    name.push_str(&number)?;
    Ok(name)
}

impl DataSet {
    /// One of a folder that is locked, whose file wasn't looked for.
    pub(crate) fn new(alloc: Global, set: u16, lock: &Lock) -> DataSet
        ensures set { result.set ≡ set }
        ensures access { result.access ≡ lock.now.access }
        ensures writes { writes_of result.calls.events ≡ [] }
    {
        DataSet {
            set,
            access: lock.access(),
            file: None,
            length: None,
            ahead: Ahead::new(alloc),
            has_durable_name: false,
            is_lost: false,
            calls: lock.calls(set),
        }
    }

    /// Its length, which is at most 2^62.
    pub(crate) fn size<R: Files<File = File>>(
        &mut self,
        folder: &Folder<'_, R>,
    ) -> Result<u64, Cause>
        ensures bound { IfOk result (λ n. n ≤ 2 ^ 62) }
        ensures measured { IfOk result (λ n. self.new.length ≡ Some n) }
        ensures refused { self.old.is_lost ≡ true → IsErr result }
        ensures lost { self.old.is_lost ≡ true → self.new.is_lost ≡ true }
        ensures access { self.new.access ≡ self.old.access }
        ensures kept { IsLonger self.old.calls.events self.new.calls.events }
        ensures writes { writes_of self.new.calls.events ≡ writes_of self.old.calls.events }
        ensures set { self.new.set ≡ self.old.set }
    {
        self.find(folder)?;
        let length = match (self.length, &self.file) {
            (Some(length), _) => length,
            (None, Some(file)) => length_of(file, &mut self.calls, self.set)?,
            (None, None) => 0,
        };
        if length > MOST_BYTES {
            let error = io::ErrorKind::FileTooLarge.into();
            return Err(failed(self.set, Call::Length, error));
        }
        self.length = Some(length);
        Ok(length)
    }

    /// Whether it may be used. Files say only when they are written whether they can grow.
    pub(crate) fn reach(&self) -> Result<(), Cause>
        ensures { self.now.is_lost ≡ true → IsErr result }
    {
        if self.is_lost {
            return Err(lost(self.set));
        }
        Ok(())
    }

    /// Fills `into` with the bytes from offset `at` on, and with zeros past the end.
    pub(crate) fn read_at<R: Files<File = File>>(
        &mut self,
        folder: &Folder<'_, R>,
        at: u64,
        into: &mut [u8],
    ) -> Result<(), Cause>
        ensures refused { self.old.is_lost ≡ true → IsErr result }
        ensures lost { self.old.is_lost ≡ true → self.new.is_lost ≡ true }
        ensures access { self.new.access ≡ self.old.access }
        ensures kept { IsLonger self.old.calls.events self.new.calls.events }
        ensures writes { writes_of self.new.calls.events ≡ writes_of self.old.calls.events }
        ensures set { self.new.set ≡ self.old.set }
    {
        let length = self.size(folder)?;
        let count = length.saturating_sub(at).min(into.len() as u64) as usize;
        if let Some(file) = &self.file {
            let answer = self
                .ahead
                .read(file, &mut self.calls, length, at, &mut into[..count]);
            answer.map_err(|error| failed(self.set, Call::Read, error))?;
        }
        into[count..].fill(0);
        Ok(())
    }

    /// Writes `from` at offset `at`. No bytes make no file.
    pub(crate) fn write_at<R: Files<File = File>>(
        &mut self,
        folder: &Folder<'_, R>,
        at: u64,
        from: &[u8],
    ) -> Result<(), Cause>
        requires { at + length from.now ≤ 2 ^ 62 }
        ensures wrote { OnOk result (from.now ≢ [] → newest self.new.calls.events ≡ Some (Wrote at from.now)) }
        ensures forgets { self.new.ahead.bytes.items ≡ [] }
        ensures unmeasured { self.new.length ≡ None }
        ensures refused { self.old.is_lost ≡ true → IsErr result }
        ensures lost { self.old.is_lost ≡ true → self.new.is_lost ≡ true }
        ensures access { self.new.access ≡ self.old.access }
        ensures kept { IsLonger self.old.calls.events self.new.calls.events }
        ensures writes { WritesOnce at from.now (writes_of self.old.calls.events) (writes_of self.new.calls.events) }
        ensures set { self.new.set ≡ self.old.set }
    {
        self.ahead.clear();
        self.length = None;
        self.find(folder)?;
        if from.is_empty() {
            return Ok(());
        }
        if self.access != Access::Change {
            let error = io::ErrorKind::PermissionDenied.into();
            return Err(failed(self.set, Call::Write, error));
        }
        let answer = match &self.file {
            Some(file) => host::write(file, &mut self.calls, at, from),
            None => {
                let file = made(folder, &mut self.calls, self.set)?;
                self.has_durable_name = false;
                let file = self.file.insert(file);
                host::write(file, &mut self.calls, at, from)
            }
        };
        answer.map_err(|error| failed(self.set, Call::Write, error))
    }

    /// Makes durable what the data set holds, and that its file is there or isn't.
    pub(crate) fn sync<R: Files<File = File>>(
        &mut self,
        folder: &Folder<'_, R>,
    ) -> Result<(), Cause>
        ensures synced { OnOk result (IsSome self.new.file → is_synced self.new.calls.events ≡ true) }
        ensures owes { OnOk result (owes_sync self.new.calls.events ≡ false) }
        ensures named { OnOk result (self.new.has_durable_name ≡ true) }
        ensures failed { OnErr result (self.new.is_lost ≡ true) }
        ensures refused { self.old.is_lost ≡ true → IsErr result }
        ensures access { self.new.access ≡ self.old.access }
        ensures kept { IsLonger self.old.calls.events self.new.calls.events }
        ensures writes { writes_of self.new.calls.events ≡ writes_of self.old.calls.events }
        ensures set { self.new.set ≡ self.old.set }
    {
        let answer = self.try_sync(folder);
        self.is_lost = answer.is_err();
        answer
    }

    fn try_sync<R: Files<File = File>>(&mut self, folder: &Folder<'_, R>) -> Result<(), Cause>
        ensures synced { OnOk result (IsSome self.new.file → is_synced self.new.calls.events ≡ true) }
        ensures owes { OnOk result (owes_sync self.new.calls.events ≡ false) }
        ensures named { OnOk result (self.new.has_durable_name ≡ true) }
        ensures refused { self.old.is_lost ≡ true → IsErr result }
        ensures access { self.new.access ≡ self.old.access }
        ensures kept { IsLonger self.old.calls.events self.new.calls.events }
        ensures writes { writes_of self.new.calls.events ≡ writes_of self.old.calls.events }
        ensures set { self.new.set ≡ self.old.set }
    {
        self.find(folder)?;
        self.sync_file()?;
        if !self.has_durable_name {
            let answer = host::sync_folder(folder, &mut self.calls);
            answer.map_err(|error| failed_on_folder(Call::Sync, error))?;
            self.has_durable_name = true;
        }
        Ok(())
    }

    // Syncs its file, if one is open.
    fn sync_file(&mut self) -> Result<(), Cause>
        requires { self.old.is_lost ≡ false }
        ensures synced { OnOk result (IsSome self.new.file → is_synced self.new.calls.events ≡ true) }
        ensures owes { OnOk result (owes_sync self.new.calls.events ≡ false) }
        ensures access { self.new.access ≡ self.old.access }
        ensures set { self.new.set ≡ self.old.set }
        ensures kept { IsLonger self.old.calls.events self.new.calls.events }
        ensures writes { writes_of self.new.calls.events ≡ writes_of self.old.calls.events }
    {
        let Some(file) = &self.file else {
            return Ok(());
        };
        let answer = host::sync(file, &mut self.calls);
        answer.map_err(|error| failed(self.set, Call::Sync, error))
    }

    // Opens its file and settles it, if there is one.
    fn find<R: Files<File = File>>(&mut self, folder: &Folder<'_, R>) -> Result<(), Cause>
        ensures refused { self.old.is_lost ≡ true → IsErr result }
        ensures lost { self.old.is_lost ≡ true → self.new.is_lost ≡ true }
        ensures usable { OnOk result (self.new.is_lost ≡ false) }
        ensures ahead { self.new.ahead ≡ self.old.ahead }
        ensures length { self.old.length ≡ None → self.new.length ≡ None }
        ensures access { self.new.access ≡ self.old.access }
        ensures kept { IsLonger self.old.calls.events self.new.calls.events }
        ensures writes { writes_of self.new.calls.events ≡ writes_of self.old.calls.events }
        ensures set { self.new.set ≡ self.old.set }
    {
        if self.is_lost {
            return Err(lost(self.set));
        }
        if self.file.is_some() {
            return Ok(());
        }
        if let Some(file) = found(folder, self.access, self.set)? {
            self.length = None;
            self.settle(folder.alloc(), &file)?;
            self.file = Some(file);
            self.has_durable_name = false;
        }
        Ok(())
    }

    // Rewrites and syncs a file that may be changed. One that is only looked at stays as it is.
    fn settle(&mut self, alloc: Global, file: &SetFile) -> Result<(), Cause>
        requires length { self.old.length ≡ None }
        requires of { file.now.set ≡ self.old.set }
        ensures settled { OnOk result (self.new.access ≡ Access.Change → is_settled self.new.calls.events ≡ true) }
        ensures failed { OnErr result (self.new.is_lost ≡ true) }
        ensures usable { self.old.is_lost ≡ false → OnOk result (self.new.is_lost ≡ false) }
        ensures ahead { self.new.ahead ≡ self.old.ahead }
        ensures length { self.new.length ≡ self.old.length }
        ensures access { self.new.access ≡ self.old.access }
        ensures kept { IsLonger self.old.calls.events self.new.calls.events }
        ensures writes { writes_of self.new.calls.events ≡ writes_of self.old.calls.events }
        ensures set { self.new.set ≡ self.old.set }
    {
        if self.access == Access::Look {
            return Ok(());
        }
        self.is_lost = true; // unless all is done
        settle(alloc, file, &mut self.calls)?;
        self.is_lost = false;
        Ok(())
    }
}

// A call on the folder that failed.
fn failed_on_folder(call: Call, error: io::Error) -> Cause {
    Cause {
        place: Place::Folder,
        call,
        error,
    }
}

// A call on a data set that failed.
fn failed(set: u16, call: Call, error: io::Error) -> Cause {
    Cause {
        place: Place::DataSet(set),
        call,
        error,
    }
}

// A call on a data set that a failed sync or rewrite lost.
fn lost(set: u16) -> Cause {
    failed(
        set,
        Call::Sync,
        io::Error::other("a sync or a rewrite failed before"),
    )
}

// Writes the bytes of a file back where they are, and makes them durable.
fn settle(alloc: Global, file: &SetFile, calls: &mut Record) -> Result<(), Cause>
    requires alone { is_alone calls.old.events ≡ true }
    requires of { AreOf file.now.set calls.old.events }
    ensures ok { OnOk result ((n : ℕ) × (calls.new.events ≡ Synced ∷ Rewrote n ∷ Measured n ∷ calls.old.events)) }
    ensures settled { is_settled calls.old.events ≡ true → is_settled calls.new.events ≡ true }
    ensures named { is_named calls.new.events ≡ is_named calls.old.events }
    ensures locked { is_locked calls.new.events ≡ is_locked calls.old.events }
    ensures kept { IsLonger calls.old.events calls.new.events }
    ensures writes { writes_of calls.new.events ≡ writes_of calls.old.events }
    ensures alone { is_alone calls.new.events ≡ is_alone calls.old.events }
{
    let set = file.set();
    let length = length_of(file, calls, set)?;
    let answer = host::rewrite(alloc, file, calls, length);
    answer.map_err(|error| failed(set, Call::Rewrite, error))?;
    let answer = host::sync(file, calls);
    answer.map_err(|error| failed(set, Call::Sync, error))
}

// The length of a file.
fn length_of(file: &SetFile, calls: &mut Record, set: u16) -> Result<u64, Cause>
    requires { AreOf file.now.set calls.old.events }
    ensures ok { IfOk result (λ n. calls.new.events ≡ Measured n ∷ calls.old.events) }
    ensures err { OnErr result (calls.new.events ≡ calls.old.events) }
    ensures kept { IsLonger calls.old.events calls.new.events }
{
    match host::length(file, calls) {
        Ok(length) => Ok(length),
        Err(error) => Err(failed(set, Call::Length, error)),
    }
}

// The file of a data set, which is opened, if there is one.
fn found<R: Files<File = File>>(
    folder: &Folder<'_, R>,
    access: Access,
    set: u16,
) -> Result<Option<SetFile>, Cause>
    ensures { IfOk result (λ file. ForSome file (λ opened. opened.set ≡ set)) }
{
    match SetFile::find(folder, access, set) {
        Ok(file) => Ok(file),
        Err(error) => Err(failed(set, Call::Open, error)),
    }
}

// The file of a data set, which is made.
fn made<R: Files<File = File>>(
    folder: &Folder<'_, R>,
    calls: &mut Record,
    set: u16,
) -> Result<SetFile, Cause>
    requires alone { is_alone calls.old.events ≡ true }
    requires of { AreOf set calls.old.events }
    ensures of { IfOk result (λ file. file.set ≡ set) }
    ensures ok { OnOk result (calls.new.events ≡ Made ∷ calls.old.events) }
    ensures err { OnErr result (calls.new.events ≡ calls.old.events) }
    ensures kept { IsLonger calls.old.events calls.new.events }
{
    match SetFile::make(folder, calls, set) {
        Ok(file) => Ok(file),
        Err(error) => Err(failed(set, Call::Open, error)),
    }
}
