//! The data sets of a folder, and an output, as a site.
//!
//! What is sent is gathered in a block, and written when the block is full, before the next other call, and by
//! `finish`. What a failed write leaves of the block stays in it, and the next call writes it. So no text whose `send`
//! answered Ok is left out before a later one.
//!
//! The first call on a data set locks the folder. The lock lasts as long as the site.
ghost use Rattle.std.specs.Option.{ForSome};
ghost use Rattle.std.specs.Prelude.{◌≡◌, ◌<◌, ◌≤◌, ◌+◌, ◌^◌, ◌≢◌, [], IfOk, IsErr, IsNone, IsSome, None, OnErr, OnOk, Some, length, true, vec_len};
ghost use Rattle.fp_lists.specs.Faults.{Counts, Rose};
ghost use Rattle.fp_files.specs.Calls.{is_written_out};
ghost use Rattle.fp_files.specs.Files.{untold};
ghost use Rattle.fp_files.specs.Output.{Gathers, WritesOut};
ghost use Rattle.fp_files.specs.Sets.{AreLonger, AreNumbered, AreUnwritten, HasLength, HasWritten, IsLost, IsSynced, StayLost, WriteOnce};

use crate::cause::{Call, Cause, Place};
use crate::data_set::DataSet;
use crate::faults::Faults;
use crate::folder::{Access, Folder};
use crate::host;
use crate::host::Lock;
use crate::record::Record;
use fp_site::{Failed, Site};
use std::alloc::{AllocError, Global};
use std::fs::File;
use std::io;
use std::io::{BufWriter, Write};
use std::rt::Files;

/// The data sets of a folder, in files `log`, `ckpt1`, `ckpt2`, `area3`, `area4` and so on, and an output. It tells
/// nothing of what they hold.
#[derive(Drop)]
pub struct FileSite<'a, R, W: Write + Drop> {
    folder: Folder<'a, R>,
    access: Access,
    // The lock of the folder, once it is taken.
    lock: Option<Lock>,
    sets: Vec<DataSet>,
    output: BufWriter<W>,
    // What was asked of the output.
    calls: Record,
    faults: Faults,
    ghost locked: { ForSome lock (λ taken. taken.access ≡ access) },
    ghost numbered: { AreNumbered sets.items },
}

impl<'a, R: Files<File = File>, W: Write + Drop> FileSite<'a, R, W> {
    /// Touches no file. Fails only for want of memory.
    pub fn new(
        alloc: Global,
        folder: Folder<'a, R>,
        access: Access,
        output: W,
    ) -> io::Result<FileSite<'a, R, W>>
        ensures faults { IfOk result (λ site. site.faults.count ≡ 0) }
        ensures first { IfOk result (λ site. site.faults.first ≡ None) }
        ensures access { IfOk result (λ site. site.access ≡ access) }
    {
        Ok(FileSite {
            folder,
            access,
            lock: Option::None,
            sets: Vec::new(alloc),
            output: BufWriter::new(alloc, output)?,
            calls: Record::new(),
            faults: Faults::new(),
        })
    }

    /// Writes what was sent and isn't written yet.
    pub fn finish(&mut self) -> Result<(), Failed>
        ensures written { OnOk result (is_written_out self.new.calls.events ≡ true) }
        ensures output { WritesOut W.contents self.old.output self.new.output result }
        ensures cause { Counts self.old.faults.count self.new.faults.count result }
        ensures access { self.new.access ≡ self.old.access }
        ensures lock { self.new.lock ≡ self.old.lock }
        ensures sets { self.new.sets ≡ self.old.sets }
    {
        match self.write_out() {
            Ok(()) => Ok(()),
            Err(cause) => Err(self.fail(cause)),
        }
    }

    /// What was asked of the output.
    pub fn into_calls(self) -> Record
        ensures { result ≡ self.entry.calls }
    {
        self.calls
    }

    /// Why the first call failed that did.
    pub fn first_fault(&self) -> Option<Cause>
        ensures { result ≡ self.now.faults.first }
    {
        self.faults.first()
    }

    // Counts a fault.
    fn fail(&mut self, cause: Cause) -> Failed
        ensures rose { Rose self.old.faults.count self.new.faults.count }
        ensures later { self.old.faults.count ≤ self.new.faults.count }
        ensures first { IsNone self.old.faults.first → self.new.faults.first ≡ Some cause }
        ensures kept { IsSome self.old.faults.first → self.new.faults.first ≡ self.old.faults.first }
        ensures output { self.new.output ≡ self.old.output }
        ensures calls { self.new.calls ≡ self.old.calls }
        ensures access { self.new.access ≡ self.old.access }
        ensures lock { self.new.lock ≡ self.old.lock }
        ensures sets { self.new.sets ≡ self.old.sets }
    {
        self.faults.rise(cause);
        Failed
    }

    // Writes what was sent and isn't written yet.
    fn write_out(&mut self) -> Result<(), Cause>
        ensures written { OnOk result (is_written_out self.new.calls.events ≡ true) }
        ensures output { WritesOut W.contents self.old.output self.new.output result }
        ensures faults { self.new.faults ≡ self.old.faults }
        ensures access { self.new.access ≡ self.old.access }
        ensures lock { self.new.lock ≡ self.old.lock }
        ensures sets { self.new.sets ≡ self.old.sets }
    {
        let answer = host::write_out(&mut self.output, &mut self.calls);
        answer.map_err(|error| failed(Place::Output, Call::Write, error))
    }

    // Takes the lock, where it isn't taken.
    fn hold(&mut self) -> Result<(), Cause>
        ensures locked { OnOk result (IsSome self.new.lock) }
        ensures output { self.new.output ≡ self.old.output }
        ensures faults { self.new.faults ≡ self.old.faults }
        ensures access { self.new.access ≡ self.old.access }
        ensures lock { IsSome self.old.lock → self.new.lock ≡ self.old.lock }
        ensures sets { self.new.sets ≡ self.old.sets }
    {
        if self.lock.is_none() {
            let answer = Lock::take(&self.folder, self.access);
            let lock = answer.map_err(|error| failed(Place::Folder, Call::Lock, error))?;
            self.lock = Some(lock);
        }
        Ok(())
    }

    // What comes before each call on a data set: what was sent is written, the folder is locked, and the data set has
    // its place in the list.
    fn begin(&mut self, set: u16) -> Result<(), Cause>
        ensures place { OnOk result (set < vec_len self.new.sets) }
        ensures locked { OnOk result (IsSome self.new.lock) }
        ensures output { WritesOut W.contents self.old.output self.new.output result }
        ensures faults { self.new.faults ≡ self.old.faults }
        ensures access { self.new.access ≡ self.old.access }
        ensures lock { IsSome self.old.lock → self.new.lock ≡ self.old.lock }
        ensures lost { StayLost self.old.sets.items self.new.sets.items }
        ensures kept { AreLonger self.old.sets.items self.new.sets.items }
        ensures writes { AreUnwritten self.old.sets.items self.new.sets.items }
    {
        self.write_out()?;
        self.hold()?;
        let Some(lock) = &self.lock else {
            return Err(failed(Place::Folder, Call::Lock, io::ErrorKind::Other.into()));
        };
        let answer = reach_set(self.folder.alloc(), lock, &mut self.sets, set);
        answer.map_err(|error| failed(Place::DataSet(set), Call::Open, error.into()))
    }

    fn try_size(&mut self, set: u16) -> Result<u64, Cause>
        ensures locked { OnOk result (IsSome self.new.lock) }
        ensures bound { IfOk result (λ n. n ≤ 2 ^ 62) }
        ensures length { IfOk result (λ n. HasLength self.new.sets.items set n) }
        ensures output { WritesOut W.contents self.old.output self.new.output result }
        ensures faults { self.new.faults ≡ self.old.faults }
        ensures refused { IsLost self.old.sets.items set → IsErr result }
        ensures access { self.new.access ≡ self.old.access }
        ensures lock { IsSome self.old.lock → self.new.lock ≡ self.old.lock }
        ensures lost { StayLost self.old.sets.items self.new.sets.items }
        ensures kept { AreLonger self.old.sets.items self.new.sets.items }
        ensures writes { AreUnwritten self.old.sets.items self.new.sets.items }
    {
        self.begin(set)?;
        self.sets[usize::from(set)].size(&self.folder)
    }

    fn try_reach(&mut self, set: u16) -> Result<(), Cause>
        ensures locked { OnOk result (IsSome self.new.lock) }
        ensures output { WritesOut W.contents self.old.output self.new.output result }
        ensures faults { self.new.faults ≡ self.old.faults }
        ensures refused { IsLost self.old.sets.items set → IsErr result }
        ensures access { self.new.access ≡ self.old.access }
        ensures lock { IsSome self.old.lock → self.new.lock ≡ self.old.lock }
        ensures lost { StayLost self.old.sets.items self.new.sets.items }
        ensures kept { AreLonger self.old.sets.items self.new.sets.items }
        ensures writes { AreUnwritten self.old.sets.items self.new.sets.items }
    {
        self.begin(set)?;
        self.sets[usize::from(set)].reach()
    }

    fn try_read(&mut self, set: u16, at: u64, into: &mut [u8]) -> Result<(), Cause>
        ensures locked { OnOk result (IsSome self.new.lock) }
        ensures output { WritesOut W.contents self.old.output self.new.output result }
        ensures faults { self.new.faults ≡ self.old.faults }
        ensures refused { IsLost self.old.sets.items set → IsErr result }
        ensures access { self.new.access ≡ self.old.access }
        ensures lock { IsSome self.old.lock → self.new.lock ≡ self.old.lock }
        ensures lost { StayLost self.old.sets.items self.new.sets.items }
        ensures kept { AreLonger self.old.sets.items self.new.sets.items }
        ensures writes { AreUnwritten self.old.sets.items self.new.sets.items }
    {
        self.begin(set)?;
        self.sets[usize::from(set)].read_at(&self.folder, at, into)
    }

    fn try_write(&mut self, set: u16, at: u64, from: &[u8]) -> Result<(), Cause>
        requires { at + length from.now ≤ 2 ^ 62 }
        ensures locked { OnOk result (IsSome self.new.lock) }
        ensures output { WritesOut W.contents self.old.output self.new.output result }
        ensures faults { self.new.faults ≡ self.old.faults }
        ensures refused { IsLost self.old.sets.items set → IsErr result }
        ensures wrote { OnOk result (from.now ≢ [] → HasWritten self.new.sets.items set at from.now) }
        ensures access { self.new.access ≡ self.old.access }
        ensures lock { IsSome self.old.lock → self.new.lock ≡ self.old.lock }
        ensures lost { StayLost self.old.sets.items self.new.sets.items }
        ensures kept { AreLonger self.old.sets.items self.new.sets.items }
        ensures writes { WriteOnce self.old.sets.items self.new.sets.items set at from.now }
    {
        self.begin(set)?;
        self.sets[usize::from(set)].write_at(&self.folder, at, from)
    }

    fn try_sync(&mut self, set: u16) -> Result<(), Cause>
        ensures locked { OnOk result (IsSome self.new.lock) }
        ensures output { WritesOut W.contents self.old.output self.new.output result }
        ensures faults { self.new.faults ≡ self.old.faults }
        ensures refused { IsLost self.old.sets.items set → IsErr result }
        ensures synced { OnOk result (IsSynced self.new.sets.items set) }
        ensures access { self.new.access ≡ self.old.access }
        ensures lock { IsSome self.old.lock → self.new.lock ≡ self.old.lock }
        ensures lost { StayLost self.old.sets.items self.new.sets.items }
        ensures kept { AreLonger self.old.sets.items self.new.sets.items }
        ensures writes { AreUnwritten self.old.sets.items self.new.sets.items }
    {
        self.begin(set)?;
        self.sets[usize::from(set)].sync(&self.folder)
    }
}

// A call that failed.
fn failed(place: Place, call: Call, error: io::Error) -> Cause {
    Cause { place, call, error }
}

// Lengthens the list of data sets, so that it has this one.
fn reach_set(
    alloc: Global,
    lock: &Lock,
    sets: &mut Vec<DataSet>,
    set: u16,
) -> Result<(), AllocError>
    requires { AreNumbered sets.old.items }
    ensures place { OnOk result (set < vec_len sets.new) }
    ensures lost { StayLost sets.old.items sets.new.items }
    ensures kept { AreLonger sets.old.items sets.new.items }
    ensures writes { AreUnwritten sets.old.items sets.new.items }
    ensures numbered { AreNumbered sets.new.items }
{
    while sets.len() <= usize::from(set) {
        let next = sets.len() as u16;
        sets.push(DataSet::new(alloc, next, lock))?;
    }
    Ok(())
}

impl<R: Files<File = File>, W: Write + Drop> Site for FileSite<'_, R, W> {
    ghost told = { λ s. ⊥ };

    ghost disk = { λ s. untold };

    ghost tells_reads = { λ s set. ⊥ };

    ghost bytes_read = { λ s set. 0 };

    ghost faults = { λ s. s.faults.count };

    ghost holds = { λ s. 0 };

    ghost keeps = { λ first s. Unit {0} };

    ghost keeps_itself = { λ s. tt };

    ghost keeps_on = { λ a b c f g. tt };

    ghost lawful = { λ s told. absurd told };

    fn size(&mut self, set: u16) -> Result<u64, Failed>
        ensures bound { IfOk result (λ n. n ≤ 2 ^ 62) }
        ensures length { IfOk result (λ n. HasLength self.new.sets.items set n) }
        ensures cause { Counts self.old.faults.count self.new.faults.count result }
        ensures output { WritesOut W.contents self.old.output self.new.output result }
        ensures locked { OnOk result (IsSome self.new.lock) }
        ensures refused { IsLost self.old.sets.items set → IsErr result }
        ensures access { self.new.access ≡ self.old.access }
        ensures lock { IsSome self.old.lock → self.new.lock ≡ self.old.lock }
        ensures lost { StayLost self.old.sets.items self.new.sets.items }
        ensures kept { AreLonger self.old.sets.items self.new.sets.items }
        ensures writes { AreUnwritten self.old.sets.items self.new.sets.items }
    {
        match self.try_size(set) {
            Ok(length) => Ok(length),
            Err(cause) => Err(self.fail(cause)),
        }
    }

    fn reach(&mut self, set: u16, _end: u64) -> Result<(), Failed>
        requires { _end ≤ 2 ^ 62 }
        ensures cause { Counts self.old.faults.count self.new.faults.count result }
        ensures output { WritesOut W.contents self.old.output self.new.output result }
        ensures locked { OnOk result (IsSome self.new.lock) }
        ensures refused { IsLost self.old.sets.items set → IsErr result }
        ensures access { self.new.access ≡ self.old.access }
        ensures lock { IsSome self.old.lock → self.new.lock ≡ self.old.lock }
        ensures lost { StayLost self.old.sets.items self.new.sets.items }
        ensures kept { AreLonger self.old.sets.items self.new.sets.items }
        ensures writes { AreUnwritten self.old.sets.items self.new.sets.items }
    {
        match self.try_reach(set) {
            Ok(()) => Ok(()),
            Err(cause) => Err(self.fail(cause)),
        }
    }

    fn read_at(&mut self, set: u16, at: u64, into: &mut [u8]) -> Result<(), Failed>
        ensures cause { Counts self.old.faults.count self.new.faults.count result }
        ensures output { WritesOut W.contents self.old.output self.new.output result }
        ensures locked { OnOk result (IsSome self.new.lock) }
        ensures refused { IsLost self.old.sets.items set → IsErr result }
        ensures access { self.new.access ≡ self.old.access }
        ensures lock { IsSome self.old.lock → self.new.lock ≡ self.old.lock }
        ensures lost { StayLost self.old.sets.items self.new.sets.items }
        ensures kept { AreLonger self.old.sets.items self.new.sets.items }
        ensures writes { AreUnwritten self.old.sets.items self.new.sets.items }
    {
        match self.try_read(set, at, into) {
            Ok(()) => Ok(()),
            Err(cause) => Err(self.fail(cause)),
        }
    }

    fn write_at(&mut self, set: u16, at: u64, from: &[u8]) -> Result<(), Failed>
        requires { at + length from.now ≤ 2 ^ 62 }
        ensures cause { Counts self.old.faults.count self.new.faults.count result }
        ensures output { WritesOut W.contents self.old.output self.new.output result }
        ensures locked { OnOk result (IsSome self.new.lock) }
        ensures refused { IsLost self.old.sets.items set → IsErr result }
        ensures wrote { OnOk result (from.now ≢ [] → HasWritten self.new.sets.items set at from.now) }
        ensures access { self.new.access ≡ self.old.access }
        ensures lock { IsSome self.old.lock → self.new.lock ≡ self.old.lock }
        ensures lost { StayLost self.old.sets.items self.new.sets.items }
        ensures kept { AreLonger self.old.sets.items self.new.sets.items }
        ensures writes { WriteOnce self.old.sets.items self.new.sets.items set at from.now }
    {
        match self.try_write(set, at, from) {
            Ok(()) => Ok(()),
            Err(cause) => Err(self.fail(cause)),
        }
    }

    fn sync(&mut self, set: u16) -> Result<(), Failed>
        ensures cause { Counts self.old.faults.count self.new.faults.count result }
        ensures output { WritesOut W.contents self.old.output self.new.output result }
        ensures locked { OnOk result (IsSome self.new.lock) }
        ensures refused { IsLost self.old.sets.items set → IsErr result }
        ensures synced { OnOk result (IsSynced self.new.sets.items set) }
        ensures access { self.new.access ≡ self.old.access }
        ensures lock { IsSome self.old.lock → self.new.lock ≡ self.old.lock }
        ensures lost { StayLost self.old.sets.items self.new.sets.items }
        ensures kept { AreLonger self.old.sets.items self.new.sets.items }
        ensures writes { AreUnwritten self.old.sets.items self.new.sets.items }
    {
        match self.try_sync(set) {
            Ok(()) => Ok(()),
            Err(cause) => Err(self.fail(cause)),
        }
    }

    fn send(&mut self, text: &[u8]) -> Result<(), Failed>
        ensures cause { Counts self.old.faults.count self.new.faults.count result }
        ensures sent { Gathers W.contents self.old.output self.new.output result text.now }
        ensures access { self.new.access ≡ self.old.access }
        ensures lock { self.new.lock ≡ self.old.lock }
        ensures sets { self.new.sets ≡ self.old.sets }
    {
        match host::send(&mut self.output, &mut self.calls, text) {
            Ok(()) => Ok(()),
            Err(error) => Err(self.fail(failed(Place::Output, Call::Write, error))),
        }
    }
}
