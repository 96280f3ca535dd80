//! A folder, and its files by their names.
ghost use Rattle.std.specs.Prelude.{◌≡◌, ◌≤◌, IfOk, length};

use std::alloc::{AllocError, Global};
use std::fs::{File, Metadata, OpenOptions, TryLockError};
use std::io::Read;
use std::os::unix::fs::OpenOptionsExt;
use std::rt::Files;
use std::{fs, io};

// A file that is made may be read and written by its owner alone.
const OWNERS_ALONE: u32 = 0o600;

/// What a program does with the data sets of a folder.
#[derive(Clone, Copy)]
pub enum Access {
    /// It reads and writes them, and no other program may use them meanwhile.
    Change,
    /// It only reads them. Others that only read may do so meanwhile.
    Look,
}

/// A folder that need not be there.
#[derive(Drop)]
pub struct Folder<'a, R> {
    rt: &'a R,
    alloc: Global,
    dir: &'a str,
}

impl<'a, R: Files<File = File>> Folder<'a, R> {
    /// Touches nothing.
    pub fn new(rt: &'a R, alloc: Global, dir: &'a str) -> Folder<'a, R>
        ensures { result.dir ≡ dir.entry }
    {
        Folder { rt, alloc, dir }
    }

    /// The memory that paths are made in.
    pub(crate) fn alloc(&self) -> Global {
        self.alloc
    }

    /// Locks the folder itself, so that nothing is made in it. The lock lasts as long as what it answers. It doesn't
    /// wait: where another program has a lock that doesn't go with this one, it fails.
    pub(crate) fn lock(&self, access: Access) -> io::Result<File> {
        let folder = File::open(self.rt, self.dir)?;
        let taken = match access {
            Access::Change => folder.try_lock(),
            Access::Look => folder.try_lock_shared(),
        };
        match taken {
            Ok(()) => Ok(folder),
            Err(TryLockError::WouldBlock) => Err(io::Error::new(
                io::ErrorKind::WouldBlock,
                "another program uses this folder",
            )),
            Err(TryLockError::Error(error)) => Err(error),
        }
    }

    /// Opens a file, to read it.
    pub(crate) fn open(&self, name: &str) -> io::Result<File> {
        let path = self.path(name)?;
        OpenOptions::new().read(true).open(self.rt, &path)
    }

    /// Opens a regular file, to read it, and to write it where it is to be changed. None where nothing has this name.
    /// What isn't a regular file, and a link that leads nowhere, is refused.
    pub(crate) fn find(&self, access: Access, name: &str) -> io::Result<Option<File>> {
        let path = self.path(name)?;
        if !self.has_regular(&path)? {
            return Ok(None);
        }
        let changes = access == Access::Change;
        let file = OpenOptions::new()
            .read(true)
            .write(changes)
            .open(self.rt, &path)?;
        Ok(Some(file))
    }

    /// Makes a file that isn't there, to read and write it.
    pub(crate) fn make(&self, name: &str) -> io::Result<File> {
        let path = self.path(name)?;
        OpenOptions::new()
            .read(true)
            .write(true)
            .create_new(true)
            .mode(OWNERS_ALONE)
            .open(self.rt, &path)
    }

    /// Makes durable which files there are.
    pub(crate) fn sync(&self) -> io::Result<()> {
        File::open(self.rt, self.dir)?.sync_all()
    }

    // Whether this path leads to a regular file. If it leads to anything else, that is refused.
    fn has_regular(&self, path: &str) -> io::Result<bool> {
        match fs::metadata(self.rt, path) {
            Ok(found) if found.is_file() => Ok(true),
            Ok(_) => Err(io::Error::new(io::ErrorKind::Unsupported, "not a regular file")),
            Err(error) if error.kind() == io::ErrorKind::NotFound => self.has_no_name(path),
            Err(error) => Err(error),
        }
    }

    // Refuses a link that leads nowhere. Else nothing has this name.
    fn has_no_name(&self, path: &str) -> io::Result<bool> {
        match fs::symlink_metadata(self.rt, path) {
            Ok(_) => Err(io::Error::new(io::ErrorKind::Unsupported, "a link that leads nowhere")),
            Err(error) if error.kind() == io::ErrorKind::NotFound => Ok(false),
            Err(error) => Err(error),
        }
    }

    fn path(&self, name: &str) -> Result<String, AllocError> {
        let dir = self.dir;
        format!(in self.alloc; "{dir}/{name}")
    }
}

/// What a file is. A call that a signal breaks off is made again.
pub(crate) fn metadata(file: &File) -> io::Result<Metadata> {
    for _ in 0..u64::MAX {
        match file.metadata() {
            Err(error) if error.kind() == io::ErrorKind::Interrupted => {}
            answer => return answer,
        }
    }
    Err(io::ErrorKind::Interrupted.into())
}

/// Reads on in a file. A call that a signal breaks off is made again.
pub(crate) fn read(file: &mut File, into: &mut [u8]) -> io::Result<usize>
    ensures { IfOk result (λ n. n ≤ length into.old) }
{
    for _ in 0..u64::MAX {
        match file.read(into) {
            Err(error) if error.kind() == io::ErrorKind::Interrupted => {}
            answer => return answer,
        }
    }
    Err(io::ErrorKind::Interrupted.into())
}
