//! Why a call failed: what it was made on, the call, and what the system said.
ghost use Rattle.std.specs.Prelude.{◌≡◌, ◌++◌, IfOk, codes, string_bytes};
ghost use Rattle.fp_files.specs.Causes.{IsCauseLine, call_name, place_name};

use crate::{data_set, file_source};
use fp_source::Part;
use std::alloc::{AllocError, Global};
use std::io;

/// A call of the system.
#[derive(Clone, Copy)]
pub enum Call {
    Lock,
    Open,
    Length,
    Read,
    Write,
    Sync,
    /// Reading all bytes and writing them back.
    Rewrite,
}

/// What a call was made on.
#[derive(Clone, Copy)]
pub enum Place {
    Folder,
    DataSet(u16),
    Part(Part),
    Output,
}

/// A call that failed.
#[derive(Clone, Copy)]
pub struct Cause {
    pub place: Place,
    pub call: Call,
    pub error: io::Error,
}

impl Call {
    /// Its name.
    fn name(self) -> &'static str
        ensures { result.now ≡ call_name self }
    {
        match self {
            Call::Lock => "lock",
            Call::Open => "open",
            Call::Length => "length",
            Call::Read => "read",
            Call::Write => "write",
            Call::Sync => "sync",
            Call::Rewrite => "rewrite",
        }
    }
}

// The name of a file in a folder. Fails only for want of memory.
fn in_folder(alloc: Global, dir: &str, name: &str) -> Result<String, AllocError>
    ensures { IfOk result (λ path. string_bytes path ≡ dir.now ++ (codes "/" ++ name.now)) }
{
    let mut path = String::from_str(alloc, dir)?;
    path.push_str("/")?;
    path.push_str(name)?;
    Ok(path)
}

impl Place {
    // Its name, of the files of this folder. Fails only for want of memory.
    fn name(self, alloc: Global, dir: &str) -> Result<String, AllocError>
        ensures { IfOk result (λ name. string_bytes name ≡ place_name dir.now self) }
    {
        match self {
            Place::Folder => String::from_str(alloc, dir),
            Place::DataSet(set) => in_folder(alloc, dir, &data_set::name_of(alloc, set)?),
            Place::Part(part) => in_folder(alloc, dir, file_source::name_of(part)),
            Place::Output => String::from_str(alloc, "standard output"),
        }
    }
}

impl Cause {
    /// A line that says it, of a call on the files of this folder: the file, the call, and what the system said. Fails
    /// only for want of memory.
    pub fn line(&self, alloc: Global, dir: &str) -> Result<String, AllocError>
        ensures { IfOk result (λ line. IsCauseLine dir.now self.now (string_bytes line)) }
    {
        let mut line = self.place.name(alloc, dir)?;
        line.push_str(": ")?;
        line.push_str(self.call.name())?;
        line.push_str(": ")?;
        let reason = self.error.to_string(alloc)?;
        line.push_str(&reason)?;
        Ok(line)
    }
}
