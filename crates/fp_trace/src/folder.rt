//! The files of a folder, as the program names them.

use crate::fault::Fault;
use std::alloc::Global;
use std::{fs, io};

/// What a folder has of a run.
#[derive(Drop)]
pub(crate) struct Folder {
    pub definitions: Vec<u8>,
    pub scripts: Vec<u8>,
    pub schedule: Vec<u8>,
    pub messages: Vec<u8>,
    /// The log; no bytes where there is none.
    pub log: Vec<u8>,
}

// The bytes of a file of a folder.
fn file(rt: &HostRuntime, alloc: Global, dir: &str, name: &str) -> Result<Vec<u8>, Fault> {
    let path = format!(in alloc; "{dir}/{name}")?;
    Ok(fs::read(rt, &path)?)
}

impl Folder {
    /// Reads the files of a folder.
    pub(crate) fn read(rt: &HostRuntime, alloc: Global, dir: &str) -> Result<Folder, Fault> {
        let log = match file(rt, alloc, dir, "log") {
            Err(Fault::Input(error)) if error.kind() == io::ErrorKind::NotFound => Vec::new(alloc),
            log => log?,
        };
        Ok(Folder {
            definitions: file(rt, alloc, dir, "defs.toml")?,
            scripts: file(rt, alloc, dir, "scripts.txt")?,
            schedule: file(rt, alloc, dir, "schedule.txt")?,
            messages: file(rt, alloc, dir, "messages.txt")?,
            log,
        })
    }
}
