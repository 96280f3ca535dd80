//! Runs over folders: what is done with files and with a site over them, and what must come of it.
use crate::steps::{Answer, Step, ended, first_wrong};
use fp_files::{Access, Cause, FileSite, Folder};
use std::alloc::{AllocError, Global};
use std::fs;
use std::fs::File;
use std::os::unix::fs::symlink;

/// A site over a folder, which sends to a file.
pub(super) type TestSite<'a> = FileSite<'a, HostRuntime, File>;

/// What is done, and what must come of it.
pub(super) enum Deed {
    /// A file is made with these bytes.
    Put(&'static str, &'static [u8]),
    /// A folder is made.
    Make(&'static str),
    /// It is removed.
    Remove(&'static str),
    /// A link is made: where it leads, and its name.
    Link(&'static str, &'static str),
    /// A file holds these bytes.
    Holds(&'static str, &'static [u8]),
    /// Nothing has this name.
    IsAbsent(&'static str),
    /// The steps on a data set answer so.
    Goes(u16, &'static [(Step, Answer)]),
    /// Whether what was sent is written at the end.
    Ends(bool),
}

/// A run over a new folder.
pub(super) struct Run {
    /// The folder, and what is done before there is a site.
    pub(super) folder: &'static str,
    pub(super) before: &'static [Deed],
    /// The folder of the site, what it may do, and the file that it sends to.
    pub(super) site: (&'static str, Access, &'static str),
    pub(super) deeds: &'static [Deed],
}

/// Makes a folder of this name, empty.
pub(super) fn is_fresh(rt: &HostRuntime, dir: &str) -> bool {
    let _ = fs::remove_dir_all(rt, dir);
    fs::create_dir(rt, dir).is_ok()
}

/// Removes a folder with all that stands in it.
pub(super) fn is_removed(rt: &HostRuntime, dir: &str) -> bool {
    fs::remove_dir_all(rt, dir).is_ok()
}

/// Makes a file with these bytes.
pub(super) fn is_put(rt: &HostRuntime, name: &str, bytes: &[u8]) -> bool {
    fs::write(rt, name, bytes).is_ok()
}

/// Whether the file of this name holds these bytes.
pub(super) fn holds(rt: &HostRuntime, name: &str, bytes: &[u8]) -> bool {
    match fs::read(rt, name) {
        Ok(found) => found.as_slice() == bytes,
        Err(_) => false,
    }
}

/// Whether nothing has this name.
pub(super) fn is_absent(rt: &HostRuntime, name: &str) -> bool {
    matches!(fs::exists(rt, name), Ok(false))
}

/// A site over a folder, which sends to the file of this name.
pub(super) fn site_in<'a>(
    rt: &'a HostRuntime,
    dir: &'a str,
    access: Access,
    output: &str,
) -> Option<TestSite<'a>> {
    match fs::create(rt, output) {
        Ok(output) => {
            FileSite::new(rt.alloc(), Folder::new(rt, rt.alloc(), dir), access, output).ok()
        }
        Err(_) => None,
    }
}

/// Whether a cause in this folder is told so.
pub(super) fn is_told(alloc: Global, cause: &Cause, dir: &str, wanted: &str) -> bool {
    match cause.line(alloc, dir) {
        Ok(line) => line.as_str() == wanted,
        Err(AllocError) => false,
    }
}

/// Whether the steps on a data set of a site answer so.
pub(super) fn goes(site: &mut TestSite<'_>, set: u16, rows: &[(Step, Answer)]) -> bool {
    first_wrong(site, set, rows).is_none()
}

// Whether a deed with files comes out as it says.
fn is_done(rt: &HostRuntime, deed: &Deed) -> bool {
    match *deed {
        Deed::Put(name, bytes) => is_put(rt, name, bytes),
        Deed::Make(name) => fs::create_dir(rt, name).is_ok(),
        Deed::Remove(name) => fs::remove_dir(rt, name).is_ok(),
        Deed::Link(target, name) => symlink(rt, target, name).is_ok(),
        Deed::Holds(name, bytes) => holds(rt, name, bytes),
        Deed::IsAbsent(name) => is_absent(rt, name),
        _ => false,
    }
}

// Whether a deed comes out as it says.
fn comes_out(rt: &HostRuntime, site: &mut TestSite<'_>, deed: &Deed) -> bool {
    match *deed {
        Deed::Goes(set, rows) => goes(site, set, rows),
        Deed::Ends(is_written) => site.finish().is_ok() == is_written,
        _ => is_done(rt, deed),
    }
}

// The place of the first deed that comes out otherwise.
fn first_other(rt: &HostRuntime, site: &mut TestSite<'_>, deeds: &[Deed]) -> Option<usize> {
    for (place, deed) in deeds.iter().enumerate() {
        if !comes_out(rt, site, deed) {
            return Some(place);
        }
    }
    None
}

// Whether all deeds with files come out as they say.
fn are_done(rt: &HostRuntime, deeds: &[Deed]) -> bool {
    for deed in deeds {
        if !is_done(rt, deed) {
            return false;
        }
    }
    true
}

/// The place of the first deed of a run that comes out otherwise; the number of deeds where there is no site.
pub(super) fn first_other_of(rt: &HostRuntime, run: &Run) -> Option<usize> {
    if !is_fresh(rt, run.folder) || !are_done(rt, run.before) {
        return Some(run.deeds.len());
    }
    let (dir, access, output) = run.site;
    match site_in(rt, dir, access, output) {
        Some(mut site) => {
            let other = first_other(rt, &mut site, run.deeds);
            ended(site, other)
        }
        None => Some(run.deeds.len()),
    }
}
