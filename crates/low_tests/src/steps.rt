//! Steps on one data set of any site, and what each must answer.
use fp_site::{Failed, Site};

/// A call of a site.
pub(crate) enum Step {
    Size,
    Reach,
    /// Four bytes from this offset on.
    Read(u64),
    /// These bytes, eight at most, at this offset.
    Write(u32, &'static [u8]),
    Sync,
    Send(&'static [u8]),
}

/// What it answers.
pub(crate) enum Answer {
    Done,
    Failed,
    Length(u64),
    Bytes([u8; 4]),
}

/// Lets a value go, and hands on what was said of it. Of a value with many parts, a function that lets it go itself is
/// dear to prove.
pub(crate) fn ended<T: Drop, U>(_value: T, said: U) -> U {
    said
}

/// Takes the steps on a data set. The place of the first that answers something else.
pub(crate) fn first_wrong<T: Site>(
    site: &mut T,
    set: u16,
    rows: &[(Step, Answer)],
) -> Option<usize> {
    for (place, (step, wanted)) in rows.iter().enumerate() {
        if !answers(site, set, step, wanted) {
            return Some(place);
        }
    }
    None
}

/// Takes one step on a data set, and says whether it answers so.
pub(crate) fn answers<T: Site>(site: &mut T, set: u16, step: &Step, wanted: &Answer) -> bool {
    match *step {
        Step::Size => has_size(site.size(set), wanted),
        Step::Reach => ends(site.reach(set, 1 << 62), wanted),
        Step::Read(at) => reads(site, set, at, wanted),
        Step::Write(at, bytes) => {
            let few = &bytes[..bytes.len().min(8)];
            ends(site.write_at(set, u64::from(at), few), wanted)
        }
        Step::Sync => ends(site.sync(set), wanted),
        Step::Send(text) => ends(site.send(text), wanted),
    }
}

fn ends(answer: Result<(), Failed>, wanted: &Answer) -> bool {
    match wanted {
        Answer::Done => answer.is_ok(),
        Answer::Failed => answer.is_err(),
        _ => false,
    }
}

fn has_size(answer: Result<u64, Failed>, wanted: &Answer) -> bool {
    match (answer, wanted) {
        (Ok(length), Answer::Length(wanted)) => length == *wanted,
        (Err(Failed), Answer::Failed) => true,
        _ => false,
    }
}

fn reads<T: Site>(site: &mut T, set: u16, at: u64, wanted: &Answer) -> bool {
    let mut into = [9u8; 4];
    match (site.read_at(set, at, &mut into), wanted) {
        (Ok(()), Answer::Bytes(wanted)) => into == *wanted,
        (Err(Failed), Answer::Failed) => true,
        _ => false,
    }
}
