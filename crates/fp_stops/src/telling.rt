//! What is told of the steps of a run.
use fp_core::Did;
use std::alloc::{AllocError, Global};

/// A word for what each step did, with a blank between two.
pub(crate) fn dids_text(alloc: Global, dids: &[Did]) -> Result<String, AllocError> {
    let mut text = String::new(alloc);
    for did in dids {
        tell_did(alloc, &mut text, *did)?;
    }
    Ok(text)
}

// Appends a word for what a step did, with a blank before all but the first.
fn tell_did(alloc: Global, text: &mut String, did: Did) -> Result<(), AllocError> {
    if !text.is_empty() {
        text.push(' ')?;
    }
    text.push_str(word(did))?;
    if let Did::Sealed(count) = did {
        text.push_str(format!(in alloc; "/{count}")?.as_str())?;
    }
    Ok(())
}

// A word for what a step did.
fn word(did: Did) -> &'static str {
    match did {
        Did::Nothing => "nothing",
        Did::Took => "took",
        Did::Answered => "answered",
        Did::Gained => "gained",
        Did::Waited => "waited",
        Did::Committed => "committed",
        Did::Refused => "refused",
        Did::Retried => "retried",
        Did::Queued => "queued",
        Did::Held => "held",
        Did::Sealed(_) => "sealed",
    }
}
