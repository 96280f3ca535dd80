//! The segments that a sync point locks.
ghost use Rattle.fp_model.specs.Settle.{resources};
ghost use Rattle.fp_model.specs.declared.calls.Resource.TheVariants.{Segment};
ghost use Rattle.std.specs.Prelude.{◌≡◌, ◌∷◌, [], IfOk, map};

use fp_model::{Bytes, Deferred, List, Resource};
use std::alloc::{AllocError, Global};
use std::collections::BTreeSet;

// A segment of a main storage database, by number and key.
#[derive(PartialEq, Eq, PartialOrd, Ord, Drop)]
struct Named {
    msdb: u8,
    key: Vec<u8>,
}

// The segments that field calls name, in their order and each once.
fn named_by(alloc: Global, calls: &[Deferred]) -> Result<BTreeSet<Named>, AllocError>
    ensures { IfOk result (λ names.
        map (λ name. Segment name.msdb name.key.items) names.keys ≡ resources calls.now) }
{
    let mut names = BTreeSet::new(alloc);
    for at in (0..calls.len()).rev() {
        if let Deferred::Fld { msdb, key, .. } = &calls[at] {
            let key = Vec::from_slice(alloc, key.as_slice())?;
            names.insert(Named { msdb: *msdb, key })?;
        }
    }
    Ok(names)
}

// The segment of one field call.
fn only_one(alloc: Global, msdb: u8, key: &Bytes) -> Result<List<Resource>, AllocError>
    ensures { IfOk result (λ named. named ≡ Segment msdb key.now ∷ []) }
{
    let mut resources = List::new(alloc);
    resources.push(Resource::Segment {
        msdb,
        key: key.copy()?,
    })?;
    Ok(resources)
}

/// The segments of queued field calls, ascending by database and then key, each once. It fails only for want of memory.
pub fn resources(alloc: Global, deferred: &List<Deferred>) -> Result<List<Resource>, AllocError>
    ensures { IfOk result (λ named. named ≡ resources deferred.now) }
{
    // Most queues have one call, and nothing to put in order.
    if let [Deferred::Fld { msdb, key, .. }] = deferred.as_slice() {
        return only_one(alloc, *msdb, key);
    }
    let mut resources = List::new(alloc);
    for name in named_by(alloc, deferred.as_slice())? {
        resources.push(Resource::Segment {
            msdb: name.msdb,
            key: Bytes::from_vec(name.key),
        })?;
    }
    Ok(resources)
}
