//! What a crash leaves.
ghost use Rattle.std.specs.Prelude.{◌≡◌};

use fp_lists::{Bytes, List};

/// What a crash leaves of a site: the data sets in the order of their numbers, and the bytes sent by then. A data
/// set past the end of the list has no bytes.
#[derive(Drop)]
pub struct Snapshot {
    pub images: List<Bytes>,
    pub sent: Bytes,
}

impl Snapshot {
    /// A snapshot of these data sets, with these bytes sent. Takes no memory.
    pub fn new(images: List<Bytes>, sent: Bytes) -> Snapshot
        ensures images { result.images ≡ images }
        ensures sent { result.sent ≡ sent }
    {
        Snapshot { images, sent }
    }
}
