// The calls that a site in memory keeps.

// A call that changed the site. The bytes of a write or a send stand in one list of all that were kept, in the order
// of the calls: the call has their number.
#[derive(Clone, Copy)]
pub enum Call {
    // So many bytes were written to this data set at this offset.
    Write(u16, u64, usize),
    Sync(u16),
    Send(usize),
}
