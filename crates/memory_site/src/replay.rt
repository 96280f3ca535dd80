// What a crash leaves of a site in memory, by its calls.
ghost use Rattle.std.specs.Prelude.{◌≡◌, ◌+◌, ◌≤◌, ◌^◌, ◌∷◌, ℕ, [], IfOk, OnOk, drop, length, take};
ghost use Rattle.fp_site.specs.Disk.{written};
ghost use Rattle.memory_site.specs.History.{History, Image, MayLeave, contents_after, sent_after, synced_after};
ghost use Rattle.memory_site.specs.Sets.{set_bytes, snapshot_of};
ghost use Rattle.memory_site.specs.Calls.{bytes_of, event_of, history_of};

use crate::call::Call;
use crate::sets::{copied_in, copied_out, put, reach_set, set_slice};
use crate::snapshot::Snapshot;
use fp_lists::Bytes;
use std::alloc::{AllocError, Global};

// Where the longest data set ends.
const LIMIT: u64 = 1 << 62;

// The choice of no unsynced write, and that of every one.
const NO_WRITE: u64 = 0;

const EVERY_WRITE: u64 = 1;

// A number that looks as if it were drawn.
fn drawn(seed: u64, index: u64) -> u64 {
    let mixed = seed
        .wrapping_mul(0x9E37_79B9_7F4A_7C15)
        .wrapping_add(index.wrapping_mul(0xD1B5_4A32_D192_ED03));
    (mixed ^ (mixed >> 29)).wrapping_mul(0xBF58_476D_1CE4_E5B9) >> 32
}

// As many bytes as these: some of them, some of those that stood there, and some of neither.
pub(crate) fn mixed(
    alloc: Global,
    seed: u64,
    old: &[u8],
    at: u64,
    bytes: &[u8],
) -> Result<Vec<u8>, AllocError>
    ensures { IfOk result (λ all. length all.items ≡ length bytes.now) }
{
    let mut all = Vec::from_slice(alloc, bytes)?;
    for i in 0..all.len() {
        let byte = all[i];
        all[i] = match drawn(seed, i as u64) % 4 {
            0 => byte_at(old, at, i),
            1 => !byte,
            _ => byte,
        };
    }
    Ok(all)
}

// The byte at an offset and so many further, 0 past the end.
fn byte_at(old: &[u8], at: u64, i: usize) -> u8 {
    let at = at as usize;
    if at < old.len() && i < old.len() - at {
        old[at + i]
    } else {
        0
    }
}

// The part of a write that is in the image: none, all, a front, or mixed bytes of its length.
fn part_of(
    alloc: Global,
    choice: u64,
    index: u64,
    old: &[u8],
    at: u64,
    bytes: &[u8],
) -> Result<Vec<u8>, AllocError>
    ensures short { IfOk result (λ part. length part.items ≤ length bytes.now) }
    ensures none { choice ≡ 0 → IfOk result (λ part. part.items ≡ []) }
    ensures every { choice ≡ 1 → IfOk result (λ part. part.items ≡ bytes.now) }
{
    match choice {
        NO_WRITE => Ok(Vec::new(alloc)),
        EVERY_WRITE => Vec::from_slice(alloc, bytes),
        _ => some_part(alloc, drawn(choice, index), old, at, bytes),
    }
}

// The same for another choice.
fn some_part(
    alloc: Global,
    seed: u64,
    old: &[u8],
    at: u64,
    bytes: &[u8],
) -> Result<Vec<u8>, AllocError>
    ensures { IfOk result (λ part. length part.items ≤ length bytes.now) }
{
    match seed % 5 {
        0 => Ok(Vec::new(alloc)),
        1 => Vec::from_slice(alloc, bytes),
        2 => Vec::from_slice(alloc, &bytes[..bytes.len() / 2]),
        _ => mixed(alloc, seed, old, at, bytes),
    }
}

// One call on what a read gives, and on an image that a crash may leave. Its bytes are the first of those that are
// left.
fn apply(
    alloc: Global,
    choice: u64,
    index: u64,
    real: &mut Vec<Vec<u8>>,
    images: &mut Vec<Vec<u8>>,
    call: Call,
    left: &[u8],
) -> Result<(), AllocError>
    ensures real { OnOk result ((h : History) → ((k : ℕ) → set_bytes real.old.items k ≡ contents_after h k)
        → (k : ℕ) → set_bytes real.new.items k ≡ contents_after (event_of call left.now ∷ h) k) }
    ensures images { OnOk result ((h : History) → ((k : ℕ) → set_bytes real.old.items k ≡ contents_after h k)
        → ((k : ℕ) → Image h k (set_bytes images.old.items k))
        → (k : ℕ) → Image (event_of call left.now ∷ h) k (set_bytes images.new.items k)) }
    ensures none { choice ≡ 0 → OnOk result ((h : History) → ((k : ℕ) → set_bytes real.old.items k ≡ contents_after h k)
        → ((k : ℕ) → set_bytes images.old.items k ≡ synced_after h k)
        → (k : ℕ) → set_bytes images.new.items k ≡ synced_after (event_of call left.now ∷ h) k) }
    ensures every { choice ≡ 1 → OnOk result ((h : History)
        → ((k : ℕ) → set_bytes real.old.items k ≡ contents_after h k)
        → ((k : ℕ) → set_bytes images.old.items k ≡ contents_after h k)
        → (k : ℕ) → set_bytes images.new.items k ≡ contents_after (event_of call left.now ∷ h) k) }
{
    match call {
        Call::Write(set, at, count) => {
            let bytes = front_of(left, count);
            let part = part_of(alloc, choice, index, set_slice(images, set), at, bytes)?;
            write(alloc, real, set, at, bytes)?;
            write(alloc, images, set, at, &part)?;
            Ok(())
        }
        Call::Sync(set) => {
            let bytes = Vec::from_slice(alloc, set_slice(real, set))?;
            replace(alloc, images, set, bytes)?;
            Ok(())
        }
        Call::Send(_) => Ok(()),
    }
}

// The first bytes.
fn front_of(bytes: &[u8], count: usize) -> &[u8]
    ensures { result.now ≡ take count bytes.now }
{
    if count < bytes.len() {
        &bytes[..count]
    } else {
        bytes
    }
}

// The bytes behind them.
fn back_of(bytes: &[u8], count: usize) -> &[u8]
    ensures { result.now ≡ drop count bytes.now }
{
    if count < bytes.len() {
        &bytes[count..]
    } else {
        &[]
    }
}

// Writes into one of the data sets. No call wrote past the limit.
fn write(
    alloc: Global,
    sets: &mut Vec<Vec<u8>>,
    set: u16,
    at: u64,
    from: &[u8],
) -> Result<(), AllocError>
    ensures this { OnOk result (set_bytes sets.new.items set ≡ written (set_bytes sets.old.items set) at from.now) }
    ensures others { OnOk result ((k : ℕ) → (k ≡ set → ⊥) → set_bytes sets.new.items k ≡ set_bytes sets.old.items k) }
{
    if from.len() as u64 > LIMIT || at > LIMIT - from.len() as u64 {
        return Err(AllocError);
    }
    put(alloc, sets, set, at, from)
}

// Puts these bytes in the place of a data set.
fn replace(
    alloc: Global,
    sets: &mut Vec<Vec<u8>>,
    set: u16,
    bytes: Vec<u8>,
) -> Result<(), AllocError>
    ensures this { OnOk result (set_bytes sets.new.items set ≡ bytes.items) }
    ensures others { OnOk result ((k : ℕ) → (k ≡ set → ⊥) → set_bytes sets.new.items k ≡ set_bytes sets.old.items k) }
{
    reach_set(alloc, sets, set)?;
    sets[set as usize] = bytes;
    Ok(())
}

// The bytes sent after one call.
fn send_on(sent: &mut Bytes, call: Call, left: &[u8]) -> Result<(), AllocError>
    ensures { OnOk result ((h : History) → sent.old ≡ sent_after h
        → sent.new ≡ sent_after (event_of call left.now ∷ h)) }
{
    match call {
        Call::Send(count) => sent.append(front_of(left, count)),
        _ => Ok(()),
    }
}

// How many bytes are kept of a call.
fn bytes_kept(call: Call) -> usize
    ensures { result ≡ bytes_of call }
{
    match call {
        Call::Write(_, _, count) | Call::Send(count) => count,
        Call::Sync(_) => 0,
    }
}

// What a crash after these calls leaves, by the choice.
pub(crate) fn replayed(
    alloc: Global,
    start: &Snapshot,
    calls: &[Call],
    kept: &[u8],
    choice: u64,
) -> Result<Snapshot, AllocError>
    ensures left { IfOk result (λ s. MayLeave (history_of start.now calls.now kept.now) (snapshot_of s)) }
    ensures none { choice ≡ 0 → IfOk result (λ s. (k : ℕ)
        → (snapshot_of s).images k ≡ synced_after (history_of start.now calls.now kept.now) k) }
    ensures every { choice ≡ 1 → IfOk result (λ s. (k : ℕ)
        → (snapshot_of s).images k ≡ contents_after (history_of start.now calls.now kept.now) k) }
{
    let mut real = copied_in(alloc, start.images.as_slice())?;
    let mut images = copied_in(alloc, start.images.as_slice())?;
    let mut sent = start.sent.copy()?;
    let mut left = kept;
    let mut index = 0u64;
    for &call in calls {
        apply(alloc, choice, index, &mut real, &mut images, call, left)?;
        send_on(&mut sent, call, left)?;
        left = back_of(left, bytes_kept(call));
        index = index.saturating_add(1);
    }
    Ok(Snapshot {
        images: copied_out(alloc, &images)?,
        sent,
    })
}
