// Data sets in memory. Those past the end of the list have no bytes.
ghost use Rattle.std.specs.Prelude.{◌≡◌, ◌+◌, ◌-◌, ◌<◌, ◌≤◌, ◌^◌, ◌++◌, ℕ, IfOk, OnErr, OnOk, drop, length, replicate, take, true, vec_len};
ghost use Rattle.std.specs.List.{All};
ghost use Rattle.fp_site.specs.Disk.{written, read_range};
ghost use Rattle.memory_site.specs.Sets.{HasSpare, image_at, set_bytes};

use fp_lists::{Bytes, List};
use std::alloc::{AllocError, Global};

// The bytes of a data set.
pub(crate) fn set_slice(sets: &[Vec<u8>], set: u16) -> &[u8]
    ensures { result.now ≡ set_bytes sets.now set }
{
    if (set as usize) < sets.len() {
        sets[set as usize].as_slice()
    } else {
        &[]
    }
}

// Makes the list long enough for a data set of this number.
pub(crate) fn reach_set(alloc: Global, sets: &mut Vec<Vec<u8>>, set: u16) -> Result<(), AllocError>
    ensures same { (k : ℕ) → set_bytes sets.new.items k ≡ set_bytes sets.old.items k }
    ensures there { OnOk result (set < vec_len sets.new) }
{
    while sets.len() <= set as usize {
        sets.push(Vec::new(alloc))?;
    }
    Ok(())
}

// Puts zeros behind the bytes, up to this length.
fn lengthen(bytes: &mut Vec<u8>, end: usize) -> Result<(), AllocError>
    ensures ok { OnOk result (bytes.new.items ≡ bytes.old.items ++ replicate (end - length bytes.old.items) 0) }
    ensures err { OnErr result (bytes.new.items ≡ bytes.old.items) }
{
    if bytes.len() < end {
        bytes.resize(end, 0)?;
    }
    Ok(())
}

// Writes bytes over others.
fn paste(bytes: &mut [u8], at: usize, from: &[u8])
    requires { at + length from.now ≤ length bytes.old }
    ensures { bytes.new ≡ take at bytes.old ++ (from.now ++ drop (at + length from.now) bytes.old) }
{
    bytes[at..at + from.len()].copy_from_slice(from);
}

// Writes bytes in place. Without memory nothing changes.
pub(crate) fn overwrite(bytes: &mut Vec<u8>, at: usize, from: &[u8]) -> Result<(), AllocError>
    requires { at + length from.now ≤ 2 ^ 62 }
    ensures ok { OnOk result (bytes.new.items ≡ written bytes.old.items at from.now) }
    ensures err { OnErr result (bytes.new.items ≡ bytes.old.items) }
{
    if from.is_empty() {
        return Ok(());
    }
    lengthen(bytes, at + from.len())?;
    paste(bytes, at, from);
    Ok(())
}

// Writes bytes into one of the data sets, in place. Without memory nothing changes.
pub(crate) fn put(
    alloc: Global,
    sets: &mut Vec<Vec<u8>>,
    set: u16,
    at: u64,
    from: &[u8],
) -> Result<(), AllocError>
    requires { at + length from.now ≤ 2 ^ 62 }
    ensures this { OnOk result (set_bytes sets.new.items set ≡ written (set_bytes sets.old.items set) at from.now) }
    ensures others { OnOk result ((k : ℕ) → (k ≡ set → ⊥) → set_bytes sets.new.items k ≡ set_bytes sets.old.items k) }
    ensures err { OnErr result ((k : ℕ) → set_bytes sets.new.items k ≡ set_bytes sets.old.items k) }
{
    reach_set(alloc, sets, set)?;
    overwrite(&mut sets[set as usize], at as usize, from)
}

// Fills `into` with the bytes from `at` on, zeros past the end.
pub(crate) fn read(bytes: &[u8], at: u64, into: &mut [u8])
    ensures { into.new ≡ read_range bytes.now at (length into.old) }
{
    let start = at as usize;
    for i in 0..into.len() {
        into[i] = if start < bytes.len() && i < bytes.len() - start {
            bytes[start + i]
        } else {
            0
        };
    }
}

// The same data sets, as a list of the program makes them.
pub(crate) fn copied_in(alloc: Global, images: &[Bytes]) -> Result<Vec<Vec<u8>>, AllocError>
    ensures { IfOk result (λ sets. (k : ℕ) → set_bytes sets.items k ≡ image_at images.now k) }
{
    let mut sets = Vec::new(alloc);
    for image in images {
        sets.push(Vec::from_slice(alloc, image.as_slice())?)?;
    }
    Ok(sets)
}

// The same data sets, as a list that the program is given.
pub(crate) fn copied_out(alloc: Global, sets: &[Vec<u8>]) -> Result<List<Bytes>, AllocError>
    ensures { IfOk result (λ images. (k : ℕ) → image_at images k ≡ set_bytes sets.now k) }
{
    let mut images = List::new(alloc);
    for bytes in sets {
        images.push(Bytes::from_slice(alloc, bytes)?)?;
    }
    Ok(images)
}

// Whether no data set is longer than a call can make it.
pub(crate) fn all_bounded(sets: &[Vec<u8>]) -> bool
    ensures { result ≡ true → (k : ℕ) → length (set_bytes sets.now k) ≤ 2 ^ 62 }
{
    for bytes in sets {
        if bytes.len() as u64 > 1 << 62 {
            return false;
        }
    }
    true
}

// Makes room for so many bytes more in each data set.
pub(crate) fn prepare_sets(sets: &mut Vec<Vec<u8>>, bytes: usize) -> Result<(), AllocError>
    ensures same { (k : ℕ) → set_bytes sets.new.items k ≡ set_bytes sets.old.items k }
    ensures room { OnOk result (All (HasSpare bytes) sets.new.items) }
{
    for i in 0..sets.len() {
        sets[i].reserve(bytes)?;
    }
    Ok(())
}
