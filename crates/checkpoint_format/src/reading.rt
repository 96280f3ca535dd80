//! Reading a checkpoint.
ghost use Rattle.checkpoint_format.specs.Given.{loaded_as};
ghost use Rattle.checkpoint_format.specs.inside.Order.{is_before};
ghost use Rattle.checkpoint_format.specs.Reading.{
  all_msdbs_at,
  head_at,
  letters_at,
  msdb_at,
  msdbs_at,
  place_at,
  rest_at,
};
ghost use Rattle.fp_model.specs.CheckpointText.{IsCheckpoint, checkpoint_rest};
ghost use Rattle.fp_model.specs.State.{ascend, key_of};
ghost use Rattle.std.specs.List.{AllByRecursion};
ghost use Rattle.log_format.specs.Reading.{Gives, many_at, part_at};
ghost use Rattle.log_format.specs.declared.fault.ReadError.TheVariants.{Bad};
ghost use Rattle.std.specs.Prelude.{◌≡◌, ◌+◌, ◌<◌, ◌≤◌, ◌^◌, ◌++◌, IfErr, IfOk, length, map};

use crate::Loaded;
use crate::terminals::lasts_of;
use fp_model::{Bytes, FieldDef, List, Msdb, MsdbDef, key_length};
use log_format::{ReadError, byte_of, part_of, u16_of, u32_of, u64_of};
use std::alloc::Global;

// The format that the letters say.
#[tactic(auto, unfolding(crate::specs::Reading::letters_at))]
fn letters_of(bytes: &[u8]) -> Result<(u8, &[u8]), ReadError>
    ensures value { Gives (λ x. (x.0, x.1.now)) result (letters_at bytes.now) }
    ensures bad { IfErr result (λ e. e ≡ Bad) }
{
    if bytes.len() < 7 {
        return Err(ReadError::Bad);
    }
    let (letters, rest) = bytes.split_at(7);
    let (digit, rest) = byte_of(rest)?;
    if letters == b"IMSFPCK".as_slice() && (digit == b'1' || digit == b'2') {
        Ok((digit - b'0', rest))
    } else {
        Err(ReadError::Bad)
    }
}

/// The format and the number of a checkpoint, by its bytes behind the gate.
#[tactic(auto, unfolding(crate::specs::Reading::head_at))]
pub fn head(bytes: &[u8]) -> Result<((u8, u64), &[u8]), ReadError>
    ensures value { Gives (λ x. (x.0, x.1.now)) result (head_at bytes.now) }
    ensures bad { IfErr result (λ e. e ≡ Bad) }
{
    let (format, rest) = letters_of(bytes)?;
    let (number, rest) = u64_of(rest)?;
    Ok(((format, number), rest))
}

// The place in the log, and the number of entries before it.
#[tactic(auto, unfolding(crate::specs::Reading::place_at))]
fn place_of(bytes: &[u8]) -> Result<((u64, u64), &[u8]), ReadError>
    ensures { Gives (λ x. (x.0, x.1.now)) result (place_at bytes.now) }
{
    let (at, rest) = u64_of(bytes)?;
    let (count, rest) = u64_of(rest)?;
    if at <= 1 << 62 && count <= at {
        Ok(((at, count), rest))
    } else {
        Err(ReadError::Bad)
    }
}

// So many segments of one length.
fn segments_of(
    alloc: Global,
    length: u16,
    count: u32,
    bytes: &[u8],
) -> Result<(List<Bytes>, &[u8]), ReadError>
    ensures { Gives (λ x. (x.0, x.1.now)) result (many_at (part_at length) count bytes.now) }
{
    let mut segments = List::new(alloc);
    let mut rest = bytes;
    for _ in 0..count {
        let (segment, after) = part_of(alloc, length as usize, rest)?;
        segments.push(segment)?;
        rest = after;
    }
    Ok((segments, rest))
}

// The key of a segment: its first bytes.
fn key_in<'a>(fields: &[FieldDef], segment: &'a Bytes) -> &'a [u8]
    ensures { result.now ≡ key_of fields.now segment.now }
{
    let segment = segment.as_slice();
    &segment[..usize::from(key_length(fields)).min(segment.len())]
}

// Whether a segment stands before the next one, where there is one.
fn stands_before(fields: &[FieldDef], segment: &Bytes, more: &[Bytes]) -> bool
    ensures { result ≡ is_before (key_of fields.now segment.now) (map (key_of fields.now) more.now) }
{
    match more {
        [] => true,
        [next, ..] => key_in(fields, segment).cmp(key_in(fields, next)).is_lt(),
    }
}

// Whether the keys of segments ascend.
#[tactic(auto, using(crate::proofs::Order::ascending_step))]
fn ascends(fields: &[FieldDef], segments: &[Bytes]) -> bool
    ensures { result ≡ ascend (map (key_of fields.now) segments.now) }
{
    let mut rest = segments;
    while let [segment, more @ ..] = rest {
        if !stands_before(fields, segment, more) {
            return false;
        }
        rest = more;
    }
    true
}

// A database of a definition.
#[tactic(auto, unfolding(crate::specs::Reading::msdb_at))]
fn msdb_of<'a>(alloc: Global, def: &MsdbDef, bytes: &'a [u8]) -> Result<(Msdb, &'a [u8]), ReadError>
    ensures { Gives (λ x. (x.0, x.1.now)) result (msdb_at def.now bytes.now) }
{
    let (size, rest) = u16_of(bytes)?;
    let (count, rest) = u32_of(rest)?;
    let (segments, rest) = segments_of(alloc, def.length, count, rest)?;
    if size == def.length && ascends(def.fields.as_slice(), segments.as_slice()) {
        Ok((Msdb { segments }, rest))
    } else {
        Err(ReadError::Bad)
    }
}

// A database of each definition.
fn msdbs_of<'a>(
    alloc: Global,
    defs: &[MsdbDef],
    bytes: &'a [u8],
) -> Result<(List<Msdb>, &'a [u8]), ReadError>
    ensures { Gives (λ x. (x.0, x.1.now)) result (msdbs_at defs.now bytes.now) }
{
    let mut msdbs = List::new(alloc);
    let mut rest = bytes;
    for def in defs {
        let (msdb, after) = msdb_of(alloc, def, rest)?;
        msdbs.push(msdb)?;
        rest = after;
    }
    Ok((msdbs, rest))
}

// The databases behind their number.
#[tactic(auto, unfolding(crate::specs::Reading::all_msdbs_at))]
fn all_msdbs_of<'a>(
    alloc: Global,
    defs: &[MsdbDef],
    bytes: &'a [u8],
) -> Result<(List<Msdb>, &'a [u8]), ReadError>
    ensures { Gives (λ x. (x.0, x.1.now)) result (all_msdbs_at defs.now bytes.now) }
{
    let (count, rest) = byte_of(bytes)?;
    if usize::from(count) != defs.len() {
        return Err(ReadError::Bad);
    }
    msdbs_of(alloc, defs, rest)
}

// A checkpoint of these databases, by its bytes behind the gate.
#[tactic(auto, unfolding(crate::specs::Reading::rest_at))]
fn rest_of<'a>(
    alloc: Global,
    defs: &[MsdbDef],
    bytes: &'a [u8],
) -> Result<(Loaded, &'a [u8]), ReadError>
    ensures { Gives (λ x. ((x.0.format, loaded_as x.0), x.1.now)) result (rest_at defs.now bytes.now) }
{
    let ((format, number), rest) = head(bytes)?;
    let ((at, count), rest) = place_of(rest)?;
    let (msdbs, rest) = all_msdbs_of(alloc, defs, rest)?;
    let (lasts, rest) = lasts_of(alloc, format, rest)?;
    let loaded = Loaded {
        number,
        at,
        count,
        msdbs,
        format,
        lasts,
    };
    Ok((loaded, rest))
}

/// A checkpoint of these databases, by its bytes behind the gate, and what stands behind it. Bytes that begin with none
/// are `Bad`.
pub fn read<'a>(
    alloc: Global,
    defs: &[MsdbDef],
    bytes: &'a [u8],
) -> Result<(Loaded, &'a [u8]), ReadError>
    ensures given { Gives (λ x. ((x.0.format, loaded_as x.0), x.1.now)) result (rest_at defs.now bytes.now) }

    // It is a checkpoint that keeps the rules, and the bytes begin with its spelling.
    ensures whole { AllByRecursion (λ def. def.length < 2 ^ 16) defs.now → IfOk result (λ x. (bytes.now
        ≡ checkpoint_rest x.0.format defs.now (loaded_as x.0) ++ x.1.now)
        × IsCheckpoint x.0.format defs.now (loaded_as x.0)) }
{
    rest_of(alloc, defs, bytes)
}
