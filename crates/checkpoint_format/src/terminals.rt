//! The last numbers of terminals, both ways.
ghost use Rattle.checkpoint_format.specs.inside.Terminals.{as_last};
ghost use Rattle.checkpoint_format.specs.inside.Order.{is_before};
ghost use Rattle.checkpoint_format.specs.Reading.{is_name_of, is_stored_name, last_at, lasts_at, numbered_at};
ghost use Rattle.fp_model.specs.CheckpointText.{AreLasts, last_text, lasts_text};
ghost use Rattle.fp_model.specs.LogText.{IsBytes};
ghost use Rattle.fp_model.specs.State.{ascend};
ghost use Rattle.log_format.specs.Reading.{Gives, many_at};
ghost use Rattle.fp_model.specs.Lasts.{Last};
ghost use Rattle.std.specs.List.{AllByRecursion, flat_map};
ghost use Rattle.std.specs.Prelude.{
  ◌≡◌,
  ◌+◌,
  ◌<◌,
  ◌≤◌,
  ◌^◌,
  ◌++◌,
  IfOk,
  None,
  Some,
  if◌then◌else◌,
  slice_get,
  OnOk,
  length,
  map,
  true,
};

use balancing::Lasts;
use fp_model::{Bytes, List, Name};
use fp_texts::name_in;
use log_format::{ReadError, long_of, put_u16, put_u64, u64_of};
use std::alloc::{AllocError, Global};

// A terminal that was read.
#[derive(Drop)]
pub(crate) struct Terminal {
    pub(crate) lterm: Name,
    pub(crate) number: u64,
    pub(crate) line: Bytes,
}

// The lengths that a name may have.
const LENGTHS: [usize; 8] = [1, 2, 3, 4, 5, 6, 7, 8];

// Writes one terminal.
fn put_last(into: &mut Bytes, lterm: &Name, number: u64, line: &[u8]) -> Result<(), AllocError>
    requires { length line.now < 2 ^ 16 }
    ensures { OnOk result (into.new ≡ into.old
        ++ last_text (record { lterm = lterm.now; number = number; line = line.now })) }
{
    into.append(&lterm.0)?;
    put_u64(into, number)?;
    put_u16(into, line.len() as u16)?;
    into.append(line)
}

// Writes the terminal at a place.
fn put_at(into: &mut Bytes, lasts: &Lasts, place: usize) -> Result<(), AllocError>
    requires within { place < length lasts.now.terminals }
    requires lines { AllByRecursion (λ last. length last.line < 2 ^ 16) lasts.now.terminals }
    ensures { (last : Last) → slice_get lasts.now.terminals place ≡ Some last
        → OnOk result (into.new ≡ into.old ++ last_text last) }
{
    match lasts.at(place as u64) {
        Some((lterm, number, line)) => put_last(into, lterm, number, line),
        None => Ok(()),
    }
}

// Writes the terminals behind their number.
pub(crate) fn put_lasts(into: &mut Bytes, lasts: &Lasts) -> Result<(), AllocError>
    requires { AreLasts lasts.now.terminals }
    ensures { OnOk result (into.new ≡ into.old ++ lasts_text 2 lasts.now.terminals) }
{
    put_u64(into, lasts.len() as u64)?;
    for place in 0..lasts.len() {
        put_at(into, lasts, place)?;
    }
    Ok(())
}

// Whether the first so many bytes are a name, and the others blanks.
fn is_name_of(bytes: &[u8; 8], n: usize) -> bool
    requires { n ≤ 8 }
    ensures { result ≡ is_name_of bytes.now n }
{
    match name_in(&bytes[..n]) {
        Some(name) => name.0 == *bytes,
        None => false,
    }
}

// Whether eight bytes are a name.
fn is_stored_name(bytes: &[u8; 8]) -> bool
    ensures { result ≡ is_stored_name bytes.now }
{
    LENGTHS.iter().any(|n| is_name_of(bytes, *n))
}

// The name that eight bytes are.
fn stored_name(bytes: &[u8]) -> Option<Name>
    requires { length bytes.now ≡ 8 }
    ensures { result ≡ (if is_stored_name bytes.now then Some (record { 0 = bytes.now }) else None) }
{
    let mut name = [0; 8];
    name.copy_from_slice(bytes);
    if is_stored_name(&name) {
        Some(Name(name))
    } else {
        None
    }
}

// One terminal.
#[tactic(auto, unfolding(crate::specs::Reading::last_at))]
fn last_of(alloc: Global, bytes: &[u8]) -> Result<(Terminal, &[u8]), ReadError>
    ensures { Gives (λ x. (as_last x.0, x.1.now)) result (last_at bytes.now) }
{
    if bytes.len() < 8 {
        return Err(ReadError::Bad);
    }
    let (front, rest) = bytes.split_at(8);
    let name = stored_name(front);
    let (number, rest) = u64_of(rest)?;
    let (line, rest) = long_of(alloc, rest)?;
    match name {
        Some(lterm) => Ok((
            Terminal {
                lterm,
                number,
                line,
            },
            rest,
        )),
        None => Err(ReadError::Bad),
    }
}

// So many terminals, one after another.
fn many_of(alloc: Global, count: u64, bytes: &[u8]) -> Result<(Vec<Terminal>, &[u8]), ReadError>
    ensures { Gives (λ x. (map as_last x.0.items, x.1.now)) result (many_at last_at count bytes.now) }
{
    let mut terminals = Vec::new(alloc);
    let mut rest = bytes;
    for _ in 0..count {
        let (terminal, after) = last_of(alloc, rest)?;
        terminals.push(terminal)?;
        rest = after;
    }
    Ok((terminals, rest))
}

// Whether a terminal stands before the next one, where there is one.
fn stands_before(terminal: &Terminal, more: &[Terminal]) -> bool
    ensures { result ≡ is_before terminal.now.lterm.0 (map (λ t. t.lterm.0) more.now) }
{
    match more {
        [] => true,
        [next, ..] => terminal.lterm.cmp(&next.lterm).is_lt(),
    }
}

// Whether names ascend.
#[tactic(auto, using(crate::proofs::Order::ascending_step))]
fn ascends(terminals: &[Terminal]) -> bool
    ensures { result ≡ ascend (map (λ t. t.lterm.0) terminals.now) }
{
    let mut rest = terminals;
    while let [terminal, more @ ..] = rest {
        if !stands_before(terminal, more) {
            return false;
        }
        rest = more;
    }
    true
}

// The terminals by name.
fn by_name(alloc: Global, terminals: Vec<Terminal>) -> Result<Lasts, AllocError>
    requires { ascend (map (λ last. last.lterm.0) (map as_last terminals.items)) ≡ true }
    ensures { IfOk result (λ lasts. lasts.terminals ≡ map as_last terminals.items) }
{
    let mut lasts = Lasts::new(alloc)?;
    for terminal in terminals {
        let Terminal {
            lterm,
            number,
            line,
        } = terminal;
        lasts.reserve(1)?;
        lasts.set(&lterm, number, line);
    }
    Ok(lasts)
}

// The terminals behind their number.
#[tactic(auto, unfolding(crate::specs::Reading::numbered_at))]
fn numbered_of(alloc: Global, bytes: &[u8]) -> Result<(Lasts, &[u8]), ReadError>
    ensures { Gives (λ x. (x.0.terminals, x.1.now)) result (numbered_at bytes.now) }
{
    let (count, rest) = u64_of(bytes)?;
    let (terminals, rest) = many_of(alloc, count, rest)?;
    if !ascends(terminals.as_slice()) {
        return Err(ReadError::Bad);
    }
    Ok((by_name(alloc, terminals)?, rest))
}

// Those of a format.
pub(crate) fn lasts_of(alloc: Global, format: u8, bytes: &[u8]) -> Result<(Lasts, &[u8]), ReadError>
    ensures { Gives (λ x. (x.0.terminals, x.1.now)) result (lasts_at format bytes.now) }
{
    if format == 2 {
        return numbered_of(alloc, bytes);
    }
    Ok((Lasts::new(alloc)?, bytes))
}
