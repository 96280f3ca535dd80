//! Field search arguments as bytes.
ghost use Rattle.std.specs.List.{AllByRecursion};
ghost use Rattle.std.specs.Prelude.{◌≡◌, ◌+◌, ◌<◌, ◌^◌, ◌++◌, ◌∷◌, [], if◌then◌else◌, IfNone, IfOk, IfSome, None, OnOk, Some, length, slice_index, take};
ghost use Rattle.fp_model.specs.Fsas.{behind, connector_in, fsa_in, fsa_text, fsas_of, list_text, operand_length};
ghost use Rattle.fld_calls.specs.Forms.{forms, lent_form_of, IsReadAs, IsShort};
ghost use Rattle.fld_calls.specs.inside.Forms.{is_last};

use crate::arguments::{Fsa, FsaFault, LentFsa};
use fp_model::{Bytes, List, Name};
use std::alloc::{AllocError, Global};

// An argument at the front of bytes, its connector, and what stands behind that.
#[derive(Clone, Copy)]
pub(crate) struct Front<'a> {
    pub(crate) fsa: LentFsa<'a>,
    pub(crate) connector: u8,
    pub(crate) rest: &'a [u8],
}

// The field's name, the status, the operation and the operand's length that an argument begins with.
fn parts_of(head: &[u8; 12]) -> (Name, u8, u8, usize)
    ensures field { result.0.0 ≡ take 8 head.now }
    ensures status { result.1 ≡ slice_index head.now 8 }
    ensures op { result.2 ≡ slice_index head.now 9 }
    ensures length { result.3 ≡ operand_length head.now }
    ensures short { result.3 < 65536 }
{
    let [a, b, c, d, e, f, g, h, status, op, high, low] = *head;
    let length = usize::from(high) * 256 + usize::from(low);
    (Name([a, b, c, d, e, f, g, h]), status, op, length)
}

// What bytes begin with. None where they end in the argument or before its connector.
pub(crate) fn front_of(bytes: &[u8]) -> Option<Front<'_>>
    ensures none { IfNone result (connector_in bytes.now ≡ None) }
    ensures connector { IfSome result (λ front. connector_in bytes.now ≡ Some front.connector) }
    ensures fsa { IfSome result (λ front. fsa_in bytes.now ≡ lent_form_of front.fsa) }
    ensures operand { IfSome result (λ front. operand_length bytes.now ≡ length front.fsa.operand.now) }
    ensures rest { IfSome result (λ front. behind bytes.now ≡ front.rest.now) }
    ensures short { IfSome result (λ front. length front.fsa.operand.now < 65536) }
    ensures all { IfSome result (λ front. length bytes.now ≡ 13 + length front.fsa.operand.now + length
        front.rest.now) }
{
    let (head, rest) = bytes.split_first_chunk::<12>()?;
    let (field, status, op, length) = parts_of(head);
    if rest.len() <= length {
        return None;
    }
    Some(Front {
        fsa: LentFsa {
            field,
            status,
            op,
            operand: &rest[..length],
        },
        connector: rest[length],
        rest: &rest[length + 1..],
    })
}

// Whether nothing is behind an argument.
fn is_last(rest: &[u8]) -> bool
    ensures { result ≡ is_last rest.now }
{
    matches!(rest, [])
}

// The connector of an argument, by whether it is the last.
fn connector(last: bool) -> u8
    ensures { result ≡ (if last then 32 else 42) }
{
    if last { b' ' } else { b'*' }
}

/// The list that bytes are. Else the place of the argument that they end in, or of the first bad connector; places
/// count from 0, and no bytes end in the argument at 0. Memory may be wanted before a fault is met.
///
/// Condition: places fit 4 bytes.
pub fn read_list(alloc: Global, bytes: &[u8]) -> Result<List<Fsa>, FsaFault>
    requires { length bytes.now < 2 ^ 32 }
    ensures exact { IsReadAs result (fsas_of bytes.now) }
    ensures short { IfOk result (λ fsas. AllByRecursion IsShort fsas) }
{
    let mut fsas = List::new(alloc);
    let mut place: u32 = 0;
    let mut rest = bytes;
    loop {
        let Some(front) = front_of(rest) else {
            return Err(FsaFault::Short(place));
        };
        let end = place + 12 + front.fsa.operand.len() as u32;
        let last = is_last(front.rest);
        if front.connector != connector(last) {
            return Err(FsaFault::BadConnector(end));
        }
        fsas.push(front.fsa.to_fsa(alloc)?)?;
        if last {
            return Ok(fsas);
        }
        place = end + 1;
        rest = front.rest;
    }
}

// One argument and its connector.
#[tactic(auto, unfolding(fp_model::specs::Spellings::be16))]
fn put_fsa(text: &mut Bytes, fsa: &LentFsa, connector: u8) -> Result<(), AllocError>
    requires { length fsa.now.operand.now < 65536 }
    ensures { OnOk result (text.new ≡ text.old ++ fsa_text (lent_form_of fsa.now) ++ connector ∷ []) }
{
    text.append(&fsa.field.0)?;
    text.push(fsa.status)?;
    text.push(fsa.op)?;
    text.append(&(fsa.operand.len() as u16).to_be_bytes())?;
    text.append(fsa.operand)?;
    text.push(connector)
}

/// Adds an argument to the bytes of a list: `*` behind one that another follows, and a blank behind the last. Fails
/// only for want of memory.
///
/// Condition: its operand's length fits two bytes.
pub fn append_fsa(text: &mut Bytes, fsa: &LentFsa, last: bool) -> Result<(), AllocError>
    requires { length fsa.now.operand.now < 65536 }
    ensures { OnOk result (text.new ≡ text.old ++ fsa_text (lent_form_of fsa.now) ++ (if last then 32 else 42) ∷ []) }
{
    text.reserve(13 + fsa.operand.len())?;
    put_fsa(text, fsa, connector(last))
}

// How many bytes a list has.
fn size_of(fsas: &[Fsa]) -> usize {
    let mut size: usize = 0;
    for fsa in fsas {
        size = size.saturating_add(13).saturating_add(fsa.operand.len());
    }
    size
}

/// The bytes of a list: `*` behind each argument that another follows, and a blank behind the last. No bytes for none.
/// Fails only for want of memory.
///
/// Condition: each operand's length fits two bytes.
pub fn write_list(alloc: Global, fsas: &List<Fsa>) -> Result<Bytes, AllocError>
    requires { AllByRecursion IsShort fsas.now }
    ensures { IfOk result (λ text. text ≡ list_text (forms fsas.now)) }
{
    let mut text = Bytes::with_capacity(alloc, size_of(fsas.as_slice()))?;
    let mut left = fsas.len();
    for fsa in fsas.as_slice() {
        left -= 1;
        append_fsa(&mut text, &fsa.lent(), left == 0)?;
    }
    Ok(text)
}
