//! Field search arguments at settling: the first bad one ends the list.
ghost use Rattle.std.specs.Prelude.{◌≡◌, IfOk, length};
ghost use Rattle.fp_model.specs.FitCalls.{IsFsaList};
ghost use Rattle.fp_model.specs.Fsas.{found_by, fsas_in};
ghost use Rattle.fp_model.specs.WellFormed.{StandFrom};
ghost use Rattle.fp_model.specs.declared.definitions.MsdbDef.{MsdbDef as DefOf};
ghost use Rattle.fld_calls.specs.Forms.{lent_form_of};
ghost use Rattle.fld_calls.specs.inside.Forms.{of_fields};
ghost use Rattle.fld_calls.specs.Settling.{IsSettled};

use crate::arguments::{LentFsa, SettleFault};
use crate::layout::front_of;
use crate::trying::{find_field, try_fsa};
use fp_model::{Bytes, FieldDef, List};
use std::alloc::{AllocError, Global};

// The bytes of an argument's field; none where there is no such field.
fn found(
    alloc: Global,
    fields: &List<FieldDef>,
    fsa: &LentFsa,
    segment: &[u8],
) -> Result<Bytes, AllocError>
    requires { StandFrom 0 fields.now (length segment.now) }
    ensures { IfOk result (λ found. found ≡ found_by (of_fields fields.now) (lent_form_of fsa.now) segment.now) }
{
    let Some(field) = find_field(fields, &fsa.field) else {
        return Ok(Bytes::new(alloc));
    };
    let at = usize::from(field.at);
    let end = at + usize::from(field.length);
    Bytes::from_slice(alloc, &segment[at..end])
}

/// Tries a list of 1 to 255 arguments on a segment in their order and makes their changes, up to the first bad one.
/// `Bad` says which that is, and what its field holds behind the changes before it. The bytes are read as they stand,
/// and only what a bad one found takes memory. After a fault the segment is to be thrown away. The fields stand one
/// after another up to the segment's length.
pub fn settle_list(
    alloc: Global,
    fields: &List<FieldDef>,
    bytes: &[u8],
    segment: &mut [u8],
) -> Result<(), SettleFault>
    requires fields { StandFrom 0 fields.now (length segment.old) }
    requires list { IsFsaList bytes.now }
    ensures { (def : DefOf) → def.fields ≡ fields.now
        → IsSettled def (fsas_in bytes.now) segment.old result segment.new }
{
    let mut place: u16 = 0;
    let mut rest = bytes;
    while let Some(front) = front_of(rest) {
        if try_fsa(fields, &front.fsa, segment).is_err() {
            return Err(SettleFault::Bad {
                place,
                found: found(alloc, fields, &front.fsa, segment)?,
            });
        }
        place += 1;
        rest = front.rest;
    }
    Ok(())
}
