//! Accounts with a key of 4 characters and a packed balance of 4 bytes, and deferred calls on them.
ghost use Rattle.fp_model.specs.FitCalls.{IsFitDeferred, IsFsaList};
ghost use Rattle.fp_model.specs.State.{key_length};
ghost use Rattle.fp_model.specs.WellFormed.{IsMsdbDef};
ghost use Rattle.fp_model.specs.declared.definitions.MsdbDef.{MsdbDef as DefOf};
ghost use Rattle.std.specs.List.{AllByRecursion};
ghost use Rattle.std.specs.Prelude.{◌≡◌, ◌<◌, ◌∷◌, [], IfOk, List as ListOf, length};

use fld_calls::{Fsa, write_list};
use fp_model::{Bytes, Deferred, Defs, FieldDef, FieldKind, Kind, List, MsdbDef, Name};
use std::alloc::{AllocError, Global};

const FIELDS: [FieldDef; 2] = [
    FieldDef {
        name: Name(*b"ACCT    "),
        kind: FieldKind::C,
        at: 0,
        length: 4,
    },
    FieldDef {
        name: Name(*b"BAL     "),
        kind: FieldKind::P,
        at: 4,
        length: 4,
    },
];

fn accounts(alloc: Global, dynamic: bool) -> Result<MsdbDef, AllocError>
    ensures good { IfOk result IsMsdbDef }
    ensures length { IfOk result (λ def. def.length ≡ 8) }
    ensures key { IfOk result (λ def. key_length def.fields ≡ 4) }
{
    Ok(MsdbDef {
        name: Name(*b"ACCTS   "),
        dynamic,
        fields: List::from_vec(Vec::from_slice(alloc, &FIELDS)?),
        length: 8,
        load: List::new(alloc),
    })
}

/// Definitions of one database of accounts.
pub(crate) fn defs(alloc: Global, dynamic: bool) -> Result<Defs, AllocError>
    ensures good { IfOk result (λ defs. AllByRecursion IsMsdbDef defs.msdbs) }
    ensures alone { IfOk result (λ defs. defs.dedbs ≡ []) }
    ensures one { IfOk result (λ defs. (def : DefOf) × (defs.msdbs ≡ def ∷ []) × IsMsdbDef def × (def.length ≡ 8)
        × (key_length def.fields ≡ 4)) }
{
    let mut msdbs = List::new(alloc);
    msdbs.push(accounts(alloc, dynamic)?)?;
    Ok(Defs {
        regions: List::new(alloc),
        router: Kind::Fold,
        log_group: 1,
        pool: 1,
        tries: 0,
        msdbs,
        dedbs: List::new(alloc),
        text: Bytes::new(alloc),
    })
}

/// A list of one field search argument.
pub(crate) fn argument(
    alloc: Global,
    field: Name,
    op: u8,
    operand: &[u8],
) -> Result<Bytes, AllocError>
    requires { length operand.now < 65536 }
    ensures { IfOk result IsFsaList }
{
    let mut fsas = List::new(alloc);
    fsas.push(Fsa {
        field,
        status: b' ',
        op,
        operand: Bytes::from_slice(alloc, operand)?,
    })?;
    write_list(alloc, &fsas)
}

/// A field call with one argument on the balance.
pub(crate) fn field_call(
    alloc: Global,
    key: [u8; 4],
    op: u8,
    operand: &[u8],
) -> Result<Deferred, AllocError>
    requires { length operand.now < 65536 }
    ensures { (defs : ListOf DefOf) → (def : DefOf) → defs ≡ def ∷ [] → key_length def.fields ≡ 4
        → IfOk result (IsFitDeferred defs) }
{
    Ok(Deferred::Fld {
        msdb: 0,
        key: Bytes::from_slice(alloc, &key)?,
        fsas: argument(alloc, Name(*b"BAL     "), op, operand)?,
    })
}

/// An insert of a segment.
pub(crate) fn insert(alloc: Global, segment: [u8; 8]) -> Result<Deferred, AllocError>
    ensures { (defs : ListOf DefOf) → (def : DefOf) → defs ≡ def ∷ [] → def.length ≡ 8
        → IfOk result (IsFitDeferred defs) }
{
    Ok(Deferred::Isrt {
        msdb: 0,
        bytes: Bytes::from_slice(alloc, &segment)?,
    })
}

/// A delete of the segment of a key.
pub(crate) fn delete(alloc: Global, key: [u8; 4]) -> Result<Deferred, AllocError>
    ensures { (defs : ListOf DefOf) → (def : DefOf) → defs ≡ def ∷ [] → key_length def.fields ≡ 4
        → IfOk result (IsFitDeferred defs) }
{
    Ok(Deferred::Dlet {
        msdb: 0,
        key: Bytes::from_slice(alloc, &key)?,
    })
}
