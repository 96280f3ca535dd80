//! The front of a log.
ghost use Rattle.fp_model.specs.LogText.{FitsFront, IsFormat, first_gate, front_rest, front_text};
ghost use Rattle.std.specs.Prelude.{◌≡◌, ◌<◌, ◌^◌, [], ◌∷◌, ◌++◌, IfOk, length};

use fp_model::Bytes;
use log_format::put_part;
use std::alloc::{AllocError, Global};

/// What a log was made for.
#[derive(Drop)]
pub struct Front {
    /// The format in which its lines are read at first, 1 or 2.
    pub format: u8,
    /// The text of the definitions.
    pub defs: Bytes,
    /// The text of the scripts.
    pub scripts: Bytes,
}

impl Front {
    ghost use Rattle.log_groups.specs.Images.{as_front, in_format};

    // The front of a format without its gate.
    pub(crate) fn rest(&self, alloc: Global, format: u8) -> Result<Bytes, AllocError>
        requires fits { FitsFront (as_front self.now) }
        requires is_format { IsFormat format }
        ensures { IfOk result (λ rest. rest ≡ front_rest (in_format format (as_front self.now))) }
    {
        let mut rest = Bytes::from_slice(alloc, b"IMSFPLG")?;
        rest.push(b'0' + format)?;
        put_part(&mut rest, &self.defs)?;
        put_part(&mut rest, &self.scripts)?;
        Ok(rest)
    }

    // What stands behind the gate of a new log: the front without its gate, and the first group's gate, closed.
    pub(crate) fn behind_gate(&self, alloc: Global) -> Result<Bytes, AllocError>
        requires { FitsFront (as_front self.now) }
        ensures { IfOk result (λ bytes. bytes ≡ front_rest (as_front self.now) ++ 0 ∷ []) }
    {
        let mut bytes = self.rest(alloc, self.format)?;
        bytes.push(0)?;
        Ok(bytes)
    }

    // The front of a format with its gate open.
    pub(crate) fn text(&self, alloc: Global, format: u8) -> Result<Bytes, AllocError>
        requires fits { FitsFront (as_front self.now) }
        requires is_format { IsFormat format }
        ensures { IfOk result (λ text. text ≡ front_text 1 (in_format format (as_front self.now))) }
    {
        let rest = self.rest(alloc, format)?;
        let mut text = Bytes::from_slice(alloc, &[1])?;
        text.append(rest.as_slice())?;
        Ok(text)
    }

    // The place of the first group's gate, right behind the front.
    pub(crate) fn gate(&self) -> u64
        requires { FitsFront (as_front self.now) }
        ensures { result ≡ first_gate (as_front self.now) }
    {
        17 + self.defs.len() as u64 + self.scripts.len() as u64
    }
}
