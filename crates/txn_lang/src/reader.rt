//! Reads the lines of a text, up to the first with a fault.
ghost use Rattle.std.specs.Prelude.{◌≡◌, ◌≢◌, ◌∷◌, ◌≤◌, ◌<◌, ◌-◌, IfOk, IfErr, Err, length, reverse};
ghost use Rattle.std.specs.List.{list_all};
ghost use Rattle.std.specs.Str.Lines.{strip_carriage_return};
ghost use Rattle.fp_model.specs.Messages.{lines_of};
ghost use Rattle.txn_tokens.specs.declared.fault.LineFault.TheVariants as line_fault;
ghost use Rattle.txn_tokens.specs.Lookups.{HaveByteNumbers};
ghost use Rattle.txn_lang.specs.Grammar as grammar;
ghost use Rattle.txn_lang.specs.Grammar.{line_in, text_in};
ghost use Rattle.txn_lang.specs.Building.{Refuses};
ghost use Rattle.txn_lang.specs.inside.Building.{IsBlock, AreFrames, ReadsLine, ReadsText, context_of};

use crate::fault::ScriptFault;
use crate::standing::Builder;
use fp_model::Defs;
use std::alloc::Global;
use txn_tokens::{LineFault, unblanked};

// A line without the byte 13 at its end.
fn without_return(line: &[u8]) -> &[u8]
    ensures { result.now ≡ strip_carriage_return line.now }
{
    match line.last() {
        Some(b'\r') => &line[..line.len() - 1],
        _ => line,
    }
}

// The first line of a text that has some bytes, and what stands behind it.
fn split_line(text: &[u8]) -> (&[u8], &[u8])
    requires { 0 < length text.now }
    ensures lines { lines_of text.now ≡ result.0.now ∷ lines_of result.1.now }
    ensures shorter { length result.1.now < length text.now }
{
    match text.iter().position(|byte| *byte == b'\n') {
        Some(place) => (without_return(&text[..place]), &text[place + 1..]),
        None => (text, &[]),
    }
}

// Whether all bytes of a line are ASCII.
fn is_ascii(line: &[u8]) -> bool
    ensures { result ≡ list_all grammar.is_ascii line.now }
{
    line.iter().all(|byte| *byte < 128)
}

// Whether a line says nothing: blanks alone, or a comment.
fn is_skipped(line: &[u8]) -> bool
    ensures { result ≡ grammar.is_skipped line.now }
{
    match unblanked(line) {
        [] => true,
        [first, ..] => *first == b'*',
    }
}

// The fault of a text whose line of this number has a fault.
fn at_line(number: u32, fault: LineFault) -> ScriptFault
    ensures { result ≡ grammar.at_line number fault }
{
    match fault {
        LineFault::Syntax => ScriptFault::Syntax(number),
        LineFault::UnknownName => ScriptFault::UnknownName(number),
        LineFault::Memory => ScriptFault::Memory,
    }
}

// Reads one line.
fn read_line(
    builder: Builder,
    alloc: Global,
    defs: &Defs,
    number: u32,
    bytes: &[u8],
) -> Result<Builder, LineFault>
    requires numbers { HaveByteNumbers defs.now }
    requires block { IsBlock builder.block }
    requires frames { AreFrames (reverse builder.frames) }
    ensures ok { IfOk result (λ b. ReadsLine defs.now number bytes.now builder b) }
    ensures err { IfErr result (λ e. e ≢ line_fault.Memory
        → line_in defs.now number (context_of builder) bytes.now ≡ Err e) }
{
    if !is_ascii(bytes) {
        return Err(LineFault::Syntax);
    }
    if is_skipped(bytes) {
        return Ok(builder);
    }
    let (_, line) = builder.statement_in(alloc, defs, bytes)?;
    Ok(builder.add(alloc, number, line)?)
}

/// Reads all lines of a text.
pub(crate) fn read_lines(alloc: Global, defs: &Defs, text: &[u8]) -> Result<Builder, ScriptFault>
    requires numbers { HaveByteNumbers defs.now }
    requires short { length text.now ≤ 1000000 }
    ensures ok { IfOk result (λ b. ReadsText defs.now text.now b) }
    ensures err { IfErr result (λ e. Refuses e (text_in defs.now text.now ≡ Err e)) }
{
    let mut builder = Builder::new(alloc);
    let mut number: u32 = 1;
    let mut rest = text;
    while !rest.is_empty() {
        let (line, behind) = split_line(rest);
        match read_line(builder, alloc, defs, number, line) {
            Ok(read) => builder = read,
            Err(fault) => return Err(at_line(number, fault)),
        }
        number += 1;
        rest = behind;
    }
    Ok(builder)
}
