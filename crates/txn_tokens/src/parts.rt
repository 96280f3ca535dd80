//! The parts of a statement: each reads the first tokens of a list, and gives what stands behind them too.
ghost use Rattle.std.specs.Prelude.{◌≡◌, ◌∷◌, Ok};
ghost use Rattle.fp_model.specs.declared.scripts.Operand.TheVariants as operand;
ghost use Rattle.fp_model.specs.Texts.{same_text, decimal_text};
ghost use Rattle.txn_tokens.specs.declared.token.Token.TheVariants as token;
ghost use Rattle.txn_tokens.specs.Readings.{Gives, all_by};
ghost use Rattle.txn_tokens.specs.Parts as parts;

use crate::fault::LineFault;
use crate::token::Token;
use crate::written::WrittenSsa;
use fp_model::{Bytes, Comparison, FieldText, FsaText, List, Name, Operand, Operation};
use std::alloc::Global;

// How many fields a call has at most.
const MOST_FIELDS: usize = 255;

/// Whether a name has these letters, with blanks behind them up to eight.
pub fn is_word(name: &Name, letters: &[u8; 8]) -> bool
    ensures exact { result ≡ same_text name.now.0 letters.now }
{
    name.0 == *letters
}

/// The word that a list of tokens begins with. `Syntax` where it begins with none.
#[tactic(auto, unfolding(crate::specs::Parts::word_at))]
pub fn word_at(tokens: &[Token]) -> Result<(Name, &[Token]), LineFault>
    ensures exact { Gives (λ x. (x.0, x.1.now)) result (parts.word_at tokens.now) }
{
    match tokens {
        [Token::Word { name, .. }, rest @ ..] => Ok((*name, rest)),
        _ => Err(LineFault::Syntax),
    }
}

// What stands behind this sign.
#[tactic(auto, unfolding(crate::specs::Parts::sign_at))]
fn sign_at(tokens: &[Token], byte: u8) -> Result<&[Token], LineFault>
    ensures { Gives (λ x. x.now) result (parts.sign_at byte tokens.now) }
{
    match tokens {
        [Token::Sign(sign), rest @ ..] if *sign == byte => Ok(rest),
        _ => Err(LineFault::Syntax),
    }
}

// Whether a word is STATUS, FSAS, IO or KEY, which are no variables.
fn is_reserved(name: &Name) -> bool
    ensures { result ≡ parts.is_reserved name.now }
{
    is_word(name, b"STATUS  ")
        || is_word(name, b"FSAS    ")
        || is_word(name, b"IO      ")
        || is_word(name, b"KEY     ")
}

/// The variable that a list of tokens begins with: a word that isn't STATUS, FSAS, IO or KEY. `Syntax` where it begins
/// with none.
#[tactic(auto, unfolding(crate::specs::Parts::variable_at))]
pub fn variable_at(tokens: &[Token]) -> Result<(Name, &[Token]), LineFault>
    ensures exact { Gives (λ x. (x.0, x.1.now)) result (parts.variable_at tokens.now) }
{
    let (name, rest) = word_at(tokens)?;
    if is_reserved(&name) {
        return Err(LineFault::Syntax);
    }
    Ok((name, rest))
}

// The operand that a word is.
fn word_operand(name: Name) -> Result<Operand, LineFault>
    ensures { Gives (λ x. x) result (parts.word_operand name) }
{
    if is_word(&name, b"STATUS  ") {
        return Ok(Operand::Status);
    }
    if is_word(&name, b"FSAS    ") {
        return Ok(Operand::Fsas);
    }
    if is_reserved(&name) {
        return Err(LineFault::Syntax);
    }
    Ok(Operand::Variable(name))
}

// The operand that a number is: its canonical text.
fn number_operand(alloc: Global, n: i128) -> Result<Operand, LineFault>
    ensures { Gives (λ x. x) result (Ok (operand.Text (decimal_text n))) }
{
    let text = n.to_string(alloc)?;
    Ok(Operand::Text(Bytes::from_slice(alloc, text.as_bytes())?))
}

// The operand that a token is.
fn operand_of(alloc: Global, token: &Token) -> Result<Operand, LineFault>
    ensures { Gives (λ x. x) result (parts.operand_of token.now) }
{
    match token {
        Token::Word { name, .. } => word_operand(*name),
        Token::Number(n) => number_operand(alloc, *n),
        Token::Text(text) => Ok(Operand::Text(text.copy()?)),
        Token::Hash(digit) => Ok(Operand::Word(*digit)),
        Token::Field(name) => Ok(Operand::Field(*name)),
        Token::Sign(_) => Err(LineFault::Syntax),
    }
}

/// The operand that a list of tokens begins with: a number, a text, `#d`, `IO.word`, STATUS, FSAS or a variable.
/// `Syntax` where it begins with none.
#[tactic(auto, unfolding(crate::specs::Parts::operand_at))]
pub fn operand_at(alloc: Global, tokens: &[Token]) -> Result<(Operand, &[Token]), LineFault>
    ensures exact { Gives (λ x. (x.0, x.1.now)) result (parts.operand_at tokens.now) }
{
    match tokens {
        [token, rest @ ..] => {
            let operand = operand_of(alloc, token)?;
            Ok((operand, rest))
        }
        [] => Err(LineFault::Syntax),
    }
}

// The operation that a sign stands for.
fn operation_by(byte: u8) -> Option<Operation>
    ensures { result ≡ parts.operation_by byte }
{
    match byte {
        b'+' => Some(Operation::Add),
        b'-' => Some(Operation::Subtract),
        b'*' => Some(Operation::Multiply),
        b'&' => Some(Operation::Join),
        _ => None,
    }
}

/// The operation that a list of tokens begins with: one of `+ - * &`. `Syntax` where it begins with none.
#[tactic(auto, unfolding(crate::specs::Parts::operation_at))]
pub fn operation_at(tokens: &[Token]) -> Result<(Operation, &[Token]), LineFault>
    ensures exact { Gives (λ x. (x.0, x.1.now)) result (parts.operation_at tokens.now) }
{
    match tokens {
        [Token::Sign(byte), rest @ ..] => match operation_by(*byte) {
            Some(operation) => Ok((operation, rest)),
            None => Err(LineFault::Syntax),
        },
        _ => Err(LineFault::Syntax),
    }
}

// The comparison that a word is.
fn comparison_by(name: Name) -> Option<Comparison>
    ensures { result ≡ parts.entry_of parts.comparisons name }
{
    if is_word(&name, b"EQ      ") {
        return Some(Comparison::Equal);
    }
    if is_word(&name, b"NE      ") {
        return Some(Comparison::NotEqual);
    }
    if is_word(&name, b"LT      ") {
        return Some(Comparison::Less);
    }
    if is_word(&name, b"LE      ") {
        return Some(Comparison::LessOrEqual);
    }
    if is_word(&name, b"GT      ") {
        return Some(Comparison::Greater);
    }
    if is_word(&name, b"GE      ") {
        return Some(Comparison::GreaterOrEqual);
    }
    None
}

/// The comparison that a list of tokens begins with: one of EQ, NE, LT, LE, GT, GE. `Syntax` where it begins with none.
#[tactic(auto, unfolding(crate::specs::Parts::comparison_at))]
pub fn comparison_at(tokens: &[Token]) -> Result<(Comparison, &[Token]), LineFault>
    ensures exact { Gives (λ x. (x.0, x.1.now)) result (parts.comparison_at tokens.now) }
{
    let (name, rest) = word_at(tokens)?;
    match comparison_by(name) {
        Some(comparison) => Ok((comparison, rest)),
        None => Err(LineFault::Syntax),
    }
}

// The count that a number is, with what stands behind it.
#[tactic(auto, unfolding(crate::specs::Parts::count_at))]
fn count_before<'a>(
    least: u16,
    greatest: u16,
    n: i128,
    rest: &'a [Token],
) -> Result<(u16, &'a [Token]), LineFault>
    ensures { Gives (λ x. (x.0, x.1.now)) result (parts.count_at least greatest (token.Number n ∷ rest.now)) }
{
    if n < i128::from(least) || i128::from(greatest) < n {
        return Err(LineFault::Syntax);
    }
    Ok((n as u16, rest))
}

/// The count that a list of tokens begins with: a number from a least one to a greatest, both within. `Syntax` where it
/// begins with none.
#[tactic(auto, unfolding(crate::specs::Parts::count_at))]
pub fn count_at(tokens: &[Token], least: u16, greatest: u16) -> Result<(u16, &[Token]), LineFault>
    ensures exact { Gives (λ x. (x.0, x.1.now)) result (parts.count_at least greatest tokens.now) }
{
    match tokens {
        [Token::Number(n), rest @ ..] => count_before(least, greatest, *n, rest),
        _ => Err(LineFault::Syntax),
    }
}

// `(operand)`.
#[tactic(auto, unfolding(crate::specs::Parts::bracket_at))]
fn bracket_at(alloc: Global, tokens: &[Token]) -> Result<(Operand, &[Token]), LineFault>
    ensures { Gives (λ x. (x.0, x.1.now)) result (parts.bracket_at tokens.now) }
{
    let rest = sign_at(tokens, b'(')?;
    let (key, rest) = operand_at(alloc, rest)?;
    let rest = sign_at(rest, b')')?;
    Ok((key, rest))
}

/// The operand of the `KEY(operand)` that a list of tokens begins with. `Syntax` where it begins with none.
#[tactic(auto, unfolding(crate::specs::Parts::key_at))]
pub fn key_at(alloc: Global, tokens: &[Token]) -> Result<(Operand, &[Token]), LineFault>
    ensures exact { Gives (λ x. (x.0, x.1.now)) result (parts.key_at tokens.now) }
{
    let (name, rest) = word_at(tokens)?;
    if !is_word(&name, b"KEY     ") {
        return Err(LineFault::Syntax);
    }
    bracket_at(alloc, rest)
}

// Whether a `(` comes next.
fn begins_bracket(tokens: &[Token]) -> bool
    ensures { result ≡ parts.begins_bracket tokens.now }
{
    match tokens {
        [Token::Sign(sign), ..] => *sign == b'(',
        _ => false,
    }
}

// The key behind a word, where there is one.
#[tactic(auto, unfolding(crate::specs::Parts::key_behind))]
fn key_behind(alloc: Global, tokens: &[Token]) -> Result<(Option<Operand>, &[Token]), LineFault>
    ensures { Gives (λ x. (x.0, x.1.now)) result (parts.key_behind tokens.now) }
{
    if !begins_bracket(tokens) {
        return Ok((None, tokens));
    }
    let (key, rest) = bracket_at(alloc, tokens)?;
    Ok((Some(key), rest))
}

// `word` or `word(operand)`.
#[tactic(auto, unfolding(crate::specs::Parts::ssa_at))]
fn ssa_at(alloc: Global, tokens: &[Token]) -> Result<(WrittenSsa, &[Token]), LineFault>
    ensures { Gives (λ x. (x.0, x.1.now)) result (parts.ssa_at tokens.now) }
{
    let (name, rest) = word_at(tokens)?;
    let (key, rest) = key_behind(alloc, rest)?;
    Ok((WrittenSsa { name, key }, rest))
}

// What an FSA does: one letter, or `+`, `-` or `=`.
#[tactic(auto, unfolding(crate::specs::Parts::fsa_op_at))]
fn fsa_op_at(tokens: &[Token]) -> Result<(u8, &[Token]), LineFault>
    ensures { Gives (λ x. (x.0, x.1.now)) result (parts.fsa_op_at tokens.now) }
{
    match tokens {
        [Token::Word { name, .. }, rest @ ..] if name.0[1] == b' ' => Ok((name.0[0], rest)),
        [Token::Sign(byte), rest @ ..] if matches!(*byte, b'+' | b'-' | b'=') => Ok((*byte, rest)),
        _ => Err(LineFault::Syntax),
    }
}

// `field op operand`.
#[tactic(auto, unfolding(crate::specs::Parts::fsa_at))]
fn fsa_at(alloc: Global, tokens: &[Token]) -> Result<(FsaText, &[Token]), LineFault>
    ensures { Gives (λ x. (x.0, x.1.now)) result (parts.fsa_at tokens.now) }
{
    let (field, rest) = word_at(tokens)?;
    let (op, rest) = fsa_op_at(rest)?;
    let (operand, rest) = operand_at(alloc, rest)?;
    Ok((FsaText { field, op, operand }, rest))
}

// `field=operand`.
#[tactic(auto, unfolding(crate::specs::Parts::field_at))]
fn field_at(alloc: Global, tokens: &[Token]) -> Result<(FieldText, &[Token]), LineFault>
    ensures { Gives (λ x. (x.0, x.1.now)) result (parts.field_at tokens.now) }
{
    let (field, rest) = word_at(tokens)?;
    let rest = sign_at(rest, b'=')?;
    let (value, rest) = operand_at(alloc, rest)?;
    Ok((FieldText { field, value }, rest))
}

// Operands up to the end.
fn operands_of(alloc: Global, tokens: &[Token]) -> Result<List<Operand>, LineFault>
    ensures { Gives (λ x. x) result (all_by parts.operand_at tokens.now) }
{
    let mut operands = List::new(alloc);
    let mut rest = tokens;
    while !rest.is_empty() {
        let (operand, behind) = operand_at(alloc, rest)?;
        operands.push(operand)?;
        rest = behind;
    }
    Ok(operands)
}

/// The operands that a list of tokens is. `Syntax` where it isn't at least one.
#[tactic(auto, unfolding(crate::specs::Parts::operands_in))]
pub fn operands_in(alloc: Global, tokens: &[Token]) -> Result<List<Operand>, LineFault>
    ensures exact { Gives (λ x. x) result (parts.operands_in tokens.now) }
{
    let operands = operands_of(alloc, tokens)?;
    if operands.is_empty() {
        return Err(LineFault::Syntax);
    }
    Ok(operands)
}

/// The segment search arguments that a list of tokens is, as they are written; none where it is empty. `Syntax` where
/// it is something else.
pub fn ssas_in(alloc: Global, tokens: &[Token]) -> Result<List<WrittenSsa>, LineFault>
    ensures exact { Gives (λ x. x) result (all_by parts.ssa_at tokens.now) }
{
    let mut ssas = List::new(alloc);
    let mut rest = tokens;
    while !rest.is_empty() {
        let (ssa, behind) = ssa_at(alloc, rest)?;
        ssas.push(ssa)?;
        rest = behind;
    }
    Ok(ssas)
}

// Field search arguments up to the end.
fn fsas_of(alloc: Global, tokens: &[Token]) -> Result<List<FsaText>, LineFault>
    ensures { Gives (λ x. x) result (all_by parts.fsa_at tokens.now) }
{
    let mut fsas = List::new(alloc);
    let mut rest = tokens;
    while !rest.is_empty() {
        let (fsa, behind) = fsa_at(alloc, rest)?;
        fsas.push(fsa)?;
        rest = behind;
    }
    Ok(fsas)
}

/// The field search arguments that a list of tokens is. `Syntax` where it isn't 1 to 255 of them.
#[tactic(auto, unfolding(crate::specs::Parts::fsas_in))]
pub fn fsas_in(alloc: Global, tokens: &[Token]) -> Result<List<FsaText>, LineFault>
    ensures exact { Gives (λ x. x) result (parts.fsas_in tokens.now) }
{
    let fsas = fsas_of(alloc, tokens)?;
    if fsas.is_empty() || fsas.len() > MOST_FIELDS {
        return Err(LineFault::Syntax);
    }
    Ok(fsas)
}

// Fields with their values up to the end.
fn fields_of(alloc: Global, tokens: &[Token]) -> Result<List<FieldText>, LineFault>
    ensures { Gives (λ x. x) result (all_by parts.field_at tokens.now) }
{
    let mut fields = List::new(alloc);
    let mut rest = tokens;
    while !rest.is_empty() {
        let (field, behind) = field_at(alloc, rest)?;
        fields.push(field)?;
        rest = behind;
    }
    Ok(fields)
}

/// The fields with their values that a list of tokens is. `Syntax` where it isn't 1 to 255 of them.
#[tactic(auto, unfolding(crate::specs::Parts::fields_in))]
pub fn fields_in(alloc: Global, tokens: &[Token]) -> Result<List<FieldText>, LineFault>
    ensures exact { Gives (λ x. x) result (parts.fields_in tokens.now) }
{
    let fields = fields_of(alloc, tokens)?;
    if fields.is_empty() || fields.len() > MOST_FIELDS {
        return Err(LineFault::Syntax);
    }
    Ok(fields)
}
