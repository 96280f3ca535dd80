//! The statements: a function for each row of the table, behind its first word.
//!
//! | Row | Behind its first word |
//! |---|---|
//! | `TRAN` | a word |
//! | `SET` | variable operand, and maybe an operation and another operand |
//! | `IF` | operand comparison operand |
//! | `ELSE`, `END`, `BREAK` | nothing |
//! | `REPEAT` | a count, 1 to 10,000 |
//! | `REPLY` | one operand or more |
//! | `ROLB` | a code, 0 to 98 |
//! | `GU` and the other gets | database, and SSAs |
//! | `FLD` | database `KEY(operand)`, and FSAs |
//! | `ISRT` | database, SSAs, and fields |
//! | `REPL` | database, and fields |
//! | `DLET` | database |
ghost use Rattle.std.specs.Prelude.{◌≡◌};
ghost use Rattle.txn_tokens.specs.Readings.{Gives, ended};
ghost use Rattle.txn_tokens.specs.Tokens.{run, behind};
ghost use Rattle.txn_tokens.specs.Parts.{entry_of};
ghost use Rattle.txn_tokens.specs.Lookups.{HaveByteNumbers};
ghost use Rattle.txn_lang.specs.Statements as statements;
ghost use Rattle.txn_lang.specs.inside.Keywords as inside;
ghost use Rattle.txn_lang.specs.inside.Rows as rows;

use crate::line::{Keyword, Line};
use fp_model::{Defs, Get, Name, Operand, Operation, Statement};
use std::alloc::Global;
use txn_tokens::{
    LineFault, Token, comparison_at, count_at, db_of, fields_in, fsas_in, get_ssas, is_word,
    isrt_fields, isrt_ssas, key_at, operand_at, operands_in, operation_at, ssas_in, variable_at,
    word_at,
};

// How often a loop runs at most, and the greatest code of ROLB.
const MOST_TIMES: u16 = 10_000;

const GREATEST_CODE: u16 = 98;

// The keywords of scripts and blocks.
#[tactic(auto, unfolding(crate::specs::inside::Keywords::block_keywords))]
fn block_keyword(name: &Name) -> Option<Keyword>
    ensures { result ≡ entry_of inside.block_keywords name.now }
{
    if is_word(name, b"TRAN    ") {
        return Some(Keyword::Tran);
    }
    if is_word(name, b"IF      ") {
        return Some(Keyword::If);
    }
    if is_word(name, b"ELSE    ") {
        return Some(Keyword::Else);
    }
    if is_word(name, b"REPEAT  ") {
        return Some(Keyword::Repeat);
    }
    if is_word(name, b"BREAK   ") {
        return Some(Keyword::Break);
    }
    if is_word(name, b"END     ") {
        return Some(Keyword::End);
    }
    None
}

// The keywords of the gets.
#[tactic(auto, unfolding(crate::specs::inside::Keywords::get_keywords))]
fn get_keyword(name: &Name) -> Option<Keyword>
    ensures { result ≡ entry_of inside.get_keywords name.now }
{
    if is_word(name, b"GU      ") {
        return Some(Keyword::Get {
            get: Get::Unique,
            hold: false,
        });
    }
    if is_word(name, b"GN      ") {
        return Some(Keyword::Get {
            get: Get::Next,
            hold: false,
        });
    }
    if is_word(name, b"GNP     ") {
        return Some(Keyword::Get {
            get: Get::NextInParent,
            hold: false,
        });
    }
    if is_word(name, b"GHU     ") {
        return Some(Keyword::Get {
            get: Get::Unique,
            hold: true,
        });
    }
    if is_word(name, b"GHN     ") {
        return Some(Keyword::Get {
            get: Get::Next,
            hold: true,
        });
    }
    if is_word(name, b"GHNP    ") {
        return Some(Keyword::Get {
            get: Get::NextInParent,
            hold: true,
        });
    }
    None
}

// The other keywords.
#[tactic(auto, unfolding(crate::specs::inside::Keywords::plain_keywords))]
fn plain_keyword(name: &Name) -> Option<Keyword>
    ensures { result ≡ entry_of inside.plain_keywords name.now }
{
    if is_word(name, b"SET     ") {
        return Some(Keyword::Set);
    }
    if is_word(name, b"REPLY   ") {
        return Some(Keyword::Reply);
    }
    if is_word(name, b"ROLB    ") {
        return Some(Keyword::Rolb);
    }
    if is_word(name, b"FLD     ") {
        return Some(Keyword::Fld);
    }
    if is_word(name, b"ISRT    ") {
        return Some(Keyword::Isrt);
    }
    if is_word(name, b"REPL    ") {
        return Some(Keyword::Repl);
    }
    if is_word(name, b"DLET    ") {
        return Some(Keyword::Dlet);
    }
    None
}

// The keyword that a word is.
#[tactic(auto, using(crate::proofs::KeywordLemmas::in_others))]
fn keyword_of(name: &Name) -> Option<Keyword>
    ensures { result ≡ entry_of statements.keywords name.now }
{
    match block_keyword(name) {
        Some(keyword) => Some(keyword),
        None => match get_keyword(name) {
            Some(keyword) => Some(keyword),
            None => plain_keyword(name),
        },
    }
}

/// The word that a statement begins with.
#[tactic(auto, unfolding(crate::specs::Statements::keyword_at))]
pub(crate) fn keyword_at(tokens: &[Token]) -> Result<(Keyword, &[Token]), LineFault>
    ensures { Gives (λ x. (x.0, x.1.now)) result (statements.keyword_at tokens.now) }
{
    let (name, rest) = word_at(tokens)?;
    match keyword_of(&name) {
        Some(keyword) => Ok((keyword, rest)),
        None => Err(LineFault::Syntax),
    }
}

// What was read, where nothing is left behind it.
fn ended<T: Drop>(said: T, tokens: &[Token]) -> Result<T, LineFault>
    ensures { Gives (λ x. x) result (ended said tokens.now) }
{
    if tokens.is_empty() {
        return Ok(said);
    }
    Err(LineFault::Syntax)
}

fn tran_line(tokens: &[Token]) -> Result<Line, LineFault>
    ensures { Gives (λ x. x) result (rows.tran_line tokens.now) }
{
    let (name, rest) = word_at(tokens)?;
    ended(Line::Tran(name), rest)
}

// Behind `SET variable operand`: nothing, or an operation and an operand.
#[tactic(auto, unfolding(crate::specs::Statements::set_rest))]
fn set_rest(alloc: Global, tokens: &[Token]) -> Result<Option<(Operation, Operand)>, LineFault>
    ensures { Gives (λ x. x) result (statements.set_rest tokens.now) }
{
    if tokens.is_empty() {
        return Ok(None);
    }
    let (operation, rest) = operation_at(tokens)?;
    let (second, rest) = operand_at(alloc, rest)?;
    ended(Some((operation, second)), rest)
}

#[tactic(auto, unfolding(crate::specs::Statements::set_line))]
fn set_line(alloc: Global, tokens: &[Token]) -> Result<Line, LineFault>
    ensures { Gives (λ x. x) result (statements.set_line tokens.now) }
{
    let (variable, rest) = variable_at(tokens)?;
    let (first, rest) = operand_at(alloc, rest)?;
    let rest = set_rest(alloc, rest)?;
    Ok(Line::Whole(Statement::Set {
        variable,
        first,
        rest,
    }))
}

#[tactic(auto, unfolding(crate::specs::Statements::if_line))]
fn if_line(alloc: Global, tokens: &[Token]) -> Result<Line, LineFault>
    ensures { Gives (λ x. x) result (statements.if_line tokens.now) }
{
    let (left, rest) = operand_at(alloc, tokens)?;
    let (comparison, rest) = comparison_at(rest)?;
    let (right, rest) = operand_at(alloc, rest)?;
    ended(
        Line::If {
            left,
            comparison,
            right,
        },
        rest,
    )
}

fn repeat_line(tokens: &[Token]) -> Result<Line, LineFault>
    ensures { Gives (λ x. x) result (rows.repeat_line tokens.now) }
{
    let (times, rest) = count_at(tokens, 1, MOST_TIMES)?;
    ended(Line::Repeat(u32::from(times)), rest)
}

fn reply_line(alloc: Global, tokens: &[Token]) -> Result<Line, LineFault>
    ensures { Gives (λ x. x) result (rows.reply_line tokens.now) }
{
    let operands = operands_in(alloc, tokens)?;
    Ok(Line::Whole(Statement::Reply(operands)))
}

fn rolb_line(tokens: &[Token]) -> Result<Line, LineFault>
    ensures { Gives (λ x. x) result (rows.rolb_line tokens.now) }
{
    let (code, rest) = count_at(tokens, 0, GREATEST_CODE)?;
    ended(Line::Whole(Statement::Roll(code)), rest)
}

#[tactic(auto, unfolding(crate::specs::Statements::get_line))]
fn get_line(
    alloc: Global,
    defs: &Defs,
    get: Get,
    hold: bool,
    tokens: &[Token],
) -> Result<Line, LineFault>
    requires { HaveByteNumbers defs.now }
    ensures { Gives (λ x. x) result (statements.get_line defs.now get hold tokens.now) }
{
    let (database, rest) = word_at(tokens)?;
    let written = ssas_in(alloc, rest)?;
    let db = db_of(defs, &database)?;
    let ssas = get_ssas(alloc, defs, db, written)?;
    Ok(Line::Whole(Statement::Get {
        get,
        hold,
        db,
        ssas,
    }))
}

#[tactic(auto, unfolding(crate::specs::Statements::fld_line))]
fn fld_line(alloc: Global, defs: &Defs, tokens: &[Token]) -> Result<Line, LineFault>
    requires { HaveByteNumbers defs.now }
    ensures { Gives (λ x. x) result (statements.fld_line defs.now tokens.now) }
{
    let (database, rest) = word_at(tokens)?;
    let (key, rest) = key_at(alloc, rest)?;
    let fsas = fsas_in(alloc, rest)?;
    let db = db_of(defs, &database)?;
    Ok(Line::Whole(Statement::Fld { db, key, fsas }))
}

// Whether the fields of ISRT don't begin at a token: at a word that a `=` stands directly behind they do.
fn is_before_fields(token: &Token) -> bool
    ensures { result ≡ statements.is_before_fields token.now }
{
    match token {
        Token::Word { assigned, .. } => !*assigned,
        _ => true,
    }
}

// The tokens before the fields of ISRT, and those from there on.
fn split_fields(tokens: &[Token]) -> (&[Token], &[Token])
    ensures before { result.0.now ≡ run statements.is_before_fields tokens.now }
    ensures from { result.1.now ≡ behind statements.is_before_fields tokens.now }
{
    match tokens.iter().position(|token| !is_before_fields(token)) {
        Some(place) => (&tokens[..place], &tokens[place..]),
        None => (tokens, &[]),
    }
}

#[tactic(auto, unfolding(crate::specs::Statements::isrt_line))]
fn isrt_line(alloc: Global, defs: &Defs, tokens: &[Token]) -> Result<Line, LineFault>
    requires { HaveByteNumbers defs.now }
    ensures { Gives (λ x. x) result (statements.isrt_line defs.now tokens.now) }
{
    let (database, rest) = word_at(tokens)?;
    let (before, from) = split_fields(rest);
    let written = ssas_in(alloc, before)?;
    let given = fields_in(alloc, from)?;
    let db = db_of(defs, &database)?;
    let ssas = isrt_ssas(alloc, defs, db, written)?;
    let fields = isrt_fields(defs, db, ssas.as_slice(), given)?;
    Ok(Line::Whole(Statement::Isrt { db, ssas, fields }))
}

#[tactic(auto, unfolding(crate::specs::Statements::repl_line))]
fn repl_line(alloc: Global, defs: &Defs, tokens: &[Token]) -> Result<Line, LineFault>
    requires { HaveByteNumbers defs.now }
    ensures { Gives (λ x. x) result (statements.repl_line defs.now tokens.now) }
{
    let (database, rest) = word_at(tokens)?;
    let fields = fields_in(alloc, rest)?;
    let db = db_of(defs, &database)?;
    Ok(Line::Whole(Statement::Repl { db, fields }))
}

#[tactic(auto, unfolding(crate::specs::Statements::dlet_line))]
fn dlet_line(defs: &Defs, tokens: &[Token]) -> Result<Line, LineFault>
    requires { HaveByteNumbers defs.now }
    ensures { Gives (λ x. x) result (statements.dlet_line defs.now tokens.now) }
{
    let (database, rest) = word_at(tokens)?;
    if !rest.is_empty() {
        return Err(LineFault::Syntax);
    }
    let db = db_of(defs, &database)?;
    Ok(Line::Whole(Statement::Dlet { db }))
}

/// What a line says behind its first word.
#[tactic(auto, unfolding(crate::specs::Statements::line_behind))]
pub(crate) fn line_behind(
    alloc: Global,
    defs: &Defs,
    keyword: Keyword,
    tokens: &[Token],
) -> Result<Line, LineFault>
    requires { HaveByteNumbers defs.now }
    ensures { Gives (λ x. x) result (statements.line_behind defs.now keyword tokens.now) }
{
    match keyword {
        Keyword::Tran => tran_line(tokens),
        Keyword::Set => set_line(alloc, tokens),
        Keyword::If => if_line(alloc, tokens),
        Keyword::Else => ended(Line::Else, tokens),
        Keyword::End => ended(Line::End, tokens),
        Keyword::Repeat => repeat_line(tokens),
        Keyword::Break => ended(Line::Whole(Statement::Break), tokens),
        Keyword::Reply => reply_line(alloc, tokens),
        Keyword::Rolb => rolb_line(tokens),
        Keyword::Get { get, hold } => get_line(alloc, defs, get, hold, tokens),
        Keyword::Fld => fld_line(alloc, defs, tokens),
        Keyword::Isrt => isrt_line(alloc, defs, tokens),
        Keyword::Repl => repl_line(alloc, defs, tokens),
        Keyword::Dlet => dlet_line(defs, tokens),
    }
}
