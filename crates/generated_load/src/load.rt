//! The load of a number.
ghost use Rattle.generated_load.specs.Draws.{next_by};
ghost use Rattle.generated_load.specs.Load.{
  asked,
  line,
  message_behind,
  messages_behind,
  messages_of,
  schedule_of,
  state_behind,
  token_behind,
  tokens_behind,
};
ghost use Rattle.std.specs.Fmt.{decimal};
ghost use Rattle.std.specs.Prelude.{◌≡◌, ◌++◌, IfOk, OnOk, codes, string_bytes};

use crate::draws::Draws;
use fp_model::Bytes;
use std::alloc::{AllocError, Global};

// How many messages are drawn behind the first one.
const MESSAGES: u32 = 1_999;

// How many tokens are drawn.
const TOKENS: u32 = 20_000;

/// A schedule and messages that were drawn.
#[derive(Drop)]
pub struct Load {
    /// The schedule, a token on each line.
    pub schedule: Bytes,
    /// The messages, one on each line.
    pub messages: Bytes,
}

/// The load of a number. It fails only for want of memory.
pub fn generate(alloc: Global, number: u32) -> Result<Load, AllocError>
    ensures messages { IfOk result (λ load. load.messages ≡ messages_of number) }
    ensures schedule { IfOk result (λ load. load.schedule ≡ schedule_of number) }
{
    let mut draws = Draws { state: number };
    let messages = draw_messages(alloc, &mut draws, MESSAGES)?;
    let schedule = draw_schedule(alloc, &mut draws, TOKENS)?;
    Ok(Load { schedule, messages })
}

// The first message, and so many that are drawn.
fn draw_messages(alloc: Global, draws: &mut Draws, count: u32) -> Result<Bytes, AllocError>
    ensures text { IfOk result (λ text. text
        ≡ line (codes "T1 NEWCUST C001 ANN") ++ messages_behind count draws.old.state) }
    ensures state { OnOk result (draws.new.state ≡ state_behind count draws.old.state) }
{
    let mut text = Bytes::from_slice(alloc, b"T1 NEWCUST C001 ANN\n")?;
    for _ in 0..count {
        put_message(alloc, &mut text, draws)?;
    }
    Ok(text)
}

// Appends the next message.
fn put_message(alloc: Global, into: &mut Bytes, draws: &mut Draws) -> Result<(), AllocError>
    ensures ok { OnOk result (into.new ≡ into.old ++ line (message_behind draws.old.state)) }
    ensures state { draws.new.state ≡ next_by 4 draws.old.state }
{
    let terminal = 1 + draws.draw(20);
    let kind = draws.draw(4);
    let account = draws.draw(2);
    let amount = 1 + draws.draw(100);
    let asked = asked(alloc, kind, 1 + account, amount)?;
    let text = format!(in alloc; "T{terminal} {asked}\n")?;
    into.append(text.as_bytes())
}

// What a message of a kind asks for, of an account and an amount.
fn asked(alloc: Global, kind: u32, account: u32, amount: u32) -> Result<String, AllocError>
    ensures { IfOk result (λ text. string_bytes text ≡ asked kind account amount) }
{
    match kind {
        0 => asked_of(alloc, "DEPOSIT", account, amount),
        1 => asked_of(alloc, "WDRAW", account, amount),
        2 => format!(in alloc; "ASK A00{account}"),
        _ => format!(in alloc; "NOTE C001 N{amount}"),
    }
}

// What is asked for by this name, of an account and an amount.
#[tactic(auto, using(std::proofs::Common::append_assoc))]
fn asked_of(alloc: Global, tran: &str, account: u32, amount: u32) -> Result<String, AllocError>
    ensures { IfOk result (λ text. string_bytes text
        ≡ tran.now ++ codes " A00" ++ decimal account ++ codes " " ++ decimal amount) }
{
    let mut text = format!(in alloc; "{tran} A00{account}")?;
    let amount = format!(in alloc; " {amount}")?;
    text.push_str(&amount)?;
    Ok(text)
}

// So many tokens, a line each.
fn draw_schedule(alloc: Global, draws: &mut Draws, count: u32) -> Result<Bytes, AllocError>
    ensures { IfOk result (λ text. text ≡ tokens_behind count draws.old.state) }
{
    let mut text = Bytes::new(alloc);
    for _ in 0..count {
        put_token(alloc, &mut text, draws)?;
    }
    Ok(text)
}

// Appends the next token.
fn put_token(alloc: Global, into: &mut Bytes, draws: &mut Draws) -> Result<(), AllocError>
    ensures ok { OnOk result (into.new ≡ into.old ++ line (token_behind draws.old.state).text) }
    ensures state { draws.new.state ≡ (token_behind draws.old.state).state }
{
    let kind = draws.draw(8);
    match kind {
        0 => into.append(b"IN\n"),
        5 => into.append(b"LOG\n"),
        6 => {
            if draws.draw(50) == 0 {
                into.append(b"CKPT\n")
            } else {
                into.append(b"OUT\n")
            }
        }
        7 => {
            if draws.draw(4) == 0 {
                into.append(b"PURGE/AREA2/2\n")
            } else {
                into.append(b"IN\n")
            }
        }
        _ => {
            let text = format!(in alloc; "R{kind}\n")?;
            into.append(text.as_bytes())
        }
    }
}
