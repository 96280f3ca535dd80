//! Messages of tellers at their groups, and terminals that wait.
ghost use Rattle.std.specs.Prelude.{◌≡◌, length};
ghost use Rattle.fp_model.specs.Exits.{route};
ghost use Rattle.fp_exits.specs.Ranges.{IsRoutable};

use balancing::{Offer, Queues};
use fp_exits::{Router, Routing, fold_group};
use fp_model::{Bytes, Kind, Message, Name};
use std::alloc::{AllocError, Global};

/// What is done with the queues, and what is to come of it. Terminals go by their digit.
enum Step {
    /// A message of a terminal to a transaction comes into the queue of this group, or comes back since it waits.
    Offer(u8, &'static [u8; 8], &'static [u8], Option<u8>),
    /// The oldest message of a group has this text, or it has none.
    Take(u8, Option<&'static [u8]>),
    /// So many messages are queued, and the oldest of a group has this text.
    Holds(u128, u8, &'static [u8]),
    /// Whether a terminal waits.
    Busy(u8, bool),
    Mark(u8),
    Answered(u8),
}

/// Messages leave their group first in, first out.
const IN_TURN: &[Step] = &[
    Step::Offer(1, b"WDRAW   ", b"first", Some(2)),
    Step::Offer(2, b"DEPOSIT ", b"second", Some(1)),
    Step::Offer(3, b"ASK     ", b"third", Some(2)),
    Step::Holds(3, 2, b"first"),
    Step::Take(2, Some(b"first")),
    Step::Take(1, Some(b"second")),
    Step::Take(2, Some(b"third")),
    Step::Take(2, None),
];

/// A terminal waits until it is answered, also when its message is taken.
const WAITING: &[Step] = &[
    Step::Busy(1, false),
    Step::Offer(1, b"DEPOSIT ", b"first", Some(1)),
    Step::Busy(1, true),
    Step::Offer(1, b"DEPOSIT ", b"second", None),
    Step::Offer(2, b"DEPOSIT ", b"other", Some(1)),
    Step::Take(1, Some(b"first")),
    Step::Busy(1, true),
    Step::Take(1, Some(b"other")),
    Step::Take(1, None),
    Step::Take(2, None),
    Step::Answered(1),
    Step::Busy(1, false),
    Step::Busy(2, true),
    Step::Offer(1, b"ASK     ", b"third", Some(2)),
    Step::Take(2, Some(b"third")),
];

/// A terminal may wait without a message.
const MARKED: &[Step] = &[
    Step::Mark(2),
    Step::Busy(2, true),
    Step::Mark(1),
    Step::Busy(1, true),
    Step::Mark(2),
    Step::Busy(2, true),
    Step::Answered(2),
    Step::Busy(2, false),
    Step::Busy(1, true),
    Step::Answered(3),
    Step::Busy(1, true),
];

/// The name of a terminal: T and its digit.
pub(crate) fn terminal(digit: u8) -> Name {
    Name([b'T', b'0' + digit % 10, b' ', b' ', b' ', b' ', b' ', b' '])
}

fn message(alloc: Global, lterm: u8, tran: &[u8; 8], text: &[u8]) -> Result<Message, AllocError> {
    Ok(Message {
        lterm: terminal(lterm),
        tran: Name(*tran),
        text: Bytes::from_slice(alloc, text)?,
        line: Bytes::new(alloc),
        number: None,
    })
}

/// Whether this is a message with this text, or none.
fn has_text(message: Option<&Message>, text: Option<&[u8]>) -> bool {
    match (message, text) {
        (Some(message), Some(text)) => message.text.as_slice() == text,
        (None, None) => true,
        _ => false,
    }
}

/// Whether the oldest message of one of two groups has this text.
fn takes(queues: &mut Queues, group: u8, text: Option<&[u8]>) -> bool
    requires { length queues.old.queues ≡ 2 }
    ensures { length queues.new.queues ≡ 2 }
{
    if group != 1 && group != 2 {
        return false;
    }
    has_text(queues.take(group).as_ref(), text)
}

/// Whether so many messages are queued, and the oldest of one of two groups has this text.
fn holds(queues: &Queues, count: u128, group: u8, oldest: &[u8]) -> bool
    requires { length queues.now.queues ≡ 2 }
{
    if group != 1 && group != 2 {
        return false;
    }
    let is_counted = queues.count() == count && queues.is_empty() == (count == 0);
    is_counted && has_text(queues.oldest(group), Some(oldest))
}

/// Whether a message that was offered came into the queue of this group; or back as it was, where there is none.
fn is_offered(offer: &Offer, group: Option<u8>, terminal: Name, tran: Name, text: &[u8]) -> bool {
    match (offer, group) {
        (Offer::Queued(found), Some(group)) => *found == group,
        (Offer::TerminalBusy(back), None) => {
            back.lterm == terminal
                && back.tran == tran
                && back.text.as_slice() == text
                && back.line.is_empty()
                && back.number.is_none()
        }
        _ => false,
    }
}

/// Whether a message of a terminal that is offered comes into the queue of this group, or back where there is none.
fn offers(
    alloc: Global,
    queues: &mut Queues,
    router: &Router,
    offered: (u8, &[u8; 8], &[u8]),
    group: Option<u8>,
) -> bool
    requires { length queues.old.queues ≡ 2 }
    ensures { length queues.new.queues ≡ 2 }
{
    let (lterm, tran, text) = offered;
    match message(alloc, lterm, tran, text) {
        Ok(message) => match queues.offer(message, router) {
            Ok(offer) => is_offered(&offer, group, terminal(lterm), Name(*tran), text),
            Err(AllocError) => false,
        },
        Err(AllocError) => false,
    }
}

/// Whether a step of two groups answers so.
fn answers(alloc: Global, queues: &mut Queues, router: &Router, step: &Step) -> bool
    requires { length queues.old.queues ≡ 2 }
    ensures { length queues.new.queues ≡ 2 }
{
    match *step {
        Step::Offer(lterm, tran, text, group) => {
            offers(alloc, queues, router, (lterm, tran, text), group)
        }
        Step::Take(group, text) => takes(queues, group, text),
        Step::Holds(count, group, oldest) => holds(queues, count, group, oldest),
        Step::Busy(lterm, is_busy) => queues.busy(&terminal(lterm)) == is_busy,
        Step::Mark(lterm) => queues.mark(&terminal(lterm)).is_ok(),
        Step::Answered(lterm) => {
            queues.answered(&terminal(lterm));
            true
        }
    }
}

static RUNS: [(&str, &[Step]); 3] = [
    ("in turn", IN_TURN),
    ("waiting", WAITING),
    ("marked", MARKED),
];

/// The place of the first step that answers something else.
fn first_wrong(alloc: Global, queues: &mut Queues, router: &Router, steps: &[Step]) -> Option<usize>
    requires { length queues.old.queues ≡ 2 }
{
    for (place, step) in steps.iter().enumerate() {
        if !answers(alloc, queues, router, step) {
            return Some(place);
        }
    }
    None
}

/// A router that folds.
fn folding(alloc: Global) -> Result<Router, AllocError> {
    let folds: Routing = Box::new(
        alloc,
        |tran: &Name, n: u64| -> u64
            requires { IsRoutable tran.now n }
            ensures { result ≡ route Kind.Fold n tran.now }
        { fold_group(tran, n) },
    )?;
    Ok(Router::new(Kind::Fold, folds))
}

/// The same of new queues and a router that folds; the number of steps where there is no memory for them.
fn first_wrong_of(alloc: Global, steps: &[Step]) -> Option<usize> {
    match (Queues::new(alloc, 2), folding(alloc)) {
        (Ok(mut queues), Ok(router)) => first_wrong(alloc, &mut queues, &router, steps),
        _ => Some(steps.len()),
    }
}

#[test]
fn terminals_and_their_messages(rt: HostRuntime) {
    for (name, steps) in &RUNS {
        let wrong = first_wrong_of(rt.alloc(), steps);
        assert!(rt; wrong.is_none(), "{name}: at {wrong:?}");
    }
}
