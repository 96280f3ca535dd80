//! Scripts run by hand: each call that they ask is looked at, and answered as a database would. What is wanted is taken
//! from the language's description.
ghost use Rattle.fp_model.specs.WellFormed.{AreDefs};
ghost use Rattle.std.specs.Prelude.{◌≡◌, ◌<◌, IfSome, length};

use self::End::{Reply, Roll};
use self::Turn::{Lettered, Shows, Told};
use crate::systems::{SAMPLE, message, sample};
use fp_model::{Answer, Bytes, Call, Defs, Get, List, Message, Name, Ssa};
use std::alloc::{AllocError, Global};
use std::test::Fail;
use txn_lang::{Scripts, parse};
use txn_machine::{Next, Program};

// A call that is wanted, as `spelled` spells it, and what it is answered.
enum Turn {
    // A status alone.
    Told(&'static [u8], [u8; 2]),
    // A field call's status and letters.
    Lettered(&'static [u8], [u8; 2], &'static [u8]),
    // A segment of a type is shown.
    Shows(&'static [u8], u8, &'static [u8]),
}

impl Turn {
    fn wanted(&self) -> &'static [u8] {
        match *self {
            Turn::Told(wanted, _) | Turn::Lettered(wanted, ..) | Turn::Shows(wanted, ..) => wanted,
        }
    }
}

// How a script ends.
enum End {
    Reply(&'static [u8]),
    Roll(u16),
}

// ---- calls as text

// The number of a database or a type as a digit.
fn digit(number: u8) -> &'static [u8] {
    match number {
        0 => b"0",
        1 => b"1",
        2 => b"2",
        _ => b"?",
    }
}

// Segment search arguments: the number of each type, its key behind `=`, and a comma.
fn spelled_ssas(ssas: &[Ssa], spelled: &mut Bytes) -> Result<(), AllocError> {
    for ssa in ssas {
        spelled.append(digit(ssa.segment))?;
        if let Some(key) = &ssa.key {
            spelled.append(b"=")?;
            spelled.append(key.as_slice())?;
        }
        spelled.append(b",")?;
    }
    Ok(())
}

// The letters of a get, with a blank.
fn get_word(get: Get, hold: bool) -> &'static [u8] {
    match (get, hold) {
        (Get::Unique, false) => b"GU ",
        (Get::Unique, true) => b"GHU ",
        (Get::Next, false) => b"GN ",
        (Get::Next, true) => b"GHN ",
        (Get::NextInParent, false) => b"GNP ",
        (Get::NextInParent, true) => b"GHNP ",
    }
}

// The word of a call, the number of its database and a blank.
fn beginning(alloc: Global, word: &[u8], db: u8) -> Result<Bytes, AllocError> {
    let mut spelled = Bytes::from_slice(alloc, word)?;
    spelled.append(digit(db))?;
    spelled.append(b" ")?;
    Ok(spelled)
}

fn spelled_fld(alloc: Global, db: u8, key: &Bytes, fsas: &Bytes) -> Result<Bytes, AllocError> {
    let mut spelled = beginning(alloc, b"FLD ", db)?;
    spelled.append(key.as_slice())?;
    spelled.append(b",")?;
    spelled.append(fsas.as_slice())?;
    Ok(spelled)
}

fn spelled_isrt(
    alloc: Global,
    db: u8,
    ssas: &List<Ssa>,
    bytes: &Bytes,
) -> Result<Bytes, AllocError> {
    let mut spelled = beginning(alloc, b"ISRT ", db)?;
    spelled_ssas(ssas.as_slice(), &mut spelled)?;
    spelled.append(bytes.as_slice())?;
    Ok(spelled)
}

fn spelled_get(alloc: Global, word: &[u8], db: u8, ssas: &List<Ssa>) -> Result<Bytes, AllocError> {
    let mut spelled = beginning(alloc, word, db)?;
    spelled_ssas(ssas.as_slice(), &mut spelled)?;
    Ok(spelled)
}

fn spelled_repl(alloc: Global, db: u8, bytes: &Bytes) -> Result<Bytes, AllocError> {
    let mut spelled = beginning(alloc, b"REPL ", db)?;
    spelled.append(bytes.as_slice())?;
    Ok(spelled)
}

// A call with all that it hands on: its word, its database, its arguments or its key, and its bytes.
fn spelled(alloc: Global, asked: &Call) -> Result<Bytes, AllocError> {
    match asked {
        Call::Get {
            get,
            hold,
            db,
            ssas,
        } => spelled_get(alloc, get_word(*get, *hold), *db, ssas),
        Call::Fld { db, key, fsas } => spelled_fld(alloc, *db, key, fsas),
        Call::Isrt { db, ssas, bytes } => spelled_isrt(alloc, *db, ssas, bytes),
        Call::Repl { db, bytes } => spelled_repl(alloc, *db, bytes),
        Call::Dlet { db } => beginning(alloc, b"DLET ", *db),
    }
}

fn answer(alloc: Global, turn: &Turn) -> Result<Answer, AllocError> {
    let (status, segment, bytes, letters) = match *turn {
        Turn::Told(_, status) => (status, 0, &b""[..], &b""[..]),
        Turn::Lettered(_, status, letters) => (status, 0, &b""[..], letters),
        Turn::Shows(_, segment, bytes) => (*b"  ", segment, bytes, &b""[..]),
    };
    Ok(Answer {
        status,
        segment,
        bytes: Bytes::from_slice(alloc, bytes)?,
        letters: Bytes::from_slice(alloc, letters)?,
    })
}

fn is_end(end: &End, next: &Next) -> bool {
    match (end, next) {
        (End::Reply(wanted), Next::Reply(text)) => text.as_slice() == *wanted,
        (End::Roll(wanted), Next::Roll(code)) => code == wanted,
        _ => false,
    }
}

// Whether a call is the one that a turn wants.
fn is_asked(alloc: Global, asked: &Call, turn: &Turn) -> Result<bool, AllocError> {
    Ok(spelled(alloc, asked)?.as_slice() == turn.wanted())
}

// ---- runs

// Whether a script asks the call of a turn, twice until it is answered as the turn says.
fn follows_turn(
    scripts: &Scripts,
    defs: &Defs,
    message: &Message,
    program: &mut Program,
    turn: &Turn,
    alloc: Global,
) -> Result<bool, AllocError>
    requires { program.old.number < length scripts.now.scripts }
    ensures { program.new.number ≡ program.old.number }
{
    let _ = program.next(scripts, defs, message)?;
    let Next::Call(asked) = program.next(scripts, defs, message)? else {
        return Ok(false);
    };
    if !is_asked(alloc, &asked, turn)? {
        return Ok(false);
    }
    program.give(answer(alloc, turn)?);
    Ok(true)
}

// Whether a script asks these calls in this order, each twice until it is answered as its turn says, and then ends so.
fn follows(
    scripts: &Scripts,
    defs: &Defs,
    message: &Message,
    program: &mut Program,
    turns: &[Turn],
    end: &End,
    alloc: Global,
) -> Result<bool, AllocError>
    requires { program.old.number < length scripts.now.scripts }
{
    for turn in turns {
        if !follows_turn(scripts, defs, message, program, turn, alloc)? {
            return Ok(false);
        }
    }
    Ok(is_end(end, &program.next(scripts, defs, message)?))
}

// The number of a transaction.
fn number_of(scripts: &Scripts, tran: Name) -> Option<u32>
    ensures { IfSome result (λ number. number < length scripts.now.scripts) }
{
    scripts.find(&tran)
}

// A transaction, the text of its message, the turns that it makes, and how it ends.
struct Case(&'static [u8; 8], &'static [u8], &'static [Turn], End);

// Whether a transaction of these scripts goes so.
fn runs(
    alloc: Global,
    scripts: &Scripts,
    defs: &Defs,
    message: &Message,
    turns: &[Turn],
    end: &End,
) -> Result<bool, Fail> {
    let Some(number) = number_of(scripts, message.tran) else {
        return Err(Fail::from("no such transaction"));
    };
    let mut program = Program::start(alloc, scripts, number);
    let follows = follows(scripts, defs, message, &mut program, turns, end, alloc);
    drop(program);
    Ok(follows?)
}

// The same where this is the text of the scripts.
fn runs_by(
    alloc: Global,
    text: &[u8],
    defs: &Defs,
    message: &Message,
    turns: &[Turn],
    end: &End,
) -> Result<bool, Fail>
    requires { AreDefs defs.now }
{
    let scripts = parse(alloc, text, defs)?;
    let runs = runs(alloc, &scripts, defs, message, turns, end);
    drop(scripts);
    runs
}

// Whether the transaction goes so, where these are the scripts.
fn goes(
    alloc: Global,
    text: &[u8],
    tran: &[u8; 8],
    words: &[u8],
    turns: &[Turn],
    end: &End,
) -> Result<bool, Fail> {
    let message = message(alloc, Name(*tran), words)?;
    let defs = sample(alloc)?;
    let runs = runs_by(alloc, text, &defs, &message, turns, end);
    drop(defs);
    drop(message);
    runs
}

// A customer with ten notes, all alike: no eleventh is asked for.
const TEN_NOTES: &[Turn] = &[
    Shows(b"GU 2 0=C001,", 0, b"C001ANN         "),
    Shows(b"GNP 2 1,", 1, b"N       "),
    Shows(b"GNP 2 1,", 1, b"N       "),
    Shows(b"GNP 2 1,", 1, b"N       "),
    Shows(b"GNP 2 1,", 1, b"N       "),
    Shows(b"GNP 2 1,", 1, b"N       "),
    Shows(b"GNP 2 1,", 1, b"N       "),
    Shows(b"GNP 2 1,", 1, b"N       "),
    Shows(b"GNP 2 1,", 1, b"N       "),
    Shows(b"GNP 2 1,", 1, b"N       "),
    Shows(b"GNP 2 1,", 1, b"N       "),
];

// Cases of accounts.
static OF_ACCOUNTS: [Case; 13] = [
    Case(
        b"DEPOSIT ",
        b"A001 10",
        &[Lettered(b"FLD 0 A001,BAL      +\x00\x0210 ", *b"  ", b" ")],
        Reply(b"NEW"),
    ),
    Case(
        b"DEPOSIT ",
        b"A001 10",
        &[Lettered(b"FLD 0 A001,BAL      +\x00\x0210 ", *b"FE", b"G")],
        Roll(1),
    ),
    Case(
        b"WDRAW   ",
        b"A2 070",
        &[Lettered(
            b"FLD 0 A2  ,BAL      H\x00\x03070*BAL      -\x00\x03070 ",
            *b"  ",
            b"  ",
        )],
        Reply(b"PAID 070"),
    ),
    Case(
        b"WDRAW   ",
        b"A2 070",
        &[Lettered(
            b"FLD 0 A2  ,BAL      H\x00\x03070*BAL      -\x00\x03070 ",
            *b"FE",
            b"D ",
        )],
        Roll(7),
    ),
    Case(
        b"LETTERS ",
        b"A001 10",
        &[Lettered(
            b"FLD 0 A001,BAL      H\x00\x0210*BAL      -\x00\x0210 ",
            *b"FE",
            b" D",
        )],
        Reply(b"-D"),
    ),
    Case(
        b"ASK     ",
        b"A001",
        &[Shows(b"GU 0 0=A001,", 0, b"A001\x00\x00\x10\x0c")],
        Reply(b"100"),
    ),
    Case(
        b"ASK     ",
        b"",
        &[Told(b"GU 0 0=    ,", *b"GE")],
        Reply(b"NONE"),
    ),
    Case(b"ASK     ", b"A0011", &[], Roll(99)),
    Case(
        b"SETBAL  ",
        b"A001 -75",
        &[
            Shows(b"GHU 0 0=A001,", 0, b"A001\x00\x00\x10\x0c"),
            Told(b"REPL 0 A001\x00\x00\x07\x5d", *b"  "),
        ],
        Reply(b"SET"),
    ),
    Case(
        b"SETBAL  ",
        b"A003 75",
        &[Told(b"GHU 0 0=A003,", *b"GE")],
        Roll(99),
    ),
    Case(
        b"SETBAL  ",
        b"A001 x",
        &[Shows(b"GHU 0 0=A001,", 0, b"A001\x00\x00\x10\x0c")],
        Roll(99),
    ),
    Case(
        b"REPLACE ",
        b"A001 10",
        &[
            Shows(b"GHU 0 0=A001,", 0, b"A001\x00\x00\x11\x0c"),
            Told(b"REPL 0 A001\x00\x00\x01\x0c", *b"DA"),
        ],
        Reply(b"110DA"),
    ),
    Case(
        b"MOVE    ",
        b"",
        &[
            Shows(b"GU 0 ", 0, b"A001\x00\x00\x11\x0c"),
            Shows(b"GU 1 ", 0, b"T001\x00\x00\x00\x07"),
            Told(b"REPL 0 A001\x00\x00\x00\x7c", *b"  "),
        ],
        Reply(b"T001"),
    ),
];

// Those of customers come behind them.
static OF_CUSTOMERS: [Case; 14] = [
    Case(
        b"NEWCUST ",
        b"C001 ANN",
        &[Told(b"ISRT 2 0,C001ANN         ", *b"  ")],
        Reply(b"ADDED"),
    ),
    Case(
        b"NEWCUST ",
        b"C001 ANN",
        &[Told(b"ISRT 2 0,C001ANN         ", *b"II")],
        Roll(2),
    ),
    Case(
        b"NOTE    ",
        b"C001 N5",
        &[Told(b"ISRT 2 0=C001,1,N5      ", *b"  ")],
        Reply(b"NOTED"),
    ),
    Case(
        b"NOTE    ",
        b"C001 N5",
        &[Told(b"ISRT 2 0=C001,1,N5      ", *b"GE")],
        Roll(3),
    ),
    Case(
        b"LEND    ",
        b"C001 L1 250",
        &[Told(b"ISRT 2 0=C001,2,L1\x00\x00\x25\x0c", *b"  ")],
        Reply(b"LENT"),
    ),
    Case(
        b"LEND    ",
        b"C001 L1 250",
        &[Told(b"ISRT 2 0=C001,2,L1\x00\x00\x25\x0c", *b"II")],
        Reply(b"LENTII"),
    ),
    Case(
        b"SHOWC   ",
        b"C001",
        &[
            Shows(b"GU 2 0=C001,", 0, b"C001ANN         "),
            Shows(b"GNP 2 1,", 1, b"N6      "),
            Shows(b"GNP 2 1,", 1, b"N5      "),
            Told(b"GNP 2 1,", *b"GE"),
        ],
        Reply(b"ANN N6 N5"),
    ),
    Case(
        b"SHOWC   ",
        b"C001",
        TEN_NOTES,
        Reply(b"ANN N N N N N N N N N N"),
    ),
    Case(
        b"SHOWC   ",
        b"C009",
        &[Told(b"GU 2 0=C009,", *b"GE")],
        Roll(4),
    ),
    Case(
        b"TWO     ",
        b"C001 C002",
        &[
            Shows(b"GHU 2 0=C001,", 0, b"C001ANN         "),
            Shows(b"GHU 2 0=C002,", 0, b"C002BOB         "),
        ],
        Reply(b"BOTH"),
    ),
    Case(
        b"TWO     ",
        b"C001 C002",
        &[
            Told(b"GHU 2 0=C001,", *b"GE"),
            Shows(b"GHU 2 0=C002,", 0, b"C002BOB         "),
        ],
        Reply(b"BOTH"),
    ),
    Case(
        b"LISTC   ",
        b"",
        &[
            Shows(b"GN 2 0,", 0, b"C002BOB         "),
            Shows(b"GN 2 0,", 0, b"C001ANN         "),
            Told(b"GN 2 0,", *b"GB"),
        ],
        Reply(b"C002 C001"),
    ),
    Case(b"LISTC   ", b"", &[Told(b"GN 2 0,", *b"GB")], Reply(b"")),
    Case(
        b"NEXT    ",
        b"",
        &[Told(b"GHNP 2 1,", *b"GE"), Told(b"GU 0 0=GE  ,", *b"GE")],
        Reply(b"GE"),
    ),
];

// Those of tellers come last.
static OF_TELLERS: [Case; 4] = [
    Case(
        b"HIRE    ",
        b"T002",
        &[
            Told(b"ISRT 1 T002\x00\x00\x00\x00", *b"  "),
            Told(b"ISRT 1 T002\x00\x00\x00\x00", *b"XP"),
        ],
        Reply(b"/ XP"),
    ),
    Case(
        b"HIRE    ",
        b"T002",
        &[
            Told(b"ISRT 1 T002\x00\x00\x00\x00", *b"II"),
            Told(b"ISRT 1 T002\x00\x00\x00\x00", *b"II"),
        ],
        Reply(b"II/ II"),
    ),
    Case(b"HIRE    ", b"T0002", &[], Roll(99)),
    Case(
        b"DEBT    ",
        b"T002",
        &[Told(b"ISRT 1 T002\xff\xff\xff\xfe", *b"XP")],
        Reply(b"XP"),
    ),
];

// How many cases there are.
const COUNT: usize = 31;

// The check pays for a table in each function that names it, and more than twice for one twice as long.
fn of_accounts() -> &'static [Case] {
    &OF_ACCOUNTS
}

// So each table has a function.
fn of_customers() -> &'static [Case] {
    &OF_CUSTOMERS
}

// The cases of tellers.
fn of_tellers() -> &'static [Case] {
    &OF_TELLERS
}

// The case of a place.
fn case_at(place: usize) -> Option<&'static Case> {
    if place < 13 {
        return of_accounts().get(place);
    }
    if place < 27 {
        return of_customers().get(place - 13);
    }
    of_tellers().get(place - 27)
}

// The first case that goes otherwise with these scripts; the number of cases where there is none.
fn first_other_case(alloc: Global, text: &[u8]) -> Result<usize, Fail> {
    for place in 0..COUNT {
        let Some(Case(tran, words, turns, end)) = case_at(place) else {
            return Ok(place);
        };
        if !goes(alloc, text, tran, words, turns, end)? {
            return Ok(place);
        }
    }
    Ok(COUNT)
}

#[test]
fn scripts_ask_their_calls_and_end(rt: HostRuntime) -> Result<(), Fail> {
    let place = first_other_case(rt.alloc(), SAMPLE.scripts)?;
    assert!(rt; place == COUNT, "case {place}");
    Ok(())
}

// ---- lines without calls

// Whether the transaction A of some lines, with a message of two words, ends so.
fn ends(alloc: Global, lines: &str, end: &End) -> Result<bool, Fail> {
    let text = format!(in alloc; "TRAN A\n{lines}\n")?;
    goes(alloc, text.as_bytes(), b"A       ", b" ab cd ", &[], end)
}

static LINES: [(&str, End); 29] = [
    // Values.
    ("REPLY 007", Reply(b"7")),
    ("REPLY -0", Reply(b"0")),
    ("REPLY #0 '.' #1 '.' #2 '.' #3", Reply(b" ab cd .ab.cd.")),
    ("REPLY X 'y' STATUS FSAS", Reply(b"y")),
    ("SET V 5 - 7\nREPLY V", Reply(b"-2")),
    ("SET V '007' * -2\nREPLY V", Reply(b"-14")),
    (
        "SET V 9999999999999999999999999999999 - 0\nREPLY V",
        Reply(b"9999999999999999999999999999999"),
    ),
    (
        "IF 'a  ' EQ 'a'\nREPLY 'same'\nEND\nREPLY 'other'",
        Reply(b"same"),
    ),
    (
        "IF 'a' NE 'b'\nREPLY 'other'\nELSE\nREPLY 'same'\nEND",
        Reply(b"other"),
    ),
    (
        "IF '2' GT '10'\nREPLY 'text'\nELSE\nREPLY 'number'\nEND",
        Reply(b"number"),
    ),
    (
        "IF 2 LE 2\nIF '2' LE '10'\nREPLY 'number'\nELSE\nREPLY 'text'\nEND\nEND",
        Reply(b"number"),
    ),
    (
        "IF 3 GE 4\nELSE\nIF 4 GE 4\nREPLY 'same'\nEND\nEND",
        Reply(b"same"),
    ),
    ("SET V 1", Reply(b"")),
    // Values that there aren't.
    ("SET V #1 + 1", Roll(99)),
    ("SET V 9999999999999999999999999999999 + 1", Roll(99)),
    (
        "SET V 9999999999999999999999999999999 * 9999999999999999999999999999999",
        Roll(99),
    ),
    ("IF 'x' LT 1\nEND", Roll(99)),
    ("REPLY IO.BAL", Roll(99)),
    ("REPL ACCTS BAL=1", Roll(99)),
    ("GU ACCTS KEY('A0011')", Roll(99)),
    ("ISRT TELLERS TNO='T1' CASH=2147483648", Roll(99)),
    (
        "SET V '0123456789012345678901234567890123456789'\nREPEAT 5\nSET V V & V\nEND",
        Roll(99),
    ),
    (
        "SET V '0123456789012345678901234567890123456789'\nREPEAT 4\nSET V V & V\nEND\nREPLY V V",
        Roll(99),
    ),
    ("ROLB 98", Roll(98)),
    // Loops.
    ("REPEAT 3\nSET V V & 'x'\nEND\nREPLY V", Reply(b"xxx")),
    ("REPEAT 10000\nEND\nREPLY 'done'", Reply(b"done")),
    // The inner loops together are 90,000,000 turns of nothing.
    (
        "REPEAT 9000\nREPEAT 10000\nEND\nEND\nREPLY 'done'",
        Reply(b"done"),
    ),
    (
        "REPEAT 2\nREPEAT 3\nSET V V & 'i'\nBREAK\nEND\nSET V V & 'o'\nEND\nREPLY V",
        Reply(b"ioio"),
    ),
    (
        "REPEAT 9\nIF V EQ 'xx'\nBREAK\nELSE\nSET V V & 'x'\nEND\nEND\nREPLY V '.'",
        Reply(b"xx."),
    ),
];

#[test]
fn lines_without_calls_end(rt: HostRuntime) -> Result<(), Fail> {
    for (lines, end) in &LINES {
        assert!(rt; ends(rt.alloc(), lines, end)?, "{lines}");
    }
    Ok(())
}
