//! The text and the number of each answer, and answers that come before the site is looked at.
use crate::steps::status_over;
use fp_defs::DefsFault;
use fp_model::{Bytes, Kind, Name};
use fp_schedule::ScheduleFault;
use fp_site::Site;
use fp_source::Part;
use fp_system::{Status, fault_text};
use memory_site::MemorySite;
use std::alloc::{AllocError, Global};
use std::test::Fail;
use txn_lang::ScriptFault;

const GOOD: &str = "regions = [1]\nrouter = \"FOLD\"\n";

// What is said of a status, with its number behind it.
fn said(alloc: Global, status: &Status) -> Result<String, AllocError> {
    let text = fault_text(alloc, status)?;
    let number = status.number();
    let text = str::from_utf8(text.as_slice()).unwrap_or("no text");
    format!(in alloc; "{text}|{number}")
}

// Whether this is said of a status.
fn is_said(alloc: Global, status: &Status, wanted: &str) -> Result<bool, AllocError> {
    let said = said(alloc, status)?;
    Ok(said.as_str() == wanted)
}

fn says(alloc: Global, status: Status, wanted: &str) -> Result<bool, AllocError> {
    is_said(alloc, &status, wanted)
}

// The parts that a command reads: definitions, scripts and a schedule, and no messages.
fn parts_of(alloc: Global, texts: [&str; 3]) -> Result<[Bytes; 4], AllocError> {
    let [definitions, scripts, schedule] = texts;
    Ok([
        Bytes::from_slice(alloc, definitions.as_bytes())?,
        Bytes::from_slice(alloc, scripts.as_bytes())?,
        Bytes::from_slice(alloc, schedule.as_bytes())?,
        Bytes::new(alloc),
    ])
}

// Whether a command says this over definitions, scripts and a schedule, and leaves a site empty.
fn refuses(
    alloc: Global,
    words: &[&str],
    texts: [&str; 3],
    site: &mut MemorySite,
    wanted: &str,
) -> Result<bool, AllocError> {
    let parts = parts_of(alloc, texts)?;
    let status = status_over(alloc, words, parts, &[], site)?;
    Ok(site.contents(0).is_empty() && says(alloc, status, wanted)?)
}

// The same of a new site.
fn is_refused(
    alloc: Global,
    words: &[&str],
    texts: [&str; 3],
    wanted: &str,
) -> Result<bool, AllocError> {
    let mut site = MemorySite::new(alloc, &[])?;
    refuses(alloc, words, texts, &mut site, wanted)
}

const USAGE: &str =
    "usage: ims_fp define DIR | run DIR | show DIR | log DIR | migrate DIR | audit DIR|1";

// What is said of each answer of a run, by its place below.
static ANSWERS: [&str; 14] = [
    "|0",
    USAGE,
    "schedule: bad token 3|4",
    "schedule: too many tokens|4",
    "schedule: too long|4",
    "read fault|5",
    "site fault|6",
    "foreign log|7",
    "damaged: data set 0 at 208|8",
    "messages: line 12|9",
    "no memory|10",
    "not built: definitions|11",
    "old format|12",
    "illegal entry 2|13",
];

fn answer(place: usize) -> Status {
    match place {
        0 => Status::Done,
        1 => Status::Usage,
        2 => Status::Schedule(ScheduleFault::BadToken(3)),
        3 => Status::Schedule(ScheduleFault::TooMany),
        4 => Status::Schedule(ScheduleFault::TooLong),
        5 => Status::ReadFault,
        6 => Status::SiteFault,
        7 => Status::Foreign,
        8 => Status::Damaged { set: 0, at: 208 },
        9 => Status::Line { number: 12 },
        10 => Status::NoMemory,
        11 => Status::NotBuilt(Part::Definitions),
        12 => Status::OldFormat,
        _ => Status::Illegal { entry: 2 },
    }
}

fn says_of_answer(alloc: Global, place: usize, wanted: &str) -> Result<bool, AllocError> {
    let status = answer(place);
    is_said(alloc, &status, wanted)
}

#[test]
fn answers_of_the_run_have_their_texts(rt: HostRuntime) -> Result<(), Fail> {
    for (place, wanted) in ANSWERS.iter().enumerate() {
        assert!(rt; says_of_answer(rt.alloc(), place, wanted)?, "row {place}");
    }
    Ok(())
}

const LOOP: Name = Name(*b"LOOP    ");

static SCRIPTS_FAULTS: [(ScriptFault, &str); 5] = [
    (ScriptFault::Syntax(2), "scripts: syntax at line 2|3"),
    (
        ScriptFault::UnknownName(7),
        "scripts: unknown name at line 7|3",
    ),
    (
        ScriptFault::TooDear(LOOP, 10001),
        "scripts: transaction LOOP costs 10001|3",
    ),
    (
        ScriptFault::Twice(LOOP),
        "scripts: transaction LOOP twice|3",
    ),
    (ScriptFault::TooLong, "scripts: too long|3"),
];

#[test]
fn faults_of_scripts_have_their_texts(rt: HostRuntime) -> Result<(), Fail> {
    for (place, (fault, wanted)) in SCRIPTS_FAULTS.iter().enumerate() {
        let is_so = says(rt.alloc(), Status::Scripts(*fault), wanted)?;
        assert!(rt; is_so, "row {place}");
    }
    Ok(())
}

// What is said of each fault of the definitions, by its place below.
static DEFINITIONS_FAULTS: [&str; 8] = [
    "definitions: not TOML|2",
    "definitions: missing pool|2",
    "definitions: unknown pool|2",
    "definitions: pool out of limit: -1|2",
    "definitions: twice pool|2",
    "definitions: bad field pool|2",
    "definitions: no exit FOLD|2",
    "definitions: too long|2",
];

fn definitions_fault(alloc: Global, place: usize) -> Result<DefsFault, AllocError> {
    let key = Bytes::from_slice(alloc, b"pool")?;
    Ok(match place {
        0 => DefsFault::NotToml,
        1 => DefsFault::Missing(key),
        2 => DefsFault::Unknown(key),
        3 => DefsFault::OutOfLimit(key, -1),
        4 => DefsFault::Twice(key),
        5 => DefsFault::BadField(key),
        6 => DefsFault::NoExit(Kind::Fold),
        _ => DefsFault::TooLong,
    })
}

fn says_of_definitions(alloc: Global, place: usize, wanted: &str) -> Result<bool, AllocError> {
    let fault = definitions_fault(alloc, place)?;
    says(alloc, Status::Definitions(fault), wanted)
}

#[test]
fn faults_of_definitions_have_their_texts(rt: HostRuntime) -> Result<(), Fail> {
    for (place, wanted) in DEFINITIONS_FAULTS.iter().enumerate() {
        assert!(rt;
            says_of_definitions(rt.alloc(), place, wanted)?,
            "row {place}"
        );
    }
    Ok(())
}

static NO_FORMS: [&[&str]; 11] = [
    &[],
    &["run"],
    &["run", ""],
    &["run", "-h"],
    &["-h"],
    &["Run", "D"],
    &["run", "D", "E"],
    &["show"],
    &["log", "-d"],
    &["log", "", "D"],
    &["audit"],
];

#[test]
fn words_in_no_form_are_usage(rt: HostRuntime) -> Result<(), Fail> {
    for (place, form) in NO_FORMS.iter().enumerate() {
        let is_so = is_refused(rt.alloc(), form, [GOOD, "", ""], USAGE)?;
        assert!(rt; is_so, "row {place}");
    }
    Ok(())
}

// A command, definitions, scripts and a schedule, and what is said.
static REFUSALS: [(&str, &str, &str, &str, &str); 8] = [
    (
        "run",
        "",
        "TRAN A\nBOGUS\n",
        "BOGUS",
        "definitions: missing regions|2",
    ),
    ("define", "[", "BOGUS\n", "BOGUS", "definitions: not TOML|2"),
    (
        "run",
        "regions = [1, 1]\nrouter = \"FOLD\"\n",
        "TRAN A\nREPLY 'A'\n",
        "IN R2 R3",
        "schedule: bad token 3|4",
    ),
    (
        "run",
        "regions = [1]\nrouter = \"RANGE\"\n",
        "BOGUS\n",
        "",
        "definitions: no exit RANGE|2",
    ),
    (
        "run",
        GOOD,
        "TRAN A\nBOGUS\n",
        "BOGUS",
        "scripts: syntax at line 2|3",
    ),
    (
        "define",
        GOOD,
        "TRAN A\nGU ACCTS\n",
        "",
        "scripts: unknown name at line 2|3",
    ),
    ("run", GOOD, "TRAN A\nREPLY 'A'\n", "IN R1", "foreign log|7"),
    (
        "audit",
        GOOD,
        "TRAN A\nREPLY 'A'\n",
        "BOGUS",
        "foreign log|7",
    ),
];

#[test]
fn the_first_fault_of_the_parts_is_told(rt: HostRuntime) -> Result<(), Fail> {
    for (place, (command, definitions, scripts, schedule, wanted)) in REFUSALS.iter().enumerate() {
        let texts = [*definitions, *scripts, *schedule];
        let is_so = is_refused(rt.alloc(), &[command, "D"], texts, wanted)?;
        assert!(rt; is_so, "row {place}");
    }
    Ok(())
}
