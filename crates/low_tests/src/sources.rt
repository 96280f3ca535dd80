//! What no clause of `fp_source` says, and each public call once.
use crate::steps::ended;
use fp_lists::Bytes;
use fp_source::{Failed, Part, Source, WholeFault, whole};
use memory_source::MemorySource;
use message_lines::{LineFault, Lines};
use std::alloc::{AllocError, Global};

// A byte, how many times, and what stands behind it.
type Piece = (u8, usize, &'static [u8]);

// Whether bytes are this piece.
fn is_piece(bytes: &[u8], piece: &Piece) -> bool {
    let (byte, count, end) = *piece;
    if bytes.len() < count {
        return false;
    }
    let (front, rest) = bytes.split_at(count);
    for found in front {
        if *found != byte {
            return false;
        }
    }
    rest == end
}

// Appends a piece.
fn put_piece(into: &mut Bytes, piece: &Piece) -> Result<(), AllocError> {
    let (byte, count, end) = *piece;
    for _ in 0..count {
        into.push(byte)?;
    }
    into.append(end)
}

// Gives the definitions and the scripts a word each, and the messages a piece.
fn fill(parts: &mut [Bytes; 4], messages: &Piece) -> Result<(), AllocError> {
    parts[0].append(b"defs")?;
    parts[1].append(b"scripts")?;
    put_piece(&mut parts[3], messages)
}

// A source with these messages, and a word in each other part.
fn source_of(alloc: Global, messages: &Piece, failing: &[u64]) -> Result<MemorySource, AllocError> {
    let mut parts = [
        Bytes::new(alloc),
        Bytes::new(alloc),
        Bytes::new(alloc),
        Bytes::new(alloc),
    ];
    fill(&mut parts, messages)?;
    MemorySource::new(alloc, parts, failing)
}

// A source that gives one byte of its messages a call.
#[derive(Drop)]
struct Slow {
    bytes: &'static [u8],
    at: usize,
}

impl Source for Slow {
    ghost use Rattle.fp_lists.specs.Faults.{Counts};
    ghost use Rattle.std.specs.Prelude.{◌≤◌, ◌<◌, IfOk, length};

    ghost told = { λ m. ⊥ };

    ghost left = { λ m p. m.bytes.now };

    ghost faults = { λ m. 0 };

    ghost holds = { λ m. 0 };

    ghost keeps = { λ first m. Unit {0} };

    ghost keeps_itself = { λ m. tt };

    ghost keeps_on = { λ a b c f g. tt };

    fn read(&mut self, _part: Part, into: &mut [u8]) -> Result<usize, Failed> {
        if self.at < self.bytes.len() {
            into[0] = self.bytes[self.at];
            self.at += 1;
            return Ok(1);
        }
        Ok(0)
    }
}

// A line, or what is said in place of one.
fn line_said(line: &Result<Option<Bytes>, LineFault>) -> &[u8] {
    match line {
        Ok(Some(line)) => line.as_slice(),
        Ok(None) => b"end",
        Err(LineFault::TooLong(_)) => b"too long",
        Err(LineFault::Failed) => b"failed",
        Err(LineFault::TooMany(_)) => b"too many",
        Err(LineFault::Memory) => b"no memory",
    }
}

// Appends a line with a bar behind it, and says whether others may follow; or how the lines ended.
fn put_line(text: &mut Bytes, line: &Result<Option<Bytes>, LineFault>) -> bool {
    text.append(line_said(line)).is_ok() && matches!(line, Ok(Some(_))) && text.push(b'|').is_ok()
}

// Whether all lines, each with a bar behind it, and how they ended are this piece.
fn are_lines<S: Source>(alloc: Global, source: &mut S, wanted: &Piece) -> bool {
    let mut text = Bytes::new(alloc);
    match Lines::new(alloc) {
        Ok(mut lines) => {
            for _ in 0..10000 {
                if !put_line(&mut text, &lines.next(source)) {
                    break;
                }
            }
        }
        Err(AllocError) => return false,
    }
    is_piece(text.as_slice(), wanted)
}

// A part, or why it isn't given.
fn part_said(part: &Result<Bytes, WholeFault>) -> &[u8] {
    match part {
        Ok(bytes) => bytes.as_slice(),
        Err(WholeFault::TooLong) => b"too long",
        Err(WholeFault::Failed) => b"failed",
        Err(WholeFault::Memory) => b"no memory",
    }
}

// What is asked of a source, and what must come of it.
enum Deed {
    // A read of five bytes of the scripts gives so many, if it doesn't fail, and this stands first then.
    Read(Option<usize>, u8),
    // So many reads failed.
    Faults(u64),
    // A part, with a limit, is this piece; or why it isn't given.
    Whole(Part, u64, Piece),
    // The messages have these lines, and end so.
    Lines(Piece),
}

// Messages, the reads that fail, and what is done.
static RUNS: [(Piece, &[u64], &[Deed]); 6] = [
    // A read gives what fits and then the rest.
    (
        (b'a', 0, b""),
        &[1],
        &[
            Deed::Read(Some(5), b's'),
            Deed::Read(None, 0),
            Deed::Read(Some(2), b't'),
            Deed::Faults(1),
        ],
    ),
    // A part is whole up to its limit.
    (
        (b'a', 70000, b""),
        &[3],
        &[
            Deed::Whole(Part::Messages, 70000, (b'a', 70000, b"")),
            Deed::Whole(Part::Definitions, 4, (b'a', 0, b"failed")),
            Deed::Whole(Part::Scripts, 6, (b'a', 0, b"too long")),
        ],
    ),
    // Lines lose their ends.
    (
        (b'a', 0, b"one\n\r\n\ntwo\r\r\nl\rast\r"),
        &[],
        &[Deed::Lines((b'a', 0, b"one|||two\r|l\rast\r|end"))],
    ),
    // A line of 2100 bytes is given, one of 2101 is too long.
    (
        (b'a', 2099, b"\r\n"),
        &[],
        &[Deed::Lines((b'a', 2099, b"|end"))],
    ),
    (
        (b'a', 2100, b"\r\n"),
        &[],
        &[Deed::Lines((b'a', 0, b"too long"))],
    ),
    // A read fails in the middle of a line.
    (
        (b'\n', 8190, b"abcdef\n"),
        &[1],
        &[Deed::Lines((b'|', 8190, b"failed"))],
    ),
];

// Whether a read of five bytes of the scripts gives so many, and this first.
fn is_read(source: &mut MemorySource, wanted: Option<usize>, first: u8) -> bool {
    let mut into = [0u8; 5];
    match source.read(Part::Scripts, &mut into) {
        Ok(count) => wanted == Some(count) && into[0] == first,
        Err(Failed) => wanted.is_none(),
    }
}

// Whether a deed comes out as it says.
fn comes_out<S: Source>(alloc: Global, source: &mut S, deed: &Deed) -> bool {
    match deed {
        Deed::Whole(part, limit, piece) => {
            is_piece(part_said(&whole(alloc, source, *part, *limit)), piece)
        }
        Deed::Lines(piece) => are_lines(alloc, source, piece),
        _ => false,
    }
}

// The place of the first deed that comes out otherwise.
fn first_wrong(alloc: Global, source: &mut MemorySource, deeds: &[Deed]) -> Option<usize> {
    for (place, deed) in deeds.iter().enumerate() {
        let is_so = match deed {
            Deed::Read(count, first) => is_read(source, *count, *first),
            Deed::Faults(count) => source.faults() == *count,
            _ => comes_out(alloc, source, deed),
        };
        if !is_so {
            return Some(place);
        }
    }
    None
}

// The same of a source with these messages and these reads that fail; the number of deeds where there is no memory.
fn first_wrong_of(
    alloc: Global,
    messages: &Piece,
    failing: &[u64],
    deeds: &[Deed],
) -> Option<usize> {
    match source_of(alloc, messages, failing) {
        Ok(mut source) => {
            let wrong = first_wrong(alloc, &mut source, deeds);
            ended(source, wrong)
        }
        Err(AllocError) => Some(deeds.len()),
    }
}

#[test]
fn parts_and_messages_are_read(rt: HostRuntime) {
    for (place, (messages, failing, deeds)) in RUNS.iter().enumerate() {
        let wrong = first_wrong_of(rt.alloc(), messages, failing, deeds);
        assert!(rt; wrong.is_none(), "run {place} at {wrong:?}");
    }
}

// What a source of a byte a read gives, and what comes of it.
static SLOW: [(&[u8], Deed); 2] = [
    (
        b"one\r\ntwo\n\nlast",
        Deed::Lines((b'a', 0, b"one|two||last|end")),
    ),
    (
        b"a byte a read",
        Deed::Whole(Part::Messages, 13, (b'a', 0, b"a byte a read")),
    ),
];

#[test]
fn one_byte_a_read_gives_the_same(rt: HostRuntime) {
    for (place, (bytes, deed)) in SLOW.iter().enumerate() {
        let mut source = Slow { bytes, at: 0 };
        assert!(rt; comes_out(rt.alloc(), &mut source, deed), "source {place}");
    }
}
