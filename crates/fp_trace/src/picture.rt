//! The turns of a run as a picture (SVG): a lane for IN, one for each region, one for LOG, from left to right.

use crate::table::event_text;
use crate::turns::{Span, Turn};
use fp_core::Did;
use fp_model::Event;
use std::alloc::{AllocError, Global};

// Where the first turn stands, and how far one is from the next.
const LEFT: u64 = 70;

const STEP: u64 = 26;

// Where the first lane begins, how high one without locks is, and where in it the marks stand.
const TOP: u64 = 28;

const LANE: u64 = 46;

const MARKS: u64 = 24;

// Where in a lane the bar of the first lock stands, and how far one is from the next.
const BARS: u64 = 42;

const BAR: u64 = 12;

const STYLE: &str =
    "<style>text{font:9px monospace}.t{fill:#e8eef7;stroke:#9ab}.h{stroke:#d08000;stroke-width:4}\
    .w{stroke:#d08000;stroke-width:2;stroke-dasharray:4 3}.ok{fill:#2a7a2a}.no{fill:#c02020}.on{fill:#335}\
    .off{fill:#fff;stroke:#335}.idle{fill:#bbb}.line{stroke:#ddd}.end{stroke:#888;stroke-dasharray:2 4}\
    .g{fill:#f3ead8;stroke:#a98}</style>\n";

// A lock that a region holds or waits for, from a turn on.
#[derive(Clone, Copy)]
struct Bar<'a> {
    lock: &'a str,
    from: u64,
    y: u64,
    waits: bool,
}

// A region.
#[derive(Drop)]
struct Lane<'a> {
    y: u64,
    // Where its transaction began, and the line of that.
    begun: Option<u64>,
    line: &'a str,
    bars: Vec<Bar<'a>>,
}

// The shapes of the picture, as far as it is drawn.
#[derive(Drop)]
struct Canvas {
    alloc: Global,
    text: String,
}

// The picture as far as it is drawn.
#[derive(Drop)]
struct Drawing<'a> {
    canvas: Canvas,
    lanes: Vec<Lane<'a>>,
    // How high a lane is.
    height: u64,
    // Where the lane of LOG begins.
    bottom: u64,
}

// Where a turn stands.
fn place_of(at: usize) -> u64 {
    LEFT.saturating_add(STEP.saturating_mul(at as u64))
}

// Where the lane of a number begins, of lanes that are so high: 0 is IN.
fn lane_top(number: usize, height: u64) -> u64 {
    TOP.saturating_add(height.saturating_mul(number as u64))
}

// The most locks that a region gains or waits for in one transaction.
fn most_locks(alloc: Global, turns: &[Turn], regions: usize) -> Result<u64, AllocError> {
    let mut counts: Vec<u64> = Vec::new(alloc);
    counts.resize(regions.saturating_add(1), 0)?;
    let mut most = 0u64;
    for turn in turns {
        let Event::Region(region) = turn.step.event else {
            continue;
        };
        let Some(count) = counts.get_mut(usize::from(region)) else {
            continue;
        };
        match turn.step.did {
            Did::Gained => *count = count.saturating_add(1),
            Did::Waited => most = most.max(count.saturating_add(1)),
            Did::Committed | Did::Refused | Did::Retried => *count = 0,
            _ => {}
        }
        most = most.max(*count);
    }
    Ok(most)
}

// How many regions there are in the turns.
fn regions_in(turns: &[Turn]) -> usize {
    let mut most = 0;
    for turn in turns {
        if let Event::Region(region) = turn.step.event {
            most = most.max(usize::from(region));
        }
    }
    most
}

// Appends text as XML has it.
fn put_text(into: &mut String, text: &str) -> Result<(), AllocError> {
    for character in text.chars() {
        match character {
            '&' => into.push_str("&amp;")?,
            '<' => into.push_str("&lt;")?,
            '>' => into.push_str("&gt;")?,
            other => into.push(other)?,
        }
    }
    Ok(())
}

// The word of groups.
fn groups_word(alloc: Global, groups: Span) -> Result<String, AllocError> {
    let Span { first, last } = groups;
    if first == last {
        format!(in alloc; "g{first}")
    } else {
        format!(in alloc; "g{first}-{last}")
    }
}

// The name of a lane, of so many regions.
fn lane_name(alloc: Global, number: usize, regions: usize) -> Result<String, AllocError> {
    match number {
        0 => event_text(alloc, Event::In),
        _ if number <= regions => format!(in alloc; "R{number}"),
        _ => event_text(alloc, Event::Log),
    }
}

impl Canvas {
    // Appends what was made.
    fn put(&mut self, made: Result<String, AllocError>) -> Result<(), AllocError> {
        self.text.push_str(&made?)
    }

    // A text at a place.
    fn label(&mut self, x: u64, y: u64, text: &str) -> Result<(), AllocError> {
        self.put(format!(in self.alloc; "<text x=\"{x}\" y=\"{y}\">"))?;
        put_text(&mut self.text, text)?;
        self.text.push_str("</text>\n")
    }

    // A text that was made, at a place.
    fn put_label(
        &mut self,
        x: u64,
        y: u64,
        made: Result<String, AllocError>,
    ) -> Result<(), AllocError> {
        self.label(x, y, &made?)
    }

    // A line of a class.
    fn line(&mut self, class: &str, from: (u64, u64), to: (u64, u64)) -> Result<(), AllocError> {
        let (x1, y1) = from;
        let (x2, y2) = to;
        self.put(format!(in self.alloc;
            "<line class=\"{class}\" x1=\"{x1}\" y1=\"{y1}\" x2=\"{x2}\" y2=\"{y2}\"/>\n"
        ))
    }

    // A box of a class, so wide and high.
    fn box_at(&mut self, class: &str, at: (u64, u64), size: (u64, u64)) -> Result<(), AllocError> {
        let (x, y) = at;
        let (width, height) = size;
        self.put(format!(in self.alloc;
            "<rect class=\"{class}\" x=\"{x}\" y=\"{y}\" width=\"{width}\" height=\"{height}\" fill-opacity=\"0.4\"/>\n"
        ))
    }

    // A mark of a class, with what it is about.
    fn mark(&mut self, class: &str, x: u64, y: u64, about: &str) -> Result<(), AllocError> {
        self.put(format!(in self.alloc;
            "<circle class=\"{class}\" cx=\"{x}\" cy=\"{y}\" r=\"4\"><title>"
        ))?;
        put_text(&mut self.text, about)?;
        self.text.push_str("</title></circle>\n")
    }

    // The mark of a turn that appended an entry or didn't, in the lane that begins at a height.
    fn mark_turn(&mut self, class: &str, x: u64, top: u64, turn: &Turn) -> Result<(), AllocError> {
        self.mark(class, x, top.saturating_add(MARKS), &turn.what)?;
        match turn.entry {
            Some(entry) => self.put_label(
                x.saturating_sub(3),
                top.saturating_add(MARKS - 7),
                entry.to_string(self.alloc),
            ),
            None => Ok(()),
        }
    }

    // The bar of a lock, up to a place.
    fn bar(&mut self, bar: &Bar<'_>, to: u64) -> Result<(), AllocError> {
        let class = if bar.waits { "w" } else { "h" };
        self.line(class, (bar.from, bar.y), (to, bar.y))?;
        if bar.waits {
            return Ok(());
        }
        self.label(
            bar.from.saturating_add(2),
            bar.y.saturating_sub(3),
            bar.lock,
        )
    }
}

impl<'a> Lane<'a> {
    // The bar of the lock that is waited for, which is the last one, goes.
    fn end_wait(&mut self) -> Option<Bar<'a>> {
        match self.bars.last() {
            Some(bar) if bar.waits => self.bars.pop(),
            _ => None,
        }
    }

    // Where the bar of a further lock stands.
    fn slot(&self) -> u64 {
        let slot = BARS.saturating_add(BAR.saturating_mul(self.bars.len() as u64));
        self.y.saturating_add(slot)
    }

    // A lock is gained or waited for.
    fn lock(&mut self, canvas: &mut Canvas, x: u64, turn: &'a Turn) -> Result<(), AllocError> {
        let y = match self.end_wait() {
            Some(bar) => {
                canvas.bar(&bar, x)?;
                bar.y
            }
            None => self.slot(),
        };
        self.bars.push(Bar {
            lock: &turn.lock,
            from: x,
            y,
            waits: turn.step.did == Did::Waited,
        })?;
        Ok(())
    }

    // Its locks go.
    fn release(&mut self, canvas: &mut Canvas, x: u64) -> Result<(), AllocError> {
        for bar in &self.bars {
            canvas.bar(bar, x)?;
        }
        self.bars.clear();
        Ok(())
    }

    // Its transaction ends.
    fn finish(&mut self, canvas: &mut Canvas, x: u64, height: u64) -> Result<(), AllocError> {
        self.release(canvas, x)?;
        let Some(from) = self.begun.take() else {
            return Ok(());
        };
        let size = (x.saturating_sub(from), height.saturating_sub(16));
        canvas.box_at("t", (from, self.y.saturating_add(12)), size)?;
        canvas.label(from, self.y.saturating_add(10), self.line)
    }

    // A turn of its region.
    fn turn(
        &mut self,
        canvas: &mut Canvas,
        x: u64,
        height: u64,
        turn: &'a Turn,
    ) -> Result<(), AllocError> {
        match turn.step.did {
            Did::Took => {
                self.begun = Some(x);
                self.line = &turn.what;
                Ok(())
            }
            Did::Gained | Did::Waited => self.lock(canvas, x, turn),
            Did::Committed | Did::Refused => self.finish(canvas, x, height),
            Did::Retried => self.release(canvas, x),
            _ => Ok(()),
        }
    }
}

// The class of the mark of a region's turn.
fn class_of(did: Did) -> &'static str {
    match did {
        Did::Took | Did::Answered => "on",
        Did::Gained | Did::Waited => "off",
        Did::Committed => "ok",
        Did::Refused | Did::Retried => "no",
        _ => "idle",
    }
}

impl<'a> Drawing<'a> {
    // The lanes of so many regions, each so high.
    fn new(alloc: Global, regions: usize, height: u64) -> Result<Drawing<'a>, AllocError> {
        let mut lanes = Vec::new(alloc);
        for number in 0..regions {
            lanes.push(Lane {
                y: lane_top(number.saturating_add(1), height),
                begun: None,
                line: "",
                bars: Vec::new(alloc),
            })?;
        }
        Ok(Drawing {
            canvas: Canvas {
                alloc,
                text: String::new(alloc),
            },
            lanes,
            height,
            bottom: lane_top(regions.saturating_add(1), height),
        })
    }

    // A turn of a region.
    fn region(&mut self, region: u8, x: u64, turn: &'a Turn) -> Result<(), AllocError> {
        let lane = usize::from(region.saturating_sub(1));
        if let Some(lane) = self.lanes.get_mut(lane) {
            lane.turn(&mut self.canvas, x, self.height, turn)?;
        }
        let top = lane_top(usize::from(region), self.height);
        self.canvas.mark_turn(class_of(turn.step.did), x, top, turn)
    }

    // A turn that reads a line.
    fn read(&mut self, x: u64, turn: &Turn) -> Result<(), AllocError> {
        let class = match turn.step.did {
            Did::Queued => "on",
            Did::Held => "off",
            Did::Refused => "no",
            _ => "idle",
        };
        self.canvas.mark_turn(class, x, TOP, turn)
    }

    // A turn that seals.
    fn seal(&mut self, x: u64, turn: &Turn) -> Result<(), AllocError> {
        let top = self.bottom;
        let Some(groups) = turn.groups else {
            return self.canvas.mark_turn("idle", x, top, turn);
        };
        self.canvas.box_at(
            "g",
            (x.saturating_sub(11), top.saturating_add(12)),
            (22, 24),
        )?;
        let word = groups_word(self.canvas.alloc, groups);
        self.canvas
            .put_label(x.saturating_sub(8), top.saturating_add(MARKS + 3), word)
    }

    // A turn.
    fn turn(&mut self, at: usize, turn: &'a Turn) -> Result<(), AllocError> {
        let x = place_of(at);
        if at % 5 == 4 {
            let number = (at as u64).saturating_add(1).to_string(self.canvas.alloc);
            self.canvas
                .put_label(x.saturating_sub(3), TOP - 12, number)?;
        }
        match turn.step.event {
            Event::In => self.read(x, turn),
            Event::Region(region) => self.region(region, x, turn),
            Event::Log | Event::Ckpt => self.seal(x, turn),
            Event::Out | Event::Purge { .. } => {
                self.canvas.mark_turn("idle", x, self.bottom, turn)
            }
        }
    }

    // The names of the lanes, and a line below each.
    fn lanes(&mut self, width: u64) -> Result<(), AllocError> {
        let regions = self.lanes.len();
        for number in 0..regions.saturating_add(2) {
            let top = lane_top(number, self.height);
            let name = lane_name(self.canvas.alloc, number, regions);
            self.canvas
                .put_label(10, top.saturating_add(MARKS + 3), name)?;
            let y = top.saturating_add(self.height);
            self.canvas.line("line", (10, y), (width, y))?;
        }
        Ok(())
    }

    // A line where the drain begins.
    fn end_of_schedule(&mut self, turns: &[Turn]) -> Result<(), AllocError> {
        for (at, turn) in turns.iter().enumerate() {
            if turn.step.in_drain {
                let x = place_of(at).saturating_sub(STEP / 2);
                let y = self.bottom.saturating_add(self.height);
                self.canvas.line("end", (x, TOP - 8), (x, y))?;
                return self
                    .canvas
                    .label(x.saturating_add(3), y.saturating_sub(4), "drain");
            }
        }
        Ok(())
    }

    // All of it.
    fn draw(&mut self, turns: &'a [Turn]) -> Result<(), AllocError> {
        let width = place_of(turns.len()).saturating_add(40);
        let height = self.bottom.saturating_add(self.height).saturating_add(10);
        let alloc = self.canvas.alloc;
        self.canvas.put(format!(in alloc;
            "<svg xmlns=\"http://www.w3.org/2000/svg\" width=\"{width}\" height=\"{height}\">\n"
        ))?;
        self.canvas.text.push_str(STYLE)?;
        self.canvas
            .text
            .push_str("<rect width=\"100%\" height=\"100%\" fill=\"#fff\"/>\n")?;
        self.lanes(width)?;
        self.end_of_schedule(turns)?;
        for (at, turn) in turns.iter().enumerate() {
            self.turn(at, turn)?;
        }
        self.canvas.text.push_str("</svg>\n")
    }
}

/// The picture of these turns.
pub(crate) fn picture(alloc: Global, turns: &[Turn]) -> Result<String, AllocError> {
    let regions = regions_in(turns);
    let height = LANE.saturating_add(BAR.saturating_mul(most_locks(alloc, turns, regions)?));
    let mut drawing = Drawing::new(alloc, regions, height)?;
    drawing.draw(turns)?;
    Ok(drawing.canvas.text)
}
