//! An area in memory: it counts its calls, and fails to give an interval when it is told to.
ghost use Rattle.ci_space.specs.Interval.{is_kind};
ghost use Rattle.std.specs.Prelude.{◌≡◌, [], length, refl, IfOk, IsTrue};

use ci_space::{GetFault, Head, Interval, Intervals, Memory, Shape};
use std::alloc::{AllocError, Global};
use std::test::Fail;

/// Intervals of 512 bytes. No clause says what they hold.
#[derive(Drop)]
pub struct MemoryArea {
    alloc: Global,
    intervals: Vec<Interval>,

    /// The last one whose bytes are none.
    bad: Option<u64>,
    gets: u64,
    puts: u64,

    /// How many intervals it gives before it fails.
    left: u64,

    /// How often it failed.
    faults: u64,
}

impl MemoryArea {
    /// An area of no intervals.
    pub fn new(alloc: Global) -> MemoryArea {
        MemoryArea {
            alloc,
            intervals: Vec::new(alloc),
            bad: None,
            gets: 0,
            puts: 0,
            left: u64::MAX,
            faults: 0,
        }
    }

    /// Adds an interval.
    pub fn add(&mut self, interval: Interval) -> Result<(), AllocError> {
        self.intervals.push(interval)?;
        Ok(())
    }

    /// Adds an empty interval of a kind.
    pub fn add_empty(&mut self, kind: u8) -> Result<(), Memory>
        requires { IsTrue (is_kind kind) }
    {
        self.add(Interval::empty(self.alloc, 512, kind)?)?;
        Ok(())
    }

    /// Adds bytes that may be an interval.
    pub fn add_bytes(&mut self, bytes: &[u8]) -> Result<(), Memory> {
        match Interval::read(self.alloc, bytes)? {
            Some(interval) => self.add(interval)?,
            None => {
                self.bad = Some(self.intervals.len() as u64);
                self.add_empty(5)?;
            }
        }
        Ok(())
    }

    /// From now on it gives so many intervals, and then fails.
    pub fn fail_after(&mut self, count: u64) {
        self.left = count;
    }

    /// How often an interval was got, and how often one was put.
    pub fn calls(&self) -> (u64, u64) {
        (self.gets, self.puts)
    }

    /// How often they were since they stood at these numbers.
    pub fn calls_since(&self, calls: (u64, u64)) -> (u64, u64) {
        (
            self.gets.saturating_sub(calls.0),
            self.puts.saturating_sub(calls.1),
        )
    }

    /// An interval, if there is one. This isn't counted.
    pub fn interval(&self, ci: u64) -> Option<&Interval> {
        if ci < self.intervals.len() as u64 {
            return Some(&self.intervals[ci as usize]);
        }
        None
    }

    /// The head of an interval, if there is one.
    pub fn head_at(&self, ci: u64) -> Option<Head> {
        match self.interval(ci) {
            Some(interval) => Some(interval.head()),
            None => None,
        }
    }

    /// Whether an element of an interval is used at a place.
    pub fn is_used(&self, ci: u64, at: u16) -> bool {
        match self.interval(ci) {
            Some(interval) => interval.is_used(at),
            None => false,
        }
    }

    /// Whether an interval has these bytes from a place on.
    pub fn has_bytes(&self, ci: u64, at: usize, bytes: &[u8]) -> bool {
        match self.interval(ci) {
            Some(interval) => stand_at(interval.whole(), at, bytes),
            None => false,
        }
    }

    /// The bytes of all intervals, one behind the other.
    pub fn bytes(&self) -> Result<Vec<u8>, AllocError> {
        let mut bytes = Vec::new(self.alloc);
        for interval in &self.intervals {
            bytes.extend_from_slice(interval.whole())?;
        }
        Ok(bytes)
    }
}

/// Whether bytes have these from a place on.
fn stand_at(all: &[u8], at: usize, bytes: &[u8]) -> bool {
    let mut there = all.iter().skip(at);
    bytes.iter().all(|byte| there.next() == Some(byte))
}

impl Intervals for MemoryArea {
    ghost told = { λ area. ⊥ };

    ghost intervals = { λ area. [] };

    ghost number = { λ area. length area.intervals.items };

    ghost size = { λ area. 512 };

    ghost faults = { λ area. area.faults };

    ghost keeps = { λ first area. Unit {0} };

    ghost numbered = { λ area told. absurd told };

    ghost sized = { λ area told. absurd told };

    ghost is_sized = { λ area. refl };

    ghost keeps_itself = { λ area. tt };

    fn count(&self) -> u64 {
        self.intervals.len() as u64
    }

    fn get(&mut self, ci: u64) -> Result<Interval, GetFault> {
        if self.left == 0 {
            self.faults = self.faults.saturating_add(1);
            return Err(GetFault::Failed);
        }
        self.left -= 1;
        self.gets = self.gets.saturating_add(1);
        match self.intervals[ci as usize].copied(self.alloc) {
            Ok(interval) if interval.size() == 512 && self.bad != Some(ci) => Ok(interval),
            Ok(_) => Err(GetFault::BadTiles(ci)),
            Err(_) => Err(GetFault::Memory),
        }
    }

    fn put(&mut self, ci: u64, i: Interval) -> Result<(), Memory> {
        self.intervals[ci as usize] = i;
        self.puts = self.puts.saturating_add(1);
        Ok(())
    }

    fn extend(&mut self) -> Result<u64, GetFault> {
        let number = self.intervals.len() as u64;
        if number >= 1 << 53 {
            return Err(GetFault::Memory);
        }
        let Ok(interval) = Interval::empty(self.alloc, 512, 5) else {
            return Err(GetFault::Memory);
        };
        match self.intervals.push(interval) {
            Ok(()) => Ok(number),
            Err(_) => Err(GetFault::Memory),
        }
    }
}

/// Units of work of two base and one dependent overflow interval, and sequential intervals, so many of each.
pub fn shape(uows: u32, seq_cis: u32) -> Shape
    ensures ci { result.ci ≡ 512 }
    ensures uows { result.uows ≡ uows }
    ensures base { result.base ≡ 2 }
    ensures intervals { result.seq_cis ≡ seq_cis }
{
    Shape {
        ci: 512,
        uows,
        base: 2,
        overflow: 1,
        seq_cis,
    }
}

/// Control with these numbers at the end of its head.
pub fn control(alloc: Global, ends: [u64; 4]) -> Result<Interval, Memory>
    ensures { IfOk result (λ interval. length interval ≡ 512) }
{
    let mut control = Interval::empty(alloc, 512, 1)?;
    control.set_ends(ends);
    Ok(control)
}

/// The area of that shape as it is formatted, with these numbers at the end of control's head.
pub fn formatted(
    rt: &HostRuntime,
    ends: [u64; 4],
    uows: u32,
    seq_cis: u32,
) -> Result<MemoryArea, Fail> {
    let mut area = MemoryArea::new(rt.alloc());
    area.add(control(rt.alloc(), ends)?)?;
    for _ in 0..uows {
        area.add_empty(2)?;
        area.add_empty(2)?;
        area.add_empty(3)?;
    }
    for _ in 0..seq_cis {
        area.add_empty(4)?;
    }
    Ok(area)
}
