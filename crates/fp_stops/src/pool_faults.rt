//! The pool of intervals over a site in memory: steps and what each answers, by several bounds and with each call of
//! the site failing alone.
//!
//! An interval has 512 bytes, all of them one number. At the start interval i of data set 4 has 40 + i, for i up to 7,
//! and interval i of data set 5 has 50 + i, for i up to 2.
ghost use Rattle.std.specs.Prelude.{◌≡◌, ◌≤◌, length, IfOk};

use ci_pool::{Owed, Pool, PoolFault};
use fp_model::{Bytes, List};
use memory_site::{MemorySite, Snapshot};
use std::alloc::{AllocError, Global};
use std::test::Fail;

/// The bytes of an interval.
const SIZE: u16 = 512;

/// A call of the pool, and what it answers.
enum Step {
    /// The interval has this number.
    Get(u16, u8, u8),
    /// The interval with this number is staged.
    Stage(u16, u8, u8),
    /// What is staged is published for this entry.
    Publish(u64),
    /// What is staged is dropped.
    Drop,
    /// The interval is written, where it is pending.
    Write(u16, u8),
    /// With so many entries sealed, this one is the oldest.
    Oldest(u64, Option<(u16, u64)>),
    /// Of the entries below the first number, with so many sealed, this is owed.
    Owes(u64, u64, Owed),
}

use Step::{Drop as DropStaged, Get, Oldest, Owes, Publish, Stage, Write};

/// By hand, from what was staged and published so far.
static STEPS: [Step; 38] = [
    Get(4, 4, 44),
    Get(4, 4, 44),
    // Past the end of the data set.
    Get(5, 3, 0),
    // Staged bytes aren't looked at.
    Stage(4, 4, 100),
    Get(4, 4, 44),
    Publish(7),
    Get(4, 4, 100),
    // Staged once more in place of the first bytes.
    Stage(4, 2, 101),
    Stage(5, 1, 102),
    Stage(4, 2, 103),
    Publish(8),
    Get(4, 2, 103),
    Get(5, 1, 102),
    Stage(4, 4, 104),
    DropStaged,
    Get(4, 4, 100),
    // Changed again: its oldest entry is 7 still.
    Stage(4, 4, 105),
    Publish(9),
    Oldest(8, None),
    Oldest(9, Some((4, 2))),
    Oldest(10, Some((4, 2))),
    Owes(7, 10, Owed::None),
    Owes(8, 9, Owed::Unsealed),
    Owes(8, 10, Owed::Write(4, 4)),
    Owes(9, 9, Owed::Write(4, 2)),
    Write(4, 2),
    Get(4, 2, 103),
    Oldest(10, Some((5, 1))),
    Write(4, 4),
    Get(4, 4, 105),
    Oldest(10, Some((5, 1))),
    Write(5, 1),
    Get(5, 1, 102),
    Oldest(10, None),
    Owes(100, 100, Owed::None),
    // One that isn't pending.
    Write(4, 7),
    Get(4, 7, 47),
    Get(4, 3, 43),
];

/// An interval of this number.
fn interval(alloc: Global, byte: u8) -> Result<Vec<u8>, AllocError>
    ensures { IfOk result (λ bytes. length bytes.items ≡ 512) }
{
    vec![in alloc; byte; usize::from(SIZE)]
}

/// Intervals of consecutive numbers.
fn intervals(alloc: Global, first: u8, count: u8) -> Result<Bytes, AllocError> {
    let mut bytes = Bytes::new(alloc);
    for i in 0..count {
        bytes.append(&interval(alloc, first.wrapping_add(i))?)?;
    }
    Ok(bytes)
}

/// The site at the start, whose calls with these numbers fail.
fn site_of(alloc: Global, failing: &[u64]) -> Result<MemorySite, AllocError> {
    let mut images = List::new(alloc);
    for _ in 0..4 {
        images.push(Bytes::new(alloc))?;
    }
    images.push(intervals(alloc, 40, 8)?)?;
    images.push(intervals(alloc, 50, 3)?)?;
    MemorySite::from_snapshot(alloc, Snapshot::new(images, Bytes::new(alloc)), failing)
}

/// Whether bytes are an interval of this number.
fn is_interval(bytes: &Bytes, byte: u8) -> bool {
    bytes.len() == usize::from(SIZE) && bytes.as_slice().iter().all(|b| *b == byte)
}

/// Takes a step. Whether it answers as it says.
fn take(
    alloc: Global,
    pool: &mut Pool,
    site: &mut MemorySite,
    step: &Step,
) -> Result<bool, PoolFault> {
    match step {
        Get(set, ci, byte) => {
            let bytes = pool.get(site, *set, u64::from(*ci), SIZE)?;
            Ok(is_interval(&bytes, *byte))
        }
        Stage(set, ci, byte) => {
            let bytes = Bytes::from_vec(interval(alloc, *byte)?);
            pool.stage(*set, u64::from(*ci), bytes)?;
            Ok(pool.staged(*set, u64::from(*ci)).is_some())
        }
        Publish(place) => {
            pool.publish(*place);
            Ok(true)
        }
        DropStaged => {
            pool.drop_staged();
            Ok(true)
        }
        Write(set, ci) => match pool.write_one(site, *set, u64::from(*ci)) {
            Ok(()) => Ok(true),
            Err(_) => Err(PoolFault::Failed),
        },
        Oldest(sealed, oldest) => Ok(pool.oldest_sealed(*sealed) == *oldest),
        Owes(count, sealed, owed) => Ok(pool.owed(*count, *sealed) == *owed),
    }
}

/// Takes a step, once more where it failed. Whether it answers as it says then.
fn take_twice(alloc: Global, pool: &mut Pool, site: &mut MemorySite, step: &Step) -> bool {
    let answer = match take(alloc, pool, site, step) {
        Err(PoolFault::Failed) => take(alloc, pool, site, step),
        answer => answer,
    };
    matches!(answer, Ok(true))
}

/// The steps.
fn steps() -> &'static [Step] {
    &STEPS
}

/// Takes all steps, each that fails twice. Whether they answer as they say.
fn take_all(alloc: Global, pool: &mut Pool, site: &mut MemorySite) -> bool {
    for step in steps() {
        if !take_twice(alloc, pool, site, step) {
            return false;
        }
    }
    true
}

/// Takes all steps with a pool of this bound, over this site. How many of its calls failed, where the steps answered as
/// they say.
fn faults_over(alloc: Global, site: &mut MemorySite, bound: u32) -> Result<Option<u64>, AllocError>
    requires { 1 ≤ bound }
{
    let mut pool = Pool::new(alloc, bound)?;
    if take_all(alloc, &mut pool, site) {
        Ok(Some(site.faults()))
    } else {
        Ok(None)
    }
}

/// So it is over a site whose calls with these numbers fail.
fn faults_of(alloc: Global, bound: u32, failing: &[u64]) -> Result<Option<u64>, AllocError>
    requires { 1 ≤ bound }
{
    let mut site = site_of(alloc, failing)?;
    faults_over(alloc, &mut site, bound)
}

/// Bounds, and how many calls the site gets. With the bound 1 an interval is read again after another one; else only
/// what was published, and so left the list, is read again once it is written.
static BOUNDS: [(u32, u64); 3] = [(1, 11), (2, 10), (1000, 10)];

#[test]
fn every_bound_gives_the_same_bytes(rt: HostRuntime) -> Result<(), Fail> {
    for (bound, _) in &BOUNDS {
        let faults = faults_of(rt.alloc(), (*bound).max(1), &[])?;
        assert!(rt; faults == Some(0), "bound {bound}");
    }
    Ok(())
}

#[test]
fn each_call_fails_alone(rt: HostRuntime) -> Result<(), Fail> {
    for (bound, calls) in &BOUNDS {
        for call in 0..12 {
            let faults = faults_of(rt.alloc(), (*bound).max(1), &[call])?;
            let wanted = u64::from(call < *calls);
            assert!(rt; faults == Some(wanted), "bound {bound}, call {call}");
        }
    }
    Ok(())
}

// ---- what stands on the list isn't read again

/// Gets interval 4 of data set 4. Whether it has these bytes.
fn gets(pool: &mut Pool, site: &mut MemorySite, wanted: &Bytes) -> bool {
    match pool.get(site, 4, 4, 512) {
        Ok(bytes) => bytes == *wanted && wanted.len() == 512,
        Err(_) => false,
    }
}

/// Whether interval 5 isn't got, as the site fails.
fn fails(pool: &mut Pool, site: &mut MemorySite) -> bool {
    matches!(pool.get(site, 4, 5, 512), Err(PoolFault::Failed))
}

/// Gets interval 4 of data set 4, and, where that succeeds, it once more and interval 5. Whether the two are the same
/// bytes and the third failed.
fn got_again(pool: &mut Pool, site: &mut MemorySite) -> Option<bool> {
    match pool.get(site, 4, 4, 512) {
        Ok(first) => Some(gets(pool, site, &first) && fails(pool, site)),
        Err(_) => None,
    }
}

/// So it is over a site whose calls fail from this number on.
fn got_again_till(alloc: Global, stop: u64) -> Result<Option<bool>, AllocError> {
    let mut pool = Pool::new(alloc, 1)?;
    let mut site = MemorySite::stopping(alloc, stop)?;
    Ok(got_again(&mut pool, &mut site))
}

#[test]
fn a_listed_interval_is_not_read_again(rt: HostRuntime) -> Result<(), Fail> {
    for stop in 0..8 {
        if let Some(good) = got_again_till(rt.alloc(), stop)? {
            assert!(rt; good, "stop {stop}");
            assert!(rt; stop == 1);
            return Ok(());
        }
    }
    assert!(rt; false, "no get succeeded");
    Ok(())
}
