//! The stages of a checkpoint that is written in steps.
ghost use Rattle.fp_site.specs.Disk.{Disk, Settles};
ghost use Rattle.fp_site.specs.Moments.{OnlyOn, Through};
ghost use Rattle.fp_lists.specs.Continued.{IsContinued};
ghost use Rattle.fp_lists.specs.Faults.{Counts};
ghost use Rattle.gated_write.specs.Gates.{ReadsOnly};
ghost use Rattle.msdb_checkpoint.specs.Steps.{GoesFrom, IsAt, IsNoLonger, IsOldClosedOrWhole, IsSure, WritesPiece, steps_left};
ghost use Rattle.msdb_checkpoint.specs.inside.Steps.{IsNext, left_behind};
ghost use Rattle.msdb_checkpoint.specs.declared.stages.Stage.TheVariants.{Begun, Synced, Written};
ghost use Rattle.std.specs.Prelude.{◌≡◌, ◌+◌, ◌<◌, ◌≤◌, ◌^◌, ℕ, IfOk, List as ListOf, OnOk, Some, length};

use fp_model::Bytes;
use fp_site::{Failed, Site};
use gated_write::{finish, open, put, shut};

/// How far a checkpoint is.
#[derive(Clone, Copy)]
pub enum Stage {
    /// Nothing is written.
    Begun,
    /// The gate is closed, and so many of its bytes are written.
    Written(usize),
    /// They are all written and synced.
    Synced,
}

/// A checkpoint that is under way.
#[derive(Drop)]
pub struct UnderWay {
    /// Its number.
    pub number: u64,
    /// Its bytes behind the gate.
    pub body: Bytes,
    pub stage: Stage,
}

// How many bytes a step writes.
const PIECE: usize = 65_536;

// Closes the gate.
fn close<S: Site>(site: &mut S, set: u16, body: &[u8]) -> Result<Option<Stage>, Failed>
    ensures next { S.told site.old → IfOk result (IsNext body.now set (S.disk site.new)) }
    ensures fewer { IfOk result (λ next. left_behind body.now next + 1 ≡ steps_left body.now Begun) }
    ensures no_longer { S.told site.old
        → OnOk result (IsNoLonger body.now set (S.disk site.old) (S.disk site.new)) }
    ensures cause { Counts (S.faults site.old) (S.faults site.new) result }
    ensures only { S.told site.old → OnlyOn set (S.disk site.old) (S.disk site.new) }
    ensures reads { ReadsOnly set (S.tells_reads site.old) (S.tells_reads site.new) (S.bytes_read site.old)
        (S.bytes_read site.new) }
    ensures site { IsContinued S.told S.faults S.holds S.keeps site.old site.new }
    ensures crash { S.told site.old → 0 < length ((S.disk site.old).contents set) →
        Through (S.disk site.old) (S.disk site.new)
        (λ s. IsOldClosedOrWhole (S.disk site.old) set body.now (s.images set)) }
    ensures settles { (image : ListOf ℕ) → S.told site.old → 0 < length ((S.disk site.old).contents set)
        → Settles (S.disk site.new) set image → IsOldClosedOrWhole (S.disk site.old) set body.now image }
{
    shut(site, set)?;
    Ok(Some(Stage::Written(0)))
}

// Writes the next piece.
fn write_piece<S: Site>(
    site: &mut S,
    set: u16,
    body: &[u8],
    count: usize,
) -> Result<Option<Stage>, Failed>
    requires room { length body.now + 1 ≤ 2 ^ 62 }
    requires more { count < length body.now }
    ensures next { S.told site.old → IsAt body.now set (S.disk site.old) (Written count)
        → IfOk result (IsNext body.now set (S.disk site.new)) }
    ensures piece { S.told site.old
        → OnOk result (WritesPiece body.now count set (S.disk site.old) (S.disk site.new)) }
    ensures fewer { IfOk result (λ next. left_behind body.now next + 1 ≡ steps_left body.now (Written count)) }
    ensures no_longer { S.told site.old
        → OnOk result (IsNoLonger body.now set (S.disk site.old) (S.disk site.new)) }
    ensures cause { Counts (S.faults site.old) (S.faults site.new) result }
    ensures only { S.told site.old → OnlyOn set (S.disk site.old) (S.disk site.new) }
    ensures reads { ReadsOnly set (S.tells_reads site.old) (S.tells_reads site.new) (S.bytes_read site.old)
        (S.bytes_read site.new) }
    ensures site { IsContinued S.told S.faults S.holds S.keeps site.old site.new }
    ensures crash { S.told site.old → IsAt body.now set (S.disk site.old) (Written count) →
        Through (S.disk site.old) (S.disk site.new)
        (λ s. IsOldClosedOrWhole (S.disk site.old) set body.now (s.images set)) }
    ensures settles { (image : ListOf ℕ) → S.told site.old → IsAt body.now set (S.disk site.old) (Written count)
        → Settles (S.disk site.new) set image → IsOldClosedOrWhole (S.disk site.old) set body.now image }
{
    let end = body.len().min(count + PIECE);
    put(site, set, 1 + count as u64, &body[count..end])?;
    Ok(Some(Stage::Written(end)))
}

// Syncs the bytes, which are all written.
fn sync_body<S: Site>(
    site: &mut S,
    set: u16,
    body: &[u8],
    count: usize,
) -> Result<Option<Stage>, Failed>
    requires all { length body.now ≤ count }
    ensures next { S.told site.old → IsAt body.now set (S.disk site.old) (Written count)
        → IfOk result (IsNext body.now set (S.disk site.new)) }
    ensures fewer { IfOk result (λ next. left_behind body.now next + 1 ≡ steps_left body.now (Written count)) }
    ensures no_longer { S.told site.old
        → OnOk result (IsNoLonger body.now set (S.disk site.old) (S.disk site.new)) }
    ensures cause { Counts (S.faults site.old) (S.faults site.new) result }
    ensures only { S.told site.old → OnlyOn set (S.disk site.old) (S.disk site.new) }
    ensures reads { ReadsOnly set (S.tells_reads site.old) (S.tells_reads site.new) (S.bytes_read site.old)
        (S.bytes_read site.new) }
    ensures site { IsContinued S.told S.faults S.holds S.keeps site.old site.new }
    ensures crash { S.told site.old → IsAt body.now set (S.disk site.old) (Written count) →
        Through (S.disk site.old) (S.disk site.new)
        (λ s. IsOldClosedOrWhole (S.disk site.old) set body.now (s.images set)) }
    ensures settles { (image : ListOf ℕ) → S.told site.old → IsAt body.now set (S.disk site.old) (Written count)
        → Settles (S.disk site.new) set image → IsOldClosedOrWhole (S.disk site.old) set body.now image }
{
    finish(site, set)?;
    Ok(Some(Stage::Synced))
}

// Opens the gate.
fn open_body<S: Site>(site: &mut S, set: u16, body: &[u8]) -> Result<Option<Stage>, Failed>
    ensures next { S.told site.old → IsAt body.now set (S.disk site.old) Synced
        → IfOk result (IsNext body.now set (S.disk site.new)) }
    ensures fewer { IfOk result (λ next. left_behind body.now next + 1 ≡ steps_left body.now Synced) }
    ensures no_longer { S.told site.old
        → OnOk result (IsNoLonger body.now set (S.disk site.old) (S.disk site.new)) }
    ensures cause { Counts (S.faults site.old) (S.faults site.new) result }
    ensures only { S.told site.old → OnlyOn set (S.disk site.old) (S.disk site.new) }
    ensures reads { ReadsOnly set (S.tells_reads site.old) (S.tells_reads site.new) (S.bytes_read site.old)
        (S.bytes_read site.new) }
    ensures site { IsContinued S.told S.faults S.holds S.keeps site.old site.new }
    ensures crash { S.told site.old → IsAt body.now set (S.disk site.old) Synced →
        Through (S.disk site.old) (S.disk site.new)
        (λ s. IsOldClosedOrWhole (S.disk site.old) set body.now (s.images set)) }
    ensures settles { (image : ListOf ℕ) → S.told site.old → IsAt body.now set (S.disk site.old) Synced
        → Settles (S.disk site.new) set image → IsOldClosedOrWhole (S.disk site.old) set body.now image }
{
    open(site, set, 0)?;
    Ok(None)
}

// Does what comes next at a stage, and answers the next one; none where the checkpoint is sure now.
pub(crate) fn advance<S: Site>(
    site: &mut S,
    set: u16,
    body: &[u8],
    stage: Stage,
) -> Result<Option<Stage>, Failed>
    requires room { length body.now + 1 ≤ 2 ^ 62 }
    ensures next { S.told site.old → GoesFrom body.now set (S.disk site.old) stage
        → IfOk result (IsNext body.now set (S.disk site.new)) }
    ensures piece { (count : ℕ) → S.told site.old → stage ≡ Written count → count < length body.now
        → OnOk result (WritesPiece body.now count set (S.disk site.old) (S.disk site.new)) }
    ensures fewer { IfOk result (λ next. left_behind body.now next + 1 ≡ steps_left body.now stage) }
    ensures no_longer { S.told site.old
        → OnOk result (IsNoLonger body.now set (S.disk site.old) (S.disk site.new)) }
    ensures cause { Counts (S.faults site.old) (S.faults site.new) result }

    // No other data set changes, nothing is sent, and no other is read.
    ensures only { S.told site.old → OnlyOn set (S.disk site.old) (S.disk site.new) }
    ensures reads { ReadsOnly set (S.tells_reads site.old) (S.tells_reads site.new) (S.bytes_read site.old)
        (S.bytes_read site.new) }
    ensures site { IsContinued S.told S.faults S.holds S.keeps site.old site.new }

    // A crash at any moment leaves the data set as a sync might have left it before, or closed, or whole.
    ensures crash { S.told site.old → IsAt body.now set (S.disk site.old) stage →
        Through (S.disk site.old) (S.disk site.new)
        (λ s. IsOldClosedOrWhole (S.disk site.old) set body.now (s.images set)) }

    // So does each image that a further sync may make of what a crash may leave now.
    ensures settles { (image : ListOf ℕ) → S.told site.old → IsAt body.now set (S.disk site.old) stage
        → Settles (S.disk site.new) set image
        → IsOldClosedOrWhole (S.disk site.old) set body.now image }
{
    match stage {
        Stage::Begun => close(site, set, body),
        Stage::Written(count) if count < body.len() => write_piece(site, set, body, count),
        Stage::Written(count) => sync_body(site, set, body, count),
        Stage::Synced => open_body(site, set, body),
    }
}

// Does all that is left from a stage on.
pub(crate) fn run<S: Site>(site: &mut S, set: u16, body: &[u8], stage: Stage) -> Result<(), Failed>
    requires room { length body.now + 1 ≤ 2 ^ 62 }
    ensures sure { S.told site.old → GoesFrom body.now set (S.disk site.old) stage
        → OnOk result (IsSure body.now set (S.disk site.new)) }
    ensures no_longer { S.told site.old
        → OnOk result (IsNoLonger body.now set (S.disk site.old) (S.disk site.new)) }
    ensures cause { Counts (S.faults site.old) (S.faults site.new) result }
    ensures only { S.told site.old → OnlyOn set (S.disk site.old) (S.disk site.new) }
    ensures reads { ReadsOnly set (S.tells_reads site.old) (S.tells_reads site.new) (S.bytes_read site.old)
        (S.bytes_read site.new) }
    ensures site { IsContinued S.told S.faults S.holds S.keeps site.old site.new }
    ensures crash { S.told site.old → IsAt body.now set (S.disk site.old) stage →
        Through (S.disk site.old) (S.disk site.new)
        (λ s. IsOldClosedOrWhole (S.disk site.old) set body.now (s.images set)) }
    ensures settles { (image : ListOf ℕ) → S.told site.old → IsAt body.now set (S.disk site.old) stage
        → Settles (S.disk site.new) set image → IsOldClosedOrWhole (S.disk site.old) set body.now image }
{
    match advance(site, set, body, stage)? {
        Some(next) => run(site, set, body, next),
        None => Ok(()),
    }
}
