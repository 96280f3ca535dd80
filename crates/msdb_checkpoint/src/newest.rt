//! Reading the newest checkpoint.
ghost use Rattle.fp_model.specs.CheckpointText.{IsOpen};
ghost use Rattle.fp_site.specs.Disk.{Disk, Stays, read_range};
ghost use Rattle.fp_lists.specs.Continued.{IsContinued};
ghost use Rattle.fp_lists.specs.Faults.{Counts};
ghost use Rattle.gated_write.specs.Gates.{ReadsOnly};
ghost use Rattle.msdb_checkpoint.specs.Newest.{HasBadHead, HasCheckpoint, HasNoCheckpoint, HasNumber, IsBadSet, IsDamagedSet, IsNewest, IsNotOpen, IsWhole, ReadsCheckpoints};
ghost use Rattle.msdb_checkpoint.specs.inside.Newest.{IsNewer};
ghost use Rattle.msdb_checkpoint.specs.declared.fault.CkptFault.TheVariants as faults;
ghost use Rattle.std.specs.List.{AllByRecursion};
ghost use Rattle.std.specs.Prelude.{◌≡◌, ◌⊎◌, ◌+◌, ◌-◌, ◌<◌, ◌≤◌, ◌^◌, ℕ, IfNone, IfOk, IfSome, IsErrOf, drop, false, length, take, true};

use crate::{Checkpoints, CkptFault};
use checkpoint_format::{Loaded, head, read};
use fp_model::{Defs, MsdbDef};
use fp_site::{Failed, Site};
use log_format::ReadError;
use std::alloc::Global;

// The gate of a data set and the 16 bytes behind it, and whether it has them.
fn front_of<S: Site>(site: &mut S, set: u16) -> Result<([u8; 17], bool), Failed>
    ensures bytes { S.told site.old
        → IfOk result (λ front. front.0 ≡ read_range ((S.disk site.old).contents set) 0 17) }
    ensures whole { S.told site.old → IfOk result
        (λ front. front.1 ≡ true → 17 ≤ length ((S.disk site.old).contents set)) }
    ensures cut { S.told site.old → IfOk result
        (λ front. front.1 ≡ false → length ((S.disk site.old).contents set) < 17) }
    ensures cause { Counts (S.faults site.old) (S.faults site.new) result }
    ensures stays { S.told site.old → Stays (S.disk site.old) (S.disk site.new) }
    ensures reads { ReadsOnly set (S.tells_reads site.old) (S.tells_reads site.new) (S.bytes_read site.old)
        (S.bytes_read site.new) }
    ensures few { S.tells_reads site.new set → S.bytes_read site.new set ≤ S.bytes_read site.old set + 17 }
    ensures site { IsContinued S.told S.faults S.holds S.keeps site.old site.new }
{
    let size = site.size(set)?;
    let mut bytes = [0u8; 17];
    site.read_at(set, 0, &mut bytes)?;
    Ok((bytes, size >= 17))
}

// The number of the checkpoint in a data set; none where its gate isn't open.
fn number_in<S: Site>(site: &mut S, set: u16) -> Result<Option<u64>, CkptFault>
    ensures none { S.told site.old → IfOk result
        (λ found. IfNone found (IsNotOpen ((S.disk site.old).contents set))) }
    ensures some { S.told site.old → IfOk result
        (λ found. IfSome found (HasNumber ((S.disk site.old).contents set))) }
    ensures damaged { (place : ℕ) → S.told site.old → IsErrOf result (faults.Damaged place)
        → (place ≡ set) × HasBadHead ((S.disk site.old).contents set) }
    ensures never { IsErrOf result faults.Memory → ⊥ }
    ensures cause { IsErrOf result faults.Failed → (S.faults site.old < S.faults site.new)
        ⊎ (S.faults site.new ≡ 2 ^ 64 - 1) }
    ensures stayed { (IsErrOf result faults.Failed → ⊥) → S.faults site.new ≡ S.faults site.old }
    ensures stays { S.told site.old → Stays (S.disk site.old) (S.disk site.new) }
    ensures reads { ReadsOnly set (S.tells_reads site.old) (S.tells_reads site.new) (S.bytes_read site.old)
        (S.bytes_read site.new) }
    ensures few { S.tells_reads site.new set → S.bytes_read site.new set ≤ S.bytes_read site.old set + 17 }
    ensures site { IsContinued S.told S.faults S.holds S.keeps site.old site.new }
{
    let (bytes, is_whole) = front_of(site, set)?;
    if bytes[0] != 1 {
        return Ok(None);
    }
    if !is_whole {
        return Err(CkptFault::Damaged(set));
    }
    match head(&bytes[1..]) {
        Ok(((_, number), _)) => Ok(Some(number)),
        Err(ReadError::Bad) => Err(CkptFault::Damaged(set)),
        Err(ReadError::Memory) => Err(CkptFault::Memory),
    }
}

// Which data set has the newest of two numbers.
fn newer(first: Option<u64>, second: Option<u64>) -> Option<u16>
    ensures { IsNewer first second result }
{
    match first {
        None => match second {
            None => None,
            Some(_) => Some(2),
        },
        Some(one) => match second {
            Some(two) if one < two => Some(2),
            _ => Some(1),
        },
    }
}

// The data set of the newest open checkpoint; none where neither is open.
fn newest_set<S: Site>(site: &mut S) -> Result<Option<u16>, CkptFault>
    ensures none { S.told site.old → IfOk result (λ found. IfNone found
        (IsNotOpen ((S.disk site.old).contents 1) × IsNotOpen ((S.disk site.old).contents 2))) }
    ensures some { S.told site.old → IfOk result
        (λ found. IfSome found (IsNewest (S.disk site.old).contents)) }
    ensures set { IfOk result (λ found. IfSome found (λ set. (set ≡ 1) ⊎ (set ≡ 2))) }
    ensures damaged { (place : ℕ) → S.told site.old → IsErrOf result (faults.Damaged place)
        → IsBadSet (S.disk site.old).contents place }
    ensures good { S.told site.old → IfOk result
        (λ _. (set : ℕ) → IsBadSet (S.disk site.old).contents set → ⊥) }
    ensures never { IsErrOf result faults.Memory → ⊥ }
    ensures cause { IsErrOf result faults.Failed → (S.faults site.old < S.faults site.new)
        ⊎ (S.faults site.new ≡ 2 ^ 64 - 1) }
    ensures stayed { (IsErrOf result faults.Failed → ⊥) → S.faults site.new ≡ S.faults site.old }
    ensures stays { S.told site.old → Stays (S.disk site.old) (S.disk site.new) }
    ensures reads { ReadsCheckpoints (S.tells_reads site.old) (S.tells_reads site.new) (S.bytes_read site.old)
        (S.bytes_read site.new) }
    ensures few { (set : ℕ) → S.tells_reads site.new set → S.bytes_read site.new set
        ≤ S.bytes_read site.old set + 17 }
    ensures site { IsContinued S.told S.faults S.holds S.keeps site.old site.new }
{
    let first = number_in(site, 1)?;
    let second = number_in(site, 2)?;
    Ok(newer(first, second))
}

// The bytes of a data set behind its gate.
fn behind_gate<S: Site>(alloc: Global, site: &mut S, set: u16) -> Result<Vec<u8>, CkptFault>
    ensures bytes { S.told site.old
        → IfOk result (λ bytes. bytes.items ≡ drop 1 ((S.disk site.old).contents set)) }
    ensures cause { IsErrOf result faults.Failed → (S.faults site.old < S.faults site.new)
        ⊎ (S.faults site.new ≡ 2 ^ 64 - 1) }
    ensures stayed { (IsErrOf result faults.Failed → ⊥) → S.faults site.new ≡ S.faults site.old }
    ensures never { (place : ℕ) → IsErrOf result (faults.Damaged place) → ⊥ }
    ensures stays { S.told site.old → Stays (S.disk site.old) (S.disk site.new) }
    ensures reads { ReadsOnly set (S.tells_reads site.old) (S.tells_reads site.new) (S.bytes_read site.old)
        (S.bytes_read site.new) }
    ensures most { S.told site.old → S.tells_reads site.new set → S.bytes_read site.new set
        ≤ S.bytes_read site.old set + length ((S.disk site.old).contents set) }
    ensures site { IsContinued S.told S.faults S.holds S.keeps site.old site.new }
{
    let size = site.size(set)?;
    let mut bytes = vec![in alloc; 0u8; size.saturating_sub(1) as usize]?;
    site.read_at(set, 1, &mut bytes)?;
    Ok(bytes)
}

// The checkpoint of these databases in a data set.
fn load<S: Site>(
    alloc: Global,
    site: &mut S,
    defs: &[MsdbDef],
    set: u16,
) -> Result<Loaded, CkptFault>
    ensures ok { S.told site.old → IfOk result (HasCheckpoint defs.now ((S.disk site.old).contents set)) }
    ensures whole { S.told site.old → AllByRecursion (λ def. def.length < 2 ^ 16) defs.now
        → IfOk result (IsWhole defs.now ((S.disk site.old).contents set)) }
    ensures damaged { (place : ℕ) → S.told site.old → IsErrOf result (faults.Damaged place)
        → (place ≡ set) × HasNoCheckpoint defs.now ((S.disk site.old).contents set) }
    ensures cause { IsErrOf result faults.Failed → (S.faults site.old < S.faults site.new)
        ⊎ (S.faults site.new ≡ 2 ^ 64 - 1) }
    ensures stayed { (IsErrOf result faults.Failed → ⊥) → S.faults site.new ≡ S.faults site.old }
    ensures stays { S.told site.old → Stays (S.disk site.old) (S.disk site.new) }
    ensures reads { ReadsOnly set (S.tells_reads site.old) (S.tells_reads site.new) (S.bytes_read site.old)
        (S.bytes_read site.new) }
    ensures most { S.told site.old → S.tells_reads site.new set → S.bytes_read site.new set
        ≤ S.bytes_read site.old set + length ((S.disk site.old).contents set) }
    ensures site { IsContinued S.told S.faults S.holds S.keeps site.old site.new }
{
    let bytes = behind_gate(alloc, site, set)?;
    match read(alloc, defs, &bytes) {
        Ok((loaded, _)) => Ok(loaded),
        Err(ReadError::Bad) => Err(CkptFault::Damaged(set)),
        Err(ReadError::Memory) => Err(CkptFault::Memory),
    }
}

impl Checkpoints {
    /// The newest open checkpoint of these databases; `None` exactly where neither data set is open. Of the other open
    /// one the gate, the letters and the number are looked at, and no body is read. `Damaged` comes exactly where the
    /// newest is outside its format, or one of them in its letters or number, and says which.
    pub fn newest<S: Site>(
        alloc: Global,
        site: &mut S,
        defs: &Defs,
    ) -> Result<Option<Loaded>, CkptFault>
        ensures none { S.told site.old → IfOk result (λ found. IfNone found
            (IsNotOpen ((S.disk site.old).contents 1) × IsNotOpen ((S.disk site.old).contents 2))) }
        ensures some { S.told site.old → IfOk result (λ found. IfSome found
            (λ loaded. (set : ℕ) × IsNewest (S.disk site.old).contents set
            × HasCheckpoint defs.now.msdbs ((S.disk site.old).contents set) loaded)) }

        // It is whole: the data set begins with it, and it keeps the rules.
        ensures whole { S.told site.old → AllByRecursion (λ def. def.length < 2 ^ 16) defs.now.msdbs
            → IfOk result (λ found. IfSome found (λ loaded. (set : ℕ) × IsNewest (S.disk site.old).contents set
            × IsWhole defs.now.msdbs ((S.disk site.old).contents set) loaded)) }

        // An open one that is outside its format is told, and no other.
        ensures damaged { (set : ℕ) → S.told site.old → IsErrOf result (faults.Damaged set)
            → IsDamagedSet defs.now.msdbs (S.disk site.old).contents set }
        ensures good { S.told site.old → IfOk result
            (λ _. (set : ℕ) → IsDamagedSet defs.now.msdbs (S.disk site.old).contents set → ⊥) }

        // It fails only with the site.
        ensures cause { IsErrOf result faults.Failed → (S.faults site.old < S.faults site.new)
            ⊎ (S.faults site.new ≡ 2 ^ 64 - 1) }
        ensures stayed { (IsErrOf result faults.Failed → ⊥) → S.faults site.new ≡ S.faults site.old }

        // It takes memory only for a checkpoint that is open.
        ensures memory { S.told site.old → IsErrOf result faults.Memory
            → (set : ℕ) × IsNewest (S.disk site.old).contents set }

        // Nothing changes, and only the two data sets are read: 17 bytes of each at the most, and the newest once more.
        ensures stays { S.told site.old → Stays (S.disk site.old) (S.disk site.new) }
        ensures reads { ReadsCheckpoints (S.tells_reads site.old) (S.tells_reads site.new) (S.bytes_read site.old)
            (S.bytes_read site.new) }
        ensures few { (set : ℕ) → S.told site.old → (IsNewest (S.disk site.old).contents set → ⊥)
            → S.tells_reads site.new set → S.bytes_read site.new set ≤ S.bytes_read site.old set + 17 }
        ensures most { (set : ℕ) → S.told site.old → S.tells_reads site.new set → S.bytes_read site.new set
            ≤ S.bytes_read site.old set + 17 + length ((S.disk site.old).contents set) }
        ensures site { IsContinued S.told S.faults S.holds S.keeps site.old site.new }
    {
        let Some(set) = newest_set(site)? else {
            return Ok(None);
        };
        Ok(Some(load(alloc, site, defs.msdbs.as_slice(), set)?))
    }

    /// The data set of the newest open checkpoint; 2 where neither is open. No body is read. Takes no memory.
    pub fn slot_of<S: Site>(site: &mut S) -> Result<u16, CkptFault>
        ensures slot { S.told site.old → IfOk result (λ set. IsNewest (S.disk site.old).contents set
            ⊎ ((set ≡ 2) × IsNotOpen ((S.disk site.old).contents 1) × IsNotOpen ((S.disk site.old).contents 2))) }
        ensures set { IfOk result (λ set. (set ≡ 1) ⊎ (set ≡ 2)) }

        // One that has bad letters or no number is told, and no other.
        ensures damaged { (set : ℕ) → S.told site.old → IsErrOf result (faults.Damaged set)
            → IsBadSet (S.disk site.old).contents set }
        ensures good { S.told site.old → IfOk result
            (λ _. (set : ℕ) → IsBadSet (S.disk site.old).contents set → ⊥) }

        // It fails only with the site, and takes no memory.
        ensures never { IsErrOf result faults.Memory → ⊥ }
        ensures cause { IsErrOf result faults.Failed → (S.faults site.old < S.faults site.new)
            ⊎ (S.faults site.new ≡ 2 ^ 64 - 1) }
        ensures stayed { (IsErrOf result faults.Failed → ⊥) → S.faults site.new ≡ S.faults site.old }

        // Nothing changes, and only the two data sets are read, 17 bytes of each at the most.
        ensures stays { S.told site.old → Stays (S.disk site.old) (S.disk site.new) }
        ensures reads { ReadsCheckpoints (S.tells_reads site.old) (S.tells_reads site.new) (S.bytes_read site.old)
            (S.bytes_read site.new) }
        ensures few { (set : ℕ) → S.tells_reads site.new set → S.bytes_read site.new set
            ≤ S.bytes_read site.old set + 17 }
        ensures site { IsContinued S.told S.faults S.holds S.keeps site.old site.new }
    {
        match newest_set(site)? {
            Some(set) => Ok(set),
            None => Ok(2),
        }
    }
}
