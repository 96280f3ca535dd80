//! An interval's bytes from the site.

ghost use Rattle.std.specs.Prelude.{◌≡◌, ◌+◌, ℕ, length, IfOk, OnOk};
ghost use Rattle.fp_site.specs.Disk.{Stays, read_range};
ghost use Rattle.fp_lists.specs.Continued.{IsContinued};
ghost use Rattle.ci_pool.specs.Held.{RoseAt, ReadsUpTo};
ghost use Rattle.ci_pool.specs.declared.fault.PoolFault.TheVariants as fault;

use crate::PoolFault;
use fp_lists::Bytes;
use fp_site::Site;
use std::alloc::Global;

/// So many bytes of a data set, from an offset on.
pub(crate) fn read<T: Site>(
    alloc: Global,
    site: &mut T,
    set: u16,
    at: u64,
    size: u16,
) -> Result<Bytes, PoolFault>
    ensures value { T.told site.old →
        IfOk result (λ bytes. bytes ≡ read_range ((T.disk site.old).contents set) at size) }
    ensures size { IfOk result (λ bytes. length bytes ≡ size) }
    ensures cause { RoseAt fault.Failed (T.faults site.old) (T.faults site.new) result }
    ensures stays { T.told site.old → Stays (T.disk site.old) (T.disk site.new) }
    ensures reads { ReadsUpTo set size (T.tells_reads site.old) (T.tells_reads site.new) (T.bytes_read site.old)
        (T.bytes_read site.new) }
    ensures asked { T.tells_reads site.new set →
        OnOk result (T.bytes_read site.new set ≡ T.bytes_read site.old set + size) }
    ensures site { IsContinued T.told T.faults T.holds T.keeps site.old site.new }
{
    let mut bytes = vec![in alloc; 0u8; usize::from(size)]?;
    match site.read_at(set, at, &mut bytes) {
        Ok(()) => Ok(Bytes::from_vec(bytes)),
        Err(_) => Err(PoolFault::Failed),
    }
}
