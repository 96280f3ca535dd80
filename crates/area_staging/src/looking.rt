//! The newest bytes of an interval.

ghost use Rattle.std.specs.Prelude.{◌≡◌, ◌≢◌, ◌+◌, ◌*◌, ◌≤◌, ◌^◌, ℕ, List, Err, Some, IfOk, IsErrOf, length};
ghost use Rattle.fp_lists.specs.Faults.{Rose};
ghost use Rattle.ci_space.specs.Interval.{IsInterval};
ghost use Rattle.ci_pool.specs.Held.{IsClean, HasSize, SameAtHand, held_at, newest_in};
ghost use Rattle.area_staging.specs.Looking.{LooksAt};

use ci_pool::{Pool, PoolFault};
use ci_space::{GetFault, Interval};
use fp_lists::Bytes;
use fp_site::Site;

/// These bytes as an interval of this size.
fn interval_of(bytes: Bytes, size: u16, ci: u64) -> Result<Interval, GetFault>
    ensures same { IfOk result (λ interval. interval ≡ bytes) }
    ensures interval { IfOk result IsInterval }
    ensures size { IfOk result (λ interval. length interval ≡ size) }
    ensures bad { (n : ℕ) → result ≡ Err (GetFault.BadTiles n) → n ≡ ci }
    ensures bad_bytes { (n : ℕ) → result ≡ Err (GetFault.BadTiles n) → length bytes ≡ size → ¬ IsInterval bytes }
    ensures never_failed { result ≢ Err GetFault.Failed }
{
    match Interval::from_bytes(bytes.into_vec()) {
        Ok(interval) => {
            if interval.size() == size {
                Ok(interval)
            } else {
                Err(GetFault::BadTiles(ci))
            }
        }
        Err(_) => Err(GetFault::BadTiles(ci)),
    }
}

/// The newest published bytes of an interval, else those of its data set.
pub(crate) fn newest<T: Site>(
    pool: &mut Pool,
    site: &mut T,
    set: u16,
    ci: u64,
    size: u16,
) -> Result<Bytes, GetFault>
    requires { (ci + 1) * size ≤ 2 ^ 62 }
    ensures newest { T.told site.old → IsClean (T.disk site.old).contents pool.old → HasSize set size pool.old
        → IfOk result (λ bytes. bytes ≡ newest_in pool.old (T.disk site.old).contents set ci size) }
    ensures never_bad { (n : ℕ) → result ≢ Err (GetFault.BadTiles n) }
    ensures unasked { (bytes : List ℕ) → held_at pool.old set ci ≡ Some bytes → site.new ≡ site.old }
    ensures hand { (bytes : List ℕ) → held_at pool.old set ci ≡ Some bytes → SameAtHand pool.old pool.new }
    ensures failed { result ≡ Err GetFault.Failed → Rose (T.faults site.old) (T.faults site.new) }
    ensures looks { LooksAt T.told T.disk T.faults T.holds T.keeps set size site.old site.new pool.old pool.new }
{
    match pool.get(site, set, ci, size) {
        Ok(bytes) => Ok(bytes),
        Err(PoolFault::Failed) => Err(GetFault::Failed),
        Err(PoolFault::Memory) => Err(GetFault::Memory),
    }
}

/// An interval of an area: as the pool has it, else as its data set has.
pub fn interval_at<T: Site>(
    pool: &mut Pool,
    site: &mut T,
    set: u16,
    ci: u64,
    size: u16,
) -> Result<Interval, GetFault>
    requires { (ci + 1) * size ≤ 2 ^ 62 }
    ensures newest { T.told site.old → IsClean (T.disk site.old).contents pool.old → HasSize set size pool.old
        → IfOk result (λ interval. interval ≡ newest_in pool.old (T.disk site.old).contents set ci size) }
    ensures interval { IfOk result IsInterval }
    ensures size { IfOk result (λ interval. length interval ≡ size) }
    ensures bad { (n : ℕ) → result ≡ Err (GetFault.BadTiles n) → n ≡ ci }
    ensures bad_bytes { T.told site.old → IsClean (T.disk site.old).contents pool.old → HasSize set size pool.old
        → (n : ℕ) → result ≡ Err (GetFault.BadTiles n)
        → ¬ IsInterval (newest_in pool.old (T.disk site.old).contents set ci size) }
    ensures unasked { (bytes : List ℕ) → held_at pool.old set ci ≡ Some bytes → site.new ≡ site.old }
    ensures hand { (bytes : List ℕ) → held_at pool.old set ci ≡ Some bytes → SameAtHand pool.old pool.new }
    ensures failed { result ≡ Err GetFault.Failed → Rose (T.faults site.old) (T.faults site.new) }
    ensures looks { LooksAt T.told T.disk T.faults T.holds T.keeps set size site.old site.new pool.old pool.new }
{
    let bytes = newest(pool, site, set, ci, size)?;
    interval_of(bytes, size, ci)
}
