//! The clean intervals, the most recently used first.

ghost use Rattle.std.specs.Prelude.{◌≡◌, ◌≢◌, ◌≤◌, ℕ, List, [], length, IfOk, OnErr, IsSome, Some, None, Err};
ghost use Rattle.std.specs.Map.{lookup};
ghost use Rattle.lru.specs.LruCache.{lru_cache};
ghost use Rattle.ci_pool.specs.Cells.{is_key};
ghost use Rattle.ci_pool.specs.Held.{brought_first};
ghost use Rattle.ci_pool.specs.declared.fault.PoolFault.TheVariants as fault;

use crate::PoolFault;
use fp_lists::Bytes;
use lru::LruCache;
use std::alloc::{AllocError, Global};
use std::num::NonZeroUsize;

/// The clean intervals, by data set and number.
pub(crate) type Clean = LruCache<(u16, u64), Bytes>;

/// No clean intervals, and at most so many later.
pub(crate) fn none(alloc: Global, bound: u32) -> Result<Clean, AllocError>
    requires { 1 ≤ bound }
    ensures { IfOk result (λ clean. clean ≡ lru_cache [] bound) }
{
    let bound = NonZeroUsize::new(bound as usize).unwrap();
    LruCache::sparse(alloc, bound)
}

/// The bytes of an interval of the list, which becomes the first. After want of memory the list is as before.
pub(crate) fn use_again(clean: &mut Clean, set: u16, ci: u64) -> Result<Bytes, PoolFault>
    requires { IsSome (lookup (is_key set ci) clean.old.entries) }
    ensures ok { IfOk result (λ bytes. lookup (is_key set ci) clean.old.entries ≡ Some bytes) }
    ensures list { IfOk result (λ bytes.
        clean.new ≡ lru_cache (brought_first clean.old.cap set ci bytes clean.old.entries) clean.old.cap) }
    ensures err { OnErr result (clean.new ≡ clean.old) }
    ensures same { (s k : ℕ) → lookup (is_key s k) clean.new.entries ≡ lookup (is_key s k) clean.old.entries }
    ensures never { result ≢ Err fault.Failed }
{
    // No effect at run time. The proof reads here that the list is within its bound, which is at least 1.
    let _count = clean.len();
    let bytes = clean.peek(&(set, ci)).unwrap().copy()?;
    clean.promote(&(set, ci));
    Ok(bytes)
}

/// Puts an interval with these bytes at the head of the list, and gives them. After want of memory the list is as
/// before.
pub(crate) fn add(clean: &mut Clean, set: u16, ci: u64, bytes: Bytes) -> Result<Bytes, PoolFault>
    requires { lookup (is_key set ci) clean.old.entries ≡ None }
    ensures ok { IfOk result (λ b. b ≡ bytes) }
    ensures list { IfOk result (λ b.
        clean.new ≡ lru_cache (brought_first clean.old.cap set ci b clean.old.entries) clean.old.cap) }
    ensures err { OnErr result (clean.new ≡ clean.old) }
    ensures never { result ≢ Err fault.Failed }
{
    // No effect at run time. The proof reads here that the list is within its bound, which is at least 1.
    let _count = clean.len();
    let copy = bytes.copy()?;
    match clean.put((set, ci), copy) {
        Ok(_) => Ok(bytes),
        Err(_) => Err(PoolFault::Memory),
    }
}
