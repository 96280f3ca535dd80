//! Plain functions of each kind, to be boxed where the program begins.
ghost use Rattle.std.specs.Prelude.{◌≡◌, ◌<◌, slice_index};
ghost use Rattle.fp_model.specs.Exits.{spread, route, name_text};
ghost use Rattle.fp_exits.specs.Ranges.{IsSpreadable, IsRoutable};

use fp_model::{Kind, Name};

// A blank, which fills a name up.
const BLANK: u8 = b' ';

/// The place of a key among `n` by `Kind::Fold`: from 0, times 31 plus each byte, modulo `n`.
pub fn fold_place(key: &[u8], n: u64) -> u64
    requires { IsSpreadable key.now n }

    ensures exact { result ≡ spread Kind.Fold n key.now }
    ensures below { result < n }
{
    let mut place = 0u64;
    for byte in key {
        place = (place * 31 + u64::from(*byte)) % n;
    }
    place
}

/// The place of a key among `n` by `Kind::Range`: its first four bytes as a number, of 2^32, in `n` parts.
pub fn range_place(key: &[u8], n: u64) -> u64
    requires { IsSpreadable key.now n }

    ensures exact { result ≡ spread Kind.Range n key.now }
    ensures below { result < n }
{
    let byte = |at: usize| key.get(at).copied().unwrap_or(0);
    let first_four = u32::from_be_bytes([byte(0), byte(1), byte(2), byte(3)]);
    u64::from(first_four) * n / 4_294_967_296
}

/// The group of a transaction among `n`, counted from 0, by `Kind::Fold`: its name without blanks, folded.
pub fn fold_group(tran: &Name, n: u64) -> u64
    requires { IsRoutable tran.now n }

    ensures exact { result ≡ route Kind.Fold n tran.now }
    ensures below { result < n }
{
    let mut group = 0u64;
    for byte in &tran.0 {
        if *byte != BLANK {
            group = (group * 31 + u64::from(*byte)) % n;
        }
    }
    group
}

/// The group of a transaction among `n`, counted from 0, by `Kind::Range`: the first four bytes of its name without
/// blanks, as a number, of 2^32, in `n` parts.
pub fn range_group(tran: &Name, n: u64) -> u64
    requires { IsRoutable tran.now n }

    ensures exact { result ≡ route Kind.Range n tran.now }
    ensures below { result < n }
{
    let byte = |at: u64| letter(tran, at);
    let first_four = u32::from_be_bytes([byte(0), byte(1), byte(2), byte(3)]);
    u64::from(first_four) * n / 4_294_967_296
}

// The byte at a place of a name without its blanks; 0 behind the last.
fn letter(tran: &Name, at: u64) -> u8
    ensures { result ≡ slice_index (name_text tran.now) at }
{
    let mut before = at;
    for byte in &tran.0 {
        if *byte != BLANK {
            if before == 0 {
                return *byte;
            }
            before -= 1;
        }
    }
    0
}
