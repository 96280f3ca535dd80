//! The keys of segments, and where a key stands among those that ascend.
ghost use Rattle.fp_model.specs.Texts.{same_text};
ghost use Rattle.std.specs.Int.{w64, from_be_bytes, to_be_bytes};
ghost use Rattle.std.specs.Prelude.{◌≡◌, IfSome, take};

// Where the segment of a key stands, or would stand.
#[derive(Clone, Copy)]
pub(crate) enum Place {
    Stands(usize),
    Lacks(usize),
}

// The key of a segment: its first bytes.
pub(crate) fn key_in(segment: &[u8], count: usize) -> &[u8]
    ensures { result.now ≡ take count segment.now }
{
    &segment[..count.min(segment.len())]
}

// The number that a key of eight bytes spells. None where it has more or fewer.
fn number_of(key: &[u8]) -> Option<u64>
    ensures is { IfSome result (λ n. n ≡ from_be_bytes w64 key.now) }
    ensures spelled { IfSome result (λ n. to_be_bytes w64 n ≡ key.now) }
{
    match key {
        [a, b, c, d, e, f, g, h] => { Some(u64::from_be_bytes([*a, *b, *c, *d, *e, *f, *g, *h])) }
        _ => None,
    }
}

// Whether two keys are the same. Those of eight bytes are compared as numbers.
pub(crate) fn is_same(key: &[u8], other: &[u8]) -> bool
    ensures { result ≡ same_text key.now other.now }
{
    match (number_of(key), number_of(other)) {
        (Some(number), Some(another)) => number == another,
        _ => key == other,
    }
}
