//! The tokens of a schedule, one after another.
ghost use Rattle.std.specs.Prelude.{◌≡◌, ◌<◌, ◌≤◌, ◌∷◌, [], IfNone, IfSome, false, length, slice_get};
ghost use Rattle.fp_schedule.specs.Schedule as schedule;
ghost use Rattle.fp_schedule.specs.Schedule.{tokens_of};

use fp_texts::is_separator;

// Whether a byte separates tokens: a blank, a tab, a newline or a byte 13.
fn separates(byte: u8) -> bool
    ensures { result ≡ schedule.separates byte }
{
    is_separator(byte) || byte == b'\n' || byte == b'\r'
}

// The bytes from the first one on that separates nothing.
fn unseparated(bytes: &[u8]) -> &[u8]
    ensures tokens { tokens_of result.now ≡ tokens_of bytes.now }
    ensures begins { IfSome (slice_get result.now 0) (λ byte. schedule.separates byte ≡ false) }
    ensures shorter { length result.now ≤ length bytes.now }
{
    match bytes.iter().position(|byte| !separates(*byte)) {
        Some(place) => &bytes[place..],
        None => &[],
    }
}

// The first token, and what stands behind it; `None` where there is none.
pub(crate) fn split_token(bytes: &[u8]) -> Option<(&[u8], &[u8])>
    ensures some { IfSome result (λ x. tokens_of bytes.now ≡ x.0.now ∷ tokens_of x.1.now) }
    ensures none { IfNone result (tokens_of bytes.now ≡ []) }
    ensures shorter { IfSome result (λ x. length x.1.now < length bytes.now) }
{
    let found = unseparated(bytes);
    if found.is_empty() {
        return None;
    }
    match found.iter().position(|byte| separates(*byte)) {
        Some(end) => Some((&found[..end], &found[end..])),
        None => Some((found, &[])),
    }
}
