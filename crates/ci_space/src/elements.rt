//! The elements behind an interval's head, walked in its bytes.
//!
//!     length 2 | tag 1 | segment type 1 | content ..
//!
//! The length is of the whole element, a multiple of 4. The tag is 1 for a used element and 0 for a
//! free one, whose segment type is 0 and whose content means nothing. No two free elements are
//! neighbours. All this is the project's profile.

ghost use Rattle.std.specs.Prelude.{◌≡◌, ◌≢◌, ℕ, ◌+◌, ◌-◌, ◌*◌, ◌<◌, ◌≤◌, ◌↔◌, ◌%◌, ◌^◌, ◌==◌, List, [], ◌∷◌, ◌++◌, length, drop, replicate, slice_index, slice_set, slice_range, All, IsTrue, false, true, IfSome, IfNone};
ghost use Rattle.ci_space.specs.Element.{Element, Used, Chain, Begins, size_for};
ghost use Rattle.ci_space.specs.Interval.{IsZero, IsInterval, IsEmpty, IsUsed, HasRoom, Takes, IsFull, HasUsed, UsedBecomes, written, UsedIsFreed, OthersStay, has_elements, kind_of, is_size, empty_bytes};
ghost use Rattle.ci_space.specs.Walk.{TilesFrom, length_of};
ghost use Rattle.ci_space.specs.inside.Walk.{Puts, WalksPast, IsFirstFree, Splits, last_free, first_free, WalksTo};
ghost use Rattle.ci_space.specs.Interval.{Keeps};

/// The bytes of an interval before its elements.
pub const HEAD: usize = 32;

/// The tag of a free element.
const FREE: u8 = 0;

/// The tag of a used element.
const USED: u8 = 1;

/// Whether all bytes are 0.
fn all_zero(bytes: &[u8]) -> bool
    ensures { IsTrue result ↔ All (λ b. b ≡ 0) bytes.now }
{
    bytes.iter().all(|&byte| byte == 0)
}

/// Whether the bytes of this range are 0.
pub fn is_zero(bytes: &[u8], from: usize, to: usize) -> bool
    requires order { from ≤ to }
    requires end { to ≤ length bytes.now }
    ensures { IsTrue result ↔ IsZero bytes.now from to }
{
    all_zero(&bytes[from..to])
}

/// The length of the element at `at`, which its first two bytes say.
pub fn length_at(bytes: &[u8], at: usize) -> usize
    requires { at + 1 < length bytes.now }
    ensures length { result ≡ length_of bytes.now at }
    ensures bound { result < 2 ^ 16 }
{
    usize::from(bytes[at]) * 256 + usize::from(bytes[at + 1])
}

/// Whether the element at `at` is used.
pub fn is_used(bytes: &[u8], at: usize) -> bool
    requires { at + 2 < length bytes.now }
    ensures { IsTrue result ↔ (slice_index bytes.now (at + 2) ≡ 1) }
{
    bytes[at + 2] == USED
}

/// Where the element at `at` ends, and whether it is free. None where none is there, or a free one
/// follows a free one.
fn next_element(bytes: &[u8], at: usize, after_free: bool) -> Option<(usize, bool)>
    requires { at < length bytes.now }
    ensures later { IfSome result (λ next. (at < next.0) × (next.0 ≤ length bytes.now)) }
    ensures on { IfSome result (λ next. TilesFrom bytes.now at after_free → TilesFrom bytes.now next.0 next.1) }
    ensures back { IfSome result (λ next. TilesFrom bytes.now next.0 next.1 → TilesFrom bytes.now at after_free) }
    ensures none { IfNone result (¬ TilesFrom bytes.now at after_free) }
{
    let rest = bytes.len() - at;
    if rest < 4 {
        return None;
    }
    let length = length_at(bytes, at);
    if length < 4 || length % 4 != 0 || rest < length {
        return None;
    }
    let tag = bytes[at + 2];
    let segment = bytes[at + 3];
    if tag == USED {
        return Some((at + length, false));
    }
    if tag == FREE && segment == 0 && !after_free {
        return Some((at + length, true));
    }
    None
}

/// Whether the bytes behind the head are tiled by elements.
pub fn is_tiled(bytes: &[u8]) -> bool
    requires { 32 ≤ length bytes.now }
    ensures { IsTrue result ↔ TilesFrom bytes.now 32 false }
{
    let mut at = HEAD;
    let mut after_free = false;
    while at < bytes.len() {
        match next_element(bytes, at, after_free) {
            Some((next, is_free)) => {
                at = next;
                after_free = is_free;
            }
            None => return false,
        }
    }
    true
}

/// The size of an element with room for `length` bytes.
fn needed_size(length: u16) -> usize
    ensures { result ≡ size_for length }
{
    (usize::from(length) + 7) / 4 * 4
}

/// Whether the element at `at` is free, with `size` bytes or more.
fn holds(bytes: &[u8], at: usize, size: usize) -> bool
    requires { at + 2 < length bytes.now }
    ensures { IsTrue result ↔ ((slice_index bytes.now (at + 2) ≢ 1) × (size ≤ length_of bytes.now at)) }
{
    !is_used(bytes, at) && size <= length_at(bytes, at)
}

/// The place of the first free element of `size` bytes or more.
fn find_free(bytes: &[u8], size: usize) -> Option<usize>
    requires tiled { TilesFrom bytes.now 32 false }
    requires some { 0 < size }
    ensures found { IfSome result (IsFirstFree bytes.now size) }
    ensures none { IfNone result (WalksPast bytes.now size (length bytes.now)) }
{
    let mut at = HEAD;
    while at < bytes.len() {
        if holds(bytes, at, size) {
            return Some(at);
        }
        at += length_at(bytes, at);
    }
    None
}

/// Writes an element's first four bytes.
fn put_element(bytes: &mut [u8], at: usize, size: usize, tag: u8)
    requires room { at + 4 ≤ length bytes.old }
    requires fits { size < 2 ^ 16 }
    ensures { Puts bytes.old bytes.new at size tag }
{
    bytes[at] = (size / 256) as u8;
    bytes[at + 1] = (size % 256) as u8;
    bytes[at + 2] = tag;
    bytes[at + 3] = 0;
}

/// Makes the free element at `at` a used one of `size` bytes, and frees the rest behind it.
fn split(bytes: &mut [u8], at: usize, size: usize)
    requires room { at + length_of bytes.old at ≤ length bytes.old }
    requires least { 4 ≤ size }
    requires fours { size % 4 ≡ 0 }
    requires free_fours { length_of bytes.old at % 4 ≡ 0 }
    requires holds { size ≤ length_of bytes.old at }
    ensures splits { Splits bytes.old bytes.new size at }
    ensures head { 32 ≤ at → Keeps bytes.old bytes.new 0 32 }
{
    let free = length_at(bytes, at);
    put_element(bytes, at, size, USED);
    if size < free {
        put_element(bytes, at + size, free - size, FREE);
    }
}

/// Where the free bytes directly before `at` begin.
fn start_of_free(bytes: &[u8], at: usize) -> usize
    requires order { 32 ≤ at }
    requires end { at ≤ length bytes.now }
    requires tiled { (es : List Element) × Chain es bytes.now 32 at }
    ensures { (before : List Element) → Chain before bytes.now 32 at → result + last_free before ≡ at }
{
    let mut place = HEAD;
    let mut start = HEAD;
    while place < at {
        let end = place + length_at(bytes, place);
        start = if is_used(bytes, place) { end } else { place };
        place = end;
    }
    start
}

/// Where the free bytes end that begin at `at` or not at all.
fn end_of_free(bytes: &[u8], at: usize) -> usize
    requires { (es : List Element) × Chain es bytes.now at (length bytes.now) }
    ensures { (after : List Element) → Chain after bytes.now at (length bytes.now) → result ≡ at + first_free after }
{
    if at == bytes.len() || is_used(bytes, at) {
        return at;
    }
    at + length_at(bytes, at)
}

/// Whether elements tile intervals of this kind.
pub fn holds_elements(kind: u8) -> bool
    ensures { result ≡ has_elements kind }
{
    matches!(kind, 2 | 3 | 5)
}

/// Whether one free element tiles the interval.
pub fn is_empty(bytes: &[u8]) -> bool
    requires { IsInterval bytes.now }
    ensures { IsTrue result ↔ IsEmpty bytes.now }
{
    if !holds_elements(bytes[0]) {
        return false;
    }
    if is_used(bytes, HEAD) {
        return false;
    }
    length_at(bytes, HEAD) == bytes.len() - HEAD
}

/// Whether a used element stands at `at`.
pub fn is_used_at(bytes: &[u8], at: usize) -> bool
    requires { IsInterval bytes.now }
    ensures { IsTrue result ↔ IsUsed bytes.now at }
{
    if !holds_elements(bytes[0]) {
        return false;
    }
    let mut place = HEAD;
    while place < at {
        if place == bytes.len() {
            return false;
        }
        place += length_at(bytes, place);
    }
    if at < place {
        return false;
    }
    if at == bytes.len() {
        return false;
    }
    is_used(bytes, at)
}

/// Takes the first free element with room for `length` bytes, and answers its place.
pub fn take(bytes: &mut [u8], length: u16) -> Option<usize>
    requires { IsInterval bytes.old }
    ensures some { IfSome result (Takes bytes.old bytes.new length) }
    ensures full { IfNone result (IsFull bytes.old length) }
    ensures none { IfNone result (bytes.new ≡ bytes.old) }
    ensures head { Keeps bytes.old bytes.new 0 32 }
    ensures room { IfSome result (λ at. HasRoom bytes.new at length) }
    ensures fresh { IfSome result (λ at. ¬ IsUsed bytes.old at) }
    ensures others { IfSome result (OthersStay bytes.old bytes.new) }
    ensures bound { IfSome result (λ at. at < 2 ^ 16) }
{
    if !holds_elements(bytes[0]) {
        return None;
    }
    let size = needed_size(length);
    let at = find_free(bytes, size)?;
    split(bytes, at, size);
    Some(at)
}

/// Frees the used element at `at`, and merges it with its free neighbours.
pub fn free(bytes: &mut [u8], at: usize)
    requires { IsUsed bytes.old at }
    ensures freed { UsedIsFreed bytes.old bytes.new at }
    ensures gone { ¬ IsUsed bytes.new at }
    ensures others { OthersStay bytes.old bytes.new at }
    ensures head { Keeps bytes.old bytes.new 0 32 }
{
    let start = start_of_free(bytes, at);
    let end = end_of_free(bytes, at + length_at(bytes, at));
    put_element(bytes, start, end - start, FREE);
}

/// The content of the used element at `at`.
pub fn content(bytes: &[u8], at: usize) -> &[u8]
    requires { IsUsed bytes.now at }
    ensures { (segment : ℕ) (content : List ℕ) → HasUsed bytes.now at segment content → result.now ≡ content }
{
    let end = at + length_at(bytes, at);
    &bytes[at + 4..end]
}

/// Puts bytes at `at`.
pub fn put(bytes: &mut [u8], at: usize, from: &[u8])
    requires { at + length from.now ≤ length bytes.old }
    ensures { bytes.new ≡ written bytes.old at from.now }
{
    bytes[at..at + from.len()].copy_from_slice(from);
}

/// Writes the first bytes of the content of the used element at `at`.
pub fn write(bytes: &mut [u8], at: usize, from: &[u8])
    requires { HasRoom bytes.old at (length from.now) }
    ensures bytes { bytes.new ≡ written bytes.old (at + 4) from.now }
    ensures wrote { UsedBecomes bytes.old bytes.new at
        (λ segment content. Used segment (from.now ++ drop (length from.now) content)) }
    ensures others { OthersStay bytes.old bytes.new at }
    ensures head { Keeps bytes.old bytes.new 0 32 }
{
    put(bytes, at + 4, from);
}

/// The segment type of the used element at `at`.
pub fn type_at(bytes: &[u8], at: usize) -> u8
    requires { IsUsed bytes.now at }
    ensures { (segment : ℕ) (content : List ℕ) → HasUsed bytes.now at segment content → result ≡ segment }
{
    bytes[at + 3]
}

/// Sets the segment type of the used element at `at`.
pub fn set_type(bytes: &mut [u8], at: usize, segment: u8)
    requires { IsUsed bytes.old at }
    ensures bytes { bytes.new ≡ slice_set bytes.old (at + 3) segment }
    ensures becomes { UsedBecomes bytes.old bytes.new at (λ _ content. Used segment content) }
    ensures others { OthersStay bytes.old bytes.new at }
    ensures head { Keeps bytes.old bytes.new 0 32 }
{
    bytes[at + 3] = segment;
}

/// Makes an interval of zeros a new one of this kind.
pub fn put_empty(bytes: &mut [u8], kind: u8)
    requires size { IsTrue (is_size (length bytes.old)) }
    requires zero { bytes.old ≡ replicate (length bytes.old) 0 }
    ensures { bytes.new ≡ empty_bytes (length bytes.old) kind }
{
    let free = bytes.len() - HEAD;
    bytes[0] = kind;
    if holds_elements(kind) {
        bytes[HEAD] = (free / 256) as u8;
        bytes[HEAD + 1] = (free % 256) as u8;
    }
}
