// Bounds on user keys, and those of a prefix: a port of the prefix part of `range.rs`.
ghost use Rattle.std.specs.Prelude.{◌≡◌, ◌||◌, ◌≤◌, length};
ghost use Rattle.read.specs.Bounds.{bound_of, from_lower, to_upper};
ghost use Rattle.read.specs.Start.{overlong};
ghost use Rattle.read.specs.Prefix.{cut_at, prefixed, upper_written};

use list::{KEY_LIMIT, Refusal, copy_bytes, is_less};
use std::ops::Bound;

// The keys that a read admits.
#[derive(Clone, Copy)]
pub struct Bounds<'a> {
    pub lower: Bound<&'a [u8]>,
    pub upper: Bound<&'a [u8]>,
}

impl Bounds<'_> {
    // Whether one of the two has more bytes than a key may.
    pub(crate) fn are_overlong(self) -> bool
        ensures { result ≡ (overlong (bound_of self.entry.lower) || overlong (bound_of self.entry.upper)) }
    {
        is_overlong(self.lower) || is_overlong(self.upper)
    }
}

// Whether a lower bound admits a key. Not one function with `to_upper`: each arm turns the two keys round, so a flag for the side would only double the arms.
#[tactic(auto, unfolding(crate::specs::Bounds::bound_of, crate::specs::Bounds::from_lower))]
pub fn from_lower(key: &[u8], bound: Bound<&[u8]>) -> bool
    ensures { result ≡ from_lower (bound_of bound.entry) key.now }
{
    match bound {
        Bound::Included(bytes) => !is_less(key, bytes),
        Bound::Excluded(bytes) => is_less(bytes, key),
        Bound::Unbounded => true,
    }
}

// Whether an upper bound admits a key. In one function with the other a flag would say on which side of `is_less` the bound stands.
#[tactic(auto, unfolding(crate::specs::Bounds::bound_of, crate::specs::Bounds::to_upper))]
pub fn to_upper(key: &[u8], bound: Bound<&[u8]>) -> bool
    ensures { result ≡ to_upper (bound_of bound.entry) key.now }
{
    match bound {
        Bound::Included(bytes) => !is_less(bytes, key),
        Bound::Excluded(bytes) => is_less(key, bytes),
        Bound::Unbounded => true,
    }
}

// Whether a bound has more bytes than a key may.
#[tactic(auto, unfolding(crate::specs::Bounds::bound_of, crate::specs::Start::overlong, list::specs::Limits::key_limit))]
fn is_overlong(bound: Bound<&[u8]>) -> bool
    ensures { result ≡ overlong (bound_of bound.entry) }
{
    match bound {
        Bound::Included(bytes) | Bound::Excluded(bytes) => KEY_LIMIT < bytes.len(),
        Bound::Unbounded => false,
    }
}

// How many bytes stand up to the last below 255.
fn cut_at(prefix: &[u8]) -> usize
    ensures cut { result ≡ cut_at prefix.now }
    ensures inside { result ≤ length prefix.now }
{
    for n in (0..prefix.len()).rev() {
        if prefix[n] < 255 {
            return n + 1;
        }
    }
    0
}

// A prefix's bounds: the lower is the prefix itself, included; the upper, of so many bytes, is written to the lent buffer, excluded. None where there is none.
pub fn prefix_to_range(prefix: &[u8], upper: &mut [u8]) -> Result<Option<u64>, Refusal>
    ensures answers { result ≡ prefixed prefix.now (length upper.old) }
    ensures writes { upper.new ≡ upper_written (prefixed prefix.now (length upper.old)) prefix.now upper.old }
{
    if KEY_LIMIT < prefix.len() {
        return Err(Refusal::LongKey);
    }
    let n = cut_at(prefix);
    if n == 0 {
        return Ok(None);
    }
    if upper.len() < n {
        return Err(Refusal::NoRoom);
    }
    let last = n - 1;
    copy_bytes(prefix, 0, last, upper, 0);
    upper[last] = prefix[last] + 1;
    Ok(Some(n as u64))
}
