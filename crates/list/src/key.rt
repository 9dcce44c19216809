// The order of keys and of versions: a port of `key.rs`.
ghost use Rattle.std.specs.Prelude.{◌≡◌, ◌+◌, ◌*◌, ◌/◌, ◌≤◌, ◌<◌, false, length, take};
ghost use Rattle.std.specs.Option.{MatchOption};
ghost use Rattle.std.specs.Int.Count.{count_trailing_zeros};
ghost use Rattle.list.specs.Order.{compare, versions, is_less, is_equal};
ghost use Rattle.list.specs.Field.{le_at};
ghost use Rattle.list.specs.Shared.{shared};

use std::cmp::Ordering;

// The longest key, in bytes.
pub const KEY_LIMIT: usize = 65535;

// Keys are compared in words of eight bytes where both have them; versions, first in blocks of so many words.
const WORD: usize = 8;

const WORDS: usize = 8;

const BLOCK: usize = WORD * WORDS;

// The eight bytes at a place as a number. Not by `le`, a loop, which the compiler unrolls too late for a good address: with it a comparison of
// 12-byte keys took 1.14 times as long.
fn word(s: &[u8], i: usize) -> u64
    requires { i + 8 ≤ length s.now }
    ensures { result ≡ le_at s.now i 8 }
{
    u64::from_le_bytes([
        s[i],
        s[i + 1],
        s[i + 2],
        s[i + 3],
        s[i + 4],
        s[i + 5],
        s[i + 6],
        s[i + 7],
    ])
}

// How the eight bytes at a place differ in two keys, of which the place is one for both: 0 where they don't. The lowest bit set stands in the first byte that differs.
fn differ(a: &[u8], b: &[u8], i: usize) -> u64
    requires { (i + 8 ≤ length a.now) × (i + 8 ≤ length b.now) }
    ensures same { result ≡ 0 → i ≤ shared a.now b.now → i + 8 ≤ shared a.now b.now }
    ensures first { (result ≡ 0 → ⊥) → i ≤ shared a.now b.now → shared a.now b.now ≡ i + count_trailing_zeros 64 result / 8 }
{
    word(a, i) ^ word(b, i)
}

// The same of N words, end to end, but for which byte is the first; of eight words the compiler makes vectors.
fn differ_in<const N: usize>(a: &[u8], b: &[u8], i: usize) -> u64
    requires { (i + 8 * N ≤ length a.now) × (i + 8 * N ≤ length b.now) }
    ensures { result ≡ 0 → i ≤ shared a.now b.now → i + 8 * N ≤ shared a.now b.now }
{
    let mut bits = 0;
    for word in 0..N {
        bits |= differ(a, b, i + 8 * word);
    }
    bits
}

// Which of eight bytes is the first that differs; 8 if none does.
fn first_byte(d: u64) -> usize
    ensures value { result ≡ count_trailing_zeros 64 d / 8 }
    ensures upper_bound { result ≤ 8 }
{
    (d.trailing_zeros() / 8) as usize
}

// How many first bytes two keys share, found byte by byte.
fn shared_by_bytes(a: &[u8], b: &[u8]) -> usize
    ensures { result ≡ shared a.now b.now }
{
    let n = a.len().min(b.len());
    for i in 0..n {
        if a[i] != b[i] {
            return i;
        }
    }
    n
}

// The same, found word by word from a place on, before which all bytes are shared. The last word reaches back over such bytes.
// A `for` by `step_by` tests twice a turn: with it a read of 16 lists of 212-byte keys takes 2.18 times as long as the Rust's, and with this 1.76 times.
fn shared_by_words(a: &[u8], b: &[u8], from: usize) -> usize
    requires { from ≤ shared a.now b.now }
    ensures { result ≡ shared a.now b.now }
{
    let n = a.len().min(b.len());
    if n < WORD {
        return shared_by_bytes(a, b);
    }
    let last = n - WORD;
    let mut i = from;
    while i < last {
        let d = differ(a, b, i);
        if d != 0 {
            return i + first_byte(d);
        }
        i += WORD;
    }
    last + first_byte(differ(a, b, last))
}

// Some first bytes that they share, maybe not all: block by block.
fn same_blocks(a: &[u8], b: &[u8]) -> usize
    ensures { result ≤ shared a.now b.now }
{
    let blocks = a.len().min(b.len()) / BLOCK;
    for block in 0..blocks {
        if differ_in::<WORDS>(a, b, BLOCK * block) != 0 {
            return BLOCK * block;
        }
    }
    BLOCK * blocks
}

// Two keys by the first byte that they don't share; a key that ends there is a proper prefix.
fn ordered(a: &[u8], b: &[u8], i: usize) -> Ordering
    requires { i ≡ shared a.now b.now }
    ensures { result ≡ compare a.now b.now }
{
    match (a.get(i), b.get(i)) {
        (Some(x), Some(y)) if x < y => Ordering::Less,
        (Some(_), Some(_)) => Ordering::Greater,
        (Some(_), None) => Ordering::Greater,
        (None, Some(_)) => Ordering::Less,
        (None, None) => Ordering::Equal,
    }
}

// Bytewise, a proper prefix first. Without blocks it is small enough to be copied into the merge's loop. With std's `cmp`, which is not,
// a read of 16 lists of 12-byte keys takes 1.76 times as long as the Rust's, and with this 1.50 times.
pub fn compare_keys(a: &[u8], b: &[u8]) -> Ordering
    ensures { result ≡ compare a.now b.now }
{
    ordered(a, b, shared_by_words(a, b, 0))
}

// Whether a key is below another: as two versions with the same seqno are.
pub fn is_less(a: &[u8], b: &[u8]) -> bool
    ensures { result ≡ is_less (compare a.now b.now) }
{
    compare_versions(a, 0, b, 0) == Ordering::Less
}

// What is left of two keys of one length without the ends that are the same in both, N bytes at a time; None where such an end differs.
fn without_ends<'a, 'b, const N: usize>(a: &'a [u8], b: &'b [u8]) -> Option<(&'a [u8], &'b [u8])>
    requires width { (0 < N) × (N ≤ BLOCK) }
    requires same_length { length a.now ≡ length b.now }
    ensures { MatchOption result (false ≡ is_equal (compare a.now b.now)) (λ left. (length left.0.now ≡ length left.1.now) × (is_equal (compare left.0.now left.1.now) ≡ is_equal (compare a.now b.now))) }
{
    let mut x = a;
    let mut y = b;
    while let (Some((x_start, x_end)), Some((y_start, y_end))) = (
        x.split_last_chunk::<N>(),
        y.split_last_chunk::<N>(),
    ) {
        if x_end != y_end {
            return None;
        }
        x = x_start;
        y = y_start;
    }
    Some((x, y))
}

// Whether two keys have the same first n bytes.
fn same_start(a: &[u8], b: &[u8], n: usize) -> bool
    requires { (n ≤ length a.now) × (n ≤ length b.now) }
    ensures { result ≡ is_equal (compare (take n a.now) (take n b.now)) }
{
    a[..n] == b[..n]
}

// Whether two keys are the same, found from their ends on: in blocks, then words, then bytes.
// A call, so that the test of the last eight bytes before it is small enough to be copied into its callers.
#[inline(never)]
fn same_from_end(a: &[u8], b: &[u8]) -> bool
    ensures { result ≡ is_equal (compare a.now b.now) }
{
    if a.len() != b.len() {
        return false;
    }
    let Some((x, y)) = without_ends::<BLOCK>(a, b) else {
        return false;
    };
    let Some((x, y)) = without_ends::<WORD>(x, y) else {
        return false;
    };
    same_start(x, y, x.len())
}

// Whether two keys are the same. Deep call paths share their first bytes, so the last are compared first.
pub fn same_key(a: &[u8], b: &[u8]) -> bool
    ensures { result ≡ is_equal (compare a.now b.now) }
{
    a.last_chunk::<WORD>() == b.last_chunk::<WORD>() && same_from_end(a, b)
}

// Key ascending, then seqno descending.
pub fn compare_versions(a: &[u8], m: u64, b: &[u8], n: u64) -> Ordering
    ensures { result ≡ versions a.now m b.now n }
{
    let i = shared_by_words(a, b, same_blocks(a, b));
    ordered(a, b, i).then(n.cmp(&m))
}
