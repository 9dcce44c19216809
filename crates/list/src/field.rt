// Little-endian fields. Each asks its caller for room: whoever reads or writes a field has tested the record around it.
ghost use Rattle.std.specs.Prelude.{◌≡◌, ◌+◌, ◌*◌, ◌^◌, ◌≤◌, ◌<◌, length};
ghost use Rattle.std.proofs.lemmas.List.Edits.{sets};
ghost use Rattle.list.specs.Field.{le_at, le_bytes, words_in, word_at};

// The number in the N bytes from a place, the lowest first, for every width up to eight: `from_le_bytes` has one for each type. A slice and a place in it: a part of its own would hide where in the list it stands.
pub fn le<const N: usize>(s: &[u8], at: usize) -> u64
    requires in_bounds { at + N ≤ length s.now }
    requires width { N ≤ 8 }
    ensures value { result ≡ le_at s.now at N }
    ensures upper_bound { result < 256 ^ N }
{
    let mut number = 0;
    for i in 0..N {
        number += (s[at + i] as u64) << (8 * i);
    }
    number
}

// The lowest n bytes of a number, the lowest first. A caller may work the width out, so it is no constant.
pub fn put_le(t: &mut [u8], at: usize, v: u64, n: usize)
    requires { at + n ≤ length t.old }
    ensures { t.new ≡ sets t.old at (le_bytes v n) }
{
    let mut rest = v;
    for i in 0..n {
        t[at + i] = (rest % 256) as u8;
        rest /= 256;
    }
}

// How many entries a table has.
pub fn words_in(t: &[u8]) -> usize
    ensures { result ≡ words_in t.now }
{
    t.len() / 4
}

// An entry of a table. Below 2^32, and yet no u32: callers add entries up.
pub fn word_at(t: &[u8], i: usize) -> u64
    requires { i < words_in t.now }
    ensures value { result ≡ word_at t.now i }
    ensures upper_bound { result < 4294967296 }
{
    le::<4>(t, 4 * i)
}

pub fn put_word(t: &mut [u8], i: usize, v: u64)
    requires { i < words_in t.old }
    ensures { t.new ≡ sets t.old (4 * i) (le_bytes v 4) }
{
    put_le(t, 4 * i, v, 4);
}
