// The index: each record's start, counted from the bundle's first byte.
ghost use Rattle.std.specs.Prelude.{◌≡◌, ◌+◌, ◌*◌, ◌≤◌, ◌<◌, true, length};
ghost use Rattle.std.proofs.lemmas.List.Edits.{sets};
ghost use Rattle.list.specs.Limits.{header_size};
ghost use Rattle.list.specs.Version.{Bytes};
ghost use Rattle.list.specs.Field.{words, words_in};
ghost use Rattle.bundle.specs.Index.{next_from, starts, places, open_bundle, indexed};
ghost use Rattle.bundle.specs.Look.{covers};

use crate::judge::judge_bundle;
use list::{Refusal, Refused};

fn next_from(s: &[u8], at: usize) -> usize
    ensures { result ≡ next_from s.now at }
{
    match list::read_record(s, at) {
        Ok(e) => e.next,
        Err(_) => at,
    }
}

// The starts of a list's records, from the index's entry first on. start is where the list starts in its bundle.
fn fill_list(s: &[u8], start: usize, count: usize, index: &mut [u8], first: usize)
    requires room { first + count ≤ words_in index.old }
    requires list_fits { (header_size ≤ length s.now) × (start + length s.now < 18446744073709551616) }
    ensures { index.new ≡ sets index.old (4 * first) (words (starts count s.now start header_size)) }
{
    let mut at = list::HEADER_LEN;
    for i in first..first + count {
        list::put_word(index, i, (start + at) as u64);
        at = next_from(s, at);
    }
}

// The starts of all records of a bundle that lengths and index cover.
fn fill_index(bundle: &[u8], lengths: &[u8], index: &mut [u8])
    requires { covers bundle.now lengths.now index.old ≡ true }
    ensures { index.new ≡ sets index.old 0 (words (places (words_in lengths.now) bundle.now lengths.now 0)) }
{
    let mut start: usize = 0;
    let mut first: usize = 0;
    for k in 0..list::words_in(lengths) {
        let end = start + list::word_at(lengths, k) as usize;
        let s = &bundle[start..end];
        let count = list::count_in(s) as usize;
        fill_list(s, start, count, index, first);
        start = end;
        first += count;
    }
}

// A bundle, judged whole, and its index filled once nothing can be refused any more.
pub fn open(bundle: &[u8], lengths: &[u8], index: &mut [u8]) -> Result<u64, Refused>
    ensures value { result ≡ open_bundle bundle.now lengths.now index.old }
    ensures index_after { index.new
        ≡ indexed (open_bundle bundle.now lengths.now index.old)
        bundle.now lengths.now index.old }
    ensures bytes { Bytes bundle.now }
{
    let count = judge_bundle(bundle, lengths)?;
    if (list::words_in(index) as u64) < count {
        return Err(Refusal::NoRoom.into());
    }
    fill_index(bundle, lengths, index);
    Ok(count)
}
