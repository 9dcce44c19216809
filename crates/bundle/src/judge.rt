// A bundle, judged list by list.
ghost use Rattle.std.specs.Prelude.{◌≡◌, ◌≤◌, length};
ghost use Rattle.list.specs.Field.{words_in};
ghost use Rattle.bundle.specs.Bundle.{bundle_limit, start_at, judge_from, judge_bundle};

use crate::look::BUNDLE_LIMIT;
use list::{Refusal, Refused};

// Where the last list ends by the lengths.
fn end_of(lengths: &[u8]) -> usize
    requires { words_in lengths.now ≤ bundle_limit }
    ensures { result ≡ start_at lengths.now (words_in lengths.now) }
{
    let mut end: usize = 0;
    for k in 0..list::words_in(lengths) {
        end += list::word_at(lengths, k) as usize;
    }
    end
}

// `fill_index` walks in the same way: one walk for both would take what is done at a list as a closure.
fn judge_lists(bundle: &[u8], lengths: &[u8]) -> Result<u64, Refused>
    requires { start_at lengths.now (words_in lengths.now) ≡ length bundle.now }
    ensures { result ≡ judge_from (words_in lengths.now) bundle.now lengths.now 0 0 }
{
    let n = list::words_in(lengths);
    let mut total: u64 = 0;
    let mut start: usize = 0;
    for k in 0..n {
        let end = start + list::word_at(lengths, k) as usize;
        total += list::check_list(&bundle[start..end]).map_err(move |refused| Refused {
            list: k as u64,
            ..refused
        })?;
        start = end;
    }
    Ok(total)
}

// A bundle: its number of lists, its lengths, then its lists in turn.
pub fn judge_bundle(bundle: &[u8], lengths: &[u8]) -> Result<u64, Refused>
    ensures { result ≡ judge_bundle bundle.now lengths.now }
{
    if BUNDLE_LIMIT < list::words_in(lengths) {
        return Err(Refusal::TooLarge.into());
    }
    if end_of(lengths) != bundle.len() {
        return Err(Refusal::Excess.into());
    }
    judge_lists(bundle, lengths)
}
