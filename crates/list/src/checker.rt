// The checker of one list.
ghost use Rattle.std.specs.Prelude.{◌≡◌, ◌+◌, ◌≤◌, ◌<◌, length};
ghost use Rattle.list.specs.Limits.{header_size};
ghost use Rattle.list.specs.Record.{no_record};
ghost use Rattle.list.specs.Check.{order, next_at, check_from, count_in, check_header, check_list};
ghost use Rattle.list.specs.Refusal.{refused};
ghost use Rattle.list.specs.Version.{Bytes};

use crate::field::le;
use crate::key::compare_versions;
use crate::record::{Record, no_record, read_record};
use crate::refusal::{Refusal, Refused};
use crate::value::key_of;
use std::cmp::Ordering;

// The longest list, in bytes.
pub const LIST_LIMIT: usize = 1048576;

// What a list opens with.
pub const MARK: [u8; 3] = *b"VLS";

// The version behind it ..
pub const VERSION: u64 = 1;

pub const VERSION_AT: usize = 3;

pub const VERSION_WIDTH: usize = 2;

// .. and the record count, which ends the header.
pub const COUNT_AT: usize = VERSION_AT + VERSION_WIDTH;

pub const COUNT_WIDTH: usize = 4;

pub const HEADER_LEN: usize = COUNT_AT + COUNT_WIDTH;

// A refusal at a record of a list that stands alone.
fn at_record(refusal: Refusal, record: u64) -> Refused
    ensures { result ≡ refused refusal 0 «record» }
{
    Refused {
        refusal,
        list: 0,
        record,
    }
}

// How two records of a list are ordered.
fn order_of(s: &[u8], before: Record, after: Record) -> Ordering
    requires before_in_list { before.key + before.klen ≤ length s.now }
    requires after_in_list { after.key + after.klen ≤ length s.now }
    ensures { result ≡ order s.now before after }
{
    compare_versions(
        key_of(s, before),
        before.seqno,
        key_of(s, after),
        after.seqno,
    )
}

// The record at a place, if it is whole and above the record before it, which was read from this list too.
pub fn next_record(s: &[u8], before: Record, at: usize) -> Result<Record, Refusal>
    requires { before.key + before.klen ≤ length s.now }
    ensures { result ≡ next_at s.now before at }
{
    let e = read_record(s, at)?;
    match order_of(s, before, e) {
        Ordering::Less => Ok(e),
        Ordering::Equal | Ordering::Greater => Err(Refusal::Disorder),
    }
}

// So many records of a list, from its header to its end. A memtable's survey walks in the same way: one walk for both would take what is kept on the
// way as a closure, and its contract from two definitions.
fn check_records(s: &[u8], count: u64) -> Result<u64, Refused>
    ensures { result ≡ check_from count s.now header_size no_record 0 }
{
    let mut before = no_record();
    let mut at = HEADER_LEN;
    for done in 0..count {
        match next_record(s, before, at) {
            Ok(e) => {
                at = e.next;
                before = e;
            }
            Err(refusal) => return Err(at_record(refusal, done)),
        }
    }
    if at != s.len() {
        return Err(at_record(Refusal::Excess, count));
    }
    Ok(count)
}

// The record count as a header tells it; the header is asked for.
pub fn count_in(s: &[u8]) -> u64
    requires { header_size ≤ length s.now }
    ensures value { result ≡ count_in s.now }
    ensures upper_bound { result < 4294967296 }
{
    le::<COUNT_WIDTH>(s, COUNT_AT)
}

// The header alone: how many records a list tells of.
pub fn check_header(s: &[u8]) -> Result<u64, Refusal>
    ensures { result ≡ check_header s.now }
{
    if LIST_LIMIT < s.len() {
        return Err(Refusal::TooLarge);
    }
    if s.len() < HEADER_LEN {
        return Err(Refusal::Truncated);
    }
    if &s[..VERSION_AT] != &MARK[..] {
        return Err(Refusal::BadMark);
    }
    if le::<VERSION_WIDTH>(s, VERSION_AT) != VERSION {
        return Err(Refusal::BadVersion);
    }
    Ok(count_in(s))
}

// One list, judged whole. That the slice is bytes the language knows, and theorems about a call ask for it.
pub fn check_list(s: &[u8]) -> Result<u64, Refused>
    ensures value { result ≡ check_list s.now }
    ensures bytes { Bytes s.now }
{
    let count = check_header(s)?;
    check_records(s, count)
}
