// A record: read from a place of a list.
ghost use Rattle.std.specs.Prelude.{◌≡◌, ◌+◌, ◌≤◌, ◌<◌, MatchResult, length};
ghost use Rattle.list.specs.Limits.{KeyLength, width, key_limit};
ghost use Rattle.list.specs.Private.{KeyLengthStands};
ghost use Rattle.list.specs.declared.refusal.Refusal.TheVariants.{Truncated};
ghost use Rattle.list.specs.Record.{no_record, rest_at, whole_at, read_at};

use crate::field::le;
use crate::refusal::Refusal;
use crate::value_type::ValueType;

// How wide a record's fields are, in bytes ..
pub const KLEN_WIDTH: usize = 2;

pub const SEQNO_WIDTH: usize = 8;

pub const TAG_WIDTH: usize = 1;

pub const VLEN_WIDTH: usize = 4;

// .. and what a record has beside key and value.
pub const RECORD_LEN: usize = KLEN_WIDTH + SEQNO_WIDTH + TAG_WIDTH + VLEN_WIDTH;

// Where a record's key and value lie, what else it holds, and where the next one starts. Places are numbers, since the border hands them out.
#[derive(Clone, Copy)]
pub struct Record {
    pub key: usize,
    pub klen: usize,
    pub seqno: u64,
    pub kind: ValueType,
    pub value: usize,
    pub vlen: usize,
    pub next: usize,
}

// Stands before every record of a list: its key is empty, and no record's is. With None in its place each turn would test for the first, and
// `check_from`, of which `check-accepts` speaks, begins with it.
pub fn no_record() -> Record
    ensures { result ≡ no_record }
{
    Record {
        key: 0,
        klen: 0,
        seqno: 0,
        kind: ValueType::Value,
        value: 0,
        vlen: 0,
        next: 0,
    }
}

// The length of the key of the record at a place, if the list has that much there.
fn klen_at(s: &[u8], at: usize) -> Result<usize, Refusal>
    ensures { MatchResult result (λ klen. KeyLengthStands s.now at klen) (λ why. (length s.now < at + width KeyLength) × (why ≡ Truncated)) }
{
    if s.len() < at || s.len() - at < KLEN_WIDTH {
        return Err(Refusal::Truncated);
    }
    Ok(le::<KLEN_WIDTH>(s, at) as usize)
}

// What stands behind a key's length: one test for key, seqno and tag, since all three give 1.
fn read_rest(s: &[u8], key: usize, klen: usize) -> Result<Record, Refusal>
    requires key_in_bounds { key ≤ length s.now }
    requires klen_le_key_limit { klen ≤ key_limit }
    ensures { result ≡ rest_at s.now key klen (key + klen) }
{
    let n = s.len();
    let q = key + klen;
    let tag = q + SEQNO_WIDTH;
    let size = tag + TAG_WIDTH;
    let value = size + VLEN_WIDTH;
    if n < size {
        return Err(Refusal::Truncated);
    }
    let seqno = le::<SEQNO_WIDTH>(s, q);
    let kind = ValueType::try_from(s[tag])?;
    if n < value {
        return Err(Refusal::Truncated);
    }
    let vlen = le::<VLEN_WIDTH>(s, size) as usize;
    if n < value + vlen {
        return Err(Refusal::Truncated);
    }
    Ok(Record {
        key,
        klen,
        seqno,
        kind,
        value,
        vlen,
        next: value + vlen,
    })
}

// The record at a place, its key of any length.
pub fn read_whole(s: &[u8], at: usize) -> Result<Record, Refusal>
    ensures { result ≡ whole_at s.now at }
{
    let klen = klen_at(s, at)?;
    read_rest(s, at + KLEN_WIDTH, klen)
}

// The record at a place, as a list may hold it: no key is empty.
pub fn read_record(s: &[u8], at: usize) -> Result<Record, Refusal>
    ensures { result ≡ read_at s.now at }
{
    let klen = klen_at(s, at)?;
    if klen == 0 {
        return Err(Refusal::EmptyKey);
    }
    read_rest(s, at + KLEN_WIDTH, klen)
}
