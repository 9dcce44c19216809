// The pieces of a list that is being written. Each asks its caller for room: a writer measures before it writes.
ghost use Rattle.std.specs.Prelude.{◌≡◌, ◌+◌, ◌≤◌, ◌<◌, length, take, drop};
ghost use Rattle.std.proofs.lemmas.List.Edits.{sets};
ghost use Rattle.list.specs.Limits.{Mark, ListVersion, Count, width, header_size, record_size};
ghost use Rattle.list.specs.Field.{le_bytes};
ghost use Rattle.list.specs.Record.{read_at};
ghost use Rattle.list.specs.Version.{header, record_of, version, version_at, with_seqno};

use crate::checker::{COUNT_AT, COUNT_WIDTH, MARK, VERSION, VERSION_AT, VERSION_WIDTH};
use crate::field::put_le;
use crate::record::{KLEN_WIDTH, Record, SEQNO_WIDTH, TAG_WIDTH, VLEN_WIDTH};
use crate::value_type::ValueType;

// By hand and not `copy_from_slice`: that is C's memmove, and the archive needs nothing but memcpy and memset (tests/border/run).
pub fn copy_bytes(s: &[u8], from: usize, len: usize, t: &mut [u8], at: usize)
    requires { (from + len ≤ length s.now) × (at + len ≤ length t.old) }
    ensures { t.new ≡ sets t.old at (take len (drop from s.now)) }
{
    for i in 0..len {
        t[at + i] = s[from + i];
    }
}

fn put_bytes(t: &mut [u8], at: usize, bytes: &[u8])
    requires { at + length bytes.now ≤ length t.old }
    ensures { t.new ≡ sets t.old at bytes.now }
{
    copy_bytes(bytes, 0, bytes.len(), t, at);
}

// The record count in a header.
pub fn put_count(t: &mut [u8], count: u64)
    requires { header_size ≤ length t.old }
    ensures { t.new ≡ sets t.old (width Mark + width ListVersion) (le_bytes count (width Count)) }
{
    put_le(t, COUNT_AT, count, COUNT_WIDTH);
}

// Mark, version and record count.
pub fn write_header(t: &mut [u8], count: u64)
    requires { header_size ≤ length t.old }
    ensures { t.new ≡ sets t.old 0 (header count) }
{
    put_bytes(t, 0, &MARK);
    put_le(t, VERSION_AT, VERSION, VERSION_WIDTH);
    put_count(t, count);
}

// A record from its fields.
pub fn write_record(t: &mut [u8], at: usize, key: &[u8], seqno: u64, kind: ValueType, value: &[u8])
    requires { at + record_size + length key.now + length value.now ≤ length t.old }
    ensures { t.new ≡ sets t.old at (record_of (version key.now seqno kind value.now)) }
{
    let k = key.len();
    let from = at + KLEN_WIDTH;
    let q = from + k;
    let tag = q + SEQNO_WIDTH;
    let size = tag + TAG_WIDTH;
    put_le(t, at, k as u64, KLEN_WIDTH);
    put_bytes(t, from, key);
    put_le(t, q, seqno, SEQNO_WIDTH);
    put_le(t, tag, u8::from(kind) as u64, TAG_WIDTH);
    put_le(t, size, value.len() as u64, VLEN_WIDTH);
    put_bytes(t, size + VLEN_WIDTH, value);
}

// The record at a place of another list, with a seqno of its own.
pub fn copy_record(s: &[u8], from: usize, e: Record, t: &mut [u8], at: usize, seqno: u64)
    requires stands { read_at s.now from ≡ Ok e }
    requires has_room { at + record_size + e.klen + e.vlen ≤ length t.old }
    ensures { t.new ≡ sets t.old at (record_of (with_seqno seqno (version_at s.now e))) }
{
    put_bytes(t, at, &s[from..e.next]);
    put_le(t, at + KLEN_WIDTH + e.klen, seqno, SEQNO_WIDTH);
}
