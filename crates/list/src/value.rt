// What a record holds: its key and value as parts of its list, and what else stands behind a key.
ghost use Rattle.std.specs.Prelude.{◌≡◌, ◌+◌, ◌≤◌, length};
ghost use Rattle.list.specs.Private.{rest_size, version_by};
ghost use Rattle.list.specs.Record.{key_of, onward, value_of};

use crate::field::le;
use crate::record::{Record, SEQNO_WIDTH};
use crate::value_type::ValueType;

// Both ask for a record of this list: one that was read there lies inside it. One function for the two would switch on the part at each call.
pub fn key_of(s: &[u8], e: Record) -> &[u8]
    requires { e.key + e.klen ≤ length s.now }
    ensures result_value { result.now ≡ key_of s.now e }
    ensures ref_ptr_value { result.ref_ptr ≡ onward s.entry.ref_ptr e.key }
{
    let start = e.key;
    let end = start + e.klen;
    &s[start..end]
}

pub fn value_of(s: &[u8], e: Record) -> &[u8]
    requires { e.value + e.vlen ≤ length s.now }
    ensures result_value { result.now ≡ value_of s.now e }
    ensures ref_ptr_value { result.ref_ptr ≡ onward s.entry.ref_ptr e.value }
{
    let start = e.value;
    let end = start + e.vlen;
    &s[start..end]
}

// The seqno of a record whose key stands at a place; so many bytes are known to follow, and no more of the record.
pub fn seqno_by(s: &[u8], key: usize, klen: usize) -> u64
    requires { key + klen + rest_size ≤ length s.now }
    ensures { result ≡ (version_by s.now key klen).seqno }
{
    le::<SEQNO_WIDTH>(s, key + klen)
}

// The kind of such a record; Value, if its tag is none.
pub fn kind_by(s: &[u8], key: usize, klen: usize) -> ValueType
    requires { key + klen + rest_size ≤ length s.now }
    ensures { result ≡ (version_by s.now key klen).kind }
{
    ValueType::try_from(s[key + klen + SEQNO_WIDTH]).unwrap_or(ValueType::Value)
}
