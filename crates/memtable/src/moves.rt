// Bytes moved, written and cleared in place. Each asks its caller for room: a writer measures before it writes.
ghost use Rattle.std.specs.Prelude.{◌≡◌, ◌+◌, ◌-◌, ◌≤◌, length};
ghost use Rattle.list.specs.Limits.{header_size, record_size};
ghost use Rattle.memtable.specs.Private.{version_of, spliced};

use list::ValueType;

// A version of a key, as it is lent.
#[derive(Clone, Copy)]
pub struct Version<'a> {
    pub key: &'a [u8],
    pub seqno: u64,
    pub kind: ValueType,
    pub value: &'a [u8],
}

// A record in the place of the bytes from start to cut: the tail moves once, the record is written once.
pub fn splice(t: &mut [u8], used: usize, start: usize, cut: usize, count: u64, version: Version)
    requires in_order { (header_size ≤ start) × (start ≤ cut) × (cut ≤ used) × (used ≤ length t.old) }
    requires in_room { start + record_size + length version.key.now + length version.value.now + (used - cut) ≤ length t.old }
    ensures { t.new ≡ spliced t.old used start cut count (version_of version.entry) }
{
    let to = start + list::RECORD_LEN + version.key.len() + version.value.len();
    let end = to + (used - cut);
    t.copy_within(cut..used, to);
    list::write_record(
        t,
        start,
        version.key,
        version.seqno,
        version.kind,
        version.value,
    );
    list::put_count(t, count);
    t[end..end.max(used)].fill(0);
}
