// A record that was read: where it stands, and the version that it holds.
ghost use Rattle.std.specs.Prelude.{◌+◌, ◌≤◌, length};
ghost use Rattle.list.specs.Private.{rest_size};

use list::ValueType;

// What a source has next: `HeapItem` of `merge.rs`. Its key stands first in what it borrows, and the rest of it follows there.
#[derive(Clone, Copy)]
pub struct Seen<'a> {
    pub list: usize,
    pub number: usize,
    pub from_key: &'a [u8],
    pub klen: usize,
    pub ghost inside: { klen + rest_size ≤ length from_key.now },
}

impl<'a> Seen<'a> {
    ghost use Rattle.std.specs.Prelude.{◌≡◌};
    ghost use Rattle.merge.specs.Private.{placed_at};

    // Its key, not copied. list's `key_of` takes a part by a whole record's places, which this one does not hold.
    pub fn key(&self) -> &'a [u8]
        ensures { result.now ≡ (placed_at self.now).version.key }
    {
        &self.from_key[..self.klen]
    }

    #[tactic(auto, unfolding(crate::specs::Private::placed_at))]
    pub fn seqno(&self) -> u64
        ensures { result ≡ (placed_at self.now).version.seqno }
    {
        list::seqno_by(self.from_key, 0, self.klen)
    }

    #[tactic(auto, unfolding(crate::specs::Private::placed_at))]
    pub fn kind(&self) -> ValueType
        ensures { result ≡ (placed_at self.now).version.kind }
    {
        list::kind_by(self.from_key, 0, self.klen)
    }
}
