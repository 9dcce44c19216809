// The walk over a bundle's lists: each starts where the one before it ends, and its records follow that one's in the index.
ghost use Rattle.std.specs.Prelude.{◌≡◌, Some, ◌+◌, ◌-◌, ◌≤◌, ◌<◌, length, take, drop};
ghost use Rattle.list.specs.Check.{count_in};
ghost use Rattle.list.specs.Limits.{header_size};
ghost use Rattle.list.specs.Version.{Bytes};
ghost use Rattle.list.specs.Field.{words_in};
ghost use Rattle.bundle.specs.Look.{covers};
ghost use Rattle.bundle.specs.Private.{fence_at, span_between};

use crate::look::{Bundle, Span};

// Where a list starts, and how many records stand before it in the index.
#[derive(Clone, Copy)]
pub struct Fence {
    pub start: usize,
    pub base: usize,
}

impl Fence {
    pub const FIRST: Fence = Fence { start: 0, base: 0 };

    // The list between two fences.
    pub(crate) fn up_to(self, next: Fence) -> Span
        ensures { result ≡ span_between self next }
    {
        Span {
            start: self.start,
            end: next.start,
            base: self.base,
            next: next.base,
        }
    }
}

// How many records the list of so many bytes at a place has, by its header.
pub fn count_of(bundle: &[u8], start: usize, len: usize) -> usize
    requires len_in_bounds { start + len ≤ length bundle.now }
    requires header_size_le_len { header_size ≤ len }
    ensures value { result ≡ count_in (take len (drop start bundle.now)) }
    ensures upper_bound { result < 4294967296 }
    ensures bytes { Bytes bundle.now }
{
    list::count_in(&bundle[start..start + len]) as usize
}

// A walk that held its bundle, its number and its fence, and as a ghost field that it has come so far, would have to say of each answer that all three are as they should be; so the fence goes in and out alone.
impl<'a> Bundle<'a> {
    // Past list k, if it lies in the bundle and has a header.
    pub(crate) fn past_list(self, k: usize, at: Fence) -> Option<Fence>
        requires k_bound { k < words_in self.lengths.now }
        requires walked { Some at ≡ fence_at self.bytes.now self.lengths.now k }
        ensures { result ≡ fence_at self.entry.bytes.now self.entry.lengths.now (k + 1) }
    {
        let len = list::word_at(self.lengths, k) as usize;
        if self.bytes.len() - at.start < len {
            return None;
        }
        if len < list::HEADER_LEN {
            return None;
        }
        let start = at.start + len;
        Some(Fence {
            start,
            base: at.base + count_of(self.bytes, at.start, len),
        })
    }

    // Past the lists from one number up to another.
    pub(crate) fn past_lists(self, from: usize, to: usize, given: Fence) -> Option<Fence>
        requires from_le_to { (from ≤ to) × (to ≤ words_in self.lengths.now) }
        requires walked { Some given ≡ fence_at self.bytes.now self.lengths.now from }
        ensures { result ≡ fence_at self.entry.bytes.now self.entry.lengths.now to }
    {
        let mut at = given;
        for k in from..to {
            at = self.past_list(k, at)?;
        }
        Some(at)
    }

    // Whether lengths and index cover the bundle, all lists being passed.
    pub(crate) fn is_covered(self, end: Fence) -> bool
        requires { Some end ≡ fence_at self.bytes.now self.lengths.now (words_in self.lengths.now) }
        ensures { result ≡ covers self.entry.bytes.now self.entry.lengths.now self.entry.index.now }
    {
        end.start == self.bytes.len() && end.base <= list::words_in(self.index)
    }
}
