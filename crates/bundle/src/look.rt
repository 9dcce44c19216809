// From lengths and index to a list and to a record, on any bytes.
ghost use Rattle.std.specs.Prelude.{◌≡◌, ◌+◌, ◌-◌, ◌≤◌, ◌<◌, length};
ghost use Rattle.list.specs.Field.{words_in, word_at};
ghost use Rattle.bundle.specs.Look.{place_in};
ghost use Rattle.bundle.specs.Private.{span_of};

use crate::walk::Fence;
use list::{Record, Refusal};

// The most lists of a bundle.
pub const BUNDLE_LIMIT: usize = 16;

// A bundle as it is lent: lists end to end, the table of their lengths, and the index of their records.
#[derive(Clone, Copy)]
pub struct Bundle<'a> {
    pub bytes: &'a [u8],
    pub lengths: &'a [u8],
    pub index: &'a [u8],
}

// Where one list lies, and where its records stand in the index: from base up to next. Numbers, since a range can't be copied.
#[derive(Clone, Copy)]
pub struct Span {
    pub start: usize,
    pub end: usize,
    pub base: usize,
    pub next: usize,
}

impl<'a> Bundle<'a> {
    // How many lists it has by its lengths.
    pub fn lists(self) -> usize
        ensures { result ≡ words_in self.entry.lengths.now }
    {
        list::words_in(self.lengths)
    }

    // One list; None where lengths and index do not cover the bundle, or it has no such list. A layout would lay all lists out for the one; this walk keeps two fences.
    pub fn find_list(self, list: u64) -> Option<Span>
        ensures { result ≡ span_of self.entry.bytes.now self.entry.lengths.now self.entry.index.now list }
    {
        let n = self.lists();
        if BUNDLE_LIMIT < n {
            return None;
        }
        if n as u64 <= list {
            return None;
        }
        let k = list as usize;
        let own = self.past_lists(0, k, Fence::FIRST)?;
        let next = self.past_list(k, own)?;
        let end = self.past_lists(k + 1, n, next)?;
        if !self.is_covered(end) {
            return None;
        }
        Some(own.up_to(next))
    }

    // The record of a number of the list at a span. A caller has found that lengths and index cover the bundle. Copied into its callers: as a call it took a read of one list 28 ns of 109 more a step.
    #[inline(always)]
    pub fn record_at(self, span: Span, number: usize) -> Result<Record, Refusal>
        requires start_le_end { (span.start ≤ span.end) × (span.end ≤ length self.bytes.now) }
        requires number_bound { span.base + number < words_in self.index.now }
        ensures { result ≡ place_in self.entry.bytes.now span.start (span.end - span.start) (word_at self.entry.index.now (span.base + number)) }
    {
        let place = list::word_at(self.index, span.base + number) as usize;
        if place < span.start {
            return Err(Refusal::Truncated);
        }
        list::read_whole(&self.bytes[span.start..span.end], place - span.start)
    }
}
