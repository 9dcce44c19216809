// A filter's verdicts in a lent table.
ghost use Rattle.std.specs.Prelude.{◌≡◌, true, ◌&&◌, ◌+◌, ◌*◌, ◌<◌, eqb};
ghost use Rattle.list.specs.Field.{word_at};
ghost use Rattle.list.specs.ValueType.{type_of};
ghost use Rattle.compaction.specs.Filter.{verdicts_in, is_replacement, is_verdict, are_verdicts, kind_of, verdict_at};

use crate::filter::{StreamFilter, StreamFilterVerdict};
use list::{Refusal, ValueType};

// The bytes of a verdict.
const VERDICT_LEN: usize = 16;

// Verdict i is on record i; a replacement's value is a part of the values.
#[derive(Clone, Copy)]
pub(crate) struct VerdictTable<'a> {
    pub(crate) verdicts: &'a [u8],
    pub(crate) values: &'a [u8],
}

// What a tag of 32 bits stands for.
fn tagged(tag: u64) -> Result<ValueType, Refusal>
    ensures { result ≡ type_of tag }
{
    if 255 < tag {
        return Err(Refusal::BadTag);
    }
    ValueType::try_from(tag as u8)
}

// The kind of a tag; Value, if it is none.
fn kind_of(tag: u64) -> ValueType
    ensures { result ≡ kind_of tag }
{
    tagged(tag).unwrap_or(ValueType::Value)
}

impl<'a> VerdictTable<'a> {
    // One of the four entries of verdict i, as the host wrote it: the first is 0 to keep, 1 to drop, 2 to replace.
    fn word(self, i: usize, k: usize) -> u64
        requires { (i < verdicts_in self.verdicts.now) × (k < 4) }
        ensures value { result ≡ word_at self.entry.verdicts.now (4 * i + k) }
        ensures upper_bound { result < 4294967296 }
    {
        list::word_at(self.verdicts, 4 * i + k)
    }

    // A replacement's tag is one of the four, and its value lies in the lent values.
    fn is_replacement(self, tag: u64, start: u64, length: u64) -> bool
        requires { (start < 4294967296) × (length < 4294967296) }
        ensures { result ≡ is_replacement self.entry.values.now tag start length }
    {
        tagged(tag).is_ok() && start + length <= self.values.len() as u64
    }

    // Verdict i says one of the three, and its replacement is good.
    fn is_verdict(self, i: usize) -> bool
        requires { i < verdicts_in self.verdicts.now }
        ensures { result ≡ is_verdict self.entry.verdicts.now self.entry.values.now i }
    {
        let what = self.word(i, 0);
        if what < 2 {
            return true;
        }
        if what != 2 {
            return false;
        }
        let tag = self.word(i, 1);
        let start = self.word(i, 2);
        let length = self.word(i, 3);
        self.is_replacement(tag, start, length)
    }

    // There are as many verdicts as records, and each is good.
    pub(crate) fn are_verdicts(self, count: u64) -> bool
        ensures { result ≡ (eqb (verdicts_in self.entry.verdicts.now) count && are_verdicts count self.entry.verdicts.now self.entry.values.now) }
    {
        let n = self.verdicts.len() / VERDICT_LEN;
        if n as u64 != count {
            return false;
        }
        for i in 0..n {
            if !self.is_verdict(i) {
                return false;
            }
        }
        true
    }
}

impl<'a> StreamFilter for VerdictTable<'a> {
    ghost verdict_on = { λ v i. verdict_at v.verdicts.now v.values.now i };

    ghost can_ask = { λ v i. (i < verdicts_in v.verdicts.now) × (is_verdict v.verdicts.now v.values.now i ≡ true) };

    fn filter_item(&self, number: usize) -> StreamFilterVerdict<'_> {
        let what = self.word(number, 0);
        if what == 0 {
            return StreamFilterVerdict::Keep;
        }
        if what == 1 {
            return StreamFilterVerdict::Drop;
        }
        let tag = self.word(number, 1);
        let start = self.word(number, 2) as usize;
        let length = self.word(number, 3) as usize;
        StreamFilterVerdict::Replace {
            kind: kind_of(tag),
            value: &self.values[start..start + length],
        }
    }
}
