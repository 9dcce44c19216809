// Reading a bundle from two ends: the cursor crosses as it is, by value or lent.
// Answers are structs of numbers and flags, as include/vls.h has them: C has no enums that hold data.
ghost use Rattle.std.specs.Prelude.{◌≡◌, length};
ghost use Rattle.read.specs.Prefix.{prefixed, upper_written};
ghost use Rattle.read.specs.Parts.{place_of};
ghost use Rattle.read.specs.Bounds.{bound_of};
ghost use Rattle.read.specs.Start.{start_in};
ghost use Rattle.read.specs.Cursor.{step_in};
ghost use Rattle.merge.specs.declared.ends.End.TheVariants.{Front, Back};
ghost use Rattle.vls.specs.Reads.{bound_by, started_of, stepped_of, answer_of, value_part, key_part, placed_of, prefixed_of};

use crate::outcome::Outcome;
use bundle::Bundle;
use list::{Refusal, Refused};
use read::{Bounds, Cursor, Entry, Place};
use std::ops::Bound;

// A start: the cursor.
#[repr(C)]
#[derive(Clone, Copy)]
pub struct Started {
    pub outcome: Outcome,
    pub cursor: Cursor,
}

// A step on a lent cursor: whether there was an entry and where it stands.
#[repr(C)]
#[derive(Clone, Copy, Default)]
pub struct Answer {
    pub outcome: Outcome,
    pub found: bool,
    pub at_list: u64,
    pub at_record: u64,
}

// A step on a cursor by value: the same, and the next cursor.
#[repr(C)]
#[derive(Clone, Copy)]
pub struct Stepped {
    pub answer: Answer,
    pub cursor: Cursor,
}

// A part of the bundle.
#[repr(C)]
#[derive(Clone, Copy)]
pub struct Part {
    pub fit: bool,
    pub start: u64,
    pub length: u64,
}

// A record of the bundle.
#[repr(C)]
#[derive(Clone, Copy, Default)]
pub struct Placed {
    pub fit: bool,
    pub key: u64,
    pub klen: u64,
    pub seqno: u64,
    pub tag: u64,
    pub value: u64,
    pub vlen: u64,
}

// The upper bound of a prefix: whether there is one, and its length.
#[repr(C)]
#[derive(Clone, Copy)]
pub struct Prefixed {
    pub outcome: Outcome,
    pub bounded: bool,
    pub length: u64,
}

// C hands a bound over as two flags and its bytes.
#[tactic(auto, unfolding(read::specs::Bounds::bound_of))]
fn bound<'a>(present: bool, excluded: bool, key: &'a [u8]) -> Bound<&'a [u8]>
    ensures { bound_of result ≡ bound_by present excluded key.now }
{
    match (present, excluded) {
        (true, true) => Bound::Excluded(key),
        (true, false) => Bound::Included(key),
        (false, _) => Bound::Unbounded,
    }
}

impl From<read::Started> for Started {
    ghost from_gives = { λ s c. c ≡ started_of s };

    fn from(started: read::Started) -> Started {
        Started {
            outcome: Outcome::of(&started.outcome),
            cursor: started.cursor,
        }
    }
}

// A bound that isn't present ignores its bytes and its flag.
#[unsafe(no_mangle)]
pub extern "C" fn vls_start(
    bundle: &[u8],
    lengths: &[u8],
    index: &[u8],
    lower: bool,
    above: bool,
    from: &[u8],
    upper: bool,
    below: bool,
    to: &[u8],
    snapshot: u64,
) -> Started
    ensures { result
        ≡ started_of (start_in bundle.now lengths.now index.now
        (bound_by lower above from.now) (bound_by upper below to.now) snapshot) }
{
    let bundle = Bundle {
        bytes: bundle,
        lengths,
        index,
    };
    let bounds = Bounds {
        lower: bound(lower, above, from),
        upper: bound(upper, below, to),
    };
    read::start(bundle, bounds, snapshot).into()
}

impl From<Result<Option<Entry>, Refused>> for Answer {
    ghost from_gives = { λ step a. a ≡ answer_of step };

    fn from(step: Result<Option<Entry>, Refused>) -> Answer {
        let outcome = Outcome::of(&step);
        match step.unwrap_or(None) {
            Some(entry) => Answer {
                outcome,
                found: true,
                at_list: entry.list,
                at_record: entry.record,
            },
            None => Answer {
                outcome,
                ..Answer::default()
            },
        }
    }
}

#[unsafe(no_mangle)]
pub extern "C" fn vls_front(
    bundle: &[u8],
    lengths: &[u8],
    index: &[u8],
    mut cursor: Cursor,
) -> Stepped
    ensures { result ≡ stepped_of (step_in Front bundle.now lengths.now index.now cursor) }
{
    let answer = vls_front_in_place(bundle, lengths, index, &mut cursor);
    Stepped { answer, cursor }
}

#[unsafe(no_mangle)]
pub extern "C" fn vls_back(
    bundle: &[u8],
    lengths: &[u8],
    index: &[u8],
    mut cursor: Cursor,
) -> Stepped
    ensures { result ≡ stepped_of (step_in Back bundle.now lengths.now index.now cursor) }
{
    let answer = vls_back_in_place(bundle, lengths, index, &mut cursor);
    Stepped { answer, cursor }
}

#[unsafe(no_mangle)]
pub extern "C" fn vls_front_in_place(
    bundle: &[u8],
    lengths: &[u8],
    index: &[u8],
    cursor: &mut Cursor,
) -> Answer
    ensures value { result ≡ answer_of (step_in Front bundle.now lengths.now index.now cursor.old).step }
    ensures cursor_after { cursor.new ≡ (step_in Front bundle.now lengths.now index.now cursor.old).cursor }
{
    let bundle = Bundle {
        bytes: bundle,
        lengths,
        index,
    };
    cursor.front(bundle).into()
}

#[unsafe(no_mangle)]
pub extern "C" fn vls_back_in_place(
    bundle: &[u8],
    lengths: &[u8],
    index: &[u8],
    cursor: &mut Cursor,
) -> Answer
    ensures value { result ≡ answer_of (step_in Back bundle.now lengths.now index.now cursor.old).step }
    ensures cursor_after { cursor.new ≡ (step_in Back bundle.now lengths.now index.now cursor.old).cursor }
{
    let bundle = Bundle {
        bytes: bundle,
        lengths,
        index,
    };
    cursor.back(bundle).into()
}

impl From<Option<Place>> for Placed {
    ghost from_gives = { λ p r. r ≡ placed_of p };

    fn from(place: Option<Place>) -> Placed {
        match place {
            Some(p) => Placed {
                fit: true,
                key: p.key as u64,
                klen: p.klen as u64,
                seqno: p.seqno,
                tag: u8::from(p.kind) as u64,
                value: p.value as u64,
                vlen: p.vlen as u64,
            },
            None => Placed::default(),
        }
    }
}

#[unsafe(no_mangle)]
pub extern "C" fn vls_record(
    bundle: &[u8],
    lengths: &[u8],
    index: &[u8],
    list: u64,
    record: u64,
) -> Placed
    ensures { result ≡ placed_of (place_of bundle.now lengths.now index.now list «record») }
{
    let bundle = Bundle {
        bytes: bundle,
        lengths,
        index,
    };
    read::place_of(bundle, list, record).into()
}

#[unsafe(no_mangle)]
pub extern "C" fn vls_value(
    bundle: &[u8],
    lengths: &[u8],
    index: &[u8],
    list: u64,
    record: u64,
) -> Part
    ensures { result ≡ value_part (place_of bundle.now lengths.now index.now list «record») }
{
    let bundle = Bundle {
        bytes: bundle,
        lengths,
        index,
    };
    // Not by vls_record: two fields read back from its struct took 5 to 8 in 100 more of a read at 16 lists. So vls_key too.
    let placed = Placed::from(read::place_of(bundle, list, record));
    Part {
        fit: placed.fit,
        start: placed.value,
        length: placed.vlen,
    }
}

#[unsafe(no_mangle)]
pub extern "C" fn vls_key(
    bundle: &[u8],
    lengths: &[u8],
    index: &[u8],
    list: u64,
    record: u64,
) -> Part
    ensures { result ≡ key_part (place_of bundle.now lengths.now index.now list «record») }
{
    let bundle = Bundle {
        bytes: bundle,
        lengths,
        index,
    };
    let placed = Placed::from(read::place_of(bundle, list, record));
    Part {
        fit: placed.fit,
        start: placed.key,
        length: placed.klen,
    }
}

impl From<Result<Option<u64>, Refusal>> for Prefixed {
    ghost from_gives = { λ answer p. p ≡ prefixed_of answer };

    fn from(answer: Result<Option<u64>, Refusal>) -> Prefixed {
        let length = answer.unwrap_or(None);
        Prefixed {
            outcome: Outcome::of(&answer.map_err(Refused::from)),
            bounded: length.is_some(),
            length: length.unwrap_or(0),
        }
    }
}

#[unsafe(no_mangle)]
pub extern "C" fn vls_prefix(prefix: &[u8], upper: &mut [u8]) -> Prefixed
    ensures value { result ≡ prefixed_of (prefixed prefix.now (length upper.old)) }
    ensures upper_after { upper.new ≡ upper_written (prefixed prefix.now (length upper.old)) prefix.now upper.old }
{
    read::prefix_to_range(prefix, upper).into()
}
