// Starting a read.
ghost use Rattle.std.specs.Prelude.{◌≡◌, not, ◌&&◌, suc, ◌<◌, eqb};
ghost use Rattle.std.proofs.Math.Option.{none, some};
ghost use Rattle.list.specs.Field.{words_in};
ghost use Rattle.list.specs.Pick.{pick, on_result};
ghost use Rattle.merge.specs.Private.{reader_in, size_in};
ghost use Rattle.read.specs.Bounds.{bound_of, from_lower, to_upper};
ghost use Rattle.read.specs.Start.{start_to, nothing_left, begin_in, start_in};
ghost use Rattle.read.specs.Private.{scan};

use crate::cursor::Cursor;
use crate::range::{Bounds, from_lower, to_upper};
use bundle::{BUNDLE_LIMIT, Bundle, Layout, NO_FENCES};
use list::{Refusal, Refused, count_in, key_of};
use merge::{Ends, Torn};
use std::ops::Bound;

// How a start came out, and the cursor: a refused start gives one with nothing left.
#[derive(Clone, Copy)]
pub struct Started {
    pub outcome: Result<(), Refused>,
    pub cursor: Cursor,
}

// The first record that the lower bound admits, having read record i: i + 1 where none is yet.
#[tactic(auto, unfolding(list::specs::Pick::pick))]
fn first_after(key: &[u8], lower: Bound<&[u8]>, first: usize, i: usize) -> usize
    requires { i < 4294967296 }
    ensures { result ≡ pick (eqb first i && not (from_lower (bound_of lower.entry) key.now)) (suc i) first }
{
    if first == i && !from_lower(key, lower) {
        return i + 1;
    }
    first
}

// Just past the last record that the upper bound admits, having read record i. Not one function with `first_after`: that one keeps what it found, and this one what it finds last.
#[tactic(auto, unfolding(list::specs::Pick::pick))]
fn last_after(key: &[u8], upper: Bound<&[u8]>, last: usize, i: usize) -> usize
    requires { i < 4294967296 }
    ensures { result ≡ pick (to_upper (bound_of upper.entry) key.now) (suc i) last }
{
    if to_upper(key, upper) {
        return i + 1;
    }
    last
}

// The two ends of list k, every record being read once. If they cross, it has none.
fn scan_list(layout: &Layout, k: usize, bounds: Bounds) -> Result<(u32, u32), Torn>
    requires { k < words_in layout.now.bundle.lengths.now }
    ensures { result
        ≡ scan (size_in layout.now.bundle k) (reader_in layout.now.bundle k)
        (bound_of bounds.entry.lower) (bound_of bounds.entry.upper) 0 0 0 }
{
    let bundle = layout.bundle;
    let span = layout.span(k);
    let list = &bundle.bytes[span.start..span.end];
    let mut first = 0;
    let mut last = 0;
    for i in 0..count_in(list) as usize {
        let Ok(e) = bundle.record_at(span, i) else {
            return Err(Torn);
        };
        let key = key_of(list, e);
        first = first_after(key, bounds.lower, first, i);
        last = last_after(key, bounds.upper, last, i);
    }
    Ok((first as u32, last.max(first) as u32))
}

// The ends of all lists, list by list.
#[tactic(auto, unfolding(bundle::specs::Bundle::bundle_limit), using(crate::proofs::Laid::few))]
fn start_lists(layout: &Layout, bounds: Bounds) -> Result<Ends, Torn>
    ensures { on_result result some (λ _. none)
        ≡ start_to (words_in layout.now.bundle.lengths.now)
        (size_in layout.now.bundle)
        (reader_in layout.now.bundle)
        (bound_of bounds.entry.lower) (bound_of bounds.entry.upper) nothing_left }
{
    let mut ends = Ends {
        front: [0; BUNDLE_LIMIT],
        back: [0; BUNDLE_LIMIT],
    };
    for k in 0..layout.bundle.lists() {
        let (first, last) = scan_list(layout, k, bounds)?;
        ends.front[k] = first;
        ends.back[k] = last;
    }
    Ok(ends)
}

// The ends that a read begins with.
fn begin(bundle: Bundle, bounds: Bounds) -> Result<Ends, Refused>
    ensures { result
        ≡ begin_in bundle.entry.bytes.now bundle.entry.lengths.now bundle.entry.index.now
        (bound_of bounds.entry.lower) (bound_of bounds.entry.upper) }
{
    let mut fences = NO_FENCES;
    let layout = Layout::of(bundle, &mut fences).ok_or(Refusal::Unfit)?;
    let ends = start_lists(&layout, bounds)?;
    if bounds.are_overlong() {
        return Err(Refusal::LongKey.into());
    }
    Ok(ends)
}

// The cursor of a read within bounds, at a snapshot.
#[tactic(auto, unfolding(crate::specs::Start::start_in, crate::specs::Start::begun, crate::specs::Start::refused_start, crate::specs::Start::nothing_left, bundle::specs::Bundle::bundle_limit, list::specs::Pick::on_result))]
pub fn start(bundle: Bundle, bounds: Bounds, snapshot: u64) -> Started
    ensures { result
        ≡ start_in bundle.entry.bytes.now bundle.entry.lengths.now bundle.entry.index.now
        (bound_of bounds.entry.lower) (bound_of bounds.entry.upper) snapshot }
{
    match begin(bundle, bounds) {
        Ok(ends) => {
            let (front, back) = (ends.front, ends.back);
            Started {
                outcome: Ok(()),
                cursor: Cursor {
                    front,
                    back,
                    snapshot,
                },
            }
        }
        Err(refused) => Started {
            outcome: Err(refused),
            cursor: Cursor {
                front: [0; BUNDLE_LIMIT],
                back: [0; BUNDLE_LIMIT],
                snapshot,
            },
        },
    }
}
