// A cursor with two ends.
ghost use Rattle.std.specs.Prelude.{◌≡◌, ◌≤◌};
ghost use Rattle.list.specs.Field.{words_in};
ghost use Rattle.bundle.specs.Bundle.{bundle_limit};
ghost use Rattle.merge.specs.Plain.{plain};
ghost use Rattle.merge.specs.Private.{Fitting, placed_at, reader_in, reply_of, size_in};
ghost use Rattle.merge.specs.declared.ends.End.TheVariants.{Front, Back};
ghost use Rattle.read.specs.Entries.{live, visible};
ghost use Rattle.read.specs.Mvcc.{step};
ghost use Rattle.read.specs.Cursor.{stands, steady, step_in};
ghost use Rattle.read.specs.Private.{empty_to, entry_at};

use crate::mvcc_stream::drain_key;
use bundle::{BUNDLE_LIMIT, Bundle, Layout, NO_FENCES};
use list::{Refusal, Refused};
use merge::{End, Ends, Seen, Torn};

// For each source two ends, half open, and the snapshot that the read is made at. It crosses to a C++ host as it is.
#[repr(C)]
#[derive(Clone, Copy)]
pub struct Cursor {
    pub front: [u32; BUNDLE_LIMIT],
    pub back: [u32; BUNDLE_LIMIT],
    pub snapshot: u64,
}

// Where a step's entry stands.
#[derive(Clone, Copy)]
pub struct Entry {
    pub list: u64,
    pub record: u64,
}

// Whether the ends of the lists are in order and within their records. No branch depends on a single test, so the compiler can make several at once; `rest_empty` does the same.
#[tactic(auto, unfolding(bundle::specs::Bundle::bundle_limit), using(crate::proofs::Laid::few))]
fn ends_stand(layout: &Layout, ends: &Ends) -> bool
    ensures { result
        ≡ stands (words_in layout.now.bundle.lengths.now)
        layout.now.bundle.bytes.now layout.now.bundle.lengths.now ends.now }
{
    let mut all = true;
    for k in 0..layout.bundle.lists() {
        let span = layout.span(k);
        let held = span.next - span.base;
        all = all & ((ends.front[k] <= ends.back[k]) & (ends.back[k] as usize <= held));
    }
    all
}

// Whether the ends of the sources that aren't there, from first on, are 0.
#[tactic(auto, unfolding(bundle::specs::Bundle::bundle_limit), using(crate::proofs::Standing::empty_below, crate::proofs::Standing::empty_next))]
fn rest_empty(ends: &Ends, first: usize) -> bool
    requires { first ≤ bundle_limit }
    ensures { result ≡ empty_to bundle_limit first ends.now.front ends.now.back }
{
    let mut all = true;
    for k in first..BUNDLE_LIMIT {
        all = ((ends.front[k] == 0) & (ends.back[k] == 0)) & all;
    }
    all
}

// Whether the ends stand on the bundle.
fn are_steady(layout: &Layout, ends: &Ends) -> bool
    ensures { result
        ≡ steady layout.now.bundle.bytes.now layout.now.bundle.lengths.now layout.now.bundle.index.now ends.now }
{
    ends_stand(layout, ends) && rest_empty(ends, layout.bundle.lists())
}

// Whether a record is no tombstone, by its tag.
#[tactic(auto, unfolding(merge::specs::Private::placed_at, crate::specs::Entries::live))]
fn is_live(x: &Seen) -> bool
    ensures { result ≡ live (placed_at x.now) }
{
    !x.kind().is_tombstone()
}

// The next entry at an end: keys are drained until one has a live entry.
fn next_live<'a>(
    layout: &Layout<'a>,
    ends: &mut Ends,
    snapshot: u64,
    end: End,
) -> Result<Option<Seen<'a>>, Torn>
    requires { Fitting (words_in layout.now.bundle.lengths.now) (size_in layout.now.bundle) ends.old }
    ensures { reply_of (entry_at ends.new) result
        ≡ step (plain (words_in layout.now.bundle.lengths.now) (reader_in layout.now.bundle))
        end (visible snapshot) ends.old }
{
    loop {
        let entry = drain_key(layout, ends, snapshot, end)?;
        let Some(x) = entry else {
            return Ok(None);
        };
        if is_live(&x) {
            return Ok(Some(x));
        }
    }
}

// A step at an end.
fn step_at(cursor: &mut Cursor, bundle: Bundle, end: End) -> Result<Option<Entry>, Refused>
    ensures answers { result
        ≡ (step_in end bundle.entry.bytes.now bundle.entry.lengths.now bundle.entry.index.now cursor.old).step }
    ensures gives { cursor.new
        ≡ (step_in end bundle.entry.bytes.now bundle.entry.lengths.now bundle.entry.index.now cursor.old).cursor }
{
    let (front, back) = (cursor.front, cursor.back);
    let mut ends = Ends { front, back };
    let mut fences = NO_FENCES;
    let layout = Layout::of(bundle, &mut fences).ok_or(Refusal::Unfit)?;
    if !are_steady(&layout, &ends) {
        return Err(Refusal::Unfit.into());
    }
    let Some(x) = next_live(&layout, &mut ends, cursor.snapshot, end)? else {
        return Ok(None);
    };
    let (front, back) = (ends.front, ends.back);
    cursor.front = front;
    cursor.back = back;
    Ok(Some(Entry {
        list: x.list as u64,
        record: x.number as u64,
    }))
}

impl Cursor {
    // The first entry left, which the cursor moves past; where there is none, it stays. The two ends have a name each, as the Rust's iterator has.
    pub fn front(&mut self, bundle: Bundle) -> Result<Option<Entry>, Refused>
        ensures answers { result
            ≡ (step_in Front bundle.entry.bytes.now bundle.entry.lengths.now bundle.entry.index.now self.old).step }
        ensures gives { self.new
            ≡ (step_in Front bundle.entry.bytes.now bundle.entry.lengths.now bundle.entry.index.now self.old).cursor }
    {
        step_at(self, bundle, End::Front)
    }

    // The last entry left, likewise.
    pub fn back(&mut self, bundle: Bundle) -> Result<Option<Entry>, Refused>
        ensures answers { result
            ≡ (step_in Back bundle.entry.bytes.now bundle.entry.lengths.now bundle.entry.index.now self.old).step }
        ensures gives { self.new
            ≡ (step_in Back bundle.entry.bytes.now bundle.entry.lengths.now bundle.entry.index.now self.old).cursor }
    {
        step_at(self, bundle, End::Back)
    }
}
