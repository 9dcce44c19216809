// One version a key: a port of `mvcc_stream.rs` and `double_ended_peekable.rs`.
ghost use Rattle.std.specs.Prelude.{◌≡◌, ◌&&◌, ltb, IfOk, OnErr};
ghost use Rattle.std.proofs.Math.Option.{none};
ghost use Rattle.list.specs.Field.{words_in};
ghost use Rattle.merge.specs.Placed.{same_key};
ghost use Rattle.merge.specs.Merge as reply;
ghost use Rattle.merge.specs.Plain.{left, plain};
ghost use Rattle.merge.specs.Private.{Fitting, placed_at, reader_in, reply_of, size_in};
ghost use Rattle.read.specs.Entries.{visible};
ghost use Rattle.read.specs.Mvcc.{hold, counts, drain};
ghost use Rattle.read.specs.Private.{held_of, entry_at, is_asked, is_over, Led, Drains};

use bundle::Layout;
use merge::{Best, End, Ends, Seen, Torn, next_head, peek};

// What is left of a key once records of it were passed: its entry so far, and the one source whose next record may be of another key than the entry's.
#[derive(Clone, Copy)]
pub struct Drained<'a> {
    pub held: Option<Seen<'a>>,
    pub asks: Option<usize>,
}

// Whether the key is over and has an entry: with no source to ask it counts.
#[tactic(auto, unfolding(crate::specs::Private::is_over))]
fn is_over(drained: &Drained) -> bool
    ensures { result ≡ is_over drained.now }
{
    drained.held.is_some() && drained.asks.is_none()
}

// Only versions strictly below the snapshot are seen.
fn seqno_filter(item: u64, snapshot: u64) -> bool
    ensures { result ≡ ltb item snapshot }
{
    item < snapshot
}

#[tactic(auto, unfolding(merge::specs::Placed::same_key))]
fn of_one_key(x: &Seen, y: &Seen) -> bool
    ensures { result ≡ same_key (placed_at x.now) (placed_at y.now) }
{
    list::same_key(x.key(), y.key())
}

// Whether the entry counts, the next record being x. Only what the source to be asked has next can be of another key.
#[tactic(auto, unfolding(crate::specs::Private::is_asked, crate::specs::Private::held_of, crate::specs::Mvcc::counts))]
fn does_count(held: Option<Seen>, x: &Seen, asks: Option<usize>) -> bool
    ensures { result ≡ (is_asked asks x.now.list && counts (held_of held.entry) (placed_at x.now)) }
{
    let Some(k) = asks else {
        return false;
    };
    let Some(p) = held else {
        return false;
    };
    x.list == k && !of_one_key(&p, x)
}

// What is held once x is passed: in front the first visible version, at the back the last.
#[tactic(auto, unfolding(crate::specs::Private::held_of, crate::specs::Mvcc::hold, crate::specs::Entries::visible, list::specs::Pick::pick))]
fn hold_entry<'a>(held: Option<Seen<'a>>, x: Seen<'a>, snapshot: u64, end: End) -> Option<Seen<'a>>
    ensures { held_of result ≡ hold end (visible snapshot) (held_of held.entry) (placed_at x.entry) }
{
    if !seqno_filter(x.seqno(), snapshot) {
        return held;
    }
    match end {
        End::Front => held.or(Some(x)),
        End::Back => Some(x),
    }
}

// The record that leads is passed. Where no other source has its key next, its source is drained of the key alone: as long as the next record there has the key, that one leads.
fn drain_source<'a>(
    layout: &Layout<'a>,
    ends: &mut Ends,
    best: Best<'a>,
    given: Option<Seen<'a>>,
    snapshot: u64,
    end: End,
) -> Result<Drained<'a>, Torn>
    requires { Led layout.now.bundle.bytes.now layout.now.bundle.lengths.now layout.now.bundle.index.now
        end ends.old given best.seen best.twin }
    ensures drains { IfOk result (λ drained.
        Drains layout.now.bundle.bytes.now layout.now.bundle.lengths.now layout.now.bundle.index.now
        end snapshot given.entry ends.old drained ends.new) }
    ensures torn { OnErr result
        (drain (left (words_in layout.now.bundle.lengths.now) ends.old)
        (plain (words_in layout.now.bundle.lengths.now)
        (reader_in layout.now.bundle))
        end (visible snapshot) (held_of given.entry) ends.old ≡ reply.Torn) }
{
    let k = best.seen.list;
    let mut x = best.seen;
    let mut held = given;
    // A `loop`, since nothing tells beforehand how many records have the key; so in `drain_key` and `next_live`.
    loop {
        held = hold_entry(held, x, snapshot, end);
        ends.pop(k, end);
        if best.twin {
            return Ok(Drained {
                held,
                asks: Some(k),
            });
        }
        let next = next_head(layout.bundle, layout.span(k), ends.left(k), k, end)?;
        let Some(y) = next else {
            return Ok(Drained { held, asks: None });
        };
        if !of_one_key(&x, &y) {
            return Ok(Drained { held, asks: None });
        }
        x = y;
    }
}

// One key drained, and its entry.
pub fn drain_key<'a>(
    layout: &Layout<'a>,
    ends: &mut Ends,
    snapshot: u64,
    end: End,
) -> Result<Option<Seen<'a>>, Torn>
    requires { Fitting (words_in layout.now.bundle.lengths.now)
        (size_in layout.now.bundle) ends.old }
    ensures { reply_of (entry_at ends.new) result
        ≡ drain (left (words_in layout.now.bundle.lengths.now) ends.old)
        (plain (words_in layout.now.bundle.lengths.now)
        (reader_in layout.now.bundle))
        end (visible snapshot) none ends.old }
{
    let mut held = None;
    let mut asks = None;
    loop {
        let Some(best) = peek(layout, ends, end)? else {
            return Ok(held);
        };
        if does_count(held, &best.seen, asks) {
            return Ok(held);
        }
        let drained = drain_source(layout, ends, best, held, snapshot, end)?;
        if is_over(&drained) {
            return Ok(drained.held);
        }
        held = drained.held;
        asks = drained.asks;
    }
}
