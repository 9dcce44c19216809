// A source's next record at an end, and how two of them stand: `HeapItem` of `merge.rs`.
ghost use Rattle.std.specs.Prelude.{◌≡◌, ◌+◌, ◌≤◌, length};
ghost use Rattle.list.specs.Field.{words_in};
ghost use Rattle.list.specs.Order.{compare};
ghost use Rattle.list.specs.Refusal.{refused};
ghost use Rattle.list.specs.declared.refusal.Refusal.TheVariants.{Unfit};
ghost use Rattle.merge.specs.Placed.{same_key};
ghost use Rattle.merge.specs.Plain.{sooner};
ghost use Rattle.merge.specs.Private.{look_by, next_by, placed_at, order, head_of, reply_of};

use crate::ends::{End, Left};
use crate::seen::Seen;
use bundle::{Bundle, Span};
use list::{Refusal, Refused, compare_keys};
use std::cmp::Ordering;

// A record isn't whole.
#[derive(Clone, Copy, Debug, PartialEq, Eq)]
pub struct Torn;

impl From<Torn> for Refused {
    ghost from_gives = { λ _ r. r ≡ refused Unfit 0 0 };

    fn from(_: Torn) -> Refused {
        Refusal::Unfit.into()
    }
}

// The record that the list at a span has next at an end, so much of it being left. It is told as one of the list of a number.
pub fn next_head<'a>(
    bundle: Bundle<'a>,
    span: Span,
    left: Left,
    list: usize,
    end: End,
) -> Result<Option<Seen<'a>>, Torn>
    requires start_le_end { (span.start ≤ span.end) × (span.end ≤ length bundle.bytes.now) }
    requires back_bound { span.base + left.back ≤ words_in bundle.index.now }
    ensures { reply_of head_of result ≡ next_by end (look_by bundle.entry span list) list left }
{
    let Some(number) = left.next(end) else {
        return Ok(None);
    };
    let Ok(e) = bundle.record_at(span, number) else {
        return Err(Torn);
    };
    let key = span.start + e.key;
    Ok(Some(Seen {
        list,
        number,
        from_key: &bundle.bytes[key..],
        klen: e.klen,
    }))
}

// How a record stands to another at an end: whether it comes sooner, and whether they are of one key. Two answers of one comparison of keys, which an order alone does not tell.
#[derive(Clone, Copy)]
pub struct Rank {
    pub sooner: bool,
    pub same_key: bool,
}

// How x stands to y, the keys being compared: by key, seqno descending, then list number.
#[tactic(auto, unfolding(crate::specs::Private::placed_at))]
fn order_of(keys: Ordering, x: &Seen, y: &Seen) -> Ordering
    requires { keys ≡ compare (placed_at x.now).version.key (placed_at y.now).version.key }
    ensures { result ≡ order (placed_at x.now) (placed_at y.now) }
{
    if keys.is_ne() {
        return keys;
    }
    y.seqno().cmp(&x.seqno()).then(x.list.cmp(&y.list))
}

// How y stands to x.
pub(crate) fn rank_at(x: &Seen, y: &Seen, end: End) -> Rank
    ensures sooner { result.sooner ≡ sooner end (placed_at y.now) (placed_at x.now) }
    ensures same_key { result.same_key ≡ same_key (placed_at x.now) (placed_at y.now) }
{
    let keys = compare_keys(y.key(), x.key());
    let order = order_of(keys, y, x);
    let same_key = keys.is_eq();
    match end {
        End::Front => Rank {
            sooner: order.is_lt(),
            same_key,
        },
        End::Back => Rank {
            sooner: order.is_gt(),
            same_key,
        },
    }
}
