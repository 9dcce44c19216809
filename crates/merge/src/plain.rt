// The plain search over the sources' heads: `Merger` of `merge.rs`, which peeks at either end.
ghost use Rattle.std.specs.Prelude.{◌≡◌, Ok};
ghost use Rattle.list.specs.Field.{words_in};
ghost use Rattle.merge.specs.Merge.{Found};
ghost use Rattle.merge.specs.Plain.{choose, ahead};
ghost use Rattle.merge.specs.Private.{size_in, reader_in, Fitting, head_of, reply_of, leader_of, has_twin, twin_of, twins};

use crate::ends::{End, Ends};
use crate::head::{Torn, next_head, rank_at};
use crate::seen::Seen;
use bundle::Layout;

// The best of the sources' next records, and whether another source has its key next too.
#[derive(Clone, Copy)]
pub struct Best<'a> {
    pub seen: Seen<'a>,
    pub twin: bool,
}

// The better of the best so far and one source's next.
#[tactic(auto, unfolding(list::specs::Pick::pick, crate::specs::Plain::choose, crate::specs::Private::head_of, crate::specs::Private::leader_of, crate::specs::Private::reply_of, crate::specs::Private::has_twin, crate::specs::Private::twin_of))]
fn better<'a>(best: Option<Best<'a>>, y: Seen<'a>, end: End) -> Best<'a>
    ensures chosen { Found (head_of result.seen) ≡ choose end (reply_of leader_of (Ok best.entry)) (Found (head_of y.entry)) }
    ensures twin { result.twin
        ≡ twin_of end (has_twin (Ok best.entry)) (reply_of leader_of (Ok best.entry)) (Found (head_of y.entry)) }
{
    let Some(best) = best else {
        return Best {
            seen: y,
            twin: false,
        };
    };
    let rank = rank_at(&best.seen, &y, end);
    if rank.sooner {
        return Best {
            seen: y,
            twin: rank.same_key,
        };
    }
    Best {
        seen: best.seen,
        twin: rank.same_key | best.twin,
    }
}

// One pass over the sources: the least of their next records in front, the greatest at the back. No heap: of at most 16 sources each is looked at in turn.
pub fn peek<'a>(layout: &Layout<'a>, ends: &Ends, end: End) -> Result<Option<Best<'a>>, Torn>
    requires fitting { Fitting (words_in layout.now.bundle.lengths.now) (size_in layout.now.bundle) ends.now }
    ensures ahead { reply_of leader_of result
        ≡ ahead (words_in layout.now.bundle.lengths.now) end (reader_in layout.now.bundle) ends.now }
    ensures twin { has_twin result
        ≡ twins (words_in layout.now.bundle.lengths.now) end (reader_in layout.now.bundle) ends.now }
{
    let mut best = None;
    for k in 0..layout.bundle.lists() {
        if let Some(y) = next_head(layout.bundle, layout.span(k), ends.left(k), k, end)? {
            best = Some(better(best, y, end));
        }
    }
    Ok(best)
}
