// Where all lists of a bundle lie and where their records stand in the index.
ghost use Rattle.std.specs.Prelude.{◌≡◌, true, ◌<◌, is_some, IfSome};
ghost use Rattle.list.specs.Field.{words_in};
ghost use Rattle.bundle.specs.Look.{covers};
ghost use Rattle.bundle.specs.Private.{fence, lay_reached, Laid, span_at};

use crate::look::{BUNDLE_LIMIT, Bundle, Span};
use crate::walk::Fence;

// A fence before each list, and one behind the last.
pub const FENCES: usize = BUNDLE_LIMIT + 1;

pub type Fences = [Fence; FENCES];

pub const NO_FENCES: Fences = [Fence::FIRST; FENCES];

// Whether lengths and index cover the bundle; if so, the table holds its fences. What is laid before a list that does not fit stays.
pub fn lay_out(bundle: Bundle, fences: &mut Fences) -> bool
    ensures covering { result ≡ covers bundle.entry.bytes.now bundle.entry.lengths.now bundle.entry.index.now }
    ensures fences_after { fences.new
        ≡ lay_reached (fence bundle.entry.bytes.now bundle.entry.lengths.now)
        bundle.entry.bytes.now bundle.entry.lengths.now fences.old }
    ensures laid { result ≡ true → Laid bundle.entry.bytes.now bundle.entry.lengths.now fences.new }
{
    let n = bundle.lists();
    if BUNDLE_LIMIT < n {
        return false;
    }
    let mut at = Fence::FIRST;
    fences[0] = at;
    for k in 0..n {
        let Some(next) = bundle.past_list(k, at) else {
            return false;
        };
        at = next;
        fences[k + 1] = at;
    }
    bundle.is_covered(at)
}

// A bundle that lengths and index cover, laid out. The table stands in the caller's frame: a layout that held it would be copied on its way back.
#[derive(Clone, Copy)]
pub struct Layout<'a> {
    pub bundle: Bundle<'a>,
    pub fences: &'a Fences,
    pub ghost covered: { covers bundle.bytes.now bundle.lengths.now bundle.index.now ≡ true },
    pub ghost laid: { Laid bundle.bytes.now bundle.lengths.now fences.now },
}

impl<'a> Layout<'a> {
    // A layout, where lengths and index cover the bundle.
    pub fn of(bundle: Bundle<'a>, fences: &'a mut Fences) -> Option<Layout<'a>>
        ensures covering { is_some result ≡ covers bundle.entry.bytes.now bundle.entry.lengths.now bundle.entry.index.now }
        ensures same_bundle { IfSome result (λ layout. layout.bundle ≡ bundle.entry) }
    {
        if !lay_out(bundle, fences) {
            return None;
        }
        Some(Layout { bundle, fences })
    }

    // Where a list lies.
    pub fn span(&self, k: usize) -> Span
        requires { k < words_in self.now.bundle.lengths.now }
        ensures { result ≡ span_at self.now.bundle.bytes.now self.now.bundle.lengths.now k }
    {
        self.fences[k].up_to(self.fences[k + 1])
    }
}
