// What a memtable tells of itself: of its image, or of its state alone.
// Answers are structs of numbers and flags, as include/vls.h has them: C has no enums that hold data.
ghost use Rattle.std.specs.Prelude.{◌≡◌};
ghost use Rattle.memtable.specs.Image.{judge};
ghost use Rattle.memtable.specs.Answers.{size, len, is_empty, highest_seqno, flagged};
ghost use Rattle.vls.specs.Figures.{figure_of, maybe_figure_of, told_of};

use crate::outcome::Outcome;
use list::Refused;
use memtable::Memtable;

// The figure, if there is one.
#[repr(C)]
#[derive(Clone, Copy)]
pub struct Figure {
    pub outcome: Outcome,
    pub found: bool,
    pub figure: u64,
}

// Yes or no.
#[repr(C)]
#[derive(Clone, Copy)]
pub struct Told {
    pub outcome: Outcome,
    pub yes: bool,
}

impl From<Result<Option<u64>, Refused>> for Figure {
    ghost from_gives = { λ answer f. f ≡ maybe_figure_of answer };

    fn from(answer: Result<Option<u64>, Refused>) -> Figure {
        let figure = answer.unwrap_or(None);
        Figure {
            outcome: Outcome::of(&answer),
            found: figure.is_some(),
            figure: figure.unwrap_or(0),
        }
    }
}

impl From<Result<u64, Refused>> for Figure {
    ghost from_gives = { λ answer f. f ≡ figure_of answer };

    fn from(answer: Result<u64, Refused>) -> Figure {
        answer.map(Some).into()
    }
}

impl From<Result<bool, Refused>> for Told {
    ghost from_gives = { λ answer t. t ≡ told_of answer };

    fn from(answer: Result<bool, Refused>) -> Told {
        Told {
            outcome: Outcome::of(&answer),
            yes: answer.unwrap_or(false),
        }
    }
}

#[unsafe(no_mangle)]
pub extern "C" fn vls_memtable_size(buffer: &[u8], state: Memtable) -> Figure
    ensures { result ≡ figure_of (size (judge state buffer.now)) }
{
    state.size(buffer).into()
}

#[unsafe(no_mangle)]
pub extern "C" fn vls_memtable_len(buffer: &[u8], state: Memtable) -> Figure
    ensures { result ≡ figure_of (len (judge state buffer.now)) }
{
    state.len(buffer).into()
}

#[unsafe(no_mangle)]
pub extern "C" fn vls_memtable_is_empty(buffer: &[u8], state: Memtable) -> Told
    ensures { result ≡ told_of (is_empty (judge state buffer.now)) }
{
    state.is_empty(buffer).into()
}

#[unsafe(no_mangle)]
pub extern "C" fn vls_memtable_highest_seqno(buffer: &[u8], state: Memtable) -> Figure
    ensures { result ≡ maybe_figure_of (highest_seqno (judge state buffer.now)) }
{
    state.get_highest_seqno(buffer).into()
}

#[unsafe(no_mangle)]
pub extern "C" fn vls_memtable_flag_rotated(mut state: Memtable) -> Memtable
    ensures { result ≡ flagged state }
{
    state.flag_rotated();
    state
}

#[unsafe(no_mangle)]
pub extern "C" fn vls_memtable_is_flagged(state: Memtable) -> bool
    ensures { result ≡ state.flagged }
{
    state.is_flagged_for_rotation()
}

#[unsafe(no_mangle)]
pub extern "C" fn vls_memtable_id(state: Memtable) -> u64
    ensures { result ≡ state.id }
{
    state.id()
}
