// A list that the checker accepted.
ghost use Rattle.std.specs.Prelude.{◌≡◌, ℕ, ◌<◌, Ok, slice_index};
ghost use Rattle.list.specs.Check.{check_list};

// What was lent, which is bytes, and how many records it has.
#[derive(Clone, Copy)]
pub(crate) struct Accepted<'a> {
    pub(crate) bytes: &'a [u8],
    pub(crate) count: u64,
    pub(crate) ghost lent: { (i : ℕ) → slice_index bytes.now i < 256 },
    pub(crate) ghost accepted: { check_list bytes.now ≡ Ok count },
}
