// Lists and bundles, checked and opened.
// Answers are structs of numbers and flags, as include/vls.h has them: C has no enums that hold data.
ghost use Rattle.std.specs.Prelude.{◌≡◌};
ghost use Rattle.list.specs.Check.{check_list};
ghost use Rattle.bundle.specs.Index.{open_bundle, indexed};
ghost use Rattle.vls.specs.Lists.{checked_of};

use crate::outcome::Outcome;
use list::Refused;

// A list or a bundle: the records in all.
#[repr(C)]
#[derive(Clone, Copy)]
pub struct Checked {
    pub outcome: Outcome,
    pub count: u64,
}

impl From<Result<u64, Refused>> for Checked {
    ghost from_gives = { λ verdict c. c ≡ checked_of verdict };

    fn from(verdict: Result<u64, Refused>) -> Checked {
        Checked {
            outcome: Outcome::of(&verdict),
            count: verdict.unwrap_or(0),
        }
    }
}

#[unsafe(no_mangle)]
pub extern "C" fn vls_check(list: &[u8]) -> Checked
    ensures { result ≡ checked_of (check_list list.now) }
{
    list::check_list(list).into()
}

#[unsafe(no_mangle)]
pub extern "C" fn vls_open(bundle: &[u8], lengths: &[u8], index: &mut [u8]) -> Checked
    ensures value { result ≡ checked_of (open_bundle bundle.now lengths.now index.old) }
    ensures index_after { index.new
        ≡ indexed (open_bundle bundle.now lengths.now index.old)
        bundle.now lengths.now index.old }
{
    bundle::open(bundle, lengths, index).into()
}
