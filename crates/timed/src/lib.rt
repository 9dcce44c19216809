// The comparison of keys as a C function, which the border doesn't have: bench/run times it beside memcmp.
#![tactic(auto)]

ghost use Rattle.std.specs.Prelude.{◌≡◌};
ghost use Rattle.list.specs.Order.{compare};
ghost use Rattle.list.specs.Shared.{number};

use std::cmp::Ordering;

// A number, since C has no Ordering.
#[unsafe(no_mangle)]
pub extern "C" fn timed_compare_keys(a: &[u8], b: &[u8]) -> u64
    ensures { result ≡ number (compare a.now b.now) }
{
    match list::compare_keys(a, b) {
        Ordering::Less => 0,
        Ordering::Equal => 1,
        Ordering::Greater => 2,
    }
}
