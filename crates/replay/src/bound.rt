// A recorded bound: how it takes its key (0 absent, 1 included, 2 excluded), then the key.
use std::ops::Bound;

pub fn recorded_bound(bytes: &[u8]) -> Option<Bound<&[u8]>> {
    match bytes.first() {
        Some(0) => Some(Bound::Unbounded),
        Some(1) => Some(Bound::Included(&bytes[1..])),
        Some(2) => Some(Bound::Excluded(&bytes[1..])),
        _ => None,
    }
}
