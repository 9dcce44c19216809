// Replays the recorded prefixes: the lower bound is the prefix itself, the upper is written to lent memory.
use crate::bound::recorded_bound;
use crate::case::{Case, FILL, ROOM, holds, untouched};
use std::ops::Bound;

// Included; of an empty prefix the Rust says absent, which is the same.
fn is_lower(bound: Option<Bound<&[u8]>>, prefix: &[u8]) -> bool {
    match bound {
        Some(Bound::Unbounded) => prefix.is_empty(),
        Some(Bound::Included(key)) => !prefix.is_empty() && key == prefix,
        _ => false,
    }
}

fn is_upper(bound: Option<Bound<&[u8]>>, prefix: &[u8]) -> bool {
    let mut upper = [FILL; ROOM];
    let Ok(written) = read::prefix_to_range(prefix, &mut upper) else {
        return false;
    };
    match (bound, written) {
        (Some(Bound::Unbounded), None) => untouched(&upper, 0),
        (Some(Bound::Excluded(key)), Some(length)) => {
            length == key.len() as u64 && holds(&upper, key)
        }
        _ => false,
    }
}

pub fn agrees(case: Case) -> bool {
    let prefix = case.field(0);
    case.fields() == 3
        && is_lower(recorded_bound(case.field(1)), prefix)
        && is_upper(recorded_bound(case.field(2)), prefix)
}
