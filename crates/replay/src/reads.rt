// Replays the recorded reads: each bundle is opened, and read from both ends in the recorded steps.
use crate::bound::recorded_bound;
use crate::case::{Case, FILL, ROOM, untouched};
use bundle::Bundle;
use list::Refused;
use read::{Bounds, Cursor, Entry};
use std::ops::Bound;

// What a step answers is recorded in so many bytes: found or not, list, record.
const ANSWER_WIDTH: usize = 9;

// The index has an entry for each record, and what lies behind them stays.
fn opens(bytes: &[u8], lengths: &[u8], index: &mut [u8]) -> bool {
    let Ok(count) = bundle::open(bytes, lengths, index) else {
        return false;
    };
    count <= (ROOM / 4) as u64 && untouched(index, 4 * count as usize)
}

// The letters are the recorded file's.
fn step(letter: u8, cursor: &mut Cursor, bundle: Bundle) -> Result<Option<Entry>, Refused> {
    if letter == b'B' {
        return cursor.back(bundle);
    }
    cursor.front(bundle)
}

// Whether a step gave what is recorded.
fn is_recorded(step: Result<Option<Entry>, Refused>, answer: &[u8]) -> bool {
    if answer.len() != ANSWER_WIDTH {
        return false;
    }
    let Ok(found) = step else {
        return false;
    };
    let entry = found.unwrap_or(Entry { list: 0, record: 0 });
    answer[0] == found.is_some() as u8
        && list::le::<4>(answer, 1) == entry.list
        && list::le::<4>(answer, 5) == entry.record
}

// The steps in turn, each beside its answer.
fn walks(start: Cursor, steps: &[u8], answers: &[u8], bundle: Bundle) -> bool {
    let mut cursor = start;
    for (letter, answer) in steps.iter().zip(answers.chunks(ANSWER_WIDTH)) {
        if !is_recorded(step(*letter, &mut cursor, bundle), answer) {
            return false;
        }
    }
    answers.len() / ANSWER_WIDTH == steps.len() && answers.len() % ANSWER_WIDTH == 0
}

// From a start to the last step, over an opened bundle.
fn reads(case: Case, bundle: Bundle) -> bool {
    let bounds = Bounds {
        lower: recorded_bound(case.field(2)).unwrap_or(Bound::Unbounded),
        upper: recorded_bound(case.field(3)).unwrap_or(Bound::Unbounded),
    };
    let started = read::start(bundle, bounds, case.number(4));
    started.outcome.is_ok() && walks(started.cursor, case.field(5), case.field(6), bundle)
}

pub fn agrees(case: Case) -> bool {
    if case.fields() != 7 {
        return false;
    }
    let (bytes, lengths) = (case.field(0), case.field(1));
    let mut index = [FILL; ROOM];
    if !opens(bytes, lengths, &mut index) {
        return false;
    }
    let bundle = Bundle {
        bytes,
        lengths,
        index: &index,
    };
    reads(case, bundle)
}
