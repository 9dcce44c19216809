// Replays the recorded compactions with a filter: each list is compacted by its verdicts.
use crate::case::{Case, FILL, ROOM};
use crate::compactions::{is_recorded, job_of};

pub fn agrees(case: Case) -> bool {
    let mut out = [FILL; ROOM];
    let mut table = [FILL; ROOM];
    let answer = compaction::compact_filtered(
        case.field(0),
        job_of(case),
        case.field(4),
        case.field(5),
        &mut out,
        &mut table,
    );
    case.fields() == 8 && is_recorded(answer, case.field(6), case.field(7), &out, &table)
}
