// Replays the recorded compactions: each list is compacted, and everything that comes of it is compared.
use crate::case::{Case, FILL, ROOM, holds};
use compaction::{Compacted, Job};
use list::Refused;

// What a case asks for.
pub fn job_of(case: Case) -> Job {
    Job {
        threshold: case.number(1),
        evict: case.number(2) == 1,
        zeroing: case.number(3) == 1,
    }
}

// The answer, the whole output and the whole table, in memory that was filled.
pub fn is_recorded(
    answer: Result<Compacted, Refused>,
    output: &[u8],
    report: &[u8],
    out: &[u8],
    table: &[u8],
) -> bool {
    let Ok(figures) = answer else {
        return false;
    };
    figures.length == output.len() as u64
        && list::check_list(output) == Ok(figures.kept)
        && figures.reported == list::words_in(report) as u64
        && holds(out, output)
        && holds(table, report)
}

pub fn agrees(case: Case) -> bool {
    let mut out = [FILL; ROOM];
    let mut table = [FILL; ROOM];
    let answer = compaction::compact(case.field(0), job_of(case), &mut out, &mut table);
    case.fields() == 6 && is_recorded(answer, case.field(4), case.field(5), &out, &table)
}
