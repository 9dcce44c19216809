// Compaction of one list.
// Answers are structs of numbers and flags, as include/vls.h has them: C has no enums that hold data.
ghost use Rattle.std.specs.Prelude.{◌≡◌};
ghost use Rattle.compaction.specs.Fate.{job_of};
ghost use Rattle.compaction.specs.Compaction.{answer_to, filtered, filtered_to, noted, output_at, report_at, written};
ghost use Rattle.vls.specs.Compactions.{compacted_of};

use crate::outcome::Outcome;
use compaction::Job;
use list::Refused;

// The output's length in bytes, the records kept and the records reported.
#[repr(C)]
#[derive(Clone, Copy, Default)]
pub struct Compacted {
    pub outcome: Outcome,
    pub length: u64,
    pub kept: u64,
    pub reported: u64,
}

impl From<Result<compaction::Compacted, Refused>> for Compacted {
    ghost from_gives = { λ answer c. c ≡ compacted_of answer };

    fn from(answer: Result<compaction::Compacted, Refused>) -> Compacted {
        let outcome = Outcome::of(&answer);
        match answer {
            Ok(figures) => Compacted {
                outcome,
                length: figures.length,
                kept: figures.kept,
                reported: figures.reported,
            },
            Err(_) => Compacted {
                outcome,
                ..Compacted::default()
            },
        }
    }
}

#[tactic(auto, unfolding(compaction::specs::Fate::job_of))]
fn as_job(threshold: u64, evict: bool, zeroing: bool) -> Job
    ensures { result ≡ job_of threshold evict zeroing }
{
    Job {
        threshold,
        evict,
        zeroing,
    }
}

#[unsafe(no_mangle)]
pub extern "C" fn vls_compact(
    list: &[u8],
    threshold: u64,
    evict: bool,
    zeroing: bool,
    out: &mut [u8],
    report: &mut [u8],
) -> Compacted
    ensures value { result ≡ compacted_of (answer_to (job_of threshold evict zeroing) list.now out.old report.old) }
    ensures out_after { out.new
        ≡ output_at (answer_to (job_of threshold evict zeroing) list.now out.old report.old)
        (job_of threshold evict zeroing) list.now out.old }
    ensures report_after { report.new
        ≡ report_at (answer_to (job_of threshold evict zeroing) list.now out.old report.old)
        (job_of threshold evict zeroing) list.now report.old }
{
    let job = as_job(threshold, evict, zeroing);
    compaction::compact(list, job, out, report).into()
}

#[unsafe(no_mangle)]
pub extern "C" fn vls_compact_filtered(
    list: &[u8],
    threshold: u64,
    evict: bool,
    zeroing: bool,
    verdicts: &[u8],
    values: &[u8],
    out: &mut [u8],
    report: &mut [u8],
) -> Compacted
    ensures value { result ≡ compacted_of
        (filtered_to (job_of threshold evict zeroing) verdicts.now values.now list.now out.old report.old) }
    ensures out_after { out.new ≡ written
        (filtered_to (job_of threshold evict zeroing) verdicts.now values.now list.now out.old report.old)
        (job_of threshold evict zeroing) (filtered verdicts.now values.now list.now) out.old }
    ensures report_after { report.new ≡ noted
        (filtered_to (job_of threshold evict zeroing) verdicts.now values.now list.now out.old report.old)
        (job_of threshold evict zeroing) (filtered verdicts.now values.now list.now) report.old }
{
    let job = as_job(threshold, evict, zeroing);
    compaction::compact_filtered(list, job, verdicts, values, out, report).into()
}
