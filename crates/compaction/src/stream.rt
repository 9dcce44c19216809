// Compaction of one list: a port of `compaction/stream.rs`.
ghost use Rattle.std.specs.Prelude.{◌≡◌, Ok, [], ◌∷◌, ◌&&◌, ◌||◌, ◌+◌, ◌*◌, ◌≤◌, ◌<◌, ltb, length};
ghost use Rattle.std.proofs.lemmas.List.Edits.{sets};
ghost use Rattle.list.specs.Pick.{pick};
ghost use Rattle.list.specs.Limits.{header_size};
ghost use Rattle.list.specs.Field.{words, words_in};
ghost use Rattle.list.specs.Refusal.{refused};
ghost use Rattle.list.specs.ValueType.{is_tombstone};
ghost use Rattle.list.specs.Record.{read_at};
ghost use Rattle.list.specs.Version.{Bytes, encode, records, version_at};
ghost use Rattle.list.specs.declared.value_type.ValueType.TheVariants.{Value, Tombstone, WeakTombstone};
ghost use Rattle.list.specs.declared.refusal.Refusal.TheVariants.{NoRoom};
ghost use Rattle.compaction.specs.Fate.{◌is◌, Drop, by_verdict};
ghost use Rattle.compaction.specs.Compact.{numbers, report, compacted};
ghost use Rattle.compaction.specs.Compaction.{figures, limited, answer_to, filtered, filtered_to, written, output_at, noted, report_at};
ghost use Rattle.compaction.specs.Turn.{meant, asked_by, verdict_for, ShortValue, Ready, turned, dropped_by, turn_by, length_by, leaving, next_of, counted};

use crate::accepted::Accepted;
use crate::filter::{NoFilter, StreamFilter, StreamFilterVerdict};
use crate::verdict_table::VerdictTable;
use list::{Record, Refusal, Refused, ValueType};

// What is asked for: the threshold, and whether eviction and zeroing are on.
#[derive(Clone, Copy)]
pub struct Job {
    pub threshold: u64,
    pub evict: bool,
    pub zeroing: bool,
}

// What a compaction counts: the output's length in bytes, the records kept and the records reported.
#[derive(Clone, Copy, Debug, PartialEq, Eq)]
pub struct Compacted {
    pub length: u64,
    pub kept: u64,
    pub reported: u64,
}

// The record held back until the next is read: where it stands, and whether it lies in a tail.
#[derive(Clone, Copy)]
struct Held {
    from: usize,
    record: Record,
    tail: bool,
}

// What a turn decides of the record held back: how it leaves, whether it is reported, and whether the next lies in a tail.
#[derive(Clone, Copy)]
struct Turn<'a> {
    leaves: StreamFilterVerdict<'a>,
    reported: bool,
    tail: bool,
}

// h goes as its key's last.
fn goes_last(evict: bool, h: ValueType) -> bool
    ensures { result ≡ (evict && is_tombstone h) }
{
    evict & h.is_tombstone()
}

// h goes before a tail that begins with w.
fn goes_before(evict: bool, h: ValueType, w: ValueType) -> bool
    ensures { result ≡ ((evict && h is Tombstone) || (w is Value && h is WeakTombstone)) }
{
    match (h, w) {
        (ValueType::Tombstone, _) => evict,
        (ValueType::WeakTombstone, ValueType::Value) => true,
        // Named, since a reader may take it for a value too.
        (ValueType::WeakTombstone, ValueType::Indirection) => false,
        _ => false,
    }
}

// A record of the tail, or one that the filter drops.
fn dropped<'a>(tail: bool) -> Turn<'a>
    ensures { turned result ≡ dropped_by tail }
{
    Turn {
        leaves: StreamFilterVerdict::Drop,
        reported: true,
        tail,
    }
}

// A verdict, or drop where the record goes.
fn unless<'a>(goes: bool, verdict: StreamFilterVerdict<'a>) -> StreamFilterVerdict<'a>
    ensures { meant result ≡ pick goes Drop (meant verdict.entry) }
{
    if goes {
        return StreamFilterVerdict::Drop;
    }
    verdict
}

// What the filter says of a record of this kind; tombstones are not asked.
fn ask<'a, F: StreamFilter>(
    filter: &'a F,
    number: usize,
    kind: ValueType,
) -> StreamFilterVerdict<'a>
    requires { F.can_ask filter.now number }
    ensures { meant result ≡ verdict_for kind (F.verdict_on filter.now number) }
{
    if kind.is_tombstone() {
        return StreamFilterVerdict::Keep;
    }
    filter.filter_item(number)
}

// The record held back, with this number, next being the next, or a record with an empty key after the last. In a tail it is not asked.
// Inlined: as a call, a compaction with a filter takes a fifth longer (63 ns a record against 52, keys of 12 bytes).
#[inline(always)]
fn decide<'a, F: StreamFilter>(
    s: &[u8],
    job: Job,
    filter: &'a F,
    number: usize,
    held: Held,
    next: Record,
) -> Turn<'a>
    requires keys_in_list { (held.«record».key + held.«record».klen ≤ length s.now) × (next.key + next.klen ≤ length s.now) }
    requires can_ask { F.can_ask filter.now number }
    ensures { turned result ≡ turn_by job held.tail (verdict_for held.«record».kind (F.verdict_on filter.now number))
        (version_at s.now held.«record») (version_at s.now next) }
{
    let h = held.record;
    let same = list::same_key(list::key_of(s, h), list::key_of(s, next));
    if held.tail {
        return dropped(same);
    }
    let verdict = ask(filter, number, h.kind);
    if verdict.drops() {
        return dropped(false);
    }
    let kind = verdict.kind(h.kind);
    let reported = verdict.replaces();
    if !same {
        return Turn {
            leaves: unless(goes_last(job.evict, kind), verdict),
            reported,
            tail: false,
        };
    }
    if next.seqno < job.threshold {
        return Turn {
            leaves: unless(goes_before(job.evict, kind, next.kind), verdict),
            reported,
            tail: true,
        };
    }
    Turn {
        leaves: verdict,
        reported,
        tail: false,
    }
}

// The next of so many records; after the last, one with an empty key, and not None: one comparison of keys tells that the key ends or that the list does.
fn next_of(s: &[u8], left: u64, at: usize) -> Record
    ensures { result ≡ next_of left s.now at }
{
    if left == 0 {
        return list::no_record();
    }
    list::read_record(s, at).unwrap_or(list::no_record())
}

// One more turn, in which this many bytes leave.
fn tally(f: Compacted, turn: Turn, length: u64) -> Compacted
    requires { (f.length + length < 18446744073709551616) × (f.kept + 1 < 18446744073709551616) × (f.reported + 1 < 18446744073709551616) }
    ensures { result ≡ counted f (turned turn.entry) length }
{
    Compacted {
        length: f.length + length,
        kept: f.kept + u64::from(!turn.leaves.drops()),
        reported: f.reported + u64::from(turn.reported),
    }
}

// How many bytes leave for the record held back.
fn leaving_len(held: Held, leaves: StreamFilterVerdict) -> u64
    requires stands_before_next { held.from ≤ held.«record».next }
    requires fits { (held.«record».klen < 4294967296) × ShortValue (meant leaves) }
    ensures { result ≡ length_by (meant leaves.entry) held.from held.«record» }
{
    let h = held.record;
    match leaves {
        StreamFilterVerdict::Keep => (h.next - held.from) as u64,
        StreamFilterVerdict::Drop => 0,
        StreamFilterVerdict::Replace { value, .. } => {
            (list::RECORD_LEN + h.klen + value.len()) as u64
        }
    }
}

// An accepted list, decided and measured. That the filter is ready for so many records is of two values, so it is a clause of each that takes both.
fn measure<F: StreamFilter>(list: Accepted, job: Job, filter: &F) -> Compacted
    requires ready { Ready (F.can_ask filter.now) (F.verdict_on filter.now) list.count }
    ensures { result ≡ figures job (asked_by (F.verdict_on filter.now) list.entry.bytes.now) }
{
    let s = list.bytes;
    let mut f = Compacted {
        length: list::HEADER_LEN as u64,
        kept: 0,
        reported: 0,
    };
    let mut held = Held {
        from: list::HEADER_LEN,
        record: next_of(s, list.count, list::HEADER_LEN),
        tail: false,
    };
    for number in 0..list.count {
        let next = next_of(s, list.count - number - 1, held.record.next);
        let turn = decide(s, job, filter, number as usize, held, next);
        f = tally(f, turn, leaving_len(held, turn.leaves));
        held = Held {
            from: held.record.next,
            record: next,
            tail: turn.tail,
        };
    }
    f
}

// The seqno with which a kept record leaves.
fn leaving_seqno(job: Job, seqno: u64) -> u64
    ensures { result ≡ pick (job.zeroing && ltb seqno job.threshold) 0 seqno }
{
    if job.zeroing && seqno < job.threshold {
        return 0;
    }
    seqno
}

// The record held back is put into the output as it leaves; the output's next free place comes back.
fn put_kept(
    s: &[u8],
    job: Job,
    held: Held,
    leaves: StreamFilterVerdict,
    out: &mut [u8],
    at: usize,
) -> usize
    requires reads { read_at s.now held.from ≡ Ok held.«record» }
    requires room { at + length (records (leaving job (by_verdict (meant leaves) (version_at s.now held.«record»)))) ≤ length out.old }
    ensures value { result ≡ at + length (records (leaving job (by_verdict (meant leaves.entry) (version_at s.now held.«record»)))) }
    ensures out_after { out.new
        ≡ sets out.old at (records (leaving job (by_verdict (meant leaves.entry) (version_at s.now held.«record»)))) }
{
    let h = held.record;
    let seqno = leaving_seqno(job, h.seqno);
    match leaves {
        StreamFilterVerdict::Keep => {
            list::copy_record(s, held.from, h, out, at, seqno);
            at + (h.next - held.from)
        }
        StreamFilterVerdict::Drop => at,
        StreamFilterVerdict::Replace { kind, value } => {
            list::write_record(out, at, list::key_of(s, h), seqno, kind, value);
            at + list::RECORD_LEN + h.klen + value.len()
        }
    }
}

// A record's number is put into the report if it is reported; the report's next free entry comes back.
fn note(table: &mut [u8], entry: usize, number: u64, reported: bool) -> usize
    requires { entry + length (numbers number (reported ∷ [])) ≤ words_in table.old }
    ensures value { result ≡ entry + length (numbers number (reported ∷ [])) }
    ensures table_after { table.new ≡ sets table.old (4 * entry) (words (numbers number (reported ∷ []))) }
{
    if !reported {
        return entry;
    }
    list::put_word(table, entry, number);
    entry + 1
}

// An accepted list's records, decided once more and written behind the header, and the report.
// `measure` has the same loop: with one function for a step of both, a filter that keeps all took 1.17 times as long as none, where with two it took 1.06.
fn write<F: StreamFilter>(list: Accepted, job: Job, filter: &F, out: &mut [u8], table: &mut [u8])
    requires ready { Ready (F.can_ask filter.now) (F.verdict_on filter.now) list.count }
    requires out_room { length (encode (compacted job (asked_by (F.verdict_on filter.now) list.bytes.now))) ≤ length out.old }
    requires table_room { length (report job (asked_by (F.verdict_on filter.now) list.bytes.now)) ≤ words_in table.old }
    ensures out_after { out.new ≡ sets out.old header_size
        (records (compacted job (asked_by (F.verdict_on filter.now) list.entry.bytes.now))) }
    ensures table_after { table.new ≡ sets table.old 0
        (words (report job (asked_by (F.verdict_on filter.now) list.entry.bytes.now))) }
{
    let s = list.bytes;
    let mut held = Held {
        from: list::HEADER_LEN,
        record: next_of(s, list.count, list::HEADER_LEN),
        tail: false,
    };
    let mut at = list::HEADER_LEN;
    let mut entry: usize = 0;
    for number in 0..list.count {
        let next = next_of(s, list.count - number - 1, held.record.next);
        let turn = decide(s, job, filter, number as usize, held, next);
        at = put_kept(s, job, held, turn.leaves, out, at);
        entry = note(table, entry, number, turn.reported);
        held = Held {
            from: held.record.next,
            record: next,
            tail: turn.tail,
        };
    }
}

// No room: the record tells which lent part is too short.
fn no_room(record: u64) -> Refused
    ensures { result ≡ refused NoRoom 0 «record» }
{
    Refused {
        refusal: Refusal::NoRoom,
        list: 0,
        record,
    }
}

// An accepted list: measured, and written once nothing can be refused any more.
// Apart from its callers and with the filter by value, a filter that keeps all took 1.06 times as long as none, and else 1.2 times; in the whole archive it takes up to 1.14 times.
#[inline(never)]
fn compact_accepted<F: StreamFilter + Copy>(
    list: Accepted,
    job: Job,
    filter: F,
    out: &mut [u8],
    table: &mut [u8],
) -> Result<Compacted, Refused>
    requires ready { Ready (F.can_ask filter) (F.verdict_on filter) list.count }
    ensures value { result ≡ limited job (asked_by (F.verdict_on filter) list.entry.bytes.now)
        (length out.old) (words_in table.old) }
    ensures out_after { out.new
        ≡ written result job (asked_by (F.verdict_on filter) list.entry.bytes.now) out.old }
    ensures table_after { table.new
        ≡ noted result job (asked_by (F.verdict_on filter) list.entry.bytes.now) table.old }
{
    let f = measure(list, job, &filter);
    if (list::LIST_LIMIT as u64) < f.length {
        return Err(Refusal::TooLarge.into());
    }
    if (out.len() as u64) < f.length {
        return Err(no_room(0));
    }
    if (list::words_in(table) as u64) < f.reported {
        return Err(no_room(1));
    }
    list::write_header(out, f.kept);
    write(list, job, &filter, out, table);
    Ok(f)
}

// Compacts a list into `out` and puts the numbers of the reported records into `table`: two lent parts, as the border has them, each filled from a place on.
pub fn compact(s: &[u8], job: Job, out: &mut [u8], table: &mut [u8]) -> Result<Compacted, Refused>
    ensures value { result ≡ answer_to job s.now out.old table.old }
    ensures out_after { out.new ≡ output_at result job s.now out.old }
    ensures table_after { table.new ≡ report_at result job s.now table.old }
    ensures bytes { Bytes s.now }
{
    let count = list::check_list(s)?;
    compact_accepted(Accepted { bytes: s, count }, job, NoFilter, out, table)
}

// The same with a filter: verdict i is on record i, and a replacement's value is a part of `values`.
pub fn compact_filtered(
    s: &[u8],
    job: Job,
    verdicts: &[u8],
    values: &[u8],
    out: &mut [u8],
    table: &mut [u8],
) -> Result<Compacted, Refused>
    ensures value { result ≡ filtered_to job verdicts.now values.now s.now out.old table.old }
    ensures out_after { out.new ≡ written result job (filtered verdicts.now values.now s.now) out.old }
    ensures table_after { table.new ≡ noted result job (filtered verdicts.now values.now s.now) table.old }
    ensures bytes { Bytes s.now × (Bytes verdicts.now × Bytes values.now) }
{
    let count = list::check_list(s)?;
    let filter = VerdictTable { verdicts, values };
    if !filter.are_verdicts(count) {
        return Err(Refusal::BadVerdict.into());
    }
    compact_accepted(Accepted { bytes: s, count }, job, filter, out, table)
}
