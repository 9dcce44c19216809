// The key and the value of a place, as parts of the bundle.
ghost use Rattle.std.specs.Prelude.{◌≡◌};
ghost use Rattle.list.specs.Record.{onward};
ghost use Rattle.read.specs.Parts.{fit_at, key_at, key_start, place_of, value_at, value_start};

use bundle::Bundle;
use list::ValueType;

// A record of the bundle: where its key and its value lie there, in numbers, as the border hands them out, and what else it holds. A list's `Record` has places in its list, and knows the next.
#[derive(Clone, Copy)]
pub struct Place {
    pub key: usize,
    pub klen: usize,
    pub seqno: u64,
    pub kind: ValueType,
    pub value: usize,
    pub vlen: usize,
}

// None where the place is unfit. List and record come apart, as C hands them over (`vls_record`).
pub fn place_of(bundle: Bundle, list: u64, record: u64) -> Option<Place>
    ensures { result ≡ place_of bundle.entry.bytes.now bundle.entry.lengths.now bundle.entry.index.now list «record» }
{
    let span = bundle.find_list(list)?;
    if (span.next - span.base) as u64 <= record {
        return None;
    }
    let e = bundle.record_at(span, record as usize).ok()?;
    Some(Place {
        key: span.start + e.key,
        klen: e.klen,
        seqno: e.seqno,
        kind: e.kind,
        value: span.start + e.value,
        vlen: e.vlen,
    })
}

// Whether a place is fit: this tells an empty value from an unfit place.
pub fn is_fit(bundle: Bundle, list: u64, record: u64) -> bool
    ensures { result ≡ fit_at bundle.entry.bytes.now bundle.entry.lengths.now bundle.entry.index.now list «record» }
{
    place_of(bundle, list, record).is_some()
}

// The value of a place, not copied; of an unfit place an empty part and not None: so say `value_at` and `key_at`, of which `demand-2` speaks.
pub fn value(bundle: Bundle<'_>, list: u64, record: u64) -> &[u8]
    ensures part { result.now
        ≡ value_at bundle.entry.bytes.now bundle.entry.lengths.now bundle.entry.index.now list «record» }
    ensures begins { result.ref_ptr
        ≡ onward bundle.entry.bytes.ref_ptr
        (value_start bundle.entry.bytes.now bundle.entry.lengths.now bundle.entry.index.now list «record») }
{
    let Some(place) = place_of(bundle, list, record) else {
        return &bundle.bytes[..0];
    };
    &bundle.bytes[place.value..place.value + place.vlen]
}

// Not one function with `value`: what they share is `place_of`, and a choice of the part would take more lines than the part.
// The key of a place, not copied; of an unfit place an empty part.
pub fn key(bundle: Bundle<'_>, list: u64, record: u64) -> &[u8]
    ensures part { result.now
        ≡ key_at bundle.entry.bytes.now bundle.entry.lengths.now bundle.entry.index.now list «record» }
    ensures begins { result.ref_ptr
        ≡ onward bundle.entry.bytes.ref_ptr
        (key_start bundle.entry.bytes.now bundle.entry.lengths.now bundle.entry.index.now list «record») }
{
    let Some(place) = place_of(bundle, list, record) else {
        return &bundle.bytes[..0];
    };
    &bundle.bytes[place.key..place.key + place.klen]
}
