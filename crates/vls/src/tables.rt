// Memtables: the state crosses by value.
// Answers are structs of numbers and flags, as include/vls.h has them: C has no enums that hold data.
ghost use Rattle.std.specs.Prelude.{◌≡◌};
ghost use Rattle.memtable.specs.Image.{judge};
ghost use Rattle.memtable.specs.Insert.{answered, inserted, created, buffer_after, state_after, blank};
ghost use Rattle.memtable.specs.Get.{got};
ghost use Rattle.vls.specs.Tables.{changed_of, found_of};

use crate::outcome::Outcome;
use list::Refused;
use memtable::Memtable;

// A creation or an insert: the state afterwards.
#[repr(C)]
#[derive(Clone, Copy)]
pub struct Changed {
    pub outcome: Outcome,
    pub state: Memtable,
}

// A point read: a tag stands for the kind, and what is not found is 0 in every field.
#[repr(C)]
#[derive(Clone, Copy, Default)]
pub struct Found {
    pub outcome: Outcome,
    pub found: bool,
    pub at: u64,
    pub seqno: u64,
    pub tag: u64,
    pub start: u64,
    pub len: u64,
}

#[unsafe(no_mangle)]
pub extern "C" fn vls_memtable_new(buffer: &mut [u8], id: u64) -> Changed
    ensures value { result ≡ changed_of (answered (created buffer.old)) (state_after (blank id) 0 (created buffer.old)) }
    ensures buffer_after { buffer.new ≡ buffer_after 0 buffer.old (created buffer.old) }
{
    let mut state = Memtable::new(id);
    let created = state.create(buffer);
    Changed {
        outcome: Outcome::of(&created),
        state,
    }
}

#[unsafe(no_mangle)]
pub extern "C" fn vls_memtable_insert(
    buffer: &mut [u8],
    mut state: Memtable,
    key: &[u8],
    seqno: u64,
    tag: u8,
    value: &[u8],
) -> Changed
    ensures value { result
        ≡ changed_of (answered (inserted state buffer.old key.now seqno tag value.now))
        (state_after state seqno (inserted state buffer.old key.now seqno tag value.now)) }
    ensures buffer_after { buffer.new
        ≡ buffer_after state.used buffer.old (inserted state buffer.old key.now seqno tag value.now) }
{
    let inserted = state.insert(buffer, key, seqno, tag, value);
    Changed {
        outcome: Outcome::of(&inserted),
        state,
    }
}

impl From<Result<Option<memtable::Found>, Refused>> for Found {
    ghost from_gives = { λ g f. f ≡ found_of g };

    fn from(got: Result<Option<memtable::Found>, Refused>) -> Found {
        let outcome = Outcome::of(&got);
        match got.unwrap_or(None) {
            Some(found) => Found {
                outcome,
                found: true,
                at: found.at,
                seqno: found.seqno,
                tag: u8::from(found.kind) as u64,
                start: found.start as u64,
                len: found.len as u64,
            },
            None => Found {
                outcome,
                ..Found::default()
            },
        }
    }
}

#[unsafe(no_mangle)]
pub extern "C" fn vls_get(buffer: &[u8], state: Memtable, key: &[u8], seqno: u64) -> Found
    ensures { result ≡ found_of (got key.now seqno (judge state buffer.now)) }
{
    state.get(buffer, key, seqno).into()
}
