// One list in a lent buffer, with its small state beside it: a port of `memtable/mod.rs`.
#![tactic(auto)]

ghost use Rattle.std.specs.Prelude.{◌≡◌, ◌≤◌, ◌<◌, length, Ok, IfSome};
ghost use Rattle.list.specs.Limits.{key_limit};
ghost use Rattle.list.specs.Version.{Bytes};
ghost use Rattle.memtable.specs.Image.{judge};
ghost use Rattle.memtable.specs.Insert.{inserted, created, answered, state_after, state_created, buffer_after, blank};
ghost use Rattle.memtable.specs.Get.{got};
ghost use Rattle.memtable.specs.Answers.{size, len, is_empty, highest_seqno, flagged};
ghost use Rattle.memtable.specs.Private.{Lies, examined, found_at, version_of, put_in};

mod image;
mod moves;

use image::{Spot, Survey};
use list::{Refusal, Refused, ValueType};
use moves::Version;

// The small state: used length, size, highest seqno, id, flag. It crosses to a C++ host as it is.
#[repr(C)]
#[derive(Clone, Copy)]
pub struct Memtable {
    pub used: usize,
    pub size: u64,
    pub highest: u64,
    pub id: u64,
    pub flagged: bool,
}

// A record's number, seqno and kind, and its value's start and length in the image: numbers, as the border hands them out.
#[derive(Clone, Copy)]
pub struct Found {
    pub at: u64,
    pub seqno: u64,
    pub kind: ValueType,
    pub start: usize,
    pub len: usize,
}

// What stands at a place, if it is of the key.
fn found_at(s: &[u8], key: &[u8], place: Spot) -> Option<Found>
    requires { IfSome place.here (Lies (length s.now)) }
    ensures { result ≡ found_at s.now key.now place.rank place.here }
{
    let here = place.here?;
    if list::same_key(key, list::key_of(s, here)) {
        return Some(Found {
            at: place.rank,
            seqno: here.seqno,
            kind: here.kind,
            start: here.value,
            len: here.vlen,
        });
    }
    None
}

impl Memtable {
    // The state of a table that is yet to be created.
    pub fn new(id: u64) -> Memtable
        ensures { result ≡ blank id }
    {
        Memtable {
            used: 0,
            size: 0,
            highest: 0,
            id,
            flagged: false,
        }
    }

    // The empty list in a buffer.
    pub fn create(&mut self, buffer: &mut [u8]) -> Result<(), Refused>
        ensures answer { result ≡ answered (created buffer.old) }
        ensures state_after { self.new ≡ state_created self.old (created buffer.old) }
        ensures buffer_after { buffer.new ≡ buffer_after 0 buffer.old (created buffer.old) }
        ensures buffer_bytes { Bytes buffer.old }
    {
        if buffer.len() < list::HEADER_LEN {
            return Err(Refusal::NoRoom.into());
        }
        list::write_header(buffer, 0);
        *self = Memtable {
            used: list::HEADER_LEN,
            ..Memtable::new(self.id)
        };
        Ok(())
    }

    // The image, judged, with the place of a version of this key and seqno: the used length first, then the list, then the figures.
    fn examine(self, buffer: &[u8], key: &[u8], seqno: u64) -> Result<Survey, Refused>
        ensures { result ≡ examined self buffer.now key.now seqno }
    {
        if buffer.len() < self.used {
            return Err(Refusal::Unfit.into());
        }
        let survey = image::survey_list(&buffer[..self.used], key, seqno)?;
        if self.size != survey.size || self.highest != survey.highest {
            return Err(Refusal::Unfit.into());
        }
        Ok(survey)
    }

    // A version at its place, in the place of one of the same key and seqno. Nothing is written before both limits are tested.
    fn put(&mut self, survey: Survey, buffer: &mut [u8], version: Version) -> Result<(), Refused>
        requires surveyed { examined self.old buffer.old version.key.now version.seqno ≡ Ok survey }
        requires key_in_limit { length version.key.now ≤ key_limit }
        ensures answer { result ≡ answered (put_in self.old buffer.old (version_of version.entry)) }
        ensures state_after { self.new ≡ state_after self.old version.entry.seqno (put_in self.old buffer.old (version_of version.entry)) }
        ensures buffer_after { buffer.new ≡ buffer_after self.old.used buffer.old (put_in self.old buffer.old (version_of version.entry)) }
    {
        if list::LIST_LIMIT < version.value.len() {
            return Err(Refusal::TooLarge.into());
        }
        let place = survey.place;
        let gap = place.gives_way(&buffer[..self.used], version.key, version.seqno);
        let tail = self.used - gap.cut;
        let end = place.start + list::RECORD_LEN + version.key.len() + version.value.len() + tail;
        if list::LIST_LIMIT < end {
            return Err(Refusal::TooLarge.into());
        }
        if buffer.len() < end {
            return Err(Refusal::NoRoom.into());
        }
        let count = survey.count + 1 - gap.records;
        moves::splice(buffer, self.used, place.start, gap.cut, count, version);
        self.used = end;
        self.size = self.size + version.key.len() as u64 + version.value.len() as u64 - gap.bytes;
        self.highest = self.highest.max(version.seqno);
        Ok(())
    }

    // The image is judged first, then key, tag, the list's limit and the buffer's.
    pub fn insert(
        &mut self,
        buffer: &mut [u8],
        key: &[u8],
        seqno: u64,
        tag: u8,
        value: &[u8],
    ) -> Result<(), Refused>
        ensures answer { result ≡ answered (inserted self.old buffer.old key.now seqno tag value.now) }
        ensures state_after { self.new ≡ state_after self.old seqno (inserted self.old buffer.old key.now seqno tag value.now) }
        ensures buffer_after { buffer.new ≡ buffer_after self.old.used buffer.old (inserted self.old buffer.old key.now seqno tag value.now) }
        ensures buffer_bytes { Bytes buffer.old }
        ensures key_bytes { Bytes key.now }
        ensures value_bytes { Bytes value.now }
        ensures seqno_fits { seqno < 18446744073709551616 }
    {
        let survey = self.examine(buffer, key, seqno)?;
        if list::KEY_LIMIT < key.len() {
            return Err(Refusal::LongKey.into());
        }
        if key.is_empty() {
            return Err(Refusal::EmptyKey.into());
        }
        let kind = ValueType::try_from(tag)?;
        let version = Version {
            key,
            seqno,
            kind,
            value,
        };
        self.put(survey, buffer, version)
    }

    // The newest version strictly below the seqno.
    pub fn get(self, buffer: &[u8], key: &[u8], seqno: u64) -> Result<Option<Found>, Refused>
        ensures { result ≡ got key.now seqno (judge self buffer.now) }
    {
        let survey = self.examine(buffer, key, seqno.saturating_sub(1))?;
        if seqno == 0 || key.is_empty() {
            return Ok(None);
        }
        if key.len() <= list::KEY_LIMIT {
            return Ok(found_at(&buffer[..self.used], key, survey.place));
        }
        Err(Refusal::LongKey.into())
    }

    // The sum of key and value lengths held.
    pub fn size(self, buffer: &[u8]) -> Result<u64, Refused>
        ensures { result ≡ size (judge self buffer.now) }
    {
        let survey = self.examine(buffer, b"", 0)?;
        Ok(survey.size)
    }

    // How many records there are.
    pub fn len(self, buffer: &[u8]) -> Result<u64, Refused>
        ensures { result ≡ len (judge self buffer.now) }
    {
        let survey = self.examine(buffer, b"", 0)?;
        Ok(survey.count)
    }

    pub fn is_empty(self, buffer: &[u8]) -> Result<bool, Refused>
        ensures { result ≡ is_empty (judge self buffer.now) }
    {
        let survey = self.examine(buffer, b"", 0)?;
        Ok(survey.count == 0)
    }

    // An empty table answers none.
    pub fn get_highest_seqno(self, buffer: &[u8]) -> Result<Option<u64>, Refused>
        ensures { result ≡ highest_seqno (judge self buffer.now) }
    {
        let survey = self.examine(buffer, b"", 0)?;
        if 0 < survey.count {
            return Ok(Some(survey.highest));
        }
        Ok(None)
    }

    pub fn flag_rotated(&mut self)
        ensures { self.new ≡ flagged self.old }
    {
        self.flagged = true;
    }

    pub fn is_flagged_for_rotation(self) -> bool
        ensures { result ≡ self.flagged }
    {
        self.flagged
    }

    pub fn id(self) -> u64
        ensures { result ≡ self.id }
    {
        self.id
    }
}
