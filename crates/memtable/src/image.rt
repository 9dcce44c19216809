// One pass over an image: it is judged as a list, and the place of a version is found on the way.
ghost use Rattle.std.specs.Prelude.{◌≡◌, ◌+◌, ◌≤◌, ◌<◌, length, IfSome};
ghost use Rattle.list.specs.Limits.{header_size};
ghost use Rattle.list.specs.Record.{no_record};
ghost use Rattle.list.specs.Check.{check_from};
ghost use Rattle.memtable.specs.Private.{Lies, spot_of, pass, no_survey, survey_from, sound_if, surveyed, gap_of};

use list::{Record, Refusal, Refused};
use std::cmp::Ordering;

// The place of a version: how many records stand before it, where it starts, and the first record that does not.
// Key and seqno are passed beside it one by one: in a struct every contract here would name them by `sought.entry.key.now` and `sought.entry.seqno`.
#[derive(Clone, Copy)]
pub struct Spot {
    pub rank: u64,
    pub start: usize,
    pub here: Option<Record>,
}

// What gives way to a version that is inserted.
#[derive(Clone, Copy)]
pub struct Gap {
    pub cut: usize,
    pub bytes: u64,
    pub records: u64,
}

#[derive(Clone, Copy)]
pub struct Survey {
    pub count: u64,
    pub size: u64,
    pub highest: u64,
    pub place: Spot,
}

impl Spot {
    // Once a record is here the place stays.
    fn behind(self, s: &[u8], e: Record, key: &[u8], seqno: u64) -> Spot
        requires key_inside { e.key + e.klen ≤ length s.now }
        requires rank_in_bounds { self.rank < length s.now }
        ensures { result ≡ spot_of s.now key.now seqno self e }
    {
        if self.here.is_some() {
            return self;
        }
        match list::compare_versions(key, seqno, list::key_of(s, e), e.seqno) {
            Ordering::Less | Ordering::Equal => Spot {
                here: Some(e),
                ..self
            },
            Ordering::Greater => Spot {
                rank: self.rank + 1,
                start: e.next,
                here: None,
            },
        }
    }

    // The record that is here gives way if key and seqno are the same.
    pub fn gives_way(self, s: &[u8], key: &[u8], seqno: u64) -> Gap
        requires { IfSome self.here (Lies (length s.now)) }
        ensures { result ≡ gap_of s.now key.now seqno self.start self.here }
    {
        let nothing = Gap {
            cut: self.start,
            bytes: 0,
            records: 0,
        };
        let Some(here) = self.here else {
            return nothing;
        };
        match list::compare_versions(key, seqno, list::key_of(s, here), here.seqno) {
            Ordering::Less | Ordering::Greater => nothing,
            Ordering::Equal => Gap {
                cut: here.next,
                bytes: (here.klen + here.vlen) as u64,
                records: 1,
            },
        }
    }
}

fn no_survey() -> Survey
    ensures { result ≡ no_survey }
{
    let place = Spot {
        rank: 0,
        start: list::HEADER_LEN,
        here: None,
    };
    Survey {
        count: 0,
        size: 0,
        highest: 0,
        place,
    }
}

impl Survey {
    // One more record.
    fn pass(self, s: &[u8], e: Record, key: &[u8], seqno: u64) -> Survey
        requires key_inside { e.key + e.klen ≤ length s.now }
        requires figures_in_bounds { (self.place.rank < length s.now) × (self.count < length s.now) × (self.size + e.klen + e.vlen ≤ length s.now) }
        ensures { result ≡ pass s.now key.now seqno self e }
    {
        Survey {
            count: self.count + 1,
            size: self.size + e.klen as u64 + e.vlen as u64,
            highest: self.highest.max(e.seqno),
            place: self.place.behind(s, e, key, seqno),
        }
    }
}

// So many records, from the header to the end.
fn survey_records(s: &[u8], count: u64, key: &[u8], seqno: u64) -> Result<Survey, Refused>
    ensures { result ≡ sound_if (check_from count s.now header_size no_record 0) (survey_from count s.now header_size key.now seqno no_survey) }
{
    let mut before = list::no_record();
    let mut survey = no_survey();
    let mut at = list::HEADER_LEN;
    for done in 0..count {
        match list::next_record(s, before, at) {
            Ok(e) => {
                at = e.next;
                before = e;
                survey = survey.pass(s, e, key, seqno);
            }
            Err(refusal) => {
                return Err(Refused {
                    refusal,
                    list: 0,
                    record: done,
                });
            }
        }
    }
    if at != s.len() {
        return Err(Refused {
            refusal: Refusal::Excess,
            list: 0,
            record: count,
        });
    }
    Ok(survey)
}

// An image, judged, with the place of a version of this key and seqno.
pub fn survey_list(s: &[u8], key: &[u8], seqno: u64) -> Result<Survey, Refused>
    ensures { result ≡ surveyed s.now key.now seqno }
{
    let count = list::check_header(s)?;
    survey_records(s, count, key, seqno)
}
