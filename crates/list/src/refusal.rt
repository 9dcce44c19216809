// Why a call is refused: a name for each of the paper's numbers, and where.
ghost use Rattle.std.specs.Prelude.{◌≡◌};
ghost use Rattle.list.specs.Refusal.{number_of, refused};

use std::fmt;

#[derive(Clone, Copy, Debug, PartialEq, Eq)]
pub enum Refusal {
    Truncated,
    BadMark,
    BadVersion,
    EmptyKey,
    LongKey,
    BadTag,
    Disorder,
    Excess,
    TooLarge,
    NoRoom,
    Unfit,
    BadVerdict,
}

// The paper's number.
impl From<Refusal> for u64 {
    ghost from_gives = { λ why n. n ≡ number_of why };

    fn from(refusal: Refusal) -> u64 {
        match refusal {
            Refusal::Truncated => 1,
            Refusal::BadMark => 2,
            Refusal::BadVersion => 3,
            Refusal::EmptyKey => 4,
            Refusal::LongKey => 5,
            Refusal::BadTag => 6,
            Refusal::Disorder => 7,
            Refusal::Excess => 8,
            Refusal::TooLarge => 9,
            Refusal::NoRoom => 10,
            Refusal::Unfit => 11,
            Refusal::BadVerdict => 12,
        }
    }
}

// A refusal with the list and the record that it names; both are 0 where it names none.
#[derive(Clone, Copy, Debug, PartialEq, Eq)]
pub struct Refused {
    pub refusal: Refusal,
    pub list: u64,
    pub record: u64,
}

impl From<Refusal> for Refused {
    ghost from_gives = { λ why r. r ≡ refused why 0 0 };

    fn from(refusal: Refusal) -> Refused {
        Refused {
            refusal,
            list: 0,
            record: 0,
        }
    }
}

impl fmt::Display for Refused {
    fn fmt<W: fmt::Write>(&self, f: &mut fmt::Formatter<W>) -> fmt::Result {
        let number = u64::from(self.refusal);
        write!(
            f,
            "refused {number} list={} record={}",
            self.list, self.record
        )
    }
}
