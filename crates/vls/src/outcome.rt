// What every answer that may be a refusal begins with.
ghost use Rattle.std.specs.Prelude.{◌≡◌};
ghost use Rattle.vls.specs.Outcome.{outcome_of};

use list::Refused;

// The refusal's number, list and record; 0 in each where the call was not refused.
#[repr(C)]
#[derive(Clone, Copy, Default)]
pub struct Outcome {
    pub number: u64,
    pub list: u64,
    pub record: u64,
}

impl Outcome {
    // How a call came out, whatever else it answers.
    pub fn of<T>(answer: &Result<T, Refused>) -> Outcome
        ensures { result ≡ outcome_of answer.now }
    {
        match answer {
            Ok(_) => Outcome::default(),
            Err(refused) => Outcome {
                number: refused.refusal.into(),
                list: refused.list,
                record: refused.record,
            },
        }
    }
}
