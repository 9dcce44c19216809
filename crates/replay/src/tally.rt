// How many cases of an area were replayed, and how many of them agree.
use std::io;

// So many disagreements are told by their case's number.
const TOLD: u64 = 10;

#[derive(Clone, Copy)]
pub struct Tally {
    pub agree: u64,
    pub differ: u64,
}

impl Tally {
    pub fn new() -> Tally {
        Tally {
            agree: 0,
            differ: 0,
        }
    }

    // One more case.
    pub fn count(&mut self, rt: &impl Print, name: &str, agrees: bool) -> io::Result<()> {
        if agrees {
            self.agree = self.agree.wrapping_add(1);
            return Ok(());
        }
        if self.differ < TOLD {
            let number = self.cases();
            println!(rt; "{name} case {number} differs")?;
        }
        self.differ = self.differ.wrapping_add(1);
        Ok(())
    }

    fn cases(&self) -> u64 {
        self.agree.wrapping_add(self.differ)
    }

    // Not Display: an area's name stands before its figures, here and where a case differs.
    pub fn print(&self, rt: &impl Print, name: &str) -> io::Result<()> {
        println!(rt; "{name} {} agree {}", self.cases(), self.agree)
    }
}
