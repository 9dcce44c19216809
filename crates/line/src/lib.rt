// The line that a program writes about a list, and how a program fills the buffer that it judges.
#![tactic(auto)]

mod input;

pub use input::read_full;
use list::Refused;
use std::io;

// What was judged has so many bytes. The only error is that of writing the line.
pub fn print_verdict(rt: &impl Print, verdict: Result<u64, Refused>, bytes: u64) -> io::Result<()> {
    match verdict {
        Ok(records) => println!(rt; "ok records={records} bytes={bytes}"),
        Err(refused) => println!(rt; "{refused}"),
    }
}
