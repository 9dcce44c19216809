// The checking program: a list on standard input, one line on standard output.
#![tactic(auto)]

use list::Refusal;
use std::io;

fn main(rt: HostRuntime) -> io::Result<()> {
    let mut input = rt.stdin();
    // No heap: a buffer of fixed size, filled in part.
    let mut buffer = [0u8; 65536];
    let n = line::read_full(&mut input, &mut buffer)?;
    let mut past = [0u8; 1];
    if 0 < line::read_full(&mut input, &mut past)? {
        return line::print_verdict(&rt, Err(Refusal::TooLarge.into()), 0);
    }
    line::print_verdict(&rt, list::check_list(&buffer[..n]), n as u64)
}
