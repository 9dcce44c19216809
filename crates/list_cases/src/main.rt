// Judges each list of a file of cases and writes its line.
// A case is its length (32 bits), how many bytes of it follow (32 bits), and those; the rest of it are zeros.
#![tactic(auto)]

use std::fs::File;
use std::io;
use std::io::Read;

// Room for a list with the longest key.
const ROOM: usize = 65664;

fn fill(file: &mut impl Read, buffer: &mut [u8], given: usize) -> io::Result<()> {
    if given <= buffer.len() {
        line::read_full(file, &mut buffer[..given])?;
    }
    Ok(())
}

fn judge(rt: &impl Print, buffer: &[u8], length: usize) -> io::Result<()> {
    if length <= buffer.len() {
        line::print_verdict(rt, list::check_list(&buffer[..length]), length as u64)?;
    }
    Ok(())
}

// Whether there was a case.
fn judge_next(rt: &impl Print, file: &mut impl Read) -> io::Result<bool> {
    let mut head = [0u8; 8];
    if line::read_full(file, &mut head)? < 8 {
        return Ok(false);
    }
    let length = list::le::<4>(&head, 0) as usize;
    let given = list::le::<4>(&head, 4) as usize;
    let mut buffer = [0u8; ROOM];
    fill(file, &mut buffer, given)?;
    judge(rt, &buffer, length)?;
    Ok(true)
}

fn main(rt: HostRuntime) -> io::Result<()> {
    let mut file = File::open(&rt, "lists")?;
    for _ in 0..1000 {
        if !judge_next(&rt, &mut file)? {
            break;
        }
    }
    Ok(())
}
