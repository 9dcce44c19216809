// Replays the Rust's recorded answers, one area after the other: how many cases each has, and how many of them agree.
#![tactic(auto)]

mod bound;
mod case;
mod compactions;
mod filtered;
mod memtables;
mod prefixes;
mod reads;
mod tally;

use case::{Case, ROOM};
use std::fs::File;
use std::io;
use std::rt::Files;
use tally::Tally;

// More cases than an area has.
const CASES: u64 = 1000000;

// Every case of an area's file.
fn replay<F: Fn(Case) -> bool>(
    rt: &(impl Files + Print),
    name: &str,
    file: &str,
    agrees: F,
) -> io::Result<()>
    requires { F.IsAlwaysCallable agrees }
{
    let mut cases = File::open(rt, file)?;
    let mut tally = Tally::new();
    for _ in 0..CASES {
        let mut case = [0u8; ROOM];
        let n = case::next_case(&mut cases, &mut case)?;
        if n == 0 {
            break;
        }
        let agreed = agrees(Case::of(&case[..n]));
        tally.count(rt, name, agreed)?;
    }
    tally.print(rt, name)
}

fn main(rt: HostRuntime) -> io::Result<()> {
    replay(&rt, "compactions", "compactions.bin", compactions::agrees)?;
    replay(&rt, "filtered", "filtered.bin", filtered::agrees)?;
    replay(&rt, "memtables", "memtables.bin", memtables::agrees)?;
    replay(&rt, "prefixes", "prefixes.bin", prefixes::agrees)?;
    replay(&rt, "reads", "reads.bin", reads::agrees)
}
