// A case: fields end to end, each behind its length of 32 bits.
ghost use Rattle.std.specs.Prelude.{◌<◌, ◌≤◌, length};
ghost use Rattle.std.specs.Io.{ReadsAtMost};

use std::io;
use std::io::Read;

// Room for the longest case, and for all that it can ask to be written.
pub const ROOM: usize = 16384;

// Lent memory is filled with this, so that a stray write shows.
pub const FILL: u8 = 165;

// Bytes are compared so many at a time.
const BLOCK: usize = 64;

// How wide a field's length is, in bytes.
const LENGTH_WIDTH: usize = 4;

// The fields of a case that are still to be read.
#[derive(Clone, Copy)]
pub struct Case<'a> {
    rest: &'a [u8],
}

// The length of the next case of a file, whose bytes go to the buffer's start; 0 where the file ends, and not None: the contract counts bytes.
// The only error is a read's; then some of the buffer may be written.
pub fn next_case(file: &mut impl Read, buffer: &mut [u8]) -> io::Result<usize>
    ensures { ReadsAtMost result buffer.new }
{
    let mut head = [0u8; LENGTH_WIDTH];
    if line::read_full(file, &mut head)? < LENGTH_WIDTH {
        return Ok(0);
    }
    let n = list::le::<4>(&head, 0) as usize;
    if buffer.len() < n {
        return Ok(0);
    }
    if line::read_full(file, &mut buffer[..n])? < n {
        return Ok(0);
    }
    Ok(n)
}

impl<'a> Case<'a> {
    pub fn of(bytes: &'a [u8]) -> Case<'a> {
        Case { rest: bytes }
    }

    // The first field and the case behind it. A field that is cut short is empty, and the case ends there.
    fn split(self) -> (&'a [u8], Case<'a>)
        ensures { 0 < length self.entry.rest.now → length result.1.rest.now < length self.entry.rest.now }
    {
        let rest = self.rest;
        let n = rest.len();
        let cut = (&rest[n..], Case { rest: &rest[n..] });
        if n < LENGTH_WIDTH {
            return cut;
        }
        let length = list::le::<4>(rest, 0) as usize;
        if n - LENGTH_WIDTH < length {
            return cut;
        }
        let end = LENGTH_WIDTH + length;
        (&rest[LENGTH_WIDTH..end], Case { rest: &rest[end..] })
    }

    // How many fields it has.
    pub fn fields(self) -> u64 {
        let mut left = self;
        let mut count: u64 = 0;
        // A field's end is told by its length, so the turns are not the bytes' indices.
        while !left.rest.is_empty() {
            left = left.split().1;
            count = count.wrapping_add(1);
        }
        count
    }

    // The case without its first fields.
    pub fn behind(self, fields: u64) -> Case<'a> {
        let mut left = self;
        for _ in 0..fields {
            left = left.split().1;
        }
        left
    }

    // A field by its number, from 0. One that isn't there is empty.
    pub fn field(self, number: u64) -> &'a [u8] {
        self.behind(number).split().0
    }

    // A field that is a number.
    pub fn number(self, number: u64) -> u64 {
        let bytes = self.field(number);
        if bytes.len() < 8 {
            return 0;
        }
        list::le::<8>(bytes, 0)
    }
}

// Whether t stands in s at a place.
pub fn stands(s: &[u8], at: usize, t: &[u8]) -> bool {
    at <= s.len() && s[at..].starts_with(t)
}

// Whether the bytes from a place to another are there and all of them this one. In blocks: byte by byte the replay of prefixes took three times as many instructions.
pub fn all_are(s: &[u8], from: usize, to: usize, byte: u8) -> bool {
    if s.len() < to {
        return false;
    }
    let filled = [byte; BLOCK];
    let mut left = &s[from.min(to)..to];
    while let Some((block, rest)) = left.split_first_chunk::<BLOCK>() {
        if block != &filled {
            return false;
        }
        left = rest;
    }
    left == &filled[..left.len()]
}

// Whether lent memory is as it was filled, from a place on.
pub fn untouched(lent: &[u8], from: usize) -> bool {
    all_are(lent, from, lent.len(), FILL)
}

// Whether lent memory begins with these bytes and is as it was filled behind them.
pub fn holds(lent: &[u8], bytes: &[u8]) -> bool {
    stands(lent, 0, bytes) && untouched(lent, bytes.len())
}
