// Replays the recorded sequences of calls on a memtable, each in a buffer of its own.
use crate::case::{Case, FILL, ROOM, all_are, stands, untouched};
use memtable::Memtable;

// A sequence so far: the table, how far the buffer was ever used, how many fields were read, those still to be read, and whether all agreed: one that doesn't is no end, so that all fields are read.
#[derive(Drop)]
struct Run<'a> {
    table: Memtable,
    reach: usize,
    fields: u64,
    asked: Case<'a>,
    agrees: bool,
}

impl<'a> Run<'a> {
    fn create(case: Case<'a>, buffer: &mut [u8]) -> Run<'a> {
        let mut table = Memtable::new(case.number(0));
        let agrees = table.create(buffer).is_ok();
        Run {
            reach: table.used,
            table,
            fields: 2,
            asked: case.behind(2),
            agrees,
        }
    }

    fn insert(&mut self, buffer: &mut [u8]) -> bool {
        let asked = self.asked;
        let tag = (asked.number(2) % 256) as u8;
        let outcome = self.table.insert(
            buffer,
            asked.field(0),
            asked.number(1),
            tag,
            asked.field(3),
        );
        self.reach = self.reach.max(self.table.used);
        outcome.is_ok()
    }

    fn gets(&self, buffer: &[u8]) -> bool {
        let asked = self.asked;
        let value = asked.field(6);
        match self.table.get(buffer, asked.field(0), asked.number(1)) {
            Err(_) => false,
            Ok(None) => asked.number(2) == 0,
            Ok(Some(found)) => {
                asked.number(2) == 1
                    && asked.number(3) == found.at
                    && asked.number(4) == found.seqno
                    && asked.number(5) == u8::from(found.kind) as u64
                    && found.len == value.len()
                    && stands(buffer, found.start, value)
            }
        }
    }

    // The whole buffer: the image, zeros as far as it was ever used, and then what it was filled with.
    fn holds_image(&self, buffer: &[u8]) -> bool {
        let image = self.asked.field(0);
        let used = self.table.used;
        image.len() == used
            && stands(buffer, 0, image)
            && all_are(buffer, used, self.reach, 0)
            && untouched(buffer, self.reach)
            && list::check_list(image).is_ok()
            && list::check_list(image) == self.table.len(buffer)
    }

    fn has_highest(&self, buffer: &[u8]) -> bool {
        match self.table.get_highest_seqno(buffer) {
            Err(_) => false,
            Ok(None) => self.asked.number(0) == 0,
            Ok(Some(seqno)) => self.asked.number(0) == 1 && self.asked.number(1) == seqno,
        }
    }

    // Whether a recorded 1 or 0 is this yes or no.
    fn says(&self, yes: bool) -> bool {
        self.asked.number(0) == yes as u64
    }

    // How many fields a call has, and whether it agrees. The letters are the recorded file's.
    fn answer(&mut self, letter: u8, buffer: &mut [u8]) -> (u64, bool) {
        match letter {
            b'I' => (4, self.insert(buffer)),
            b'G' => (7, self.gets(buffer)),
            b'A' => (1, self.holds_image(buffer)),
            b'H' => (2, self.has_highest(buffer)),
            b'R' => {
                self.table.flag_rotated();
                (0, true)
            }
            b'Q' => (1, self.says(self.table.is_flagged_for_rotation())),
            b'D' => (1, self.asked.number(0) == self.table.id()),
            _ => (0, false),
        }
    }

    fn call(&mut self, letter: u8, buffer: &mut [u8]) {
        let (fields, agrees) = self.answer(letter, buffer);
        self.fields = self.fields.wrapping_add(fields);
        self.asked = self.asked.behind(fields);
        self.agrees = self.agrees && agrees;
    }
}

pub fn agrees(case: Case) -> bool {
    let mut buffer = [FILL; ROOM];
    let mut run = Run::create(case, &mut buffer);
    for letter in case.field(1) {
        run.call(*letter, &mut buffer);
    }
    run.agrees && run.fields == case.fields()
}
