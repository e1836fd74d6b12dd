// The records of an accepted file, one after another.
ghost use Rattle.std.specs.Prelude.{◌<◌, ◌≤◌, ◌-◌, length};
ghost use Rattle.std.specs.Iterator.{at_most};

use fields::bytes::{tail_of, u16_at, whole_record};

// The kinds that a report tells apart. A step is an instruction or a terminator, and an operand or a
// target is a part of one.
#[derive(Clone, Copy, PartialEq, Eq)]
pub enum Kind {
    Storage,
    Function,
    Block,
    Step,
    Part,
    Other,
}

// A record stands in the file from its place on, which is where its kind byte is.
// The readers answer 0 where a file ends too early, which no accepted file does.
#[derive(Clone, Copy)]
pub struct Record<'a> {
    pub file: &'a [u8],
    pub place: usize,
    ghost inside: { place < length file.now },
}

impl<'a> Record<'a> {
    pub fn kind(&self) -> Kind {
        match self.file[self.place] {
            1 => Kind::Storage,
            2 => Kind::Function,
            4 => Kind::Block,
            5 | 7 => Kind::Step,
            6 | 8 => Kind::Part,
            _ => Kind::Other,
        }
    }

    // The number of a function.
    pub fn number(&self) -> usize {
        self.file
            .get(self.place + 1)
            .map_or(0, |number| usize::from(*number))
    }

    // The id of a storage or a block.
    pub fn id(&self) -> usize {
        if self.file.len() - self.place < 3 {
            return 0;
        }
        usize::from(u16_at(self.file, self.place + 1))
    }

    // The place of the next record, or the file's length where there is none.
    fn next_place(&self) -> usize
        ensures { (self.now.place < result) × (result ≤ length self.now.file.now) }
    {
        match whole_record(tail_of(self.file, self.place)) {
            Some(length) => self.place + length,
            None => self.file.len(),
        }
    }

    // The records behind this one.
    pub fn following(&self) -> Records<'a> {
        Records {
            file: self.file,
            place: self.next_place(),
        }
    }

    // The blocks of a function: those before the next function.
    pub fn blocks(&self) -> Blocks<'a> {
        Blocks(self.following())
    }
}

// The records from a place on, in file order.
#[derive(Clone, Copy)]
pub struct Records<'a> {
    file: &'a [u8],
    place: usize,
}

impl<'a> Records<'a> {
    pub fn of(file: &'a [u8]) -> Self {
        Records { file, place: 0 }
    }
}

impl<'a> Iterator for Records<'a> {
    type Item = Record<'a>;

    ghost remaining = { λ s. at_most (length s.file.now - s.place) };

    fn next(&mut self) -> Option<Record<'a>> {
        if self.place >= self.file.len() {
            return None;
        }
        let record = Record {
            file: self.file,
            place: self.place,
        };
        self.place = record.next_place();
        Some(record)
    }
}

// The blocks of one function among the records behind it.
#[derive(Clone, Copy)]
pub struct Blocks<'a>(Records<'a>);

impl<'a> Iterator for Blocks<'a> {
    type Item = Record<'a>;

    ghost remaining = { λ s. at_most (length s.0.file.now - s.0.place) };

    fn next(&mut self) -> Option<Record<'a>> {
        let next = self.0.find(|record| matches!(record.kind(), Kind::Block | Kind::Function))?;
        (next.kind() == Kind::Block).then_some(next)
    }
}
