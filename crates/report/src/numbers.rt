// The numbers of a set, as a line shows them: they rise, and a space stands before each.
ghost use Rattle.std.specs.Prelude.{◌<◌, ◌≤◌, length};

use std::fmt::{Display, Formatter, Result, Write};

// A set is a row of words, of which no line has more than 8.
#[derive(Clone, Copy)]
pub struct Numbers<'a> {
    row: &'a [u64],
    ghost few: { length row.now ≤ 8 },
}

impl<'a> Numbers<'a> {
    pub fn of(row: &'a [u64]) -> Self
        requires { length row.now ≤ 8 }
    {
        Numbers { row }
    }

    fn fmt_word<W: Write>(&self, f: &mut Formatter<W>, i: usize) -> Result
        requires { i < length self.now.row.now }
    {
        for n in 64 * i..64 * i + 64 {
            if rows::has(self.row, 0, n) {
                write!(f, " {n}")?;
            }
        }
        Ok(())
    }
}

// Most words of most sets are 0, and are passed over.
impl Display for Numbers<'_> {
    fn fmt<W: Write>(&self, f: &mut Formatter<W>) -> Result {
        for (i, word) in self.row.iter().enumerate() {
            if *word != 0 {
                self.fmt_word(f, i)?;
            }
        }
        Ok(())
    }
}
