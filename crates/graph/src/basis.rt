// What every step of a file is noted by.
ghost use Rattle.std.specs.Prelude.{◌≡◌, length};

use units::numbered::Numbered;

// A file, the words of its units, and of each storage the row of its units.
#[derive(Clone, Copy)]
pub struct Basis<'a> {
    pub source: Numbered<'a>,
    pub words: &'a [u32],
    pub units: &'a [u64],
    pub ghost all_words: { length words.now ≡ 512 },
    pub ghost all_rows: { length units.now ≡ 2048 },
}
