// A file beside its unit numbers and its table of functions, as the walks over its records take them along.
ghost use Rattle.std.specs.Prelude.{◌≤◌, length};
ghost use Rattle.units.specs.Along.{Sane};

// A file no longer than the format allows, the unit numbers of its records, and where the records of each function begin.
#[derive(Clone, Copy)]
pub struct Numbered<'a> {
    pub file: &'a [u8],
    pub numbers: &'a [u16],
    pub table: &'a [u16],
    pub ghost short: { length file.now ≤ 16384 },
    pub ghost enough: { 2341 ≤ length numbers.now },
    pub ghost sane: { Sane table.now },
}
