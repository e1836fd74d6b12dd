// The program file: which records may follow one another, and `check`, which answers every byte string.
// Knows the fields of records and bit rows; gives the refusals, the reader of records, and the numbered units and the table of functions of a file.
#![tactic(auto)]

mod buckets;
mod index;
mod naming;
mod notes;
mod pending;
mod reader;
mod step;
mod walk;

ghost use Rattle.std.specs.Prelude.{◌≡◌, ◌≤◌, length, replicate};
ghost use Rattle.records.specs.Refusal.{number_of, value_of};
ghost use Rattle.records.specs.Outcome.{Numbers, Checks};

// Why a file, a question or a placement is refused: document 01's numbers 1 to 13, in order, without 7.
#[derive(Clone, Copy, PartialEq, Eq, Debug)]
pub enum Refusal {
    Short,
    Form(usize),
    Repeated(usize),
    Undeclared(usize),
    Limit(usize),
    Absent(usize),
    ApplicationFull(usize),
    WorkFull(usize),
    NoPlace(usize),
    BadFixed(usize),
    Conflict(usize),
    Misfit(usize),
}

// The number of a refusal.
pub fn number_of(r: Refusal) -> u32
    ensures { result ≡ number_of r }
{
    match r {
        Refusal::Short => 1,
        Refusal::Form(_) => 2,
        Refusal::Repeated(_) => 3,
        Refusal::Undeclared(_) => 4,
        Refusal::Limit(_) => 5,
        Refusal::Absent(_) => 6,
        Refusal::ApplicationFull(_) => 8,
        Refusal::WorkFull(_) => 9,
        Refusal::NoPlace(_) => 10,
        Refusal::BadFixed(_) => 11,
        Refusal::Conflict(_) => 12,
        Refusal::Misfit(_) => 13,
    }
}

// The value that goes with it.
pub fn value_of(r: Refusal) -> usize
    ensures { result ≡ value_of r }
{
    match r {
        Refusal::Short => 0,
        Refusal::Form(value)
        | Refusal::Repeated(value)
        | Refusal::Undeclared(value)
        | Refusal::Limit(value)
        | Refusal::Absent(value)
        | Refusal::ApplicationFull(value)
        | Refusal::WorkFull(value)
        | Refusal::NoPlace(value)
        | Refusal::BadFixed(value)
        | Refusal::Conflict(value)
        | Refusal::Misfit(value) => value,
    }
}

// Sets all words to 0.
pub fn clear(words: &mut [u32])
    ensures { words.new ≡ replicate (length words.old) 0 }
{
    words.fill(0);
}

// The units of a file, and beside them, for the walks that come after, the unit number of each ABI record and operand in file order and the
// table of functions.
#[tactic(auto, using(crate::proofs::Outcomes::cleared, crate::proofs::Outcomes::numbering_long, crate::proofs::Outcomes::numbering_units, crate::proofs::Outcomes::numbering_refused))]
pub fn number_units(
    file: &[u8],
    words: &mut [u32],
    numbers: &mut [u16],
    table: &mut [u16],
) -> Result<usize, Refusal>
    requires { (length words.old ≡ 512) × (2341 ≤ length numbers.old) × (length table.old ≡ 512) }
    ensures { Numbers file.now result words.new numbers.new table.new }
{
    clear(words);
    if 16384 < file.len() {
        return Err(Refusal::Limit(16384));
    }
    index::blank(table);
    match walk::walk(file, words, numbers, table) {
        Ok(n) => Ok(n),
        Err(r) => {
            clear(words);
            Err(r)
        }
    }
}

// Checks a file: how many units it has, which `units` then holds by number, or the first refusal.
#[tactic(auto, using(crate::proofs::Outcomes::checks_short))]
pub fn check(file: &[u8], units: &mut [u32]) -> Result<usize, Refusal>
    ensures { Checks file.now units.old result units.new }
{
    if units.len() < 512 {
        return Err(Refusal::Short);
    }
    let mut numbers = [0u16; 2341];
    let mut table = [0u16; 512];
    number_units(file, &mut units[..512], &mut numbers, &mut table)
}
