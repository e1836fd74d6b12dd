// The common work of the queries: the step at a place with its rows, and the storages of a row of units.
ghost use Rattle.std.specs.Prelude.{◌≡◌, ◌≤◌, ◌<◌, length};
ghost use Rattle.rows.specs.Row.{pack};
ghost use Rattle.fields.specs.Pick.{pick, has};
ghost use Rattle.fields.specs.Edition.{one};
ghost use Rattle.units.specs.Uses.{effect, storage_of};
ghost use Rattle.units.specs.Along.{step_from};
ghost use Rattle.units.specs.Seek.{Seeks, Shows, storages_below};

use crate::head::head_of;
use crate::locate::{Site, locate};
use crate::numbered::Numbered;
use records::Refusal;

// Checks the file and looks for the step. Where there is none, the unit words are cleared again.
pub fn find_step(
    file: &[u8],
    place: usize,
    words: &mut [u32],
    numbers: &mut [u16],
    table: &mut [u16],
) -> Result<Site, Refusal>
    requires { (length words.old ≡ 512) × (2341 ≤ length numbers.old) × (length table.old ≡ 512) }
    ensures { Seeks file.now place result words.new numbers.new table.new }
{
    records::number_units(file, words, numbers, table)?;
    match locate(file, place) {
        Some(site) => Ok(site),
        None => {
            records::clear(words);
            Err(Refusal::Absent(place))
        }
    }
}

// What a step reads and what it writes, each as a row of units.
#[derive(Drop)]
pub struct Uses {
    pub reads: [u64; 8],
    pub writes: [u64; 8],
}

impl Uses {
    // The row that is asked for.
    #[tactic(auto, unfolding(fields::specs::Pick::pick))]
    pub fn asked(&self, written: bool) -> &[u64; 8]
        ensures { result.now ≡ pick written self.now.writes self.now.reads }
    {
        if written { &self.writes } else { &self.reads }
    }
}

// Both rows of the step at a place.
pub fn rows_at(file: &[u8], place: usize, words: &mut [u32]) -> Result<Uses, Refusal>
    requires { length words.old ≡ 512 }
    ensures { Shows file.now place result words.new }
{
    let mut numbers = [0u16; 2341];
    let mut table = [0u16; 512];
    let site = find_step(file, place, words, &mut numbers, &mut table)?;
    let source = Numbered {
        file,
        numbers: &numbers,
        table: &table,
    };
    let mut uses = Uses {
        reads: [0; 8],
        writes: [0; 8],
    };
    source.uses_at(site, &mut uses.reads, &mut uses.writes);
    Ok(uses)
}

// The storage that a unit's word names.
#[tactic(auto, unfolding(crate::specs::Uses::storage_of))]
fn storage_in(word: u32) -> usize
    ensures { (result ≡ storage_of one word) × (result < 256) }
{
    (word / 65536 % 256) as usize
}

// The storages of a row of units.
pub fn storages_of(words: &[u32], units: &[u64], row: &mut [u64])
    requires { (512 ≤ length words.now) × (length units.now ≡ 8) × (length row.old ≡ 4) }
    ensures { row.new ≡ pack 4 (λ i. has i (storages_below words.now units.now 512)) }
{
    rows::clear(row, 0, 4);
    for n in 0..512 {
        if rows::has(units, 0, n) {
            rows::insert(row, 0, storage_in(words[n]));
        }
    }
}

// May the step whose record stands at the front of a tail not be dropped though nothing reads what it writes?
#[tactic(auto, unfolding(crate::specs::Uses::effect, fields::specs::Pick::pick))]
pub fn has_effect(tail: &[u8]) -> bool
    requires { 4 ≤ length tail.now }
    ensures { result ≡ effect (step_from tail.now 0) }
{
    let head = head_of(tail);
    match (head.ends, head.op) {
        (false, 10 | 12..=15 | 27..=29) => true,
        (false, 26) => matches!(head.sub, 1..=4),
        _ => false,
    }
}
