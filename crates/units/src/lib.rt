// What a step reads and writes, and the five queries at a place.
// Knows the program file and bit rows; gives the units and storages that an instruction or a terminator reads and writes, and its observable effect.
#![tactic(auto)]

mod ask;
pub mod cursor;
mod head;
pub mod locate;
pub mod numbered;
pub mod uses;

ghost use Rattle.units.specs.Ask.{read_row, write_row, storage_read_row, storage_write_row, row_of, storage_row_of, Asks, Tells};

use fields::bytes::tail_of;
use records::Refusal;

// The units that the step at a place reads, or those that it writes.
fn unit_row(
    file: &[u8],
    place: usize,
    written: bool,
    units: &mut [u32],
    row: &mut [u64],
) -> Result<(), Refusal>
    ensures { Asks (row_of written) 8 file.now place units.old row.old result units.new row.new }
{
    if units.len() < 512 || row.len() < 8 {
        return Err(Refusal::Short);
    }
    let uses = ask::rows_at(file, place, &mut units[..512])?;
    row[..8].copy_from_slice(uses.asked(written));
    Ok(())
}

// The storages of these units. It differs from `unit_row` in its width and in what it hands over, which is all that follows the question; a common
// function would take that as a closure and be no plainer.
fn storage_row(
    file: &[u8],
    place: usize,
    written: bool,
    units: &mut [u32],
    row: &mut [u64],
) -> Result<(), Refusal>
    ensures { Asks (storage_row_of written) 4 file.now place units.old row.old result units.new row.new }
{
    if units.len() < 512 || row.len() < 4 {
        return Err(Refusal::Short);
    }
    let uses = ask::rows_at(file, place, &mut units[..512])?;
    ask::storages_of(units, uses.asked(written), &mut row[..4]);
    Ok(())
}

// The units that the step at a place reads.
pub fn unit_reads(
    file: &[u8],
    place: usize,
    units: &mut [u32],
    row: &mut [u64],
) -> Result<(), Refusal>
    ensures { Asks read_row 8 file.now place units.old row.old result units.new row.new }
{
    unit_row(file, place, false, units, row)
}

// The units that it writes.
pub fn unit_writes(
    file: &[u8],
    place: usize,
    units: &mut [u32],
    row: &mut [u64],
) -> Result<(), Refusal>
    ensures { Asks write_row 8 file.now place units.old row.old result units.new row.new }
{
    unit_row(file, place, true, units, row)
}

// The storages of the units that it reads.
pub fn storage_reads(
    file: &[u8],
    place: usize,
    units: &mut [u32],
    row: &mut [u64],
) -> Result<(), Refusal>
    ensures { Asks storage_read_row 4 file.now place units.old row.old result units.new row.new }
{
    storage_row(file, place, false, units, row)
}

// The storages of the units that it writes.
pub fn storage_writes(
    file: &[u8],
    place: usize,
    units: &mut [u32],
    row: &mut [u64],
) -> Result<(), Refusal>
    ensures { Asks storage_write_row 4 file.now place units.old row.old result units.new row.new }
{
    storage_row(file, place, true, units, row)
}

// Whether it may not be dropped though nothing reads what it writes.
pub fn observable_effect(file: &[u8], place: usize, units: &mut [u32]) -> Result<bool, Refusal>
    ensures { Tells file.now place units.old result units.new }
{
    if units.len() < 512 {
        return Err(Refusal::Short);
    }
    let mut numbers = [0u16; 2341];
    let mut table = [0u16; 512];
    let site = ask::find_step(file, place, &mut units[..512], &mut numbers, &mut table)?;
    Ok(ask::has_effect(tail_of(file, site.here.at)))
}
