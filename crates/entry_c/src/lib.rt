// The exported functions as a static library, for programs in Rust or C.
// Knows the functions of `entry` alone; exports each under its own name, with its clauses.
#![tactic(auto)]

ghost use Rattle.units.specs.Ask.{read_row, write_row, storage_read_row, storage_write_row};
ghost use Rattle.entry.specs.Answer.{Answers, Fills, Says, Settles, Draws, Puts};

// `check`: the number of units.
#[unsafe(no_mangle)]
pub extern "C" fn check_file(file: &[u8], units: &mut [u32]) -> u64
    ensures { Answers file.now units.old result units.new }
{
    entry::check_file(file, units)
}

// The units that the step at a place reads.
#[unsafe(no_mangle)]
pub extern "C" fn reads_at(file: &[u8], place: usize, units: &mut [u32], row: &mut [u64]) -> u64
    ensures { Fills read_row 8 file.now place units.old row.old result units.new row.new }
{
    entry::reads_at(file, place, units, row)
}

// The units that it writes.
#[unsafe(no_mangle)]
pub extern "C" fn writes_at(file: &[u8], place: usize, units: &mut [u32], row: &mut [u64]) -> u64
    ensures { Fills write_row 8 file.now place units.old row.old result units.new row.new }
{
    entry::writes_at(file, place, units, row)
}

// The storages of the units that it reads.
#[unsafe(no_mangle)]
pub extern "C" fn storage_reads_at(
    file: &[u8],
    place: usize,
    units: &mut [u32],
    row: &mut [u64],
) -> u64
    ensures { Fills storage_read_row 4 file.now place units.old row.old result units.new row.new }
{
    entry::storage_reads_at(file, place, units, row)
}

// The storages of the units that it writes.
#[unsafe(no_mangle)]
pub extern "C" fn storage_writes_at(
    file: &[u8],
    place: usize,
    units: &mut [u32],
    row: &mut [u64],
) -> u64
    ensures { Fills storage_write_row 4 file.now place units.old row.old result units.new row.new }
{
    entry::storage_writes_at(file, place, units, row)
}

// Its observable effect: 1 yes, 0 no.
#[unsafe(no_mangle)]
pub extern "C" fn effect_at(file: &[u8], place: usize, units: &mut [u32]) -> u64
    ensures { Says file.now place units.old result units.new }
{
    entry::effect_at(file, place, units)
}

// The passes that the live sets of a function took.
#[unsafe(no_mangle)]
pub extern "C" fn live_of(file: &[u8], number: usize, units: &mut [u32], live: &mut [u64]) -> u64
    ensures { Settles file.now number units.old live.old result units.new live.new }
{
    entry::live_of(file, number, units, live)
}

// The passes of all functions, with interference and copies in their rows.
#[unsafe(no_mangle)]
pub extern "C" fn graph_of(
    file: &[u8],
    units: &mut [u32],
    live: &mut [u64],
    graph: &mut [u64],
    copies: &mut [u64],
) -> u64
    ensures { Draws file.now units.old live.old graph.old copies.old result units.new live.new
        graph.new copies.new }
{
    entry::graph_of(file, units, live, graph, copies)
}

// `place`, with a record for each storage in `out`: the passes of all functions times 262144, the slots opened times 512, and the storages placed.
#[unsafe(no_mangle)]
pub extern "C" fn place_file(
    file: &[u8],
    units: &mut [u32],
    live: &mut [u64],
    graph: &mut [u64],
    copies: &mut [u64],
    out: &mut [u8],
) -> u64
    ensures { Puts file.now units.old live.old graph.old copies.old out.old result
        units.new live.new graph.new copies.new out.new }
{
    entry::place_file(file, units, live, graph, copies, out)
}
