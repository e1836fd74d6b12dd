// Interference of storages, and pairs of copies.
// Knows live sets and what each step reads and writes; gives which storages must not share a place, and which were copied into one another.
#![tactic(auto)]

mod basis;
mod sketch;
mod walk;

ghost use Rattle.std.specs.Prelude.{◌≡◌, length};
ghost use Rattle.graph.specs.Graphs.{GraphsIn, Graphs};

use records::{Refusal, number_units};
use units::numbered::Numbered;

// The graph of a file that is not checked yet, in just the needed words.
fn graph_in(
    file: &[u8],
    units: &mut [u32],
    live: &mut [u64],
    graph: &mut [u64],
    copies: &mut [u64],
) -> Result<usize, Refusal>
    requires { (length units.old ≡ 512) × (length live.old ≡ 2048) × (length graph.old ≡ 1024) × (length copies.old ≡ 1024) }
    ensures { GraphsIn file.now result units.new live.new graph.new copies.new }
{
    rows::clear(live, 0, 2048);
    rows::clear(graph, 0, 1024);
    rows::clear(copies, 0, 1024);
    let mut numbers = [0u16; 2341];
    let mut table = [0u16; 512];
    let n = number_units(file, units, &mut numbers, &mut table)?;
    let source = Numbered {
        file,
        numbers: &numbers,
        table: &table,
    };
    Ok(walk::graph_of(source, units, n, live, graph, copies))
}

// Which storages interfere, both ways, and which were copied into one another, in the smaller id's row; with the passes of all functions. `units` then
// holds the file's units, and `live` the live sets of its last function.
pub fn graph(
    file: &[u8],
    units: &mut [u32],
    live: &mut [u64],
    graph: &mut [u64],
    copies: &mut [u64],
) -> Result<usize, Refusal>
    ensures { Graphs file.now units.old live.old graph.old copies.old result units.new live.new
        graph.new copies.new }
{
    if units.len() < 512 || live.len() < 2048 || graph.len() < 1024 || copies.len() < 1024 {
        return Err(Refusal::Short);
    }
    graph_in(
        file,
        &mut units[..512],
        &mut live[..2048],
        &mut graph[..1024],
        &mut copies[..1024],
    )
}
