// The placer: where each storage of a file lies.
// Knows the graph, the maps, the slots and the turn of one storage by their promises; gives the placement of every storage, or the first refusal.
#![tactic(auto)]

mod all;

ghost use Rattle.std.specs.Prelude.{◌≡◌, length};
ghost use Rattle.graph.specs.Graphs as G;
ghost use Rattle.allocator.specs.Placing.{Analysed, PlacesIn, PlacesOn, Places};

use crate::all::{Allocated, allocate};
use records::Refusal;
use turns::ledger::Ledger;
use turns::relations::Relations;

// What `place` answers: how many storages were placed, how many slots opened, and the passes of all functions together.
#[derive(Clone, Copy)]
pub struct Placing {
    pub placed: usize,
    pub slots: usize,
    pub passes: usize,
}

// Places a file whose analysis stands in its buffers. The result is written only when every storage has its place.
fn place_on(
    file: &[u8],
    units: &mut [u32],
    live: &mut [u64],
    graph: &mut [u64],
    copies: &mut [u64],
    out: &mut [u8],
    passes: usize,
) -> Result<Placing, Refusal>
    requires { (length units.old ≡ 512) × (length live.old ≡ 2048) × (length graph.old ≡ 1024) × (length copies.old ≡ 1024) × (length out.old ≡ 2048)
        × Analysed file.now units.old live.old graph.old copies.old passes }
    ensures { PlacesOn file.now units.old live.old graph.old copies.old out.old passes result
        units.new live.new graph.new copies.new out.new }
{
    let mut ledger = Ledger::new();
    match allocate(file, Relations { graph, copies }, &mut ledger) {
        Ok(Allocated { placed, slots }) => {
            out.copy_from_slice(&ledger.records);
            Ok(Placing {
                placed,
                slots,
                passes,
            })
        }
        Err(r) => {
            records::clear(units);
            rows::clear(live, 0, 2048);
            rows::clear(graph, 0, 1024);
            rows::clear(copies, 0, 1024);
            Err(r)
        }
    }
}

// Analyses and places a file, in just the needed words.
fn place_in(
    file: &[u8],
    units: &mut [u32],
    live: &mut [u64],
    graph: &mut [u64],
    copies: &mut [u64],
    out: &mut [u8],
) -> Result<Placing, Refusal>
    requires { (length units.old ≡ 512) × (length live.old ≡ 2048) × (length graph.old ≡ 1024) × (length copies.old ≡ 1024) × (length out.old ≡ 2048) }
    ensures { PlacesIn file.now out.old result units.new live.new graph.new copies.new out.new }
{
    let passes = graph::graph(file, units, live, graph, copies)?;
    place_on(file, units, live, graph, copies, out, passes)
}

// Places every storage of a file: `out` then holds a record for each, in file order, and the other buffers what `graph` leaves there.
#[tactic(auto, using(crate::proofs::Fronts::fronts))]
pub fn place(
    file: &[u8],
    units: &mut [u32],
    live: &mut [u64],
    graph: &mut [u64],
    copies: &mut [u64],
    out: &mut [u8],
) -> Result<Placing, Refusal>
    ensures { Places file.now units.old live.old graph.old copies.old out.old result
        units.new live.new graph.new copies.new out.new }
{
    if units.len() < 512 {
        return Err(Refusal::Short);
    }
    if live.len() < 2048 {
        return Err(Refusal::Short);
    }
    if graph.len() < 1024 {
        return Err(Refusal::Short);
    }
    if copies.len() < 1024 {
        return Err(Refusal::Short);
    }
    if out.len() < 2048 {
        return Err(Refusal::Short);
    }
    place_in(
        file,
        &mut units[..512],
        &mut live[..2048],
        &mut graph[..1024],
        &mut copies[..1024],
        &mut out[..2048],
    )
}
