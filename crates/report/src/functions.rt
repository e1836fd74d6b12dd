// The lines of the functions: each with its passes, its blocks with their live sets, and their steps.
ghost use Rattle.std.specs.Prelude.{◌<◌};

use crate::numbers::Numbers;
use crate::record_places::{Kind, Record, Records};
use crate::steps::put_step;
use std::io::{Result, Write};

// Every function, in file order.
pub fn put_functions(out: &mut impl Write, file: &[u8], units: &mut [u32; 512]) -> Result<()> {
    for function in Records::of(file).filter(|record| record.kind() == Kind::Function) {
        put_function(out, function, units)?;
    }
    Ok(())
}

// One function: its own line, then its blocks.
fn put_function(out: &mut impl Write, function: Record<'_>, units: &mut [u32; 512]) -> Result<()> {
    let number = function.number();
    let blocks = function.blocks().count();
    let mut live = [0u64; 2048];
    // A function of an accepted file is never refused.
    let passes = liveness::live(function.file, number, units, &mut live).unwrap_or(0);
    writeln!(out, "function {number} blocks {blocks} passes {passes}")?;
    put_blocks(out, function, units, &live)
}

// The blocks of a function, of which there are at most 128.
fn put_blocks(
    out: &mut impl Write,
    function: Record<'_>,
    units: &mut [u32; 512],
    live: &[u64; 2048],
) -> Result<()> {
    let mut blocks = function.blocks();
    for number in 0..128 {
        let Some(block) = blocks.next() else {
            break;
        };
        put_block(out, block.id(), live, number)?;
        put_steps(out, block, units)?;
    }
    Ok(())
}

// The line of a block: its live-in units have 8 words for each block, and its live-out units too,
// from word 1024 on.
fn put_block(out: &mut impl Write, id: usize, live: &[u64; 2048], number: usize) -> Result<()>
    requires { number < 128 }
{
    let live_in = &live[8 * number..8 * number + 8];
    let live_out = &live[1024 + 8 * number..1032 + 8 * number];
    writeln!(
        out,
        "block {id} in{} out{}",
        Numbers::of(live_in),
        Numbers::of(live_out)
    )
}

// The steps of a block: those before the next block, function or end.
fn put_steps(out: &mut impl Write, block: Record<'_>, units: &mut [u32; 512]) -> Result<()> {
    let steps = block
        .following()
        .take_while(|record| matches!(record.kind(), Kind::Step | Kind::Part))
        .filter(|record| record.kind() == Kind::Step);
    for step in steps {
        put_step(out, step, units)?;
    }
    Ok(())
}
