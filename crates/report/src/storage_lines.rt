// The lines of the interference graph: the neighbours of each storage, and the pairs of copies.
ghost use Rattle.std.specs.Prelude.{◌<◌};

use crate::numbers::Numbers;
use crate::record_places::{Kind, Records};
use std::io::{Result, Write};

pub fn put_graph(out: &mut impl Write, file: &[u8], units: &mut [u32; 512]) -> Result<()> {
    let mut live = [0u64; 2048];
    let mut near = [0u64; 1024];
    let mut copies = [0u64; 1024];
    // An accepted file is never refused.
    let passes = graph::graph(file, units, &mut live, &mut near, &mut copies).unwrap_or(0);
    writeln!(out, "graph passes {passes}")?;
    put_storages(out, file, &near)?;
    put_copies(out, &copies)
}

// Most rows hold no number, and are passed over.
fn is_empty(row: &[u64]) -> bool {
    row.iter().all(|word| *word == 0)
}

// Every storage, in file order. Ids are below 256.
fn put_storages(out: &mut impl Write, file: &[u8], near: &[u64; 1024]) -> Result<()> {
    for storage in Records::of(file).filter(|record| record.kind() == Kind::Storage) {
        put_storage(out, storage.id() % 256, near)?;
    }
    Ok(())
}

// The neighbours of a storage; without any it has no line.
fn put_storage(out: &mut impl Write, id: usize, near: &[u64; 1024]) -> Result<()>
    requires { id < 256 }
{
    let row = &near[4 * id..4 * id + 4];
    if is_empty(row) {
        return Ok(());
    }
    writeln!(out, "storage {id} interferes{}", Numbers::of(row))
}

// The pairs of copies, each in the row of its smaller id.
fn put_copies(out: &mut impl Write, copies: &[u64; 1024]) -> Result<()> {
    for id in 0..256 {
        put_copies_of(out, id, copies)?;
    }
    Ok(())
}

// The pairs whose smaller id is this one, by their larger ids.
fn put_copies_of(out: &mut impl Write, id: usize, copies: &[u64; 1024]) -> Result<()>
    requires { id < 256 }
{
    if is_empty(&copies[4 * id..4 * id + 4]) {
        return Ok(());
    }
    for other in 0..256 {
        if rows::has(copies, 4 * id, other) {
            writeln!(out, "copy {id} {other}")?;
        }
    }
    Ok(())
}
