// The line of a step, which is an instruction or a terminator: what it reads and writes, in units and
// in storages, and whether it has an effect that can be observed.
use crate::numbers::Numbers;
use crate::record_places::Record;
use std::io::{Result, Write};

// Each set has a row of its own, in which a refusal would leave no number.
pub fn put_step(out: &mut impl Write, step: Record<'_>, units: &mut [u32; 512]) -> Result<()> {
    let Record { file, place } = step;
    let mut reads = [0u64; 8];
    let _ = units::unit_reads(file, place, units, &mut reads);
    let mut writes = [0u64; 8];
    let _ = units::unit_writes(file, place, units, &mut writes);
    let mut storages_read = [0u64; 4];
    let _ = units::storage_reads(file, place, units, &mut storages_read);
    let mut storages_written = [0u64; 4];
    let _ = units::storage_writes(file, place, units, &mut storages_written);
    // A step of an accepted file is never refused.
    let observed = units::observable_effect(file, place, units).unwrap_or(false);
    let effect = if observed {
        " effect yes\n"
    } else {
        " effect no\n"
    };
    write!(
        out,
        "at {place} reads{} writes{} storages-read{} storages-written{}{effect}",
        Numbers::of(&reads),
        Numbers::of(&writes),
        Numbers::of(&storages_read),
        Numbers::of(&storages_written),
    )
}
