// All storages of a file are placed, in file order.
ghost use Rattle.std.specs.Prelude.{◌≡◌, true, [], map, ◌≤◌, length, replicate};
ghost use Rattle.fields.specs.Record.{u16_at, header_fits};
ghost use Rattle.storages.specs.Storage.{stored};
ghost use Rattle.storages.specs.File.{declared};
ghost use Rattle.places.specs.Place.{Given, place_from, place};
ghost use Rattle.turns.specs.Held.{Tells};
ghost use Rattle.allocator.specs.All.{Fit, Allocates};

use fields::bytes::{tail_of, u16_at};
use maps::take_bytes;
use places::memory::{Floor, Memory};
use records::Refusal;
use slots::Slots;
use storages::{opens_storage, storage_at};
use turns::ledger::Ledger;
use turns::relations::Relations;
use turns::turn::place_one;

// How many storages were placed, and how many slots opened.
#[derive(Clone, Copy)]
pub struct Allocated {
    pub placed: usize,
    pub slots: usize,
}

// Every storage in turn, from memories in which nothing is placed yet.
pub fn place_all(
    file: &[u8],
    relations: Relations,
    memory: &mut Memory,
    ledger: &mut Ledger,
) -> Result<Allocated, Refusal>
    requires fit { (7 ≤ length file.now) × Fit file.now }
    requires begun { (ledger.old.kin ≡ replicate 512 0) × (ledger.old.records ≡ replicate 2048 0) × (ledger.old.count ≡ 0) }
    ensures { (g : Given) → Tells g relations.entry.graph.now relations.entry.copies.now → g.lo ≡ 0 → g.hi ≡ length memory.old.app.now
        → Allocates (place_from g (map stored (declared file.now)) (record { maps = record { app = memory.old.app.now; wrk = memory.old.work.now }; slots = []; placed = [] }))
        result ledger.new.records }
{
    let mut slots = Slots::new();
    // The walk goes over records by the file's own bytes.
    let mut at = 7;
    while opens_storage(tail_of(file, at)) {
        let s = storage_at(tail_of(file, at));
        memory.raise();
        let opened = place_one(&slots, s, relations, memory, ledger)?;
        if let Some(p) = opened {
            slots.open(s, p);
        }
        at += 16;
    }
    Ok(Allocated {
        placed: ledger.count,
        slots: slots.len(),
    })
}

// The placing of an accepted file, whose graph and copies stand in their rows. The application bytes below F are taken from the start.
pub fn allocate(
    file: &[u8],
    relations: Relations,
    ledger: &mut Ledger,
) -> Result<Allocated, Refusal>
    requires fit { (7 ≤ length file.now) × Fit file.now }
    requires header { header_fits (u16_at file.now 1) (u16_at file.now 3) (u16_at file.now 5) ≡ true }
    requires begun { (ledger.old.kin ≡ replicate 512 0) × (ledger.old.records ≡ replicate 2048 0) × (ledger.old.count ≡ 0) }
    ensures { (g : Given) → Tells g relations.entry.graph.now relations.entry.copies.now → g.lo ≡ 0 → g.hi ≡ u16_at file.now 1
        → Allocates (place g (u16_at file.now 1) (u16_at file.now 3) (u16_at file.now 5) (map stored (declared file.now)))
        result ledger.new.records }
{
    let mut app = [0u8; 256];
    let mut work = [0u8; 512];
    let a = u16_at(file, 1) as usize;
    let f = u16_at(file, 3) as usize;
    let w = u16_at(file, 5) as usize;
    take_bytes(&mut app, 0, f);
    let mut memory = Memory {
        app: &mut app[..a],
        work: &mut work[..w],
        floor: Floor { app: 0, work: 0 },
    };
    place_all(file, relations, &mut memory, ledger)
}
