// Live sets of a function.
// Knows what each step reads and writes; gives live-in and live-out of each block, and the passes that it took to settle them.
#![tactic(auto)]

pub mod survey;

ghost use Rattle.std.specs.Prelude.{◌≡◌, ℕ, ◌<◌, get_or, length};
ghost use mathlib.Core.List.{List, [], Memᴰ};
ghost use Rattle.fields.specs.Edition.{one};
ghost use Rattle.records.specs.Outcome.{laid};
ghost use Rattle.records.specs.Program.{Function, program};
ghost use Rattle.units.specs.Along.{from, StandsAt, Sound, Sane, Ready};
ghost use Rattle.units.specs.Uses.{lookup};
ghost use Rattle.passes.specs.Passes.{blank};
ghost use Rattle.liveness.specs.Settle.{liveness};
ghost use Rattle.liveness.specs.Walks.{Owned};
ghost use Rattle.liveness.specs.Lives.{live_words, lived_by, LivesIn, Lives};

use crate::survey::{Findings, survey};
use passes::settle;
use records::{Refusal, number_units};
use units::cursor::Cursor;
use units::numbered::Numbered;

// What the table of functions has for a number of no function. The table is lent as bare numbers, and `Owned` speaks of them.
const NONE: usize = 65535;

// The cursor behind the record of a function; its place is NONE where there is no such function.
fn own_of(table: &[u16], number: usize) -> Cursor
    requires { Sane table.now }
    ensures { Owned table.now number result }
{
    if 256 <= number {
        return Cursor { at: NONE, k: 0 };
    }
    Cursor {
        at: table[number] as usize,
        k: table[256 + number] as usize,
    }
}

// The live sets of the function whose records begin at `own`, in words that are 0 at first. Answers how many passes they took.
fn passes_of(source: Numbered, own: Cursor, live: &mut [u64]) -> usize
    requires { Sound own × (live.old ≡ blank 2048) }
    ensures { let f = source.entry.file.now in (us : List ℕ) (fn : Function) → Ready f us source.entry.numbers.now source.entry.table.now
        → StandsAt f own → Memᴰ fn (program one f).functions → fn.abis ≡ (from f own.at).abis → fn.blocks ≡ (from f own.at).blocks
        → (result ≡ (liveness one (program one f) fn).passes) × (live.new ≡ live_words one us (liveness one (program one f) fn).sets) }
{
    let mut findings = Findings::new();
    let s = survey(source, own, &mut findings);
    settle(live, &findings.blocks(s.blocks))
}

// The live sets of a function of a file whose units are numbered.
fn live_of(
    source: Numbered,
    number: usize,
    units: &mut [u32],
    live: &mut [u64],
) -> Result<usize, Refusal>
    requires { (length units.old ≡ 512) × (live.old ≡ blank 2048) }
    ensures { let f = source.entry.file.now in (us : List ℕ) → ((i : ℕ) → get_or f i 0 < 256) → Ready f us source.entry.numbers.now source.entry.table.now
        → units.old ≡ laid 512 us []
        → record { answer = result; units = units.new; live = live.new } ≡ lived_by one f number us [] [] (lookup (program one f).functions number) }
{
    let own = own_of(source.table, number);
    if own.at == NONE {
        records::clear(units);
        return Err(Refusal::Absent(number));
    }
    Ok(passes_of(source, own, live))
}

// The same of a file that is not checked yet.
fn live_in(
    file: &[u8],
    number: usize,
    units: &mut [u32],
    live: &mut [u64],
) -> Result<usize, Refusal>
    requires { (length units.old ≡ 512) × (length live.old ≡ 2048) }
    ensures { LivesIn file.now number result units.new live.new }
{
    rows::clear(live, 0, 2048);
    let mut numbers = [0u16; 2341];
    let mut table = [0u16; 512];
    number_units(file, units, &mut numbers, &mut table)?;
    let source = Numbered {
        file,
        numbers: &numbers,
        table: &table,
    };
    live_of(source, number, units, live)
}

// Live-in and live-out of every block of a function, as rows of units, and how many passes they took; `units` then holds the file's units by number.
pub fn live(
    file: &[u8],
    number: usize,
    units: &mut [u32],
    live: &mut [u64],
) -> Result<usize, Refusal>
    ensures { Lives file.now number units.old live.old result units.new live.new }
{
    if units.len() < 512 || live.len() < 2048 {
        return Err(Refusal::Short);
    }
    live_in(file, number, &mut units[..512], &mut live[..2048])
}
