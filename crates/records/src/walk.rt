// The whole file, record by record from the front.
ghost use Rattle.std.specs.Prelude.{◌≡◌, ◌≤◌, [], length};
ghost use Rattle.fields.specs.Edition.{one};
ghost use Rattle.records.specs.Check.{check, numbers as numbers_in};
ghost use Rattle.records.specs.Index.{bare, tabled};
ghost use Rattle.records.specs.Outcome.{laid};
ghost use Rattle.records.specs.Mirror.{Walked};

use crate::Refusal;
use crate::notes::Notes;
use crate::reader::{Stage, start_reading};
use fields::bytes::{tail_of, whole_record};

// What the file comes to once all of it is read.
pub fn walk(
    file: &[u8],
    words: &mut [u32],
    numbers: &mut [u16],
    table: &mut [u16],
) -> Result<usize, Refusal>
    requires { (length file.now ≤ 16384) × (words.old ≡ laid 512 [] []) × (2341 ≤ length numbers.old) × (table.old ≡ bare) }
    ensures { Walked (check one file.now) result words.new numbers.new (numbers_in one file.now) table.new (tabled one file.now) }
{
    let mut notes = Notes {
        ids: [0; 4],
        blocks: [0; 128],
        heads: [0; 256],
        nexts: [0; 512],
        words,
        table,
        numbers,
    };
    let mut c = start_reading();
    let mut at = 0;
    while at < file.len() {
        let tail = tail_of(file, at);
        let Some(len) = whole_record(tail) else {
            return Err(Refusal::Form(at));
        };
        c = notes.step_on(c, tail[0], tail, at)?;
        at += len;
    }
    if c.stage == Stage::AtEnd {
        return Ok(c.units);
    }
    Err(Refusal::Form(at))
}
