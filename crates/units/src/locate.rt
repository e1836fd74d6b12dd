// The step at a place, with the function that it stands in.
ghost use Rattle.std.specs.Prelude.{◌≡◌, List, ℕ, ◌≤◌, eqb, length};
ghost use Rattle.fields.specs.Pick.{◌or◌};
ghost use Rattle.fields.specs.Edition.{one};
ghost use Rattle.records.specs.Check.{units, check};
ghost use Rattle.units.specs.Along.{Locates, SoundBoth};

use crate::cursor::{Cursor, brings};
use fields::bytes::{tail_of, whole_record};

// Where a step stands: the cursor behind its function's record, and the one at the step.
#[derive(Clone, Copy)]
pub struct Site {
    pub own: Cursor,
    pub here: Cursor,
}

// Kinds 5 and 7 begin a step.
#[tactic(auto, unfolding(fields::specs::Pick::pick))]
fn begins_step(kind: u8) -> bool
    ensures { result ≡ (eqb kind 5 or eqb kind 7) }
{
    matches!(kind, 5 | 7)
}

// Walks the records from the front to the place asked. None where no step begins there.
pub fn locate(file: &[u8], place: usize) -> Option<Site>
    requires { length file.now ≤ 16384 }
    ensures { SoundBoth file.now result × ((us : List ℕ) → check one file.now ≡ units us → Locates file.now place result) }
{
    let mut own = Cursor { at: 0, k: 0 };
    let mut here = own;
    while let Some(len) = whole_record(tail_of(file, here.at)) {
        let kind = file[here.at];
        if here.at == place {
            return begins_step(kind).then_some(Site { own, here });
        }
        here = Cursor {
            at: here.at + len,
            k: here.k + brings(kind),
        };
        if kind == 2 {
            own = here;
        }
    }
    None
}
