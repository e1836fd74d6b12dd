// A cursor over the records, and how a record moves it on.
ghost use Rattle.std.specs.Prelude.{◌≡◌};
ghost use Rattle.units.specs.Along.{brought_by};

// A place in the file, and how many unit numbers come before it. That these fit before it (`Sound`) is no ghost field, since the definitions build
// cursors from tables of which nothing is known.
#[derive(Clone, Copy)]
pub struct Cursor {
    pub at: usize,
    pub k: usize,
}

// How many unit numbers a record of this kind brings.
#[tactic(auto, unfolding(fields::specs::Pick::pick))]
pub fn brings(kind: u8) -> usize
    ensures { result ≡ brought_by kind }
{
    match kind {
        3 | 6 => 1,
        _ => 0,
    }
}
