// The head of a step's record, the four bytes before its operands.
ghost use Rattle.std.specs.Prelude.{◌≡◌, ◌≤◌, eqb, length};
ghost use Rattle.fields.specs.Record.{u8_at};

// Whether the step ends its block, what it does by which variant, and the function that it calls.
#[derive(Clone, Copy)]
pub struct Head {
    pub ends: bool,
    pub op: u8,
    pub sub: u8,
    pub callee: u8,
}

// The head of the step whose record stands at the front of a tail.
#[tactic(auto, unfolding(fields::specs::Record::u8_at))]
pub fn head_of(tail: &[u8]) -> Head
    requires { 4 ≤ length tail.now }
    ensures ends { result.ends ≡ eqb (u8_at tail.now 0) 7 }
    ensures op { result.op ≡ u8_at tail.now 1 }
    ensures sub { result.sub ≡ u8_at tail.now 2 }
    ensures callee { result.callee ≡ u8_at tail.now 3 }
{
    Head {
        ends: tail[0] == 7,
        op: tail[1],
        sub: tail[2],
        callee: tail[3],
    }
}
