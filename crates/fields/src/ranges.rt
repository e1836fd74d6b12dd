// The ranges of the numbers in a record.
ghost use Rattle.std.specs.Prelude.{◌≡◌, ℕ, ◌<◌, ◌≤◌, ltb, leb, length};
ghost use Rattle.fields.specs.Pick.{◌and◌};
ghost use Rattle.fields.specs.Edition.{one};
ghost use Rattle.fields.specs.Fields.{instruction_fits, terminator_fits};
ghost use Rattle.fields.specs.Record.{u16_at, header_fits, fixed_fits, owner_fits, kind_fits, storage_fits, abi_fits, storage_in, abi_in};

use crate::bytes::u16_at;

// The header at the front of a tail.
#[tactic(auto, unfolding(crate::specs::Record::header_fits, crate::specs::Pick::pick))]
pub fn header_fits(tail: &[u8]) -> bool
    requires { 7 ≤ length tail.now }
    ensures { result ≡ header_fits (u16_at tail.now 1) (u16_at tail.now 3) (u16_at tail.now 5) }
{
    let application = u16_at(tail, 1);
    0 < application
        && application <= 256
        && u16_at(tail, 3) <= application
        && u16_at(tail, 5) <= 512
}

// The owner is one of 256 functions, or 65535 for the program.
#[tactic(auto, unfolding(crate::specs::Record::owner_fits, crate::specs::Pick::pick))]
fn owner_fits(owner: u16) -> bool
    ensures { result ≡ owner_fits owner }
{
    owner == 65535 || owner < 256
}

// Kind 0 is a bit, 1 a byte, 2 bytes, 3 the carry: bytes alone have a length of their own.
#[tactic(auto, unfolding(crate::specs::Record::kind_fits, crate::specs::Pick::pick))]
fn kind_fits(kind: u8, len: u16) -> bool
    ensures { result ≡ kind_fits kind len }
{
    match kind {
        2 => 0 < len,
        0 | 1 | 3 => len == 1,
        _ => false,
    }
}

// The greatest a and b of each fixed code, from 0 (none) on.
static GREATEST: [(u16, u16); 13] = [
    (0, 0),
    (0, 0),
    (0, 0),
    (255, 0),
    (255, 7),
    (511, 0),
    (511, 7),
    (511, 7),
    (5, 0),
    (255, 3),
    (511, 0),
    (0, 0),
    (255, 255),
];

fn fixed_fits(code: u8, a: u16, b: u16) -> bool
    ensures { result ≡ fixed_fits code a b }
{
    match code {
        0..=12 => {
            let (greatest_a, greatest_b) = GREATEST[code as usize];
            a <= greatest_a && b <= greatest_b
        }
        _ => false,
    }
}

// The storage at the front of a tail.
#[tactic(auto, unfolding(crate::specs::Record::u8_at, crate::specs::Record::storage_in, crate::specs::Record::storage_fits, crate::specs::Pick::pick))]
pub fn storage_fits(tail: &[u8]) -> bool
    requires { 16 ≤ length tail.now }
    ensures { result ≡ storage_fits one (storage_in tail.now) }
{
    u16_at(tail, 1) <= 255
        && owner_fits(u16_at(tail, 3))
        && kind_fits(tail[5], u16_at(tail, 6))
        && u16_at(tail, 8) < 512
        && tail[10] < 2
        && fixed_fits(tail[11], u16_at(tail, 12), u16_at(tail, 14))
}

// The ABI record at the front of a tail. A parameter (0) or a result (1) is a lane (1) or a bit (2), what is clobbered (2) an object (3).
// A lane alone has an offset.
#[tactic(auto, unfolding(crate::specs::Record::u8_at, crate::specs::Record::abi_in, crate::specs::Record::abi_fits, crate::specs::Pick::pick))]
pub fn abi_fits(tail: &[u8]) -> bool
    requires { 7 ≤ length tail.now }
    ensures { result ≡ abi_fits (abi_in tail.now) }
{
    match (tail[1], tail[2]) {
        (0 | 1, 1) => true,
        (0 | 1, 2) | (2, 3) => u16_at(tail, 5) == 0,
        _ => false,
    }
}

// An operation, its sub and its callee: FunctionAddress (17) and Call (27) alone have a callee, IntegerBinaryBytes (26) alone a sub.
#[tactic(auto, unfolding(crate::specs::Fields::instruction_fits, crate::specs::Pick::pick))]
pub fn instruction_fits(op: u8, sub: u8, callee: u8) -> bool
    ensures { result ≡ instruction_fits op sub callee }
{
    match op {
        17 | 27 => sub == 0,
        26 => sub < 9 && callee == 0,
        0..=29 => sub == 0 && callee == 0,
        _ => false,
    }
}

// A terminator's operation, its sub and its callee: TailCall (3) alone has a callee, Branch (1) alone a sub.
#[tactic(auto, unfolding(crate::specs::Fields::terminator_fits, crate::specs::Pick::pick))]
pub fn terminator_fits(op: u8, sub: u8, callee: u8) -> bool
    ensures { result ≡ terminator_fits op sub callee }
{
    match op {
        1 => sub < 8 && callee == 0,
        3 => sub == 0,
        0..=7 => sub == 0 && callee == 0,
        _ => false,
    }
}
