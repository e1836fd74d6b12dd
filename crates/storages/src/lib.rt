// A storage record as a value, and where one may lie.
// Knows records; gives a storage with its fixed place as a choice inside it, the codes of placements, and the room that a placement takes.
#![tactic(auto)]

ghost use Rattle.std.specs.Prelude.{◌≡◌, ◌≤◌, ◌<◌, length};
ghost use Rattle.fields.specs.Record.{storage_in};
ghost use Rattle.storages.specs.Placement.{code_of, a_of, b_of, region_of, fixed_at};
ghost use Rattle.storages.specs.Storage.{stored, allows, is_free, is_bit, tries, bit_code, bytes_code, kind_matches, alone};
ghost use Rattle.storages.specs.Room.{room};
ghost use Rattle.storages.specs.File.{opens_storage};

use fields::bytes::u16_at;

// Where a storage lies, as PhysicalPlacement has it. Offsets, bits and registers are carried as a record has them.
#[derive(Clone, Copy)]
pub enum Placement {
    Accumulator,
    CarryFlag,
    ApplicationRam { offset: u16 },
    ApplicationBit { offset: u16, bit: u16 },
    ShadowStack { offset: u16 },
    ShadowStackBit { offset: u16, bit: u16 },
    WorkRamBit { offset: u16, bit: u16 },
    SpecialRegister(u16),
    IndirectRegister { bank: u16, register: u16 },
    WorkRam { offset: u16 },
    Flash,
    XRam { bank: u16, offset: u16 },
}

// A storage record. One without a fixed place is free to be placed.
// Its kind stays the record's number, by which slots are compared: the laws of placing speak of it.
#[derive(Clone, Copy)]
pub struct Storage {
    pub id: u16,
    pub owner: u16,
    pub kind: u8,
    pub len: u16,
    pub regions: u16,
    pub direct: bool,
    pub fixed: Option<Placement>,
}

// The two memories that are shared out: application RAM, and work RAM, in which shadow and work places both lie.
#[derive(Clone, Copy)]
pub enum Space {
    App,
    Work,
}

// What a placement takes: nothing, whole bytes, or one bit.
#[derive(Clone, Copy)]
pub enum Room {
    Nowhere,
    Bytes {
        space: Space,
        offset: u16,
        count: u16,
    },
    OneBit {
        space: Space,
        offset: u16,
        bit: u16,
    },
}

// The code of a placement.
pub fn code_of(p: Placement) -> u8
    ensures { result ≡ code_of p }
{
    match p {
        Placement::Accumulator => 1,
        Placement::CarryFlag => 2,
        Placement::ApplicationRam { .. } => 3,
        Placement::ApplicationBit { .. } => 4,
        Placement::ShadowStack { .. } => 5,
        Placement::ShadowStackBit { .. } => 6,
        Placement::WorkRamBit { .. } => 7,
        Placement::SpecialRegister(_) => 8,
        Placement::IndirectRegister { .. } => 9,
        Placement::WorkRam { .. } => 10,
        Placement::Flash => 11,
        Placement::XRam { .. } => 12,
    }
}

// Its first number, a.
pub fn a_of(p: Placement) -> u16
    ensures { result ≡ a_of p }
{
    match p {
        Placement::Accumulator | Placement::CarryFlag | Placement::Flash => 0,
        Placement::SpecialRegister(register) => register,
        Placement::IndirectRegister { bank, .. } | Placement::XRam { bank, .. } => bank,
        Placement::ApplicationRam { offset }
        | Placement::ApplicationBit { offset, .. }
        | Placement::ShadowStack { offset }
        | Placement::ShadowStackBit { offset, .. }
        | Placement::WorkRamBit { offset, .. }
        | Placement::WorkRam { offset } => offset,
    }
}

// Its second number, b.
pub fn b_of(p: Placement) -> u16
    ensures { result ≡ b_of p }
{
    match p {
        Placement::ApplicationBit { bit, .. }
        | Placement::ShadowStackBit { bit, .. }
        | Placement::WorkRamBit { bit, .. } => bit,
        Placement::IndirectRegister { register, .. } => register,
        Placement::XRam { offset, .. } => offset,
        _ => 0,
    }
}

// The number of the region in which a placement lies.
pub fn region_of(p: Placement) -> u16
    ensures { (result ≡ region_of p) × (result < 16) }
{
    match p {
        Placement::Accumulator => 0,
        Placement::CarryFlag => 1,
        Placement::ApplicationRam { .. } | Placement::ApplicationBit { .. } => 2,
        Placement::SpecialRegister(_) => 3,
        Placement::IndirectRegister { .. } => 4,
        Placement::ShadowStack { .. } | Placement::ShadowStackBit { .. } => 5,
        Placement::WorkRamBit { .. } | Placement::WorkRam { .. } => 6,
        Placement::Flash => 7,
        Placement::XRam { .. } => 8,
    }
}

// What a fixed code and its numbers say.
#[tactic(auto, unfolding(crate::specs::Placement::fixed_at, fields::specs::Pick::pick))]
pub fn fixed_at(code: u8, a: u16, b: u16) -> Option<Placement>
    ensures { result ≡ fixed_at code a b }
{
    match code {
        1 => Some(Placement::Accumulator),
        2 => Some(Placement::CarryFlag),
        3 => Some(Placement::ApplicationRam { offset: a }),
        4 => Some(Placement::ApplicationBit { offset: a, bit: b }),
        5 => Some(Placement::ShadowStack { offset: a }),
        6 => Some(Placement::ShadowStackBit { offset: a, bit: b }),
        7 => Some(Placement::WorkRamBit { offset: a, bit: b }),
        8 => Some(Placement::SpecialRegister(a)),
        9 => Some(Placement::IndirectRegister {
            bank: a,
            register: b,
        }),
        10 => Some(Placement::WorkRam { offset: a }),
        11 => Some(Placement::Flash),
        12 => Some(Placement::XRam { bank: a, offset: b }),
        _ => None,
    }
}

// The room that a placement takes for n bytes: shadow and work places lie in one memory, and what is no RAM takes none.
pub fn room_of(n: u16, p: Placement) -> Room
    ensures { result ≡ room n p }
{
    match p {
        Placement::ApplicationRam { offset } => Room::Bytes {
            space: Space::App,
            offset,
            count: n,
        },
        Placement::ApplicationBit { offset, bit } => Room::OneBit {
            space: Space::App,
            offset,
            bit,
        },
        Placement::ShadowStack { offset } | Placement::WorkRam { offset } => Room::Bytes {
            space: Space::Work,
            offset,
            count: n,
        },
        Placement::ShadowStackBit { offset, bit } | Placement::WorkRamBit { offset, bit } =>
            Room::OneBit {
                space: Space::Work,
                offset,
                bit,
            },
        _ => Room::Nowhere,
    }
}

// May n bytes lie there? XRam holds one byte only.
pub fn is_alone(n: u16, p: Placement) -> bool
    ensures { result ≡ alone n p }
{
    match p {
        Placement::XRam { .. } => n == 1,
        _ => true,
    }
}

// Does a storage allow a region?
#[tactic(auto, unfolding(crate::specs::Storage::allows, rows::specs::Row::bit, rows::specs::Row::digit))]
pub fn allows_region(s: Storage, region: u16) -> bool
    requires { region < 16 }
    ensures { result ≡ allows s region }
{
    (s.regions >> region) % 2 == 1
}

// Does a kind take one bit?
#[tactic(auto, unfolding(crate::specs::Storage::is_bit, fields::specs::Pick::pick))]
pub fn takes_bit(kind: u8) -> bool
    ensures { result ≡ is_bit kind }
{
    matches!(kind, 0 | 3)
}

// May a storage share a slot?
#[tactic(auto, unfolding(crate::specs::Storage::tries, fields::specs::Pick::pick))]
pub fn tries_slots(s: Storage) -> bool
    ensures { result ≡ tries s }
{
    s.fixed.is_none() && s.owner != 65535 && s.kind != 3
}

// Does a code hold one bit?
#[tactic(auto, unfolding(crate::specs::Storage::bit_code, fields::specs::Pick::pick))]
fn is_bit_code(code: u8) -> bool
    ensures { result ≡ bit_code code }
{
    matches!(code, 2 | 4 | 6 | 7)
}

// Does a code hold a stretch of bytes?
#[tactic(auto, unfolding(crate::specs::Storage::bytes_code, fields::specs::Pick::pick))]
fn is_bytes_code(code: u8) -> bool
    ensures { result ≡ bytes_code code }
{
    matches!(code, 3 | 5 | 10..)
}

// May a storage of this kind and length be fixed at a placement with this code?
#[tactic(auto, unfolding(crate::specs::Storage::kind_matches, fields::specs::Pick::pick))]
pub fn kind_matches(kind: u8, n: u16, code: u8) -> bool
    ensures { result ≡ kind_matches kind n code }
{
    if takes_bit(kind) {
        is_bit_code(code)
    } else if kind == 1 {
        !is_bit_code(code)
    } else {
        n == 1 || is_bytes_code(code)
    }
}

// Does a storage record stand at the front of a tail?
#[tactic(auto, unfolding(crate::specs::File::opens_storage, fields::specs::Record::u8_at, fields::specs::Pick::pick))]
pub fn opens_storage(tail: &[u8]) -> bool
    ensures { result ≡ opens_storage tail.now }
{
    16 <= tail.len() && tail[0] == 1
}

// The storage whose record stands at the front of a tail.
#[tactic(auto, unfolding(crate::specs::Storage::stored, fields::specs::Record::storage_in, fields::specs::Record::u8_at))]
pub fn storage_at(tail: &[u8]) -> Storage
    requires { 16 ≤ length tail.now }
    ensures { result ≡ stored (storage_in tail.now) }
{
    Storage {
        id: u16_at(tail, 1),
        owner: u16_at(tail, 3),
        kind: tail[5],
        len: u16_at(tail, 6),
        regions: u16_at(tail, 8),
        direct: tail[10] == 1,
        fixed: fixed_at(tail[11], u16_at(tail, 12), u16_at(tail, 14)),
    }
}
