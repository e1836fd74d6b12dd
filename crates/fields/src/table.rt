// The fields of the operations and terminators, and what a field takes.
ghost use Rattle.std.specs.Prelude.{◌≡◌, [], ◌/◌, ◌%◌, ◌^◌, ltb, leb, eqb, get_or};
ghost use Rattle.fields.specs.Pick.{◌and◌, ◌or◌};
ghost use Rattle.fields.specs.Fields.{fields_of, branch_fields, end_fields_of, least_targets, most_targets, well_formed};
ghost use Rattle.fields.specs.Table.{entry_of, most_in, takes_in, greatest_in};

// A row for each operation, then for each branch and for Switch. A field is a byte: its class, 8 times its count (one, at most one, up to 16, none
// or two), 32 if written, 64 if read. The highest byte of a row says how many operands there must be.
// It is a static, so that a number indexes it where it stands.
static TABLE: [u64; 39] = [
    0x0200000000004221, // 0 CopyByte
    0x0200000000004423, // 1 CopyBit
    0x0100000000000023, // 2 SetBit
    0x0100000000000023, // 3 ClearBit
    0x0100000000000063, // 4 ToggleBit, also read
    0x0200000000004221, // 5 ByteUnary
    0x0300000000424221, // 6 ByteBinary
    0x0300004b42422b21, // 7 Add
    0x0300004b42422b21, // 8 Subtract
    0x0600424242212121, // 9 Multiply
    0x0600424242212121, // 10 Divide
    0x020000004b422b21, // 11 Rotate
    0x0100000000005221, // 12 LoadIndirect
    0x0100000000004252, // 13 StoreIndirect
    0x0100000000000042, // 14 Push
    0x0100000000000021, // 15 Pop
    0x0300000000472121, // 16 AddressOf
    0x0200000000002121, // 17 FunctionAddress
    0x0000000000525231, // 18 ShiftBytes
    0x0100000000525223, // 19 CompareBytes
    0x0400000042424421, // 20 SelectByte
    0x0400000044444423, // 21 SelectBit
    0x0200000000004421, // 22 BitToByte
    0x0200000000004223, // 23 ByteToBit
    0x0000000000005231, // 24 SignExtend
    0x0000000000005231, // 25 IntegerUnaryBytes
    0x0000000000525231, // 26 IntegerBinaryBytes
    0x0000000000000000, // 27 Call
    0x00000000555a3735, // 28 CallIndirect
    0x0000000000005635, // 29 Intrinsic
    0x0100000000000043, // Branch 0
    0x0100000000000043, // Branch 1
    0x0100000000000042, // Branch 2
    0x0100000000000042, // Branch 3
    0x0100000000000043, // Branch 4
    0x0100000000000043, // Branch 5
    0x0200000000004242, // Branch 6
    0x0200000000004242, // Branch 7
    0x0000000000000052, // Switch
];

// The entry of an operation, 0 where there is none: the entry of a step without fields, which takes no operand.
pub fn entry_of(op: u8) -> u64
    ensures { result ≡ entry_of (fields_of op) }
{
    match op {
        0..=29 => TABLE[op as usize],
        _ => 0,
    }
}

// The entry of a branch.
fn branch_entry(sub: u8) -> u64
    ensures { result ≡ entry_of (get_or branch_fields sub []) }
{
    match sub {
        0..=7 => TABLE[30 + sub as usize],
        _ => 0,
    }
}

// The entry of a terminator.
#[tactic(auto, using(crate::proofs::TableLaws::entry_none, crate::proofs::TableLaws::entry_switch), unfolding(crate::specs::Pick::pick, crate::specs::Fields::end_fields_of))]
pub fn end_entry_of(op: u8, sub: u8) -> u64
    ensures { result ≡ entry_of (end_fields_of op sub) }
{
    match op {
        1 => branch_entry(sub),
        2 => TABLE[38],
        4 => entry_of(28),
        _ => 0,
    }
}

// How many targets a terminator takes: at least, and at most.
#[tactic(auto, unfolding(crate::specs::Fields::least_targets, crate::specs::Fields::most_targets))]
pub fn targets_of(op: u8) -> (u16, u16)
    ensures least { result.0 ≡ least_targets op }
    ensures most { result.1 ≡ most_targets op }
{
    match op {
        0 => (1, 1),
        1 => (2, 2),
        2 => (1, 256),
        _ => (0, 0),
    }
}

// The field of a number, 0 past the row, which takes no operand. A shift keeps the row in a register, where an array of its bytes would be stored first.
#[tactic(auto, using(crate::proofs::TableLaws::byte_shifted, crate::proofs::TableLaws::byte_past))]
pub fn field_in(row: u64, field: u8) -> u8
    ensures { result ≡ row / 256 ^ field % 256 }
{
    if 8 <= field {
        return 0;
    }
    ((row >> (8 * field as u64)) % 256) as u8
}

// How many operands a field takes at most.
#[tactic(auto, unfolding(crate::specs::Table::most_in, crate::specs::Pick::pick))]
fn most_in(b: u8) -> u8
    ensures { result ≡ most_in b }
{
    match (b, b / 8 % 4) {
        (0, _) => 0,
        (_, 2) => 16,
        (_, 3) => 2,
        _ => 1,
    }
}

// The shapes that a class takes: 0 immediate, 1 lane, 2 bit, 3 object.
#[tactic(auto, unfolding(crate::specs::Table::takes_in, crate::specs::Pick::pick))]
fn takes_in(class: u8, shape: u8) -> bool
    ensures { result ≡ takes_in class shape }
{
    match class {
        1 => shape == 1,
        2 => matches!(shape, 0 | 1),
        3 => shape == 2,
        4 => matches!(shape, 0 | 2),
        5 => matches!(shape, 1 | 2),
        6 => matches!(shape, 0 | 1 | 2),
        _ => shape == 3,
    }
}

// The greatest immediate of a class.
#[tactic(auto, unfolding(crate::specs::Table::greatest_in, crate::specs::Pick::pick))]
fn greatest_in(class: u8) -> u16
    ensures { result ≡ greatest_in class }
{
    if class == 4 { 1 } else { 255 }
}

// An immediate has id 0 and its value for offset, at most `top`; a lane has any offset, a bit and an object none.
#[tactic(auto, unfolding(crate::specs::Fields::well_formed, crate::specs::Pick::pick))]
fn well_formed(top: u16, shape: u8, id: u16, offset: u16) -> bool
    ensures { result ≡ well_formed top shape id offset }
{
    match shape {
        0 => id == 0 && offset <= top,
        1 => true,
        _ => offset == 0,
    }
}

// An operand fits the field `b`, after `n` operands of that field, where `last` is the last field so far.
#[tactic(auto, unfolding(crate::specs::Pick::pick))]
pub fn operand_fits(b: u8, last: u8, n: u8, field: u8, shape: u8, id: u16, offset: u16) -> bool
    ensures { result ≡ (leb last field and (ltb n (most_in b) and (takes_in (b % 8) shape and well_formed (greatest_in (b % 8)) shape id offset))) }
{
    last <= field
        && n < most_in(b)
        && takes_in(b % 8, shape)
        && well_formed(greatest_in(b % 8), shape, id, offset)
}
