// Numbers in bytes, and the part of the file from a record's start onward.
ghost use Rattle.std.specs.Prelude.{◌≡◌, ◌+◌, ◌<◌, ◌≤◌, ◌↔◌, ◌⊎◌, length, drop, IfSome, IsNone};
ghost use Rattle.fields.specs.Edition.{one};
ghost use Rattle.fields.specs.Record.{u8_at, u16_at, length_of};

// The little-endian number at byte `i` of a tail.
#[tactic(auto, unfolding(crate::specs::Record::u16_at))]
pub fn u16_at(tail: &[u8], i: usize) -> u16
    requires { i + 1 < length tail.now }
    ensures { result ≡ u16_at tail.now i }
{
    u16::from_le_bytes([tail[i], tail[i + 1]])
}

// The part of the file from a record's start onward.
pub fn tail_of(file: &[u8], at: usize) -> &[u8]
    requires { at ≤ length file.now }
    ensures { (result.now ≡ drop at file.now) × (at + length result.now ≡ length file.now) }
{
    &file[at..]
}

// How long a record is, with its kind byte; 0 for a number that is no kind, as the definition has it. `whole_record` says None there.
#[tactic(auto, unfolding(crate::specs::Record::length_of, crate::specs::Record::lengths, crate::specs::Pick::pick))]
pub fn length_of(kind: u8) -> usize
    ensures { result ≡ length_of one kind }
{
    match kind {
        0 => 7,
        1 => 16,
        2 => 2,
        3 => 7,
        4 => 3,
        5 => 4,
        6 => 7,
        7 => 4,
        8 => 3,
        9 => 1,
        _ => 0,
    }
}

// How long the record at the front of a tail is, if one stands there whole: its kind is one of the ten, and its last byte is there.
#[tactic(auto, unfolding(crate::specs::Record::u8_at))]
pub fn whole_record(tail: &[u8]) -> Option<usize>
    ensures whole { IfSome result (λ len. (0 < len) × (len ≤ length tail.now) × (len ≡ length_of one (u8_at tail.now 0))) }
    ensures cut { IsNone result ↔ ((length_of one (u8_at tail.now 0) ≡ 0) ⊎ (length tail.now < length_of one (u8_at tail.now 0))) }
{
    let len = length_of(*tail.first()?);
    if len == 0 || tail.len() < len {
        return None;
    }
    Some(len)
}
