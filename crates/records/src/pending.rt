// What is open: the instruction or terminator that operands and targets go to.
ghost use Rattle.std.specs.Prelude.{◌≡◌, List, ◌+◌, ◌-◌, ◌<◌, ◌≤◌, eqb, length};
ghost use Rattle.fields.specs.Pick.{pick};
ghost use Rattle.fields.specs.Fields.{Field};
ghost use Rattle.fields.specs.Record.{operand_in};
ghost use Rattle.records.specs.Step.{Opened, nothing, opened, with_given, with_target, last_field, operand_fits, finished};
ghost use Rattle.fields.specs.Table.{entry_of, lacks_in};
ghost use Rattle.records.specs.Mirror.{Rising, pending_of};

use fields::bytes::u16_at;
use fields::table::{field_in, operand_fits};

// Its place, its fields, the field of its last operand with how many it has, how many operands are missing, and its targets: the least, the most,
// and those that are there.
#[derive(Clone, Copy)]
pub struct Pending {
    pub place: usize,
    pub row: u64,
    pub field: u8,
    pub seen: u8,
    pub lacks: u8,
    pub least: u16,
    pub most: u16,
    pub targets: u16,
}

#[tactic(auto, unfolding(fields::specs::Table::row_word, fields::specs::Pick::times, fields::specs::Fields::missing, crate::specs::Step::last_field, crate::specs::Mirror::seen))]
pub fn nothing_open() -> Pending
    ensures { result ≡ pending_of nothing }
{
    Pending {
        place: 0,
        row: 0,
        field: 0,
        seen: 0,
        lacks: 0,
        least: 0,
        most: 0,
        targets: 0,
    }
}

// The highest byte of a table's entry says how many operands are missing at first.
const ABOVE: u64 = 0x0100_0000_0000_0000;

#[tactic(auto, using(crate::proofs::Pendings::open_of))]
pub fn open_at(at: usize, entry: u64, least: u16, most: u16) -> Pending
    ensures { (row : List Field) → entry ≡ entry_of row → length row ≤ 6 → result ≡ pending_of (opened at row least most) }
{
    Pending {
        place: at,
        row: entry % ABOVE,
        field: 0,
        seen: 0,
        lacks: (entry / ABOVE) as u8,
        least,
        most,
        targets: 0,
    }
}

// How many operands the field of a number has: what the last field has, and none above it.
#[tactic(auto, using(fields::specs::Pick::tests))]
fn seen_in(o: Pending, field: u8) -> u8
    ensures { result ≡ pick (eqb field o.field) o.seen 0 }
{
    if field == o.field { o.seen } else { 0 }
}

// The operand at the front of a tail fits.
#[tactic(auto, using(crate::proofs::Pendings::fits_in))]
pub fn operand_fits_in(o: Pending, tail: &[u8]) -> bool
    requires { 7 ≤ length tail.now }
    ensures { (x : Opened) → o ≡ pending_of x → Rising x.given → result ≡ operand_fits x.row x.given (operand_in tail.now) }
{
    let field = tail[1];
    operand_fits(
        field_in(o.row, field),
        o.field,
        seen_in(o, field),
        field,
        tail[2],
        u16_at(tail, 3),
        u16_at(tail, 5),
    )
}

// What is missing after an operand of the field `b`, which had `n` before: the one that must be there is missing no more, and of none or two the
// first makes the second missing.
#[tactic(auto, unfolding(fields::specs::Table::lacks_in, fields::specs::Pick::pick))]
fn lacks_after(lacks: u8, b: u8, n: u8) -> u8
    requires { (lacks ≤ 6) × (n ≤ 16) }
    ensures { result ≡ lacks + lacks_in b (n + 1) - lacks_in b n }
{
    match (b / 8 % 4, n) {
        (0, 0) if b != 0 => lacks.saturating_sub(1),
        (3, 0) => lacks + 1,
        (3, 1) => lacks.saturating_sub(1),
        _ => lacks,
    }
}

// One operand more, of a field that is no lower than the last.
#[tactic(auto, using(crate::proofs::Pendings::given_of))]
pub fn with_given(o: Pending, field: u8) -> Pending
    requires { (o.seen ≤ 16) × (o.lacks ≤ 6) }
    ensures { (x : Opened) → o ≡ pending_of x → Rising x.given → last_field x.given ≤ field → field < length x.row
        → result ≡ pending_of (with_given field x) }
{
    let b = field_in(o.row, field);
    let n = seen_in(o, field);
    Pending {
        field,
        seen: n + 1,
        lacks: lacks_after(o.lacks, b, n),
        ..o
    }
}

// One target more.
#[tactic(auto, using(crate::proofs::Pendings::target_of))]
pub fn with_target(o: Pending) -> Pending
    requires { o.targets < o.most }
    ensures { (x : Opened) → o ≡ pending_of x → result ≡ pending_of (with_target x) }
{
    Pending {
        targets: o.targets + 1,
        ..o
    }
}

// No operand and no target is missing.
#[tactic(auto, using(crate::proofs::Pendings::finished_of, crate::proofs::Pendings::finished_not))]
pub fn is_finished(o: Pending) -> bool
    ensures { (x : Opened) → o ≡ pending_of x → result ≡ finished x }
{
    o.lacks == 0 && o.least <= o.targets
}
