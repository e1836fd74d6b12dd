// What `check` answered of a file: a line for each of its units, or the one line of a refusal.
// This text comes first, and its contracts say what it is.
ghost use Rattle.std.specs.Prelude.{◌≡◌, ◌+◌, ◌≤◌, ◌++◌};
ghost use Rattle.arrayvec.specs.ArrayVec.{array_vec_len};
ghost use Rattle.lines.specs.Text.{unit_line, units_text, refusal_text, answer_text};

use crate::text::{put, put_number, put_shape};
use arrayvec::ArrayVec;
use records::Refusal;

// Puts what `check` answered.
pub fn put_answer<const ROOM: usize>(
    page: &mut ArrayVec<u8, ROOM>,
    units: &[u32; 512],
    checked: Result<usize, Refusal>,
)
    requires { array_vec_len page.old + 65536 ≤ ROOM }
    ensures { page.new.items ≡ page.old.items ++ answer_text checked units.now }
{
    match checked {
        Ok(count) => put_units(page, units, count),
        Err(refusal) => put_refusal(page, refusal),
    }
}

// A refusal is one line: its number, then its value.
#[tactic(auto, unfolding(crate::specs::Text::refusal_text))]
pub fn put_refusal<const ROOM: usize>(page: &mut ArrayVec<u8, ROOM>, refusal: Refusal)
    requires { array_vec_len page.old + 50 ≤ ROOM }
    ensures ends { array_vec_len page.new ≤ array_vec_len page.old + 50 }
    ensures text { page.new.items ≡ page.old.items ++ refusal_text refusal }
{
    put(page, b"refused ");
    put_number(page, records::number_of(refusal) as u64);
    put(page, b" ");
    put_number(page, records::value_of(refusal) as u64);
    put(page, b"\n");
}

// The count of the units on a line of its own, then a line for each of them.
#[tactic(auto, unfolding(crate::specs::Text::head_text))]
fn put_units<const ROOM: usize>(page: &mut ArrayVec<u8, ROOM>, units: &[u32; 512], count: usize)
    requires { array_vec_len page.old + 65536 ≤ ROOM }
    ensures { page.new.items ≡ page.old.items ++ units_text count units.now }
{
    put(page, b"units ");
    put_number(page, count as u64);
    put(page, b"\n");
    for (number, unit) in units[..count.min(512)].iter().enumerate() {
        put_unit(page, number, *unit);
    }
}

// One unit: its number, its shape, its storage and its offset, taken from the unit's word, which is
// shape times 16777216 plus storage times 65536 plus offset.
#[tactic(auto, unfolding(crate::specs::Text::unit_line))]
fn put_unit<const ROOM: usize>(page: &mut ArrayVec<u8, ROOM>, number: usize, unit: u32)
    requires { array_vec_len page.old + 75 ≤ ROOM }
    ensures ends { array_vec_len page.new ≤ array_vec_len page.old + 75 }
    ensures text { page.new.items ≡ page.old.items ++ unit_line number unit }
{
    put(page, b"unit ");
    put_number(page, number as u64);
    put_shape(page, unit / 16777216);
    put_number(page, (unit / 65536 % 256) as u64);
    put(page, b" ");
    put_number(page, (unit % 65536) as u64);
    put(page, b"\n");
}
