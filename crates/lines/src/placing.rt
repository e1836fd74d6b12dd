// The lines of a placing: where each storage lies, and the counts; or the one line of a refusal.
// All of them fit in 24,000 bytes, and its contracts say what they are.
ghost use Rattle.std.specs.Prelude.{◌≡◌, ◌+◌, ◌≤◌, min, ◌++◌, length};
ghost use Rattle.arrayvec.specs.ArrayVec.{array_vec_len};
ghost use Rattle.lines.specs.Text.{space, decimal};
ghost use Rattle.lines.specs.Placed.{word_in, place_line, place_lines, counts_line, placed_text, refused_text};

use crate::answer::put_refusal;
use crate::text::{put, put_number};
use arrayvec::ArrayVec;
use fields::bytes::{tail_of, u16_at};
use records::Refusal;

// The placing stands in a report, where words say what a line is, or alone.
#[derive(Clone, Copy)]
pub enum Setting {
    InReport,
    Alone,
}

impl Setting {
    // The word that stands in this setting.
    fn word<'a>(self, in_report: &'a [u8], alone: &'a [u8]) -> &'a [u8]
        requires { (length in_report.now ≤ 8) × (length alone.now ≤ 8) }
        ensures short { length result.now ≤ 8 }
        ensures chosen { result.now ≡ word_in self in_report.now alone.now }
    {
        match self {
            Setting::InReport => in_report,
            Setting::Alone => alone,
        }
    }
}

// The lines of a file that was placed: one for each storage, then the counts, which are three numbers here since this crate stands beside the allocator.
pub fn put_done<const ROOM: usize>(
    page: &mut ArrayVec<u8, ROOM>,
    bytes: &[u8; 2048],
    placed: usize,
    slots: usize,
    passes: usize,
    setting: Setting,
)
    requires { array_vec_len page.old + 24000 ≤ ROOM }
    ensures ends { array_vec_len page.new ≤ array_vec_len page.old + 24000 }
    ensures text { page.new.items ≡ page.old.items ++ placed_text setting placed slots passes bytes.now }
{
    put_places(page, bytes, placed, setting);
    put_counts(page, placed, slots, passes, setting);
}

// The line of a file that was refused.
pub fn put_refused<const ROOM: usize>(
    page: &mut ArrayVec<u8, ROOM>,
    refusal: Refusal,
    setting: Setting,
)
    requires { array_vec_len page.old + 58 ≤ ROOM }
    ensures ends { array_vec_len page.new ≤ array_vec_len page.old + 58 }
    ensures text { page.new.items ≡ page.old.items ++ refused_text setting refusal }
{
    put(page, setting.word(b"place ", b""));
    put_refusal(page, refusal);
}

// A word and, right behind it, a number.
fn put_headed<const ROOM: usize>(page: &mut ArrayVec<u8, ROOM>, word: &[u8], number: u64)
    requires { array_vec_len page.old + length word.now + 20 ≤ ROOM }
    ensures ends { array_vec_len page.new ≤ array_vec_len page.old + length word.now + 20 }
    ensures text { page.new.items ≡ page.old.items ++ word.now ++ decimal number }
{
    put(page, word);
    put_number(page, number);
}

// A line for each placed storage. The result has room for 256 of them, eight bytes each.
fn put_places<const ROOM: usize>(
    page: &mut ArrayVec<u8, ROOM>,
    bytes: &[u8; 2048],
    placed: usize,
    setting: Setting,
)
    requires { array_vec_len page.old + 23552 ≤ ROOM }
    ensures ends { array_vec_len page.new ≤ array_vec_len page.old + 23552 }
    ensures text { page.new.items ≡ page.old.items ++ place_lines setting (min placed 256) bytes.now }
{
    for i in 0..placed.min(256) {
        put_place(page, tail_of(bytes, 8 * i), setting);
    }
}

// The four numbers of a storage's result record, which stand behind its kind byte: id, code, a and b.
#[tactic(auto, unfolding(crate::specs::Placed::place_line, fields::specs::Record::u8_at))]
fn put_place<const ROOM: usize>(page: &mut ArrayVec<u8, ROOM>, tail: &[u8], setting: Setting)
    requires { (array_vec_len page.old + 92 ≤ ROOM) × (8 ≤ length tail.now) }
    ensures ends { array_vec_len page.new ≤ array_vec_len page.old + 92 }
    ensures text { page.new.items ≡ page.old.items ++ place_line setting tail.now }
{
    put_headed(page, setting.word(b"place ", b""), u16_at(tail, 1) as u64);
    put_headed(page, b" ", tail[3] as u64);
    put_headed(page, b" ", u16_at(tail, 4) as u64);
    put_headed(page, b" ", u16_at(tail, 6) as u64);
    put(page, b"\n");
}

// The last line: how many storages were placed, how many slots opened, and the passes of all
// functions.
#[tactic(auto, unfolding(crate::specs::Placed::counts_line))]
fn put_counts<const ROOM: usize>(
    page: &mut ArrayVec<u8, ROOM>,
    placed: usize,
    slots: usize,
    passes: usize,
    setting: Setting,
)
    requires { array_vec_len page.old + 85 ≤ ROOM }
    ensures ends { array_vec_len page.new ≤ array_vec_len page.old + 85 }
    ensures text { page.new.items ≡ page.old.items ++ counts_line setting placed slots passes }
{
    put_headed(page, setting.word(b"placed ", b"done "), placed as u64);
    put_headed(page, setting.word(b" slots ", b" "), slots as u64);
    put_headed(page, setting.word(b" passes ", b" "), passes as u64);
    put(page, b"\n");
}
