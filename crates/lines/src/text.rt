// Words and numbers on a page of text. A page is a vector of bytes whose room is fixed, and each
// function puts its text at the end.
ghost use Rattle.std.specs.Prelude.{◌≡◌, ◌+◌, ◌≤◌, ◌++◌, length};
ghost use Rattle.arrayvec.specs.ArrayVec.{array_vec_len};
ghost use Rattle.lines.specs.Text.{decimal, shape_text};

use arrayvec::ArrayVec;

// Puts the bytes of `word`. There is room, so the vector takes all of them.
pub fn put<const ROOM: usize>(page: &mut ArrayVec<u8, ROOM>, word: &[u8])
    requires { array_vec_len page.old + length word.now ≤ ROOM }
    ensures { page.new.items ≡ page.old.items ++ word.now }
{
    let _ = page.try_extend_from_slice(word);
}

// Puts a number in decimal, which takes at most 20 digits.
#[tactic(auto, using(crate::proofs::Decimal::std_decimal))]
pub fn put_number<const ROOM: usize>(page: &mut ArrayVec<u8, ROOM>, number: u64)
    requires { array_vec_len page.old + 20 ≤ ROOM }
    ensures ends { array_vec_len page.new ≤ array_vec_len page.old + 20 }
    ensures text { page.new.items ≡ page.old.items ++ decimal number }
{
    let mut digits = itoa::Buffer::new();
    put(page, digits.format(number).as_bytes());
}

// Puts the name of a unit's shape between two spaces: 1 is a byte lane, 2 a bit, and 3 a whole
// object. No unit has another shape.
#[tactic(auto, unfolding(crate::specs::Text::shape_text))]
pub fn put_shape<const ROOM: usize>(page: &mut ArrayVec<u8, ROOM>, shape: u32)
    requires { array_vec_len page.old + 8 ≤ ROOM }
    ensures ends { array_vec_len page.new ≤ array_vec_len page.old + 8 }
    ensures text { page.new.items ≡ page.old.items ++ shape_text shape }
{
    match shape {
        1 => put(page, b" lane "),
        2 => put(page, b" bit "),
        _ => put(page, b" object "),
    }
}
