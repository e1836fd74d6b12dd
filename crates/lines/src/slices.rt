// Texts inside a page that its caller holds: a slice of any length, in which a text stands from a
// place on. Each function answers where its text ends, which is where the next one starts.
ghost use Rattle.std.specs.Prelude.{◌≡◌, ◌+◌, ◌≤◌, length, take};
ghost use Rattle.lines.specs.Text.{Follows, shape_text, refusal_text};

use crate::{answer, text};
use arrayvec::ArrayVec;
use records::Refusal;

// Puts the bytes of `word` on the page from `at` on.
#[tactic(auto, using(std::proofs::lemmas::Slice::overwrites))]
pub fn put(page: &mut [u8], at: usize, word: &[u8]) -> usize
    requires { at + length word.now ≤ length page.old }
    ensures ends { result ≡ at + length word.now }
    ensures text { Follows (take at page.old) word.now (take result page.new) }
{
    let end = at + word.len();
    page[at..end].copy_from_slice(word);
    end
}

// Puts the name of a unit's shape between two spaces, which takes at most 8 bytes.
pub fn put_shape(page: &mut [u8], at: usize, shape: u32) -> usize
    requires { at + 8 ≤ length page.old }
    ensures ends { result ≤ at + 8 }
    ensures text { Follows (take at page.old) (shape_text shape) (take result page.new) }
{
    let mut name = ArrayVec::<u8, 8>::new();
    text::put_shape(&mut name, shape);
    put(page, at, &name)
}

// Puts the line of a refusal, which takes at most 50 bytes.
pub fn put_refusal(page: &mut [u8], at: usize, refusal: Refusal) -> usize
    requires { at + 50 ≤ length page.old }
    ensures ends { result ≤ at + 50 }
    ensures text { Follows (take at page.old) (refusal_text refusal) (take result page.new) }
{
    let mut line = ArrayVec::<u8, 50>::new();
    answer::put_refusal(&mut line, refusal);
    put(page, at, &line)
}
