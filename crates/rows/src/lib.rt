// Knows words. Gives sets of numbers as rows of u64 words inside a lent slice: number n of the row at base is bit n mod 64 of word base + n div 64.
// How many words a row has is a parameter where it matters and is known nowhere else, so that one crate serves rows of every width.
// Each contract is an equation of word lists, and what it means for the numbers of the set follows by the laws of proofs/Members and proofs/Pack.
// What it is that numbers are linked by their keys stands in specs/Links, without code here: crates above keep such links in slices of their own.
#![tactic(auto)]

ghost use Rattle.std.specs.Prelude.{◌≡◌, not, ◌+◌, ◌/◌, ◌^◌, ◌≤◌, ◌<◌, length, replicate};
ghost use Rattle.rows.specs.Row.{member_at, with_at, row, put, or_row, less_row, same_row};

// Only the word of n has to be there, so the contract asks nothing of the row's width.
pub fn has(words: &[u64], base: usize, n: usize) -> bool
    requires { base + n / 64 < length words.now }
    ensures { result ≡ member_at words.now base n }
{
    (words[base + n / 64] >> (n % 64)) % 2 == 1
}

// The word that holds bit k alone. It is a function, so that the fact about the shift is proved once.
pub fn mask(k: usize) -> u64
    requires { k < 64 }
    ensures { result ≡ 2 ^ k }
{
    1 << k
}

// A number that is there already stays: the bit is set, not turned.
pub fn insert(words: &mut [u64], base: usize, n: usize)
    requires { base + n / 64 < length words.old }
    ensures { words.new ≡ with_at words.old base n }
{
    words[base + n / 64] |= mask(n % 64);
}

// The row at to becomes its union with the row at b of another slice. The two are not zipped, as no contract speaks of what is written through a zip.
pub fn union_from(words: &mut [u64], to: usize, from: &[u64], b: usize, n: usize)
    requires { (to + n ≤ length words.old) × (b + n ≤ length from.now) }
    ensures { words.new ≡ put words.old to (or_row (row words.old to n) (row from.now b n)) }
{
    let other = &from[b..b + n];
    for (i, w) in words[to..to + n].iter_mut().enumerate() {
        *w |= other[i];
    }
}

// The row at to loses the members of the row at b of another slice. `w ^ (w & v)` clears the bits of v like `w & !v`, and its law needs no bound on the words.
pub fn less_from(words: &mut [u64], to: usize, from: &[u64], b: usize, n: usize)
    requires { (to + n ≤ length words.old) × (b + n ≤ length from.now) }
    ensures { words.new ≡ put words.old to (less_row (row words.old to n) (row from.now b n)) }
{
    let other = &from[b..b + n];
    for (i, w) in words[to..to + n].iter_mut().enumerate() {
        *w ^= *w & other[i];
    }
}

// n words from `from` on become 0: the empty set, or a whole buffer without an answer.
pub fn clear(words: &mut [u64], from: usize, n: usize)
    requires { from + n ≤ length words.old }
    ensures { words.new ≡ put words.old from (replicate n 0) }
{
    words[from..from + n].fill(0);
}

// Do the row at a of x and the row at b of y, of n words each, hold the same? They are compared here, as `==` of slices takes half as long again for a short row.
pub fn same_row(x: &[u64], a: usize, y: &[u64], b: usize, n: usize) -> bool
    requires { (a + n ≤ length x.now) × (b + n ≤ length y.now) }
    ensures { result ≡ same_row (row x.now a n) (row y.now b n) }
{
    let other = &y[b..b + n];
    for (i, w) in x[a..a + n].iter().enumerate() {
        if *w != other[i] {
            return false;
        }
    }
    true
}

// The row at to becomes the row at b of another slice. A short row is copied word by word, as `copy_from_slice` keeps it out of the registers.
pub fn copy_row(words: &mut [u64], to: usize, from: &[u64], b: usize, n: usize)
    requires { (to + n ≤ length words.old) × (b + n ≤ length from.now) }
    ensures { words.new ≡ put words.old to (row from.now b n) }
{
    let other = &from[b..b + n];
    for (i, w) in words[to..to + n].iter_mut().enumerate() {
        *w = other[i];
    }
}

// The same, and whether that changed anything: what a loop that runs until nothing changes asks.
pub fn store_row(words: &mut [u64], to: usize, from: &[u64], b: usize, n: usize) -> bool
    requires { (to + n ≤ length words.old) × (b + n ≤ length from.now) }
    ensures { (result ≡ not (same_row (row words.old to n) (row from.now b n)))
        × (words.new ≡ put words.old to (row from.now b n)) }
{
    let same = same_row(words, to, from, b, n);
    copy_row(words, to, from, b, n);
    !same
}
