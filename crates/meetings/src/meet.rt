// What each step adds: the units that a written storage meets, the pairs of a copy, the storages whose address is taken.
ghost use Rattle.std.specs.Prelude.{◌≡◌, ◌*◌, ◌≤◌, ◌<◌, min, max, length};
ghost use Rattle.rows.specs.Row.{with_at, or_row};
ghost use Rattle.fields.specs.Edition.{one};
ghost use Rattle.units.specs.Uses.{storage_of};
ghost use Rattle.meetings.specs.Members.{members};
ghost use Rattle.meetings.specs.Meeting.{storages_at, paired, unit_rows, less_rows, poured, wanted, met, pairs_to, copies_noted, addressed_noted};

use crate::members::Members;

// The storage of a unit word.
pub fn storage_of(word: u32) -> usize
    ensures { (result ≡ storage_of one word) × (result < 256) }
{
    (word % 16777216 / 65536) as usize
}

// Row i gets the numbers of the units of storage i. Filled once, before the first step.
pub fn unit_rows(words: &[u32], count: usize, rows: &mut [u64])
    requires { (length words.now ≡ 512) × (count ≤ 512) × (length rows.old ≡ 2048) }
    ensures { rows.new ≡ unit_rows words.now count rows.old }
{
    for n in 0..count {
        rows::insert(rows, storage_of(words[n]) * 8, n);
    }
}

// The row x becomes what is read or live.
pub fn want(x: &mut [u64], live: &[u64], reads: &[u64])
    requires { (length x.old ≡ 8) × (length live.now ≡ 8) × (length reads.now ≡ 8) }
    ensures { x.new ≡ or_row live.now reads.now }
{
    rows::copy_row(x, 0, live, 0, 8);
    rows::union_from(x, 0, reads, 0, 8);
}

// The row x loses the units of every storage that is read: a copy does not meet its source.
pub fn spare(x: &mut [u64], units: &[u64], words: &[u32], reads: &[u64])
    requires { (length x.old ≡ 8) × (length units.now ≡ 2048) × (length words.now ≡ 512) × (length reads.now ≡ 8) }
    ensures { x.new ≡ less_rows units.now (storages_at words.now (members reads.now)) x.old }
{
    for v in Members::of(reads) {
        rows::less_from(x, 0, units, storage_of(words[v]) * 8, 8);
    }
}

// The row x becomes what the step wants: that, and at a copy the source spared.
pub fn want_of(
    x: &mut [u64],
    units: &[u64],
    words: &[u32],
    live: &[u64],
    reads: &[u64],
    copying: bool,
)
    requires { (length x.old ≡ 8) × (length units.now ≡ 2048) × (length words.now ≡ 512) × (length live.now ≡ 8) × (length reads.now ≡ 8) }
    ensures { x.new ≡ wanted units.now words.now live.now reads.now copying }
{
    want(x, live, reads);
    if copying {
        spare(x, units, words, reads);
    }
}

// The storage of each written unit meets what the row x holds.
pub fn pour(meets: &mut [u64], x: &[u64], words: &[u32], writes: &[u64])
    requires { (length meets.old ≡ 2048) × (length x.now ≡ 8) × (length words.now ≡ 512) × (length writes.now ≡ 8) }
    ensures { meets.new ≡ poured x.now (storages_at words.now (members writes.now)) meets.old }
{
    for w in Members::of(writes) {
        rows::union_from(meets, storage_of(words[w]) * 8, x, 0, 8);
    }
}

// A step: every storage that it writes meets every unit that is read there or live after, save, at a copy, those of the source. A write counts whether
// or not it is read later.
pub fn meet(
    meets: &mut [u64],
    units: &[u64],
    words: &[u32],
    live: &[u64],
    reads: &[u64],
    writes: &[u64],
    copying: bool,
)
    requires { (length meets.old ≡ 2048) × (length units.now ≡ 2048) × (length words.now ≡ 512) × (length live.now ≡ 8)
        × (length reads.now ≡ 8) × (length writes.now ≡ 8) }
    ensures { meets.new ≡ met meets.old units.now words.now live.now reads.now
        writes.now copying }
{
    let mut x = [0u64; 8];
    want_of(&mut x, units, words, live, reads, copying);
    pour(meets, &x, words, writes);
}

// The pair of two storages, the smaller id first.
pub fn note_pair(copies: &mut [u64], i: usize, j: usize)
    requires { (length copies.old ≡ 1024) × (i < 256) × (j < 256) }
    ensures { copies.new ≡ with_at copies.old (min i j * 4) (max i j) }
{
    if i < j {
        rows::insert(copies, i * 4, j);
    } else {
        rows::insert(copies, j * 4, i);
    }
}

// One written storage with every storage that is read.
pub fn note_copies_to(copies: &mut [u64], words: &[u32], reads: &[u64], i: usize)
    requires { (length copies.old ≡ 1024) × (length words.now ≡ 512) × (length reads.now ≡ 8) × (i < 256) }
    ensures { copies.new ≡ paired 4 (pairs_to i (storages_at words.now (members reads.now))) copies.old }
{
    for v in Members::of(reads) {
        note_pair(copies, i, storage_of(words[v]));
    }
}

// A copy step: a pair for each unit that it writes and each that it reads, equal ids too.
pub fn note_copies(copies: &mut [u64], words: &[u32], reads: &[u64], writes: &[u64])
    requires { (length copies.old ≡ 1024) × (length words.now ≡ 512) × (length reads.now ≡ 8) × (length writes.now ≡ 8) }
    ensures { copies.new ≡ copies_noted copies.old words.now reads.now writes.now }
{
    for w in Members::of(writes) {
        note_copies_to(copies, words, reads, storage_of(words[w]));
    }
}

// An AddressOf step: the storages of what it reads.
pub fn note_addressed(addressed: &mut [u64], words: &[u32], reads: &[u64])
    requires { (length addressed.old ≡ 4) × (length words.now ≡ 512) × (length reads.now ≡ 8) }
    ensures { addressed.new ≡ addressed_noted addressed.old words.now reads.now }
{
    for v in Members::of(reads) {
        rows::insert(addressed, 0, storage_of(words[v]));
    }
}
