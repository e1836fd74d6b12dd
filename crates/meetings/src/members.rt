// The members of a row, one after another.
ghost use Rattle.std.specs.Prelude.{◌≡◌, ◌*◌, ◌≤◌, ◌<◌, length};
ghost use Rattle.meetings.specs.Members.{Lowest, Filled, First};

// The lowest set bit of a word that is not 0.
pub fn low_bit(w: u64) -> usize
    requires { 0 < w }
    ensures { Lowest w result }
{
    u64::trailing_zeros(w) as usize
}

// Words that are 0 hold no number and are passed over whole.
pub fn next_word(row: &[u64], from: usize) -> usize
    requires { from ≤ length row.now }
    ensures { Filled row.now from result }
{
    for at in from..row.len() {
        if row[at] != 0 {
            return at;
        }
    }
    row.len()
}

// The first number of a row of 8 words or fewer, at or above `from`; where there is none, the number just past its words, which is 512 for a row of units.
// `Members` goes by it, and a number at each place lets it compare with 512 alone.
pub fn next_member(row: &[u64], from: usize) -> usize
    requires { (length row.now ≤ 8) × (from ≤ 64 * length row.now) }
    ensures { First row.now from result }
{
    let at = from / 64;
    if row.len() <= at {
        return from;
    }
    let w = row[at] >> (from % 64);
    if w != 0 {
        return from + low_bit(w);
    }
    let next = next_word(row, at + 1);
    if row.len() <= next {
        return next * 64;
    }
    next * 64 + low_bit(row[next])
}

// The members of a row of units that are still ahead, in rising order.
#[derive(Clone, Copy)]
pub struct Members<'a> {
    pub row: &'a [u64],
    pub next: usize,
    pub ghost eight: { length row.now ≡ 8 },
    pub ghost within: { next ≤ 512 },
}

impl<'a> Members<'a> {
    // All members of a row of units.
    pub fn of(row: &'a [u64]) -> Self
        requires { length row.now ≡ 8 }
        ensures { (result.row.now ≡ row.now) × (result.next ≡ 0) }
    {
        Members { row, next: 0 }
    }
}

impl Iterator for Members<'_> {
    ghost use Rattle.std.specs.Iterator.{YieldsFirst, item_count};
    ghost use Rattle.meetings.specs.Visits.{left};

    type Item = usize;

    ghost next_gives = { YieldsFirst left };

    ghost remaining = { item_count left };

    fn next(&mut self) -> Option<usize> {
        let member = next_member(self.row, self.next);
        if member == 512 {
            self.next = 512;
            return None;
        }
        self.next = member + 1;
        Some(member)
    }
}
