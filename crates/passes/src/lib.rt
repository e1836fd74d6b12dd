// Passes over the live rows of a function's blocks.
// Knows rows of words; gives the settled live rows in a lent buffer, and how many passes they took. What a block reads and writes stands in rows that were
// made before, and its targets in one list, so that a pass touches words alone.
#![tactic(auto)]

mod blocks;

ghost use Rattle.std.specs.Prelude.{◌≡◌, ◌+◌, ◌≤◌, ◌<◌, length};
ghost use Rattle.passes.specs.Passes.{width, blank, Held, joined, joined_all, differs, leads};
ghost use Rattle.passes.specs.Blocks.{targets_in, visited_in, TrackedIn, PassedIn, SolvedIn};

pub use crate::blocks::Blocks;

// The words of a row.
const ROW: usize = 8;

// The word where the live-out rows begin.
const OUT: usize = 1024;

// A target with no block adds nothing.
fn join(out: &mut [u64], live: &[u64], t: usize, count: usize)
    requires { (length out.old ≡ width) × (length live.now ≡ 2048) × (count ≤ 128) }
    ensures { out.new ≡ joined live.now count t out.old }
{
    if t < count {
        rows::union_from(out, 0, live, t * ROW, ROW);
    }
}

// The live-in rows of all targets of block k.
fn gather(out: &mut [u64], live: &[u64], blocks: &Blocks, k: usize)
    requires { (length out.old ≡ width) × (length live.now ≡ 2048) × (k < blocks.now.count) }
    ensures { out.new ≡ joined_all live.now blocks.now.count (targets_in blocks.now k) out.old }
{
    for &t in blocks.targets_of(k) {
        join(out, live, t as usize, blocks.count);
    }
}

// Both rows of block k, in place. Did one of them change?
fn visit(live: &mut [u64], blocks: &Blocks, k: usize) -> bool
    requires { (length live.old ≡ 2048) × (k < blocks.now.count) }
    ensures { (live.new ≡ visited_in blocks.now k live.old) × (result ≡ differs k live.old live.new) }
{
    let mut set = [0u64; ROW];
    gather(&mut set, live, blocks, k);
    let out_moved = rows::store_row(live, OUT + k * ROW, &set, 0, ROW);
    rows::less_from(&mut set, 0, blocks.kills, k * ROW, ROW);
    rows::union_from(&mut set, 0, blocks.gens, k * ROW, ROW);
    let in_moved = rows::store_row(live, k * ROW, &set, 0, ROW);
    out_moved | in_moved
}

// Did the last turn of one of block k's targets change that target?
fn leads_to(moved: &[bool], blocks: &Blocks, k: usize) -> bool
    requires { (length moved.now ≡ 128) × (k < blocks.now.count) }
    ensures { result ≡ leads moved.now blocks.now.count (targets_in blocks.now k) }
{
    let count = blocks.count;
    blocks
        .targets_of(k)
        .iter()
        .any(|&t| (t as usize) < count && moved[t as usize])
}

// The turn of block k. After the first pass a visit is left out where no target has changed, as it would write what is there.
fn turn(live: &mut [u64], moved: &mut [bool], blocks: &Blocks, k: usize, first: bool) -> bool
    requires live_len { (length live.old ≡ 2048) × (k < blocks.now.count) }
    requires tracked { TrackedIn blocks.now first live.old moved.old (k + 1) }
    ensures live_after { (live.new ≡ visited_in blocks.now k live.old) × (result ≡ differs k live.old live.new) }
    ensures tracked_after { TrackedIn blocks.now first live.new moved.new k }
{
    if !first && !leads_to(moved, blocks, k) {
        moved[k] = false;
        return false;
    }
    let changed = visit(live, blocks, k);
    moved[k] = changed;
    changed
}

// One pass, from the last block to the first. Did it change anything?
fn pass(live: &mut [u64], moved: &mut [bool], blocks: &Blocks, first: bool) -> bool
    requires { Held live.old blocks.now.count × TrackedIn blocks.now first live.old moved.old blocks.now.count }
    ensures passed { PassedIn blocks.now live.old live.new result }
    ensures tracked { TrackedIn blocks.now first live.new moved.new 0 }
{
    let mut changed = false;
    for k in (0..blocks.count).rev() {
        changed |= turn(live, moved, blocks, k, first);
    }
    changed
}

// Passes repeat until one changes nothing, and that one counts. That it is one of the first count + 2 is a fact about live sets.
pub fn settle(live: &mut [u64], blocks: &Blocks) -> usize
    requires { live.old ≡ blank 2048 }
    ensures { SolvedIn blocks.now result live.new }
{
    let mut moved = [false; 128];
    for p in 0..blocks.count + 2 {
        if !pass(live, &mut moved, blocks, p == 0) {
            return p + 1;
        }
    }
    unreachable!()
}
