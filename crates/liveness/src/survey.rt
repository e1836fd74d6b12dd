// One walk over a function's records: what each block reads and writes, where it goes on, and where its steps begin.
// Nothing relies on the order of records: what stands out of order is passed over, as the definitions pass over it.
ghost use Rattle.std.specs.Prelude.{◌≡◌, true, false, ℕ, ◌+◌, ◌*◌, ◌≤◌, ◌<◌, length, get_or, MatchOption};
ghost use mathlib.Core.List.{List, [], ◌∷◌, ◌++◌, Memᴰ};
ghost use Rattle.fields.specs.Edition.{one};
ghost use Rattle.fields.specs.Record.{length_of};
ghost use Rattle.records.specs.Units.{number_in};
ghost use Rattle.records.specs.Program.{Step, Function, empty, program};
ghost use Rattle.units.specs.Rows.{unit_row};
ghost use Rattle.units.specs.Along.{from, step_from, IsStep, StandsAt, Sound, SoundSite, Ready};
ghost use Rattle.passes.specs.Passes.{Given};
ghost use Rattle.liveness.specs.Flow.{use_of};
ghost use Rattle.liveness.specs.Survey.{Blank, row_for, read_first, written, Surveyed};
ghost use Rattle.liveness.specs.Walks.{BlockHere, FunctionHere, Stopped, Stops, Paced, Came, BlockNext, Inner, Outer, Same, Within, Asked, uses_of, Taken, Walked, Tallied, Sized, Grown};

use fields::bytes::{u16_at, whole_record};
use passes::Blocks;
use units::cursor::{Cursor, brings};
use units::locate::Site;
use units::numbered::Numbered;

// The most blocks of a function, and the words of a row.
const BLOCKS: usize = 128;

const ROW: usize = 8;

// The rows of so many steps of a function are kept; those of every later step are written behind them, one over the other.
pub const KEPT: usize = 64;

// What the survey notes of a function's steps, one behind the other.
#[derive(Drop)]
pub struct Steps {
    // The targets of each block's last step, one block's behind the other's.
    pub targets: [u16; 5462],
    // Where each step's record begins, and how many unit numbers come before it.
    pub places: [u16; 4097],
    pub counts: [u16; 4097],
    // Of each step that is kept the row of units that it reads and the row of those that it writes.
    pub reads: [u64; 520],
    pub writes: [u64; 520],
}

// What the survey notes of a function. No number that an earlier function left is read, so one serves all functions of a file.
#[derive(Drop)]
pub struct Findings {
    // Of each block the row of units that it reads before it writes them, and the row of those that it writes.
    pub gens: [u64; 1024],
    pub kills: [u64; 1024],
    // How many targets, and how many steps, come before each block.
    pub starts: [u16; 129],
    pub firsts: [u16; 129],
    pub steps: Steps,
}

impl Findings {
    // All is 0 at first. What is so large is made where it stays.
    #[inline(always)]
    pub fn new() -> Self
        ensures { Blank result }
    {
        Findings {
            gens: [0; 1024],
            kills: [0; 1024],
            starts: [0; 129],
            firsts: [0; 129],
            steps: Steps {
                targets: [0; 5462],
                places: [0; 4097],
                counts: [0; 4097],
                reads: [0; 520],
                writes: [0; 520],
            },
        }
    }

    // The function's blocks, for the passes.
    pub fn blocks(&self, count: usize) -> Blocks<'_>
        requires { Given self.now.gens self.now.kills self.now.steps.targets self.now.starts count }
        ensures { (result.gens.now ≡ self.now.gens) × (result.kills.now ≡ self.now.kills) × (result.targets.now ≡ self.now.steps.targets)
            × (result.starts.now ≡ self.now.starts) × (result.count ≡ count) }
    {
        Blocks {
            gens: &self.gens,
            kills: &self.kills,
            targets: &self.steps.targets,
            starts: &self.starts,
            count,
        }
    }
}

// Where the walk stands: its place, and how many unit numbers, steps and targets come before it.
#[derive(Clone, Copy)]
pub struct Walk {
    pub at: usize,
    pub k: usize,
    pub steps: usize,
    pub targets: usize,
}

// How many blocks the function has, and the cursor at the next function or the end.
#[derive(Clone, Copy)]
pub struct Overview {
    pub blocks: usize,
    pub after: Cursor,
}

// A search for blocks stops at a record that no block of the function comes after; a search for functions at a function or the end.
fn stops(kind: u8, blocks: bool) -> bool
    ensures { Stops kind blocks result }
{
    match kind {
        2 | 9.. => true,
        0 | 1 | 4 => blocks,
        _ => false,
    }
}

// How long the record is that stands there whole, if one does.
fn whole_at(file: &[u8], at: usize) -> Option<usize>
    ensures { MatchOption result (from file.now at ≡ empty) (λ len. (0 < len) × (at + len ≤ length file.now) × (len ≡ length_of one (get_or file.now at 0))) }
{
    whole_record(file.get(at..)?)
}

// How far it is to the next record, where the search goes on over one.
fn pace(file: &[u8], at: usize, blocks: bool) -> Option<usize>
    ensures { MatchOption result (Stopped file.now blocks at) (λ len. Paced file.now blocks at len) }
{
    let len = whole_at(file, at)?;
    if stops(file[at], blocks) {
        return None;
    }
    Some(len)
}

// The next block of the function, or the next function; or where there is none.
pub fn seek(file: &[u8], c: Cursor, blocks: bool) -> Cursor
    requires { (length file.now ≤ 16384) × Sound c }
    ensures { Came file.now blocks c.at c.k result.at result.k × Stopped file.now blocks result.at }
{
    let mut at = c.at;
    let mut k = c.k;
    while let Some(len) = pace(file, at, blocks) {
        k += brings(file[at]);
        at += len;
    }
    Cursor { at, k }
}

// The kind of a record that belongs to a block, where one stands there.
fn inner(file: &[u8], at: usize) -> Option<u8>
    ensures { MatchOption result (Outer file.now at) (λ kind. Inner file.now at kind) }
{
    whole_at(file, at)?;
    match file[at] {
        kind @ 5..=8 => Some(kind),
        _ => None,
    }
}

// A step's two rows, and with them what the steps so far read first and what they write: what it reads and they do not write, and what it writes.
fn step_rows(
    source: Numbered,
    site: Site,
    reads: &mut [u64],
    writes: &mut [u64],
    born: &mut [u64; ROW],
    dead: &mut [u64; ROW],
) -> Cursor
    requires site { SoundSite source.file.now site }
    requires rows { (length reads.old ≡ 8) × (length writes.old ≡ 8) }
    ensures sound { Sound result × (site.here.at + 4 ≤ result.at) × (result.at ≤ length source.entry.file.now) }
    ensures joined { let f = source.entry.file.now in (us : List ℕ) (fn : Function) (ss : List Step)
        → Asked f us source.entry.numbers.now source.entry.table.now fn site.own → StandsAt f site.here → IsStep f site.here.at
        → born.old ≡ unit_row one us (read_first (uses_of f fn ss))
        → dead.old ≡ unit_row one us (written (uses_of f fn ss))
        → (reads.new ≡ unit_row one us (use_of one (program one f) fn (step_from f site.here.at)).reads)
        × (writes.new ≡ unit_row one us (use_of one (program one f) fn (step_from f site.here.at)).writes)
        × (born.new ≡ unit_row one us (read_first (uses_of f fn (ss ++ (step_from f site.here.at ∷ [])))))
        × (dead.new ≡ unit_row one us (written (uses_of f fn (ss ++ (step_from f site.here.at ∷ [])))))
        × StandsAt f result × Same f (site.here.at + 4) result.at }
{
    let next = source.uses_at(site, reads, writes);
    let mut first = [0u64; ROW];
    rows::copy_row(&mut first, 0, reads, 0, ROW);
    rows::less_from(&mut first, 0, dead, 0, ROW);
    rows::union_from(born, 0, &first, 0, ROW);
    rows::union_from(dead, 0, writes, 0, ROW);
    next
}

// Where the rows of step number s stand.
pub fn row_for(s: usize) -> usize
    ensures { (result ≡ row_for s) × (result + 8 ≤ 520) }
{
    if s < KEPT { s * ROW } else { KEPT * ROW }
}

// One record of a block. The targets noted from `first` on are those of the last step.
fn take_record(
    source: Numbered,
    own: Cursor,
    kind: u8,
    w: Walk,
    first: usize,
    born: &mut [u64; ROW],
    dead: &mut [u64; ROW],
    notes: &mut Steps,
) -> Walk
    requires { Sound own × Within w × Inner source.file.now w.at kind × (first ≤ w.targets) }
    ensures { Taken source.entry.file.now source.entry.numbers.now source.entry.table.now own first
        born.old dead.old notes.old w born.new dead.new notes.new result }
{
    if kind == 8 {
        let t = w.targets;
        notes.targets[t] = u16_at(source.file, w.at + 1);
        return Walk {
            at: w.at + 3,
            k: w.k,
            steps: w.steps,
            targets: w.targets + 1,
        };
    }
    if kind == 6 {
        return Walk {
            at: w.at + 7,
            k: w.k + 1,
            steps: w.steps,
            targets: w.targets,
        };
    }
    let s = w.steps;
    notes.places[s] = w.at as u16;
    notes.counts[s] = w.k as u16;
    let here = Cursor { at: w.at, k: w.k };
    let b = row_for(s);
    let next = step_rows(
        source,
        Site { own, here },
        &mut notes.reads[b..b + ROW],
        &mut notes.writes[b..b + ROW],
        born,
        dead,
    );
    Walk {
        at: next.at,
        k: next.k,
        steps: w.steps + 1,
        targets: first,
    }
}

// The records of one block, from behind its own record on. `born` and `dead` are empty at first.
fn block_records(
    source: Numbered,
    own: Cursor,
    begin: Walk,
    born: &mut [u64; ROW],
    dead: &mut [u64; ROW],
    notes: &mut Steps,
) -> Walk
    requires { Sound own × Within begin × (begin.at ≤ length source.file.now) }
    ensures { Walked source.entry.file.now source.entry.numbers.now source.entry.table.now own
        born.old dead.old notes.old begin born.new dead.new notes.new result × Outer source.entry.file.now result.at }
{
    let mut w = begin;
    while let Some(kind) = inner(source.file, w.at) {
        w = take_record(source, own, kind, w, begin.targets, born, dead, notes);
    }
    w
}

// One block: its id, its rows, its targets and its steps; and on to the next block.
fn take_block(
    source: Numbered,
    own: Cursor,
    w: Walk,
    b: usize,
    findings: &mut Findings,
    ids: &mut [u16; BLOCKS],
) -> Walk
    requires { Sound own × Within w × BlockHere source.file.now w.at × (b < 128) × Tallied findings.old.starts findings.old.firsts b w }
    ensures { Grown source.entry.file.now source.entry.numbers.now source.entry.table.now own
        findings.old ids.old b w findings.new ids.new result }
{
    ids[b] = u16_at(source.file, w.at + 1);
    let mut born = [0u64; ROW];
    let mut dead = [0u64; ROW];
    let begin = Walk {
        at: w.at + 3,
        k: w.k,
        steps: w.steps,
        targets: w.targets,
    };
    let end = block_records(
        source,
        own,
        begin,
        &mut born,
        &mut dead,
        &mut findings.steps,
    );
    rows::copy_row(&mut findings.gens, b * ROW, &born, 0, ROW);
    rows::copy_row(&mut findings.kills, b * ROW, &dead, 0, ROW);
    findings.starts[b + 1] = end.targets as u16;
    findings.firsts[b + 1] = end.steps as u16;
    let c = Cursor {
        at: end.at,
        k: end.k,
    };
    let next = seek(source.file, c, true);
    Walk {
        at: next.at,
        k: next.k,
        steps: end.steps,
        targets: end.targets,
    }
}

// The number of a block, by its id; the number of blocks where none has it.
fn number_of(ids: &[u16], id: u16) -> usize
    ensures { (result ≤ length ids.now) × (result ≡ number_in id ids.now) }
{
    for (i, &other) in ids.iter().enumerate() {
        if other == id {
            return i;
        }
    }
    ids.len()
}

// Target ids become block numbers.
fn number_targets(ids: &[u16], targets: &mut [u16])
    requires { length ids.now ≤ 128 }
    ensures { (i : ℕ) → i < length targets.old → get_or targets.new i 0 ≡ number_in (get_or targets.old i 0) ids.now }
{
    for target in targets {
        *target = number_of(ids, *target) as u16;
    }
}

// A block record stands there, and there is room for one more block. Its tests stand one by one: behind a pattern on the tail the compiler loses sight of
// the bound on b, and so of the length of the list of ids, eight of which it compares at once.
fn at_block(file: &[u8], at: usize, b: usize) -> bool
    ensures { BlockNext file.now at b result }
{
    if BLOCKS <= b {
        return false;
    }
    if file.len() <= at {
        return false;
    }
    if file.len() - at < 3 {
        return false;
    }
    file[at] == 4
}

// The function whose records begin at `own`, for the passes and for the graph.
pub fn survey(source: Numbered, own: Cursor, findings: &mut Findings) -> Overview
    requires { Sound own }
    ensures given { Given findings.new.gens findings.new.kills findings.new.steps.targets findings.new.starts result.blocks }
    ensures sized { Sized findings.new }
    ensures sound { Sound result.after }
    ensures surveyed { let f = source.entry.file.now in (us : List ℕ) (fn : Function)
        → Ready f us source.entry.numbers.now source.entry.table.now → StandsAt f own → Memᴰ fn (program one f).functions
        → fn.abis ≡ (from f own.at).abis → fn.blocks ≡ (from f own.at).blocks
        → Surveyed f us fn findings.new result.blocks × StandsAt f result.after
        × ((from f result.after.at).functions ≡ (from f own.at).functions)
        × ((FunctionHere f result.after.at → ⊥) → (from f result.after.at).functions ≡ []) }
{
    let mut ids = [0u16; BLOCKS];
    findings.starts[0] = 0;
    findings.firsts[0] = 0;
    let c = seek(source.file, own, true);
    let mut w = Walk {
        at: c.at,
        k: c.k,
        steps: 0,
        targets: 0,
    };
    let mut b = 0;
    while at_block(source.file, w.at, b) {
        w = take_block(source, own, w, b, findings, &mut ids);
        b += 1;
    }
    number_targets(&ids[..b], &mut findings.steps.targets[..w.targets]);
    let c = Cursor { at: w.at, k: w.k };
    let after = seek(source.file, c, false);
    Overview { blocks: b, after }
}
