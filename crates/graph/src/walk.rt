// The walk over a program: every step of every block of every function is noted, with what is live after it.
ghost use Rattle.std.specs.Prelude.{◌≡◌, List, ℕ, ◌+◌, ◌*◌, ◌≤◌, ◌<◌, eqb, ltb, length};
ghost use Rattle.rows.specs.Row.{or_row, less_row};
ghost use Rattle.fields.specs.Pick.{pick};
ghost use Rattle.units.specs.Along.{Sound, SoundSite};
ghost use Rattle.passes.specs.Passes.{blank, Held};
ghost use Rattle.meetings.specs.Meeting.{met, copies_noted, addressed_noted};
ghost use Rattle.graph.specs.Walking.{operation_at, StepTaken, BlockTaken, Safe, OneTaken, Ordered, BlocksTaken, Owner, FunctionTaken, Fresh, Granted, FunctionNext, AllTaken, Counted, Whole};

use crate::basis::Basis;
use crate::sketch::Sketch;
use liveness::survey::{Findings, KEPT, Steps, seek, survey};
use meetings::close::{close, hold, ids_below};
use meetings::meet::{meet, note_addressed, note_copies, unit_rows};
use passes::settle;
use units::cursor::Cursor;
use units::locate::Site;
use units::numbered::Numbered;

// The words of a row of units.
const ROW: usize = 8;

// The word where the live-out rows begin.
const OUT: usize = 1024;

// The operation of an instruction; 255, which is none, for a terminator, as `operation_at` has it: a step is asked for one operation after another.
fn instruction_at(file: &[u8], at: usize) -> u8
    requires { at + 4 ≤ length file.now }
    ensures { result ≡ operation_at file.now at }
{
    if file[at] == 5 {
        return file[at + 1];
    }
    255
}

// The pairs of a copy; another step has none.
fn note_pairs(copies: &mut [u64], words: &[u32], reads: &[u64], writes: &[u64], op: u8)
    requires { (length copies.old ≡ 1024) × (length words.now ≡ 512) × (length reads.now ≡ 8) × (length writes.now ≡ 8) }
    ensures { copies.new ≡ pick (ltb op 2) (copies_noted copies.old words.now reads.now writes.now) copies.old }
{
    if op < 2 {
        note_copies(copies, words, reads, writes);
    }
}

// The storages whose address an AddressOf takes; another step takes none.
fn note_address(addressed: &mut [u64], words: &[u32], reads: &[u64], op: u8)
    requires { (length addressed.old ≡ 4) × (length words.now ≡ 512) × (length reads.now ≡ 8) }
    ensures { addressed.new ≡ pick (eqb op 16) (addressed_noted addressed.old words.now reads.now) addressed.old }
{
    if op == 16 {
        note_addressed(addressed, words, reads);
    }
}

// The live row goes over a step.
fn move_live(live: &mut [u64], reads: &[u64], writes: &[u64])
    requires { (length live.old ≡ 8) × (length reads.now ≡ 8) × (length writes.now ≡ 8) }
    ensures { live.new ≡ or_row (less_row live.old writes.now) reads.now }
{
    rows::less_from(live, 0, writes, 0, ROW);
    rows::union_from(live, 0, reads, 0, ROW);
}

// What a step adds to the sketch, by its rows and its operation; then what is live before it.
fn note_step(
    basis: Basis,
    reads: &[u64],
    writes: &[u64],
    op: u8,
    live: &mut [u64; ROW],
    sketch: &mut Sketch,
)
    requires { (length reads.now ≡ 8) × (length writes.now ≡ 8) }
    ensures meets { sketch.new.meets ≡ met sketch.old.meets basis.entry.units.now basis.entry.words.now live.old reads.now writes.now (ltb op 2) }
    ensures copies { sketch.new.copies ≡ pick (ltb op 2) (copies_noted sketch.old.copies basis.entry.words.now reads.now writes.now) sketch.old.copies }
    ensures addressed { sketch.new.addressed ≡ pick (eqb op 16) (addressed_noted sketch.old.addressed basis.entry.words.now reads.now) sketch.old.addressed }
    ensures live { live.new ≡ or_row (less_row live.old writes.now) reads.now }
{
    meet(
        &mut sketch.meets,
        basis.units,
        basis.words,
        live,
        reads,
        writes,
        op < 2,
    );
    note_pairs(&mut sketch.copies, basis.words, reads, writes, op);
    note_address(&mut sketch.addressed, basis.words, reads, op);
    move_live(live, reads, writes);
}

// Step number i: what it meets, its pairs, its addresses; then what is live before it. The rows of a step behind the ones that are kept are asked again.
fn take_step(
    basis: Basis,
    site: Site,
    i: usize,
    steps: &Steps,
    live: &mut [u64; ROW],
    sketch: &mut Sketch,
)
    requires { SoundSite basis.source.file.now site }
    ensures { StepTaken basis.entry site i steps.now live.old sketch.old live.new sketch.new }
{
    let op = instruction_at(basis.source.file, site.here.at);
    if i < KEPT {
        let b = i * ROW;
        note_step(
            basis,
            &steps.reads[b..b + ROW],
            &steps.writes[b..b + ROW],
            op,
            live,
            sketch,
        );
        return;
    }
    let mut reads = [0u64; ROW];
    let mut writes = [0u64; ROW];
    basis.source.uses_at(site, &mut reads, &mut writes);
    note_step(basis, &reads, &writes, op, live, sketch);
}

// The steps of a block whose places stand from `first` up to `last`, the last first. The live row is that at the block's end at first.
fn take_block(
    basis: Basis,
    own: Cursor,
    steps: &Steps,
    first: usize,
    last: usize,
    live: &mut [u64; ROW],
    sketch: &mut Sketch,
)
    requires { Sound own × (last ≤ 4097) × (first ≤ last) × Safe basis.source.file.now steps.now.places steps.now.counts first last }
    ensures { BlockTaken basis.entry own steps.now last first live.old sketch.old live.new sketch.new }
{
    for i in (first..last).rev() {
        let here = Cursor {
            at: steps.places[i] as usize,
            k: steps.counts[i] as usize,
        };
        take_step(basis, Site { own, here }, i, steps, live, sketch);
    }
}

// Block number b, from the row of what is live at its end.
fn take_one(
    basis: Basis,
    own: Cursor,
    findings: &Findings,
    b: usize,
    rows: &[u64],
    sketch: &mut Sketch,
)
    requires { Sound own × (b < 128) × Ordered basis.source.file.now findings.now b × (length rows.now ≡ 2048) }
    ensures { OneTaken basis.entry own findings.now b rows.now sketch.old sketch.new }
{
    let mut live = [0u64; ROW];
    rows::copy_row(&mut live, 0, rows, OUT + b * ROW, ROW);
    let first = findings.firsts[b] as usize;
    let last = findings.firsts[b + 1] as usize;
    take_block(basis, own, &findings.steps, first, last, &mut live, sketch);
}

// Every block of a function, in file order.
fn take_blocks(
    basis: Basis,
    own: Cursor,
    findings: &Findings,
    count: usize,
    rows: &[u64],
    sketch: &mut Sketch,
)
    requires { Sound own × (count ≤ 128) × ((b : ℕ) → b < count → Ordered basis.source.file.now findings.now b) × (length rows.now ≡ 2048) }
    ensures { BlocksTaken basis.entry own findings.now count rows.now count sketch.old sketch.new }
{
    for b in 0..count {
        take_one(basis, own, findings, b, rows, sketch);
    }
}

// What is known behind a function's records.
#[derive(Clone, Copy)]
struct Went {
    passes: usize,
    blocks: usize,
    after: Cursor,
}

// The function whose records begin at `own`: its live sets settle in rows that are 0 at first, and its steps are noted. The survey's arrays are lent, since
// clearing them for every function would take longer than the survey.
fn take_function(
    basis: Basis,
    own: Cursor,
    rows: &mut [u64],
    sketch: &mut Sketch,
    findings: &mut Findings,
) -> Went
    requires { Sound own × Owner basis own × (rows.old ≡ blank 2048) }
    ensures { FunctionTaken basis.entry own sketch.old rows.new sketch.new result.passes result.blocks result.after }
{
    let s = survey(basis.source, own, findings);
    let passes = settle(rows, &findings.blocks(s.blocks));
    take_blocks(basis, own, findings, s.blocks, rows, sketch);
    Went {
        passes,
        blocks: s.blocks,
        after: s.after,
    }
}

// A function record stands there.
fn at_function(file: &[u8], at: usize) -> bool
    ensures { FunctionNext file.now at result }
{
    matches!(file.get(at..), Some([2, _, ..]))
}

// The cursor behind a function's record.
fn behind(c: Cursor) -> Cursor
    requires { c.at ≤ 16384 }
    ensures { result ≡ record { at = c.at + 2; k = c.k } }
{
    Cursor {
        at: c.at + 2,
        k: c.k,
    }
}

// The rows of so many blocks become 0, and with them all: no other row holds anything.
fn clear_rows(rows: &mut [u64], blocks: usize)
    requires { Held rows.old blocks × (blocks ≤ 128) }
    ensures { rows.new ≡ blank 2048 }
{
    rows::clear(rows, 0, blocks * ROW);
    rows::clear(rows, OUT, blocks * ROW);
}

// Every function, in file order; the rows are those of the last. Answers the passes of all together.
fn take_functions(basis: Basis, rows: &mut [u64], sketch: &mut Sketch) -> usize
    requires { (rows.old ≡ blank 2048) × Fresh sketch.old × ((us : List ℕ) × Granted basis us) }
    ensures { (us : List ℕ) → Granted basis.entry us → AllTaken basis.entry.source.file.now us result rows.new sketch.new }
{
    let file = basis.source.file;
    let mut findings = Findings::new();
    let start = Cursor { at: 0, k: 0 };
    let mut c = seek(file, start, false);
    let mut passes = 0;
    let mut blocks = 0;
    while at_function(file, c.at) {
        clear_rows(rows, blocks);
        let went = take_function(basis, behind(c), rows, sketch, &mut findings);
        passes += went.passes;
        blocks = went.blocks;
        c = went.after;
    }
    passes
}

// The graph, the copies and the live rows of the last function, of an accepted file whose units are numbered. Answers the passes of all functions.
pub fn graph_of(
    source: Numbered,
    words: &[u32],
    count: usize,
    rows: &mut [u64],
    graph: &mut [u64],
    copies: &mut [u64],
) -> usize
    requires { (7 ≤ length source.file.now) × (length words.now ≡ 512) × (count ≤ 512)
        × (rows.old ≡ blank 2048) × (graph.old ≡ blank 1024) × (copies.old ≡ blank 1024)
        × ((us : List ℕ) × Counted source.file.now us source.numbers.now source.table.now words.now count) }
    ensures { (us : List ℕ) → Counted source.entry.file.now us source.entry.numbers.now source.entry.table.now words.now count
        → Whole source.entry.file.now us result rows.new graph.new copies.new }
{
    let mut units = [0u64; 2048];
    unit_rows(words, count, &mut units);
    let basis = Basis {
        source,
        words,
        units: &units,
    };
    let mut sketch = Sketch::new();
    let passes = take_functions(basis, rows, &mut sketch);
    let n = ids_below(words, count);
    close(&sketch.meets, words, n, graph);
    hold(source.file, &sketch.addressed, graph);
    copies.copy_from_slice(&sketch.copies);
    passes
}
