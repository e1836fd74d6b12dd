// What a step reads and writes, as two rows of units, in one visit to its record and operands.
ghost use Rattle.std.specs.Prelude.{◌≡◌, List, ℕ, ◌+◌, ◌*◌, ◌≤◌, ◌<◌, length, drop};
ghost use Rattle.rows.specs.Row.{with_at};
ghost use Rattle.fields.specs.Pick.{pick};
ghost use Rattle.fields.specs.Table.{row_word};
ghost use Rattle.fields.specs.Edition.{one};
ghost use Rattle.records.specs.Program.{Function, program, row_by};
ghost use Rattle.units.specs.Uses.{reads as reads_of, writes as writes_of};
ghost use Rattle.units.specs.Rows.{unit_row};
ghost use Rattle.units.specs.Along.{from, step_from, IsStep, StandsAt, Sound, SoundSite, Sane, Ready};
ghost use Rattle.units.specs.Marks.{jotted, marks, Behind, roles_in, fields_in, fields_word, wanted_by, read_in, written_in, callee_in, takes_abis, read_source, read_role, read_abis, written_abis};

use crate::cursor::Cursor;
use crate::head::{Head, head_of};
use crate::locate::Site;
use crate::numbered::Numbered;
use fields::bytes::tail_of;
use fields::table::{end_entry_of, entry_of, field_in};

// The fields of a table's entry, without the count in its highest byte.
const ABOVE: u64 = 0x0100_0000_0000_0000;

// The ABI records that are wanted: the parameters, the results, or all that a call leaves behind it.
#[derive(Clone, Copy)]
enum Roles {
    Parameters,
    Results,
    Outcomes,
}

impl Roles {
    // Whether a record of this role is wanted.
    #[tactic(auto, unfolding(crate::specs::Marks::wanted_by, fields::specs::Pick::pick))]
    fn want(self, role: u8) -> bool
        ensures { result ≡ wanted_by self role }
    {
        match self {
            Roles::Parameters => role == 0,
            Roles::Results => role == 1,
            Roles::Outcomes => role != 0,
        }
    }
}

// A unit's number goes into a row where it is wanted; a number past the last is no unit's.
#[tactic(auto, unfolding(crate::specs::Marks::jotted, fields::specs::Pick::pick))]
fn note(row: &mut [u64], n: u16, wanted: bool)
    requires { length row.old ≡ 8 }
    ensures { row.new ≡ jotted wanted n row.old }
{
    if wanted && n < 512 {
        rows::insert(row, 0, n as usize);
    }
}

// The part of the file from a cursor onward, empty past the end: a function that is not there has no records.
fn rest_of<'a>(source: Numbered<'a>, c: Cursor) -> &'a [u8]
    requires { Sound c }
    ensures is { result.now ≡ drop c.at source.entry.file.now }
    ensures fits { Behind c.k result.now }
{
    if source.file.len() < c.at {
        return &[];
    }
    tail_of(source.file, c.at)
}

// The units of the ABI records at the front of a tail whose roles are wanted; their numbers stand from k on. They are counted and not sliced off, since
// k lies past the last of them where a callee is not there.
fn abi_row(tail: &[u8], source: Numbered, k: usize, which: Roles, row: &mut [u64])
    requires fits { Behind k tail.now }
    requires wide { length row.old ≡ 8 }
    ensures { row.new ≡ marks (wanted_by which) source.entry.numbers.now k (roles_in tail.now) row.old }
{
    let mut rest = tail;
    let mut n = k;
    while let [3, role, _, _, _, _, _, ..] = rest {
        note(row, source.numbers[n], which.want(*role));
        rest = tail_of(rest, 7);
        n += 1;
    }
}

// An operand's unit number goes into the rows by the flags of its field; a terminator writes none.
#[tactic(auto, unfolding(crate::specs::Marks::read_in, crate::specs::Marks::written_in, fields::specs::Pick::pick))]
fn note_operand(reads: &mut [u64], writes: &mut [u64], n: u16, fields: u64, ends: bool, field: u8)
    requires { (length reads.old ≡ 8) × (length writes.old ≡ 8) }
    ensures { (reads.new ≡ jotted (read_in fields field) n reads.old)
        × (writes.new ≡ jotted (written_in fields ends field) n writes.old) }
{
    let flags = field_in(fields, field);
    note(reads, n, flags / 64 % 2 == 1);
    note(writes, n, !ends && flags / 32 % 2 == 1);
}

// The units of the operands at the front of a tail, by the fields of their step; their numbers stand from k on. Answers how many operands there are.
fn operand_rows(
    tail: &[u8],
    source: Numbered,
    k: usize,
    head: Head,
    reads: &mut [u64],
    writes: &mut [u64],
) -> usize
    requires fits { Behind k tail.now }
    requires rows { (length reads.old ≡ 8) × (length writes.old ≡ 8) }
    ensures count { result ≡ length (fields_in tail.now) }
    ensures fits { 7 * result ≤ length tail.now }
    ensures reads { reads.new ≡ marks (read_in (fields_word head)) source.entry.numbers.now k (fields_in tail.now) reads.old }
    ensures writes { writes.new ≡ marks (written_in (fields_word head) head.ends) source.entry.numbers.now k (fields_in tail.now) writes.old }
{
    let fields = fields_of(head);
    let mut rest = tail;
    let mut n = k;
    while let [6, field, _, _, _, _, _, ..] = rest {
        note_operand(reads, writes, source.numbers[n], fields, head.ends, *field);
        rest = tail_of(rest, 7);
        n += 1;
    }
    n - k
}

// The cursor behind the record of function n; far behind every file where there is none, so that no ABI record is found there, as `callee_in` has it.
fn callee_at(source: Numbered, n: u8) -> Cursor
    ensures { (result ≡ callee_in source.entry.table.now n) × Sound result }
{
    let i = n as usize;
    Cursor {
        at: source.table[i] as usize,
        k: source.table[256 + i] as usize,
    }
}

// Whether a step takes ABI records: TailCall, Return, Call.
#[tactic(auto, unfolding(crate::specs::Marks::takes_abis, fields::specs::Pick::pick))]
fn takes_abis(head: Head) -> bool
    ensures { result ≡ takes_abis head.ends head.op }
{
    matches!((head.ends, head.op), (true, 3 | 5) | (false, 27))
}

// Whose ABI records such a step reads, and which: Return the results of its own function, a call the callee's parameters.
#[tactic(auto, unfolding(crate::specs::Marks::read_source, crate::specs::Marks::read_role, fields::specs::Pick::pick))]
fn read_from(head: Head, callee: Cursor, own: Cursor) -> (Cursor, Roles)
    requires { Sound callee × Sound own }
    ensures source { result.0 ≡ read_source head.ends head.op callee own }
    ensures role { result.1 ≡ read_role head.ends head.op }
    ensures sound { Sound result.0 }
{
    match (head.ends, head.op) {
        (true, 5) => (own, Roles::Results),
        _ => (callee, Roles::Parameters),
    }
}

// The units of the ABI records that a step reads and writes. Most steps take none, and TailCall and Return write none.
#[tactic(auto, unfolding(crate::specs::Marks::read_abis, crate::specs::Marks::written_abis, fields::specs::Pick::pick))]
fn abi_rows(source: Numbered, own: Cursor, head: Head, reads: &mut [u64], writes: &mut [u64])
    requires own { Sound own }
    requires rows { (length reads.old ≡ 8) × (length writes.old ≡ 8) }
    ensures reads { reads.new ≡ read_abis head.ends head.op source.entry.file.now source.entry.numbers.now (callee_in source.entry.table.now head.callee) own reads.old }
    ensures writes { writes.new ≡ written_abis head.ends head.op source.entry.file.now source.entry.numbers.now (callee_in source.entry.table.now head.callee) writes.old }
{
    if !takes_abis(head) {
        return;
    }
    let callee = callee_at(source, head.callee);
    let (whose, which) = read_from(head, callee, own);
    abi_row(rest_of(source, whose), source, whose.k, which, reads);
    if !head.ends {
        let records = rest_of(source, callee);
        abi_row(records, source, callee.k, Roles::Outcomes, writes);
    }
}

// The fields of a step; none of a call and of Return.
fn fields_of(head: Head) -> u64
    ensures { result ≡ fields_word head }
{
    if head.ends {
        return end_entry_of(head.op, head.sub) % ABOVE;
    }
    entry_of(head.op) % ABOVE
}

impl Numbered<'_> {
    // The step at a place reads and writes these units. Answers the cursor behind its operands.
    pub fn uses_at(self, site: Site, reads: &mut [u64], writes: &mut [u64]) -> Cursor
        requires site { SoundSite self.file.now site }
        requires rows { (length reads.old ≡ 8) × (length writes.old ≡ 8) }
        ensures sound { Sound result × (site.here.at + 4 ≤ result.at) × (result.at ≤ length self.entry.file.now) }
        ensures behind { result.at ≡ site.here.at + 4 + 7 * length (from self.entry.file.now (site.here.at + 4)).operands }
        ensures uses { (us : List ℕ) (f : Function) → Ready self.entry.file.now us self.entry.numbers.now self.entry.table.now
            → StandsAt self.entry.file.now site.own → f.abis ≡ (from self.entry.file.now site.own.at).abis
            → StandsAt self.entry.file.now site.here → IsStep self.entry.file.now site.here.at
            → (reads.new ≡ unit_row one us (reads_of one (program one self.entry.file.now) f (step_from self.entry.file.now site.here.at)))
            × (writes.new ≡ unit_row one us (writes_of one (program one self.entry.file.now) (step_from self.entry.file.now site.here.at)))
            × StandsAt self.entry.file.now result }
    {
        rows::clear(reads, 0, 8);
        rows::clear(writes, 0, 8);
        let Site { own, here } = site;
        let tail = tail_of(self.file, here.at);
        let head = head_of(tail);
        abi_rows(self, own, head, reads, writes);
        let operands = tail_of(tail, 4);
        let count = operand_rows(operands, self, here.k, head, reads, writes);
        Cursor {
            at: here.at + 4 + 7 * count,
            k: here.k + count,
        }
    }
}
