// One record on: each kind's own tests, in document 01's order (order, fields, 4, 3, 5), and the reader after it.
ghost use Rattle.std.specs.Prelude.{◌≡◌, List, ℕ, ◌<◌, ◌≤◌, eqb, length};
ghost use Rattle.fields.specs.Pick.{has, ◌and◌, ◌or◌};
ghost use Rattle.fields.specs.Edition.{one};
ghost use Rattle.fields.specs.Record.{storage, function, abi, block, operand, target, end, u8_at, u16_at, length_of, header_at, storage_in, abi_in, instruction_at, operand_in, terminator_at, record_at};
ghost use Rattle.records.specs.Step.{Opened, State, in_storages, in_abi, in_block, after_block, with_function, with_block, belongs, leaves, finished, step, take as taken};
ghost use Rattle.records.specs.Mirror.{Kept, pending_of, stage_of, reader_of, Holds, Enters, Lent, Keeps, Sane, Comes};
ghost use Rattle.records.specs.declared.notes.Notes.{Notes};

use crate::Refusal;
use crate::index::NONE;
use crate::notes::Notes;
use crate::pending::{
    Pending, is_finished, nothing_open, open_at, operand_fits_in, with_given, with_target,
};
use crate::reader::{Reader, Stage, with_now};
use fields::bytes::u16_at;
use fields::ranges::{abi_fits, header_fits, instruction_fits, storage_fits, terminator_fits};
use fields::table::{end_entry_of, entry_of, targets_of};

#[tactic(auto, using(crate::proofs::Steps::judged, crate::proofs::Steps::header_laws), unfolding(fields::specs::Record::header_at, crate::specs::Step::admit))]
fn take_header(c: Reader, tail: &[u8], at: usize) -> Result<Reader, Refusal>
    requires { 7 ≤ length tail.now }
    ensures { (s : State) (d : Notes) → c ≡ reader_of s → Holds s d
        → Comes (taken one s at (header_at tail.now)) result (λ s'. Holds s' d) }
{
    if c.stage != Stage::AtStart || !header_fits(tail) {
        return Err(Refusal::Form(at));
    }
    Ok(Reader {
        stage: Stage::InStorages,
        ..c
    })
}

// A block or a function may be left: the blocks begin here, or the last one has its terminator.
#[tactic(auto, using(crate::proofs::Held::between, crate::proofs::Held::not_between))]
fn between_blocks(stage: Stage) -> bool
    ensures { (n : ℕ) → stage ≡ stage_of n → result ≡ (eqb n in_abi or eqb n after_block) }
{
    matches!(stage, Stage::InAbi | Stage::AfterBlock)
}

#[tactic(auto, using(crate::proofs::Held::same_stage, fields::specs::Pick::tests))]
fn function_follows(stage: Stage) -> bool
    ensures { (n : ℕ) → stage ≡ stage_of n → result ≡ (eqb n in_storages or (eqb n in_abi or eqb n after_block)) }
{
    stage == Stage::InStorages || between_blocks(stage)
}

#[tactic(auto, using(crate::proofs::Held::reader_function))]
fn after_function(c: Reader) -> Reader
    requires { c.functions < 64 }
    ensures { (s : State) (n : ℕ) → c ≡ reader_of s → result ≡ reader_of (with_function n s) }
{
    Reader {
        stage: Stage::InAbi,
        functions: c.functions + 1,
        blocks: 0,
        now: nothing_open(),
        ..c
    }
}

// One of these blocks has this id. The loop has no early way out, so that it runs on several ids at a time.
#[tactic(auto, using(crate::proofs::Lists::look_hit, crate::proofs::Lists::look_miss), unfolding(fields::specs::Pick::has))]
fn among(blocks: &[u16], id: u16) -> bool
    ensures { result ≡ has id blocks.now }
{
    let mut hit = false;
    for block in blocks {
        if *block == id {
            hit = true;
        }
    }
    hit
}

#[tactic(auto, using(crate::proofs::Held::reader_block))]
fn after_block(c: Reader, at: usize) -> Reader
    requires { c.blocks < 128 }
    ensures { (s : State) (id : ℕ) → c ≡ reader_of s → result ≡ reader_of (with_block at id s) }
{
    Reader {
        stage: Stage::InBlock,
        blocks: c.blocks + 1,
        block: at,
        now: nothing_open(),
        ..c
    }
}

#[tactic(auto, using(crate::proofs::Steps::judged, fields::proofs::TableLaws::fields_short), unfolding(fields::specs::Record::instruction_at, fields::specs::Record::u8_at, crate::specs::Step::admit))]
fn take_instruction(c: Reader, tail: &[u8], at: usize) -> Result<Reader, Refusal>
    requires { 4 ≤ length tail.now }
    ensures { (s : State) (d : Notes) → c ≡ reader_of s → Holds s d
        → Comes (taken one s at (instruction_at tail.now)) result (λ s'. Holds s' d) }
{
    if c.stage != Stage::InBlock || !instruction_fits(tail[1], tail[2], tail[3]) {
        return Err(Refusal::Form(at));
    }
    let now = open_at(at, entry_of(tail[1]), 0, 0);
    Ok(with_now(c, Stage::InBlock, now))
}

#[tactic(auto, using(crate::proofs::Steps::judged, crate::proofs::Held::opened_as, fields::proofs::TableLaws::end_fields_short), unfolding(fields::specs::Record::terminator_at, fields::specs::Record::u8_at, crate::specs::Step::admit))]
fn take_terminator(c: Reader, tail: &[u8], at: usize) -> Result<Reader, Refusal>
    requires { 4 ≤ length tail.now }
    ensures { (s : State) (d : Notes) → c ≡ reader_of s → Holds s d
        → Comes (taken one s at (terminator_at tail.now)) result (λ s'. Holds s' d) }
{
    let op = tail[1];
    let sub = tail[2];
    if c.stage != Stage::InBlock || !terminator_fits(op, sub, tail[3]) {
        return Err(Refusal::Form(at));
    }
    let (least, most) = targets_of(op);
    let now = open_at(at, end_entry_of(op, sub), least, most);
    Ok(with_now(c, Stage::AfterBlock, now))
}

#[tactic(auto, using(crate::proofs::Steps::judged, crate::proofs::Steps::target_laws), unfolding(crate::specs::Step::admit))]
fn take_target(c: Reader, at: usize) -> Result<Reader, Refusal>
    ensures { (s : State) (id : ℕ) (d : Notes) → c ≡ reader_of s → Holds s d
        → Comes (taken one s at (target id)) result (λ s'. Holds s' d) }
{
    let o = c.now;
    if o.targets < o.most {
        return Ok(with_now(c, c.stage, with_target(o)));
    }
    Err(Refusal::Form(at))
}

#[tactic(auto, using(crate::proofs::Steps::judged), unfolding(crate::specs::Step::admit))]
fn take_end(c: Reader, at: usize) -> Result<Reader, Refusal>
    ensures { (s : State) (d : Notes) → c ≡ reader_of s → Holds s d
        → Comes (taken one s at end) result (λ s'. Holds s' d) }
{
    if between_blocks(c.stage) {
        return Ok(with_now(c, Stage::AtEnd, nothing_open()));
    }
    Err(Refusal::Form(at))
}

// A target goes to what is open; any other record that is no operand finds it finished.
#[tactic(auto, using(crate::proofs::TenKinds::belongs_target, crate::proofs::TenKinds::belongs_not, fields::specs::Pick::tests))]
fn goes_on(o: Pending, kind: u8) -> bool
    ensures { (x : Opened) (t : List ℕ) → o ≡ pending_of x → u8_at t 0 ≡ kind → kind < 10 → (kind ≡ 6 → ⊥) → result ≡ (belongs (record_at one t) or finished x) }
{
    kind == 8 || is_finished(o)
}

// A record that would leave a block without its terminator.
#[tactic(auto, using(crate::proofs::Held::same_stage, crate::proofs::TenKinds::leaves_one, crate::proofs::TenKinds::leaves_not, fields::specs::Pick::tests))]
fn cuts(stage: Stage, kind: u8) -> bool
    ensures { (t : List ℕ) (n : ℕ) → u8_at t 0 ≡ kind → kind < 10 → stage ≡ stage_of n → result ≡ (leaves (record_at one t) and eqb n in_block) }
{
    match kind {
        2 | 4 | 9 => stage == Stage::InBlock,
        _ => false,
    }
}

// What a record takes is compiled into the reader's loop: called, each function would hand the reader over in memory.
impl Notes<'_> {
    #[tactic(auto, using(crate::proofs::Steps::judged, crate::proofs::Steps::storage_laws), unfolding(fields::specs::Record::storage_in))]
    fn take_storage(&mut self, c: Reader, tail: &[u8], at: usize) -> Result<Reader, Refusal>
        requires { 16 ≤ length tail.now }
        ensures keeps { Keeps self.old self.new }
        ensures comes { (s : State) → c ≡ reader_of s → Holds s self.old
            → Comes (taken one s at (storage (storage_in tail.now))) result (λ s'. Holds s' self.new) }
    {
        if c.stage != Stage::InStorages || !storage_fits(tail) {
            return Err(Refusal::Form(at));
        }
        let id = u16_at(tail, 1) as usize;
        if rows::has(&self.ids, 0, id) {
            return Err(Refusal::Repeated(at));
        }
        rows::insert(&mut self.ids, 0, id);
        Ok(c)
    }

    #[tactic(auto, using(crate::proofs::Steps::judged, crate::proofs::Steps::function_laws), unfolding(fields::specs::Record::u8_at))]
    fn take_function(&mut self, c: Reader, tail: &[u8], at: usize) -> Result<Reader, Refusal>
        requires { (2 ≤ length tail.now) × Sane c at self.old }
        ensures lent { Lent self.old self.new }
        ensures comes { (s : State) → c ≡ reader_of s → Holds s self.old
            → Comes (taken one s at (function (u8_at tail.now 1))) result
            (λ s'. Enters s' (function (u8_at tail.now 1)) at c.named self.old.table.now self.new) }
    {
        if !function_follows(c.stage) {
            return Err(Refusal::Form(at));
        }
        let number = tail[1] as usize;
        if self.table[number] != NONE {
            return Err(Refusal::Repeated(at));
        }
        if 64 <= c.functions {
            return Err(Refusal::Limit(at));
        }
        self.table[number] = (at + 2) as u16;
        self.table[256 + number] = c.named as u16;
        Ok(after_function(c))
    }

    #[tactic(auto, using(crate::proofs::Steps::judged, crate::proofs::Comings::unit_as), unfolding(fields::specs::Record::abi_in, fields::specs::Record::u8_at, crate::specs::Step::admit))]
    #[inline(always)]
    fn take_abi(&mut self, c: Reader, tail: &[u8], at: usize) -> Result<Reader, Refusal>
        requires { (7 ≤ length tail.now) × Sane c at self.old }
        ensures keeps { Keeps self.old self.new }
        ensures comes { (s : State) → c ≡ reader_of s → Holds s self.old
            → Comes (taken one s at (abi (abi_in tail.now))) result (λ s'. Holds s' self.new) }
    {
        if c.stage != Stage::InAbi || !abi_fits(tail) {
            return Err(Refusal::Form(at));
        }
        self.admit_unit(c, tail[2], u16_at(tail, 3), u16_at(tail, 5), at)
    }

    #[tactic(auto, using(crate::proofs::Steps::judged, crate::proofs::Steps::block_laws))]
    fn take_block(&mut self, c: Reader, tail: &[u8], at: usize) -> Result<Reader, Refusal>
        requires { (3 ≤ length tail.now) × Sane c at self.old }
        ensures keeps { Keeps self.old self.new }
        ensures comes { (s : State) → c ≡ reader_of s → Holds s self.old
            → Comes (taken one s at (block (u16_at tail.now 1))) result (λ s'. Holds s' self.new) }
    {
        if !between_blocks(c.stage) {
            return Err(Refusal::Form(at));
        }
        let id = u16_at(tail, 1);
        let count = c.blocks;
        if among(&self.blocks[..count], id) {
            return Err(Refusal::Repeated(at));
        }
        if 128 <= count {
            return Err(Refusal::Limit(at));
        }
        self.blocks[count] = id;
        Ok(after_block(c, at))
    }

    #[tactic(auto, using(crate::proofs::Steps::judged, crate::proofs::Steps::operand_laws), unfolding(fields::specs::Record::operand_in, fields::specs::Record::u8_at))]
    #[inline(always)]
    fn take_operand(&mut self, c: Reader, tail: &[u8], at: usize) -> Result<Reader, Refusal>
        requires { (7 ≤ length tail.now) × Sane c at self.old }
        ensures keeps { Keeps self.old self.new }
        ensures comes { (s : State) → c ≡ reader_of s → Kept s → Holds s self.old
            → Comes (taken one s at (operand (operand_in tail.now))) result (λ s'. Holds s' self.new) }
    {
        let o = c.now;
        if o.targets != 0 || !operand_fits_in(o, tail) {
            return Err(Refusal::Form(at));
        }
        let next = with_now(c, c.stage, with_given(o, tail[1]));
        let shape = tail[2];
        if shape == 0 {
            return self.admit_immediate(next);
        }
        self.admit_unit(next, shape, u16_at(tail, 3), u16_at(tail, 5), at)
    }

    // The record of a kind that names no unit.
    #[tactic(auto, using(crate::proofs::Steps::by_kind), unfolding(fields::specs::Record::header_at, fields::specs::Record::instruction_at, fields::specs::Record::terminator_at, fields::specs::Record::length_of, fields::specs::Record::lengths, fields::specs::Pick::pick))]
    #[inline(always)]
    fn take_plain(&mut self, c: Reader, kind: u8, tail: &[u8], at: usize) -> Result<Reader, Refusal>
        requires { (length_of one kind ≤ length tail.now) × (kind < 10) × (kind ≡ 3 → ⊥) × (kind ≡ 6 → ⊥) × Sane c at self.old }
        ensures lent { Lent self.old self.new }
        ensures comes { (s : State) → c ≡ reader_of s → u8_at tail.now 0 ≡ kind → Holds s self.old
            → Comes (taken one s at (record_at one tail.now)) result
            (λ s'. Enters s' (record_at one tail.now) at c.named self.old.table.now self.new) }
    {
        match kind {
            0 => take_header(c, tail, at),
            1 => self.take_storage(c, tail, at),
            2 => self.take_function(c, tail, at),
            4 => self.take_block(c, tail, at),
            5 => take_instruction(c, tail, at),
            7 => take_terminator(c, tail, at),
            8 => take_target(c, at),
            _ => take_end(c, at),
        }
    }

    // A record that is no operand: first whether what came before it is complete.
    #[tactic(auto, using(crate::proofs::Steps::by_kind, crate::proofs::Steps::step_laws), unfolding(fields::specs::Record::length_of, fields::specs::Record::lengths, fields::specs::Pick::pick))]
    #[inline(always)]
    fn step_other(&mut self, c: Reader, kind: u8, tail: &[u8], at: usize) -> Result<Reader, Refusal>
        requires { (length_of one kind ≤ length tail.now) × (kind < 10) × (kind ≡ 6 → ⊥) × Sane c at self.old }
        ensures lent { Lent self.old self.new }
        ensures comes { (s : State) → c ≡ reader_of s → Kept s → u8_at tail.now 0 ≡ kind → Holds s self.old
            → Comes (step one s at (record_at one tail.now)) result
            (λ s'. Enters s' (record_at one tail.now) at c.named self.old.table.now self.new) }
    {
        let o = c.now;
        if !goes_on(o, kind) {
            return Err(Refusal::Form(o.place));
        }
        if cuts(c.stage, kind) {
            return Err(Refusal::Form(c.block));
        }
        if kind == 3 {
            return self.take_abi(c, tail, at);
        }
        self.take_plain(c, kind, tail, at)
    }

    // The record at the front of a tail. An operand belongs to what is open and leaves no block, so that nothing before it needs a test.
    #[tactic(auto, using(crate::proofs::Steps::by_kind, crate::proofs::Steps::step_laws), unfolding(fields::specs::Record::length_of, fields::specs::Record::lengths, fields::specs::Pick::pick))]
    #[inline(always)]
    pub fn step_on(
        &mut self,
        c: Reader,
        kind: u8,
        tail: &[u8],
        at: usize,
    ) -> Result<Reader, Refusal>
        requires { (length_of one kind ≤ length tail.now) × (kind < 10) × Sane c at self.old }
        ensures lent { Lent self.old self.new }
        ensures comes { (s : State) → c ≡ reader_of s → Kept s → u8_at tail.now 0 ≡ kind → Holds s self.old
            → Comes (step one s at (record_at one tail.now)) result
            (λ s'. Enters s' (record_at one tail.now) at c.named self.old.table.now self.new) }
    {
        if kind == 6 {
            return self.take_operand(c, tail, at);
        }
        self.step_other(c, kind, tail, at)
    }
}
