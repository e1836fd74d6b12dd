// The unit of a record: its storage must be declared, and its word gets a number.
ghost use Rattle.std.specs.Prelude.{◌≡◌, List, ℕ, ◌+◌, ◌<◌, ltb, length};
ghost use Rattle.rows.specs.Row.{member_at};
ghost use Rattle.fields.specs.Pick.{◌and◌};
ghost use Rattle.fields.specs.Edition.{one};
ghost use Rattle.records.specs.Units.{no_unit};
ghost use Rattle.records.specs.Step.{State, with_number, word_step, unit_step, next};
ghost use Rattle.records.specs.Mirror.{reader_of, Holds, Keeps, Ready, Comes};

use crate::Refusal;
use crate::buckets::{bucket_of, word_of};
use crate::notes::Notes;
use crate::reader::Reader;

// A storage's id is declared.
#[tactic(auto, using(fields::specs::Pick::tests))]
fn declared(ids: &[u64], id: u16) -> bool
    requires { length ids.now ≡ 4 }
    ensures { result ≡ (ltb id 256 and member_at ids.now 0 id) }
{
    id < 256 && rows::has(ids, 0, id as usize)
}

// One unit number more, among so many units.
#[tactic(auto, using(crate::proofs::Held::reader_number))]
fn after_number(c: Reader, units: usize, named: usize) -> Reader
    ensures { (s : State) (us : List ℕ) (n : ℕ) → c ≡ reader_of s → length us ≡ units → named ≡ length s.numbers + 1 → result ≡ reader_of (with_number us n s) }
{
    Reader { units, named, ..c }
}

impl Notes<'_> {
    // A word's number is noted: its own, or the next one.
    #[tactic(auto, using(crate::proofs::Comings::word_full, crate::proofs::Lists::found_none, crate::proofs::Held::units_of_lem))]
    #[inline(always)]
    fn admit_word(&mut self, c: Reader, word: u32, at: usize) -> Result<Reader, Refusal>
        requires { Ready c self.old }
        ensures keeps { Keeps self.old self.new }
        ensures comes { (s : State) → c ≡ reader_of s → Holds s self.old → Comes (word_step one at word s) result (λ s'. Holds s' self.new) }
    {
        let named = c.named;
        let units = c.units;
        if let Some(number) = self.find(word) {
            self.numbers[named] = number as u16;
            return Ok(after_number(c, units, named + 1));
        }
        if 512 <= units {
            return Err(Refusal::Limit(at));
        }
        // The new unit goes to the end of its bucket's chain.
        let bucket = bucket_of(word);
        self.words[units] = word;
        self.nexts[units] = self.heads[bucket];
        self.heads[bucket] = (units + 1) as u16;
        self.numbers[named] = units as u16;
        Ok(after_number(c, units + 1, named + 1))
    }

    #[tactic(auto, using(crate::proofs::Comings::unit_declared, crate::proofs::Comings::unit_undeclared, crate::proofs::Held::declared_is))]
    #[inline(always)]
    pub fn admit_unit(
        &mut self,
        c: Reader,
        shape: u8,
        id: u16,
        offset: u16,
        at: usize,
    ) -> Result<Reader, Refusal>
        requires { Ready c self.old }
        ensures keeps { Keeps self.old self.new }
        ensures comes { (s : State) → c ≡ reader_of s → Holds s self.old → Comes (unit_step one at shape id offset s) result (λ s'. Holds s' self.new) }
    {
        if declared(&self.ids, id) {
            let word = word_of(shape, id, offset);
            return self.admit_word(c, word, at);
        }
        Err(Refusal::Undeclared(at))
    }

    // An immediate names no unit.
    #[inline(always)]
    pub fn admit_immediate(&mut self, c: Reader) -> Result<Reader, Refusal>
        requires { c.named < length self.old.numbers.now }
        ensures keeps { Keeps self.old self.new }
        ensures comes { (s : State) → c ≡ reader_of s → Holds s self.old → Comes (next (with_number s.units no_unit s)) result (λ s'. Holds s' self.new) }
    {
        let named = c.named;
        let units = c.units;
        // The lent numbers have this one for no unit, as `no_unit` says.
        self.numbers[named] = 65535;
        Ok(after_number(c, units, named + 1))
    }
}
