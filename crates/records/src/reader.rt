// Where the reader is, and the answer at a record.
ghost use Rattle.std.specs.Prelude.{◌≡◌, ℕ};
ghost use Rattle.records.specs.Step.{Opened, State, start, with_opened};
ghost use Rattle.records.specs.Mirror.{pending_of, stage_of, reader_of};

use crate::pending::{Pending, nothing_open};

// How far the order of records has come.
#[derive(Clone, Copy, PartialEq, Eq)]
pub enum Stage {
    AtStart,
    InStorages,
    InAbi,
    InBlock,
    AfterBlock,
    AtEnd,
}

// The stage; how many functions, blocks of this function, units and unit numbers there are; where the last block
// stands; and what is open.
#[derive(Clone, Copy)]
pub struct Reader {
    pub stage: Stage,
    pub functions: usize,
    pub blocks: usize,
    pub block: usize,
    pub units: usize,
    pub named: usize,
    pub now: Pending,
}

pub fn start_reading() -> Reader
    ensures { result ≡ reader_of start }
{
    Reader {
        stage: Stage::AtStart,
        functions: 0,
        blocks: 0,
        block: 0,
        units: 0,
        named: 0,
        now: nothing_open(),
    }
}

// A stage, and what is open in it.
#[tactic(auto, using(crate::proofs::Held::reader_opened))]
pub fn with_now(c: Reader, stage: Stage, now: Pending) -> Reader
    ensures { (result.units ≡ c.units) × (result.named ≡ c.named)
        × ((s : State) (n : ℕ) (x : Opened) → c ≡ reader_of s → stage ≡ stage_of n → now ≡ pending_of x → result ≡ reader_of (with_opened n x s)) }
{
    Reader { stage, now, ..c }
}
