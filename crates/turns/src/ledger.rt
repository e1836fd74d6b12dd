// What is kept of the storages placed so far.
ghost use Rattle.std.specs.Prelude.{◌≡◌, ◌+◌, ◌*◌, ◌≤◌, ◌<◌, length, set, replicate};
ghost use Rattle.rows.specs.Row as W;
ghost use Rattle.places.specs.Place.{record_at};
ghost use Rattle.turns.specs.Held.{key_of, linked_at};

use crate::marks::key_of;
use storages::{Placement, Storage, a_of, b_of, code_of};

// Of the i-th storage its id, its slot's number, its link to the one before it of the same key, and its result record.
// The links of the 256 keys stand behind those of the storages.
#[derive(Drop)]
pub struct Ledger {
    pub ids: [u16; 256],
    pub kin: [u16; 512],
    pub numbers: [u16; 256],
    pub records: [u8; 2048],
    pub count: usize,
}

// The result record of a storage.
fn put_record(out: &mut [u8], at: usize, id: u16, p: Placement)
    requires { at + 8 ≤ length out.old }
    ensures { out.new ≡ W.put out.old at (record_at id p) }
{
    let [id_low, id_high] = id.to_le_bytes();
    let [a_low, a_high] = a_of(p).to_le_bytes();
    let [b_low, b_high] = b_of(p).to_le_bytes();
    let record = [
        10,
        id_low,
        id_high,
        code_of(p),
        a_low,
        a_high,
        b_low,
        b_high,
    ];
    out[at..at + 8].copy_from_slice(&record);
}

// The i-th storage leads to the last one before it of the same key, and is the last from now on.
fn link(kin: &mut [u16], i: usize, key: usize)
    requires { (i < 256) × (key < 256) × (length kin.old ≡ 512) }
    ensures { kin.new ≡ linked_at kin.old i key }
{
    let b = 256 + key;
    kin[i] = kin[b];
    kin[b] = (i + 1) as u16;
}

impl Ledger {
    // Nothing is placed at first.
    #[inline(always)]
    pub fn new() -> Self
        ensures { (result.kin ≡ replicate 512 0) × (result.records ≡ replicate 2048 0) × (result.count ≡ 0) }
    {
        Ledger {
            ids: [0; 256],
            kin: [0; 512],
            numbers: [0; 256],
            records: [0; 2048],
            count: 0,
        }
    }

    // One storage more, in the slot of a number or in none.
    pub fn note(&mut self, s: Storage, number: usize, p: Placement)
        requires { (self.old.count < 256) × (number ≤ 256) }
        ensures ids { self.new.ids ≡ set self.old.ids self.old.count s.id }
        ensures kin { self.new.kin ≡ linked_at self.old.kin self.old.count (key_of s) }
        ensures numbers { self.new.numbers ≡ set self.old.numbers self.old.count number }
        ensures records { self.new.records ≡ W.put self.old.records (self.old.count * 8) (record_at s.id p) }
        ensures count { self.new.count ≡ self.old.count + 1 }
    {
        let i = self.count;
        self.ids[i] = s.id;
        link(&mut self.kin, i, key_of(s));
        self.numbers[i] = number as u16;
        put_record(&mut self.records, i * 8, s.id, p);
        self.count = i + 1;
    }
}
