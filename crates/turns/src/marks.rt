// Which slots a storage may join: those of its owner, kind and length without a member that it interferes with; and among them those with a copy partner.
ghost use Rattle.std.specs.Prelude.{◌≡◌, List, ℕ, ◌*◌, ◌≤◌, ◌<◌, min, max, ltb, length, get_or, IfSome};
ghost use Rattle.rows.specs.Row.{member_at, with_at};
ghost use Rattle.fields.specs.Pick.{pick, ◌and◌};
ghost use Rattle.places.specs.Place.{Given, State, slot_for};
ghost use Rattle.turns.specs.Held.{key_of, Tells, KinLinked, Marked, Kept};

use crate::ledger::Ledger;
use crate::relations::Relations;
use slots::Slots;
use storages::{Storage, tries_slots};

// Storages that may share a slot have one key, since they have one owner, kind and length.
#[tactic(auto, unfolding(crate::specs::Held::key_by))]
pub fn key_of(s: Storage) -> usize
    ensures { (result ≡ key_of s) × (result < 256) }
{
    ((s.owner as usize) + (s.kind as usize) * 64 + (s.len as usize) * 8) % 256
}

// Rows of slots: those with a member of the key, those of them with a member that interferes with the storage, and those with a copy partner of it.
#[derive(Drop)]
struct Marks {
    seen: [u64; 4],
    barred: [u64; 4],
    partners: [u64; 4],
}

// A slot joins a row where a test holds.
#[tactic(auto, unfolding(fields::specs::Pick::pick))]
fn mark_where(row: &mut [u64], holds: bool, slot: usize)
    requires { (length row.old ≡ 4) × (slot < 256) }
    ensures { row.new ≡ pick holds (with_at row.old 0 slot) row.old }
{
    if holds {
        rows::insert(row, 0, slot);
    }
}

impl Marks {
    // One placed storage, in slot `slot`: that slot is seen, is barred to storage `id` if the two interfere, and has a partner if they are copies.
    #[tactic(auto, unfolding(fields::specs::Pick::pick))]
    fn mark_one(&mut self, relations: Relations, id: usize, other: usize, slot: usize)
        requires { (id < 256) × (other < 256) }
        ensures seen { self.new.seen ≡ pick (ltb slot 256) (with_at self.old.seen 0 slot) self.old.seen }
        ensures barred { self.new.barred ≡ pick (ltb slot 256 and member_at relations.entry.graph.now (id * 4) other) (with_at self.old.barred 0 slot) self.old.barred }
        ensures partners { self.new.partners ≡ pick (ltb slot 256 and member_at relations.entry.copies.now (min id other * 4) (max id other)) (with_at self.old.partners 0 slot) self.old.partners }
    {
        if slot < 256 {
            rows::insert(&mut self.seen, 0, slot);
            mark_where(&mut self.barred, relations.interfere(id, other), slot);
            mark_where(&mut self.partners, relations.copied(id, other), slot);
        }
    }
}

// All placed storages of this one's key, the last first. A slot that a storage may join has members of its key only, one at least;
// a slot of another owner, kind or length does not suit it, marked or not.
fn mark(relations: Relations, id: usize, key: usize, ledger: &Ledger) -> Marks
    requires own { (id < 256) × (key < 256) }
    requires few { ledger.now.count ≤ 256 }
    requires low { (j : ℕ) → j < ledger.now.count → get_or ledger.now.ids j 0 < 256 }
    requires linked { (keys : List ℕ) × KinLinked keys ledger.now.kin ledger.now.count }
    ensures { (keys : List ℕ) → KinLinked keys ledger.now.kin ledger.now.count
        → Marked relations.entry.graph.now relations.entry.copies.now id key ledger.now.ids keys ledger.now.numbers ledger.now.count result.seen result.barred result.partners }
{
    let mut marks = Marks {
        seen: [0; 4],
        barred: [0; 4],
        partners: [0; 4],
    };
    // The links are followed, not counted.
    let mut next = ledger.kin[256 + key] as usize;
    while 0 < next {
        let i = next - 1;
        marks.mark_one(
            relations,
            id,
            ledger.ids[i] as usize,
            ledger.numbers[i] as usize,
        );
        next = ledger.kin[i] as usize;
    }
    marks
}

// The slot that a storage joins: of those that fit, the first with a copy partner, else the first; none where none fits or the storage shares nothing.
pub fn slot_for(slots: &Slots, s: Storage, relations: Relations, ledger: &Ledger) -> Option<usize>
    requires own { s.id < 256 }
    requires few { ledger.now.count ≤ 256 }
    requires low { (j : ℕ) → j < ledger.now.count → get_or ledger.now.ids j 0 < 256 }
    requires linked { (keys : List ℕ) × KinLinked keys ledger.now.kin ledger.now.count }
    ensures below { IfSome result (λ k. k < slots.now.count) }
    ensures joined { (g : Given) (x : State) → Tells g relations.entry.graph.now relations.entry.copies.now
        → Kept x slots.now.list slots.now.count ledger.now.ids ledger.now.kin ledger.now.numbers ledger.now.count
        → result ≡ slot_for g s x.slots }
{
    if !tries_slots(s) {
        return None;
    }
    let mut marks = mark(relations, s.id as usize, key_of(s), ledger);
    rows::less_from(&mut marks.seen, 0, &marks.barred, 0, 4);
    if let Some(k) = slots.search(s, &marks.seen, &marks.partners) {
        return Some(k);
    }
    slots.search(s, &marks.seen, &marks.seen)
}
