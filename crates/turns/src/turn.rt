// One storage is placed: into a slot, or at a place of its own.
ghost use Rattle.std.specs.Prelude.{◌≡◌, Some, None, ◌+◌, ◌<◌, length, IfOk};
ghost use Rattle.fields.specs.Pick.{pick};
ghost use Rattle.storages.specs.Storage.{tries};
ghost use Rattle.places.specs.Legal.{FixedSmall};
ghost use Rattle.places.specs.Place.{Given, State, choose, take_room, step};
ghost use Rattle.turns.specs.Held.{Tells, Held, list_after, count_after, TurnedBy};

use crate::ledger::Ledger;
use crate::marks::slot_for;
use crate::relations::Relations;
use places::memory::Memory;
use records::Refusal;
use slots::Slots;
use storages::{Placement, Storage, room_of, tries_slots};

// A storage that may share opens a slot at its place.
#[tactic(auto, unfolding(fields::specs::Pick::pick))]
fn opens(s: Storage, p: Placement) -> Option<Placement>
    ensures { result ≡ pick (tries s) (Some p) None }
{
    if tries_slots(s) { Some(p) } else { None }
}

// The number of the slot that a storage opens: the next one, or 256 if it may not share. A cell of the ledger is a number, and `Kept` speaks of it so.
#[tactic(auto, unfolding(fields::specs::Pick::pick))]
fn number_for(n: usize, s: Storage) -> usize
    ensures { result ≡ pick (tries s) n 256 }
{
    if tries_slots(s) { n } else { 256 }
}

// A storage takes a place of its own, and answers where it opens a slot, if it does.
fn take_own(
    slots: &Slots,
    s: Storage,
    memory: &mut Memory,
    ledger: &mut Ledger,
) -> Result<Option<Placement>, Refusal>
    requires room { ledger.old.count < 256 }
    requires own { (s.id < 256) × FixedSmall s.len s.fixed }
    ensures turned { (g : Given) (x : State) → g.lo ≡ 0 → g.hi ≡ length memory.old.app.now
        → Held x memory.old.app.now memory.old.work.now slots.now.list slots.now.count ledger.old.ids ledger.old.kin ledger.old.numbers ledger.old.records ledger.old.count
        → TurnedBy (take_room s x (choose g s x.maps)) result memory.new.app.now memory.new.work.now (list_after slots.now.list slots.now.count s result) (count_after slots.now.count result)
        ledger.new.ids ledger.new.kin ledger.new.numbers ledger.new.records (ledger.old.count + 1) }
    ensures kept { (length memory.new.app.now ≡ length memory.old.app.now) × (length memory.new.work.now ≡ length memory.old.work.now) }
    ensures noted { IfOk result (λ _. ledger.new.count ≡ ledger.old.count + 1) }
{
    let p = memory.choose(s, 0, memory.app.len())?;
    memory.take(room_of(s.len, p));
    ledger.note(s, number_for(slots.len(), s), p);
    Ok(opens(s, p))
}

// One storage, after those before it. Answers where it opens a slot, if it does.
pub fn place_one(
    slots: &Slots,
    s: Storage,
    relations: Relations,
    memory: &mut Memory,
    ledger: &mut Ledger,
) -> Result<Option<Placement>, Refusal>
    requires room { ledger.old.count < 256 }
    requires own { (s.id < 256) × FixedSmall s.len s.fixed }
    requires held { (x : State) × Held x memory.old.app.now memory.old.work.now slots.now.list slots.now.count ledger.old.ids ledger.old.kin ledger.old.numbers ledger.old.records ledger.old.count }
    ensures turned { (g : Given) (x : State) → Tells g relations.entry.graph.now relations.entry.copies.now → g.lo ≡ 0 → g.hi ≡ length memory.old.app.now
        → Held x memory.old.app.now memory.old.work.now slots.now.list slots.now.count ledger.old.ids ledger.old.kin ledger.old.numbers ledger.old.records ledger.old.count
        → TurnedBy (step g s x) result memory.new.app.now memory.new.work.now (list_after slots.now.list slots.now.count s result) (count_after slots.now.count result)
        ledger.new.ids ledger.new.kin ledger.new.numbers ledger.new.records (ledger.old.count + 1) }
    ensures kept { (length memory.new.app.now ≡ length memory.old.app.now) × (length memory.new.work.now ≡ length memory.old.work.now) }
    ensures noted { IfOk result (λ _. ledger.new.count ≡ ledger.old.count + 1) }
{
    if let Some(k) = slot_for(slots, s, relations, ledger) {
        ledger.note(s, k, slots.placement(k));
        return Ok(None);
    }
    take_own(slots, s, memory, ledger)
}
