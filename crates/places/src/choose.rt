// Where a storage that joins no slot goes: to its fixed place, or to the first place that its regions allow and that is clear.
ghost use Rattle.std.specs.Prelude.{◌≡◌, ◌≤◌, ◌<◌, eqb, length};
ghost use Rattle.fields.specs.Pick.{◌and◌, ◌or◌};
ghost use Rattle.storages.specs.Storage.{a_carry, carry_flag, allows, alone};
ghost use Rattle.storages.specs.Room.{room};
ghost use Rattle.maps.specs.Maps.{TakenBelow, FoundIn, BitIn};
ghost use Rattle.places.specs.Memory.{clear_room, Solid};
ghost use Rattle.places.specs.Legal.{Small, FixedSmall};
ghost use Rattle.places.specs.Place.{Given, fitted, name_bit, name_bytes, work_bit, app_bit, choose_bit, work_bytes, app_bytes, choose_bytes, choose_free, choose_fixed, choose};

use crate::memory::{Floor, Memory, is_clear};
use maps::{first_clear, high_bit};
use records::Refusal;
use storages::{
    Placement, Storage, allows_region, code_of, is_alone, kind_matches, room_of, takes_bit,
};

// A found bit over 7 and a found work offset over 511 fit no placement.
#[tactic(auto, unfolding(crate::specs::Place::fitted, fields::specs::Pick::pick))]
fn fit(id: u16, offset: usize, bit: usize, p: Placement) -> Result<Placement, Refusal>
    ensures { result ≡ fitted id offset bit p }
{
    if 7 < bit || 511 < offset {
        return Err(Refusal::Misfit(id as usize));
    }
    Ok(p)
}

// A bit that was found in the work map takes a shadow name where shadow is allowed.
#[tactic(auto, unfolding(fields::specs::Pick::pick))]
fn name_bit(s: Storage, found: Option<(usize, usize)>) -> Result<Placement, Refusal>
    requires { BitIn 512 found }
    ensures { result ≡ name_bit s found }
{
    match found {
        None => Err(Refusal::WorkFull(1)),
        Some((offset, bit)) => {
            let (o, b) = (offset as u16, bit as u16);
            let place = if allows_region(s, 5) {
                Placement::ShadowStackBit { offset: o, bit: b }
            } else {
                Placement::WorkRamBit { offset: o, bit: b }
            };
            fit(s.id, offset, bit, place)
        }
    }
}

// A window that was found in the work map, named likewise.
#[tactic(auto, unfolding(fields::specs::Pick::pick))]
fn name_bytes(s: Storage, found: Option<usize>) -> Result<Placement, Refusal>
    requires { FoundIn 512 found }
    ensures { result ≡ name_bytes s found }
{
    match found {
        None => Err(Refusal::WorkFull(s.len as usize)),
        Some(offset) => {
            let o = offset as u16;
            let place = if allows_region(s, 5) {
                Placement::ShadowStack { offset: o }
            } else {
                Placement::WorkRam { offset: o }
            };
            fit(s.id, offset, 0, place)
        }
    }
}

// Does a storage allow the work map, under either name?
#[tactic(auto, unfolding(fields::specs::Pick::pick))]
fn allows_work(s: Storage) -> bool
    ensures { result ≡ (allows s 5 or allows s 6) }
{
    allows_region(s, 5) || allows_region(s, 6)
}

// Is the storage a Carry that may sit in the carry flag?
#[tactic(auto, unfolding(fields::specs::Pick::pick))]
fn sits_in_flag(s: Storage) -> bool
    ensures { result ≡ (eqb s.kind a_carry and allows s carry_flag) }
{
    s.kind == 3 && allows_region(s, 1)
}

// A bit in the work map.
#[tactic(auto, using(crate::proofs::Choosing::bit_below), unfolding(crate::specs::Place::work_bit, fields::specs::Pick::pick))]
fn work_bit(s: Storage, work: &[u8]) -> Result<Placement, Refusal>
    requires { length work.now ≤ 512 }
    ensures { result ≡ work_bit s work.now }
{
    if !allows_work(s) {
        return Err(Refusal::NoPlace(s.id as usize));
    }
    name_bit(s, high_bit(work, 0, work.len()))
}

// A bit: application RAM first, whether or not the storage must be direct. Bytes lo to hi - 1 of it are looked through.
#[tactic(auto, using(crate::proofs::Choosing::bit_below), unfolding(crate::specs::Place::choose_bit, fields::specs::Pick::pick))]
pub fn choose_bit(
    s: Storage,
    app: &[u8],
    work: &[u8],
    lo: usize,
    hi: usize,
) -> Result<Placement, Refusal>
    requires { (hi ≤ length app.now) × (length app.now ≤ 256) × (length work.now ≤ 512) }
    ensures { (g : Given) → g.lo ≡ lo → g.hi ≡ hi → result ≡ choose_bit g s (record { app = app.now; wrk = work.now }) }
{
    if !allows_region(s, 2) {
        return work_bit(s, work);
    }
    match high_bit(app, lo, hi) {
        None => work_bit(s, work),
        Some((offset, bit)) => {
            let (o, b) = (offset as u16, bit as u16);
            fit(
                s.id,
                0,
                bit,
                Placement::ApplicationBit { offset: o, bit: b },
            )
        }
    }
}

// A storage at its fixed place, whose room must be clear and large enough.
#[tactic(auto, unfolding(crate::specs::Place::choose_fixed, fields::specs::Pick::pick))]
pub fn choose_fixed(s: Storage, p: Placement, app: &[u8], work: &[u8]) -> Result<Placement, Refusal>
    requires { Small (room s.len p) }
    ensures { result ≡ choose_fixed s p (record { app = app.now; wrk = work.now }) }
{
    if !kind_matches(s.kind, s.len, code_of(p)) {
        Err(Refusal::BadFixed(s.id as usize))
    } else if is_clear(app, work, room_of(s.len, p)) && is_alone(s.len, p) {
        Ok(p)
    } else {
        Err(Refusal::Conflict(s.id as usize))
    }
}

// Bytes after application RAM: Flash, then the work map, whose bytes below `low` are taken.
#[tactic(auto, using(crate::proofs::Choosing::found_below), unfolding(crate::specs::Place::work_bytes, fields::specs::Pick::pick))]
fn work_bytes(s: Storage, work: &[u8], low: usize) -> Result<Placement, Refusal>
    requires { (length work.now ≤ 512) × TakenBelow work.now low }
    ensures { result ≡ work_bytes s work.now }
{
    if allows_region(s, 7) {
        return Ok(Placement::Flash);
    }
    if !allows_work(s) {
        return Err(Refusal::NoPlace(s.id as usize));
    }
    name_bytes(s, first_clear(work, low, s.len as usize))
}

// Bytes: the first clear window of application RAM, where that is allowed; without one a direct storage is refused, and others try on.
#[tactic(auto, unfolding(crate::specs::Place::choose_bytes, fields::specs::Pick::pick))]
pub fn choose_bytes(s: Storage, app: &[u8], work: &[u8], floor: Floor) -> Result<Placement, Refusal>
    requires { (length app.now ≤ 256) × (length work.now ≤ 512) × Solid floor app.now work.now }
    ensures { result ≡ choose_bytes s (record { app = app.now; wrk = work.now }) }
{
    if !allows_region(s, 2) {
        return work_bytes(s, work, floor.work);
    }
    match first_clear(app, floor.app, s.len as usize) {
        Some(offset) => Ok(Placement::ApplicationRam {
            offset: offset as u16,
        }),
        None if s.direct => Err(Refusal::ApplicationFull(s.len as usize)),
        None => work_bytes(s, work, floor.work),
    }
}

// A storage that is not fixed. A bit is looked for in bytes lo to hi - 1 of application RAM.
#[tactic(auto, unfolding(crate::specs::Place::choose_free, fields::specs::Pick::pick))]
pub fn choose_free(
    s: Storage,
    app: &[u8],
    work: &[u8],
    floor: Floor,
    lo: usize,
    hi: usize,
) -> Result<Placement, Refusal>
    requires { (hi ≤ length app.now) × (length app.now ≤ 256) × (length work.now ≤ 512) × Solid floor app.now work.now }
    ensures { (g : Given) → g.lo ≡ lo → g.hi ≡ hi → result ≡ choose_free g s (record { app = app.now; wrk = work.now }) }
{
    if sits_in_flag(s) {
        Ok(Placement::CarryFlag)
    } else if takes_bit(s.kind) {
        choose_bit(s, app, work, lo, hi)
    } else {
        choose_bytes(s, app, work, floor)
    }
}

// A place of its own for a storage.
#[tactic(auto, unfolding(crate::specs::Place::choose))]
pub fn choose(
    s: Storage,
    app: &[u8],
    work: &[u8],
    floor: Floor,
    lo: usize,
    hi: usize,
) -> Result<Placement, Refusal>
    requires { (hi ≤ length app.now) × (length app.now ≤ 256) × (length work.now ≤ 512) × FixedSmall s.len s.fixed × Solid floor app.now work.now }
    ensures { (g : Given) → g.lo ≡ lo → g.hi ≡ hi → result ≡ choose g s (record { app = app.now; wrk = work.now }) }
{
    match s.fixed {
        None => choose_free(s, app, work, floor, lo, hi),
        Some(p) => choose_fixed(s, p, app, work),
    }
}

// The same choices, in the memories as far as they are taken.
impl Memory<'_> {
    // A place for bytes.
    pub fn choose_bytes(&self, s: Storage) -> Result<Placement, Refusal>
        ensures { result ≡ choose_bytes s (record { app = self.now.app.now; wrk = self.now.work.now }) }
    {
        choose_bytes(s, self.app, self.work, self.floor)
    }

    // A place for a storage that is not fixed.
    pub fn choose_free(&self, s: Storage, lo: usize, hi: usize) -> Result<Placement, Refusal>
        requires { hi ≤ length self.now.app.now }
        ensures { (g : Given) → g.lo ≡ lo → g.hi ≡ hi → result ≡ choose_free g s (record { app = self.now.app.now; wrk = self.now.work.now }) }
    {
        choose_free(s, self.app, self.work, self.floor, lo, hi)
    }

    // A place for any storage.
    pub fn choose(&self, s: Storage, lo: usize, hi: usize) -> Result<Placement, Refusal>
        requires room { hi ≤ length self.now.app.now }
        requires small { FixedSmall s.len s.fixed }
        ensures { (g : Given) → g.lo ≡ lo → g.hi ≡ hi → result ≡ choose g s (record { app = self.now.app.now; wrk = self.now.work.now }) }
    {
        choose(s, self.app, self.work, self.floor, lo, hi)
    }
}
