// Room in the two memories: whether it is clear, the taking of it, and how far up all is taken.
ghost use Rattle.std.specs.Prelude.{◌≡◌, ◌≤◌, length};
ghost use Rattle.places.specs.Memory.{map_of, clear_room, reserve, Solid};
ghost use Rattle.places.specs.Legal.{Small, Inside};

use maps::{clear_bit, clear_bytes, next_clear, take_bit, take_bytes};
use storages::{Room, Space};

// An offset for each memory below which no byte is clear: no search for a window need begin lower.
#[derive(Clone, Copy)]
pub struct Floor {
    pub app: usize,
    pub work: usize,
}

// The two memories as far as they are taken: the occupancy maps of application and work RAM, and the floor of each.
#[derive(Drop)]
pub struct Memory<'a> {
    pub app: &'a mut [u8],
    pub work: &'a mut [u8],
    pub floor: Floor,
    pub ghost app_short: { length app.now ≤ 256 },
    pub ghost work_short: { length work.now ≤ 512 },
    pub ghost solid: { Solid floor app.now work.now },
}

// The map of a space.
fn map_of<'m>(app: &'m [u8], work: &'m [u8], space: Space) -> &'m [u8]
    ensures { result.now ≡ map_of space (record { app = app.now; wrk = work.now }) }
{
    match space {
        Space::App => app,
        Space::Work => work,
    }
}

// Is the room inside its memory, and clear?
#[tactic(auto, unfolding(crate::specs::Memory::clear_room))]
pub fn is_clear(app: &[u8], work: &[u8], room: Room) -> bool
    requires { Small room }
    ensures { result ≡ clear_room (record { app = app.now; wrk = work.now }) room }
{
    match room {
        Room::Nowhere => true,
        Room::Bytes {
            space,
            offset,
            count,
        } => clear_bytes(map_of(app, work, space), offset as usize, count as usize),
        Room::OneBit { space, offset, bit } => clear_bit(
            map_of(app, work, space),
            offset as usize,
            bit as usize,
        ),
    }
}

// Takes the room.
#[tactic(auto, unfolding(crate::specs::Memory::reserve))]
pub fn take_room(app: &mut [u8], work: &mut [u8], room: Room)
    requires { Inside (length app.old) (length work.old) room }
    ensures { (record { app = app.new; wrk = work.new }) ≡ reserve room (record { app = app.old; wrk = work.old }) }
{
    match room {
        Room::Nowhere => {}
        Room::Bytes {
            space,
            offset,
            count,
        } => match space {
            Space::App => take_bytes(app, offset as usize, count as usize),
            Space::Work => take_bytes(work, offset as usize, count as usize),
        }
        Room::OneBit { space, offset, bit } => match space {
            Space::App => take_bit(app, offset as usize, bit as usize),
            Space::Work => take_bit(work, offset as usize, bit as usize),
        }
    }
}

// The floor up to the first byte that is clear now.
#[tactic(auto, using(maps::proofs::Laws::taken_inside, maps::proofs::Laws::taken_next))]
pub fn raise(floor: Floor, app: &[u8], work: &[u8]) -> Floor
    requires { Solid floor app.now work.now }
    ensures { Solid result app.now work.now }
{
    Floor {
        app: next_clear(app, floor.app),
        work: next_clear(work, floor.work),
    }
}

impl Memory<'_> {
    // Takes the room. What is taken stays taken, so the floor holds on.
    pub fn take(&mut self, room: Room)
        requires { Inside (length self.old.app.now) (length self.old.work.now) room }
        ensures taken { (record { app = self.new.app.now; wrk = self.new.work.now }) ≡ reserve room (record { app = self.old.app.now; wrk = self.old.work.now }) }
        ensures kept { (length self.new.app.now ≡ length self.old.app.now) × (length self.new.work.now ≡ length self.old.work.now) }
    {
        take_room(self.app, self.work, room);
    }

    // The raised floor. It only reads, so that its caller knows the maps to stay.
    fn raised(&self) -> Floor
        ensures { Solid result self.now.app.now self.now.work.now }
    {
        raise(self.floor, self.app, self.work)
    }

    // Raises the floor up to the first byte that is clear now.
    pub fn raise(&mut self)
        ensures { (self.new.app.now ≡ self.old.app.now) × (self.new.work.now ≡ self.old.work.now) }
    {
        self.floor = self.raised();
    }
}
