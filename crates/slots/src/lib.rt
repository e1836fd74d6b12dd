// Slots: places that storages of one owner, kind and length share.
// Knows storages; gives the slot as a struct with its placement as a choice inside it, and the list of open slots, to search and to append to.
#![tactic(auto)]

ghost use Rattle.std.specs.Prelude.{◌≡◌, not, ◌+◌, ◌≤◌, ◌<◌, eqb, length, get_or, set, replicate, IfSome};
ghost use Rattle.slots.specs.Slots.{no_slot, suits, passes, first_passing, FirstMarked, opened};

use storages::{Placement, Storage, allows_region, region_of};

// A slot: whom it serves, and where it lies.
#[derive(Clone, Copy)]
pub struct Slot {
    pub owner: u16,
    pub kind: u8,
    pub len: u16,
    pub placement: Placement,
}

// The open slots stand at the front of the list, in the order in which they opened.
#[derive(Clone, Copy)]
pub struct Slots {
    pub list: [Slot; 256],
    pub count: usize,
    pub ghost fits: { count ≤ 256 },
    pub ghost long: { length list ≡ 256 },
}

// The slot that a storage opens at a placement.
pub fn slot_of(s: Storage, p: Placement) -> Slot
    ensures { result ≡ opened s p }
{
    Slot {
        owner: s.owner,
        kind: s.kind,
        len: s.len,
        placement: p,
    }
}

// Does a slot suit a storage?
#[tactic(auto, unfolding(crate::specs::Slots::suits, fields::specs::Pick::pick))]
pub fn suits_storage(s: Storage, t: Slot) -> bool
    ensures { result ≡ suits s t }
{
    let region = region_of(t.placement);
    t.owner == s.owner
        && t.kind == s.kind
        && t.len == s.len
        && allows_region(s, region)
        && (!s.direct || region == 2)
}

// Slot t put at i into a lent list.
pub fn put(slots: &mut [Slot], i: usize, t: Slot)
    requires { i < length slots.old }
    ensures { slots.new ≡ set slots.old i t }
{
    slots[i] = t;
}

// Does a word mark a slot?
fn any_marked(marks: u64) -> bool
    ensures { result ≡ not (eqb marks 0) }
{
    marks != 0
}

// The first slot of a lent list that suits a storage, of those that a word marks: its bit b stands for number word + b, and the list's first slot has the number `base`.
fn walk_word(slots: &[Slot], s: Storage, base: usize, word: usize, marks: u64) -> Option<usize>
    requires { word < 256 }
    ensures { FirstMarked s slots.now base word marks result }
{
    let mut left = marks;
    while left != 0 {
        let bit = left.trailing_zeros();
        let k = word + bit as usize;
        if base <= k {
            let i = k - base;
            if slots.len() <= i {
                return None;
            }
            if suits_storage(s, slots[i]) {
                return Some(i);
            }
        }
        left &= !(1 << bit);
    }
    None
}

// The first slot of a lent list that suits a storage and that both rows hold. The rows know the list's first slot by the number `base`.
// A word that marks none is passed over.
pub fn walk(slots: &[Slot], s: Storage, free: &[u64], chosen: &[u64], base: usize) -> Option<usize>
    requires { (base + length slots.now ≤ 256) × (length free.now ≡ 4) × (length chosen.now ≡ 4) }
    ensures { result ≡ first_passing (λ i. passes s free.now chosen.now (base + i)) slots.now (length slots.now) }
{
    for w in base / 64..4 {
        let marks = free[w] & chosen[w];
        if any_marked(marks) {
            if let Some(i) = walk_word(slots, s, base, w * 64, marks) {
                return Some(i);
            }
        }
    }
    None
}

impl Slots {
    // No slot is open at first.
    #[inline(always)]
    pub fn new() -> Self
        ensures { (result.list ≡ replicate 256 no_slot) × (result.count ≡ 0) }
    {
        let nowhere = Slot {
            owner: 65535,
            kind: 3,
            len: 0,
            placement: Placement::Flash,
        };
        Slots {
            list: [nowhere; 256],
            count: 0,
        }
    }

    // How many slots are open.
    pub fn len(&self) -> usize
        ensures { (result ≡ self.now.count) × (result ≤ 256) }
    {
        self.count
    }

    // A storage opens a slot at a placement, behind those that are open.
    pub fn open(&mut self, s: Storage, p: Placement)
        requires { self.old.count < 256 }
        ensures { (self.new.list ≡ set self.old.list self.old.count (opened s p)) × (self.new.count ≡ self.old.count + 1) }
    {
        put(&mut self.list, self.count, slot_of(s, p));
        self.count += 1;
    }

    // The placement of slot k.
    pub fn placement(&self, k: usize) -> Placement
        requires { k < 256 }
        ensures { result ≡ (get_or self.now.list k no_slot).placement }
    {
        self.list[k].placement
    }

    // The first open slot that suits a storage and that both rows hold.
    pub fn search(&self, s: Storage, free: &[u64], chosen: &[u64]) -> Option<usize>
        requires { (length free.now ≡ 4) × (length chosen.now ≡ 4) }
        ensures first { result ≡ first_passing (passes s free.now chosen.now) self.now.list self.now.count }
        ensures below { IfSome result (λ k. k < self.now.count) }
    {
        walk(&self.list[..self.count], s, free, chosen, 0)
    }
}
