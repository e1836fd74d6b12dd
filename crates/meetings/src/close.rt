// The graph, once every step is noted: each storage with the storages of the units that it meets, and each addressed one with all others of its owner.
ghost use Rattle.std.specs.Prelude.{◌≡◌, [], ◌+◌, ◌*◌, ◌≤◌, ◌<◌, eqb, ltb, length};
ghost use Rattle.rows.specs.Row.{member_at};
ghost use Rattle.fields.specs.Pick.{pick, ◌and◌};
ghost use Rattle.fields.specs.Record.{storage_in};
ghost use Rattle.storages.specs.File.{declared};
ghost use Rattle.units.specs.Sets.{each};
ghost use Rattle.meetings.specs.Members.{ahead, members};
ghost use Rattle.meetings.specs.Meeting.{storages_at};
ghost use Rattle.meetings.specs.Closing.{linked, apart, apart_all, closed, Above, own_pair, own_pairs, held_by};

use crate::meet::storage_of;
use crate::members::{low_bit, next_word};
use fields::bytes::{tail_of, u16_at};
use storages::opens_storage;

// Two storages meet, both ways; one does not meet itself.
pub fn link(graph: &mut [u64], i: usize, j: usize)
    requires { (length graph.old ≡ 1024) × (i < 256) × (j < 256) }
    ensures { graph.new ≡ linked (apart i j) graph.old }
{
    if i == j {
        return;
    }
    rows::insert(graph, i * 4, j);
    rows::insert(graph, j * 4, i);
}

// Storage i with the storages of the units in word n of a row, from the lowest bit up. What is left of the word is held in hand, so that no step waits for
// a load.
pub fn close_word(row: &[u64], n: usize, words: &[u32], graph: &mut [u64], i: usize)
    requires { (length row.now ≡ 8) × (n < 8) × (length words.now ≡ 512) × (length graph.old ≡ 1024) × (i < 256) }
    ensures { linked (apart_all i (storages_at words.now (ahead row.now (n * 64)))) graph.old
        ≡ linked (apart_all i (storages_at words.now (ahead row.now (n * 64 + 64)))) graph.new }
{
    let mut v = n * 64;
    let mut left = row[n];
    while left != 0 {
        let t = low_bit(left);
        link(graph, i, storage_of(words[v + t]));
        left = left >> t >> 1;
        v += t + 1;
    }
}

// Storage i with the storage of each unit that it meets, which `row` holds. Most ids are declared nowhere and meet nothing, so an empty row is passed over
// at once.
pub fn close_row(row: &[u64], words: &[u32], graph: &mut [u64], i: usize)
    requires { (length row.now ≡ 8) × (length words.now ≡ 512) × (length graph.old ≡ 1024) × (i < 256) }
    ensures { graph.new ≡ linked (apart_all i (storages_at words.now (members row.now))) graph.old }
{
    if next_word(row, 0) == 8 {
        return;
    }
    for n in 0..8 {
        close_word(row, n, words, graph, i);
    }
}

// A number above the ids of all storages with units: the others meet nothing.
pub fn ids_below(words: &[u32], count: usize) -> usize
    requires { (length words.now ≡ 512) × (count ≤ 512) }
    ensures { (result ≤ 256) × Above words.now count result }
{
    let mut top = 0;
    for n in 0..count {
        top = top.max(storage_of(words[n]) + 1);
    }
    top
}

// The first n storages, each with those that it meets.
pub fn close(meets: &[u64], words: &[u32], n: usize, graph: &mut [u64])
    requires { (length meets.now ≡ 2048) × (length words.now ≡ 512) × (n ≤ 256) × (length graph.old ≡ 1024) }
    ensures { graph.new ≡ closed meets.now words.now n graph.old }
{
    for i in 0..n {
        close_row(&meets[i * 8..i * 8 + 8], words, graph, i);
    }
}

// Two storages of one owner meet.
pub fn link_owned(graph: &mut [u64], id: usize, owner: u16, other: usize, other_owner: u16)
    requires { (length graph.old ≡ 1024) × (id < 256) }
    ensures { graph.new ≡ linked (pick (eqb other_owner owner and ltb other 256) (apart id other) []) graph.old }
{
    if other_owner == owner && other < 256 {
        link(graph, id, other);
    }
}

// The storage `id` with the one that stands at the front of a tail, where they have one owner.
pub fn hold_pair(tail: &[u8], graph: &mut [u64], id: usize, owner: u16)
    requires { (16 ≤ length tail.now) × (length graph.old ≡ 1024) × (id < 256) }
    ensures { graph.new ≡ linked (own_pair id owner (storage_in tail.now)) graph.old }
{
    link_owned(
        graph,
        id,
        owner,
        usize::from(u16_at(tail, 1)),
        u16_at(tail, 3),
    );
}

// The storage `id` with every other of its owner.
pub fn hold_all(file: &[u8], graph: &mut [u64], id: usize, owner: u16)
    requires { (7 ≤ length file.now) × (length graph.old ≡ 1024) × (id < 256) }
    ensures { graph.new ≡ linked (each (own_pair id owner) (declared file.now)) graph.old }
{
    let mut at = 7;
    while opens_storage(tail_of(file, at)) {
        hold_pair(tail_of(file, at), graph, id, owner);
        at += 16;
    }
}

// The storage `id`, if its address is taken, with every other of its owner.
pub fn hold_one(file: &[u8], addressed: &[u64], graph: &mut [u64], id: usize, owner: u16)
    requires { (7 ≤ length file.now) × (length addressed.now ≡ 4) × (length graph.old ≡ 1024) }
    ensures { graph.new ≡ linked (pick (ltb id 256 and member_at addressed.now 0 id)
        (each (own_pair id owner) (declared file.now)) []) graph.old }
{
    if id < 256 && rows::has(addressed, 0, id) {
        hold_all(file, graph, id, owner);
    }
}

// The storage at the front of a tail of the file, if its address is taken, with every other of its owner.
pub fn hold_at(file: &[u8], tail: &[u8], addressed: &[u64], graph: &mut [u64])
    requires { (7 ≤ length file.now) × (16 ≤ length tail.now) × (length addressed.now ≡ 4) × (length graph.old ≡ 1024) }
    ensures { graph.new ≡ linked (own_pairs addressed.now (declared file.now) (storage_in tail.now)) graph.old }
{
    hold_one(
        file,
        addressed,
        graph,
        usize::from(u16_at(tail, 1)),
        u16_at(tail, 3),
    );
}

// Every storage whose address is taken with all others of its owner.
pub fn hold(file: &[u8], addressed: &[u64], graph: &mut [u64])
    requires { (7 ≤ length file.now) × (length addressed.now ≡ 4) × (length graph.old ≡ 1024) }
    ensures { graph.new ≡ held_by file.now addressed.now graph.old }
{
    let mut at = 7;
    while opens_storage(tail_of(file, at)) {
        hold_at(file, tail_of(file, at), addressed, graph);
        at += 16;
    }
}
