// Occupancy maps: which bits of a memory are taken.
// Knows bytes; gives the next clear byte, the first clear window, the clear bit that a search from the last byte down meets, and the taking of bytes and bits.
#![tactic(auto)]

ghost use Rattle.std.specs.Prelude.{◌≡◌, Some, ◌+◌, ◌≤◌, ◌<◌, length};
ghost use Rattle.maps.specs.Maps.{TakenBelow, NextClear, first_window, FoundIn, low_clear, high_bit, BitIn, clear_bytes, clear_bit, fill, set_bit};

// The first offset at or after `from` whose byte is 0, or the map's length. With `position` in place of the loop `first_clear` took 1.4 times as long.
pub fn next_clear(map: &[u8], from: usize) -> usize
    requires { from ≤ length map.now }
    ensures { NextClear map.now from result }
{
    for o in from..map.len() {
        if map[o] == 0 {
            return o;
        }
    }
    map.len()
}

// The least offset from which n bytes are clear. No window over a byte that is not 0 is, so that the search begins at `from`, below which there are such bytes
// only, and goes on at the next clear one. A window of no bytes is at offset 0.
// The inner loop counts by hand, so that a hit leaves both loops from inside it.
pub fn first_clear(map: &[u8], from: usize, n: usize) -> Option<usize>
    requires { TakenBelow map.now from }
    ensures { (result ≡ first_window n map.now) × FoundIn (length map.now) result }
{
    let mut o = if n == 0 { 0 } else { from };
    'search: loop {
        if map.len() <= o {
            break 'search None;
        }
        let mut k = 0;
        loop {
            if k == n {
                break 'search Some(o);
            }
            if map.len() <= o + k {
                break 'search None;
            }
            if map[o + k] != 0 {
                break;
            }
            k += 1;
        }
        o = next_clear(map, o + k + 1);
    }
}

// The lowest clear bit of a byte that is not full.
fn low_clear(b: u8) -> usize
    requires { b < 255 }
    ensures { (low_clear b ≡ Some result) × (result < 8) }
{
    u8::trailing_zeros(!b) as usize
}

// The offset of the highest of the bytes lo to hi - 1 that is not full, and its lowest clear bit.
pub fn high_bit(map: &[u8], lo: usize, hi: usize) -> Option<(usize, usize)>
    requires { hi ≤ length map.now }
    ensures { (result ≡ high_bit lo hi map.now) × BitIn hi result }
{
    for i in (lo..hi).rev() {
        if map[i] != 255 {
            return Some((i, low_clear(map[i])));
        }
    }
    None
}

// Do n bytes lie inside the map from `offset` on, all clear?
pub fn clear_bytes(map: &[u8], offset: usize, n: usize) -> bool
    requires { (offset < 65536) × (n < 65536) }
    ensures { result ≡ clear_bytes offset n map.now }
{
    offset + n <= map.len() && map[offset..offset + n].iter().all(|byte| *byte == 0)
}

// Does a byte lie inside the map, with this bit clear?
#[tactic(auto, unfolding(crate::specs::Maps::clear_bit, rows::specs::Row::bit, rows::specs::Row::digit))]
pub fn clear_bit(map: &[u8], offset: usize, bit: usize) -> bool
    requires { bit < 8 }
    ensures { result ≡ clear_bit offset bit map.now }
{
    offset < map.len() && (map[offset] >> bit) % 2 != 1
}

// Takes n bytes from `offset` on.
pub fn take_bytes(map: &mut [u8], offset: usize, n: usize)
    requires { offset + n ≤ length map.old }
    ensures { map.new ≡ fill offset n map.old }
{
    map[offset..offset + n].fill(255);
}

// Takes one bit of a byte.
pub fn take_bit(map: &mut [u8], offset: usize, bit: usize)
    requires { (offset < length map.old) × (bit < 8) }
    ensures { map.new ≡ set_bit offset bit map.old }
{
    map[offset] |= 1 << bit;
}
