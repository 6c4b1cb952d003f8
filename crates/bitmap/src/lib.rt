// The map of one bit a mark: mark m is bit m mod 8 of byte m / 8.
#![tactic(auto)]

ghost use Rattle.std.specs.Prelude.{◌≡◌, ◌*◌, ◌/◌, ◌<◌, ◌≤◌, length, take, IfSome};
ghost use Rattle.std.specs.Option.{unwrap_or};
ghost use Rattle.numbers.specs.Little.{le_at};
ghost use Rattle.bitmap.specs.Map.{map_size, bit_at, walk};
ghost use Rattle.bitmap.specs.Facts.{bit_of, count_bits, BitSet, MapCleared, NextBit};

// Mark m's bit, 0 or 1.
pub fn test_bit(map: &[u8], m: usize) -> u8
    requires { m / 8 < length map.now }
    ensures { result ≡ bit_at map.now m }
{
    (map[m / 8] >> (m % 8)) & 1
}

// Sets mark m's bit.
pub fn set_bit(map: &mut [u8], m: usize)
    requires { m / 8 < length map.old }
    ensures { BitSet map.old m map.new }
{
    map[m / 8] |= 1u8 << (m % 8);
}

// The first `size` bytes become 0.
pub fn clear(map: &mut [u8], size: usize)
    requires { size ≤ length map.old }
    ensures { MapCleared size map.old map.new }
{
    map[..size].fill(0);
}

// The least set bit of `word` at or after `from`, if there is one.
fn next_in(word: u64, from: u32) -> Option<u32>
    requires { from < 64 }
    ensures next { NextBit word from (unwrap_or result 64) }
    ensures inside { IfSome result (λ r. r < 64) }
{
    let w = word >> from;
    if w == 0 {
        return None;
    }
    Some(from + w.trailing_zeros())
}

// How many bits of `word` are set.
fn ones_in(word: u64) -> u32
    ensures { result ≡ count_bits (bit_of word) 64 }
{
    word.count_ones()
}

// The 8 bytes from q on as one number. Those from `end` on count as 0, so that the last word is like the others.
fn word_at(map: &[u8], q: usize, end: usize) -> u64
    requires { (q ≤ end) × (end ≤ length map.now) }
    ensures { result ≡ le_at 8 (take end map.now) q }
{
    let left = end - q;
    if left < 8 {
        return numbers::read(map, q, left);
    }
    numbers::read(map, q, 8)
}

// How many bits of the first `size` bytes are set. The map of 4,096 marks has 512 bytes.
pub fn count(map: &[u8], size: usize) -> usize
    requires { (size ≤ length map.now) × (size ≤ 512) }
    ensures { result ≡ count_bits (bit_at map.now) (8 * size) }
{
    let mut sum: usize = 0;
    for q in (0..size).step_by(8) {
        sum += ones_in(word_at(map, q, size)) as usize;
    }
    sum
}

// The least number at or after `start` and below n whose bit is set, else 65,535. A turn looks at the 64 numbers of one
// word; a set bit of the last word may belong to a number that is not below n.
// Kept: 65,535 and no Option, since the definition `walk` gives that number; and `while`, since a turn goes on at the next word.
pub fn walk(map: &[u8], n: usize, start: usize) -> usize
    requires { (n ≤ 4096) × (map_size n ≤ length map.now) }
    ensures { result ≡ walk map.now n start }
{
    let size = n.div_ceil(8);
    let mut i = start;
    while i < n {
        let q = i / 64 * 8;
        if let Some(t) = next_in(word_at(map, q, size), (i % 64) as u32) {
            let r = q * 8 + t as usize;
            return if r < n { r } else { 65535 };
        }
        i = q * 8 + 64;
    }
    65535
}
