// Sheets written: the contents, and the bodies one behind the other.
#![tactic(auto)]

ghost use Rattle.std.specs.Prelude.{◌≡◌, map, ℕ, ◌+◌, ◌<◌, ◌≤◌, leb, length, get_or};
ghost use Rattle.std.proofs.lemmas.List.Edits.{sets};
ghost use Rattle.contents.specs.Contents.{contents_size, entry_size, sizes_of, entry, contents_of, chain, join, together};
ghost use Rattle.contents.specs.Questions.{top_code};

use arrayvec::ArrayVec;
use contents::{COUNT_SIZE, ENTRY_SIZE, LENGTH, OFFSET, TOP};

// Copies a body to `at`, and answers where it ends. Byte by byte: `copy_from_slice` would need `memmove` from outside the library.
pub fn put(out: &mut [u8], at: usize, body: &[u8]) -> usize
    requires { at + length body.now ≤ length out.old }
    ensures { (result ≡ at + length body.now) × (out.new ≡ sets out.old at body.now) }
{
    for j in 0..body.len() {
        out[at + j] = body[j];
    }
    at + body.len()
}

// Writes an entry of the contents at `at`.
fn put_entry(out: &mut [u8], at: usize, code: u16, offset: usize, size: usize)
    requires { at + entry_size ≤ length out.old }
    ensures { out.new ≡ sets out.old at (entry code offset size) }
{
    numbers::write(out, at, 2, u64::from(code));
    numbers::write(out, at + OFFSET, 4, offset as u64);
    numbers::write(out, at + LENGTH, 4, size as u64);
}

// Writes the contents of parts of these codes and sizes, and answers where the first body starts.
pub fn put_contents(out: &mut [u8], codes: &[u16], sizes: &[usize]) -> usize
    requires codes_len_bound { (length codes.now < 65536) × (length sizes.now ≡ length codes.now) × (contents_size (length codes.now) ≤ length out.old) }
    requires by_index { (i : ℕ) → get_or sizes.now i 0 < 4294967296 }
    ensures { (result ≡ contents_size (length codes.now)) × (out.new ≡ sets out.old 0 (contents_of codes.now sizes.now)) }
{
    let count = codes.len();
    numbers::write(out, 0, 2, count as u64);
    let start = ENTRY_SIZE * count + COUNT_SIZE;
    let mut at = COUNT_SIZE;
    let mut offset = start;
    for (&code, &size) in codes.iter().zip(sizes) {
        put_entry(out, at, code, offset, size);
        at += ENTRY_SIZE;
        offset += size;
    }
    start
}

// The sizes of at most as many bodies as there are codes.
fn sizes_of(bodies: &[&[u8]]) -> ArrayVec<usize, TOP>
    requires { length bodies.now ≤ top_code }
    ensures { result.items ≡ sizes_of (map (λ x. x.now) bodies.now) }
{
    let mut sizes = ArrayVec::new();
    for body in bodies {
        sizes.push(body.len());
    }
    sizes
}

// Copies the bodies one after the other from `start` on, and answers where the last ends.
fn put_bodies(out: &mut [u8], start: usize, bodies: &[&[u8]]) -> usize
    requires { start + length (chain (map (λ x. x.now) bodies.now)) ≤ length out.old }
    ensures { (result ≡ start + length (chain (map (λ x. x.now) bodies.now))) × (out.new ≡ sets out.old start (chain (map (λ x. x.now) bodies.now))) }
{
    let mut at = start;
    for body in bodies {
        at = put(out, at, body);
    }
    at
}

// Have the bodies, one after the other, at most `room` bytes? No sum is made, so none wraps.
fn fits(bodies: &[&[u8]], room: usize) -> bool
    ensures { result ≡ leb (length (chain (map (λ x. x.now) bodies.now))) room }
{
    let mut left = room;
    for body in bodies {
        let size = body.len();
        if left < size {
            return false;
        }
        left -= size;
    }
    true
}

// Has the sheet of the bodies under these codes at most `room` bytes?
// Kept: codes and bodies side by side, as the C interface lends them.
pub fn has_room(codes: &[u16], bodies: &[&[u8]], room: usize) -> bool
    requires { (length codes.now ≡ length bodies.now) × (length bodies.now ≤ top_code) }
    ensures { result ≡ leb (length (join (together codes.now (map (λ x. x.now) bodies.now)))) room }
{
    let head = ENTRY_SIZE * codes.len() + COUNT_SIZE;
    head <= room && fits(bodies, room - head)
}

// Writes the sheet of the bodies under these codes at the start of `out`, and answers its length.
pub fn put_parts(out: &mut [u8], codes: &[u16], bodies: &[&[u8]]) -> usize
    requires codes_len { (length codes.now ≡ length bodies.now) × (length bodies.now ≤ top_code) }
    requires bodies_in_bounds { (length (join (together codes.now (map (λ x. x.now) bodies.now))) ≤ length out.old) × (length (join (together codes.now (map (λ x. x.now) bodies.now))) < 4294967296) }
    ensures { (result ≡ length (join (together codes.now (map (λ x. x.now) bodies.now)))) × (out.new ≡ sets out.old 0 (join (together codes.now (map (λ x. x.now) bodies.now)))) }
{
    let sizes = sizes_of(bodies);
    let start = put_contents(out, codes, sizes.as_slice());
    put_bodies(out, start, bodies)
}
