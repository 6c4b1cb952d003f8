// Part 3 of a sheet, the index: its check. `marks`, `schedule` and `index` are the bytes of parts 1, 2 and 3; an `axis` is true for x.
#![tactic(auto)]

ghost use Rattle.std.specs.Prelude.{◌≡◌, true, ◌↔◌, ◌+◌, ◌*◌, ◌<◌, ◌≤◌, length};
ghost use Rattle.lists.specs.Blocks.{block};
ghost use Rattle.marks.specs.Marks.{mark_size};
ghost use Rattle.elimination.specs.Records.{record_size};
ghost use Rattle.index.specs.Index.{outlasts, beats, coordinate, axis_key, index_entry_size, is_index};
ghost use Rattle.index.specs.Valid.{heads};
ghost use Rattle.index.specs.Blocks.{entry_at};
ghost use Rattle.index.specs.Check.{key_bound, keys_found, join_spans, side, join_keys, HeadCheckable, BlockCheckable, Checkable, AllBelow};

use fractions::Value;

// ---- who is removed later

// Is mark a with the removal value v removed later than b with w, or at an equal value with the lower number?
pub fn outlasts(v: Value, a: usize, w: Value, b: usize) -> bool
    ensures { result ≡ outlasts v a w b }
{
    fractions::later(v, w) || (fractions::level(v, w) && a < b)
}

// The same of the values that their records name.
pub fn beats(schedule: &[u8], a: usize, b: usize) -> bool
    requires { (record_size * a + record_size ≤ length schedule.now) × (record_size * b + record_size ≤ length schedule.now) }
    ensures { result ≡ beats schedule.now a b }
{
    let v = elimination::value_at(schedule, a);
    let w = elimination::value_at(schedule, b);
    outlasts(v, a, w, b)
}

// ---- the keys by x and by y

// A mark's x or y, shifted.
pub fn coordinate(marks: &[u8], axis: bool, m: usize) -> u64
    requires { mark_size * m + mark_size ≤ length marks.now }
    ensures { (result ≡ coordinate marks.now axis m) × (result < 65536) }
{
    let place = if axis {
        marks::place_x(marks, m)
    } else {
        marks::place_y(marks, m)
    };
    marks::shifted(place) as u64
}

// A mark's coordinate and number, as one number: equal coordinates are ordered by number.
pub fn axis_key(marks: &[u8], axis: bool, m: usize) -> u64
    requires { (mark_size * m + mark_size ≤ length marks.now) × (m < 65536) }
    ensures { (result ≡ axis_key marks.now axis m) × (result < key_bound) }
{
    coordinate(marks, axis, m) * 65536 + m as u64
}

// ---- the check of a block

// Bytes of a number of the index.
pub const INDEX_ENTRY_SIZE: usize = 2;

// Number i of the index.
pub fn entry(index: &[u8], i: usize) -> usize
    requires { index_entry_size * i + index_entry_size ≤ length index.now }
    ensures { (result ≡ entry_at index.now i) × (result < 65536) }
{
    numbers::read_u16(index, INDEX_ENTRY_SIZE * i) as usize
}

// No key reaches this: a coordinate and a number have 16 bits each.
const KEY_BOUND: u64 = 4294967296;

// The keys of a block on one axis: the least, and one past the greatest.
#[derive(Clone, Copy)]
struct Span {
    low: u64,
    high: u64,
}

impl Span {
    // Without keys the least is past every key, and none is below `high`.
    const EMPTY: Self = Span {
        low: KEY_BOUND,
        high: 0,
    };

    // The span of two halves and a root with this key.
    fn join(self, other: Self, key: u64) -> Self
        requires { key < key_bound }
        ensures { result ≡ join_spans key self other }
    {
        Span {
            low: key.min(self.low.min(other.low)),
            high: (key + 1).max(self.high.max(other.high)),
        }
    }
}

// The keys of a block by x and by y.
#[derive(Clone, Copy)]
struct Keys {
    x: Span,
    y: Span,
}

impl Keys {
    const EMPTY: Self = Keys {
        x: Span::EMPTY,
        y: Span::EMPTY,
    };

    // The keys by one axis.
    fn side(self, axis: bool) -> Span
        ensures { result ≡ side axis self }
    {
        if axis { self.x } else { self.y }
    }

    // The keys of two halves and of their root, which has the keys kx and ky.
    fn join(self, other: Self, kx: u64, ky: u64) -> Self
        requires { (kx < key_bound) × (ky < key_bound) }
        ensures { result ≡ join_keys kx ky self other }
    {
        Keys {
            x: self.x.join(other.x, kx),
            y: self.y.join(other.y, ky),
        }
    }
}

// Does the root beat the head of a half, where the half has one?
fn beats_head(schedule: &[u8], index: &[u8], root: usize, lo: usize, size: usize) -> bool
    requires { HeadCheckable schedule.now index.now root lo size }
    ensures { result ≡ heads (beats schedule.now) root (block (entry_at index.now) lo size) }
{
    size == 0 || beats(schedule, root, entry(index, lo))
}

// The keys of the `size` numbers of the index from number `lo` on, where these are a tree. A block is tested by its root and the keys of its
// two halves alone, so the whole check takes time in proportion to n.
fn check_block(
    marks: &[u8],
    schedule: &[u8],
    index: &[u8],
    lo: usize,
    size: usize,
    axis: bool,
) -> Option<Keys>
    requires { BlockCheckable marks.now schedule.now index.now lo size }
    ensures { result ≡ keys_found marks.now schedule.now axis (block (entry_at index.now) lo size) }
{
    if size == 0 {
        return Some(Keys::EMPTY);
    }
    let root = entry(index, lo);
    // Of the others the first half is the larger: half of `size`, rounded down, since `size` counts the root too.
    let first = size / 2;
    let second = size - 1 - first;
    let p = lo + 1;
    let q = p + first;
    let beats_left = beats_head(schedule, index, root, p, first);
    let beats_right = beats_head(schedule, index, root, q, second);
    if !(beats_left & beats_right) {
        return None;
    }
    let left = check_block(marks, schedule, index, p, first, !axis)?;
    let right = check_block(marks, schedule, index, q, second, !axis)?;
    let kx = axis_key(marks, true, root);
    let ky = axis_key(marks, false, root);
    let keys = left.join(right, kx, ky);
    (left.side(axis).high <= right.side(axis).low).then_some(keys)
}

// ---- question 9

// Is every number of the index below n?
fn all_below(index: &[u8], n: usize) -> bool
    requires { index_entry_size * n ≤ length index.now }
    ensures { (result ≡ true) ↔ AllBelow index.now n }
{
    (0..n).all(|i| entry(index, i) < n)
}

// Is the index the tree that the n marks and their schedule give?
pub fn is_index(marks: &[u8], schedule: &[u8], index: &[u8], n: usize) -> bool
    requires { Checkable marks.now schedule.now index.now n }
    ensures { result ≡ is_index marks.now schedule.now index.now n }
{
    all_below(index, n) && check_block(marks, schedule, index, 0, n, true).is_some()
}
