// Part 1 by columns, and back. `s` is part 1 of a sheet, `c` the same marks by columns, `n` their number and `m` a mark's.
#![tactic(auto)]

ghost use Rattle.std.specs.Prelude.{◌≡◌, ◌+◌, ◌*◌, ◌<◌, ◌≤◌, length};
ghost use Rattle.std.proofs.lemmas.List.Edits.{sets};
ghost use Rattle.marks.specs.Marks.{mark_size};
ghost use Rattle.columns.specs.Columns.{to_columns, from_columns};
ghost use Rattle.columns.specs.Steps.{fields_at, entries_at, mark_with, columns_of, entered, alike};

use marks::{KIND_OFFSET, MARK_SIZE, PRIORITY_OFFSET, RADIUS_OFFSET, TAG_OFFSET, Y_OFFSET};

// The values of one mark, which stands at a place x, y or at its difference from the place before.
#[derive(Clone, Copy)]
struct Fields {
    x: u16,
    y: u16,
    radius: u16,
    priority: u16,
    kind: u8,
    tag: u16,
}

// ---- marks to columns

// The values of mark m.
fn fields_at(s: &[u8], m: usize) -> Fields
    requires { mark_size * m + mark_size ≤ length s.now }
    ensures { result ≡ fields_at s.now m }
{
    let at = MARK_SIZE * m;
    Fields {
        x: numbers::read_u16(s, at),
        y: numbers::read_u16(s, at + Y_OFFSET),
        radius: numbers::read_u16(s, at + RADIUS_OFFSET),
        priority: numbers::read_u16(s, at + PRIORITY_OFFSET),
        kind: numbers::read(s, at + KIND_OFFSET, 1) as u8,
        tag: numbers::read_u16(s, at + TAG_OFFSET),
    }
}

// Writes the values of mark m into their columns. Those of n marks begin at n times the place that a value has in a mark.
// Kept: `out` and the number of marks stay two parameters, since `out` is lent for writing.
fn enter(out: &mut [u8], n: usize, m: usize, fields: Fields)
    requires { (m < n) × (mark_size * n ≤ length out.old) }
    ensures { out.new ≡ entered (columns_of (alike fields) n) m out.old }
{
    let pair = 2 * m;
    numbers::write(out, pair, 2, fields.x as u64);
    numbers::write(out, Y_OFFSET * n + pair, 2, fields.y as u64);
    numbers::write(out, RADIUS_OFFSET * n + pair, 2, fields.radius as u64);
    numbers::write(out, PRIORITY_OFFSET * n + pair, 2, fields.priority as u64);
    numbers::write(out, KIND_OFFSET * n + m, 1, fields.kind as u64);
    numbers::write(out, TAG_OFFSET * n + pair, 2, fields.tag as u64);
}

// Rearranges n marks by columns: one pass fills all columns side by side.
pub fn put_columns(out: &mut [u8], s: &[u8], n: usize)
    requires { (mark_size * n ≤ length out.old) × (mark_size * n ≤ length s.now) }
    ensures { out.new ≡ sets out.old 0 (to_columns s.now n) }
{
    let mut last_x = 0;
    let mut last_y = 0;
    for m in 0..n {
        let fields = fields_at(s, m);
        let x = fields.x.wrapping_sub(last_x);
        let y = fields.y.wrapping_sub(last_y);
        enter(out, n, m, Fields { x, y, ..fields });
        last_x = fields.x;
        last_y = fields.y;
    }
}

// ---- columns to marks

// The values that mark m has in the columns of n marks.
fn entries_at(c: &[u8], n: usize, m: usize) -> Fields
    requires { (m < n) × (mark_size * n ≤ length c.now) }
    ensures { result ≡ entries_at c.now n m }
{
    let pair = 2 * m;
    Fields {
        x: numbers::read_u16(c, pair),
        y: numbers::read_u16(c, Y_OFFSET * n + pair),
        radius: numbers::read_u16(c, RADIUS_OFFSET * n + pair),
        priority: numbers::read_u16(c, PRIORITY_OFFSET * n + pair),
        kind: numbers::read(c, KIND_OFFSET * n + m, 1) as u8,
        tag: numbers::read_u16(c, TAG_OFFSET * n + pair),
    }
}

// Writes the 11 bytes of a mark of these values.
fn put_mark(out: &mut [u8], at: usize, fields: Fields)
    requires { at + mark_size ≤ length out.old }
    ensures { out.new ≡ sets out.old at (mark_with fields) }
{
    numbers::write(out, at, 2, fields.x as u64);
    numbers::write(out, at + Y_OFFSET, 2, fields.y as u64);
    numbers::write(out, at + RADIUS_OFFSET, 2, fields.radius as u64);
    numbers::write(out, at + PRIORITY_OFFSET, 2, fields.priority as u64);
    numbers::write(out, at + KIND_OFFSET, 1, fields.kind as u64);
    numbers::write(out, at + TAG_OFFSET, 2, fields.tag as u64);
}

// Rearranges the columns of n marks into marks; x and y are the sums of the differences passed.
pub fn put_marks(out: &mut [u8], c: &[u8], n: usize)
    requires { (mark_size * n ≤ length out.old) × (mark_size * n ≤ length c.now) }
    ensures { out.new ≡ sets out.old 0 (from_columns c.now n) }
{
    let mut x: u16 = 0;
    let mut y: u16 = 0;
    for m in 0..n {
        let fields = entries_at(c, n, m);
        x = x.wrapping_add(fields.x);
        y = y.wrapping_add(fields.y);
        put_mark(out, MARK_SIZE * m, Fields { x, y, ..fields });
    }
}
