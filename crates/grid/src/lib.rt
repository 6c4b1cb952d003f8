// Rows by place: regions, which are cells and groups of 16 cells. Each cell has a chain of its rows, and each cell and each group a box around the
// places of its rows, their largest radius and their latest removal value, so that a search can pass over what touches too late, or holds nobody
// that lives until it touches. Nothing but speed rests on the choice of a row's cell. The table stands in lent bytes `w`, from `at` on: the
// regions of the cells, those of the groups, and then a link for each row.
#![tactic(auto)]

ghost use Rattle.std.specs.Prelude.{◌≡◌, ◌+◌, ◌*◌, ◌/◌, ◌<◌, ◌≤◌, pos, length};
ghost use Rattle.std.proofs.lemmas.List.Edits.{sets};
ghost use Rattle.fractions.specs.Order.{Small};
ghost use Rattle.grid.specs.Table.{cell_count, region_count, region_size, table_size, region_at, side_bytes, entry_of, link_from, link_at, last_at};
ghost use Rattle.grid.specs.Boxes.{outside, bound_of, later_of, widened};
ghost use Rattle.grid.specs.Steps.{LinkPut, RegionPut, Cleared, Added};

use fractions::Fraction;
use marks::Label;

// The cells of a group.
pub const GROUP_SIZE: usize = 16;

// The regions of a group: its cells and itself.
const GROUP_REGIONS: usize = 17;

// The bytes of a region, and where the fields behind its west side begin.
const REGION_SIZE: usize = 24;

const EAST: usize = 2;

const SOUTH: usize = 4;

const NORTH: usize = 6;

const RADIUS: usize = 8;

const LAST: usize = 10;

const LATEST_NUM: usize = 12;

const LATEST_DEN: usize = 20;

// The bytes of the regions of a group.
pub const GROUP_BYTES: usize = 408;

// ---- regions

// What is known of the rows of a region: the sides of a box around their places, which are shifted to be at least 0, their largest radius and
// their latest removal value; and of a cell one more than its last row, or 0. The lower sides are kept as their distance from 65,535, so that every
// side of an empty box is 0, and each grows.
// Kept: `last` is an entry as the bytes have it, 0 where there is no row: the definition `region_at` reads it so.
#[derive(Clone, Copy, Debug, PartialEq, Eq)]
pub struct Region {
    pub west: u16,
    pub east: u16,
    pub south: u16,
    pub north: u16,
    pub radius: u16,
    pub last: u16,
    pub latest: Fraction,
}

impl Region {
    // A region without a row. No row is removed later than its latest removal value, which is 0.
    const EMPTY: Self = Region {
        west: 0,
        east: 0,
        south: 0,
        north: 0,
        radius: 0,
        last: 0,
        latest: Fraction { num: 0, den: 1 },
    };

    // The region with one row more, of this label and removal value, and with this last row.
    fn taking_in(self, label: Label, value: Fraction, last: u16) -> Self
        requires { Small self.latest × Small value }
        ensures { result ≡ widened self label value last }
    {
        let x = marks::shifted(label.x);
        let y = marks::shifted(label.y);
        Region {
            west: self.west.max(65535 - x),
            east: self.east.max(x),
            south: self.south.max(65535 - y),
            north: self.north.max(y),
            radius: self.radius.max(label.radius),
            last,
            latest: later_of(self.latest, value),
        }
    }

    // The touching value of a label and one at the nearest place of the region's box, with its largest radius.
    pub fn bound(self, shape: u8, label: Label) -> Fraction
        requires { (self.radius ≤ 16383) × (label.radius ≤ 16383) }
        ensures { (result ≡ bound_of shape self label) × Small result }
    {
        let dx = gap(self.west, self.east, marks::shifted(label.x));
        let dy = gap(self.south, self.north, marks::shifted(label.y));
        let radii = self.radius as u32 + label.radius as u32;
        Fraction {
            num: marks::distance(shape, dx, dy),
            den: radii * radii,
        }
    }
}

// The later of two removal values.
fn later_of(f: Fraction, g: Fraction) -> Fraction
    requires { Small f × Small g }
    ensures { result ≡ later_of f g }
{
    if fractions::less_small(f, g) { g } else { f }
}

// How far a lies from the numbers from 65,535 - low to high: 0 among them. One of the two differences is 0 where there is one.
fn gap(low: u16, high: u16, a: u16) -> i32
    ensures { (result ≡ pos (outside low high a)) × (outside low high a ≤ 65535) }
{
    let below = (65535 - low).saturating_sub(a);
    let above = a.saturating_sub(high);
    (below as u32 + above as u32) as i32
}

// Region i of the table at `at`.
pub fn region_at(w: &[u8], at: usize, i: usize) -> Region
    requires { at + region_size * i + region_size ≤ length w.now }
    ensures { result ≡ region_at w.now at i }
{
    let from = at + REGION_SIZE * i;
    Region {
        west: numbers::read_u16(w, from),
        east: numbers::read_u16(w, from + EAST),
        south: numbers::read_u16(w, from + SOUTH),
        north: numbers::read_u16(w, from + NORTH),
        radius: numbers::read_u16(w, from + RADIUS),
        last: numbers::read_u16(w, from + LAST),
        latest: Fraction {
            num: numbers::read(w, from + LATEST_NUM, 8),
            den: numbers::read_u32(w, from + LATEST_DEN),
        },
    }
}

// Writes the sides of a region that stands at `from`.
fn put_sides(w: &mut [u8], from: usize, r: Region)
    requires { from + 8 ≤ length w.old }
    ensures { w.new ≡ sets w.old from (side_bytes r) }
{
    numbers::write(w, from, 2, r.west as u64);
    numbers::write(w, from + EAST, 2, r.east as u64);
    numbers::write(w, from + SOUTH, 2, r.south as u64);
    numbers::write(w, from + NORTH, 2, r.north as u64);
}

// Writes region i of the table at `at`.
fn put_region(w: &mut [u8], at: usize, i: usize, r: Region)
    requires { at + region_size * i + region_size ≤ length w.old }
    ensures { RegionPut w.old w.new at i r }
{
    let from = at + REGION_SIZE * i;
    put_sides(w, from, r);
    numbers::write(w, from + RADIUS, 2, r.radius as u64);
    numbers::write(w, from + LAST, 2, r.last as u64);
    numbers::write(w, from + LATEST_NUM, 8, r.latest.num);
    numbers::write(w, from + LATEST_DEN, 4, r.latest.den as u64);
}

// No row is in any cell.
pub fn clear(w: &mut [u8], at: usize, groups: usize)
    requires { at + table_size groups ≤ length w.old }
    ensures { Cleared w.old w.new at groups (region_count groups) }
{
    for i in 0..GROUP_REGIONS * groups {
        put_region(w, at, i, Region::EMPTY);
    }
}

// ---- chains

// The row of an entry, which is one more than its place, or 0 for none.
fn row_of(entry: u16) -> Option<usize>
    ensures { entry_of result ≡ entry }
{
    (entry as usize).checked_sub(1)
}

// The last row of cell c.
pub fn last_row(w: &[u8], at: usize, c: usize) -> Option<usize>
    requires { at + region_size * c + region_size ≤ length w.now }
    ensures { entry_of result ≡ last_at w.now at c }
{
    row_of(numbers::read_u16(w, at + REGION_SIZE * c + LAST))
}

// The row before row q in its cell.
pub fn previous_row(w: &[u8], at: usize, groups: usize, q: usize) -> Option<usize>
    requires { link_from at groups q + 2 ≤ length w.now }
    ensures { entry_of result ≡ link_at w.now at groups q }
{
    row_of(numbers::read_u16(w, at + GROUP_BYTES * groups + 2 * q))
}

// Makes `before` the link of row q: one more than the row before it in its cell, or 0, also for a row that is in no cell.
// Kept: `before` is the entry itself, as the bytes have it (the definition `LinkPut`).
pub fn put_link(w: &mut [u8], at: usize, groups: usize, q: usize, before: u16)
    requires { link_from at groups q + 2 ≤ length w.old }
    ensures { LinkPut w.old w.new at groups q before }
{
    numbers::write(w, at + GROUP_BYTES * groups + 2 * q, 2, before as u64);
}

// Row p, with this label and removal value, goes into cell c and its group.
// Kept: `at` and `groups` stay two parameters, since each clause here bounds another index of `w`, which is lent for writing.
pub fn add(
    w: &mut [u8],
    at: usize,
    groups: usize,
    p: usize,
    c: usize,
    label: Label,
    value: Fraction,
)
    requires p_bound { (p < 4096) × (c < cell_count groups) × (link_from at groups p + 2 ≤ length w.old) × Small value }
    requires small { Small (region_at w.old at c).latest × Small (region_at w.old at (cell_count groups + c / 16)).latest }
    ensures { Added w.old w.new at groups p c label value }
{
    let g = GROUP_SIZE * groups + c / GROUP_SIZE;
    let own = region_at(w, at, c);
    let group = region_at(w, at, g);
    put_link(w, at, groups, p, own.last);
    put_region(w, at, c, own.taking_in(label, value, p as u16 + 1));
    put_region(w, at, g, group.taking_in(label, value, 0));
}
