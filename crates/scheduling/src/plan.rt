// The choice of a cell for each row, on which nothing but speed rests.
ghost use Rattle.std.specs.Prelude.{◌≡◌, ◌+◌, ◌*◌, ◌<◌, ◌≤◌, length};
ghost use Rattle.grid.specs.Table.{cell_count, table_size};
ghost use Rattle.searching.specs.Rows.{row_size};

use grid::GROUP_SIZE;
use marks::Label;

// What the rows fill: the least and the greatest shifted places, the least ones as their distance from 65,535, and the sum of the radii.
#[derive(Clone, Copy, Default)]
struct Cover {
    west: u16,
    east: u16,
    south: u16,
    north: u16,
    radii: u64,
}

impl Cover {
    // The same with one label more.
    fn extended(self, label: Label) -> Self
        requires { self.radii ≤ 4294967296 }
        ensures { result.radii ≡ self.radii + label.radius }
    {
        let u = marks::shifted(label.x);
        let v = marks::shifted(label.y);
        Cover {
            west: self.west.max(65535 - u),
            east: self.east.max(u),
            south: self.south.max(65535 - v),
            north: self.north.max(v),
            radii: self.radii + label.radius as u64,
        }
    }
}

// How the cells stand: in one strip, or in groups of 4 by 4, of which so many stand in a column.
// Kept: an enum of its own, since `Strip` and `Groups` say what `None` and `Some` would not.
#[derive(Clone, Copy)]
enum Layout {
    Strip,
    Groups { rows: u8 },
}

// Where the cells lie: the least corner; the size of a cell and how the cells stand; how many groups there are, of which the last is for large
// marks; and the radius above which a mark is large. Places can be divided by the size, and there are groups for small and for large marks.
#[derive(Clone, Copy)]
pub(crate) struct Plan {
    x: u16,
    y: u16,
    width: u32,
    height: u32,
    layout: Layout,
    pub(crate) groups: usize,
    large: u64,
    ghost sized: { (0 < width) × (0 < height) },
    ghost grouped: { (2 ≤ groups) × (groups ≤ 17) },
}

// So many groups of cells for n rows, for which there is room behind the rows and their links.
fn groups_for(n: usize) -> usize
    requires { (100 ≤ n) × (n ≤ 4096) }
    ensures { (2 ≤ result) × (result ≤ 17) × (table_size result ≤ 5 * n + 1024) }
{
    match n {
        0..400 => 3,
        400..768 => 5,
        768..2048 => 9,
        _ => 17,
    }
}

// The length of a range, which its ends give as a cover has them.
fn length_of(low: u16, high: u16) -> u32
    ensures { result ≤ 65536 }
{
    (low as u32 + high as u32).saturating_sub(65534).max(1)
}

// How many of so many groups of 4 by 4 cells stand side by side, a power of 2, so that cells are about square.
// Kept: the loop doubles the columns, and counts no index.
fn columns_for(across: u32, down: u32, small: u32) -> u32
    requires { (across ≤ 65536) × (down ≤ 65536) × (small ≤ 16) }
    ensures { (0 < result) × (result ≤ 32) }
{
    let mut columns = 1;
    while columns < small {
        if small * across < 2 * columns * columns * down {
            return columns;
        }
        columns = 2 * columns;
    }
    columns
}

// How many of so many groups then stand in a column.
fn rows_for(small: u32, columns: u32) -> u8
    requires { (small ≤ 16) × (0 < columns) }
    ensures { (0 < result) × (result ≤ 16) }
{
    (small / columns).max(1) as u8
}

// A cell of this many in a range of this length.
fn cell_size(length: u32, cells: u32) -> u32
    requires { (length ≤ 65536) × (0 < cells) }
    ensures { 0 < result }
{
    length / cells + 1
}

// How many whole cells of this size lie between `low` and a.
fn cells_between(low: u16, a: u16, size: u32) -> usize
    requires { 0 < size }
    ensures { result ≤ 65535 }
{
    (a.saturating_sub(low) as u32 / size) as usize
}

// The cell of a column and a row of cells, in groups of 4 by 4, of which so many stand in a column.
fn in_groups(column: usize, row: usize, rows: u8) -> usize
    requires { (column ≤ 65535) × (row ≤ 65535) }
    ensures { result ≤ 134217728 }
{
    let group = column / 4 * rows as usize + row / 4;
    16 * group + 4 * (column % 4) + row % 4
}

impl Plan {
    // The cells over the places of n rows.
    pub(crate) fn over_rows(w: &[u8], n: usize) -> Self
        requires { (160 ≤ n) × (n ≤ 4096) × (row_size * n ≤ length w.now) }
        ensures { table_size result.groups ≤ 5 * n + 1024 }
    {
        let mut cover = Cover::default();
        for q in 0..n {
            cover = cover.extended(searching::row_label(w, q));
        }
        Plan::over(cover, n)
    }

    // The cells over what n rows fill. Where that is narrow, they stand in one strip. A mark is large from three times the average radius on.
    fn over(cover: Cover, n: usize) -> Self
        requires { (cover.radii ≤ 4294967296) × (160 ≤ n) × (n ≤ 4096) }
        ensures { table_size result.groups ≤ 5 * n + 1024 }
    {
        let across = length_of(cover.west, cover.east);
        let down = length_of(cover.south, cover.north);
        let groups = groups_for(n);
        let small = groups as u32 - 1;
        let (width, height, layout) = if 32 * down <= across {
            (cell_size(across, 16 * small), 65536, Layout::Strip)
        } else if 32 * across <= down {
            (65536, cell_size(down, 16 * small), Layout::Strip)
        } else {
            let columns = columns_for(across, down, small);
            let rows = rows_for(small, columns);
            let width = cell_size(across, 4 * columns);
            (
                width,
                cell_size(down, 4 * rows as u32),
                Layout::Groups { rows },
            )
        };
        Plan {
            x: 65535 - cover.west,
            y: 65535 - cover.south,
            width,
            height,
            layout,
            groups,
            large: 3 * cover.radii / (n as u64 + 1),
        }
    }

    // The cell of a label, or for a large radius one of the last group. No place that was planned for lies beyond the last cell.
    pub(crate) fn cell_of(self, label: Label) -> usize
        ensures { result < cell_count self.groups }
    {
        let small = self.groups - 1;
        let column = cells_between(self.x, marks::shifted(label.x), self.width);
        let row = cells_between(self.y, marks::shifted(label.y), self.height);
        let cell = match self.layout {
            Layout::Strip => column + row,
            Layout::Groups { rows } => in_groups(column, row, rows),
        };
        if self.large < label.radius as u64 {
            (GROUP_SIZE * small + cell / small).min(GROUP_SIZE * self.groups - 1)
        } else {
            cell.min(GROUP_SIZE * small - 1)
        }
    }
}
