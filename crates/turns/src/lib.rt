// Quarter turns of places.
#![tactic(auto)]

ghost use Rattle.std.specs.Prelude.{◌≡◌, ◌<◌, ◌≤◌};
ghost use Rattle.turns.specs.Turns.{row_by_column, product_at, times, turn, applied};
ghost use Rattle.turns.specs.Small.{UpTo, SmallRow, Small, Within};

#[derive(Clone, Copy, Debug, PartialEq, Eq)]
pub struct Place {
    pub x: i32,
    pub y: i32,
}

// 02, request 8: "a turn is a two by two grid of whole numbers": its rows.
pub type Grid = [[i32; 2]; 2];

// No turn, and one quarter turn.
const UNIT: Grid = [[1, 0], [0, 1]];

const QUARTER: Grid = [[0, -1], [1, 0]];

// A row by the column u, v. Within these bounds 32 bits hold the sum.
fn row_by_column(row: [i32; 2], u: i32, v: i32) -> i32
    requires { SmallRow row × UpTo 65536 u × UpTo 65536 v }
    ensures { result ≡ row_by_column row u v }
{
    row[0] * u + row[1] * v
}

// What stands in row i and column j of the product.
fn product_at(a: Grid, b: Grid, i: usize, j: usize) -> i32
    requires { Small a × Small b × (i < 2) × (j < 2) }
    ensures { result ≡ product_at a b i j }
{
    row_by_column(a[i], b[0][j], b[1][j])
}

// The product of two grids, row by column: the turn `b`, and after it the turn `a`.
pub fn times(a: Grid, b: Grid) -> Grid
    requires { Small a × Small b }
    ensures { result ≡ times a b }
{
    [
        [product_at(a, b, 0, 0), product_at(a, b, 0, 1)],
        [product_at(a, b, 1, 0), product_at(a, b, 1, 1)],
    ]
}

// The grid of so many quarter turns, by multiplying: up to 4.
// Kept: it calls itself, since the check does not cover a loop that puts an array from a call into a variable.
pub fn turn(quarters: u8) -> Grid
    requires { quarters ≤ 4 }
    ensures { result ≡ turn quarters }
{
    if quarters == 0 {
        return UNIT;
    }
    times(QUARTER, turn(quarters - 1))
}

// The grid applied to a place.
pub fn applied(grid: Grid, place: Place) -> Place
    requires { Small grid × Within 65536 place }
    ensures { result ≡ applied grid place }
{
    Place {
        x: row_by_column(grid[0], place.x, place.y),
        y: row_by_column(grid[1], place.x, place.y),
    }
}
