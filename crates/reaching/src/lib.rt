// Whose label reaches a window: the questions of windows, the window turned back, and the test of one mark. `marks` and `popups` are the bytes
// of parts 1 and 5 of a sheet, the latter empty where it is not there; `shape` is that of the labels.
#![tactic(auto)]

ghost use Rattle.std.specs.Prelude.{◌≡◌, true, ◌+◌, ◌*◌, ◌≤◌, length, pos};
ghost use Rattle.zoom.specs.Zoom.{largest_scale};
ghost use Rattle.marks.specs.Marks.{mark_size, shifted};
ghost use Rattle.marks.specs.Pairs.{GoodPopup};
ghost use Rattle.reaching.specs.Questions.{is_edge, IsEdge, is_window, question20, question11};
ghost use Rattle.reaching.specs.Turning.{corner_of, turned_back, Edged, gap_here, reaches_here, visible_here};

use turns::Place;

// ---- windows

// What a view asks for: the edges, in places that are turned by so many quarter turns.
#[derive(Clone, Copy, Debug, PartialEq, Eq)]
pub struct Window {
    pub x0: i32,
    pub x1: i32,
    pub y0: i32,
    pub y1: i32,
    pub turn: u8,
}

fn is_edge(v: i32) -> bool
    ensures { result ≡ is_edge v }
{
    (-32768..=32768).contains(&v)
}

// Is the turn one of 0 to 3, and does each edge lie in the range of turned places?
fn is_window(window: Window) -> bool
    ensures { result ≡ is_window window }
{
    let x = is_edge(window.x0) & is_edge(window.x1);
    let y = is_edge(window.y0) & is_edge(window.y1);
    (window.turn <= 3) & x & y
}

// 20. Is this a window, and not turned where the labels are squares?
#[tactic(auto, using(std::proofs::lemmas::Bool::Decides::nat_tests), unfolding(crate::specs::Questions::question20))]
pub fn is_taken(shape: u8, window: Window) -> bool
    ensures { result ≡ question20 shape window }
{
    is_window(window) && (shape != marks::SQUARE || window.turn == 0)
}

// 11. Is x0 ≤ x1 and y0 ≤ y1?
pub fn is_ordered(window: Window) -> bool
    ensures { result ≡ question11 window }
{
    (window.x0 <= window.x1) & (window.y0 <= window.y1)
}

// Edges as the index orders places, shifted to be at least 0: those of a window, which decide who is shown, or those widened on each side, so
// that the point of every shown mark lies in them, which decide which halves are searched.
#[derive(Clone, Copy, Debug, PartialEq, Eq)]
pub struct Bounds {
    pub x0: u32,
    pub x1: u32,
    pub y0: u32,
    pub y1: u32,
}

// A corner of a window, shifted likewise.
#[derive(Clone, Copy, Debug, PartialEq, Eq)]
struct Corner {
    x: u32,
    y: u32,
}

fn shifted(v: i32) -> u32
    requires { IsEdge v }
    ensures { result ≡ shifted v }
{
    (v + 32768) as u32
}

// A corner, turned.
fn turned_corner(quarters: u8, x: i32, y: i32) -> Corner
    requires { (quarters ≤ 4) × IsEdge x × IsEdge y }
    ensures { result ≡ corner_of quarters x y }
{
    let place = turns::applied(turns::turn(quarters), Place { x, y });
    Corner {
        x: shifted(place.x),
        y: shifted(place.y),
    }
}

// The window in the sheet's own places: two corners are turned on until all four quarter turns are made, which change no place. So the marks
// need not be turned, nor the index.
pub fn turned_back(window: Window) -> Bounds
    requires { is_window window ≡ true }
    ensures { result ≡ turned_back window }
{
    let quarters = 4 - window.turn;
    let a = turned_corner(quarters, window.x0, window.y0);
    let b = turned_corner(quarters, window.x1, window.y1);
    Bounds {
        x0: a.x.min(b.x),
        x1: a.x.max(b.x),
        y0: a.y.min(b.y),
        y1: a.y.max(b.y),
    }
}

// ---- who is shown

// How far, on an axis, a coordinate lies from the interval from `low` to `high`: 0 in it. One of the two differences is 0 where low ≤ high.
fn gap(low: u32, high: u32, coordinate: u32) -> i32
    requires { (low ≤ 65536) × (coordinate ≤ 65536) }
    ensures { (result ≡ pos (gap_here low high coordinate)) × (gap_here low high coordinate ≤ 131072) }
{
    (low.saturating_sub(coordinate) + coordinate.saturating_sub(high)) as i32
}

// Does mark m's label at z = k/64 reach the window, touching included? Both products fit 64 bits. Where the point lies inside the radius
// is not read: in a view of all places no mark's is.
fn reaches(marks: &[u8], shape: u8, edges: Bounds, k: u32, m: usize) -> bool
    requires { (mark_size * m + mark_size ≤ length marks.now) × (k ≤ largest_scale) × Edged edges }
    ensures { result ≡ reaches_here shape marks.now k edges m }
{
    let x = gap(edges.x0, edges.x1, index::coordinate(marks, true, m) as u32);
    let y = gap(
        edges.y0,
        edges.y1,
        index::coordinate(marks, false, m) as u32,
    );
    let squared = marks::distance(shape, x, y);
    if squared == 0 {
        return true;
    }
    let radius = marks::radius_at(marks, m) as u64;
    let scale = k as u64;
    4096 * squared <= scale * scale * (radius * radius)
}

// Has mark m popped up at z = k/64, and does its label reach the window?
pub fn is_visible(marks: &[u8], shape: u8, popups: &[u8], edges: Bounds, k: u32, m: usize) -> bool
    requires { (mark_size * m + mark_size ≤ length marks.now) × (k ≤ largest_scale) × Edged edges × GoodPopup popups.now m }
    ensures { result ≡ visible_here shape marks.now popups.now k edges m }
{
    if k < marks::popup_at(popups, m) {
        return false;
    }
    reaches(marks, shape, edges, k, m)
}
