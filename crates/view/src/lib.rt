// Who is shown: the search down the index, the map and the count. `marks`, `schedule`, `index` and `popups` are the bytes of parts 1, 2, 3
// and 5 of a sheet, the last empty where it is not there; `shape` is that of the labels, and an `axis` is true for x.
#![tactic(auto)]

ghost use Rattle.std.specs.Prelude.{◌≡◌, true, [], ◌∷◌, ◌+◌, ◌*◌, ◌/◌, ◌<◌, ◌≤◌, length};
ghost use Rattle.lists.specs.Blocks.{block};
ghost use Rattle.zoom.specs.Zoom.{largest_scale};
ghost use Rattle.marks.specs.Marks.{mark_size};
ghost use Rattle.marks.specs.Pairs.{GoodPopup};
ghost use Rattle.elimination.specs.Records.{record_size};
ghost use Rattle.index.specs.Index.{index_entry_size};
ghost use Rattle.index.specs.Blocks.{entry_at};
ghost use Rattle.index.specs.Check.{AllMarked};
ghost use Rattle.reaching.specs.Shown.{shown};
ghost use Rattle.reaching.specs.Questions.{is_window, question11};
ghost use Rattle.reaching.specs.Turning.{Edged, visible_here, shown_here};
ghost use Rattle.view.specs.View.{Viewable, Viewed};
ghost use Rattle.view.specs.Search.{wider, widest_living, moved, bounds_of, bound_on, is_beyond, size_to_search, BitsSet, Searchable};

use query::Query;
use reaching::{Bounds, Window};

mod query;

// ---- the map

// Sets mark m's bit if it is visible.
fn visit(query: &Query<'_>, m: usize, map: &mut [u8])
    requires { (mark_size * m + mark_size ≤ length query.now.marks.now) × GoodPopup query.now.popups.now m × (m / 8 < length map.old) }
    ensures { BitsSet (visible_here query.now.shape query.now.marks.now query.now.popups.now query.now.k query.now.edges) (m ∷ []) map.old map.new }
{
    if reaching::is_visible(
        query.marks,
        query.shape,
        query.popups,
        query.edges,
        query.k,
        m,
    ) {
        bitmap::set_bit(map, m);
    }
}

// ---- the search

// The greater of `widest` and mark m's used radius, where m is not removed. That is asked last: it takes a product, and most marks are not wider.
#[tactic(auto, using(std::proofs::lemmas::Bool::Decides::nat_tests), unfolding(crate::specs::Search::wider))]
fn wider(marks: &[u8], schedule: &[u8], k: u32, widest: u16, m: usize) -> u16
    requires { (mark_size * m + mark_size ≤ length marks.now) × (record_size * m + record_size ≤ length schedule.now) }
    ensures { result ≡ wider marks.now schedule.now k widest m }
{
    let radius = marks::radius_at(marks, m);
    if widest < radius && zoom::lives(elimination::value_at(schedule, m), k) {
        radius
    } else {
        widest
    }
}

// The greatest used radius of the n marks that live at z = k/64: 0 where none does. Only they can be shown, so that a wide mark that is
// gone at z widens nothing.
fn widest_living(marks: &[u8], schedule: &[u8], k: u32, n: usize) -> u16
    requires { (mark_size * n ≤ length marks.now) × (record_size * n ≤ length schedule.now) }
    ensures { result ≡ widest_living marks.now schedule.now k n }
{
    let mut widest = 0;
    for m in 0..n {
        widest = wider(marks, schedule, k, widest, m);
    }
    widest
}

// An edge moved down by `by`, at most to 0, or up.
fn moved(edge: u32, low: bool, by: u32) -> u32
    requires { (edge ≤ 65536) × (by ≤ 67107840) }
    ensures { result ≡ moved edge low by }
{
    if low {
        edge.saturating_sub(by)
    } else {
        edge + by
    }
}

// The edges widened by what a label of the radius `widest` takes up at z = k/64, rounded down: distances on an axis are whole.
fn bounds_of(edges: Bounds, k: u32, widest: u16) -> Bounds
    requires { Edged edges × (k ≤ largest_scale) }
    ensures { result ≡ bounds_of edges k widest }
{
    let by = k * widest as u32 / 64;
    Bounds {
        x0: moved(edges.x0, true, by),
        x1: moved(edges.x1, false, by),
        y0: moved(edges.y0, true, by),
        y1: moved(edges.y1, false, by),
    }
}

// The low or the high bound on the axis.
fn bound_on(bounds: Bounds, axis: bool, low: bool) -> u32
    ensures { result ≡ bound_on bounds axis low }
{
    match (axis, low) {
        (true, true) => bounds.x0,
        (true, false) => bounds.x1,
        (false, true) => bounds.y0,
        (false, false) => bounds.y1,
    }
}

// Does a coordinate on the axis lie before the bounds, which rules out the left half, or after them, which rules out the right half?
fn is_beyond(bounds: Bounds, axis: bool, left: bool, coordinate: u64) -> bool
    ensures { result ≡ is_beyond bounds axis left coordinate }
{
    let bound = bound_on(bounds, axis, left) as u64;
    if left {
        coordinate < bound
    } else {
        bound < coordinate
    }
}

// How many of the `size` numbers of a half are searched: all, or none where the head of the other half shows that they lie beyond the
// bounds. No coordinate of the left half is above that of the right half's head, and none of the right half is below that of the left
// half's head. The other half has `other` numbers, from number `head` of the index on.
fn size_to_search(
    query: &Query<'_>,
    axis: bool,
    left: bool,
    head: usize,
    other: usize,
    size: usize,
) -> usize
    requires { AllMarked query.now.marks.now query.now.index.now × (index_entry_size * (head + other) ≤ length query.now.index.now) }
    ensures { result ≡ size_to_search query.now.marks.now query.now.index.now query.now.bounds axis left head other size }
{
    if other == 0 {
        return size;
    }
    let coordinate = index::coordinate(query.marks, axis, index::entry(query.index, head));
    if is_beyond(query.bounds, axis, left, coordinate) {
        0
    } else {
        size
    }
}

// Sets the bits of the shown marks of a block: the `size` numbers of the index from number `lo` on. A block's root is removed last, so
// where it is removed no mark of the block lives. A root that has not popped up, or does not reach the window, ends nothing: others of its
// block may be shown.
fn search(query: &Query<'_>, map: &mut [u8], lo: usize, size: usize, axis: bool)
    requires { Searchable (shown_here query.now.shape query.now.marks.now query.now.schedule.now query.now.popups.now query.now.k query.now.edges) query.now.marks.now query.now.schedule.now query.now.popups.now query.now.index.now map.old query.now.bounds query.now.k lo size axis }
    ensures { BitsSet (shown_here query.now.shape query.now.marks.now query.now.schedule.now query.now.popups.now query.now.k query.now.edges) (block (entry_at query.now.index.now) lo size) map.old map.new }
{
    if size == 0 {
        return;
    }
    let root = index::entry(query.index, lo);
    if !zoom::lives(elimination::value_at(query.schedule, root), query.k) {
        return;
    }
    visit(query, root, map);
    // Of the others the first half is the larger: half of `size`, rounded down, since `size` counts the root too.
    let first = size / 2;
    let second = size - 1 - first;
    let p = lo + 1;
    let q = p + first;
    let left = size_to_search(query, axis, true, q, second, first);
    search(query, map, p, left, !axis);
    let right = size_to_search(query, axis, false, p, first, second);
    search(query, map, q, right, !axis);
}

// Writes the map of the n marks at the start of `map`, and answers how many are shown. The parts are those of an accepted sheet.
// Kept: the parts come one by one and not as a `Reel`, whose marks are good: what it promises is promised of any marks that `Viewable` takes.
pub fn show(
    marks: &[u8],
    shape: u8,
    schedule: &[u8],
    popups: &[u8],
    index: &[u8],
    n: usize,
    window: Window,
    k: u32,
    map: &mut [u8],
) -> u32
    requires viewable { Viewable marks.now schedule.now popups.now index.now map.old n × (k ≤ largest_scale) }
    requires window_value { (is_window window ≡ true) × (question11 window ≡ true) }
    ensures { Viewed (shown shape marks.now schedule.now popups.now k window) n map.old map.new result }
{
    let edges = reaching::turned_back(window);
    let size = n.div_ceil(8);
    bitmap::clear(map, size);
    let query = Query {
        marks,
        shape,
        schedule,
        popups,
        index,
        k,
        edges,
        bounds: bounds_of(edges, k, widest_living(marks, schedule, k, n)),
    };
    search(&query, map, 0, n, true);
    bitmap::count(map, size) as u32
}
