// The judge of request 10: is a proposed schedule ours? An `axis` is true for x.
#![tactic(auto)]

ghost use Rattle.std.specs.Prelude.{◌≡◌, ◌<◌, ◌≤◌, length, IfSome};
ghost use Rattle.elimination.specs.Lent.{lent};
ghost use Rattle.clashing.specs.Clash.{widest_radius, Subjected};
ghost use Rattle.judging.specs.Judge.{judge_schedule};
ghost use Rattle.judging.specs.Search.{is_clear, all_clear, corner_on, Judgeable, Searchable, Searched, Ready, Fillable, Filled};
ghost use Rattle.judging.specs.Search.{AllListed, ListedIn, LargeClear};

use clashing::{Proposal, Subject};
use elimination::Reel;

mod trial;

use trial::Trial;

// ---- the table of splits

// The greatest coordinates of a block.
#[derive(Clone, Copy)]
struct Corner {
    x: u64,
    y: u64,
}

impl Corner {
    // The greatest x or y.
    fn on(self, axis: bool) -> u64
        ensures { result ≡ corner_on axis self }
    {
        if axis { self.x } else { self.y }
    }
}

// Fills the table for a block, the `size` places from `lo` on: at each root the greatest coordinate of its left half, on the axis by which
// the halves are ordered. Answers the greatest coordinates of the block.
fn fill(
    marks: &[u8],
    index: &[u8],
    splits: &mut [u16],
    lo: usize,
    size: usize,
    axis: bool,
) -> Corner
    requires { Fillable marks.now index.now splits.old lo size }
    ensures { Filled marks.now index.now splits.old splits.new lo size axis result }
{
    if size == 0 {
        return Corner { x: 0, y: 0 };
    }
    let root = index::entry(index, lo);
    let first = size / 2;
    let second = size - 1 - first;
    let start = lo + 1;
    let middle = start + first;
    let left = fill(marks, index, splits, start, first, !axis);
    let right = fill(marks, index, splits, middle, second, !axis);
    splits[lo] = left.on(axis) as u16;
    let x = index::coordinate(marks, true, root);
    let y = index::coordinate(marks, false, root);
    Corner {
        x: x.max(left.x.max(right.x)),
        y: y.max(left.y.max(right.y)),
    }
}

// ---- the large marks

// How many marks the list has room for.
const MOST_LARGE: usize = 128;

// Few marks are above a bound: one in 64, and 16 beside that even a small reel may have. Hardly more: one in 512 more.
const LARGE_ONE_IN: usize = 64;

const LARGE_BESIDE: usize = 16;

const MORE_ONE_IN: usize = 512;

// The largest radius that a mark may have.
const WIDEST_RADIUS: u16 = 16383;

// Lists the marks whose radius is above the bound, and answers how many there are, or `None` where the list is full.
fn list_large(reel: &Reel<'_>, bound: u16, large: &mut [u16; MOST_LARGE]) -> Option<usize>
    ensures { IfSome result (ListedIn reel.now.marks.now reel.now.count bound large.new) }
{
    let mut k = 0;
    for m in 0..reel.count {
        if MOST_LARGE <= k {
            return None;
        }
        large[k] = m as u16;
        k += usize::from(bound < marks::radius_at(reel.marks, m));
    }
    Some(k)
}

// How many marks' radii are above the bound, counted no farther than one more than `most`.
fn count_large(reel: &Reel<'_>, bound: u16, most: usize) -> usize
    requires { most < 4096 }
{
    (0..reel.count)
        .filter(|m| bound < marks::radius_at(reel.marks, *m))
        .take(most + 1)
        .count()
}

// A bound somewhat lower than this one, down to about half of it, that at most so many marks exceed.
// Kept: the loop halves the step, and counts no index.
fn narrowed(reel: &Reel<'_>, high: u16, most: usize) -> u16
    requires { (most < 4096) × (high ≤ widest_radius) }
    ensures { result ≤ widest_radius }
{
    let mut bound = high;
    let mut step = high / 4;
    while 0 < step {
        if count_large(reel, bound - step, most) <= most {
            bound -= step;
        }
        step /= 2;
    }
    bound
}

// A bound on the radius that few marks exceed: halved while the larger marks are few, and then lowered as far as hardly more of them get above
// it. Any bound is right; the lower it is, the more of the index is left out, and the fewer exceed it, the fewer are tried one by one.
// Kept: the loop halves the bound, and counts no index.
fn pick_bound(reel: &Reel<'_>) -> u16
    ensures { result ≤ widest_radius }
{
    let few = reel.count / LARGE_ONE_IN + LARGE_BESIDE;
    let mut bound = WIDEST_RADIUS;
    let mut above = 0;
    while 0 < bound {
        let half = bound / 2;
        let more = count_large(reel, half, few);
        if few < more {
            return narrowed(reel, bound, above + reel.count / MORE_ONE_IN);
        }
        bound = half;
        above = more;
    }
    bound
}

// ---- the search

impl Trial<'_, '_> {
    // Is a block clear: does none of the marks at the `size` places from `lo` on clash with the subject? A block's root is removed last, so
    // where it is over, all of it is.
    fn search(&self, q: Subject, lo: usize, size: usize, axis: bool) -> bool
        requires { Searchable (lent self.now.proposal.reel) self.now.proposal.schedule.now self.now.index.now self.now.splits.now q lo size axis }
        ensures { Searched (lent self.now.proposal.reel) self.now.proposal.schedule.now self.now.index.now q lo size result }
    {
        if size == 0 {
            return true;
        }
        let root = index::entry(self.index, lo);
        let w = clashing::limit_at(self.proposal.schedule, root);
        if clashing::is_over(q.tight, w, q.value) {
            return true;
        }
        if self.proposal.clashes_standing(q, root, w) {
            return false;
        }
        let split = self.splits[lo];
        let first = size / 2;
        let second = size - 1 - first;
        let start = lo + 1;
        let middle = start + first;
        let left = q.size_to_search(axis, true, split, first);
        let right = q.size_to_search(axis, false, split, second);
        // A half of which nothing is searched is not worth a call.
        (left == 0 || self.search(q, start, left, !axis))
            && (right == 0 || self.search(q, middle, right, !axis))
    }

    // Does none of the listed marks clash with the subject?
    fn is_large_clear(&self, large: &[u16], q: Subject) -> bool
        requires { Subjected self.now.proposal.reel.marks.now self.now.proposal.reel.count self.now.proposal.schedule.now q × AllListed large.now self.now.proposal.reel.count × (q.shape ≡ self.now.proposal.reel.shape) }
        ensures { LargeClear (lent self.now.proposal.reel) self.now.proposal.schedule.now q.m large.now result }
    {
        large.iter().all(|g| !self.proposal.clashes(q, *g as usize))
    }

    // Does nobody clash with mark m?
    fn is_clear(&self, large: &[u16], bound: u16, m: usize) -> bool
        requires { Ready (lent self.now.proposal.reel) self.now.proposal.schedule.now self.now.index.now self.now.splits.now large.now bound × (m < self.now.proposal.reel.count) }
        ensures { result ≡ is_clear (lent self.now.proposal.reel) self.now.proposal.schedule.now m }
    {
        let q = self.proposal.subject_of(bound, m);
        self.is_large_clear(large, q) && self.search(q, 0, self.proposal.reel.count, true)
    }

    // Does nobody clash with any mark?
    fn is_all_clear(&self, large: &[u16], bound: u16) -> bool
        requires { Ready (lent self.now.proposal.reel) self.now.proposal.schedule.now self.now.index.now self.now.splits.now large.now bound }
        ensures { result ≡ all_clear (lent self.now.proposal.reel) self.now.proposal.schedule.now }
    {
        (0..self.proposal.reel.count).all(|m| self.is_clear(large, bound, m))
    }
}

// ---- the judge

// Does the judge accept the schedule? The parts are those of a sheet that passed questions 4 to 9, 19, 21 and 24.
pub fn judge<'a>(reel: &Reel<'a>, schedule: &'a [u8], index: &'a [u8]) -> bool
    requires { Judgeable (lent reel.now) schedule.now index.now }
    ensures { result ≡ judge_schedule (lent reel.now) schedule.now }
{
    let mut splits = [0u16; 4096];
    fill(reel.marks, index, &mut splits, 0, reel.count, true);
    let proposal = Proposal {
        reel: *reel,
        schedule,
    };
    let trial = Trial {
        proposal,
        index,
        splits: &splits,
    };
    let mut large = [0u16; MOST_LARGE];
    let bound = pick_bound(reel);
    match list_large(reel, bound, &mut large) {
        Some(k) => trial.is_all_clear(&large[..k], bound),
        // No radius is above this bound.
        None => trial.is_all_clear(&[], WIDEST_RADIUS),
    }
}
