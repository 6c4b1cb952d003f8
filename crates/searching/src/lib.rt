// The search for what removes a mark. The marks' rows stand in `w` in the order of rank, and what becomes of the mark in row p is settled by the
// rows above it: of those that are removed later than they touch it, the one that touches it first, and of equal ones the highest-ranked. The
// rows are searched in any order: all of them, or cell by cell of a grid, which leaves out those that are too far to matter.
#![tactic(auto)]

ghost use Rattle.std.specs.Prelude.{◌≡◌, ◌+◌, ◌*◌, ◌<◌, ◌≤◌, ltb, length};
ghost use Rattle.fractions.specs.Order.{Small};
ghost use Rattle.grid.specs.Table.{cell_count, region_count, region_at};
ghost use Rattle.searching.specs.Rows.{row_size, row_label, row_popup, row_record, row_value, rows_pair};
ghost use Rattle.searching.specs.Scan.{Scanned};
ghost use Rattle.searching.specs.Search.{leader_value, none, precedes, is_least, Admitted, SearchFor, Zeroed, Adds, BestOfFirst, FoundBy, Only, Higher, OneOf};
ghost use Rattle.searching.specs.Cells.{Gridded, CellAdded, Own, InGroup, may_lead, counted_down, own_first};

mod search;

use elimination::Record;
use fractions::Fraction;
use grid::GROUP_SIZE;
use marks::Label;
use search::{CellSearch, Search};

// Among so few rows a scan of all is as fast as a search by cells.
const FEW: usize = 32;

// What a record has for an eliminator where nobody removes the mark.
// Kept: the bytes of a row have this number (the definition `row_never`).
const NOBODY: u32 = 65535;

// The bytes of a row, and where the fields behind its number begin.
pub const ROW_SIZE: usize = 25;

pub const ROW_X: usize = 2;

pub const ROW_Y: usize = 4;

pub const ROW_RADIUS: usize = 6;

// A popup has 17 bits.
pub const ROW_POPUP: usize = 8;

pub const POPUP_BYTES: usize = 3;

pub const ROW_RECORD: usize = 11;

// ---- rows

// Kept: each reader asks that its row lies in the bytes, a bound on the number that it is handed and no fact about the bytes alone.
pub fn row_label(w: &[u8], q: usize) -> Label
    requires { row_size * q + row_size ≤ length w.now }
    ensures { result ≡ row_label w.now q }
{
    let at = ROW_SIZE * q;
    Label {
        x: numbers::read_i16(w, at + ROW_X),
        y: numbers::read_i16(w, at + ROW_Y),
        radius: numbers::read_u16(w, at + ROW_RADIUS),
    }
}

fn row_popup(w: &[u8], q: usize) -> u32
    requires { row_size * q + row_size ≤ length w.now }
    ensures { result ≡ row_popup w.now q }
{
    numbers::read(w, ROW_SIZE * q + ROW_POPUP, POPUP_BYTES) as u32
}

// What was found for row q.
pub fn row_record(w: &[u8], q: usize) -> Record
    requires { row_size * q + row_size ≤ length w.now }
    ensures { result ≡ row_record w.now q }
{
    elimination::record_at(w, ROW_SIZE * q + ROW_RECORD)
}

// The removal value of row q.
fn row_value(w: &[u8], q: usize) -> Fraction
    requires { row_size * q + row_size ≤ length w.now }
    ensures { result ≡ row_value w.now q }
{
    elimination::fraction_of(row_record(w, q))
}

// ---- one row against the best so far

// The best row found so far and its value, which is 1/0 where there is none. The row is as wide as the denominator, so that the struct has no
// padding: with padding the inner loop would keep it in memory.
// Kept: an `Option` of it would have padding, and 1/0, which the definition `none` gives it, is above every fraction: no test asks for a row first.
#[derive(Clone, Copy)]
struct Leader {
    num: u64,
    den: u32,
    row: u32,
}

impl Leader {
    const NONE: Self = Leader {
        num: 1,
        den: 0,
        row: 0,
    };

    // Kept: beside `elimination::fraction_of`, of another struct.
    fn value(self) -> Fraction
        ensures { result ≡ leader_value self }
    {
        Fraction {
            num: self.num,
            den: self.den,
        }
    }
}

// Does the value f go before the value g: is it less, or equal, where a tie goes to f? In the inner loop this is one comparison of cross
// products, without a branch: a tie that goes to f makes the bound one more.
fn precedes(f: Fraction, g: Fraction, tie: bool) -> bool
    requires { Small f × Small g }
    ensures { result ≡ precedes f g tie }
{
    let left = f.num * (g.den as u64);
    let right = g.num * (f.den as u64);
    let bound = right + tie as u64;
    left < bound
}

impl Search<'_> {
    // The pair value of row q and row p. Where no row has a popup, which `popped` tells, it is the touching value; that `popped` changes in no loop keeps
    // the reading of popups out of the inner one.
    fn pair_with(&self, q: usize) -> Fraction
        requires { q < self.now.p }
        ensures { (result ≡ rows_pair self.now.shape self.now.w.now q self.now.p) × Small result }
    {
        let touch = marks::touching_of(self.shape, row_label(self.w, q), self.label);
        if self.popped {
            let k = row_popup(self.w, q).max(self.popup);
            marks::pair_of(touch, k)
        } else {
            touch
        }
    }

    // Row q against the best found so far: it takes its place if its pair value goes before the value of that and row q is removed later. A tie goes to
    // the higher-ranked row, which `tie` says is row q. With `BRANCHES` what was found for a row is read only if its value goes before: that is fast
    // where it is mostly foreseen that it does not.
    fn better<const BRANCHES: bool>(&self, q: usize, best: Leader, tie: bool) -> Leader
        requires { (q < self.now.p) × Admitted self.now.p best × (tie ≡ ltb q best.row) }
        ensures { Admitted self.now.p result × Adds self.now.shape self.now.w.now self.now.p (Only q) best result × OneOf q best result }
    {
        let v = self.pair_with(q);
        let sooner = precedes(v, best.value(), tie);
        if BRANCHES && !sooner {
            return best;
        }
        let stands = fractions::less_small(v, row_value(self.w, q));
        if sooner & stands {
            return Leader {
                num: v.num,
                den: v.den,
                row: q as u32,
            };
        }
        best
    }

    // ---- rows in the order of rank

    // Has a value been found that no pair value of row p is below? Its popup value is such a one.
    fn is_least(&self, best: Leader) -> bool
        requires { Admitted self.now.p best }
        ensures { result ≡ is_least self.now.w.now self.now.p best }
    {
        let k = self.popup as u64;
        let floor = Fraction {
            num: k * k,
            den: 4096,
        };
        !fractions::less_small(floor, best.value())
    }

    // The best of the first `end` rows above p. They are met from the highest rank down, so that no tie goes to a later one, and two a turn, so that the
    // inner loop counts half as often. With popups it ends at a value that no pair value of row p is below: what ranks lower goes before no such value.
    fn scan_rows(&self, end: usize) -> Leader
        requires { end ≤ self.now.p }
        ensures { BestOfFirst self.now.shape self.now.w.now self.now.p end result }
    {
        let mut best = Leader::NONE;
        for pair in 0..end / 2 {
            best = self.better::<true>(2 * pair, best, false);
            best = self.better::<true>(2 * pair + 1, best, false);
            if self.popped && self.is_least(best) {
                return best;
            }
        }
        if end % 2 == 1 {
            self.better::<true>(end - 1, best, false)
        } else {
            best
        }
    }

    // ---- rows in any order

    // Row q against the best so far, of equal ones the higher-ranked. With popups many rows have one value, and it is foreseen that few go before the
    // best. Without them that is less often foreseen in the chains of the cells around a mark.
    fn better_in_chain(&self, q: usize, best: Leader) -> Leader
        requires { (q < self.now.p) × Admitted self.now.p best }
        ensures { Admitted self.now.p result × Adds self.now.shape self.now.w.now self.now.p (Only q) best result × OneOf q best result }
    {
        let tie = q < best.row as usize;
        if self.popped {
            self.better::<true>(q, best, tie)
        } else {
            self.better::<false>(q, best, tie)
        }
    }

    // ---- what was found

    // What was found for row p, as its record. Where nobody was found, 1/0 stands for 'never' among the rows.
    fn found(&self, best: Leader) -> Record
        requires { Admitted self.now.p best }
        ensures { FoundBy self.now.w.now self.now.p best result }
    {
        if best.den == 0 {
            return Record {
                num: 1,
                den: 0,
                eliminator: NOBODY,
            };
        }
        let number = numbers::read_u16(self.w, ROW_SIZE * best.row as usize) as u32;
        Record {
            num: best.num,
            den: best.den,
            eliminator: number,
        }
    }
}

// ---- the best row by cells

// The i-th of `size` numbers from 0 on, which are counted down from `start`, and then from the greatest.
fn counted_down(size: usize, start: usize, i: usize) -> usize
    requires { (start < size) × (i < size) × (size ≤ 65536) }
    ensures { (result ≡ counted_down size start i) × (result < size) }
{
    if i <= start {
        start - i
    } else {
        size + start - i
    }
}

// The i-th of `size` numbers from 0 on, of which `own` comes first, and then the others from the greatest down.
fn own_first(size: usize, own: usize, i: usize) -> usize
    requires { (own < size) × (i < size) }
    ensures { (result ≡ own_first size own i) × (result < size) }
{
    if i == 0 {
        return own;
    }
    let k = size - i;
    if own < k { k } else { k - 1 }
}

impl CellSearch<'_> {
    // May region i hold a row that goes before the best so far? Not where nothing in it touches as soon, nor where all in it are gone when they would
    // touch.
    fn may_lead(&self, i: usize, best: Leader) -> bool
        requires { (i < region_count self.now.groups) × Admitted self.now.search.p best }
        ensures { let s = self.now.search in result ≡ may_lead s.shape (region_at s.w.now self.now.at i) s.label best }
    {
        let region = grid::region_at(self.search.w, self.at, i);
        let bound = region.bound(self.search.shape, self.search.label);
        !fractions::less_small(best.value(), bound) && fractions::less_small(bound, region.latest)
    }

    // The rows of cell c against the best so far. A cell that holds no better row is left out.
    fn scan_cell(&self, c: usize, from: Leader) -> Leader
        requires { (c < cell_count self.now.groups) × Admitted self.now.search.p from }
        ensures { let s = self.now.search in Admitted s.p result × CellAdded s.shape s.w.now self.now.at self.now.groups s.p (Own c) from result }
    {
        if !self.may_lead(c, from) {
            return from;
        }
        let mut best = from;
        let mut next = grid::last_row(self.search.w, self.at, c);
        while let Some(q) = next {
            best = self.search.better_in_chain(q, best);
            next = grid::previous_row(self.search.w, self.at, self.groups, q);
        }
        best
    }

    // The rows of the cells of group g, beginning with the one that has the place `first` in it. A group that holds no better row is left out. A best of
    // value 0 is the best of all: of the rows at one place only one can remove another.
    fn scan_group(&self, g: usize, first: usize, from: Leader) -> Leader
        requires { (g < self.now.groups) × (first < 16) × Admitted self.now.search.p from }
        ensures { let s = self.now.search in Admitted s.p result × CellAdded s.shape s.w.now self.now.at self.now.groups s.p (InGroup g) from result }
    {
        if !self.may_lead(GROUP_SIZE * self.groups + g, from) {
            return from;
        }
        let mut best = from;
        for i in 0..GROUP_SIZE {
            let c = GROUP_SIZE * g + counted_down(GROUP_SIZE, first, i);
            best = self.scan_cell(c, best);
            if best.num == 0 {
                return best;
            }
        }
        best
    }

    // The best of all rows above p by cells, for a mark that belongs into the cell `own`: its own cell and group come first, since with what lies near
    // the rest is soon too far. Then comes the last group, where the large marks are: with what touches from afar it is so, too.
    fn scan_grid(&self, own: usize) -> Leader
        requires { let s = self.now.search in Gridded s.w.now self.now.at self.now.groups s.p × (own < cell_count self.now.groups) }
        ensures { let s = self.now.search in Admitted s.p result × Adds s.shape s.w.now s.p (Higher s.p) none result }
    {
        let group = own / GROUP_SIZE;
        let first = own % GROUP_SIZE;
        let mut best = Leader::NONE;
        for i in 0..self.groups {
            let g = own_first(self.groups, group, i);
            best = self.scan_group(g, first, best);
            if best.num == 0 {
                return best;
            }
        }
        best
    }

    // The best of all rows above p. Where they are few, all are scanned. For a mark that pops up the first ones are scanned before the others: often one
    // of these touches it as soon as it does.
    fn best(&self, own: usize) -> Leader
        requires { let s = self.now.search in Gridded s.w.now self.now.at self.now.groups s.p × (own < cell_count self.now.groups) }
        ensures { let s = self.now.search in Admitted s.p result × Adds s.shape s.w.now s.p (Higher s.p) none result }
    {
        let search = &self.search;
        if search.p < FEW {
            return search.scan_rows(search.p);
        }
        if 0 < search.popup {
            let top = search.scan_rows(FEW);
            if search.is_least(top) {
                return top;
            }
        }
        self.scan_grid(own)
    }
}

// ---- what removes a mark

// What the rows above p make of the mark in row p, whose label is given. `popped` is false only where none of them has a popup.
pub fn best_of(w: &[u8], p: usize, shape: u8, label: Label, popped: bool) -> Record
    requires { SearchFor popped w.now p label }
    ensures { Scanned shape w.now p result }
{
    let search = Search {
        w,
        p,
        shape,
        label,
        popup: row_popup(w, p),
        popped,
    };
    search.found(search.scan_rows(p))
}

// The same by the grid at `at` of so many groups, for a mark that belongs into the cell `own`.
// Kept: eight parameters, since its callers have no `Search`: the rows are lent to it for the time of this call alone.
pub fn best_in_grid(
    w: &[u8],
    at: usize,
    groups: usize,
    p: usize,
    own: usize,
    shape: u8,
    label: Label,
    popped: bool,
) -> Record
    requires { SearchFor popped w.now p label × Gridded w.now at groups p × (own < cell_count groups) × (groups ≤ 4096) × Zeroed shape w.now p }
    ensures { Scanned shape w.now p result }
{
    let search = Search {
        w,
        p,
        shape,
        label,
        popup: row_popup(w, p),
        popped,
    };
    let by_cells = CellSearch { search, at, groups };
    search.found(by_cells.best(own))
}
