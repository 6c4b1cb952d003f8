// What a search is for, and where it searches.
ghost use Rattle.std.specs.Prelude.{◌≡◌, ◌≤◌};
ghost use Rattle.grid.specs.Table.{EntriesLow};
ghost use Rattle.searching.specs.Rows.{row_popup};
ghost use Rattle.searching.specs.Search.{SearchFor, Zeroed};

use marks::Label;

// A search for what removes the mark in row p of the rows in `w`, by the shape of the labels and the mark's own label and popup. `popped` is false only
// where no row from p up has a popup.
#[derive(Clone, Copy)]
pub struct Search<'a> {
    pub w: &'a [u8],
    pub p: usize,
    pub shape: u8,
    pub label: Label,
    pub popup: u32,
    pub popped: bool,
    ghost good: { SearchFor popped w.now p label },
    ghost popup_is: { popup ≡ row_popup w.now p },
}

// The same by the grid at `at` of so many groups.
#[derive(Clone, Copy)]
pub struct CellSearch<'a> {
    pub search: Search<'a>,
    pub at: usize,
    pub groups: usize,
    ghost few: { groups ≤ 4096 },
    ghost low: { EntriesLow search.w.now at groups search.p },
    ghost zeroed: { Zeroed search.shape search.w.now search.p },
}
