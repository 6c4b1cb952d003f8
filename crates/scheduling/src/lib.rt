// The scheduling core: part 2 of a sheet from its marks. By uniqueness (elimination's Theorems) a mark's removal follows from those of the
// marks that outrank it, so the marks are visited in the order of rank, with no queue of pairs: rank keys are sorted, each mark's fields go
// into a row, each row is searched for among the rows above it, and the records go out in the order of the marks' numbers. Where the rows are
// many, a grid of cells serves the search; it stands behind the rows, where the keys stood.
#![tactic(auto)]

ghost use Rattle.std.specs.Prelude.{◌≡◌, false, ◌++◌, ℕ, ◌+◌, ◌*◌, ◌<◌, ◌≤◌, length, take, drop};
ghost use Rattle.std.proofs.lemmas.List.Edits.{sets};
ghost use Rattle.lists.specs.Stores.{Kept};
ghost use Rattle.marks.specs.Marks.{mark_size};
ghost use Rattle.marks.specs.Pairs.{GoodPopups};
ghost use Rattle.marks.specs.Good.{GoodMarks};
ghost use Rattle.elimination.specs.Lent.{lent};
ghost use Rattle.elimination.specs.Records.{record_size};
ghost use Rattle.elimination.specs.Reel.{schedule_of};
ghost use Rattle.fractions.specs.Order.{Small};
ghost use Rattle.grid.specs.Table.{cell_count, table_size, link_from, EntriesLow};
ghost use Rattle.searching.specs.Rows.{row_size, row_record_offset, row_number};
ghost use Rattle.searching.specs.Search.{Zeroed};
ghost use Rattle.searching.specs.Cells.{Gridded};
ghost use Rattle.scheduling.specs.Planning.{Entered};
ghost use Rattle.scheduling.specs.Settling.{RowsSmall, Scannable, Settles, Processed};
ghost use Rattle.scheduling.specs.Sending.{sent_record, send_at, RowsNumbered, Spread, Published};
ghost use Rattle.scheduling.specs.Filling.{work_size, Schedulable, Keyed, number_at, RowAt, RowsPut, Ranked};
ghost use Rattle.scheduling.specs.Behind.{schedule_end, with_schedule};

mod plan;

use elimination::{NEVER, RECORD_SIZE, Record, Reel};
use fractions::Fraction;
use marks::{Label, MARK_SIZE, Y_OFFSET};
use plan::Plan;
use searching::{POPUP_BYTES, ROW_POPUP, ROW_RADIUS, ROW_RECORD, ROW_SIZE, ROW_X, ROW_Y};

// From this many rows on a grid pays.
const MANY: usize = 160;

// So many bytes a mark are before the keys.
const KEYS: usize = 24;

// ---- one row

// Row p goes into its cell c, unless it is removed at 0: then it removes nobody, and no search needs to meet it.
// Kept: seven parameters, as `grid::add`, which it hands them to.
fn enter(w: &mut [u8], at: usize, groups: usize, p: usize, c: usize, label: Label, value: Fraction)
    requires { (p < 4096) × (c < cell_count groups) × (link_from at groups p + 2 ≤ length w.old) × Small value × EntriesLow w.old at groups p }
    ensures { Entered w.old w.new at groups p c label value }
{
    if value.num == 0 {
        grid::put_link(w, at, groups, p, 0);
    } else {
        grid::add(w, at, groups, p, c, label, value);
    }
}

// What was found for a row, as part 2 has it.
// Kept: a record says by its denominator 0 that nobody removes the mark (definition `sent_record`).
fn sent(r: Record) -> Record
    ensures { result ≡ sent_record r }
{
    if r.den == 0 { NEVER } else { r }
}

// Writes the record of row q into the slot of its number.
fn send_one(w: &[u8], out: &mut [u8], q: usize)
    requires { (row_size * q + row_size ≤ length w.now) × (record_size * row_number w.now q + record_size ≤ length out.old) }
    ensures { out.new ≡ sets out.old (record_size * row_number w.now q) (send_at w.now q) }
{
    let m = numbers::read_u16(w, ROW_SIZE * q) as usize;
    elimination::put_record(out, RECORD_SIZE * m, sent(searching::row_record(w, q)));
}

// ---- the rows

// The rows of a work buffer: how many there are, of which shape the labels are, and whether a row may have a popup.
#[derive(Clone, Copy)]
struct Rows {
    count: usize,
    shape: u8,
    popped: bool,
    ghost few: { count ≤ 4096 },
}

impl Rows {
    // The rows of a reel's marks. None has a popup where part 5 is not there.
    fn of(reel: &Reel<'_>) -> Self
        ensures { (result.count ≡ reel.now.count) × (result.shape ≡ reel.now.shape) × (result.popped ≡ false → length reel.now.popups.now ≡ 0) }
    {
        Rows {
            count: reel.count,
            shape: reel.shape,
            popped: !reel.popups.is_empty(),
        }
    }

    // Finds and writes what becomes of the mark in row p.
    fn settle(self, w: &mut [u8], p: usize)
        requires { Scannable self.popped w.old self.count p }
        ensures { Settles self.shape self.count w.old w.new p }
    {
        let label = searching::row_label(w, p);
        let found = searching::best_of(w, p, self.shape, label, self.popped);
        elimination::put_record(w, ROW_SIZE * p + ROW_RECORD, found);
    }

    // The same by cells; then row p goes into its cell.
    fn settle_in_grid(self, w: &mut [u8], p: usize, plan: Plan)
        requires { Scannable self.popped w.old self.count p × (table_size plan.groups ≤ 5 * self.count + 1024) × Gridded w.old (row_size * self.count) plan.groups p × (work_size self.count ≤ length w.old) × Zeroed self.shape w.old p }
        ensures { Settles self.shape self.count w.old w.new p × Gridded w.new (row_size * self.count) plan.groups (p + 1) }
    {
        let at = ROW_SIZE * self.count;
        let groups = plan.groups;
        let label = searching::row_label(w, p);
        let c = plan.cell_of(label);
        let found = searching::best_in_grid(w, at, groups, p, c, self.shape, label, self.popped);
        enter(w, at, groups, p, c, label, elimination::fraction_of(found));
        elimination::put_record(w, ROW_SIZE * p + ROW_RECORD, found);
    }

    fn settle_in_turn(self, w: &mut [u8])
        requires { (row_size * self.count ≤ length w.old) × RowsSmall self.popped w.old self.count }
        ensures { Processed self.shape self.count w.old w.new }
    {
        for p in 0..self.count {
            self.settle(w, p);
        }
    }

    fn settle_by_cells(self, w: &mut [u8])
        requires { (160 ≤ self.count) × (work_size self.count ≤ length w.old) × RowsSmall self.popped w.old self.count }
        ensures { Processed self.shape self.count w.old w.new }
    {
        let plan = Plan::over_rows(w, self.count);
        grid::clear(w, ROW_SIZE * self.count, plan.groups);
        for p in 0..self.count {
            self.settle_in_grid(w, p, plan);
        }
    }

    fn settle_all(self, w: &mut [u8])
        requires { (work_size self.count ≤ length w.old) × RowsSmall self.popped w.old self.count }
        ensures { Processed self.shape self.count w.old w.new }
    {
        if self.count < MANY {
            self.settle_in_turn(w);
        } else {
            self.settle_by_cells(w);
        }
    }

    fn send_all(self, w: &[u8], out: &mut [u8])
        requires { (row_size * self.count ≤ length w.now) × (record_size * self.count ≤ length out.old) × RowsNumbered w.now self.count }
        ensures { Spread w.now self.count self.count out.old out.new }
    {
        for q in 0..self.count {
            send_one(w, out, q);
        }
    }

    // The schedule of the marks whose rows stand in w in the order of rank.
    fn publish(self, w: &mut [u8], out: &mut [u8])
        requires long { (work_size self.count ≤ length w.old) × (record_size * self.count ≤ length out.old) }
        requires rows_small { RowsSmall self.popped w.old self.count × RowsNumbered w.old self.count }
        ensures { Published self.shape w.old self.count out.old out.new }
    {
        self.settle_all(w);
        self.send_all(w, out);
    }
}

// ---- rows from marks

// The marks' rank keys in the reel's edition, one after the other, behind the room for the rows.
fn put_keys(reel: &Reel<'_>, work: &mut [u8])
    requires { work_size reel.now.count ≤ length work.old }
    ensures { Keyed reel.now.edition reel.now.marks.now reel.now.count reel.now.count work.old work.new }
{
    for i in 0..reel.count {
        let key = marks::rank_key(reel.marks, reel.edition, i);
        sorting::put(work, KEYS * reel.count, i, key);
    }
}

// The fields of mark m and its popup, as a row at `at`. The place goes over as its bytes, which have the same sign there.
fn put_row(reel: &Reel<'_>, m: usize, w: &mut [u8], at: usize)
    requires { (m < reel.now.count) × (at + row_record_offset ≤ length w.old) × GoodPopups reel.now.popups.now reel.now.count }
    ensures kept { Kept w.old w.new at (at + row_record_offset) }
    ensures row { RowAt reel.now.marks.now reel.now.popups.now w.new at m }
{
    let place = MARK_SIZE * m;
    numbers::write(w, at, 2, m as u64);
    numbers::write(w, at + ROW_X, 2, numbers::read(reel.marks, place, 2));
    numbers::write(
        w,
        at + ROW_Y,
        2,
        numbers::read(reel.marks, place + Y_OFFSET, 2),
    );
    numbers::write(
        w,
        at + ROW_RADIUS,
        2,
        marks::radius_at(reel.marks, m) as u64,
    );
    numbers::write(
        w,
        at + ROW_POPUP,
        POPUP_BYTES,
        marks::popup_at(reel.popups, m) as u64,
    );
}

// A row for each of the sorted keys. A row reaches no key that comes after its own.
fn put_rows(reel: &Reel<'_>, work: &mut [u8])
    requires long { work_size reel.now.count ≤ length work.old }
    requires by_index { ((q : ℕ) → q < reel.now.count → number_at reel.now.count work.old q < reel.now.count) × GoodPopups reel.now.popups.now reel.now.count }
    ensures { RowsPut reel.now.marks.now reel.now.popups.now reel.now.count reel.now.count work.old work.new }
{
    for q in 0..reel.count {
        let m = (sorting::get(work, KEYS * reel.count, q) % 4096) as usize;
        put_row(reel, m, work, ROW_SIZE * q);
    }
}

// The rows of the reel's marks, in the order of rank. `work` begins with the spare places of the sort, and the keys stand behind them; then it
// begins with the rows, and the grid stands behind these.
fn put_ranked(reel: &Reel<'_>, work: &mut [u8])
    requires { (work_size reel.now.count ≤ length work.old) × GoodPopups reel.now.popups.now reel.now.count }
    ensures { Ranked reel.now.edition reel.now.marks.now reel.now.popups.now reel.now.count work.old work.new }
{
    put_keys(reel, work);
    radix::sort(work, KEYS * reel.count, 0, reel.count);
    put_rows(reel, work);
}

// Writes part 2 for the marks of the reel: who removes each mark, and where.
pub fn schedule(reel: &Reel<'_>, work: &mut [u8], out: &mut [u8])
    requires { Schedulable reel.now.marks.now reel.now.popups.now work.old out.old reel.now.count }
    ensures { out.new ≡ schedule_of (lent reel.now) ++ drop (record_size * reel.now.count) out.old }
{
    put_ranked(reel, work);
    Rows::of(reel).publish(work, out);
}

// Part 2 where the marks stand in the buffer that is written, with the room for it behind them, and the popups at its end, from `at` on: no
// copy of them stands elsewhere.
pub fn schedule_behind(all: &mut [u8], edition: u8, shape: u8, at: usize, work: &mut [u8], n: usize)
    requires { GoodMarks (take (mark_size * n) all.old) n × (work_size n ≤ length work.old) × (schedule_end n ≤ length all.old) × (at ≤ length all.old) × GoodPopups (drop at all.old) n }
    ensures { all.new ≡ with_schedule edition shape (drop at all.old) all.old n }
{
    let from = MARK_SIZE * n;
    let held = &all[..];
    let reel = Reel {
        marks: &held[..from],
        count: n,
        edition,
        shape,
        popups: &held[at..],
    };
    put_ranked(&reel, work);
    let rows = Rows::of(&reel);
    rows.publish(work, &mut all[from..]);
}
