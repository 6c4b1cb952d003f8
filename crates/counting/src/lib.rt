// Part 6 of a sheet: how many marks of each kind group live at each stop. `marks`, `schedule` and `popups` are its parts 1, 2 and 5, the last
// one empty where it is not there, `n` is the number of marks and `m` a mark's.
#![tactic(auto)]

ghost use Rattle.std.specs.Prelude.{◌≡◌, ◌⊎◌, ℕ, ◌+◌, ◌*◌, ◌<◌, ◌≤◌, length};
ghost use Rattle.fractions.specs.declared.Value.TheVariants.{At};
ghost use Rattle.marks.specs.Marks.{mark_size};
ghost use Rattle.marks.specs.Pairs.{popup_size};
ghost use Rattle.elimination.specs.Records.{record_size};
ghost use Rattle.counting.specs.Counts.{stops, counts_of, is_counts};
ghost use Rattle.counting.specs.Steps.{TellsFirst, stops_lived, popup_stop, begin_cell, end_cell};

use fractions::{Fraction, Value};

// The bytes of part 6: 85 counts of 2 bytes.
pub const COUNTS_SIZE: usize = 170;

const COUNTS: usize = 85;

const STOPS: usize = 17;

const GROUPS: usize = 5;

// Below these a fraction's products with 4096 and with 4 to the power of a stop fit 64 bits.
const SMALL_NUM: u64 = 4503599627370496;

const SMALL_DEN: u32 = 2147483648;

// The cells where marks begin to live, and those where they are gone.
const BEGIN_SIZE: usize = 95;

const END_SIZE: usize = 90;

// ---- the stops of a mark

// At how many stops does a mark live, where `lives` tells of each? Whoever lives at a stop lives at each one before it, so each step asks of one
// stop, and goes as far as that if the mark lives there. Five steps find any number up to 17, and none asks of a stop behind the last.
fn stops_where<F: Fn(usize) -> bool>(lives: F) -> usize
    requires { (stop : ℕ) → stop < stops → F.pre lives stop }
    ensures { (n : ℕ) → n ≤ stops → TellsFirst (F.post lives) n → result ≡ n }
{
    let mut known = 0;
    for step in [9, 4, 2, 1, 1] {
        let next = known + step;
        known = if lives(next - 1) { next } else { known };
    }
    known
}

// At how many stops does a mark with the removal value v live, whatever its numbers are?
fn wide_stops(v: Value) -> usize
    ensures { result ≡ stops_lived v }
{
    stops_where(|stop| zoom::lives(v, 1 << stop))
}

// The same for a fraction whose products fit 64 bits: z² is 4 to the power of the stop over 4096. Such are all of a schedule that passed
// question 8. It compiles to no branch, which no processor could foresee.
fn small_stops(f: Fraction) -> usize
    requires { (f.num < 4503599627370496) × (f.den < 2147483648) }
    ensures { result ≡ stops_lived (At f) }
{
    stops_where(|stop| (f.den as u64) << (2 * stop) < 4096 * f.num)
}

// At how many stops does a mark live that is removed at f?
fn stops_below(f: Fraction) -> usize
    ensures { result ≡ stops_lived (At f) }
{
    if f.num < SMALL_NUM && f.den < SMALL_DEN {
        small_stops(f)
    } else {
        wide_stops(Value::At(f))
    }
}

// At how many stops does a mark with the removal value v live?
fn stops_lived(v: Value) -> usize
    ensures { result ≡ stops_lived v }
{
    match v {
        Value::Never => STOPS,
        Value::At(f) => stops_below(f),
    }
}

// At how many stops is mark m not there yet? Those below its popup k, as for the removal value k²/4096; none without part 5.
fn popup_stop(popups: &[u8], m: usize) -> usize
    requires { (length popups.now ≡ 0) ⊎ (popup_size * m + popup_size ≤ length popups.now) }
    ensures { result ≡ popup_stop popups.now m }
{
    if popups.is_empty() {
        return 0;
    }
    let k = marks::popup_at(popups, m);
    let num = k as u64 * k as u64;
    stops_below(Fraction { num, den: 4096 })
}

// ---- the cells of a mark

// Where a mark begins to live, and where it is gone.
#[derive(Clone, Copy)]
struct Cells {
    begin: usize,
    end: usize,
}

fn cells_of(marks: &[u8], schedule: &[u8], popups: &[u8], m: usize) -> Cells
    requires mark_size_in_bounds { (mark_size * m + mark_size ≤ length marks.now) × (record_size * m + record_size ≤ length schedule.now) }
    requires popups_there { (length popups.now ≡ 0) ⊎ (popup_size * m + popup_size ≤ length popups.now) }
    ensures begin_value { result.begin ≡ begin_cell marks.now schedule.now popups.now m }
    ensures end_value { result.end ≡ end_cell marks.now schedule.now m }
{
    let group = marks::group_of(marks::kind_at(marks, m)) as usize;
    let end = stops_lived(elimination::value_at(schedule, m));
    let first = popup_stop(popups, m).min(end);
    Cells {
        begin: GROUPS * (first + 1) + group,
        end: GROUPS * end + group,
    }
}

// ---- part 6

// The counts of n marks. Each mark is entered where it begins to live and where it is gone. Then each cell of the table becomes its own count: that
// of the same group at the stop before, and who begins, and less who is gone.
pub fn counts_of(marks: &[u8], schedule: &[u8], popups: &[u8], n: usize) -> [u8; COUNTS_SIZE]
    requires n_bound { (n ≤ 4096) × (mark_size * n ≤ length marks.now) × (record_size * n ≤ length schedule.now) }
    requires popups_there { (length popups.now ≡ 0) ⊎ (popup_size * n ≤ length popups.now) }
    ensures { result ≡ counts_of marks.now schedule.now popups.now n }
{
    let mut table = [0u16; BEGIN_SIZE];
    let mut ends = [0u16; END_SIZE];
    for m in 0..n {
        let cells = cells_of(marks, schedule, popups, m);
        table[cells.begin] += 1;
        ends[cells.end] += 1;
    }
    let mut counts = [0u8; COUNTS_SIZE];
    for i in 0..COUNTS {
        let next = i + GROUPS;
        let count = table[i] + table[next] - ends[i];
        table[next] = count;
        numbers::write(&mut counts, 2 * i, 2, count as u64);
    }
    counts
}

// Does this hold the counts of n marks? Nothing is counted for a body of the wrong size.
pub fn is_counts(body: &[u8], marks: &[u8], schedule: &[u8], popups: &[u8], n: usize) -> bool
    requires n_bound { (n ≤ 4096) × (mark_size * n ≤ length marks.now) × (record_size * n ≤ length schedule.now) }
    requires popups_there { (length popups.now ≡ 0) ⊎ (popup_size * n ≤ length popups.now) }
    ensures { result ≡ is_counts body.now marks.now schedule.now popups.now n }
{
    body.len() == COUNTS_SIZE && body == &counts_of(marks, schedule, popups, n)[..]
}
