// The lines of a printed schedule, in a lent buffer.
#![tactic(auto)]

ghost use Rattle.std.specs.Prelude.{◌≡◌, false, [], ◌∷◌, ◌+◌, ◌*◌, ◌<◌, ◌≤◌, length};
ghost use Rattle.fractions.specs.Order.{Small};
ghost use Rattle.text.specs.Text.{decimal, number_room, Wrote};
ghost use Rattle.elimination.specs.Process.{stays, gone};
ghost use Rattle.elimination.specs.Records.{record_size, is_never, mark_record};
ghost use Rattle.listing.specs.Lines.{line, mark_line, mark_lines, listing};
ghost use Rattle.listing.specs.Listed.{removal_at, Zoomable, Printable, line_room, text_room};

use elimination::RECORD_SIZE;
use fractions::Fraction;

// The first line, a word and a number, at the start of `out`; gives the place behind it.
pub fn put_first_line(out: &mut [u8], word: &[u8], number: u64) -> usize
    requires { length word.now + 1 + number_room ≤ length out.old }
    ensures { Wrote out.old out.new 0 (line (word.now ∷ decimal number ∷ [])) result }
{
    let next = joining::put(out, 0, word);
    out[next] = b' ';
    text::put_number(out, next + 1, number, b'\n')
}

// The line of a mark that stays; gives the place behind it.
// Kept: each line asks for room at a place of its own in `out`, which is lent for writing.
fn put_stays(out: &mut [u8], at: usize, m: usize) -> usize
    requires { at + line_room ≤ length out.old }
    ensures { Wrote out.old out.new at (mark_line m stays) result }
{
    let next = text::put_number(out, at, m as u64, b' ');
    out[next] = b'-';
    out[next + 1] = b'\n';
    next + 2
}

// The line of a mark that goes; gives the place behind it.
fn put_gone(out: &mut [u8], at: usize, m: usize, by: usize, value: Fraction) -> usize
    requires { (at + line_room ≤ length out.old) × Small value × (0 < value.den) }
    ensures { Wrote out.old out.new at (mark_line m (gone by value)) result }
{
    let second = text::put_number(out, at, m as u64, b' ');
    let third = text::put_number(out, second, by as u64, b' ');
    let fourth = text::put_number(out, third, value.num, b' ');
    let fifth = text::put_number(out, fourth, value.den as u64, b' ');
    text::put_number(out, fifth, zoom::zoom_nearest(value), b'\n')
}

// The line of mark m, by its record; gives the place behind it.
fn put_mark(schedule: &[u8], out: &mut [u8], at: usize, m: usize) -> usize
    requires record_size_in_bounds { (record_size * m + record_size ≤ length schedule.now) × (at + line_room ≤ length out.old) }
    requires zoomable { is_never (mark_record schedule.now m) ≡ false → Zoomable schedule.now m }
    ensures { Wrote out.old out.new at (mark_line m (removal_at schedule.now m)) result }
{
    let d = elimination::record_at(schedule, RECORD_SIZE * m);
    if elimination::is_never(d) {
        return put_stays(out, at, m);
    }
    let by = d.eliminator as usize;
    put_gone(out, at, m, by, elimination::fraction_of(d))
}

// A line for each of n marks; gives the place behind them.
fn put_marks(schedule: &[u8], out: &mut [u8], at: usize, n: usize) -> usize
    requires { Printable schedule.now n × (at + line_room * n ≤ length out.old) }
    ensures { Wrote out.old out.new at (mark_lines (removal_at schedule.now) n) result }
{
    let mut next = at;
    for m in 0..n {
        next = put_mark(schedule, out, next, m);
    }
    next
}

// The text of a schedule of n marks, at the start of `out`; gives the place behind it.
pub fn put_listing(schedule: &[u8], out: &mut [u8], n: usize) -> usize
    requires { Printable schedule.now n × (text_room n ≤ length out.old) }
    ensures { Wrote out.old out.new 0 (listing (removal_at schedule.now) n) result }
{
    let next = put_first_line(out, b"marks", n as u64);
    put_marks(schedule, out, next, n)
}
