// Logs from the winder: what is asked of a log, the marks of a log, and the log of marks. `s` is a log or the marks' bytes.
#![tactic(auto)]

ghost use Rattle.std.specs.Prelude.{◌≡◌, true, [], ◌∷◌, ◌+◌, ◌*◌, ◌<◌, ◌≤◌, length, get_or};
ghost use Rattle.std.proofs.lemmas.List.Edits.{sets};
ghost use Rattle.marks.specs.Marks.{mark_size, place_bits};
ghost use Rattle.contents.specs.Asking.{answer, in_turn};
ghost use Rattle.contents.specs.Refusals.{told};
ghost use Rattle.rows.specs.Rows.{rows};
ghost use Rattle.packed.specs.Packed.{is_place, coordinate_at};
ghost use Rattle.parts.specs.Questions.{field_questions};
ghost use Rattle.logs.specs.Log.{log_record_size, radius_of, kind_of, mark_of_record, record_of_mark};
ghost use Rattle.logs.specs.Questions.{log_size, place_questions, record_questions, log_checks};
ghost use Rattle.logs.specs.Right.{LogRight};

use contents::Refusal;
use marks::{MARK_SIZE, RADIUS_OFFSET, Y_OFFSET};

// The bytes of a log's record, and where y, radius and kind begin.
pub const LOG_RECORD_SIZE: usize = 13;

const LOG_Y_OFFSET: usize = 3;

const LOG_RADIUS_OFFSET: usize = 6;

const LOG_KIND_OFFSET: usize = 10;

// ---- what a log is asked

// 4. Is the log a multiple of 13 and at most 4,096 records?
fn is_log(s: &[u8]) -> bool
    ensures { result ≡ log_size s.now }
{
    s.len() % LOG_RECORD_SIZE == 0 && s.len() / LOG_RECORD_SIZE <= 4096
}

// The three bytes of the coordinate at `at`.
// Kept: its readers ask for three bytes at a place, a bound on the number that they are handed.
fn coordinate(s: &[u8], at: usize) -> [u8; 3]
    requires { at + 3 ≤ length s.now }
    ensures { result ≡ get_or s.now at 0 ∷ get_or s.now (at + 1) 0 ∷ get_or s.now (at + 2) 0 ∷ [] }
{
    [s[at], s[at + 1], s[at + 2]]
}

// 15 and 16, of the coordinate at `at`.
fn check_place(s: &[u8], at: usize) -> Result<(), Refusal>
    requires { at + 3 ≤ length s.now }
    ensures { told result ≡ answer (place_questions s.now at) }
{
    let [a, b, c] = coordinate(s, at);
    if !packed::is_packed(a, b, c) {
        return Err(Refusal::Packed);
    }
    if !packed::is_place(packed::is_minus(c), packed::magnitude(a, b, c)) {
        return Err(Refusal::Place);
    }
    Ok(())
}

// 5 and 6, of record r.
fn check_fields(s: &[u8], r: usize) -> Result<(), Refusal>
    requires { log_record_size * r + log_record_size ≤ length s.now }
    ensures { told result ≡ answer (field_questions (kind_of s.now r) (radius_of s.now r)) }
{
    let kind = numbers::read(s, LOG_RECORD_SIZE * r + LOG_KIND_OFFSET, 1) as u8;
    let radius = numbers::read_u16(s, LOG_RECORD_SIZE * r + LOG_RADIUS_OFFSET);
    parts::check_fields(kind, radius)
}

// All questions of record r: x, y, and then the fields.
fn check_record(s: &[u8], r: usize) -> Result<(), Refusal>
    requires { log_record_size * r + log_record_size ≤ length s.now }
    ensures { told result ≡ answer (record_questions s.now r) }
{
    check_place(s, LOG_RECORD_SIZE * r)?;
    check_place(s, LOG_RECORD_SIZE * r + LOG_Y_OFFSET)?;
    check_fields(s, r)
}

// Record by record, of the first n.
fn check_records(s: &[u8], n: usize) -> Result<(), Refusal>
    requires { log_record_size * n ≤ length s.now }
    ensures { told result ≡ answer (in_turn (record_questions s.now) n) }
{
    for r in 0..n {
        check_record(s, r)?;
    }
    Ok(())
}

// All questions of a log but 13.
// Kept: beside `parts::check_marks`, since each asks its own definition of what is right; what they share is a line.
pub fn check_log(s: &[u8]) -> Result<(), Refusal>
    ensures { told result ≡ answer (log_checks s.now) }
{
    if !is_log(s) {
        return Err(Refusal::MarksSize);
    }
    check_records(s, s.len() / LOG_RECORD_SIZE)
}

// ---- logs into marks

// The 16 bits of the coordinate at `at`.
fn place_bits(s: &[u8], at: usize) -> u32
    requires { (at + 3 ≤ length s.now) × (is_place (coordinate_at s.now at) ≡ true) }
    ensures { result ≡ place_bits (coordinate_at s.now at) }
{
    let [a, b, c] = coordinate(s, at);
    packed::bits_of(packed::is_minus(c), packed::magnitude(a, b, c))
}

// Writes the mark of record r at its place.
fn put_mark(out: &mut [u8], s: &[u8], n: usize, r: usize)
    requires { LogRight s.now n × (r < n) × (mark_size * n ≤ length out.old) }
    ensures { out.new ≡ sets out.old (mark_size * r) (mark_of_record s.now r) }
{
    let from = LOG_RECORD_SIZE * r;
    let at = MARK_SIZE * r;
    let x = place_bits(s, from);
    let y = place_bits(s, from + LOG_Y_OFFSET);
    numbers::write(out, at, 2, x as u64);
    numbers::write(out, at + Y_OFFSET, 2, y as u64);
    let start = from + LOG_RADIUS_OFFSET;
    let end = from + LOG_RECORD_SIZE;
    joining::put(out, at + RADIUS_OFFSET, &s[start..end]);
}

// Writes the marks of n records.
// Kept: a loop of one line, as in `put_records` and in crate filling; a function that takes the row to write would be longer than the three.
pub fn put_marks(out: &mut [u8], s: &[u8], n: usize)
    requires { LogRight s.now n × (mark_size * n ≤ length out.old) }
    ensures { out.new ≡ sets out.old 0 (rows (mark_of_record s.now) n) }
{
    for r in 0..n {
        put_mark(out, s, n, r);
    }
}

// ---- marks into logs

// Writes the record of mark m at its place.
fn put_record(out: &mut [u8], s: &[u8], m: usize)
    requires { (mark_size * m + mark_size ≤ length s.now) × (log_record_size * m + log_record_size ≤ length out.old) }
    ensures { out.new ≡ sets out.old (log_record_size * m) (record_of_mark s.now m) }
{
    let from = MARK_SIZE * m;
    let at = LOG_RECORD_SIZE * m;
    packed::put_place(out, at, numbers::read_u16(s, from));
    packed::put_place(
        out,
        at + LOG_Y_OFFSET,
        numbers::read_u16(s, from + Y_OFFSET),
    );
    let start = from + RADIUS_OFFSET;
    let end = from + MARK_SIZE;
    joining::put(out, at + LOG_RADIUS_OFFSET, &s[start..end]);
}

// Writes the records of n marks.
pub fn put_records(out: &mut [u8], s: &[u8], n: usize)
    requires { (mark_size * n ≤ length s.now) × (log_record_size * n ≤ length out.old) }
    ensures { out.new ≡ sets out.old 0 (rows (record_of_mark s.now) n) }
{
    for m in 0..n {
        put_record(out, s, m);
    }
}
