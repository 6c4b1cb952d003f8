// What a sheet's parts are asked one by one: questions 4 to 6 of part 1, and what 8, 19, 21 and 24 ask of a body.
#![tactic(auto)]

ghost use Rattle.std.specs.Prelude.{◌≡◌, ◌+◌, ◌*◌, ◌<◌, ◌≤◌, length};
ghost use Rattle.marks.specs.Marks.{mark_size};
ghost use Rattle.marks.specs.Pairs.{GoodPopups};
ghost use Rattle.elimination.specs.Records.{record_size};
ghost use Rattle.elimination.specs.Lent.{lent};
ghost use Rattle.contents.specs.Asking.{answer};
ghost use Rattle.contents.specs.Refusals.{told};
ghost use Rattle.parts.specs.Questions.{question4, field_questions, one_mark, mark_questions, part1_questions, names_right, record_right, is_schedule, choice_in, is_choice, is_popup, is_popups};

use contents::Refusal;
use elimination::{RECORD_SIZE, Record, Reel};
use marks::{MARK_SIZE, POPUP_SIZE};

// The largest radius that a mark may have.
const MOST_RADIUS: u16 = 16383;

// "a k exceeds 65,536"
const MOST_POPUP: u32 = 65536;

// ---- questions 4 to 6, of part 1

// 4. Is part 1 a multiple of 11 and at most 45,056 bytes?
#[tactic(auto, unfolding(crate::specs::Questions::question4))]
pub fn is_marks(s: &[u8]) -> bool
    ensures { result ≡ question4 s.now }
{
    s.len() % MARK_SIZE == 0 && s.len() <= 45056
}

// 5 and 6, of a mark's fields: its kind is asked before its radius.
pub fn check_fields(kind: u8, radius: u16) -> Result<(), Refusal>
    ensures { told result ≡ answer (field_questions kind radius) }
{
    if marks::house_radius(kind).is_none() {
        return Err(Refusal::Kind);
    }
    if MOST_RADIUS < radius {
        return Err(Refusal::Radius);
    }
    Ok(())
}

// The same of mark m.
fn check_mark(s: &[u8], m: usize) -> Result<(), Refusal>
    requires { mark_size * m + mark_size ≤ length s.now }
    ensures { told result ≡ answer (one_mark s.now m) }
{
    check_fields(marks::kind_at(s, m), marks::written_radius_at(s, m))
}

// 5 and 6, mark by mark, of the first n marks.
fn check_each(s: &[u8], n: usize) -> Result<(), Refusal>
    requires { mark_size * n ≤ length s.now }
    ensures { told result ≡ answer (mark_questions s.now n) }
{
    for m in 0..n {
        check_mark(s, m)?;
    }
    Ok(())
}

// 4 to 6, of marks as they stand.
pub fn check_marks(s: &[u8]) -> Result<(), Refusal>
    ensures { told result ≡ answer (part1_questions s.now) }
{
    if !is_marks(s) {
        return Err(Refusal::MarksSize);
    }
    check_each(s, s.len() / MARK_SIZE)
}

// ---- part 2: is each record right?

// Kept: `GoodPopups` stands in three clauses, since it is no proposition, as a ghost field must be: of no marks both its cases hold.

// Does mark m's record d name a higher-ranked mark of the reel, with their pair value as it is, unreduced?
fn names_right(reel: &Reel<'_>, d: Record, m: usize) -> bool
    requires { GoodPopups reel.now.popups.now reel.now.count × (m < reel.now.count) }
    ensures { result ≡ names_right (lent reel.now) d m }
{
    let by = d.eliminator as usize;
    by < reel.count
        && marks::outranks(reel.marks, reel.edition, by, m)
        && elimination::fraction_of(d) == marks::pair(reel.marks, reel.shape, reel.popups, by, m)
}

// Is mark m's record the 'never' record, or does it name a mark rightly that is removed later?
fn record_right(reel: &Reel<'_>, schedule: &[u8], m: usize) -> bool
    requires { GoodPopups reel.now.popups.now reel.now.count × (record_size * reel.now.count ≤ length schedule.now) × (m < reel.now.count) }
    ensures { result ≡ record_right (lent reel.now) schedule.now m }
{
    let d = elimination::record_at(schedule, RECORD_SIZE * m);
    elimination::is_never(d)
        || names_right(reel, d, m)
            && fractions::later(
                elimination::value_at(schedule, d.eliminator as usize),
                elimination::value_of(d),
            )
}

// Is each record right?
pub fn is_schedule(reel: &Reel<'_>, schedule: &[u8]) -> bool
    requires { GoodPopups reel.now.popups.now reel.now.count × (record_size * reel.now.count ≤ length schedule.now) }
    ensures { result ≡ is_schedule (lent reel.now) schedule.now }
{
    (0..reel.count).all(|m| record_right(reel, schedule, m))
}

// ---- parts 4 and 7: the edition of the handbook, the shape of the labels

// Is this one byte of 1 or 2?
#[tactic(auto, unfolding(crate::specs::Questions::is_choice))]
pub fn is_choice(body: &[u8]) -> bool
    ensures { result ≡ is_choice body.now }
{
    matches!(body, [1 | 2])
}

// The edition or the shape that the part names; without it the first one holds.
pub fn choice_of(body: &[u8]) -> u8
    ensures { result ≡ choice_in body.now }
{
    match body {
        [] => 1,
        [choice, ..] => *choice,
    }
}

// ---- part 5: the popups

// Is this k taken?
#[tactic(auto, unfolding(crate::specs::Questions::is_popup))]
pub fn is_popup(k: u32) -> bool
    ensures { result ≡ is_popup k }
{
    k <= MOST_POPUP
}

// Does this have a popup for each of n marks, and is none above 65,536?
pub fn is_popups(body: &[u8], n: usize) -> bool
    requires { n ≤ 4096 }
    ensures { result ≡ is_popups body.now n }
{
    body.len() == POPUP_SIZE * n && (0..n).all(|m| is_popup(marks::popup_at(body, m)))
}
