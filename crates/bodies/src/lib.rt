// The bodies of a sheet: questions 4 to 9, with 19, 21 and 24 after 7, and 23.
#![tactic(auto)]

ghost use Rattle.std.specs.Prelude.{◌≡◌, true, map, ◌*◌, ◌<◌, ◌≤◌, is_some, IfSome, length};
ghost use Rattle.contents.specs.Contents.{together, has, find};
ghost use Rattle.contents.specs.Asking.{answer};
ghost use Rattle.contents.specs.Refusals.{told};
ghost use Rattle.contents.specs.Questions.{codes_right};
ghost use Rattle.bodies.specs.Questions.{is_sized, is_chosen, question7, question21, question8, question9, question23, last_questions, body_questions};
ghost use Rattle.bodies.specs.Held.{parts_of};

use contents::{COUNTS, EDITION, INDEX, MARKS, POPUPS, Refusal, SCHEDULE, SHAPE};
use elimination::{RECORD_SIZE, Reel};
use index::INDEX_ENTRY_SIZE;
use marks::MARK_SIZE;

mod held;

use held::Held;

// ---- questions 7 to 9, 19, 21, 23 and 24

impl<'c> Held<'_, '_, 'c> {
    // The body under this code, where there is one.
    fn find(&self, code: u16) -> Option<&'c [u8]>
        ensures there { is_some result ≡ has (parts_of self.now) code }
        ensures body { IfSome result (λ b. b.now ≡ find (parts_of self.now) code) }
    {
        contents::body_under(self.codes, self.bodies, code)
    }

    // The same, where a part that is not there counts as empty.
    fn part(&self, code: u16) -> &'c [u8]
        ensures { result.now ≡ find (parts_of self.now) code }
    {
        contents::find(self.codes, self.bodies, code)
    }

    // Has a part that is there `size` bytes for each mark?
    fn is_sized(&self, code: u16, size: usize) -> bool
        requires { size ≤ 14 }
        ensures { result ≡ is_sized (has (parts_of self.now) code) (length (find (parts_of self.now) code)) (size * self.now.count) }
    {
        let Some(body) = self.find(code) else {
            return true;
        };
        body.len() == size * self.count
    }

    // 7. Are parts 2 and 3, if present, 14n and 2n bytes?
    fn has_sizes(&self) -> bool
        ensures { result ≡ question7 (parts_of self.now) }
    {
        self.is_sized(SCHEDULE, RECORD_SIZE) && self.is_sized(INDEX, INDEX_ENTRY_SIZE)
    }

    // 19 and 24. Is part 4 or 7, if present, one byte of 1 or 2?
    fn has_choice(&self, code: u16) -> bool
        ensures { result ≡ is_chosen (parts_of self.now) code }
    {
        let Some(choice) = self.find(code) else {
            return true;
        };
        parts::is_choice(choice)
    }

    // 21. Does part 5, if present, have a popup for each mark, none above 65,536?
    fn has_popups(&self) -> bool
        ensures { result ≡ question21 (parts_of self.now) }
    {
        let Some(popups) = self.find(POPUPS) else {
            return true;
        };
        parts::is_popups(popups, self.count)
    }

    // 8. Is each record of part 2 right?
    // Kept: what earlier questions answered stands in the clauses, since a value is held before they are asked.
    fn has_schedule(&self) -> bool
        requires { (question7 (parts_of self.now) ≡ true) × (question21 (parts_of self.now) ≡ true) }
        ensures { result ≡ question8 (parts_of self.now) }
    {
        let Some(schedule) = self.find(SCHEDULE) else {
            return true;
        };
        let marks = self.part(MARKS);
        let popups = self.part(POPUPS);
        let reel = Reel {
            marks,
            count: self.count,
            edition: parts::choice_of(self.part(EDITION)),
            shape: parts::choice_of(self.part(SHAPE)),
            popups,
        };
        parts::is_schedule(&reel, schedule)
    }

    // 9. Is part 3 the tree that parts 1 and 2 give? It is there only with part 2.
    fn has_index(&self) -> bool
        requires { (question7 (parts_of self.now) ≡ true) × (codes_right self.now.codes.now ≡ true) }
        ensures { result ≡ question9 (parts_of self.now) }
    {
        let Some(index) = self.find(INDEX) else {
            return true;
        };
        index::is_index(self.part(MARKS), self.part(SCHEDULE), index, self.count)
    }

    // 23. Does part 6, if present, hold the counts of parts 1, 2 and 5? It is there only with part 2.
    fn has_counts(&self) -> bool
        requires { (question7 (parts_of self.now) ≡ true) × (question21 (parts_of self.now) ≡ true) × (codes_right self.now.codes.now ≡ true) }
        ensures { result ≡ question23 (parts_of self.now) }
    {
        let Some(counts) = self.find(COUNTS) else {
            return true;
        };
        counting::is_counts(
            counts,
            self.part(MARKS),
            self.part(SCHEDULE),
            self.part(POPUPS),
            self.count,
        )
    }

    // 7, 19, 21, 24, 8, 9 and 23: the first 'no'.
    fn check(&self) -> Result<(), Refusal>
        requires { codes_right self.now.codes.now ≡ true }
        ensures { told result ≡ answer (last_questions (parts_of self.now)) }
    {
        if !self.has_sizes() {
            return Err(Refusal::Sizes);
        }
        if !self.has_choice(EDITION) {
            return Err(Refusal::Edition);
        }
        if !self.has_popups() {
            return Err(Refusal::Popups);
        }
        if !self.has_choice(SHAPE) {
            return Err(Refusal::Shape);
        }
        if !self.has_schedule() {
            return Err(Refusal::Schedule);
        }
        if !self.has_index() {
            return Err(Refusal::Index);
        }
        if !self.has_counts() {
            return Err(Refusal::Counts);
        }
        Ok(())
    }
}

// 4 to 9, with 19, 21, 23 and 24, of the bodies under these codes: the first 'no'. The codes are right.
// Kept: codes and bodies side by side, as the C interface lends them.
pub fn check_bodies(codes: &[u16], bodies: &[&[u8]]) -> Result<(), Refusal>
    requires { (length codes.now ≡ length bodies.now) × (0 < length bodies.now) × (codes_right codes.now ≡ true) }
    ensures { told result ≡ answer (body_questions (together codes.now (map (λ x. x.now) bodies.now))) }
{
    let marks = contents::find(codes, bodies, MARKS);
    parts::check_marks(marks)?;
    let held = Held {
        codes,
        bodies,
        count: marks.len() / MARK_SIZE,
    };
    held.check()
}
