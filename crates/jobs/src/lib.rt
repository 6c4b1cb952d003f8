// What the calls of the public library answer. The jobs themselves are definitions, in `specs`.
#![tactic(auto)]

ghost use Rattle.std.specs.Prelude.{◌≡◌};

use contents::Refusal;

// 0 or the refusal's number, and the length, count or mark number asked for.
// Kept: a number beside a value, since the C interface has no Result.
#[repr(C)]
#[derive(Clone, Copy)]
pub struct Answer {
    pub number: u32,
    pub value: u32,
}

// A refusal counts and measures nothing.
impl From<Result<u32, Refusal>> for Answer {
    ghost use Rattle.jobs.specs.Answers.{answer_to};

    ghost from_gives = { λ r a. a ≡ answer_to r };

    fn from(outcome: Result<u32, Refusal>) -> Answer {
        match outcome {
            Ok(value) => Answer { number: 0, value },
            Err(refusal) => Answer {
                number: refusal.number(),
                value: 0,
            },
        }
    }
}
