// What is asked of scheduling.
ghost use Rattle.std.specs.Prelude.{is_some};
ghost use Rattle.jobs.specs.Steps.{PartsLent};
ghost use Rattle.writing.specs.Pieces.{joined, joined_if};

use crate::Pieces;

// The marks that are scheduled, their number, and what is kept beside them: the bodies of parts 4 and 7, empty where they are not there, and the rows
// of part 5, where it is there. Part 6 is renewed where they are `counted`. The marks and what is kept are taken.
#[derive(Clone, Copy)]
pub struct Request<'a> {
    pub marks: Pieces<'a>,
    pub count: usize,
    pub edition: &'a [u8],
    pub popups: Option<Pieces<'a>>,
    pub shape: &'a [u8],
    pub counted: bool,
    ghost taken: { PartsLent (joined marks) edition.now (is_some popups) (joined_if popups) shape.now count },
}
