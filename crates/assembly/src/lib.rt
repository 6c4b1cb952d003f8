// Sheets put together of parts: what the call that assembles one does.
#![tactic(auto)]

ghost use Rattle.std.specs.Prelude.{◌≡◌, ◌&&◌, map, leb, length};
ghost use Rattle.contents.specs.Questions.{is_count};
ghost use Rattle.jobs.specs.Jobs.{assemble_job};
ghost use Rattle.jobs.specs.Answers.{Gives, answer_to};
ghost use Rattle.jobs.specs.Parts.{Joins};

use contents::Refusal;

// 1, of the parts that are put together: is their number one that is taken, and is there a body for each code?
fn are_counted(codes: usize, bodies: usize) -> bool
    ensures { result ≡ (is_count codes && leb codes bodies) }
{
    contents::is_count(codes) && codes <= bodies
}

// Puts the bodies under these codes together into a sheet at the start of `out`: questions 1 (of the number of parts), 2 of the codes, 4 to 9
// with 19, 21, 23 and 24, and 13. Bodies behind those that the codes name are ignored. The sheet has these parts and is accepted; an accepted sheet's own
// parts give that sheet.
pub fn assemble<'a>(codes: &[u16], bodies: &'a [&'a [u8]], out: &mut [u8]) -> Result<u32, Refusal>
    ensures gives { Gives (assemble_job codes.now (map (λ x. x.now) bodies.now) (length out.old)) out.old (answer_to result) out.new }
    ensures joins { Joins codes.now (map (λ x. x.now) bodies.now) out.old (answer_to result) out.new }
{
    let count = codes.len();
    if !are_counted(count, bodies.len()) {
        return Err(Refusal::Contents);
    }
    if !contents::codes_right(codes) {
        return Err(Refusal::Codes);
    }
    sheet::assemble(codes, &bodies[..count], out)
}
