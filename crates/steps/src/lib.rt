// What the calls of the public library do in common: scheduling marks that are put together.
#![tactic(auto)]

ghost use Rattle.std.specs.Prelude.{◌≡◌, cond, ◌&&◌, [], ◌≤◌, leb, length};
ghost use Rattle.scheduling.specs.Filling.{work_size};
ghost use Rattle.jobs.specs.Jobs.{scheduled_size, scheduling_job};
ghost use Rattle.jobs.specs.Answers.{Gives, Lent, answer_to};
ghost use Rattle.writing.specs.Pieces.{joined};
ghost use Rattle.writing.specs.Requests.{kept_of};

use contents::Refusal;
use marks::POPUP_SIZE;
use writing::{Request, SHEET_EACH};

// What scheduling asks for, in bytes a mark and in bytes beside them: the work buffer, and the sheet of three parts with its contents, whose
// bytes a mark are those of `writing`, and to which parts that are kept add their own.
const WORK_EACH: usize = 32;

const WORK_BESIDE: usize = 1024;

const SHEET_BESIDE: usize = 32;

// What part 4 takes of a sheet, and part 7: an entry in the contents, and a byte.
const CHOICE_BYTES: usize = 11;

// What part 5 takes of a sheet beside its rows: its entry in the contents.
const POPUPS_BESIDE: usize = 10;

// What part 6 takes of a sheet: its entry in the contents, and its counts.
const COUNTS_BYTES: usize = 180;

// The size of a part that may not be there.
// Kept: a flag beside a size, as the definition of the scheduled size asks it.
fn size_if(there: bool, size: usize) -> usize
    ensures { (result ≡ cond there size 0) × (result ≤ size) }
{
    if there { size } else { 0 }
}

// How many bytes the scheduled sheet that is asked for has.
fn scheduled_size(request: &Request<'_>) -> usize
    ensures { result ≡ scheduled_size request.now.count (kept_of request.now) request.now.counted }
{
    let n = request.count;
    let kept = CHOICE_BYTES * request.edition.len()
        + size_if(request.popups.is_some(), POPUPS_BESIDE + POPUP_SIZE * n)
        + CHOICE_BYTES * request.shape.len();
    SHEET_EACH * n + SHEET_BESIDE + kept + size_if(request.counted, COUNTS_BYTES)
}

// 13. Are the work buffer and the written one long enough for n marks, for a sheet of this size?
fn has_room(n: usize, size: usize, work: usize, out: usize) -> bool
    requires { n ≤ 4096 }
    ensures { result ≡ (leb (work_size n) work && leb size out) }
{
    WORK_EACH * n + WORK_BESIDE <= work && size <= out
}

// What is left of a job that schedules marks, once its other questions are answered with yes: 13, and then the sheet and its length.
pub fn schedule_marks(
    request: &Request<'_>,
    work: &mut [u8],
    out: &mut [u8],
) -> Result<u32, Refusal>
    ensures gives { Gives (scheduling_job [] (joined request.now.marks) (kept_of request.now) request.now.counted (length work.old) (length out.old)) out.old (answer_to result) out.new }
    ensures lent { Lent (answer_to result) work.old work.new }
{
    let size = scheduled_size(request);
    if !has_room(request.count, size, work.len(), out.len()) {
        return Err(Refusal::Room);
    }
    writing::put_sheet(request, work, out);
    Ok(size as u32)
}
