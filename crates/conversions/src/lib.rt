// The same marks in another form: what the calls that fill, turn and rearrange marks do.
#![tactic(auto)]

ghost use Rattle.std.specs.Prelude.{◌≡◌, ◌<◌, ◌≤◌, length};
ghost use Rattle.std.specs.Fn.{FnOnceTakesAtMut, FnOnceReturnsAtMut};
ghost use Rattle.std.specs.Result.{MatchResult};
ghost use Rattle.contents.specs.declared.Refusal.TheVariants.{Room};
ghost use Rattle.jobs.specs.Jobs.{fill_job, log_to_marks_job, marks_to_log_job, to_columns_job, from_columns_job};
ghost use Rattle.jobs.specs.Answers.{Gives, answer_to};
ghost use Rattle.jobs.specs.Filled.{MeetsFilling};
ghost use Rattle.jobs.specs.Logs.{MeetsLog, MeetsMarks};
ghost use Rattle.jobs.specs.Archived.{MeetsColumns, MeetsRows};

use contents::Refusal;
use logs::LOG_RECORD_SIZE;
use marks::MARK_SIZE;

// What every call here ends with: 13, where `out` has no room for so many bytes, and else it writes them and answers how many they are.
fn written<F: FnOnce(&mut [u8])>(size: usize, out: &mut [u8], write: F) -> Result<u32, Refusal>
    requires small { size < 4294967296 }
    requires taken { size ≤ length out.old → FnOnceTakesAtMut F.FnOnce write out.old }
    ensures { MatchResult result (λ n. (size ≤ length out.old) × (n ≡ size) × FnOnceReturnsAtMut F.FnOnce write out.old tt out.new) (λ r. (length out.old < size) × (r ≡ Room) × (out.new ≡ out.old)) }
{
    if out.len() < size {
        return Err(Refusal::Room);
    }
    write(out);
    Ok(size as u32)
}

// ---- filling

// Writes the same marks, each radius 0 as the number in 01's old table, and answers how many bytes these are: questions 4, then 5 and 6
// mark by mark, and 13.
pub fn fill(marks: &[u8], out: &mut [u8]) -> Result<u32, Refusal>
    ensures gives { Gives (fill_job marks.now (length out.old)) out.old (answer_to result) out.new }
    ensures meets_filling { MeetsFilling marks.now (answer_to result) out.new }
{
    parts::check_marks(marks)?;
    let n = marks.len() / MARK_SIZE;
    written(MARK_SIZE * n, out, |room| filling::fill(room, marks, n))
}

// ---- logs

// Turns a log into marks at the start of `out`, and answers how many bytes these are: questions 4, then 15 and 16 of x, of y, 5 and 6
// record by record, and 13. Turned back they are the log.
pub fn log_to_marks(log: &[u8], out: &mut [u8]) -> Result<u32, Refusal>
    ensures gives { Gives (log_to_marks_job log.now (length out.old)) out.old (answer_to result) out.new }
    ensures meets_log { MeetsLog log.now (answer_to result) out.new }
{
    logs::check_log(log)?;
    let n = log.len() / LOG_RECORD_SIZE;
    written(MARK_SIZE * n, out, |room| logs::put_marks(room, log, n))
}

// Turns marks into a log at the start of `out`, and answers how many bytes it has: questions 4, then 5 and 6 mark by mark, and 13. Turned
// back it is the marks.
pub fn marks_to_log(marks: &[u8], out: &mut [u8]) -> Result<u32, Refusal>
    ensures gives { Gives (marks_to_log_job marks.now (length out.old)) out.old (answer_to result) out.new }
    ensures meets_marks { MeetsMarks marks.now (answer_to result) out.new }
{
    parts::check_marks(marks)?;
    let n = marks.len() / MARK_SIZE;
    written(
        LOG_RECORD_SIZE * n,
        out,
        |room| logs::put_records(room, marks, n),
    )
}

// ---- columns

// Rearranges marks by columns at the start of `out`: all x, then all y, radii, priorities, kinds and tags, and each x and each y after the first
// as its difference from the one before. Answers how many bytes these are: questions 4 and 13. Rearranged into marks again they are the same.
pub fn to_columns(marks: &[u8], out: &mut [u8]) -> Result<u32, Refusal>
    ensures gives { Gives (to_columns_job marks.now (length out.old)) out.old (answer_to result) out.new }
    ensures meets_columns { MeetsColumns marks.now (answer_to result) out.new }
{
    if !parts::is_marks(marks) {
        return Err(Refusal::MarksSize);
    }
    let n = marks.len() / MARK_SIZE;
    written(
        MARK_SIZE * n,
        out,
        |room| columns::put_columns(room, marks, n),
    )
}

// Rearranges columns into marks at the start of `out`, and answers how many bytes these are: questions 4 and 13. Rearranged by columns again they
// are the same.
pub fn from_columns(columns: &[u8], out: &mut [u8]) -> Result<u32, Refusal>
    ensures gives { Gives (from_columns_job columns.now (length out.old)) out.old (answer_to result) out.new }
    ensures meets_rows { MeetsRows columns.now (answer_to result) out.new }
{
    if !parts::is_marks(columns) {
        return Err(Refusal::MarksSize);
    }
    let n = columns.len() / MARK_SIZE;
    written(
        MARK_SIZE * n,
        out,
        |room| columns::put_marks(room, columns, n),
    )
}
