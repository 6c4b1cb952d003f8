// The public library, for C and Rust.
#![tactic(auto)]

ghost use Rattle.std.specs.Prelude.{◌≡◌, map, length};
ghost use Rattle.changing.specs.Changing.{added, taken_out, added_popup, taken_out_popup};
ghost use Rattle.contents.specs.Contents.{has, split, marks_part};
ghost use Rattle.contents.specs.Places.{place_of, Located};
ghost use Rattle.contents.specs.Refusals.{told};
ghost use Rattle.sheet.specs.Opened.{opened, open_parts};
ghost use Rattle.zoom.specs.declared.Zoom.TheVariants.{Stop, Wheel};
ghost use Rattle.jobs.specs.Jobs.{check_job, carried, kept_parts, schedule_job, add_job, take_out_job, judge_job, count_job, assemble_job, fill_job, log_to_marks_job, marks_to_log_job, to_columns_job, from_columns_job, view_job, walk_job, is_shown_job};
ghost use Rattle.jobs.specs.Answers.{answer_of, refusal, window, fields, Gives, Lent};
ghost use Rattle.jobs.specs.Parts.{Joins};
ghost use Rattle.jobs.specs.Demand3.{Meets, MeetsView};
ghost use Rattle.jobs.specs.Changed.{MeetsAdding};
ghost use Rattle.jobs.specs.Filled.{MeetsFilling};
ghost use Rattle.jobs.specs.Logs.{MeetsLog, MeetsMarks};
ghost use Rattle.jobs.specs.Archived.{MeetsColumns, MeetsRows};
ghost use Rattle.jobs.specs.Stops.{MeetsStop};
ghost use Rattle.jobs.specs.Turns.{MeetsTurn};
ghost use Rattle.jobs.specs.Judged.{MeetsJudging};
ghost use Rattle.jobs.specs.Counted.{MeetsCounting};

use contents::{Extent, Refusal};
use jobs::Answer;
use reaching::Window;
use zoom::Zoom;

// What a walk answers where no mark is left, and where it is refused.
// Kept: the C interface has no Option.
const NONE_LEFT: u32 = 65535;

// What a call answers that is asked for no length and no count.
fn verdict(outcome: Result<(), Refusal>) -> Answer
    ensures { result ≡ refusal (told outcome) }
{
    Answer::from(outcome.map(|()| 0))
}

// ---- sheets

// Questions 1 to 9, with 19, 21, 23 and 24.
pub fn rollmap_check(sheet: &[u8]) -> Answer
    ensures { result ≡ answer_of (check_job sheet.now) }
{
    verdict(sheet::check(sheet))
}

// Where the part of this code lies in an accepted sheet: above 0 where it is there, be it empty or not, and 0 where it is not.
pub fn rollmap_part(sheet: &[u8], code: u32) -> Extent
    ensures { (result ≡ place_of (opened sheet.now).layout code) × Located sheet.now (open_parts sheet.now) code result.offset result.length }
{
    sheet::place_of(sheet, code)
}

// Puts the bodies under these codes together into a sheet at the start of `out`: questions 1 (of the number of parts), 2 of the codes, 4 to 9
// with 19, 21, 23 and 24, and 13. Bodies behind those that the codes name are ignored. The sheet has these parts and is accepted; an accepted sheet's own
// parts give that sheet.
pub fn rollmap_assemble<'a>(codes: &[u16], bodies: &'a [&'a [u8]], out: &mut [u8]) -> Answer
    ensures gives { Gives (assemble_job codes.now (map (λ x. x.now) bodies.now) (length out.old)) out.old result out.new }
    ensures joins { Joins codes.now (map (λ x. x.now) bodies.now) out.old result out.new }
{
    Answer::from(assembly::assemble(codes, bodies, out))
}

// ---- scheduling

// Writes the sheet of three parts that a sheet's marks give, with parts 4, 5 and 7 where they are there, and part 6 renewed, and answers its length:
// questions 1 to 9, with 19, 21, 23 and 24, and 13. What the work buffer holds plays no part, and what it is left with after a success is not said.
// The written sheet meets demand 3.
pub fn rollmap_schedule(sheet: &[u8], work: &mut [u8], out: &mut [u8]) -> Answer
    ensures gives { Gives (schedule_job sheet.now (length work.old) (length out.old)) out.old result out.new }
    ensures lent { Lent result work.old work.new × Meets (marks_part (split sheet.now)) (kept_parts (split sheet.now)) (has (split sheet.now) 6) result out.new }
{
    Answer::from(changes::schedule(sheet, work, out))
}

// ---- marks that come and go

// Schedules a sheet's marks and one more, given by its fields and its popup, behind them, keeps parts 4, 5 and 7 and renews part 6: questions 1 to 10,
// 18, then 5, 6 and 21 of the new mark, and 13. It is the sheet that scheduling writes for the new marks; the sheet's own schedule plays no part.
pub fn rollmap_add(
    sheet: &[u8],
    x: i16,
    y: i16,
    radius: u16,
    priority: u16,
    kind: u8,
    tag: u16,
    popup: u32,
    work: &mut [u8],
    out: &mut [u8],
) -> Answer
    ensures gives { Gives (add_job sheet.now (fields x y radius priority kind tag) popup (length work.old) (length out.old)) out.old result out.new }
    ensures lent { Lent result work.old work.new × Meets (added (marks_part (split sheet.now)) (fields x y radius priority kind tag)) (carried (split sheet.now) (λ q. added_popup q popup)) (has (split sheet.now) 6) result out.new }
    ensures meets_adding { MeetsAdding sheet.now (fields x y radius priority kind tag) popup result out.new }
{
    Answer::from(changes::add(sheet, x, y, radius, priority, kind, tag, popup, work, out))
}

// Schedules a sheet's marks without mark m, whereupon higher numbers drop by one, keeps parts 4 and 7, and part 5 without m's row, and renews part 6:
// questions 1 to 10, 17 and 13. It is the sheet that scheduling writes for the new marks.
pub fn rollmap_take_out(sheet: &[u8], m: u32, work: &mut [u8], out: &mut [u8]) -> Answer
    ensures gives { Gives (take_out_job sheet.now m (length work.old) (length out.old)) out.old result out.new }
    ensures lent { Lent result work.old work.new × Meets (taken_out (marks_part (split sheet.now)) m) (carried (split sheet.now) (λ q. taken_out_popup q m)) (has (split sheet.now) 6) result out.new }
{
    Answer::from(changes::take_out(sheet, m, work, out))
}

// ---- judging

// Judges the schedule of a sheet, whoever made it: questions 1 to 10, and 22. It answers 0 exactly where the sheet is scheduled here, and then
// the sheet meets demand 3.
pub fn rollmap_judge(sheet: &[u8]) -> Answer
    ensures { (result ≡ answer_of (judge_job sheet.now)) × MeetsJudging sheet.now result }
{
    verdict(judgement::judge(sheet))
}

// ---- counting

// Writes a sheet with part 6, the counts of its own schedule, and answers its length: questions 1 to 9, with 19, 21, 23 and 24, 10 where part 2 is
// lacking, and 13. Its other parts stay as they are.
pub fn rollmap_count(sheet: &[u8], out: &mut [u8]) -> Answer
    ensures gives { Gives (count_job sheet.now (length out.old)) out.old result out.new }
    ensures meets_counting { MeetsCounting sheet.now result out.new }
{
    Answer::from(counts::count(sheet, out))
}

// ---- filling

// Writes the same marks, each radius 0 as the number in 01's old table, and answers how many bytes these are: questions 4, then 5 and 6
// mark by mark, and 13.
pub fn rollmap_fill(marks: &[u8], out: &mut [u8]) -> Answer
    ensures gives { Gives (fill_job marks.now (length out.old)) out.old result out.new }
    ensures meets_filling { MeetsFilling marks.now result out.new }
{
    Answer::from(conversions::fill(marks, out))
}

// ---- logs

// Turns a log into marks at the start of `out`, and answers how many bytes these are: questions 4, then 15 and 16 of x, of y, 5 and 6
// record by record, and 13. Turned back they are the log.
pub fn rollmap_log_to_marks(log: &[u8], out: &mut [u8]) -> Answer
    ensures gives { Gives (log_to_marks_job log.now (length out.old)) out.old result out.new }
    ensures meets_log { MeetsLog log.now result out.new }
{
    Answer::from(conversions::log_to_marks(log, out))
}

// Turns marks into a log at the start of `out`, and answers how many bytes it has: questions 4, then 5 and 6 mark by mark, and 13. Turned
// back it is the marks.
pub fn rollmap_marks_to_log(marks: &[u8], out: &mut [u8]) -> Answer
    ensures gives { Gives (marks_to_log_job marks.now (length out.old)) out.old result out.new }
    ensures meets_marks { MeetsMarks marks.now result out.new }
{
    Answer::from(conversions::marks_to_log(marks, out))
}

// ---- columns

// Rearranges marks by columns at the start of `out`: all x, then all y, radii, priorities, kinds and tags, and each x and each y after the first
// as its difference from the one before. Answers how many bytes these are: questions 4 and 13. Rearranged into marks again they are the same.
pub fn rollmap_to_columns(marks: &[u8], out: &mut [u8]) -> Answer
    ensures gives { Gives (to_columns_job marks.now (length out.old)) out.old result out.new }
    ensures meets_columns { MeetsColumns marks.now result out.new }
{
    Answer::from(conversions::to_columns(marks, out))
}

// Rearranges columns into marks at the start of `out`, and answers how many bytes these are: questions 4 and 13. Rearranged by columns again they
// are the same.
pub fn rollmap_from_columns(columns: &[u8], out: &mut [u8]) -> Answer
    ensures gives { Gives (from_columns_job columns.now (length out.old)) out.old result out.new }
    ensures meets_rows { MeetsRows columns.now result out.new }
{
    Answer::from(conversions::from_columns(columns, out))
}

// ---- viewing

// Kept: the C interface has a call for each kind of zoom, and takes the edges one by one.

// The view at a stop; of a sheet scheduled here it meets demand 3, it is that at the wheel value of the same zoom, and that of the turned marks
// without a turn.
pub fn rollmap_view_stop(
    sheet: &[u8],
    x0: i32,
    x1: i32,
    y0: i32,
    y1: i32,
    turn: u8,
    stop: u8,
    map: &mut [u8],
) -> Answer
    ensures gives { Gives (view_job sheet.now (window x0 x1 y0 y1 turn) (Stop stop) (length map.old)) map.old result map.new }
    ensures meets_view { MeetsView sheet.now (window x0 x1 y0 y1 turn) (Stop stop) result map.new × MeetsStop sheet.now (window x0 x1 y0 y1 turn) stop map.old result map.new }
    ensures meets_turn { MeetsTurn sheet.now (window x0 x1 y0 y1 turn) (Stop stop) map.old result map.new }
{
    let window = Window {
        x0,
        x1,
        y0,
        y1,
        turn,
    };
    Answer::from(viewing::view(sheet, window, Zoom::Stop(stop), map))
}

// The view at a wheel value; of a sheet scheduled here it meets demand 3, and it is that of the turned marks without a turn.
pub fn rollmap_view_wheel(
    sheet: &[u8],
    x0: i32,
    x1: i32,
    y0: i32,
    y1: i32,
    turn: u8,
    wheel: f32,
    map: &mut [u8],
) -> Answer
    ensures gives { Gives (view_job sheet.now (window x0 x1 y0 y1 turn) (Wheel wheel) (length map.old)) map.old result map.new }
    ensures meets_view { MeetsView sheet.now (window x0 x1 y0 y1 turn) (Wheel wheel) result map.new × MeetsTurn sheet.now (window x0 x1 y0 y1 turn) (Wheel wheel) map.old result map.new }
{
    let window = Window {
        x0,
        x1,
        y0,
        y1,
        turn,
    };
    Answer::from(viewing::view(sheet, window, Zoom::Wheel(wheel), map))
}

// ---- reading a map

// The least shown mark at or after `start` and below n, else 65,535.
pub fn rollmap_walk(map: &[u8], n: u32, start: u32) -> Answer
    ensures { result ≡ answer_of (walk_job map.now n start) }
{
    let mark = viewing::walk(map, n, start);
    Answer {
        value: mark.unwrap_or(NONE_LEFT),
        ..Answer::from(mark)
    }
}

// Whether the map of n marks shows mark m: 1 or 0, and 0 where m is not below n. It asks 13 as the walk does.
pub fn rollmap_is_shown(map: &[u8], n: u32, m: u32) -> Answer
    ensures { result ≡ answer_of (is_shown_job map.now n m) }
{
    Answer::from(viewing::is_shown(map, n, m))
}
