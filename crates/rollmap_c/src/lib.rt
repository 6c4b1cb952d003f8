// The exports for C: each call of `rollmap` under its own name, with its clauses.
#![tactic(auto)]

ghost use Rattle.std.specs.Prelude.{◌≡◌, map, length};
ghost use Rattle.changing.specs.Changing.{added, taken_out, added_popup, taken_out_popup};
ghost use Rattle.contents.specs.Contents.{has, split, marks_part};
ghost use Rattle.contents.specs.Places.{place_of, Located};
ghost use Rattle.sheet.specs.Opened.{opened, open_parts};
ghost use Rattle.zoom.specs.declared.Zoom.TheVariants.{Stop, Wheel};
ghost use Rattle.jobs.specs.Jobs.{check_job, carried, kept_parts, schedule_job, add_job, take_out_job, judge_job, count_job, assemble_job, fill_job, log_to_marks_job, marks_to_log_job, to_columns_job, from_columns_job, view_job, walk_job, is_shown_job};
ghost use Rattle.jobs.specs.Answers.{answer_of, window, fields, Gives, Lent};
ghost use Rattle.jobs.specs.Parts.{Joins};
ghost use Rattle.jobs.specs.Demand3.{Meets, MeetsView};
ghost use Rattle.jobs.specs.Changed.{MeetsAdding};
ghost use Rattle.jobs.specs.Filled.{MeetsFilling};
ghost use Rattle.jobs.specs.Logs.{MeetsLog, MeetsMarks};
ghost use Rattle.jobs.specs.Archived.{MeetsColumns, MeetsRows};
ghost use Rattle.jobs.specs.Stops.{MeetsStop};
ghost use Rattle.jobs.specs.Turns.{MeetsTurn};
ghost use Rattle.jobs.specs.Judged.{MeetsJudging};
ghost use Rattle.jobs.specs.Counted.{MeetsCounting};

use contents::Extent;
use jobs::Answer;
use reaching::Window;
use zoom::Zoom;

#[unsafe(no_mangle)]
pub extern "C" fn rollmap_check(sheet: &[u8]) -> Answer
    ensures { result ≡ answer_of (check_job sheet.now) }
{
    rollmap::rollmap_check(sheet)
}

#[unsafe(no_mangle)]
pub extern "C" fn rollmap_part(sheet: &[u8], code: u32) -> Extent
    ensures { (result ≡ place_of (opened sheet.now).layout code) × Located sheet.now (open_parts sheet.now) code result.offset result.length }
{
    rollmap::rollmap_part(sheet, code)
}

#[unsafe(no_mangle)]
pub extern "C" fn rollmap_assemble<'a>(
    codes: &[u16],
    bodies: &'a [&'a [u8]],
    out: &mut [u8],
) -> Answer
    ensures gives { Gives (assemble_job codes.now (map (λ x. x.now) bodies.now) (length out.old)) out.old result out.new }
    ensures joins { Joins codes.now (map (λ x. x.now) bodies.now) out.old result out.new }
{
    rollmap::rollmap_assemble(codes, bodies, out)
}

#[unsafe(no_mangle)]
pub extern "C" fn rollmap_schedule(sheet: &[u8], work: &mut [u8], out: &mut [u8]) -> Answer
    ensures gives { Gives (schedule_job sheet.now (length work.old) (length out.old)) out.old result out.new }
    ensures lent { Lent result work.old work.new × Meets (marks_part (split sheet.now)) (kept_parts (split sheet.now)) (has (split sheet.now) 6) result out.new }
{
    rollmap::rollmap_schedule(sheet, work, out)
}

#[unsafe(no_mangle)]
pub extern "C" fn rollmap_add(
    sheet: &[u8],
    x: i16,
    y: i16,
    radius: u16,
    priority: u16,
    kind: u8,
    tag: u16,
    popup: u32,
    work: &mut [u8],
    out: &mut [u8],
) -> Answer
    ensures gives { Gives (add_job sheet.now (fields x y radius priority kind tag) popup (length work.old) (length out.old)) out.old result out.new }
    ensures lent { Lent result work.old work.new × Meets (added (marks_part (split sheet.now)) (fields x y radius priority kind tag)) (carried (split sheet.now) (λ q. added_popup q popup)) (has (split sheet.now) 6) result out.new }
    ensures meets_adding { MeetsAdding sheet.now (fields x y radius priority kind tag) popup result out.new }
{
    rollmap::rollmap_add(sheet, x, y, radius, priority, kind, tag, popup, work, out)
}

#[unsafe(no_mangle)]
pub extern "C" fn rollmap_take_out(sheet: &[u8], m: u32, work: &mut [u8], out: &mut [u8]) -> Answer
    ensures gives { Gives (take_out_job sheet.now m (length work.old) (length out.old)) out.old result out.new }
    ensures lent { Lent result work.old work.new × Meets (taken_out (marks_part (split sheet.now)) m) (carried (split sheet.now) (λ q. taken_out_popup q m)) (has (split sheet.now) 6) result out.new }
{
    rollmap::rollmap_take_out(sheet, m, work, out)
}

#[unsafe(no_mangle)]
pub extern "C" fn rollmap_judge(sheet: &[u8]) -> Answer
    ensures { (result ≡ answer_of (judge_job sheet.now)) × MeetsJudging sheet.now result }
{
    rollmap::rollmap_judge(sheet)
}

#[unsafe(no_mangle)]
pub extern "C" fn rollmap_count(sheet: &[u8], out: &mut [u8]) -> Answer
    ensures gives { Gives (count_job sheet.now (length out.old)) out.old result out.new }
    ensures meets_counting { MeetsCounting sheet.now result out.new }
{
    rollmap::rollmap_count(sheet, out)
}

#[unsafe(no_mangle)]
pub extern "C" fn rollmap_fill(marks: &[u8], out: &mut [u8]) -> Answer
    ensures gives { Gives (fill_job marks.now (length out.old)) out.old result out.new }
    ensures meets_filling { MeetsFilling marks.now result out.new }
{
    rollmap::rollmap_fill(marks, out)
}

#[unsafe(no_mangle)]
pub extern "C" fn rollmap_log_to_marks(log: &[u8], out: &mut [u8]) -> Answer
    ensures gives { Gives (log_to_marks_job log.now (length out.old)) out.old result out.new }
    ensures meets_log { MeetsLog log.now result out.new }
{
    rollmap::rollmap_log_to_marks(log, out)
}

#[unsafe(no_mangle)]
pub extern "C" fn rollmap_marks_to_log(marks: &[u8], out: &mut [u8]) -> Answer
    ensures gives { Gives (marks_to_log_job marks.now (length out.old)) out.old result out.new }
    ensures meets_marks { MeetsMarks marks.now result out.new }
{
    rollmap::rollmap_marks_to_log(marks, out)
}

#[unsafe(no_mangle)]
pub extern "C" fn rollmap_to_columns(marks: &[u8], out: &mut [u8]) -> Answer
    ensures gives { Gives (to_columns_job marks.now (length out.old)) out.old result out.new }
    ensures meets_columns { MeetsColumns marks.now result out.new }
{
    rollmap::rollmap_to_columns(marks, out)
}

#[unsafe(no_mangle)]
pub extern "C" fn rollmap_from_columns(columns: &[u8], out: &mut [u8]) -> Answer
    ensures gives { Gives (from_columns_job columns.now (length out.old)) out.old result out.new }
    ensures meets_rows { MeetsRows columns.now result out.new }
{
    rollmap::rollmap_from_columns(columns, out)
}

#[unsafe(no_mangle)]
pub extern "C" fn rollmap_view_stop(
    sheet: &[u8],
    x0: i32,
    x1: i32,
    y0: i32,
    y1: i32,
    turn: u8,
    stop: u8,
    map: &mut [u8],
) -> Answer
    ensures gives { Gives (view_job sheet.now (window x0 x1 y0 y1 turn) (Stop stop) (length map.old)) map.old result map.new }
    ensures meets_view { MeetsView sheet.now (window x0 x1 y0 y1 turn) (Stop stop) result map.new × MeetsStop sheet.now (window x0 x1 y0 y1 turn) stop map.old result map.new }
    ensures meets_turn { MeetsTurn sheet.now (window x0 x1 y0 y1 turn) (Stop stop) map.old result map.new }
{
    rollmap::rollmap_view_stop(sheet, x0, x1, y0, y1, turn, stop, map)
}

#[unsafe(no_mangle)]
pub extern "C" fn rollmap_view_wheel(
    sheet: &[u8],
    x0: i32,
    x1: i32,
    y0: i32,
    y1: i32,
    turn: u8,
    wheel: f32,
    map: &mut [u8],
) -> Answer
    ensures gives { Gives (view_job sheet.now (window x0 x1 y0 y1 turn) (Wheel wheel) (length map.old)) map.old result map.new }
    ensures meets_view { MeetsView sheet.now (window x0 x1 y0 y1 turn) (Wheel wheel) result map.new × MeetsTurn sheet.now (window x0 x1 y0 y1 turn) (Wheel wheel) map.old result map.new }
{
    rollmap::rollmap_view_wheel(sheet, x0, x1, y0, y1, turn, wheel, map)
}

#[unsafe(no_mangle)]
pub extern "C" fn rollmap_walk(map: &[u8], n: u32, start: u32) -> Answer
    ensures { result ≡ answer_of (walk_job map.now n start) }
{
    rollmap::rollmap_walk(map, n, start)
}

#[unsafe(no_mangle)]
pub extern "C" fn rollmap_is_shown(map: &[u8], n: u32, m: u32) -> Answer
    ensures { result ≡ answer_of (is_shown_job map.now n m) }
{
    rollmap::rollmap_is_shown(map, n, m)
}
