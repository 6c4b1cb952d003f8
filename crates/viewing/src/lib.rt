// Views: what the calls that view a sheet and read a map do.
#![tactic(auto)]

ghost use Rattle.std.specs.Prelude.{◌≡◌, true, ◌≤◌, length};
ghost use Rattle.std.specs.Result.{result_unwrap_or};
ghost use Rattle.contents.specs.Contents.{split};
ghost use Rattle.contents.specs.Refusals.{told};
ghost use Rattle.sheet.specs.Questions.{sheet_shape, question10};
ghost use Rattle.reaching.specs.Questions.{is_window, question11, is_map};
ghost use Rattle.jobs.specs.Jobs.{view_job, walk_job, is_shown_job};
ghost use Rattle.jobs.specs.Answers.{answer_of, Gives, answer_to};
ghost use Rattle.jobs.specs.Steps.{view_at};

use contents::Refusal;
use marks::MARK_SIZE;
use reaching::Window;
use sheet::Accepted;
use zoom::Zoom;

// The most marks that a sheet holds.
const MOST_MARKS: usize = 4096;

// ---- viewing

// The view of an accepted sheet with parts 2 and 3, of this shape, at z = k/64: question 13, and then the map and the count.
fn view_at(
    sheet: &Accepted<'_>,
    shape: u8,
    window: Window,
    k: u32,
    map: &mut [u8],
) -> Result<u32, Refusal>
    requires sheet_value { (question10 (split sheet.now.bytes.now) ≡ true) × (k ≤ 65536) }
    requires shape_value { (shape ≡ sheet_shape sheet.now.bytes.now) × (is_window window ≡ true) × (question11 window ≡ true) }
    ensures { Gives (view_at sheet.now.bytes.now window k (length map.old)) map.old (answer_to result) map.new }
{
    let marks = contents::cut(sheet.bytes, sheet.layout.marks);
    let n = marks.len() / MARK_SIZE;
    if map.len() < n.div_ceil(8) {
        return Err(Refusal::Room);
    }
    let schedule = contents::cut(sheet.bytes, sheet.layout.schedule);
    let index = contents::cut(sheet.bytes, sheet.layout.index);
    let popups = contents::cut(sheet.bytes, sheet.layout.popups);
    Ok(view::show(marks, shape, schedule, popups, index, n, window, k, map))
}

// Writes the map of a view, and answers how many marks it shows: questions 1 to 10, 20, and 11 to 13.
pub fn view(sheet: &[u8], window: Window, zoom: Zoom, map: &mut [u8]) -> Result<u32, Refusal>
    ensures { Gives (view_job sheet.now window zoom (length map.old)) map.old (answer_to result) map.new }
{
    let layout = sheet::indexed(sheet)?;
    let shape = parts::choice_of(contents::cut(sheet, layout.shape));
    if !reaching::is_taken(shape, window) {
        return Err(Refusal::Window);
    }
    if !reaching::is_ordered(window) {
        return Err(Refusal::WindowOrder);
    }
    let Some(k) = zoom::scale_of(zoom) else {
        return Err(Refusal::Zoom);
    };
    let accepted = Accepted {
        bytes: sheet,
        layout,
    };
    view_at(&accepted, shape, window, k, map)
}

// ---- reading a map

// 13, of a map that is read: has it a bit for each of n marks, and is n at most 4,096?
fn is_map(map: &[u8], n: u32) -> bool
    ensures { result ≡ is_map map.now n }
{
    n as usize <= MOST_MARKS && (n as usize).div_ceil(8) <= map.len()
}

// The least shown mark at or after `start` and below n, else 65,535; it asks 13.
// Kept: 65,535 and no Option, since the definition `walk_job` gives that number.
pub fn walk(map: &[u8], n: u32, start: u32) -> Result<u32, Refusal>
    ensures { (told result ≡ (walk_job map.now n start).number) × (result_unwrap_or result 65535 ≡ (walk_job map.now n start).value) }
{
    if !is_map(map, n) {
        return Err(Refusal::Room);
    }
    Ok(bitmap::walk(map, n as usize, start as usize) as u32)
}

// Whether the map of n marks shows mark m: 1 or 0, and 0 where m is not below n. It asks 13 as the walk does.
pub fn is_shown(map: &[u8], n: u32, m: u32) -> Result<u32, Refusal>
    ensures { (answer_to result) ≡ answer_of (is_shown_job map.now n m) }
{
    if !is_map(map, n) {
        return Err(Refusal::Room);
    }
    if n <= m {
        return Ok(0);
    }
    Ok(u32::from(bitmap::test_bit(map, m as usize)))
}
