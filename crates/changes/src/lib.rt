// Sheets scheduled anew, as they are or with marks that come and go: what the calls that schedule, add a mark and take one out do.
#![tactic(auto)]

ghost use Rattle.std.specs.Prelude.{◌≡◌, is_some, IfSome, ◌+◌, ◌*◌, ◌<◌, length};
ghost use Rattle.rows.specs.Rows.{without};
ghost use Rattle.changing.specs.Changing.{added, taken_out, added_popup, taken_out_popup};
ghost use Rattle.contents.specs.Contents.{has, split, marks_part, edition_part, popups_part, shape_part};
ghost use Rattle.jobs.specs.Jobs.{carried, kept_parts, schedule_job, is_new_popup, add_job, take_out_job};
ghost use Rattle.jobs.specs.Answers.{fields, Gives, Lent, answer_to};
ghost use Rattle.jobs.specs.Demand3.{Meets};
ghost use Rattle.jobs.specs.Changed.{MeetsAdding};
ghost use Rattle.writing.specs.Pieces.{joined};

use contents::Refusal;
use marks::{MARK_SIZE, Mark, POPUP_SIZE};
use sheet::Accepted;
use writing::{Pieces, Request};

// The most marks that a sheet holds.
const MOST_MARKS: usize = 4096;

// ---- what is scheduled

// What scheduling takes of a sheet: the bodies of parts 1, 4 and 7, the last two empty where they are not there, and of part 5, where it is there, and
// whether part 6 is there.
#[derive(Clone, Copy)]
struct Source<'a> {
    marks: &'a [u8],
    edition: &'a [u8],
    popups: Option<&'a [u8]>,
    shape: &'a [u8],
    counted: bool,
}

// The same of an accepted sheet.
fn source_of<'a>(sheet: &Accepted<'a>) -> Source<'a>
    ensures marks { result.marks.now ≡ marks_part (split sheet.now.bytes.now) }
    ensures edition { result.edition.now ≡ edition_part (split sheet.now.bytes.now) }
    ensures popups_there { is_some result.popups ≡ has (split sheet.now.bytes.now) 5 }
    ensures popups { IfSome result.popups (λ q. q.now ≡ popups_part (split sheet.now.bytes.now)) }
    ensures shape { result.shape.now ≡ shape_part (split sheet.now.bytes.now) }
    ensures counted { result.counted ≡ has (split sheet.now.bytes.now) 6 }
{
    let popups = contents::cut(sheet.bytes, sheet.layout.popups);
    Source {
        marks: contents::cut(sheet.bytes, sheet.layout.marks),
        edition: contents::cut(sheet.bytes, sheet.layout.edition),
        popups: sheet.layout.popups.is_there().then_some(popups),
        shape: contents::cut(sheet.bytes, sheet.layout.shape),
        counted: sheet.layout.counts.is_there(),
    }
}

// Bytes as they are, in one piece.
fn whole(bytes: &[u8]) -> Pieces<'_>
    ensures { joined result ≡ bytes.now }
{
    Pieces {
        first: bytes,
        second: &[],
    }
}

// Rows of bytes, without row m.
fn without(bytes: &[u8], width: usize, m: usize) -> Pieces<'_>
    requires { width * m + width < 18446744073709551616 }
    ensures { joined result ≡ without width bytes.now m }
{
    Pieces {
        first: rows::before(bytes, width, m),
        second: rows::behind(bytes, width, m),
    }
}

// ---- scheduling

// Writes the sheet of three parts that a sheet's marks give, with parts 4, 5 and 7 where they are there, and part 6 renewed, and answers its length:
// questions 1 to 9, with 19, 21, 23 and 24, and 13. What the work buffer holds plays no part, and what it is left with after a success is not said.
// The written sheet meets demand 3.
pub fn schedule(sheet: &[u8], work: &mut [u8], out: &mut [u8]) -> Result<u32, Refusal>
    ensures gives { Gives (schedule_job sheet.now (length work.old) (length out.old)) out.old (answer_to result) out.new }
    ensures lent { Lent (answer_to result) work.old work.new × Meets (marks_part (split sheet.now)) (kept_parts (split sheet.now)) (has (split sheet.now) 6) (answer_to result) out.new }
{
    let source = source_of(&Accepted {
        bytes: sheet,
        layout: sheet::opened(sheet)?,
    });
    let request = Request {
        marks: whole(source.marks),
        count: source.marks.len() / MARK_SIZE,
        edition: source.edition,
        popups: source.popups.map(whole),
        shape: source.shape,
        counted: source.counted,
    };
    steps::schedule_marks(&request, work, out)
}

// ---- marks that come and go

// 21, of a new mark's k: it is at most 65,536, and 0 on a sheet without part 5.
// Kept: a flag beside a number, as the definition `is_new_popup` asks it.
fn is_new_popup(there: bool, k: u32) -> bool
    ensures { result ≡ is_new_popup there k }
{
    parts::is_popup(k) && (there || k == 0)
}

// Schedules a sheet's marks and one more, given by its fields and its popup, behind them, keeps parts 4, 5 and 7 and renews part 6: questions 1 to 10,
// 18, then 5, 6 and 21 of the new mark, and 13. It is the sheet that scheduling writes for the new marks; the sheet's own schedule plays no part.
// Kept: six fields and no `Mark`: tried, but a proof is not told that the fields of a struct fit their widths, as the new mark's bytes need.
pub fn add(
    sheet: &[u8],
    x: i16,
    y: i16,
    radius: u16,
    priority: u16,
    kind: u8,
    tag: u16,
    popup: u32,
    work: &mut [u8],
    out: &mut [u8],
) -> Result<u32, Refusal>
    ensures gives { Gives (add_job sheet.now (fields x y radius priority kind tag) popup (length work.old) (length out.old)) out.old (answer_to result) out.new }
    ensures lent { Lent (answer_to result) work.old work.new × Meets (added (marks_part (split sheet.now)) (fields x y radius priority kind tag)) (carried (split sheet.now) (λ q. added_popup q popup)) (has (split sheet.now) 6) (answer_to result) out.new }
    ensures meets_adding { MeetsAdding sheet.now (fields x y radius priority kind tag) popup (answer_to result) out.new }
{
    let source = source_of(&Accepted {
        bytes: sheet,
        layout: sheet::indexed(sheet)?,
    });
    let n = source.marks.len() / MARK_SIZE;
    if MOST_MARKS <= n {
        return Err(Refusal::TooManyMarks);
    }
    parts::check_fields(kind, radius)?;
    if !is_new_popup(source.popups.is_some(), popup) {
        return Err(Refusal::Popups);
    }
    let last = marks::mark_bytes(Mark {
        x,
        y,
        radius,
        priority,
        kind,
        tag,
    });
    let row = marks::popup_bytes(popup);
    let request = Request {
        marks: Pieces {
            first: source.marks,
            second: &last,
        },
        count: n + 1,
        edition: source.edition,
        popups: source.popups.map(|popups| Pieces {
            first: popups,
            second: &row,
        }),
        shape: source.shape,
        counted: source.counted,
    };
    steps::schedule_marks(&request, work, out)
}

// Schedules a sheet's marks without mark m, whereupon higher numbers drop by one, keeps parts 4 and 7, and part 5 without m's row, and renews part 6:
// questions 1 to 10, 17 and 13. It is the sheet that scheduling writes for the new marks.
pub fn take_out(sheet: &[u8], m: u32, work: &mut [u8], out: &mut [u8]) -> Result<u32, Refusal>
    ensures gives { Gives (take_out_job sheet.now m (length work.old) (length out.old)) out.old (answer_to result) out.new }
    ensures lent { Lent (answer_to result) work.old work.new × Meets (taken_out (marks_part (split sheet.now)) m) (carried (split sheet.now) (λ q. taken_out_popup q m)) (has (split sheet.now) 6) (answer_to result) out.new }
{
    let source = source_of(&Accepted {
        bytes: sheet,
        layout: sheet::indexed(sheet)?,
    });
    let n = source.marks.len() / MARK_SIZE;
    let gone = m as usize;
    if n <= gone {
        return Err(Refusal::NoSuchMark);
    }
    let request = Request {
        marks: without(source.marks, MARK_SIZE, gone),
        count: n - 1,
        edition: source.edition,
        popups: source
            .popups
            .map(|popups| without(popups, POPUP_SIZE, gone)),
        shape: source.shape,
        counted: source.counted,
    };
    steps::schedule_marks(&request, work, out)
}
