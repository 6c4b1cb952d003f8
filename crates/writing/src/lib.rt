// The sheet that scheduling writes: its contents, the marks and the parts that are kept, and then parts 2, 3 and 6.
#![tactic(auto)]

ghost use Rattle.std.specs.Prelude.{◌≡◌, true, cond, [], ◌∷◌, ◌++◌, ◌+◌, ◌-◌, ◌*◌, ◌<◌, ◌≤◌, ltb, is_some, length, take, drop};
ghost use Rattle.std.proofs.lemmas.List.Edits.{sets};
ghost use Rattle.lists.specs.Stores.{over};
ghost use Rattle.marks.specs.Marks.{mark_size};
ghost use Rattle.marks.specs.Good.{GoodMarks};
ghost use Rattle.marks.specs.Pairs.{GoodPopups};
ghost use Rattle.scheduling.specs.Filling.{work_size};
ghost use Rattle.scheduling.specs.Behind.{reel_in};
ghost use Rattle.indexing.specs.Buffer.{index_end};
ghost use Rattle.counting.specs.Counts.{counts_of};
ghost use Rattle.contents.specs.Contents.{contents_size, contents_of};
ghost use Rattle.jobs.specs.Jobs.{scheduled_from, scheduled_size};
ghost use Rattle.jobs.specs.Steps.{if_any, codes_from, sizes_from, results_over};
ghost use Rattle.arrayvec.specs.ArrayVec.{array_vec_len};
ghost use Rattle.writing.specs.Pieces.{joined, joined_if};
ghost use Rattle.writing.specs.Requests.{kept_of, bare_of, begin_of};

use arrayvec::ArrayVec;
use contents::{COUNTS, EDITION, INDEX, MARKS, POPUPS, SCHEDULE, SHAPE, TOP};
use counting::COUNTS_SIZE;
use elimination::RECORD_SIZE;
use index::INDEX_ENTRY_SIZE;
use marks::{MARK_SIZE, POPUP_SIZE};

mod request;

pub use request::Request;

// What each mark takes of the sheet in parts 1 to 3.
pub const SHEET_EACH: usize = 27;

// Writes part 2, the schedule of the n marks that `all` begins with, by this edition, of this shape and with the popups that `all` ends with, from `at` on, and
// part 3, their index, behind the marks.
fn put_results(all: &mut [u8], edition: u8, shape: u8, at: usize, work: &mut [u8], n: usize)
    requires { GoodMarks (take (mark_size * n) all.old) n × (work_size n ≤ length work.old) × (index_end n ≤ at) × (at ≤ length all.old) × GoodPopups (drop at all.old) n }
    ensures { all.new ≡ results_over (reel_in edition shape (drop at all.old) all.old n) all.old }
{
    scheduling::schedule_behind(all, edition, shape, at, work, n);
    indexing::build(all, work, n);
}

// Lists a part, where it is there.
// Kept: a flag beside a code, as the definition `codes_from` asks it.
fn list_part(
    codes: &mut ArrayVec<u16, TOP>,
    sizes: &mut ArrayVec<usize, TOP>,
    there: bool,
    code: u16,
    size: usize,
)
    requires { (array_vec_len codes.old < 7) × (array_vec_len sizes.old < 7) }
    ensures codes { codes.new.items ≡ codes.old.items ++ if_any there code }
    ensures sizes { sizes.new.items ≡ sizes.old.items ++ if_any there size }
{
    if there {
        codes.push(code);
        sizes.push(size);
    }
}

// Which of parts 3 to 7 the contents of a sheet list. Parts 1 and 2 are there.
#[derive(Clone, Copy)]
pub struct Listed {
    pub index: bool,
    pub edition: bool,
    pub popups: bool,
    pub counts: bool,
    pub shape: bool,
}

// Writes the contents of a sheet of n marks, by which parts are listed, and answers where the marks start.
pub fn put_head(out: &mut [u8], n: usize, listed: Listed) -> usize
    requires { (n ≤ 4096) × (contents_size (length (codes_from listed.index listed.edition listed.popups listed.counts listed.shape)) ≤ length out.old) }
    ensures { (result ≡ contents_size (length (codes_from listed.index listed.edition listed.popups listed.counts listed.shape))) × (out.new ≡ sets out.old 0 (contents_of (codes_from listed.index listed.edition listed.popups listed.counts listed.shape) (sizes_from n listed.index listed.edition listed.popups listed.counts listed.shape))) }
{
    let Listed {
        index,
        edition,
        popups,
        counts,
        shape,
    } = listed;
    let mut codes = ArrayVec::new();
    let mut sizes = ArrayVec::new();
    list_part(&mut codes, &mut sizes, true, MARKS, MARK_SIZE * n);
    list_part(&mut codes, &mut sizes, true, SCHEDULE, RECORD_SIZE * n);
    list_part(&mut codes, &mut sizes, index, INDEX, INDEX_ENTRY_SIZE * n);
    list_part(&mut codes, &mut sizes, edition, EDITION, 1);
    list_part(&mut codes, &mut sizes, popups, POPUPS, POPUP_SIZE * n);
    list_part(&mut codes, &mut sizes, counts, COUNTS, COUNTS_SIZE);
    list_part(&mut codes, &mut sizes, shape, SHAPE, 1);
    joining::put_contents(out, codes.as_slice(), sizes.as_slice())
}

// Bytes in two pieces, one behind the other.
#[derive(Clone, Copy)]
pub struct Pieces<'a> {
    pub first: &'a [u8],
    pub second: &'a [u8],
}

impl Pieces<'_> {
    // Copies them to `at`, and answers where they end.
    fn put(self, out: &mut [u8], at: usize) -> usize
        requires { at + length (joined self) ≤ length out.old }
        ensures { (result ≡ at + length (joined self.entry)) × (out.new ≡ sets out.old at (joined self.entry)) }
    {
        let middle = joining::put(out, at, self.first);
        joining::put(out, middle, self.second)
    }
}

// The same where they are there.
fn put_if(out: &mut [u8], at: usize, pieces: Option<Pieces<'_>>) -> usize
    requires { at + length (joined_if pieces) ≤ length out.old }
    ensures { (result ≡ at + length (joined_if pieces.entry)) × (out.new ≡ sets out.old at (joined_if pieces.entry)) }
{
    match pieces {
        Some(pieces) => pieces.put(out, at),
        None => at,
    }
}

// Writes the scheduled sheet that is asked for up to parts 6 and 7. All is put together in `out` and scheduled there. Answers where the marks start
// and where part 5 ends.
fn put_scheduled(request: &Request<'_>, work: &mut [u8], out: &mut [u8]) -> (usize, usize)
    requires { (work_size request.now.count ≤ length work.old) × (scheduled_size request.now.count (kept_of request.now) request.now.counted ≤ length out.old) }
    ensures start { result.0 ≡ begin_of request.now }
    ensures end { result.1 ≡ begin_of request.now + 27 * request.now.count + length request.now.edition.now + length (joined_if request.now.popups) }
    ensures written { out.new ≡ over (bare_of request.now) out.old }
{
    let start = put_head(
        out,
        request.count,
        Listed {
            index: true,
            edition: 0 < request.edition.len(),
            popups: request.popups.is_some(),
            counts: request.counted,
            shape: 0 < request.shape.len(),
        },
    );
    request.marks.put(out, start);
    let from = joining::put(out, start + SHEET_EACH * request.count, request.edition);
    let end = put_if(out, from, request.popups);
    put_results(
        &mut out[start..end],
        parts::choice_of(request.edition),
        parts::choice_of(request.shape),
        from - start,
        work,
        request.count,
    );
    (start, end)
}

// Writes the counts of n marks to `end`, where they are wanted: those of the marks at `start`, of the schedule behind them, and of the popups from
// `from` to `end`. Answers where they end.
fn put_counts(
    out: &mut [u8],
    start: usize,
    from: usize,
    end: usize,
    n: usize,
    counted: bool,
) -> usize
    requires { (n ≤ 4096) × (start + 25 * n ≤ from) × (from ≤ end) × (end + cond counted 170 0 ≤ length out.old) × GoodPopups (take (end - from) (drop from out.old)) n }
    ensures { (result ≡ end + cond counted 170 0) × (out.new ≡ sets out.old end (cond counted (counts_of (take (11 * n) (drop start out.old)) (take (14 * n) (drop (start + 11 * n) out.old)) (take (end - from) (drop from out.old)) n) [])) }
{
    if !counted {
        return end;
    }
    let middle = start + MARK_SIZE * n;
    let last = middle + RECORD_SIZE * n;
    let counts = counting::counts_of(&out[start..middle], &out[middle..last], &out[from..end], n);
    joining::put(out, end, &counts)
}

// The same with part 6, where it is counted, and with the part 7 that is kept: the whole sheet.
pub fn put_sheet(request: &Request<'_>, work: &mut [u8], out: &mut [u8])
    requires { (work_size request.now.count ≤ length work.old) × (scheduled_size request.now.count (kept_of request.now) request.now.counted ≤ length out.old) }
    ensures { out.new ≡ over (scheduled_from (joined request.now.marks) (kept_of request.now) request.now.counted) out.old }
{
    let (start, end) = put_scheduled(request, work, out);
    let from = start + SHEET_EACH * request.count + request.edition.len();
    let end = put_counts(out, start, from, end, request.count, request.counted);
    joining::put(out, end, request.shape);
}
