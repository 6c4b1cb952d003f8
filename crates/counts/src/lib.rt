// Counts beside the reel: what the call that counts a sheet does.
#![tactic(auto)]

ghost use Rattle.std.specs.Prelude.{◌≡◌, true, false, [], ◌∷◌, ◌<◌, leb, length};
ghost use Rattle.numbers.specs.Little.{Bytes};
ghost use Rattle.contents.specs.Contents.{has, split};
ghost use Rattle.contents.specs.Asking.{◌asks◌};
ghost use Rattle.jobs.specs.Jobs.{outcome, with_own_counts, count_job};
ghost use Rattle.jobs.specs.Answers.{Gives, answer_to};
ghost use Rattle.jobs.specs.Counted.{MeetsCounting};

use contents::{ENTRY_SIZE, Refusal};
use sheet::Accepted;
use writing::Listed;

// What part 6 adds to a sheet: its entry in the contents, and its counts.
const COUNTED_BYTES: usize = 180;

// Writes the sheet as it is, and answers its length: 13 is all that is left to ask.
fn copied(sheet: &[u8], out: &mut [u8]) -> Result<u32, Refusal>
    requires { length sheet.now < 4294967296 }
    ensures { Gives (outcome ((13 asks leb (length sheet.now) (length out.old)) ∷ []) (length sheet.now) sheet.now) out.old (answer_to result) out.new }
{
    let length = sheet.len();
    if out.len() < length {
        return Err(Refusal::Room);
    }
    joining::put(out, 0, sheet);
    Ok(length as u32)
}

// Writes an accepted sheet with part 2 and without part 6 anew, with part 6 before part 7, and answers the new length: 13 is all that is left to
// ask. The other bodies keep their bytes and their order, so those before part 7 are copied in one piece. Their contents are one entry shorter than
// the new ones.
fn put_counted(sheet: &Accepted<'_>, out: &mut [u8]) -> Result<u32, Refusal>
    requires { Bytes sheet.now.bytes.now × (has (split sheet.now.bytes.now) 2 ≡ true) × (has (split sheet.now.bytes.now) 6 ≡ false) }
    ensures { Gives (outcome ((13 asks leb (length (with_own_counts sheet.now.bytes.now)) (length out.old)) ∷ []) (length (with_own_counts sheet.now.bytes.now)) (with_own_counts sheet.now.bytes.now)) out.old (answer_to result) out.new }
{
    let bytes = sheet.bytes;
    let size = bytes.len() + COUNTED_BYTES;
    if out.len() < size {
        return Err(Refusal::Room);
    }
    let reel = sheet.reel();
    let schedule = contents::cut(bytes, sheet.layout.schedule);
    let shape = contents::cut(bytes, sheet.layout.shape);
    let counts = counting::counts_of(reel.marks, schedule, reel.popups, reel.count);
    let listed = Listed {
        index: sheet.layout.index.is_there(),
        edition: sheet.layout.edition.is_there(),
        popups: sheet.layout.popups.is_there(),
        counts: true,
        shape: sheet.layout.shape.is_there(),
    };
    let start = writing::put_head(out, reel.count, listed);
    let rest = bytes.len() - shape.len();
    let end = joining::put(out, start, &bytes[start - ENTRY_SIZE..rest]);
    let last = joining::put(out, end, &counts);
    joining::put(out, last, shape);
    Ok(size as u32)
}

// Writes a sheet with part 6, the counts of its own schedule, and answers its length: questions 1 to 9, 10 without part 2, and 13. The counts of
// a sheet that has part 6 were found right by question 23, so it is written as it is.
pub fn count(sheet: &[u8], out: &mut [u8]) -> Result<u32, Refusal>
    ensures gives { Gives (count_job sheet.now (length out.old)) out.old (answer_to result) out.new }
    ensures meets_counting { MeetsCounting sheet.now (answer_to result) out.new }
{
    let layout = sheet::opened(sheet)?;
    if !layout.schedule.is_there() {
        return Err(Refusal::Unindexed);
    }
    if layout.counts.is_there() {
        return copied(sheet, out);
    }
    put_counted(
        &Accepted {
            bytes: sheet,
            layout,
        },
        out,
    )
}
