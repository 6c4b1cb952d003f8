// The printed schedule as bytes in a lent buffer.
#![tactic(auto)]

ghost use Rattle.std.specs.Prelude.{◌≡◌, IfOk};
ghost use Rattle.contents.specs.Asking.{answer};
ghost use Rattle.contents.specs.Places.{layout_of};
ghost use Rattle.contents.specs.Refusals.{told};
ghost use Rattle.report.specs.Text.{print_questions};
ghost use Rattle.report.specs.Printing.{Room, Prints};

use contents::{Layout, Refusal};
use marks::MARK_SIZE;
use sheet::Accepted;

// 01: "at most 2,000 marks and 65,536 input bytes".
const MOST_MARKS: usize = 2000;

const LONGEST_INPUT: usize = 65536;

// Questions 1 to 9 and 14, and where the parts of an input lie that passes them. A longer input gets 14 before all else.
fn check_input(input: &[u8]) -> Result<Layout, Refusal>
    ensures number { told result ≡ answer (print_questions input.now) }
    ensures layout { IfOk result (λ l. l ≡ layout_of input.now) }
{
    if LONGEST_INPUT < input.len() {
        return Err(Refusal::Unprintable);
    }
    let layout = sheet::opened(input)?;
    if MOST_MARKS < contents::cut(input, layout.marks).len() / MARK_SIZE {
        return Err(Refusal::Unprintable);
    }
    Ok(layout)
}

// Prints the schedule of a sheet, or its refusal, at the start of `out`; gives the length of the text. The schedule is worked out afresh,
// in `schedule`: the sheet's own is checked and not used.
pub fn print(input: &[u8], work: &mut [u8], schedule: &mut [u8], out: &mut [u8]) -> usize
    requires { Room work.old schedule.old out.old }
    ensures { Prints input.now work.old schedule.old out.old result work.new schedule.new out.new }
{
    match check_input(input) {
        Ok(layout) => {
            let sheet = Accepted {
                bytes: input,
                layout,
            };
            let reel = sheet.reel();
            scheduling::schedule(&reel, work, schedule);
            listing::put_listing(schedule, out, reel.count)
        }
        Err(refusal) => listing::put_first_line(out, b"refused", u64::from(refusal.number())),
    }
}
