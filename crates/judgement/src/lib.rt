// The judgement of a sheet's schedule: what the call that judges one does.
#![tactic(auto)]

ghost use Rattle.std.specs.Prelude.{◌≡◌};
ghost use Rattle.contents.specs.Refusals.{told};
ghost use Rattle.jobs.specs.Jobs.{judge_job};
ghost use Rattle.jobs.specs.Answers.{answer_of, refusal};
ghost use Rattle.jobs.specs.Judged.{MeetsJudging};

use contents::Refusal;
use sheet::Accepted;

// Judges the schedule of a sheet, whoever made it: questions 1 to 10, and 22. It is accepted exactly where the sheet is scheduled here, and then
// the sheet meets demand 3.
pub fn judge(sheet: &[u8]) -> Result<(), Refusal>
    ensures { (refusal (told result) ≡ answer_of (judge_job sheet.now)) × MeetsJudging sheet.now (refusal (told result)) }
{
    let layout = sheet::indexed(sheet)?;
    let accepted = Accepted {
        bytes: sheet,
        layout,
    };
    let reel = accepted.reel();
    let schedule = contents::cut(sheet, layout.schedule);
    let index = contents::cut(sheet, layout.index);
    if !judging::judge(&reel, schedule, index) {
        return Err(Refusal::NotOurs);
    }
    Ok(())
}
