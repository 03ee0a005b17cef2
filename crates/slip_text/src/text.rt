//! The slip of an applicant, from a run that has come to its report.

ghost use Rattle.std.specs.Prelude.{◌≡◌, ◌∷◌, [], codes, IfOk};
ghost use Rattle.house_core.specs.House.{StandsFor};
ghost use Rattle.house_model.specs.declared.goal.Goal.TheVariants as goal;
ghost use Rattle.house_model.specs.Headline.{AreOfCall};
ghost use Rattle.house_model.specs.Report.{line_of};
ghost use Rattle.house_model.specs.Reviews.{profile};
ghost use Rattle.house_model.specs.Text.{Lines};
ghost use Rattle.review_desk.specs.Desk.{IsSetUp, desk_profile};
ghost use Rattle.slip_text.specs.Told.{slip_told};

use house_base::{Memory, Name, Plan};
use house_core::House;
use line_text::Word::Text;
use line_text::push_line;
use review_desk::Desk;
use slip_check::{SlipWrite, write_slip};
use std::alloc::Global;

/// The slip of the applicant of a name, from a run that has come to its report; or the line that no applicant has it.
pub fn slip_text(alloc: Global, name: Name, house: &House) -> Result<Vec<u8>, Memory>
    requires { (lines : Lines) × StandsFor goal.Run lines house.now × AreOfCall lines }
    ensures { (lines : Lines) → StandsFor goal.Run lines house.now → AreOfCall lines →
        IfOk result (λ text. text.items ≡ slip_told name (profile lines)) }
{
    match house.plan() {
        Some(plan) => match house.desk() {
            Some(desk) => told(alloc, plan, desk, name),
            // What comes to its report has an assignment, whose pairs are looked at.
            None => unreachable!(),
        },
        None => unreachable!(),
    }
}

/// The slip of the applicant of a name, from the reviews that stand at a desk; or the line that no applicant has it.
fn told(alloc: Global, plan: &Plan, desk: &Desk, name: Name) -> Result<Vec<u8>, Memory>
    requires { IsSetUp plan.now desk.now }
    ensures { IfOk result (λ text. text.items ≡ slip_told name (desk_profile plan.now desk.now)) }
{
    let mut text = Vec::new(alloc);
    match write_slip(alloc, plan, desk, plan.call().seats, name, &mut text) {
        Ok(()) => Ok(text),
        Err(SlipWrite::Unlisted) => unlisted(alloc),
        Err(SlipWrite::Memory) => Err(Memory),
    }
}

/// The line that no applicant has a name.
fn unlisted(alloc: Global) -> Result<Vec<u8>, Memory>
    ensures { IfOk result (λ text. text.items ≡ line_of (codes "unlisted" ∷ [])) }
{
    let mut text = Vec::new(alloc);
    push_line(alloc, &[Text(b"unlisted")], &mut text)?;
    Ok(text)
}
