//! What a file comes to for one person.

ghost use Rattle.std.specs.Prelude.{◌≡◌, ◌≤◌, false, [], IfOk, OnOk, length};
ghost use Rattle.house_core.specs.House.{StandsFor};
ghost use Rattle.house_model.specs.declared.goal.Goal.TheVariants as goal;
ghost use Rattle.house_model.specs.declared.limits.TheConstants.{MOST_LINES};
ghost use Rattle.house_model.specs.Text.{Lines, lines};
ghost use Rattle.twin_check.specs.Half.{half_of};
ghost use Rattle.twin_check.specs.Run.{AreOfCallWhereDone, HasRun};

use crate::half::Half;
use crate::outcome::half_in;
use command_text::first_line;
use house_base::{Memory, Name};
use house_core::{EndFault, House, Step};
use house_model::Goal;
use std::alloc::Global;

/// What a run of the lines of a text for the report comes to for the person of a name.
pub(crate) fn half_of(alloc: Global, text: &[u8], name: Name) -> Result<Half, Memory>
    requires { length (lines text.now) ≤ MOST_LINES }
    ensures half { IfOk result (λ half. half ≡ half_of name (lines text.now)) }
    ensures of_call { OnOk result (AreOfCallWhereDone (lines text.now)) }
{
    let mut house = House::new(alloc, Goal::Run);
    take_lines(text, &mut house)?;
    told(&house, name)
}

/// Takes the lines of a text, up to one that ends the run.
fn take_lines(text: &[u8], house: &mut House) -> Result<(), Memory>
    requires new { StandsFor Goal.Run [] house.old }
    requires few { length (lines text.now) ≤ MOST_LINES }
    ensures { OnOk result (HasRun (lines text.now) house.new) }
{
    let mut rest = text;
    while let Some((line, behind)) = first_line(rest) {
        match house.line(line) {
            Step::Going(_) => rest = behind,
            Step::Refused(..) => return Ok(()),
            Step::Short => return Ok(()),
            Step::Memory => return Err(Memory),
        }
    }
    Ok(())
}

/// What a run comes to for the person of a name.
fn told(house: &House, name: Name) -> Result<Half, Memory>
    requires { (all : Lines) × HasRun all house.now }
    ensures half { (all : Lines) → HasRun all house.now → IfOk result (λ half. half ≡ half_of name all) }
    ensures of_call { (all : Lines) → HasRun all house.now → OnOk result (AreOfCallWhereDone all) }
{
    match house.end() {
        Ok(outcome) => Ok(half_in(&outcome, name)),
        Err(EndFault::Refused(line, reason)) => Ok(Half::Refused(line, reason)),
        Err(EndFault::Short) => Ok(Half::Short),
        Err(EndFault::Memory) => Err(Memory),
    }
}
