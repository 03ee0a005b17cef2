//! The lines of an audit, run again.

ghost use Rattle.std.specs.Prelude.{◌≡◌, ◌≤◌, [], IfOk, OnOk, length};
ghost use Rattle.house_model.specs.declared.limits.TheConstants.{MOST_LINES};
ghost use Rattle.house_model.specs.declared.goal.Goal.TheVariants as goal;
ghost use Rattle.house_core.specs.House.{StandsFor};
ghost use Rattle.replay_check.specs.Rerun.{HasRun, IsRerun};

use command_text::Lines;
use end_text::{EndText, end_text};
use house_base::{Memory, Took};
use house_core::{House, Step};
use house_model::Goal;
use std::alloc::Global;

/// What lines come to in a run for the report.
#[derive(Drop)]
pub(crate) struct Rerun {
    /// What became of each line.
    pub(crate) marks: Vec<Took>,
    pub(crate) told: EndText,
}

/// Runs lines for the report.
pub(crate) fn run_again(alloc: Global, lines: &Lines) -> Result<Rerun, Memory>
    requires { length lines.now ≤ MOST_LINES }
    ensures { IfOk result (λ run. IsRerun lines.now run.marks.items run.told.end run.told.text.items) }
{
    let mut house = House::new(alloc, Goal::Run);
    run_in(alloc, lines, &mut house)
}

/// Runs lines in a house that has taken none.
fn run_in(alloc: Global, lines: &Lines, house: &mut House) -> Result<Rerun, Memory>
    requires new { StandsFor Goal.Run [] house.old }
    requires few { length lines.now ≤ MOST_LINES }
    ensures { IfOk result (λ run. IsRerun lines.now run.marks.items run.told.end run.told.text.items) }
{
    let count = lines.count() as usize;
    let mut marks = Vec::with_capacity(alloc, count)?;
    take_lines(lines, house, &mut marks)?;
    let told = end_text(alloc, Goal::Run, house)?;
    // The line that has ended the run has no mark, and none behind it.
    marks.resize(count, Took::Kept)?;
    Ok(Rerun { marks, told })
}

/// Takes the lines, up to one that ends the run, with the mark of each that does not.
fn take_lines(lines: &Lines, house: &mut House, marks: &mut Vec<Took>) -> Result<(), Memory>
    requires new { StandsFor Goal.Run [] house.old }
    requires unmarked { marks.old.items ≡ [] }
    requires few { length lines.now ≤ MOST_LINES }
    ensures { OnOk result (HasRun lines.now house.new marks.new.items) }
{
    for index in 0..lines.count() {
        match house.line(lines.line(index)) {
            Step::Going(took) => marks.push(took)?,
            Step::Refused(..) => return Ok(()),
            Step::Short => return Ok(()),
            Step::Memory => return Err(Memory),
        }
    }
    Ok(())
}
