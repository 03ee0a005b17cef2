//! The lines that a run takes before its input.

ghost use Rattle.std.specs.Prelude.{◌≡◌, ◌+◌, ◌^◌, ◌-◌, ◌<◌, [], length, IfOk};
ghost use Rattle.house_model.specs.declared.limits.TheConstants.{MOST_LINES};
ghost use Rattle.input_run.specs.Hearing.{HasTakenOpening};
ghost use Rattle.input_run.specs.Kept.{HasTaken, keeps};

use crate::line_run::{LineRun, Taken, take_line};
use command_text::Lines;
use house_base::Memory;
use house_model::Goal;

/// What the opening lines of a run come to.
#[derive(Clone, Copy, Debug, PartialEq, Eq)]
pub enum Opening {
    /// The run has taken them all, and goes on with its input.
    Going,
    /// One of them has ended the run.
    Ended,
}

/// Gives a run that has taken no line its opening lines, up to one that ends it.
pub fn take_opening(goal: Goal, run: &mut LineRun, lines: &Lines) -> Result<Opening, Memory>
    ensures takes { HasTaken goal [] run.old → length lines.now + MOST_LINES < 2 ^ 64 - 1 →
        IfOk result (λ opening. HasTakenOpening goal lines.now opening run.new) }
    ensures keeps { keeps run.new ≡ keeps run.old }
{
    for index in 0..lines.count() {
        match take_line(goal, run, lines.line(index)) {
            Taken::Going(_) => {}
            Taken::Ended => return Ok(Opening::Ended),
            Taken::Memory => return Err(Memory),
        }
    }
    Ok(Opening::Going)
}
