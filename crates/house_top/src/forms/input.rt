//! The words `run`, `pairs` and `feasible`: the lines of the input, for a goal.

ghost use Rattle.std.specs.Prelude.{[], IfOk, IsErrOf};
ghost use Rattle.house_io.specs.Faults.{Rose};
ghost use Rattle.house_top.specs.Answer.{AnswersRun, ReadsRun, status_of_answer};
ghost use Rattle.house_top.specs.Due.{run_behind};

use crate::answer::Answer;
use crate::run::run_behind;
use house_io::Source;
use house_model::Goal;
use input_run::{InputFault, LineRun};
use std::alloc::Global;

/// Runs the lines of an input for a goal, and takes all memory that the answer needs.
pub fn run_input<I: Source>(alloc: Global, goal: Goal, input: &mut I) -> Result<Answer, InputFault>
    ensures answer { IfOk result (λ answer. AnswersRun (run_behind goal []) (I.left input.old) answer.status
        answer.text.items) }
    ensures failed { IsErrOf result InputFault.Failed → Rose (I.faults input.old) (I.faults input.new) }
    ensures reads { ReadsRun I.left goal [] (status_of_answer result) input.old input.new }
{
    run_behind(alloc, goal, LineRun::new(alloc, goal), input)
}
