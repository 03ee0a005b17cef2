//! The answers of runs: of one that goes on with its input, and of one that begins with opening lines.

ghost use Rattle.std.specs.Prelude.{◌≡◌, ◌+◌, ◌^◌, ◌-◌, ◌<◌, length, IfOk, IsErrOf};
ghost use Rattle.house_io.specs.Faults.{Rose};
ghost use Rattle.house_model.specs.declared.goal.Goal.TheVariants as goal;
ghost use Rattle.house_model.specs.declared.limits.TheConstants.{MOST_LINES};
ghost use Rattle.house_model.specs.Text.{Lines};
ghost use Rattle.house_top.specs.Answer.{AnswersRun, ReadsOpened, ReadsRun, status_of_answer};
ghost use Rattle.house_top.specs.Due.{opened_run, run_behind};
ghost use Rattle.house_top.specs.Given.{input_behind};
ghost use Rattle.input_run.specs.Hearing.{HasOpened};

use crate::answer::{Answer, answer_heard, answer_of};
use command_text::Lines;
use house_base::Memory;
use house_io::Source;
use house_model::Goal;
use input_run::{InputFault, LineRun, Opening, hear_input, take_opening};
use std::alloc::Global;

/// Hears an input in a run that has taken its opening lines, and takes all memory that the answer needs.
pub fn run_behind<I: Source>(
    alloc: Global,
    goal: Goal,
    run: LineRun,
    input: &mut I,
) -> Result<Answer, InputFault>
    requires { (opening : Lines) × HasOpened goal opening run }
    ensures answer { (opening : Lines) → HasOpened goal opening run →
        IfOk result (λ answer. AnswersRun (run_behind goal opening) (I.left input.old) answer.status answer.text.items) }
    ensures failed { IsErrOf result InputFault.Failed → Rose (I.faults input.old) (I.faults input.new) }
    ensures reads { (opening : Lines) → HasOpened goal opening run →
        ReadsRun I.left goal opening (status_of_answer result) input.old input.new }
{
    match hear_input(alloc, goal, run, input) {
        Ok(heard) => match answer_heard(alloc, goal, &heard) {
            Ok(answer) => Ok(answer),
            Err(Memory) => Err(InputFault::Memory),
        },
        Err(fault) => Err(fault),
    }
}

/// Runs opening lines for the report, and behind them the lines of an input where none of them ends the run.
pub fn run_lines<I: Source>(
    alloc: Global,
    lines: &Lines,
    input: &mut I,
) -> Result<Answer, InputFault>
    requires { length lines.now + MOST_LINES < 2 ^ 64 - 1 }
    ensures answer { IfOk result (λ answer. AnswersRun (opened_run lines.now) (input_behind lines.now (I.left input.old))
        answer.status answer.text.items) }
    ensures failed { IsErrOf result InputFault.Failed → Rose (I.faults input.old) (I.faults input.new) }
    ensures reads { ReadsOpened I.left lines.now (status_of_answer result) input.old input.new }
{
    let mut run = LineRun::new(alloc, Goal::Run);
    match take_opening(Goal::Run, &mut run, lines) {
        Ok(Opening::Going) => run_behind(alloc, Goal::Run, run, input),
        Ok(Opening::Ended) => match answer_of(alloc, Goal::Run, &run) {
            Ok(answer) => Ok(answer),
            Err(Memory) => Err(InputFault::Memory),
        },
        Err(Memory) => Err(InputFault::Memory),
    }
}
