//! The words `slip NAME`: the lines of the input for the report, and the slip of an applicant in place of it.

ghost use Rattle.std.specs.Prelude.{◌≡◌, [], IfOk, IsErrOf};
ghost use Rattle.house_io.specs.Faults.{Rose};
ghost use Rattle.house_model.specs.Text.{Lines};
ghost use Rattle.house_model.specs.declared.goal.Goal.TheVariants as goal;
ghost use Rattle.house_top.specs.Answer.{ReadsRun, status_of_answer};
ghost use Rattle.house_top.specs.Slipped.{AnswersSlip, IsSlipHeard, TellsSlip};
ghost use Rattle.input_run.specs.Hearing.{HasLines, HasSomeLines};

use crate::answer::{Answer, answer_of, too_long};
use crate::status::Status;
use house_base::{Memory, Name};
use house_io::Source;
use house_model::Goal;
use input_run::{Heard, InputFault, LineRun, hear_input};
use slip_text::slip_text;
use std::alloc::Global;

/// Runs the lines of an input for the report, and takes all memory that the answer needs: the slip of the applicant of a
/// name, where the run comes to its report.
pub fn slip_input<I: Source>(alloc: Global, name: Name, input: &mut I) -> Result<Answer, InputFault>
    ensures answer { IfOk result (AnswersSlip name (I.left input.old)) }
    ensures failed { IsErrOf result InputFault.Failed → Rose (I.faults input.old) (I.faults input.new) }
    ensures reads { ReadsRun I.left goal.Run [] (status_of_answer result) input.old input.new }
{
    match hear_input(alloc, Goal::Run, LineRun::new(alloc, Goal::Run), input) {
        Ok(heard) => match slip_heard(alloc, name, &heard) {
            Ok(answer) => Ok(answer),
            Err(Memory) => Err(InputFault::Memory),
        },
        Err(fault) => Err(fault),
    }
}

/// The answer to what was heard of an input.
fn slip_heard(alloc: Global, name: Name, heard: &Heard) -> Result<Answer, Memory>
    requires { HasSomeLines goal.Run heard.now }
    ensures { IfOk result (IsSlipHeard name heard.now) }
{
    match heard {
        Heard::Lines(run) => slip_run(alloc, name, run),
        Heard::TooLong => too_long(alloc),
    }
}

/// The answer of a run that is at its end: the slip of a name where it has come to its report, and else what it says.
fn slip_run(alloc: Global, name: Name, run: &LineRun) -> Result<Answer, Memory>
    requires { (lines : Lines) × HasLines goal.Run lines run.now }
    ensures { IfOk result (TellsSlip name run.now) }
{
    let answer = answer_of(alloc, Goal::Run, run)?;
    match answer.status {
        Status::Done => Ok(Answer {
            status: Status::Done,
            text: slip_text(alloc, name, &run.house)?,
        }),
        _ => Ok(answer),
    }
}
