//! The words `reserve FILE`: the lines of the input for the report, and behind it who moves up where those withdraw whom a
//! file names.

ghost use Rattle.std.specs.Prelude.{◌≡◌, ◌∷◌, [], IfOk, IsErrOf, Some};
ghost use Rattle.house_io.specs.Faults.{Rose};
ghost use Rattle.house_model.specs.declared.goal.Goal.TheVariants as goal;
ghost use Rattle.house_model.specs.Headline.{AreOfCall};
ghost use Rattle.house_model.specs.Text.{Lines};
ghost use Rattle.house_top.specs.declared.form.Form.TheVariants as form;
ghost use Rattle.house_top.specs.Answer.{Answers, ReadsRun, status_of_answer};
ghost use Rattle.house_top.specs.Given.{told};
ghost use Rattle.house_top.specs.Leaving.{status_of_reserve, text_of_reserve};
ghost use Rattle.house_top.specs.Promise.{IsCaused, KeepsFiles, ReadsFarEnough};
ghost use Rattle.house_top.specs.Reserved.{AnswersReserve, IsReserveHeard, TellsReserve};
ghost use Rattle.input_run.specs.Hearing.{HasLines, HasSomeLines};
ghost use Rattle.reserve_list.specs.Told.{reserve_told};

use crate::answer::{Answer, answer_of, bad_file, too_long};
use crate::bad::Bad;
use crate::status::Status;
use house_base::Memory;
use house_io::{Files, LoadFault, Source};
use house_model::Goal;
use house_model::limits::MOST_BYTES;
use input_run::{Heard, InputFault, LineRun, hear_input};
use reserve_text::{Reserve, reserve_text};
use std::alloc::Global;

/// Loads a file of withdrawals, and then runs the lines of the input for the report. The input is not touched where the
/// file is not loaded.
pub fn reserve_seats<I: Source, F: Files>(
    alloc: Global,
    name: &str,
    input: &mut I,
    files: &mut F,
) -> Result<Answer, InputFault>
    requires { F.ready files.old name.now }
    ensures answer { IfOk result (λ answer. Answers (Some form.Reserve)
        (told (Some form.Reserve) (name.now ∷ []) (I.left input.old) (F.contents files.old))
        answer.status answer.text.items) }
    ensures caused { IsCaused (Some form.Reserve)
        (told (Some form.Reserve) (name.now ∷ []) (I.left input.old) (F.contents files.old))
        (I.left input.old) (status_of_answer result)
        (I.faults input.old, I.faults input.new) (F.faults files.old, F.faults files.new) }
    ensures reads { ReadsFarEnough I.left (Some form.Reserve)
        (told (Some form.Reserve) (name.now ∷ []) (I.left input.old) (F.contents files.old))
        (F.faults files.old, F.faults files.new) (status_of_answer result) input.old input.new }
    ensures files { KeepsFiles F.contents (name.now ∷ []) files.old files.new }
{
    match files.load(alloc, name, MOST_BYTES) {
        Ok(bytes) => reserve_input(alloc, &bytes, input),
        Err(LoadFault::Long) => match too_long(alloc) {
            Ok(answer) => Ok(answer),
            Err(Memory) => Err(InputFault::Memory),
        },
        Err(LoadFault::Failed) => Err(InputFault::Failed),
        Err(LoadFault::Memory) => Err(InputFault::Memory),
    }
}

/// Runs the lines of an input for the report, with the withdrawals of a file behind it, and takes all memory that the answer
/// needs.
fn reserve_input<I: Source>(
    alloc: Global,
    bytes: &[u8],
    input: &mut I,
) -> Result<Answer, InputFault>
    ensures answer { IfOk result (AnswersReserve bytes.now (I.left input.old)) }
    ensures failed { IsErrOf result InputFault.Failed → Rose (I.faults input.old) (I.faults input.new) }
    ensures reads { ReadsRun I.left goal.Run [] (status_of_answer result) input.old input.new }
{
    match hear_input(alloc, Goal::Run, LineRun::new(alloc, Goal::Run), input) {
        Ok(heard) => match reserve_heard(alloc, bytes, &heard) {
            Ok(answer) => Ok(answer),
            Err(Memory) => Err(InputFault::Memory),
        },
        Err(fault) => Err(fault),
    }
}

/// The answer to what was heard of an input.
fn reserve_heard(alloc: Global, bytes: &[u8], heard: &Heard) -> Result<Answer, Memory>
    requires { HasSomeLines goal.Run heard.now }
    ensures { IfOk result (IsReserveHeard bytes.now heard.now) }
{
    match heard {
        Heard::Lines(run) => reserve_run(alloc, bytes, run),
        Heard::TooLong => too_long(alloc),
    }
}

/// The answer of a run that is at its end: with the withdrawals of a file where it has come to its report, and else what it
/// says.
fn reserve_run(alloc: Global, bytes: &[u8], run: &LineRun) -> Result<Answer, Memory>
    requires { (lines : Lines) × HasLines goal.Run lines run.now }
    ensures { IfOk result (TellsReserve bytes.now run.now) }
{
    let answer = answer_of(alloc, Goal::Run, run)?;
    match answer.status {
        Status::Done => reserve_done(alloc, bytes, run),
        _ => Ok(answer),
    }
}

/// The answer of a run that has come to its report: what becomes of it and of a file of withdrawals.
fn reserve_done(alloc: Global, bytes: &[u8], run: &LineRun) -> Result<Answer, Memory>
    requires { (lines : Lines) × HasLines goal.Run lines run.now × AreOfCall lines }
    ensures status { (lines : Lines) → HasLines goal.Run lines run.now → AreOfCall lines →
        IfOk result (λ answer. answer.status ≡ status_of_reserve (reserve_told bytes.now lines)) }
    ensures text { (lines : Lines) → HasLines goal.Run lines run.now → AreOfCall lines →
        IfOk result (λ answer. answer.text.items ≡ text_of_reserve (reserve_told bytes.now lines)) }
{
    match reserve_text(alloc, &run.house, bytes)? {
        Reserve::Text(text) => Ok(Answer {
            status: Status::Done,
            text,
        }),
        Reserve::Bad(line, reason) => bad_file(alloc, Bad::Leave(line, reason)),
    }
}
