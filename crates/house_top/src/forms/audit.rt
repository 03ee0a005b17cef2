//! The words `audit FILE`: the lines of the input for the report, and the audit of their run.

ghost use Rattle.std.specs.Prelude.{◌≡◌, ◌≤◌, [], true, IfOk, IsErrOf, IsSomeAnd, length};
ghost use Rattle.house_io.specs.Faults.{Rose};
ghost use Rattle.house_model.specs.Text.{Lines};
ghost use Rattle.house_model.specs.declared.goal.Goal.TheVariants as goal;
ghost use Rattle.house_model.specs.declared.limits.TheConstants.{MOST_LINES};
ghost use Rattle.house_top.specs.Answer.{AnswersRun, IsEndAnswer, ReadsRun};
ghost use Rattle.house_top.specs.Audited.{CanBeAudited, IsAuditedHeard, IsAuditedRun, KeepsLines, StoresAudit};
ghost use Rattle.house_top.specs.Filed.{status_of_filed};
ghost use Rattle.house_top.specs.Due.{audit_of, run_behind};
ghost use Rattle.input_run.specs.Hearing.{HasLines};
ghost use Rattle.input_run.specs.Kept.{keeps};

use crate::answer::{Answer, answer_of, too_long};
use crate::filed::Filed;
use crate::status::Status;
use audit_chain::audit_text;
use house_base::Memory;
use house_io::Source;
use house_model::Goal;
use input_run::{Heard, InputFault, LineRun, hear_input};
use std::alloc::Global;

/// Runs the lines of an input for the report, and takes all memory that the answer and the audit need.
pub fn audit_input<I: Source>(alloc: Global, input: &mut I) -> Result<Filed, InputFault>
    ensures answer { IfOk result (λ audited. AnswersRun (run_behind goal.Run []) (I.left input.old) audited.answer.status
        audited.answer.text.items) }
    ensures audit { IfOk result (λ audited. StoresAudit (I.left input.old) audited) }
    ensures failed { IsErrOf result InputFault.Failed → Rose (I.faults input.old) (I.faults input.new) }
    ensures reads { ReadsRun I.left goal.Run [] (status_of_filed result) input.old input.new }
{
    match hear_input(alloc, Goal::Run, LineRun::keeping(alloc, Goal::Run), input) {
        Ok(heard) => match audit_heard(alloc, &heard) {
            Ok(audited) => Ok(audited),
            Err(Memory) => Err(InputFault::Memory),
        },
        Err(fault) => Err(fault),
    }
}

/// The answer to what was heard of an input, with its audit.
fn audit_heard(alloc: Global, heard: &Heard) -> Result<Filed, Memory>
    requires lines { CanBeAudited heard.now }
    requires keeps { KeepsLines heard.now }
    ensures { IfOk result (IsAuditedHeard heard.now) }
{
    match heard {
        Heard::Lines(run) => audit_run(alloc, run),
        Heard::TooLong => Ok(Filed {
            answer: too_long(alloc)?,
            file: None,
        }),
    }
}

/// The answer of a run that is at its end, with its audit.
fn audit_run(alloc: Global, run: &LineRun) -> Result<Filed, Memory>
    requires lines { (lines : Lines) × HasLines goal.Run lines run.now × (length lines ≤ MOST_LINES) }
    requires keeps { keeps run.now ≡ true }
    ensures { (lines : Lines) → HasLines goal.Run lines run.now → IfOk result (IsAuditedRun lines) }
{
    let answer = answer_of(alloc, Goal::Run, run)?;
    match answer.status {
        Status::Done => {
            let file = audit_of(alloc, run, answer.text.as_slice())?;
            Ok(Filed { answer, file })
        }
        _ => Ok(Filed { answer, file: None }),
    }
}

/// The audit of a run that came to its report, which is this text.
fn audit_of(alloc: Global, run: &LineRun, text: &[u8]) -> Result<Option<Vec<u8>>, Memory>
    requires lines { (lines : Lines) × HasLines goal.Run lines run.now × (length lines ≤ MOST_LINES)
        × IsEndAnswer goal.Run lines Status.Done text.now }
    requires keeps { keeps run.now ≡ true }
    ensures { (lines : Lines) → HasLines goal.Run lines run.now → IsEndAnswer goal.Run lines Status.Done text.now →
        IfOk result (λ audit. IsSomeAnd audit (λ file. file.items ≡ audit_of lines)) }
{
    match &run.kept {
        Some(kept) => {
            let audit = audit_text(alloc, &kept.lines, kept.marks.as_slice(), text)?;
            Ok(Some(audit))
        }
        None => Ok(None),
    }
}
