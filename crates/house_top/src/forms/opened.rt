//! The words `run CALL REGISTER`: the lines that a call file and a register open a call with, and then those of the input.

ghost use Rattle.std.specs.Prelude.{◌∷◌, [], IfOk, Some};
ghost use Rattle.house_top.specs.declared.form.Form.TheVariants as form;
ghost use Rattle.house_top.specs.Answer.{Answers, status_of_answer};
ghost use Rattle.house_top.specs.Given.{told};
ghost use Rattle.house_top.specs.Promise.{IsCaused, KeepsFiles, ReadsFarEnough};

use crate::answer::{Answer, bad_file, too_long};
use crate::opening::{Opened, open_files};
use crate::run::run_lines;
use house_base::Memory;
use house_io::{Files, Source};
use input_run::InputFault;
use std::alloc::Global;

/// Runs a call that a call file and a register open. The input is not touched where a file is not loaded or refused, or
/// where an opening line ends the run.
pub fn run_opened<I: Source, F: Files>(
    alloc: Global,
    call: &str,
    register: &str,
    input: &mut I,
    files: &mut F,
) -> Result<Answer, InputFault>
    requires call { F.ready files.old call.now }
    requires register { F.ready files.old register.now }
    ensures answer { IfOk result (λ answer. Answers (Some form.Opened)
        (told (Some form.Opened) (call.now ∷ register.now ∷ []) (I.left input.old) (F.contents files.old))
        answer.status answer.text.items) }
    ensures caused { IsCaused (Some form.Opened)
        (told (Some form.Opened) (call.now ∷ register.now ∷ []) (I.left input.old) (F.contents files.old))
        (I.left input.old) (status_of_answer result)
        (I.faults input.old, I.faults input.new) (F.faults files.old, F.faults files.new) }
    ensures reads { ReadsFarEnough I.left (Some form.Opened)
        (told (Some form.Opened) (call.now ∷ register.now ∷ []) (I.left input.old) (F.contents files.old))
        (F.faults files.old, F.faults files.new) (status_of_answer result) input.old input.new }
    ensures files { KeepsFiles F.contents (call.now ∷ register.now ∷ []) files.old files.new }
{
    match open_files(alloc, call, register, files) {
        Ok(Opened::Lines(lines)) => run_lines(alloc, &lines, input),
        Ok(Opened::Bad(why)) => match bad_file(alloc, why) {
            Ok(answer) => Ok(answer),
            Err(Memory) => Err(InputFault::Memory),
        },
        Ok(Opened::TooLong) => match too_long(alloc) {
            Ok(answer) => Ok(answer),
            Err(Memory) => Err(InputFault::Memory),
        },
        Err(fault) => Err(fault),
    }
}
