//! What the words ask for, and the answer to it: a function for each form.

ghost use Rattle.std.specs.Prelude.{◌≡◌, false, All, IfOk, Some};
ghost use Rattle.house_top.specs.Answer.{Answers, status_of_answer};
ghost use Rattle.house_top.specs.Given.{told};
ghost use Rattle.house_top.specs.Promise.{IsCaused, KeepsFiles, ReadsFarEnough};
ghost use Rattle.house_top.specs.Words.{form_of, is_storing, loads, names_in, texts};

pub(crate) mod audit;
mod input;
mod joined;
pub(crate) mod judged;
mod opened;
mod reserved;
mod slipped;

use crate::answer::Answer;
use crate::form::Form;
use crate::words::names_in;
use house_io::{Files, Source};
use input_run::InputFault;
use std::alloc::Global;

/// The answer to what the words ask for, with all memory taken that it needs.
pub fn answer_to<I: Source, F: Files>(
    alloc: Global,
    form: Form,
    words: &Vec<String>,
    input: &mut I,
    files: &mut F,
) -> Result<Answer, InputFault>
    requires reads { is_storing (Some form) ≡ false }
    requires form { form_of (texts words.now.items) ≡ Some form }
    requires ready { All (F.ready files.old) (loads (Some form) (names_in (texts words.now.items))) }
    ensures answer { let names = names_in (texts words.now.items) in
        IfOk result (λ answer. Answers (Some form) (told (Some form) names (I.left input.old) (F.contents files.old))
        answer.status answer.text.items) }
    ensures caused { let names = names_in (texts words.now.items) in
        IsCaused (Some form) (told (Some form) names (I.left input.old) (F.contents files.old)) (I.left input.old)
        (status_of_answer result) (I.faults input.old, I.faults input.new) (F.faults files.old, F.faults files.new) }
    ensures reads { let names = names_in (texts words.now.items) in
        ReadsFarEnough I.left (Some form) (told (Some form) names (I.left input.old) (F.contents files.old))
        (F.faults files.old, F.faults files.new) (status_of_answer result) input.old input.new }
    ensures files { let names = names_in (texts words.now.items) in
        KeepsFiles F.contents (loads (Some form) names) files.old files.new }
{
    match form {
        Form::Input(goal) => input::run_input(alloc, goal, input),
        // Its file is stored by words of their own, and none of these come here.
        Form::Audit => unreachable!(),
        Form::Slip(name) => slipped::slip_input(alloc, name, input),
        Form::Opened => opened::run_opened(
            alloc,
            words[1].as_str(),
            words[2].as_str(),
            input,
            files,
        ),
        Form::Judged(document) => judged::judge_alone(alloc, document, words[1].as_str(), files),
        Form::Join => joined::join_files(alloc, names_in(words), files),
        Form::Reserve => reserved::reserve_seats(alloc, words[1].as_str(), input, files),
    }
}
