//! The call of the program.

ghost use Rattle.std.specs.Prelude.{◌≡◌, false, All};
ghost use Rattle.house_top.specs.Given.{given_by};
ghost use Rattle.house_top.specs.Promise.{EndsAsDue, FailsToWrite, KeepsFiles, KeepsThePromise, ReadsFarEnough, StoresWhatIsDue};
ghost use Rattle.house_top.specs.Promise.{WritesWhatIsDue, counted};
ghost use Rattle.house_top.specs.Words.{form_of, is_storing, loaded_by, names_in, texts};

use crate::document::Document;
use crate::form::Form;
use crate::forms::answer_to;
use crate::status::Status;
use crate::store::{audit_call, migrate_call};
use crate::words::form_of;
use house_io::{Files, Shelf, Sink, Source, give_all};
use input_run::InputFault;
use std::alloc::Global;

/// Runs the program on its words, its input and its files. The files that the words name are loaded first. The input is
/// read in pieces, up to a line that ends the run, to the end of its limits or to its own end, and all memory is taken
/// before the first byte is written. A file that the words store is stored behind the text, where the call is done.
pub fn house<I: Source, O: Sink, F: Shelf>(
    alloc: Global,
    words: &Vec<String>,
    input: &mut I,
    output: &mut O,
    shelf: &mut F,
) -> Status
    requires ready { All (F.ready shelf.old) (loaded_by (texts words.now.items)) }
    ensures ends { let said = texts words.now.items in
        EndsAsDue (form_of said) (given_by said (I.left input.old) (F.contents shelf.old)) (I.left input.old) result
        (counted (I.faults input.old, I.faults input.new) (F.faults shelf.old, F.faults shelf.new)
        (O.faults output.old, O.faults output.new)) }
    ensures writes { let said = texts words.now.items in
        WritesWhatIsDue O.given (form_of said) (given_by said (I.left input.old) (F.contents shelf.old)) result
        output.old output.new }
    ensures promise { let said = texts words.now.items in
        KeepsThePromise (form_of said) (given_by said (I.left input.old) (F.contents shelf.old)) result
        (O.given output.old) (O.given output.new) }
    ensures reads { let said = texts words.now.items in
        ReadsFarEnough I.left (form_of said) (given_by said (I.left input.old) (F.contents shelf.old))
        (F.faults shelf.old, F.faults shelf.new) result input.old input.new }
    ensures files { let said = texts words.now.items in
        StoresWhatIsDue F.contents (form_of said) (names_in said)
        (given_by said (I.left input.old) (F.contents shelf.old)) result shelf.old shelf.new }
    ensures fails { let said = texts words.now.items in
        FailsToWrite O.given F.contents (form_of said) (given_by said (I.left input.old) (F.contents shelf.old)) result
        (counted (I.faults input.old, I.faults input.new) (F.faults shelf.old, F.faults shelf.new)
        (O.faults output.old, O.faults output.new)) output.old output.new shelf.old shelf.new }
{
    match form_of(words) {
        Some(Form::Audit) => audit_call(alloc, words[1].as_str(), input, output, shelf),
        Some(Form::Judged(Document::OldAudit)) => migrate_call(
            alloc,
            words[1].as_str(),
            words[2].as_str(),
            output,
            shelf,
        ),
        _ => read_only(alloc, words, input, output, shelf),
    }
}

/// As `house`, for words that store no file, with files that need not take any.
pub fn read_only<I: Source, O: Sink, F: Files>(
    alloc: Global,
    words: &Vec<String>,
    input: &mut I,
    output: &mut O,
    files: &mut F,
) -> Status
    requires reads { is_storing (form_of (texts words.now.items)) ≡ false }
    requires ready { All (F.ready files.old) (loaded_by (texts words.now.items)) }
    ensures ends { let said = texts words.now.items in
        EndsAsDue (form_of said) (given_by said (I.left input.old) (F.contents files.old)) (I.left input.old) result
        (counted (I.faults input.old, I.faults input.new) (F.faults files.old, F.faults files.new)
        (O.faults output.old, O.faults output.new)) }
    ensures writes { let said = texts words.now.items in
        WritesWhatIsDue O.given (form_of said) (given_by said (I.left input.old) (F.contents files.old)) result
        output.old output.new }
    ensures promise { let said = texts words.now.items in
        KeepsThePromise (form_of said) (given_by said (I.left input.old) (F.contents files.old)) result
        (O.given output.old) (O.given output.new) }
    ensures reads { let said = texts words.now.items in
        ReadsFarEnough I.left (form_of said) (given_by said (I.left input.old) (F.contents files.old))
        (F.faults files.old, F.faults files.new) result input.old input.new }
    ensures files { KeepsFiles F.contents (loaded_by (texts words.now.items)) files.old files.new }
{
    let Some(form) = form_of(words) else {
        return Status::Usage;
    };
    match answer_to(alloc, form, words, input, files) {
        Ok(answer) => match give_all(output, &answer.text) {
            Ok(()) => answer.status,
            Err(_) => Status::WriteFault,
        },
        Err(InputFault::Failed) => Status::ReadFault,
        Err(InputFault::Memory) => Status::Memory,
    }
}
