//! The words that store a file.

ghost use Rattle.std.specs.Prelude.{◌≡◌, ◌≤◌, ◌∷◌, [], Option, Some};
ghost use Rattle.house_base.specs.Text.{Text};
ghost use Rattle.house_top.specs.declared.document.Document.TheVariants as document;
ghost use Rattle.house_top.specs.declared.form.Form.TheVariants as form;
ghost use Rattle.house_top.specs.Filed.{IsGivenAndStored, IsStored};
ghost use Rattle.house_top.specs.Given.{told};
ghost use Rattle.house_top.specs.Promise.{Counts, EndsAsDue, FailsToWrite, KeepsThePromise, ReadsFarEnough, StoresWhatIsDue};
ghost use Rattle.house_top.specs.Promise.{WritesWhatIsDue, counted};

use crate::document::Document;
use crate::filed::Filed;
use crate::forms::audit::audit_input;
use crate::forms::judged::judge_file;
use crate::status::Status;
use house_io::{Shelf, Sink, Source, give_all};
use input_run::InputFault;
use std::alloc::Global;

/// Gives the report of an input, and then stores the audit of its run under a name.
pub fn audit_call<I: Source, O: Sink, F: Shelf>(
    alloc: Global,
    name: &str,
    input: &mut I,
    output: &mut O,
    shelf: &mut F,
) -> Status
    ensures ends { EndsAsDue (Some form.Audit) (told (Some form.Audit) (name.now ∷ []) (I.left input.old) (F.contents shelf.old))
        (I.left input.old) result
        (counted (I.faults input.old, I.faults input.new) (F.faults shelf.old, F.faults shelf.new)
        (O.faults output.old, O.faults output.new)) }
    ensures writes { WritesWhatIsDue O.given (Some form.Audit)
        (told (Some form.Audit) (name.now ∷ []) (I.left input.old) (F.contents shelf.old)) result output.old output.new }
    ensures promise { KeepsThePromise (Some form.Audit)
        (told (Some form.Audit) (name.now ∷ []) (I.left input.old) (F.contents shelf.old)) result
        (O.given output.old) (O.given output.new) }
    ensures reads { ReadsFarEnough I.left (Some form.Audit)
        (told (Some form.Audit) (name.now ∷ []) (I.left input.old) (F.contents shelf.old))
        (F.faults shelf.old, F.faults shelf.new) result input.old input.new }
    ensures files { StoresWhatIsDue F.contents (Some form.Audit) (name.now ∷ [])
        (told (Some form.Audit) (name.now ∷ []) (I.left input.old) (F.contents shelf.old)) result shelf.old shelf.new }
    ensures fails { FailsToWrite O.given F.contents (Some form.Audit)
        (told (Some form.Audit) (name.now ∷ []) (I.left input.old) (F.contents shelf.old)) result
        (counted (I.faults input.old, I.faults input.new) (F.faults shelf.old, F.faults shelf.new)
        (O.faults output.old, O.faults output.new)) output.old output.new shelf.old shelf.new }
{
    match audit_input(alloc, input) {
        Ok(audited) => give_and_store(&audited, name, output, shelf),
        Err(InputFault::Failed) => Status::ReadFault,
        Err(InputFault::Memory) => Status::Memory,
    }
}

/// Says of the first audit what becomes of it in the second version, and then stores that under the second name. No input
/// is looked at, so that the promise holds with any.
pub fn migrate_call<O: Sink, F: Shelf>(
    alloc: Global,
    first: &str,
    second: &str,
    output: &mut O,
    shelf: &mut F,
) -> Status
    requires { F.ready shelf.old first.now }
    ensures ends { (input : Option Text) (reads : Counts) → EndsAsDue (Some (form.Judged document.OldAudit))
        (told (Some (form.Judged document.OldAudit)) (first.now ∷ second.now ∷ []) input (F.contents shelf.old))
        input result (counted reads (F.faults shelf.old, F.faults shelf.new) (O.faults output.old, O.faults output.new)) }
    ensures writes { (input : Option Text) → WritesWhatIsDue O.given (Some (form.Judged document.OldAudit))
        (told (Some (form.Judged document.OldAudit)) (first.now ∷ second.now ∷ []) input (F.contents shelf.old))
        result output.old output.new }
    ensures promise { (input : Option Text) → KeepsThePromise (Some (form.Judged document.OldAudit))
        (told (Some (form.Judged document.OldAudit)) (first.now ∷ second.now ∷ []) input (F.contents shelf.old))
        result (O.given output.old) (O.given output.new) }
    ensures files { (input : Option Text) → StoresWhatIsDue F.contents (Some (form.Judged document.OldAudit))
        (first.now ∷ second.now ∷ []) (told (Some (form.Judged document.OldAudit)) (first.now ∷ second.now ∷ []) input (F.contents shelf.old))
        result shelf.old shelf.new }
    ensures fails { (input : Option Text) (reads : Counts) → FailsToWrite O.given F.contents (Some (form.Judged document.OldAudit))
        (told (Some (form.Judged document.OldAudit)) (first.now ∷ second.now ∷ []) input (F.contents shelf.old))
        result (counted reads (F.faults shelf.old, F.faults shelf.new) (O.faults output.old, O.faults output.new))
        output.old output.new shelf.old shelf.new }
{
    match judge_file(alloc, Document::OldAudit, first, shelf) {
        Ok(moved) => give_and_store(&moved, second, output, shelf),
        Err(InputFault::Failed) => Status::ReadFault,
        Err(InputFault::Memory) => Status::Memory,
    }
}

/// Gives the text of an answer, and then stores the file behind it under a name, where there is one.
fn give_and_store<O: Sink, F: Shelf>(
    filed: &Filed,
    name: &str,
    output: &mut O,
    shelf: &mut F,
) -> Status
    ensures done { IsGivenAndStored O.given F.contents filed.now name.now (O.faults output.old, O.faults output.new)
        (F.faults shelf.old, F.faults shelf.new) result output.old output.new shelf.old shelf.new }
    ensures never_falls { F.faults shelf.old ≤ F.faults shelf.new }
{
    match give_all(output, &filed.answer.text) {
        Ok(()) => store_file(filed, name, shelf),
        Err(_) => Status::WriteFault,
    }
}

/// Stores the file behind an answer under a name, where there is one.
fn store_file<F: Shelf>(filed: &Filed, name: &str, shelf: &mut F) -> Status
    ensures done { IsStored F.contents filed.now name.now (F.faults shelf.old, F.faults shelf.new) result shelf.old shelf.new }
    ensures never_falls { F.faults shelf.old ≤ F.faults shelf.new }
{
    match &filed.file {
        Some(file) => match shelf.store(name, file) {
            Ok(()) => filed.answer.status,
            Err(_) => Status::WriteFault,
        },
        None => filed.answer.status,
    }
}
