//! The words `check FILE`, `replay FILE` and `migrate FILE FILE`: what one file is worth, by itself.

ghost use Rattle.std.specs.Prelude.{◌≡◌, ◌≤◌, None, IfOk, IfSome, IsErrOf};
ghost use Rattle.house_io.specs.Faults.{Rose};
ghost use Rattle.house_top.specs.Judged.{HasFile, HasFileOf, IsSaid, IsVerdict, most_of, of_document};

use crate::answer::{Answer, too_long};
use crate::document::{Document, MOST_AUDIT_BYTES};
use crate::filed::{Filed, unfiled};
use crate::replay::{judge_audit, move_audit};
use crate::slip::judge_slip;
use crate::status::Status;
use house_base::Memory;
use house_io::{Files, LoadFault};
use house_model::limits::MOST_BYTES;
use input_run::InputFault;
use std::alloc::Global;

/// Loads a file and says of it what it is worth, where nothing is to be stored.
pub fn judge_alone<F: Files>(
    alloc: Global,
    document: Document,
    name: &str,
    files: &mut F,
) -> Result<Answer, InputFault>
    requires { F.ready files.old name.now }
    ensures said { IfOk result (λ answer. IsSaid document (F.contents files.old) name.now answer.status answer.text.items) }
    ensures too_long { IfOk result (λ answer. answer.status ≡ Status.TooLong → F.contents files.old ≡ None →
        Rose (F.faults files.old) (F.faults files.new)) }
    ensures failed { IsErrOf result InputFault.Failed → Rose (F.faults files.old) (F.faults files.new) }
    ensures unchanged { F.contents files.new ≡ F.contents files.old }
{
    let judged = judge_file(alloc, document, name, files)?;
    Ok(judged.answer)
}

/// Loads a file and says of it what it is worth, with what is to be stored behind it.
pub fn judge_file<F: Files>(
    alloc: Global,
    document: Document,
    name: &str,
    files: &mut F,
) -> Result<Filed, InputFault>
    requires { F.ready files.old name.now }
    ensures said { IfOk result (λ judged. IsSaid document (F.contents files.old) name.now judged.answer.status
        judged.answer.text.items) }
    ensures file { IfOk result (HasFile document (F.contents files.old) name.now) }
    ensures too_long { IfOk result (λ judged. judged.answer.status ≡ Status.TooLong → F.contents files.old ≡ None →
        Rose (F.faults files.old) (F.faults files.new)) }
    ensures failed { IsErrOf result InputFault.Failed → Rose (F.faults files.old) (F.faults files.new) }
    ensures unchanged { F.contents files.new ≡ F.contents files.old }
    ensures never_falls { F.faults files.old ≤ F.faults files.new }
{
    match files.load(alloc, name, most_of(document)) {
        Ok(bytes) => Ok(judge(alloc, document, &bytes)?),
        Err(LoadFault::Long) => Ok(unfiled(too_long(alloc)?)),
        Err(LoadFault::Failed) => Err(InputFault::Failed),
        Err(LoadFault::Memory) => Err(InputFault::Memory),
    }
}

/// How many bytes a document has at most.
fn most_of(document: Document) -> usize
    ensures { result ≡ most_of document }
{
    match document {
        Document::Slip => MOST_BYTES,
        Document::Audit | Document::OldAudit => MOST_AUDIT_BYTES,
    }
}

/// Says of a document what it is worth.
fn judge(alloc: Global, document: Document, bytes: &[u8]) -> Result<Filed, Memory>
    ensures said { IfOk result (λ judged. (judged.answer.status, judged.answer.text.items) ≡ of_document document bytes.now) }
    ensures ends { IfOk result (λ judged. IsVerdict document judged.answer.status) }
    ensures file { IfOk result (HasFileOf document bytes.now) }
{
    match document {
        Document::Slip => Ok(unfiled(judge_slip(alloc, bytes)?)),
        Document::Audit => Ok(unfiled(judge_audit(alloc, bytes)?)),
        Document::OldAudit => move_audit(alloc, bytes),
    }
}
