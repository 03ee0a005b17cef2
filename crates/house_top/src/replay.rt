//! What is said of an audit.

ghost use Rattle.std.specs.Prelude.{◌≡◌, ◌∷◌, ◌++◌, [], IfOk, IsSomeAnd, OnOk, codes, decimal};
ghost use Rattle.house_model.specs.Report.{line_of};
ghost use Rattle.house_top.specs.declared.document.Document.TheVariants as document;
ghost use Rattle.house_top.specs.Judged.{HasFileOf, IsVerdict, differing_rows, ending_word, of_document};

use crate::answer::{Answer, bad_file};
use crate::bad::Bad;
use crate::filed::{Filed, unfiled};
use crate::status::Status;
use audit_chain::RowFault;
use house_base::Memory;
use line_text::Word::{Number, Text};
use line_text::push_line;
use replay_check::{Ending, Fresh, Migrated, Replayed, migrate, replay};
use std::alloc::Global;

/// Says of an audit whether it is that of its lines, and else which row differs.
pub fn judge_audit(alloc: Global, bytes: &[u8]) -> Result<Answer, Memory>
    ensures said { IfOk result (λ answer. (answer.status, answer.text.items) ≡ of_document document.Audit bytes.now) }
    ensures ends { IfOk result (λ answer. IsVerdict document.Audit answer.status) }
{
    match replay(alloc, bytes) {
        Ok(Replayed::Same(count, ending)) => same_audit(alloc, count, ending),
        Ok(Replayed::Differs(row, kept, right)) => {
            other_audit(alloc, row, kept.bytes(), right.bytes())
        }
        Err(RowFault::BadRow(row)) => bad_file(alloc, Bad::Row(row)),
        Err(RowFault::Memory) => Err(Memory),
    }
}

/// Brings an audit to the second version, where it is that of its lines, and else says which row differs.
pub fn move_audit(alloc: Global, bytes: &[u8]) -> Result<Filed, Memory>
    ensures said { IfOk result (λ moved. (moved.answer.status, moved.answer.text.items) ≡ of_document document.OldAudit bytes.now) }
    ensures ends { IfOk result (λ moved. IsVerdict document.OldAudit moved.answer.status) }
    ensures file { IfOk result (HasFileOf document.OldAudit bytes.now) }
{
    match migrate(alloc, bytes) {
        Ok(Migrated::Moved(fresh, count)) => moved_audit(alloc, fresh, count),
        Ok(Migrated::Differs(row, kept, right)) => Ok(unfiled(other_audit(
            alloc,
            row,
            kept.bytes(),
            right.bytes(),
        )?)),
        Err(RowFault::BadRow(row)) => Ok(unfiled(bad_file(alloc, Bad::Row(row))?)),
        Err(RowFault::Memory) => Err(Memory),
    }
}

/// The answer to an audit of so many lines, which end so.
fn same_audit(alloc: Global, count: u64, ending: Ending) -> Result<Answer, Memory>
    ensures status { IfOk result (λ answer. answer.status ≡ Status.Done) }
    ensures text { IfOk result (λ answer. answer.text.items ≡
        line_of (codes "same" ∷ codes "lines" ∷ decimal count ∷ ending_word ending ∷ [])) }
{
    let mut text = Vec::new(alloc);
    push_line(
        alloc,
        &[
            Text(b"same"),
            Text(b"lines"),
            Number(count),
            Text(ending_word(ending)),
        ],
        &mut text,
    )?;
    Ok(Answer {
        status: Status::Done,
        text,
    })
}

/// The word for how lines end.
fn ending_word(ending: Ending) -> &'static [u8]
    ensures { result.now ≡ ending_word ending }
{
    match ending {
        Ending::Done => b"done",
        Ending::Refused => b"refused",
        Ending::Short => b"short",
    }
}

/// The answer to a file in which this row is the first that differs: as it is kept, and as it should be.
fn other_audit(alloc: Global, row: u64, kept: &[u8], right: &[u8]) -> Result<Answer, Memory>
    ensures status { IfOk result (λ answer. answer.status ≡ Status.Differs row) }
    ensures text { IfOk result (λ answer. answer.text.items ≡ differing_rows row kept.now right.now) }
{
    let mut text = Vec::new(alloc);
    push_line(alloc, &[Text(b"differs"), Number(row)], &mut text)?;
    push_row(alloc, b"kept", kept, &mut text)?;
    push_row(alloc, b"right", right, &mut text)?;
    Ok(Answer {
        status: Status::Differs(row),
        text,
    })
}

/// Appends a row of an audit behind a word.
fn push_row<'a>(
    alloc: Global,
    word: &'a [u8],
    row: &'a [u8],
    text: &mut Vec<u8>,
) -> Result<(), Memory>
    ensures { OnOk result (text.new.items ≡ text.old.items ++ line_of (word.now ∷ row.now ∷ [])) }
{
    push_line(alloc, &[Text(word), Text(row)], text)
}

/// The answer to an audit of so many lines, with the audit of the second version that is stored behind it.
fn moved_audit(alloc: Global, fresh: Fresh, count: u64) -> Result<Filed, Memory>
    ensures status { IfOk result (λ moved. moved.answer.status ≡ Status.Done) }
    ensures text { IfOk result (λ moved. moved.answer.text.items ≡
        line_of (codes "migrated" ∷ codes "lines" ∷ decimal count ∷ [])) }
    ensures file { IfOk result (λ moved. IsSomeAnd moved.file (λ file. file.items ≡ fresh)) }
{
    let mut text = Vec::new(alloc);
    push_line(
        alloc,
        &[Text(b"migrated"), Text(b"lines"), Number(count)],
        &mut text,
    )?;
    let answer = Answer {
        status: Status::Done,
        text,
    };
    Ok(Filed {
        answer,
        file: Some(fresh.into_bytes()),
    })
}
