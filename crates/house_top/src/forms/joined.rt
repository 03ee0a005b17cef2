//! The words `join FILE FILE`: the desk file of the join of two.

ghost use Rattle.std.specs.Prelude.{◌≡◌, None, All, IfOk, IsErrOf};
ghost use Rattle.desk_merge.specs.Desk.{desk_file};
ghost use Rattle.house_io.specs.Faults.{Rose};
ghost use Rattle.house_top.specs.Desks.{IsSaidOfDesks};
ghost use Rattle.house_top.specs.Words.{texts};

use crate::answer::{Answer, bad_file, too_long};
use crate::bad::Bad;
use crate::desks::{Desks, open_desks};
use crate::status::Status;
use desk_merge::Entries;
use house_base::Memory;
use house_io::Files;
use input_run::InputFault;
use std::alloc::Global;

/// Loads the desk files of these names and tells the desk file of their join.
pub fn join_files<F: Files>(
    alloc: Global,
    names: &[String],
    files: &mut F,
) -> Result<Answer, InputFault>
    requires { All (F.ready files.old) (texts names.now) }
    ensures said { IfOk result (λ answer. IsSaidOfDesks (F.contents files.old) (texts names.now) answer.status
        answer.text.items) }
    ensures too_long { IfOk result (λ answer. answer.status ≡ Status.TooLong → F.contents files.old ≡ None →
        Rose (F.faults files.old) (F.faults files.new)) }
    ensures failed { IsErrOf result InputFault.Failed → Rose (F.faults files.old) (F.faults files.new) }
    ensures unchanged { F.contents files.new ≡ F.contents files.old }
{
    match open_desks(alloc, names, files) {
        Ok(Desks::Joined(entries)) => Ok(joined_file(alloc, &entries)?),
        Ok(Desks::Bad(file, line)) => Ok(bad_file(alloc, Bad::Desk(file, line))?),
        Ok(Desks::TooLong) => Ok(too_long(alloc)?),
        Err(fault) => Err(fault),
    }
}

/// The answer with the desk file of these reviews.
fn joined_file(alloc: Global, entries: &Entries) -> Result<Answer, Memory>
    ensures status { IfOk result (λ answer. answer.status ≡ Status.Done) }
    ensures text { IfOk result (λ answer. answer.text.items ≡ desk_file entries.now) }
{
    let mut text = Vec::new(alloc);
    entries.write(&mut text)?;
    Ok(Answer {
        status: Status::Done,
        text,
    })
}
