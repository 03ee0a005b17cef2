//! The desk files that words name: loaded, read and joined.

ghost use Rattle.std.specs.Prelude.{◌≡◌, Err, Ok, None, All, IfOk, IfSome, IsErrOf, MatchOption, map};
ghost use Rattle.desk_merge.specs.Joined.{join};
ghost use Rattle.house_io.specs.Faults.{Rose};
ghost use Rattle.house_top.specs.declared.status.Status.TheVariants as status;
ghost use Rattle.house_top.specs.Desks.{IsOfDesks, all_loaded, desks_of, join_read};
ghost use Rattle.house_top.specs.Given.{held};
ghost use Rattle.house_top.specs.Words.{texts};

use desk_merge::{DeskFault, Entries};
use house_base::Memory;
use house_io::{Files, LoadFault};
use house_model::limits::MOST_BYTES;
use input_run::InputFault;
use std::alloc::Global;

/// What desk files come to.
#[derive(Drop)]
pub enum Desks {
    /// The reviews of all of them, joined.
    Joined(Entries),
    /// The file of this number, counted from 1 in the order of the words, is off the form at the line of that number.
    Bad(u64, u64),
    /// One of the files is longer than its limit.
    TooLong,
}

/// Loads the desk files of these names, in their order, and then reads them, and joins them.
pub fn open_desks<F: Files>(
    alloc: Global,
    names: &[String],
    files: &mut F,
) -> Result<Desks, InputFault>
    requires { All (F.ready files.old) (texts names.now) }
    ensures opened { IfOk result (λ desks. IfSome (F.contents files.old) (λ all.
        IsOfDesks (desks_of (held (texts names.now) all)) desks)) }
    ensures too_long { IfOk result (λ desks. desks ≡ Desks.TooLong → F.contents files.old ≡ None →
        Rose (F.faults files.old) (F.faults files.new)) }
    ensures failed { IsErrOf result InputFault.Failed → Rose (F.faults files.old) (F.faults files.new) }
    ensures unchanged { F.contents files.new ≡ F.contents files.old }
{
    match load_all(alloc, names, files) {
        Ok(all) => Ok(read_all(alloc, &all)?),
        Err(LoadFault::Long) => Ok(Desks::TooLong),
        Err(LoadFault::Failed) => Err(InputFault::Failed),
        Err(LoadFault::Memory) => Err(InputFault::Memory),
    }
}

/// The contents of the files of these names, each within its limit.
fn load_all<F: Files>(
    alloc: Global,
    names: &[String],
    files: &mut F,
) -> Result<Vec<Vec<u8>>, LoadFault>
    requires { All (F.ready files.old) (texts names.now) }
    ensures loaded { IfOk result (λ all. IfSome (F.contents files.old) (λ contents.
        all_loaded (held (texts names.now) contents) ≡ Ok (map (λ bytes. bytes.items) all.items))) }
    ensures long { IsErrOf result LoadFault.Long →
        MatchOption (F.contents files.old) (Rose (F.faults files.old) (F.faults files.new)) (λ contents.
        all_loaded (held (texts names.now) contents) ≡ Err status.TooLong) }
    ensures failed { IsErrOf result LoadFault.Failed → Rose (F.faults files.old) (F.faults files.new) }
    ensures unchanged { F.contents files.new ≡ F.contents files.old }
{
    let mut all = Vec::new(alloc);
    for name in names {
        all.reserve(1)?;
        match files.load(alloc, name.as_str(), MOST_BYTES) {
            Ok(bytes) => all.push_reserved(bytes),
            Err(fault) => return Err(fault),
        }
    }
    Ok(all)
}

/// The join of desk files, or the first of them that is off the form.
fn read_all(alloc: Global, all: &[Vec<u8>]) -> Result<Desks, Memory>
    ensures read { IfOk result (IsOfDesks (join_read (map (λ bytes. bytes.items) all.now))) }
    ensures never_long { IfOk result (λ desks. desks ≡ Desks.TooLong → ⊥) }
{
    let mut joined = Entries::new(alloc);
    for (index, bytes) in all.iter().enumerate() {
        match Entries::read(alloc, bytes) {
            Ok(entries) => joined = joined_with(alloc, joined, entries)?,
            Err(DeskFault::BadLine(line)) => return Ok(Desks::Bad(index as u64 + 1, line)),
            Err(DeskFault::Memory) => return Err(Memory),
        }
    }
    Ok(Desks::Joined(joined))
}

/// The join of reviews with those of one more file, which takes no memory where there were none.
fn joined_with(alloc: Global, joined: Entries, entries: Entries) -> Result<Entries, Memory>
    ensures { IfOk result (λ all. all ≡ join joined entries) }
{
    if joined.count() == 0 {
        Ok(entries)
    } else {
        Entries::merged(alloc, &joined, &entries)
    }
}
