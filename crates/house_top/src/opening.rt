//! A call file and a register, loaded and read.

ghost use Rattle.std.specs.Prelude.{◌≡◌, ◌∷◌, ◌≤◌, [], Ok, Err, None, IfOk, IfSome, IsErrOf, MatchOption, length, vec_len};
ghost use Rattle.std.specs.FinMap as map;
ghost use Rattle.call_file.specs.Opening.{opened};
ghost use Rattle.house_io.specs.Faults.{Rose};
ghost use Rattle.house_model.specs.declared.limits.TheConstants.{MOST_BYTES};
ghost use Rattle.house_top.specs.declared.status.Status.TheVariants as status;
ghost use Rattle.house_top.specs.Given.{held};
ghost use Rattle.house_top.specs.Opened.{HasFewLines, IsBadOpening, IsOpened};
ghost use Rattle.house_top.specs.Opening.{by_grammar, loaded, opened_by, opening_of};

use crate::bad::Bad;
use call_file::{OpenFault, open_lines};
use command_text::Lines;
use house_io::{Files, LoadFault};
use house_model::limits::MOST_BYTES;
use input_run::InputFault;
use std::alloc::Global;

/// What a call file and a register come to.
#[derive(Drop)]
pub enum Opened {
    /// The lines that open the call.
    Lines(Lines),
    /// One of the files is refused.
    Bad(Bad),
    /// One of the files is longer than its limit.
    TooLong,
}

/// Loads a call file and a register, in this order, and then reads them.
pub fn open_files<F: Files>(
    alloc: Global,
    call: &str,
    register: &str,
    files: &mut F,
) -> Result<Opened, InputFault>
    requires call { F.ready files.old call.now }
    requires register { F.ready files.old register.now }
    ensures opened { IfOk result (λ files_opened. IfSome (F.contents files.old) (λ all.
        IsOpened (opening_of (held (call.now ∷ register.now ∷ []) all)) files_opened)) }
    ensures few { IfOk result HasFewLines }
    ensures bad { IfOk result IsBadOpening }
    ensures too_long { IfOk result (λ files_opened. files_opened ≡ Opened.TooLong → F.contents files.old ≡ None →
        Rose (F.faults files.old) (F.faults files.new)) }
    ensures failed { IsErrOf result InputFault.Failed → Rose (F.faults files.old) (F.faults files.new) }
    ensures unchanged { F.contents files.new ≡ F.contents files.old }
{
    match load_both(alloc, call, register, files) {
        Ok((call, register)) => read_both(alloc, &call, &register),
        Err(LoadFault::Long) => Ok(Opened::TooLong),
        Err(LoadFault::Failed) => Err(InputFault::Failed),
        Err(LoadFault::Memory) => Err(InputFault::Memory),
    }
}

/// The contents of two files within their limits.
fn load_both<F: Files>(
    alloc: Global,
    call: &str,
    register: &str,
    files: &mut F,
) -> Result<(Vec<u8>, Vec<u8>), LoadFault>
    requires call { F.ready files.old call.now }
    requires register { F.ready files.old register.now }
    ensures loaded { IfOk result (λ both. IfSome (F.contents files.old) (λ all.
        (loaded (map.get all call.now) ≡ Ok both.0.items) × (loaded (map.get all register.now) ≡ Ok both.1.items))) }
    ensures short { IfOk result (λ both. vec_len both.1 ≤ MOST_BYTES) }
    ensures long { IsErrOf result LoadFault.Long →
        MatchOption (F.contents files.old) (Rose (F.faults files.old) (F.faults files.new)) (λ all.
        opened_by (loaded (map.get all call.now)) (loaded (map.get all register.now)) ≡ Err status.TooLong) }
    ensures failed { IsErrOf result LoadFault.Failed → Rose (F.faults files.old) (F.faults files.new) }
    ensures unchanged { F.contents files.new ≡ F.contents files.old }
{
    match files.load(alloc, call, MOST_BYTES) {
        Ok(call) => match files.load(alloc, register, MOST_BYTES) {
            Ok(register) => Ok((call, register)),
            Err(fault) => Err(fault),
        },
        Err(fault) => Err(fault),
    }
}

/// The opening lines of a call file and a register, or why one of them is refused.
fn read_both(alloc: Global, call: &[u8], register: &[u8]) -> Result<Opened, InputFault>
    ensures opened { IfOk result (IsOpened (by_grammar (opened call.now register.now))) }
    ensures few { length register.now ≤ MOST_BYTES → IfOk result HasFewLines }
    ensures bad { IfOk result IsBadOpening }
    ensures never_failed { IsErrOf result InputFault.Failed → ⊥ }
{
    match open_lines(alloc, call, register) {
        Ok(lines) => Ok(Opened::Lines(lines)),
        Err(OpenFault::BadToml) => Ok(Opened::Bad(Bad::Toml)),
        Err(OpenFault::BadKey(key)) => Ok(Opened::Bad(Bad::Key(key))),
        Err(OpenFault::BadRegister(number)) => Ok(Opened::Bad(Bad::Entry(number))),
        Err(OpenFault::Memory) => Err(InputFault::Memory),
    }
}
