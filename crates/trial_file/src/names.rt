//! The names of the applicants of a trial.

ghost use Rattle.std.specs.Prelude.{◌≡◌, ◌≤◌, ◌<◌, ◌+◌, IfOk, length};
ghost use Rattle.house_base.specs.declared.limits.TheConstants.{MOST_APPLICANTS};
ghost use Rattle.trial_file.specs.Trial.{trial_name, trial_names};

use house_base::{Memory, Name};
use std::alloc::Global;

/// The names of so many applicants, in the order of their numbers.
pub(crate) fn trial_names(alloc: Global, count: u32) -> Result<Vec<Name>, Memory>
    requires { count ≤ MOST_APPLICANTS }
    ensures { IfOk result (λ names. names.items ≡ trial_names count) }
{
    let mut names = Vec::with_capacity(alloc, count as usize)?;
    for index in 0..count {
        names.push(trial_name(alloc, index + 1)?)?;
    }
    Ok(names)
}

/// The name of the applicant with a number.
fn trial_name(alloc: Global, number: u32) -> Result<Name, Memory>
    requires { number ≤ MOST_APPLICANTS }
    ensures { IfOk result (λ name. name ≡ trial_name number) }
{
    let digits = number.to_string(alloc)?;
    let mut word = b"p".to_vec(alloc)?;
    word.extend_from_slice(digits.as_bytes())?;
    match Name::read(&word) {
        Some(name) => Ok(name),
        None => unreachable!(),
    }
}

/// The name at an index among the names of a trial.
pub(crate) fn name_at(names: &[Name], index: usize) -> Name
    requires are { names.now ≡ trial_names (length names.now) }
    requires within { index < length names.now }
    ensures { result ≡ trial_name (index + 1) }
{
    names[index]
}
