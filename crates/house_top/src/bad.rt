//! Why a file is refused.

use call_file::Key;
use house_base::Reason;

/// Why a file is refused.
#[derive(Clone, Copy, Debug, PartialEq, Eq)]
pub enum Bad {
    /// The call file is no TOML document.
    Toml,
    /// What stands under a key of the call file, or is missing there, is not as it has to be.
    Key(Key),
    /// The record of the register with this number, counted from 1, is not of its form.
    Entry(u64),
    /// The line of a slip with this number, counted from 1, is off the form, or the first that is missing.
    Slip(u64),
    /// The row of an audit with this number, counted from 1, is off the form, or the first that is missing.
    Row(u64),
    /// Of the desk files that the words name, the one with this number at the line with that one, both counted from 1:
    /// the line is off the form, or its key does not come behind the key before it.
    Desk(u64, u64),
    /// The line of a file of withdrawals with this number, counted from 1, is the first that is refused, for this reason.
    Leave(u64, Reason),
}
