//! How a call of the program ended.

ghost use Rattle.std.specs.Prelude.{◌≡◌};
ghost use Rattle.house_top.specs.Exit.{exit_of};

use crate::bad::Bad;
use house_base::Reason;

/// How a call ended.
#[derive(Clone, Copy, Debug, PartialEq, Eq)]
pub enum Status {
    /// What was asked for is written whole.
    Done,
    /// The words are of no form.
    Usage,
    /// The line of this number, counted from 1, is refused, or the end of the input is.
    Refused(u64, Reason),
    /// No valid assignment exists.
    Short,
    /// The input, or a file, could not be read.
    ReadFault,
    /// The output could not be written.
    WriteFault,
    /// No memory was left.
    Memory,
    /// The input is over the limits on its bytes or on its lines, or a file is longer than its limit.
    TooLong,
    /// A file is refused.
    BadFile(Bad),
    /// The row of an audit with this number, counted from 1, is the first that is not as the lines of the audit have it.
    Differs(u64),
    /// A slip prints a wrong chance; this is the right one.
    Wrong(u64),
}

impl Status {
    /// The exit status of the program.
    pub fn exit(self) -> u8
        ensures { result ≡ exit_of self }
    {
        match self {
            Status::Done => 0,
            Status::Usage => 1,
            Status::Refused(_, _) => 2,
            Status::Short => 3,
            Status::ReadFault => 4,
            Status::WriteFault => 5,
            Status::Memory => 6,
            Status::Differs(_) => 7,
            Status::TooLong => 8,
            Status::BadFile(_) => 9,
            Status::Wrong(_) => 10,
        }
    }
}
