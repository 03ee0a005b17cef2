//! How a call of the program ended.

ghost use Rattle.std.specs.Prelude.{◌≡◌};
ghost use Rattle.intake_desk.specs.Exit.{exit_of};

use disk_io::Disk;
use intake_log::StartFault;

/// How a call ended.
#[derive(Clone, Copy, Debug, PartialEq, Eq)]
pub enum DeskStatus {
    /// The input was read to its end and its lines are kept, or all was shown.
    Done,
    /// The words are none of the program's.
    Usage,
    /// The input could not be read.
    ReadFault,
    /// The output could not be written.
    WriteFault,
    /// No memory was left.
    Memory,
    /// The line of this number in the input, counted from 1, is longer than a line of the journal may be.
    Long(u64),
    /// The journal is damaged at this byte, counted from 0.
    BadJournal(u64),
    /// The disk failed.
    DiskFault,
    /// The journal is full, or longer than it may be.
    Full,
}

impl DeskStatus {
    /// The exit status of the program.
    pub fn exit(self) -> u8
        ensures { result ≡ exit_of self }
    {
        match self {
            DeskStatus::Done => 0,
            DeskStatus::Usage => 1,
            DeskStatus::ReadFault => 4,
            DeskStatus::WriteFault => 5,
            DeskStatus::Memory => 6,
            DeskStatus::Long(_) => 8,
            DeskStatus::BadJournal(_) => 9,
            DeskStatus::DiskFault => 10,
            DeskStatus::Full => 11,
        }
    }
}

/// How a call ended, and the disk that it was given.
#[derive(Drop)]
pub struct Desked<D: Disk> {
    pub status: DeskStatus,
    pub disk: D,
}
