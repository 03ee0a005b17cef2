//! Why a journal was not started, and why a line was not put into it.

ghost use Rattle.std.specs.Prelude.{◌≡◌};

use disk_io::Disk;
use house_base::Memory as NoMemory;
use house_io::Failed as DiskFailed;
use std::alloc::AllocError;
use std::error::Error;
use std::fmt;

/// Why a line was not put.
#[derive(Clone, Copy, Debug, PartialEq, Eq)]
pub enum PutFault {
    /// An earlier put has failed, and the journal is to be started again.
    Broken,
    /// The line has more than 4,096 bytes.
    Long,
    /// The journal has as many lines, or as many bytes in them, as a command file may have.
    Full,
    /// No memory was left.
    Memory,
    /// The disk failed. Whether it has the line shows once the journal is started again.
    Failed,
}

impl fmt::Display for PutFault {
    fn fmt<W: fmt::Write>(&self, f: &mut fmt::Formatter<W>) -> fmt::Result {
        f.write_str(match self {
            PutFault::Broken => "the journal is to be started again",
            PutFault::Long => "the line is too long",
            PutFault::Full => "the journal is full",
            PutFault::Memory => "no memory is left",
            PutFault::Failed => "the disk failed",
        })
    }
}

impl Error for PutFault {}

impl From<NoMemory> for PutFault {
    ghost use Rattle.intake_log.specs.declared.fault.PutFault.TheVariants as fault;

    ghost from_gives = { λ _ result. result ≡ fault.Memory };

    fn from(_: NoMemory) -> Self {
        PutFault::Memory
    }
}

/// Why a journal was not started.
#[derive(Clone, Copy, Debug, PartialEq, Eq)]
pub enum StartFault {
    /// The disk failed.
    Failed,
    /// The gate at this place, from 0, is missing, or is open with no record behind it.
    BadJournal(u64),
    /// There are more lines, or more bytes in them, than a command file may have.
    Full,
    /// No memory was left.
    Memory,
}

impl fmt::Display for StartFault {
    fn fmt<W: fmt::Write>(&self, f: &mut fmt::Formatter<W>) -> fmt::Result {
        match self {
            StartFault::Failed => f.write_str("the disk failed"),
            StartFault::BadJournal(place) => write!(f, "the journal is damaged at byte {place}"),
            StartFault::Full => f.write_str("the journal is longer than it may be"),
            StartFault::Memory => f.write_str("no memory is left"),
        }
    }
}

impl Error for StartFault {}

impl From<DiskFailed> for StartFault {
    ghost use Rattle.intake_log.specs.declared.fault.StartFault.TheVariants as fault;

    ghost from_gives = { λ _ result. result ≡ fault.Failed };

    fn from(_: DiskFailed) -> Self {
        StartFault::Failed
    }
}

impl From<NoMemory> for StartFault {
    ghost use Rattle.intake_log.specs.declared.fault.StartFault.TheVariants as fault;

    ghost from_gives = { λ _ result. result ≡ fault.Memory };

    fn from(_: NoMemory) -> Self {
        StartFault::Memory
    }
}

impl From<AllocError> for StartFault {
    ghost use Rattle.intake_log.specs.declared.fault.StartFault.TheVariants as fault;

    ghost from_gives = { λ _ result. result ≡ fault.Memory };

    fn from(_: AllocError) -> Self {
        StartFault::Memory
    }
}

/// A journal that was not started: its disk, and why.
#[derive(Drop)]
pub struct Stopped<D: Disk> {
    pub disk: D,
    pub cause: StartFault,
}
