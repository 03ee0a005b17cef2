//! What a withdrawal comes to, and why one is refused.

use house_base::{Memory, Name, Reason};
use std::alloc::AllocError;

/// Who moves up when an applicant withdraws.
#[derive(Clone, Copy, Debug, PartialEq, Eq)]
pub enum Moved {
    /// The applicant of this name.
    Up(Name),
    Nobody,
}

/// Why nobody withdraws.
#[derive(Clone, Copy, Debug, PartialEq, Eq)]
pub enum BoardFault {
    /// No applicant has the name.
    Unknown,
    /// The applicant has withdrawn.
    Gone,
}

/// Why a line of a file of withdrawals is not taken.
#[derive(Clone, Copy, Debug, PartialEq, Eq)]
pub(crate) enum LineFault {
    Bad(Reason),
    /// No memory was left.
    Memory,
}

impl From<Memory> for LineFault {
    ghost use Rattle.std.specs.Prelude.{◌≡◌};
    ghost use Rattle.reserve_list.specs.declared.fault.LineFault.TheVariants as fault;

    ghost from_gives = { λ _ result. result ≡ fault.Memory };

    fn from(_: Memory) -> Self {
        LineFault::Memory
    }
}

/// Why a file of withdrawals is not taken.
#[derive(Clone, Copy, Debug, PartialEq, Eq)]
pub enum LeaveFault {
    /// The line of this number, counted from 1, is the first that is refused.
    BadLine(u64, Reason),
    /// No memory was left.
    Memory,
}

impl From<Memory> for LeaveFault {
    ghost use Rattle.std.specs.Prelude.{◌≡◌};
    ghost use Rattle.reserve_list.specs.declared.fault.LeaveFault.TheVariants as fault;

    ghost from_gives = { λ _ result. result ≡ fault.Memory };

    fn from(_: Memory) -> Self {
        LeaveFault::Memory
    }
}

impl From<AllocError> for LeaveFault {
    ghost use Rattle.std.specs.Prelude.{◌≡◌};
    ghost use Rattle.reserve_list.specs.declared.fault.LeaveFault.TheVariants as fault;

    ghost from_gives = { λ _ result. result ≡ fault.Memory };

    fn from(_: AllocError) -> Self {
        LeaveFault::Memory
    }
}
