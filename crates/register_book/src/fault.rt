//! Why something is not put on record.

ghost use Rattle.std.specs.Prelude.{◌≡◌};

use house_base::Memory;
use std::alloc::{AllocError, AllocFailed};

/// Why something may not be put on record.
#[derive(Clone, Copy, Debug, PartialEq, Eq)]
pub enum BookFault {
    /// It is on record already.
    Known,
    /// It names nobody who is on record.
    Unknown,
    /// There may be no more applicants, or no more of this person.
    TooMany,
    /// No memory was left.
    Memory,
}

impl From<Memory> for BookFault {
    ghost use Rattle.register_book.specs.declared.fault.BookFault.TheVariants as fault;

    ghost from_gives = { λ _ result. result ≡ fault.Memory };

    fn from(_: Memory) -> Self {
        BookFault::Memory
    }
}

impl From<AllocError> for BookFault {
    ghost use Rattle.register_book.specs.declared.fault.BookFault.TheVariants as fault;

    ghost from_gives = { λ _ result. result ≡ fault.Memory };

    fn from(_: AllocError) -> Self {
        BookFault::Memory
    }
}

impl<T: Drop> From<AllocFailed<T>> for BookFault {
    ghost use Rattle.register_book.specs.declared.fault.BookFault.TheVariants as fault;

    ghost from_gives = { λ _ result. result ≡ fault.Memory };

    fn from(_: AllocFailed<T>) -> Self {
        BookFault::Memory
    }
}
