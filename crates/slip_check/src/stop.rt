//! Why a line of a slip is not taken.

ghost use Rattle.std.specs.Prelude.{◌≡◌};

use std::alloc::{AllocError, AllocFailed};

/// Why a line of a slip is not taken.
#[derive(Clone, Copy, Debug, PartialEq, Eq)]
pub enum Stop {
    /// It is off the form.
    Off,
    /// No memory was left.
    Memory,
}

impl From<AllocError> for Stop {
    ghost use Rattle.slip_check.specs.declared.stop.Stop.TheVariants as stop;

    ghost from_gives = { λ _ result. result ≡ stop.Memory };

    fn from(_: AllocError) -> Self {
        Stop::Memory
    }
}

impl<T: Drop> From<AllocFailed<T>> for Stop {
    ghost use Rattle.slip_check.specs.declared.stop.Stop.TheVariants as stop;

    ghost from_gives = { λ _ result. result ≡ stop.Memory };

    fn from(_: AllocFailed<T>) -> Self {
        Stop::Memory
    }
}
