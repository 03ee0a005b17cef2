//! Why an input was not heard.

use house_base::Memory;
use std::alloc::AllocError;

/// Why an input was not heard.
#[derive(Clone, Copy, Debug, PartialEq, Eq)]
pub enum InputFault {
    /// The source failed.
    Failed,
    /// No memory was left.
    Memory,
}

impl From<AllocError> for InputFault {
    ghost use Rattle.std.specs.Prelude.{◌≡◌};
    ghost use Rattle.input_run.specs.declared.fault.InputFault.TheVariants as fault;

    ghost from_gives = { λ _ why. why ≡ fault.Memory };

    fn from(_: AllocError) -> Self {
        InputFault::Memory
    }
}

impl From<Memory> for InputFault {
    ghost use Rattle.std.specs.Prelude.{◌≡◌};
    ghost use Rattle.input_run.specs.declared.fault.InputFault.TheVariants as fault;

    ghost from_gives = { λ _ why. why ≡ fault.Memory };

    fn from(_: Memory) -> Self {
        InputFault::Memory
    }
}
