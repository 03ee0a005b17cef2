//! Why a hand-made assignment is not taken.

ghost use Rattle.std.specs.Prelude.{◌≡◌};

use house_base::Memory;

/// Why the pairs of a hand-made assignment are not taken.
#[derive(Clone, Copy, Debug, PartialEq, Eq)]
pub enum GivenFault {
    /// They are no valid assignment.
    Invalid,
    /// No memory was left.
    Memory,
}

impl From<Memory> for GivenFault {
    ghost use Rattle.first_assign.specs.declared.fault.GivenFault.TheVariants as fault;

    ghost from_gives = { λ _ result. result ≡ fault.Memory };

    fn from(_: Memory) -> Self {
        GivenFault::Memory
    }
}
