//! Why a desk file is not read.

use house_base::Memory;

/// Why a desk file is not read.
#[derive(Clone, Copy, Debug, PartialEq, Eq)]
pub enum DeskFault {
    /// The line of this number, counted from 1, is off the form, or its key does not come behind the key before it.
    BadLine(u64),
    /// No memory was left.
    Memory,
}

impl From<Memory> for DeskFault {
    ghost use Rattle.std.specs.Prelude.{◌≡◌};
    ghost use Rattle.desk_merge.specs.declared.fault.DeskFault.TheVariants as fault;

    ghost from_gives = { λ _ result. result ≡ fault.Memory };

    fn from(_: Memory) -> Self {
        DeskFault::Memory
    }
}
