//! Why a register makes no plan.

ghost use Rattle.std.specs.Prelude.{◌≡◌};

use house_base::Memory;
use std::alloc::AllocError;

/// Why a register makes no plan.
#[derive(Clone, Copy, Debug, PartialEq, Eq)]
pub enum FreezeFault {
    /// Nobody applied.
    Few,
    /// Some person was put into no cluster.
    Unplaced,
    /// No memory was left.
    Memory,
}

impl From<Memory> for FreezeFault {
    ghost use Rattle.cluster_draw.specs.declared.fault.FreezeFault.TheVariants as fault;

    ghost from_gives = { λ _ result. result ≡ fault.Memory };

    fn from(_: Memory) -> Self {
        FreezeFault::Memory
    }
}

impl From<AllocError> for FreezeFault {
    ghost use Rattle.cluster_draw.specs.declared.fault.FreezeFault.TheVariants as fault;

    ghost from_gives = { λ _ result. result ≡ fault.Memory };

    fn from(_: AllocError) -> Self {
        FreezeFault::Memory
    }
}
