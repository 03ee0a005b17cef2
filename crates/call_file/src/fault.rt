//! Why a call file and a register give no opening lines.

ghost use Rattle.std.specs.Prelude.{◌≡◌};
ghost use Rattle.call_file.specs.declared.fault.OpenFault.TheVariants.{BadKey, Memory as no_memory};

use crate::Key;
use house_base::Memory;
use std::alloc::AllocError;

/// Why there are no opening lines.
#[derive(Clone, Copy, Debug, PartialEq, Eq)]
pub enum OpenFault {
    /// The call file is no TOML document.
    BadToml,
    /// What stands under a key of the call file, or is missing there, is not as it has to be.
    BadKey(Key),
    /// The record of the register with this number, from 1, is not of its form.
    BadRegister(u64),
    Memory,
}

impl From<Key> for OpenFault {
    ghost from_gives = { λ key fault. fault ≡ BadKey key };

    fn from(key: Key) -> Self {
        OpenFault::BadKey(key)
    }
}

impl From<Memory> for OpenFault {
    ghost from_gives = { λ _ fault. fault ≡ no_memory };

    fn from(_: Memory) -> Self {
        OpenFault::Memory
    }
}

impl From<AllocError> for OpenFault {
    ghost from_gives = { λ _ fault. fault ≡ no_memory };

    fn from(_: AllocError) -> Self {
        OpenFault::Memory
    }
}
