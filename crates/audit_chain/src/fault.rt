//! Why the rows of an audit are not read.

ghost use Rattle.std.specs.Prelude.{◌≡◌};
ghost use Rattle.audit_chain.specs.declared.fault.RowFault.TheVariants.{Memory as no_memory};

use house_base::Memory;

/// Why the rows of an audit are not read.
#[derive(Clone, Copy, Debug, PartialEq, Eq)]
pub enum RowFault {
    /// The row with this number, from 1, is the first that is not of the form.
    BadRow(u64),
    Memory,
}

impl From<Memory> for RowFault {
    ghost from_gives = { λ _ fault. fault ≡ no_memory };

    fn from(_: Memory) -> Self {
        RowFault::Memory
    }
}
