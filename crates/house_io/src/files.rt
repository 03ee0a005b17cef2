//! Files that are loaded and stored whole.

ghost use Rattle.std.specs.Prelude.{◌≡◌, ℕ, ◌≤◌, List, Option, None, Some, is_some, vec_len, IfOk, OnOk, OnErr, IfSome, MatchOption, IsErrOf};
ghost use Rattle.std.specs.FinMap as map;
ghost use Rattle.house_io.specs.Faults.{Rose};
ghost use Rattle.house_io.specs.Files.{Contents, IsLonger, told_with, KeepsOthers, StaysReady};
ghost use Rattle.house_io.specs.declared.files.LoadFault.TheVariants.{Failed as load_failed, Memory as no_memory};

use crate::Failed;
use house_base::Memory;
use std::alloc::{AllocError, Global};
use std::error::Error;
use std::fmt;

/// Why a file was not loaded.
#[derive(Clone, Copy, Debug, PartialEq, Eq)]
pub enum LoadFault {
    /// It is absent, or could not be read. A fault is counted.
    Failed,
    /// It is longer than the caller takes.
    Long,
    /// No memory was left for it.
    Memory,
}

impl fmt::Display for LoadFault {
    fn fmt<W: fmt::Write>(&self, f: &mut fmt::Formatter<W>) -> fmt::Result {
        f.write_str(match self {
            LoadFault::Failed => "the file could not be read",
            LoadFault::Long => "the file is too long",
            LoadFault::Memory => "no memory is left for the file",
        })
    }
}

impl Error for LoadFault {}

impl From<Failed> for LoadFault {
    ghost from_gives = { λ _ fault. fault ≡ load_failed };

    fn from(_: Failed) -> Self {
        LoadFault::Failed
    }
}

impl From<Memory> for LoadFault {
    ghost from_gives = { λ _ fault. fault ≡ no_memory };

    fn from(_: Memory) -> Self {
        LoadFault::Memory
    }
}

impl From<AllocError> for LoadFault {
    ghost from_gives = { λ _ fault. fault ≡ no_memory };

    fn from(_: AllocError) -> Self {
        LoadFault::Memory
    }
}

/// Files that can be loaded by their names.
pub trait Files {
    /// What each file holds, where that is told.
    ghost contents: { Self → Option Contents };

    /// Whether the file of a name may be asked for.
    ghost ready: { Self → List ℕ → Type 0 };

    /// How many faults there were.
    ghost faults: { Self → ℕ };

    /// The content of a file of at most so many bytes.
    fn load(&mut self, alloc: Global, name: &str, most: usize) -> Result<Vec<u8>, LoadFault>
        requires { ready self.old name.now }

        // No load changes a file.
        ensures unchanged { contents self.new ≡ contents self.old }
        ensures ready { StaysReady (ready self.old) (ready self.new) }

        ensures content { IfOk result (λ bytes. IfSome (contents self.old) (λ files. map.get files name.now
            ≡ Some bytes.items)) }
        ensures short { IfOk result (λ bytes. vec_len bytes ≤ most) }

        // The cause of each error. Want of memory has none.
        ensures absent { IfSome (contents self.old) (λ files. map.get files name.now ≡ None
            → IsErrOf result LoadFault.Failed) }
        ensures failed { IsErrOf result LoadFault.Failed → Rose (faults self.old) (faults self.new) }
        ensures long { IsErrOf result LoadFault.Long →
            MatchOption (contents self.old) (Rose (faults self.old) (faults self.new)) (λ files. IsLonger files name.now most) }
        ensures never_falls { faults self.old ≤ faults self.new };
}

/// Files that can be stored too.
pub trait Shelf: Files {
    /// Makes the bytes the content of a file. A call that fails may leave anything under that name.
    fn store(&mut self, name: &str, bytes: &[u8]) -> Result<(), Failed>
        ensures told { is_some (Self.contents self.new) ≡ is_some (Self.contents self.old) }
        ensures ready { StaysReady (Self.ready self.old) (Self.ready self.new) }

        ensures stored { OnOk result (Self.contents self.new ≡ told_with (Self.contents self.old) name.now bytes.now) }
        ensures others { OnErr result (KeepsOthers (Self.contents self.old) (Self.contents self.new) name.now) }

        ensures failed { OnErr result (Rose (Self.faults self.old) (Self.faults self.new)) }
        ensures never_falls { Self.faults self.old ≤ Self.faults self.new };
}
