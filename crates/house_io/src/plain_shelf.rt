//! Files in memory that never fail.

ghost use Rattle.std.specs.Prelude.{◌≡◌, ℕ, List, ◌≤◌, Some, IfOk, OnOk, OnErr, IsErrOf, IsSome, vec_len};
ghost use Rattle.std.specs.FinMap as map;
ghost use Rattle.house_io.specs.Files.{IsLonger};

use crate::file_map::FileMap;
use crate::{Files, LoadFault};
use house_base::Memory;
use std::alloc::Global;
use std::marker::Model;

/// Files in memory, seen as what each holds. Just the names of files that are held may be asked for, so no load
/// fails. Nothing is stored.
#[derive(Drop)]
pub struct PlainShelf {
    files: FileMap,
}

impl Model for PlainShelf {
    ghost use Rattle.std.specs.Coded.{coded_ℕ, coded_list};
    ghost use Rattle.std.specs.FinMap.{code};
    ghost use Rattle.house_io.specs.Files.{Contents};

    ghost Value = { Contents };

    ghost coded = { code (coded_list coded_ℕ) (coded_list coded_ℕ) };

    ghost view = { λ shelf. shelf.files };
}

impl PlainShelf {
    /// No file.
    pub fn new(alloc: Global) -> Self
        ensures { result ≡ map.empty }
    {
        PlainShelf {
            files: FileMap::new(alloc),
        }
    }

    /// Makes the bytes the content of a file.
    pub fn put(&mut self, alloc: Global, name: &str, bytes: Vec<u8>) -> Result<(), Memory>
        ensures stored { OnOk result (self.new ≡ map.insert self.old name.now bytes.items) }
        ensures held { OnOk result (IsSome (map.get self.new name.now)) }
        ensures others { OnOk result ((other : List ℕ) →
            IsSome (map.get self.old other) → IsSome (map.get self.new other)) }
        ensures untouched { OnErr result (self.new ≡ self.old) }
    {
        self.files.put(alloc, name, bytes)
    }
}

impl Files for PlainShelf {
    ghost contents = { λ files. Some files };

    ghost ready = { λ files name. IsSome (map.get files name) };

    ghost faults = { λ _. 0 };

    fn load(&mut self, alloc: Global, name: &str, most: usize) -> Result<Vec<u8>, LoadFault>
        requires { IsSome (map.get self.old name.now) }
        ensures unchanged { self.new ≡ self.old }
        ensures content { IfOk result (λ bytes. map.get self.old name.now ≡ Some bytes.items) }
        ensures short { IfOk result (λ bytes. vec_len bytes ≤ most) }
        ensures long { IsErrOf result LoadFault.Long → IsLonger self.old name.now most }
        ensures never_fails { ¬ IsErrOf result LoadFault.Failed }
    {
        self.files.copy(alloc, name, most)
    }
}

#[cfg(test)]
mod tests {
    use super::*;
    use std::test::Fail;

    #[test]
    fn loads_what_was_put(rt: HostRuntime) -> Result<(), Fail> {
        let alloc = rt.alloc();
        let mut shelf = PlainShelf::new(alloc);
        shelf.put(alloc, "call", b"reviews".to_vec(alloc)?)?;
        shelf.put(alloc, "call", b"seats".to_vec(alloc)?)?;
        assert_eq!(rt;
            shelf.load(alloc, "call", 5)?.as_slice(),
            b"seats".as_slice()
        );
        assert_eq!(rt; shelf.load(alloc, "call", 4), Err(LoadFault::Long));
        Ok(())
    }
}
