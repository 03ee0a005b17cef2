//! What files in memory hold, by their names.

ghost use Rattle.std.specs.Prelude.{◌≡◌, ◌↔◌, ◌≤◌, None, Some, IfOk, OnOk, OnErr, IsErrOf, vec_len};
ghost use Rattle.std.specs.Option.{option_copied};
ghost use Rattle.std.specs.FinMap as map;
ghost use Rattle.house_io.specs.Files.{IsLonger};

use crate::LoadFault;
use house_base::Memory;
use std::alloc::Global;
use std::collections::BTreeMap;
use std::marker::Model;

/// What each file holds.
#[derive(Drop)]
pub(crate) struct FileMap {
    files: BTreeMap<String, Vec<u8>>,
}

impl Model for FileMap {
    ghost use Rattle.std.specs.Coded.{coded_ℕ, coded_list};
    ghost use Rattle.std.specs.FinMap.{code};
    ghost use Rattle.house_io.specs.Files.{Contents};
    ghost use Rattle.house_io.specs.FileMap.{contents_of};

    ghost Value = { Contents };

    ghost coded = { code (coded_list coded_ℕ) (coded_list coded_ℕ) };

    ghost view = { λ held. contents_of held.files };
}

impl FileMap {
    /// No file.
    pub(crate) fn new(alloc: Global) -> Self
        ensures { result ≡ map.empty }
    {
        FileMap {
            files: BTreeMap::new(alloc),
        }
    }

    /// Makes the bytes the content of a file.
    pub(crate) fn put(&mut self, alloc: Global, name: &str, bytes: Vec<u8>) -> Result<(), Memory>
        ensures stored { OnOk result (self.new ≡ map.insert self.old name.now bytes.items) }
        ensures untouched { OnErr result (self.new ≡ self.old) }
    {
        let name = String::from_str(alloc, name)?;
        self.files.insert(name, bytes)?;
        Ok(())
    }

    /// A copy of a file of at most so many bytes.
    pub(crate) fn copy(&self, alloc: Global, name: &str, most: usize) -> Result<Vec<u8>, LoadFault>
        ensures content { IfOk result (λ bytes. map.get self.now name.now ≡ Some bytes.items) }
        ensures short { IfOk result (λ bytes. vec_len bytes ≤ most) }
        ensures absent { IsErrOf result LoadFault.Failed ↔ (map.get self.now name.now ≡ None) }
        ensures long { IsErrOf result LoadFault.Long → IsLonger self.now name.now most }
    {
        match self.content(name) {
            None => Err(LoadFault::Failed),
            Some(bytes) if bytes.len() > most => Err(LoadFault::Long),
            Some(bytes) => Ok(bytes.to_vec(alloc)?),
        }
    }

    fn content(&self, name: &str) -> Option<&[u8]>
        ensures { option_copied result ≡ map.get self.now name.now }
    {
        let bytes = self.files.get(name)?;
        Some(bytes.as_slice())
    }
}
