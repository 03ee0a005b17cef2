//! Files in memory that fail by a script.

ghost use Rattle.std.specs.Prelude.{◌≡◌, ◌↔◌, ◌≤◌, ◌⊎◌, None, Some, IsTrue, IfOk, OnOk, OnErr, IsErr, IsErrOf, vec_len, if◌then◌else◌};
ghost use Rattle.std.specs.FinMap as map;
ghost use Rattle.house_io.specs.Files.{IsLonger};
ghost use Rattle.house_io.specs.ScriptedFiles.{no_files, with_file, IsNextCallFailing, after_call, after_failed_call, answers_failed};
ghost use Rattle.house_io.specs.Faults.{next_count};

use crate::faults::next_count;
use crate::file_map::FileMap;
use crate::{Failed, Files, LoadFault, Shelf};
use house_base::Memory;
use std::alloc::Global;
use std::marker::Model;

/// Files in memory, every name of which may be asked for. The calls of `load` and `store` are numbered from 1,
/// and those that the script names fail. Beside them only two calls fail: a load of a name that is absent, and
/// a store that finds no memory.
#[derive(Drop)]
pub struct MapShelf {
    files: FileMap,
    fails: Vec<u64>,
    calls: u64,
    faults: u64,
}

impl Model for MapShelf {
    ghost use Rattle.house_io.specs.ScriptedFiles.{ScriptedFiles, coded_scripted_files};

    ghost Value = { ScriptedFiles };

    ghost coded = { coded_scripted_files };

    ghost view = { λ shelf. record { files = shelf.files; fails = shelf.fails.items; calls = shelf.calls; faults = shelf.faults } };
}

impl MapShelf {
    /// No file. The calls of these numbers fail.
    pub fn new(fails: Vec<u64>) -> Self
        ensures { result ≡ no_files fails.items }
    {
        let alloc = *fails.allocator();
        MapShelf {
            files: FileMap::new(alloc),
            fails,
            calls: 0,
            faults: 0,
        }
    }

    /// Makes the bytes the content of a file. The script does not count it as a call.
    pub fn put(&mut self, alloc: Global, name: &str, bytes: Vec<u8>) -> Result<(), Memory>
        ensures stored { OnOk result (self.new ≡ with_file self.old name.now bytes.items) }
        ensures untouched { OnErr result (self.new ≡ self.old) }
    {
        self.files.put(alloc, name, bytes)
    }

    fn put_copy(&mut self, name: &str, bytes: &[u8]) -> Result<(), Memory>
        ensures stored { OnOk result (self.new ≡ with_file self.old name.now bytes.now) }
        ensures untouched { OnErr result (self.new ≡ self.old) }
    {
        let alloc = *self.fails.allocator();
        let copy = bytes.to_vec(alloc)?;
        self.put(alloc, name, copy)
    }

    // Counts a call. One that the script names fails.
    fn begin_call(&mut self) -> Result<(), Failed>
        ensures ok { OnOk result (self.new ≡ after_call self.old) }
        ensures err { OnErr result (self.new ≡ after_failed_call self.old) }
        ensures scripted { IsErr result ↔ IsNextCallFailing self.old }
        ensures never_falls { self.old.faults ≤ self.new.faults }
    {
        self.calls = next_count(self.calls);
        if self.fails.contains(&self.calls) {
            return Err(self.fail());
        }
        Ok(())
    }

    // Counts a fault.
    fn fail(&mut self) -> Failed
        ensures counted { self.new ≡ record self.old { faults = next_count self.old.faults } }
        ensures never_falls { self.old.faults ≤ self.new.faults }
    {
        self.faults = next_count(self.faults);
        Failed
    }
}

impl Files for MapShelf {
    ghost contents = { λ shelf. Some shelf.files };

    ghost ready = { λ _ _. Unit {0} };

    ghost faults = { λ shelf. shelf.faults };

    fn load(&mut self, alloc: Global, name: &str, most: usize) -> Result<Vec<u8>, LoadFault>
        ensures called { self.new
            ≡ (if answers_failed result then after_failed_call self.old else after_call self.old) }
        ensures content { IfOk result (λ bytes. map.get self.old.files name.now ≡ Some bytes.items) }
        ensures short { IfOk result (λ bytes. vec_len bytes ≤ most) }

        ensures scripted { IsNextCallFailing self.old → IsErrOf result LoadFault.Failed }
        ensures absent { map.get self.old.files name.now ≡ None → IsErrOf result LoadFault.Failed }
        ensures failed { IsErrOf result LoadFault.Failed →
            IsNextCallFailing self.old ⊎ (map.get self.old.files name.now ≡ None) }
        ensures long { IsErrOf result LoadFault.Long → IsLonger self.old.files name.now most }
        ensures never_falls { self.old.faults ≤ self.new.faults }
    {
        self.begin_call()?;
        match self.files.copy(alloc, name, most) {
            Err(LoadFault::Failed) => Err(self.fail().into()),
            loaded => loaded,
        }
    }
}

impl Shelf for MapShelf {
    fn store(&mut self, name: &str, bytes: &[u8]) -> Result<(), Failed>
        ensures stored { OnOk result (self.new ≡ after_call (with_file self.old name.now bytes.now)) }
        ensures untouched { OnErr result (self.new ≡ after_failed_call self.old) }
        ensures scripted { IsNextCallFailing self.old → IsErr result }
        ensures never_falls { self.old.faults ≤ self.new.faults }
    {
        self.begin_call()?;
        if self.put_copy(name, bytes).is_err() {
            return Err(self.fail());
        }
        Ok(())
    }
}

#[cfg(test)]
mod tests {
    use super::*;
    use std::test::Fail;

    #[test]
    fn stores_and_loads_but_for_the_scripted_calls(rt: HostRuntime) -> Result<(), Fail> {
        let alloc = rt.alloc();
        let mut shelf = MapShelf::new([2, 6].to_vec(alloc)?);
        shelf.put(alloc, "call", b"seats".to_vec(alloc)?)?;
        assert_eq!(rt;
            shelf.load(alloc, "call", 5)?.as_slice(),
            b"seats".as_slice()
        );
        assert_eq!(rt;
            shelf.load(alloc, "call", 5),
            Err(LoadFault::Failed),
            "scripted"
        );
        assert_eq!(rt; shelf.load(alloc, "call", 4), Err(LoadFault::Long));
        assert_eq!(rt;
            shelf.load(alloc, "audit", 4),
            Err(LoadFault::Failed),
            "absent"
        );
        shelf.store("audit", b"rows")?;
        assert_eq!(rt; shelf.store("audit", b"none"), Err(Failed), "scripted");
        assert_eq!(rt;
            shelf.load(alloc, "audit", 4)?.as_slice(),
            b"rows".as_slice()
        );
        Ok(())
    }
}
