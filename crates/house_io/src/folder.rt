//! The files of the current folder. As a shelf they tell no content.

ghost use Rattle.std.specs.Prelude.{◌≡◌, ◌≤◌, ◌||◌, None, IfOk, OnErr, IsErrOf, is_ok, vec_len, if◌then◌else◌};
ghost use Rattle.house_io.specs.Files.{lacks_memory};
ghost use Rattle.house_io.specs.Faults.{Rose, next_count};

use crate::faults::next_count;
use crate::{Failed, Files, LoadFault, Shelf};
use std::alloc::Global;
use std::io::Read;
use std::marker::Model;
use std::{fs, io, rt};

/// Files by their names relative to the current folder, each of which may be asked for. It tries no call again, and
/// counts each that fails but for want of memory, and each load of a file that is too long.
#[derive(Drop)]
pub struct FolderShelf<'a, R> {
    rt: &'a R,
    faults: u64,
}

impl<'a, R> Model for FolderShelf<'a, R> {
    ghost use Rattle.std.specs.Prelude.{ℕ};

    ghost Value = { ℕ };

    ghost view = { λ shelf. shelf.faults };
}

impl<'a, R: rt::Files> FolderShelf<'a, R> {
    pub fn new(rt: &'a R) -> Self
        ensures { result ≡ 0 }
    {
        FolderShelf { rt, faults: 0 }
    }
}

impl<R: rt::Files> Files for FolderShelf<'_, R> {
    ghost contents = { λ _. None };

    ghost ready = { λ _ _. Unit {0} };

    ghost faults = { λ faults. faults };

    fn load(&mut self, alloc: Global, name: &str, most: usize) -> Result<Vec<u8>, LoadFault>
        ensures short { IfOk result (λ bytes. vec_len bytes ≤ most) }
        ensures counted { self.new ≡ (if is_ok result || lacks_memory result then self.old else next_count self.old) }
        ensures failed { IsErrOf result LoadFault.Failed → Rose self.old self.new }
        ensures long { IsErrOf result LoadFault.Long → Rose self.old self.new }
        ensures never_falls { self.old ≤ self.new }
    {
        let fault = match read_one_more(alloc, self.rt, name, most) {
            Ok(bytes) if bytes.len() <= most => return Ok(bytes),
            Ok(_) => LoadFault::Long,
            Err(error) if lacks_memory(&error) => return Err(LoadFault::Memory),
            Err(_) => LoadFault::Failed,
        };
        self.faults = next_count(self.faults);
        Err(fault)
    }
}

impl<R: rt::Files> Shelf for FolderShelf<'_, R> {
    fn store(&mut self, name: &str, bytes: &[u8]) -> Result<(), Failed>
        ensures counted { self.new ≡ (if is_ok result then self.old else next_count self.old) }
        ensures failed { OnErr result (Rose self.old self.new) }
        ensures never_falls { self.old ≤ self.new }
    {
        match fs::write(self.rt, name, bytes) {
            Ok(()) => Ok(()),
            Err(_) => {
                self.faults = next_count(self.faults);
                Err(Failed)
            }
        }
    }
}

fn lacks_memory(error: &io::Error) -> bool {
    error.kind() == io::ErrorKind::OutOfMemory
}

/// The first bytes of a file: no more than one beyond so many.
fn read_one_more<R: rt::Files>(
    alloc: Global,
    rt: &R,
    name: &str,
    most: usize,
) -> io::Result<Vec<u8>> {
    let mut bytes = Vec::new(alloc);
    let mut file = fs::open(rt, name)?.take((most as u64).saturating_add(1));
    file.read_to_end(&mut bytes)?;
    Ok(bytes)
}

#[cfg(test)]
mod tests {
    use super::*;
    use std::test::Fail;

    #[test]
    fn passes_bytes_on(rt: HostRuntime) -> Result<(), Fail> {
        let alloc = rt.alloc();
        fs::create_dir(&rt, "folder_shelf_test")?;
        let mut shelf = FolderShelf::new(&rt);
        shelf.store("folder_shelf_test/call", b"reviews = 3")?;
        shelf.store("folder_shelf_test/call", b"seats")?;
        let loaded = shelf.load(alloc, "folder_shelf_test/call", 5)?;
        assert_eq!(rt; loaded.as_slice(), b"seats".as_slice());
        for (name, most, want) in [
            ("folder_shelf_test/call", 4, LoadFault::Long),
            ("folder_shelf_test/register", 4, LoadFault::Failed),
            ("folder_shelf_test", 4, LoadFault::Failed),
        ] {
            assert_eq!(rt; shelf.load(alloc, name, most), Err(want));
        }
        assert_eq!(rt; shelf.store("folder_shelf_test", b"seats"), Err(Failed));
        fs::remove_dir_all(&rt, "folder_shelf_test")?;
        Ok(())
    }
}
