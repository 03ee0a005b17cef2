//! Disks in memory, call by call.

use super::*;
use house_io::Failed;
use std::fs;
use std::test::Fail;

#[test]
fn a_disk_in_memory_reads_back_what_went_well(rt: HostRuntime) -> Result<(), Fail> {
    let alloc = rt.alloc();
    let mut disk = MemoryDisk::new(b"peers".to_vec(alloc)?, [2, 7].to_vec(alloc)?);
    let mut buf = [0; 8];
    disk.write_at(4, b"sons")?;
    assert_eq!(rt; disk.write_at(0, b"torn"), Err(Failed));
    disk.write_at(8, b"")?;
    disk.write_at(1, b"EE")?;
    assert_eq!(rt; disk.size()?, 8);
    assert_eq!(rt; disk.read(1, &mut buf[..6])?, 6);
    assert_eq!(rt; disk.sync(), Err(Failed));
    assert_eq!(rt; disk.read(6, &mut buf[6..])?, 2);
    assert_eq!(rt; buf.as_slice(), b"EErsonns".as_slice());
    assert_eq!(rt; disk.read(8, &mut buf)?, 0);
    assert_eq!(rt; disk.read(9, &mut buf)?, 0);
    disk.sync()?;
    Ok(())
}

#[test]
fn a_real_file_is_made_and_written_in_place(rt: HostRuntime) -> Result<(), Fail> {
    let name = "disk_io_test";
    let mut disk = FileDisk::new(&rt, name);
    assert_eq!(rt; disk.size()?, 0);
    disk.write_at(0, b"peers")?;
    disk.write_at(4, b"sons")?;
    disk.sync()?;
    let mut again = FileDisk::new(&rt, name);
    let mut buf = [0; 8];
    assert_eq!(rt; again.size()?, 8);
    let count = again.read(1, &mut buf)?;
    assert_eq!(rt; &buf[..count], b"eersons".as_slice());
    assert_eq!(rt; again.read(8, &mut buf)?, 0);
    fs::remove_file(&rt, name)?;
    let mut folder = FileDisk::new(&rt, ".");
    assert_eq!(rt; folder.size(), Err(Failed));
    Ok(())
}
