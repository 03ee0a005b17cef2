//! A real file as a disk. It tells no content.

ghost use Rattle.std.specs.Prelude.{◌≡◌, ◌≤◌, None, length, IfOk, OnErr, is_ok, if◌then◌else◌};
ghost use Rattle.house_io.specs.Faults.{Rose, next_count};

use crate::Disk;
use house_io::Failed;
use std::fs::{self, OpenFile, OpenOptions};
use std::io::{self, Read, Seek, SeekFrom, Write};
use std::marker::Model;
use std::rt::Files;

/// A file of the folder that the program runs in. It is opened at the first call, made where it is absent, and never
/// emptied; each call that fails counts a fault.
#[derive(Drop)]
pub struct FileDisk<'a, R: Files> {
    rt: &'a R,
    name: &'a str,
    file: Option<R::File>,
    faults: u64,
}

impl<'a, R: Files> Model for FileDisk<'a, R> {
    ghost use Rattle.std.specs.Prelude.{ℕ};

    ghost Value = { ℕ };

    ghost view = { λ disk. disk.faults };
}

impl<'a, R: Files> FileDisk<'a, R> {
    /// The file under a name. Nothing is opened yet.
    pub fn new(rt: &'a R, name: &'a str) -> FileDisk<'a, R>
        ensures { result ≡ 0 }
    {
        FileDisk {
            rt,
            name,
            file: None,
            faults: 0,
        }
    }

    // Counts a fault.
    fn fail(&mut self) -> Failed
        ensures counted { self.new ≡ next_count self.old }
        ensures rose { Rose self.old self.new }
        ensures never_falls { self.old ≤ self.new }
    {
        self.faults = self.faults.saturating_add(1);
        Failed
    }
}

// The file, which the first call opens.
fn opened<'f, R: Files>(
    rt: &R,
    name: &str,
    file: &'f mut Option<R::File>,
) -> io::Result<&'f mut R::File> {
    if file.is_none() {
        *file = Some(open(rt, name)?);
    }
    match file {
        Some(file) => Ok(file),
        None => Err(io::ErrorKind::NotFound.into()),
    }
}

// The folder is synced too, always: whoever made the file may have ended before its name was durable.
fn open<R: Files>(rt: &R, name: &str) -> io::Result<R::File> {
    let file = OpenOptions::new()
        .read(true)
        .write(true)
        .create(true)
        .open(rt, name)?;
    let folder = fs::open(rt, ".")?;
    folder.sync_all()?;
    Ok(file)
}

fn size_of<F: OpenFile>(file: &F) -> io::Result<u64> {
    Ok(file.metadata()?.len())
}

fn read_from<F: Read + Seek>(file: &mut F, at: u64, buf: &mut [u8]) -> io::Result<usize>
    ensures { IfOk result (λ count. count ≤ length buf.old) }
{
    file.seek(SeekFrom::Start(at))?;
    file.read(buf)
}

// Goes on until the whole piece is taken.
fn write_to<F: Write + Seek>(file: &mut F, at: u64, piece: &[u8]) -> io::Result<()> {
    file.seek(SeekFrom::Start(at))?;
    file.write_all(piece)
}

impl<'a, R: Files> Disk for FileDisk<'a, R> {
    ghost content = { λ _. None };

    ghost images = { λ _ _. Unit {0} };

    ghost images_since = { λ _ _ _. Unit {0} };

    ghost moment = { λ _. 0 };

    ghost faults = { λ disk. disk };

    ghost reads_may_stay = { λ disk. tt };

    ghost counts_now = { λ disk t image le now. tt };

    ghost only_now = { λ disk image left. tt };

    fn size(&mut self) -> Result<u64, Failed>
        ensures counted { self.new ≡ (if is_ok result then self.old else next_count self.old) }
        ensures failed { OnErr result (Rose self.old self.new) }
        ensures never_falls { self.old ≤ self.new }
    {
        let answer = match opened(self.rt, self.name, &mut self.file) {
            Ok(file) => size_of(file),
            Err(error) => Err(error),
        };
        match answer {
            Ok(size) => Ok(size),
            Err(_) => Err(self.fail()),
        }
    }

    fn read(&mut self, at: u64, buf: &mut [u8]) -> Result<usize, Failed>
        ensures within { IfOk result (λ count. count ≤ length buf.old) }
        ensures counted { self.new ≡ (if is_ok result then self.old else next_count self.old) }
        ensures failed { OnErr result (Rose self.old self.new) }
        ensures never_falls { self.old ≤ self.new }
    {
        let answer = match opened(self.rt, self.name, &mut self.file) {
            Ok(file) => read_from(file, at, buf),
            Err(error) => Err(error),
        };
        match answer {
            Ok(count) => Ok(count),
            Err(_) => Err(self.fail()),
        }
    }

    fn write_at(&mut self, at: u64, piece: &[u8]) -> Result<(), Failed>
        ensures counted { self.new ≡ (if is_ok result then self.old else next_count self.old) }
        ensures failed { OnErr result (Rose self.old self.new) }
        ensures never_falls { self.old ≤ self.new }
    {
        let answer = match opened(self.rt, self.name, &mut self.file) {
            Ok(file) => write_to(file, at, piece),
            Err(error) => Err(error),
        };
        match answer {
            Ok(()) => Ok(()),
            Err(_) => Err(self.fail()),
        }
    }

    // The length of the file is made durable with its bytes.
    fn sync(&mut self) -> Result<(), Failed>
        ensures counted { self.new ≡ (if is_ok result then self.old else next_count self.old) }
        ensures failed { OnErr result (Rose self.old self.new) }
        ensures never_falls { self.old ≤ self.new }
    {
        let answer = match opened(self.rt, self.name, &mut self.file) {
            Ok(file) => file.sync_data(),
            Err(error) => Err(error),
        };
        match answer {
            Ok(()) => Ok(()),
            Err(_) => Err(self.fail()),
        }
    }
}
