//! A call of the program as a row of a table: what it is given, and how it has to end.

use house_base::Memory;
use house_io::{Files, LoadFault, MapShelf, TextSink, TextSource};
use house_top::{Status, house};
use std::alloc::Global;
use std::process::Abort;
use std::test::Fail;

/// A call of the program, with how it has to end.
#[derive(Clone, Copy)]
pub struct Case<'a> {
    /// What the row shows.
    pub name: &'a str,
    pub words: &'a [&'a str],
    pub input: &'a [u8],
    /// The files on the shelf, each with its name and what it holds.
    pub files: &'a [(&'a str, &'a [u8])],
    /// How many bytes a call takes of the input or gives to the output at most; at least 1.
    pub piece: usize,
    /// Which calls of the input fail, of the output, and of the shelf; each has its own numbers, from 1. The files are
    /// looked up behind the call, so that a call of the shelf which the program does not reach would fail there.
    pub failing_takes: &'a [u64],
    pub failing_gives: &'a [u64],
    pub failing_files: &'a [u64],
    /// How the call has to end, and what has to be given by then.
    pub status: Status,
    pub text: &'a str,
    /// What files have to hold afterwards; nothing is said of a file that is not named.
    pub kept: &'a [(&'a str, &'a [u8])],
    /// Files that have to be absent afterwards.
    pub absent: &'a [&'a str],
}

/// A call with nothing but its words, which passes its input and output whole, and of which no call fails. Tables give
/// what differs from it.
pub const RUN: Case<'static> = Case {
    name: "",
    words: &["run"],
    input: b"",
    files: &[],
    piece: 65_536,
    failing_takes: &[],
    failing_gives: &[],
    failing_files: &[],
    status: Status::Done,
    text: "",
    kept: &[],
    absent: &[],
};

/// How a call ended, and what it left.
#[derive(Drop)]
struct Ended {
    status: Status,
    output: TextSink,
    shelf: MapShelf,
}

/// How many bytes the output of a call may have.
const ROOM: usize = 65_536;

impl Case<'_> {
    /// Makes the call, and compares how it ends with what the row says.
    pub fn check<R: Abort + AllocGlobal>(&self, rt: &R) -> Result<(), Fail> {
        self.check_failing(rt, self.failing_takes, self.failing_gives)
    }

    /// The same, with these takes and these gives in the place of those that fail by the row.
    pub fn check_failing<R: Abort + AllocGlobal>(
        &self,
        rt: &R,
        takes: &[u64],
        gives: &[u64],
    ) -> Result<(), Fail> {
        let ended = self.end(rt.alloc(), takes, gives)?;
        let (name, piece) = (self.name, self.piece);
        assert_eq!(rt;
            ended.status,
            self.status,
            "{name}, pieces of {piece}, failing {takes:?} {gives:?}"
        );
        let text = str::from_utf8(ended.output.given())?;
        assert_eq!(rt;
            text,
            self.text,
            "{name}, pieces of {piece}, failing {takes:?} {gives:?}"
        );
        self.check_files(rt, ended.shelf)
    }

    /// Checks the row in pieces of each of these sizes.
    pub fn check_in_pieces<R: Abort + AllocGlobal>(
        &self,
        rt: &R,
        pieces: &[usize],
    ) -> Result<(), Fail> {
        for piece in pieces {
            Case {
                piece: *piece,
                ..*self
            }
            .check(rt)?;
        }
        Ok(())
    }

    fn end(&self, alloc: Global, takes: &[u64], gives: &[u64]) -> Result<Ended, Fail> {
        let words = texts(alloc, self.words)?;
        let piece = self.piece.max(1);
        let mut input = TextSource::new(self.input.to_vec(alloc)?, piece, takes.to_vec(alloc)?);
        let mut output = TextSink::new(alloc, ROOM, piece, gives.to_vec(alloc)?)?;
        let mut shelf = self.shelf(alloc)?;
        let status = house(alloc, &words, &mut input, &mut output, &mut shelf);
        Ok(Ended {
            status,
            output,
            shelf,
        })
    }

    fn shelf(&self, alloc: Global) -> Result<MapShelf, Memory> {
        let mut shelf = MapShelf::new(self.failing_files.to_vec(alloc)?);
        for &(name, bytes) in self.files {
            put(alloc, &mut shelf, name, bytes)?;
        }
        Ok(shelf)
    }

    fn check_files<R: Abort + AllocGlobal>(&self, rt: &R, mut shelf: MapShelf) -> Result<(), Fail> {
        let row = self.name;
        for (name, bytes) in self.kept {
            let held = shelf.load(rt.alloc(), name, bytes.len())?;
            assert_eq!(rt; held.as_slice(), *bytes, "{row}, at the file {name}");
        }
        for name in self.absent {
            let missing = shelf.load(rt.alloc(), name, usize::MAX) == Err(LoadFault::Failed);
            assert!(rt; missing, "{row}, at the file {name}");
        }
        Ok(())
    }
}

/// Puts a file on a shelf.
fn put(alloc: Global, shelf: &mut MapShelf, name: &str, bytes: &[u8]) -> Result<(), Memory> {
    let copy = bytes.to_vec(alloc)?;
    shelf.put(alloc, name, copy)
}

/// These words, as a program gets them.
pub fn texts(alloc: Global, words: &[&str]) -> Result<Vec<String>, Fail> {
    let mut texts = Vec::new(alloc);
    for word in words {
        texts.push(String::from_str(alloc, *word)?)?;
    }
    Ok(texts)
}
