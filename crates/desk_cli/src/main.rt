//! The program `desk`: takes the lines of its standard input into the file `journal` of the current folder, or shows the
//! lines of that file. It prints nothing of its own.
#![tactic(auto)]

use house_io::{InputSource, OutputSink};
use intake_desk::{DeskStatus, Desked, FileDisk, desk};
use std::process::ExitCode;
use std::rt::{Env, Files};
use std::{env, fs, io};

/// The name of the file that holds the journal.
const JOURNAL: &str = "journal";

fn main(rt: HostRuntime) -> ExitCode {
    let status = match words(&rt) {
        Ok(words) => call(&rt, &words),
        Err(status) => status,
    };
    ExitCode::from(status.exit())
}

/// The program's arguments without its own name. Where they cannot be read, they are none of the program's words.
fn words<R: Env + AllocGlobal>(rt: &R) -> Result<Vec<String>, DeskStatus> {
    let args = match env::args(rt) {
        Ok(args) => args,
        Err(error) if error.kind() == io::ErrorKind::OutOfMemory => return Err(DeskStatus::Memory),
        Err(_) => return Err(DeskStatus::Usage),
    };
    args.skip(1)
        .collect(rt.alloc())
        .map_err(|_| DeskStatus::Memory)
}

/// Runs the program on its standard input and output, and on the journal of the current folder.
fn call<R: Input + Print + Files + AllocGlobal>(rt: &R, words: &Vec<String>) -> DeskStatus {
    let Ok(_places) = take_closed_places(rt) else {
        return DeskStatus::DiskFault;
    };
    let mut input = InputSource::new(rt.reader());
    let mut output = OutputSink::new(io::writer(rt));
    let disk = FileDisk::new(rt, JOURNAL);
    let Desked { status, disk: _ } = desk(rt.alloc(), words, &mut input, &mut output, disk);
    status
}

/// Puts the folder in the place of standard input, output or error where that is closed. The next file that is opened
/// would get such a place, and the journal would be read as input, or written over by what is told; in the place of the
/// folder a read or a write fails.
fn take_closed_places<R: Files>(rt: &R) -> io::Result<(R::File, R::File, R::File)> {
    Ok((fs::open(rt, ".")?, fs::open(rt, ".")?, fs::open(rt, ".")?))
}
