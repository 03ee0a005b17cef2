//! The program `house`: runs a call on standard input and the files that its words name, and writes its report to
//! standard output. It prints nothing of its own.
#![tactic(auto)]

use house_io::{FolderShelf, InputSource, OutputSink};
use house_top::{Status, house};
use std::process::ExitCode;
use std::rt::{Env, Files};
use std::{env, io};

fn main(rt: HostRuntime) -> ExitCode {
    let status = match words(&rt) {
        Ok(words) => call(&rt, &words),
        Err(status) => status,
    };
    ExitCode::from(status.exit())
}

/// The program's arguments without its own name. Where they cannot be read, they are of no form.
fn words<R: Env + AllocGlobal>(rt: &R) -> Result<Vec<String>, Status> {
    let args = match env::args(rt) {
        Ok(args) => args,
        Err(error) if error.kind() == io::ErrorKind::OutOfMemory => return Err(Status::Memory),
        Err(_) => return Err(Status::Usage),
    };
    args.skip(1).collect(rt.alloc()).map_err(|_| Status::Memory)
}

/// Runs the program on its standard input and output, and on the files of the current folder.
fn call<R: Input + Print + Files + AllocGlobal>(rt: &R, words: &Vec<String>) -> Status {
    let mut input = InputSource::new(rt.reader());
    let mut output = OutputSink::new(io::writer(rt));
    let mut shelf = FolderShelf::new(rt);
    house(rt.alloc(), words, &mut input, &mut output, &mut shelf)
}
