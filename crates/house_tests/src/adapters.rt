//! Readers and writers of the standard library as a source and a sink.

use crate::case::texts;
use crate::inputs::FOUR_APPLICANTS;
use house_io::{InputSource, MapShelf, OutputSink, Sink, Source};
use house_top::{Status, house};
use std::alloc::Global;
use std::io::{self, Read, Write};
use std::test::Fail;

/// A reader that fails.
#[derive(Drop)]
struct Broken;

impl Read for Broken {
    fn read(&mut self, _buf: &mut [u8]) -> io::Result<usize> {
        Err(io::Error::from(io::ErrorKind::Other))
    }
}

/// A writer that collects what it gets, at most so many bytes a call, but for one call, numbered from 1, which fails.
#[derive(Drop)]
struct FailingOnce {
    written: Vec<u8>,
    most: usize,
    calls: u64,
    failing: u64,
}

impl FailingOnce {
    fn new(alloc: Global, most: usize, failing: u64) -> FailingOnce {
        FailingOnce {
            written: Vec::new(alloc),
            most,
            calls: 0,
            failing,
        }
    }
}

impl Write for FailingOnce {
    fn write(&mut self, buf: &[u8]) -> io::Result<usize> {
        self.calls = self.calls.saturating_add(1);
        if self.calls == self.failing {
            return Err(io::Error::from(io::ErrorKind::Interrupted));
        }
        let count = buf.len().min(self.most);
        self.written.extend_from_slice(&buf[..count])?;
        Ok(count)
    }

    fn flush(&mut self) -> io::Result<()> {
        Ok(())
    }
}

fn run<I: Source>(alloc: Global, input: &mut I, writer: &mut FailingOnce) -> Result<Status, Fail> {
    let words = texts(alloc, &["run"])?;
    let mut output = OutputSink::new(writer);
    let mut shelf = MapShelf::new(Vec::new(alloc));
    Ok(house(alloc, &words, input, &mut output, &mut shelf))
}

#[test]
fn tell_a_reader_that_fails(rt: HostRuntime) -> Result<(), Fail> {
    let mut writer = FailingOnce::new(rt.alloc(), 10, 0);
    let status = run(rt.alloc(), &mut InputSource::new(Broken), &mut writer)?;
    assert_eq!(rt; status, Status::ReadFault);
    assert_eq!(rt; writer.calls, 0);
    Ok(())
}

#[test]
fn try_no_failed_write_again(rt: HostRuntime) -> Result<(), Fail> {
    let mut writer = FailingOnce::new(rt.alloc(), 10, 3);
    let status = run(
        rt.alloc(),
        &mut InputSource::new(FOUR_APPLICANTS),
        &mut writer,
    )?;
    assert_eq!(rt; status, Status::WriteFault);
    assert_eq!(rt; writer.calls, 3);
    assert_eq!(rt;
        writer.written.as_slice(),
        b"call 2 2 1\napplicant".as_slice()
    );
    Ok(())
}

#[test]
fn take_a_long_piece(rt: HostRuntime) -> Result<(), Fail> {
    let piece = vec![in rt.alloc(); b'p'; 50_000]?;
    let mut buf = vec![in rt.alloc(); b' '; 50_000]?;
    assert_eq!(rt;
        InputSource::new(piece.as_slice()).take(&mut buf),
        Ok(50_000)
    );
    assert_eq!(rt; buf.as_slice(), piece.as_slice());
    Ok(())
}

#[test]
fn give_a_long_piece(rt: HostRuntime) -> Result<(), Fail> {
    let piece = vec![in rt.alloc(); b'p'; 50_000]?;
    let mut written = Vec::new(rt.alloc());
    assert_eq!(rt; OutputSink::new(&mut written).give(&piece), Ok(50_000));
    assert_eq!(rt; written.as_slice(), piece.as_slice());
    Ok(())
}
