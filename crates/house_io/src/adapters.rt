//! A source and a sink over the standard library's readers and writers. As a source and a sink they tell no
//! content; their own clauses follow the bytes of a reader or a writer over memory, which are known.

ghost use Rattle.std.specs.Prelude.{◌≡◌, ◌<◌, ◌≤◌, [], length, None, IfOk, is_ok, if◌then◌else◌};
ghost use Rattle.std.specs.Io.KnownBytes.{ReadConsumes, WriteAppends};
ghost use Rattle.house_io.specs.Faults.{next_count};

use crate::faults::next_count;
use crate::{Failed, Sink, Source};
use std::io::{Read, Write};
use std::marker::Model;

/// Any reader as a source. It tries no read again, and counts each that fails.
#[derive(Drop)]
pub struct InputSource<R> {
    reader: R,
    faults: u64,
}

impl<R> Model for InputSource<R> {
    ghost use Rattle.house_io.specs.Adapted.{Adapted};

    ghost Value = { Adapted R };

    ghost view = { λ source. record { inner = source.reader; faults = source.faults } };
}

impl<R: Read> InputSource<R> {
    pub fn new(reader: R) -> Self
        ensures { result ≡ record { inner = reader; faults = 0 } }
    {
        InputSource { reader, faults: 0 }
    }
}

impl<R: Read> Source for InputSource<R> {
    ghost left = { λ _. None };

    ghost faults = { λ source. source.faults };

    fn take(&mut self, buf: &mut [u8]) -> Result<usize, Failed>
        ensures count { IfOk result (λ count. count ≤ length buf.old) }
        ensures passed_on { ReadConsumes (R.remaining self.old.inner) (R.remaining self.new.inner) result buf.new }
        ensures counted { self.new.faults ≡ (if is_ok result then self.old.faults else next_count self.old.faults) }
        ensures never_falls { self.old.faults ≤ self.new.faults }
    {
        match self.reader.read(buf) {
            Ok(count) => Ok(count),
            Err(_) => {
                self.faults = next_count(self.faults);
                Err(Failed)
            }
        }
    }
}

/// Any writer as a sink. It tries no write again, and counts each that fails, and each that takes nothing of a
/// piece that is not empty.
#[derive(Drop)]
pub struct OutputSink<W> {
    writer: W,
    faults: u64,
}

impl<W> Model for OutputSink<W> {
    ghost use Rattle.house_io.specs.Adapted.{Adapted};

    ghost Value = { Adapted W };

    ghost view = { λ sink. record { inner = sink.writer; faults = sink.faults } };
}

impl<W: Write> OutputSink<W> {
    pub fn new(writer: W) -> Self
        ensures { result ≡ record { inner = writer; faults = 0 } }
    {
        OutputSink { writer, faults: 0 }
    }
}

impl<W: Write> Sink for OutputSink<W> {
    ghost given = { λ _. None };

    ghost faults = { λ sink. sink.faults };

    fn give(&mut self, piece: &[u8]) -> Result<usize, Failed>
        ensures count { IfOk result (λ count. count ≤ length piece.now) }
        ensures progress { 0 < length piece.now → IfOk result (λ count. 0 < count) }
        ensures empty { piece.now ≡ [] → result ≡ Ok 0 }
        ensures passed_on { WriteAppends (W.contents self.old.inner) (W.contents self.new.inner) result piece.now }
        ensures counted { self.new.faults ≡ (if is_ok result then self.old.faults else next_count self.old.faults) }
        ensures never_falls { self.old.faults ≤ self.new.faults }
    {
        if piece.is_empty() {
            return Ok(0);
        }
        match self.writer.write(piece) {
            Ok(count) if count > 0 => Ok(count),
            Ok(_) | Err(_) => {
                self.faults = next_count(self.faults);
                Err(Failed)
            }
        }
    }
}

#[cfg(test)]
mod tests {
    use super::*;
    use std::io;
    use std::test::Fail;

    // Fails at its first read, and then reads one byte at a time.
    #[derive(Drop)]
    struct Interrupted(u8);

    impl Read for Interrupted {
        fn read(&mut self, buf: &mut [u8]) -> io::Result<usize> {
            if self.0 == 0 {
                self.0 = 1;
                return Err(io::ErrorKind::Interrupted.into());
            }
            let Some(first) = buf.first_mut() else {
                return Ok(0);
            };
            *first = b'x';
            Ok(1)
        }
    }

    #[test]
    fn pass_bytes_on(rt: HostRuntime) -> Result<(), Fail> {
        let alloc = rt.alloc();
        let mut input = InputSource::new(b"peers".as_slice());
        let mut buf = [0; 3];
        let mut written = Vec::new(alloc);
        for want in [3, 2, 0] {
            let count = input.take(&mut buf)?;
            assert_eq!(rt; count, want);
            let mut output = OutputSink::new(&mut written);
            assert_eq!(rt; output.give(&buf[..count])?, want);
        }
        assert_eq!(rt; written.as_slice(), b"peers".as_slice());
        Ok(())
    }

    #[test]
    fn answer_each_failure_once(rt: HostRuntime) {
        let mut input = InputSource::new(Interrupted(0));
        let mut buf = [0; 3];
        assert_eq!(rt; input.take(&mut buf), Err(Failed));
        assert_eq!(rt; input.take(&mut buf), Ok(1));

        let mut room = [0; 4];
        let mut output = OutputSink::new(room.as_mut_slice());
        for want in [Ok(3), Ok(1), Err(Failed)] {
            assert_eq!(rt; output.give(b"pee"), want);
        }
    }
}
