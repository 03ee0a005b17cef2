//! A source and a sink in memory that never fail.

ghost use Rattle.std.specs.Prelude.{◌≡◌, Ok, Some, IfOk, min, length};
ghost use Rattle.house_io.specs.Collected.{nothing_collected, collected_with, told_bytes};
ghost use Rattle.house_io.specs.Source.{Takes};

use crate::{Failed, Sink, Source};
use house_base::Memory;
use std::alloc::Global;
use std::marker::Model;

/// Bytes in memory as a source, seen as those that are left.
#[derive(Drop)]
pub struct PlainSource {
    bytes: Vec<u8>,
    taken: usize,
}

impl Model for PlainSource {
    ghost use Rattle.std.specs.Prelude.{ℕ, ◌≤◌, List, drop, vec_len};

    ghost Value = { List ℕ };

    ghost view = { λ source. drop source.taken source.bytes.items };

    ghost invariant = { λ source. source.taken ≤ vec_len source.bytes };
}

impl PlainSource {
    pub fn new(bytes: Vec<u8>) -> Self
        ensures { result ≡ bytes.items }
    {
        PlainSource { bytes, taken: 0 }
    }
}

impl Source for PlainSource {
    ghost left = { λ bytes. Some bytes };

    ghost faults = { λ _. 0 };

    fn take(&mut self, buf: &mut [u8]) -> Result<usize, Failed>
        ensures count { result ≡ Ok (min (length self.old) (length buf.old)) }
        ensures taken { IfOk result (λ count. Takes count self.old (Some self.new) buf.new) }
    {
        let rest = &self.bytes[self.taken..];
        let count = rest.len().min(buf.len());
        buf[..count].copy_from_slice(&rest[..count]);
        self.taken += count;
        Ok(count)
    }
}

/// A sink that collects what it is given in a room of a fixed size, whose memory it takes when it is made. It
/// accepts a byte that does not fit and drops it, and from then on tells nothing.
#[derive(Drop)]
pub struct PlainSink {
    bytes: Vec<u8>,
    room: usize,
    is_complete: bool,
}

impl Model for PlainSink {
    ghost use Rattle.std.specs.Prelude.{◌≤◌, vec_len, vec_capacity};
    ghost use Rattle.house_io.specs.Collected.{Collected};

    ghost Value = { Collected };

    ghost view = { λ sink. record { bytes = sink.bytes.items; room = sink.room; is_complete = sink.is_complete } };

    ghost invariant = { λ sink. (vec_len sink.bytes ≤ sink.room) × (sink.room ≤ vec_capacity sink.bytes) };
}

impl PlainSink {
    pub fn with_room(alloc: Global, room: usize) -> Result<Self, Memory>
        ensures { IfOk result (λ sink. sink ≡ nothing_collected room) }
    {
        Ok(PlainSink {
            bytes: Vec::with_capacity(alloc, room)?,
            room,
            is_complete: true,
        })
    }

    /// What was given, as far as it fits the room.
    pub fn given(&self) -> &[u8]
        ensures { result.now ≡ self.now.bytes }
    {
        &self.bytes
    }
}

impl Sink for PlainSink {
    ghost given = { told_bytes };

    ghost faults = { λ _. 0 };

    fn give(&mut self, piece: &[u8]) -> Result<usize, Failed>
        ensures accepted { result ≡ Ok (length piece.now) }
        ensures collected { self.new ≡ collected_with self.old piece.now }
    {
        let fitting = (self.room - self.bytes.len()).min(piece.len());
        self.bytes.extend_from_slice(&piece[..fitting]).unwrap();
        self.is_complete = self.is_complete && fitting == piece.len();
        Ok(piece.len())
    }
}

#[cfg(test)]
mod tests {
    use super::*;
    use std::test::Fail;

    #[test]
    fn passes_pieces_until_the_room_is_full(rt: HostRuntime) -> Result<(), Fail> {
        let alloc = rt.alloc();
        let mut source = PlainSource::new(b"peers".to_vec(alloc)?);
        let mut sink = PlainSink::with_room(alloc, 4)?;
        let mut buf = [0; 3];
        for want in [3, 2, 0] {
            let count = source.take(&mut buf)?;
            assert_eq!(rt; count, want);
            assert_eq!(rt; sink.give(&buf[..count])?, want);
        }
        assert_eq!(rt; sink.given(), b"peer".as_slice());
        Ok(())
    }
}
