//! A source and a sink in memory that pass their bytes in pieces and fail by a script.

ghost use Rattle.std.specs.Prelude.{◌≡◌, ◌↔◌, ◌<◌, ◌≤◌, Ok, Some, IfOk, OnErr, IsErr, min, length, take};
ghost use Rattle.std.specs.Io.KnownBytes.{IsAtEnd};
ghost use Rattle.house_io.specs.Collected.{collected_with, nothing_collected, told_bytes};
ghost use Rattle.house_io.specs.Faults.{Rose};
ghost use Rattle.house_io.specs.Script.{FailsNext, script_of, script_after, script_after_fault};
ghost use Rattle.house_io.specs.Sink.{AppendsWhereTold};
ghost use Rattle.house_io.specs.Source.{Takes};

use crate::script::Script;
use crate::{Failed, PlainSink, PlainSource, Sink, Source};
use house_base::Memory;
use std::alloc::Global;
use std::marker::Model;

/// Bytes in memory as a source. The calls of `take` are numbered from 1, and those that the script names fail.
#[derive(Drop)]
pub struct TextSource {
    source: PlainSource,
    script: Script,
}

impl Model for TextSource {
    ghost use Rattle.std.specs.Prelude.{ℕ, List};
    ghost use Rattle.house_io.specs.Script.{Scripted};

    ghost Value = { Scripted (List ℕ) };

    ghost view = { λ source. record { object = source.source; script = source.script } };
}

impl TextSource {
    /// These bytes, of which a call takes at most a piece. The calls of these numbers fail.
    pub fn new(bytes: Vec<u8>, piece: usize, fails: Vec<u64>) -> Self
        requires { 1 ≤ piece }
        ensures { result ≡ record { object = bytes.items; script = script_of piece fails.items } }
    {
        TextSource {
            source: PlainSource::new(bytes),
            script: Script::new(piece, fails),
        }
    }
}

impl Source for TextSource {
    ghost left = { λ source. Some source.object };

    ghost faults = { λ source. source.script.faults };

    fn take(&mut self, buf: &mut [u8]) -> Result<usize, Failed>
        ensures scripted { IsErr result ↔ FailsNext self.old.script }
        ensures called { IfOk result (λ count. self.new.script ≡ script_after self.old.script) }
        ensures count { IfOk result (λ count.
            count ≡ min (length self.old.object) (min (length buf.old) self.old.script.piece)) }
        ensures taken { IfOk result (λ count. Takes count self.old.object (Some self.new.object) buf.new) }
        ensures end { result ≡ Ok 0 → 0 < length buf.old → IsAtEnd (Some self.old.object) }
        ensures untouched { OnErr result (self.new ≡ record self.old { script = script_after_fault self.old.script }) }
        ensures failed { OnErr result (Rose self.old.script.faults self.new.script.faults) }
        ensures never_falls { self.old.script.faults ≤ self.new.script.faults }
    {
        self.script.begin()?;
        let most = self.script.passing(buf.len());
        self.source.take(&mut buf[..most])
    }
}

/// A sink that collects what it is given in a room of a fixed size, whose memory it takes when it is made. It
/// accepts a byte that does not fit and drops it, and from then on tells nothing. The calls of `give` are numbered
/// from 1, and those that the script names fail.
#[derive(Drop)]
pub struct TextSink {
    sink: PlainSink,
    script: Script,
}

impl Model for TextSink {
    ghost use Rattle.house_io.specs.Collected.{Collected};
    ghost use Rattle.house_io.specs.Script.{Scripted};

    ghost Value = { Scripted Collected };

    ghost view = { λ sink. record { object = sink.sink; script = sink.script } };
}

impl TextSink {
    /// A room for so many bytes, of which a call gives at most a piece. The calls of these numbers fail.
    pub fn new(alloc: Global, room: usize, piece: usize, fails: Vec<u64>) -> Result<Self, Memory>
        requires { 1 ≤ piece }
        ensures { IfOk result (λ sink.
            sink ≡ record { object = nothing_collected room; script = script_of piece fails.items }) }
    {
        Ok(TextSink {
            sink: PlainSink::with_room(alloc, room)?,
            script: Script::new(piece, fails),
        })
    }

    /// What was given, as far as it fits the room.
    pub fn given(&self) -> &[u8]
        ensures { result.now ≡ self.now.object.bytes }
    {
        self.sink.given()
    }
}

impl Sink for TextSink {
    ghost given = { λ sink. told_bytes sink.object };

    ghost faults = { λ sink. sink.script.faults };

    fn give(&mut self, piece: &[u8]) -> Result<usize, Failed>
        ensures scripted { IsErr result ↔ FailsNext self.old.script }
        ensures called { IfOk result (λ count. self.new.script ≡ script_after self.old.script) }
        ensures accepted { IfOk result (λ count. count ≡ min (length piece.now) self.old.script.piece) }
        ensures collected { IfOk result (λ count.
            self.new.object ≡ collected_with self.old.object (take count piece.now)) }
        ensures progress { 0 < length piece.now → IfOk result (λ count. 0 < count) }
        ensures appended { IfOk result (λ count.
            AppendsWhereTold (told_bytes self.old.object) (told_bytes self.new.object) (take count piece.now)) }
        ensures untouched { OnErr result (self.new ≡ record self.old { script = script_after_fault self.old.script }) }
        ensures failed { OnErr result (Rose self.old.script.faults self.new.script.faults) }
        ensures never_falls { self.old.script.faults ≤ self.new.script.faults }
    {
        self.script.begin()?;
        let most = self.script.passing(piece.len());
        self.sink.give(&piece[..most])
    }
}

#[cfg(test)]
mod tests {
    use super::*;
    use std::test::Fail;

    #[test]
    fn pass_pieces_but_for_the_scripted_calls(rt: HostRuntime) -> Result<(), Fail> {
        let alloc = rt.alloc();
        let mut source = TextSource::new(b"peers".to_vec(alloc)?, 2, [2].to_vec(alloc)?);
        let mut sink = TextSink::new(alloc, 4, 1, [3].to_vec(alloc)?)?;
        let mut buf = [0; 3];
        for want in [Ok(2), Err(Failed), Ok(2), Ok(1), Ok(0)] {
            let took = source.take(&mut buf);
            assert_eq!(rt; took, want);
        }
        for want in [Ok(1), Ok(1), Err(Failed), Ok(1), Ok(1), Ok(1)] {
            assert_eq!(rt; sink.give(b"peers"), want);
        }
        assert_eq!(rt; sink.given(), b"pppp".as_slice());
        assert_eq!(rt; sink.give(b""), Ok(0));
        Ok(())
    }
}
