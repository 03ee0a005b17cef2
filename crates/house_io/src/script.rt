//! Calls that go by a script.

ghost use Rattle.std.specs.Prelude.{◌≡◌, ◌↔◌, ◌≤◌, OnOk, OnErr, IsErr, min};
ghost use Rattle.house_io.specs.Faults.{Rose};
ghost use Rattle.house_io.specs.Script.{FailsNext, script_of, script_after, script_after_fault};

use crate::Failed;
use crate::faults::next_count;
use std::marker::Model;

/// How many bytes a call passes at most, and which calls, numbered from 1, fail.
#[derive(Drop)]
pub(crate) struct Script {
    piece: usize,
    fails: Vec<u64>,
    calls: u64,
    faults: u64,
}

impl Model for Script {
    ghost use Rattle.std.specs.Prelude.{◌≤◌};
    ghost use Rattle.house_io.specs.Script.{Script};

    ghost Value = { Script };

    ghost view = { λ s. record { piece = s.piece; fails = s.fails.items; calls = s.calls; faults = s.faults } };

    ghost invariant = { λ s. 1 ≤ s.piece };
}

impl Script {
    /// No call yet.
    pub(crate) fn new(piece: usize, fails: Vec<u64>) -> Script
        requires { 1 ≤ piece }
        ensures { result ≡ script_of piece fails.items }
    {
        Script {
            piece,
            fails,
            calls: 0,
            faults: 0,
        }
    }

    /// Counts a call. One that the script names fails, and is counted as a fault.
    pub(crate) fn begin(&mut self) -> Result<(), Failed>
        ensures ok { OnOk result (self.new ≡ script_after self.old) }
        ensures err { OnErr result (self.new ≡ script_after_fault self.old) }
        ensures scripted { IsErr result ↔ FailsNext self.old }
        ensures rose { OnErr result (Rose self.old.faults self.new.faults) }
        ensures never_falls { self.old.faults ≤ self.new.faults }
    {
        self.calls = next_count(self.calls);
        if self.fails.contains(&self.calls) {
            self.faults = next_count(self.faults);
            return Err(Failed);
        }
        Ok(())
    }

    /// How many of so many bytes a call passes.
    pub(crate) fn passing(&self, len: usize) -> usize
        ensures value { result ≡ min len self.now.piece }
        ensures some { 1 ≤ len → 1 ≤ result }
    {
        len.min(self.piece)
    }
}
