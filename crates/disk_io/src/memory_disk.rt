//! A disk in memory that fails by a script.

ghost use Rattle.std.specs.Prelude.{true, false, ◌≡◌, ◌↔◌, ◌≤◌, ◌<◌, ◌-◌, ◌^◌, ◌⊎◌, Some, IfOk, OnOk, OnErr, IsErr, IsTrue, length, take, drop, get_or, min, if◌then◌else◌};
ghost use Rattle.house_io.specs.Faults.{Rose, next_count};
ghost use Rattle.disk_io.specs.Laws.{seen-is-image, now-counts, now-only};
ghost use Rattle.disk_io.specs.Images.{with_synced};
ghost use Rattle.disk_io.specs.Replay.{FailsNext, IsImageNow, IsImageSince, IsReplayed, AreWithin, after_call, after_failed_call, after_refused_call, nothing_recorded, replayed, seen_now, with_step};
ghost use Rattle.disk_io.specs.declared.step.Step.TheVariants.{Write, Sync};

use crate::Disk;
use crate::step::{Piece, Step, byte_after};
use house_base::Memory;
use house_io::Failed;
use std::marker::Model;

/// A file in memory that records its writes and syncs, so that what a crash may leave is known for each moment. Its
/// calls are numbered from 1, and those that the script names fail. Beside them only a write or a sync fails that
/// finds no memory for its record: it has not begun, and tears nothing.
#[derive(Drop)]
pub struct MemoryDisk {
    first: Vec<u8>,
    steps: Vec<Step>,
    size: u64,
    fails: Vec<u64>,
    calls: u64,
    faults: u64,
    refused: u64,
}

impl Model for MemoryDisk {
    ghost use Rattle.disk_io.specs.Replay.{IsReplayed, Recorded};

    ghost Value = { Recorded };

    ghost view = { λ d. record { first = d.first.items; steps = d.steps.items; fails = d.fails.items; calls = d.calls; faults = d.faults; refused = d.refused } };

    ghost invariant = { λ d. IsReplayed d.first.items d.steps.items d.size };
}

impl MemoryDisk {
    /// These bytes, which are synced. The calls of these numbers fail.
    pub fn new(bytes: Vec<u8>, fails: Vec<u64>) -> MemoryDisk
        ensures { result ≡ nothing_recorded bytes.items fails.items }
    {
        let alloc = *fails.allocator();
        MemoryDisk {
            size: bytes.len() as u64,
            first: bytes,
            steps: Vec::new(alloc),
            fails,
            calls: 0,
            faults: 0,
            refused: 0,
        }
    }

    // Counts a call, and answers whether the script lets it fail.
    fn count_call(&mut self) -> bool
        ensures counted { self.new ≡ after_call self.old }
        ensures scripted { IsTrue result ↔ FailsNext self.old }
    {
        self.calls = self.calls.saturating_add(1);
        self.fails.contains(&self.calls)
    }

    // Counts a fault.
    fn fail(&mut self) -> Failed
        ensures counted { self.new ≡ record self.old { faults = next_count self.old.faults } }
        ensures rose { Rose self.old.faults self.new.faults }
        ensures never_falls { self.old.faults ≤ self.new.faults }
    {
        self.faults = self.faults.saturating_add(1);
        Failed
    }

    // Counts a fault and a call that found no memory.
    fn refuse(&mut self) -> Failed
        ensures counted { self.new
            ≡ record self.old { faults = next_count self.old.faults; refused = next_count self.old.refused } }
        ensures rose { Rose self.old.faults self.new.faults }
        ensures never_falls { self.old.faults ≤ self.new.faults }
    {
        self.refused = self.refused.saturating_add(1);
        self.fail()
    }

    // Fails where the script says so.
    fn answer(&mut self, fails: bool) -> Result<(), Failed>
        ensures failing { IsErr result ↔ IsTrue fails }
        ensures ok { OnOk result (self.new ≡ self.old) }
        ensures err { OnErr result (self.new ≡ record self.old { faults = next_count self.old.faults }) }
        ensures rose { OnErr result (Rose self.old.faults self.new.faults) }
        ensures never_falls { self.old.faults ≤ self.new.faults }
    {
        if fails {
            return Err(self.fail());
        }
        Ok(())
    }

    // Counts a call, and a fault where the script lets it fail.
    fn begin_call(&mut self) -> Result<(), Failed>
        ensures ok { OnOk result (self.new ≡ after_call self.old) }
        ensures err { OnErr result (self.new ≡ after_failed_call self.old) }
        ensures scripted { IsErr result ↔ FailsNext self.old }
        ensures rose { OnErr result (Rose self.old.faults self.new.faults) }
        ensures never_falls { self.old.faults ≤ self.new.faults }
    {
        let fails = self.count_call();
        self.answer(fails)
    }

    // Records a write. One whose end no number can say has no room in memory either.
    fn keep_write(&mut self, at: u64, piece: &[u8], is_done: bool) -> Result<(), Memory>
        requires { at ≤ length (seen_now self.old) }
        ensures kept { OnOk result (self.new ≡ with_step self.old (Write at piece.now is_done)) }
        ensures untouched { OnErr result (self.new ≡ self.old) }
    {
        let Some(end) = at.checked_add(piece.len() as u64) else {
            return Err(Memory);
        };
        let alloc = *self.fails.allocator();
        let piece = Piece::new(piece.to_vec(alloc)?);
        self.steps.push(Step::Write { at, piece, is_done })?;
        if is_done {
            self.size = self.size.max(end);
        }
        Ok(())
    }

    // Records a sync.
    fn keep_sync(&mut self, is_done: bool) -> Result<(), Memory>
        ensures kept { OnOk result (self.new ≡ with_step self.old (Sync is_done)) }
        ensures untouched { OnErr result (self.new ≡ self.old) }
    {
        self.steps.push(Step::Sync { is_done })?;
        Ok(())
    }

    // Reads bytes that are there.
    fn fill(&self, at: u64, buf: &mut [u8])
        requires there { length buf.old ≤ length (seen_now self.now) - at }
        requires fits { length (seen_now self.now) < 2 ^ 64 }
        ensures { buf.new ≡ take (length buf.old) (drop at (seen_now self.now)) }
    {
        for offset in 0..buf.len() {
            buf[offset] = byte_at(&self.first, &self.steps, at + offset as u64);
        }
    }
}

// What the byte at a place reads after these steps.
fn byte_at(first: &[u8], steps: &[Step], index: u64) -> u8
    requires { AreWithin (with_synced first.now) steps.now }
    ensures { result ≡ get_or (replayed first.now steps.now).seen index 0 }
{
    let mut byte = first.get(index as usize).copied().unwrap_or(0);
    for step in steps {
        byte = byte_after(step, index, byte);
    }
    byte
}

impl Disk for MemoryDisk {
    ghost content = { λ disk. Some (seen_now disk) };

    ghost images = { IsImageNow };

    ghost images_since = { IsImageSince };

    ghost moment = { λ disk. length disk.steps };

    ghost faults = { λ disk. disk.faults };

    ghost reads_may_stay = { seen-is-image };

    ghost counts_now = { now-counts };

    ghost only_now = { now-only };

    fn size(&mut self) -> Result<u64, Failed>
        ensures value { IfOk result (λ size. size ≡ length (seen_now self.old)) }
        ensures called { OnOk result (self.new ≡ after_call self.old) }
        ensures called_failed { OnErr result (self.new ≡ after_failed_call self.old) }
        ensures failed { OnErr result (Rose self.old.faults self.new.faults) }
        ensures scripted { IsErr result ↔ FailsNext self.old }
        ensures never_falls { self.old.faults ≤ self.new.faults }
    {
        self.begin_call()?;
        Ok(self.size)
    }

    fn read(&mut self, at: u64, buf: &mut [u8]) -> Result<usize, Failed>
        ensures within { IfOk result (λ count. count ≤ length buf.old) }
        ensures count { IfOk result (λ count. count ≡ min (length buf.old) (length (seen_now self.old) - at)) }
        ensures value { IfOk result (λ count. take count buf.new ≡ take count (drop at (seen_now self.old))) }
        ensures called { OnOk result (self.new ≡ after_call self.old) }
        ensures called_failed { OnErr result (self.new ≡ after_failed_call self.old) }
        ensures failed { OnErr result (Rose self.old.faults self.new.faults) }
        ensures scripted { IsErr result ↔ FailsNext self.old }
        ensures never_falls { self.old.faults ≤ self.new.faults }
    {
        self.begin_call()?;
        let left = self.size.saturating_sub(at);
        let count = left.min(buf.len() as u64) as usize;
        self.fill(at, &mut buf[..count]);
        Ok(count)
    }

    fn write_at(&mut self, at: u64, piece: &[u8]) -> Result<(), Failed>
        requires { at ≤ length (seen_now self.old) }
        ensures done { OnOk result (self.new ≡ with_step (after_call self.old) (Write at piece.now true)) }
        ensures torn { OnErr result (
            (FailsNext self.old × (self.new ≡ with_step (after_failed_call self.old) (Write at piece.now false)))
            ⊎ (self.new ≡ after_refused_call self.old)) }
        ensures failed { OnErr result (Rose self.old.faults self.new.faults) }
        ensures scripted { FailsNext self.old → IsErr result }
        ensures never_falls { self.old.faults ≤ self.new.faults }
    {
        let fails = self.count_call();
        if self.keep_write(at, piece, !fails).is_err() {
            return Err(self.refuse());
        }
        self.answer(fails)
    }

    fn sync(&mut self) -> Result<(), Failed>
        ensures done { OnOk result (self.new ≡ with_step (after_call self.old) (Sync true)) }
        ensures torn { OnErr result (
            (FailsNext self.old × (self.new ≡ with_step (after_failed_call self.old) (Sync false)))
            ⊎ (self.new ≡ after_refused_call self.old)) }
        ensures failed { OnErr result (Rose self.old.faults self.new.faults) }
        ensures scripted { FailsNext self.old → IsErr result }
        ensures never_falls { self.old.faults ≤ self.new.faults }
    {
        let fails = self.count_call();
        if self.keep_sync(!fails).is_err() {
            return Err(self.refuse());
        }
        self.answer(fails)
    }
}
