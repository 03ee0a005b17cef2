//! A journal on a disk, to which lines are added.

use crate::entry::{fill_entry, put_entry};
use crate::fault::{PutFault, StartFault, Stopped};
use crate::limits::{BESIDE_LINE, MOST_LINE_BYTES, is_full};
use crate::load::load;
use command_text::Lines;
use disk_io::Disk;
use std::alloc::Global;
use std::marker::Model;

/// How many bytes the longest entry has.
const MOST_ENTRY_BYTES: usize = MOST_LINE_BYTES + BESIDE_LINE;

/// Lines on a disk, each of which is acknowledged once no crash can lose it.
#[derive(Drop)]
pub struct Log<D: Disk> {
    disk: D,
    lines: Lines,
    /// Where the closed gate stands behind the records.
    gate: u64,
    /// Whether a put has failed.
    broken: bool,
}

impl<D: Disk> Model for Log<D> {
    ghost use Rattle.intake_log.specs.Log.{IsLog, Logged};

    ghost Value = { Logged D };

    ghost view = { λ l. record { disk = l.disk; lines = l.lines; gate = l.gate; broken = l.broken } };

    ghost invariant = { λ l. IsLog D.content D.images (record { disk = l.disk; lines = l.lines; gate = l.gate; broken = l.broken }) };
}

impl<D: Disk> Log<D> {
    ghost use Rattle.std.specs.Prelude.{◌≡◌, ◌≢◌, ◌≤◌, ◌<◌, ◌∷◌, [], ◌++◌, ◌↔◌, ℕ, List, Some, true, false, is_some, IsErrOf, IfErr, IfOk, IfSome, MatchResult, OnOk, OnErr, length};
    ghost use Rattle.std.specs.Option.{option_map};
    ghost use Rattle.command_text.specs.Held.{HasNoFeed};
    ghost use Rattle.disk_io.specs.Disk.{LeavesOnly, Only};
    ghost use Rattle.house_io.specs.Faults.{Rose};
    ghost use Rattle.intake_log.specs.Journal.{IsBeforeOrAfter, IsClosedAt, StandsFor};
    ghost use Rattle.intake_log.specs.Limits.{AreWithin, IsFull};
    ghost use Rattle.intake_log.specs.Log.{LeavesLines, OnDisk, OnRefusal};
    ghost use Rattle.intake_log.specs.Scan.{found, settled};
    ghost use Rattle.intake_log.specs.Scan.Scanned.{Ended, OffForm, Over};
    ghost use Rattle.intake_log.specs.Start.{IsEarlierOrShort};

    /// Starts on what a disk holds: it is made durable, with a closed gate in it where it has at most one byte, and
    /// its lines are read.
    pub fn start(alloc: Global, disk: D) -> Result<Log<D>, Stopped<D>>
        // The lines are those of the file as it reads.
        ensures lines { IfOk result (λ log. IfSome (D.content disk) (λ bytes. found bytes ≡ Ended log.lines)) }
        ensures stands { IfOk result (λ log. IfSome (D.content disk) (λ bytes. StandsFor bytes log.lines)) }
        ensures durable { IfOk result (λ log. LeavesLines D.content D.images log.disk log.lines) }
        ensures unbroken { IfOk result (λ log. log.broken ≡ false) }

        // When each other answer comes.
        ensures bad_journal { IfErr result (λ stopped. (place : ℕ) → stopped.cause ≡ StartFault.BadJournal place →
            IfSome (D.content disk) (λ bytes. found bytes ≡ OffForm place)) }
        ensures full { IfErr result (λ stopped. stopped.cause ≡ StartFault.Full →
            IfSome (D.content disk) (λ bytes. found bytes ≡ Over)) }
        ensures failed { IfErr result (λ stopped. stopped.cause ≡ StartFault.Failed →
            Rose (D.faults disk) (D.faults stopped.disk)) }

        // What is left on the disk.
        ensures settled { MatchResult result
            (λ log. D.content log.disk ≡ option_map settled (D.content disk))
            (λ stopped. stopped.cause ≢ StartFault.Failed →
            D.content stopped.disk ≡ option_map settled (D.content disk)) }
        ensures any_moment { (bytes : List ℕ) → D.content disk ≡ Some bytes → OnDisk result (λ now.
            LeavesOnly D.moment D.images_since disk now (IsEarlierOrShort bytes (D.images disk))) }
        ensures told { OnDisk result (λ now. is_some (D.content now) ≡ is_some (D.content disk)) }
        ensures never_falls { OnDisk result (λ now. D.faults disk ≤ D.faults now) }
    {
        let mut disk = disk;
        match load(alloc, &mut disk) {
            Ok((lines, gate)) => Ok(Log {
                disk,
                lines,
                gate,
                broken: false,
            }),
            Err(cause) => Err(Stopped { disk, cause }),
        }
    }

    /// The lines, in the order in which they were put.
    pub fn lines(&self) -> &Lines
        ensures lines { result.now ≡ self.now.lines }
        ensures within_limits { AreWithin self.now.lines }
        ensures on_disk { self.now.broken ≡ false → (bytes : List ℕ) → D.content self.now.disk ≡ Some bytes →
            IsClosedAt self.now.gate bytes self.now.lines }
        ensures alone { self.now.broken ≡ false → (bytes : List ℕ) → D.content self.now.disk ≡ Some bytes →
            Only bytes (D.images self.now.disk) }
        ensures durable { self.now.broken ≡ false → LeavesLines D.content D.images self.now.disk self.now.lines }
    {
        &self.lines
    }

    /// Whether a put has failed. The journal is to be started again then.
    pub fn broken(&self) -> bool
        ensures { result ≡ self.now.broken }
    {
        self.broken
    }

    /// Gives the disk back.
    pub fn into_disk(self) -> D
        ensures { result ≡ self.disk }
    {
        let Log { disk, .. } = self;
        disk
    }

    // Refuses a line that is not to be put.
    fn admit(&self, line: &[u8]) -> Result<(), PutFault>
        ensures broken { IsErrOf result PutFault.Broken ↔ (self.now.broken ≡ true) }
        ensures long { IsErrOf result PutFault.Long ↔ ((self.now.broken ≡ false) × (MOST_LINE_BYTES < length line.now)) }
        ensures full { IsErrOf result PutFault.Full ↔ ((self.now.broken ≡ false)
            × (length line.now ≤ MOST_LINE_BYTES) × IsFull self.now.lines line.now) }
        ensures unbroken { OnOk result (self.now.broken ≡ false) }
        ensures short { OnOk result (length line.now ≤ MOST_LINE_BYTES) }
        ensures room { OnOk result (AreWithin (self.now.lines ++ line.now ∷ [])) }
        ensures no_memory_taken { result ≢ Err PutFault.Memory }
        ensures disk_untouched { result ≢ Err PutFault.Failed }
    {
        if self.broken {
            return Err(PutFault::Broken);
        }
        if line.len() > MOST_LINE_BYTES {
            return Err(PutFault::Long);
        }
        if is_full(&self.lines, self.gate, line) {
            return Err(PutFault::Full);
        }
        Ok(())
    }

    /// Puts a line into the journal. After an Ok no crash can lose it; before, it is there whole or not at all.
    pub fn put(&mut self, line: &[u8]) -> Result<(), PutFault>
        requires no_line_feed { HasNoFeed line.now }

        ensures appended { OnOk result (self.new.lines ≡ self.old.lines ++ line.now ∷ []) }
        ensures unbroken { OnOk result (self.new.broken ≡ false) }
        ensures acknowledged { OnOk result (
            LeavesLines D.content D.images self.new.disk (self.old.lines ++ line.now ∷ [])) }

        // A crash at any moment of the call leaves the lines from before it, with the new one or without.
        ensures any_moment { self.old.broken ≡ false → (bytes : List ℕ) → D.content self.old.disk ≡ Some bytes →
            LeavesOnly D.moment D.images_since self.old.disk self.new.disk (IsBeforeOrAfter self.old.lines line.now) }

        // When each other answer comes, and what it leaves.
        ensures broken { IsErrOf result PutFault.Broken ↔ (self.old.broken ≡ true) }
        ensures long { IsErrOf result PutFault.Long ↔ ((self.old.broken ≡ false) × (MOST_LINE_BYTES < length line.now)) }
        ensures full { IsErrOf result PutFault.Full ↔ ((self.old.broken ≡ false)
            × (length line.now ≤ MOST_LINE_BYTES) × IsFull self.old.lines line.now) }
        ensures refused { OnRefusal result (self.new ≡ self.old) }
        ensures failed { IsErrOf result PutFault.Failed → Rose (D.faults self.old.disk) (D.faults self.new.disk) }
        ensures lines_stay { OnErr result (self.new.lines ≡ self.old.lines) }
        ensures breaks { IsErrOf result PutFault.Failed → self.new.broken ≡ true }
        ensures told { is_some (D.content self.new.disk) ≡ is_some (D.content self.old.disk) }
        ensures never_falls { D.faults self.old.disk ≤ D.faults self.new.disk }
    {
        self.admit(line)?;
        self.lines.push(line)?;
        let mut buf = [0; MOST_ENTRY_BYTES];
        let entry = &mut buf[..line.len() + BESIDE_LINE];
        fill_entry(entry, line);
        if put_entry(&mut self.disk, self.gate, line, entry).is_err() {
            self.lines.remove_last();
            self.broken = true;
            return Err(PutFault::Failed);
        }
        self.gate += (line.len() + BESIDE_LINE) as u64;
        Ok(())
    }
}

#[cfg(test)]
mod tests {
    use super::*;
    use disk_io::MemoryDisk;
    use std::alloc::Global;
    use std::test::Fail;

    // A log on a disk whose file is one closed gate.
    fn empty_log(alloc: Global, fails: &[u64]) -> Result<Log<MemoryDisk>, Fail> {
        Ok(Log {
            disk: MemoryDisk::new([0].to_vec(alloc)?, fails.to_vec(alloc)?),
            lines: Lines::new(alloc),
            gate: 0,
            broken: false,
        })
    }

    #[test]
    fn lines_are_put_behind_one_another(rt: HostRuntime) -> Result<(), Fail> {
        let alloc = rt.alloc();
        let mut log = empty_log(alloc, &[])?;
        log.put(b"assign")?;
        assert_eq!(rt; log.put(&[b'a'; MOST_LINE_BYTES + 1]), Err(PutFault::Long));
        log.put(b"close")?;
        assert_eq!(rt; log.lines().count(), 2);
        assert!(rt; !log.broken());
        let mut disk = log.into_disk();
        let mut file = [0; 32];
        let count = disk.read(0, &mut file)?;
        assert_eq!(rt;
            &file[..count],
            b"\x01\0\0\0\x06assign\x01\0\0\0\x05close\0".as_slice()
        );
        Ok(())
    }

    #[test]
    fn a_failing_call_of_the_disk_breaks_the_log(rt: HostRuntime) -> Result<(), Fail> {
        for call in 1..=4 {
            let mut log = empty_log(rt.alloc(), &[call])?;
            assert_eq!(rt; log.put(b"assign"), Err(PutFault::Failed), "at {call}");
            assert!(rt; log.broken());
            assert_eq!(rt; log.lines().count(), 0);
            assert_eq!(rt; log.put(b"assign"), Err(PutFault::Broken));
        }
        Ok(())
    }
}
