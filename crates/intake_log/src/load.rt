//! How a journal is read when it is started.

ghost use Rattle.std.specs.Prelude.{◌≡◌, ◌≢◌, ◌≤◌, ◌⊎◌, ℕ, List, Some, length, take, is_some, OnOk, OnErr, IfOk, IfErr, IfSome, IsErrOf};
ghost use Rattle.std.specs.Option.{option_map};
ghost use Rattle.disk_io.specs.Disk.{LeavesOnly, Only};
ghost use Rattle.house_io.specs.Faults.{Rose};
ghost use Rattle.intake_log.specs.Journal.{IsKept, records_size};
ghost use Rattle.intake_log.specs.Limits.{AreWithin};
ghost use Rattle.intake_log.specs.Scan.{Explains, found, settled};
ghost use Rattle.intake_log.specs.Scan.Scanned.{Ended};
ghost use Rattle.intake_log.specs.Start.{IsEarlierOrShort, OnlyReads};

use crate::fault::StartFault;
use crate::limits::FRONT_BYTES;
use crate::scan::scan_lines;
use command_text::Lines;
use disk_io::Disk;
use house_io::Failed;
use std::alloc::Global;

/// How many bytes are read in one call.
const PIECE_BYTES: usize = 65_536;

/// Makes the file durable, with a closed gate in it where it has at most one byte.
fn settle<D: Disk>(disk: &mut D) -> Result<(), Failed>
    ensures settled { OnOk result (D.content disk.new ≡ option_map settled (D.content disk.old)) }
    ensures durable { OnOk result (IfSome (D.content disk.new) (λ bytes. Only bytes (D.images disk.new))) }
    ensures any_moment { (bytes : List ℕ) → D.content disk.old ≡ Some bytes →
        LeavesOnly D.moment D.images_since disk.old disk.new (IsEarlierOrShort bytes (D.images disk.old)) }
    ensures told { is_some (D.content disk.new) ≡ is_some (D.content disk.old) }
    ensures failed { OnErr result (Rose (D.faults disk.old) (D.faults disk.new)) }
    ensures never_falls { D.faults disk.old ≤ D.faults disk.new }
{
    disk.sync()?;
    let size = disk.size()?;
    if size > 1 {
        return Ok(());
    }
    disk.write_at(0, &[0])?;
    disk.sync()
}

/// Reads as many bytes as tell what the file holds.
fn read_front<D: Disk>(alloc: Global, disk: &mut D) -> Result<Vec<u8>, StartFault>
    ensures front { IfOk result (λ front. IfSome (D.content disk.old)
        (λ bytes. front.items ≡ take FRONT_BYTES bytes)) }
    ensures only_reads { OnlyReads D.content D.images D.moment D.images_since disk.old disk.new }
    ensures fault { IfErr result (λ fault. (fault ≡ StartFault.Memory) ⊎ (fault ≡ StartFault.Failed)) }
    ensures failed { IsErrOf result StartFault.Failed → Rose (D.faults disk.old) (D.faults disk.new) }
    ensures never_falls { D.faults disk.old ≤ D.faults disk.new }
{
    let mut front = Vec::new(alloc);
    let mut buf = [0; PIECE_BYTES];
    while front.len() < FRONT_BYTES {
        let room = PIECE_BYTES.min(FRONT_BYTES - front.len());
        let count = disk.read(front.len() as u64, &mut buf[..room])?;
        if count == 0 {
            return Ok(front);
        }
        front.extend_from_slice(&buf[..count])?;
    }
    Ok(front)
}

/// Reads the lines of a journal and the place of its closed gate, and makes them durable.
pub(crate) fn load<D: Disk>(alloc: Global, disk: &mut D) -> Result<(Lines, u64), StartFault>
    ensures ended { IfOk result (λ read. IfSome (D.content disk.old) (λ bytes. found bytes ≡ Ended read.0)) }
    ensures gate { IfOk result (λ read. read.1 ≡ records_size read.0) }
    ensures within { IfOk result (λ read. AreWithin read.0) }
    ensures kept { IfOk result (λ read. IsKept D.content D.images disk.new read.1 read.0) }
    ensures explained { IfErr result (λ fault. IfSome (D.content disk.old) (λ bytes. Explains (found bytes) fault)) }
    ensures settled { result ≢ Err StartFault.Failed → D.content disk.new ≡ option_map settled (D.content disk.old) }
    ensures any_moment { (bytes : List ℕ) → D.content disk.old ≡ Some bytes →
        LeavesOnly D.moment D.images_since disk.old disk.new (IsEarlierOrShort bytes (D.images disk.old)) }
    ensures told { is_some (D.content disk.new) ≡ is_some (D.content disk.old) }
    ensures failed { IsErrOf result StartFault.Failed → Rose (D.faults disk.old) (D.faults disk.new) }
    ensures never_falls { D.faults disk.old ≤ D.faults disk.new }
{
    settle(disk)?;
    let front = read_front(alloc, disk)?;
    scan_lines(alloc, &front)
}
