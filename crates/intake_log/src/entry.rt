//! What a put writes, and its four calls of the disk.

ghost use Rattle.std.specs.Prelude.{◌≡◌, ◌<◌, ◌≤◌, ◌∷◌, [], ◌++◌, ◌+◌, ◌^◌, ℕ, List, Some, OnOk, OnErr, is_some, length};
ghost use Rattle.disk_io.specs.Disk.{LeavesOnly};
ghost use Rattle.house_io.specs.Faults.{Rose};
ghost use Rattle.intake_log.specs.Journal.{IsBeforeOrAfter, IsJournalLine, IsKept, entry};

use crate::limits::{LENGTH_BYTES, MOST_LINE_BYTES};
use disk_io::Disk;
use house_io::Failed;

/// Writes the length of a line, the line and a closed gate into a buffer of just their size.
pub(crate) fn fill_entry(buf: &mut [u8], line: &[u8])
    requires room { length buf.old ≡ length line.now + 5 }
    requires short { length line.now ≤ MOST_LINE_BYTES }
    ensures { buf.new ≡ entry line.now }
{
    let end = LENGTH_BYTES + line.len();
    buf[..LENGTH_BYTES].copy_from_slice(&(line.len() as u32).to_be_bytes());
    buf[LENGTH_BYTES..end].copy_from_slice(line);
    buf[end] = 0;
}

/// Writes an entry behind the closed gate, and then opens the gate. The entry is on the disk before its gate is touched,
/// and has the next closed gate in it, so that the file is closed behind the line once the gate is open.
pub(crate) fn put_entry<D: Disk>(
    disk: &mut D,
    gate: u64,
    line: &[u8],
    piece: &[u8],
) -> Result<(), Failed>
    requires few { gate < 2 ^ 40 }
    requires line { IsJournalLine line.now }
    requires piece { piece.now ≡ entry line.now }
    requires kept { (lines : List (List ℕ)) × IsKept D.content D.images disk.old gate lines }
    ensures any_moment { (lines : List (List ℕ)) (bytes : List ℕ) → IsKept D.content D.images disk.old gate lines →
        D.content disk.old ≡ Some bytes →
        LeavesOnly D.moment D.images_since disk.old disk.new (IsBeforeOrAfter lines line.now) }
    ensures acknowledged { OnOk result ((lines : List (List ℕ)) → IsKept D.content D.images disk.old gate lines →
        IsKept D.content D.images disk.new (gate + length piece.now) (lines ++ line.now ∷ [])) }
    ensures told { is_some (D.content disk.new) ≡ is_some (D.content disk.old) }
    ensures failed { OnErr result (Rose (D.faults disk.old) (D.faults disk.new)) }
    ensures never_falls { D.faults disk.old ≤ D.faults disk.new }
{
    disk.write_at(gate + 1, piece)?;
    disk.sync()?;
    disk.write_at(gate, &[1])?;
    disk.sync()?;
    Ok(())
}
