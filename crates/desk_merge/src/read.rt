//! The reading of a desk file.

ghost use Rattle.std.specs.Prelude.{◌≡◌, ◌+◌, ◌<◌, ◌^◌, ℕ, Ok, Err, IfOk};
ghost use Rattle.std.specs.FinMap.{len};
ghost use Rattle.desk_merge.specs.Desk.{Reads};

use crate::entries::Entries;
use crate::fault::DeskFault;
use crate::scan::first_entry;
use std::alloc::Global;

impl Entries {
    /// Reads a desk file: a line `entry REVIEWER PROPOSAL REVISION POINTS` for each review, with one space between words
    /// and canonical numbers, in rising order of the reviewers' bytes, then of the proposals'. No bytes are no reviews.
    pub fn read(alloc: Global, bytes: &[u8]) -> Result<Entries, DeskFault>
        ensures ok { IfOk result (λ m. Reads bytes.now (Ok m)) }
        ensures bad { (line : ℕ) → result ≡ Err (DeskFault.BadLine line) → Reads bytes.now (Err line) }
    {
        let mut entries = Entries::new(alloc);
        let mut rest = bytes;
        while !rest.is_empty() {
            let Some((entry, behind)) = first_entry(rest) else {
                return Err(DeskFault::BadLine(next_line(&entries)));
            };
            if !entries.can_follow(&entry) {
                return Err(DeskFault::BadLine(next_line(&entries)));
            }
            entries.push(&rest[..rest.len() - behind.len()])?;
            rest = behind;
        }
        Ok(entries)
    }
}

/// The number of the line behind those that were read, counted from 1.
fn next_line(entries: &Entries) -> u64
    requires { len entries.now + 1 < 2 ^ 64 }
    ensures { result ≡ len entries.now + 1 }
{
    entries.count() + 1
}
