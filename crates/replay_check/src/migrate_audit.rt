//! The second version of an audit of either.

ghost use Rattle.std.specs.Prelude.{◌≡◌, ◌≢◌, ◌↔◌, ◌⊎◌, ◌≤◌, IfOk, IfErr, IsOk, Err, IsAscii, length};
ghost use Rattle.audit_chain.specs.Chain.{audit_bytes};
ghost use Rattle.house_model.specs.declared.limits.TheConstants.{MOST_LINES};
ghost use Rattle.audit_chain.specs.File.{lines_held};
ghost use Rattle.replay_check.specs.Audit.{IsAudit};
ghost use Rattle.replay_check.specs.Migrate.{DiffersFirst, IsDiffers, IsMoved, IsMovedTo, SaysMoved};
ghost use Rattle.replay_check.specs.Said.{migration_of};

use crate::check::{Checked, check};
use crate::differ::Difference;
use crate::fresh_audit::Fresh;
use crate::rerun::Rerun;
use crate::row::{Kept, Right};
use audit_chain::{RowFault, audit_text};
use command_text::Lines;
use house_base::Memory;
use std::alloc::Global;

/// What becomes of an audit that is to be brought to the second version.
#[derive(Drop)]
pub enum Migrated {
    /// The file is the audit of its lines, and this is their audit of the second version, and how many they are.
    Moved(Fresh, u64),
    /// It is not. The row of this number, from 1, is the first that differs: as it is kept, and as it should be.
    Differs(u64, Kept, Right),
}

/// Replays an audit of either version, and makes the audit of the second version of its lines.
pub fn migrate(alloc: Global, bytes: &[u8]) -> Result<Migrated, RowFault>
    // The rows are read, or the first that is not of the form is told.
    ensures read { IfOk result (λ _. IsOk (lines_held bytes.now)) }
    ensures bad { IfErr result (λ fault. fault ≢ RowFault.Memory → lines_held bytes.now ≡ Err fault) }

    // An audit of whatever lines is brought over, and no other file is.
    ensures moved { IfOk result (λ answer. IsMoved answer ↔ IsAudit bytes.now) }
    ensures lines { IfOk result (SaysMoved bytes.now) }

    // Any other differs, and the first row that does is told.
    ensures differs { IfOk result (λ answer. IsDiffers answer ↔ ¬ IsAudit bytes.now) }
    ensures first { IfOk result (DiffersFirst bytes.now) }

    // Want of memory aside, the answer is a function of the bytes.
    ensures said { (result ≡ Err RowFault.Memory) ⊎ (result ≡ migration_of bytes.now) }
{
    let Checked {
        lines,
        run,
        difference,
    } = check(alloc, bytes)?;
    match difference {
        Some(found) => Ok(differs(found)),
        None => Ok(moved(alloc, &lines, &run)?),
    }
}

/// The answer where a row differs.
fn differs(found: Difference) -> Migrated
    ensures { result ≡ Migrated.Differs found.number found.kept found.right }
{
    let Difference {
        number,
        kept,
        right,
    } = found;
    Migrated::Differs(number, kept, right)
}

/// The audit of the second version of lines that were run again, and how many they are.
fn moved(alloc: Global, lines: &Lines, run: &Rerun) -> Result<Migrated, Memory>
    requires marked { length run.now.marks.items ≡ length lines.now }
    requires few { length lines.now ≤ MOST_LINES }
    requires ascii { IsAscii run.now.told.text.items }
    ensures { IfOk result (λ answer. IsMovedTo (audit_bytes 2 lines.now run.now.marks.items run.now.told.text.items)
        (length lines.now) answer) }
{
    let audit = audit_text(alloc, lines, &run.marks, &run.told.text)?;
    Ok(Migrated::Moved(Fresh::new(audit), lines.count()))
}
