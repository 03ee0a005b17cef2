//! An audit beside what its lines come to.

ghost use Rattle.std.specs.Prelude.{◌≡◌, ◌≢◌, ◌≤◌, ◌⊎◌, IfOk, IfErr, IsAscii, Err, length};
ghost use Rattle.audit_chain.specs.Chain.{audit_bytes};
ghost use Rattle.audit_chain.specs.File.{lines_held};
ghost use Rattle.house_model.specs.declared.limits.TheConstants.{MOST_LINES};
ghost use Rattle.replay_check.specs.Check.{IsChecked};

use crate::differ::{Difference, find_difference};
use crate::rerun::{Rerun, run_again};
use audit_chain::{RowFault, audit_text, audit1_text, read_rows, row_version};
use command_text::Lines;
use house_base::{Memory, Took};
use std::alloc::Global;

/// An audit beside what its lines come to when they are run again.
#[derive(Drop)]
pub(crate) struct Checked {
    pub(crate) lines: Lines,
    pub(crate) run: Rerun,
    /// The first row that is not as it should be.
    pub(crate) difference: Option<Difference>,
}

/// Runs the lines of an audit again, and compares it with the audit of these lines that its version has.
pub(crate) fn check(alloc: Global, bytes: &[u8]) -> Result<Checked, RowFault>
    ensures ok { IfOk result (λ checked. IsChecked bytes.now checked.lines checked.run.marks.items
        checked.run.told.end checked.run.told.text.items checked.difference) }
    ensures bad { IfErr result (λ fault. fault ≢ RowFault.Memory → lines_held bytes.now ≡ Err fault) }
{
    let lines = read_rows(alloc, bytes)?;
    let version = row_version(alloc, bytes)?;
    let run = run_again(alloc, &lines)?;
    let right = audit_of(alloc, version, &lines, &run.marks, &run.told.text)?;
    let difference = find_difference(alloc, bytes, &right)?;
    Ok(Checked {
        lines,
        run,
        difference,
    })
}

/// The audit of a version.
fn audit_of(
    alloc: Global,
    version: u32,
    lines: &Lines,
    marks: &[Took],
    text: &[u8],
) -> Result<Vec<u8>, Memory>
    requires known { (version ≡ 1) ⊎ (version ≡ 2) }
    requires marked { length marks.now ≡ length lines.now }
    requires few { length lines.now ≤ MOST_LINES }
    requires ascii { IsAscii text.now }
    ensures { IfOk result (λ audit. audit.items ≡ audit_bytes version lines.now marks.now text.now) }
{
    if version == 1 {
        audit1_text(alloc, lines, marks, text)
    } else {
        audit_text(alloc, lines, marks, text)
    }
}
