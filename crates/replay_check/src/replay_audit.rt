//! The replay of an audit.

ghost use Rattle.std.specs.Prelude.{◌≡◌, ◌≢◌, ◌↔◌, ◌⊎◌, IfOk, IfErr, IsOk, Err};
ghost use Rattle.audit_chain.specs.File.{lines_held};
ghost use Rattle.end_text.specs.End.{ended_as};
ghost use Rattle.replay_check.specs.Audit.{IsAudit};
ghost use Rattle.replay_check.specs.Replay.{DiffersFirst, IsDiffers, IsSame, SaysSame, ending_as, replayed_of};
ghost use Rattle.replay_check.specs.Said.{replay_of};

use crate::check::check;
use crate::differ::Difference;
use crate::row::{Kept, Right};
use audit_chain::RowFault;
use end_text::RunEnd;
use std::alloc::Global;

/// How the lines of an audit end when they are run again.
#[derive(Clone, Copy, Debug, PartialEq, Eq)]
pub enum Ending {
    Done,
    Refused,
    Short,
}

/// What the replay of an audit shows.
#[derive(Drop)]
pub enum Replayed {
    /// The file is the audit of its lines: so many, which end so.
    Same(u64, Ending),
    /// It is not. The row of this number, from 1, is the first that differs: as it is kept, and as it should be.
    Differs(u64, Kept, Right),
}

/// Runs the lines of an audit of either version again, and compares it with their audit of that version.
pub fn replay(alloc: Global, bytes: &[u8]) -> Result<Replayed, RowFault>
    // The rows are read, or the first that is not of the form is told.
    ensures read { IfOk result (λ _. IsOk (lines_held bytes.now)) }
    ensures bad { IfErr result (λ fault. fault ≢ RowFault.Memory → lines_held bytes.now ≡ Err fault) }

    // An audit of whatever lines is the same, and no other file is.
    ensures same { IfOk result (λ answer. IsSame answer ↔ IsAudit bytes.now) }
    ensures lines { IfOk result (SaysSame bytes.now) }

    // Any other differs, and the first row that does is told.
    ensures differs { IfOk result (λ answer. IsDiffers answer ↔ ¬ IsAudit bytes.now) }
    ensures first { IfOk result (DiffersFirst bytes.now) }

    // Want of memory aside, the answer is a function of the bytes.
    ensures said { (result ≡ Err RowFault.Memory) ⊎ (result ≡ replay_of bytes.now) }
{
    let checked = check(alloc, bytes)?;
    let count = checked.lines.count();
    let ending = ending_of(checked.run.told.end);
    Ok(answer_of(checked.difference, count, ending))
}

/// What the comparison of an audit shows, whose lines are so many and end so.
fn answer_of(difference: Option<Difference>, count: u64, ending: Ending) -> Replayed
    ensures { result ≡ replayed_of difference count ending }
{
    match difference {
        Some(found) => {
            let Difference {
                number,
                kept,
                right,
            } = found;
            Replayed::Differs(number, kept, right)
        }
        None => Replayed::Same(count, ending),
    }
}

/// How a run for the report has ended.
fn ending_of(end: RunEnd) -> Ending
    ensures { result ≡ ending_as (ended_as end) }
{
    match end {
        RunEnd::Done | RunEnd::Settled => Ending::Done,
        RunEnd::Refused(..) => Ending::Refused,
        RunEnd::Short => Ending::Short,
    }
}
