//! What a board is made of.

ghost use Rattle.std.specs.Prelude.{◌≡◌, false, IfOk, replicate, map};
ghost use Rattle.reserve_list.specs.Board.{count_of};

use house_base::Memory;
use report_text::{ApplicantRow, Outcome};
use std::alloc::Global;

/// A copy of an outcome.
pub(crate) fn copied(alloc: Global, outcome: &Outcome) -> Result<Outcome, Memory>
    ensures { IfOk result (λ copy. copy ≡ outcome.now) }
{
    let mut clusters = Vec::new(alloc);
    clusters.extend_from_slice(outcome.clusters())?;
    let mut applicants = Vec::new(alloc);
    applicants.extend_from_slice(outcome.applicants())?;
    Ok(Outcome::make(
        outcome.call(),
        outcome.asides(),
        outcome.draw(),
        outcome.den(),
        outcome.persons(),
        clusters,
        applicants,
        outcome.empty(),
    ))
}

/// For each applicant, that it has not withdrawn.
pub(crate) fn nobody_gone(alloc: Global, outcome: &Outcome) -> Result<Vec<bool>, Memory>
    ensures { IfOk result (λ gone. gone.items ≡ replicate (count_of outcome.now) false) }
{
    let mut gone = Vec::new(alloc);
    for _row in outcome.applicants() {
        gone.push(false)?;
    }
    Ok(gone)
}

/// The rank of each applicant.
pub(crate) fn ranks(alloc: Global, outcome: &Outcome) -> Result<Vec<u32>, Memory>
    ensures { IfOk result (λ ranks. ranks.items ≡ map (λ row. row.rank) outcome.now.applicant_rows) }
{
    let mut ranks = Vec::new(alloc);
    for row in outcome.applicants() {
        ranks.push(row.rank)?;
    }
    Ok(ranks)
}
