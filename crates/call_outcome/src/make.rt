//! The outcome of a plan, the totals of its reviews and a draw.

ghost use Rattle.std.specs.Prelude.{◌≡◌, ◌<◌, IfOk};
ghost use Rattle.house_base.specs.Setting.{IsSetting};
ghost use Rattle.peer_selection.specs.Laws.{IsAssigned};
ghost use Rattle.peer_selection.specs.Profile.{Pairs, Points, denominator, profile_on};
ghost use Rattle.house_model.specs.Report.{outcome_of};
ghost use Rattle.seat_quota.specs.Totals.{HoldsTotals, IsTotals};

use crate::applicants::applicant_rows;
use crate::clusters::{cluster_rows, empty_seats};
use house_base::{Asides, Memory, Plan};
use report_text::Outcome;
use seat_quota::Totals;
use std::alloc::Global;

/// The outcome at a draw, where the totals are those of any points that were given for a valid assignment of the
/// plan. The parts on review lines that were set aside are handed through.
pub fn outcome_of(
    alloc: Global,
    plan: &Plan,
    totals: &Totals,
    asides: Asides,
    draw: u64,
) -> Result<Outcome, Memory>
    requires setting { IsSetting plan.now }
    requires totals { HoldsTotals plan.now totals.now }
    requires draw { draw < denominator plan.now }
    ensures { IfOk result (λ outcome. (pairs : Pairs) (points : Points) →
        IsAssigned (profile_on plan.now pairs points) →
        IsTotals (profile_on plan.now pairs points) totals.now →
        outcome ≡ outcome_of (profile_on plan.now pairs points) asides draw) }
{
    let clusters = cluster_rows(alloc, plan, totals, draw)?;
    let applicants = applicant_rows(alloc, plan, totals, &clusters)?;
    let empty = empty_seats(&clusters);
    Ok(Outcome::make(
        plan.call(),
        asides,
        draw,
        totals.denominator(),
        plan.owners(),
        clusters,
        applicants,
        empty,
    ))
}
