//! Whether some assignment of a plan is valid.

ghost use Rattle.std.specs.Prelude.{◌≡◌, true, false, length, IfOk, IfNone, IfSome};
ghost use Rattle.house_base.specs.Setting.{size};
ghost use Rattle.peer_selection.specs.FirstAssignment.{has_assignment};
ghost use Rattle.peer_selection.specs.Shortage.{IsShortage, assignment_demand};
ghost use Rattle.cut_gap.specs.Cut.{marked};

use crate::demand::{allowed, needs, rooms};
use assign_flow::{Solved, solve};
use cut_gap::Cut;
use house_base::{Memory, Plan};
use std::alloc::Global;

/// The shortage that the rules print, where no assignment of a plan is valid. None where some assignment is.
pub fn shortage(alloc: Global, plan: &Plan) -> Result<Option<Cut>, Memory>
    ensures some { IfOk result (λ found. IfNone found (has_assignment plan.now ≡ true)) }
    ensures none { IfOk result (λ found. IfSome found (λ cut. has_assignment plan.now ≡ false)) }
    ensures cut_reviewers { IfOk result (λ found. IfSome found (λ cut. length cut.reviewers ≡ size plan.now)) }
    ensures cut_proposals { IfOk result (λ found. IfSome found (λ cut. length cut.proposals ≡ size plan.now)) }
    ensures cut_is_shortage { IfOk result (λ found. IfSome found (λ cut.
        IsShortage (assignment_demand plan.now) (marked cut.reviewers) (marked cut.proposals))) }
{
    let needs = needs(alloc, plan)?;
    let rooms = rooms(alloc, plan)?;
    let allowed = allowed(alloc, plan)?;
    match solve(alloc, &needs, &rooms, &allowed)? {
        Solved::Pairs(_) => Ok(None),
        Solved::Short(cut) => Ok(Some(cut)),
    }
}
