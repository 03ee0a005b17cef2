//! The first assignment of a plan.

ghost use Rattle.std.specs.Prelude.{◌≡◌, ℕ, ◌<◌, false, length, IfOk, IsTrue};
ghost use Rattle.house_base.specs.Grid.{cell};
ghost use Rattle.house_base.specs.Setting.{size};
ghost use Rattle.peer_selection.specs.FirstAssignment.{IsFirst, first_assignment, has_assignment};
ghost use Rattle.peer_selection.specs.Profile.{Pairs, is_valid};
ghost use Rattle.peer_selection.specs.Shortage.{IsShortage, assignment_demand};
ghost use Rattle.cut_gap.specs.Cut.{marked};
ghost use Rattle.first_assign.specs.First.{IfFirst, IfNoneIsValid};
ghost use Rattle.first_assign.specs.Settling.{HasAllowed, IsFlowOf};

use crate::answer::First;
use crate::demand::{allowed, needs, rooms};
use crate::settling::settle_all;
use assign_flow::{Flow, Started};
use house_base::{Grid, Memory, Plan};
use std::alloc::Global;

/// The first assignment: of all valid ones, the one whose reviewers, in place order, have the nearest proposals. Or the
/// shortage that the rules print, exactly where no assignment is valid.
pub fn first(alloc: Global, plan: &Plan) -> Result<First, Memory>
    ensures side { IfOk result (λ first. IfFirst first (λ pairs. pairs.side ≡ size plan.now)) }
    ensures first { IfOk result (λ first. IfFirst first (λ pairs. IsFirst plan.now (cell pairs))) }
    ensures some { IfOk result (λ first. IfFirst first (λ pairs. IsTrue (has_assignment plan.now))) }
    ensures value { IfOk result (λ first. IfFirst first (λ pairs. (r p : ℕ) → r < size plan.now → p < size plan.now
        → cell pairs r p ≡ first_assignment plan.now r p)) }
    ensures none { IfOk result (λ first. IfNoneIsValid first (λ cut. has_assignment plan.now ≡ false)) }
    ensures short_where_none_is_valid { IfOk result (λ first. IfNoneIsValid first (λ cut. (pairs : Pairs)
        → is_valid plan.now pairs ≡ false)) }
    ensures cut_reviewers { IfOk result (λ first. IfNoneIsValid first (λ cut. length cut.reviewers ≡ size plan.now)) }
    ensures cut_proposals { IfOk result (λ first. IfNoneIsValid first (λ cut. length cut.proposals ≡ size plan.now)) }
    ensures cut_is_shortage { IfOk result (λ first. IfNoneIsValid first (λ cut.
        IsShortage (assignment_demand plan.now) (marked cut.reviewers) (marked cut.proposals))) }
{
    let needs = needs(alloc, plan)?;
    let rooms = rooms(alloc, plan)?;
    let allowed = allowed(alloc, plan)?;
    match Flow::start(alloc, &needs, &rooms, &allowed)? {
        Started::Ready(flow) => Ok(First::Pairs(first_pairs(alloc, plan, &allowed, flow)?)),
        Started::Short(cut) => Ok(First::Short(cut)),
    }
}

/// The first assignment, from a flow of the plan in which nothing is settled.
fn first_pairs(alloc: Global, plan: &Plan, allowed: &Grid, mut flow: Flow) -> Result<Grid, Memory>
    requires allowed { HasAllowed plan.now allowed.now }
    requires flow { IsFlowOf plan.now flow }
    ensures side { IfOk result (λ pairs. pairs.side ≡ size plan.now) }
    ensures first { IfOk result (λ pairs. IsFirst plan.now (cell pairs)) }
{
    let mut pairs = Grid::new(alloc, flow.pairs().side())?;
    settle_all(plan, allowed, &mut flow, &mut pairs);
    Ok(pairs)
}
