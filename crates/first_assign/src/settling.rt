//! Settling the pairs of a flow in the order of the first assignment: person by person in place order, and for each
//! the nearest proposals first.

ghost use Rattle.std.specs.Prelude.{◌≡◌, ℕ, ◌+◌, ◌<◌, ◌≤◌, true, false, None, IfSome, IfNone, if◌then◌else◌};
ghost use Rattle.house_base.specs.Grid.{cell};
ghost use Rattle.house_base.specs.Setting.{size, may};
ghost use Rattle.house_base.specs.declared.limits.TheConstants.{MOST_APPLICANTS};
ghost use Rattle.assign_flow.specs.Flow.{settled};
ghost use Rattle.first_assign.specs.Settling.{HasAllowed, IsSet, IsSettledTo, SettlesOne, kept_within, proposal_at};

use assign_flow::Flow;
use house_base::{Grid, Plan};

/// Settles all pairs that need it, among those that are allowed. The pairs that are kept are set.
pub fn settle_all(plan: &Plan, allowed: &Grid, flow: &mut Flow, pairs: &mut Grid)
    requires allowed { HasAllowed plan.now allowed.now }
    requires side { pairs.old.side ≡ size plan.now }
    requires settled { IsSettledTo plan.now flow.old (cell pairs.old) 0 0 }
    ensures side { pairs.new.side ≡ size plan.now }
    ensures settled { IsSettledTo plan.now flow.new (cell pairs.new) (size plan.now) 0 }
{
    for reviewer in 0..plan.count() {
        settle_row(plan, allowed, flow, pairs, reviewer);
    }
}

/// Settles the pairs of a reviewer, the nearest first. Once its need is kept in full, none of its other pairs can be.
fn settle_row(plan: &Plan, allowed: &Grid, flow: &mut Flow, pairs: &mut Grid, reviewer: u32)
    requires allowed { HasAllowed plan.now allowed.now }
    requires below { reviewer < size plan.now }
    requires side { pairs.old.side ≡ size plan.now }
    requires settled { IsSettledTo plan.now flow.old (cell pairs.old) reviewer 0 }
    ensures side { pairs.new.side ≡ size plan.now }
    ensures settled { IsSettledTo plan.now flow.new (cell pairs.new) (reviewer + 1) 0 }
{
    let mut unmet = plan.need(reviewer);
    let mut from = 0;
    while unmet > 0 {
        let Some(distance) = next_distance(allowed, reviewer, from) else {
            return;
        };
        if settle_at(plan, flow, pairs, reviewer, distance) {
            unmet -= 1;
        }
        from = distance + 1;
    }
}

/// The first distance from one on at which a reviewer has a pair.
fn next_distance(pairs: &Grid, reviewer: u32, from: u32) -> Option<u32>
    requires { reviewer < pairs.now.side }
    ensures from { IfSome result (λ d. from ≤ d) }
    ensures below { IfSome result (λ d. d < pairs.now.side) }
    ensures most { IfSome result (λ d. d < MOST_APPLICANTS) }
    ensures true_there { IfSome result (λ d. cell pairs.now reviewer (proposal_at pairs.now.side reviewer d) ≡ true) }
    ensures before { IfSome result (λ d. (e : ℕ) → from ≤ e → e < d
        → cell pairs.now reviewer (proposal_at pairs.now.side reviewer e) ≡ false) }
    ensures none { IfNone result ((e : ℕ) → from ≤ e → e < pairs.now.side
        → cell pairs.now reviewer (proposal_at pairs.now.side reviewer e) ≡ false) }
{
    let behind = pairs.side() - (reviewer + 1);
    if from < behind {
        if let Some(proposal) = pairs.next_in_row(reviewer, reviewer + 1 + from) {
            return Some(proposal - (reviewer + 1));
        }
    }
    let proposal = pairs.next_in_row(reviewer, from.saturating_sub(behind))?;
    if proposal > reviewer {
        return None;
    }
    Some(behind + proposal)
}

/// Settles the pair of a reviewer and the proposal at a distance, which may be: whether it is kept.
fn settle_at(plan: &Plan, flow: &mut Flow, pairs: &mut Grid, reviewer: u32, distance: u32) -> bool
    requires reviewer_below { reviewer < size plan.now }
    requires distance_below { distance < size plan.now }
    requires allowed { may plan.now reviewer (proposal_at (size plan.now) reviewer distance) ≡ true }
    requires side { pairs.old.side ≡ size plan.now }
    requires settled { IsSettledTo plan.now flow.old (cell pairs.old) reviewer distance }
    ensures side { pairs.new.side ≡ size plan.now }
    ensures settled { IsSettledTo plan.now flow.new (cell pairs.new) reviewer (distance + 1) }
    ensures counted { kept_within (size plan.now) (cell pairs.new) reviewer (distance + 1)
        ≡ kept_within (size plan.now) (cell pairs.old) reviewer distance + (if result then 1 else 0) }
{
    let count = plan.count();
    let proposal = (reviewer + 1 + distance) % count;
    settle_pair(flow, pairs, reviewer, proposal)
}

/// Settles a pair that may be, and sets it where it is kept.
fn settle_pair(flow: &mut Flow, pairs: &mut Grid, reviewer: u32, proposal: u32) -> bool
    requires side { pairs.old.side ≡ flow.old.may.side }
    requires reviewer_below { reviewer < flow.old.may.side }
    requires proposal_below { proposal < flow.old.may.side }
    requires allowed { cell flow.old.may reviewer proposal ≡ true }
    requires unsettled { settled flow.old reviewer proposal ≡ None }
    ensures side { pairs.new.side ≡ pairs.old.side }
    ensures settles { SettlesOne flow.old flow.new reviewer proposal result }
    ensures sets { IsSet flow.old.may.side reviewer proposal result (cell pairs.old) (cell pairs.new) }
{
    let kept = flow.settle(reviewer, proposal);
    pairs.set(reviewer, proposal, kept);
    kept
}
