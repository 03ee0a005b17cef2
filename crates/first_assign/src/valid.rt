//! Whether an assignment is valid.

ghost use Rattle.std.specs.Prelude.{◌≡◌, ℕ, ◌+◌, ◌<◌, ◌≤◌, ◌==◌, ◌&&◌, ◌||◌, not, IsTrue, length, slice_index};
ghost use Rattle.house_base.specs.Grid.{cell};
ghost use Rattle.house_base.specs.Setting.{size, need, may};
ghost use Rattle.house_base.specs.declared.limits.TheConstants.{MOST_APPLICANTS};
ghost use Rattle.peer_selection.specs.Counting.{count_below, all_below};
ghost use Rattle.peer_selection.specs.Profile.{is_valid};

use house_base::limits::MOST_APPLICANTS;
use house_base::{Grid, Plan};

/// How many proposals are counted for: as many as a call may have.
const COUNTS: usize = MOST_APPLICANTS as usize;

/// Whether the pairs are a valid assignment.
pub fn is_valid(plan: &Plan, pairs: &Grid) -> bool
    requires { pairs.now.side ≡ size plan.now }
    ensures { result ≡ is_valid plan.now (cell pairs.now) }
{
    let mut received = [0; COUNTS];
    for reviewer in 0..pairs.side() {
        if !row_is_valid(plan, pairs, reviewer, &mut received) {
            return false;
        }
    }
    reviews_are_met(plan, &received)
}

/// Whether each of the pairs of a reviewer may be, and they are as many as it owes. Where that is so, each is
/// counted for its proposal, beside those of the reviewers before.
fn row_is_valid(plan: &Plan, pairs: &Grid, reviewer: u32, received: &mut [u32]) -> bool
    requires side { pairs.now.side ≡ size plan.now }
    requires most { size plan.now ≤ MOST_APPLICANTS }
    requires below { reviewer < size plan.now }
    requires each { size plan.now ≤ length received.old }
    requires before { (p : ℕ) → p < size plan.now
        → slice_index received.old p ≡ count_below (λ r. cell pairs.now r p) reviewer }
    ensures valid { result
        ≡ (all_below (λ p. not (cell pairs.now reviewer p) || may plan.now reviewer p) (size plan.now)
        && count_below (cell pairs.now reviewer) (size plan.now) == need plan.now reviewer) }
    ensures each { length received.new ≡ length received.old }
    ensures counted { IsTrue result → (p : ℕ) → p < size plan.now
        → slice_index received.new p ≡ count_below (λ r. cell pairs.now r p) (reviewer + 1) }
{
    let mut count = 0;
    let mut from = 0;
    while let Some(proposal) = pairs.next_in_row(reviewer, from) {
        if !plan.may(reviewer, proposal) {
            return false;
        }
        count += 1;
        received[proposal as usize] += 1;
        from = proposal + 1;
    }
    count == plan.need(reviewer)
}

/// Whether each applicant gets the call's number of reviews.
fn reviews_are_met(plan: &Plan, received: &[u32]) -> bool
    requires { size plan.now ≤ length received.now }
    ensures { result ≡ all_below (λ p. slice_index received.now p == plan.now.reviews) (size plan.now) }
{
    let reviews = plan.call().reviews;
    for proposal in 0..plan.count() {
        if received[proposal as usize] != reviews {
            return false;
        }
    }
    true
}
