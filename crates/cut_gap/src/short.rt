//! Whether a cut is short: its reviewers need more than the room outside its proposals and its allowed pairs.

ghost use Rattle.std.specs.Prelude.{◌≡◌, ℕ, ◌*◌, ◌^◌, ◌<◌, ◌≤◌};
ghost use Rattle.std.specs.Prelude.{◌↔◌, ◌&&◌, length, slice_index, IsTrue, if◌then◌else◌};
ghost use Rattle.house_base.specs.Grid.{cell};
ghost use Rattle.house_base.specs.declared.limits.TheConstants.{MOST_APPLICANTS};
ghost use Rattle.peer_selection.specs.Counting.{count_below, sum_below};
ghost use Rattle.peer_selection.specs.Shortage.{IsShort};
ghost use Rattle.cut_gap.specs.Cut.{marked, demand_of};

use crate::cut::Cut;
use house_base::Grid;

/// Whether the gap of a cut is above 0, for the pairs that each reviewer needs, those that each proposal has room
/// for, and the pairs that may be.
pub fn is_short(cut: &Cut, need: &[u32], room: &[u32], may: &Grid) -> bool
    requires side { length cut.now.reviewers ≡ may.now.side }
    requires needs { length need.now ≡ may.now.side }
    requires rooms { length room.now ≡ may.now.side }
    ensures { IsTrue result ↔ IsShort (demand_of need.now room.now may.now) (marked cut.now.reviewers)
        (marked cut.now.proposals) }
{
    room_outside(cut, room) + allowed(cut, may) < needed_in(cut, need)
}

/// What the reviewers of a cut need.
fn needed_in(cut: &Cut, need: &[u32]) -> u64
    requires { length need.now ≡ length cut.now.reviewers }
    ensures { result ≡ sum_below (λ r. if marked cut.now.reviewers r then slice_index need.now r else 0)
        (length cut.now.reviewers) }
{
    let mut total = 0;
    for reviewer in 0..cut.side() {
        if cut.has_reviewer(reviewer) {
            total += u64::from(need[reviewer as usize]);
        }
    }
    total
}

/// The room of the proposals outside a cut.
fn room_outside(cut: &Cut, room: &[u32]) -> u64
    requires { length room.now ≡ length cut.now.reviewers }
    ensures value { result ≡ sum_below
        (λ p. if marked cut.now.proposals p then 0 else slice_index room.now p) (length cut.now.reviewers) }
    ensures most { result ≤ u32.MAX * u32.MAX }
{
    let mut total = 0;
    for proposal in 0..cut.side() {
        if !cut.has_proposal(proposal) {
            total += u64::from(room[proposal as usize]);
        }
    }
    total
}

/// How many pairs of a reviewer and a proposal of a cut may be.
fn allowed(cut: &Cut, may: &Grid) -> u64
    requires { length cut.now.reviewers ≡ may.now.side }
    ensures value { result ≡ sum_below (λ r. if marked cut.now.reviewers r then count_below
        (λ p. marked cut.now.proposals p && cell may.now r p) may.now.side else 0) may.now.side }
    ensures most { result ≤ MOST_APPLICANTS * MOST_APPLICANTS }
{
    let mut total = 0;
    for reviewer in 0..may.side() {
        if cut.has_reviewer(reviewer) {
            total += u64::from(allowed_to(cut, may, reviewer));
        }
    }
    total
}

/// How many proposals of a cut a reviewer may review.
fn allowed_to(cut: &Cut, may: &Grid, reviewer: u32) -> u32
    requires side { length cut.now.reviewers ≡ may.now.side }
    requires below { reviewer < may.now.side }
    ensures value { result ≡ count_below (λ p. marked cut.now.proposals p && cell may.now reviewer p) may.now.side }
    ensures most { result ≤ may.now.side }
{
    let mut count = 0;
    for proposal in 0..cut.side() {
        if is_allowed(cut, may, reviewer, proposal) {
            count += 1;
        }
    }
    count
}

/// Whether a proposal is in a cut, and a reviewer may review it.
fn is_allowed(cut: &Cut, may: &Grid, reviewer: u32, proposal: u32) -> bool
    requires side { length cut.now.reviewers ≡ may.now.side }
    requires reviewer_below { reviewer < may.now.side }
    requires proposal_below { proposal < may.now.side }
    requires proposals { length cut.now.proposals ≡ may.now.side }
    ensures { result ≡ (marked cut.now.proposals proposal && cell may.now reviewer proposal) }
{
    cut.has_proposal(proposal) && may.get(reviewer, proposal)
}
