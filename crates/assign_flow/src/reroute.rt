//! Exchanging pairs along one closed walk, so that a further pair is held.

ghost use Rattle.std.specs.Prelude.{◌≡◌, ℕ, ◌<◌, true, false, vec_len};
ghost use Rattle.house_base.specs.Grid.{cell};
ghost use Rattle.assign_flow.specs.ClosedSet.{HasNoWayOut};
ghost use Rattle.assign_flow.specs.Reroute.{IsRerouted, IsBlocked};
ghost use Rattle.assign_flow.specs.Ways.{graph_of};

use crate::closed::Closed;
use crate::search::Search;
use crate::walk::walk_back;
use crate::ways::Ways;

/// Holds a free pair that is not held, by exchanging free pairs along a closed walk through it. False where there is
/// none; then the pairs stay, and what was reached is taken into the closed set.
fn reroute(
    ways: &mut Ways,
    search: &mut Search,
    closed: &mut Closed,
    reviewer: u32,
    proposal: u32,
) -> bool
    requires side { vec_len search.old.reviewers ≡ ways.old.free.side }
    requires closed { HasNoWayOut (graph_of ways.old) closed.old }
    requires reviewer_below { reviewer < ways.old.free.side }
    requires proposal_below { proposal < ways.old.free.side }
    requires free { cell ways.old.free reviewer proposal ≡ true }
    requires new { cell ways.old.held reviewer proposal ≡ false }
    ensures side { vec_len search.new.reviewers ≡ vec_len search.old.reviewers }
    ensures free { ways.new.free ≡ ways.old.free }
    ensures closed { HasNoWayOut (graph_of ways.old) closed.new }
    ensures rerouted { result ≡ true → IsRerouted ways.old.free.side (cell ways.old.free) (cell ways.old.held)
        (cell ways.new.held) reviewer proposal }
    ensures unchanged { result ≡ false → ways.new ≡ ways.old }
    ensures blocked { result ≡ false → IsBlocked (graph_of ways.old) reviewer proposal }
{
    let offered = ways.offered_by(reviewer);
    let Some(next) = search.from_proposal(ways, &offered, proposal) else {
        closed.extend(search, reviewer);
        return false;
    };
    ways.set_held(reviewer, proposal, true);
    ways.set_held(reviewer, next, false);
    walk_back(ways, search, next);
    true
}

/// Holds a free pair: it is held already, or pairs are exchanged. False where no exchange of free pairs can hold it;
/// then the pairs stay.
pub fn hold(
    ways: &mut Ways,
    search: &mut Search,
    closed: &mut Closed,
    reviewer: u32,
    proposal: u32,
) -> bool
    requires side { vec_len search.old.reviewers ≡ ways.old.free.side }
    requires closed { HasNoWayOut (graph_of ways.old) closed.old }
    requires reviewer_below { reviewer < ways.old.free.side }
    requires proposal_below { proposal < ways.old.free.side }
    requires free { cell ways.old.free reviewer proposal ≡ true }
    ensures side { vec_len search.new.reviewers ≡ vec_len search.old.reviewers }
    ensures free { ways.new.free ≡ ways.old.free }
    ensures closed { HasNoWayOut (graph_of ways.old) closed.new }
    ensures rerouted { result ≡ true → IsRerouted ways.old.free.side (cell ways.old.free) (cell ways.old.held)
        (cell ways.new.held) reviewer proposal }
    ensures unchanged { result ≡ false → ways.new ≡ ways.old }
    ensures unchanged_where_held { cell ways.old.held reviewer proposal ≡ true → ways.new ≡ ways.old }
    ensures new { result ≡ false → cell ways.old.held reviewer proposal ≡ false }
    ensures blocked { result ≡ false → IsBlocked (graph_of ways.old) reviewer proposal }
{
    if ways.is_held(reviewer, proposal) {
        return true;
    }
    if closed.separates(reviewer, proposal) {
        false
    } else {
        reroute(ways, search, closed, reviewer, proposal)
    }
}
