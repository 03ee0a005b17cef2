//! The walk back along a search, which exchanges pairs that are held for others.

ghost use Rattle.std.specs.Prelude.{◌≡◌, ℕ, ◌<◌, true, vec_len};
ghost use Rattle.house_base.specs.Grid.{cell};
ghost use Rattle.assign_flow.specs.Places.{places_of};
ghost use Rattle.assign_flow.specs.Residual.{LeadsBack, WalksBack, height};
ghost use Rattle.assign_flow.specs.Search.{tree_of};

use crate::search::Search;
use crate::ways::Ways;

/// The source at which a walk back ends.
#[derive(Clone, Copy)]
pub enum End {
    AtReviewer(u32),
    AtProposal(u32),
}

/// Goes back from a proposal that was reached to a source: each proposal on the way is given to the reviewer from
/// which it was reached, and taken from the one that was reached from it.
pub fn walk_back(ways: &mut Ways, search: &Search, proposal: u32) -> End
    requires side { ways.old.free.side ≡ vec_len search.now.reviewers }
    requires below { proposal < ways.old.free.side }
    requires reached { places_of search.now.reached_proposals proposal ≡ true }
    requires leads { LeadsBack ways.old.free.side (cell ways.old.held) (tree_of search.now)
        (height (tree_of search.now) proposal) }
    ensures free { ways.new.free ≡ ways.old.free }
    ensures walks { WalksBack ways.old.free.side (tree_of search.now)
        (cell ways.old.held) (cell ways.new.held) proposal result }
{
    let mut hole = proposal;
    loop {
        let Some(reviewer) = search.proposals[hole as usize].from else {
            return End::AtProposal(hole);
        };
        ways.set_held(reviewer, hole, true);
        let Some(next) = search.reviewers[reviewer as usize].from else {
            return End::AtReviewer(reviewer);
        };
        ways.set_held(reviewer, next, false);
        hole = next;
    }
}
