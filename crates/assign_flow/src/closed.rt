//! A closed set of the residual graph: reviewers and proposals out of which no way leads.

ghost use Rattle.std.specs.Prelude.{◌≡◌, ℕ, ◌<◌, ◌&&◌, not, false, vec_len};
ghost use Rattle.house_base.specs.declared.rows.TheConstants.{ROW_BITS};
ghost use Rattle.assign_flow.specs.Places.{places_of};

use crate::places::PlaceSet;
use crate::search::Search;
use house_base::rows::ROW_BITS;

/// Reviewers and proposals out of which no way leads.
#[derive(Clone, Copy)]
pub struct Closed {
    pub reviewers: PlaceSet,
    pub proposals: PlaceSet,
}

impl Closed {
    ghost use Rattle.assign_flow.specs.ClosedSet.{HasNoWayOut};
    ghost use Rattle.assign_flow.specs.Residual.{Residual, IsClosed, reviewers_of};
    ghost use Rattle.assign_flow.specs.Search.{tree_of};

    /// No reviewer and no proposal.
    pub fn empty() -> Closed
        ensures reviewers { (r : ℕ) → places_of result.reviewers r ≡ false }
        ensures proposals { (p : ℕ) → places_of result.proposals p ≡ false }
    {
        Closed {
            reviewers: PlaceSet::empty(),
            proposals: PlaceSet::empty(),
        }
    }

    /// Whether the proposal is in the set, and the reviewer is not: then no way leads from the one to the other.
    pub fn separates(&self, reviewer: u32, proposal: u32) -> bool
        requires reviewer_below { reviewer < ROW_BITS }
        requires proposal_below { proposal < ROW_BITS }
        ensures { result ≡ (not (places_of self.now.reviewers reviewer) && places_of self.now.proposals proposal) }
    {
        !self.reviewers.has(reviewer) && self.proposals.has(proposal)
    }

    /// Takes in what a search has reached. Where the reviewer was in the set, all else is let go.
    pub fn extend(&mut self, search: &Search, reviewer: u32)
        requires { reviewer < ROW_BITS }
        ensures { (g : Residual) → HasNoWayOut g self.old
            → IsClosed g (reviewers_of (tree_of search.now)) (tree_of search.now).reached
            → HasNoWayOut g self.new }
    {
        if self.reviewers.has(reviewer) {
            self.reviewers = search.reached_reviewers;
            self.proposals = search.reached_proposals;
        } else {
            self.reviewers = self.reviewers.or(&search.reached_reviewers);
            self.proposals = self.proposals.or(&search.reached_proposals);
        }
    }
}
