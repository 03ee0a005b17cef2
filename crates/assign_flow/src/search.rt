//! The search of a residual graph: what can be reached from its sources, and along which ways.

ghost use Rattle.std.specs.Prelude.{◌≡◌, ℕ, ◌+◌, ◌<◌, ◌≤◌, ◌==◌, ◌||◌, true, false, not};
ghost use Rattle.std.specs.Prelude.{vec_len, length, slice_index, IfOk, IfSome, IfNone, None, Some};
ghost use Rattle.peer_selection.specs.Shortage.{Places};
ghost use Rattle.cut_gap.specs.Cut.{marked};
ghost use Rattle.house_base.specs.declared.limits.TheConstants.{MOST_APPLICANTS};
ghost use Rattle.assign_flow.specs.Places.{places_of};

use crate::places::PlaceSet;
use crate::ways::Ways;
use cut_gap::Cut;
use house_base::Memory;
use house_base::limits::MOST_APPLICANTS;
use std::alloc::Global;

/// How a search reached a reviewer.
#[derive(Clone, Copy)]
pub struct ReviewerMark {
    /// How many reviewers had been reached before it.
    pub before: u32,
    /// The proposal from which it was reached; none for a source.
    pub from: Option<u32>,
}

/// How a search reached a proposal.
#[derive(Clone, Copy)]
pub struct ProposalMark {
    /// The reviewer from which it was reached; none for a source.
    pub from: Option<u32>,
}

/// What a search has reached, and what it can reach next.
#[derive(Drop)]
pub struct Search {
    /// How many reviewers are reached.
    pub count: u32,
    /// The marks of what is reached. Those of other places are left over from earlier searches.
    pub reviewers: Vec<ReviewerMark>,
    pub proposals: Vec<ProposalMark>,
    pub reached_reviewers: PlaceSet,
    pub reached_proposals: PlaceSet,
    /// The sources, and the reviewers to which ways lead from what is reached.
    pub near_reviewers: PlaceSet,
    /// The sources, and the proposals to which ways lead from what is reached.
    pub near_proposals: PlaceSet,
    /// The proposal that was reached last, in this search or an earlier one.
    pub last: u32,
    ghost few: { vec_len reviewers ≤ MOST_APPLICANTS },
    ghost proposals_len: { vec_len proposals ≡ vec_len reviewers },
    ghost reviewers_below: { (r : ℕ) → places_of near_reviewers r ≡ true → r < vec_len reviewers },
    ghost proposals_below: { (p : ℕ) → places_of near_proposals p ≡ true → p < vec_len reviewers },
}

impl Search {
    ghost use Rattle.assign_flow.specs.Residual.{wanting, nowhere, only, IsTree, IsFull, HasRoom};
    ghost use Rattle.assign_flow.specs.Residual.{IsGrown, HasReached, ReachesReviewer, ReachesProposal};
    ghost use Rattle.assign_flow.specs.Search.{tree_of, GoesFrom};
    ghost use Rattle.assign_flow.specs.Ways.{graph_of};

    /// Marks for this many reviewers and proposals.
    pub fn new(alloc: Global, side: u32) -> Result<Search, Memory>
        requires { side ≤ MOST_APPLICANTS }
        ensures { IfOk result (λ search. vec_len search.reviewers ≡ side) }
    {
        let side = side as usize;
        Ok(Search {
            count: 0,
            reviewers: vec![in alloc; ReviewerMark {
                before: 0,
                from: None
            }; side]?,
            proposals: vec![in alloc; ProposalMark { from: None }; side]?,
            reached_reviewers: PlaceSet::empty(),
            reached_proposals: PlaceSet::empty(),
            near_reviewers: PlaceSet::empty(),
            near_proposals: PlaceSet::empty(),
            last: 0,
        })
    }

    /// Forgets all that was reached and near.
    fn clear(&mut self)
        ensures side { vec_len self.new.reviewers ≡ vec_len self.old.reviewers }
        ensures count { self.new.count ≡ 0 }
        ensures reviewers { (r : ℕ) → (tree_of self.new).order r ≡ 0 }
        ensures proposals { (p : ℕ) → places_of self.new.reached_proposals p ≡ false }
        ensures near_reviewers { (r : ℕ) → places_of self.new.near_reviewers r ≡ false }
        ensures near_proposals { (p : ℕ) → places_of self.new.near_proposals p ≡ false }
    {
        self.count = 0;
        self.reached_reviewers = PlaceSet::empty();
        self.reached_proposals = PlaceSet::empty();
        self.near_reviewers = PlaceSet::empty();
        self.near_proposals = PlaceSet::empty();
    }

    /// Marks a reviewer as reached.
    fn mark_reviewer(&mut self, reviewer: u32, from: Option<u32>)
        requires below { reviewer < vec_len self.old.reviewers }
        requires few { self.old.count < vec_len self.old.reviewers }
        ensures side { vec_len self.new.reviewers ≡ vec_len self.old.reviewers }
        ensures near_reviewers { self.new.near_reviewers ≡ self.old.near_reviewers }
        ensures near_proposals { self.new.near_proposals ≡ self.old.near_proposals }
        ensures proposals { self.new.reached_proposals ≡ self.old.reached_proposals }
        ensures reviewers { (r : ℕ) → places_of self.new.reached_reviewers r
            ≡ (r == reviewer || places_of self.old.reached_reviewers r) }
        ensures reaches { ReachesReviewer (tree_of self.old)
            (tree_of self.new) reviewer from }
    {
        self.reviewers[reviewer as usize] = ReviewerMark {
            before: self.count,
            from,
        };
        self.reached_reviewers.insert(reviewer);
        self.count += 1;
    }

    /// Marks a proposal as reached.
    fn mark_proposal(&mut self, proposal: u32, from: Option<u32>)
        requires { proposal < vec_len self.old.reviewers }
        ensures side { vec_len self.new.reviewers ≡ vec_len self.old.reviewers }
        ensures near_reviewers { self.new.near_reviewers ≡ self.old.near_reviewers }
        ensures near_proposals { self.new.near_proposals ≡ self.old.near_proposals }
        ensures proposals { (p : ℕ) → places_of self.new.reached_proposals p
            ≡ (p == proposal || places_of self.old.reached_proposals p) }
        ensures reaches { ReachesProposal (tree_of self.old)
            (tree_of self.new) proposal from }
    {
        self.proposals[proposal as usize] = ProposalMark { from };
        self.reached_proposals.insert(proposal);
    }

    /// Reaches a reviewer that is near, and comes near to the proposals to which ways lead from it; or reaches one of
    /// these that has room.
    fn reach_reviewer(&mut self, ways: &Ways, room: &PlaceSet, reviewer: u32) -> Option<u32>
        requires ways { ways.now.free.side ≡ vec_len self.old.reviewers }
        requires tree { IsTree (graph_of ways.now) (tree_of self.old) }
        requires near { places_of self.old.near_reviewers reviewer ≡ true }
        requires new { places_of self.old.reached_reviewers reviewer ≡ false }
        ensures side { vec_len self.new.reviewers ≡ vec_len self.old.reviewers }
        ensures tree { IfNone result (IsTree (graph_of ways.now) (tree_of self.new)) }
        ensures goes { IfNone result ((a b : Places) → GoesFrom (graph_of ways.now) a b (places_of room.now) self.old
            → GoesFrom (graph_of ways.now) a b (places_of room.now) self.new) }
        ensures grown { IfSome result (λ found. (a b : Places)
            → GoesFrom (graph_of ways.now) a b (places_of room.now) self.old
            → IsGrown (graph_of ways.now) a b (places_of room.now) (tree_of self.new)) }
        ensures found { IfSome result (HasRoom ways.now.free.side (places_of room.now) (tree_of self.new)) }
        ensures reviewers { (r : ℕ) → places_of self.new.reached_reviewers r
            ≡ (r == reviewer || places_of self.old.reached_reviewers r) }
        ensures proposals { IfNone result (self.new.reached_proposals ≡ self.old.reached_proposals) }
    {
        let from = ways
            .offered_by(reviewer)
            .and(&self.reached_proposals)
            .next(0);
        self.mark_reviewer(reviewer, from);
        let ahead = ways.open_to(reviewer);
        if let Some(found) = ahead.and(room).next(0) {
            self.mark_proposal(found, Some(reviewer));
            return Some(found);
        }
        self.near_proposals = self.near_proposals.or(&ahead);
        None
    }

    /// Reaches a proposal that is near, and comes near to the reviewers to which ways lead from it.
    fn reach_proposal(&mut self, ways: &Ways, proposal: u32)
        requires ways { ways.now.free.side ≡ vec_len self.old.reviewers }
        requires tree { IsTree (graph_of ways.now) (tree_of self.old) }
        requires near { places_of self.old.near_proposals proposal ≡ true }
        requires new { places_of self.old.reached_proposals proposal ≡ false }
        ensures side { vec_len self.new.reviewers ≡ vec_len self.old.reviewers }
        ensures tree { IsTree (graph_of ways.now) (tree_of self.new) }
        ensures goes { (a b room : Places) → GoesFrom (graph_of ways.now) a b room self.old
            → GoesFrom (graph_of ways.now) a b room self.new }
        ensures proposals { (p : ℕ) → places_of self.new.reached_proposals p
            ≡ (p == proposal || places_of self.old.reached_proposals p) }
    {
        let from = ways
            .openers_of(proposal)
            .and(&self.reached_reviewers)
            .next(0);
        self.mark_proposal(proposal, from);
        self.near_reviewers = self.near_reviewers.or(&ways.holders_of(proposal));
    }

    /// A reviewer that is near and not reached yet.
    fn next_reviewer(&self) -> Option<u32>
        ensures near { IfSome result (λ r. places_of self.now.near_reviewers r ≡ true) }
        ensures new { IfSome result (λ r. places_of self.now.reached_reviewers r ≡ false) }
        ensures none { IfNone result ((r : ℕ) → places_of self.now.near_reviewers r ≡ true
            → places_of self.now.reached_reviewers r ≡ true) }
    {
        self.near_reviewers.without(&self.reached_reviewers).next(0)
    }

    /// A proposal that is near and not reached yet, from the one that was reached last on.
    fn next_proposal(&self) -> Option<u32>
        ensures near { IfSome result (λ p. places_of self.now.near_proposals p ≡ true) }
        ensures new { IfSome result (λ p. places_of self.now.reached_proposals p ≡ false) }
        ensures none { IfNone result ((p : ℕ) → places_of self.now.near_proposals p ≡ true
            → places_of self.now.reached_proposals p ≡ true) }
    {
        let fresh = self.near_proposals.without(&self.reached_proposals);
        match fresh.next(self.last) {
            Some(proposal) => Some(proposal),
            None => fresh.next(0),
        }
    }

    /// Reaches all reviewers that are near, or up to a proposal that has room.
    fn reach_reviewers(&mut self, ways: &Ways, room: &PlaceSet) -> Option<u32>
        requires ways { ways.now.free.side ≡ vec_len self.old.reviewers }
        requires tree { IsTree (graph_of ways.now) (tree_of self.old) }
        ensures side { vec_len self.new.reviewers ≡ vec_len self.old.reviewers }
        ensures tree { IfNone result (IsTree (graph_of ways.now) (tree_of self.new)) }
        ensures goes { IfNone result ((a b : Places) → GoesFrom (graph_of ways.now) a b (places_of room.now) self.old
            → GoesFrom (graph_of ways.now) a b (places_of room.now) self.new) }
        ensures grown { IfSome result (λ found. (a b : Places)
            → GoesFrom (graph_of ways.now) a b (places_of room.now) self.old
            → IsGrown (graph_of ways.now) a b (places_of room.now) (tree_of self.new)) }
        ensures found { IfSome result (HasRoom ways.now.free.side (places_of room.now) (tree_of self.new)) }
        ensures proposals { IfNone result (self.new.reached_proposals ≡ self.old.reached_proposals) }
        ensures all { IfNone result ((r : ℕ) → places_of self.new.near_reviewers r ≡ true
            → places_of self.new.reached_reviewers r ≡ true) }
    {
        while let Some(reviewer) = self.next_reviewer() {
            if let Some(found) = self.reach_reviewer(ways, room, reviewer) {
                return Some(found);
            }
        }
        None
    }

    /// Goes on until a proposal that has room is reached, or nothing more can be reached.
    fn run(&mut self, ways: &Ways, room: &PlaceSet) -> Option<u32>
        requires ways { ways.now.free.side ≡ vec_len self.old.reviewers }
        requires tree { IsTree (graph_of ways.now) (tree_of self.old) }
        ensures side { vec_len self.new.reviewers ≡ vec_len self.old.reviewers }
        ensures grown { (a b : Places) → GoesFrom (graph_of ways.now) a b (places_of room.now) self.old
            → IsGrown (graph_of ways.now) a b (places_of room.now) (tree_of self.new) }
        ensures found { IfSome result (HasRoom ways.now.free.side (places_of room.now) (tree_of self.new)) }
        ensures full { IfNone result ((a b : Places) → GoesFrom (graph_of ways.now) a b (places_of room.now) self.old
            → IsFull ways.now.free.side (places_of room.now) (tree_of self.new)) }
        ensures reached { IfNone result ((a b : Places) → GoesFrom (graph_of ways.now) a b (places_of room.now) self.old
            → HasReached (graph_of ways.now) a b (tree_of self.new)) }
    {
        loop {
            if let Some(found) = self.reach_reviewers(ways, room) {
                return Some(found);
            }
            let Some(proposal) = self.next_proposal() else {
                return None;
            };
            self.last = proposal;
            self.reach_proposal(ways, proposal);
        }
    }

    /// Searches from the reviewers to whom pairs are wanting for a proposal that has room.
    pub fn from_reviewers(&mut self, ways: &Ways, unmet: &[u32], room: &PlaceSet) -> Option<u32>
        requires ways { ways.now.free.side ≡ vec_len self.old.reviewers }
        requires unmet { length unmet.now ≡ vec_len self.old.reviewers }
        ensures side { vec_len self.new.reviewers ≡ vec_len self.old.reviewers }
        ensures grown { IsGrown (graph_of ways.now) (wanting unmet.now) nowhere (places_of room.now)
            (tree_of self.new) }
        ensures found { IfSome result (HasRoom ways.now.free.side (places_of room.now) (tree_of self.new)) }
        ensures full { IfNone result (IsFull ways.now.free.side (places_of room.now) (tree_of self.new)) }
        ensures reached { IfNone result (HasReached (graph_of ways.now)
            (wanting unmet.now) nowhere (tree_of self.new)) }
    {
        self.clear();
        self.near_reviewers = PlaceSet::of_some(unmet);
        self.run(ways, room)
    }

    /// Searches from one reviewer to whom pairs are wanting for a proposal that has room.
    pub fn from_reviewer(
        &mut self,
        ways: &Ways,
        unmet: &[u32],
        room: &PlaceSet,
        reviewer: u32,
    ) -> Option<u32>
        requires ways { ways.now.free.side ≡ vec_len self.old.reviewers }
        requires below { reviewer < vec_len self.old.reviewers }
        requires unmet { 0 < slice_index unmet.now reviewer }
        ensures side { vec_len self.new.reviewers ≡ vec_len self.old.reviewers }
        ensures grown { IsGrown (graph_of ways.now) (wanting unmet.now) nowhere (places_of room.now)
            (tree_of self.new) }
        ensures found { IfSome result (HasRoom ways.now.free.side (places_of room.now) (tree_of self.new)) }
    {
        self.clear();
        self.near_reviewers.insert(reviewer);
        self.run(ways, room)
    }

    /// Searches from a proposal for one that has room.
    pub fn from_proposal(&mut self, ways: &Ways, room: &PlaceSet, proposal: u32) -> Option<u32>
        requires ways { ways.now.free.side ≡ vec_len self.old.reviewers }
        requires below { proposal < vec_len self.old.reviewers }
        requires none { places_of room.now proposal ≡ false }
        ensures side { vec_len self.new.reviewers ≡ vec_len self.old.reviewers }
        ensures grown { IsGrown (graph_of ways.now) nowhere (only proposal) (places_of room.now)
            (tree_of self.new) }
        ensures found { IfSome result (HasRoom ways.now.free.side (places_of room.now) (tree_of self.new)) }
        ensures full { IfNone result (IsFull ways.now.free.side (places_of room.now) (tree_of self.new)) }
        ensures reached { IfNone result (HasReached (graph_of ways.now) nowhere (only proposal)
            (tree_of self.new)) }
    {
        self.clear();
        self.near_proposals.insert(proposal);
        self.run(ways, room)
    }

    /// The cut of the reviewers that were reached and the proposals that were not.
    pub fn cut(&self, alloc: Global) -> Result<Cut, Memory>
        ensures side { IfOk result (λ cut. length cut.reviewers ≡ vec_len self.now.reviewers) }
        ensures same_side { IfOk result (λ cut. length cut.proposals ≡ vec_len self.now.reviewers) }
        ensures reviewers { IfOk result (λ cut. (r : ℕ) → r < vec_len self.now.reviewers
            → marked cut.reviewers r ≡ places_of self.now.reached_reviewers r) }
        ensures proposals { IfOk result (λ cut. (p : ℕ) → p < vec_len self.now.reviewers
            → marked cut.proposals p ≡ not (places_of self.now.reached_proposals p)) }
    {
        let side = self.reviewers.len();
        let reviewers = marks_of(alloc, &self.reached_reviewers, side)?;
        let proposals = marks_outside(alloc, &self.reached_proposals, side)?;
        Ok(Cut::new(reviewers, proposals))
    }
}

/// For each place below a side whether it is in a set.
fn marks_of(alloc: Global, places: &PlaceSet, side: usize) -> Result<Vec<bool>, Memory>
    requires { side ≤ MOST_APPLICANTS }
    ensures len { IfOk result (λ marks. vec_len marks ≡ side) }
    ensures marks { IfOk result (λ marks. (i : ℕ) → i < side → marked marks.items i ≡ places_of places.now i) }
{
    let mut marks = vec![in alloc; false; side]?;
    for place in 0..side {
        marks[place] = places.has(place as u32);
    }
    Ok(marks)
}

/// For each place below a side whether it is outside of a set.
fn marks_outside(alloc: Global, places: &PlaceSet, side: usize) -> Result<Vec<bool>, Memory>
    requires { side ≤ MOST_APPLICANTS }
    ensures len { IfOk result (λ marks. vec_len marks ≡ side) }
    ensures marks { IfOk result (λ marks. (i : ℕ) → i < side
        → marked marks.items i ≡ not (places_of places.now i)) }
{
    let mut marks = vec![in alloc; false; side]?;
    for place in 0..side {
        marks[place] = !places.has(place as u32);
    }
    Ok(marks)
}
