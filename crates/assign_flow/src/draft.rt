//! Pairs on their way to meet all needs and rooms.

ghost use Rattle.std.specs.Prelude.{◌≡◌, ◌≢◌, ℕ, ◌<◌, ◌≤◌, ◌↔◌};
ghost use Rattle.std.specs.Prelude.{true, false, IsTrue, IfOk, length, vec_len, slice_index};
ghost use Rattle.house_base.specs.Grid.{cell};
ghost use Rattle.house_base.specs.declared.limits.TheConstants.{MOST_APPLICANTS};
ghost use Rattle.peer_selection.specs.Counting.{sum_below};
ghost use Rattle.assign_flow.specs.Places.{places_of};

use crate::places::PlaceSet;
use crate::rooms::Rooms;
use crate::search::Search;
use crate::walk::{End, walk_back};
use crate::ways::Ways;
use house_base::limits::MOST_APPLICANTS;
use house_base::{Grid, Memory};
use std::alloc::Global;

/// Pairs that go past no need and no room, and how many are wanting to each reviewer and proposal. All pairs that may
/// be are free.
#[derive(Drop)]
pub struct Draft {
    pub ways: Ways,
    pub unmet: Vec<u32>,
    pub rooms: Rooms,
    ghost unmet_len: { vec_len unmet ≡ ways.free.side },
    ghost rooms_len: { vec_len rooms.spare ≡ ways.free.side },
}

impl Draft {
    ghost use Rattle.assign_flow.specs.Draft.{FitsWithin, CanTake};
    ghost use Rattle.assign_flow.specs.Residual.{wanting, nowhere, IsGrown, HasReached, IsFull};
    ghost use Rattle.assign_flow.specs.Search.{tree_of};
    ghost use Rattle.assign_flow.specs.Ways.{graph_of};

    /// No pairs, for these needs and rooms.
    pub fn new(alloc: Global, need: &[u32], room: &[u32], may: &Grid) -> Result<Draft, Memory>
        requires needs { length need.now ≡ may.now.side }
        requires rooms { length room.now ≡ may.now.side }
        requires few { may.now.side ≤ MOST_APPLICANTS }
        ensures free { IfOk result (λ draft. draft.ways.free ≡ may.now) }
        ensures fits { IfOk result (λ draft. FitsWithin (slice_index need.now) (slice_index room.now) draft) }
    {
        Ok(Draft {
            ways: Ways::new(alloc, may)?,
            unmet: need.to_vec(alloc)?,
            rooms: Rooms::new(alloc, room)?,
        })
    }

    /// Takes a pair.
    fn take(&mut self, reviewer: u32, proposal: u32)
        requires below { reviewer < self.old.ways.free.side }
        requires unmet { 0 < slice_index self.old.unmet.items reviewer }
        requires can { CanTake self.old reviewer proposal }
        ensures free { self.new.ways.free ≡ self.old.ways.free }
        ensures fits { (need room : ℕ → ℕ) → FitsWithin need room self.old → FitsWithin need room self.new }
        ensures others { (p : ℕ) → p ≢ proposal → CanTake self.old reviewer p → CanTake self.new reviewer p }
    {
        self.ways.set_held(reviewer, proposal, true);
        self.unmet[reviewer as usize] -= 1;
        self.rooms.take(proposal);
    }

    /// Takes for a reviewer the proposals of a set from one place up to another, while pairs are wanting to it.
    fn take_within(&mut self, reviewer: u32, proposals: &PlaceSet, start: u32, end: u32)
        requires below { reviewer < self.old.ways.free.side }
        requires can { (p : ℕ) → start ≤ p → p < end → places_of proposals.now p ≡ true
            → CanTake self.old reviewer p }
        ensures free { self.new.ways.free ≡ self.old.ways.free }
        ensures fits { (need room : ℕ → ℕ) → FitsWithin need room self.old → FitsWithin need room self.new }
        ensures others { (p : ℕ) → p < start → CanTake self.old reviewer p → CanTake self.new reviewer p }
    {
        let mut from = start;
        while self.unmet[reviewer as usize] > 0 {
            let Some(proposal) = proposals.next(from) else {
                return;
            };
            if proposal >= end {
                return;
            }
            self.take(reviewer, proposal);
            from = proposal + 1;
        }
    }

    /// Takes for a reviewer what may be taken at once, the nearest proposals behind it first.
    fn fill_reviewer(&mut self, reviewer: u32)
        requires { reviewer < self.old.ways.free.side }
        ensures free { self.new.ways.free ≡ self.old.ways.free }
        ensures fits { (need room : ℕ → ℕ) → FitsWithin need room self.old → FitsWithin need room self.new }
    {
        let side = self.ways.side();
        let proposals = self.ways.open_to(reviewer).and(&self.rooms.with_room);
        self.take_within(reviewer, &proposals, reviewer + 1, side);
        self.take_within(reviewer, &proposals, 0, reviewer);
    }

    /// Takes for each reviewer what may be taken at once.
    pub fn fill(&mut self)
        ensures free { self.new.ways.free ≡ self.old.ways.free }
        ensures fits { (need room : ℕ → ℕ) → FitsWithin need room self.old → FitsWithin need room self.new }
    {
        for reviewer in 0..self.ways.side() {
            self.fill_reviewer(reviewer);
        }
    }

    /// Holds one pair more along the path that a search has found to a proposal with room.
    fn exchange(&mut self, search: &Search, proposal: u32)
        requires side { vec_len search.now.reviewers ≡ self.old.ways.free.side }
        requires below { proposal < self.old.ways.free.side }
        requires reached { places_of search.now.reached_proposals proposal ≡ true }
        requires room { places_of self.old.rooms.with_room proposal ≡ true }
        requires grown { IsGrown (graph_of self.old.ways) (wanting self.old.unmet.items) nowhere
            (places_of self.old.rooms.with_room) (tree_of search.now) }
        ensures free { self.new.ways.free ≡ self.old.ways.free }
        ensures fits { (need room : ℕ → ℕ) → FitsWithin need room self.old → FitsWithin need room self.new }
        ensures fewer { sum_below (slice_index self.new.unmet.items) self.old.ways.free.side
            < sum_below (slice_index self.old.unmet.items) self.old.ways.free.side }
    {
        let End::AtReviewer(reviewer) = walk_back(&mut self.ways, search, proposal) else {
            unreachable!()
        };
        self.unmet[reviewer as usize] -= 1;
        self.rooms.take(proposal);
    }

    /// Holds one pair more, by exchanging others along an augmenting path. False where there is no such path: then the
    /// search has reached no proposal with room.
    pub fn augment(&mut self, search: &mut Search) -> bool
        requires { vec_len search.old.reviewers ≡ self.old.ways.free.side }
        ensures free { self.new.ways.free ≡ self.old.ways.free }
        ensures search { vec_len search.new.reviewers ≡ vec_len search.old.reviewers }
        ensures fits { (need room : ℕ → ℕ) → FitsWithin need room self.old → FitsWithin need room self.new }
        ensures fewer { result ≡ true → sum_below (slice_index self.new.unmet.items) self.old.ways.free.side
            < sum_below (slice_index self.old.unmet.items) self.old.ways.free.side }
        ensures reached { result ≡ false → HasReached (graph_of self.new.ways) (wanting self.new.unmet.items) nowhere
            (tree_of search.new) }
        ensures full { result ≡ false → IsFull self.new.ways.free.side (wanting self.new.rooms.spare.items)
            (tree_of search.new) }
    {
        let found = search.from_reviewers(&self.ways, &self.unmet, &self.rooms.with_room);
        let Some(proposal) = found else {
            return false;
        };
        self.exchange(search, proposal);
        true
    }

    /// Holds one pair more for a reviewer, by exchanging others along an augmenting path. False where there is no such
    /// path.
    fn augment_from(&mut self, search: &mut Search, reviewer: u32) -> bool
        requires search { vec_len search.old.reviewers ≡ self.old.ways.free.side }
        requires below { reviewer < self.old.ways.free.side }
        requires unmet { 0 < slice_index self.old.unmet.items reviewer }
        ensures free { self.new.ways.free ≡ self.old.ways.free }
        ensures search { vec_len search.new.reviewers ≡ vec_len search.old.reviewers }
        ensures fits { (need room : ℕ → ℕ) → FitsWithin need room self.old → FitsWithin need room self.new }
        ensures fewer { result ≡ true → sum_below (slice_index self.new.unmet.items) self.old.ways.free.side
            < sum_below (slice_index self.old.unmet.items) self.old.ways.free.side }
    {
        let found = search.from_reviewer(&self.ways, &self.unmet, &self.rooms.with_room, reviewer);
        let Some(proposal) = found else {
            return false;
        };
        self.exchange(search, proposal);
        true
    }

    /// Holds pairs for a reviewer until none are wanting to it, or there is no augmenting path from it.
    pub fn serve(&mut self, search: &mut Search, reviewer: u32)
        requires search { vec_len search.old.reviewers ≡ self.old.ways.free.side }
        requires below { reviewer < self.old.ways.free.side }
        ensures free { self.new.ways.free ≡ self.old.ways.free }
        ensures search { vec_len search.new.reviewers ≡ vec_len search.old.reviewers }
        ensures fits { (need room : ℕ → ℕ) → FitsWithin need room self.old → FitsWithin need room self.new }
    {
        while self.unmet[reviewer as usize] > 0 {
            if !self.augment_from(search, reviewer) {
                return;
            }
        }
    }

    /// Whether nothing is wanting to the reviewers.
    pub fn is_complete(&self) -> bool
        ensures { IsTrue result ↔ ((r : ℕ) → r < self.now.ways.free.side → slice_index self.now.unmet.items r ≡ 0) }
    {
        for unmet in &self.unmet {
            if *unmet > 0 {
                return false;
            }
        }
        true
    }

    /// The pairs alone, and their ways.
    pub fn into_ways(self) -> Ways
        ensures { result ≡ self.ways }
    {
        let Draft {
            ways,
            unmet: _,
            rooms: _,
        } = self;
        ways
    }
}
