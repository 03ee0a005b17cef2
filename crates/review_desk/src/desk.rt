//! The points that stand for each pair of an assignment.

ghost use Rattle.std.specs.Prelude.{◌≡◌, ℕ, ◌<◌, ◌≤◌, false, Some, None, IsTrue, IfOk, IfErr, ◌==◌, ◌&&◌, if◌then◌else◌};
ghost use Rattle.house_base.specs.Answer.{took_as};
ghost use Rattle.house_base.specs.Grid.{cell};
ghost use Rattle.house_base.specs.Setting.{Setting, size};
ghost use Rattle.house_base.specs.declared.answer.Kind.{Kind};
ghost use Rattle.house_base.specs.declared.answer.Took.TheVariants.{Aside};
ghost use Rattle.peer_selection.specs.Profile.{is_valid};
ghost use Rattle.review_desk.specs.Desk.{IsSetUp, points_at};
ghost use Rattle.review_desk.specs.Line.{kind_among, reviewer_of, proposal_of, points_in, points_after};

use crate::places::{applicants, persons, proposal_place, reviewer_place};
use house_base::limits::MOST_POINTS;
use house_base::{Grid, Kind, Memory, Plan, ReviewLine, Took};
use name_index::NameIndex;
use std::alloc::Global;
use std::marker::Model;

/// A review by places: the person's, the applicant's, and the points.
#[derive(Clone, Copy, Debug, PartialEq, Eq)]
pub struct Review {
    pub reviewer: u32,
    pub proposal: u32,
    pub points: u32,
}

/// The pairs of an assignment, the points that stand for each, and the names of the persons and of the applicants, so
/// that no line is looked up by a walk over a list. Points fit a byte: those of the most applicants take a million
/// bytes.
#[derive(Drop)]
pub struct Desk {
    pairs: Grid,
    points: Vec<u8>,
    reviewers: NameIndex,
    proposals: NameIndex,
}

impl Model for Desk {
    ghost use Rattle.review_desk.specs.Desk.{Marks, HoldsPoints};

    ghost Value = { Marks };

    ghost view = { λ d. record { pairs = d.pairs; points = d.points.items; reviewers = d.reviewers; proposals = d.proposals } };

    ghost invariant = { λ d. HoldsPoints d.pairs d.points.items };
}

impl Desk {
    /// The desk of an assignment of a plan, for which no points were given yet.
    pub fn set_up(alloc: Global, plan: &Plan, pairs: Grid) -> Result<Desk, Memory>
        requires side { pairs.side ≡ size plan.now }
        requires valid { IsTrue (is_valid plan.now (cell pairs)) }
        ensures set_up { IfOk result (λ desk. IsSetUp plan.now desk) }
        ensures pairs { IfOk result (λ desk. desk.pairs ≡ pairs) }
        ensures silent { IfOk result (λ desk. (r p : ℕ) → points_at desk r p ≡ 0) }
    {
        let side = plan.count() as usize;
        let points = vec![in alloc; 0; side * side]?;
        let reviewers = persons(alloc, plan)?;
        let proposals = applicants(alloc, plan)?;
        Ok(Desk {
            pairs,
            points,
            reviewers,
            proposals,
        })
    }

    /// Takes a whole review line, while reviews are taken, or says why it is set aside. Of the lines that are kept
    /// for a pair the last one counts. It takes no memory.
    pub fn review(&mut self, plan: &Plan, line: &ReviewLine) -> Took
        requires set_up { IsSetUp plan.now self.old }
        ensures took { result ≡ took_as (kind_among plan.now (cell self.old.pairs) line.now) }
        ensures points { (r p : ℕ) → r < size plan.now → p < size plan.now →
            points_at self.new r p ≡ points_after plan.now (cell self.old.pairs) (points_at self.old) line.now r p }
        ensures pairs { self.new.pairs ≡ self.old.pairs }
        ensures aside { (kind : Kind) → result ≡ Aside kind → self.new ≡ self.old }
        ensures set_up { IsSetUp plan.now self.new }
    {
        match self.find(plan, line) {
            Ok(review) => {
                self.keep(review);
                Took::Kept
            }
            Err(kind) => Took::Aside(kind),
        }
    }

    /// The review that a whole line asks for, by places, or why the line is set aside.
    pub fn find(&self, plan: &Plan, line: &ReviewLine) -> Result<Review, Kind>
        requires set_up { IsSetUp plan.now self.now }
        ensures aside { IfErr result (λ kind. kind_among plan.now (cell self.now.pairs) line.now ≡ Some kind) }
        ensures kept { IfOk result (λ review. kind_among plan.now (cell self.now.pairs) line.now ≡ None) }
        ensures reviewer { IfOk result (λ review. review.reviewer ≡ reviewer_of plan.now line.now) }
        ensures proposal { IfOk result (λ review. review.proposal ≡ proposal_of plan.now line.now) }
        ensures points { IfOk result (λ review. review.points ≡ points_in line.now) }
        ensures most { IfOk result (λ review. review.points ≤ MOST_POINTS) }
        ensures reviewer_below { IfOk result (λ review. review.reviewer < size plan.now) }
        ensures proposal_below { IfOk result (λ review. review.proposal < size plan.now) }
        ensures assigned { IfOk result (λ review. IsTrue (cell self.now.pairs review.reviewer review.proposal)) }
    {
        let Some(reviewer) = reviewer_place(&self.reviewers, plan, line) else {
            return Err(Kind::Unknown);
        };
        let Some(proposal) = proposal_place(&self.proposals, line) else {
            return Err(Kind::Unknown);
        };
        if !self.pairs.get(reviewer, proposal) {
            return Err(Kind::Unassigned);
        }
        match line.points {
            Some(points) if points <= MOST_POINTS => Ok(Review {
                reviewer,
                proposal,
                points,
            }),
            _ => Err(Kind::Range),
        }
    }

    /// Sets the points of one pair of the assignment, and leaves every other.
    pub fn keep(&mut self, review: Review)
        requires reviewer { review.reviewer < self.old.pairs.side }
        requires proposal { review.proposal < self.old.pairs.side }
        requires assigned { IsTrue (cell self.old.pairs review.reviewer review.proposal) }
        requires most { review.points ≤ MOST_POINTS }
        ensures points { (r p : ℕ) → r < self.old.pairs.side → p < self.old.pairs.side → points_at self.new r p
            ≡ (if r == review.reviewer && p == review.proposal then review.points else points_at self.old r p) }
        ensures pairs { self.new.pairs ≡ self.old.pairs }
        ensures reviewers { self.new.reviewers ≡ self.old.reviewers }
        ensures proposals { self.new.proposals ≡ self.old.proposals }
    {
        let at = review.reviewer as usize * self.pairs.side() as usize + review.proposal as usize;
        self.points[at] = review.points as u8;
    }

    /// The points that stand for a pair: 0 where none were given, or where the pair is not assigned.
    pub fn points(&self, reviewer: u32, proposal: u32) -> u32
        requires reviewer { reviewer < self.now.pairs.side }
        requires proposal { proposal < self.now.pairs.side }
        ensures value { result ≡ points_at self.now reviewer proposal }
        ensures most { result ≤ MOST_POINTS }
        ensures assigned { cell self.now.pairs reviewer proposal ≡ false → result ≡ 0 }
    {
        let at = reviewer as usize * self.pairs.side() as usize + proposal as usize;
        u32::from(self.points[at])
    }

    /// The pairs of the assignment.
    pub fn grid(&self) -> &Grid
        ensures { result.now ≡ self.now.pairs }
    {
        &self.pairs
    }
}
