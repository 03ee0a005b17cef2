//! A desk with its totals, which follow each review.

ghost use Rattle.std.specs.Prelude.{◌≡◌, ℕ, ◌<◌, ◌≤◌, IsTrue, IfOk, slice_index, ◌==◌, ◌&&◌, if◌then◌else◌};
ghost use Rattle.house_base.specs.Answer.{took_as};
ghost use Rattle.house_base.specs.Grid.{cell};
ghost use Rattle.house_base.specs.Setting.{size};
ghost use Rattle.house_base.specs.declared.answer.Kind.{Kind};
ghost use Rattle.house_base.specs.declared.answer.Took.TheVariants.{Aside};
ghost use Rattle.peer_selection.specs.Counting.{sum_below};
ghost use Rattle.peer_selection.specs.Profile.{is_valid};
ghost use Rattle.review_desk.specs.Desk.{points_at};
ghost use Rattle.review_desk.specs.Line.{kind_among, points_after};
ghost use Rattle.seat_quota.specs.Tally.{IsTally};

use crate::row::{MOST_ROW, row_cents};
use crate::rows::{cents, rows};
use crate::totals::Totals;
use house_base::limits::MOST_POINTS;
use house_base::{Grid, Memory, Plan, ReviewLine, Took};
use review_desk::{Desk, Review};
use std::alloc::Global;
use std::marker::Model;

/// A desk with its totals, which agree at every moment. The proposals of each person are kept in the order of rising
/// distance, with the cents that they have from it, so that a review costs one split of the one person's dollar.
#[derive(Drop)]
pub struct Tally {
    desk: Desk,
    totals: Totals,
    rows: Vec<Vec<u32>>,
    cents: Vec<[u32; MOST_ROW]>,
}

impl Model for Tally {
    ghost use Rattle.std.specs.Prelude.{map};
    ghost use Rattle.seat_quota.specs.Tally.{DeskTotals, HoldsRows};

    ghost Value = { DeskTotals };

    ghost view = { λ t. record { desk = t.desk; totals = t.totals } };

    ghost invariant = { λ t. HoldsRows t.desk (map (λ row. row.items) t.rows.items) t.cents.items };
}

impl Tally {
    /// The tally of an assignment of a plan, for which no points were given yet. It takes all the memory that the
    /// reviews need.
    pub fn set_up(alloc: Global, plan: &Plan, pairs: Grid) -> Result<Tally, Memory>
        requires side { pairs.side ≡ size plan.now }
        requires valid { IsTrue (is_valid plan.now (cell pairs)) }
        ensures set_up { IfOk result (λ tally. IsTally plan.now tally) }
        ensures pairs { IfOk result (λ tally. tally.desk.pairs ≡ pairs) }
        ensures silent { IfOk result (λ tally. (r p : ℕ) → points_at tally.desk r p ≡ 0) }
        ensures whole { IfOk result (λ tally. sum_below (slice_index tally.totals.clusters) plan.now.clusters
            ≡ tally.totals.den) }
    {
        let rows = rows(alloc, &pairs)?;
        let desk = Desk::set_up(alloc, plan, pairs)?;
        let cents = cents(alloc, plan, &desk, &rows)?;
        let totals = Totals::of_rows(alloc, plan, &desk, &rows, &cents)?;
        Ok(Tally {
            desk,
            totals,
            rows,
            cents,
        })
    }

    /// Takes a whole review line as the desk does, and brings the totals up to date. It takes no memory.
    pub fn review(&mut self, plan: &Plan, line: &ReviewLine) -> Took
        requires set_up { IsTally plan.now self.old }
        ensures took { result ≡ took_as (kind_among plan.now (cell self.old.desk.pairs) line.now) }
        ensures points { (r p : ℕ) → r < size plan.now → p < size plan.now →
            points_at self.new.desk r p
            ≡ points_after plan.now (cell self.old.desk.pairs) (points_at self.old.desk) line.now r p }
        ensures pairs { self.new.desk.pairs ≡ self.old.desk.pairs }
        ensures aside { (kind : Kind) → result ≡ Aside kind → self.new ≡ self.old }
        ensures set_up { IsTally plan.now self.new }
        ensures whole { sum_below (slice_index self.new.totals.clusters) plan.now.clusters ≡ self.new.totals.den }
    {
        match self.desk.find(plan, line) {
            Ok(review) => {
                self.keep(plan, review);
                Took::Kept
            }
            Err(kind) => Took::Aside(kind),
        }
    }

    /// Sets the points of one pair, and exchanges the cents of the one person's row. Points that stand already change
    /// nothing.
    fn keep(&mut self, plan: &Plan, review: Review)
        requires set_up { IsTally plan.now self.old }
        requires reviewer { review.reviewer < size plan.now }
        requires proposal { review.proposal < size plan.now }
        requires assigned { IsTrue (cell self.old.desk.pairs review.reviewer review.proposal) }
        requires most { review.points ≤ MOST_POINTS }
        ensures points { (r p : ℕ) → r < size plan.now → p < size plan.now → points_at self.new.desk r p
            ≡ (if r == review.reviewer && p == review.proposal then review.points else points_at self.old.desk r p) }
        ensures pairs { self.new.desk.pairs ≡ self.old.desk.pairs }
        ensures set_up { IsTally plan.now self.new }
    {
        if self.desk.points(review.reviewer, review.proposal) == review.points {
            return;
        }
        let at = review.reviewer as usize;
        let row = self.rows[at].as_slice();
        self.desk.keep(review);
        let after = row_cents(&self.desk, review.reviewer, row);
        self.totals.exchange_row(plan, row, &self.cents[at], &after);
        self.cents[at] = after;
    }

    /// The desk.
    pub fn desk(&self) -> &Desk
        ensures { result.now ≡ self.now.desk }
    {
        &self.desk
    }

    /// Its totals.
    pub fn totals(&self) -> &Totals
        ensures { result.now ≡ self.now.totals }
    {
        &self.totals
    }
}
