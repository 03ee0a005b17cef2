//! The totals of a desk, added up whole.

ghost use Rattle.std.specs.Prelude.{◌≡◌, ℕ, ◌+◌, ◌-◌, ◌*◌, ◌<◌, ◌≤◌, ◌≢◌, replicate, length, map, slice_index, IfOk};
ghost use Rattle.house_base.specs.Setting.{IsSetting, size};
ghost use Rattle.peer_selection.specs.Counting.{sum_below};
ghost use Rattle.peer_selection.specs.Profile.{score};
ghost use Rattle.review_desk.specs.Desk.{IsSetUp, desk_profile};
ghost use Rattle.seat_quota.specs.Tally.{HoldsRows};
ghost use Rattle.seat_quota.specs.Totals.{HoldsTotals, IsExchange, IsSummed, IsTotals, cluster_sum, found_in};

use crate::row::{MOST_ROW, give};
use crate::rows::{cents, rows};
use house_base::limits::DOLLAR;
use house_base::{Memory, Plan};
use review_desk::Desk;
use std::alloc::Global;
use std::marker::Model;

/// The scores of the applicants, in cents and by place, and their sums in each cluster.
#[derive(Drop)]
pub struct Totals {
    scores: Vec<u64>,
    clusters: Vec<u64>,
    den: u64,
}

impl Model for Totals {
    ghost use Rattle.seat_quota.specs.Tally.{HoldsRows};
    ghost use Rattle.seat_quota.specs.Totals.{Shares};

    ghost Value = { Shares };

    ghost view = { λ t. record { scores = t.scores.items; clusters = t.clusters.items; den = t.den } };
}

impl Totals {
    /// The totals of the points that stand at a desk.
    pub fn of(alloc: Global, plan: &Plan, desk: &Desk) -> Result<Totals, Memory>
        requires desk { IsSetUp plan.now desk.now }
        ensures held { IfOk result (λ totals. HoldsTotals plan.now totals) }
        ensures value { IfOk result (λ totals. IsTotals (desk_profile plan.now desk.now) totals) }
        ensures whole { IfOk result (λ totals. sum_below (slice_index totals.clusters) plan.now.clusters ≡ totals.den) }
    {
        let rows = rows(alloc, desk.grid())?;
        let cents = cents(alloc, plan, desk, &rows)?;
        Totals::of_rows(alloc, plan, desk, &rows, &cents)
    }

    /// The totals of the points that stand at a desk, from the rows of all persons and the cents that they give.
    pub(crate) fn of_rows(
        alloc: Global,
        plan: &Plan,
        desk: &Desk,
        rows: &[Vec<u32>],
        cents: &[[u32; MOST_ROW]],
    ) -> Result<Totals, Memory>
        requires desk { IsSetUp plan.now desk.now }
        requires rows { HoldsRows desk.now (map (λ row. row.items) rows.now) cents.now }
        ensures held { IfOk result (λ totals. HoldsTotals plan.now totals) }
        ensures value { IfOk result (λ totals. IsTotals (desk_profile plan.now desk.now) totals) }
        ensures whole { IfOk result (λ totals. sum_below (slice_index totals.clusters) plan.now.clusters ≡ totals.den) }
    {
        let scores = scores(alloc, plan, desk, rows, cents)?;
        let clusters = cluster_sums(alloc, plan, &scores)?;
        Ok(Totals {
            scores,
            clusters,
            den: u64::from(plan.owners()) * u64::from(DOLLAR),
        })
    }

    /// The score of the applicant at a place, in cents.
    pub fn score(&self, place: u32) -> u64
        requires { place < length self.now.scores }
        ensures { result ≡ slice_index self.now.scores place }
    {
        self.scores[place as usize]
    }

    /// The cents that a cluster gets, of those counted from 1.
    pub fn cluster_cents(&self, cluster: u32) -> u64
        requires from_one { 1 ≤ cluster }
        requires at_most { cluster ≤ length self.now.clusters }
        ensures { result ≡ slice_index self.now.clusters (cluster - 1) }
    {
        self.clusters[cluster as usize - 1]
    }

    /// A dollar for each person, in cents.
    pub fn denominator(&self) -> u64
        ensures { result ≡ self.now.den }
    {
        self.den
    }

    /// Takes from the proposals of a row, and from their clusters, the cents that they had from one person, and gives
    /// them others.
    pub(crate) fn exchange_row(&mut self, plan: &Plan, row: &[u32], before: &[u32], after: &[u32])
        requires { IsExchange plan.now self.old row.now before.now after.now }
        ensures scores { (p : ℕ) → p < size plan.now → slice_index self.new.scores p + found_in before.now row.now p
            ≡ slice_index self.old.scores p + found_in after.now row.now p }
        ensures summed { IsSummed plan.now self.new }
        ensures den { self.new.den ≡ self.old.den }
    {
        for i in 0..row.len() {
            self.exchange(plan, row[i], before[i], after[i]);
        }
    }

    /// Takes cents from one applicant and its cluster, and gives them others.
    fn exchange(&mut self, plan: &Plan, place: u32, before: u32, after: u32)
        requires setting { IsSetting plan.now }
        requires place { place < size plan.now }
        requires summed { IsSummed plan.now self.old }
        requires enough { before ≤ slice_index self.old.scores place }
        requires few { after ≤ DOLLAR }
        requires most { (p : ℕ) → p < size plan.now → slice_index self.old.scores p ≤ size plan.now * DOLLAR + DOLLAR }
        ensures score { slice_index self.new.scores place + before ≡ slice_index self.old.scores place + after }
        ensures others { (p : ℕ) → p < size plan.now → p ≢ place →
            slice_index self.new.scores p ≡ slice_index self.old.scores p }
        ensures summed { IsSummed plan.now self.new }
        ensures den { self.new.den ≡ self.old.den }
    {
        let cluster = plan.person(place).cluster as usize - 1;
        let score = self.scores[place as usize] - u64::from(before) + u64::from(after);
        let sum = self.clusters[cluster] - u64::from(before) + u64::from(after);
        self.scores[place as usize] = score;
        self.clusters[cluster] = sum;
    }
}

/// So many zeros.
fn zeros(alloc: Global, count: u32) -> Result<Vec<u64>, Memory>
    ensures { IfOk result (λ xs. xs.items ≡ replicate count 0) }
{
    let xs = vec![in alloc; 0; count as usize]?;
    Ok(xs)
}

/// The scores of all applicants, by place: what the persons give along their rows.
fn scores(
    alloc: Global,
    plan: &Plan,
    desk: &Desk,
    rows: &[Vec<u32>],
    cents: &[[u32; MOST_ROW]],
) -> Result<Vec<u64>, Memory>
    requires desk { IsSetUp plan.now desk.now }
    requires rows { HoldsRows desk.now (map (λ row. row.items) rows.now) cents.now }
    ensures len { IfOk result (λ scores. length scores.items ≡ size plan.now) }
    ensures value { IfOk result (λ scores. (p : ℕ) → p < size plan.now →
        slice_index scores.items p ≡ score (desk_profile plan.now desk.now) p) }
{
    let mut scores = zeros(alloc, plan.count())?;
    for reviewer in 0..desk.grid().side() {
        let at = reviewer as usize;
        give(&rows[at], &cents[at], &mut scores);
    }
    Ok(scores)
}

/// The sums of the scores in each cluster.
fn cluster_sums(alloc: Global, plan: &Plan, scores: &[u64]) -> Result<Vec<u64>, Memory>
    requires len { length scores.now ≡ size plan.now }
    requires most { (p : ℕ) → p < size plan.now → slice_index scores.now p ≤ size plan.now * DOLLAR }
    ensures len { IfOk result (λ sums. length sums.items ≡ plan.now.clusters) }
    ensures value { IfOk result (λ sums. (j : ℕ) → j < plan.now.clusters →
        slice_index sums.items j ≡ cluster_sum plan.now (slice_index scores.now) (j + 1) (size plan.now)) }
{
    let mut sums = zeros(alloc, plan.call().clusters)?;
    for place in 0..plan.count() {
        let cluster = plan.person(place).cluster as usize - 1;
        sums[cluster] += scores[place as usize];
    }
    Ok(sums)
}
