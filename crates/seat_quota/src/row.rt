//! The proposals of one person, and the cents that they get from it.

ghost use Rattle.std.specs.Prelude.{◌≡◌, ℕ, ◌+◌, ◌-◌, ◌^◌, ◌<◌, ◌≤◌, ◌++◌, length, map, slice_index, IfOk, OnOk};
ghost use Rattle.house_base.specs.Grid.{cell};
ghost use Rattle.peer_selection.specs.Split.{cents_at};
ghost use Rattle.review_desk.specs.Desk.{points_at};
ghost use Rattle.seat_quota.specs.Totals.{IsRow, among_places, found_in, row_among};

use dollar_split::split;
use house_base::limits::{MOST_OWN, MOST_REVIEWS};
use house_base::{Grid, Memory};
use review_desk::Desk;
use std::alloc::Global;

/// The most proposals of one person.
pub(crate) const MOST_ROW: usize = MOST_REVIEWS as usize * MOST_OWN as usize;

/// The proposals of a person, in the order of rising distance: those behind it, and round the end those before it.
pub(crate) fn row(alloc: Global, pairs: &Grid, reviewer: u32) -> Result<Vec<u32>, Memory>
    requires { reviewer < pairs.now.side }
    ensures { IfOk result (λ proposals. proposals.items ≡ row_among pairs.now.side (cell pairs.now) reviewer) }
{
    let side = pairs.side();
    let mut row = Vec::new(alloc);
    push_between(&mut row, pairs, reviewer, reviewer + 1, side)?;
    push_between(&mut row, pairs, reviewer, 0, reviewer + 1)?;
    Ok(row)
}

/// Puts the proposals of a person from one place up to another behind a row.
fn push_between(
    row: &mut Vec<u32>,
    pairs: &Grid,
    reviewer: u32,
    from: u32,
    to: u32,
) -> Result<(), Memory>
    requires reviewer { reviewer < pairs.now.side }
    requires from { from ≤ to }
    requires to { to ≤ pairs.now.side }
    ensures { OnOk result
        (row.new.items ≡ row.old.items ++ among_places (cell pairs.now reviewer) from (to - from)) }
{
    let mut next = from;
    while let Some(proposal) = pairs.next_in_row(reviewer, next) {
        if proposal >= to {
            return Ok(());
        }
        row.push(proposal)?;
        next = proposal + 1;
    }
    Ok(())
}

/// The cents that a person gives the proposals of its row, in their order; none where it has none.
pub(crate) fn row_cents(desk: &Desk, reviewer: u32, row: &[u32]) -> [u32; MOST_ROW]
    requires reviewer { reviewer < desk.now.pairs.side }
    requires row { IsRow desk.now.pairs.side row.now }
    ensures room { length row.now ≤ length result }
    ensures value { (i : ℕ) → i < length row.now → slice_index result i
        ≡ cents_at (map (points_at desk.now reviewer) row.now) i }
{
    let mut cents = [0; MOST_ROW];
    if row.is_empty() {
        return cents;
    }
    let mut points = [0; MOST_ROW];
    for i in 0..row.len() {
        points[i] = desk.points(reviewer, row[i]);
    }
    split(&points[..row.len()], &mut cents[..row.len()]);
    cents
}

/// Adds the cents of each proposal of a row to its score.
pub(crate) fn give(row: &[u32], cents: &[u32], scores: &mut [u64])
    requires row { IsRow (length scores.old) row.now }
    requires cents { length row.now ≤ length cents.now }
    requires most { (p : ℕ) → p < length scores.old → slice_index scores.old p < 2 ^ 63 }
    ensures { (p : ℕ) → p < length scores.old → slice_index scores.new p
        ≡ slice_index scores.old p + found_in cents.now row.now p }
{
    for i in 0..row.len() {
        scores[row[i] as usize] += u64::from(cents[i]);
    }
}
