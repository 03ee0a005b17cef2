//! The proposals of all persons, and the cents that they get from each.

ghost use Rattle.std.specs.Prelude.{◌≡◌, ℕ, ◌<◌, [], IfOk, length, map, get_or};
ghost use Rattle.house_base.specs.Grid.{cell};
ghost use Rattle.peer_selection.specs.Counting.{numbers_below};
ghost use Rattle.review_desk.specs.Desk.{IsSetUp};
ghost use Rattle.seat_quota.specs.Tally.{IsGiven, row_at};
ghost use Rattle.seat_quota.specs.Totals.{row_among};

use crate::row::{MOST_ROW, row, row_cents};
use house_base::{Grid, Memory, Plan};
use review_desk::Desk;
use std::alloc::Global;

/// The proposals of each person, by its place, in the order of rising distance.
pub(crate) fn rows(alloc: Global, pairs: &Grid) -> Result<Vec<Vec<u32>>, Memory>
    ensures { IfOk result (λ rows. map (λ row. row.items) rows.items
        ≡ map (row_among pairs.now.side (cell pairs.now)) (numbers_below pairs.now.side)) }
{
    let mut rows = Vec::new(alloc);
    for reviewer in 0..pairs.side() {
        rows.push(row(alloc, pairs, reviewer)?)?;
    }
    Ok(rows)
}

/// The cents that each person gives the proposals of its row, by its place.
pub(crate) fn cents(
    alloc: Global,
    plan: &Plan,
    desk: &Desk,
    rows: &[Vec<u32>],
) -> Result<Vec<[u32; MOST_ROW]>, Memory>
    requires desk { IsSetUp plan.now desk.now }
    requires rows { map (λ row. row.items) rows.now ≡ map (row_at desk.now) (numbers_below desk.now.pairs.side) }
    ensures each { IfOk result (λ cents. length cents.items ≡ desk.now.pairs.side) }
    ensures given { IfOk result (λ cents. (r : ℕ) → r < desk.now.pairs.side →
        IsGiven desk.now r (get_or cents.items r [])) }
{
    let mut cents = Vec::new(alloc);
    for reviewer in 0..plan.count() {
        cents.push(row_cents(desk, reviewer, &rows[reviewer as usize]))?;
    }
    Ok(cents)
}
