//! What the clusters get.

ghost use Rattle.std.specs.Prelude.{◌≡◌, ◌-◌, ◌<◌, ◌≤◌, All, length, IfOk};
ghost use Rattle.std.specs.List.{sum_by};
ghost use Rattle.house_base.specs.Setting.{IsSetting};
ghost use Rattle.house_base.specs.declared.limits.TheConstants.{MOST_SEATS, MOST_CLUSTERS};
ghost use Rattle.peer_selection.specs.Profile.{Pairs, Points, denominator, cluster_size, profile_on};
ghost use Rattle.house_model.specs.Report.{cluster_rows_of};
ghost use Rattle.seat_quota.specs.Totals.{HoldsTotals, IsTotals};

use house_base::{Memory, Plan};
use house_model::ClusterRow;
use seat_lottery::seats;
use seat_quota::Totals;
use std::alloc::Global;

/// What each cluster gets.
pub fn cluster_rows(
    alloc: Global,
    plan: &Plan,
    totals: &Totals,
    draw: u64,
) -> Result<Vec<ClusterRow>, Memory>
    requires setting { IsSetting plan.now }
    requires totals { HoldsTotals plan.now totals.now }
    requires draw { draw < denominator plan.now }
    ensures filled { IfOk result (λ rows. All (λ row. (row.filled ≤ row.seats) × (row.seats ≤ MOST_SEATS)) rows.items) }
    ensures len { IfOk result (λ rows. length rows.items ≡ plan.now.clusters) }
    ensures value { IfOk result (λ rows. (pairs : Pairs) (points : Points) →
        IsTotals (profile_on plan.now pairs points) totals.now →
        rows.items ≡ cluster_rows_of (profile_on plan.now pairs points) draw) }
{
    let call = plan.call();
    let den = totals.denominator();
    let mut rows = Vec::new(alloc);
    let mut before = 0;
    for index in 0..call.clusters {
        let cents = totals.cluster_cents(index + 1);
        let quota = u64::from(call.seats) * cents;
        let seats = seats(before, quota, den, draw);
        let filled = seats.min(u64::from(cluster_size(plan, index + 1)));
        rows.push(ClusterRow {
            cents,
            quota,
            seats,
            filled,
        })?;
        before += quota;
    }
    Ok(rows)
}

/// How many applicants a cluster has.
fn cluster_size(plan: &Plan, cluster: u32) -> u32
    ensures { result ≡ cluster_size plan.now cluster }
{
    let mut size = 0;
    for place in 0..plan.count() {
        if plan.person(place).cluster == cluster {
            size += 1;
        }
    }
    size
}

/// The seats that stay empty.
pub fn empty_seats(clusters: &[ClusterRow]) -> u64
    requires filled { All (λ row. (row.filled ≤ row.seats) × (row.seats ≤ MOST_SEATS)) clusters.now }
    requires few { length clusters.now ≤ MOST_CLUSTERS }
    ensures { result ≡ sum_by (λ row. row.seats - row.filled) clusters.now }
{
    let mut empty = 0;
    for row in clusters {
        empty += row.seats - row.filled;
    }
    empty
}
