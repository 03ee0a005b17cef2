//! What the applicants get.

ghost use Rattle.std.specs.Prelude.{◌≡◌, ℕ, ◌<◌, length, IfOk};
ghost use Rattle.house_base.specs.Setting.{IsSetting, size};
ghost use Rattle.peer_selection.specs.Laws.{IsAssigned};
ghost use Rattle.peer_selection.specs.Profile.{Pairs, Points, profile_on};
ghost use Rattle.house_model.specs.Report.{applicant_row, applicant_rows_of, cluster_rows_of};
ghost use Rattle.seat_quota.specs.Totals.{HoldsTotals, IsTotals};

use exact_chance::chance;
use house_base::{Memory, Plan};
use house_model::{ApplicantRow, ClusterRow};
use rank_table::rank;
use seat_quota::Totals;
use std::alloc::Global;

/// What each applicant gets.
pub fn applicant_rows(
    alloc: Global,
    plan: &Plan,
    totals: &Totals,
    clusters: &[ClusterRow],
) -> Result<Vec<ApplicantRow>, Memory>
    requires totals { HoldsTotals plan.now totals.now }
    requires clusters { length clusters.now ≡ plan.now.clusters }
    ensures { IfOk result (λ rows. (pairs : Pairs) (points : Points) (v : ℕ) →
        IsAssigned (profile_on plan.now pairs points) →
        IsTotals (profile_on plan.now pairs points) totals.now →
        clusters.now ≡ cluster_rows_of (profile_on plan.now pairs points) v →
        rows.items ≡ applicant_rows_of (profile_on plan.now pairs points) v) }
{
    let mut rows = Vec::new(alloc);
    for number in 0..plan.count() {
        let place = plan.at_number(number);
        rows.push(applicant_row(plan, totals, clusters, place))?;
    }
    Ok(rows)
}

/// What the applicant at a place gets.
fn applicant_row(plan: &Plan, totals: &Totals, clusters: &[ClusterRow], place: u32) -> ApplicantRow
    requires setting { IsSetting plan.now }
    requires place { place < size plan.now }
    requires totals { HoldsTotals plan.now totals.now }
    requires clusters { length clusters.now ≡ plan.now.clusters }
    ensures { (pairs : Pairs) (points : Points) (v : ℕ) → IsAssigned (profile_on plan.now pairs points) →
        IsTotals (profile_on plan.now pairs points) totals.now →
        clusters.now ≡ cluster_rows_of (profile_on plan.now pairs points) v →
        result ≡ applicant_row (profile_on plan.now pairs points) v place }
{
    let person = plan.person(place);
    let rank = rank(plan, totals, place);
    let cluster = clusters[person.cluster as usize - 1];
    ApplicantRow {
        name: person.name,
        person: plan.owner_at(place).name,
        cluster: person.cluster,
        rank,
        cents: totals.score(place),
        chance: chance(cluster.quota, totals.denominator(), rank),
        chosen: u64::from(rank) <= cluster.seats,
    }
}
