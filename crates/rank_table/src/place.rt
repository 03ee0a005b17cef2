//! The place of an applicant among the members of its cluster, by falling score.

ghost use Rattle.std.specs.Prelude.{◌≡◌, ◌<◌, ◌≤◌, slice_index};
ghost use Rattle.house_base.specs.Setting.{size};
ghost use Rattle.peer_selection.specs.Profile.{Pairs, Points, rank, profile_on};
ghost use Rattle.seat_quota.specs.Totals.{HoldsTotals, IsTotals};
ghost use Rattle.rank_table.specs.Rank.{goes_before};

use house_base::Plan;
use seat_quota::Totals;

/// The rank of the applicant at a place in its cluster, from 1: one more than the members with a greater score, or
/// with an equal one and a smaller place. The totals are those of any points that were given for this plan.
pub fn rank(plan: &Plan, totals: &Totals, place: u32) -> u32
    requires place { place < size plan.now }
    requires totals { HoldsTotals plan.now totals.now }
    ensures from_one { 1 ≤ result }
    ensures value { (pairs : Pairs) (points : Points) → IsTotals (profile_on plan.now pairs points) totals.now →
        result ≡ rank (profile_on plan.now pairs points) place }
{
    let mut before = 0;
    for rival in 0..plan.count() {
        if goes_before(plan, totals, rival, place) {
            before += 1;
        }
    }
    before + 1
}

/// Whether an applicant goes before another one of its cluster.
fn goes_before(plan: &Plan, totals: &Totals, rival: u32, place: u32) -> bool
    requires rival { rival < size plan.now }
    requires place { place < size plan.now }
    requires totals { HoldsTotals plan.now totals.now }
    ensures { result ≡ goes_before plan.now (slice_index totals.now.scores) rival place }
{
    let score = totals.score(rival);
    let own = totals.score(place);
    let same_cluster = plan.person(rival).cluster == plan.person(place).cluster;
    same_cluster && (score > own || score == own && rival < place)
}
