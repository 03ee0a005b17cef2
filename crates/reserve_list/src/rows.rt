//! The rows of an outcome, looked at for a board.

ghost use Rattle.std.specs.Prelude.{◌≡◌, ℕ, ◌-◌, ◌^◌, ◌<◌, ◌≤◌, ◌&&◌, IfSome, nat_le, nat_lt, true, length, position, slice_index, if◌then◌else◌};
ghost use Rattle.std.specs.Str.{bytes_eq};
ghost use Rattle.reserve_list.specs.Board.{cluster_on, count_of, is_behind, number_of, quota_on, seats_on, seats_up_to};

use house_base::Name;
use report_text::{ApplicantRow, Outcome};

/// The register number of a name.
#[tactic(auto, unfolding(crate::specs::Board::number_of))]
pub(crate) fn number_of(outcome: &Outcome, name: Name) -> Option<u32>
    requires { count_of outcome.now < 2 ^ 32 }
    ensures { result ≡ number_of outcome.now name }
{
    match first_of(outcome.applicants(), name) {
        Some(index) => Some(index as u32),
        None => None,
    }
}

/// The index of the first row with a name.
fn first_of(rows: &[ApplicantRow], name: Name) -> Option<usize>
    ensures value { result ≡ position (λ row. bytes_eq row.name name) rows.now }
    ensures within { IfSome result (λ index. index < length rows.now) }
{
    rows.iter().position(|row| row.name == name)
}

/// Whether one is in the cluster of another and of greater rank.
pub(crate) fn is_behind(outcome: &Outcome, number: u32, other: u32) -> bool
    requires number { number < count_of outcome.now }
    requires other { other < count_of outcome.now }
    ensures { result ≡ is_behind outcome.now number other }
{
    let ahead = outcome.applicants()[number as usize];
    let row = outcome.applicants()[other as usize];
    ahead.cluster == row.cluster && ahead.rank < row.rank
}

/// Whether a rank is the first that gets none of so many seats.
pub(crate) fn is_first_without(rank: u32, seats: u64) -> bool
    ensures { result ≡ (nat_lt seats rank && nat_le (rank - 1) seats) }
{
    let rank = u64::from(rank);
    seats < rank && rank - 1 <= seats
}

/// Takes one off the ranks of those behind a register number in its cluster.
pub(crate) fn come_forward(outcome: &Outcome, number: u32, ranks: &mut [u32])
    requires few { count_of outcome.now < 2 ^ 32 }
    requires number { number < count_of outcome.now }
    requires each { length ranks.old ≡ count_of outcome.now }
    requires some { (k : ℕ) → k < count_of outcome.now → is_behind outcome.now number k ≡ true → 1 ≤ slice_index ranks.old k }
    ensures each { length ranks.new ≡ length ranks.old }
    ensures ranks { (k : ℕ) → k < count_of outcome.now
        → slice_index ranks.new k ≡ slice_index ranks.old k - (if is_behind outcome.now number k then 1 else 0) }
{
    for other in 0..ranks.len() as u32 {
        if is_behind(outcome, number, other) {
            ranks[other as usize] -= 1;
        }
    }
}

/// The seats of the cluster of a register number at the draw.
pub(crate) fn seats(outcome: &Outcome, number: u32) -> u64
    requires number { number < count_of outcome.now }
    requires from_one { 1 ≤ cluster_on outcome.now number }
    requires within { cluster_on outcome.now number ≤ length outcome.now.cluster_rows }
    ensures { result ≡ seats_on outcome.now (cluster_on outcome.now number) }
{
    let cluster = outcome.applicants()[number as usize].cluster;
    outcome.clusters()[cluster as usize - 1].seats
}

/// The quota of the cluster of a register number.
pub(crate) fn quota(outcome: &Outcome, number: u32) -> u64
    requires number { number < count_of outcome.now }
    requires from_one { 1 ≤ cluster_on outcome.now number }
    requires within { cluster_on outcome.now number ≤ length outcome.now.cluster_rows }
    ensures { result ≡ quota_on outcome.now (cluster_on outcome.now number) }
{
    let cluster = outcome.applicants()[number as usize].cluster;
    outcome.clusters()[cluster as usize - 1].quota
}

/// The seats of all clusters at the draw.
pub(crate) fn all_seats(outcome: &Outcome) -> u64
    requires { seats_up_to outcome.now (length outcome.now.cluster_rows) < 2 ^ 63 }
    ensures { result ≡ seats_up_to outcome.now (length outcome.now.cluster_rows) }
{
    let clusters = outcome.clusters();
    let mut seats = 0;
    for index in 0..clusters.len() {
        seats += clusters[index].seats;
    }
    seats
}
